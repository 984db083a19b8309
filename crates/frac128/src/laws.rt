//! Laws of the definitions, as contracts of functions that do nothing.

ghost use Rattle.frac128.specs.Checked.{checked_sum, checked_difference, checked_product, checked_quotient, IsExact, SumFits, DifferenceFits, ProductFits, QuotientFits};
ghost use Rattle.frac128.specs.Decimal.{IsNearest};
ghost use Rattle.frac128.specs.Text.{Writes};
ghost use Rattle.frac128.specs.Frac.{IsReduced, lowest_terms};
ghost use Rattle.integers.specs.Fraction.{AreFractions, Fraction, IsFraction, SameFraction, fraction_difference, fraction_product, fraction_quotient, fraction_sum};
ghost use Rattle.std.specs.Bool.{Decides};
ghost use Rattle.std.specs.Prelude.{◌≡◌, ◌≢◌, ◌↔◌, IsTrue, All, ℕ, List as Items, ℤ, pos};

use crate::problem::{Cert, Problem, Row};
use crate::{Frac, List};

/// States that a checked sum is the sum in lowest terms, exactly where the numbers that it forms are
/// in range.
pub fn sums_are_exact()
    ensures { (f g : Fraction) → IsFraction f → IsFraction g
        → IsExact (checked_sum f g) (SumFits f g) (fraction_sum f g) }
{}

/// States the same of a checked difference.
pub fn differences_are_exact()
    ensures { (f g : Fraction) → IsFraction f → IsFraction g
        → IsExact (checked_difference f g) (DifferenceFits f g) (fraction_difference f g) }
{}

/// States the same of a checked product.
pub fn products_are_exact()
    ensures { (f g : Fraction) → IsFraction f → IsFraction g
        → IsExact (checked_product f g) (ProductFits f g) (fraction_product f g) }
{}

/// States the same of a checked quotient by a fraction other than 0.
pub fn quotients_are_exact()
    ensures { (f g : Fraction) → IsFraction f → g.num ≢ pos 0
        → IsExact (checked_quotient f g) (QuotientFits f g) (fraction_quotient f g) }
{}

/// States that each fraction has one way to be written in lowest terms.
pub fn lowest_terms_are_unique()
    ensures reduced { (f : Fraction) → IsFraction f → IsReduced (lowest_terms f) }
    ensures same { (f : Fraction) → IsFraction f → SameFraction (lowest_terms f) f }
    ensures unique { (f g : Fraction) → IsFraction g → IsReduced f → SameFraction f g
        → f ≡ lowest_terms g }
{}

/// Whether two lists are equal: exactly where they are one, if that holds of their items.
pub fn are_equal_lists<T: PartialEq>(a: &List<T>, b: &List<T>) -> bool
    ensures { ((x y : T) → Decides (T.eq x y) (x ≡ y)) → Decides result (a.now ≡ b.now) }
{
    a == b
}

/// Whether two rows are equal: exactly where they are one.
pub fn are_equal_rows(a: &Row, b: &Row) -> bool
    ensures { IsTrue result ↔ (a.now ≡ b.now) }
{
    a == b
}

/// Whether two problems are equal: exactly where they are one.
pub fn are_equal_problems(a: &Problem, b: &Problem) -> bool
    ensures { IsTrue result ↔ (a.now ≡ b.now) }
{
    a == b
}

/// Whether two certificates are equal: exactly where they are one.
pub fn are_equal_certs(a: &Cert, b: &Cert) -> bool
    ensures { IsTrue result ↔ (a.now ≡ b.now) }
{
    a == b
}

/// States that a fraction is rounded to one number only.
pub fn roundings_are_unique()
    ensures { (scale : ℕ) (f : Fraction) (k m : ℤ) → IsFraction f
        → IsNearest scale f k → IsNearest scale f m → k ≡ m }
{}

/// States that bytes write one pair of numbers only.
pub fn a_text_writes_one_pair()
    ensures { (bytes : Items ℕ) (n m : ℤ) (d e : ℕ)
        → Writes bytes n d → Writes bytes m e → (n ≡ m) × (d ≡ e) }
{}

/// States what the type of fractions keeps, of each of a list: a positive denominator, and lowest
/// terms. It only reads them, since what a type keeps is told where it is read.
pub fn are_fractions(fractions: &[Frac])
    ensures positive { AreFractions fractions.now }
    ensures lowest { All IsReduced fractions.now }
{
    for fraction in fractions {
        // For the prover alone: a read tells what the type keeps.
        let _ = fraction.den();
    }
}
