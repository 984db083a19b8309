//! Exact fractions in lowest terms, whose parts are within -(2^127 - 1) to 2^127 - 1.

ghost use Rattle.frac128.specs.Checked.{checked_sum, checked_difference, checked_product, checked_quotient, IsExact, SumFits, DifferenceFits, ProductFits, QuotientFits};
ghost use Rattle.frac128.specs.Frac.{IsReduced, lowest_terms, opposite, reciprocal};
ghost use Rattle.frac128.specs.Range.{IsInRange};
ghost use Rattle.integers.specs.Divisibility.{IsLowest, gcd_of};
ghost use Rattle.integers.specs.Fraction.{fraction_difference, fraction_of, fraction_product, fraction_quotient, fraction_sum};
ghost use Rattle.std.specs.Ordering.{int_cmp};
ghost use Rattle.std.specs.Prelude.{◌≡◌, ◌≢◌, pos, ◌*ℤ◌, ◌≤ℤ◌, ◌<ℤ◌, IfOk, OnErr, OnOk};

use crate::number::{Number, TooWide};
use crate::order::compare_numbers;
use std::cmp::Ordering;
use std::marker::Model;

/// A fraction in lowest terms with a positive denominator; contracts see it as a `Fraction`.
#[derive(Clone, Copy, Debug, PartialEq, Eq)]
pub struct Frac {
    num: Number,
    den: Number,
}

impl Model for Frac {
    ghost use Rattle.integers.specs.Fraction.{Fraction};
    ghost use Rattle.integers.specs.Divisibility.{IsLowest};
    ghost use Rattle.std.specs.Prelude.{pos, ◌<ℤ◌};

    ghost Value = { Fraction };

    ghost view = { λ f. record { num = f.num; den = f.den } };

    ghost inverse = { λ f. record { num = f.num; den = f.den } };

    ghost invariant = { λ f. (pos 0 <ℤ f.den) × IsLowest f.num f.den };
}

impl Frac {
    /// The fraction `num / den`, in lowest terms. It refuses -2^127 in either place.
    pub fn make(num: i128, den: i128) -> Result<Frac, TooWide>
        requires { den ≢ pos 0 }
        ensures in_range { OnOk result (IsInRange num × IsInRange den) }
        ensures too_wide { OnErr result (¬ (IsInRange num × IsInRange den)) }
        ensures value { IfOk result (λ f. f.num *ℤ den ≡ num *ℤ f.den) }
        ensures lowest { IfOk result IsReduced }
    {
        let num = Number::make(num)?;
        let den = Number::make(den)?;
        if den < Number::ZERO {
            Ok(Frac::reduced(num.negated(), den.negated()))
        } else {
            Ok(Frac::reduced(num, den))
        }
    }

    /// The whole number as a fraction, which is over 1.
    pub fn whole(number: i128) -> Frac
        requires { IsInRange number }
        ensures { result ≡ fraction_of number }
    {
        Frac {
            num: Number::known(number),
            den: Number::ONE,
        }
    }

    /// The fraction of numbers whose type keeps the range, in lowest terms.
    pub fn reduced(num: Number, den: Number) -> Frac
        requires { pos 0 <ℤ den }
        ensures is { result ≡ lowest_terms (record { num = num; den = den }) }
        ensures value { result.num *ℤ den ≡ num *ℤ result.den }
        ensures lowest { IsReduced result }
    {
        let divisor = num.common_divisor(den);
        Frac {
            num: num.quotient(divisor),
            den: den.quotient(divisor),
        }
    }

    /// The numerator, which has the fraction's sign.
    pub fn num(&self) -> i128
        ensures value { result ≡ self.now.num }
        ensures in_range { IsInRange self.now.num }
    {
        self.num.get()
    }

    /// The denominator, at least 1.
    pub fn den(&self) -> i128
        ensures value { result ≡ self.now.den }
        ensures in_range { IsInRange self.now.den }
        ensures positive { pos 0 <ℤ self.now.den }
        ensures lowest { IsLowest self.now.num self.now.den }
    {
        self.den.get()
    }

    /// How the fraction compares with another.
    pub fn cmp(&self, other: &Frac) -> Ordering
        ensures { result ≡ int_cmp (self.now.num *ℤ other.now.den) (other.now.num *ℤ self.now.den) }
    {
        compare_numbers(self.num, self.den, other.num, other.den)
    }

    /// The sum, in lowest terms. For `a / b + c / d` and the greatest common divisor `g` of `b` and
    /// `d` it refuses where `a * (d / g)`, `c * (b / g)`, their sum or `b * (d / g)` is out of range.
    pub fn add(&self, other: &Frac) -> Result<Frac, TooWide>
        ensures is { result ≡ checked_sum self.now other.now }
        ensures exact { IsExact result (SumFits self.now other.now)
            (fraction_sum self.now other.now) }
    {
        self.add_by(other, self.den.common_divisor(other.den))
    }

    // The sum, with the greatest common divisor of the denominators.
    fn add_by(&self, other: &Frac, divisor: Number) -> Result<Frac, TooWide>
        requires divisor { divisor ≡ gcd_of self.now.den other.now.den }
        requires positive { pos 0 <ℤ divisor }
        ensures { IsExact result (SumFits self.now other.now) (fraction_sum self.now other.now) }
    {
        let left = self.den.quotient(divisor);
        let right = other.den.quotient(divisor);
        let num = self.num.times(right)?.plus(other.num.times(left)?)?;
        let den = self.den.times(right)?;
        Ok(Frac::reduced(num, den))
    }

    /// The difference, in lowest terms: the sum with the opposite, refused where that sum is.
    pub fn sub(&self, other: &Frac) -> Result<Frac, TooWide>
        ensures is { result ≡ checked_difference self.now other.now }
        ensures exact { IsExact result (DifferenceFits self.now other.now)
            (fraction_difference self.now other.now) }
    {
        self.add(&other.opposite())
    }

    // The fraction with the other sign.
    fn opposite(&self) -> Frac
        ensures { result ≡ opposite self.now }
    {
        Frac {
            num: self.num.negated(),
            den: self.den,
        }
    }

    /// The product, in lowest terms. For `a / b * c / d` and the greatest common divisors `g` of `a`
    /// and `d` and `h` of `c` and `b` it refuses where `(a / g) * (c / h)` or `(b / h) * (d / g)` is
    /// out of range.
    pub fn mul(&self, other: &Frac) -> Result<Frac, TooWide>
        ensures is { result ≡ checked_product self.now other.now }
        ensures exact { IsExact result (ProductFits self.now other.now)
            (fraction_product self.now other.now) }
    {
        let first = self.num.common_divisor(other.den);
        let second = other.num.common_divisor(self.den);
        self.mul_by(other, first, second)
    }

    // The product, with the greatest common divisors of each numerator and the other denominator.
    fn mul_by(&self, other: &Frac, first: Number, second: Number) -> Result<Frac, TooWide>
        requires first { first ≡ gcd_of self.now.num other.now.den }
        requires second { second ≡ gcd_of other.now.num self.now.den }
        requires positive { (pos 0 <ℤ first) × (pos 0 <ℤ second) }
        ensures { IsExact result (ProductFits self.now other.now)
            (fraction_product self.now other.now) }
    {
        let num = self.num.quotient(first).times(other.num.quotient(second))?;
        let den = self.den.quotient(second).times(other.den.quotient(first))?;
        Ok(Frac { num, den })
    }

    /// The quotient by a fraction other than 0, in lowest terms: the product with its reciprocal,
    /// refused where that product is.
    pub fn div(&self, other: &Frac) -> Result<Frac, TooWide>
        requires { other.now.num ≢ pos 0 }
        ensures is { result ≡ checked_quotient self.now other.now }
        ensures exact { IsExact result (QuotientFits self.now other.now)
            (fraction_quotient self.now other.now) }
    {
        self.mul(&other.reciprocal())
    }

    // The reciprocal.
    fn reciprocal(&self) -> Frac
        requires { self.now.num ≢ pos 0 }
        ensures { result ≡ reciprocal self.now.num self.now.den }
    {
        if self.num < Number::ZERO {
            Frac {
                num: self.den.negated(),
                den: self.num.negated(),
            }
        } else {
            Frac {
                num: self.den,
                den: self.num,
            }
        }
    }
}
