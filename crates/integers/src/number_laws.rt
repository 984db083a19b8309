//! Laws of the definitions, as contracts of functions that do nothing.

ghost use Rattle.integers.specs.Counting.{choices, choose};
ghost use Rattle.integers.specs.Divisibility.{IsGcdOf, IsGcdOfAll, common_divisor, divisor_of_all, gcd_of};
ghost use Rattle.integers.specs.Fraction.{AreFractions, Fraction, IsWriting, SameFraction, SameFractions, common_den, common_nums, over, running_fraction_sums, sum_of_fractions};
ghost use Rattle.integers.specs.Vector.{column_of, dot, dot_each, int_sum, running_sums, scale, weighted_sum};
ghost use Rattle.std.specs.Int.{IsGcd};
ghost use Rattle.std.specs.List.Sorted.{IsStrictlyIncreasing};
ghost use Rattle.std.specs.Prelude.{◌≡◌, ◌↔◌, ◌<◌, ◌≤ℤ◌, All, Contains, ℕ, List, ℤ, get_or, length, pos, unsigned_abs};

/// States that the common divisors are the greatest: of two naturals, of two numbers, and of a list.
pub fn divisors_are_greatest()
    ensures naturals { (a b : ℕ) → IsGcd a b (common_divisor a b) }
    ensures numbers { (a b : ℤ) → IsGcdOf a b (unsigned_abs (gcd_of a b)) }
    ensures sign { (a b : ℤ) → pos 0 ≤ℤ gcd_of a b }
    ensures lists { (xs : List ℤ) → IsGcdOfAll xs (divisor_of_all xs) }
{}

/// States that each list of fractions is a list of whole numbers over one denominator.
pub fn fractions_have_a_writing()
    ensures { (fs : List Fraction) → AreFractions fs
        → IsWriting fs (common_nums fs) (common_den fs) }
{}

/// States that two writings of one list name the same numbers and have one list of cross multiples.
pub fn writings_agree()
    ensures same { (fs : List Fraction) (w : List ℤ) (n : ℤ) (v : List ℤ) (m : ℤ)
        → AreFractions fs → IsWriting fs w n → IsWriting fs v m
        → SameFractions (over w n) (over v m) }
    ensures cross { (fs : List Fraction) (w : List ℤ) (n : ℤ) (v : List ℤ) (m : ℤ)
        → AreFractions fs → IsWriting fs w n → IsWriting fs v m → scale m w ≡ scale n v }
{}

/// States that a writing's sum and running sums are those of the fractions.
pub fn writings_sum()
    ensures sum { (fs : List Fraction) (w : List ℤ) (n : ℤ) → IsWriting fs w n
        → SameFraction (record { num = int_sum w; den = n }) (sum_of_fractions fs) }
    ensures running { (a : Fraction) (z : ℤ) (fs : List Fraction) (w : List ℤ) (n : ℤ)
        → SameFraction (record { num = z; den = n }) a → IsWriting fs w n
        → IsWriting (running_fraction_sums a fs) (running_sums z w) n }
{}

/// States what a weighted sum of rows is: by its product with a list, and by each of its places.
pub fn weighted_sums()
    ensures products { (ys : List ℤ) (rows : List (List ℤ)) (us : List ℤ)
        → dot (weighted_sum ys rows) us ≡ dot ys (dot_each rows us) }
    ensures places { (ys : List ℤ) (rows : List (List ℤ)) (j : ℕ)
        → get_or (weighted_sum ys rows) j (pos 0) ≡ dot ys (column_of j rows) }
{}

/// States that the choices of k of n numbers are all rising lists of k numbers below n, and counts
/// them.
pub fn choices_are_counted()
    ensures members { (n k : ℕ) (xs : List ℕ) → Contains (choices n k) xs
        ↔ (IsStrictlyIncreasing xs × All (λ x. x < n) xs × (length xs ≡ k)) }
    ensures count { (n k : ℕ) → length (choices n k) ≡ choose n k }
{}
