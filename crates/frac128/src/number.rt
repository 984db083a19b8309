//! Whole numbers within -(2^127 - 1) to 2^127 - 1, and arithmetic that refuses to leave that range.

ghost use Rattle.frac128.specs.Range.{IsInRange};
ghost use Rattle.integers.specs.Divisibility.{IsGcdOf, gcd_of};
ghost use Rattle.std.specs.Int.{IsGcd};
ghost use Rattle.std.specs.Prelude.{◌≡◌, pos, neg_ℤ, unsigned_abs, int_div, ◌+ℤ◌, ◌-ℤ◌, ◌*ℤ◌, ◌≤ℤ◌, ◌<ℤ◌, OkIff};

use std::marker::Model;

/// A number left the range -(2^127 - 1) to 2^127 - 1.
#[derive(Clone, Copy, Debug, PartialEq, Eq)]
pub struct TooWide;

/// A whole number within -(2^127 - 1) to 2^127 - 1.
#[derive(Clone, Copy, Debug, PartialEq, Eq, PartialOrd, Ord)]
pub struct Number {
    value: i128,
}

impl Model for Number {
    ghost use Rattle.frac128.specs.Range.{IsInRange};
    ghost use Rattle.std.specs.Prelude.{ℤ};

    ghost Value = { ℤ };

    ghost view = { λ n. n.value };

    ghost inverse = { λ z. record { value = z } };

    ghost invariant = { λ n. IsInRange n.value };
}

/// A number as a multiple of a divisor and a rest below the divisor.
#[derive(Clone, Copy)]
pub struct Division {
    pub floor: Number,
    pub rest: Number,
}

impl Number {
    pub const ZERO: Number = Number { value: 0 };

    pub const ONE: Number = Number { value: 1 };

    /// The number, where it is within the range.
    pub fn make(value: i128) -> Result<Number, TooWide>
        ensures { OkIff result (IsInRange value) value }
    {
        if value == i128::MIN {
            Err(TooWide)
        } else {
            Ok(Number { value })
        }
    }

    /// A number that is known to be within the range.
    pub fn known(value: i128) -> Number
        requires { IsInRange value }
        ensures { result ≡ value }
    {
        Number { value }
    }

    /// The number as a plain one.
    pub fn get(self) -> i128
        ensures value { result ≡ self }
        ensures in_range { IsInRange self }
    {
        self.value
    }

    /// The sum.
    pub fn plus(self, other: Number) -> Result<Number, TooWide>
        ensures { OkIff result (IsInRange (self +ℤ other)) (self +ℤ other) }
    {
        if let (Ok(left), Ok(right)) = (i64::try_from(self.value), i64::try_from(other.value)) {
            return Number::make(sum_of_words(left, right));
        }
        match self.value.checked_add(other.value) {
            Some(sum) => Number::make(sum),
            None => Err(TooWide),
        }
    }

    /// The difference.
    pub fn minus(self, other: Number) -> Result<Number, TooWide>
        ensures { OkIff result (IsInRange (self -ℤ other)) (self -ℤ other) }
    {
        if let (Ok(left), Ok(right)) = (i64::try_from(self.value), i64::try_from(other.value)) {
            return Number::make(difference_of_words(left, right));
        }
        match self.value.checked_sub(other.value) {
            Some(difference) => Number::make(difference),
            None => Err(TooWide),
        }
    }

    /// The product.
    pub fn times(self, other: Number) -> Result<Number, TooWide>
        ensures { OkIff result (IsInRange (self *ℤ other)) (self *ℤ other) }
    {
        if let (Ok(left), Ok(right)) = (i64::try_from(self.value), i64::try_from(other.value)) {
            return Number::make(product_of_words(left, right));
        }
        match self.value.checked_mul(other.value) {
            Some(product) => Number::make(product),
            None => Err(TooWide),
        }
    }

    /// The number with the other sign.
    pub fn negated(self) -> Number
        ensures { result ≡ neg_ℤ self }
    {
        Number { value: -self.value }
    }

    /// The quotient, rounded toward 0.
    pub fn quotient(self, divisor: Number) -> Number
        requires { pos 0 <ℤ divisor }
        ensures { result ≡ int_div self divisor }
    {
        if let (Ok(number), Ok(by)) = (i64::try_from(self.value), i64::try_from(divisor.value)) {
            return Number {
                value: i128::from(quotient_of_words(number, by)),
            };
        }
        Number {
            value: self.value / divisor.value,
        }
    }

    /// The quotient rounded down, and the rest.
    pub fn divide(self, divisor: Number) -> Division
        requires { pos 0 <ℤ divisor }
        ensures whole { self ≡ result.floor *ℤ divisor +ℤ result.rest }
        ensures rest { (pos 0 ≤ℤ result.rest) × (result.rest <ℤ divisor) }
    {
        let floor = self.value / divisor.value;
        let rest = self.value % divisor.value;
        if rest < 0 {
            Division {
                floor: Number { value: floor - 1 },
                rest: Number {
                    value: rest + divisor.value,
                },
            }
        } else {
            Division {
                floor: Number { value: floor },
                rest: Number { value: rest },
            }
        }
    }

    /// The greatest common divisor, 0 where both numbers are 0.
    pub fn common_divisor(self, other: Number) -> Number
        ensures is { result ≡ gcd_of self other }
        ensures divisor { IsGcdOf self other (unsigned_abs result) }
        ensures sign { pos 0 ≤ℤ result }
    {
        let divisor = greatest_common_divisor(
            self.value.unsigned_abs(),
            other.value.unsigned_abs(),
        );
        Number {
            value: divisor as i128,
        }
    }
}

// The sum, which no two words take out of range.
fn sum_of_words(a: i64, b: i64) -> i128
    ensures { result ≡ a +ℤ b }
{
    i128::from(a) + i128::from(b)
}

// The difference, which no two words take out of range.
fn difference_of_words(a: i64, b: i64) -> i128
    ensures { result ≡ a -ℤ b }
{
    i128::from(a) - i128::from(b)
}

/// The product, which no two words take out of range.
pub(crate) fn product_of_words(a: i64, b: i64) -> i128
    ensures { result ≡ a *ℤ b }
{
    i128::from(a) * i128::from(b)
}

// The quotient, rounded toward 0.
fn quotient_of_words(a: i64, b: i64) -> i64
    requires { pos 0 <ℤ b }
    ensures { result ≡ int_div a b }
{
    a / b
}

// Euclid's algorithm, which goes on with words of half the width once both numbers fit.
fn greatest_common_divisor(a: u128, b: u128) -> u128
    ensures { IsGcd a b result }
{
    let mut x = a;
    let mut y = b;
    while y != 0 {
        if let (Ok(left), Ok(right)) = (u64::try_from(x), u64::try_from(y)) {
            return u128::from(common_divisor_of_words(left, right));
        }
        let rest = x % y;
        x = y;
        y = rest;
    }
    x
}

// Euclid's algorithm.
fn common_divisor_of_words(a: u64, b: u64) -> u64
    ensures { IsGcd a b result }
{
    let mut x = a;
    let mut y = b;
    while y != 0 {
        let rest = x % y;
        x = y;
        y = rest;
    }
    x
}
