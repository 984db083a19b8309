//! Fractions rounded to decimal places.

ghost use Rattle.frac128.specs.Decimal.{IsDecimal, IsHalfUp, decimal_text, pointed_text};
ghost use Rattle.frac128.specs.declared.decimals.TheConstants.{MOST_PLACES};
ghost use Rattle.std.specs.Prelude.{◌≡◌, ◌+◌, ◌*◌, ◌<◌, ◌≤◌, ◌^◌, ◌↔◌, pos, ◌<ℤ◌, IsTrue, IfOk, string_bytes};

use crate::frac::Frac;
use std::alloc::{AllocError, Global};

/// The most decimal places that a fraction is rounded to.
pub const MOST_PLACES: u8 = 18;

impl Frac {
    /// The fraction rounded to so many decimal places, half away from 0.
    pub fn decimal(&self, alloc: Global, places: u8) -> Result<String, AllocError>
        requires some { 1 ≤ places }
        requires few { places ≤ MOST_PLACES }
        ensures rounded { IfOk result (λ text. IsDecimal self.now places (string_bytes text)) }
        ensures text { IfOk result (λ text. string_bytes text ≡ decimal_text self.now places) }
    {
        let num = self.num();
        let (whole, part) = rounded(num.unsigned_abs(), self.den().unsigned_abs(), places);
        pointed(alloc, shows_minus(num, whole, part), whole, part, places)
    }
}

// Whether the number is below 0, and is not rounded to 0.
fn shows_minus(num: i128, whole: u128, part: u64) -> bool
    ensures { IsTrue result ↔ ((num <ℤ pos 0) × (0 < whole + part)) }
{
    num < 0 && (whole > 0 || part > 0)
}

// The whole part, the point and so many digits.
fn pointed(
    alloc: Global,
    minus: bool,
    whole: u128,
    part: u64,
    places: u8,
) -> Result<String, AllocError>
    ensures { IfOk result (λ text. string_bytes text ≡ pointed_text minus whole part places) }
{
    let width = usize::from(places);
    if minus {
        format!(in alloc; "-{whole}.{part:0width$}")
    } else {
        format!(in alloc; "{whole}.{part:0width$}")
    }
}

// The whole part and the part behind the point of num/den to so many places, half up.
fn rounded(num: u128, den: u128, places: u8) -> (u128, u64)
    requires num_fits { num < 2 ^ 127 }
    requires den_fits { den < 2 ^ 127 }
    requires positive { 0 < den }
    requires few { places ≤ MOST_PLACES }
    ensures half_up { IsHalfUp (10 ^ places * num) den (result.0 * 10 ^ places + result.1) }
    ensures part { result.1 < 10 ^ places }
{
    let whole = num / den;
    let (part, left) = digits_behind(num % den, den, places);
    if left * 2 < den {
        return (whole, part);
    }
    if part + 1 < power(places) {
        (whole, part + 1)
    } else {
        (whole + 1, 0)
    }
}

// 10 to the power of places.
fn power(places: u8) -> u64
    requires { places ≤ MOST_PLACES }
    ensures { result ≡ 10 ^ places }
{
    10u64.pow(u32::from(places))
}

// The quotient and the remainder of 10^places rest by den.
fn digits_behind(rest: u128, den: u128, places: u8) -> (u64, u128)
    requires rest_below { rest < den }
    requires den_fits { den < 2 ^ 127 }
    requires few { places ≤ MOST_PLACES }
    ensures split { result.0 * den + result.1 ≡ 10 ^ places * rest }
    ensures below { result.1 < den }
    ensures part { result.0 < 10 ^ places }
{
    let mut part = 0;
    let mut left = rest;
    for place in 0..places {
        let (digit, next) = next_digit(left, den);
        part = part * 10 + digit;
        left = next;
    }
    (part, left)
}

// The quotient and the remainder of 10 rest by den.
fn next_digit(rest: u128, den: u128) -> (u64, u128)
    requires rest_below { rest < den }
    requires den_fits { den < 2 ^ 127 }
    ensures split { result.0 * den + result.1 ≡ 10 * rest }
    ensures below { result.1 < den }
    ensures digit { result.0 < 10 }
{
    let (q1, r1) = less_den(0, rest + rest, den);
    let (q2, r2) = less_den(q1 * 2, r1 + r1, den);
    let (q3, r3) = less_den(q2, r2 + rest, den);
    less_den(q3 * 2, r3 + r3, den)
}

// One den less where there is one, and counted.
fn less_den(quotient: u64, amount: u128, den: u128) -> (u64, u128)
    requires amount_below { amount < 2 * den }
    requires room { quotient < 16 }
    ensures split { result.0 * den + result.1 ≡ quotient * den + amount }
    ensures below { result.1 < den }
    ensures count { result.0 ≤ quotient + 1 }
{
    if amount < den {
        (quotient, amount)
    } else {
        (quotient + 1, amount - den)
    }
}
