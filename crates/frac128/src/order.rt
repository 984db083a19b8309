//! The order of fractions: by products of words where all numbers are such, else by Euclid's steps,
//! which form no product.

ghost use Rattle.frac128.specs.Range.{IsInRange};
ghost use Rattle.std.specs.Ordering.{int_cmp};
ghost use Rattle.std.specs.Prelude.{◌≡◌, pos, ◌*ℤ◌, ◌<ℤ◌};

use crate::number::{Number, product_of_words};
use std::cmp::Ordering;

/// How `a / b` compares with `c / d`, for denominators of at least 1 and numbers within -(2^127 - 1)
/// to 2^127 - 1.
pub fn compare(a: i128, b: i128, c: i128, d: i128) -> Ordering
    requires positive { (pos 0 <ℤ b) × (pos 0 <ℤ d) }
    requires left_in_range { IsInRange a × IsInRange b }
    requires right_in_range { IsInRange c × IsInRange d }
    ensures { result ≡ int_cmp (a *ℤ d) (c *ℤ b) }
{
    compare_numbers(
        Number::known(a),
        Number::known(b),
        Number::known(c),
        Number::known(d),
    )
}

/// The same for numbers whose type keeps the range.
pub fn compare_numbers(a: Number, b: Number, c: Number, d: Number) -> Ordering
    requires { (pos 0 <ℤ b) × (pos 0 <ℤ d) }
    ensures { result ≡ int_cmp (a *ℤ d) (c *ℤ b) }
{
    if let (Ok(left), Ok(under_right)) = (i64::try_from(a.get()), i64::try_from(d.get())) {
        if let (Ok(right), Ok(under_left)) = (i64::try_from(c.get()), i64::try_from(b.get())) {
            return product_of_words(left, under_right).cmp(&product_of_words(right, under_left));
        }
    }
    compare_by_steps(a, b, c, d)
}

// The same by Euclid's steps. Where the whole parts agree, r / b and s / d are left, which compare as
// d / s and b / r do.
fn compare_by_steps(a: Number, b: Number, c: Number, d: Number) -> Ordering
    requires { (pos 0 <ℤ b) × (pos 0 <ℤ d) }
    ensures { result ≡ int_cmp (a *ℤ d) (c *ℤ b) }
{
    let mut left = a;
    let mut under_left = b;
    let mut right = c;
    let mut under_right = d;
    loop {
        let first = left.divide(under_left);
        let second = right.divide(under_right);
        if first.floor != second.floor {
            return first.floor.cmp(&second.floor);
        }
        if first.rest == Number::ZERO || second.rest == Number::ZERO {
            return first.rest.cmp(&second.rest);
        }
        left = under_right;
        right = under_left;
        under_left = second.rest;
        under_right = first.rest;
    }
}
