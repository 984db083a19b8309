//! Sums over the entries of a certificate.

ghost use Rattle.std.specs.Prelude.{◌≡◌, ◌<◌, length, pos, ◌+ℤ◌, ◌*ℤ◌, ◌≤ℤ◌, All, OkIff};
ghost use Rattle.integers.specs.Vector.{int_sum};
ghost use Rattle.frac128.specs.Problem.{AreRowMultipliers, row_at};
ghost use Rattle.frac128.specs.Range.{IsInRange};
ghost use Rattle.cert_check.specs.Entries.{entry_at, products_on, added_in_turn, coefficient, bound};

use frac128::problem::Problem;
use frac128::{Number, TooWide};

// The sum with a product.
fn plus_product(sum: Number, multiplier: Number, number: Number) -> Result<Number, TooWide>
    ensures { OkIff result (IsInRange (multiplier *ℤ number)
        × IsInRange (sum +ℤ multiplier *ℤ number))
        (sum +ℤ multiplier *ℤ number) }
{
    sum.plus(multiplier.times(number)?)
}

// The multiplier of the entry at `i`.
fn multiplier_at(on: &[(usize, i128)], i: usize) -> Number
    requires entry { i < length on.now }
    requires nonneg { pos 0 ≤ℤ (entry_at on.now i).1 }
    ensures { result ≡ (entry_at on.now i).1 }
{
    Number::known(on[i].1)
}

// A row's coefficient of the variable at `j`.
fn coefficient_of(problem: &Problem, row: usize, j: usize) -> Number
    requires row { row < length problem.now.rows }
    requires column { j < problem.now.vars }
    ensures { result ≡ coefficient j (row_at problem.now.rows row) }
{
    Number::known(problem.rows()[row].coefs.as_slice()[j])
}

// A row's bound.
fn bound_of(problem: &Problem, row: usize) -> Number
    requires { row < length problem.now.rows }
    ensures { result ≡ bound (row_at problem.now.rows row) }
{
    Number::known(problem.rows()[row].bound)
}

/// The sum over the entries of multiplier times coefficient in the column at `j`.
pub(crate) fn column_sum(
    problem: &Problem,
    on: &[(usize, i128)],
    j: usize,
) -> Result<Number, TooWide>
    requires entries { AreRowMultipliers (length problem.now.rows) on.now }
    requires column { j < problem.now.vars }
    ensures { OkIff result (All IsInRange (added_in_turn (pos 0)
        (products_on (coefficient j) problem.now.rows on.now)))
        (int_sum (products_on (coefficient j) problem.now.rows on.now)) }
{
    let mut sum = Number::ZERO;
    for i in 0..on.len() {
        let number = coefficient_of(problem, on[i].0, j);
        sum = plus_product(sum, multiplier_at(on, i), number)?;
    }
    Ok(sum)
}

/// The sum over the entries of multiplier times bound.
pub(crate) fn bound_sum(problem: &Problem, on: &[(usize, i128)]) -> Result<Number, TooWide>
    requires entries { AreRowMultipliers (length problem.now.rows) on.now }
    ensures { OkIff result (All IsInRange (added_in_turn (pos 0)
        (products_on bound problem.now.rows on.now)))
        (int_sum (products_on bound problem.now.rows on.now)) }
{
    let mut sum = Number::ZERO;
    for i in 0..on.len() {
        let number = bound_of(problem, on[i].0);
        sum = plus_product(sum, multiplier_at(on, i), number)?;
    }
    Ok(sum)
}
