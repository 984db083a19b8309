//! Whether data make a problem.

ghost use Rattle.std.specs.Prelude.{◌↔◌, ◌≤ℤ◌, pos, IsTrue};
ghost use Rattle.std.specs.List.{All};
ghost use Rattle.frac128.specs.Range.{IsInRange};
ghost use Rattle.frac128.specs.Problem.{IsRow};
ghost use Rattle.integers.specs.Vector.{AreNonNegative};

use crate::problem::Row;

// Whether the number is in range.
fn is_in_range(number: i128) -> bool
    ensures { IsTrue result ↔ IsInRange number }
{
    number != i128::MIN
}

// Whether the number is at least 0.
fn is_not_negative(number: i128) -> bool
    ensures { IsTrue result ↔ pos 0 ≤ℤ number }
{
    number >= 0
}

/// Whether each number is in range.
pub(super) fn are_in_range(numbers: &[i128]) -> bool
    ensures { IsTrue result ↔ All IsInRange numbers.now }
{
    numbers.iter().all(|number| is_in_range(*number))
}

/// Whether no number is below 0.
pub(super) fn are_not_negative(numbers: &[i128]) -> bool
    ensures { IsTrue result ↔ AreNonNegative numbers.now }
{
    numbers.iter().all(|number| is_not_negative(*number))
}

// Whether the row has one coefficient for each variable, and each of its numbers is in range.
fn is_row(row: &Row, vars: usize) -> bool
    ensures { IsTrue result ↔ IsRow vars row.now }
{
    row.coefs.as_slice().len() == vars
        && are_in_range(row.coefs.as_slice())
        && is_in_range(row.bound)
}

/// Whether each row has one coefficient for each variable, and each of its numbers is in range.
pub(super) fn are_rows(rows: &[Row], vars: usize) -> bool
    ensures { IsTrue result ↔ All (IsRow vars) rows.now }
{
    rows.iter().all(|row| is_row(row, vars))
}
