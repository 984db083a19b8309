//! The columns of a combination of rows.

ghost use Rattle.std.specs.Prelude.{◌≡◌, ◌<◌, ◌≤ℤ◌, ◌↔◌, get_or, pos, length, IsTrue, MatchResult};
ghost use Rattle.frac128.specs.Problem.{AreRowMultipliers};
ghost use Rattle.cert_check.specs.Columns.{IsColumnBelow, ColumnFits, IsColumnAnswer};

use crate::sums::column_sum;
use frac128::problem::Problem;
use frac128::{Number, TooWide};

// The cost of the variable at `j`.
fn cost_of(problem: &Problem, j: usize) -> Number
    requires { j < problem.now.vars }
    ensures { result ≡ get_or problem.now.cost j (pos 0) }
{
    Number::known(problem.cost()[j])
}

// Whether the first number is at most the second.
fn is_at_most(sum: Number, most: Number) -> bool
    ensures { IsTrue result ↔ sum ≤ℤ most }
{
    sum <= most
}

// Whether the column's coefficient is at most `den` times its cost.
fn is_below(problem: &Problem, den: Number, on: &[(usize, i128)], j: usize) -> Result<bool, TooWide>
    requires entries { AreRowMultipliers (length problem.now.rows) on.now }
    requires column { j < problem.now.vars }
    ensures { MatchResult result
        (λ below. ColumnFits problem.now den on.now j × (IsTrue below ↔ IsColumnBelow problem.now den on.now j))
        (λ _. ¬ ColumnFits problem.now den on.now j) }
{
    let sum = column_sum(problem, on, j)?;
    let most = den.times(cost_of(problem, j))?;
    Ok(is_at_most(sum, most))
}

/// The place of the first column whose coefficient is above `den` times its cost.
pub(crate) fn first_false_column(
    problem: &Problem,
    den: Number,
    on: &[(usize, i128)],
) -> Result<Option<usize>, TooWide>
    requires entries { AreRowMultipliers (length problem.now.rows) on.now }
    ensures { IsColumnAnswer problem.now den on.now result }
{
    for j in 0..problem.vars() {
        if !is_below(problem, den, on, j)? {
            return Ok(Some(j));
        }
    }
    Ok(None)
}
