//! The answer to a problem.

ghost use Rattle.frac128.specs.Problem.{IsInfeasible};
ghost use Rattle.integers.specs.Counting.{choose};
ghost use Rattle.lex_simplex.specs.Columns.{column_set};
ghost use Rattle.lex_simplex.specs.Run.{IsSolved};
ghost use Rattle.lex_simplex.specs.Tableau.{Tableau, start};
ghost use Rattle.lex_simplex.specs.Turn.{IsRun, Reaches};
ghost use Rattle.std.specs.Prelude.{◌≡◌, ◌≢◌, ℕ, suc, ◌+◌, ◌<◌, length, Result as Ended};

use crate::count::Count;
use crate::end::{End, PivotFault};
use crate::outcome::Outcome;
use crate::table::Table;
use frac128::NoMemory;
use frac128::problem::Problem;
use std::alloc::Global;

/// Why a problem has no answer.
#[derive(Clone, Copy, Debug, PartialEq, Eq)]
pub enum SolveFault {
    /// A product or difference of a pivot left the range -(2^127 - 1) to 2^127 - 1.
    TooWide,
    /// There is not enough memory.
    NoMemory,
}

impl From<NoMemory> for SolveFault {
    ghost use Rattle.lex_simplex.specs.declared.solver.SolveFault.TheVariants as given;

    ghost from_gives = { λ _ fault. fault ≡ given.NoMemory };

    fn from(_: NoMemory) -> SolveFault {
        SolveFault::NoMemory
    }
}

/// The least point of a problem, its cost and a certificate of it, or a certificate that no point
/// meets all rows. The count rises by the pivots of the problem's run, and after want of memory it
/// is as before.
pub fn solve(alloc: Global, problem: &Problem, pivots: &mut Count) -> Result<Outcome, SolveFault>
    ensures { IsSolved problem.now pivots.old result pivots.new }
{
    let mut table = Table::make(alloc, problem)?;
    let mut made = Count::new();
    if table.pivot_all(&mut made).is_err() {
        pivots.add(&made);
        return Err(SolveFault::TooWide);
    }
    let outcome = table.outcome(alloc)?;
    pivots.add(&made);
    Ok(outcome)
}
