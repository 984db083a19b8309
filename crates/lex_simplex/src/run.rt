//! Turns until an end.

ghost use Rattle.lex_simplex.specs.Run.{IsRunMade};
ghost use Rattle.lex_simplex.specs.State.{IsWorkable, IsKept};
ghost use Rattle.std.specs.Prelude.{Some as HasEnded};

use crate::cells::Cells;
use crate::count::Count;
use crate::end::{End, PivotFault};
use crate::turn::{Turned, turn};

/// Makes turns until one ends, and counts the pivots.
pub(crate) fn run(cells: &mut Cells, pivots: &mut Count) -> Result<End, PivotFault>
    requires { IsWorkable cells.old }
    ensures run { IsRunMade cells.old pivots.old result cells.new pivots.new }
    ensures kept { IsKept cells.new (HasEnded result) }
{
    // For the prover alone: a count fits 64 bits.
    prove!(pivots.made() <= u64::MAX);
    loop {
        if let Turned::Ended(end) = turn(cells) {
            return end;
        }
        pivots.add_one();
    }
}
