//! One turn of a table.

ghost use Rattle.lex_simplex.specs.State.{IsWorkable};
ghost use Rattle.lex_simplex.specs.State.{IsTurned};

use crate::cells::Cells;
use crate::choice::{entering, leaving};
use crate::end::{End, PivotFault};
use frac128::TooWide;

/// What a turn made of a tableau.
#[derive(Clone, Copy, Debug, PartialEq, Eq)]
pub(crate) enum Turned {
    /// The next tableau.
    Pivoted,
    /// Nothing, or with `TooWide` something that is of no use any more.
    Ended(Result<End, PivotFault>),
}

/// One turn.
pub(crate) fn turn(cells: &mut Cells) -> Turned
    requires { IsWorkable cells.old }
    ensures { IsTurned cells.old cells.new result }
{
    let Some(row) = leaving(cells) else {
        return Turned::Ended(Ok(End::Optimal));
    };
    let Some(column) = entering(cells, row) else {
        return Turned::Ended(Ok(End::Empty));
    };
    match cells.pivot(row, column) {
        Ok(()) => Turned::Pivoted,
        Err(TooWide) => Turned::Ended(Err(PivotFault::TooWide)),
    }
}
