//! A pivot on the cells of a tableau.

ghost use Rattle.lex_simplex.specs.Cells.{HaveRoom, tableau_in};
ghost use Rattle.lex_simplex.specs.Pivot.{IsEntering, PivotFits};
ghost use Rattle.lex_simplex.specs.State.{IsWorkable};
ghost use Rattle.lex_simplex.specs.Steps.{CanExchange, DoneIff, ExchangesFit, exchanged_row};
ghost use Rattle.lex_simplex.specs.Turn.{pivoted_tableau};
ghost use Rattle.std.specs.Prelude.{◌≡◌, ◌<◌, length, map, All, IfOk};

use crate::grid::Grid;
use crate::pivot_row::PivotRow;
use frac128::{Number, TooWide};

/// The pivot on the row of a quantity and a column. Where it refuses, the cells are of no use any
/// more.
pub(crate) fn pivot_cells(
    grid: &mut Grid,
    columns: &mut [usize],
    room: &mut PivotRow,
    row: usize,
    column: usize,
) -> Result<(), TooWide>
    requires room { HaveRoom columns.old grid.old room.old }
    requires tableau { IsWorkable (tableau_in grid.old columns.old) }
    requires row { row < length (tableau_in grid.old columns.old).rows }
    requires column { IsEntering (tableau_in grid.old columns.old) row column }
    ensures done { let before = tableau_in grid.old columns.old in
        DoneIff result (PivotFits before row column) (tableau_in grid.new columns.new)
        (pivoted_tableau before row column) }
    ensures workable { IfOk result (λ _. IsWorkable (tableau_in grid.new columns.new)) }
    ensures room { HaveRoom columns.new grid.new room.new }
    ensures same_length { length columns.new ≡ length columns.old }
{
    let number = {
        let cells = grid.quantity(row);
        room.prepare(cells, column);
        cells[column + 2]
    };
    columns[column] = row;
    pivot_rows(grid, room, column + 2, number)
}

/// Makes of each row what a pivot makes of it, by the pivot row's prepared cells and its number in
/// the pivot column, whose cells stand at `place`. Where it refuses, some product or difference is
/// out of range, and the rows are of no use any more.
fn pivot_rows(
    grid: &mut Grid,
    pivot: &PivotRow,
    place: usize,
    number: Number,
) -> Result<(), TooWide>
    requires { All (CanExchange number place pivot.now) grid.old }
    ensures done { DoneIff result (ExchangesFit number place pivot.now grid.old) grid.new
        (map (exchanged_row number place pivot.now) grid.old) }
    ensures same_shape { map length grid.new ≡ map length grid.old }
{
    for row in 0..grid.count() {
        grid.exchange(row, pivot, place, number)?;
    }
    Ok(())
}
