//! Rows of numbers of one length, one after the other in one vector.

ghost use Rattle.lex_simplex.specs.Cells.{rows_in, with_part};
ghost use Rattle.lex_simplex.specs.Steps.{CanExchange, DoneIff, exchanged_row, ExchangeFits};
ghost use Rattle.std.specs.Prelude.{◌≡◌, ◌+◌, ◌*◌, ◌<◌, ◌≤◌, ◌++◌, [], length, map, get_or, set, take, drop};

use crate::numbers::exchange;
use crate::pivot_row::PivotRow;
use frac128::{Number, TooWide};
use std::marker::Model;

/// Rows of one length.
#[derive(Debug, Drop)]
pub(crate) struct Grid {
    cells: Vec<Number>,
    width: usize,
    count: usize,
}

impl Model for Grid {
    ghost use Rattle.lex_simplex.specs.Cells.{rows_in};
    ghost use Rattle.std.specs.Prelude.{◌≡◌, ◌*◌, List, length, ℤ};

    ghost Value = { List (List ℤ) };

    ghost view = { λ g. rows_in g.width g.count g.cells.items };

    ghost invariant = { λ g. length g.cells.items ≡ g.count * g.width };
}

impl Grid {
    /// The rows that stand one after the other in the cells.
    pub(crate) fn make(cells: Vec<Number>, width: usize, count: usize) -> Grid
        requires { length cells.items ≡ count * width }
        ensures { result ≡ rows_in width count cells.items }
    {
        Grid {
            cells,
            width,
            count,
        }
    }

    /// The row at a place.
    pub(crate) fn row(&self, place: usize) -> &[Number]
        requires { place < length self.now }
        ensures { result.now ≡ get_or self.now place [] }
    {
        part(self.cells.as_slice(), place, self.width)
    }

    /// The row of a quantity: the cost's row stands before the quantities'.
    pub(crate) fn quantity(&self, quantity: usize) -> &[Number]
        requires { quantity + 1 < length self.now }
        ensures { result.now ≡ get_or self.now (quantity + 1) [] }
    {
        // For the prover alone: the place of the row fits a machine number.
        prove!(quantity < self.count());
        self.row(quantity + 1)
    }

    /// How many rows there are.
    pub(crate) fn count(&self) -> usize
        ensures { result ≡ length self.now }
    {
        self.count
    }

    /// Makes of the cells of the row at a place what a pivot makes of them.
    pub(crate) fn exchange(
        &mut self,
        place: usize,
        pivot: &PivotRow,
        column: usize,
        number: Number,
    ) -> Result<(), TooWide>
        requires place { place < length self.old }
        requires can { CanExchange number column pivot.now (get_or self.old place []) }
        ensures done { let row = get_or self.old place [] in
            DoneIff result (ExchangeFits number column pivot.now row) self.new
            (set self.old place (exchanged_row number column pivot.now row)) }
        ensures same_shape { map length self.new ≡ map length self.old }
    {
        exchange_part(
            self.cells.as_mut_slice(),
            place,
            self.width,
            pivot,
            column,
            number,
        )
    }
}

// The part of a place, where all parts are of one length.
fn part(cells: &[Number], place: usize, width: usize) -> &[Number]
    requires { place * width + width ≤ length cells.now }
    ensures { result.now ≡ take width (drop (place * width) cells.now) }
{
    let start = place * width;
    &cells[start..start + width]
}

// Makes of the part of a place what a pivot makes of a row's cells.
fn exchange_part(
    cells: &mut [Number],
    place: usize,
    width: usize,
    pivot: &PivotRow,
    column: usize,
    number: Number,
) -> Result<(), TooWide>
    requires within { place * width + width ≤ length cells.old }
    requires can { CanExchange number column pivot.now
        (take width (drop (place * width) cells.old)) }
    ensures done { let row = take width (drop (place * width) cells.old) in
        DoneIff result (ExchangeFits number column pivot.now row) cells.new
        (with_part cells.old (place * width) (exchanged_row number column pivot.now row)) }
    ensures same_length { length cells.new ≡ length cells.old }
{
    let start = place * width;
    exchange(&mut cells[start..start + width], pivot, column, number)
}
