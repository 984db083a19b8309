//! Where a turn pivots.

ghost use Rattle.lex_simplex.specs.Pivot.{IsCandidate};
ghost use Rattle.lex_simplex.specs.Cells.{row_in};
ghost use Rattle.lex_simplex.specs.State.{IsWorkable};
ghost use Rattle.lex_simplex.specs.Tableau.{entry as entry_of};
ghost use Rattle.lex_simplex.specs.Turn.{comes_before as comes_before_of, entering as entering_of, leaving as leaving_of, ratios};
ghost use Rattle.std.specs.Ordering.{int_cmp};
ghost use Rattle.std.specs.Prelude.{◌≡◌, ◌+◌, ◌<◌, length, pos, ◌*ℤ◌, ◌<ℤ◌};

use crate::cells::Cells;
use frac128::{Number, compare_numbers};
use std::cmp::Ordering;

/// The pivot row, as a quantity: the first whose constant is negative.
pub(crate) fn leaving(cells: &Cells) -> Option<usize>
    ensures { result ≡ leaving_of cells.now }
{
    for row in 0..cells.quantities() {
        if cells.quantity_row(row)[1] < Number::ZERO {
            return Some(row);
        }
    }
    None
}

/// The pivot column of the row of a quantity: of the columns with a positive number in it the one
/// whose ratios come first.
pub(crate) fn entering(cells: &Cells, row: usize) -> Option<usize>
    requires tableau { IsWorkable cells.now }
    requires row { row < length cells.now.rows }
    ensures { result ≡ entering_of cells.now row }
{
    let pivot = cells.quantity_row(row);
    let mut best: Option<usize> = None;
    for column in 0..cells.columns().len() {
        if entry(pivot, column) <= Number::ZERO {
            continue;
        }
        let Some(held) = best else {
            best = Some(column);
            continue;
        };
        if comes_before(cells, row, column, held) {
            best = Some(column);
        }
    }
    best
}

// Whether the ratios of the column `left` come before those of the column `right`: the cost's
// decide, or the first variable's that differ.
fn comes_before(cells: &Cells, row: usize, left: usize, right: usize) -> bool
    requires tableau { IsWorkable cells.now }
    requires row { row < length cells.now.rows }
    requires left { IsCandidate cells.now row left }
    requires right { IsCandidate cells.now row right }
    ensures { result ≡ comes_before_of (ratios cells.now row left) (ratios cells.now row right) }
{
    let pivot = cells.quantity_row(row);
    for place in 0..=cells.columns().len() {
        match compare_ratios(cells.ordering_row(place), pivot, left, right) {
            Ordering::Less => return true,
            Ordering::Greater => return false,
            Ordering::Equal => {}
        }
    }
    false
}

// How the ratio of the column `left` compares with that of the column `right` in one row.
fn compare_ratios(cells: &[Number], pivot: &[Number], left: usize, right: usize) -> Ordering
    requires cells { (left + 2 < length cells.now) × (right + 2 < length cells.now) }
    requires pivot { (left + 2 < length pivot.now) × (right + 2 < length pivot.now) }
    requires positive { (pos 0 <ℤ entry_of (row_in pivot.now) left)
        × (pos 0 <ℤ entry_of (row_in pivot.now) right) }
    ensures { let at = entry_of (row_in cells.now) in let under = entry_of (row_in pivot.now) in
        result ≡ int_cmp (at left *ℤ under right) (at right *ℤ under left) }
{
    compare_numbers(
        entry(cells, left),
        entry(pivot, left),
        entry(cells, right),
        entry(pivot, right),
    )
}

// A row's number in a column.
fn entry(cells: &[Number], column: usize) -> Number
    requires { column + 2 < length cells.now }
    ensures { result ≡ entry_of (row_in cells.now) column }
{
    cells[column + 2]
}
