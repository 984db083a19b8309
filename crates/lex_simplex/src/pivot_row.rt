//! The pivot row as every other row needs it: all its cells, and those other than 0.

ghost use Rattle.frac128.specs.Entries.{entries_from};
ghost use Rattle.lex_simplex.specs.Cells.{prepared_cells, row_in};
ghost use Rattle.std.specs.Prelude.{◌≡◌, ◌+◌, ◌<◌, ◌≤◌, length, take, replicate, pos, IfOk};

use crate::start::push_zeros;
use frac128::{NoMemory, Number};
use std::alloc::Global;
use std::marker::Model;

/// The cells that a row step with the pivot row takes, in memory that is taken once.
#[derive(Debug, Drop)]
pub(crate) struct PivotRow {
    cells: Vec<Number>,
    entries: Vec<(usize, Number)>,
    count: usize,
}

impl Model for PivotRow {
    ghost use Rattle.lex_simplex.specs.Cells.{AreListed};
    ghost use Rattle.std.specs.Prelude.{List, ℤ};

    ghost Value = { List ℤ };

    ghost view = { λ row. row.cells.items };

    ghost invariant = { λ row. AreListed row.cells.items row.entries.items row.count };
}

impl PivotRow {
    /// So many zeros.
    pub(crate) fn make(alloc: Global, width: usize) -> Result<PivotRow, NoMemory>
        ensures { IfOk result (λ row. row ≡ replicate width (pos 0)) }
    {
        let mut cells = Vec::new(alloc);
        push_zeros(&mut cells, width)?;
        let mut entries = Vec::new(alloc);
        for _place in 0..width {
            entries.push((0, Number::ZERO))?;
        }
        Ok(PivotRow {
            cells,
            entries,
            count: 0,
        })
    }

    /// All cells.
    pub(crate) fn cells(&self) -> &[Number]
        ensures { result.now ≡ self.now }
    {
        self.cells.as_slice()
    }

    /// The cells other than 0, each with its place.
    pub(crate) fn entries(&self) -> &[(usize, Number)]
        ensures { result.now ≡ entries_from 0 self.now }
    {
        &self.entries[..self.count]
    }

    /// Takes the cells of a row so that a row step with them is the pivot on a column.
    pub(crate) fn prepare(&mut self, row: &[Number], column: usize)
        requires same_length { length self.old ≡ length row.now }
        requires within { column + 2 < length row.now }
        ensures { self.new ≡ prepared_cells (row_in row.now) column }
    {
        prepare_cells(self.cells.as_mut_slice(), row, column);
        self.count = list_entries(self.entries.as_mut_slice(), self.cells.as_slice());
    }
}

// Writes a row's cells so that a row step with them is the pivot on a column.
fn prepare_cells(cells: &mut [Number], row: &[Number], column: usize)
    requires same_length { length cells.old ≡ length row.now }
    requires within { column + 2 < length row.now }
    ensures { cells.new ≡ prepared_cells (row_in row.now) column }
{
    cells.copy_from_slice(row);
    cells[0] = Number::ZERO;
    cells[column + 2] = row[0].negated();
}

// Writes the cells other than 0 to the front, each with its place, and tells how many there are.
fn list_entries(entries: &mut [(usize, Number)], cells: &[Number]) -> usize
    requires { length entries.old ≡ length cells.now }
    ensures few { result ≤ length cells.now }
    ensures listed { take result entries.new ≡ entries_from 0 cells.now }
    ensures same_length { length entries.new ≡ length entries.old }
{
    let mut count = 0;
    for place in 0..cells.len() {
        if cells[place] != Number::ZERO {
            entries[count] = (place, cells[place]);
            count += 1;
        }
    }
    count
}
