//! The cells of a tableau, worked on in place.

ghost use Rattle.lex_simplex.specs.Cells.{row_in};
ghost use Rattle.lex_simplex.specs.Pivot.{IsEntering, PivotFits};
ghost use Rattle.lex_simplex.specs.State.{IsWorkable};
ghost use Rattle.lex_simplex.specs.Steps.{DoneIff};
ghost use Rattle.lex_simplex.specs.Tableau.{start, row_of, ordering_row as ordering_row_of};
ghost use Rattle.lex_simplex.specs.Turn.{pivoted_tableau};
ghost use Rattle.std.specs.Prelude.{◌≡◌, ◌+◌, ◌<◌, ◌≤◌, length, IfOk};

use crate::grid::Grid;
use crate::pivot::pivot_cells;
use crate::pivot_row::PivotRow;
use crate::start::{first_columns, first_grid};
use frac128::problem::Problem;
use frac128::{NoMemory, Number, TooWide};
use std::alloc::Global;
use std::marker::Model;

/// The cells of a tableau, with all memory that pivots need.
#[derive(Debug, Drop)]
pub(crate) struct Cells {
    grid: Grid,
    columns: Vec<usize>,
    room: PivotRow,
}

impl Model for Cells {
    ghost use Rattle.lex_simplex.specs.Cells.{tableau_in, HaveRoom};
    ghost use Rattle.lex_simplex.specs.Tableau.{Tableau};

    ghost Value = { Tableau };

    ghost view = { λ c. tableau_in c.grid c.columns.items };

    ghost invariant = { λ c. HaveRoom c.columns.items c.grid c.room };
}

impl Cells {
    /// The first tableau of a problem.
    pub(crate) fn first(alloc: Global, problem: &Problem) -> Result<Cells, NoMemory>
        ensures { IfOk result (λ cells. cells ≡ start problem.now) }
    {
        let grid = first_grid(alloc, problem)?;
        let columns = first_columns(alloc, problem.vars())?;
        let room = PivotRow::make(alloc, columns.len() + 2)?;
        Ok(Cells {
            grid,
            columns,
            room,
        })
    }

    /// The quantity of each column.
    pub(crate) fn columns(&self) -> &[usize]
        ensures { result.now ≡ self.now.columns }
    {
        self.columns.as_slice()
    }

    /// How many quantities there are.
    pub(crate) fn quantities(&self) -> usize
        ensures { result ≡ length self.now.rows }
    {
        self.grid.count() - 1
    }

    /// The cells of the cost's row.
    pub(crate) fn cost_row(&self) -> &[Number]
        ensures width { length result.now ≡ length self.now.columns + 2 }
        ensures value { row_in result.now ≡ self.now.cost }
    {
        self.grid.row(0)
    }

    /// The cells of a quantity's row.
    pub(crate) fn quantity_row(&self, quantity: usize) -> &[Number]
        requires { quantity < length self.now.rows }
        ensures width { length result.now ≡ length self.now.columns + 2 }
        ensures value { row_in result.now ≡ row_of self.now quantity }
    {
        self.grid.quantity(quantity)
    }

    /// The cells of a row that orders columns: the cost's at place 0, then each variable's.
    pub(crate) fn ordering_row(&self, place: usize) -> &[Number]
        requires enough { length self.now.columns ≤ length self.now.rows }
        requires place { place ≤ length self.now.columns }
        ensures width { length result.now ≡ length self.now.columns + 2 }
        ensures value { row_in result.now ≡ ordering_row_of self.now place }
    {
        self.grid.row(place)
    }

    /// The pivot on the row of a quantity and a column. Where it refuses, the tableau is of no use
    /// any more.
    pub(crate) fn pivot(&mut self, row: usize, column: usize) -> Result<(), TooWide>
        requires tableau { IsWorkable self.old }
        requires row { row < length self.old.rows }
        requires column { IsEntering self.old row column }
        ensures done { DoneIff result (PivotFits self.old row column) self.new
            (pivoted_tableau self.old row column) }
        ensures workable { IfOk result (λ _. IsWorkable self.new) }
    {
        pivot_cells(
            &mut self.grid,
            self.columns.as_mut_slice(),
            &mut self.room,
            row,
            column,
        )
    }
}
