//! The cells of a problem's first table.

ghost use Rattle.frac128.specs.Problem.{IsRow};
ghost use Rattle.frac128.specs.Range.{IsInRange};
ghost use Rattle.integers.specs.Counting.{numbers_from};
ghost use Rattle.integers.specs.Vector.{unit_vector};
ghost use Rattle.lex_simplex.specs.Cells.{cells_of, joined_rows};
ghost use Rattle.lex_simplex.specs.Tableau.{start, variable_row, surplus_row};
ghost use Rattle.std.specs.Prelude.{◌≡◌, ℕ, ◌++◌, ◌∷◌, ◌<◌, List, [], map, replicate, pos, All, IfOk};

use crate::grid::Grid;
use frac128::problem::{Problem, Row};
use frac128::{NoMemory, Number};
use std::alloc::Global;

/// The cells of a problem's first table.
pub(crate) fn first_grid(alloc: Global, problem: &Problem) -> Result<Grid, NoMemory>
    ensures { IfOk result (λ grid. grid
        ≡ map cells_of ((start problem.now).cost ∷ (start problem.now).rows)) }
{
    let vars = problem.vars();
    let mut cells = Vec::new(alloc);
    push_row(&mut cells, Number::ZERO, problem.cost())?;
    push_variables(&mut cells, vars)?;
    push_surpluses(&mut cells, problem.rows(), vars)?;
    let total = cells.len();
    let width = vars + 2;
    Ok(Grid::make(cells, width, total / width))
}

// Adds the cells of a row with the denominator 1.
fn push_row(cells: &mut Vec<Number>, constant: Number, coefs: &[i128]) -> Result<(), NoMemory>
    requires { All IsInRange coefs.now }
    ensures { IfOk result (λ _. cells.new.items
        ≡ cells.old.items ++ (pos 1 ∷ constant ∷ coefs.now)) }
{
    cells.push(Number::ONE)?;
    cells.push(constant)?;
    for coef in coefs {
        cells.push(Number::known(*coef))?;
    }
    Ok(())
}

// Adds the cells of each variable's row.
fn push_variables(cells: &mut Vec<Number>, vars: usize) -> Result<(), NoMemory>
    ensures { IfOk result (λ _. cells.new.items
        ≡ cells.old.items ++ joined_rows (map (λ (j : ℕ). cells_of (variable_row vars j))
        (numbers_from 0 vars))) }
{
    for variable in 0..vars {
        push_variable(cells, vars, variable)?;
    }
    Ok(())
}

// Adds the cells of a variable's row.
fn push_variable(cells: &mut Vec<Number>, vars: usize, variable: usize) -> Result<(), NoMemory>
    requires { variable < vars }
    ensures { IfOk result (λ _. cells.new.items
        ≡ cells.old.items ++ cells_of (variable_row vars variable)) }
{
    cells.push(Number::ONE)?;
    cells.push(Number::ZERO)?;
    push_zeros(cells, variable)?;
    cells.push(Number::ONE)?;
    push_zeros(cells, vars - variable - 1)
}

/// Adds so many zeros.
pub(crate) fn push_zeros(cells: &mut Vec<Number>, count: usize) -> Result<(), NoMemory>
    ensures { IfOk result (λ _. cells.new.items ≡ cells.old.items ++ replicate count (pos 0)) }
{
    for _place in 0..count {
        cells.push(Number::ZERO)?;
    }
    Ok(())
}

// Adds the cells of each row's surplus.
fn push_surpluses(cells: &mut Vec<Number>, rows: &[Row], vars: usize) -> Result<(), NoMemory>
    requires { All (IsRow vars) rows.now }
    ensures { IfOk result (λ _. cells.new.items
        ≡ cells.old.items
        ++ joined_rows (map (λ (row : Row). cells_of (surplus_row row)) rows.now)) }
{
    for row in rows {
        push_row(
            cells,
            Number::known(row.bound).negated(),
            row.coefs.as_slice(),
        )?;
    }
    Ok(())
}

/// The numbers from 0 on, one for each variable.
pub(crate) fn first_columns(alloc: Global, vars: usize) -> Result<Vec<usize>, NoMemory>
    ensures { IfOk result (λ columns. columns.items ≡ numbers_from 0 vars) }
{
    let mut columns = Vec::new(alloc);
    for variable in 0..vars {
        columns.push(variable)?;
    }
    Ok(columns)
}
