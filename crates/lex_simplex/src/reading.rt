//! What is read from the last table of a run.

ghost use Rattle.frac128.specs.Frac.{IsReduced};
ghost use Rattle.frac128.specs.Problem.{ProblemData, IsProblem};
ghost use Rattle.integers.specs.Fraction.{SameFraction, SameFractions};
ghost use Rattle.lex_simplex.specs.Answer.{IsOutcome, end_of, spread_weights, row_entries, optimal_weights as weights_at_optimum, empty_weights as weights_at_empty};
ghost use Rattle.lex_simplex.specs.Cells.{row_in};
ghost use Rattle.lex_simplex.specs.Equations.{IsTableauOf};
ghost use Rattle.lex_simplex.specs.Pivot.{IsLeaving};
ghost use Rattle.lex_simplex.specs.State.{IsWorkable};
ghost use Rattle.lex_simplex.specs.Tableau.{value_of};
ghost use Rattle.lex_simplex.specs.Turn.{turn, ended};
ghost use Rattle.lex_simplex.specs.declared.end.End.TheVariants.{Optimal, Empty};
ghost use Rattle.std.specs.Prelude.{◌≡◌, ◌<◌, ◌≤◌, ◌+◌, length, map, take, drop, get_or, set, replicate, pos, neg_ℤ, ◌<ℤ◌, All, IfOk};

use crate::cells::Cells;
use crate::outcome::Outcome;
use crate::start::push_zeros;
use frac128::problem::Cert;
use frac128::{Frac, List, NoMemory, Number};
use std::alloc::Global;

/// The answer at the end of a run where no constant is negative.
pub(crate) fn optimal_outcome(alloc: Global, cells: &Cells) -> Result<Outcome, NoMemory>
    requires { IsWorkable cells.now }
    ensures outcome { (p : ProblemData) → IsProblem p → IsTableauOf p cells.now
        → turn cells.now ≡ ended (Ok Optimal) → IfOk result (IsOutcome p) }
    ensures end { IfOk result (λ outcome. end_of outcome ≡ Optimal) }
{
    let weights = optimal_weights(alloc, cells)?;
    let den = cells.cost_row()[0];
    let cert = certificate(alloc, den, weights.as_slice(), cells.columns().len())?;
    let point = point(alloc, cells)?;
    let value = value(cells);
    Ok(Outcome::Least { point, value, cert })
}

/// The answer at the end of a run where the pivot row, that of the quantity `row`, has no positive
/// number.
pub(crate) fn empty_outcome(alloc: Global, cells: &Cells, row: usize) -> Result<Outcome, NoMemory>
    requires tableau { IsWorkable cells.now }
    requires row { IsLeaving cells.now row }
    ensures outcome { (p : ProblemData) → IsProblem p → IsTableauOf p cells.now
        → turn cells.now ≡ ended (Ok Empty) → IfOk result (IsOutcome p) }
    ensures end { IfOk result (λ outcome. end_of outcome ≡ Empty) }
{
    let weights = empty_weights(alloc, cells, row)?;
    let cert = certificate(
        alloc,
        Number::ONE,
        weights.as_slice(),
        cells.columns().len(),
    )?;
    Ok(Outcome::Nothing { cert })
}

// Each variable's number where the columns' quantities are 0.
fn point(alloc: Global, cells: &Cells) -> Result<List<Frac>, NoMemory>
    requires { IsWorkable cells.now }
    ensures value { IfOk result (λ fs. SameFractions
        (map value_of (take (length cells.now.columns) cells.now.rows)) fs) }
    ensures lowest { IfOk result (All IsReduced) }
{
    let mut numbers = Vec::new(alloc);
    for i in 0..cells.columns().len() {
        numbers.push(fraction(cells.quantity_row(i)))?;
    }
    Ok(List::make(numbers))
}

// The cost where the columns' quantities are 0.
fn value(cells: &Cells) -> Frac
    requires { IsWorkable cells.now }
    ensures value { SameFraction (value_of cells.now.cost) result }
    ensures lowest { IsReduced result }
{
    fraction(cells.cost_row())
}

// The row's constant over its denominator.
fn fraction(cells: &[Number]) -> Frac
    requires wide { 1 < length cells.now }
    requires positive { pos 0 <ℤ get_or cells.now 0 (pos 0) }
    ensures value { SameFraction (value_of (row_in cells.now)) result }
    ensures lowest { IsReduced result }
{
    Frac::reduced(cells[1], cells[0])
}

// The weights, one for each quantity, that bound the cost: the cost row's numbers at the columns'
// quantities, and 0 elsewhere.
fn optimal_weights(alloc: Global, cells: &Cells) -> Result<List<Number>, NoMemory>
    requires { IsWorkable cells.now }
    ensures { IfOk result (λ ws. ws ≡ weights_at_optimum cells.now) }
{
    let mut weights = zeros(alloc, cells.quantities())?;
    spread(
        weights.as_mut_slice(),
        cells.columns(),
        &cells.cost_row()[2..],
    );
    Ok(List::make(weights))
}

// The weights, one for each quantity, that show that no point meets all rows: the opposites of the
// pivot row's numbers at the columns' quantities, its denominator at its own, and 0 elsewhere.
fn empty_weights(alloc: Global, cells: &Cells, row: usize) -> Result<List<Number>, NoMemory>
    requires tableau { IsWorkable cells.now }
    requires row { row < length cells.now.rows }
    ensures { IfOk result (λ ws. ws ≡ weights_at_empty cells.now row) }
{
    let mut weights = zeros(alloc, cells.quantities())?;
    weigh_row(
        weights.as_mut_slice(),
        cells.columns(),
        cells.quantity_row(row),
        row,
    );
    Ok(List::make(weights))
}

// Puts each column's number of the row at the place of its quantity, turns each sign, and puts the
// denominator at the row's own place.
fn weigh_row(weights: &mut [Number], columns: &[usize], cells: &[Number], row: usize)
    requires below { All (λ c. c < length weights.old) columns.now }
    requires wide { length cells.now ≡ length columns.now + 2 }
    requires row { row < length weights.old }
    ensures { weights.new ≡ set (map neg_ℤ
        (spread_weights columns.now (drop 2 cells.now) weights.old)) row
        (get_or cells.now 0 (pos 0)) }
{
    spread(weights, columns, &cells[2..]);
    negate(weights);
    weights[row] = cells[0];
}

// So many zeros.
fn zeros(alloc: Global, count: usize) -> Result<Vec<Number>, NoMemory>
    ensures { IfOk result (λ v. v.items ≡ replicate count (pos 0)) }
{
    let mut numbers = Vec::new(alloc);
    push_zeros(&mut numbers, count)?;
    Ok(numbers)
}

// Puts each column's number at the place of its quantity.
fn spread(weights: &mut [Number], columns: &[usize], numbers: &[Number])
    requires below { All (λ c. c < length weights.old) columns.now }
    requires one_each { length numbers.now ≡ length columns.now }
    ensures { weights.new ≡ spread_weights columns.now numbers.now weights.old }
{
    for j in 0..columns.len() {
        weights[columns[j]] = numbers[j];
    }
}

// Turns each sign.
fn negate(numbers: &mut [Number])
    ensures { numbers.new ≡ map neg_ℤ numbers.old }
{
    for i in 0..numbers.len() {
        numbers[i] = numbers[i].negated();
    }
}

// The certificate of weights of the quantities over a denominator.
fn certificate(
    alloc: Global,
    den: Number,
    weights: &[Number],
    vars: usize,
) -> Result<Cert, NoMemory>
    requires { vars ≤ length weights.now }
    ensures { IfOk result (λ cert. (cert.den ≡ den) × (cert.on ≡ row_entries vars weights.now)) }
{
    let on = entries(alloc, weights, vars)?;
    Ok(Cert { den: den.get(), on })
}

// The weights of the problem's rows other than 0, each with the row's position. Those of the
// variables stand before them.
fn entries(alloc: Global, weights: &[Number], vars: usize) -> Result<List<(usize, i128)>, NoMemory>
    requires { vars ≤ length weights.now }
    ensures { IfOk result (λ on. on ≡ row_entries vars weights.now) }
{
    let mut on = Vec::new(alloc);
    for (position, weight) in weights[vars..].iter().enumerate() {
        if *weight != Number::ZERO {
            on.push((position, weight.get()))?;
        }
    }
    Ok(List::make(on))
}
