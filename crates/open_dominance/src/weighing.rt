//! The weighting minimum: the least weighted sum of numbers for the criteria.

ghost use Rattle.std.specs.Prelude.{◌≡◌, ◌-◌, ◌≤◌, pos, ◌<ℤ◌, length};
ghost use Rattle.frac128.specs.Checked.{Gives};
ghost use Rattle.frac128.specs.Problem.{IsSpanCertificate};
ghost use Rattle.frac128.specs.Range.{IsInRange};
ghost use Rattle.integers.specs.Counting.{IsOrder};
ghost use Rattle.lex_simplex.specs.Answer.{IsLeastAnswer, IsOutcome, end_of};
ghost use Rattle.lex_simplex.specs.declared.end.End.TheVariants.{Optimal};
ghost use Rattle.open_dominance.specs.Weighing.{HasClosureWeighting, IsWeightingOf, checked_minimum, weighting_form, IsReadMinimum, IsMinimumFound, IsMinimum};
ghost use Rattle.value_scale.specs.Fault.{FaultSays};

use frac128::laws::are_fractions;
use frac128::problem::Cert;
use frac128::{Frac, List};
use judgement_matrix::Matrix;
use lex_simplex::{Count, Outcome, SolveFault, solve};
use lp_macbeth::{
    ClosedWeighting, WeightingFault, closed_weighting, translate_weighting, weighting_thresholds,
};
use std::alloc::Global;
use value_scale::{ScaleFault, values_of_gaps};

/// The least weighted sum of numbers for the criteria over the closure of the open weightings.
#[derive(Debug, Drop)]
pub struct WeightingMinimum {
    /// The least sum.
    pub least: Frac,
    /// The value of the closed problem, whose costs are whole numbers.
    pub value: Frac,
    /// A weighting of the closure by which the sum is least: a weight for each criterion, in the order of the weighting.
    pub weights: List<Frac>,
    /// Multipliers of the closed problem's rows that show that its value is none less.
    pub cert: Cert,
}

// The sum by the closed problem's value and the weights by the gaps of its point, by their formula alone.
#[tactic(auto, unfolding(crate::specs::Weighing::checked_minimum))]
fn worked_minimum(
    alloc: Global,
    closed: &ClosedWeighting,
    value: &Frac,
    gaps: &[Frac],
) -> Result<(Frac, Vec<Frac>), ScaleFault>
    requires above { pos 0 <ℤ closed.now.scale }
    requires in_range { IsInRange closed.now.scale }
    ensures { Gives FaultSays (λ minimum. (minimum.0, minimum.1.items))
        (checked_minimum closed.now value.now gaps.now) result }
{
    let share = value.div(&Frac::whole(closed.scale))?;
    let least = share.add(&closed.least)?;
    let values = values_of_gaps(alloc, gaps)?;
    let weights = Vec::from_slice(alloc, &values[..values.len() - 1])?;
    Ok((least, weights))
}

// The minimum by the least point of the threshold form, and a certificate of its value.
fn minimum_of_point(
    alloc: Global,
    matrix: &Matrix,
    order: &[usize],
    gaps: &[Frac],
    closed: &ClosedWeighting,
    point: &[Frac],
    value: &Frac,
    cert: &Cert,
) -> Result<WeightingMinimum, ScaleFault>
    requires weighting { IsWeightingOf matrix.now order.now gaps.now closed.now }
    requires least { IsLeastAnswer (weighting_form matrix.now closed.now) point.now value.now }
    requires proof { IsSpanCertificate (weighting_form matrix.now closed.now) cert.now value.now }
    ensures { IsReadMinimum matrix.now order.now gaps.now closed.now result }
{
    // For the proofs alone: what the types of the fractions keep.
    are_fractions(gaps);
    are_fractions(point);
    let _ = value.den();
    let _ = closed.least.den();
    let between = &point[..matrix.size() - 1];
    let (least, weights) = worked_minimum(alloc, closed, value, between)?;
    let _ = least.den();
    are_fractions(&weights);
    let carried = translate_weighting(alloc, matrix, cert)?;
    Ok(WeightingMinimum {
        least,
        value: *value,
        weights: List::make(weights),
        cert: carried,
    })
}

// The minimum by the outcome of the threshold form.
fn minimum_of_outcome(
    alloc: Global,
    matrix: &Matrix,
    order: &[usize],
    gaps: &[Frac],
    closed: &ClosedWeighting,
    outcome: &Outcome,
) -> Result<WeightingMinimum, ScaleFault>
    requires weighting { IsWeightingOf matrix.now order.now gaps.now closed.now }
    requires some { HasClosureWeighting matrix.now }
    requires outcome { IsOutcome (weighting_form matrix.now closed.now) outcome.now }
    ensures end { end_of outcome.now ≡ Optimal }
    ensures read { IsReadMinimum matrix.now order.now gaps.now closed.now result }
{
    // For the proofs alone: what a matrix and the types of the fractions keep.
    matrix.size();
    are_fractions(gaps);
    match outcome {
        Outcome::Least { point, value, cert } => {
            minimum_of_point(
                alloc,
                matrix,
                order,
                gaps,
                closed,
                point.as_slice(),
                value,
                cert,
            )
        }
        Outcome::Nothing { .. } => { unreachable!() }
    }
}

// The minimum by its closed problem.
fn minimum_by(
    alloc: Global,
    matrix: &Matrix,
    order: &[usize],
    gaps: &[Frac],
    closed: &ClosedWeighting,
    pivots: &mut Count,
) -> Result<WeightingMinimum, ScaleFault>
    requires weighting { IsWeightingOf matrix.now order.now gaps.now closed.now }
    requires some { HasClosureWeighting matrix.now }
    ensures found { IsMinimumFound matrix.now order.now gaps.now closed.now result }
    ensures count { pivots.old ≤ pivots.new }
{
    are_fractions(gaps);
    let cost = Vec::from_slice(alloc, closed.problem.cost())?;
    let form = weighting_thresholds(alloc, matrix, cost)?;
    // For the proofs alone: a count has a bound.
    pivots.made();
    match solve(alloc, &form, pivots) {
        Ok(outcome) => minimum_of_outcome(alloc, matrix, order, gaps, closed, &outcome),
        Err(SolveFault::TooWide) => Err(ScaleFault::TooWide),
        Err(SolveFault::NoMemory) => Err(ScaleFault::NoMemory),
    }
}

/// The least weighted sum of the criteria's numbers over the closure of the open weightings, with a certificate of the closed
/// problem's value and the weights by which it is attained. `gaps` are the numbers in the order of the model, and `order` is the
/// weighting's order, by their positions from 0 on. It is too wide exactly where the costs of the closed problem are, the run of its
/// threshold form, or the sum or the weights by its least point. The count never falls.
pub fn weighting_minimum(
    alloc: Global,
    matrix: &Matrix,
    order: &[usize],
    gaps: &[Frac],
    pivots: &mut Count,
) -> Result<WeightingMinimum, ScaleFault>
    requires each { length gaps.now ≡ matrix.now.size - 1 }
    requires some_gaps { 1 ≤ length gaps.now }
    requires order { IsOrder (length gaps.now) order.now }
    requires some { HasClosureWeighting matrix.now }
    ensures found { IsMinimum matrix.now order.now gaps.now result }
    ensures count { pivots.old ≤ pivots.new }
{
    match closed_weighting(alloc, matrix, order, gaps) {
        Ok(closed) => minimum_by(alloc, matrix, order, gaps, &closed, pivots),
        Err(WeightingFault::TooWide) => Err(ScaleFault::TooWide),
        Err(WeightingFault::NoMemory) => Err(ScaleFault::NoMemory),
    }
}
