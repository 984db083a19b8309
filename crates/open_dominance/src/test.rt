//! The dominance test.

ghost use Rattle.std.specs.Prelude.{◌≡◌, ◌-◌, ◌≤◌, ◌<◌, ◌↔◌, ◌≤ℤ◌, pos, length, All, IsTrue, IfOk};
ghost use Rattle.integers.specs.Counting.{IsOrder};
ghost use Rattle.integers.specs.Fraction.{fraction_of};
ghost use Rattle.lp_macbeth.specs.ClosedWeighting.{in_order};
ghost use Rattle.open_dominance.specs.Test.{AreClosureWeights, is_below_zero, sums_stay, is_above_by_sums, is_below_by_weights, IsTested};
ghost use Rattle.open_dominance.specs.Weighing.{HasClosureWeighting};

use crate::weighing::weighting_minimum;
use frac128::laws::are_fractions;
use frac128::{Frac, NoMemory};
use judgement_matrix::Matrix;
use lex_simplex::Count;
use std::alloc::Global;
use swing_weights::score;
use value_scale::ScaleFault;

// Whether the fraction is below 0.
fn is_below_zero(fraction: &Frac) -> bool
    ensures { result ≡ is_below_zero fraction.now }
{
    fraction.num() < 0
}

// Whether it isn't.
fn is_not_below_zero(fraction: &Frac) -> bool
    ensures { IsTrue result ↔ pos 0 ≤ℤ fraction.now.num }
{
    fraction.num() >= 0
}

// What belongs to each criterion, from the first of the order to the last.
fn in_order(alloc: Global, order: &[usize], gaps: &[Frac]) -> Result<Vec<Frac>, NoMemory>
    requires { All (λ c. c < length gaps.now) order.now }
    ensures { IfOk result (λ v. v.items ≡ in_order (fraction_of (pos 0)) order.now gaps.now) }
{
    let mut ordered = Vec::new(alloc);
    for criterion in order {
        ordered.push(gaps[*criterion])?;
    }
    Ok(ordered)
}

// Whether the sums of the fractions, from the first on, can all be worked and are none below 0.
#[tactic(auto, unfolding(crate::specs::Test::sums_stay))]
fn sums_stay(fractions: &[Frac]) -> bool
    ensures { result ≡ sums_stay (fraction_of (pos 0)) fractions.now }
{
    let mut sum = Frac::whole(0);
    for fraction in fractions {
        let Ok(next) = sum.add(fraction) else {
            return false;
        };
        if is_below_zero(&next) {
            return false;
        }
        sum = next;
    }
    true
}

// Whether the weighted sum by these weights can be worked and is below 0.
fn is_below_by_weights(weights: &[Frac], gaps: &[Frac]) -> bool
    requires { length weights.now ≡ length gaps.now }
    ensures { result ≡ is_below_by_weights weights.now gaps.now }
{
    match score(weights, gaps) {
        Ok(score) => is_below_zero(&score),
        Err(_) => false,
    }
}

/// Whether leads with these least gaps dominate: whether no weighting of the closure gives the gaps a sum below 0. `gaps` and
/// `weights` have a number for each criterion, in the order of the model; `order` is the weighting's order, by their positions from 0
/// on; the weights are an open weighting, or one of the closure. Sums of the gaps along the order that are all at least 0 decide, and
/// so does a weighted sum below 0 by these weights; else the weighting minimum does. It is too wide exactly where that is, and the
/// first two decide nothing. The count never falls.
pub fn is_never_below(
    alloc: Global,
    matrix: &Matrix,
    order: &[usize],
    weights: &[Frac],
    gaps: &[Frac],
    pivots: &mut Count,
) -> Result<bool, ScaleFault>
    requires each { length gaps.now ≡ matrix.now.size - 1 }
    requires some_gaps { 1 ≤ length gaps.now }
    requires one_each { length weights.now ≡ length gaps.now }
    requires order { IsOrder (length gaps.now) order.now }
    requires weights { AreClosureWeights matrix.now order.now weights.now }
    ensures tested { IsTested matrix.now order.now weights.now gaps.now result }
    ensures count { pivots.old ≤ pivots.new }
{
    // For the proofs alone: the denominators are positive.
    are_fractions(gaps);
    are_fractions(weights);
    let ordered = in_order(alloc, order, gaps)?;
    if sums_stay(&ordered) {
        return Ok(true);
    }
    if is_below_by_weights(weights, gaps) {
        return Ok(false);
    }
    match weighting_minimum(alloc, matrix, order, gaps, pivots) {
        Ok(minimum) => Ok(is_not_below_zero(&minimum.least)),
        Err(fault) => Err(fault),
    }
}
