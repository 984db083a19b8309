//! The least gap of two elements of a criterion: how far the one is above the other at least, over the closure of the open scales.

ghost use Rattle.std.specs.Prelude.{◌≡◌, ◌≢◌, ◌+◌, ◌≤◌, length};
ghost use Rattle.frac128.specs.Checked.{Gives};
ghost use Rattle.frac128.specs.Problem.{IsSpanCertificate};
ghost use Rattle.lex_simplex.specs.Answer.{IsLeastAnswer, IsOutcome, end_of};
ghost use Rattle.lex_simplex.specs.declared.end.End.TheVariants.{Optimal};
ghost use Rattle.lp_macbeth.specs.Closed.{AreApart};
ghost use Rattle.value_scale.specs.Fault.{FaultSays};
ghost use Rattle.open_dominance.specs.Gap.{HasClosureScale, checked_least, checked_gap, gap_form, IsReadGap, IsGapFound, IsGapOfOne};

use crate::gap::Gap;
use crate::scales::scale_of_gaps;
use frac128::laws::are_fractions;
use frac128::problem::Cert;
use frac128::{Frac, List, TooWide};
use lex_simplex::{Count, Outcome, SolveFault, solve};
use lp_macbeth::{closed_thresholds, translate_closed};
use model_core::Criterion;
use std::alloc::Global;
use value_scale::ScaleFault;

// The difference by the closed problem's value: that, or what it is above the reach.
fn least_by_value(value: &Frac, reach: u32, a: usize, b: usize) -> Result<Frac, TooWide>
    ensures { result ≡ checked_least reach a b value.now }
{
    if a < b {
        return Ok(*value);
    }
    value.sub(&Frac::whole(i128::from(reach)))
}

// The difference by the closed problem's value and the scale by the gaps of its point, by their formula alone.
#[tactic(auto, unfolding(crate::specs::Gap::checked_gap))]
fn worked_gap(
    alloc: Global,
    criterion: &Criterion,
    a: usize,
    b: usize,
    value: &Frac,
    gaps: &[Frac],
) -> Result<(Frac, Vec<Frac>), ScaleFault>
    requires { criterion.now.neutral ≤ length gaps.now + 1 }
    ensures { Gives FaultSays (λ gap. (gap.0, gap.1.items))
        (checked_gap criterion.now a b value.now gaps.now) result }
{
    let least = least_by_value(value, criterion.reach(), a, b)?;
    let scale = scale_of_gaps(alloc, gaps, criterion.neutral())?;
    Ok((least, scale))
}

// The least gap by the least point of the threshold form, and a certificate of its value.
fn gap_of_point(
    alloc: Global,
    criterion: &Criterion,
    a: usize,
    b: usize,
    point: &[Frac],
    value: &Frac,
    cert: &Cert,
) -> Result<Gap, ScaleFault>
    requires apart { AreApart criterion.now.matrix.size a b }
    requires least { IsLeastAnswer (gap_form criterion.now a b) point.now value.now }
    requires proof { IsSpanCertificate (gap_form criterion.now a b) cert.now value.now }
    ensures { IsReadGap criterion.now a b result }
{
    let matrix = criterion.matrix();
    let gaps = &point[..matrix.size() - 1];
    // For the proofs alone: what a criterion and the types of the fractions keep.
    criterion.elements();
    are_fractions(point);
    let _ = value.den();
    let (least, scale) = worked_gap(alloc, criterion, a, b, value, gaps)?;
    let _ = least.den();
    are_fractions(&scale);
    let carried = translate_closed(alloc, matrix, cert)?;
    Ok(Gap {
        least,
        problem_value: Some(*value),
        scale: List::make(scale),
        cert: carried,
    })
}

// The least gap by the outcome of the threshold form.
fn gap_of_outcome(
    alloc: Global,
    criterion: &Criterion,
    a: usize,
    b: usize,
    outcome: &Outcome,
) -> Result<Gap, ScaleFault>
    requires apart { AreApart criterion.now.matrix.size a b }
    requires some { HasClosureScale criterion.now }
    requires outcome { IsOutcome (gap_form criterion.now a b) outcome.now }
    ensures end { end_of outcome.now ≡ Optimal }
    ensures read { IsReadGap criterion.now a b result }
{
    // For the proofs alone: what a criterion and its matrix keep.
    criterion.elements();
    criterion.matrix().size();
    match outcome {
        Outcome::Least { point, value, cert } => {
            gap_of_point(alloc, criterion, a, b, point.as_slice(), value, cert)
        }
        Outcome::Nothing { .. } => { unreachable!() }
    }
}

/// The least gap of two elements that aren't one.
pub(crate) fn gap_apart(
    alloc: Global,
    criterion: &Criterion,
    a: usize,
    b: usize,
    pivots: &mut Count,
) -> Result<Gap, ScaleFault>
    requires apart { AreApart criterion.now.matrix.size a b }
    requires some { HasClosureScale criterion.now }
    ensures found { IsGapFound criterion.now a b result }
    ensures count { pivots.old ≤ pivots.new }
{
    let (good, neutral, reach) = (criterion.good(), criterion.neutral(), criterion.reach());
    let form = closed_thresholds(alloc, criterion.matrix(), good, neutral, reach, a, b)?;
    // For the proofs alone: a count has a bound.
    pivots.made();
    match solve(alloc, &form, pivots) {
        Ok(outcome) => gap_of_outcome(alloc, criterion, a, b, &outcome),
        Err(SolveFault::TooWide) => Err(ScaleFault::TooWide),
        Err(SolveFault::NoMemory) => Err(ScaleFault::NoMemory),
    }
}

/// The gap of an element and itself, on this scale.
pub(crate) fn gap_of_one(alloc: Global, anchored: &[Frac]) -> Result<Gap, ScaleFault>
    ensures { IsGapOfOne anchored.now result }
{
    let scale = Vec::from_slice(alloc, anchored)?;
    Ok(Gap {
        least: Frac::whole(0),
        problem_value: None,
        scale: List::make(scale),
        cert: Cert {
            den: 1,
            on: List::make(Vec::new(alloc)),
        },
    })
}

/// The least difference of element `a` over element `b` on the scales in the closure of a criterion's open scales, with a certificate
/// of the closed problem's value and a scale on which it is attained. Elements count from 1. Where the two are one it is 0, and the
/// scale is the one at hand, the criterion's anchored scale. Else it is too wide exactly where the run of the closed problem's
/// threshold form is, or the difference or the scale by its least point. The count never falls.
pub fn least_gap_beside(
    alloc: Global,
    criterion: &Criterion,
    a: usize,
    b: usize,
    anchored: &[Frac],
    pivots: &mut Count,
) -> Result<Gap, ScaleFault>
    requires a { (1 ≤ a) × (a ≤ criterion.now.matrix.size) }
    requires b { (1 ≤ b) × (b ≤ criterion.now.matrix.size) }
    requires some { HasClosureScale criterion.now }
    ensures one { a ≡ b → IsGapOfOne anchored.now result }
    ensures apart { a ≢ b → IsGapFound criterion.now a b result }
    ensures count { pivots.old ≤ pivots.new }
{
    if a == b {
        return gap_of_one(alloc, anchored);
    }
    gap_apart(alloc, criterion, a, b, pivots)
}
