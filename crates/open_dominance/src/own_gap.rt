//! The anchored scale of a criterion, and least gaps where it isn't at hand.

ghost use Rattle.std.specs.Prelude.{◌≡◌, ◌≢◌, ◌≤◌};
ghost use Rattle.open_dominance.specs.Gap.{HasAnchoredScale, IsBasicAnswer, IsAnchoredAnswer, IsGapFound, IsOwnGap};
ghost use Rattle.value_scale.specs.declared.basic.Basic.TheVariants.{Scale};

use crate::closed_gap::{gap_apart, gap_of_one};
use crate::gap::Gap;
use frac128::Frac;
use frac128::laws::are_fractions;
use frac128::problem::Cert;
use lex_simplex::Count;
use model_core::Criterion;
use std::alloc::Global;
use value_scale::laws::least_values_meet;
use value_scale::{AnchorFault, Basic, ScaleFault, anchor, basic_scale};

// The anchored scale by the values of the least scale.
fn anchored_values(
    alloc: Global,
    criterion: &Criterion,
    values: &[Frac],
    cert: &Cert,
) -> Result<Vec<Frac>, ScaleFault>
    requires anchored { HasAnchoredScale criterion.now }
    requires basic { IsBasicAnswer criterion.now.matrix (Ok (Scale values.now cert.now)) }
    ensures { IsAnchoredAnswer (λ v. v.items) criterion.now result }
{
    // For the proofs alone: laws, and what a criterion and the types of the fractions keep.
    are_fractions(values);
    criterion.elements();
    least_values_meet(criterion.matrix(), values);
    match anchor(alloc, values, criterion.good(), criterion.neutral()) {
        Ok(anchored) => Ok(anchored),
        Err(AnchorFault::Flat) => { unreachable!() }
        Err(AnchorFault::TooWide) => Err(ScaleFault::TooWide),
        Err(AnchorFault::NoMemory) => Err(ScaleFault::NoMemory),
    }
}

// The anchored scale of a criterion that has one.
fn anchored_scale(
    alloc: Global,
    criterion: &Criterion,
    pivots: &mut Count,
) -> Result<Vec<Frac>, ScaleFault>
    requires { HasAnchoredScale criterion.now }
    ensures scale { IsAnchoredAnswer (λ v. v.items) criterion.now result }
    ensures count { pivots.old ≤ pivots.new }
{
    // For the proofs alone: a count has a bound, and what a criterion keeps.
    pivots.made();
    criterion.elements();
    match basic_scale(alloc, criterion.matrix(), pivots) {
        Ok(Basic::Scale { values, cert }) => {
            anchored_values(alloc, criterion, values.as_slice(), &cert)
        }
        Ok(Basic::Inconsistent { .. }) => { unreachable!() }
        Err(fault) => Err(fault),
    }
}

// The gap of an element and itself, on the anchored scale.
fn own_gap(alloc: Global, criterion: &Criterion, pivots: &mut Count) -> Result<Gap, ScaleFault>
    requires { HasAnchoredScale criterion.now }
    ensures gap { IsOwnGap criterion.now result }
    ensures count { pivots.old ≤ pivots.new }
{
    let anchored = anchored_scale(alloc, criterion, pivots)?;
    gap_of_one(alloc, &anchored)
}

/// The same as `least_gap_beside` for a criterion whose anchored scale isn't at hand: for an element and itself it is worked here, and
/// is too wide exactly where the basic scale is, or its anchoring.
pub fn least_gap(
    alloc: Global,
    criterion: &Criterion,
    a: usize,
    b: usize,
    pivots: &mut Count,
) -> Result<Gap, ScaleFault>
    requires a { (1 ≤ a) × (a ≤ criterion.now.matrix.size) }
    requires b { (1 ≤ b) × (b ≤ criterion.now.matrix.size) }
    requires anchored { HasAnchoredScale criterion.now }
    ensures one { a ≡ b → IsOwnGap criterion.now result }
    ensures apart { a ≢ b → IsGapFound criterion.now a b result }
    ensures count { pivots.old ≤ pivots.new }
{
    if a == b {
        return own_gap(alloc, criterion, pivots);
    }
    gap_apart(alloc, criterion, a, b, pivots)
}
