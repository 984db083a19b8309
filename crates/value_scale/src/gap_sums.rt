//! The values of a scale from its gaps.

ghost use Rattle.std.specs.Prelude.{◌≡◌, ◌∷◌, [], ◌++◌, ◌+◌, pos, length, IfOk};
ghost use Rattle.frac128.specs.Checked.{Gives};
ghost use Rattle.integers.specs.Fraction.{fraction_of};
ghost use Rattle.value_scale.specs.GapSums.{AreScaleOf, checked_column, checked_values};
ghost use Rattle.value_scale.specs.Fault.{FaultSays};

use crate::fault::ScaleFault;
use frac128::Frac;
use frac128::laws::are_fractions;
use std::alloc::Global;

// The bottom element's 0 and the heights of those above it, from the bottom upwards.
fn heights(alloc: Global, gaps: &[Frac]) -> Result<Vec<Frac>, ScaleFault>
    ensures { Gives FaultSays (λ v. v.items) (checked_column gaps.now) result }
{
    let mut height = Frac::whole(0);
    let mut heights = Vec::new(alloc);
    heights.push(height)?;
    for gap in gaps {
        height = height.add(gap)?;
        heights.push(height)?;
    }
    Ok(heights)
}

// The first element's value first, by their formula alone.
#[tactic(auto, unfolding(crate::specs::GapSums::checked_values))]
pub(crate) fn values_of(alloc: Global, gaps: &[Frac]) -> Result<Vec<Frac>, ScaleFault>
    ensures { Gives FaultSays (λ v. v.items) (checked_values gaps.now) result }
{
    let mut values = heights(alloc, gaps)?;
    values.reverse();
    Ok(values)
}

/// The values of the scale that these gaps make, the bottom gap first, and the first element's value first: each by one sum, from
/// the bottom upwards, where the last element has 0. It refuses where a sum does.
pub fn values_of_gaps(alloc: Global, gaps: &[Frac]) -> Result<Vec<Frac>, ScaleFault>
    ensures worked { Gives FaultSays (λ v. v.items) (checked_values gaps.now) result }
    ensures each { IfOk result (λ v. length v.items ≡ length gaps.now + 1) }
    ensures scale { IfOk result (λ v. AreScaleOf gaps.now v.items) }
{
    // For the proofs alone: the denominators are positive.
    are_fractions(gaps);
    values_of(alloc, gaps)
}
