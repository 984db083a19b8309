//! The scale that the gaps of a closed problem's point make.

ghost use Rattle.std.specs.Prelude.{◌≡◌, ◌≤◌, ◌+◌, length};
ghost use Rattle.frac128.specs.Checked.{Gives};
ghost use Rattle.open_dominance.specs.Gap.{checked_lowered, checked_scale};
ghost use Rattle.value_scale.specs.Fault.{FaultSays};

use frac128::Frac;
use std::alloc::Global;
use value_scale::{ScaleFault, values_of_gaps};

// Each value less one.
#[tactic(auto, unfolding(crate::specs::Gap::checked_lowered))]
fn lowered(alloc: Global, values: &[Frac], zero: &Frac) -> Result<Vec<Frac>, ScaleFault>
    ensures { Gives FaultSays (λ v. v.items) (checked_lowered zero.now values.now) result }
{
    let mut lowered = Vec::new(alloc);
    for value in values {
        let less = value.sub(zero)?;
        lowered.push(less)?;
    }
    Ok(lowered)
}

/// The values that these gaps make, the bottom gap first, with neutral at 0: each by one sum, from the bottom upwards, and then each
/// less that of neutral. It refuses where a step does.
#[tactic(auto, unfolding(crate::specs::Gap::checked_scale))]
pub(crate) fn scale_of_gaps(
    alloc: Global,
    gaps: &[Frac],
    neutral: usize,
) -> Result<Vec<Frac>, ScaleFault>
    requires { (1 ≤ neutral) × (neutral ≤ length gaps.now + 1) }
    ensures { Gives FaultSays (λ v. v.items) (checked_scale neutral gaps.now) result }
{
    let values = values_of_gaps(alloc, gaps)?;
    lowered(alloc, &values, &values[neutral - 1])
}
