//! Scales whose values are 100 at one reference element and 0 at the other.

ghost use Rattle.std.specs.Prelude.{◌≡◌, ◌↔◌, length, Err, IfOk};
ghost use Rattle.frac128.specs.Checked.{Gives};
ghost use Rattle.integers.specs.Fraction.{SameFraction};
ghost use Rattle.value_scale.specs.Anchor.{AreReferences, NeverRise, IsFlat, checked_factor, checked_point, checked_line, checked_anchor, FaultSays, AreAnchored};

use frac128::laws::are_fractions;
use frac128::{Frac, NoMemory, TooWide};
use std::alloc::{AllocFailed, Global};
use std::cmp::Ordering;

/// Why there is no anchored scale.
#[derive(Clone, Copy, Debug, PartialEq, Eq)]
pub enum AnchorFault {
    /// The two references have one value.
    Flat,
    /// A step of the formula is out of the range of fractions.
    TooWide,
    /// There is not enough memory.
    NoMemory,
}

impl From<TooWide> for AnchorFault {
    ghost use Rattle.value_scale.specs.declared.anchored_scale.AnchorFault.TheVariants as given;

    ghost from_gives = { λ _ fault. fault ≡ given.TooWide };

    fn from(_: TooWide) -> AnchorFault {
        AnchorFault::TooWide
    }
}

impl From<NoMemory> for AnchorFault {
    ghost use Rattle.value_scale.specs.declared.anchored_scale.AnchorFault.TheVariants as given;

    ghost from_gives = { λ _ fault. fault ≡ given.NoMemory };

    fn from(_: NoMemory) -> AnchorFault {
        AnchorFault::NoMemory
    }
}

impl<T: Drop> From<AllocFailed<T>> for AnchorFault {
    ghost use Rattle.value_scale.specs.declared.anchored_scale.AnchorFault.TheVariants as given;

    ghost from_gives = { λ _ fault. fault ≡ given.NoMemory };

    fn from(_: AllocFailed<T>) -> AnchorFault {
        AnchorFault::NoMemory
    }
}

/// The values of a scale, mapped by the straight line that sends the element `good` to 100 and the element `neutral` to 0.
/// Elements count from 1, and no element has a greater value than one listed above it. With `s` the value of `good` less
/// that of `neutral`, each value less that of `neutral` is multiplied by `100 / s`, from the first on; it refuses where one
/// of these steps does.
pub fn anchor(
    alloc: Global,
    values: &[Frac],
    good: usize,
    neutral: usize,
) -> Result<Vec<Frac>, AnchorFault>
    requires references { AreReferences (length values.now) good neutral }
    requires falling { NeverRise values.now }
    ensures flat { (result ≡ Err AnchorFault.Flat) ↔ IsFlat values.now good neutral }
    ensures worked { ¬ IsFlat values.now good neutral
        → Gives FaultSays (λ v. v.items) (checked_anchor values.now good neutral) result }
    ensures each { IfOk result (λ v. length v.items ≡ length values.now) }
    ensures anchored { IfOk result (λ v. AreAnchored values.now good neutral v.items) }
{
    if values[good - 1].cmp(&values[neutral - 1]) == Ordering::Equal {
        return Err(AnchorFault::Flat);
    }
    stretched(alloc, values, good, neutral)
}

// The same where the references have two values.
fn stretched(
    alloc: Global,
    values: &[Frac],
    good: usize,
    neutral: usize,
) -> Result<Vec<Frac>, AnchorFault>
    requires references { AreReferences (length values.now) good neutral }
    requires falling { NeverRise values.now }
    requires apart { ¬ IsFlat values.now good neutral }
    ensures worked { Gives FaultSays (λ v. v.items)
        (checked_anchor values.now good neutral) result }
    ensures each { IfOk result (λ v. length v.items ≡ length values.now) }
    ensures anchored { IfOk result (λ v. AreAnchored values.now good neutral v.items) }
{
    // For the proofs alone: the denominators are positive.
    are_fractions(values);
    worked(alloc, values, good, neutral)
}

// The same by its formula alone.
fn worked(
    alloc: Global,
    values: &[Frac],
    good: usize,
    neutral: usize,
) -> Result<Vec<Frac>, AnchorFault>
    requires references { AreReferences (length values.now) good neutral }
    requires apart { ¬ IsFlat values.now good neutral }
    ensures { Gives FaultSays (λ v. v.items) (checked_anchor values.now good neutral) result }
{
    let zero = &values[neutral - 1];
    let factor = factor(&values[good - 1], zero)?;
    on_line(alloc, values, zero, &factor)
}

// 100 for each unit between the two.
fn factor(top: &Frac, zero: &Frac) -> Result<Frac, TooWide>
    requires { ¬ SameFraction top.now zero.now }
    ensures { result ≡ checked_factor top.now zero.now }
{
    let span = top.sub(zero)?;
    Frac::whole(100).div(&span)
}

// Each value less the one at 0, times the factor.
fn on_line(
    alloc: Global,
    values: &[Frac],
    zero: &Frac,
    factor: &Frac,
) -> Result<Vec<Frac>, AnchorFault>
    ensures { Gives FaultSays (λ v. v.items) (checked_line zero.now factor.now values.now) result }
{
    let mut anchored = Vec::new(alloc);
    for value in values {
        let point = point(value, zero, factor)?;
        anchored.push(point)?;
    }
    Ok(anchored)
}

// One of them.
fn point(value: &Frac, zero: &Frac, factor: &Frac) -> Result<Frac, TooWide>
    ensures { result ≡ checked_point zero.now factor.now value.now }
{
    value.sub(zero)?.mul(factor)
}
