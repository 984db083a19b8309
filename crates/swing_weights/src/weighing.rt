//! Weights from the scale of a weighting matrix.

ghost use Rattle.std.specs.Prelude.{◌≡◌, ◌≢◌, ◌↔◌, IsTrue, ◌≤◌, length, pos};
ghost use Rattle.frac128.specs.Checked.{Gives};
ghost use Rattle.integers.specs.Fraction.{fraction_of};
ghost use Rattle.swing_weights.specs.Weights.{checked_total_from, checked_shares, checked_weights, FaultSays, AreFalling, AreSwingValues, AnswersValues, AnswersBasic, TotalIsNotZero};

use frac128::laws::are_fractions;
use frac128::{Frac, NoMemory, TooWide};
use std::alloc::{AllocFailed, Global};
use value_scale::Basic;

/// Why there are no weights.
#[derive(Clone, Copy, Debug, PartialEq, Eq)]
pub enum WeightFault {
    /// No scale meets the judgements.
    Inconsistent,
    /// All swings are 0.
    Flat,
    /// A sum or a quotient is out of the range of fractions.
    TooWide,
    /// There is not enough memory.
    NoMemory,
}

impl From<TooWide> for WeightFault {
    ghost use Rattle.swing_weights.specs.declared.weighing.WeightFault.TheVariants as given;

    ghost from_gives = { λ _ fault. fault ≡ given.TooWide };

    fn from(_: TooWide) -> WeightFault {
        WeightFault::TooWide
    }
}

impl From<NoMemory> for WeightFault {
    ghost use Rattle.swing_weights.specs.declared.weighing.WeightFault.TheVariants as given;

    ghost from_gives = { λ _ fault. fault ≡ given.NoMemory };

    fn from(_: NoMemory) -> WeightFault {
        WeightFault::NoMemory
    }
}

impl<T: Drop> From<AllocFailed<T>> for WeightFault {
    ghost use Rattle.swing_weights.specs.declared.weighing.WeightFault.TheVariants as given;

    ghost from_gives = { λ _ fault. fault ≡ given.NoMemory };

    fn from(_: AllocFailed<T>) -> WeightFault {
        WeightFault::NoMemory
    }
}

// The sum of the fractions, added from the first on.
#[tactic(auto, unfolding(crate::specs::Weights::checked_total_from))]
fn total(fractions: &[Frac]) -> Result<Frac, TooWide>
    ensures { result ≡ checked_total_from (fraction_of (pos 0)) fractions.now }
{
    let mut sum = Frac::whole(0);
    for fraction in fractions {
        sum = sum.add(fraction)?;
    }
    Ok(sum)
}

// Each fraction over the total.
#[tactic(auto, unfolding(crate::specs::Weights::checked_shares))]
fn shares(alloc: Global, fractions: &[Frac], total: &Frac) -> Result<Vec<Frac>, WeightFault>
    requires { total.now.num ≢ pos 0 }
    ensures { Gives FaultSays (λ v. v.items) (checked_shares total.now fractions.now) result }
{
    let mut shares = Vec::new(alloc);
    for fraction in fractions {
        let share = fraction.div(total)?;
        shares.push(share)?;
    }
    Ok(shares)
}

// The weights by their formula alone.
#[tactic(auto, unfolding(crate::specs::Weights::checked_weights))]
fn worked(alloc: Global, values: &[Frac]) -> Result<Vec<Frac>, WeightFault>
    requires some { 2 ≤ length values.now }
    requires above { TotalIsNotZero values.now }
    ensures { Gives FaultSays (λ v. v.items) (checked_weights values.now) result }
{
    let swings = &values[..values.len() - 1];
    let sum = total(swings)?;
    shares(alloc, swings, &sum)
}

// Whether the value is 0.
fn is_zero(value: &Frac) -> bool
    ensures { IsTrue result ↔ (value.now.num ≡ pos 0) }
{
    value.num() == 0
}

// The weights by these values of a scale.
fn weights_of(alloc: Global, values: &[Frac]) -> Result<Vec<Frac>, WeightFault>
    requires { AreFalling values.now }
    ensures { AnswersValues (λ weights. weights.items) values.now result }
{
    // For the proofs alone: the denominators are positive.
    are_fractions(values);
    if is_zero(&values[0]) {
        return Err(WeightFault::Flat);
    }
    worked(alloc, values)
}

/// The weights of the criteria by the basic scale of their weighting matrix: each swing over the sum of the swings. There are none
/// where no scale meets the judgements, or all swings are 0; a sum or a quotient may be out of range, worked from the first swing
/// on.
pub fn weights(alloc: Global, basic: &Basic) -> Result<Vec<Frac>, WeightFault>
    requires { AreSwingValues basic.now }
    ensures { AnswersBasic (λ weights. weights.items) basic.now result }
{
    match basic {
        Basic::Scale { values, .. } => weights_of(alloc, values.as_slice()),
        Basic::Inconsistent { .. } => Err(WeightFault::Inconsistent),
    }
}
