//! How weights of pairs that end below a category pass to pairs that begin at it.

ghost use Rattle.std.specs.Prelude.{◌≡◌, ◌++◌, length, IfOk};
ghost use Rattle.lp_macbeth.specs.Passing.{left_after, rests_after, passed, lost, lefts, takings};

use crate::weight::Weight;
use frac128::{List, NoMemory};
use std::alloc::Global;

/// What each of the first weights keeps when each takes as much as it can off the others below its category, those of the
/// highest category first; and what each took off each of the others.
pub(crate) fn pass_all(
    alloc: Global,
    ats: &[(u8, Weight)],
    belows: &[(u8, Weight)],
) -> Result<(List<Weight>, List<Weight>), NoMemory>
    ensures { IfOk result (λ kept. kept ≡ (lefts ats.now belows.now, takings ats.now belows.now)) }
{
    let mut kept = Vec::new(alloc);
    let mut taken = Vec::new(alloc);
    let mut rests = List::make(Vec::from_slice(alloc, belows)?);
    for (category, amount) in ats {
        let left = take_off(alloc, &mut rests, &mut taken, *category, *amount)?;
        if *category >= 1 {
            kept.push(left)?;
        }
    }
    Ok((List::make(kept), List::make(taken)))
}

// What is left of an amount when it took as much as it could off the weights below a category, and adds what they lost.
// Nearly all amounts are 0, and then nothing is copied.
fn take_off(
    alloc: Global,
    rests: &mut List<(u8, Weight)>,
    taken: &mut Vec<Weight>,
    category: u8,
    amount: Weight,
) -> Result<Weight, NoMemory>
    ensures left { IfOk result (λ left. (left, rests.new)
        ≡ passed category (amount, rests.old)) }
    ensures taken { IfOk result (λ _. taken.new.items
        ≡ taken.old.items ++ lost category rests.old rests.new) }
{
    if amount == Weight::ZERO {
        push_lost(taken, category, rests.as_slice(), rests.as_slice())?;
        return Ok(amount);
    }
    let (left, after) = pass(alloc, rests.as_slice(), category, amount)?;
    push_lost(taken, category, rests.as_slice(), after.as_slice())?;
    *rests = after;
    Ok(left)
}

// What is left of an amount, and of the weights, when it took as much as it could off those below a category.
fn pass(
    alloc: Global,
    weights: &[(u8, Weight)],
    category: u8,
    amount: Weight,
) -> Result<(Weight, List<(u8, Weight)>), NoMemory>
    ensures { IfOk result (λ left. left ≡ passed category (amount, weights.now)) }
{
    let mut left = amount;
    let mut rests = List::make(Vec::from_slice(alloc, weights)?);
    for above in 0..category {
        if left == Weight::ZERO {
            return Ok((left, rests));
        }
        (left, rests) = pass_at(alloc, rests.as_slice(), category - 1 - above, left)?;
    }
    Ok((left, rests))
}

// The same for the weights of one category.
fn pass_at(
    alloc: Global,
    weights: &[(u8, Weight)],
    category: u8,
    amount: Weight,
) -> Result<(Weight, List<(u8, Weight)>), NoMemory>
    ensures { IfOk result (λ left. left
        ≡ (left_after category amount weights.now, rests_after category amount weights.now)) }
{
    let mut left = amount;
    let mut rests = Vec::new(alloc);
    for (own, weight) in weights {
        if *own == category {
            rests.push((*own, weight.less(left)))?;
            left = left.less(*weight);
        } else {
            rests.push((*own, *weight))?;
        }
    }
    Ok((left, List::make(rests)))
}

// Adds what the weights below a category lost.
fn push_lost(
    taken: &mut Vec<Weight>,
    category: u8,
    before: &[(u8, Weight)],
    after: &[(u8, Weight)],
) -> Result<(), NoMemory>
    requires { length after.now ≡ length before.now }
    ensures { IfOk result (λ _. taken.new.items
        ≡ taken.old.items ++ lost category before.now after.now) }
{
    for (place, (own, weight)) in before.iter().enumerate() {
        if *own < category {
            taken.push(weight.less(after[place].1))?;
        }
    }
    Ok(())
}
