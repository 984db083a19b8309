//! The tags of a matrix's threshold problem, in their order.

ghost use Rattle.std.specs.Prelude.{◌≡◌, ◌++◌, ◌∷◌, [], All, IfOk};
ghost use Rattle.judgement_matrix.specs.Matrix.{IsPair};
ghost use Rattle.lp_macbeth.specs.Pairs.{ArePairs};
ghost use Rattle.lp_macbeth.specs.Threshold.{at_rows_of, equal_rows_of, below_rows_of, step_rows, threshold_rows, IsThresholdTagOf};

use crate::pairs::{element_pairs, range};
use crate::threshold_tags::ThresholdTag;
use frac128::NoMemory;
use judgement_matrix::Matrix;
use std::alloc::Global;

/// All tags.
pub(crate) fn threshold_tags(alloc: Global, matrix: &Matrix) -> Result<Vec<ThresholdTag>, NoMemory>
    ensures tags { IfOk result (λ tags. tags.items ≡ threshold_rows matrix.now) }
    ensures among { IfOk result (λ tags. All (IsThresholdTagOf matrix.now) tags.items) }
{
    let pairs = element_pairs(alloc, matrix.size() as u8)?;
    let mut tags = Vec::new(alloc);
    push_at(&mut tags, matrix, pairs.as_slice())?;
    push_equal(&mut tags, matrix, pairs.as_slice())?;
    push_below(&mut tags, matrix, pairs.as_slice())?;
    push_steps(&mut tags)?;
    Ok(tags)
}

// Adds the pairs whose ranges begin at 1 or above.
fn push_at(
    tags: &mut Vec<ThresholdTag>,
    matrix: &Matrix,
    pairs: &[(u8, u8)],
) -> Result<(), NoMemory>
    requires { ArePairs matrix.now.size pairs.now }
    ensures { IfOk result (λ _. tags.new.items
        ≡ tags.old.items ++ at_rows_of matrix.now pairs.now) }
{
    for pair in pairs {
        push_at_of(tags, matrix, *pair)?;
    }
    Ok(())
}

// Adds the pair, if its range begins at 1 or above.
fn push_at_of(tags: &mut Vec<ThresholdTag>, matrix: &Matrix, pair: (u8, u8)) -> Result<(), NoMemory>
    requires { IsPair matrix.now.size pair.0 pair.1 }
    ensures { IfOk result (λ _. tags.new.items
        ≡ tags.old.items ++ at_rows_of matrix.now (pair ∷ [])) }
{
    if range(matrix, pair).lo >= 1 {
        tags.push(ThresholdTag::At(pair.0, pair.1))?;
    }
    Ok(())
}

/// Adds the pairs whose ranges are 0 alone.
pub(crate) fn push_equal(
    tags: &mut Vec<ThresholdTag>,
    matrix: &Matrix,
    pairs: &[(u8, u8)],
) -> Result<(), NoMemory>
    requires { ArePairs matrix.now.size pairs.now }
    ensures { IfOk result (λ _. tags.new.items
        ≡ tags.old.items ++ equal_rows_of matrix.now pairs.now) }
{
    for pair in pairs {
        push_equal_of(tags, matrix, *pair)?;
    }
    Ok(())
}

// Adds the pair, if its range is 0 alone.
fn push_equal_of(
    tags: &mut Vec<ThresholdTag>,
    matrix: &Matrix,
    pair: (u8, u8),
) -> Result<(), NoMemory>
    requires { IsPair matrix.now.size pair.0 pair.1 }
    ensures { IfOk result (λ _. tags.new.items
        ≡ tags.old.items ++ equal_rows_of matrix.now (pair ∷ [])) }
{
    if range(matrix, pair).hi == 0 {
        tags.push(ThresholdTag::Zero(pair.0, pair.1))?;
    }
    Ok(())
}

/// Adds the pairs whose ranges end at 1 to 5.
pub(crate) fn push_below(
    tags: &mut Vec<ThresholdTag>,
    matrix: &Matrix,
    pairs: &[(u8, u8)],
) -> Result<(), NoMemory>
    requires { ArePairs matrix.now.size pairs.now }
    ensures { IfOk result (λ _. tags.new.items
        ≡ tags.old.items ++ below_rows_of matrix.now pairs.now) }
{
    for pair in pairs {
        push_below_of(tags, matrix, *pair)?;
    }
    Ok(())
}

// Adds the pair, if its range ends at 1 to 5.
fn push_below_of(
    tags: &mut Vec<ThresholdTag>,
    matrix: &Matrix,
    pair: (u8, u8),
) -> Result<(), NoMemory>
    requires { IsPair matrix.now.size pair.0 pair.1 }
    ensures { IfOk result (λ _. tags.new.items
        ≡ tags.old.items ++ below_rows_of matrix.now (pair ∷ [])) }
{
    let hi = range(matrix, pair).hi;
    if 1 <= hi && hi <= 5 {
        tags.push(ThresholdTag::Below(pair.0, pair.1))?;
    }
    Ok(())
}

/// Adds each threshold but the first.
pub(crate) fn push_steps(tags: &mut Vec<ThresholdTag>) -> Result<(), NoMemory>
    ensures { IfOk result (λ _. tags.new.items ≡ tags.old.items ++ step_rows) }
{
    for threshold in 2..6 {
        tags.push(ThresholdTag::Step(threshold))?;
    }
    Ok(())
}
