//! The tags of a matrix's constraints, in row order.

ghost use Rattle.std.specs.Prelude.{◌≡◌, ◌++◌, ◌∷◌, [], ◌≤◌, ◌==◌, nat_le, map, All, IfOk};
ghost use Rattle.judgement_matrix.specs.Matrix.{IsPair, range_at};
ghost use Rattle.judgement_matrix.specs.Rows.{rows, order_rows, IsTagAmong};
ghost use Rattle.judgement_matrix.specs.Walk.{lower_rows_of, zero_rows_of, cross_rows_of};
ghost use Rattle.lp_macbeth.specs.Closed.{closed_tags as tags_of};
ghost use Rattle.lp_macbeth.specs.Pairs.{ArePairs};
ghost use Rattle.lp_macbeth.specs.Rows.{judged_rows};

use crate::pairs::{element_pairs, range, under_each};
use frac128::NoMemory;
use judgement_matrix::{Matrix, Tag};
use std::alloc::Global;

/// All tags.
pub(crate) fn all_tags(alloc: Global, matrix: &Matrix) -> Result<Vec<Tag>, NoMemory>
    ensures tags { IfOk result (λ tags. tags.items ≡ rows matrix.now) }
    ensures among { IfOk result (λ tags. All (IsTagAmong matrix.now.size) tags.items) }
{
    let mut tags = judged_tags(alloc, matrix)?;
    push_order(&mut tags, matrix)?;
    Ok(tags)
}

/// The tags of the rows of `problem(matrix)`, in row order: all but those of Order.
pub fn judged_tags(alloc: Global, matrix: &Matrix) -> Result<Vec<Tag>, NoMemory>
    ensures tags { IfOk result (λ tags. tags.items ≡ judged_rows matrix.now) }
    ensures among { IfOk result (λ tags. All (IsTagAmong matrix.now.size) tags.items) }
{
    let pairs = element_pairs(alloc, matrix.size() as u8)?;
    let mut tags = Vec::new(alloc);
    push_lower(&mut tags, matrix, pairs.as_slice())?;
    push_zero(&mut tags, matrix, pairs.as_slice())?;
    push_cross(alloc, &mut tags, matrix, pairs.as_slice())?;
    Ok(tags)
}

/// The tags of Zero and Cross.
pub(crate) fn closed_tags(alloc: Global, matrix: &Matrix) -> Result<Vec<Tag>, NoMemory>
    ensures tags { IfOk result (λ tags. tags.items ≡ tags_of matrix.now) }
    ensures among { IfOk result (λ tags. All (IsTagAmong matrix.now.size) tags.items) }
{
    let pairs = element_pairs(alloc, matrix.size() as u8)?;
    let mut tags = Vec::new(alloc);
    push_zero(&mut tags, matrix, pairs.as_slice())?;
    push_cross(alloc, &mut tags, matrix, pairs.as_slice())?;
    Ok(tags)
}

/// Adds the pairs whose ranges begin at 1 or above.
pub(crate) fn push_lower(
    tags: &mut Vec<Tag>,
    matrix: &Matrix,
    pairs: &[(u8, u8)],
) -> Result<(), NoMemory>
    requires { ArePairs matrix.now.size pairs.now }
    ensures { IfOk result (λ _. tags.new.items
        ≡ tags.old.items ++ lower_rows_of matrix.now pairs.now) }
{
    for pair in pairs {
        push_lower_of(tags, matrix, *pair)?;
    }
    Ok(())
}

// Adds the pair, if its range begins at 1 or above.
fn push_lower_of(tags: &mut Vec<Tag>, matrix: &Matrix, pair: (u8, u8)) -> Result<(), NoMemory>
    requires { IsPair matrix.now.size pair.0 pair.1 }
    ensures { IfOk result (λ _. tags.new.items
        ≡ tags.old.items ++ lower_rows_of matrix.now (pair ∷ [])) }
{
    if range(matrix, pair).lo >= 1 {
        tags.push(Tag::Lower(pair.0, pair.1))?;
    }
    Ok(())
}

/// Adds the pairs whose ranges are 0 alone.
pub(crate) fn push_zero(
    tags: &mut Vec<Tag>,
    matrix: &Matrix,
    pairs: &[(u8, u8)],
) -> Result<(), NoMemory>
    requires { ArePairs matrix.now.size pairs.now }
    ensures { IfOk result (λ _. tags.new.items
        ≡ tags.old.items ++ zero_rows_of matrix.now pairs.now) }
{
    for pair in pairs {
        push_zero_of(tags, matrix, *pair)?;
    }
    Ok(())
}

// Adds the pair, if its range is 0 alone.
fn push_zero_of(tags: &mut Vec<Tag>, matrix: &Matrix, pair: (u8, u8)) -> Result<(), NoMemory>
    requires { IsPair matrix.now.size pair.0 pair.1 }
    ensures { IfOk result (λ _. tags.new.items
        ≡ tags.old.items ++ zero_rows_of matrix.now (pair ∷ [])) }
{
    if range(matrix, pair).hi == 0 {
        tags.push(Tag::Zero(pair.0, pair.1))?;
    }
    Ok(())
}

// Adds each pair with each pair whose range lies wholly below its own. Those under a category are listed once.
fn push_cross(
    alloc: Global,
    tags: &mut Vec<Tag>,
    matrix: &Matrix,
    pairs: &[(u8, u8)],
) -> Result<(), NoMemory>
    requires { ArePairs matrix.now.size pairs.now }
    ensures { IfOk result (λ _. tags.new.items
        ≡ tags.old.items ++ cross_rows_of matrix.now pairs.now pairs.now) }
{
    let under = under_each(alloc, matrix, pairs)?;
    for pair in pairs {
        let lo = range(matrix, *pair).lo;
        push_cross_of(tags, *pair, under[usize::from(lo)].as_slice())?;
    }
    Ok(())
}

// Adds the pair with each of the others.
fn push_cross_of(tags: &mut Vec<Tag>, left: (u8, u8), rights: &[(u8, u8)]) -> Result<(), NoMemory>
    ensures { IfOk result (λ _. tags.new.items
        ≡ tags.old.items ++ map (λ right. Tag.Cross left.0 left.1 right.0 right.1) rights.now) }
{
    for right in rights {
        tags.push(Tag::Cross(left.0, left.1, right.0, right.1))?;
    }
    Ok(())
}

// Adds each element but the last.
fn push_order(tags: &mut Vec<Tag>, matrix: &Matrix) -> Result<(), NoMemory>
    ensures { IfOk result (λ _. tags.new.items ≡ tags.old.items ++ order_rows matrix.now) }
{
    let size = matrix.size() as u8;
    for p in 1..size {
        tags.push(Tag::Order(p))?;
    }
    Ok(())
}
