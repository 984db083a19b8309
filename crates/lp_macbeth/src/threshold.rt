//! The threshold problem: five thresholds stand between the categories, so that each pair is compared with them in place of
//! all other pairs.

ghost use Rattle.std.specs.Prelude.{◌≡◌, ◌++◌, ◌+◌, ◌-◌, ◌≤◌, pos, negsuc, neg_ℤ, map, replicate, All, IfOk};
ghost use Rattle.frac128.specs.Problem.{IsRow};
ghost use Rattle.judgement_matrix.specs.Matrix.{IsPair};
ghost use Rattle.lp_macbeth.specs.Gaps.{gap_coefs, opposite};
ghost use Rattle.lp_macbeth.specs.Threshold.{threshold, threshold_step, threshold_row_of, threshold_problem_of, IsThresholdTagOf};

use crate::gaps::{push_copies, push_difference, push_opposite};
use crate::pairs::range;
use crate::threshold_lists::threshold_tags;
use crate::threshold_tags::ThresholdTag;
use frac128::problem::{Problem, Row};
use frac128::{List, NoMemory};
use judgement_matrix::Matrix;
use std::alloc::Global;

/// The threshold problem of a matrix: a variable of cost 1 for each gap, bottom first, and five thresholds that cost
/// nothing. Its points, cut to their gaps, are those of `problem`, and so is its least point; it has far fewer rows.
pub fn threshold_problem(alloc: Global, matrix: &Matrix) -> Result<Problem, NoMemory>
    requires { 2 ≤ matrix.now.size }
    ensures { IfOk result (λ problem. problem ≡ threshold_problem_of matrix.now) }
{
    let tags = threshold_tags(alloc, matrix)?;
    let rows = rows_of(alloc, matrix, tags.as_slice())?;
    let gaps = matrix.size() - 1;
    let mut cost = Vec::new(alloc);
    push_copies(&mut cost, 1, gaps)?;
    push_copies(&mut cost, 0, 5)?;
    Ok(Problem::make(gaps + 5, List::make(cost), rows))
}

// The rows of the tags.
fn rows_of(alloc: Global, matrix: &Matrix, tags: &[ThresholdTag]) -> Result<List<Row>, NoMemory>
    requires { All (IsThresholdTagOf matrix.now) tags.now }
    ensures rows { IfOk result (λ rows. rows ≡ map (threshold_row_of matrix.now) tags.now) }
    ensures fit { IfOk result (All (IsRow (matrix.now.size - 1 + 5))) }
{
    let mut rows = Vec::new(alloc);
    for tag in tags {
        rows.push(row(alloc, matrix, *tag)?)?;
    }
    Ok(List::make(rows))
}

/// The constraint of a tag.
pub(crate) fn row(alloc: Global, matrix: &Matrix, tag: ThresholdTag) -> Result<Row, NoMemory>
    requires { IsThresholdTagOf matrix.now tag }
    ensures row { IfOk result (λ row. row ≡ threshold_row_of matrix.now tag) }
    ensures fits { IfOk result (IsRow (matrix.now.size - 1 + 5)) }
{
    let n = matrix.size();
    match tag {
        ThresholdTag::At(p, q) => at_row(alloc, n, p, q, range(matrix, (p, q)).lo),
        ThresholdTag::Zero(p, q) => equal_row(alloc, n, p, q),
        ThresholdTag::Below(p, q) => below_row(alloc, n, p, q, range(matrix, (p, q)).hi),
        ThresholdTag::Step(k) => step_row(alloc, n, k),
    }
}

// The difference less the threshold below the category is at least the category.
fn at_row(alloc: Global, n: usize, p: u8, q: u8, lo: u8) -> Result<Row, NoMemory>
    requires pair { IsPair n p q }
    requires least { 1 ≤ lo }
    requires most { lo ≤ 6 }
    ensures row { IfOk result (λ row. row
        ≡ record { coefs = gap_coefs n p q ++ threshold (lo - 1) (negsuc 0); bound = pos lo }) }
    ensures fits { IfOk result (IsRow (n - 1 + 5)) }
{
    let mut coefs = Vec::new(alloc);
    push_difference(&mut coefs, n, usize::from(p), usize::from(q))?;
    push_threshold(&mut coefs, usize::from(lo) - 1, -1)?;
    Ok(Row {
        coefs: List::make(coefs),
        bound: i128::from(lo),
    })
}

// The difference is at most 0.
fn equal_row(alloc: Global, n: usize, p: u8, q: u8) -> Result<Row, NoMemory>
    requires { IsPair n p q }
    ensures row { IfOk result (λ row. row
        ≡ record { coefs = opposite (gap_coefs n p q) ++ threshold 0 (pos 0); bound = pos 0 }) }
    ensures fits { IfOk result (IsRow (n - 1 + 5)) }
{
    let mut coefs = Vec::new(alloc);
    push_opposite(&mut coefs, n, usize::from(p), usize::from(q))?;
    push_threshold(&mut coefs, 0, 0)?;
    Ok(Row {
        coefs: List::make(coefs),
        bound: 0,
    })
}

// The difference less the threshold of the category is at most the category.
fn below_row(alloc: Global, n: usize, p: u8, q: u8, hi: u8) -> Result<Row, NoMemory>
    requires pair { IsPair n p q }
    requires most { hi ≤ 5 }
    ensures row { IfOk result (λ row. row
        ≡ record {
          coefs = opposite (gap_coefs n p q) ++ threshold hi (pos 1);
          bound = neg_ℤ (pos hi);
        }) }
    ensures fits { IfOk result (IsRow (n - 1 + 5)) }
{
    let mut coefs = Vec::new(alloc);
    push_opposite(&mut coefs, n, usize::from(p), usize::from(q))?;
    push_threshold(&mut coefs, usize::from(hi), 1)?;
    Ok(Row {
        coefs: List::make(coefs),
        bound: -i128::from(hi),
    })
}

// The threshold is at least the one before it.
fn step_row(alloc: Global, n: usize, k: u8) -> Result<Row, NoMemory>
    requires least { 2 ≤ k }
    requires most { k ≤ 5 }
    ensures row { IfOk result (λ row. row
        ≡ record { coefs = replicate (n - 1) (pos 0) ++ threshold_step k; bound = pos 0 }) }
    ensures fits { IfOk result (IsRow (n - 1 + 5)) }
{
    let mut coefs = Vec::new(alloc);
    push_copies(&mut coefs, 0, n.saturating_sub(1))?;
    push_step(&mut coefs, usize::from(k))?;
    Ok(Row {
        coefs: List::make(coefs),
        bound: 0,
    })
}

// Adds the coefficients of so many times a threshold, which for 0 is none.
fn push_threshold(coefs: &mut Vec<i128>, k: usize, value: i128) -> Result<(), NoMemory>
    requires { k ≤ 5 }
    ensures { IfOk result (λ _. coefs.new.items ≡ coefs.old.items ++ threshold k value) }
{
    if k == 0 {
        return push_copies(coefs, 0, 5);
    }
    push_copies(coefs, 0, k - 1)?;
    push_copies(coefs, value, 1)?;
    push_copies(coefs, 0, 5 - k)
}

// Adds the coefficients of a threshold less the one before it.
fn push_step(coefs: &mut Vec<i128>, k: usize) -> Result<(), NoMemory>
    requires least { 2 ≤ k }
    requires most { k ≤ 5 }
    ensures { IfOk result (λ _. coefs.new.items ≡ coefs.old.items ++ threshold_step k) }
{
    push_copies(coefs, 0, k - 2)?;
    push_copies(coefs, -1, 1)?;
    push_copies(coefs, 1, 1)?;
    push_copies(coefs, 0, 5 - k)
}
