//! The threshold form of closed problems: five thresholds stand between the categories, so that each pair is compared with them in
//! place of all other pairs.

ghost use Rattle.std.specs.Prelude.{◌≡◌, ◌≢◌, ◌++◌, ◌∷◌, [], ◌+◌, ◌-◌, ◌≤◌, ◌<◌, length, map, replicate, All, IfOk};
ghost use Rattle.frac128.specs.Problem.{IsRow};
ghost use Rattle.frac128.specs.Range.{IsInRange};
ghost use Rattle.integers.specs.Vector.{AreNonNegative};
ghost use Rattle.judgement_matrix.specs.Matrix.{IsPair};
ghost use Rattle.lp_macbeth.specs.Closed.{anchored_rows, closed_cost};
ghost use Rattle.judgement_matrix.specs.declared.reach.TheConstants.{MOST_REACH};
ghost use Rattle.lp_macbeth.specs.ClosedThreshold.{high_rows_of, closed_threshold_rows, closed_threshold_row_of, with_thresholds, threshold_form_of, closed_thresholds_with as thresholds_with, closed_thresholds_of, weighting_thresholds_of};
ghost use Rattle.lp_macbeth.specs.ClosedWeighting.{sum_rows};
ghost use Rattle.lp_macbeth.specs.Pairs.{ArePairs};
ghost use Rattle.lp_macbeth.specs.Threshold.{IsThresholdTagOf};

use crate::closed::{cost, push_anchors, push_reaches};
use crate::gaps::push_copies;
use crate::pairs::{element_pairs, range};
use crate::threshold::row;
use crate::threshold_lists::{push_below, push_equal, push_steps};
use crate::threshold_tags::ThresholdTag;
use crate::weighting::push_sums;
use frac128::problem::{Problem, Row};
use frac128::{List, NoMemory};
use judgement_matrix::Matrix;
use std::alloc::Global;

/// The threshold form of `closed_problem`: its variables with their costs, and then five thresholds that cost nothing. Its points,
/// cut to the gaps and the room, are those of `closed_problem`, and so is its least point; it has far fewer rows.
pub fn closed_thresholds(
    alloc: Global,
    matrix: &Matrix,
    good: usize,
    neutral: usize,
    reach: u32,
    a: usize,
    b: usize,
) -> Result<Problem, NoMemory>
    requires references { IsPair matrix.now.size good neutral }
    requires most { reach ≤ MOST_REACH }
    requires apart { a ≢ b }
    requires a { (1 ≤ a) × (a ≤ matrix.now.size) }
    requires b { (1 ≤ b) × (b ≤ matrix.now.size) }
    ensures { IfOk result (λ problem. problem
        ≡ closed_thresholds_of matrix.now good neutral reach a b) }
{
    let cost = cost(alloc, matrix.size(), a, b)?;
    closed_thresholds_with(alloc, matrix, good, neutral, reach, cost)
}

/// The threshold form of `closed_problem_with`.
pub fn closed_thresholds_with(
    alloc: Global,
    matrix: &Matrix,
    good: usize,
    neutral: usize,
    reach: u32,
    cost: Vec<i128>,
) -> Result<Problem, NoMemory>
    requires references { IsPair matrix.now.size good neutral }
    requires most { reach ≤ MOST_REACH }
    requires one_each { length cost.items ≡ matrix.now.size }
    requires nonneg { AreNonNegative cost.items }
    requires in_range { All IsInRange cost.items }
    ensures { IfOk result (λ problem. problem
        ≡ thresholds_with matrix.now good neutral reach cost.items) }
{
    let n = matrix.size();
    let mut named = Vec::new(alloc);
    push_anchors(alloc, &mut named, n, good, neutral)?;
    push_reaches(alloc, &mut named, n, reach)?;
    threshold_form(alloc, matrix, 1, cost, named.as_slice())
}

/// The threshold form of the closed problem of a weighting, with these costs of the gaps between the weights, bottom first.
pub fn weighting_thresholds(
    alloc: Global,
    matrix: &Matrix,
    cost: Vec<i128>,
) -> Result<Problem, NoMemory>
    requires some { 2 ≤ matrix.now.size }
    requires one_each { length cost.items ≡ matrix.now.size - 1 }
    requires nonneg { AreNonNegative cost.items }
    requires in_range { All IsInRange cost.items }
    ensures { IfOk result (λ problem. problem ≡ weighting_thresholds_of matrix.now cost.items) }
{
    let mut named = Vec::new(alloc);
    push_sums(alloc, &mut named, matrix.size() - 1)?;
    threshold_form(alloc, matrix, 0, cost, named.as_slice())
}

// The threshold form of a problem over the gaps and so many further variables, with these rows beside those of pairs.
fn threshold_form(
    alloc: Global,
    matrix: &Matrix,
    further: usize,
    cost: Vec<i128>,
    named: &[Row],
) -> Result<Problem, NoMemory>
    requires few { further ≤ 1 }
    requires one_each { length cost.items ≡ matrix.now.size - 1 + further }
    requires nonneg { AreNonNegative cost.items }
    requires in_range { All IsInRange cost.items }
    requires named { All (IsRow (matrix.now.size - 1 + further)) named.now }
    ensures { IfOk result (λ problem. problem
        ≡ threshold_form_of matrix.now further cost.items named.now) }
{
    let tags = closed_threshold_tags(alloc, matrix)?;
    let mut rows = Vec::new(alloc);
    push_compared(alloc, &mut rows, matrix, further, tags.as_slice())?;
    push_named(alloc, &mut rows, named)?;
    let vars = matrix.size() - 1 + further + 5;
    let mut costs = cost;
    push_copies(&mut costs, 0, 5)?;
    Ok(Problem::make(vars, List::make(costs), List::make(rows)))
}

// ---- rows

// Adds the rows of pairs and thresholds.
fn push_compared(
    alloc: Global,
    rows: &mut Vec<Row>,
    matrix: &Matrix,
    further: usize,
    tags: &[ThresholdTag],
) -> Result<(), NoMemory>
    requires { All (IsThresholdTagOf matrix.now) tags.now }
    ensures { IfOk result (λ _. rows.new.items
        ≡ rows.old.items ++ map (closed_threshold_row_of matrix.now further) tags.now) }
{
    for tag in tags {
        rows.push(closed_row(alloc, matrix, further, *tag)?)?;
    }
    Ok(())
}

// The constraint of a tag in unit 0.
fn closed_row(
    alloc: Global,
    matrix: &Matrix,
    further: usize,
    tag: ThresholdTag,
) -> Result<Row, NoMemory>
    requires { IsThresholdTagOf matrix.now tag }
    ensures { IfOk result (λ row. row ≡ closed_threshold_row_of matrix.now further tag) }
{
    let open = row(alloc, matrix, tag)?;
    let (gaps, thresholds) = open.coefs.as_slice().split_at(matrix.size() - 1);
    let mut coefs = Vec::from_slice(alloc, gaps)?;
    push_copies(&mut coefs, 0, further)?;
    coefs.extend_from_slice(thresholds)?;
    Ok(Row {
        coefs: List::make(coefs),
        bound: 0,
    })
}

// Adds the rows, which ask nothing of the thresholds.
fn push_named(alloc: Global, rows: &mut Vec<Row>, named: &[Row]) -> Result<(), NoMemory>
    ensures { IfOk result (λ _. rows.new.items
        ≡ rows.old.items ++ map with_thresholds named.now) }
{
    for row in named {
        rows.push(named_row(alloc, row)?)?;
    }
    Ok(())
}

// The row over the thresholds too.
fn named_row(alloc: Global, row: &Row) -> Result<Row, NoMemory>
    ensures { IfOk result (λ longer. longer ≡ with_thresholds row.now) }
{
    let mut coefs = Vec::from_slice(alloc, row.coefs.as_slice())?;
    push_copies(&mut coefs, 0, 5)?;
    Ok(Row {
        coefs: List::make(coefs),
        bound: row.bound,
    })
}

// ---- tags

/// The tags of the rows of pairs and thresholds.
pub(crate) fn closed_threshold_tags(
    alloc: Global,
    matrix: &Matrix,
) -> Result<Vec<ThresholdTag>, NoMemory>
    ensures tags { IfOk result (λ tags. tags.items ≡ closed_threshold_rows matrix.now) }
    ensures among { IfOk result (λ tags. All (IsThresholdTagOf matrix.now) tags.items) }
{
    let pairs = element_pairs(alloc, matrix.size() as u8)?;
    let mut tags = Vec::new(alloc);
    push_high(&mut tags, matrix, pairs.as_slice())?;
    push_equal(&mut tags, matrix, pairs.as_slice())?;
    push_below(&mut tags, matrix, pairs.as_slice())?;
    push_steps(&mut tags)?;
    Ok(tags)
}

// Adds the pairs whose ranges begin at 2 or above.
fn push_high(
    tags: &mut Vec<ThresholdTag>,
    matrix: &Matrix,
    pairs: &[(u8, u8)],
) -> Result<(), NoMemory>
    requires { ArePairs matrix.now.size pairs.now }
    ensures { IfOk result (λ _. tags.new.items
        ≡ tags.old.items ++ high_rows_of matrix.now pairs.now) }
{
    for pair in pairs {
        push_high_of(tags, matrix, *pair)?;
    }
    Ok(())
}

// Adds the pair, if its range begins at 2 or above.
fn push_high_of(
    tags: &mut Vec<ThresholdTag>,
    matrix: &Matrix,
    pair: (u8, u8),
) -> Result<(), NoMemory>
    requires { IsPair matrix.now.size pair.0 pair.1 }
    ensures { IfOk result (λ _. tags.new.items
        ≡ tags.old.items ++ high_rows_of matrix.now (pair ∷ [])) }
{
    if range(matrix, pair).lo >= 2 {
        tags.push(ThresholdTag::At(pair.0, pair.1))?;
    }
    Ok(())
}
