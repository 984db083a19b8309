//! The closed problem of a criterion: the least difference of two elements over the closure of its open scales.

ghost use Rattle.std.specs.Prelude.{◌≡◌, ◌≢◌, ◌++◌, ◌∷◌, [], ◌-◌, ◌≤◌, ◌<◌, ℤ, pos, neg_ℤ, length, map, replicate, All, IfOk};
ghost use Rattle.frac128.specs.Problem.{IsRow};
ghost use Rattle.frac128.specs.Range.{IsInRange};
ghost use Rattle.integers.specs.Vector.{AreNonNegative};
ghost use Rattle.judgement_matrix.specs.Matrix.{IsPair};
ghost use Rattle.judgement_matrix.specs.declared.reach.TheConstants.{LEAST_REACH, MOST_REACH};
ghost use Rattle.judgement_matrix.specs.Rows.{IsTagAmong};
ghost use Rattle.lp_macbeth.specs.Closed.{closed_tags, closed_row_of, anchor_up, anchor_down, reach_up, reach_down, outer_coefs, closed_cost, closed_problem_with as problem_with, closed_problem_of};
ghost use Rattle.lp_macbeth.specs.Gaps.{gap_coefs, opposite};
ghost use Rattle.lp_macbeth.specs.Rows.{row_of};

use crate::gaps::{push_copies, push_cross, push_difference, push_opposite};
use crate::tags::closed_tags;
use frac128::problem::{Problem, Row};
use frac128::{List, NoMemory};
use judgement_matrix::{Matrix, Tag};
use std::alloc::Global;

/// The problem of the least difference of element `a` over element `b`, over all lists that meet the matrix in some unit
/// of at least 0, with `good` and `neutral` 100 apart and a span of at most `reach`. Its variables are the gaps, bottom
/// first, and the room, which is what the span leaves of the reach. Where `a` is listed above `b` its value is that
/// difference, and else the difference and the reach.
pub fn closed_problem(
    alloc: Global,
    matrix: &Matrix,
    good: usize,
    neutral: usize,
    reach: u32,
    a: usize,
    b: usize,
) -> Result<Problem, NoMemory>
    requires references { IsPair matrix.now.size good neutral }
    requires least { LEAST_REACH ≤ reach }
    requires most { reach ≤ MOST_REACH }
    requires apart { a ≢ b }
    requires a { (1 ≤ a) × (a ≤ matrix.now.size) }
    requires b { (1 ≤ b) × (b ≤ matrix.now.size) }
    ensures { IfOk result (λ problem. problem
        ≡ closed_problem_of matrix.now good neutral reach a b) }
{
    let cost = cost(alloc, matrix.size(), a, b)?;
    closed_problem_with(alloc, matrix, good, neutral, reach, cost)
}

/// The same problem with other costs: one for each gap, bottom first, and one for the room, none below 0.
pub fn closed_problem_with(
    alloc: Global,
    matrix: &Matrix,
    good: usize,
    neutral: usize,
    reach: u32,
    cost: Vec<i128>,
) -> Result<Problem, NoMemory>
    requires references { IsPair matrix.now.size good neutral }
    requires most { reach ≤ MOST_REACH }
    requires one_each { length cost.items ≡ matrix.now.size }
    requires nonneg { AreNonNegative cost.items }
    requires in_range { All IsInRange cost.items }
    ensures { IfOk result (λ problem. problem
        ≡ problem_with matrix.now good neutral reach cost.items) }
{
    let n = matrix.size();
    let tags = closed_tags(alloc, matrix)?;
    let mut rows = Vec::new(alloc);
    push_compared(alloc, &mut rows, matrix, tags.as_slice())?;
    push_anchors(alloc, &mut rows, n, good, neutral)?;
    push_reaches(alloc, &mut rows, n, reach)?;
    Ok(Problem::make(n, List::make(cost), List::make(rows)))
}

// Adds the rows that compare pairs.
fn push_compared(
    alloc: Global,
    rows: &mut Vec<Row>,
    matrix: &Matrix,
    tags: &[Tag],
) -> Result<(), NoMemory>
    requires among { All (IsTagAmong matrix.now.size) tags.now }
    requires before { All (IsRow matrix.now.size) rows.old.items }
    ensures rows { IfOk result (λ _. rows.new.items
        ≡ rows.old.items ++ map (closed_row_of matrix.now) tags.now) }
    ensures fit { IfOk result (λ _. All (IsRow matrix.now.size) rows.new.items) }
{
    for tag in tags {
        rows.push(closed_row(alloc, matrix, *tag)?)?;
    }
    Ok(())
}

// The constraint of a tag in unit 0.
fn closed_row(alloc: Global, matrix: &Matrix, tag: Tag) -> Result<Row, NoMemory>
    requires { IsTagAmong matrix.now.size tag }
    ensures row { IfOk result (λ row. row ≡ closed_row_of matrix.now tag) }
    ensures fits { IfOk result (IsRow matrix.now.size) }
{
    let mut coefs = Vec::new(alloc);
    push_coefs(&mut coefs, matrix, tag)?;
    coefs.push(0)?;
    Ok(Row {
        coefs: List::make(coefs),
        bound: 0,
    })
}

/// Adds the coefficients of a tag's constraint.
pub(crate) fn push_coefs(coefs: &mut Vec<i128>, matrix: &Matrix, tag: Tag) -> Result<(), NoMemory>
    requires { IsTagAmong matrix.now.size tag }
    ensures { IfOk result (λ _. coefs.new.items
        ≡ coefs.old.items ++ (row_of matrix.now tag).coefs) }
{
    let n = matrix.size();
    match tag {
        Tag::Lower(p, q) => push_difference(coefs, n, usize::from(p), usize::from(q)),
        Tag::Zero(p, q) => push_opposite(coefs, n, usize::from(p), usize::from(q)),
        Tag::Cross(p, q, x, y) => push_cross(
            coefs,
            n,
            (usize::from(p), usize::from(q)),
            (usize::from(x), usize::from(y)),
        ),
        Tag::Order(p) => push_difference(coefs, n, usize::from(p), usize::from(p) + 1),
    }
}

/// Adds the rows that set good and neutral 100 apart.
pub(crate) fn push_anchors(
    alloc: Global,
    rows: &mut Vec<Row>,
    n: usize,
    good: usize,
    neutral: usize,
) -> Result<(), NoMemory>
    requires { IsPair n good neutral }
    ensures { IfOk result (λ _. rows.new.items
        ≡ rows.old.items ++ anchor_up n good neutral ∷ anchor_down n good neutral ∷ []) }
{
    rows.push(difference_row(alloc, n, (good, neutral), 0, 100)?)?;
    rows.push(opposite_row(alloc, n, (good, neutral), 0, -100)?)?;
    Ok(())
}

/// Adds the rows that set the span and the room to the reach.
pub(crate) fn push_reaches(
    alloc: Global,
    rows: &mut Vec<Row>,
    n: usize,
    reach: u32,
) -> Result<(), NoMemory>
    requires least { 2 ≤ n }
    requires most { reach ≤ MOST_REACH }
    ensures { IfOk result (λ _. rows.new.items
        ≡ rows.old.items ++ reach_up n reach ∷ reach_down n reach ∷ []) }
{
    rows.push(difference_row(alloc, n, (1, n), 1, i128::from(reach))?)?;
    rows.push(opposite_row(alloc, n, (1, n), -1, -i128::from(reach))?)?;
    Ok(())
}

// The difference of the elements and so many times the room is at least the bound.
fn difference_row(
    alloc: Global,
    n: usize,
    pair: (usize, usize),
    room: i128,
    bound: i128,
) -> Result<Row, NoMemory>
    requires pair { IsPair n pair.0 pair.1 }
    ensures { IfOk result (λ row. row
        ≡ record { coefs = gap_coefs n pair.0 pair.1 ++ room ∷ []; bound = bound }) }
{
    let mut coefs = Vec::new(alloc);
    push_difference(&mut coefs, n, pair.0, pair.1)?;
    coefs.push(room)?;
    Ok(Row {
        coefs: List::make(coefs),
        bound,
    })
}

// The difference of the elements with the other sign and so many times the room is at least the bound.
fn opposite_row(
    alloc: Global,
    n: usize,
    pair: (usize, usize),
    room: i128,
    bound: i128,
) -> Result<Row, NoMemory>
    requires pair { IsPair n pair.0 pair.1 }
    ensures { IfOk result (λ row. row
        ≡ record { coefs = opposite (gap_coefs n pair.0 pair.1) ++ room ∷ []; bound = bound }) }
{
    let mut coefs = Vec::new(alloc);
    push_opposite(&mut coefs, n, pair.0, pair.1)?;
    coefs.push(room)?;
    Ok(Row {
        coefs: List::make(coefs),
        bound,
    })
}

/// The cost of the gaps and of the room.
pub(crate) fn cost(alloc: Global, n: usize, a: usize, b: usize) -> Result<Vec<i128>, NoMemory>
    requires apart { a ≢ b }
    requires a { (1 ≤ a) × (a ≤ n) }
    requires b { (1 ≤ b) × (b ≤ n) }
    ensures { IfOk result (λ cost. cost.items ≡ closed_cost n a b) }
{
    let mut cost = Vec::new(alloc);
    if a < b {
        push_difference(&mut cost, n, a, b)?;
        cost.push(0)?;
        return Ok(cost);
    }
    push_outer(&mut cost, n, b, a)?;
    cost.push(1)?;
    Ok(cost)
}

// Adds 1 for each gap that isn't between the elements and 0 for the others.
fn push_outer(coefs: &mut Vec<i128>, n: usize, p: usize, q: usize) -> Result<(), NoMemory>
    requires { IsPair n p q }
    ensures { IfOk result (λ _. coefs.new.items ≡ coefs.old.items ++ outer_coefs n p q) }
{
    push_copies(coefs, 1, n - q)?;
    push_copies(coefs, 0, q - p)?;
    push_copies(coefs, 1, p - 1)
}
