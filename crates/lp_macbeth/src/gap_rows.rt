//! The constraints of a matrix as rows over gaps, in row order, and the problem that they make.

ghost use Rattle.std.specs.Prelude.{◌≡◌, ◌+◌, ◌-◌, ◌≤◌, ◌<◌, ◌-ℤ◌, pos, map, replicate, All, IfOk};
ghost use Rattle.frac128.specs.Problem.{IsRow};
ghost use Rattle.judgement_matrix.specs.Matrix.{IsPair};
ghost use Rattle.judgement_matrix.specs.Rows.{IsTagAmong};
ghost use Rattle.lp_macbeth.specs.Gaps.{gap_coefs, opposite};
ghost use Rattle.lp_macbeth.specs.Rows.{cross_coefs, row_of, tagged_rows, problem_of, problem_on};

use crate::gaps::{push_copies, push_cross, push_difference, push_opposite};
use crate::pairs::range;
use crate::tags::{all_tags, judged_tags};
use frac128::problem::{Problem, Row};
use frac128::{List, NoMemory};
use judgement_matrix::{Matrix, Tag};
use std::alloc::Global;

/// The constraints of a matrix over the gaps between neighbouring elements, bottom gap first, each with its tag: in row
/// order, those of Order last.
pub fn rows(alloc: Global, matrix: &Matrix) -> Result<Vec<(Tag, Row)>, NoMemory>
    requires { 2 ≤ matrix.now.size }
    ensures { IfOk result (λ rows. rows.items ≡ tagged_rows matrix.now) }
{
    let tags = all_tags(alloc, matrix)?;
    tagged(alloc, matrix, tags.as_slice())
}

/// The problem of the least span: a variable for each gap, bottom first, each of cost 1, and the constraints but those of
/// Order. Its points are the scales that meet the matrix, as gaps.
pub fn problem(alloc: Global, matrix: &Matrix) -> Result<Problem, NoMemory>
    requires { 2 ≤ matrix.now.size }
    ensures { IfOk result (λ problem. problem ≡ problem_of matrix.now) }
{
    let tags = judged_tags(alloc, matrix)?;
    problem_of_tags(alloc, matrix, tags.as_slice())
}

/// The same problem with only the constraints of these tags, in their order.
pub fn problem_of_tags(alloc: Global, matrix: &Matrix, tags: &[Tag]) -> Result<Problem, NoMemory>
    requires size { 2 ≤ matrix.now.size }
    requires tags { All (IsTagAmong matrix.now.size) tags.now }
    ensures { IfOk result (λ problem. problem ≡ problem_on matrix.now tags.now) }
{
    let rows = untagged(alloc, matrix, tags)?;
    let vars = matrix.size() - 1;
    let mut cost = Vec::new(alloc);
    push_copies(&mut cost, 1, vars)?;
    Ok(Problem::make(vars, List::make(cost), rows))
}

// Each row with its tag.
fn tagged(alloc: Global, matrix: &Matrix, tags: &[Tag]) -> Result<Vec<(Tag, Row)>, NoMemory>
    requires { All (IsTagAmong matrix.now.size) tags.now }
    ensures { IfOk result (λ rows. rows.items
        ≡ map (λ tag. (tag, row_of matrix.now tag)) tags.now) }
{
    let mut rows = Vec::new(alloc);
    for tag in tags {
        rows.push((*tag, row(alloc, matrix, *tag)?))?;
    }
    Ok(rows)
}

// The rows alone.
fn untagged(alloc: Global, matrix: &Matrix, tags: &[Tag]) -> Result<List<Row>, NoMemory>
    requires { All (IsTagAmong matrix.now.size) tags.now }
    ensures rows { IfOk result (λ rows. rows ≡ map (row_of matrix.now) tags.now) }
    ensures fit { IfOk result (All (IsRow (matrix.now.size - 1))) }
{
    let mut rows = Vec::new(alloc);
    for tag in tags {
        rows.push(row(alloc, matrix, *tag)?)?;
    }
    Ok(List::make(rows))
}

// The constraint of a tag.
fn row(alloc: Global, matrix: &Matrix, tag: Tag) -> Result<Row, NoMemory>
    requires { IsTagAmong matrix.now.size tag }
    ensures row { IfOk result (λ row. row ≡ row_of matrix.now tag) }
    ensures fits { IfOk result (IsRow (matrix.now.size - 1)) }
{
    let n = matrix.size();
    match tag {
        Tag::Lower(p, q) => difference_row(alloc, n, p, q, range(matrix, (p, q)).lo),
        Tag::Zero(p, q) => opposite_row(alloc, n, p, q),
        Tag::Cross(p, q, x, y) => {
            let lo = range(matrix, (p, q)).lo;
            let hi = range(matrix, (x, y)).hi;
            cross_row(alloc, n, (p, q), (x, y), (lo, hi))
        }
        Tag::Order(p) => difference_row(alloc, n, p, p + 1, 0),
    }
}

// The difference of the elements is at least the bound.
fn difference_row(alloc: Global, n: usize, p: u8, q: u8, bound: u8) -> Result<Row, NoMemory>
    requires { IsPair n p q }
    ensures row { IfOk result (λ row. row ≡ record { coefs = gap_coefs n p q; bound = pos bound }) }
    ensures fits { IfOk result (IsRow (n - 1)) }
{
    let mut coefs = Vec::new(alloc);
    push_difference(&mut coefs, n, usize::from(p), usize::from(q))?;
    Ok(Row {
        coefs: List::make(coefs),
        bound: i128::from(bound),
    })
}

// The difference of the elements is at most 0.
fn opposite_row(alloc: Global, n: usize, p: u8, q: u8) -> Result<Row, NoMemory>
    requires { IsPair n p q }
    ensures row { IfOk result (λ row. row
        ≡ record { coefs = opposite (gap_coefs n p q); bound = pos 0 }) }
    ensures fits { IfOk result (IsRow (n - 1)) }
{
    let mut coefs = Vec::new(alloc);
    push_opposite(&mut coefs, n, usize::from(p), usize::from(q))?;
    Ok(Row {
        coefs: List::make(coefs),
        bound: 0,
    })
}

// The first difference exceeds the second by at least the distance of the ranges, from the least category of the first to
// the greatest of the second.
fn cross_row(
    alloc: Global,
    n: usize,
    left: (u8, u8),
    right: (u8, u8),
    range: (u8, u8),
) -> Result<Row, NoMemory>
    requires left { IsPair n left.0 left.1 }
    requires right { IsPair n right.0 right.1 }
    ensures row { IfOk result (λ row. row ≡ record {
      coefs = cross_coefs n left.0 left.1 right.0 right.1;
      bound = pos range.0 -ℤ pos range.1;
    }) }
    ensures fits { IfOk result (IsRow (n - 1)) }
{
    let mut coefs = Vec::new(alloc);
    push_cross(
        &mut coefs,
        n,
        (usize::from(left.0), usize::from(left.1)),
        (usize::from(right.0), usize::from(right.1)),
    )?;
    Ok(Row {
        coefs: List::make(coefs),
        bound: i128::from(range.0) - i128::from(range.1),
    })
}
