ghost use Rattle.std.specs.Prelude.{◌≡◌, ◌≤◌, IfOk, OnOk};
ghost use Rattle.judgement_matrix.specs.Matrix.{IsPair};

use frac128::problem::Problem;
use judgement_matrix::{Matrix, Range};
use lp_macbeth::{closed_problem, problem, rows, threshold_problem};
use std::alloc::Global;
use std::test::Fail;

// Judges a pair by one category.
fn judge(matrix: &mut Matrix, p: usize, q: usize, category: u8) -> Result<(), Fail>
    requires { IsPair matrix.old.size p q }
    ensures { OnOk result (matrix.new.size ≡ matrix.old.size) }
{
    matrix.set(p, q, Range::make(category, category).ok_or("no category")?);
    Ok(())
}

// Three elements, with the categories of the first over the second, the first over the third and the second over the
// third.
pub(crate) fn three(alloc: Global, categories: [u8; 3]) -> Result<Matrix, Fail>
    ensures { IfOk result (λ matrix. matrix.size ≡ 3) }
{
    let mut matrix = Matrix::new(alloc, 3)?;
    judge(&mut matrix, 1, 2, categories[0])?;
    judge(&mut matrix, 1, 3, categories[1])?;
    judge(&mut matrix, 2, 3, categories[2])?;
    Ok(matrix)
}

// A line for each row of the matrix: its tag, its coefficients and its bound.
fn rows_text(alloc: Global, matrix: &Matrix) -> Result<String, Fail>
    requires { 2 ≤ matrix.now.size }
{
    let mut text = String::new(alloc);
    for (tag, row) in &rows(alloc, matrix)? {
        write!(text, "{tag:?} {:?} {}\n", row.coefs.as_slice(), row.bound)?;
    }
    Ok(text)
}

// The costs of the problem, and a line for each row: its coefficients and its bound.
pub(crate) fn problem_text(alloc: Global, problem: &Problem) -> Result<String, Fail> {
    let mut text = format!(in alloc; "{:?}\n", problem.cost())?;
    for row in problem.rows() {
        write!(text, "{:?} {}\n", row.coefs.as_slice(), row.bound)?;
    }
    Ok(text)
}

// The rows of three elements.
const ROWS: &str = "\
Lower(1, 2) [0, 1] 3
Lower(1, 3) [1, 1] 4
Lower(2, 3) [1, 0] 2
Cross(1, 2, 2, 3) [-1, 1] 1
Cross(1, 3, 1, 2) [1, 0] 1
Cross(1, 3, 2, 3) [0, 1] 2
Order(1) [0, 1] 0
Order(2) [1, 0] 0
";

// Those of four, where no pair is judged below a pair inside it, and yet no scale meets the judgements.
const HIDDEN_CONFLICT: &str = "\
Lower(1, 2) [0, 0, 1] 3
Lower(1, 3) [0, 1, 1] 4
Lower(1, 4) [1, 1, 1] 6
Lower(2, 3) [0, 1, 0] 1
Lower(2, 4) [1, 1, 0] 5
Lower(3, 4) [1, 0, 0] 2
Cross(1, 2, 2, 3) [0, -1, 1] 2
Cross(1, 2, 3, 4) [-1, 0, 1] 1
Cross(1, 3, 1, 2) [0, 1, 0] 1
Cross(1, 3, 2, 3) [0, 0, 1] 3
Cross(1, 3, 3, 4) [-1, 1, 1] 2
Cross(1, 4, 1, 2) [1, 1, 0] 3
Cross(1, 4, 1, 3) [1, 0, 0] 2
Cross(1, 4, 2, 3) [1, 0, 1] 5
Cross(1, 4, 2, 4) [0, 0, 1] 1
Cross(1, 4, 3, 4) [0, 1, 1] 4
Cross(2, 4, 1, 2) [1, 1, -1] 2
Cross(2, 4, 1, 3) [1, 0, -1] 1
Cross(2, 4, 2, 3) [1, 0, 0] 4
Cross(2, 4, 3, 4) [0, 1, 0] 3
Cross(3, 4, 2, 3) [1, -1, 0] 1
Order(1) [0, 0, 1] 0
Order(2) [0, 1, 0] 0
Order(3) [1, 0, 0] 0
";

// Four elements whose judgements no scale meets.
fn hidden_conflict(alloc: Global) -> Result<Matrix, Fail>
    ensures { IfOk result (λ matrix. matrix.size ≡ 4) }
{
    let mut matrix = Matrix::new(alloc, 4)?;
    judge(&mut matrix, 1, 2, 3)?;
    judge(&mut matrix, 1, 3, 4)?;
    judge(&mut matrix, 1, 4, 6)?;
    judge(&mut matrix, 2, 3, 1)?;
    judge(&mut matrix, 2, 4, 5)?;
    judge(&mut matrix, 3, 4, 2)?;
    Ok(matrix)
}

#[test]
fn rows_of_three(rt: HostRuntime) -> Result<(), Fail> {
    let matrix = three(rt.alloc(), [3, 4, 2])?;
    assert_eq!(rt; rows_text(rt.alloc(), &matrix)?.as_str(), ROWS);
    Ok(())
}

#[test]
fn rows_of_a_hidden_conflict(rt: HostRuntime) -> Result<(), Fail> {
    let matrix = hidden_conflict(rt.alloc())?;
    assert_eq!(rt; rows_text(rt.alloc(), &matrix)?.as_str(), HIDDEN_CONFLICT);
    Ok(())
}

// The problem of three elements, the first two without difference: the costs, and each row's coefficients and bound.
const EQUALS: &str = "\
[1, 1]
[1, 1] 2
[1, 0] 2
[0, -1] 0
[1, 0] 2
[1, -1] 2
";

// That of three elements with its thresholds.
const THRESHOLDS: &str = "\
[1, 1, 0, 0, 0, 0, 0]
[0, 1, 0, -1, 0, 0, 0] 3
[1, 1, 0, 0, -1, 0, 0] 4
[1, 0, -1, 0, 0, 0, 0] 2
[0, -1, 0, 0, 1, 0, 0] -3
[-1, -1, 0, 0, 0, 1, 0] -4
[-1, 0, 0, 1, 0, 0, 0] -2
[0, 0, -1, 1, 0, 0, 0] 0
[0, 0, 0, -1, 1, 0, 0] 0
[0, 0, 0, 0, -1, 1, 0] 0
[0, 0, 0, 0, 0, -1, 1] 0
";

// Their closed problem of the first over the second.
const CLOSED: &str = "\
[0, 1, 0]
[-1, 1, 0] 0
[1, 0, 0] 0
[0, 1, 0] 0
[1, 1, 0] 100
[-1, -1, 0] -100
[1, 1, 1] 1000
[-1, -1, -1] -1000
";

// That of the second over the first, which has the same rows.
const CLOSED_BACK: &str = "\
[1, 0, 1]
[-1, 1, 0] 0
[1, 0, 0] 0
[0, 1, 0] 0
[1, 1, 0] 100
[-1, -1, 0] -100
[1, 1, 1] 1000
[-1, -1, -1] -1000
";

fn equals_text(alloc: Global) -> Result<String, Fail> {
    let matrix = three(alloc, [0, 2, 2])?;
    let found = problem(alloc, &matrix)?;
    problem_text(alloc, &found)
}

fn thresholds_text(alloc: Global) -> Result<String, Fail> {
    let matrix = three(alloc, [3, 4, 2])?;
    let found = threshold_problem(alloc, &matrix)?;
    problem_text(alloc, &found)
}

fn closed_text(alloc: Global) -> Result<String, Fail> {
    let matrix = three(alloc, [3, 4, 2])?;
    let found = closed_problem(alloc, &matrix, 1, 3, 1000, 1, 2)?;
    problem_text(alloc, &found)
}

fn closed_back_text(alloc: Global) -> Result<String, Fail> {
    let matrix = three(alloc, [3, 4, 2])?;
    let found = closed_problem(alloc, &matrix, 1, 3, 1000, 2, 1)?;
    problem_text(alloc, &found)
}

#[test]
fn problems(rt: HostRuntime) -> Result<(), Fail> {
    let alloc = rt.alloc();
    assert_eq!(rt; equals_text(alloc)?.as_str(), EQUALS);
    assert_eq!(rt; thresholds_text(alloc)?.as_str(), THRESHOLDS);
    assert_eq!(rt; closed_text(alloc)?.as_str(), CLOSED);
    assert_eq!(rt; closed_back_text(alloc)?.as_str(), CLOSED_BACK);
    Ok(())
}
