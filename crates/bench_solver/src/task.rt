//! What a line asks for.

ghost use Rattle.std.specs.Prelude.{◌≤◌};

use frac128::List;
use frac128::problem::{Problem, Row};
use judgement_matrix::{LIMIT, Matrix, Range};
use lex_simplex::{Count, Outcome, SolveFault, solve};
use lp_macbeth::{NoMemory, problem, threshold_problem};
use std::alloc::{AllocError, Global};
use value_scale::{Basic, ScaleFault, basic_scale};

/// A linear problem, or a matrix with so many judged pairs and what is asked of it.
#[derive(Drop)]
pub(crate) enum Task {
    Solve(Problem),
    Ask(Aim, Matrix, usize),
}

/// What is asked of a matrix.
#[derive(Clone, Copy)]
pub(crate) enum Aim {
    /// Its basic scale.
    Scale,
    /// Its problem, made and not solved.
    Problem,
    /// Its threshold problem, made and not solved.
    Threshold,
    /// Its threshold problem, solved and not made: it is a task by itself.
    Solve,
}

impl Task {
    /// The task of a line, if it is one.
    pub(crate) fn read(alloc: Global, line: &str) -> Result<Option<Task>, AllocError> {
        let aim = aim_of(line.split_whitespace().nth(1));
        let mut numbers = Vec::new(alloc);
        for word in line
            .split_whitespace()
            .skip(if aim.is_some() { 2 } else { 1 })
        {
            let Ok(number) = word.parse::<i128>() else {
                return Ok(None);
            };
            numbers.push(number)?;
        }
        let Some((first, rest)) = numbers.as_slice().split_first() else {
            return Ok(None);
        };
        let Ok(size) = usize::try_from(*first) else {
            return Ok(None);
        };
        match aim {
            Some(aim) => matrix_of(alloc, aim, size, rest),
            None => problem_of(alloc, size, rest),
        }
    }

    /// The name of the answer, and the pivots, or the numbers of a problem that was made.
    pub(crate) fn run(&self, alloc: Global) -> (&'static str, u64) {
        match self {
            Task::Solve(problem) => solved(alloc, problem),
            Task::Ask(aim, matrix, _) => asked(alloc, *aim, matrix),
        }
    }

    /// How many variables and rows, or elements and judged pairs.
    pub(crate) fn sizes(&self) -> (usize, usize) {
        match self {
            Task::Solve(problem) => (problem.vars(), problem.rows().len()),
            Task::Ask(_, matrix, judged) => (matrix.size(), *judged),
        }
    }
}

/// What the word asks of a matrix.
fn aim_of(word: Option<&str>) -> Option<Aim> {
    let word = word?;
    if word == "matrix" {
        return Some(Aim::Scale);
    }
    if word == "problem" {
        return Some(Aim::Problem);
    }
    if word == "threshold" {
        return Some(Aim::Threshold);
    }
    if word == "solve" {
        return Some(Aim::Solve);
    }
    None
}

/// The problem with so many variables: first the costs, then each row, its bound last.
fn problem_of(alloc: Global, vars: usize, numbers: &[i128]) -> Result<Option<Task>, AllocError> {
    let (Some((cost, rest)), Some(width)) = (numbers.split_at_checked(vars), vars.checked_add(1))
    else {
        return Ok(None);
    };
    let mut rows = Vec::new(alloc);
    for row in rest.chunks_exact(width) {
        if let Some((bound, coefs)) = row.split_last() {
            rows.push(Row {
                coefs: List::make(coefs.to_vec(alloc)?),
                bound: *bound,
            })?;
        }
    }
    let cost = List::make(cost.to_vec(alloc)?);
    Ok(Problem::checked(vars, cost, List::make(rows)).map(Task::Solve))
}

/// The matrix of so many elements: for each judged pair its elements and its lowest and highest category.
fn matrix_of(
    alloc: Global,
    aim: Aim,
    size: usize,
    numbers: &[i128],
) -> Result<Option<Task>, AllocError> {
    if size < 2 || size > LIMIT {
        return Ok(None);
    }
    let mut matrix = Matrix::new(alloc, size)?;
    let mut judged: usize = 0;
    for judgement in numbers.chunks_exact(4) {
        let (Ok(p), Ok(q)) = (usize::try_from(judgement[0]), usize::try_from(judgement[1])) else {
            return Ok(None);
        };
        let Some(range) = range_of(judgement[2], judgement[3]) else {
            return Ok(None);
        };
        if p < 1 || p >= q || q > matrix.size() {
            return Ok(None);
        }
        matrix.set(p, q, range);
        judged = judged.saturating_add(1);
    }
    task_of(alloc, aim, matrix, judged)
}

/// The task for a matrix with so many judged pairs. Where its threshold problem is to be solved, that is made here.
fn task_of(
    alloc: Global,
    aim: Aim,
    matrix: Matrix,
    judged: usize,
) -> Result<Option<Task>, AllocError> {
    if let Aim::Solve = aim {
        if matrix.size() < 2 {
            return Ok(None);
        }
        return Ok(Some(Task::Solve(threshold_problem(alloc, &matrix)?)));
    }
    Ok(Some(Task::Ask(aim, matrix, judged)))
}

/// The categories from the lowest to the highest.
fn range_of(low: i128, high: i128) -> Option<Range> {
    let (Ok(lo), Ok(hi)) = (u8::try_from(low), u8::try_from(high)) else {
        return None;
    };
    Range::make(lo, hi)
}

/// The name of the answer for a problem, and the pivots.
fn solved(alloc: Global, problem: &Problem) -> (&'static str, u64) {
    let mut pivots = Count::new();
    let end = end_of(&solve(alloc, problem, &mut pivots));
    (end, pivots.made())
}

/// The name of the answer for a matrix, and the pivots, or the numbers of the problem that was made.
fn asked(alloc: Global, aim: Aim, matrix: &Matrix) -> (&'static str, u64) {
    if matrix.size() < 2 {
        return ("small", 0);
    }
    match aim {
        Aim::Scale => scaled(alloc, matrix),
        Aim::Problem => made(&problem(alloc, matrix)),
        Aim::Threshold | Aim::Solve => made(&threshold_problem(alloc, matrix)),
    }
}

/// The name of an answer.
fn end_of(answer: &Result<Outcome, SolveFault>) -> &'static str {
    match answer {
        Ok(Outcome::Least { .. }) => "least",
        Ok(Outcome::Nothing { .. }) => "nothing",
        Err(SolveFault::TooWide) => "wide",
        Err(SolveFault::NoMemory) => "memory",
    }
}

/// The name of the answer for a matrix's scale, and the pivots.
fn scaled(alloc: Global, matrix: &Matrix) -> (&'static str, u64)
    requires { 2 ≤ matrix.now.size }
{
    let mut pivots = Count::new();
    let end = match basic_scale(alloc, matrix, &mut pivots) {
        Ok(Basic::Scale { .. }) => "least",
        Ok(Basic::Inconsistent { .. }) => "nothing",
        Err(ScaleFault::TooWide) => "wide",
        Err(ScaleFault::NoMemory) => "memory",
    };
    (end, pivots.made())
}

/// Whether the problem was made, and how many numbers it has: costs, coefficients and bounds.
fn made(answer: &Result<Problem, NoMemory>) -> (&'static str, u64) {
    let Ok(problem) = answer else {
        return ("memory", 0);
    };
    let width = problem.vars().saturating_add(1);
    let rows = problem.rows().len().saturating_mul(width);
    ("made", rows.saturating_add(problem.vars()) as u64)
}
