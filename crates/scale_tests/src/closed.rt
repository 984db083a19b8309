//! Closed problems with given costs, and their threshold forms.
ghost use Rattle.std.specs.Prelude.{◌≡◌};

use crate::problems::{problem_text, three};
use crate::weightings::judged;
use frac128::problem::Problem;
use judgement_matrix::Matrix;
use lp_macbeth::{
    closed_problem_with, closed_thresholds, closed_thresholds_with, weighting_thresholds,
};
use std::alloc::Global;
use std::test::Fail;

// The closed problem of three elements with costs of its own.
const CLOSED_WITH: &str = "\
[2, 3, 5]
[-1, 1, 0] 0
[1, 0, 0] 0
[0, 1, 0] 0
[1, 1, 0] 100
[-1, -1, 0] -100
[1, 1, 1] 1000
[-1, -1, -1] -1000
";

// The threshold form of their closed problem of the first over the second: what costs, the pairs compared with thresholds, the
// thresholds in order, the anchors and the reach.
const THRESHOLDS: &str = "\
[0, 1, 0, 0, 0, 0, 0, 0]
[0, 1, 0, 0, -1, 0, 0, 0] 0
[1, 1, 0, 0, 0, -1, 0, 0] 0
[1, 0, 0, -1, 0, 0, 0, 0] 0
[0, -1, 0, 0, 0, 1, 0, 0] 0
[-1, -1, 0, 0, 0, 0, 1, 0] 0
[-1, 0, 0, 0, 1, 0, 0, 0] 0
[0, 0, 0, -1, 1, 0, 0, 0] 0
[0, 0, 0, 0, -1, 1, 0, 0] 0
[0, 0, 0, 0, 0, -1, 1, 0] 0
[0, 0, 0, 0, 0, 0, -1, 1] 0
[1, 1, 0, 0, 0, 0, 0, 0] 100
[-1, -1, 0, 0, 0, 0, 0, 0] -100
[1, 1, 1, 0, 0, 0, 0, 0] 1000
[-1, -1, -1, 0, 0, 0, 0, 0] -1000
";

// The threshold form of the closed weighting of two criteria, the last swing judged greater than the first.
const WEIGHTING: &str = "\
[150, 0, 0, 0, 0, 0, 0]
[0, 1, -1, 0, 0, 0, 0] 0
[1, 0, 0, -1, 0, 0, 0] 0
[0, -1, 0, 1, 0, 0, 0] 0
[-1, 0, 0, 0, 1, 0, 0] 0
[0, 0, -1, 1, 0, 0, 0] 0
[0, 0, 0, -1, 1, 0, 0] 0
[0, 0, 0, 0, -1, 1, 0] 0
[0, 0, 0, 0, 0, -1, 1] 0
[2, 1, 0, 0, 0, 0, 0] 1
[-2, -1, 0, 0, 0, 0, 0] -1
";

fn closed_with_text(alloc: Global) -> Result<String, Fail> {
    let matrix = three(alloc, [3, 4, 2])?;
    let cost = Vec::from_array(alloc, [2, 3, 5])?;
    let found = closed_problem_with(alloc, &matrix, 1, 3, 1000, cost)?;
    problem_text(alloc, &found)
}

fn thresholds_text(alloc: Global) -> Result<String, Fail> {
    let matrix = three(alloc, [3, 4, 2])?;
    let found = closed_thresholds(alloc, &matrix, 1, 3, 1000, 1, 2)?;
    problem_text(alloc, &found)
}

// The same by its costs.
fn thresholds_with_text(alloc: Global) -> Result<String, Fail> {
    let matrix = three(alloc, [3, 4, 2])?;
    let cost = Vec::from_array(alloc, [0, 1, 0])?;
    let found = closed_thresholds_with(alloc, &matrix, 1, 3, 1000, cost)?;
    problem_text(alloc, &found)
}

// The threshold form of a weighting of two criteria, where only the last swing's gap costs.
fn weighting_form(alloc: Global, matrix: &Matrix) -> Result<Problem, Fail>
    requires { matrix.now.size ≡ 3 }
{
    let cost = Vec::from_array(alloc, [150, 0])?;
    Ok(weighting_thresholds(alloc, matrix, cost)?)
}

fn weighting_text(alloc: Global) -> Result<String, Fail> {
    let matrix = judged(alloc, 2, 3)?;
    let found = weighting_form(alloc, &matrix)?;
    problem_text(alloc, &found)
}

#[test]
fn closed_forms(rt: HostRuntime) -> Result<(), Fail> {
    let alloc = rt.alloc();
    assert_eq!(rt; closed_with_text(alloc)?.as_str(), CLOSED_WITH);
    assert_eq!(rt; thresholds_text(alloc)?.as_str(), THRESHOLDS);
    assert_eq!(rt; thresholds_with_text(alloc)?.as_str(), THRESHOLDS);
    assert_eq!(rt; weighting_text(alloc)?.as_str(), WEIGHTING);
    Ok(())
}
