ghost use Rattle.std.specs.Prelude.{◌≡◌, IfOk};
ghost use Rattle.integers.specs.Counting.{IsOrder};

use crate::problems::problem_text;
use frac128::Frac;
use judgement_matrix::{Matrix, Range};
use lp_macbeth::{ClosedWeighting, WeightingFault, closed_weighting};
use std::alloc::Global;
use std::test::Fail;

const MOST: i128 = i128::MAX;

pub(crate) const WORD: i128 = 18446744073709551616;

pub(crate) const HALF: i128 = 9223372036854775808;

// The fraction of two numbers.
pub(crate) fn made(num: i128, den: i128) -> Result<Frac, Fail> {
    if den == 0 {
        return Err(Fail::from("a denominator of 0"));
    }
    Ok(Frac::make(num, den).ok().ok_or("no fraction")?)
}

// The order of two criteria that is the model's.
fn two_in_turn() -> [usize; 2]
    ensures { IsOrder 2 result }
{
    [0, 1]
}

// An order of three criteria that isn't the model's.
fn last_first() -> [usize; 3]
    ensures { IsOrder 3 result }
{
    [2, 0, 1]
}

// The closed problem of three criteria without a judged weighting pair, by the given order.
fn unjudged(
    alloc: Global,
    order: &[usize],
    gaps: [(i128, i128); 3],
) -> Result<Result<ClosedWeighting, WeightingFault>, Fail>
    requires { IsOrder 3 order.now }
{
    let matrix = Matrix::new(alloc, 4)?;
    let gaps = [
        made(gaps[0].0, gaps[0].1)?,
        made(gaps[1].0, gaps[1].1)?,
        made(gaps[2].0, gaps[2].1)?,
    ];
    Ok(closed_weighting(alloc, &matrix, order, &gaps))
}

// The first of three is judged over the second, and the second over the last.
pub(crate) fn judged(alloc: Global, first: u8, second: u8) -> Result<Matrix, Fail>
    ensures { IfOk result (λ matrix. matrix.size ≡ 3) }
{
    let mut matrix = Matrix::new(alloc, 3)?;
    matrix.set(1, 2, Range::make(first, first).ok_or("no category")?);
    matrix.set(2, 3, Range::make(second, second).ok_or("no category")?);
    Ok(matrix)
}

// The problem of a closed weighting, its scale and its least gap.
fn described(alloc: Global, closed: &ClosedWeighting) -> Result<String, Fail> {
    let mut text = problem_text(alloc, &closed.problem)?;
    let least = closed.least;
    write!(
        text,
        "over {}, least {}/{}\n",
        closed.scale,
        least.num(),
        least.den()
    )?;
    Ok(text)
}

// The same of two criteria with the least gaps 50 and -100.
fn closed_of_two(alloc: Global, first: u8, second: u8) -> Result<String, Fail> {
    let matrix = judged(alloc, first, second)?;
    let gaps = [Frac::whole(50), Frac::whole(-100)];
    match closed_weighting(alloc, &matrix, &two_in_turn(), &gaps) {
        Ok(closed) => described(alloc, &closed),
        Err(_) => Err(Fail::from("refused")),
    }
}

// The last swing is judged greater than the first, or the other way round.
#[test]
fn problem_of_two(rt: HostRuntime) -> Result<(), Fail> {
    for (first, second, want) in [
        (
            2,
            3,
            "[150, 150]\n[1, -1] 0\n[2, 1] 1\n[-2, -1] -1\nover 1, least -100/1\n",
        ),
        (
            3,
            2,
            "[150, 150]\n[-1, 1] 0\n[2, 1] 1\n[-2, -1] -1\nover 1, least -100/1\n",
        ),
    ] {
        let found = closed_of_two(rt.alloc(), first, second)?;
        assert_eq!(rt; found.as_str(), want);
    }
    Ok(())
}

// Whether three criteria have these costs, or none where a number is too wide.
fn have_costs(
    alloc: Global,
    gaps: [(i128, i128); 3],
    want: Option<[i128; 3]>,
) -> Result<bool, Fail> {
    match unjudged(alloc, &last_first(), gaps)? {
        Ok(closed) => Ok(want.is_some_and(|costs| closed.problem.cost() == costs.as_slice())),
        Err(fault) => Ok(fault == WeightingFault::TooWide && want.is_none()),
    }
}

// Unlike denominators; then one case that leaves the range at a difference, at the scale, at a numerator and at a sum,
// each before one that just fits.
#[test]
fn costs_of_three(rt: HostRuntime) -> Result<(), Fail> {
    for (gaps, want) in [
        ([(1, 2), (1, 3), (-1, 6)], Some([7, 4, 0])),
        ([(-1, 1), (0, 1), (MOST, 1)], None),
        ([(-1, 1), (-1, 1), (MOST - 1, 1)], Some([MOST, MOST, MOST])),
        ([(1, WORD + 1), (1, WORD - 1), (0, 1)], None),
        (
            [(1, WORD - 1), (1, HALF - 1), (0, 1)],
            Some([WORD + HALF - 2, HALF - 1, 0]),
        ),
        ([(MOST, 1), (1, 2), (0, 1)], None),
        ([(MOST / 2, 1), (1, 2), (0, 1)], Some([MOST, MOST - 1, 0])),
        ([(MOST, 1), (1, 1), (0, 1)], None),
        ([(MOST - 1, 1), (1, 1), (0, 1)], Some([MOST, MOST - 1, 0])),
    ] {
        let have_costs = have_costs(rt.alloc(), gaps, want)?;
        assert!(rt; have_costs, "at {gaps:?}");
    }
    Ok(())
}

// The scale and the least gap over unlike denominators.
#[test]
fn scale_of_three(rt: HostRuntime) -> Result<(), Fail> {
    let closed = unjudged(rt.alloc(), &last_first(), [(1, 2), (1, 3), (-1, 6)])?;
    let (scale, least) = match &closed {
        Ok(closed) => (closed.scale, closed.least),
        Err(_) => (0, Frac::whole(0)),
    };
    drop(closed);
    assert_eq!(rt; (scale, least.num(), least.den()), (6, -1, 6));
    Ok(())
}
