ghost use Rattle.std.specs.Prelude.{◌≡◌, ◌≤◌, IfOk};
ghost use Rattle.judgement_matrix.specs.Values.{AreValues};
ghost use Rattle.swing_weights.specs.Weights.{AreFalling};

use crate::weightings::{HALF, WORD, made};
use frac128::problem::Cert;
use frac128::{Frac, List, TooWide};
use judgement_matrix::{Fit, Matrix, Range};
use std::alloc::Global;
use std::test::Fail;
use swing_weights::{WeightFault, score, weights};
use value_scale::laws::met_values_never_rise;
use value_scale::{AnchorFault, Basic, ScaleFault, anchor, slack, values_of_gaps};

// Why a scale that meets the matrix has no anchored one.
fn fault_of(alloc: Global, matrix: &Matrix, values: &[Frac]) -> Result<Option<AnchorFault>, Fail>
    requires values { AreValues matrix.now values.now }
    requires size { matrix.now.size ≡ 3 }
{
    if matrix.meets(values) != Ok(Fit::Meets) {
        return Err(Fail::from("the scale doesn't meet the matrix"));
    }
    met_values_never_rise(matrix, values);
    Ok(anchor(alloc, values, 1, 3).err())
}

#[test]
fn too_wide_an_anchored_value(rt: HostRuntime) -> Result<(), Fail> {
    let matrix = Matrix::new(rt.alloc(), 3)?;
    let least = Frac::make(1, i128::MAX).ok().ok_or("no fraction")?;
    let steep = [least, Frac::whole(0), Frac::whole(0)];
    assert_eq!(rt;
        fault_of(rt.alloc(), &matrix, &steep)?,
        Some(AnchorFault::TooWide)
    );
    Ok(())
}

#[test]
fn too_wide_a_score(rt: HostRuntime) {
    let most = Frac::whole(i128::MAX);
    assert_eq!(rt; score(&[most], &[Frac::whole(2)]), Err(TooWide));
    let ones = [Frac::whole(1), Frac::whole(1)];
    assert_eq!(rt; score(&[most, most], &ones), Err(TooWide));
}

// Why a basic scale made of these values has no weights.
fn unweighted(alloc: Global, values: &[Frac]) -> Result<Option<WeightFault>, Fail>
    requires { AreFalling values.now }
{
    let basic = Basic::Scale {
        values: List::make(values.to_vec(alloc)?),
        cert: Cert {
            den: 1,
            on: List::make(Vec::new(alloc)),
        },
    };
    Ok(weights(alloc, &basic).err())
}

// Why a scale that meets the matrix gives no weights.
fn no_weights(alloc: Global, matrix: &Matrix, values: &[Frac]) -> Result<Option<WeightFault>, Fail>
    requires values { AreValues matrix.now values.now }
    requires size { 2 ≤ matrix.now.size }
{
    if matrix.meets(values) != Ok(Fit::Meets) {
        return Err(Fail::from("the scale doesn't meet the matrix"));
    }
    met_values_never_rise(matrix, values);
    unweighted(alloc, values)
}

#[test]
fn too_wide_a_sum_of_swings(rt: HostRuntime) -> Result<(), Fail> {
    let matrix = Matrix::new(rt.alloc(), 3)?;
    let most = Frac::whole(i128::MAX);
    let values = [most, most, Frac::whole(0)];
    assert_eq!(rt;
        no_weights(rt.alloc(), &matrix, &values)?,
        Some(WeightFault::TooWide)
    );
    Ok(())
}

// The swings sum to 2 + 1/2^64; the numerator of the first share is 2^63 times 2^64.
#[test]
fn too_wide_a_share(rt: HostRuntime) -> Result<(), Fail> {
    let matrix = Matrix::new(rt.alloc(), 4)?;
    let values = [
        made(HALF, HALF - 1)?,
        made(HALF - 2, HALF - 1)?,
        made(1, WORD)?,
        Frac::whole(0),
    ];
    assert_eq!(rt;
        no_weights(rt.alloc(), &matrix, &values)?,
        Some(WeightFault::TooWide)
    );
    Ok(())
}

// Whether the gaps make these values, or none as a sum is too wide.
fn make_values(alloc: Global, gaps: &[Frac], want: Option<&[Frac]>) -> bool {
    match values_of_gaps(alloc, gaps) {
        Ok(values) => want.is_some_and(|want| values.as_slice() == want),
        Err(fault) => fault == ScaleFault::TooWide && want.is_none(),
    }
}

#[test]
fn values_by_gaps(rt: HostRuntime) {
    let one = Frac::whole(1);
    let sums = [Frac::whole(3), one, Frac::whole(0)];
    assert!(rt; make_values(rt.alloc(), &[one, Frac::whole(2)], Some(&sums)));
    assert!(rt; make_values(rt.alloc(), &[one, Frac::whole(i128::MAX)], None));
}

// Two judged pairs of five elements: the first over the second by weak or more, the fourth over the last by very weak at most.
fn unlike_pairs(alloc: Global) -> Result<Matrix, Fail>
    ensures { IfOk result (λ matrix. matrix.size ≡ 5) }
{
    let mut matrix = Matrix::new(alloc, 5)?;
    matrix.set(1, 2, Range::make(2, 6).ok_or("no category")?);
    matrix.set(4, 5, Range::make(0, 1).ok_or("no category")?);
    Ok(matrix)
}

// Whether the first element's slack is too wide, of values that meet the matrix.
fn is_too_wide_a_slack(matrix: &Matrix, values: &[Frac]) -> Result<bool, Fail>
    requires values { AreValues matrix.now values.now }
    requires size { matrix.now.size ≡ 5 }
{
    if matrix.meets(values) != Ok(Fit::Meets) {
        return Err(Fail::from("the scale doesn't meet the matrix"));
    }
    Ok(slack(matrix, values, 1) == Err(TooWide))
}

// The first value can fall to 3 + 1/(2^64 + 1) + 1/(2^64 - 1), where its pair just exceeds the last one by the category between them.
#[test]
fn too_wide_a_slack(rt: HostRuntime) -> Result<(), Fail> {
    let matrix = unlike_pairs(rt.alloc())?;
    let values = [
        made(5 * (WORD + 1) + 1, WORD + 1)?,
        made(2 * (WORD + 1) + 1, WORD + 1)?,
        Frac::whole(1),
        made(1, WORD - 1)?,
        Frac::whole(0),
    ];
    assert!(rt; is_too_wide_a_slack(&matrix, &values)?);
    Ok(())
}
