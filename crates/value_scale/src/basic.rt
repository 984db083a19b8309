//! The basic scale of a matrix.

ghost use Rattle.std.specs.Prelude.{◌≡◌, ◌≤◌, Ok, pos, IfOk};
ghost use Rattle.lex_simplex.specs.declared.end.End.TheVariants.{Optimal, Empty};
ghost use Rattle.frac128.specs.Problem.{IsSpanCertificate, IsFarkasCertificate, IsInfeasible};
ghost use Rattle.lex_simplex.specs.Answer.{IsLeastAnswer, IsOutcome, end_of};
ghost use Rattle.lp_macbeth.specs.Rows.{problem_of};
ghost use Rattle.lp_macbeth.specs.Threshold.{threshold_problem_of};
ghost use Rattle.value_scale.specs.Same.{is_same_basic};
ghost use Rattle.value_scale.specs.Basic.{IsReadSo, Certifies, IsFound, IsFoundOrNoMemory};

use crate::fault::ScaleFault;
use crate::gap_sums::values_of;
use frac128::laws::are_fractions;
use frac128::problem::Cert;
use frac128::{Frac, List, NoMemory};
use judgement_matrix::Matrix;
use judgement_matrix::laws::{writings_compare_alike, writings_meet_alike};
use lex_simplex::{Count, Outcome, SolveFault, solve};
use lp_macbeth::laws::thresholds_are_enough;
use lp_macbeth::{threshold_problem, translate};
use std::alloc::Global;

/// What the judgements of a matrix give. Two are equal exactly where all that they hold is (`laws::are_equal_basics`).
#[derive(Debug, Drop)]
pub enum Basic {
    /// The least scale (after LP-MACBETH, Bana e Costa, De Corte and Vansnick 2005; the tie rule is this project's own): a value for
    /// each element, the first element's first, and multipliers of the matrix's rows that show that no scale has a smaller span.
    Scale { values: List<Frac>, cert: Cert },
    /// Multipliers of the matrix's rows that show that no scale meets the judgements.
    Inconsistent { cert: Cert },
}

impl PartialEq for Basic {
    ghost use Rattle.std.specs.Cmp.{partial_equiv_from_equiv};
    ghost use Rattle.value_scale.specs.Same.{is_same_basic, is_same_basic-laws};

    ghost eq = { is_same_basic };

    ghost laws = { partial_equiv_from_equiv is_same_basic-laws };

    fn eq(&self, other: &Basic) -> bool {
        match self {
            Basic::Scale { values, cert } => is_scale(other, values, cert),
            Basic::Inconsistent { cert } => is_refutation(other, cert),
        }
    }
}

impl Eq for Basic {
    ghost use Rattle.value_scale.specs.Same.{is_same_basic-laws};

    ghost laws = { is_same_basic-laws };
}

// Whether a basic scale is this one.
fn is_scale(basic: &Basic, values: &List<Frac>, cert: &Cert) -> bool
    ensures { result ≡ is_same_basic (Basic.Scale values.now cert.now) basic.now }
{
    match basic {
        Basic::Scale { values: v, cert: c } => values == v && cert == c,
        Basic::Inconsistent { .. } => false,
    }
}

// Whether a basic scale is this refutation.
fn is_refutation(basic: &Basic, cert: &Cert) -> bool
    ensures { result ≡ is_same_basic (Basic.Inconsistent cert.now) basic.now }
{
    match basic {
        Basic::Scale { .. } => false,
        Basic::Inconsistent { cert: c } => cert == c,
    }
}

impl Basic {
    /// The same once more.
    pub fn copy(&self, alloc: Global) -> Result<Basic, NoMemory>
        ensures { IfOk result (λ copy. copy ≡ self.now) }
    {
        match self {
            Basic::Scale { values, cert } => Ok(Basic::Scale {
                values: values.copy(alloc)?,
                cert: cert.copy(alloc)?,
            }),
            Basic::Inconsistent { cert } => Ok(Basic::Inconsistent {
                cert: cert.copy(alloc)?,
            }),
        }
    }
}

// The scale of the least point of the threshold problem.
fn scale_from(
    alloc: Global,
    matrix: &Matrix,
    point: &[Frac],
    value: &Frac,
    cert: Cert,
) -> Result<Basic, ScaleFault>
    requires size { 2 ≤ matrix.now.size }
    requires least { IsLeastAnswer (threshold_problem_of matrix.now) point.now value.now }
    requires proof { IsSpanCertificate (problem_of matrix.now) cert value.now }
    ensures { IsReadSo matrix.now result Optimal }
{
    // What the proof rests on: laws, and what the types of the fractions keep.
    thresholds_are_enough(matrix);
    writings_meet_alike(matrix);
    writings_compare_alike();
    are_fractions(point);
    let _ = value.den();
    let values = values_of(alloc, &point[..matrix.size() - 1])?;
    are_fractions(&values);
    Ok(Basic::Scale {
        values: List::make(values),
        cert,
    })
}

// The refutation of the threshold problem.
fn refutation_from(matrix: &Matrix, cert: Cert) -> Basic
    requires size { 2 ≤ matrix.now.size }
    requires none { IsInfeasible (threshold_problem_of matrix.now) }
    requires proof { IsFarkasCertificate (problem_of matrix.now) cert }
    requires over_one { cert.den ≡ pos 1 }
    ensures { IsReadSo matrix.now (Ok result) Empty }
{
    // What the proof rests on.
    thresholds_are_enough(matrix);
    Basic::Inconsistent { cert }
}

/// What the outcome of the threshold problem of a matrix of at least two elements says of the matrix: its least scale, or that no
/// scale meets it. The certificate is of the outcome too, on the matrix's own rows. It is too wide where a sum of gaps is.
pub fn basic_of_outcome(
    alloc: Global,
    matrix: &Matrix,
    outcome: &Outcome,
    cert: Cert,
) -> Result<Basic, ScaleFault>
    requires size { 2 ≤ matrix.now.size }
    requires outcome { IsOutcome (threshold_problem_of matrix.now) outcome.now }
    requires cert { Certifies matrix.now outcome.now cert }
    ensures { IsReadSo matrix.now result (end_of outcome.now) }
{
    match outcome {
        Outcome::Least { point, value, .. } => {
            scale_from(alloc, matrix, point.as_slice(), value, cert)
        }
        Outcome::Nothing { .. } => Ok(refutation_from(matrix, cert)),
    }
}

// The certificate of the outcome, carried to the matrix's own rows.
fn carried(alloc: Global, matrix: &Matrix, outcome: &Outcome) -> Result<Cert, NoMemory>
    requires size { 2 ≤ matrix.now.size }
    requires outcome { IsOutcome (threshold_problem_of matrix.now) outcome.now }
    ensures { IfOk result (Certifies matrix.now outcome.now) }
{
    match outcome {
        Outcome::Least { cert, .. } => translate(alloc, matrix, cert),
        Outcome::Nothing { cert } => translate(alloc, matrix, cert),
    }
}

// The basic scale. Where memory is wanted the count may have risen.
fn solved(alloc: Global, matrix: &Matrix, pivots: &mut Count) -> Result<Basic, ScaleFault>
    requires { 2 ≤ matrix.now.size }
    ensures { IsFoundOrNoMemory matrix.now pivots.old result pivots.new }
{
    let problem = threshold_problem(alloc, matrix)?;
    match solve(alloc, &problem, pivots) {
        Ok(outcome) => {
            let cert = carried(alloc, matrix, &outcome)?;
            basic_of_outcome(alloc, matrix, &outcome, cert)
        }
        Err(SolveFault::TooWide) => Err(ScaleFault::TooWide),
        Err(SolveFault::NoMemory) => Err(ScaleFault::NoMemory),
    }
}

/// The least scale of a matrix of at least two elements with a proof, or a proof that no scale meets it. It is too wide where the
/// run of the threshold problem is, or a sum of gaps. The count rises by the pivots of that run, and after want of memory it is as
/// before.
pub fn basic_scale(alloc: Global, matrix: &Matrix, pivots: &mut Count) -> Result<Basic, ScaleFault>
    requires { 2 ≤ matrix.now.size }
    ensures { IsFound matrix.now pivots.old result pivots.new }
{
    let mut made = Count::new();
    match solved(alloc, matrix, &mut made) {
        Ok(basic) => {
            pivots.add(&made);
            return Ok(basic);
        }
        Err(ScaleFault::TooWide) => {
            pivots.add(&made);
            return Err(ScaleFault::TooWide);
        }
        Err(ScaleFault::NoMemory) => {
            return Err(ScaleFault::NoMemory);
        }
    }
}
