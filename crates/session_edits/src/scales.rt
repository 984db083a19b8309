//! What is asked of the basic scale of a matrix.
ghost use Rattle.std.specs.Prelude.{◌≡◌, ◌≤◌, ◌-◌, pos, IfOk, length, Ok};
ghost use Rattle.cert_check.specs.Rows.{AreRows};
ghost use Rattle.cert_check.specs.Text.{IsPrintable as HasCertText};
ghost use Rattle.cert_check.specs.declared.text.Claim.TheVariants.{Nothing};
ghost use Rattle.report_text.specs.Reply.{IsPrintable};
ghost use Rattle.session_state.specs.State.{matrix_of};
ghost use Rattle.session_state.specs.Taking.{IsSubject};
ghost use Rattle.value_scale.specs.Basic.{IsBasic, AreLeastValues, span};
ghost use Rattle.session_edits.specs.Refusals.{Works, place_of};
ghost use Rattle.session_edits.specs.Scales.{named, cert_of, scale_reply, values_of, anchored_of, weights_of, worth_of_basic, worth_size, checked_worth, checked_room, told, IsQuestionOf};

use crate::NoMemory;
use crate::names::{element_names, names_of, weighed_names};
use crate::question::Question;
use crate::refusal::{FLAT, INCONSISTENT, Stop, TOO_WIDE, reply_of, stopped};
use cert_check::{CertText, Claim, name_rows};
use frac128::problem::Cert;
use frac128::{Frac, List};
use judgement_matrix::Matrix;
use model_core::laws::what_a_criterion_keeps;
use model_core::{Criterion, Model};
use report_text::{Detail, Reply};
use session_state::Subject;
use std::alloc::Global;
use swing_weights::laws::basic_scales_have_swings;
use swing_weights::{WeightFault, weights};
use value_scale::laws::least_values_meet;
use value_scale::{AnchorFault, Basic, Interval, anchor, slack};

/// The reply to a question about a matrix, from its basic scale.
pub(crate) fn told(
    alloc: Global,
    model: &Model,
    subject: Subject,
    question: Question,
    basic: &Basic,
) -> Result<Reply, NoMemory>
    requires subject { IsSubject model.now subject }
    requires question { IsQuestionOf model.now subject question }
    requires basic { IsBasic (matrix_of model.now subject) basic.now }
    ensures value { IfOk result (λ r. r ≡ told model.now subject question basic.now) }
    ensures printable { IfOk result IsPrintable }
{
    match question {
        Question::Scale => scale_reply(alloc, model, subject, basic),
        Question::Cert => Ok(Reply::Cert {
            cert: cert_of(alloc, subject.matrix(model), basic)?,
        }),
        Question::Worth => reply_of(worth_told(alloc, model, subject, basic)),
        Question::Slack(element) => reply_of(slack_told(model, subject, element, basic)),
    }
}

// ---- certificates

// A certificate by the tags of its rows, with what it claims.
fn named(alloc: Global, matrix: &Matrix, claim: Claim, cert: &Cert) -> Result<CertText, NoMemory>
    requires size { 2 ≤ matrix.now.size }
    requires rows { AreRows matrix.now cert.now.on }
    ensures value { IfOk result (λ text. text ≡ named matrix.now claim cert.now) }
    ensures printable { (claim ≡ Nothing → cert.now.den ≡ pos 1) → IfOk result HasCertText }
{
    name_rows(alloc, matrix, claim, cert)
}

// The span of values: the first one.
fn span(values: &[Frac]) -> Frac
    ensures { result ≡ span values.now }
{
    match values.first() {
        Some(value) => *value,
        None => Frac::whole(0),
    }
}

// The certificate of a basic scale.
fn cert_of(alloc: Global, matrix: &Matrix, basic: &Basic) -> Result<CertText, NoMemory>
    requires size { 2 ≤ matrix.now.size }
    requires basic { IsBasic matrix.now basic.now }
    ensures value { IfOk result (λ text. text ≡ cert_of matrix.now basic.now) }
    ensures printable { IfOk result HasCertText }
{
    match basic {
        Basic::Scale { values, cert } => {
            let claim = Claim::Least(span(values.as_slice()));
            named(alloc, matrix, claim, cert)
        }
        Basic::Inconsistent { cert } => named(alloc, matrix, Claim::Nothing, cert),
    }
}

// The scale with its certificate, or the certificate that there is none.
fn scale_reply(
    alloc: Global,
    model: &Model,
    subject: Subject,
    basic: &Basic,
) -> Result<Reply, NoMemory>
    requires subject { IsSubject model.now subject }
    requires basic { IsBasic (matrix_of model.now subject) basic.now }
    ensures value { IfOk result (λ r. r ≡ scale_reply model.now subject basic.now) }
    ensures printable { IfOk result IsPrintable }
{
    let cert = cert_of(alloc, subject.matrix(model), basic)?;
    match basic {
        Basic::Scale { values, .. } => {
            // For the proofs alone: there is a value for each element.
            least_values_meet(subject.matrix(model), values.as_slice());
            Ok(Reply::Scale {
                names: names_of(alloc, model, subject)?,
                values: values.copy(alloc)?,
                cert,
            })
        }
        Basic::Inconsistent { .. } => Ok(Reply::Inconsistent { cert }),
    }
}

// ---- what is worked from the values

// What a refusal of a matrix says.
fn place_of(model: &Model, subject: Subject) -> Result<Detail, NoMemory>
    requires { IsSubject model.now subject }
    ensures { IfOk result (λ detail. detail ≡ place_of model.now subject) }
{
    match subject {
        Subject::Criterion(at) => Ok(Detail::Place(model.criterion(at).name().copy()?)),
        Subject::Weighting => Ok(Detail::Weighting),
    }
}

// The values of the least scale.
fn values_of<'a>(model: &Model, subject: Subject, basic: &'a Basic) -> Result<&'a [Frac], Stop>
    requires subject { IsSubject model.now subject }
    requires basic { IsBasic (matrix_of model.now subject) basic.now }
    ensures value { Works (λ v. v.now) (values_of model.now subject basic.now) result }
    ensures least { IfOk result (λ v. AreLeastValues (matrix_of model.now subject) v.now) }
{
    match basic {
        Basic::Scale { values, .. } => Ok(values.as_slice()),
        Basic::Inconsistent { .. } => Err(Stop::Refused(Reply::Refused {
            number: INCONSISTENT,
            detail: place_of(model, subject)?,
        })),
    }
}

// The anchored scale of a criterion.
fn anchored_of(alloc: Global, criterion: &Criterion, values: &[Frac]) -> Result<Vec<Frac>, Stop>
    requires { AreLeastValues criterion.now.matrix values.now }
    ensures value { Works (λ v. v.items) (anchored_of criterion.now values.now) result }
    ensures each { IfOk result (λ v. length v.items ≡ criterion.now.matrix.size) }
{
    // For the proofs alone: there is a value for each element, and the values fall.
    what_a_criterion_keeps(criterion);
    least_values_meet(criterion.matrix(), values);
    match anchor(alloc, values, criterion.good(), criterion.neutral()) {
        Ok(anchored) => Ok(anchored),
        Err(AnchorFault::Flat) => Err(Stop::Refused(Reply::Refused {
            number: FLAT,
            detail: Detail::Place(criterion.name().copy()?),
        })),
        Err(AnchorFault::TooWide) => Err(stopped(TOO_WIDE)),
        Err(AnchorFault::NoMemory) => Err(Stop::NoMemory),
    }
}

// The weights of the criteria, by the values of the weighting.
fn weights_of(
    alloc: Global,
    model: &Model,
    basic: &Basic,
    values: &[Frac],
) -> Result<Vec<Frac>, Stop>
    requires subject { IsSubject model.now Subject.Weighting }
    requires basic { IsBasic model.now.weighting basic.now }
    requires values { values_of model.now Subject.Weighting basic.now ≡ Ok values.now }
    ensures value { Works (λ v. v.items) (weights_of values.now) result }
    ensures each { IfOk result (λ v. length v.items ≡ length values.now - 1) }
{
    // For the proofs alone: the values are those of swings.
    basic_scales_have_swings(model.weighting(), basic);
    match weights(alloc, basic) {
        Ok(weights) => Ok(weights),
        Err(WeightFault::Inconsistent) => Err(Stop::Refused(Reply::Refused {
            number: INCONSISTENT,
            detail: Detail::Weighting,
        })),
        Err(WeightFault::Flat) => Err(Stop::Refused(Reply::Refused {
            number: FLAT,
            detail: Detail::Weighting,
        })),
        Err(WeightFault::TooWide) => Err(stopped(TOO_WIDE)),
        Err(WeightFault::NoMemory) => Err(Stop::NoMemory),
    }
}

/// What a score needs of a matrix: the anchored scale of a criterion, or the weights.
pub(crate) fn worth_of_basic(
    alloc: Global,
    model: &Model,
    subject: Subject,
    basic: &Basic,
) -> Result<Vec<Frac>, Stop>
    requires subject { IsSubject model.now subject }
    requires basic { IsBasic (matrix_of model.now subject) basic.now }
    ensures value { Works (λ v. v.items) (worth_of_basic model.now subject basic.now) result }
    ensures each { IfOk result (λ v. length v.items ≡ worth_size model.now subject) }
{
    let values = values_of(model, subject, basic)?;
    // For the proofs alone: there is a value for each element.
    least_values_meet(subject.matrix(model), values);
    match subject {
        Subject::Criterion(at) => anchored_of(alloc, model.criterion(at), values),
        Subject::Weighting => {
            prove!(model.weighting().size() == model.criteria() + 1);
            weights_of(alloc, model, basic, values)
        }
    }
}

// The same as a reply.
fn worth_told(alloc: Global, model: &Model, subject: Subject, basic: &Basic) -> Result<Reply, Stop>
    requires subject { IsSubject model.now subject }
    requires basic { IsBasic (matrix_of model.now subject) basic.now }
    ensures value { Works (λ r. r) (checked_worth model.now subject basic.now) result }
    ensures printable { IfOk result IsPrintable }
{
    let values = List::make(worth_of_basic(alloc, model, subject, basic)?);
    match subject {
        Subject::Criterion(at) => Ok(Reply::Anchored {
            names: element_names(alloc, model.criterion(at))?,
            values,
        }),
        Subject::Weighting => Ok(Reply::Weights {
            names: List::make(weighed_names(alloc, model)?),
            values,
        }),
    }
}

// The room of an element on the least scale, as a reply.
fn slack_told(model: &Model, subject: Subject, element: usize, basic: &Basic) -> Result<Reply, Stop>
    requires subject { IsSubject model.now subject }
    requires element { (1 ≤ element) × (element ≤ (matrix_of model.now subject).size) }
    requires basic { IsBasic (matrix_of model.now subject) basic.now }
    ensures value { Works (λ r. r) (checked_room model.now subject element basic.now) result }
    ensures printable { IfOk result IsPrintable }
{
    let values = values_of(model, subject, basic)?;
    let matrix = subject.matrix(model);
    // For the proofs alone: the values meet the matrix.
    least_values_meet(matrix, values);
    match slack(matrix, values, element) {
        Ok(Interval { low, high }) => Ok(Reply::Slack { low, high }),
        Err(_) => Err(stopped(TOO_WIDE)),
    }
}
