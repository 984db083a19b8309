//! What the definitions in the contracts amount to: functions that do nothing, whose contracts are the laws.

ghost use Rattle.std.specs.Prelude.{◌≡◌, ◌↔◌, ◌≤◌, ◌⊎◌, ℕ, ℤ, List as Items, Result as Answer};
ghost use Rattle.integers.specs.Fraction.{Fraction, FractionAtMost};
ghost use Rattle.judgement_matrix.specs.Scale.{value_at, IsScale, IsMetBy, IsInconsistent};
ghost use Rattle.lp_macbeth.specs.Rows.{problem_of};
ghost use Rattle.cert_check.specs.Rows.{NeverRises, FailsNamedRow};
ghost use Rattle.frac128.specs.Problem.{ProblemData, IsSpanCertificate, IsFarkasCertificate};
ghost use Rattle.cert_check.specs.Text.{IsTextOf, IsFirstBad};
ghost use Rattle.cert_check.specs.Lines.{AllSay, IsVerdict, span_check, farkas_check};

use crate::text::CertText;
use crate::verdict::Verdict;
use frac128::problem::{Cert, Problem};
use frac128::{Frac, TooWide};
use judgement_matrix::Matrix;

/// States that the lines of a span certificate together say that it is one. It does nothing.
pub fn span_lines(problem: &Problem, value: &Frac, cert: &Cert)
    ensures { AllSay (span_check problem.now value.now cert.now)
        ↔ IsSpanCertificate problem.now cert.now value.now }
{
    // What the types of the problem and the value keep is told where they are read.
    let _ = (problem.vars(), value.den());
}

/// States that the lines of a Farkas certificate together say that it is one. It does nothing.
pub fn farkas_lines(problem: &Problem, cert: &Cert)
    ensures { AllSay (farkas_check problem.now cert.now)
        ↔ IsFarkasCertificate problem.now cert.now }
{
    // What the type of the problem keeps is told where it is read.
    problem.vars();
}

/// States that a check of a span certificate has one answer. It does nothing.
pub fn one_verdict(
    problem: &Problem,
    value: &Frac,
    cert: &Cert,
    first: &Result<Verdict, TooWide>,
    second: &Result<Verdict, TooWide>,
)
    requires first { IsVerdict (span_check problem.now value.now cert.now) first.now }
    requires second { IsVerdict (span_check problem.now value.now cert.now) second.now }
    ensures { first.now ≡ second.now }
{}

/// States that a check of a Farkas certificate has one answer. It does nothing.
pub fn one_farkas_verdict(
    problem: &Problem,
    cert: &Cert,
    first: &Result<Verdict, TooWide>,
    second: &Result<Verdict, TooWide>,
)
    requires first { IsVerdict (farkas_check problem.now cert.now) first.now }
    requires second { IsVerdict (farkas_check problem.now cert.now) second.now }
    ensures { first.now ≡ second.now }
{}

/// States that bytes are the text of one certificate at most, and then have no bad line. It does nothing.
pub fn one_text(bytes: &[u8], first: &CertText, second: &CertText)
    requires first { IsTextOf bytes.now first.now }
    requires second { IsTextOf bytes.now second.now }
    ensures same { first.now ≡ second.now }
    ensures no_bad_line { (k : ℕ) → ¬ IsFirstBad bytes.now k }
{}

/// States that a Farkas certificate of the problem of a matrix names, with a multiplier above 0, a row that a scale fails, for
/// each scale whose values don't rise, over each denominator. It does nothing.
pub fn refuted_by_a_named_row(matrix: &Matrix, cert: &Cert)
    requires size { 2 ≤ matrix.now.size }
    requires refutes { IsFarkasCertificate (problem_of matrix.now) cert.now }
    ensures { (w : Items ℤ) (n : ℤ) → IsScale matrix.now w n → NeverRises matrix.now w
        → FailsNamedRow matrix.now cert.now w n }
{}

/// States that a span certificate of the problem of a matrix bounds the span, the first value, of each scale that meets the
/// matrix, and that with a Farkas certificate no scale meets it. It does nothing.
pub fn certificates_speak_of_scales(matrix: &Matrix, cert: &Cert)
    requires { 2 ≤ matrix.now.size }
    ensures span { (value : Fraction) (w : Items ℤ) (n : ℤ)
        → IsSpanCertificate (problem_of matrix.now) cert.now value
        → IsMetBy matrix.now w n → FractionAtMost value (record { num = value_at w 1; den = n }) }
    ensures none { IsFarkasCertificate (problem_of matrix.now) cert.now
        → IsInconsistent matrix.now }
{}

/// States that any bytes, or other numbers in their place, are the text of a certificate or have a first line that doesn't fit.
/// It does nothing.
pub fn every_text_reads_or_is_bad()
    ensures { (bytes : Items ℕ)
        → ((cert : CertText) × IsTextOf bytes cert) ⊎ ((k : ℕ) × IsFirstBad bytes k) }
{}

/// States that a check of a span certificate has an answer, for any problem, value and certificate. It does nothing.
pub fn every_span_check_has_a_verdict()
    ensures { (p : ProblemData) (value : Fraction) (cert : Cert)
        → (v : Answer Verdict TooWide) × IsVerdict (span_check p value cert) v }
{}

/// States that a check of a Farkas certificate has an answer, for any problem and certificate. It does nothing.
pub fn every_farkas_check_has_a_verdict()
    ensures { (p : ProblemData) (cert : Cert)
        → (v : Answer Verdict TooWide) × IsVerdict (farkas_check p cert) v }
{}
