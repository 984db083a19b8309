//! Checks of certificates, which are independent of how these were found.

ghost use Rattle.std.specs.Prelude.{◌↔◌, ◌≡◌, ◌<ℤ◌, ◌+◌, ◌<◌, ◌^◌, length, pos, All, IsTrue, IfSome, MatchOption, OkIff, SomeIff};
ghost use Rattle.integers.specs.Fraction.{IsFraction, SameFraction};
ghost use Rattle.integers.specs.Vector.{int_sum};
ghost use Rattle.frac128.specs.Range.{IsInRange};
ghost use Rattle.frac128.specs.Problem.{AreRowMultipliers, IsProblem, IsSpanCertificate, IsFarkasCertificate, IsLowerBound, IsInfeasible};
ghost use Rattle.cert_check.specs.Columns.{IsColumnAnswer};
ghost use Rattle.cert_check.specs.Entries.{IsEntry, products_on, added_in_turn, bound};
ghost use Rattle.cert_check.specs.First.{IsFirstFailing};
ghost use Rattle.cert_check.specs.Lines.{IsVerdict, Decides, OnHolds, span_check, farkas_check};

use crate::columns::first_false_column;
use crate::entries::first_false_entry;
use crate::sums::bound_sum;
use crate::verdict::{Place, Verdict};
use frac128::problem::{Cert, Problem};
use frac128::{Frac, Number, TooWide, compare_numbers};
use std::cmp::Ordering;

/// Whether the certificate shows that each point that meets the problem costs at least the value, else the first line that is
/// false. It refuses where a product or sum that these lines name is out of range, up to the first false line. It takes no memory.
pub fn check_dual(problem: &Problem, value: &Frac, cert: &Cert) -> Result<Verdict, TooWide>
    ensures verdict { IsVerdict (span_check problem.now value.now cert.now) result }
    ensures exact { Decides (IsSpanCertificate problem.now cert.now value.now) result }
    ensures bounds { OnHolds result (IsLowerBound problem.now value.now) }
{
    span_verdict(problem, value, cert)
}

/// Whether the certificate shows that no point meets the problem, else the first line that is false. It refuses where a product
/// or sum that these lines name is out of range, up to the first false line. The certificate's denominator isn't looked at. It
/// takes no memory.
pub fn check_farkas(problem: &Problem, cert: &Cert) -> Result<Verdict, TooWide>
    ensures verdict { IsVerdict (farkas_check problem.now cert.now) result }
    ensures exact { Decides (IsFarkasCertificate problem.now cert.now) result }
    ensures refutes { OnHolds result (IsInfeasible problem.now) }
{
    farkas_verdict(problem, cert)
}

// The verdict on a span certificate.
fn span_verdict(problem: &Problem, value: &Frac, cert: &Cert) -> Result<Verdict, TooWide>
    ensures verdict { IsVerdict (span_check problem.now value.now cert.now) result }
    ensures known { IsProblem problem.now × IsFraction value.now }
{
    // What the types of the problem and the value keep is told where they are read.
    let _ = (problem.vars(), value.den());
    let Some(den) = positive_den(cert) else {
        return Ok(Verdict::Fails(Place::Den));
    };
    if let Some(i) = false_entry(problem, cert) {
        return Ok(Verdict::Fails(Place::Entry(i + 1)));
    }
    if let Some(j) = false_column(problem, den, cert)? {
        // So the number of the column fits.
        prove!(j < problem.vars());
        return Ok(Verdict::Fails(Place::Column(j + 1)));
    }
    if is_value(bound_of_all(problem, cert)?, den, value) {
        Ok(Verdict::Holds)
    } else {
        Ok(Verdict::Fails(Place::Bound))
    }
}

// The verdict on a Farkas certificate, whose coefficients are at most 0 times the costs.
fn farkas_verdict(problem: &Problem, cert: &Cert) -> Result<Verdict, TooWide>
    ensures verdict { IsVerdict (farkas_check problem.now cert.now) result }
    ensures known { IsProblem problem.now }
{
    // What the type of the problem keeps is told where it is read.
    problem.vars();
    if let Some(i) = false_entry(problem, cert) {
        return Ok(Verdict::Fails(Place::Entry(i + 1)));
    }
    if let Some(j) = false_column(problem, Number::ZERO, cert)? {
        // So the number of the column fits.
        prove!(j < problem.vars());
        return Ok(Verdict::Fails(Place::Column(j + 1)));
    }
    if is_positive(bound_of_all(problem, cert)?) {
        Ok(Verdict::Holds)
    } else {
        Ok(Verdict::Fails(Place::Bound))
    }
}

// The denominator, where it is at least 1.
fn positive_den(cert: &Cert) -> Option<Number>
    ensures { SomeIff result (pos 0 <ℤ cert.now.den) cert.now.den }
{
    if cert.den >= 1 {
        Some(Number::known(cert.den))
    } else {
        None
    }
}

// The place of the first entry that is false.
fn false_entry(problem: &Problem, cert: &Cert) -> Option<usize>
    ensures first { MatchOption result (AreRowMultipliers (length problem.now.rows) cert.now.on)
        (λ i. IsFirstFailing (IsEntry (length problem.now.rows) cert.now.on) (length cert.now.on) i) }
    ensures within { IfSome result (λ i. i + 1 < 2 ^ 64) }
{
    first_false_entry(problem.rows().len(), cert.on.as_slice())
}

// The place of the first column that is above `den` times its cost.
fn false_column(problem: &Problem, den: Number, cert: &Cert) -> Result<Option<usize>, TooWide>
    requires { AreRowMultipliers (length problem.now.rows) cert.now.on }
    ensures { IsColumnAnswer problem.now den cert.now.on result }
{
    first_false_column(problem, den, cert.on.as_slice())
}

// The bound of the combination.
fn bound_of_all(problem: &Problem, cert: &Cert) -> Result<Number, TooWide>
    requires { AreRowMultipliers (length problem.now.rows) cert.now.on }
    ensures { OkIff result (All IsInRange (added_in_turn (pos 0)
        (products_on bound problem.now.rows cert.now.on)))
        (int_sum (products_on bound problem.now.rows cert.now.on)) }
{
    bound_sum(problem, cert.on.as_slice())
}

// Whether the sum over the denominator is the value.
fn is_value(sum: Number, den: Number, value: &Frac) -> bool
    requires { pos 0 <ℤ den }
    ensures { IsTrue result ↔ SameFraction (record { num = sum; den = den }) value.now }
{
    let num = Number::known(value.num());
    let under = Number::known(value.den());
    compare_numbers(sum, den, num, under) == Ordering::Equal
}

// Whether the sum is above 0.
fn is_positive(sum: Number) -> bool
    ensures { IsTrue result ↔ pos 0 <ℤ sum }
{
    sum > Number::ZERO
}
