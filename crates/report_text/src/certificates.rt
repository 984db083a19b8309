//! Texts of certificates.
ghost use Rattle.std.specs.Prelude.{◌≡◌, ◌++◌, ◌∷◌, [], codes, map, length};
ghost use Rattle.std.specs.Fmt.{decimal, signed_decimal};
ghost use Rattle.std.specs.List.{flat_map};
ghost use Rattle.frac128.specs.Text.{frac_text};
ghost use Rattle.cert_check.specs.Dominance.{open_line, proof_words};
ghost use Rattle.cert_check.specs.Text.{IsPrintable as HasCertText};
ghost use Rattle.report_text.specs.Lines.{Adds, lines_text, counted};
ghost use Rattle.report_text.specs.Certificates.{cert_lines, place_words, subject_words, part_lines, parts_lines};

use crate::NoMemory;
use crate::reply::{Head, Part};
use crate::words::{push_count, push_frac, push_newline, push_number, push_quoted, push_signed};
use cert_check::{CertText, OpenTag, Place, print_cert, push_open_tag};
use frac128::Frac;
use std::alloc::Global;

/// The certificate's text.
pub(crate) fn push_cert(alloc: Global, out: &mut String, cert: &CertText) -> Result<(), NoMemory>
    requires { HasCertText cert.now }
    ensures { Adds result out.old out.new (lines_text (cert_lines cert.now)) }
{
    let text = print_cert(alloc, cert)?;
    out.push_str(text.as_str())
}

/// That no scale meets a matrix, and the certificate's text.
pub(crate) fn push_inconsistent(
    alloc: Global,
    out: &mut String,
    cert: &CertText,
) -> Result<(), NoMemory>
    requires { HasCertText cert.now }
    ensures { Adds result out.old out.new (lines_text (codes "inconsistent" ∷ cert_lines cert.now)) }
{
    out.push_str("inconsistent\n")?;
    push_cert(alloc, out, cert)
}

/// The line of a check that is false.
pub(crate) fn push_failing(alloc: Global, out: &mut String, place: Place) -> Result<(), NoMemory>
    ensures { Adds result out.old out.new (lines_text ((codes "fails " ++ place_words place) ∷ [])) }
{
    out.push_str("fails ")?;
    push_place(alloc, out, place)?;
    push_newline(out)
}

fn push_place(alloc: Global, out: &mut String, place: Place) -> Result<(), NoMemory>
    ensures { Adds result out.old out.new (place_words place) }
{
    match place {
        Place::Den => out.push_str("den"),
        Place::Entry(k) => {
            out.push_str("entry ")?;
            push_number(alloc, out, k as u64)
        }
        Place::Column(k) => {
            out.push_str("column ")?;
            push_number(alloc, out, k as u64)
        }
        Place::Bound => out.push_str("bound"),
    }
}

/// By how much the first option dominates at least.
pub(crate) fn push_least(alloc: Global, out: &mut String, least: &Frac) -> Result<(), NoMemory>
    ensures { Adds result out.old out.new (lines_text ((codes "dominates " ++ frac_text least.now) ∷ [])) }
{
    out.push_str("dominates ")?;
    push_frac(alloc, out, least)?;
    push_newline(out)
}

/// A certificate of dominance.
pub(crate) fn push_dominance(
    alloc: Global,
    out: &mut String,
    least: &Frac,
    parts: &[Part],
) -> Result<(), NoMemory>
    ensures { Adds result out.old out.new (lines_text (parts_lines least.now parts.now)) }
{
    push_least(alloc, out, least)?;
    push_parts(alloc, out, parts)
}

fn push_parts(alloc: Global, out: &mut String, parts: &[Part]) -> Result<(), NoMemory>
    ensures { Adds result out.old out.new (lines_text (flat_map part_lines parts.now)) }
{
    for part in parts {
        push_part(alloc, out, part)?;
    }
    Ok(())
}

fn push_part(alloc: Global, out: &mut String, part: &Part) -> Result<(), NoMemory>
    ensures { Adds result out.old out.new (lines_text (part_lines part.now)) }
{
    match part.value {
        None => push_same(out, &part.head),
        Some(value) => push_solved(alloc, out, &part.head, value, &part.den, part.on.as_slice()),
    }
}

fn push_same(out: &mut String, head: &Head) -> Result<(), NoMemory>
    ensures { Adds result out.old out.new (lines_text ((subject_words head.now ++ codes " same") ∷ [])) }
{
    push_subject(out, head)?;
    out.push_str(" same")?;
    push_newline(out)
}

// The denominator comes by reference, since a number of 128 bits that is handed on by value is not seen as itself.
fn push_solved(
    alloc: Global,
    out: &mut String,
    head: &Head,
    value: Frac,
    den: &i128,
    on: &[(OpenTag, i128)],
) -> Result<(), NoMemory>
    ensures { Adds result out.old out.new (lines_text (counted (subject_words head.now ++ proof_words value den.now) (map open_line on.now))) }
{
    push_subject(out, head)?;
    push_proof(alloc, out, value, den, on)
}

fn push_subject(out: &mut String, head: &Head) -> Result<(), NoMemory>
    ensures { Adds result out.old out.new (subject_words head.now) }
{
    match head {
        Head::Criterion(name) => {
            out.push_str("criterion ")?;
            push_quoted(out, name)
        }
        Head::Weighting => out.push_str("weighting"),
    }
}

fn push_proof(
    alloc: Global,
    out: &mut String,
    value: Frac,
    den: &i128,
    on: &[(OpenTag, i128)],
) -> Result<(), NoMemory>
    ensures { Adds result out.old out.new (lines_text (counted (proof_words value den.now) (map open_line on.now))) }
{
    push_claim(alloc, out, value, den)?;
    push_count(alloc, out, on.len())?;
    push_entries(alloc, out, on)
}

fn push_claim(alloc: Global, out: &mut String, value: Frac, den: &i128) -> Result<(), NoMemory>
    ensures { Adds result out.old out.new (proof_words value den.now) }
{
    out.push_str(" least ")?;
    push_frac(alloc, out, &value)?;
    push_den(alloc, out, den)
}

fn push_den(alloc: Global, out: &mut String, den: &i128) -> Result<(), NoMemory>
    ensures { Adds result out.old out.new (codes " den " ++ signed_decimal den.now ++ codes " rows") }
{
    out.push_str(" den ")?;
    push_signed(alloc, out, *den)?;
    out.push_str(" rows")
}

fn push_entries(alloc: Global, out: &mut String, on: &[(OpenTag, i128)]) -> Result<(), NoMemory>
    ensures { Adds result out.old out.new (lines_text (map open_line on.now)) }
{
    for (tag, multiplier) in on {
        push_entry(alloc, out, *tag, multiplier)?;
    }
    Ok(())
}

fn push_entry(
    alloc: Global,
    out: &mut String,
    tag: OpenTag,
    multiplier: &i128,
) -> Result<(), NoMemory>
    ensures { Adds result out.old out.new (lines_text (open_line (tag, multiplier.now) ∷ [])) }
{
    push_open_tag(alloc, out, tag)?;
    out.push_str(" ")?;
    push_signed(alloc, out, *multiplier)?;
    push_newline(out)
}
