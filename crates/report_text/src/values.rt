//! Texts of values beside names.
ghost use Rattle.std.specs.Prelude.{◌≡◌, ◌++◌, ◌∷◌, [], codes, length, map};
ghost use Rattle.std.specs.List.{zip};
ghost use Rattle.cert_check.specs.Text.{IsPrintable as HasCertText};
ghost use Rattle.report_text.specs.Certificates.{cert_lines};
ghost use Rattle.report_text.specs.Lines.{Adds, lines_text};
ghost use Rattle.report_text.specs.Values.{value_line, amount_line, values_lines, amounts_lines, values_words, high_words, slack_line, scale_line, weight_line, not_lines, subtotals_lines};

use crate::NoMemory;
use crate::certificates::push_cert;
use crate::words::{push_amount, push_frac, push_heading, push_newline, push_quoted};
use cert_check::CertText;
use frac128::{Frac, List};
use model_core::Name;
use std::alloc::Global;

/// A heading with their number, and each name with its value.
fn push_values(
    alloc: Global,
    out: &mut String,
    heading: &str,
    names: &[Name],
    values: &[Frac],
) -> Result<(), NoMemory>
    requires { length values.now ≡ length names.now }
    ensures { Adds result out.old out.new (lines_text (values_lines heading.now names.now values.now)) }
{
    push_heading(alloc, out, heading, names.len())?;
    push_value_lines(alloc, out, names, values)
}

fn push_value_lines(
    alloc: Global,
    out: &mut String,
    names: &[Name],
    values: &[Frac],
) -> Result<(), NoMemory>
    requires { length values.now ≡ length names.now }
    ensures { Adds result out.old out.new (lines_text (map value_line (zip names.now values.now))) }
{
    for i in 0..names.len() {
        push_value(alloc, out, &names[i], &values[i])?;
        push_newline(out)?;
    }
    Ok(())
}

fn push_value(alloc: Global, out: &mut String, name: &Name, value: &Frac) -> Result<(), NoMemory>
    ensures { Adds result out.old out.new (value_line (name.now, value.now)) }
{
    push_quoted(out, name)?;
    out.push_str(" ")?;
    push_frac(alloc, out, value)
}

/// A scale, and the certificate's text.
pub(crate) fn push_scale(
    alloc: Global,
    out: &mut String,
    names: &[Name],
    values: &[Frac],
    cert: &CertText,
) -> Result<(), NoMemory>
    requires values { length values.now ≡ length names.now }
    requires cert { HasCertText cert.now }
    ensures { Adds result out.old out.new (lines_text (values_lines (codes "scale") names.now values.now ++ cert_lines cert.now)) }
{
    push_values(alloc, out, "scale", names, values)?;
    push_cert(alloc, out, cert)
}

/// The same as `push_values`, with the values rounded too.
pub(crate) fn push_amounts(
    alloc: Global,
    out: &mut String,
    heading: &str,
    names: &[Name],
    values: &[Frac],
) -> Result<(), NoMemory>
    requires { length values.now ≡ length names.now }
    ensures { Adds result out.old out.new (lines_text (amounts_lines heading.now names.now values.now)) }
{
    push_heading(alloc, out, heading, names.len())?;
    push_amount_lines(alloc, out, names, values)
}

fn push_amount_lines(
    alloc: Global,
    out: &mut String,
    names: &[Name],
    values: &[Frac],
) -> Result<(), NoMemory>
    requires { length values.now ≡ length names.now }
    ensures { Adds result out.old out.new (lines_text (map amount_line (zip names.now values.now))) }
{
    for i in 0..names.len() {
        push_named_amount(alloc, out, &names[i], &values[i])?;
        push_newline(out)?;
    }
    Ok(())
}

fn push_named_amount(
    alloc: Global,
    out: &mut String,
    name: &Name,
    value: &Frac,
) -> Result<(), NoMemory>
    ensures { Adds result out.old out.new (amount_line (name.now, value.now)) }
{
    push_quoted(out, name)?;
    out.push_str(" ")?;
    push_amount(alloc, out, value)
}

/// The values that keep all constraints.
pub(crate) fn push_slack(
    alloc: Global,
    out: &mut String,
    low: Frac,
    high: Option<Frac>,
) -> Result<(), NoMemory>
    ensures { Adds result out.old out.new (lines_text (slack_line low high ∷ [])) }
{
    out.push_str("slack ")?;
    push_frac(alloc, out, &low)?;
    out.push_str(" ")?;
    push_high(alloc, out, high)?;
    push_newline(out)
}

fn push_high(alloc: Global, out: &mut String, high: Option<Frac>) -> Result<(), NoMemory>
    ensures { Adds result out.old out.new (high_words high) }
{
    match high {
        None => out.push_str("none"),
        Some(high) => push_frac(alloc, out, &high),
    }
}

/// Open scales and weights by which one option scores less than the other.
pub(crate) fn push_not(
    alloc: Global,
    out: &mut String,
    gap: &Frac,
    scales: &[(Name, List<Frac>)],
    weights: &[(Name, Frac)],
) -> Result<(), NoMemory>
    ensures { Adds result out.old out.new (lines_text (not_lines gap.now scales.now weights.now)) }
{
    out.push_str("not ")?;
    push_frac(alloc, out, gap)?;
    push_newline(out)?;
    push_scales(alloc, out, scales)?;
    push_weights(alloc, out, weights)
}

fn push_scales(
    alloc: Global,
    out: &mut String,
    scales: &[(Name, List<Frac>)],
) -> Result<(), NoMemory>
    ensures { Adds result out.old out.new (lines_text (map scale_line scales.now)) }
{
    for (name, values) in scales {
        push_scale_line(alloc, out, name, values.as_slice())?;
        push_newline(out)?;
    }
    Ok(())
}

fn push_scale_line(
    alloc: Global,
    out: &mut String,
    name: &Name,
    values: &[Frac],
) -> Result<(), NoMemory>
    ensures { Adds result out.old out.new (scale_line (name.now, values.now)) }
{
    out.push_str("scale ")?;
    push_quoted(out, name)?;
    push_value_words(alloc, out, values)
}

/// The values, each with a space before it.
fn push_value_words(alloc: Global, out: &mut String, values: &[Frac]) -> Result<(), NoMemory>
    ensures { Adds result out.old out.new (values_words values.now) }
{
    for value in values {
        out.push_str(" ")?;
        push_frac(alloc, out, value)?;
    }
    Ok(())
}

fn push_weights(alloc: Global, out: &mut String, weights: &[(Name, Frac)]) -> Result<(), NoMemory>
    ensures { Adds result out.old out.new (lines_text (map weight_line weights.now)) }
{
    for (name, value) in weights {
        push_weight(alloc, out, name, value)?;
    }
    Ok(())
}

fn push_weight(alloc: Global, out: &mut String, name: &Name, value: &Frac) -> Result<(), NoMemory>
    ensures { Adds result out.old out.new (lines_text (weight_line (name.now, value.now) ∷ [])) }
{
    out.push_str("weight ")?;
    push_value(alloc, out, name, value)?;
    push_newline(out)
}

/// What each group adds, and the score.
pub(crate) fn push_subtotals(
    alloc: Global,
    out: &mut String,
    parts: &[(Name, Frac)],
    total: &Frac,
) -> Result<(), NoMemory>
    ensures { Adds result out.old out.new (lines_text (subtotals_lines parts.now total.now)) }
{
    push_heading(alloc, out, "subtotals", parts.len())?;
    push_parts(alloc, out, parts)?;
    out.push_str("total ")?;
    push_amount(alloc, out, total)?;
    push_newline(out)
}

fn push_parts(alloc: Global, out: &mut String, parts: &[(Name, Frac)]) -> Result<(), NoMemory>
    ensures { Adds result out.old out.new (lines_text (map amount_line parts.now)) }
{
    for (name, value) in parts {
        push_named_amount(alloc, out, name, value)?;
        push_newline(out)?;
    }
    Ok(())
}
