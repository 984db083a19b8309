//! Words that lines are made of.
ghost use Rattle.std.specs.Prelude.{◌≡◌, ◌++◌, ◌∷◌, [], length, codes};
ghost use Rattle.std.specs.Fmt.{decimal, signed_decimal};
ghost use Rattle.frac128.specs.Text.{frac_text};
ghost use Rattle.report_text.specs.Lines.{Adds};
ghost use Rattle.report_text.specs.Names.{quoted, two_names, name_at, pair_words, tag_words, IsPlace, IsTagOf};
ghost use Rattle.report_text.specs.Values.{amount_words};

use crate::NoMemory;
use frac128::Frac;
use judgement_matrix::Tag;
use model_core::Name;
use std::alloc::Global;

/// The places to which values are rounded.
pub const PLACES: u8 = 2;

pub(crate) fn push_quoted(out: &mut String, name: &Name) -> Result<(), NoMemory>
    ensures { Adds result out.old out.new (quoted name.now) }
{
    out.push_str("\"")?;
    out.push_str(name.as_str())?;
    out.push_str("\"")
}

pub(crate) fn push_two_names(out: &mut String, upper: &Name, lower: &Name) -> Result<(), NoMemory>
    ensures { Adds result out.old out.new (two_names upper.now lower.now) }
{
    push_quoted(out, upper)?;
    out.push_str(" ")?;
    push_quoted(out, lower)
}

pub(crate) fn push_pair(
    out: &mut String,
    names: &[Name],
    p: usize,
    q: usize,
) -> Result<(), NoMemory>
    requires upper { IsPlace (length names.now) p }
    requires lower { IsPlace (length names.now) q }
    ensures { Adds result out.old out.new (pair_words names.now p q) }
{
    push_two_names(out, &names[p - 1], &names[q - 1])
}

fn push_positions(out: &mut String, names: &[Name], p: u8, q: u8) -> Result<(), NoMemory>
    requires upper { IsPlace (length names.now) p }
    requires lower { IsPlace (length names.now) q }
    ensures { Adds result out.old out.new (pair_words names.now p q) }
{
    push_pair(out, names, usize::from(p), usize::from(q))
}

pub(crate) fn push_tag(out: &mut String, names: &[Name], tag: Tag) -> Result<(), NoMemory>
    requires { IsTagOf (length names.now) tag }
    ensures { Adds result out.old out.new (tag_words names.now tag) }
{
    match tag {
        Tag::Lower(p, q) => {
            out.push_str("lower ")?;
            push_positions(out, names, p, q)
        }
        Tag::Zero(p, q) => {
            out.push_str("zero ")?;
            push_positions(out, names, p, q)
        }
        Tag::Cross(p, q, x, y) => {
            out.push_str("cross ")?;
            push_positions(out, names, p, q)?;
            push_lower_pair(out, names, x, y)
        }
        Tag::Order(p) => {
            out.push_str("order ")?;
            push_quoted(out, &names[usize::from(p) - 1])
        }
    }
}

fn push_lower_pair(out: &mut String, names: &[Name], p: u8, q: u8) -> Result<(), NoMemory>
    requires upper { IsPlace (length names.now) p }
    requires lower { IsPlace (length names.now) q }
    ensures { Adds result out.old out.new (codes " over " ++ pair_words names.now p q) }
{
    out.push_str(" over ")?;
    push_positions(out, names, p, q)
}

pub(crate) fn push_number(alloc: Global, out: &mut String, number: u64) -> Result<(), NoMemory>
    ensures { Adds result out.old out.new (decimal number) }
{
    let digits = number.to_string(alloc)?;
    out.push_str(digits.as_str())
}

pub(crate) fn push_signed(alloc: Global, out: &mut String, number: i128) -> Result<(), NoMemory>
    ensures { Adds result out.old out.new (signed_decimal number) }
{
    let digits = number.to_string(alloc)?;
    out.push_str(digits.as_str())
}

pub(crate) fn push_frac(alloc: Global, out: &mut String, value: &Frac) -> Result<(), NoMemory>
    ensures { Adds result out.old out.new (frac_text value.now) }
{
    let text = value.print(alloc)?;
    out.push_str(text.as_str())
}

/// The value as a fraction and rounded.
pub(crate) fn push_amount(alloc: Global, out: &mut String, value: &Frac) -> Result<(), NoMemory>
    ensures { Adds result out.old out.new (amount_words value.now) }
{
    let rounded = value.decimal(alloc, PLACES)?;
    push_frac(alloc, out, value)?;
    out.push_str(" ")?;
    out.push_str(rounded.as_str())
}

/// The end of a line.
pub(crate) fn push_newline(out: &mut String) -> Result<(), NoMemory>
    ensures { Adds result out.old out.new (10 ∷ []) }
{
    out.push_str("\n")
}

/// A line of a heading and a number.
pub(crate) fn push_heading(
    alloc: Global,
    out: &mut String,
    heading: &str,
    count: usize,
) -> Result<(), NoMemory>
    ensures { Adds result out.old out.new ((heading.now ++ codes " " ++ decimal count) ++ 10 ∷ []) }
{
    out.push_str(heading)?;
    push_count(alloc, out, count)
}

/// A number at the end of a line.
pub(crate) fn push_count(alloc: Global, out: &mut String, count: usize) -> Result<(), NoMemory>
    ensures { Adds result out.old out.new ((codes " " ++ decimal count) ++ 10 ∷ []) }
{
    out.push_str(" ")?;
    push_number(alloc, out, count as u64)?;
    push_newline(out)
}
