//! Texts of refusals.
ghost use Rattle.std.specs.Prelude.{◌≡◌, ◌++◌, ◌∷◌, [], codes};
ghost use Rattle.std.specs.Fmt.{decimal, signed_decimal};
ghost use Rattle.std.specs.List.{flat_map};
ghost use Rattle.report_text.specs.Lines.{Adds, lines_text};
ghost use Rattle.report_text.specs.Refusals.{refusal_words, refusal_line, detail_words, reach_words, IsRefusal};

use crate::NoMemory;
use crate::reply::Detail;
use crate::words::{
    push_frac, push_newline, push_number, push_quoted, push_signed, push_two_names,
};
use frac128::Frac;
use model_core::Name;
use std::alloc::Global;
use word_table::refusals;

/// `refused`, the number, its words and the detail.
pub(crate) fn push_refusal(
    alloc: Global,
    out: &mut String,
    number: u8,
    detail: &Detail,
) -> Result<(), NoMemory>
    requires { IsRefusal number }
    ensures { Adds result out.old out.new (lines_text (refusal_line number detail.now ∷ [])) }
{
    out.push_str("refused ")?;
    push_number(alloc, out, u64::from(number))?;
    out.push_str(" ")?;
    out.push_str(words_of(number))?;
    push_detail(alloc, out, detail)?;
    push_newline(out)
}

fn words_of(number: u8) -> &'static str
    requires { IsRefusal number }
    ensures { result.now ≡ refusal_words number }
{
    refusals().word(usize::from(number) - 1)
}

fn push_detail(alloc: Global, out: &mut String, detail: &Detail) -> Result<(), NoMemory>
    ensures { Adds result out.old out.new (detail_words detail.now) }
{
    match detail {
        Detail::None => Ok(()),
        Detail::At(pointer) => {
            out.push_str(": ")?;
            out.push_str(pointer.as_str())
        }
        Detail::Cell(line, field) => {
            out.push_str(": line ")?;
            push_number(alloc, out, *line as u64)?;
            out.push_str(" field ")?;
            push_number(alloc, out, *field as u64)
        }
        Detail::Line(line) => {
            out.push_str(": ")?;
            push_number(alloc, out, *line as u64)
        }
        Detail::Missing(option, criterion) => {
            out.push_str(": ")?;
            push_two_names(out, option, criterion)
        }
        Detail::Place(criterion) => {
            out.push_str(": ")?;
            push_quoted(out, criterion)
        }
        Detail::Weighting => out.push_str(": weighting"),
        Detail::Reach(criterion, span, reach) => {
            out.push_str(": ")?;
            push_reach(alloc, out, criterion, span, *reach)
        }
        Detail::Shifted(shift) => {
            out.push_str(": shift")?;
            push_steps(alloc, out, shift.by.as_slice())
        }
    }
}

fn push_reach(
    alloc: Global,
    out: &mut String,
    criterion: &Name,
    span: &Frac,
    reach: u32,
) -> Result<(), NoMemory>
    ensures { Adds result out.old out.new (reach_words criterion.now span.now reach) }
{
    push_quoted(out, criterion)?;
    out.push_str(" ")?;
    push_frac(alloc, out, span)?;
    out.push_str(" ")?;
    push_number(alloc, out, u64::from(reach))
}

/// The numbers, each with a space before it.
fn push_steps(alloc: Global, out: &mut String, steps: &[i8]) -> Result<(), NoMemory>
    ensures { Adds result out.old out.new (flat_map (λ step. codes " " ++ signed_decimal step) steps.now) }
{
    for step in steps {
        out.push_str(" ")?;
        push_signed(alloc, out, i128::from(*step))?;
    }
    Ok(())
}
