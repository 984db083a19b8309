//! Texts of matrices, their rows and their repairs.
ghost use Rattle.std.specs.Prelude.{◌≡◌, ◌≤◌, ◌++◌, ◌∷◌, [], ℕ, codes, length, map, All};
ghost use Rattle.std.specs.List.{zip, flat_map};
ghost use Rattle.model_core.specs.Categories.{range_text};
ghost use Rattle.report_text.specs.Lines.{Adds, lines_text};
ghost use Rattle.report_text.specs.Names.{quoted, tag_words, IsTagOf};
ghost use Rattle.report_text.specs.Matrices.{judged_line, matrix_lines, row_line, rows_lines, pairs_of, step_words, shift_line, repairs_heading, repairs_lines, IsJudgedOf, IsShiftOf};

use crate::NoMemory;
use crate::words::{
    push_count, push_heading, push_newline, push_number, push_pair, push_quoted, push_signed,
    push_tag, push_two_names,
};
use judgement_matrix::{Range, Shift, Tag};
use model_core::{Name, range_text};
use std::alloc::Global;

/// The elements, and the judged pairs.
pub(crate) fn push_matrix(
    alloc: Global,
    out: &mut String,
    names: &[Name],
    judged: &[(usize, usize, Range)],
) -> Result<(), NoMemory>
    requires { All (IsJudgedOf (length names.now)) judged.now }
    ensures { Adds result out.old out.new (lines_text (matrix_lines names.now judged.now)) }
{
    out.push_str("matrix ")?;
    push_number(alloc, out, names.len() as u64)?;
    push_count(alloc, out, judged.len())?;
    push_names(out, names)?;
    push_judged(alloc, out, names, judged)
}

fn push_names(out: &mut String, names: &[Name]) -> Result<(), NoMemory>
    ensures { Adds result out.old out.new (lines_text (map quoted names.now)) }
{
    for name in names {
        push_quoted(out, name)?;
        push_newline(out)?;
    }
    Ok(())
}

fn push_judged(
    alloc: Global,
    out: &mut String,
    names: &[Name],
    judged: &[(usize, usize, Range)],
) -> Result<(), NoMemory>
    requires { All (IsJudgedOf (length names.now)) judged.now }
    ensures { Adds result out.old out.new (lines_text (map (judged_line names.now) judged.now)) }
{
    for (p, q, range) in judged {
        push_judged_line(alloc, out, names, (*p, *q, *range))?;
    }
    Ok(())
}

fn push_judged_line(
    alloc: Global,
    out: &mut String,
    names: &[Name],
    judged: (usize, usize, Range),
) -> Result<(), NoMemory>
    requires { IsJudgedOf (length names.now) judged }
    ensures { Adds result out.old out.new (lines_text (judged_line names.now judged ∷ [])) }
{
    push_pair(out, names, judged.0, judged.1)?;
    out.push_str(" ")?;
    push_range(alloc, out, judged.2)?;
    push_newline(out)
}

fn push_range(alloc: Global, out: &mut String, range: Range) -> Result<(), NoMemory>
    ensures { Adds result out.old out.new (range_text range) }
{
    let text = range_text(alloc, range)?;
    out.push_str(text.as_str())
}

/// The constraint that fails.
pub(crate) fn push_fails(out: &mut String, names: &[Name], tag: Tag) -> Result<(), NoMemory>
    requires { IsTagOf (length names.now) tag }
    ensures { Adds result out.old out.new (lines_text ((codes "fails " ++ tag_words names.now tag) ∷ [])) }
{
    out.push_str("fails ")?;
    push_tag(out, names, tag)?;
    push_newline(out)
}

/// The rows and their bounds.
pub(crate) fn push_rows(
    alloc: Global,
    out: &mut String,
    names: &[Name],
    rows: &[(Tag, i128)],
) -> Result<(), NoMemory>
    requires { All (λ row. IsTagOf (length names.now) row.0) rows.now }
    ensures { Adds result out.old out.new (lines_text (rows_lines names.now rows.now)) }
{
    push_heading(alloc, out, "rows", rows.len())?;
    push_row_lines(alloc, out, names, rows)
}

fn push_row_lines(
    alloc: Global,
    out: &mut String,
    names: &[Name],
    rows: &[(Tag, i128)],
) -> Result<(), NoMemory>
    requires { All (λ row. IsTagOf (length names.now) row.0) rows.now }
    ensures { Adds result out.old out.new (lines_text (map (row_line names.now) rows.now)) }
{
    for (tag, bound) in rows {
        push_row(alloc, out, names, *tag, bound)?;
    }
    Ok(())
}

fn push_row(
    alloc: Global,
    out: &mut String,
    names: &[Name],
    constraint: Tag,
    bound: &i128,
) -> Result<(), NoMemory>
    requires { IsTagOf (length names.now) constraint }
    ensures { Adds result out.old out.new (lines_text (row_line names.now (constraint, bound.now) ∷ [])) }
{
    push_tag(out, names, constraint)?;
    out.push_str(" ")?;
    push_signed(alloc, out, *bound)?;
    push_newline(out)
}

/// The repairs, and by how much each of them moves in all.
pub(crate) fn push_repairs(
    alloc: Global,
    out: &mut String,
    names: &[Name],
    total: u8,
    shifts: &[Shift],
) -> Result<(), NoMemory>
    requires { All (IsShiftOf (length names.now)) shifts.now }
    ensures { Adds result out.old out.new (lines_text (repairs_lines names.now total shifts.now)) }
{
    push_total(alloc, out, total)?;
    push_count(alloc, out, shifts.len())?;
    push_shifts(alloc, out, names, shifts)
}

fn push_total(alloc: Global, out: &mut String, total: u8) -> Result<(), NoMemory>
    ensures { Adds result out.old out.new (repairs_heading total) }
{
    out.push_str("repairs total ")?;
    push_number(alloc, out, u64::from(total))?;
    out.push_str(" count")
}

fn push_shifts(
    alloc: Global,
    out: &mut String,
    names: &[Name],
    shifts: &[Shift],
) -> Result<(), NoMemory>
    requires { All (IsShiftOf (length names.now)) shifts.now }
    ensures { Adds result out.old out.new (lines_text (map (shift_line names.now) shifts.now)) }
{
    for shift in shifts {
        push_shift(alloc, out, names, shift)?;
    }
    Ok(())
}

#[tactic(auto, using(crate::proofs::PairLemmas::pair_count))]
fn push_shift(
    alloc: Global,
    out: &mut String,
    names: &[Name],
    shift: &Shift,
) -> Result<(), NoMemory>
    requires { IsShiftOf (length names.now) shift.now }
    ensures { Adds result out.old out.new (lines_text (shift_line names.now shift.now ∷ [])) }
{
    out.push_str("shift")?;
    push_steps(alloc, out, names, shift.by.as_slice())?;
    push_newline(out)
}

/// Each pair that moves, and by how much.
fn push_steps(alloc: Global, out: &mut String, names: &[Name], steps: &[i8]) -> Result<(), NoMemory>
    requires { length steps.now ≡ length (pairs_of names.now) }
    ensures { Adds result out.old out.new (flat_map step_words (zip (pairs_of names.now) steps.now)) }
{
    let mut names = names;
    let mut steps = steps;
    while let Some((upper, lowers)) = names.split_first() {
        let (first, others) = steps.split_at(lowers.len());
        push_steps_under(alloc, out, upper, lowers, first)?;
        names = lowers;
        steps = others;
    }
    Ok(())
}

/// The same for the pairs with one upper element.
fn push_steps_under(
    alloc: Global,
    out: &mut String,
    upper: &Name,
    lowers: &[Name],
    steps: &[i8],
) -> Result<(), NoMemory>
    requires { length steps.now ≡ length lowers.now }
    ensures { Adds result out.old out.new (flat_map step_words (zip (map (λ lower. (upper.now, lower)) lowers.now) steps.now)) }
{
    for i in 0..lowers.len() {
        push_step(alloc, out, upper, &lowers[i], steps[i])?;
    }
    Ok(())
}

fn push_step(
    alloc: Global,
    out: &mut String,
    upper: &Name,
    lower: &Name,
    step: i8,
) -> Result<(), NoMemory>
    ensures { Adds result out.old out.new (step_words ((upper.now, lower.now), step)) }
{
    if step == 0 {
        return Ok(());
    }
    out.push_str(" ")?;
    push_two_names(out, upper, lower)?;
    out.push_str(" ")?;
    push_signed(alloc, out, i128::from(step))
}
