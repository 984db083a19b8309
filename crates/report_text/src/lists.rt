//! Texts of lists.
ghost use Rattle.std.specs.Prelude.{◌≡◌, ◌++◌, ◌∷◌, [], codes, map};
ghost use Rattle.report_text.specs.Lines.{Adds, lines_text, counted};
ghost use Rattle.report_text.specs.Names.{two_names};
ghost use Rattle.report_text.specs.Lists.{dominances_lines, pair_line, group_line, placed_line, groups_lines, pivots_words, stats_line};

use crate::NoMemory;
use crate::words::{
    push_count, push_heading, push_newline, push_number, push_quoted, push_two_names,
};
use model_core::{Name, Text};
use std::alloc::Global;

/// Pairs of options.
pub(crate) fn push_dominances(
    alloc: Global,
    out: &mut String,
    pairs: &[(Name, Name)],
) -> Result<(), NoMemory>
    ensures { Adds result out.old out.new (lines_text (dominances_lines pairs.now)) }
{
    push_heading(alloc, out, "dominances", pairs.len())?;
    push_pairs(out, pairs)
}

fn push_pairs(out: &mut String, pairs: &[(Name, Name)]) -> Result<(), NoMemory>
    ensures { Adds result out.old out.new (lines_text (map pair_line pairs.now)) }
{
    for (upper, lower) in pairs {
        push_two_names(out, upper, lower)?;
        push_newline(out)?;
    }
    Ok(())
}

/// A heading with the number of the lines, and the lines.
pub(crate) fn push_counted(
    alloc: Global,
    out: &mut String,
    heading: &str,
    lines: &[Text],
) -> Result<(), NoMemory>
    ensures { Adds result out.old out.new (lines_text (counted heading.now lines.now)) }
{
    push_heading(alloc, out, heading, lines.len())?;
    push_lines(out, lines)
}

fn push_lines(out: &mut String, lines: &[Text]) -> Result<(), NoMemory>
    ensures { Adds result out.old out.new (lines_text lines.now) }
{
    for line in lines {
        out.push_str(line.as_str())?;
        push_newline(out)?;
    }
    Ok(())
}

/// The groups, and the criteria placed in one.
pub(crate) fn push_groups(
    alloc: Global,
    out: &mut String,
    groups: &[(Name, Option<Name>)],
    placed: &[(Name, Name)],
) -> Result<(), NoMemory>
    ensures { Adds result out.old out.new (lines_text (groups_lines groups.now placed.now)) }
{
    push_heading(alloc, out, "groups", groups.len())?;
    push_group_lines(out, groups)?;
    push_placed_lines(out, placed)
}

fn push_group_lines(out: &mut String, groups: &[(Name, Option<Name>)]) -> Result<(), NoMemory>
    ensures { Adds result out.old out.new (lines_text (map group_line groups.now)) }
{
    for group in groups {
        push_group(out, &group.0, &group.1)?;
        push_newline(out)?;
    }
    Ok(())
}

fn push_group(out: &mut String, name: &Name, above: &Option<Name>) -> Result<(), NoMemory>
    ensures { Adds result out.old out.new (group_line (name.now, above.now)) }
{
    push_quoted(out, name)?;
    match above {
        None => Ok(()),
        Some(above) => {
            out.push_str(" under ")?;
            push_quoted(out, above)
        }
    }
}

fn push_placed_lines(out: &mut String, placed: &[(Name, Name)]) -> Result<(), NoMemory>
    ensures { Adds result out.old out.new (lines_text (map placed_line placed.now)) }
{
    for (criterion, group) in placed {
        push_placed(out, criterion, group)?;
    }
    Ok(())
}

fn push_placed(out: &mut String, criterion: &Name, group: &Name) -> Result<(), NoMemory>
    ensures { Adds result out.old out.new (lines_text (placed_line (criterion.now, group.now) ∷ [])) }
{
    out.push_str("criterion ")?;
    push_quoted(out, criterion)?;
    out.push_str(" in ")?;
    push_quoted(out, group)?;
    push_newline(out)
}

/// The pivots made, and the results kept.
pub(crate) fn push_stats(
    alloc: Global,
    out: &mut String,
    pivots: u64,
    kept: usize,
) -> Result<(), NoMemory>
    ensures { Adds result out.old out.new (lines_text (stats_line pivots kept ∷ [])) }
{
    push_pivots(alloc, out, pivots)?;
    push_count(alloc, out, kept)
}

fn push_pivots(alloc: Global, out: &mut String, pivots: u64) -> Result<(), NoMemory>
    ensures { Adds result out.old out.new (pivots_words pivots) }
{
    out.push_str("stats pivots ")?;
    push_number(alloc, out, pivots)?;
    out.push_str(" kept")
}
