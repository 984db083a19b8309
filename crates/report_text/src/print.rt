//! The text of a reply, by its kind.
ghost use Rattle.std.specs.Prelude.{◌≡◌, IfOk, string_bytes};
ghost use Rattle.report_text.specs.Lines.{Adds};
ghost use Rattle.report_text.specs.Reply.{reply_text, IsPrintable};

use crate::NoMemory;
use crate::certificates::{push_cert, push_dominance, push_failing, push_inconsistent, push_least};
use crate::lists::{push_counted, push_dominances, push_groups, push_stats};
use crate::matrices::{push_fails, push_matrix, push_repairs, push_rows};
use crate::refusals::push_refusal;
use crate::reply::Reply;
use crate::values::{push_amounts, push_not, push_scale, push_slack, push_subtotals};
use std::alloc::Global;

/// What is written for a reply: its lines, each with a newline behind it.
pub fn text(alloc: Global, reply: &Reply) -> Result<String, NoMemory>
    requires { IsPrintable reply.now }
    ensures { IfOk result (λ text. string_bytes text ≡ reply_text reply.now) }
{
    let mut out = String::new(alloc);
    push_reply(alloc, &mut out, reply)?;
    Ok(out)
}

fn push_reply(alloc: Global, out: &mut String, reply: &Reply) -> Result<(), NoMemory>
    requires { IsPrintable reply.now }
    ensures { Adds result out.old out.new (reply_text reply.now) }
{
    match reply {
        Reply::Ok => out.push_str("ok\n"),
        Reply::Refused { number, detail } => push_refusal(alloc, out, *number, detail),
        Reply::Matrix { names, judged } => {
            push_matrix(alloc, out, names.as_slice(), judged.as_slice())
        }
        Reply::Rows { names, rows } => push_rows(alloc, out, names.as_slice(), rows.as_slice()),
        Reply::Meets => out.push_str("meets\n"),
        Reply::Fails { names, tag } => push_fails(out, names.as_slice(), *tag),
        Reply::Scale {
            names,
            values,
            cert,
        } => push_scale(alloc, out, names.as_slice(), values.as_slice(), cert),
        Reply::Inconsistent { cert } => push_inconsistent(alloc, out, cert),
        Reply::Cert { cert } => push_cert(alloc, out, cert),
        Reply::Holds => out.push_str("holds\n"),
        Reply::FailsAt { place } => push_failing(alloc, out, *place),
        Reply::Consistent => out.push_str("consistent\n"),
        Reply::Repairs {
            names,
            total,
            shifts,
        } => push_repairs(alloc, out, names.as_slice(), *total, shifts.as_slice()),
        Reply::Anchored { names, values } => {
            push_amounts(alloc, out, "anchored", names.as_slice(), values.as_slice())
        }
        Reply::Slack { low, high } => push_slack(alloc, out, *low, *high),
        Reply::Weights { names, values } => {
            push_amounts(alloc, out, "weights", names.as_slice(), values.as_slice())
        }
        Reply::Scores { names, values } => {
            push_amounts(alloc, out, "scores", names.as_slice(), values.as_slice())
        }
        Reply::Dominates { least } => push_least(alloc, out, least),
        Reply::Not {
            gap,
            scales,
            weights,
        } => push_not(alloc, out, gap, scales.as_slice(), weights.as_slice()),
        Reply::DomCert { least, parts } => push_dominance(alloc, out, least, parts.as_slice()),
        Reply::Dominances { pairs } => push_dominances(alloc, out, pairs.as_slice()),
        Reply::Csv { lines } => push_counted(alloc, out, "csv", lines.as_slice()),
        Reply::Dump { lines } => push_counted(alloc, out, "dump", lines.as_slice()),
        Reply::Stats { pivots, kept } => push_stats(alloc, out, *pivots, *kept),
        Reply::Groups { groups, placed } => {
            push_groups(alloc, out, groups.as_slice(), placed.as_slice())
        }
        Reply::Subtotals { parts, total } => { push_subtotals(alloc, out, parts.as_slice(), total) }
    }
}
