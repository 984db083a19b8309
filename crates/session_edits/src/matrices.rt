//! What is asked of a matrix alone.
ghost use Rattle.std.specs.Prelude.{◌≡◌, ◌≤◌, ◌++◌, All, IfOk, map};
ghost use Rattle.std.specs.List.{flat_map};
ghost use Rattle.lp_macbeth.specs.Pairs.{ArePairs};
ghost use Rattle.report_text.specs.Names.{IsTagOf};
ghost use Rattle.judgement_matrix.specs.Matrix.{IsPair};
ghost use Rattle.judgement_matrix.specs.Values.{AreValues};
ghost use Rattle.report_text.specs.Matrices.{IsJudgedOf};
ghost use Rattle.report_text.specs.Reply.{IsPrintable};
ghost use Rattle.session_state.specs.State.{matrix_of};
ghost use Rattle.session_state.specs.Taking.{IsSubject};
ghost use Rattle.model_json.specs.Writing.{judged_at, judged_pairs};
ghost use Rattle.session_edits.specs.Matrices.{matrix_reply, with_bound, row_bounds, rows_reply, TellsFit};

use crate::NoMemory;
use crate::names::names_of;
use crate::refusal::{TOO_WIDE, refused};
use frac128::problem::Row;
use frac128::{Frac, List, TooWide};
use judgement_matrix::{Fit, Matrix, Range, Tag};
use lp_macbeth::{element_pairs, rows};
use model_core::Model;
use report_text::Reply;
use session_state::Subject;
use std::alloc::Global;

/// The judged pairs of a matrix.
pub(crate) fn matrix_reply(
    alloc: Global,
    model: &Model,
    subject: Subject,
) -> Result<Reply, NoMemory>
    requires { IsSubject model.now subject }
    ensures value { IfOk result (λ r. r ≡ matrix_reply model.now subject) }
    ensures printable { IfOk result IsPrintable }
{
    let judged = judged_pairs(alloc, subject.matrix(model))?;
    let names = names_of(alloc, model, subject)?;
    Ok(Reply::Matrix { names, judged })
}

// The judged pairs, with their ranges.
fn judged_pairs(alloc: Global, matrix: &Matrix) -> Result<List<(usize, usize, Range)>, NoMemory>
    ensures value { IfOk result (λ judged. judged ≡ judged_pairs matrix.now) }
    ensures places { IfOk result (λ judged. All (IsJudgedOf matrix.now.size) judged) }
{
    let pairs = element_pairs(alloc, matrix.size() as u8)?;
    judged_of(alloc, matrix, pairs.as_slice())
}

// Those of some pairs.
fn judged_of(
    alloc: Global,
    matrix: &Matrix,
    pairs: &[(u8, u8)],
) -> Result<List<(usize, usize, Range)>, NoMemory>
    requires { ArePairs matrix.now.size pairs.now }
    ensures { IfOk result (λ judged. judged ≡ flat_map (judged_at matrix.now) pairs.now) }
{
    let mut judged = Vec::new(alloc);
    for pair in pairs {
        push_judged(&mut judged, matrix, *pair)?;
    }
    Ok(List::make(judged))
}

// Adds the pair, if it is judged.
fn push_judged(
    judged: &mut Vec<(usize, usize, Range)>,
    matrix: &Matrix,
    pair: (u8, u8),
) -> Result<(), NoMemory>
    requires { IsPair matrix.now.size pair.0 pair.1 }
    ensures { IfOk result
        (λ _. judged.new.items ≡ judged.old.items ++ judged_at matrix.now pair) }
{
    let (upper, lower) = (usize::from(pair.0), usize::from(pair.1));
    let (range, is_judged) = matrix.get(upper, lower);
    if is_judged {
        judged.push((upper, lower, range))?;
    }
    Ok(())
}

/// The rows of a matrix with their bounds.
pub(crate) fn rows_reply(alloc: Global, model: &Model, subject: Subject) -> Result<Reply, NoMemory>
    requires { IsSubject model.now subject }
    ensures value { IfOk result (λ r. r ≡ rows_reply model.now subject) }
    ensures printable { IfOk result IsPrintable }
{
    let rows = row_bounds(alloc, subject.matrix(model))?;
    let names = names_of(alloc, model, subject)?;
    Ok(Reply::Rows { names, rows })
}

// Each row with its bound.
fn row_bounds(alloc: Global, matrix: &Matrix) -> Result<List<(Tag, i128)>, NoMemory>
    requires { 2 ≤ matrix.now.size }
    ensures value { IfOk result (λ rows. rows ≡ row_bounds matrix.now) }
    ensures among { IfOk result (λ rows. All (λ row. IsTagOf matrix.now.size row.0) rows) }
{
    let rows = rows(alloc, matrix)?;
    bounds_of(alloc, rows.as_slice())
}

// The tags and the bounds of some rows.
fn bounds_of(alloc: Global, rows: &[(Tag, Row)]) -> Result<List<(Tag, i128)>, NoMemory>
    ensures { IfOk result (λ bounds. bounds ≡ map with_bound rows.now) }
{
    let mut bounds = Vec::new(alloc);
    for row in rows {
        bounds.push((row.0, row.1.bound))?;
    }
    Ok(List::make(bounds))
}

/// Whether values meet a matrix.
pub(crate) fn fit_reply(
    alloc: Global,
    model: &Model,
    subject: Subject,
    values: &[Frac],
) -> Result<Reply, NoMemory>
    requires subject { IsSubject model.now subject }
    requires values { AreValues (matrix_of model.now subject) values.now }
    ensures value { IfOk result (λ r. TellsFit model.now subject values.now r) }
    ensures printable { IfOk result IsPrintable }
{
    match subject.matrix(model).meets(values) {
        Ok(Fit::Meets) => Ok(Reply::Meets),
        Ok(Fit::Fails(tag)) => Ok(Reply::Fails {
            names: names_of(alloc, model, subject)?,
            tag,
        }),
        Err(TooWide) => Ok(refused(TOO_WIDE)),
    }
}
