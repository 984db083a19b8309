//! Whether entries that name rows by their tags refute a matrix, worked from the tags and the judgements alone.

ghost use Rattle.std.specs.Prelude.{◌≡◌, ◌↔◌, ◌≤◌, ◌<◌, IsTrue, IfOk, map, length};
ghost use Rattle.judgement_matrix.specs.Matrix.{IsPair, range_at};
ghost use Rattle.cert_check.specs.Places.{rank as rank_of};
ghost use Rattle.cert_check.specs.Refuting.{TellsWhetherFarkas, TellsWhetherRefuted, IsRowOf, IsRowInOrder, AreRowsInOrder, numbered as numbered_from, placed_on};

use crate::check::check_farkas;
use crate::places::{placed, rank};
use crate::verdict::Verdict;
use frac128::problem::{Cert, Problem};
use frac128::{List, NoMemory, TooWide};
use judgement_matrix::{Matrix, Range, Tag};
use lp_macbeth::{judged_tags, problem_of_tags};
use std::alloc::Global;

/// Whether the entries, each at the position of its tag among the rows of `lp_macbeth::problem(matrix)`, are a Farkas certificate of
/// that problem. It is not made: only the rows of the entries are. It refuses as `check_farkas` does on that problem.
pub fn refutes(
    alloc: Global,
    matrix: &Matrix,
    entries: &[(Tag, i128)],
) -> Result<Result<bool, TooWide>, NoMemory>
    requires { 2 ≤ matrix.now.size }
    ensures { IfOk result (TellsWhetherRefuted matrix.now entries.now) }
{
    // For the prover alone: a read of the size tells what every matrix keeps.
    matrix.size();
    if !are_rows_in_order(matrix, entries) {
        return Ok(Ok(false));
    }
    let tags = tags_of(alloc, entries)?;
    let problem = problem_of_tags(alloc, matrix, tags.as_slice())?;
    let cert = Cert {
        den: 1,
        on: numbered(alloc, entries)?,
    };
    Ok(is_farkas(&problem, &cert))
}

// Whether the certificate is a Farkas certificate.
fn is_farkas(problem: &Problem, cert: &Cert) -> Result<bool, TooWide>
    ensures { TellsWhetherFarkas problem.now cert.now result }
{
    match check_farkas(problem, cert)? {
        Verdict::Holds => Ok(true),
        Verdict::Fails(_) => Ok(false),
    }
}

// Whether each entry names a row, none before that of the entry before.
fn are_rows_in_order(matrix: &Matrix, entries: &[(Tag, i128)]) -> bool
    ensures { IsTrue result ↔ AreRowsInOrder matrix.now entries.now }
{
    for i in 0..entries.len() {
        if !is_row_in_order(matrix, entries, i) {
            return false;
        }
    }
    true
}

// Whether the entry at `i` does.
fn is_row_in_order(matrix: &Matrix, entries: &[(Tag, i128)], i: usize) -> bool
    requires { i < length entries.now }
    ensures { IsTrue result ↔ IsRowInOrder matrix.now entries.now i }
{
    is_row(matrix, entries[i].0) && (i == 0 || is_before(entries[i - 1].0, entries[i].0))
}

// Whether a row of the first tag stands before one of the second.
fn is_before(first: Tag, second: Tag) -> bool
    ensures { IsTrue result ↔ rank_of first < rank_of second }
{
    rank(first) < rank(second)
}

// Whether the judgements give the row of the tag.
fn is_row(matrix: &Matrix, tag: Tag) -> bool
    ensures { IsTrue result ↔ IsRowOf matrix.now tag }
{
    match tag {
        Tag::Lower(p, q) => is_lower(matrix, p, q),
        Tag::Zero(p, q) => is_zero(matrix, p, q),
        Tag::Cross(p, q, x, y) => is_cross(matrix, (p, q), (x, y)),
        Tag::Order(_) => false,
    }
}

// Whether the elements are a pair whose range begins at 1 or above.
fn is_lower(matrix: &Matrix, p: u8, q: u8) -> bool
    ensures { IsTrue result ↔ (IsPair matrix.now.size p q × (1 ≤ (range_at matrix.now p q).lo)) }
{
    is_pair(matrix, p, q) && range(matrix, p, q).lo >= 1
}

// Whether they are a pair whose range is 0 alone.
fn is_zero(matrix: &Matrix, p: u8, q: u8) -> bool
    ensures { IsTrue result ↔ (IsPair matrix.now.size p q × ((range_at matrix.now p q).hi ≡ 0)) }
{
    is_pair(matrix, p, q) && range(matrix, p, q).hi == 0
}

// Whether they are two pairs, the range of the second wholly below that of the first.
fn is_cross(matrix: &Matrix, left: (u8, u8), right: (u8, u8)) -> bool
    ensures { IsTrue result ↔ (IsPair matrix.now.size left.0 left.1
        × IsPair matrix.now.size right.0 right.1
        × ((range_at matrix.now right.0 right.1).hi < (range_at matrix.now left.0 left.1).lo)) }
{
    is_pair(matrix, left.0, left.1)
        && is_pair(matrix, right.0, right.1)
        && range(matrix, right.0, right.1).hi < range(matrix, left.0, left.1).lo
}

// Whether they are a pair of elements, the upper one first.
fn is_pair(matrix: &Matrix, p: u8, q: u8) -> bool
    ensures { IsTrue result ↔ IsPair matrix.now.size p q }
{
    1 <= p && p < q && usize::from(q) <= matrix.size()
}

// The range of a pair.
fn range(matrix: &Matrix, p: u8, q: u8) -> Range
    requires { IsPair matrix.now.size p q }
    ensures { result ≡ range_at matrix.now p q }
{
    matrix.get(usize::from(p), usize::from(q)).0
}

// The tags of the entries.
fn tags_of(alloc: Global, entries: &[(Tag, i128)]) -> Result<Vec<Tag>, NoMemory>
    ensures { IfOk result (λ tags. tags.items ≡ map (λ entry. entry.0) entries.now) }
{
    let mut tags = Vec::new(alloc);
    for entry in entries {
        tags.push(entry.0)?;
    }
    Ok(tags)
}

// The entries by their own numbers, from 0 on.
fn numbered(alloc: Global, entries: &[(Tag, i128)]) -> Result<List<(usize, i128)>, NoMemory>
    ensures { IfOk result (λ on. on ≡ numbered_from 0 entries.now) }
{
    let mut on = Vec::new(alloc);
    for i in 0..entries.len() {
        on.push((i, entries[i].1))?;
    }
    Ok(List::make(on))
}

/// The entries by the positions of their tags among the rows of `lp_macbeth::problem(matrix)`, over 1. A tag that is no row stands past
/// the last one.
pub fn cert_of_tags(
    alloc: Global,
    matrix: &Matrix,
    entries: &[(Tag, i128)],
) -> Result<Cert, NoMemory>
    ensures { IfOk result (λ cert. cert ≡ placed_on matrix.now entries.now) }
{
    // For the prover alone: a read of the size tells what every matrix keeps.
    matrix.size();
    let tags = judged_tags(alloc, matrix)?;
    Ok(Cert {
        den: 1,
        on: placed(alloc, tags.as_slice(), entries)?,
    })
}
