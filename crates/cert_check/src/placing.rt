//! Certificates by tags and by positions of rows.

ghost use Rattle.std.specs.Prelude.{◌≡◌, ◌↔◌, ◌≤◌, pos, IsTrue, map, IfOk, MatchOption, Contains, slice_get, Some};
ghost use Rattle.lp_macbeth.specs.Rows.{judged_rows};
ghost use Rattle.cert_check.specs.Rows.{IsNamed, IsPlaced, AreRows, HasRows};
ghost use Rattle.cert_check.specs.Text.{IsPrintable};
ghost use Rattle.cert_check.specs.declared.text.Claim.TheVariants.{Nothing};

use crate::text::{CertText, Claim};
use frac128::problem::Cert;
use frac128::{List, NoMemory};
use judgement_matrix::{Matrix, Tag};
use lp_macbeth::{judged_tags, tags_at};
use std::alloc::Global;

/// A certificate of the problem of a matrix, as far as it names rows of it.
#[derive(Debug, Drop)]
pub enum Placed {
    /// Each tag is that of a row.
    Cert(Cert),
    /// The entry of this number, from 1 on, is the first whose tag is no row.
    NoRow(usize),
}

/// The certificate by the positions of its rows in `lp_macbeth::problem(matrix)`, or the first entry whose tag is no row of
/// it. `name_rows` takes what is placed.
pub fn place(alloc: Global, matrix: &Matrix, text: &CertText) -> Result<Placed, NoMemory>
    requires { 2 ≤ matrix.now.size }
    ensures placed { IfOk result (IsPlaced matrix.now text.now) }
    ensures rows { IfOk result (HasRows matrix.now) }
{
    let tags = judged_tags(alloc, matrix)?;
    let entries = text.on.as_slice();
    let mut on = Vec::new(alloc);
    for i in 0..entries.len() {
        let Some(entry) = placed_entry(tags.as_slice(), &entries[i]) else {
            return Ok(Placed::NoRow(i + 1));
        };
        on.push(entry)?;
    }
    Ok(Placed::Cert(Cert {
        den: text.den,
        on: List::make(on),
    }))
}

/// The certificate by the tags of its rows, with what it claims. It has a text, unless it claims that no point meets the problem
/// over another denominator than 1.
pub fn name_rows(
    alloc: Global,
    matrix: &Matrix,
    claim: Claim,
    cert: &Cert,
) -> Result<CertText, NoMemory>
    requires size { 2 ≤ matrix.now.size }
    requires rows { AreRows matrix.now cert.now.on }
    ensures named { IfOk result (λ text. IsNamed matrix.now text cert.now) }
    ensures claim { IfOk result (λ text. text.claim ≡ claim) }
    ensures printable { (claim ≡ Nothing → cert.now.den ≡ pos 1) → IfOk result IsPrintable }
{
    let entries = cert.on.as_slice();
    let tags = tags_of(alloc, matrix, entries)?;
    let mut on = Vec::new(alloc);
    for i in 0..entries.len() {
        on.push(named_entry(tags[i], &entries[i]))?;
    }
    Ok(CertText {
        claim,
        den: cert.den,
        on: List::make(on),
    })
}

// The tag of each entry's row.
fn tags_of(alloc: Global, matrix: &Matrix, entries: &[(usize, i128)]) -> Result<Vec<Tag>, NoMemory>
    requires { AreRows matrix.now entries.now }
    ensures { IfOk result (λ tags. map Some tags.items
        ≡ map (λ e. slice_get (judged_rows matrix.now) e.0) entries.now) }
{
    let mut positions = Vec::new(alloc);
    for entry in entries {
        positions.push(entry.0)?;
    }
    tags_at(alloc, matrix, positions.as_slice())
}

// The entry with the tag of its row.
fn named_entry(tag: Tag, entry: &(usize, i128)) -> (Tag, i128)
    ensures tag { result.0 ≡ tag }
    ensures multiplier { result.1 ≡ entry.now.1 }
{
    (tag, entry.1)
}

// The entry with the position of its row, where its tag is that of one.
fn placed_entry(tags: &[Tag], entry: &(Tag, i128)) -> Option<(usize, i128)>
    ensures { MatchOption result (¬ Contains tags.now entry.now.0)
        (λ e. (slice_get tags.now e.0 ≡ Some entry.now.0) × (e.1 ≡ entry.now.1)) }
{
    let row = position_of(tags, entry.0)?;
    Some((row, entry.1))
}

// Where the tag stands first.
fn position_of(tags: &[Tag], tag: Tag) -> Option<usize>
    ensures { MatchOption result (¬ Contains tags.now tag)
        (λ place. slice_get tags.now place ≡ Some tag) }
{
    for i in 0..tags.len() {
        if is_same_tag(tags[i], tag) {
            return Some(i);
        }
    }
    None
}

// Whether the tags are the same.
fn is_same_tag(first: Tag, second: Tag) -> bool
    ensures { IsTrue result ↔ first ≡ second }
{
    first == second
}
