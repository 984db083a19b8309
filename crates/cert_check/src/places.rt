//! The check of a certificate's text on a matrix.

ghost use Rattle.std.specs.Prelude.{◌≡◌, ◌≤◌, ◌<◌, ℕ, IfOk, map, length, get_or};
ghost use Rattle.std.specs.List.{position_or_len};
ghost use Rattle.judgement_matrix.specs.declared.tag.Tag.TheVariants.{Lower};
ghost use Rattle.cert_check.specs.Lines.{IsVerdict};
ghost use Rattle.cert_check.specs.Places.{Rise, at_place as placed_at, at_places as placed_in, check_of, check_on, is_same_tag as same, rank as rank_of, pair_rank as pair_rank_of};

use crate::check::{check_dual, check_farkas};
use crate::text::{CertText, Claim};
use crate::verdict::Verdict;
use frac128::problem::{Cert, Problem};
use frac128::{List, NoMemory, TooWide};
use judgement_matrix::{Matrix, Tag};
use lp_macbeth::{judged_tags, problem};
use std::alloc::Global;

/// Whether the certificate of a text shows what it claims of a matrix's problem, else the first line that is false. A tag that is
/// no row stands past the last one, so its entry is false. It refuses as `check_dual` and `check_farkas` do.
pub fn check_text(
    alloc: Global,
    matrix: &Matrix,
    text: &CertText,
) -> Result<Result<Verdict, TooWide>, NoMemory>
    requires { 2 ≤ matrix.now.size }
    ensures { IfOk result (IsVerdict (check_of matrix.now text.now)) }
{
    let problem = problem(alloc, matrix)?;
    let cert = at_places(alloc, matrix, text)?;
    Ok(checked(&problem, &text.claim, &cert))
}

// The verdict by what is claimed.
fn checked(problem: &Problem, claim: &Claim, cert: &Cert) -> Result<Verdict, TooWide>
    ensures { IsVerdict (check_on problem.now claim.now cert.now) result }
{
    match claim {
        Claim::Least(value) => check_dual(problem, value, cert),
        Claim::Nothing => check_farkas(problem, cert),
    }
}

// The certificate by the positions of its rows.
fn at_places(alloc: Global, matrix: &Matrix, text: &CertText) -> Result<Cert, NoMemory>
    ensures { IfOk result (λ cert. cert ≡ placed_in matrix.now text.now) }
{
    // For the prover alone: a read of the size tells what every matrix keeps.
    matrix.size();
    let tags = judged_tags(alloc, matrix)?;
    Ok(Cert {
        den: text.den,
        on: placed(alloc, tags.as_slice(), text.on.as_slice())?,
    })
}

/// The entries by the positions of their tags among these.
pub(crate) fn placed(
    alloc: Global,
    tags: &[Tag],
    entries: &[(Tag, i128)],
) -> Result<List<(usize, i128)>, NoMemory>
    requires { Rise tags.now }
    ensures { IfOk result (λ on. on ≡ map (placed_at tags.now) entries.now) }
{
    let mut on = Vec::new(alloc);
    for entry in entries {
        on.push((place_of(tags, entry.0), entry.1))?;
    }
    Ok(List::make(on))
}

// Where a tag stands, or past the last one. Halving finds it, so that many entries in any order take little.
fn place_of(tags: &[Tag], tag: Tag) -> usize
    requires { Rise tags.now }
    ensures { result ≡ position_or_len (same tag) tags.now }
{
    let place = below(tags, rank(tag));
    if place < tags.len() && is_same_tag(tag, tags[place]) {
        return place;
    }
    tags.len()
}

// How many tags have a lower number than this: those in front.
fn below(tags: &[Tag], number: u64) -> usize
    requires { Rise tags.now }
    ensures most { result ≤ length tags.now }
    ensures below { (k : ℕ) → k < result → rank_of (get_or tags.now k (Lower 0 0)) < number }
    ensures rest { (k : ℕ) → result ≤ k → k < length tags.now
        → number ≤ rank_of (get_or tags.now k (Lower 0 0)) }
{
    let mut low = 0;
    let mut high = tags.len();
    while low < high {
        let middle = low + (high - low) / 2;
        if rank(tags[middle]) < number {
            low = middle + 1;
        } else {
            high = middle;
        }
    }
    low
}

/// A tag as a number.
pub(crate) fn rank(tag: Tag) -> u64
    ensures { result ≡ rank_of tag }
{
    match tag {
        Tag::Lower(p, q) => pair_rank(p, q),
        Tag::Zero(p, q) => 65536 + pair_rank(p, q),
        Tag::Cross(p, q, x, y) => (2 + pair_rank(p, q)) * 65536 + pair_rank(x, y),
        Tag::Order(p) => (2 + 65536) * 65536 + u64::from(p),
    }
}

// A pair as a number.
fn pair_rank(p: u8, q: u8) -> u64
    ensures value { result ≡ pair_rank_of p q }
    ensures most { result < 65536 }
{
    u64::from(p) * 256 + u64::from(q)
}

// Whether the tags are the same.
fn is_same_tag(tag: Tag, other: Tag) -> bool
    ensures { result ≡ same tag other }
{
    tag == other
}
