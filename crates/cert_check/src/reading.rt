//! Certificates read from their text.

ghost use Rattle.std.specs.Prelude.{◌≡◌, ◌∷◌, IfOk, MatchResult};
ghost use Rattle.cert_check.specs.Reading.{words, Found, IsPrintedHead, IsPrintedEntry, IsPrintedCount, IsPrintedPair, IsPrintedCross, AreEntries, IsEntriesFault};
ghost use Rattle.cert_check.specs.Text.{IsPrintable, IsTextOf, IsFault};
ghost use Rattle.cert_check.specs.declared.text.TheConstants.{LEAST, NOTHING};

use crate::numbers::{read_positions, read_value, read_whole};
use crate::text::{
    CROSS, CertFault, CertText, Claim, DEN, Head, LEAST, LOWER, NOTHING, ROWS, ZERO,
};
use crate::words::{cut, first_word, five_words, is_same, three_words, two_words};
use frac128::{List, NoMemory, Number};
use judgement_matrix::Tag;
use std::alloc::Global;

/// The certificate whose text the bytes are, else the first line that doesn't fit, is missing or is one too many.
/// What it reads prints back as the same bytes.
pub fn read_cert(alloc: Global, bytes: &[u8]) -> Result<CertText, CertFault>
    ensures text { MatchResult result (λ cert. IsTextOf bytes.now cert)
        (λ fault. IsFault bytes.now fault) }
    ensures printable { IfOk result IsPrintable }
{
    cert_in(alloc, bytes)
}

// The same without what printing needs.
fn cert_in(alloc: Global, bytes: &[u8]) -> Result<CertText, CertFault>
    ensures { MatchResult result (λ cert. IsTextOf bytes.now cert)
        (λ fault. IsFault bytes.now fault) }
{
    let Some((line, rest)) = cut(bytes, b'\n') else {
        return Err(CertFault::Bad(1));
    };
    let Some(head) = read_head(alloc, line)? else {
        return Err(CertFault::Bad(1));
    };
    match read_entries(alloc, rest, head.count) {
        Ok(on) => Ok(cert_of(&head, on)),
        Err(fault) => Err(fault),
    }
}

// The certificate of a first line and its entries.
fn cert_of(head: &Head, on: Vec<(Tag, i128)>) -> CertText
    ensures claim { result.claim ≡ head.now.claim }
    ensures den { result.den ≡ head.now.den }
    ensures on { result.on ≡ on.items }
{
    CertText {
        claim: head.claim,
        den: head.den.get(),
        on: List::make(on),
    }
}

// So many entries, a line for each, and nothing after them.
fn read_entries(alloc: Global, text: &[u8], count: u128) -> Result<Vec<(Tag, i128)>, CertFault>
    ensures { MatchResult result (λ on. AreEntries text.now count on.items)
        (λ fault. IsEntriesFault text.now count fault) }
{
    let mut on = Vec::new(alloc);
    let mut rest = text;
    while (on.len() as u128) < count {
        let Some((line, after)) = cut(rest, b'\n') else {
            return Err(CertFault::Bad(on.len() + 2));
        };
        let Some(entry) = read_entry(alloc, line)? else {
            return Err(CertFault::Bad(on.len() + 2));
        };
        if on.push(entry).is_err() {
            return Err(CertFault::NoMemory);
        }
        rest = after;
    }
    if rest.is_empty() {
        Ok(on)
    } else {
        Err(CertFault::Bad(on.len() + 2))
    }
}

// The first line that is printed so.
fn read_head(alloc: Global, line: &[u8]) -> Result<Option<Head>, NoMemory>
    ensures { IfOk result (Found (IsPrintedHead (words line.now))) }
{
    let Some((kind, rest)) = first_word(line) else {
        return Ok(None);
    };
    if is_same(kind, LEAST.as_bytes()) {
        return read_least(alloc, rest);
    }
    if is_same(kind, NOTHING.as_bytes()) {
        return read_nothing(alloc, rest);
    }
    Ok(None)
}

// The rest of the first line of a least cost.
fn read_least(alloc: Global, text: &[u8]) -> Result<Option<Head>, NoMemory>
    ensures { IfOk result (Found (IsPrintedHead (LEAST.now ∷ words text.now))) }
{
    let Some((value, den_word, den, rows_word, count)) = five_words(text) else {
        return Ok(None);
    };
    if !is_same(den_word, DEN.as_bytes()) {
        return Ok(None);
    }
    if !is_same(rows_word, ROWS.as_bytes()) {
        return Ok(None);
    }
    let Some(value) = read_value(alloc, value)? else {
        return Ok(None);
    };
    let Some(den) = read_whole(alloc, den)? else {
        return Ok(None);
    };
    let Some(count) = read_count(alloc, count)? else {
        return Ok(None);
    };
    Ok(Some(Head {
        claim: Claim::Least(value),
        den: Number::known(den),
        count,
    }))
}

// The rest of the first line of a refutation.
fn read_nothing(alloc: Global, text: &[u8]) -> Result<Option<Head>, NoMemory>
    ensures { IfOk result (Found (IsPrintedHead (NOTHING.now ∷ words text.now))) }
{
    let Some((rows_word, count)) = two_words(text) else {
        return Ok(None);
    };
    if !is_same(rows_word, ROWS.as_bytes()) {
        return Ok(None);
    }
    let Some(count) = read_count(alloc, count)? else {
        return Ok(None);
    };
    Ok(Some(Head {
        claim: Claim::Nothing,
        den: Number::ONE,
        count,
    }))
}

// The number of entries that is printed so.
fn read_count(alloc: Global, word: &[u8]) -> Result<Option<u128>, NoMemory>
    ensures { IfOk result (Found (IsPrintedCount word.now)) }
{
    let Some(count) = read_whole(alloc, word)? else {
        return Ok(None);
    };
    if count < 0 {
        return Ok(None);
    }
    Ok(Some(count as u128))
}

// The entry that is printed so.
fn read_entry(alloc: Global, line: &[u8]) -> Result<Option<(Tag, i128)>, NoMemory>
    ensures { IfOk result (Found (IsPrintedEntry (words line.now))) }
{
    let Some((kind, rest)) = first_word(line) else {
        return Ok(None);
    };
    if is_same(kind, LOWER.as_bytes()) {
        let Some(((p, q), multiplier)) = read_pair(alloc, rest)? else {
            return Ok(None);
        };
        return Ok(Some((Tag::Lower(p, q), multiplier)));
    }
    if is_same(kind, ZERO.as_bytes()) {
        let Some(((p, q), multiplier)) = read_pair(alloc, rest)? else {
            return Ok(None);
        };
        return Ok(Some((Tag::Zero(p, q), multiplier)));
    }
    if is_same(kind, CROSS.as_bytes()) {
        let Some((((p, q), (x, y)), multiplier)) = read_cross(alloc, rest)? else {
            return Ok(None);
        };
        return Ok(Some((Tag::Cross(p, q, x, y), multiplier)));
    }
    Ok(None)
}

// The positions of a pair and a multiplier that are printed so.
fn read_pair(alloc: Global, text: &[u8]) -> Result<Option<((u8, u8), i128)>, NoMemory>
    ensures { IfOk result (Found (IsPrintedPair (words text.now))) }
{
    let Some((p, q, multiplier)) = three_words(text) else {
        return Ok(None);
    };
    let Some(pair) = read_positions(alloc, p, q)? else {
        return Ok(None);
    };
    let Some(multiplier) = read_whole(alloc, multiplier)? else {
        return Ok(None);
    };
    Ok(Some((pair, multiplier)))
}

// The positions of two pairs and a multiplier that are printed so.
fn read_cross(alloc: Global, text: &[u8]) -> Result<Option<(((u8, u8), (u8, u8)), i128)>, NoMemory>
    ensures { IfOk result (Found (IsPrintedCross (words text.now))) }
{
    let Some((p, q, x, y, multiplier)) = five_words(text) else {
        return Ok(None);
    };
    let Some(left) = read_positions(alloc, p, q)? else {
        return Ok(None);
    };
    let Some(right) = read_positions(alloc, x, y)? else {
        return Ok(None);
    };
    let Some(multiplier) = read_whole(alloc, multiplier)? else {
        return Ok(None);
    };
    Ok(Some(((left, right), multiplier)))
}
