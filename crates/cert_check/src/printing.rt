//! Certificates written as text.

ghost use Rattle.std.specs.Prelude.{◌≡◌, ◌++◌, ◌∷◌, [], IfOk, OnOk, MatchResult, length, string_bytes};
ghost use Rattle.std.specs.Fmt.{decimal};
ghost use Rattle.cert_check.specs.Printing.{spaced};
ghost use Rattle.cert_check.specs.Text.{IsPrintable, IsReadable, IsTextOf, cert_text, claim_words, head_of, head_words, tag_words, entry_words, entries_text, line_of};

use crate::reading::read_cert;
use crate::text::{CROSS, CertFault, CertText, Claim, DEN, LEAST, LOWER, NOTHING, ROWS, ZERO};
use frac128::NoMemory;
use judgement_matrix::Tag;
use std::alloc::Global;

/// The text of a certificate: a line that says what it shows, and a line for each entry.
pub fn print_cert(alloc: Global, cert: &CertText) -> Result<String, NoMemory>
    requires { IsPrintable cert.now }
    ensures { IfOk result (λ text. string_bytes text ≡ cert_text cert.now) }
{
    let mut out = String::new(alloc);
    push_head(alloc, &mut out, cert)?;
    push_entries(alloc, &mut out, cert.on.as_slice())?;
    Ok(out)
}

/// What reading the printed certificate gives: the certificate itself, unless there is not enough memory.
pub fn read_printed(alloc: Global, cert: &CertText) -> Result<CertText, CertFault>
    requires { IsReadable cert.now }
    ensures { MatchResult result (λ again. again ≡ cert.now) (λ fault. fault ≡ CertFault.NoMemory) }
{
    let text = readable_text(alloc, cert)?;
    read_cert(alloc, text.as_bytes())
}

// The text of a certificate that reads back.
fn readable_text(alloc: Global, cert: &CertText) -> Result<String, NoMemory>
    requires { IsReadable cert.now }
    ensures { IfOk result (λ text. IsTextOf (string_bytes text) cert.now) }
{
    // The number of entries fits where it is read.
    let count = cert.on.as_slice().len();
    prove!(count <= usize::MAX);
    print_cert(alloc, cert)
}

// Adds the first line.
fn push_head(alloc: Global, out: &mut String, cert: &CertText) -> Result<(), NoMemory>
    ensures { OnOk result
        (string_bytes out.new ≡ string_bytes out.old ++ line_of (head_words (head_of cert.now))) }
{
    let count = number_text(alloc, cert.on.as_slice())?;
    push_claim(alloc, out, cert)?;
    push_word(out, ROWS)?;
    push_last(out, count.as_str())
}

// Adds what the certificate shows, and the denominator of a least cost.
fn push_claim(alloc: Global, out: &mut String, cert: &CertText) -> Result<(), NoMemory>
    ensures { OnOk result
        (string_bytes out.new ≡ string_bytes out.old ++ spaced (claim_words cert.now.claim cert.now.den)) }
{
    match &cert.claim {
        Claim::Least(value) => {
            let value = value.print(alloc)?;
            let den = cert.den.to_string(alloc)?;
            push_word(out, LEAST)?;
            push_word(out, value.as_str())?;
            push_word(out, DEN)?;
            push_word(out, den.as_str())
        }
        Claim::Nothing => push_word(out, NOTHING),
    }
}

// Adds a line for each entry.
fn push_entries(alloc: Global, out: &mut String, on: &[(Tag, i128)]) -> Result<(), NoMemory>
    ensures { OnOk result (string_bytes out.new ≡ string_bytes out.old ++ entries_text on.now) }
{
    for entry in on {
        push_entry(alloc, out, entry)?;
    }
    Ok(())
}

// Adds the line of an entry.
fn push_entry(alloc: Global, out: &mut String, entry: &(Tag, i128)) -> Result<(), NoMemory>
    ensures { OnOk result
        (string_bytes out.new ≡ string_bytes out.old ++ line_of (entry_words entry.now)) }
{
    let digits = entry.1.to_string(alloc)?;
    push_tag(alloc, out, entry.0)?;
    push_last(out, digits.as_str())
}

// Adds a row's kind and its positions, each with a space. The order of two neighbours, which no certificate names, has none.
fn push_tag(alloc: Global, out: &mut String, tag: Tag) -> Result<(), NoMemory>
    ensures { OnOk result (string_bytes out.new ≡ string_bytes out.old ++ spaced (tag_words tag)) }
{
    match tag {
        Tag::Lower(p, q) => {
            push_word(out, LOWER)?;
            push_pair(alloc, out, p, q)
        }
        Tag::Zero(p, q) => {
            push_word(out, ZERO)?;
            push_pair(alloc, out, p, q)
        }
        Tag::Cross(p, q, x, y) => {
            push_word(out, CROSS)?;
            push_pair(alloc, out, p, q)?;
            push_pair(alloc, out, x, y)
        }
        Tag::Order(_) => Ok(()),
    }
}

// Adds the positions of a pair, each with a space.
fn push_pair(alloc: Global, out: &mut String, p: u8, q: u8) -> Result<(), NoMemory>
    ensures { OnOk result
        (string_bytes out.new ≡ string_bytes out.old ++ spaced (decimal p ∷ decimal q ∷ [])) }
{
    let upper = p.to_string(alloc)?;
    let lower = q.to_string(alloc)?;
    push_word(out, upper.as_str())?;
    push_word(out, lower.as_str())
}

// The number of entries as digits.
fn number_text(alloc: Global, on: &[(Tag, i128)]) -> Result<String, NoMemory>
    ensures { IfOk result (λ text. string_bytes text ≡ decimal (length on.now)) }
{
    on.len().to_string(alloc)
}

// Adds a word and a space.
fn push_word(out: &mut String, word: &str) -> Result<(), NoMemory>
    ensures { OnOk result (string_bytes out.new ≡ string_bytes out.old ++ (word.now ++ 32 ∷ [])) }
{
    out.push_str(word)?;
    out.push_str(" ")
}

// Adds a word and the end of the line.
fn push_last(out: &mut String, word: &str) -> Result<(), NoMemory>
    ensures { OnOk result (string_bytes out.new ≡ string_bytes out.old ++ (word.now ++ 10 ∷ [])) }
{
    out.push_str(word)?;
    out.push_str("\n")
}
