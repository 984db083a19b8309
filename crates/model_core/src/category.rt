//! Ranges of categories as text.
ghost use Rattle.std.specs.Prelude.{◌≡◌, ◌≤◌, ◌<◌, ◌==◌, Some, IfOk, IfSome, length, position};
ghost use Rattle.judgement_matrix.specs.Range.{bounds};
ghost use Rattle.std.specs.String.{string_bytes};
ghost use Rattle.model_core.specs.Categories.{category_of, range_of, joined_range, range_between, range_text, category_word};

use crate::name::NoMemory;
use judgement_matrix::Range;
use std::alloc::Global;
use word_table::categories;

/// The range that these bytes write: `positive`, a category, or two categories in order, joined by `..`. A category is its
/// number or its word. It takes no memory.
pub fn read_range(bytes: &[u8]) -> Option<Range>
    ensures { result ≡ range_of bytes.now }
{
    if bytes == b"positive".as_slice() {
        return Range::make(1, 6);
    }
    match point_in(bytes) {
        None => range_between(bytes, bytes),
        Some(point) => joined_range(&bytes[..point], &bytes[point..]),
    }
}

fn point_in(bytes: &[u8]) -> Option<usize>
    ensures place { result ≡ position (λ byte. byte == 46) bytes.now }
    ensures within { IfSome result (λ place. place < length bytes.now) }
{
    bytes.iter().position(|byte| *byte == b'.')
}

fn joined_range(lo: &[u8], rest: &[u8]) -> Option<Range>
    ensures { result ≡ joined_range lo.now rest.now }
{
    if rest.len() < 2 {
        return None;
    }
    let (joint, hi) = rest.split_at(2);
    if joint != b"..".as_slice() {
        return None;
    }
    range_between(lo, hi)
}

fn range_between(lo: &[u8], hi: &[u8]) -> Option<Range>
    ensures { result ≡ range_between lo.now hi.now }
{
    Range::make(read_category(lo)?, read_category(hi)?)
}

fn read_category(bytes: &[u8]) -> Option<u8>
    ensures value { result ≡ category_of bytes.now }
    ensures within { IfSome result (λ c. c ≤ 6) }
{
    if let &[digit @ b'0'..=b'6'] = bytes {
        return Some(digit - b'0');
    }
    Some(categories().find(bytes)? as u8)
}

/// The text of a range: the word of its category, or its least and its greatest, joined by `..`. It reads back as the range.
pub fn range_text(alloc: Global, range: Range) -> Result<String, NoMemory>
    ensures text { IfOk result (λ text. string_bytes text ≡ range_text range) }
    ensures again { IfOk result (λ text. range_of (string_bytes text) ≡ Some range) }
{
    let text = text_between(alloc, range.lo(), range.hi())?;
    Ok(text)
}

fn text_between(alloc: Global, lo: u8, hi: u8) -> Result<String, NoMemory>
    requires { (lo ≤ hi) × (hi ≤ 6) }
    ensures text { IfOk result (λ text. string_bytes text ≡ range_text (bounds lo hi)) }
{
    let mut text = String::from_str(alloc, category_word(lo))?;
    if lo != hi {
        text.push_str("..")?;
        text.push_str(category_word(hi))?;
    }
    Ok(text)
}

fn category_word(category: u8) -> &'static str
    requires { category ≤ 6 }
    ensures { result.now ≡ category_word category }
{
    categories().word(usize::from(category))
}
