//! Names.
ghost use Rattle.std.specs.Prelude.{◌≡◌, Some, None, IfOk, IsTrue, MatchOption, true, false, length, nat_lt, nat_le, ◌&&◌, if◌then◌else◌};
ghost use Rattle.std.specs.List.{list_all};
ghost use Rattle.std.specs.Str.{is_utf8};
ghost use Rattle.model_core.specs.Names.{is_name, is_name_byte};
ghost use Rattle.model_core.specs.State.{is_reserved};

use crate::limits::NAME_BYTES;
pub use std::alloc::AllocError as NoMemory;
use std::alloc::Global;
use std::marker::Model;

/// A valid name, seen as its bytes.
#[derive(Debug, Drop)]
pub struct Name {
    text: String,
}

impl Model for Name {
    ghost use Rattle.std.specs.Prelude.{List, ℕ, IsTrue};
    ghost use Rattle.std.specs.String.{string_bytes};
    ghost use Rattle.model_core.specs.Names.{is_name};

    ghost Value = { List ℕ };

    ghost view = { λ name. string_bytes name.text };

    ghost invariant = { λ name. IsTrue (is_name (string_bytes name.text)) };
}

/// Whether these bytes are a name: 1 to 64 bytes of UTF-8 without bytes 0 to 31, 127 and the quotation mark. It takes no
/// memory.
pub fn valid_name(bytes: &[u8]) -> bool
    ensures { result ≡ is_name bytes.now }
{
    is_utf8(bytes) && is_short(bytes) && are_name_bytes(bytes)
}

/// Whether a name stands for something else, so that no criterion may have it: `none` is the all-neutral profile and
/// `weighting` the matrix of the weighting. It takes no memory.
pub fn is_reserved(name: &[u8]) -> bool
    ensures { result ≡ is_reserved name.now }
{
    name == b"none".as_slice() || name == b"weighting".as_slice()
}

fn is_short(bytes: &[u8]) -> bool
    ensures { result ≡ (nat_lt 0 (length bytes.now) && nat_le (length bytes.now) NAME_BYTES) }
{
    !bytes.is_empty() && bytes.len() <= NAME_BYTES
}

fn are_name_bytes(bytes: &[u8]) -> bool
    ensures { result ≡ list_all is_name_byte bytes.now }
{
    bytes.iter().all(|b| is_name_byte(*b))
}

fn is_name_byte(byte: u8) -> bool
    ensures { result ≡ is_name_byte byte }
{
    byte >= 32 && byte != 127 && byte != b'"'
}

fn is_utf8(bytes: &[u8]) -> bool
    ensures { result ≡ is_utf8 bytes.now }
{
    text_of(bytes).is_some()
}

/// The text with these bytes, where they are UTF-8.
pub(crate) fn text_of(bytes: &[u8]) -> Option<&str>
    ensures { MatchOption result (is_utf8 bytes.now ≡ false) (λ text. (text.now ≡ bytes.now) × (is_utf8 bytes.now ≡ true)) }
{
    match str::from_utf8(bytes) {
        Ok(text) => Some(text),
        Err(_) => None,
    }
}

impl Name {
    /// The name with these bytes, where they are one.
    pub fn check(alloc: Global, bytes: &[u8]) -> Result<Option<Name>, NoMemory>
        ensures { IfOk result (λ name. name ≡ (if is_name bytes.now then Some bytes.now else None)) }
    {
        let Some(text) = text_of(bytes) else {
            return Ok(None);
        };
        if !is_short(bytes) || !are_name_bytes(bytes) {
            return Ok(None);
        }
        Ok(Some(Name {
            text: String::from_str(alloc, text)?,
        }))
    }

    /// Its bytes.
    pub fn as_bytes(&self) -> &[u8]
        ensures value { result.now ≡ self.now }
        ensures name { IsTrue (is_name self.now) }
    {
        self.text.as_bytes()
    }

    /// Its text.
    pub fn as_str(&self) -> &str
        ensures { result.now ≡ self.now }
    {
        self.text.as_str()
    }

    /// An equal name with memory of its own.
    pub fn copy(&self) -> Result<Name, NoMemory>
        ensures { IfOk result (λ name. name ≡ self.now) }
    {
        Ok(Name {
            text: self.text.clone()?,
        })
    }
}
