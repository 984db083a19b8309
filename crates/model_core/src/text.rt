//! Texts without a newline, and pointers into JSON values.
ghost use Rattle.std.specs.Prelude.{◌≡◌, Some, None, IfOk, IsTrue, if◌then◌else◌, ◌==◌, not};
ghost use Rattle.std.specs.List.{list_all};
ghost use Rattle.model_core.specs.Names.{is_text};

use crate::name::{NoMemory, text_of};
use std::alloc::Global;
use std::marker::Model;

/// A text of UTF-8 without a newline, of whatever length, seen as its bytes.
#[derive(Debug, Drop)]
pub struct Text {
    text: String,
}

impl Model for Text {
    ghost use Rattle.std.specs.Prelude.{List, ℕ, IsTrue};
    ghost use Rattle.std.specs.String.{string_bytes};
    ghost use Rattle.model_core.specs.Names.{is_text};

    ghost Value = { List ℕ };

    ghost view = { λ text. string_bytes text.text };

    ghost invariant = { λ text. IsTrue (is_text (string_bytes text.text)) };
}

fn has_no_newline(bytes: &[u8]) -> bool
    ensures { result ≡ list_all (λ byte. not (byte == 10)) bytes.now }
{
    bytes.iter().all(|byte| *byte != b'\n')
}

impl Text {
    /// The text with these bytes, where they are one.
    pub fn check(alloc: Global, bytes: &[u8]) -> Result<Option<Text>, NoMemory>
        ensures { IfOk result (λ text. text ≡ (if is_text bytes.now then Some bytes.now else None)) }
    {
        let Some(text) = text_of(bytes) else {
            return Ok(None);
        };
        if !has_no_newline(bytes) {
            return Ok(None);
        }
        Ok(Some(Text {
            text: String::from_str(alloc, text)?,
        }))
    }

    /// Its bytes.
    pub fn as_bytes(&self) -> &[u8]
        ensures value { result.now ≡ self.now }
        ensures text { IsTrue (is_text self.now) }
    {
        self.text.as_bytes()
    }

    /// Its text.
    pub fn as_str(&self) -> &str
        ensures { result.now ≡ self.now }
    {
        self.text.as_str()
    }
}

/// A place in a JSON value, seen as the bytes of its JSON pointer.
#[derive(Debug, Drop)]
pub struct Pointer {
    text: String,
}

impl Model for Pointer {
    ghost use Rattle.std.specs.Prelude.{List, ℕ};
    ghost use Rattle.std.specs.String.{string_bytes};

    ghost Value = { List ℕ };

    ghost view = { λ pointer. string_bytes pointer.text };
}

impl Pointer {
    /// The pointer with this text.
    pub fn of(alloc: Global, text: &str) -> Result<Pointer, NoMemory>
        ensures { IfOk result (λ pointer. pointer ≡ text.now) }
    {
        Ok(Pointer {
            text: String::from_str(alloc, text)?,
        })
    }

    /// Its text.
    pub fn as_str(&self) -> &str
        ensures { result.now ≡ self.now }
    {
        self.text.as_str()
    }
}
