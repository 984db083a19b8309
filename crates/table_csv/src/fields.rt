//! Fields of tables.
ghost use Rattle.std.specs.Prelude.{◌≡◌, IfOk, IsTrue};
ghost use Rattle.model_core.specs.Names.{is_text};
ghost use Rattle.table_csv.specs.Lines.{is_line};

use model_core::{NoMemory, Text};
use std::alloc::Global;

/// The text with these bytes.
pub(crate) fn text_of(alloc: Global, bytes: &[u8]) -> Result<Text, NoMemory>
    requires { IsTrue (is_text bytes.now) }
    ensures { IfOk result (λ text. text ≡ bytes.now) }
{
    let text = Text::check(alloc, bytes)?;
    Ok(text.unwrap())
}

/// The text with these characters, among which is no newline.
pub fn text_from(alloc: Global, line: &str) -> Result<Text, NoMemory>
    requires { IsTrue (is_line line.now) }
    ensures { IfOk result (λ text. text ≡ line.now) }
{
    text_of(alloc, line.as_bytes())
}
