//! Lines as commands.
ghost use Rattle.std.specs.Prelude.{◌≡◌, IfOk};
ghost use Rattle.std.specs.Str.{is_utf8};
ghost use Rattle.command_read.specs.Blocks.{held_of};
ghost use Rattle.command_read.specs.Refusals.{Gives};
ghost use Rattle.command_read.specs.Reading.{is_comment, command_at, command_in, command_of, is_block_word, has_block_word, takes_block};

use crate::block::Block;
use crate::command::{Command, Parsed};
use crate::refusal::{Fault, Refusal};
use crate::verb::verb_of;
use crate::word::split_word;
use crate::{NoMemory, form};
use std::alloc::{AllocError, Global};

/// What a line asks for, with the block behind it: its command, or nothing, or a refusal from 2 to 7. A line that takes a
/// block and has none is read as with an empty one; a block behind another line isn't looked at.
pub fn read_command(alloc: Global, line: &[u8], block: Block<'_>) -> Result<Parsed, NoMemory>
    ensures { IfOk result (λ parsed. parsed ≡ command_of line.now (held_of block.entry)) }
{
    if is_comment(line) {
        return Ok(Parsed::Nothing);
    }
    let Some((word, rest)) = split_word(line) else {
        return Ok(Parsed::Nothing);
    };
    match command_in(alloc, line, word, rest, block) {
        Ok(command) => Ok(Parsed::Do(command)),
        Err(Fault::Refused(refusal)) => Ok(Parsed::Refused(refusal.number())),
        Err(Fault::NoMemory) => Err(AllocError),
    }
}

/// Whether a block follows the line: it is UTF-8, and its first word is `load`, `import` or `verify`. It takes no memory.
pub fn takes_block(line: &[u8]) -> bool
    ensures { result ≡ takes_block line.now }
{
    is_utf8(line) && has_block_word(line)
}

fn has_block_word(line: &[u8]) -> bool
    ensures { result ≡ has_block_word line.now }
{
    match split_word(line) {
        Some((word, _)) => is_block_word(word),
        None => false,
    }
}

fn is_block_word(word: &[u8]) -> bool
    ensures { result ≡ is_block_word word.now }
{
    word == b"load".as_slice() || word == b"import".as_slice() || word == b"verify".as_slice()
}

fn is_comment(line: &[u8]) -> bool
    ensures { result ≡ is_comment line.now }
{
    match line {
        [byte, ..] => *byte == b'#',
        [] => false,
    }
}

/// The command of a line that is no comment, by its first word and what follows it.
fn command_in(
    alloc: Global,
    line: &[u8],
    word: &[u8],
    rest: &[u8],
    block: Block<'_>,
) -> Result<Command, Fault>
    ensures { Gives result (command_in line.now word.now rest.now (held_of block.entry)) }
{
    if !is_utf8(line) {
        return Err(Fault::Refused(Refusal::NotUtf8));
    }
    match verb_of(word) {
        Some(verb) => form::command(alloc, verb, rest, block),
        None => Err(Fault::Refused(Refusal::UnknownCommand)),
    }
}

fn is_utf8(bytes: &[u8]) -> bool
    ensures { result ≡ is_utf8 bytes.now }
{
    match str::from_utf8(bytes) {
        Ok(_) => true,
        Err(_) => false,
    }
}
