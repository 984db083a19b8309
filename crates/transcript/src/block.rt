// The lines of a block.
ghost use Rattle.std.specs.Prelude.{◌≡◌, ◌≤◌, None, IfOk, OnOk, codes, max, vec_len, vec_capacity, if◌then◌else◌};
ghost use Rattle.transcript.specs.declared.block.TheConstants.{BLOCK_LIMIT};
ghost use Rattle.std.specs.Str.{bytes_eq};
ghost use Rattle.line_io.specs.Outside.{change_of};
ghost use Rattle.line_io.specs.declared.lines.TheConstants.{INPUT_LIMIT};
ghost use Rattle.transcript.specs.Block.{ReadsBlock, CopiesLine};
ghost use Rattle.transcript.specs.declared.entry.Kind.TheVariants as kind;

use crate::NoMemory;
use crate::entry::Kind;
use crate::piece::{EntryFault, Piece, take_line};
use line_io::{Lines, Source};

/// The most bytes that a block may have: its lines, each with one newline and without a carriage
/// return before that.
pub const BLOCK_LIMIT: usize = 1_048_576;

/// Reads the lines of a block up to its `end`, and copies those between while they fit.
pub(crate) fn read_block<S: Source>(
    lines: &mut Lines,
    block: &mut Vec<u8>,
    line: &mut Vec<u8>,
    source: &mut S,
) -> Result<Kind, EntryFault>
    requires no_fault { lines.old.fault ≡ None }
    requires within { lines.old.taken ≤ INPUT_LIMIT }
    ensures { ReadsBlock lines.old lines.new (change_of S.left S.faults source.old source.new)
        block.new.items result }
{
    block.clear();
    let mut fits = true;
    'lines: loop {
        match take_line(lines, line, source) {
            Err(fault) => return Err(fault),
            Ok(Piece::End) => return Ok(Kind::Cut),
            Ok(Piece::TooLong) => fits = false,
            Ok(Piece::Line) => {
                if is_end(line) {
                    return Ok(kind_of(fits));
                }
                match copy_line(block, line, fits) {
                    Err(_) => return Err(EntryFault::Memory),
                    Ok(kept) => fits = kept,
                }
            }
        }
    }
}

fn is_end(line: &[u8]) -> bool
    ensures { result ≡ bytes_eq line.now (codes "end") }
{
    line == b"end".as_slice()
}

fn kind_of(fits: bool) -> Kind
    ensures { result ≡ (if fits then kind.Whole else kind.Large) }
{
    if fits { Kind::Whole } else { Kind::Large }
}

/// Copies a line behind those of a block, unless that has too many bytes then.
fn copy_line(block: &mut Vec<u8>, line: &[u8], fits: bool) -> Result<bool, NoMemory>
    ensures { IfOk result (λ kept. CopiesLine fits block.old.items line.now block.new.items kept) }
{
    if !fits || line.len() >= BLOCK_LIMIT || block.len() > BLOCK_LIMIT - 1 - line.len() {
        return Ok(false);
    }
    make_room(block, block.len() + line.len() + 1)?;
    block.extend_from_slice(line)?;
    block.push(b'\n')?;
    Ok(true)
}

/// Makes room for so many bytes in all: where it must grow twice as much as there was, and never more
/// than the limit.
fn make_room(block: &mut Vec<u8>, needed: usize) -> Result<(), NoMemory>
    requires longer { vec_len block.old ≤ needed }
    requires within { needed ≤ BLOCK_LIMIT }
    ensures items { block.new.items ≡ block.old.items }
    ensures capacity { vec_capacity block.new ≤ max (vec_capacity block.old) BLOCK_LIMIT }
    ensures room { OnOk result (needed ≤ vec_capacity block.new) }
{
    if needed <= block.capacity() {
        return Ok(());
    }
    let room = block
        .capacity()
        .saturating_mul(2)
        .max(needed)
        .min(BLOCK_LIMIT);
    block.reserve_exact(room - block.len())
}
