// A line of the input, copied.
ghost use Rattle.std.specs.Prelude.{◌≡◌, None};
ghost use Rattle.line_io.specs.Outside.{change_of};
ghost use Rattle.transcript.specs.Line.{TakesLine};

use line_io::{Item, LineFault, Lines, Source};

/// What was taken.
#[derive(Clone, Copy)]
pub(crate) enum Piece {
    /// A line, which was copied.
    Line,
    /// A line that is too long.
    TooLong,
    /// There is no further line.
    End,
}

/// Why there is no next entry.
#[derive(Clone, Copy, Debug, PartialEq, Eq)]
pub enum EntryFault {
    /// A take failed.
    Read,
    /// All that may be taken was taken, and the end isn't reached.
    Limit,
    /// Memory ran out.
    Memory,
}

/// Takes the next line, and copies it.
pub(crate) fn take_line<S: Source>(
    lines: &mut Lines,
    into: &mut Vec<u8>,
    source: &mut S,
) -> Result<Piece, EntryFault>
    requires { lines.old.fault ≡ None }
    ensures { TakesLine lines.old lines.new (change_of S.left S.faults source.old source.new)
        into.new.items result }
{
    match lines.next(source) {
        Ok(Item::Line(line)) => {
            into.clear();
            match into.extend_from_slice(line) {
                Ok(()) => Ok(Piece::Line),
                Err(_) => Err(EntryFault::Memory),
            }
        }
        Ok(Item::TooLong(_)) => Ok(Piece::TooLong),
        Ok(Item::End) => Ok(Piece::End),
        Err(LineFault::Read) => Err(EntryFault::Read),
        Err(LineFault::Limit) => Err(EntryFault::Limit),
    }
}
