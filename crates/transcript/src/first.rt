// The first entry of what is left.
ghost use Rattle.std.specs.Prelude.{◌≡◌, None};
ghost use Rattle.line_io.specs.Outside.{change_of};
ghost use Rattle.transcript.specs.Reading.{ReadsEntry, entry_of_kind};

use crate::block::read_block;
use crate::entry::Kind;
use crate::piece::{EntryFault, Piece, take_line};
use crate::reader::Next;
use crate::service::Service;
use line_io::{Lines, Source};

/// Reads the next entry into these places: its kind, its line, its block, and a line of that.
pub(crate) fn read_entry<V: Service, S: Source>(
    lines: &mut Lines,
    kind: &mut Kind,
    line: &mut Vec<u8>,
    block: &mut Vec<u8>,
    piece: &mut Vec<u8>,
    source: &mut S,
) -> Result<Next, EntryFault>
    requires { lines.old.fault ≡ None }
    ensures { ReadsEntry V.rules.takes_block lines.old lines.new
        (change_of S.left S.faults source.old source.new)
        (entry_of_kind kind.new line.new.items block.new.items) result }
{
    match take_line(lines, line, source) {
        Err(fault) => Err(fault),
        Ok(Piece::End) => Ok(Next::End),
        Ok(Piece::TooLong) => {
            *kind = Kind::TooLong;
            Ok(Next::Found)
        }
        Ok(Piece::Line) => {
            if !V::takes_block(line) {
                *kind = Kind::Line;
                return Ok(Next::Found);
            }
            match read_block(lines, block, piece, source) {
                Err(fault) => Err(fault),
                Ok(found) => {
                    *kind = found;
                    Ok(Next::Found)
                }
            }
        }
    }
}
