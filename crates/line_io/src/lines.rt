//! Lines of bytes from a source.
ghost use Rattle.std.specs.Prelude.{◌≡◌, IfOk};
ghost use Rattle.std.specs.Borrow.{sem};
ghost use Rattle.std.specs.Io.BufRead.{Rests};
ghost use Rattle.line_io.specs.Lines.{start, Advances};
ghost use Rattle.line_io.specs.Outside.{change_of};
ghost use Rattle.line_io.specs.contracts.lines.Lines.{the_row};

use crate::NoMemory;
use crate::cursor::{Cursor, Found};
use crate::outside::Source;
use std::alloc::Global;
use std::marker::Model;

/// The most bytes that a line may have, a carriage return at its end included.
pub const LINE_LIMIT: usize = 65_536;

/// The most bytes that are taken in all.
pub const INPUT_LIMIT: u64 = 1 << 30;

/// How many bytes a take asks for.
pub const TAKE_LEN: usize = 4_096;

/// What stands next in a stream of lines.
pub enum Item<'a> {
    /// A line, without its newline and without a carriage return before that.
    Line(&'a [u8]),
    /// A line of so many bytes, which are more than `LINE_LIMIT`.
    TooLong(u64),
    /// There is no further line.
    End,
}

/// Why there is no next line.
#[derive(Clone, Copy, Debug, PartialEq, Eq)]
pub enum LineFault {
    /// A take failed.
    Read,
    /// `INPUT_LIMIT` bytes were taken, and the end isn't reached.
    Limit,
}

/// The lines of a source. It needs no memory but the buffer that `make` takes.
#[derive(Drop)]
pub struct Lines {
    cursor: Cursor,
}

impl Model for Lines {
    ghost use Rattle.line_io.specs.Lines.{Progress};

    ghost Value = { Progress };

    ghost use Rattle.line_io.specs.Cursor.{progress};

    ghost view = { λ l. progress l.cursor };
}

impl Lines {
    /// Takes the memory for all lines.
    pub fn make(alloc: Global) -> Result<Lines, NoMemory>
        ensures { IfOk result (λ lines. lines ≡ start) }
    {
        let cursor = Cursor::make(alloc)?;
        Ok(Lines { cursor })
    }

    /// The next line of the source.
    ///
    /// # Errors
    ///
    /// `Read` where a take failed, `Limit` where `INPUT_LIMIT` bytes were taken with no whole line
    /// left and no end seen. From then on the same fault is answered.
    pub fn next<S: Source>(&mut self, source: &mut S) -> Result<Item<'_>, LineFault>
        ensures* { sem 𝓛 (Rests the_row self.entry (λ new. Advances self.old new
            (change_of S.left S.faults source.old source.new) result)) }
    {
        match self.cursor.advance(source)? {
            Found::Line => Ok(Item::Line(self.cursor.line())),
            Found::TooLong(count) => Ok(Item::TooLong(count)),
            Found::End => Ok(Item::End),
        }
    }
}
