//! An entry: what a service answers.
ghost use Rattle.std.specs.Prelude.{◌≡◌, None};
ghost use Rattle.line_io.specs.Outside.{change_of};
ghost use Rattle.transcript.specs.Shape.{entry_of_shape};
ghost use Rattle.transcript.specs.Reading.{ReadsEntry};

use crate::first::read_entry;
use crate::piece::EntryFault;
use crate::reader::Next;
use crate::service::Service;
use line_io::{Lines, Source};
use std::alloc::Global;
use std::marker::Model;

/// What an entry is.
#[derive(Clone, Copy)]
pub(crate) enum Kind {
    TooLong,
    Line,
    Whole,
    Cut,
    Large,
}

/// An entry of an input, with its bytes.
#[derive(Drop)]
pub struct Entry {
    kind: Kind,
    line: Vec<u8>,
    block: Vec<u8>,
    /// The line of a block that was taken last.
    piece: Vec<u8>,
}

impl Model for Entry {
    ghost use Rattle.transcript.specs.Entry.{Entry};

    ghost Value = { Entry };

    ghost use Rattle.transcript.specs.Reading.{entry_of_kind};

    ghost view = { λ e. entry_of_kind e.kind e.line.items e.block.items };
}

/// An entry as its service looks at it. Lines are without their newline and without a carriage
/// return before that.
#[derive(Clone, Copy, Debug, PartialEq, Eq)]
pub enum Shape<'a> {
    /// A line that is too long.
    TooLong,
    /// A line that takes no block.
    Line(&'a [u8]),
    /// A line, and the bytes of its block: lines, each with its newline.
    Whole(&'a [u8], &'a [u8]),
    /// A line whose block the end of the input cuts off.
    Cut(&'a [u8]),
    /// A line whose block has too many bytes, or a line that is too long.
    Large(&'a [u8]),
}

impl Entry {
    /// An entry to be filled.
    pub(crate) fn make(alloc: Global) -> Entry {
        Entry {
            kind: Kind::TooLong,
            line: Vec::new(alloc),
            block: Vec::new(alloc),
            piece: Vec::new(alloc),
        }
    }

    /// Reads the next entry.
    pub(crate) fn read<V: Service, S: Source>(
        &mut self,
        lines: &mut Lines,
        source: &mut S,
    ) -> Result<Next, EntryFault>
        requires { lines.old.fault ≡ None }
        ensures { ReadsEntry V.rules.takes_block lines.old lines.new
            (change_of S.left S.faults source.old source.new) self.new result }
    {
        read_entry::<V, S>(
            lines,
            &mut self.kind,
            &mut self.line,
            &mut self.block,
            &mut self.piece,
            source,
        )
    }

    /// What the entry is.
    pub fn shape(&self) -> Shape<'_>
        ensures { entry_of_shape result ≡ self.now }
    {
        match self.kind {
            Kind::TooLong => Shape::TooLong,
            Kind::Line => Shape::Line(&self.line),
            Kind::Whole => Shape::Whole(&self.line, &self.block),
            Kind::Cut => Shape::Cut(&self.line),
            Kind::Large => Shape::Large(&self.line),
        }
    }
}
