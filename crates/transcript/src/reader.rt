//! The entries of a source.
ghost use Rattle.std.specs.Prelude.{◌≡◌, None, IfOk};
ghost use Rattle.line_io.specs.Lines.{start};
ghost use Rattle.line_io.specs.Outside.{change_of};
ghost use Rattle.transcript.specs.Reading.{AdvancesEntry};

use crate::NoMemory;
use crate::entry::Entry;
use crate::piece::EntryFault;
use crate::service::Service;
use line_io::{Lines, Source};
use std::alloc::Global;
use std::marker::Model;

/// Whether a further entry was read.
#[derive(Clone, Copy, Debug, PartialEq, Eq)]
pub enum Next {
    /// The reader has it.
    Found,
    /// There is none.
    End,
}

/// The entries of a source. It takes the memory for lines when it is made, and more as a line or a
/// block needs it, up to their limits.
#[derive(Drop)]
pub struct Reader {
    lines: Lines,
    entry: Entry,
    fault: Option<EntryFault>,
}

impl Model for Reader {
    ghost use Rattle.std.specs.Prelude.{◌≡◌, None};
    ghost use Rattle.transcript.specs.Reading.{Position};

    ghost Value = { Position };

    ghost view = { λ r. record { progress = r.lines; entry = r.entry; fault = r.fault } };

    ghost invariant = { λ r. r.fault ≡ None → r.lines.fault ≡ None };
}

impl Reader {
    /// A reader that has read nothing.
    ///
    /// # Errors
    ///
    /// Where there is no memory.
    pub fn make(alloc: Global) -> Result<Reader, NoMemory>
        ensures { IfOk result (λ reader. (reader.progress ≡ start) × (reader.fault ≡ None)) }
    {
        let lines = Lines::make(alloc)?;
        let entry = Entry::make(alloc);
        Ok(Reader {
            lines,
            entry,
            fault: None,
        })
    }

    /// The entry that was given last.
    pub fn entry(&self) -> &Entry
        ensures { result.now ≡ self.now.entry }
    {
        &self.entry
    }

    /// Reads the next entry of the source; which lines take a block is the service's to say.
    ///
    /// # Errors
    ///
    /// `Read` where a take failed, `Limit` where all that may be taken was taken with no whole entry
    /// left and no end seen, `Memory`. From then on the same fault is answered.
    pub fn next<V: Service, S: Source>(&mut self, source: &mut S) -> Result<Next, EntryFault>
        ensures { AdvancesEntry V.rules.takes_block self.old self.new
            (change_of S.left S.faults source.old source.new) result }
    {
        if let Some(fault) = self.fault {
            return Err(fault);
        }
        match self.entry.read::<V, S>(&mut self.lines, source) {
            Ok(next) => Ok(next),
            Err(fault) => {
                self.fault = Some(fault);
                Err(fault)
            }
        }
    }
}
