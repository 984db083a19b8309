//! A source and a sink in memory that never fail.
ghost use Rattle.std.specs.Prelude.{◌≡◌, ℕ, ◌≤◌, [], List, true, Some, Ok, length, min, take, IfOk};
ghost use Rattle.line_io.specs.Outside.{Took};
ghost use Rattle.line_io.specs.Never.{told, Keeps};

use crate::NoMemory;
use crate::outside::{Failed, Sink, Source};
use crate::stock::{Shelf, Stock};
use std::alloc::Global;
use std::marker::Model;

/// A source of bytes in memory that never fails.
#[derive(Drop)]
pub struct NeverSource {
    stock: Stock,
}

impl Model for NeverSource {
    ghost use Rattle.std.specs.Prelude.{ℕ, List};

    ghost Value = { List ℕ };

    ghost view = { λ s. s.stock };
}

impl NeverSource {
    /// A source of these bytes.
    pub fn make(bytes: Vec<u8>) -> NeverSource
        ensures { result ≡ bytes.items }
    {
        NeverSource {
            stock: Stock::make(bytes),
        }
    }
}

impl Source for NeverSource {
    ghost left = { λ s. Some s };

    ghost faults = { λ _. 0 };

    fn take(&mut self, into: &mut [u8]) -> Result<usize, Failed>
        ensures ok { result ≡ Ok (min (length into.old) (length self.old)) }
        ensures given { IfOk result (λ k. Took (Some self.old) (Some self.new) (take k into.new)) }
    {
        let count = into.len().min(self.stock.len());
        self.stock.give(into, count);
        Ok(count)
    }
}

/// A sink in memory that never fails: what doesn't fit its room is dropped.
#[derive(Drop)]
pub struct NeverSink {
    shelf: Shelf,
    is_whole: bool,
}

impl Model for NeverSink {
    ghost use Rattle.line_io.specs.Never.{Kept};

    ghost Value = { Kept };

    ghost view = { λ s. record { bytes = s.shelf.held; room = s.shelf.room; is_whole = s.is_whole } };
}

impl NeverSink {
    /// An empty sink with the memory for `room` bytes.
    ///
    /// # Errors
    ///
    /// Where there is no memory.
    pub fn make(alloc: Global, room: usize) -> Result<NeverSink, NoMemory>
        ensures { IfOk result (λ sink. sink ≡ record { bytes = []; room = room; is_whole = true }) }
    {
        let shelf = Shelf::make(alloc, room)?;
        Ok(NeverSink {
            shelf,
            is_whole: true,
        })
    }

    /// What it kept.
    pub fn bytes(&self) -> &[u8]
        ensures { result.now ≡ self.now.bytes }
    {
        self.shelf.bytes()
    }
}

impl Sink for NeverSink {
    ghost held = { told };

    ghost faults = { λ _. 0 };

    fn put(&mut self, piece: &[u8]) -> Result<usize, Failed>
        ensures ok { result ≡ Ok (length piece.now) }
        ensures keeps { Keeps self.old self.new piece.now }
    {
        let count = piece.len().min(self.shelf.room());
        self.shelf.keep(piece, count);
        self.is_whole = self.is_whole && count == piece.len();
        Ok(piece.len())
    }
}
