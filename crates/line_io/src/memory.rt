//! A source and a sink in memory, which give and take in pieces and fail at calls that are named.
ghost use Rattle.std.specs.Prelude.{◌≡◌, ◌↔◌, ℕ, ◌<◌, ◌≤◌, [], List, Some, length, take, IfOk};
ghost use Rattle.line_io.specs.Outside.{Took, Put};
ghost use Rattle.line_io.specs.Memory.{Feeds, Stores};

use crate::NoMemory;
use crate::outside::{Failed, Sink, Source};
use crate::stock::{Shelf, Stock};
use std::alloc::Global;
use std::marker::Model;

/// A source of bytes in memory.
#[derive(Drop)]
pub struct MemSource {
    stock: Stock,
    piece: usize,
    fails: Vec<u64>,
    calls: u64,
    faults: u64,
}

impl Model for MemSource {
    ghost use Rattle.std.specs.Prelude.{◌≤◌};
    ghost use Rattle.line_io.specs.Memory.{Feed};

    ghost Value = { Feed };

    ghost view = { λ s. record {
      rest = s.stock;
      piece = s.piece;
      fails = s.fails.items;
      calls = s.calls;
      faults = s.faults;
    } };

    ghost invariant = { λ s. 1 ≤ s.piece };
}

impl MemSource {
    /// A source of these bytes, which gives at most `piece` at a time and fails at the calls with these
    /// numbers, counted from 1.
    pub fn make(bytes: Vec<u8>, piece: usize, fails: Vec<u64>) -> MemSource
        requires { 1 ≤ piece }
        ensures { result ≡ record {
          rest = bytes.items;
          piece = piece;
          fails = fails.items;
          calls = 0;
          faults = 0;
        } }
    {
        MemSource {
            stock: Stock::make(bytes),
            piece,
            fails,
            calls: 0,
            faults: 0,
        }
    }
}

impl Source for MemSource {
    ghost left = { λ s. Some s.rest };

    ghost faults = { λ s. s.faults };

    fn take(&mut self, into: &mut [u8]) -> Result<usize, Failed>
        ensures given { IfOk result (λ k. (k ≤ length into.old)
            × Took (Some self.old.rest) (Some self.new.rest) (take k into.new)) }
        ensures end { IfOk result (λ k. 0 < length into.old → (k ≡ 0) ↔ (self.old.rest ≡ [])) }
        ensures call { Feeds self.old self.new (length into.old) result }
        ensures count { self.old.faults ≤ self.new.faults }
    {
        self.calls = self.calls.saturating_add(1);
        if self.fails.contains(&self.calls) {
            self.faults = self.faults.saturating_add(1);
            return Err(Failed);
        }
        let count = self.piece.min(into.len()).min(self.stock.len());
        self.stock.give(into, count);
        Ok(count)
    }
}

/// A sink in memory.
#[derive(Drop)]
pub struct MemSink {
    shelf: Shelf,
    piece: usize,
    fails: Vec<u64>,
    calls: u64,
    faults: u64,
}

impl Model for MemSink {
    ghost use Rattle.std.specs.Prelude.{◌≤◌};
    ghost use Rattle.line_io.specs.Memory.{Store};

    ghost Value = { Store };

    ghost view = { λ s. record {
      held = s.shelf.held;
      room = s.shelf.room;
      piece = s.piece;
      fails = s.fails.items;
      calls = s.calls;
      faults = s.faults;
    } };

    ghost invariant = { λ s. 1 ≤ s.piece };
}

impl MemSink {
    /// An empty sink with the memory for `room` bytes. It takes at most `piece` at a time, and fails
    /// where its room is used up and at the calls with these numbers, counted from 1.
    ///
    /// # Errors
    ///
    /// Where there is no memory.
    pub fn make(
        alloc: Global,
        room: usize,
        piece: usize,
        fails: Vec<u64>,
    ) -> Result<MemSink, NoMemory>
        requires { 1 ≤ piece }
        ensures { IfOk result (λ sink. sink ≡ record {
          held = [];
          room = room;
          piece = piece;
          fails = fails.items;
          calls = 0;
          faults = 0;
        }) }
    {
        let shelf = Shelf::make(alloc, room)?;
        Ok(MemSink {
            shelf,
            piece,
            fails,
            calls: 0,
            faults: 0,
        })
    }

    /// What it holds.
    pub fn bytes(&self) -> &[u8]
        ensures { result.now ≡ self.now.held }
    {
        self.shelf.bytes()
    }
}

impl Sink for MemSink {
    ghost held = { λ s. Some s.held };

    ghost faults = { λ s. s.faults };

    fn put(&mut self, piece: &[u8]) -> Result<usize, Failed>
        ensures taken { IfOk result (λ k. (k ≤ length piece.now) × (0 < length piece.now → 0 < k)) }
        ensures call { Stores self.old self.new piece.now result }
        ensures count { self.old.faults ≤ self.new.faults }
    {
        self.calls = self.calls.saturating_add(1);
        let room = self.shelf.room();
        let is_full = room == 0 && !piece.is_empty();
        if is_full || self.fails.contains(&self.calls) {
            self.faults = self.faults.saturating_add(1);
            return Err(Failed);
        }
        let count = self.piece.min(piece.len()).min(room);
        self.shelf.keep(piece, count);
        Ok(count)
    }
}
