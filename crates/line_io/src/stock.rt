// Bytes in memory that leave from the front, and bytes in memory that come behind.
ghost use Rattle.std.specs.Prelude.{◌≡◌, ◌+◌, ◌≤◌, ◌-◌, ◌++◌, [], List, ℕ, length, take, drop, IfOk};

use crate::NoMemory;
use std::alloc::Global;
use std::marker::Model;

/// Bytes that leave from the front.
#[derive(Drop)]
pub(crate) struct Stock {
    bytes: Vec<u8>,
    at: usize,
}

impl Model for Stock {
    ghost use Rattle.std.specs.Prelude.{◌≤◌, ℕ, List, drop, vec_len};

    ghost Value = { List ℕ };

    ghost view = { λ s. drop s.at s.bytes.items };

    ghost invariant = { λ s. s.at ≤ vec_len s.bytes };
}

impl Stock {
    pub(crate) fn make(bytes: Vec<u8>) -> Stock
        ensures { result ≡ bytes.items }
    {
        Stock { bytes, at: 0 }
    }

    pub(crate) fn len(&self) -> usize
        ensures { result ≡ length self.now }
    {
        self.bytes.len() - self.at
    }

    /// Moves so many bytes to the front of `into`.
    pub(crate) fn give(&mut self, into: &mut [u8], count: usize)
        requires room { count ≤ length into.old }
        requires left { count ≤ length self.old }
        ensures given { self.old ≡ take count into.new ++ self.new }
        ensures rest { self.new ≡ drop count self.old }
    {
        into[..count].copy_from_slice(&self.bytes[self.at..self.at + count]);
        self.at += count;
    }
}

/// Bytes that come behind, up to a room.
#[derive(Drop)]
pub(crate) struct Shelf {
    bytes: Vec<u8>,
    len: usize,
}

impl Model for Shelf {
    ghost use Rattle.std.specs.Prelude.{◌≤◌, take, vec_len};
    ghost use Rattle.line_io.specs.Stock.{Shelved};

    ghost Value = { Shelved };

    ghost view = { λ s. record { held = take s.len s.bytes.items; room = vec_len s.bytes } };

    ghost invariant = { λ s. s.len ≤ vec_len s.bytes };
}

impl Shelf {
    pub(crate) fn make(alloc: Global, room: usize) -> Result<Shelf, NoMemory>
        ensures { IfOk result (λ s. s ≡ record { held = []; room = room }) }
    {
        let bytes = vec![in alloc; 0; room]?;
        Ok(Shelf { bytes, len: 0 })
    }

    /// How many bytes there is room for.
    pub(crate) fn room(&self) -> usize
        ensures value { result ≡ self.now.room - length self.now.held }
        ensures bound { length self.now.held ≤ self.now.room }
    {
        self.bytes.len() - self.len
    }

    pub(crate) fn bytes(&self) -> &[u8]
        ensures { result.now ≡ self.now.held }
    {
        &self.bytes[..self.len]
    }

    /// Keeps so many bytes from the front of a piece.
    pub(crate) fn keep(&mut self, piece: &[u8], count: usize)
        requires piece { count ≤ length piece.now }
        requires room { count ≤ self.old.room - length self.old.held }
        ensures { self.new ≡ record self.old { held = self.old.held ++ take count piece.now } }
    {
        self.bytes[self.len..self.len + count].copy_from_slice(&piece[..count]);
        self.len += count;
    }
}
