//! The block behind a line.
ghost use Rattle.std.specs.Prelude.{◌≡◌, IfOk};
ghost use Rattle.command_read.specs.Blocks.{held_of};

use crate::NoMemory;
use frac128::List;
use std::alloc::Global;

/// The block that was read behind a line.
#[derive(Clone, Copy)]
pub enum Block<'a> {
    /// The line takes none.
    Absent,
    /// Its lines, each with a newline.
    Whole(&'a [u8]),
    /// The input ended before the line `end`.
    Cut,
    /// It has more bytes than a block may have, or a line that is too long.
    Large,
}

/// The block of a command.
#[derive(Drop)]
pub enum Held {
    /// Its lines, each with a newline.
    Whole(List<u8>),
    /// The input ended before the line `end`.
    Cut,
    /// It has more bytes than a block may have, or a line that is too long.
    Large,
}

impl Held {
    /// What a command holds of a block. An absent one is held as a block without lines.
    pub(crate) fn of(alloc: Global, block: Block<'_>) -> Result<Held, NoMemory>
        ensures { IfOk result (λ held. held ≡ held_of block.entry) }
    {
        Ok(match block {
            Block::Absent => Held::Whole(List::make(Vec::new(alloc))),
            Block::Whole(bytes) => Held::Whole(List::make(Vec::from_slice(alloc, bytes)?)),
            Block::Cut => Held::Cut,
            Block::Large => Held::Large,
        })
    }
}
