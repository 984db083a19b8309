//! Sources and sinks of bytes, and the lines of a source.
#![tactic(auto)]

mod cursor;
mod lines;
mod memory;
mod never;
mod outside;
mod put;
mod standard;
mod stock;
mod window;

pub use lines::{INPUT_LIMIT, Item, LINE_LIMIT, LineFault, Lines, TAKE_LEN};
pub use memory::{MemSink, MemSource};
pub use never::{NeverSink, NeverSource};
pub use outside::{Failed, Sink, Source};
pub use put::{PutFault, put_all};
pub use standard::{StdSink, StdSource};
pub use std::alloc::AllocError as NoMemory;
