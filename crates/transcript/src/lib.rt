//! Entries of an input (lines with their blocks), and the loop of a service that answers them.
#![tactic(auto)]

mod block;
mod entry;
mod first;
pub mod laws;
mod piece;
mod reader;
mod run;
mod service;
mod status;
mod turn;

pub use block::BLOCK_LIMIT;
pub use entry::{Entry, Shape};
pub use piece::EntryFault;
pub use reader::{Next, Reader};
pub use run::{run_entries, run_from};
pub use service::{Answered, Service};
pub use status::Status;
pub use std::alloc::AllocError as NoMemory;
