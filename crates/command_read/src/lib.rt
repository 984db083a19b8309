//! Every command of a session, read from the bytes of its line and its block.
#![tactic(auto)]

mod argument;
mod block;
mod command;
mod form;
mod later;
pub mod laws;
mod parts;
mod read;
mod refusal;
mod verb;
mod word;

pub use block::{Block, Held};
pub use command::{Command, Parsed};
pub use later::is_done_later;
pub use parts::{Names, NewName, Reach, Values};
pub use read::{read_command, takes_block};
pub use word::split_word;

/// Why a call that takes memory gave none of its other answers.
pub use std::alloc::AllocError as NoMemory;
