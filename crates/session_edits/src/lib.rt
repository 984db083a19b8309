//! A session: what it answers to each command.
#![tactic(auto)]

mod ask;
mod edits;
mod groups;
pub mod laws;
mod matrices;
mod names;
mod question;
mod refusal;
pub mod refusal_laws;
mod scales;
mod scores;
mod session;
mod texts;
mod verify;

pub use question::{Question, Sum};
pub use refusal::{LINE_TOO_LONG, refused};
pub use session::Session;

/// Why a call that takes memory gave none of its other answers.
pub use std::alloc::AllocError as NoMemory;
