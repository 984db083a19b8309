//! Replies of a session, and their texts.
#![tactic(auto)]

mod certificates;
pub mod laws;
mod lists;
mod matrices;
mod print;
mod refusals;
mod reply;
mod values;
mod words;

pub use cert_check::OpenTag;
pub use print::text;
pub use reply::{Detail, Head, Part, Reply};

/// Why a call that takes memory gave none of its other answers.
pub use std::alloc::AllocError as NoMemory;
