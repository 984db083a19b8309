//! Tables of words, each found by its bytes, and the tables of this program.
#![tactic(auto)]

pub mod laws;
mod tables;
mod words;

pub use tables::{CATEGORIES, COMMANDS, REFUSALS, categories, commands, refusals};
pub use words::Words;
