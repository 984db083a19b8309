//! Matrices of semantic judgements, and when a scale meets one.
#![tactic(auto)]

pub mod laws;
mod matrix;
mod meets;
mod pairs;
mod range;
mod reach;
mod shift;
mod tag;

pub use matrix::{LIMIT, Matrix, NoMemory};
pub use pairs::Pairs;
pub use range::Range;
pub use reach::{LEAST_REACH, MOST_REACH};
pub use shift::Shift;
pub use tag::{Fit, Tag};
