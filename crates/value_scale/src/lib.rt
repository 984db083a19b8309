//! Value scales of a matrix: the least one with its proof, anchored ones, and how far the value of one element may move.
#![tactic(auto)]

mod anchored_scale;
mod basic;
mod fault;
mod gap_sums;
pub mod laws;
mod slacks;

pub use anchored_scale::{AnchorFault, anchor};
pub use basic::{Basic, basic_of_outcome, basic_scale};
pub use fault::ScaleFault;
pub use frac128::NoMemory;
pub use gap_sums::values_of_gaps;
pub use lex_simplex::Count;
pub use slacks::{Interval, slack};
