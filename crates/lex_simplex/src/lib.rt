//! The exact simplex method with the lexicographic rule, on tableaus of whole numbers.
#![tactic(auto)]

mod cells;
mod choice;
mod count;
mod end;
mod grid;
pub mod laws;
mod numbers;
mod outcome;
mod pivot;
mod pivot_row;
mod reading;
mod run;
mod solver;
mod start;
mod table;
mod turn;
mod ways;

pub use count::Count;
pub use end::{End, PivotFault};
pub use outcome::Outcome;
pub use solver::{SolveFault, solve};
pub use table::Table;
