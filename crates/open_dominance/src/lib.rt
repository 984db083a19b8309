//! Open scales and weightings, and dominance: whether one option scores at least as much as another under all of them.
#![tactic(auto)]

mod closed_gap;
mod gap;
pub mod laws;
mod own_gap;
mod scales;
mod test;
mod weighing;

pub use closed_gap::least_gap_beside;
pub use gap::Gap;
pub use own_gap::least_gap;
pub use test::is_never_below;
pub use value_scale::ScaleFault as DomFault;
pub use weighing::{WeightingMinimum, weighting_minimum};
