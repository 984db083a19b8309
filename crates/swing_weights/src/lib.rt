//! Weights of criteria by swings, and scores of options by the additive model.
#![tactic(auto)]

pub mod laws;
mod scores;
mod weighing;

pub use scores::score;
pub use weighing::{WeightFault, weights};
