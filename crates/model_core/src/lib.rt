//! The model: options, criteria, groups, performances, the weighting, and their edits.
#![tactic(auto)]

mod category;
mod changes;
mod criterion;
mod edit;
mod edits;
mod group;
pub mod laws;
mod limits;
mod model;
mod name;
mod roster;
mod row;
mod text;

pub use category::{range_text, read_range};
pub use criterion::Criterion;
pub use edit::EditFault;
pub use group::Group;
pub use judgement_matrix::{LEAST_REACH, MOST_REACH};
pub use limits::{CRITERIA, GROUPS, NAME_BYTES, NEW_REACH, OPTIONS};
pub use model::Model;
pub use name::{Name, NoMemory, is_reserved, valid_name};
pub use text::{Pointer, Text};
