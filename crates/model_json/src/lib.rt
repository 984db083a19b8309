//! Models as JSON.
#![tactic(auto)]

mod criteria;
mod fault;
mod groups;
mod judgements;
mod kept;
pub mod laws;
mod loading;
mod names;
mod options;
mod place;
mod pointer;
mod reading;
mod steps;
mod values;
mod weighting;
mod writing;

pub use fault::LoadFault;
pub use loading::load;
pub use writing::{DUMP_LINE, DUMP_TEXT, dump};
