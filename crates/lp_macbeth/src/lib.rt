//! Judgements as linear problems over the gaps between neighbouring elements.
#![tactic(auto)]

mod closed;
mod closed_form;
mod closed_translation;
mod gap_rows;
mod gaps;
mod kinds;
pub mod laws;
mod pairs;
mod passing;
mod row_tags;
mod tags;
mod threshold;
mod threshold_lists;
mod threshold_tags;
mod translation;
mod weight;
mod weighting;

pub use closed::{closed_problem, closed_problem_with};
pub use closed_form::{closed_thresholds, closed_thresholds_with, weighting_thresholds};
pub use closed_translation::{translate_closed, translate_weighting};
pub use frac128::NoMemory;
pub use gap_rows::{problem, problem_of_tags, rows};
pub use pairs::element_pairs;
pub use row_tags::tags_at;
pub use tags::judged_tags;
pub use threshold::threshold_problem;
pub use threshold_tags::ThresholdTag;
pub use translation::translate;
pub use weighting::{ClosedWeighting, WeightingFault, closed_weighting};
