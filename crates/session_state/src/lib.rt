//! What a session holds: the model, the models before it, and the basic scales that are kept.
#![tactic(auto)]

mod history;
pub mod laws;
mod results;
mod shared;
mod state;
mod subject;

pub use history::{History, UNDO_STEPS};
pub use model_core::NoMemory;
pub use results::Results;
pub use shared::Shared;
pub use state::State;
pub use subject::Subject;
