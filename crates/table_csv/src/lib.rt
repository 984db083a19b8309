//! Judgement matrices and values as tables of comma-separated fields.
#![tactic(auto)]

mod fault;
mod fields;
pub mod laws;
mod layout;
mod lines;
mod reading;
mod values;

pub use fault::TableFault;
pub use fields::text_from;
pub use layout::matrix_table;
pub use lines::export;
pub use reading::import_matrix;
pub use values::{PLACES, value_table};

/// Why a call that takes memory gave none of its other answers.
pub use std::alloc::AllocError as NoMemory;
