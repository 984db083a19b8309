//! Exact fractions within 128 bits, lists, and linear problems as plain data.
#![tactic(auto)]

mod decimals;
mod frac;
pub mod laws;
mod list;
mod number;
mod order;
mod printing;
pub mod problem;
mod reading;

pub use decimals::MOST_PLACES;
pub use frac::Frac;
pub use list::List;
pub use number::{Division, Number, TooWide};
pub use order::{compare, compare_numbers};
pub use reading::{FracFault, read_frac};
pub use std::alloc::AllocError as NoMemory;
