//! An independent checker of certificates, and their text. No solver is used here.
#![tactic(auto)]

mod check;
mod columns;
mod dominance;
mod entries;
pub mod laws;
mod numbers;
mod places;
mod placing;
mod printing;
mod reading;
mod refuting;
mod sums;
mod text;
mod verdict;
mod words;

pub use check::{check_dual, check_farkas};
pub use dominance::{OpenTag, push_open_tag};
pub use places::check_text;
pub use placing::{Placed, name_rows, place};
pub use printing::{print_cert, read_printed};
pub use reading::read_cert;
pub use refuting::{cert_of_tags, refutes};
pub use text::{CertFault, CertText, Claim};
pub use verdict::{Place, Verdict};
