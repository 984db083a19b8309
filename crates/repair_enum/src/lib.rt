//! The least repairs of inconsistent judgements: why the conflicts that certificates show lead to each of them.
#![tactic(auto)]

pub mod laws;
