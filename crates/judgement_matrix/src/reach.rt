//! The reach of a criterion: how far apart the values of two of its elements may lie, where good and neutral lie 100 apart.

/// The least reach of a criterion, which good and neutral take up.
pub const LEAST_REACH: u32 = 100;

/// The greatest reach of a criterion.
pub const MOST_REACH: u32 = 1_000_000;
