//! The limits of a model. The most elements of a criterion are those of a matrix, `judgement_matrix::LIMIT`, and the bounds
//! of its reach stand there too.

/// The most options.
pub const OPTIONS: usize = 64;

/// The most criteria.
pub const CRITERIA: usize = 11;

/// The most groups.
pub const GROUPS: usize = 32;

/// The reach of a new criterion.
pub const NEW_REACH: u32 = 1_000;

/// The most bytes of a name.
pub const NAME_BYTES: usize = 64;
