//! Certificates as text, and what is wrong with a text.

ghost use Rattle.std.specs.Prelude.{◌≡◌};

use frac128::{Frac, List, NoMemory, Number};
use judgement_matrix::Tag;

/// The first word of a certificate of a least cost.
pub const LEAST: &str = "least";

/// The first word of a certificate that no point meets all rows.
pub const NOTHING: &str = "nothing";

/// The word before the denominator.
pub const DEN: &str = "den";

/// The word before the number of entries.
pub const ROWS: &str = "rows";

/// The first word of an entry on a row of `Tag::Lower`.
pub const LOWER: &str = "lower";

/// The first word of an entry on a row of `Tag::Zero`.
pub const ZERO: &str = "zero";

/// The first word of an entry on a row of `Tag::Cross`.
pub const CROSS: &str = "cross";

/// What a certificate shows.
#[derive(Clone, Copy, Debug, PartialEq, Eq)]
pub enum Claim {
    /// No point that meets the problem costs less than this.
    Least(Frac),
    /// No point meets the problem.
    Nothing,
}

/// A certificate that names rows by their tags.
#[derive(Debug, Drop)]
pub struct CertText {
    /// What it shows.
    pub claim: Claim,
    /// What the multipliers are over.
    pub den: i128,
    /// A row and its multiplier.
    pub on: List<(Tag, i128)>,
}

/// The first line of a certificate's text.
#[derive(Clone, Copy)]
pub(crate) struct Head {
    pub claim: Claim,
    pub den: Number,
    pub count: u128,
}

/// Why bytes are the text of no certificate.
#[derive(Clone, Copy, Debug, PartialEq, Eq)]
pub enum CertFault {
    /// The line of this number, from 1 on, is the first that doesn't fit, is missing or is one too many.
    Bad(usize),
    /// There is not enough memory.
    NoMemory,
}

impl From<NoMemory> for CertFault {
    ghost use Rattle.cert_check.specs.declared.text.CertFault.TheVariants as given;

    ghost from_gives = { λ _ fault. fault ≡ given.NoMemory };

    fn from(_: NoMemory) -> CertFault {
        CertFault::NoMemory
    }
}
