//! What a check of a certificate answers.

/// A line that is checked of a certificate. Entries and columns count from 1.
#[derive(Clone, Copy, Debug, PartialEq, Eq)]
pub enum Place {
    /// The denominator is at least 1.
    Den,
    /// The entry names a row of the problem, which stands after that of the entry before, with a multiplier of at least 0.
    Entry(usize),
    /// The combination's coefficient of a variable is at most what the certificate allows.
    Column(usize),
    /// The combination's bound is what the certificate claims.
    Bound,
}

/// Whether a certificate shows what it claims.
#[derive(Clone, Copy, Debug, PartialEq, Eq)]
pub enum Verdict {
    /// Each line is true.
    Holds,
    /// This line is the first that is false.
    Fails(Place),
}
