//! How a run of turns ends.

/// The end of a run on a table whose numbers stay in range.
#[derive(Clone, Copy, Debug, PartialEq, Eq)]
pub enum End {
    /// The cost is least.
    Optimal,
    /// No point meets all rows.
    Empty,
}

/// Why a run ends early.
#[derive(Clone, Copy, Debug, PartialEq, Eq)]
pub enum PivotFault {
    /// A product or difference of a pivot left the range -(2^127 - 1) to 2^127 - 1.
    TooWide,
}
