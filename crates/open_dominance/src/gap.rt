//! The least gap of a criterion.

use frac128::problem::Cert;
use frac128::{Frac, List};

/// The least difference of two elements of a criterion over the closure of its open scales.
#[derive(Debug, Drop)]
pub struct Gap {
    /// How far the first element is above the second on the scale.
    pub least: Frac,
    /// The value of the closed problem: the difference where the first element is listed above the second, and else the difference and
    /// the reach. There is none where the two are one.
    pub problem_value: Option<Frac>,
    /// A scale of the closure on which the difference is least: a value for each element, the first element's first.
    pub scale: List<Frac>,
    /// Multipliers of the closed problem's rows that show that its value is none less.
    pub cert: Cert,
}
