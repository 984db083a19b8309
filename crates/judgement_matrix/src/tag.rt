//! The names of the constraints of a matrix, and the answer for a scale.

/// One constraint of a matrix. Positions of elements count from 1.
#[derive(Clone, Copy, Debug, PartialEq, Eq)]
pub enum Tag {
    /// The first element stands above the second by at least the least category judged.
    Lower(u8, u8),
    /// The two elements are equally attractive.
    Zero(u8, u8),
    /// The first pair was judged above the second one.
    Cross(u8, u8, u8, u8),
    /// The element doesn't stand below the next one.
    Order(u8),
}

/// Whether a scale meets a matrix.
#[derive(Clone, Copy, Debug, PartialEq, Eq)]
pub enum Fit {
    Meets,
    /// The first constraint, in row order, that fails.
    Fails(Tag),
}
