//! The constraints of the threshold problem by name, in their order.

/// One constraint of a threshold problem. Positions of elements count from 1, thresholds from 1 to 5.
#[derive(Clone, Copy, Debug, PartialEq, Eq)]
pub enum ThresholdTag {
    /// The difference of the elements is at least the least category judged, over the threshold below that category.
    At(u8, u8),
    /// The two elements are equally attractive.
    Zero(u8, u8),
    /// The difference of the elements is at most the greatest category judged, over the threshold of that category.
    Below(u8, u8),
    /// The threshold is at least the one before it.
    Step(u8),
}
