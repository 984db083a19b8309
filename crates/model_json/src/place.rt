//! Places in a model's JSON value.

/// The first part of a value that isn't as it has to be. Indexes count from 0.
#[derive(Clone, Copy, Drop)]
pub enum Place {
    /// The whole value.
    Whole,
    /// The number of the format.
    Version,
    /// The groups.
    Groups,
    /// A group.
    Group(usize),
    /// The name of a group.
    GroupName(usize),
    /// The group that a group belongs to.
    GroupParent(usize),
    /// The criteria.
    Criteria,
    /// A criterion.
    Criterion(usize),
    /// The name of a criterion.
    CriterionName(usize),
    /// The elements of a criterion.
    Elements(usize),
    /// An element of a criterion.
    Element(usize, usize),
    /// The good element of a criterion.
    Good(usize),
    /// The neutral element of a criterion.
    Neutral(usize),
    /// The judgements of a criterion.
    Judgements(usize),
    /// A judgement of a criterion.
    Judgement(usize, usize),
    /// The reach of a criterion.
    Reach(usize),
    /// The group of a criterion.
    CriterionGroup(usize),
    /// The options.
    Options,
    /// An option.
    OptionAt(usize),
    /// The name of an option.
    OptionName(usize),
    /// The performances of an option.
    Performances(usize),
    /// The weighting.
    Weighting,
    /// The weighting order.
    Order,
    /// The judgements of the weighting.
    Swings,
    /// A judgement of the weighting.
    Swing(usize),
}
