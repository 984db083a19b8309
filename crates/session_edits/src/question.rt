//! What may be asked of the basic scale of a matrix.

/// A question about a matrix.
#[derive(Clone, Copy, Debug)]
pub enum Question {
    /// Its least scale.
    Scale,
    /// Its certificate.
    Cert,
    /// The anchored scale of a criterion, or the weights.
    Worth,
    /// The room of an element, which counts from 1.
    Slack(usize),
}

/// What may be asked of all criteria and the weighting.
#[derive(Clone, Copy, Debug)]
pub enum Sum {
    /// The scores of all options.
    Scores,
    /// The subtotals of an option, and its score.
    Subtotals(usize),
}
