//! Replies as data.
use cert_check::{CertText, OpenTag, Place};
use frac128::{Frac, List};
use judgement_matrix::{Range, Shift, Tag};
use model_core::{Name, Pointer, Text};

/// What a refusal says besides its number.
#[derive(Drop)]
pub enum Detail {
    /// Nothing.
    None,
    /// The place in a JSON value.
    At(Pointer),
    /// The record and the field of a table, from 1.
    Cell(usize, usize),
    /// The line of a certificate's text, from 1.
    Line(usize),
    /// An option that performs on no element of a criterion, and the criterion.
    Missing(Name, Name),
    /// The criterion whose matrix or scale is meant.
    Place(Name),
    /// The weighting is meant.
    Weighting,
    /// A criterion, the span of its anchored scale, and its reach.
    Reach(Name, Frac, u32),
    /// The shift of judgements at which a search ended.
    Shifted(Shift),
}

/// Whose least gap a part of a dominance certificate is about.
#[derive(Drop)]
pub enum Head {
    /// The open scales of this criterion.
    Criterion(Name),
    /// The open weightings.
    Weighting,
}

/// One part of a dominance certificate.
#[derive(Drop)]
pub struct Part {
    /// What it is about.
    pub head: Head,
    /// The least cost of the closed problem; none where both options perform the same element.
    pub value: Option<Frac>,
    /// What the multipliers are over.
    pub den: i128,
    /// A row and its multiplier.
    pub on: List<(OpenTag, i128)>,
}

/// What a session answers to a command.
#[derive(Drop)]
pub enum Reply {
    /// The command was accepted.
    Ok,
    /// It was refused, for the reason of this number, from 1.
    Refused {
        number: u8,
        detail: Detail,
    },
    /// The elements of a matrix, and the pairs judged with their ranges. Positions count from 1.
    Matrix {
        names: List<Name>,
        judged: List<(usize, usize, Range)>,
    },
    /// The constraints of a matrix over these elements, with their bounds.
    Rows {
        names: List<Name>,
        rows: List<(Tag, i128)>,
    },
    /// The values meet all constraints.
    Meets,
    /// The first constraint, in row order, that the values fail.
    Fails {
        names: List<Name>,
        tag: Tag,
    },
    /// The least scale, and what shows that its span is least.
    Scale {
        names: List<Name>,
        values: List<Frac>,
        cert: CertText,
    },
    /// No scale meets the matrix, and what shows it.
    Inconsistent {
        cert: CertText,
    },
    /// A certificate alone.
    Cert {
        cert: CertText,
    },
    /// The certificate shows what it claims.
    Holds,
    /// The first line of the check that is false.
    FailsAt {
        place: Place,
    },
    /// Some scale meets the matrix.
    Consistent,
    /// The least repairs of a matrix over these elements, and by how much each of them moves in all.
    Repairs {
        names: List<Name>,
        total: u8,
        shifts: List<Shift>,
    },
    /// The anchored scale: each element's value.
    Anchored {
        names: List<Name>,
        values: List<Frac>,
    },
    /// The values that one element may have while the others stay; nothing may bound them above.
    Slack {
        low: Frac,
        high: Option<Frac>,
    },
    /// The weights, in weighting order.
    Weights {
        names: List<Name>,
        values: List<Frac>,
    },
    /// The scores of the options, in model order.
    Scores {
        names: List<Name>,
        values: List<Frac>,
    },
    /// The first option dominates the second, by at least this.
    Dominates {
        least: Frac,
    },
    /// It doesn't: open scales, in model order, and weights, in weighting order, by which it scores less, and the
    /// difference.
    Not {
        gap: Frac,
        scales: List<(Name, List<Frac>)>,
        weights: List<(Name, Frac)>,
    },
    /// It does, and what shows it.
    DomCert {
        least: Frac,
        parts: List<Part>,
    },
    /// The pairs of options of which the first dominates the second.
    Dominances {
        pairs: List<(Name, Name)>,
    },
    /// A table, line by line.
    Csv {
        lines: List<Text>,
    },
    /// The model as JSON, line by line.
    Dump {
        lines: List<Text>,
    },
    /// The pivots made, and the results kept.
    Stats {
        pivots: u64,
        kept: usize,
    },
    /// The groups, each with the group above it, and the criteria that are placed in one.
    Groups {
        groups: List<(Name, Option<Name>)>,
        placed: List<(Name, Name)>,
    },
    /// What each group adds to an option's score, and the score.
    Subtotals {
        parts: List<(Name, Frac)>,
        total: Frac,
    },
}
