//! Commands, and what a line may be.
use crate::block::Held;
use crate::parts::{Names, NewName, Reach, Values};
use judgement_matrix::Range;
use model_core::Name;

/// What a session can be asked for: a variant for each command, named by its word, with what follows that word. What a
/// variant holds is what its line must have: a type keeps each fact that a session rests on.
#[derive(Drop)]
pub enum Command {
    Load(Held),
    Option(Name),
    DropOption(Name),
    /// The criterion's name and its elements, the most attractive first.
    Criterion(NewName, Names<2>),
    DropCriterion(Name),
    /// A criterion, its good and its neutral element.
    Refs(Name, Name, Name),
    /// A criterion, two of its elements and the categories of their difference.
    Judge(Name, Name, Name, Range),
    Unjudge(Name, Name, Name),
    /// An option, a criterion and its element.
    Perform(Name, Name, Name),
    WeighOrder(Names<1>),
    Weigh(Name, Name, Range),
    Unweigh(Name, Name),
    Reach(Name, Reach),
    Import(Name, Held),
    Undo,
    Matrix(Name),
    Rows(Name),
    /// A criterion or `weighting`, and the values of a scale, the last one 0.
    Fits(Name, Values),
    Scale(Name),
    Cert(Name),
    Verify(Name, Held),
    Repairs(Name),
    Anchored(Name),
    Slack(Name, Name),
    Weights,
    Wcert,
    Wrepairs,
    Scores,
    Dominance(Name, Name),
    Dcert(Name, Name),
    Dominances,
    ExportMatrix(Name),
    ExportAnchored(Name),
    ExportWeights,
    ExportScores,
    Dump,
    Stats,
    Quit,
    /// A new group, and the group that it belongs to, or none for the root.
    Group(Name, Option<Name>),
    DropGroup(Name),
    /// A criterion, and its group.
    Place(Name, Name),
    Unplace(Name),
    Groups,
    Subtotals(Name),
}

/// A line as a session takes it.
#[derive(Drop)]
pub enum Parsed {
    /// It has no words, or begins with `#`.
    Nothing,
    Do(Command),
    /// The number of the refusal, from 2 to 7.
    Refused(u8),
}
