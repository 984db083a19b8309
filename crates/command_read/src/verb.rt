//! The commands by their first words.
ghost use Rattle.std.specs.Prelude.{◌≡◌, slice_get};
ghost use Rattle.command_read.specs.Verbs.{verb_of};

use word_table::commands;

/// Which command a line asks for, by its first word.
#[derive(Clone, Copy)]
pub(crate) enum Verb {
    Load,
    Option,
    DropOption,
    Criterion,
    DropCriterion,
    Refs,
    Judge,
    Unjudge,
    Perform,
    WeighOrder,
    Weigh,
    Unweigh,
    Reach,
    Import,
    Undo,
    Matrix,
    Rows,
    Fits,
    Scale,
    Cert,
    Verify,
    Repairs,
    Anchored,
    Slack,
    Weights,
    Wcert,
    Wrepairs,
    Scores,
    Dominance,
    Dcert,
    Dominances,
    Export,
    Dump,
    Stats,
    Quit,
    Group,
    DropGroup,
    Place,
    Unplace,
    Groups,
    Subtotals,
}

/// The commands in the order of their words in `word_table::COMMANDS`.
pub(crate) const VERBS: [Verb; 41] = [
    Verb::Load,
    Verb::Option,
    Verb::DropOption,
    Verb::Criterion,
    Verb::DropCriterion,
    Verb::Refs,
    Verb::Judge,
    Verb::Unjudge,
    Verb::Perform,
    Verb::WeighOrder,
    Verb::Weigh,
    Verb::Unweigh,
    Verb::Reach,
    Verb::Import,
    Verb::Undo,
    Verb::Matrix,
    Verb::Rows,
    Verb::Fits,
    Verb::Scale,
    Verb::Cert,
    Verb::Verify,
    Verb::Repairs,
    Verb::Anchored,
    Verb::Slack,
    Verb::Weights,
    Verb::Wcert,
    Verb::Wrepairs,
    Verb::Scores,
    Verb::Dominance,
    Verb::Dcert,
    Verb::Dominances,
    Verb::Export,
    Verb::Dump,
    Verb::Stats,
    Verb::Quit,
    Verb::Group,
    Verb::DropGroup,
    Verb::Place,
    Verb::Unplace,
    Verb::Groups,
    Verb::Subtotals,
];

/// The command with this word. It takes no memory.
pub(crate) fn verb_of(word: &[u8]) -> Option<Verb>
    ensures { result ≡ verb_of word.now }
{
    verb_at(&VERBS, commands().find(word)?)
}

fn verb_at(verbs: &[Verb], place: usize) -> Option<Verb>
    ensures { result ≡ slice_get verbs.now place }
{
    verbs.get(place).copied()
}
