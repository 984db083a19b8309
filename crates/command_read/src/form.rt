//! The forms of the commands: what may follow a command's word.
ghost use Rattle.std.specs.Prelude.{◌≡◌, ◌∷◌, [], ℕ, List, MatchResult, Ok};
ghost use Rattle.command_read.specs.Words.{words};
ghost use Rattle.command_read.specs.Blocks.{held_of};
ghost use Rattle.command_read.specs.declared.block.Held.{Held};
ghost use Rattle.command_read.specs.declared.verb.Verb.TheVariants.{Load};
ghost use Rattle.command_read.specs.Refusals.{Gives, Sees, Fails};
ghost use Rattle.command_read.specs.Forms.{no_word, one_word, two_words, three_words, four_words, one_name, two_names, three_names, criterion, judge, weigh_order, weigh, reach_of, fits, group, export, form};

use crate::argument::{name, names, new_name, range, reach, values};
use crate::block::{Block, Held};
use crate::command::Command;
use crate::refusal::{Fault, Refusal};
use crate::verb::Verb;
use crate::word::split_word;
use model_core::Name;
use std::alloc::Global;

/// The command of this word, from what stands behind it in the line.
#[tactic(auto, unfolding(crate::specs::Forms::form))]
pub(crate) fn command(
    alloc: Global,
    verb: Verb,
    text: &[u8],
    block: Block<'_>,
) -> Result<Command, Fault>
    ensures { Gives result (form verb (words text.now) (held_of block.entry)) }
{
    match verb {
        Verb::Load => load(alloc, text, block),
        Verb::Option => one(alloc, text, Command::Option),
        Verb::DropOption => one(alloc, text, Command::DropOption),
        Verb::Criterion => criterion(alloc, text),
        Verb::DropCriterion => one(alloc, text, Command::DropCriterion),
        Verb::Refs => three(alloc, text, Command::Refs),
        Verb::Judge => judge(alloc, text),
        Verb::Unjudge => three(alloc, text, Command::Unjudge),
        Verb::Perform => three(alloc, text, Command::Perform),
        Verb::WeighOrder => weigh_order(alloc, text),
        Verb::Weigh => weigh(alloc, text),
        Verb::Unweigh => two(alloc, text, Command::Unweigh),
        Verb::Reach => reach_of(alloc, text),
        Verb::Import => one_and_block(alloc, text, block, Command::Import),
        Verb::Undo => alone(text, Command::Undo),
        Verb::Matrix => one(alloc, text, Command::Matrix),
        Verb::Rows => one(alloc, text, Command::Rows),
        Verb::Fits => fits(alloc, text),
        Verb::Scale => one(alloc, text, Command::Scale),
        Verb::Cert => one(alloc, text, Command::Cert),
        Verb::Verify => one_and_block(alloc, text, block, Command::Verify),
        Verb::Repairs => one(alloc, text, Command::Repairs),
        Verb::Anchored => one(alloc, text, Command::Anchored),
        Verb::Slack => two(alloc, text, Command::Slack),
        Verb::Weights => alone(text, Command::Weights),
        Verb::Wcert => alone(text, Command::Wcert),
        Verb::Wrepairs => alone(text, Command::Wrepairs),
        Verb::Scores => alone(text, Command::Scores),
        Verb::Dominance => two(alloc, text, Command::Dominance),
        Verb::Dcert => two(alloc, text, Command::Dcert),
        Verb::Dominances => alone(text, Command::Dominances),
        Verb::Export => export(alloc, text),
        Verb::Dump => alone(text, Command::Dump),
        Verb::Stats => alone(text, Command::Stats),
        Verb::Quit => alone(text, Command::Quit),
        Verb::Group => group(alloc, text),
        Verb::DropGroup => one(alloc, text, Command::DropGroup),
        Verb::Place => two(alloc, text, Command::Place),
        Verb::Unplace => one(alloc, text, Command::Unplace),
        Verb::Groups => alone(text, Command::Groups),
        Verb::Subtotals => one(alloc, text, Command::Subtotals),
    }
}

/// What a command of nothing but its word is, once no more words follow.
fn alone<T: Drop>(text: &[u8], made: T) -> Result<T, Fault>
    ensures { MatchResult result
        (λ same. (no_word (words text.now) ≡ Ok tt) × (same ≡ made))
        (λ fault. Fails fault (no_word (words text.now))) }
{
    no_word(text)?;
    Ok(made)
}

/// A command of one name.
fn one<F: FnOnce(Name) -> Command>(alloc: Global, text: &[u8], make: F) -> Result<Command, Fault>
    requires { F.IsAlwaysCallable make }
    ensures { MatchResult result
        (λ command. (x : List ℕ) × (one_name (words text.now) ≡ Ok x) × F.post make x command)
        (λ fault. Fails fault (one_name (words text.now))) }
{
    Ok(make(one_name(alloc, text)?))
}

/// A command of two names.
fn two<F: FnOnce(Name, Name) -> Command>(
    alloc: Global,
    text: &[u8],
    make: F,
) -> Result<Command, Fault>
    requires { F.IsAlwaysCallable make }
    ensures { MatchResult result
        (λ command. (x y : List ℕ) × (two_names (words text.now) ≡ Ok (x, y))
        × F.post make x y command)
        (λ fault. Fails fault (two_names (words text.now))) }
{
    let (x, y) = two_names(alloc, text)?;
    Ok(make(x, y))
}

/// A command of three names.
fn three<F: FnOnce(Name, Name, Name) -> Command>(
    alloc: Global,
    text: &[u8],
    make: F,
) -> Result<Command, Fault>
    requires { F.IsAlwaysCallable make }
    ensures { MatchResult result
        (λ command. (x y z : List ℕ) × (three_names (words text.now) ≡ Ok (x, y, z))
        × F.post make x y z command)
        (λ fault. Fails fault (three_names (words text.now))) }
{
    let (x, y, z) = three_names(alloc, text)?;
    Ok(make(x, y, z))
}

/// `load`, and its block.
#[tactic(auto, unfolding(crate::specs::Forms::form))]
fn load(alloc: Global, text: &[u8], block: Block<'_>) -> Result<Command, Fault>
    ensures { Gives result (form Load (words text.now) (held_of block.entry)) }
{
    no_word(text)?;
    Ok(Command::Load(Held::of(alloc, block)?))
}

/// A command of a name and a block.
fn one_and_block<F: FnOnce(Name, Held) -> Command>(
    alloc: Global,
    text: &[u8],
    block: Block<'_>,
    make: F,
) -> Result<Command, Fault>
    requires { F.IsAlwaysCallable make }
    ensures { MatchResult result
        (λ command. (x : List ℕ) × (one_name (words text.now) ≡ Ok x)
        × F.post make x (held_of block.entry) command)
        (λ fault. Fails fault (one_name (words text.now))) }
{
    let x = one_name(alloc, text)?;
    Ok(make(x, Held::of(alloc, block)?))
}

/// `criterion CRIT EL EL` and more EL.
#[tactic(auto, unfolding(crate::specs::Forms::criterion))]
fn criterion(alloc: Global, text: &[u8]) -> Result<Command, Fault>
    ensures { (held : Held) → Gives result (criterion (words text.now) held) }
{
    let (x, elements) = next_word(text)?;
    let (_, others) = next_word(elements)?;
    next_word(others)?;
    Ok(Command::Criterion(new_name(alloc, x)?, names(alloc, elements)?))
}

/// `judge CRIT EL EL CAT`.
#[tactic(auto, unfolding(crate::specs::Forms::judge))]
fn judge(alloc: Global, text: &[u8]) -> Result<Command, Fault>
    ensures { (held : Held) → Gives result (judge (words text.now) held) }
{
    let (criterion, x, y, category) = four_words(text)?;
    Ok(Command::Judge(
        name(alloc, criterion)?,
        name(alloc, x)?,
        name(alloc, y)?,
        range(category)?,
    ))
}

/// `weigh-order CRIT` and more CRIT.
#[tactic(auto, unfolding(crate::specs::Forms::weigh_order))]
fn weigh_order(alloc: Global, text: &[u8]) -> Result<Command, Fault>
    ensures { (held : Held) → Gives result (weigh_order (words text.now) held) }
{
    next_word(text)?;
    Ok(Command::WeighOrder(names(alloc, text)?))
}

/// `weigh CRIT CRIT CAT`.
#[tactic(auto, unfolding(crate::specs::Forms::weigh))]
fn weigh(alloc: Global, text: &[u8]) -> Result<Command, Fault>
    ensures { (held : Held) → Gives result (weigh (words text.now) held) }
{
    let (x, y, category) = three_words(text)?;
    Ok(Command::Weigh(name(alloc, x)?, name(alloc, y)?, range(category)?))
}

/// `reach CRIT N`.
#[tactic(auto, unfolding(crate::specs::Forms::reach_of))]
fn reach_of(alloc: Global, text: &[u8]) -> Result<Command, Fault>
    ensures { (held : Held) → Gives result (reach_of (words text.now) held) }
{
    let (criterion, number) = two_words(text)?;
    Ok(Command::Reach(name(alloc, criterion)?, reach(number)?))
}

/// `fits MAT V` and more V.
#[tactic(auto, unfolding(crate::specs::Forms::fits))]
fn fits(alloc: Global, text: &[u8]) -> Result<Command, Fault>
    ensures { (held : Held) → Gives result (fits (words text.now) held) }
{
    let (criterion, text) = next_word(text)?;
    next_word(text)?;
    Ok(Command::Fits(name(alloc, criterion)?, values(alloc, text)?))
}

/// `group GRP` and `group GRP GRP`.
#[tactic(auto, unfolding(crate::specs::Forms::group))]
fn group(alloc: Global, text: &[u8]) -> Result<Command, Fault>
    ensures { (held : Held) → Gives result (group (words text.now) held) }
{
    let (x, text) = next_word(text)?;
    match split_word(text) {
        None => Ok(Command::Group(name(alloc, x)?, None)),
        Some((parent, text)) => match split_word(text) {
            None => sub_group(alloc, x, parent),
            Some(_) => Err(Fault::Refused(Refusal::WrongCount)),
        },
    }
}

#[tactic(auto, unfolding(crate::specs::Forms::group))]
fn sub_group(alloc: Global, x: &[u8], parent: &[u8]) -> Result<Command, Fault>
    ensures { (held : Held) → Gives result (group (x.now ∷ parent.now ∷ []) held) }
{
    let x = name(alloc, x)?;
    Ok(Command::Group(x, Some(name(alloc, parent)?)))
}

/// `export matrix MAT`, `export anchored CRIT`, `export weights` and `export scores`.
#[tactic(auto, unfolding(crate::specs::Forms::export))]
fn export(alloc: Global, text: &[u8]) -> Result<Command, Fault>
    ensures { (held : Held) → Gives result (export (words text.now) held) }
{
    let (what, text) = next_word(text)?;
    if what == b"matrix".as_slice() {
        one(alloc, text, Command::ExportMatrix)
    } else if what == b"anchored".as_slice() {
        one(alloc, text, Command::ExportAnchored)
    } else if what == b"weights".as_slice() {
        alone(text, Command::ExportWeights)
    } else if what == b"scores".as_slice() {
        alone(text, Command::ExportScores)
    } else {
        Err(Fault::Refused(Refusal::WrongCount))
    }
}

/// The first word of a text, which has one, and what follows it.
fn next_word(text: &[u8]) -> Result<(&[u8], &[u8]), Fault>
    ensures { MatchResult result (λ w. words text.now ≡ w.0.now ∷ words w.1.now)
        (λ fault. (words text.now ≡ []) × (fault ≡ Fault.Refused Refusal.WrongCount)) }
{
    split_word(text).ok_or(Fault::Refused(Refusal::WrongCount))
}

/// Nothing but blanks.
#[tactic(auto, unfolding(crate::specs::Forms::no_word))]
fn no_word(text: &[u8]) -> Result<(), Fault>
    ensures { Sees (λ x. tt) result (no_word (words text.now)) }
{
    match split_word(text) {
        None => Ok(()),
        Some(_) => Err(Fault::Refused(Refusal::WrongCount)),
    }
}

#[tactic(auto, unfolding(crate::specs::Forms::one_word))]
fn one_word(text: &[u8]) -> Result<&[u8], Fault>
    ensures { Sees (λ x. x.now) result (one_word (words text.now)) }
{
    let (x, text) = next_word(text)?;
    match split_word(text) {
        None => Ok(x),
        Some(_) => Err(Fault::Refused(Refusal::WrongCount)),
    }
}

#[tactic(auto, unfolding(crate::specs::Forms::two_words))]
fn two_words(text: &[u8]) -> Result<(&[u8], &[u8]), Fault>
    ensures { Sees (λ w. (w.0.now, w.1.now)) result (two_words (words text.now)) }
{
    let (x, text) = next_word(text)?;
    let (y, text) = next_word(text)?;
    match split_word(text) {
        None => Ok((x, y)),
        Some(_) => Err(Fault::Refused(Refusal::WrongCount)),
    }
}

#[tactic(auto, unfolding(crate::specs::Forms::three_words))]
fn three_words(text: &[u8]) -> Result<(&[u8], &[u8], &[u8]), Fault>
    ensures { Sees (λ w. (w.0.now, w.1.now, w.2.now)) result (three_words (words text.now)) }
{
    let (x, text) = next_word(text)?;
    let (y, text) = next_word(text)?;
    let (z, text) = next_word(text)?;
    match split_word(text) {
        None => Ok((x, y, z)),
        Some(_) => Err(Fault::Refused(Refusal::WrongCount)),
    }
}

#[tactic(auto, unfolding(crate::specs::Forms::four_words))]
fn four_words(text: &[u8]) -> Result<(&[u8], &[u8], &[u8], &[u8]), Fault>
    ensures { Sees (λ w. (w.0.now, w.1.now, w.2.now, w.3.now)) result
        (four_words (words text.now)) }
{
    let (x, text) = next_word(text)?;
    let (y, text) = next_word(text)?;
    let (z, text) = next_word(text)?;
    let (w, text) = next_word(text)?;
    match split_word(text) {
        None => Ok((x, y, z, w)),
        Some(_) => Err(Fault::Refused(Refusal::WrongCount)),
    }
}

#[tactic(auto, unfolding(crate::specs::Forms::one_name))]
fn one_name(alloc: Global, text: &[u8]) -> Result<Name, Fault>
    ensures { Gives result (one_name (words text.now)) }
{
    name(alloc, one_word(text)?)
}

#[tactic(auto, unfolding(crate::specs::Forms::two_names))]
fn two_names(alloc: Global, text: &[u8]) -> Result<(Name, Name), Fault>
    ensures { Gives result (two_names (words text.now)) }
{
    let (x, y) = two_words(text)?;
    Ok((name(alloc, x)?, name(alloc, y)?))
}

#[tactic(auto, unfolding(crate::specs::Forms::three_names))]
fn three_names(alloc: Global, text: &[u8]) -> Result<(Name, Name, Name), Fault>
    ensures { Gives result (three_names (words text.now)) }
{
    let (x, y, z) = three_words(text)?;
    Ok((name(alloc, x)?, name(alloc, y)?, name(alloc, z)?))
}
