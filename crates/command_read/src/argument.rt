//! What a word of a command stands for.
ghost use Rattle.std.specs.Prelude.{◌≡◌, ◌≤◌, ◌<◌, IsTrue, SomeIff, ◌^◌, true, length};
ghost use Rattle.std.specs.Char.{is_ascii_digit};
ghost use Rattle.std.specs.List.{list_all};
ghost use Rattle.std.specs.Str.Parse.{digits_value};
ghost use Rattle.model_core.specs.State.{is_reserved};
ghost use Rattle.command_read.specs.Parts.{name, new_name, names, range, reach, values, is_numeral, fractions, fraction, ends_in_zero};
ghost use Rattle.command_read.specs.Refusals.{Gives, Sees};
ghost use Rattle.command_read.specs.Words.{words};

use crate::parts::{Names, NewName, Reach, Values};
use crate::refusal::{Fault, Refusal};
use crate::word::split_word;
use frac128::{Frac, read_frac};
use judgement_matrix::Range;
use model_core::{LEAST_REACH, MOST_REACH, Name, read_range};
use std::alloc::Global;

/// A name of whatever there is.
pub(crate) fn name(alloc: Global, word: &[u8]) -> Result<Name, Fault>
    ensures { Gives result (name word.now) }
{
    match Name::check(alloc, word)? {
        Some(name) => Ok(name),
        None => Err(Fault::Refused(Refusal::BadName)),
    }
}

/// The name of a new criterion.
pub(crate) fn new_name(alloc: Global, word: &[u8]) -> Result<NewName, Fault>
    ensures { Gives result (new_name word.now) }
{
    let name = name(alloc, word)?;
    if is_reserved(word) {
        return Err(Fault::Refused(Refusal::BadName));
    }
    Ok(NewName::make(name))
}

fn is_reserved(word: &[u8]) -> bool
    ensures { result ≡ is_reserved word.now }
{
    word == b"none".as_slice() || word == b"weighting".as_slice()
}

/// The words of a text as names of whatever there is.
pub(crate) fn names<const LEAST: usize>(alloc: Global, text: &[u8]) -> Result<Names<LEAST>, Fault>
    requires { LEAST ≤ length (words text.now) }
    ensures { Gives result (names (words text.now)) }
{
    let mut names = Vec::new(alloc);
    let mut rest = text;
    while let Some((word, after)) = split_word(rest) {
        names.push(name(alloc, word)?)?;
        rest = after;
    }
    Ok(Names::make(names))
}

/// A category or a run of categories.
pub(crate) fn range(word: &[u8]) -> Result<Range, Fault>
    ensures { Gives result (range word.now) }
{
    match read_range(word) {
        Some(range) => Ok(range),
        None => Err(Fault::Refused(Refusal::BadCategory)),
    }
}

/// The reach of a criterion.
pub(crate) fn reach(word: &[u8]) -> Result<Reach, Fault>
    ensures { Gives result (reach word.now) }
{
    if !is_numeral(word) {
        return Err(Fault::Refused(Refusal::BadNumber));
    }
    match number(word) {
        Some(reach) if reach >= LEAST_REACH && reach <= MOST_REACH => Ok(Reach::make(reach)),
        _ => Err(Fault::Refused(Refusal::BadNumber)),
    }
}

/// The number that digits write, where it fits.
fn number(digits: &[u8]) -> Option<u32>
    requires { is_numeral digits.now ≡ true }
    ensures { SomeIff result (digits_value 10 digits.now < 2 ^ 32) (digits_value 10 digits.now) }
{
    str::from_utf8(digits).ok()?.parse::<u32>().ok()
}

fn is_numeral(word: &[u8]) -> bool
    ensures { result ≡ is_numeral word.now }
{
    !word.is_empty() && are_digits(word)
}

fn are_digits(word: &[u8]) -> bool
    ensures { result ≡ list_all is_ascii_digit word.now }
{
    word.iter().all(|byte| byte.is_ascii_digit())
}

/// The words of a text as the values of a scale, the last one 0.
#[tactic(auto, unfolding(crate::specs::Parts::values))]
pub(crate) fn values(alloc: Global, text: &[u8]) -> Result<Values, Fault>
    ensures { Gives result (values (words text.now)) }
{
    let all = fractions(alloc, text)?;
    if !ends_in_zero(&all) {
        return Err(Fault::Refused(Refusal::BadNumber));
    }
    Ok(Values::make(all))
}

/// The words of a text as fractions.
#[tactic(auto, unfolding(crate::specs::Parts::fractions))]
fn fractions(alloc: Global, text: &[u8]) -> Result<Vec<Frac>, Fault>
    ensures { Sees (λ all. all.items) result (fractions (words text.now)) }
{
    let mut all = Vec::new(alloc);
    let mut rest = text;
    while let Some((word, after)) = split_word(rest) {
        all.push(fraction(word)?)?;
        rest = after;
    }
    Ok(all)
}

fn fraction(word: &[u8]) -> Result<Frac, Fault>
    ensures { Gives result (fraction word.now) }
{
    match read_frac(word).ok() {
        Some(value) => Ok(value),
        None => Err(Fault::Refused(Refusal::BadNumber)),
    }
}

fn ends_in_zero(values: &[Frac]) -> bool
    ensures { result ≡ ends_in_zero values.now }
{
    match values.last() {
        Some(last) => last.num() == 0,
        None => false,
    }
}
