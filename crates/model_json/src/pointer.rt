//! Places as JSON pointers.
ghost use Rattle.std.specs.Prelude.{◌≡◌, ◌++◌, IfOk, OnOk, decimal, string_bytes};
ghost use Rattle.model_json.specs.Pointers.{pointer_text};

use crate::place::Place;
use model_core::{NoMemory, Pointer};
use std::alloc::Global;

fn push_number(text: &mut String, alloc: Global, number: usize) -> Result<(), NoMemory>
    ensures { OnOk result (string_bytes text.new ≡ string_bytes text.old ++ decimal number) }
{
    let digits = number.to_string(alloc)?;
    text.push_str(digits.as_str())
}

// A text that ends with a number.
fn numbered(alloc: Global, before: &str, number: usize) -> Result<String, NoMemory>
    ensures { IfOk result (λ text. string_bytes text ≡ before.now ++ decimal number) }
{
    let mut text = String::from_str(alloc, before)?;
    push_number(&mut text, alloc, number)?;
    Ok(text)
}

// A text with a number before its last part.
fn numbered_part(
    alloc: Global,
    before: &str,
    number: usize,
    after: &str,
) -> Result<String, NoMemory>
    ensures { IfOk result (λ text.
        string_bytes text ≡ before.now ++ (decimal number ++ after.now)) }
{
    let mut text = numbered(alloc, before, number)?;
    text.push_str(after)?;
    Ok(text)
}

// A text with a number in it and one at its end.
fn twice_numbered(
    alloc: Global,
    before: &str,
    first: usize,
    between: &str,
    second: usize,
) -> Result<String, NoMemory>
    ensures { IfOk result (λ text. string_bytes text
        ≡ before.now ++ (decimal first ++ (between.now ++ decimal second))) }
{
    let mut text = numbered_part(alloc, before, first, between)?;
    push_number(&mut text, alloc, second)?;
    Ok(text)
}

// The text of the JSON pointer of a place.
fn text_of(alloc: Global, place: Place) -> Result<String, NoMemory>
    ensures { IfOk result (λ text. string_bytes text ≡ pointer_text place) }
{
    match place {
        Place::Whole => String::from_str(alloc, ""),
        Place::Version => String::from_str(alloc, "/macbeth"),
        Place::Groups => String::from_str(alloc, "/groups"),
        Place::Group(i) => numbered(alloc, "/groups/", i),
        Place::GroupName(i) => numbered_part(alloc, "/groups/", i, "/name"),
        Place::GroupParent(i) => numbered_part(alloc, "/groups/", i, "/parent"),
        Place::Criteria => String::from_str(alloc, "/criteria"),
        Place::Criterion(i) => numbered(alloc, "/criteria/", i),
        Place::CriterionName(i) => numbered_part(alloc, "/criteria/", i, "/name"),
        Place::Elements(i) => numbered_part(alloc, "/criteria/", i, "/elements"),
        Place::Element(i, j) => twice_numbered(alloc, "/criteria/", i, "/elements/", j),
        Place::Good(i) => numbered_part(alloc, "/criteria/", i, "/good"),
        Place::Neutral(i) => numbered_part(alloc, "/criteria/", i, "/neutral"),
        Place::Judgements(i) => numbered_part(alloc, "/criteria/", i, "/judgements"),
        Place::Judgement(i, j) => twice_numbered(alloc, "/criteria/", i, "/judgements/", j),
        Place::Reach(i) => numbered_part(alloc, "/criteria/", i, "/reach"),
        Place::CriterionGroup(i) => numbered_part(alloc, "/criteria/", i, "/group"),
        Place::Options => String::from_str(alloc, "/options"),
        Place::OptionAt(i) => numbered(alloc, "/options/", i),
        Place::OptionName(i) => numbered_part(alloc, "/options/", i, "/name"),
        Place::Performances(i) => numbered_part(alloc, "/options/", i, "/performances"),
        Place::Weighting => String::from_str(alloc, "/weighting"),
        Place::Order => String::from_str(alloc, "/weighting/order"),
        Place::Swings => String::from_str(alloc, "/weighting/judgements"),
        Place::Swing(j) => numbered(alloc, "/weighting/judgements/", j),
    }
}

/// The JSON pointer of a place.
pub(crate) fn pointer_of(alloc: Global, place: Place) -> Result<Pointer, NoMemory>
    ensures { IfOk result (λ pointer. pointer ≡ pointer_text place) }
{
    let text = text_of(alloc, place)?;
    Pointer::of(alloc, text.as_str())
}
