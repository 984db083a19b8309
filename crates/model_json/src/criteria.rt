//! Criteria of a JSON value.
ghost use Rattle.std.specs.Prelude.{Ok, Some, IsTrue, ◌≡◌, ◌≤◌, ◌<◌, ◌++◌, ◌∷◌, [], false, length, is_some, IfOk, IfSome, OnOk, option_map, codes};
ghost use Rattle.std.specs.List.{list_any};
ghost use Rattle.std.specs.Str.{bytes_eq};
ghost use Rattle.serde_json.specs.View.{view, items_view};
ghost use Rattle.serde_json.specs.Find.{get_item};
ghost use Rattle.word_table.specs.Words.{AreApart};
ghost use Rattle.judgement_matrix.specs.declared.matrix.TheConstants.{LIMIT};
ghost use Rattle.model_core.specs.Lists.{find};
ghost use Rattle.model_core.specs.State.{is_reserved};
ghost use Rattle.model_core.specs.Finding.{find_element};
ghost use Rattle.model_core.specs.Edits.{with_criterion, group_named};
ghost use Rattle.judgement_matrix.specs.declared.reach.TheConstants.{LEAST_REACH, MOST_REACH};
ghost use Rattle.model_json.specs.Steps.{Gives, Reads, each_into, object_at};
ghost use Rattle.model_json.specs.Reading.{is_free, place_among, element_of, elements_of, element_or, reach_or, free_name_of, references_of, details_of, parts_of, criterion_keys, criterion_of};
ghost use Rattle.model_json.specs.declared.place.Place.TheVariants as place;

use crate::fault::Stop;
use crate::groups::{group_or_root, parent_name};
use crate::judgements::read_judgements;
use crate::place::Place;
use crate::steps::{array_at, holds_or, name_at, object_at, string_at, whole};
use judgement_matrix::{LIMIT, Matrix};
use model_core::{
    CRITERIA, LEAST_REACH, MOST_REACH, Model, NEW_REACH, Name, NoMemory, is_reserved,
};
use serde_json::Value;
use std::alloc::Global;

// The parts of a criterion, seen as the criterion.
#[derive(Drop)]
struct Parts {
    name: Name,
    elements: Vec<Name>,
    good: usize,
    neutral: usize,
    matrix: Matrix,
    reach: u32,
    group: Option<usize>,
}

impl std::marker::Model for Parts {
    ghost use Rattle.model_core.specs.State.{CriterionState, IsCriterion};

    ghost Value = { CriterionState };

    ghost view = { λ p. record { name = p.name; elements = p.elements.items; good = p.good; neutral = p.neutral; matrix = p.matrix; reach = p.reach; group = p.group } };

    ghost invariant = { λ p. IsCriterion (record { name = p.name; elements = p.elements.items; good = p.good; neutral = p.neutral; matrix = p.matrix; reach = p.reach; group = p.group }) };
}

fn is_same(name: &[u8], other: &Name) -> bool
    ensures { result ≡ bytes_eq name.now other.now }
{
    name == other.as_bytes()
}

fn is_among(name: &[u8], names: &[Name]) -> bool
    ensures { result ≡ list_any (bytes_eq name.now) names.now }
{
    names.iter().any(|other| is_same(name, other))
}

fn find_name(names: &[Name], name: &[u8]) -> Option<usize>
    ensures place { result ≡ find (λ other. other) names.now name.now }
    ensures within { IfSome result (λ at. at < length names.now) }
{
    names.iter().position(|other| is_same(name, other))
}

// Where a name stands among these, from 1.
fn place_among(names: &[Name], name: &[u8]) -> Option<usize>
    ensures place { result ≡ place_among names.now name.now }
    ensures within { IfSome result (λ at. (1 ≤ at) × (at ≤ length names.now)) }
{
    match find_name(names, name) {
        None => None,
        Some(at) => Some(at + 1),
    }
}

#[tactic(auto, unfolding(crate::specs::Reading::element_of))]
fn read_element(
    alloc: Global,
    i: usize,
    j: usize,
    elements: &[Name],
    value: &Value,
) -> Result<Name, Stop>
    ensures name { Gives (λ name. elements.now ++ name ∷ []) result
        (element_of i j elements.now (view value.now)) }
    ensures free { IfOk result (λ name. list_any (bytes_eq name) elements.now ≡ false) }
    ensures few { OnOk result (j < LIMIT) }
{
    let place = Place::Element(i, j);
    let name = name_at(alloc, place, Some(value))?;
    let is_free = !is_among(name.as_bytes(), elements);
    holds_or(place, is_free)?;
    holds_or(place, j < LIMIT)?;
    Ok(name)
}

fn read_each_element(alloc: Global, i: usize, values: &[Value]) -> Result<Vec<Name>, Stop>
    ensures names { Gives (λ names. names.items) result
        (each_into (element_of i) 0 [] (items_view values.now)) }
    ensures each { IfOk result (λ names. length names.items ≡ length values.now) }
    ensures few { IfOk result (λ names. length names.items ≤ LIMIT) }
    ensures apart { IfOk result (λ names. AreApart names.items) }
{
    let mut elements = Vec::new(alloc);
    'values: for (j, value) in values.iter().enumerate() {
        let element = read_element(alloc, i, j, &elements, value)?;
        elements.push(element)?;
    }
    Ok(elements)
}

fn are_several(values: &[Value]) -> bool
    ensures value { result ≡ is_some (get_item 1 (items_view values.now)) }
    ensures several { IsTrue result → 2 ≤ length values.now }
{
    values.get(1usize).is_some()
}

#[tactic(auto, unfolding(crate::specs::Reading::elements_of))]
fn read_elements(alloc: Global, i: usize, value: Option<&Value>) -> Result<Vec<Name>, Stop>
    ensures elements { Gives (λ names. names.items) result
        (elements_of i (option_map (λ v. view v.now) value.entry)) }
    ensures few { IfOk result (λ names. (2 ≤ length names.items) × (length names.items ≤ LIMIT)) }
    ensures apart { IfOk result (λ names. AreApart names.items) }
{
    let place = Place::Elements(i);
    let values = array_at(place, value)?;
    holds_or(place, are_several(values))?;
    read_each_element(alloc, i, values)
}

// The place of the element that stands here, or this one where there is no such key.
fn element_or(
    place: Place,
    elements: &[Name],
    absent: usize,
    value: Option<&Value>,
) -> Result<usize, Stop>
    requires { (1 ≤ absent) × (absent ≤ length elements.now) }
    ensures element { Gives (λ at. at) result
        (element_or place elements.now absent (option_map (λ v. view v.now) value.entry)) }
    ensures within { IfOk result (λ at. (1 ≤ at) × (at ≤ length elements.now)) }
{
    let Some(value) = value else {
        return Ok(absent);
    };
    let name = string_at(place, Some(value))?;
    match place_among(elements, name.as_bytes()) {
        None => Err(Stop::At(place)),
        Some(at) => Ok(at),
    }
}

#[tactic(auto, unfolding(crate::specs::Reading::references_of))]
fn read_references(i: usize, elements: &[Name], value: &Value) -> Result<(usize, usize), Stop>
    requires { 2 ≤ length elements.now }
    ensures references { Gives (λ pair. pair) result
        (references_of i elements.now (view value.now)) }
    ensures within { IfOk result (λ pair.
        (1 ≤ pair.0) × ((pair.0 < pair.1) × (pair.1 ≤ length elements.now))) }
{
    let good = element_or(Place::Good(i), elements, 1, value.get("good"))?;
    let neutral = element_or(
        Place::Neutral(i),
        elements,
        elements.len(),
        value.get("neutral"),
    )?;
    holds_or(Place::Neutral(i), good < neutral)?;
    Ok((good, neutral))
}

fn reach_or(place: Place, value: Option<&Value>) -> Result<u32, Stop>
    ensures reach { Gives (λ reach. reach) result
        (reach_or place (option_map (λ v. view v.now) value.entry)) }
    ensures bounds { IfOk result (λ reach. (LEAST_REACH ≤ reach) × (reach ≤ MOST_REACH)) }
{
    let Some(value) = value else {
        return Ok(NEW_REACH);
    };
    let Some(reach) = whole(Some(value)) else {
        return Err(Stop::At(place));
    };
    holds_or(
        place,
        u64::from(LEAST_REACH) <= reach && reach <= u64::from(MOST_REACH),
    )?;
    Ok(reach as u32)
}

#[tactic(auto, unfolding(crate::specs::Reading::is_free))]
fn is_free(model: &Model, name: &[u8]) -> bool
    ensures free { result ≡ is_free model.now name.now }
    ensures plain { IsTrue result → is_reserved name.now ≡ false }
{
    !is_reserved(name) && model.find_criterion(name).is_none()
}

#[tactic(auto, unfolding(crate::specs::Reading::free_name_of))]
fn read_free_name(
    alloc: Global,
    i: usize,
    model: &Model,
    value: Option<&Value>,
) -> Result<Name, Stop>
    ensures name { Gives (λ name. name) result
        (free_name_of i model.now (option_map (λ v. view v.now) value.entry)) }
    ensures free { IfOk result (λ name. is_reserved name ≡ false) }
{
    let place = Place::CriterionName(i);
    let name = name_at(alloc, place, value)?;
    holds_or(place, is_free(model, name.as_bytes()))?;
    Ok(name)
}

// An object has no keys but those of a criterion. Format 1 has no groups.
fn check_keys(grouped: bool, i: usize, value: &Value) -> Result<(), Stop>
    ensures { Gives (λ done. done) result
        (object_at (place.Criterion i) (criterion_keys grouped) (view value.now)) }
{
    let place = Place::Criterion(i);
    if grouped {
        return object_at(
            place,
            &[
                "elements",
                "good",
                "judgements",
                "name",
                "neutral",
                "reach",
                "group",
            ],
            value,
        );
    }
    object_at(
        place,
        &["elements", "good", "judgements", "name", "neutral", "reach"],
        value,
    )
}

// What stands beside the name and the elements of a criterion.
#[derive(Drop)]
struct Details {
    good: usize,
    neutral: usize,
    matrix: Matrix,
    reach: u32,
    group: Option<usize>,
}

#[tactic(auto, unfolding(crate::specs::Reading::details_of))]
fn read_details(
    alloc: Global,
    i: usize,
    model: &Model,
    elements: &[Name],
    value: &Value,
) -> Result<Details, Stop>
    requires { (2 ≤ length elements.now) × (length elements.now ≤ LIMIT) }
    ensures details { Gives (λ details. details) result
        (details_of i model.now elements.now (view value.now)) }
    ensures references { IfOk result (λ details. (1 ≤ details.good)
        × ((details.good < details.neutral) × (details.neutral ≤ length elements.now))) }
    ensures size { IfOk result (λ details. details.matrix.size ≡ length elements.now) }
    ensures reach { IfOk result (λ details.
        (LEAST_REACH ≤ details.reach) × (details.reach ≤ MOST_REACH)) }
    ensures within { IfOk result (λ details.
        IfSome details.group (λ at. at < length model.now.groups)) }
{
    let (good, neutral) = read_references(i, elements, value)?;
    let matrix = read_judgements(alloc, Some(i), elements.len(), value.get("judgements"))?;
    let reach = reach_or(Place::Reach(i), value.get("reach"))?;
    let group = group_or_root(Place::CriterionGroup(i), model, value.get("group"))?;
    Ok(Details {
        good,
        neutral,
        matrix,
        reach,
        group,
    })
}

#[tactic(auto, unfolding(crate::specs::Reading::parts_of))]
fn read_parts(
    alloc: Global,
    grouped: bool,
    i: usize,
    model: &Model,
    value: &Value,
) -> Result<Parts, Stop>
    ensures parts { Gives (λ parts. parts) result (parts_of grouped i model.now (view value.now)) }
    ensures within { IfOk result (λ parts.
        IfSome parts.group (λ at. at < length model.now.groups)) }
{
    check_keys(grouped, i, value)?;
    holds_or(Place::Criterion(i), i < CRITERIA)?;
    let name = read_free_name(alloc, i, model, value.get("name"))?;
    let elements = read_elements(alloc, i, value.get("elements"))?;
    let details = read_details(alloc, i, model, &elements, value)?;
    Ok(Parts {
        name,
        elements,
        good: details.good,
        neutral: details.neutral,
        matrix: details.matrix,
        reach: details.reach,
        group: details.group,
    })
}

// The names by which the edits find a new criterion, its references and its group.
#[derive(Drop)]
struct Names {
    name: Name,
    good: Name,
    neutral: Name,
    group: Option<Name>,
}

fn reference_name(parts: &Parts, at: usize) -> Result<Name, NoMemory>
    requires { (1 ≤ at) × (at ≤ length parts.now.elements) }
    ensures { IfOk result (λ name. find_element parts.now name ≡ Some at) }
{
    parts.elements[at - 1].copy()
}

// The names of the good and of the neutral element.
fn reference_names(parts: &Parts) -> Result<(Name, Name), NoMemory>
    ensures good { IfOk result (λ names. find_element parts.now names.0 ≡ Some parts.now.good) }
    ensures neutral { IfOk result (λ names.
        find_element parts.now names.1 ≡ Some parts.now.neutral) }
{
    let good = reference_name(parts, parts.good)?;
    let neutral = reference_name(parts, parts.neutral)?;
    Ok((good, neutral))
}

// Copies of the names, since the parts themselves move into the model.
fn names_of(model: &Model, parts: &Parts) -> Result<Names, NoMemory>
    requires { IfSome parts.now.group (λ at. at < length model.now.groups) }
    ensures name { IfOk result (λ names. names.name ≡ parts.now.name) }
    ensures good { IfOk result (λ names.
        find_element parts.now names.good ≡ Some parts.now.good) }
    ensures neutral { IfOk result (λ names.
        find_element parts.now names.neutral ≡ Some parts.now.neutral) }
    ensures group { IfOk result (λ names.
        group_named model.now names.group ≡ Ok parts.now.group) }
{
    let name = parts.name.copy()?;
    let (good, neutral) = reference_names(parts)?;
    let group = parent_name(model, parts.group)?;
    Ok(Names {
        name,
        good,
        neutral,
        group,
    })
}

fn bytes_of(name: &Option<Name>) -> Option<&[u8]>
    ensures { option_map (λ bytes. bytes.now) result ≡ name.now }
{
    match name {
        None => None,
        Some(name) => Some(name.as_bytes()),
    }
}

// Adds a criterion with these parts, which have these names. What can refuse an edit was checked before, so that only
// memory may be wanting, and that by the first edit alone.
fn add_named(model: &mut Model, parts: Parts, names: &Names) -> Result<(), Stop>
    requires name { names.now.name ≡ parts.name }
    requires good { find_element parts names.now.good ≡ Some parts.good }
    requires neutral { find_element parts names.now.neutral ≡ Some parts.neutral }
    requires group { group_named model.old names.now.group ≡ Ok parts.group }
    ensures { Reads result (Ok (with_criterion model.old parts)) model.new }
{
    let name = names.name.as_bytes();
    let Ok(()) = model.add_criterion(parts.name, parts.elements) else {
        return Err(Stop::NoMemory);
    };
    let Ok(()) = model.set_refs(name, names.good.as_bytes(), names.neutral.as_bytes()) else {
        unreachable!()
    };
    let Ok(()) = model.set_matrix(name, parts.matrix) else {
        unreachable!()
    };
    let Ok(()) = model.set_reach(name, parts.reach) else {
        unreachable!()
    };
    let Ok(()) = model.place(name, bytes_of(&names.group)) else {
        unreachable!()
    };
    Ok(())
}

// Adds a criterion with these parts.
fn add_parts(model: &mut Model, parts: Parts) -> Result<(), Stop>
    requires { IfSome parts.group (λ at. at < length model.old.groups) }
    ensures { Reads result (Ok (with_criterion model.old parts)) model.new }
{
    let names = names_of(model, &parts)?;
    add_named(model, parts, &names)
}

/// Adds the criterion that a value is.
#[tactic(auto, unfolding(crate::specs::Reading::criterion_of))]
pub(crate) fn read_criterion(
    alloc: Global,
    grouped: bool,
    i: usize,
    model: &mut Model,
    value: &Value,
) -> Result<(), Stop>
    ensures { Reads result (criterion_of grouped i model.old (view value.now)) model.new }
{
    let parts = read_parts(alloc, grouped, i, model, value)?;
    add_parts(model, parts)
}
