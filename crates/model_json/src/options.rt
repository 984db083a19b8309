//! The options of a model.
ghost use Rattle.std.specs.Prelude.{◌≡◌, ◌<◌, ◌≤◌, length, option_map, Ok, None, not, is_some, map, replicate, string_bytes};
ghost use Rattle.std.specs.List.{list_all};
ghost use Rattle.std.specs.BTreeMap.{keys as keys_of};
ghost use Rattle.serde_json.specs.View.{view, items_view, members_view};
ghost use Rattle.model_core.specs.State.{IsRow};
ghost use Rattle.model_core.specs.Finding.{find_option, find_criterion, criterion_at};
ghost use Rattle.model_core.specs.Edits.{with_option, with_performance};
ghost use Rattle.model_json.specs.Steps.{Gives, Reads, each_into, has_only, object_at};
ghost use Rattle.serde_json.specs.Find.{get};
ghost use Rattle.model_json.specs.Reading.{performance_of, performances_of, row_of, with_row, option_of};

use crate::fault::Stop;
use crate::names::{criterion_name, element_name, option_name};
use crate::place::Place;
use crate::steps::{holds_or, name_at, object_at, string_at};
use model_core::laws::what_a_model_keeps;
use model_core::{Criterion, Model, Name, OPTIONS};
use serde_json::{Map, Value};
use std::alloc::Global;

/// Adds the options that the values are.
pub(crate) fn read_options(alloc: Global, model: &mut Model, values: &[Value]) -> Result<(), Stop>
    ensures { Reads result (each_into option_of 0 model.old (items_view values.now)) model.new }
{
    'values: for i in 0..values.len() {
        read_option(alloc, i, model, &values[i])?;
    }
    Ok(())
}

// Adds the option that a value is.
#[tactic(auto, unfolding(crate::specs::Reading::option_of))]
fn read_option(alloc: Global, i: usize, model: &mut Model, value: &Value) -> Result<(), Stop>
    ensures { Reads result (option_of i model.old (view value.now)) model.new }
{
    object_at(Place::OptionAt(i), &["name", "performances"], value)?;
    holds_or(Place::OptionAt(i), i < OPTIONS)?;
    let name = name_at(alloc, Place::OptionName(i), value.get("name"))?;
    holds_or(Place::OptionName(i), is_new(model, &name))?;
    let row = row_of(
        alloc,
        Place::Performances(i),
        model,
        value.get("performances"),
    )?;
    add_option(model, name, &row)
}

fn is_new(model: &Model, name: &Name) -> bool
    ensures { result ≡ not (is_some (find_option model.now name.now)) }
{
    model.find_option(name.as_bytes()).is_none()
}

// A place for each criterion, with nothing or an element of it.
#[tactic(auto, unfolding(crate::specs::Reading::row_of))]
fn row_of(
    alloc: Global,
    place: Place,
    model: &Model,
    value: Option<&Value>,
) -> Result<Vec<Option<usize>>, Stop>
    ensures { Gives (λ row. row.items) result
        (row_of place model.now.criteria (option_map (λ v. view v.now) value.entry)) }
{
    let Some(value) = value else {
        return nowhere(alloc, model);
    };
    criteria_at(place, model, value)?;
    performances_of(alloc, place, model, value)
}

// Stops here unless the value is an object whose keys are criteria.
fn criteria_at(place: Place, model: &Model, value: &Value) -> Result<(), Stop>
    ensures { Gives (λ x. x) result
        (object_at place (map (λ c. c.name) model.now.criteria) (view value.now)) }
{
    match value.as_object() {
        Some(members) => holds_or(place, has_only_criteria(model, members)),
        None => Err(Stop::At(place)),
    }
}

fn has_only_criteria(model: &Model, members: &Map<String, Value>) -> bool
    ensures { result
        ≡ has_only (map (λ c. c.name) model.now.criteria) (members_view members.now.entries) }
{
    are_criteria(model, members)
}

fn are_criteria(model: &Model, members: &Map<String, Value>) -> bool
    ensures { result
        ≡ list_all (λ key. is_some (find_criterion model.now (string_bytes key)))
        (keys_of members.now) }
{
    members.keys().all(|key| is_criterion(model, key.as_str()))
}

fn is_criterion(model: &Model, name: &str) -> bool
    ensures { result ≡ is_some (find_criterion model.now name.now) }
{
    model.find_criterion(name.as_bytes()).is_some()
}

// A row of an option that performs on no criterion.
fn nowhere(alloc: Global, model: &Model) -> Result<Vec<Option<usize>>, Stop>
    ensures { Gives (λ row. row.items) result (Ok (replicate (length model.now.criteria) None)) }
{
    let mut row = Vec::new(alloc);
    'criteria: for _ in 0..model.criteria() {
        row.push(None)?;
    }
    Ok(row)
}

// The performances of an option on all criteria.
fn performances_of(
    alloc: Global,
    place: Place,
    model: &Model,
    value: &Value,
) -> Result<Vec<Option<usize>>, Stop>
    ensures { Gives (λ row. row.items) result
        (performances_of place model.now.criteria (view value.now)) }
{
    let mut row = Vec::new(alloc);
    'criteria: for c in 0..model.criteria() {
        let performance = performance_on(place, model.criterion(c), value)?;
        row.push(performance)?;
    }
    Ok(row)
}

// The performance of an option on a criterion.
fn performance_on(place: Place, criterion: &Criterion, value: &Value) -> Result<Option<usize>, Stop>
    ensures { Gives (λ x. x) result
        (performance_of place criterion.now (get criterion.now.name (view value.now))) }
{
    performance_of(place, criterion, value.get(criterion.name().as_str()))
}

fn performance_of(
    place: Place,
    criterion: &Criterion,
    value: Option<&Value>,
) -> Result<Option<usize>, Stop>
    ensures { Gives (λ x. x) result
        (performance_of place criterion.now (option_map (λ v. view v.now) value.entry)) }
{
    let Some(value) = value else {
        return Ok(None);
    };
    let name = string_at(place, Some(value))?;
    match criterion.find_element(name.as_bytes()) {
        Some(element) => Ok(Some(element)),
        None => Err(Stop::At(place)),
    }
}

// Adds an option that performs so.
fn add_option(model: &mut Model, name: Name, row: &[Option<usize>]) -> Result<(), Stop>
    requires { IsRow model.old.criteria row.now }
    ensures { Reads result (Ok (with_row model.old name row.now)) model.new }
{
    // Each option has a row.
    what_a_model_keeps(model);
    let option = model.options();
    push_option(model, name)?;
    'row: for criterion in 0..row.len() {
        let Some(element) = row[criterion] else {
            continue;
        };
        perform(model, option, criterion, element)?;
    }
    Ok(())
}

fn push_option(model: &mut Model, name: Name) -> Result<(), Stop>
    ensures { Reads result (Ok (with_option model.old name)) model.new }
{
    // What can refuse it was checked before, so that only memory may be wanting.
    match model.add_option(name) {
        Ok(()) => Ok(()),
        Err(_) => Err(Stop::NoMemory),
    }
}

fn perform(model: &mut Model, option: usize, criterion: usize, element: usize) -> Result<(), Stop>
    requires option { option < length model.old.options }
    requires criterion { criterion < length model.old.criteria }
    requires element { (1 ≤ element)
        × (element ≤ length (criterion_at model.old criterion).elements) }
    ensures { Reads result (Ok (with_performance model.old option criterion element)) model.new }
{
    let name = option_name(model, option)?;
    let on = criterion_name(model, criterion)?;
    let best = element_name(model.criterion(criterion), element)?;
    // What can refuse it was checked before, so that only memory may be wanting.
    match model.perform(name.as_bytes(), on.as_bytes(), best.as_bytes()) {
        Ok(()) => Ok(()),
        Err(_) => Err(Stop::NoMemory),
    }
}
