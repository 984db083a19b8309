//! From a JSON value to a model.
ghost use Rattle.std.specs.Prelude.{◌≡◌, option_map};
ghost use Rattle.serde_json.specs.View.{view, items_view};
ghost use Rattle.model_core.specs.State.{empty_model};
ghost use Rattle.model_json.specs.Steps.{Gives, Reads, each_into};
ghost use Rattle.model_json.specs.Reading.{if_format, format_of, groups_in, criterion_of, contents_of, model_of};

use crate::criteria::read_criterion;
use crate::fault::Stop;
use crate::groups::read_groups;
use crate::options::read_options;
use crate::place::Place;
use crate::steps::{array_at, array_or_none, holds_or, object_at, whole};
use crate::weighting::read_weighting;
use model_core::Model;
use serde_json::Value;
use std::alloc::Global;

/// The model that a value is.
pub(crate) fn read_model(alloc: Global, value: &Value) -> Result<Model, Stop>
    ensures { Gives (λ model. model) result (model_of (view value.now)) }
{
    let mut model = Model::empty(alloc)?;
    match read_all(alloc, &mut model, value) {
        Ok(()) => Ok(model),
        Err(stop) => {
            drop(model);
            Err(stop)
        }
    }
}

// Adds to an empty model what a value holds.
#[tactic(auto, unfolding(crate::specs::Reading::model_of))]
fn read_all(alloc: Global, model: &mut Model, value: &Value) -> Result<(), Stop>
    requires { model.old ≡ empty_model }
    ensures { Reads result (model_of (view value.now)) model.new }
{
    let keys = ["macbeth", "criteria", "groups", "options", "weighting"];
    object_at(Place::Whole, &keys, value)?;
    let grouped = read_format(value.get("macbeth"))?;
    let groups = groups_in(grouped, value.get("groups"))?;
    read_groups(alloc, model, groups)?;
    read_contents(alloc, grouped, model, value)
}

// Adds the criteria, the options and the weighting that a value holds.
#[tactic(auto, unfolding(crate::specs::Reading::contents_of))]
fn read_contents(alloc: Global, grouped: bool, model: &mut Model, value: &Value) -> Result<(), Stop>
    ensures { Reads result (contents_of grouped model.old (view value.now)) model.new }
{
    let criteria = array_at(Place::Criteria, value.get("criteria"))?;
    read_criteria(alloc, grouped, model, criteria)?;
    let options = array_or_none(Place::Options, value.get("options"))?;
    read_options(alloc, model, options)?;
    read_weighting(alloc, model, value.get("weighting"))
}

// Whether the format has groups.
#[tactic(auto, unfolding(crate::specs::Reading::format_of))]
fn read_format(value: Option<&Value>) -> Result<bool, Stop>
    ensures { Gives (λ grouped. grouped) result
        (format_of (option_map (λ v. view v.now) value.entry)) }
{
    match whole(value) {
        Some(format) => if_format(format),
        None => Err(Stop::At(Place::Version)),
    }
}

fn if_format(format: u64) -> Result<bool, Stop>
    ensures { Gives (λ grouped. grouped) result (if_format format) }
{
    if format == 1 {
        Ok(false)
    } else if format == 2 {
        Ok(true)
    } else {
        Err(Stop::At(Place::Version))
    }
}

// The values of the groups, which format 1 doesn't have.
fn groups_in<'v>(grouped: bool, value: Option<&'v Value>) -> Result<&'v [Value], Stop>
    ensures { Gives (λ values. items_view values.now) result
        (groups_in grouped (option_map (λ v. view v.now) value.entry)) }
{
    let Some(value) = value else {
        return Ok(&[]);
    };
    holds_or(Place::Groups, grouped)?;
    array_at(Place::Groups, Some(value))
}

// Adds the criteria that the values are.
fn read_criteria(
    alloc: Global,
    grouped: bool,
    model: &mut Model,
    values: &[Value],
) -> Result<(), Stop>
    ensures { Reads result
        (each_into (criterion_of grouped) 0 model.old (items_view values.now)) model.new }
{
    'values: for i in 0..values.len() {
        read_criterion(alloc, grouped, i, model, &values[i])?;
    }
    Ok(())
}
