//! The groups of a model.
ghost use Rattle.std.specs.Prelude.{◌≡◌, ◌<◌, length, option_map, IfOk, IfSome, Ok, not, is_some};
ghost use Rattle.serde_json.specs.View.{view, items_view};
ghost use Rattle.model_core.specs.Finding.{find_group};
ghost use Rattle.model_core.specs.Edits.{with_group, group_named};
ghost use Rattle.model_json.specs.Steps.{Gives, Reads, each_into};
ghost use Rattle.model_json.specs.Reading.{group_or_root, group_of};

use crate::fault::Stop;
use crate::names::group_name;
use crate::place::Place;
use crate::steps::{holds_or, name_at, object_at, string_at};
use model_core::{GROUPS, Model, Name, NoMemory};
use serde_json::Value;
use std::alloc::Global;

/// Adds the groups that the values are.
pub(crate) fn read_groups(alloc: Global, model: &mut Model, values: &[Value]) -> Result<(), Stop>
    ensures { Reads result (each_into group_of 0 model.old (items_view values.now)) model.new }
{
    'values: for i in 0..values.len() {
        read_group(alloc, i, model, &values[i])?;
    }
    Ok(())
}

// Adds the group that a value is.
#[tactic(auto, unfolding(crate::specs::Reading::group_of))]
fn read_group(alloc: Global, i: usize, model: &mut Model, value: &Value) -> Result<(), Stop>
    ensures { Reads result (group_of i model.old (view value.now)) model.new }
{
    object_at(Place::Group(i), &["name", "parent"], value)?;
    holds_or(Place::Group(i), i < GROUPS)?;
    let name = name_at(alloc, Place::GroupName(i), value.get("name"))?;
    holds_or(Place::GroupName(i), is_new(model, &name))?;
    let parent = group_or_root(Place::GroupParent(i), model, value.get("parent"))?;
    add_group(model, name, parent)
}

fn is_new(model: &Model, name: &Name) -> bool
    ensures { result ≡ not (is_some (find_group model.now name.now)) }
{
    model.find_group(name.as_bytes()).is_none()
}

/// The root, or the group with the name that stands here.
pub(crate) fn group_or_root(
    place: Place,
    model: &Model,
    value: Option<&Value>,
) -> Result<Option<usize>, Stop>
    ensures group { Gives (λ group. group) result
        (group_or_root place model.now (option_map (λ v. view v.now) value.entry)) }
    ensures within { IfOk result (λ group. IfSome group (λ at. at < length model.now.groups)) }
{
    let Some(value) = value else {
        return Ok(None);
    };
    let name = string_at(place, Some(value))?;
    match model.find_group(name.as_bytes()) {
        Some(at) => Ok(Some(at)),
        None => Err(Stop::At(place)),
    }
}

// Adds a group that belongs to another one or to the root.
fn add_group(model: &mut Model, name: Name, parent: Option<usize>) -> Result<(), Stop>
    requires { IfSome parent (λ at. at < length model.old.groups) }
    ensures { Reads result
        (Ok (with_group model.old (record { name = name; parent = parent }))) model.new }
{
    let above = parent_name(model, parent)?;
    // What can refuse it was checked before, so that only memory may be wanting.
    match model.add_group(name, above) {
        Ok(()) => Ok(()),
        Err(_) => Err(Stop::NoMemory),
    }
}

/// The root, or the name of a group.
pub(crate) fn parent_name(model: &Model, parent: Option<usize>) -> Result<Option<Name>, NoMemory>
    requires { IfSome parent (λ at. at < length model.now.groups) }
    ensures { IfOk result (λ above. group_named model.now above ≡ Ok parent) }
{
    match parent {
        None => Ok(None),
        Some(at) => Ok(Some(group_name(model, at)?)),
    }
}
