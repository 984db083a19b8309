//! The groups of a model.
ghost use Rattle.std.specs.Prelude.{◌≡◌, ◌<◌, ◌++◌, IfOk, IfSome, length, map};
ghost use Rattle.std.specs.List.{flat_map};
ghost use Rattle.std.specs.Option.{option_map};
ghost use Rattle.session_edits.specs.Groups.{group_entry, group_name, groups_reply, placed_entry};

use crate::NoMemory;
use frac128::List;
use model_core::{Criterion, Model, Name};
use report_text::Reply;
use std::alloc::Global;

/// The list of groups, and the criteria that are placed.
pub(crate) fn groups_reply(alloc: Global, model: &Model) -> Result<Reply, NoMemory>
    ensures { IfOk result (λ r. r ≡ groups_reply model.now) }
{
    let groups = group_entries(alloc, model)?;
    let placed = placed_entries(alloc, model)?;
    Ok(Reply::Groups { groups, placed })
}

// Each group, and the group above it.
fn group_entries(alloc: Global, model: &Model) -> Result<List<(Name, Option<Name>)>, NoMemory>
    ensures { IfOk result (λ v. v ≡ map (group_entry model.now) model.now.groups) }
{
    let mut entries = Vec::new(alloc);
    for at in 0..model.groups() {
        let group = model.group(at);
        let above = group_name(model, group.parent())?;
        entries.push((group.name().copy()?, above))?;
    }
    Ok(List::make(entries))
}

// The name of a group, where there is one.
fn group_name(model: &Model, group: Option<usize>) -> Result<Option<Name>, NoMemory>
    requires { IfSome group (λ g. g < length model.now.groups) }
    ensures { IfOk result (λ name. name ≡ option_map (group_name model.now) group) }
{
    match group {
        Some(at) => Ok(Some(model.group(at).name().copy()?)),
        None => Ok(None),
    }
}

// Each criterion that is placed, and its group.
fn placed_entries(alloc: Global, model: &Model) -> Result<List<(Name, Name)>, NoMemory>
    ensures { IfOk result (λ v. v ≡ flat_map (placed_entry model.now) model.now.criteria) }
{
    let mut entries = Vec::new(alloc);
    for at in 0..model.criteria() {
        push_placed(&mut entries, model, model.criterion(at))?;
    }
    Ok(List::make(entries))
}

// Adds the criterion and its group, if it is placed.
fn push_placed(
    entries: &mut Vec<(Name, Name)>,
    model: &Model,
    criterion: &Criterion,
) -> Result<(), NoMemory>
    requires { IfSome criterion.now.group (λ g. g < length model.now.groups) }
    ensures { IfOk result (λ _. entries.new.items
        ≡ entries.old.items ++ placed_entry model.now criterion.now) }
{
    if let Some(group) = group_name(model, criterion.group())? {
        entries.push((criterion.name().copy()?, group))?;
    }
    Ok(())
}
