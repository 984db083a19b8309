//! From a model to a text.
ghost use Rattle.std.specs.Prelude.{◌≡◌, ◌<◌, ◌≤◌, ◌==◌, ℕ, All, Some, Ok, IfOk, OnOk, IsUtf8, codes, length, map, string_bytes, slice_index_or, []};
ghost use Rattle.std.specs.List.{slice_split};
ghost use Rattle.json.specs.Lex.{tokens};
ghost use Rattle.json.specs.Layout.{pretty};
ghost use Rattle.serde_json.specs.Data.{string, depth, put as with_member};
ghost use Rattle.serde_json.specs.Read.{read, max_depth};
ghost use Rattle.serde_json.specs.View.{view, members_view};
ghost use Rattle.serde_json.specs.Written.{IsInOrder};
ghost use Rattle.model_json.specs.Writing.{array_of, criterion_data, group_data, option_data, options_with_rows, criterion_name, weighting_data, model_data, dump_text};
ghost use Rattle.model_json.specs.Text.{load_of};
ghost use Rattle.model_json.specs.declared.writing.TheConstants.{DUMP_LINE, DUMP_TEXT};

use crate::kept::model_is_named;
use crate::values::{
    criterion_value, group_value, judgements_value, performances_value, put_text, text_value,
};
use judgement_matrix::LIMIT;
use model_core::laws::what_a_model_keeps;
use model_core::{Model, NoMemory};
use serde_json::{Map, Value, put};
use std::alloc::Global;

fn each_criterion(alloc: Global, model: &Model) -> Result<Vec<Value>, NoMemory>
    ensures { IfOk result (λ v.
        map view v.items ≡ map (criterion_data model.now) model.now.criteria) }
{
    let mut values = Vec::new(alloc);
    for at in 0..model.criteria() {
        values.push(criterion_value(alloc, model, model.criterion(at))?)?;
    }
    Ok(values)
}

fn each_group(alloc: Global, model: &Model) -> Result<Vec<Value>, NoMemory>
    ensures { IfOk result (λ v. map view v.items ≡ map (group_data model.now) model.now.groups) }
{
    let mut values = Vec::new(alloc);
    for at in 0..model.groups() {
        values.push(group_value(alloc, model, model.group(at))?)?;
    }
    Ok(values)
}

// The name of an option.
fn option_name(model: &Model, at: usize) -> &str
    requires { at < length model.now.options }
    ensures { result.now ≡ slice_index_or model.now.options at [] }
{
    model.option(at).as_str()
}

#[tactic(auto, unfolding(crate::specs::Writing::option_data))]
fn option_value(alloc: Global, model: &Model, at: usize) -> Result<Value, NoMemory>
    requires { at < length model.now.options }
    ensures { IfOk result (λ v. view v ≡ option_data model.now
        (slice_index_or model.now.options at [], slice_index_or model.now.performances at [])) }
{
    let mut members = Map::new(alloc);
    put_text(&mut members, alloc, "name", option_name(model, at))?;
    put(
        &mut members,
        alloc,
        "performances",
        performances_value(alloc, model, at)?,
    )?;
    Ok(Value::Object(members))
}

fn each_option(alloc: Global, model: &Model) -> Result<Vec<Value>, NoMemory>
    ensures { IfOk result (λ v. map view v.items ≡ map (option_data model.now)
        (options_with_rows model.now.options model.now.performances)) }
{
    what_a_model_keeps(model);
    let mut values = Vec::new(alloc);
    for at in 0..model.options() {
        values.push(option_value(alloc, model, at)?)?;
    }
    Ok(values)
}

// The name of a criterion.
fn criterion_name(model: &Model, at: usize) -> &str
    requires { at < length model.now.criteria }
    ensures { result.now ≡ criterion_name model.now at }
{
    model.criterion(at).name().as_str()
}

fn each_ranked(alloc: Global, model: &Model) -> Result<Vec<Value>, NoMemory>
    ensures { IfOk result (λ v.
        map view v.items ≡ map (λ c. string (criterion_name model.now c)) model.now.order) }
{
    what_a_model_keeps(model);
    let mut values = Vec::new(alloc);
    for at in 0..model.criteria() {
        let name = criterion_name(model, model.order(at + 1));
        values.push(text_value(alloc, name)?)?;
    }
    Ok(values)
}

#[tactic(auto, unfolding(crate::specs::Writing::weighting_data))]
fn weighting_value(alloc: Global, model: &Model) -> Result<Value, NoMemory>
    ensures { IfOk result (λ v. view v ≡ weighting_data model.now) }
{
    let mut members = Map::new(alloc);
    put(
        &mut members,
        alloc,
        "judgements",
        judgements_value(alloc, model.weighting())?,
    )?;
    put(
        &mut members,
        alloc,
        "order",
        Value::Array(each_ranked(alloc, model)?),
    )?;
    Ok(Value::Object(members))
}

// Puts the criteria, the groups and the options of a model.
fn put_lists(members: &mut Map<String, Value>, alloc: Global, model: &Model) -> Result<(), NoMemory>
    ensures { OnOk result (members_view members.new.entries
        ≡ with_member (codes "options") (array_of (map (option_data model.now)
        (options_with_rows model.now.options model.now.performances)))
        (with_member (codes "groups") (array_of (map (group_data model.now) model.now.groups))
        (with_member (codes "criteria")
        (array_of (map (criterion_data model.now) model.now.criteria))
        (members_view members.old.entries)))) }
{
    put(
        members,
        alloc,
        "criteria",
        Value::Array(each_criterion(alloc, model)?),
    )?;
    put(
        members,
        alloc,
        "groups",
        Value::Array(each_group(alloc, model)?),
    )?;
    put(
        members,
        alloc,
        "options",
        Value::Array(each_option(alloc, model)?),
    )
}

#[tactic(auto, unfolding(crate::specs::Writing::model_data))]
fn model_value(alloc: Global, model: &Model) -> Result<Value, NoMemory>
    ensures { IfOk result (λ v. view v ≡ model_data model.now) }
{
    let mut members = Map::new(alloc);
    put_lists(&mut members, alloc, model)?;
    put(&mut members, alloc, "macbeth", Value::from(2u64))?;
    put(
        &mut members,
        alloc,
        "weighting",
        weighting_value(alloc, model)?,
    )?;
    Ok(Value::Object(members))
}

// The text of a value in the pretty layout.
fn pretty_text(alloc: Global, value: &Value) -> Result<String, NoMemory>
    ensures text { IfOk result (λ s. IsUtf8 (string_bytes s)) }
    ensures layout { IfOk result (λ s. string_bytes s ≡ pretty (tokens (string_bytes s))) }
    ensures order { IfOk result (λ s. IsInOrder (string_bytes s) (view value.now)) }
    ensures reads_back { IfOk result (λ s. depth (view value.now) ≤ max_depth
        → read (string_bytes s) ≡ Some (view value.now)) }
{
    let text = value.to_string_pretty(alloc)?;
    text.as_str();
    Ok(text)
}

/// The most bytes of a line of a text that `dump` writes, without its newline.
pub const DUMP_LINE: usize = 300;

/// The most bytes of a text that `dump` writes, by the most elements of a criterion: 700,000, fewer than the 1,048,576 of a block.
pub const DUMP_TEXT: usize = 28_000 * (LIMIT + 1);

/// The text of a model, in format 2 and in the pretty layout.
pub fn dump(alloc: Global, model: &Model) -> Result<String, NoMemory>
    ensures text { IfOk result (λ s. string_bytes s ≡ dump_text model.now) }
    // What is written loads as the same model.
    ensures again { IfOk result (λ s. load_of (string_bytes s) ≡ Ok model.now) }
    ensures lines { IfOk result (λ s.
        All (λ line. length line ≤ DUMP_LINE) (slice_split (λ byte. byte == 10) (string_bytes s))) }
    ensures size { IfOk result (λ s. length (string_bytes s) ≤ DUMP_TEXT) }
{
    model_is_named(model);
    let value = model_value(alloc, model)?;
    let text = pretty_text(alloc, &value)?;
    Ok(text)
}
