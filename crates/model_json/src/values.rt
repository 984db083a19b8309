//! The parts of a model as JSON values.
ghost use Rattle.std.specs.Prelude.{◌≡◌, ◌<◌, ◌≤◌, ◌+◌, ◌-◌, ℕ, IfOk, IfSome, OnOk, length, map, slice_get, slice_index_or, Some, None, [], codes};
ghost use Rattle.serde_json.specs.Data.{string, object, member, no_members, put as with_member};
ghost use Rattle.serde_json.specs.View.{view, members_view};
ghost use Rattle.model_json.specs.Writing.{array_of, judged_pairs, judgement_data, judgements_data, group_name, group_data, whole_number, criterion_data, element_name, with_performance_key, performance_members};

use judgement_matrix::{Matrix, Range};
use model_core::laws::what_a_model_keeps;
use model_core::{Criterion, Group, Model, NoMemory};
use serde_json::{Map, Value, json, put};
use std::alloc::Global;

/// A text.
pub(crate) fn text_value(alloc: Global, text: &str) -> Result<Value, NoMemory>
    ensures { IfOk result (λ v. view v ≡ string text.now) }
{
    json!(in alloc; text)
}

/// Puts a text.
pub(crate) fn put_text(
    members: &mut Map<String, Value>,
    alloc: Global,
    key: &str,
    text: &str,
) -> Result<(), NoMemory>
    ensures { OnOk result (members_view members.new.entries
        ≡ with_member key.now (string text.now) (members_view members.old.entries)) }
{
    let value = text_value(alloc, text)?;
    put(members, alloc, key, value)
}

fn judgement_value(alloc: Global, p: u8, q: u8, range: Range) -> Result<Value, NoMemory>
    ensures { IfOk result (λ v. view v ≡ judgement_data (p, q, range)) }
{
    let mut numbers = Vec::new(alloc);
    numbers.push(Value::from(p))?;
    numbers.push(Value::from(q))?;
    numbers.push(Value::from(range.lo()))?;
    numbers.push(Value::from(range.hi()))?;
    Ok(Value::Array(numbers))
}

fn each_judgement(alloc: Global, matrix: &Matrix) -> Result<Vec<Value>, NoMemory>
    ensures { IfOk result (λ v. map view v.items ≡ map judgement_data (judged_pairs matrix.now)) }
{
    let mut values = Vec::new(alloc);
    for (p, q) in matrix.pairs() {
        let (range, is_judged) = matrix.get(usize::from(p), usize::from(q));
        if is_judged {
            values.push(judgement_value(alloc, p, q, range)?)?;
        }
    }
    Ok(values)
}

/// The judgements of a matrix.
#[tactic(auto, unfolding(crate::specs::Writing::judgements_data))]
pub(crate) fn judgements_value(alloc: Global, matrix: &Matrix) -> Result<Value, NoMemory>
    ensures { IfOk result (λ v. view v ≡ judgements_data matrix.now) }
{
    Ok(Value::Array(each_judgement(alloc, matrix)?))
}

// The name of a group.
fn group_name(model: &Model, at: usize) -> &str
    requires { at < length model.now.groups }
    ensures { result.now ≡ group_name model.now at }
{
    model.group(at).name().as_str()
}

/// A group.
#[tactic(auto, unfolding(crate::specs::Writing::group_data))]
pub(crate) fn group_value(alloc: Global, model: &Model, group: &Group) -> Result<Value, NoMemory>
    requires { IfSome group.now.parent (λ at. at < length model.now.groups) }
    ensures { IfOk result (λ v. view v ≡ group_data model.now group.now) }
{
    let mut members = Map::new(alloc);
    put_text(&mut members, alloc, "name", group.name().as_str())?;
    let Some(at) = group.parent() else {
        return Ok(Value::Object(members));
    };
    put_text(&mut members, alloc, "parent", group_name(model, at))?;
    Ok(Value::Object(members))
}

// The name of an element.
fn element_name(criterion: &Criterion, at: usize) -> &str
    requires { (1 ≤ at) × (at ≤ length criterion.now.elements) }
    ensures { result.now ≡ element_name criterion.now at }
{
    criterion.element(at).as_str()
}

fn each_element(alloc: Global, criterion: &Criterion) -> Result<Vec<Value>, NoMemory>
    ensures { IfOk result (λ v. map view v.items ≡ map string criterion.now.elements) }
{
    let mut values = Vec::new(alloc);
    for at in 0..criterion.elements() {
        let name = criterion.element(at + 1).as_str();
        values.push(text_value(alloc, name)?)?;
    }
    Ok(values)
}

fn elements_value(alloc: Global, criterion: &Criterion) -> Result<Value, NoMemory>
    ensures { IfOk result (λ v. view v ≡ array_of (map string criterion.now.elements)) }
{
    Ok(Value::Array(each_element(alloc, criterion)?))
}

// Puts the name of a criterion, of its good and of its neutral element.
fn put_names(
    members: &mut Map<String, Value>,
    alloc: Global,
    criterion: &Criterion,
) -> Result<(), NoMemory>
    ensures { OnOk result (members_view members.new.entries
        ≡ with_member (codes "neutral") (string (element_name criterion.now criterion.now.neutral))
        (with_member (codes "name") (string criterion.now.name)
        (with_member (codes "good") (string (element_name criterion.now criterion.now.good))
        (members_view members.old.entries)))) }
{
    put_text(
        members,
        alloc,
        "good",
        element_name(criterion, criterion.good()),
    )?;
    put_text(members, alloc, "name", criterion.name().as_str())?;
    put_text(
        members,
        alloc,
        "neutral",
        element_name(criterion, criterion.neutral()),
    )
}

// Puts the elements, the judgements and the reach of a criterion.
fn put_parts(
    members: &mut Map<String, Value>,
    alloc: Global,
    criterion: &Criterion,
) -> Result<(), NoMemory>
    ensures { OnOk result (members_view members.new.entries
        ≡ with_member (codes "reach") (whole_number criterion.now.reach)
        (with_member (codes "judgements") (judgements_data criterion.now.matrix)
        (with_member (codes "elements") (array_of (map string criterion.now.elements))
        (members_view members.old.entries)))) }
{
    put(
        members,
        alloc,
        "elements",
        elements_value(alloc, criterion)?,
    )?;
    put(
        members,
        alloc,
        "judgements",
        judgements_value(alloc, criterion.matrix())?,
    )?;
    put(members, alloc, "reach", Value::from(criterion.reach()))
}

/// A criterion.
#[tactic(auto, unfolding(crate::specs::Writing::criterion_data))]
pub(crate) fn criterion_value(
    alloc: Global,
    model: &Model,
    criterion: &Criterion,
) -> Result<Value, NoMemory>
    requires { IfSome criterion.now.group (λ at. at < length model.now.groups) }
    ensures { IfOk result (λ v. view v ≡ criterion_data model.now criterion.now) }
{
    let mut members = Map::new(alloc);
    put_names(&mut members, alloc, criterion)?;
    put_parts(&mut members, alloc, criterion)?;
    let Some(at) = criterion.group() else {
        return Ok(Value::Object(members));
    };
    put_text(&mut members, alloc, "group", group_name(model, at))?;
    Ok(Value::Object(members))
}

// The members with what an option performs on a criterion.
fn put_performance(
    members: &mut Map<String, Value>,
    alloc: Global,
    criterion: &Criterion,
    performance: Option<usize>,
) -> Result<(), NoMemory>
    requires { IfSome performance (λ e. (1 ≤ e) × (e ≤ length criterion.now.elements)) }
    ensures { OnOk result (members_view members.new.entries
        ≡ with_performance_key criterion.now performance (members_view members.old.entries)) }
{
    let Some(element) = performance else {
        return Ok(());
    };
    put_text(
        members,
        alloc,
        criterion.name().as_str(),
        element_name(criterion, element),
    )
}

/// What an option performs.
pub(crate) fn performances_value(
    alloc: Global,
    model: &Model,
    option: usize,
) -> Result<Value, NoMemory>
    requires { option < length model.now.options }
    ensures { IfOk result (λ v. view v ≡ object (performance_members model.now.criteria
        (slice_index_or model.now.performances option []) no_members)) }
{
    what_a_model_keeps(model);
    let mut members = Map::new(alloc);
    for c in 0..model.criteria() {
        put_performance(
            &mut members,
            alloc,
            model.criterion(c),
            model.performance(option, c),
        )?;
    }
    Ok(Value::Object(members))
}
