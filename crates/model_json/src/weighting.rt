//! The weighting of a model.
ghost use Rattle.std.specs.Prelude.{◌≡◌, ◌+◌, ◌<◌, [], length, option_map, IfOk, OnOk, Ok, Some};
ghost use Rattle.serde_json.specs.View.{view, items_view};
ghost use Rattle.model_core.specs.Edits.{places_of, with_weighting};
ghost use Rattle.model_json.specs.Steps.{Gives, Reads, each_into, read_as};
ghost use Rattle.model_json.specs.Reading.{rank_of, ranked_of, order_of, weighting_of};

use crate::fault::Stop;
use crate::judgements::read_judgements;
use crate::names::criterion_name;
use crate::place::Place;
use crate::steps::{array_at, object_at, string_at};
use judgement_matrix::Matrix;
use model_core::{EditFault, Model, Name};
use serde_json::Value;
use std::alloc::Global;

/// Sets the weighting that a value is; where there is none, it stays.
#[tactic(auto, unfolding(crate::specs::Reading::weighting_of))]
pub(crate) fn read_weighting(
    alloc: Global,
    model: &mut Model,
    value: Option<&Value>,
) -> Result<(), Stop>
    ensures { Reads result
        (weighting_of model.old (option_map (λ v. view v.now) value.entry)) model.new }
{
    let Some(value) = value else {
        return Ok(());
    };
    object_at(Place::Weighting, &["judgements", "order"], value)?;
    read_order(alloc, model, value.get("order"))?;
    let swings = read_judgements(alloc, None, model.criteria() + 1, value.get("judgements"))?;
    set_weighting(model, swings)
}

// Sets the order that a value is; where there is none, it stays. The judgements of the weighting are then left to say.
#[tactic(auto, unfolding(crate::specs::Reading::order_of))]
fn read_order(alloc: Global, model: &mut Model, value: Option<&Value>) -> Result<(), Stop>
    ensures order { Reads result
        (order_of model.old (option_map (λ v. view v.now) value.entry)) model.new.order }
    ensures rest { OnOk result (model.new
        ≡ record model.old { order = model.new.order; weighting = model.new.weighting }) }
{
    let Some(value) = value else {
        return Ok(());
    };
    let values = array_at(Place::Order, Some(value))?;
    let names = ranked_names(alloc, model, values)?;
    match model.set_order(&names) {
        Ok(()) => Ok(()),
        Err(EditFault::NotPermutation) => Err(Stop::At(Place::Order)),
        // All of them are criteria, so that only memory may be wanting.
        Err(_) => Err(Stop::NoMemory),
    }
}

// The names of the criteria that the values name.
fn ranked_names(alloc: Global, model: &Model, values: &[Value]) -> Result<Vec<Name>, Stop>
    ensures { Gives (λ names. places_of model.now names.items) result
        (read_as (λ order. Some order)
        (each_into (ranked_of model.now) 0 [] (items_view values.now))) }
{
    let mut names = Vec::new(alloc);
    'values: for i in 0..values.len() {
        let criterion = ranked(model, &values[i])?;
        names.push(criterion_name(model, criterion)?)?;
    }
    Ok(names)
}

// The criterion with the name that stands here.
fn ranked(model: &Model, value: &Value) -> Result<usize, Stop>
    ensures place { Gives (λ criterion. criterion) result (rank_of model.now (view value.now)) }
    ensures within { IfOk result (λ criterion. criterion < length model.now.criteria) }
{
    let name = string_at(Place::Order, Some(value))?;
    match model.find_criterion(name.as_bytes()) {
        Some(criterion) => Ok(criterion),
        None => Err(Stop::At(Place::Order)),
    }
}

fn set_weighting(model: &mut Model, swings: Matrix) -> Result<(), Stop>
    requires { swings.size ≡ length model.old.criteria + 1 }
    ensures { Reads result (Ok (with_weighting model.old swings)) model.new }
{
    // The matrix of the weighting is always there.
    let Ok(()) = model.set_matrix(b"weighting", swings) else {
        unreachable!()
    };
    Ok(())
}
