//! Checks in a row: what each of them gives, or the first place that isn't as it has to be.
ghost use Rattle.std.specs.Prelude.{◌≡◌, option_map, bytes_eq, map, string_bytes};
ghost use Rattle.std.specs.List.{list_any, list_all};
ghost use Rattle.std.specs.BTreeMap.{keys as keys_of};
ghost use Rattle.serde_json.specs.View.{view, items_view, members_view};
ghost use Rattle.frac128.specs.Chain.{holds_or};
ghost use Rattle.model_json.specs.Steps.{Gives, string_at, name_at, array_at, array_or_none, object_at, members_at, has_only, whole};

use crate::fault::Stop;
use crate::place::Place;
use model_core::Name;
use serde_json::{Map, Value};
use std::alloc::Global;

/// Stops here unless the condition holds.
pub(crate) fn holds_or(place: Place, holds: bool) -> Result<(), Stop>
    ensures { Gives (λ x. x) result (holds_or place holds) }
{
    if holds { Ok(()) } else { Err(Stop::At(place)) }
}

/// The text of a string.
pub(crate) fn string_at<'v>(place: Place, value: Option<&'v Value>) -> Result<&'v str, Stop>
    ensures { Gives (λ text. text.now) result
        (string_at place (option_map (λ v. view v.now) value.entry)) }
{
    match value.and_then(Value::as_str) {
        Some(text) => Ok(text),
        None => Err(Stop::At(place)),
    }
}

/// The name that a string is.
#[tactic(auto, unfolding(crate::specs::Steps::name_at))]
pub(crate) fn name_at(alloc: Global, place: Place, value: Option<&Value>) -> Result<Name, Stop>
    ensures { Gives (λ name. name) result
        (name_at place (option_map (λ v. view v.now) value.entry)) }
{
    let text = string_at(place, value)?;
    match Name::check(alloc, text.as_bytes())? {
        Some(name) => Ok(name),
        None => Err(Stop::At(place)),
    }
}

/// The values of an array.
pub(crate) fn array_at<'v>(place: Place, value: Option<&'v Value>) -> Result<&'v [Value], Stop>
    ensures { Gives (λ values. items_view values.now) result
        (array_at place (option_map (λ v. view v.now) value.entry)) }
{
    match value.and_then(Value::as_array) {
        Some(values) => Ok(values),
        None => Err(Stop::At(place)),
    }
}

/// The values of an array, none where there is no such key.
pub(crate) fn array_or_none<'v>(place: Place, value: Option<&'v Value>) -> Result<&'v [Value], Stop>
    ensures { Gives (λ values. items_view values.now) result
        (array_or_none place (option_map (λ v. view v.now) value.entry)) }
{
    if value.is_none() {
        return Ok(&[]);
    }
    array_at(place, value)
}

/// Stops here unless the value is an object without other keys.
pub(crate) fn object_at(place: Place, keys: &[&str], value: &Value) -> Result<(), Stop>
    ensures { Gives (λ x. x) result
        (object_at place (map (λ key. key.now) keys.now) (view value.now)) }
{
    match value.as_object() {
        Some(members) => holds_or(place, has_only(keys, members)),
        None => Err(Stop::At(place)),
    }
}

/// A whole number without sign, point or exponent.
pub(crate) fn whole(value: Option<&Value>) -> Option<u64>
    ensures { result ≡ whole (option_map (λ v. view v.now) value.entry) }
{
    value.and_then(Value::as_u64)
}

fn has_only(keys: &[&str], members: &Map<String, Value>) -> bool
    ensures { result ≡ has_only (map (λ key. key.now) keys.now) (members_view members.now.entries) }
{
    are_among(keys, members)
}

fn are_among(keys: &[&str], members: &Map<String, Value>) -> bool
    ensures { result
        ≡ list_all (λ s. list_any (λ key. bytes_eq key.now (string_bytes s)) keys.now)
        (keys_of members.now) }
{
    members.keys().all(|key| is_among(keys, key.as_str()))
}

fn is_among(keys: &[&str], key: &str) -> bool
    ensures { result ≡ list_any (λ other. bytes_eq other.now key.now) keys.now }
{
    keys.iter().any(|other| **other == *key)
}
