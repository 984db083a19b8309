//! From a text to a model.
ghost use Rattle.std.specs.Prelude.{◌≡◌};
ghost use Rattle.model_json.specs.Text.{json_of, Parses, Loads};

use crate::fault::{LoadFault, Stop};
use crate::pointer::pointer_of;
use crate::reading::read_model;
use model_core::Model;
use serde_json::Value;
use std::alloc::Global;

/// The model that a text is.
#[tactic(auto, unfolding(crate::specs::Text::load_of))]
pub fn load(alloc: Global, bytes: &[u8]) -> Result<Model, LoadFault>
    ensures { Loads bytes.now result }
{
    let value = parse(alloc, bytes)?;
    let read = read_model(alloc, &value);
    drop(value);
    match read {
        Ok(model) => Ok(model),
        Err(Stop::NoMemory) => Err(LoadFault::NoMemory),
        Err(Stop::At(place)) => Err(LoadFault::BadModel(pointer_of(alloc, place)?)),
    }
}

// The value that a text is.
fn parse(alloc: Global, bytes: &[u8]) -> Result<Value, LoadFault>
    ensures { Parses bytes.now result }
{
    match Value::from_slice(alloc, bytes) {
        Ok(value) => Ok(value),
        Err(fault) => {
            if fault.is_memory() {
                Err(LoadFault::NoMemory)
            } else {
                Err(LoadFault::BadJson)
            }
        }
    }
}
