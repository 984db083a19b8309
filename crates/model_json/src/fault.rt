//! Why a model is not read.

use crate::place::Place;
use model_core::{NoMemory, Pointer};
use std::alloc::AllocFailed;

/// Why a value was not read.
#[derive(Clone, Copy, Drop)]
pub enum Stop {
    /// Memory ran out.
    NoMemory,
    /// The value has this place, which isn't as it has to be.
    At(Place),
}

/// Why a text was not read.
#[derive(Debug, Drop)]
pub enum LoadFault {
    /// It is no JSON text.
    BadJson,
    /// Its value has this place, which isn't as it has to be.
    BadModel(Pointer),
    /// Memory ran out.
    NoMemory,
}

impl From<NoMemory> for Stop {
    ghost use Rattle.std.specs.Prelude.{◌≡◌};
    ghost use Rattle.model_json.specs.declared.fault.Stop.TheVariants.{NoMemory as MemoryRanOut};

    ghost from_gives = { λ _ stop. stop ≡ MemoryRanOut };

    fn from(_refused: NoMemory) -> Stop {
        Stop::NoMemory
    }
}

impl<T: Drop> From<AllocFailed<T>> for Stop {
    ghost use Rattle.std.specs.Prelude.{◌≡◌};
    ghost use Rattle.model_json.specs.declared.fault.Stop.TheVariants.{NoMemory as MemoryRanOut};

    ghost from_gives = { λ _ stop. stop ≡ MemoryRanOut };

    fn from(_refused: AllocFailed<T>) -> Stop {
        Stop::NoMemory
    }
}

impl From<NoMemory> for LoadFault {
    ghost use Rattle.std.specs.Prelude.{◌≡◌};
    ghost use Rattle.model_json.specs.declared.fault.LoadFault.TheVariants.{NoMemory as MemoryRanOut};

    ghost from_gives = { λ _ fault. fault ≡ MemoryRanOut };

    fn from(_refused: NoMemory) -> LoadFault {
        LoadFault::NoMemory
    }
}
