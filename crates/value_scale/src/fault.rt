//! Why a matrix has no basic scale within the range of fractions.

use frac128::{NoMemory, TooWide};
use std::alloc::AllocFailed;

/// Why there is no answer.
#[derive(Clone, Copy, Debug, PartialEq, Eq)]
pub enum ScaleFault {
    /// A number that a pivot or a sum of gaps forms is out of the range of fractions.
    TooWide,
    /// There is not enough memory.
    NoMemory,
}

impl From<TooWide> for ScaleFault {
    ghost use Rattle.std.specs.Prelude.{◌≡◌};
    ghost use Rattle.value_scale.specs.declared.fault.ScaleFault.TheVariants as given;

    ghost from_gives = { λ _ fault. fault ≡ given.TooWide };

    fn from(_: TooWide) -> ScaleFault {
        ScaleFault::TooWide
    }
}

impl From<NoMemory> for ScaleFault {
    ghost use Rattle.std.specs.Prelude.{◌≡◌};
    ghost use Rattle.value_scale.specs.declared.fault.ScaleFault.TheVariants as given;

    ghost from_gives = { λ _ fault. fault ≡ given.NoMemory };

    fn from(_: NoMemory) -> ScaleFault {
        ScaleFault::NoMemory
    }
}

impl<T: Drop> From<AllocFailed<T>> for ScaleFault {
    ghost use Rattle.std.specs.Prelude.{◌≡◌};
    ghost use Rattle.value_scale.specs.declared.fault.ScaleFault.TheVariants as given;

    ghost from_gives = { λ _ fault. fault ≡ given.NoMemory };

    fn from(_: AllocFailed<T>) -> ScaleFault {
        ScaleFault::NoMemory
    }
}
