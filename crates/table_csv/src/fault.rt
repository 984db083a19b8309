//! Why a table isn't read.

use std::alloc::{AllocError, AllocFailed};

/// Why a table isn't read.
#[derive(Clone, Copy, Debug, PartialEq, Eq, Drop)]
pub enum TableFault {
    /// The first record, from 1, and in it the first field, from 1, that isn't as it must be.
    BadTable { line: usize, field: usize },
    /// There is not enough memory.
    NoMemory,
}

impl From<AllocError> for TableFault {
    ghost use Rattle.std.specs.Prelude.{◌≡◌};
    ghost use Rattle.table_csv.specs.declared.fault.TableFault.TheVariants as given;

    ghost from_gives = { λ _ fault. fault ≡ given.NoMemory };

    fn from(_: AllocError) -> TableFault {
        TableFault::NoMemory
    }
}

impl<T: Drop> From<AllocFailed<T>> for TableFault {
    ghost use Rattle.std.specs.Prelude.{◌≡◌};
    ghost use Rattle.table_csv.specs.declared.fault.TableFault.TheVariants as given;

    ghost from_gives = { λ _ fault. fault ≡ given.NoMemory };

    fn from(_: AllocFailed<T>) -> TableFault {
        TableFault::NoMemory
    }
}
