//! Why a line isn't a command.
ghost use Rattle.std.specs.Prelude.{◌≡◌, ◌≤◌};
ghost use Rattle.command_read.specs.Refusals.{number_of};
ghost use Rattle.command_read.specs.declared.refusal.Fault.TheVariants.{NoMemory};

use std::alloc::{AllocError, AllocFailed};

/// What is wrong with a line that is no command: the first in this order.
#[derive(Clone, Copy)]
pub(crate) enum Refusal {
    NotUtf8,
    UnknownCommand,
    WrongCount,
    BadName,
    BadNumber,
    BadCategory,
}

impl Refusal {
    /// Its number in `word_table::refusals`, which counts from 1.
    pub(crate) fn number(self) -> u8
        ensures { result ≡ number_of self }
    {
        match self {
            Refusal::NotUtf8 => 2,
            Refusal::UnknownCommand => 3,
            Refusal::WrongCount => 4,
            Refusal::BadName => 5,
            Refusal::BadNumber => 6,
            Refusal::BadCategory => 7,
        }
    }
}

/// Why a line gave no command.
#[derive(Drop)]
pub(crate) enum Fault {
    Refused(Refusal),
    NoMemory,
}

impl From<AllocError> for Fault {
    ghost from_gives = { λ _ fault. fault ≡ NoMemory };

    fn from(_error: AllocError) -> Fault {
        Fault::NoMemory
    }
}

impl<T: Drop> From<AllocFailed<T>> for Fault {
    ghost from_gives = { λ _ fault. fault ≡ NoMemory };

    fn from(_error: AllocFailed<T>) -> Fault {
        Fault::NoMemory
    }
}
