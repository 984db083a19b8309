//! Refusals of a session, by their numbers.
ghost use Rattle.std.specs.Prelude.{◌≡◌, ◌≢◌, IfOk, Result};
ghost use Rattle.report_text.specs.Refusals.{IsRefusal};
ghost use Rattle.report_text.specs.Reply.{IsPrintable};
ghost use Rattle.session_edits.specs.Refusals.{refused, number_of, Works, or_refused};

use crate::NoMemory;
use model_core::EditFault;
use report_text::{Detail, Reply};
use std::alloc::AllocFailed;

/// A line has more bytes than a line may have.
pub const LINE_TOO_LONG: u8 = 1;

pub(crate) const UNKNOWN_COMMAND: u8 = 3;

pub(crate) const WRONG_COUNT: u8 = 4;

pub(crate) const UNKNOWN_OPTION: u8 = 8;

pub(crate) const UNKNOWN_CRITERION: u8 = 9;

pub(crate) const UNKNOWN_ELEMENT: u8 = 10;

pub(crate) const NAME_TAKEN: u8 = 11;

pub(crate) const LIMIT_REACHED: u8 = 12;

pub(crate) const AGAINST_THE_ORDER: u8 = 13;

pub(crate) const NO_PERMUTATION: u8 = 14;

pub(crate) const BLOCK_CUT: u8 = 15;

pub(crate) const BLOCK_TOO_LARGE: u8 = 16;

pub(crate) const BAD_JSON: u8 = 17;

pub(crate) const BAD_MODEL: u8 = 18;

pub(crate) const BAD_CERTIFICATE: u8 = 19;

pub(crate) const NOTHING_TO_UNDO: u8 = 20;

pub(crate) const PERFORMANCE_MISSING: u8 = 21;

pub(crate) const INCONSISTENT: u8 = 22;

pub(crate) const FLAT: u8 = 23;

pub(crate) const TOO_WIDE: u8 = 27;

pub(crate) const UNKNOWN_GROUP: u8 = 28;

/// The refusal of a number, with nothing more to say.
pub fn refused(number: u8) -> Reply
    requires { IsRefusal number }
    ensures value { result ≡ refused number }
    ensures printable { IsPrintable result }
{
    Reply::Refused {
        number,
        detail: Detail::None,
    }
}

/// The number of the refusal of an edit.
pub(crate) fn number_of(fault: EditFault) -> u8
    requires { fault ≢ EditFault.NoMemory }
    ensures value { result ≡ number_of fault }
    ensures number { IsRefusal result }
{
    match fault {
        EditFault::NameTaken => NAME_TAKEN,
        EditFault::LimitReached => LIMIT_REACHED,
        EditFault::UnknownOption => UNKNOWN_OPTION,
        EditFault::UnknownCriterion => UNKNOWN_CRITERION,
        EditFault::UnknownElement => UNKNOWN_ELEMENT,
        EditFault::UnknownGroup => UNKNOWN_GROUP,
        EditFault::AgainstOrder => AGAINST_THE_ORDER,
        EditFault::NotPermutation => NO_PERMUTATION,
        // No edit is refused so here.
        EditFault::NoMemory => UNKNOWN_COMMAND,
    }
}

/// Why a reply isn't worked to its end.
#[derive(Drop)]
pub(crate) enum Stop {
    /// The command is refused so.
    Refused(Reply),
    /// There is not enough memory.
    NoMemory,
}

impl From<NoMemory> for Stop {
    ghost use Rattle.session_edits.specs.declared.refusal.Stop.TheVariants as given;

    ghost from_gives = { λ _ stop. stop ≡ given.NoMemory };

    fn from(_: NoMemory) -> Stop {
        Stop::NoMemory
    }
}

impl<T: Drop> From<AllocFailed<T>> for Stop {
    ghost use Rattle.session_edits.specs.declared.refusal.Stop.TheVariants as given;

    ghost from_gives = { λ _ stop. stop ≡ given.NoMemory };

    fn from(_: AllocFailed<T>) -> Stop {
        Stop::NoMemory
    }
}

/// It is refused with no more to say.
pub(crate) fn stopped(number: u8) -> Stop
    requires { IsRefusal number }
    ensures { result ≡ Stop.Refused (refused number) }
{
    Stop::Refused(refused(number))
}

/// The reply that was worked, or the refusal at which it stopped.
pub(crate) fn reply_of(worked: Result<Reply, Stop>) -> Result<Reply, NoMemory>
    ensures value { (want : Result Reply Reply) → Works (λ x. x) want worked → IfOk result
        (λ r. r ≡ or_refused want) }
    ensures printable { IfOk worked IsPrintable
        → (want : Result Reply Reply) → Works (λ x. x) want worked
        → IfOk result IsPrintable }
{
    match worked {
        Ok(reply) => Ok(reply),
        Err(Stop::Refused(reply)) => Ok(reply),
        Err(Stop::NoMemory) => Err(NoMemory),
    }
}
