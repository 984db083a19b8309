// One turn: an entry is taken and answered, and the reply is written.
ghost use Rattle.std.specs.Prelude.{◌≡◌, ◌≤◌, None};
ghost use Rattle.line_io.specs.Outside.{change_of};
ghost use Rattle.transcript.specs.Turn.{EntryTurn, Turns};

use crate::entry::Entry;
use crate::piece::EntryFault;
use crate::reader::{Next, Reader};
use crate::service::Service;
use crate::status::Status;
use line_io::{Sink, Source, put_all};
use std::alloc::Global;

/// What a turn leads to.
#[derive(Clone, Copy)]
pub(crate) enum Turn {
    /// There may be a further entry.
    Goes,
    /// The run ends so.
    Ends(Status),
}

/// Takes the next entry, answers it and writes the reply.
pub(crate) fn take_turn<V: Service, S: Source, K: Sink>(
    alloc: Global,
    reader: &mut Reader,
    service: &mut V,
    source: &mut S,
    sink: &mut K,
) -> Turn
    requires { reader.old.fault ≡ None }
    ensures { Turns V.rules reader.old reader.new (change_of S.left S.faults source.old source.new)
        service.old service.new (change_of K.held K.faults sink.old sink.new) result }
{
    match reader.next::<V, S>(source) {
        Ok(Next::Found) => answer_entry(alloc, service, reader.entry(), sink),
        Ok(Next::End) => Turn::Ends(Status::Done),
        Err(EntryFault::Read) => Turn::Ends(Status::ReadFault),
        Err(EntryFault::Limit) => Turn::Ends(Status::InputLimit),
        Err(EntryFault::Memory) => Turn::Ends(Status::NoMemory),
    }
}

/// Answers an entry, and writes the reply by one call.
fn answer_entry<V: Service, K: Sink>(
    alloc: Global,
    service: &mut V,
    entry: &Entry,
    sink: &mut K,
) -> Turn
    ensures turn { EntryTurn V.rules service.old entry.now service.new
        (change_of K.held K.faults sink.old sink.new) result }
    ensures count { K.faults sink.old ≤ K.faults sink.new }
{
    let Ok(answered) = service.answer(alloc, entry) else {
        return Turn::Ends(Status::NoMemory);
    };
    if put_all(sink, &answered.text).is_err() {
        return Turn::Ends(Status::WriteFault);
    }
    if answered.ends {
        return Turn::Ends(Status::Done);
    }
    Turn::Goes
}
