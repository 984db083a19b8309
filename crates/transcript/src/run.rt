//! The loop.
ghost use Rattle.line_io.specs.Outside.{change_of};
ghost use Rattle.transcript.specs.Table.{Runs};

use crate::reader::Reader;
use crate::service::Service;
use crate::status::Status;
use crate::turn::{Turn, take_turn};
use line_io::{Sink, Source};
use std::alloc::Global;

/// Runs a service from its start: it answers the entries of the source one after another, each reply
/// by one `put_all`, up to the first accepted `quit` or the end.
pub fn run_entries<V: Service, S: Source, K: Sink>(
    alloc: Global,
    source: &mut S,
    sink: &mut K,
) -> Status
    ensures { Runs V.rules V.first result (change_of S.left S.faults source.old source.new)
        (change_of K.held K.faults sink.old sink.new) }
{
    let Ok(service) = V::start(alloc) else {
        return Status::NoMemory;
    };
    run_from(alloc, service, source, sink)
}

/// Runs a service from the state in which it is, which has to be one that holds.
pub fn run_from<V: Service, S: Source, K: Sink>(
    alloc: Global,
    service: V,
    source: &mut S,
    sink: &mut K,
) -> Status
    requires { V.rules.holds service }
    ensures { Runs V.rules service result (change_of S.left S.faults source.old source.new)
        (change_of K.held K.faults sink.old sink.new) }
{
    let Ok(mut reader) = Reader::make(alloc) else {
        return Status::NoMemory;
    };
    let mut service = service;
    'turns: loop {
        match take_turn(alloc, &mut reader, &mut service, source, sink) {
            Turn::Goes => {}
            Turn::Ends(status) => return status,
        }
    }
}
