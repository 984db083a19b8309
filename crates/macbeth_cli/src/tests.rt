//! Tests over memory of what no session shows: faults, short pieces, words and statuses.
mod basics;
mod faults;

use crate::run::run;
use line_io::{MemSink, MemSource, NeverSink, NeverSource, Sink, Source};
use std::alloc::Global;
use std::test::Fail;
use transcript::Status;

/// The criterion of the examples, judged.
const ABC: &str = "criterion c A B C\njudge c A B 3\njudge c A C 4\njudge c B C 2\n";

/// More room than any of the sessions needs.
const ROOM: usize = 4_000;

/// The texts as one.
fn bytes_of(alloc: Global, parts: &[&str]) -> Result<Vec<u8>, Fail> {
    let mut bytes = Vec::new(alloc);
    for part in parts {
        bytes.extend_from_slice(part.as_bytes())?;
    }
    Ok(bytes)
}

/// Runs the program with no words.
fn run_plainly<S: Source, K: Sink>(alloc: Global, source: &mut S, sink: &mut K) -> Status {
    let words = Vec::new(alloc);
    run(alloc, &words, source, sink)
}

/// How a session from this source ends, and what it writes.
fn told_from<S: Source>(alloc: Global, source: &mut S) -> Result<(Status, Vec<u8>), Fail> {
    let mut sink = NeverSink::make(alloc, ROOM)?;
    let status = run_plainly(alloc, source, &mut sink);
    Ok((status, Vec::from_slice(alloc, sink.bytes())?))
}

/// How a session of this input ends that writes into this sink.
fn run_into<K: Sink>(alloc: Global, input: Vec<u8>, sink: &mut K) -> Status {
    let mut source = NeverSource::make(input);
    run_plainly(alloc, &mut source, sink)
}
