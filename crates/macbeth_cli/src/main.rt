//! The program: a session over standard input and output.
#![tactic(auto)]

mod run;
mod session;
mod status;
mod words;

use line_io::{StdSink, StdSource};
use run::run;
use status::exit_code;
use std::io;
use std::process::ExitCode;
use transcript::Status;
use words::words_of;

fn main(rt: HostRuntime) -> ExitCode {
    ExitCode::from(exit_code(run_process(&rt)))
}

/// Runs the program on the words, the input and the output of the process.
fn run_process(rt: &HostRuntime) -> Status {
    let words = match words_of(rt, rt.alloc()) {
        Ok(words) => words,
        Err(status) => return status,
    };
    let mut source = StdSource::make(rt.reader());
    let mut sink = StdSink::make(io::writer(rt));
    run(rt.alloc(), &words, &mut source, &mut sink)
}

#[cfg(test)]
mod tests;
