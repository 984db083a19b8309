//! Tests of sources, sinks, lines and runs, by the calls of line_io and transcript.
#![tactic(auto)]

#[cfg(test)]
mod lines;
#[cfg(test)]
mod runs;
