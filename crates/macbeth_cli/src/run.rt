//! The top call.
ghost use Rattle.std.specs.Prelude.{◌≡◌, ◌≢◌, ◌↔◌, []};
ghost use Rattle.line_io.specs.Outside.{change_of};
ghost use Rattle.transcript.specs.Table.{Runs};
ghost use Rattle.session_state.specs.State.{start_state};
ghost use Rattle.macbeth_cli.specs.Session.{session_rules};

use crate::session::SessionMode;
use line_io::{Sink, Source};
use std::alloc::Global;
use transcript::{Status, run_entries};

/// Runs the program on its words, the ones after its name. With no words it runs a session: it
/// answers the lines of the source one after another, each reply by one `put_all`.
pub fn run<S: Source, K: Sink>(
    alloc: Global,
    words: &[String],
    source: &mut S,
    sink: &mut K,
) -> Status
    // By the status a transcript of what was taken was written, as far as its table says.
    ensures session { words.now ≡ []
        → Runs session_rules start_state result (change_of S.left S.faults source.old source.new)
        (change_of K.held K.faults sink.old sink.new) }

    // Words that aren't known are told, and nothing is taken or written.
    ensures bad_words { (result ≡ Status.BadWords) ↔ (words.now ≢ []) }
    ensures untouched { result ≡ Status.BadWords → (source.new ≡ source.old) × (sink.new ≡ sink.old) }
{
    if !words.is_empty() {
        return Status::BadWords;
    }
    run_entries::<SessionMode, S, K>(alloc, source, sink)
}
