//! Laws of entries and of the status table, as contracts of functions that do nothing.
ghost use Rattle.std.specs.Prelude.{◌≡◌, ◌⊎◌, Bool, List, ℕ, Some, length, slice_get};
ghost use Rattle.line_io.specs.Outside.{Change, Took};
ghost use Rattle.line_io.specs.declared.lines.TheConstants.{INPUT_LIMIT};
ghost use Rattle.transcript.specs.Entries.{AreEntries};
ghost use Rattle.transcript.specs.Entry.{Entry};
ghost use Rattle.transcript.specs.Table.{HasQuit, IsTold};
ghost use Rattle.transcript.specs.Transcript.{IsTranscript, HasReply, up_to_quit};

use crate::service::Service;
use crate::status::Status;

/// States that bytes have entries, and one list of them only. It does nothing.
pub fn bytes_have_one_list_of_entries()
    ensures some { (takes : List ℕ → Bool) (ended : Bool) (bytes : List ℕ)
        → (entries : List Entry) × AreEntries takes ended bytes entries }
    ensures one { (takes : List ℕ → Bool) (ended : Bool) (bytes : List ℕ) (some others : List Entry)
        → AreEntries takes ended bytes some → AreEntries takes ended bytes others → some ≡ others }
{}

/// States that a run that took `INPUT_LIMIT` bytes, with no accepted `quit` among them, ends with
/// `InputLimit`, unless writing failed or memory ran out before; and that no other run ends so. It
/// does nothing.
pub fn the_input_limit_is_exact<V: Service>()
    ensures at_limit { (first : V) (status : Status) (source sink : Change)
        → (told : IsTold V.rules first status source sink) → length told.bytes ≡ INPUT_LIMIT
        → ¬ HasQuit V.rules told.bytes
        → (status ≡ Status.InputLimit) ⊎ (status ≡ Status.WriteFault) ⊎ (status ≡ Status.NoMemory) }
    ensures only { (first : V) (status : Status) (source sink : Change)
        → (told : IsTold V.rules first status source sink) → status ≡ Status.InputLimit
        → (length told.bytes ≡ INPUT_LIMIT) × ¬ HasQuit V.rules told.bytes }
{}

/// States that in a transcript each entry up to the first accepted `quit` has its reply, which is an
/// answer from a state that holds to one that holds. It does nothing.
pub fn each_reply_is_an_answer_where_it_holds<V: Service>()
    ensures { (first : V) (ended quits : Bool) (bytes text : List ℕ) (k : ℕ) (entry : Entry)
        → (transcript : IsTranscript V.rules first ended quits bytes text)
        → slice_get (up_to_quit V.rules.quits transcript.entries) k ≡ Some entry
        → HasReply V.rules entry text }
{}
