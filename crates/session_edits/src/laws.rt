//! Laws of answers, as contracts of functions that do nothing.
ghost use Rattle.std.specs.Prelude.{◌≡◌, ◌⊎◌, ℕ, ◌<◌, ◌≤◌, List, [], ◌∷◌, length, Some, None, false, Contains};
ghost use Rattle.judgement_matrix.specs.Matrix.{Judgements};
ghost use Rattle.judgement_matrix.specs.Scale.{IsInconsistent};
ghost use Rattle.model_core.specs.Edits.{Edit};
ghost use Rattle.model_core.specs.Finding.{find_option, find_criterion, find_element, criterion_at};
ghost use Rattle.command_read.specs.Later.{is_done_later};
ghost use Rattle.command_read.specs.Reading.{command_of};
ghost use Rattle.command_read.specs.declared.block.Held.{Held};
ghost use Rattle.command_read.specs.declared.command.Command.{Command};
ghost use Rattle.command_read.specs.declared.command.Command.TheVariants as command;
ghost use Rattle.command_read.specs.declared.command.Command.TheVariants.{Undo};
ghost use Rattle.command_read.specs.declared.command.Parsed.TheVariants as parsed;
ghost use Rattle.report_text.specs.declared.reply.Detail.{Detail};
ghost use Rattle.report_text.specs.declared.reply.Reply.{Reply};
ghost use Rattle.session_state.specs.State.{SessionState, IsSession, start_state};
ghost use Rattle.session_state.specs.declared.history.TheConstants.{UNDO_STEPS};
ghost use Rattle.session_edits.specs.Answer.{Answer};
ghost use Rattle.session_edits.specs.Due.{due, found_later, IsRefusedBy};
ghost use Rattle.session_edits.specs.Edits.{edit_of};
ghost use Rattle.session_edits.specs.Meaning.{SaysScale, SaysCert, IsToldInconsistent, SaysAnchored, SaysSlack, SaysWeights, SaysScores, SaysSubtotals};
ghost use Rattle.session_edits.specs.Refusals.{refused};
ghost use Rattle.session_edits.specs.Scores.{missing, option_places};
ghost use Rattle.session_edits.specs.declared.refusal.TheConstants.{TOO_WIDE};

/// States that an answer that is a refusal keeps the model and the history. It does nothing.
pub fn refusals_keep_the_model()
    ensures { (s next : SessionState) (command : Command) (number : ℕ) (detail : Detail)
        → Answer s command (Reply.Refused number detail) next
        → (next.model ≡ s.model) × (next.history ≡ s.history) }
{}

/// States that what each state of a session holds is so at its start, and that each answer keeps it:
/// an edit, an undo, a `load`, an `import` and each query. It does nothing.
pub fn states_hold()
    ensures start { IsSession start_state }
    ensures kept { (s next : SessionState) (line : List ℕ) (held : Held) (command : Command)
        (reply : Reply) → command_of line held ≡ parsed.Do command → IsSession s
        → Answer s command reply next → IsSession next }
{}

/// States that each command that a line may give has an answer in every state that holds. It does
/// nothing.
pub fn every_command_has_an_answer()
    ensures { (s : SessionState) (line : List ℕ) (held : Held) (command : Command)
        → command_of line held ≡ parsed.Do command → IsSession s
        → (r : Reply) × (next : SessionState) × Answer s command r next }
{}

/// States what is said of the scale of a criterion, in a state that holds: a printed scale is the least
/// one that meets its judgements as they are at that command, and its multipliers are a certificate, on
/// their rows, that none has a smaller span; or no scale meets them, and the multipliers prove that. So
/// are the certificates that `cert` and `wcert` print. It does nothing.
pub fn a_scale_is_least()
    ensures scale { (s next : SessionState) (name : List ℕ) (c : ℕ) (reply : Reply) → IsSession s
        → find_criterion s.model name ≡ Some c → Answer s (command.Scale name) reply next
        → SaysScale (criterion_at s.model c).matrix (criterion_at s.model c).elements reply }
    ensures cert { (s next : SessionState) (name : List ℕ) (c : ℕ) (reply : Reply) → IsSession s
        → find_criterion s.model name ≡ Some c → Answer s (command.Cert name) reply next
        → SaysCert (criterion_at s.model c).matrix reply }
    ensures wcert { (s next : SessionState) (reply : Reply) → IsSession s
        → 1 ≤ length s.model.criteria → Answer s command.Wcert reply next
        → SaysCert s.model.weighting reply }
{}

/// States that judgements are called inconsistent exactly where no scale meets them, unless something is
/// too wide. It does nothing.
pub fn inconsistent_exactly()
    ensures { (m : Judgements) (names : List (List ℕ)) (reply : Reply) → SaysScale m names reply
        → (IsToldInconsistent reply → IsInconsistent m)
        × (IsInconsistent m → IsToldInconsistent reply ⊎ (reply ≡ refused TOO_WIDE)) }
{}

/// States what the values that `anchored` prints are, in a state that holds: the least scale of the
/// criterion, mapped by the rising line with good at 100 and neutral at 0; or why there is none. It does
/// nothing.
pub fn anchored_values()
    ensures { (s next : SessionState) (name : List ℕ) (c : ℕ) (reply : Reply) → IsSession s
        → find_criterion s.model name ≡ Some c → Answer s (command.Anchored name) reply next
        → SaysAnchored s.model c reply }
{}

/// States what `slack` prints, in a state that holds: exactly the values that the element may have while
/// the others stay as on the least scale. It does nothing.
pub fn slack_values()
    ensures { (s next : SessionState) (name element : List ℕ) (c e : ℕ) (reply : Reply)
        → IsSession s → find_criterion s.model name ≡ Some c
        → find_element (criterion_at s.model c) element ≡ Some e
        → Answer s (command.Slack name element) reply next
        → SaysSlack (criterion_at s.model c).matrix e reply }
{}

/// States what `weights` prints, in a state that holds: the swings of the weighting's least scale over
/// their sum; or why there are none. It does nothing.
pub fn weights_values()
    ensures { (s next : SessionState) (reply : Reply) → IsSession s → 1 ≤ length s.model.criteria
        → Answer s command.Weights reply next → SaysWeights s.model reply }
{}

/// States what `scores` prints, in a state that holds and where each option performs on each criterion:
/// for each option the sum over the criteria of weight times anchored value. It does nothing.
pub fn scores_values()
    ensures { (s next : SessionState) (reply : Reply) → IsSession s → 1 ≤ length s.model.criteria
        → missing s.model (option_places s.model) ≡ None → Answer s command.Scores reply next
        → SaysScores s.model reply }
{}

/// States the same of `subtotals`, for the criteria under each group. It does nothing.
pub fn subtotals_values()
    ensures { (s next : SessionState) (name : List ℕ) (o : ℕ) (reply : Reply) → IsSession s
        → find_option s.model name ≡ Some o → 1 ≤ length s.model.criteria
        → missing s.model (o ∷ []) ≡ None → Answer s (command.Subtotals name) reply next
        → SaysSubtotals s.model o reply }
{}

/// States that `undo` behind an accepted edit is accepted and brings the whole model back, and the
/// models before it too unless the oldest fell out. It does nothing.
pub fn undo_brings_back()
    ensures { (s mid next : SessionState) (command : Command) (edit : Edit) (reply : Reply)
        → edit_of command ≡ Some edit → is_done_later command ≡ false
        → Answer s command Reply.Ok mid → Answer mid Undo reply next
        → (reply ≡ Reply.Ok) × (next.model ≡ s.model)
        × (length s.history < UNDO_STEPS → next.history ≡ s.history) }
{}

/// States that refusals come in the one order: the first cause that stands, of those that a command may
/// have, gives the refusal. Where none stands, an edit is accepted, and what else is asked is refused
/// only for a text's contents or by what is found in computing. It does nothing.
pub fn refusals_in_order()
    ensures first { (s next : SessionState) (command : Command) (reply : Reply) (number : ℕ)
        → Answer s command reply next → due s command ≡ Some number → IsRefusedBy number reply }
    ensures later { (s next : SessionState) (command : Command) (reply : Reply) (number : ℕ)
        → Answer s command reply next → due s command ≡ None → IsRefusedBy number reply
        → Contains (found_later command) number }
    ensures accepted { (s next : SessionState) (command : Command) (edit : Edit) (reply : Reply)
        → edit_of command ≡ Some edit → Answer s command reply next → due s command ≡ None
        → reply ≡ Reply.Ok }
{}
