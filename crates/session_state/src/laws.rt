//! Laws of what a session holds, as contracts of functions that do nothing.
ghost use Rattle.std.specs.Prelude.{◌≡◌, ◌↔◌, ℕ, ◌<◌, length, Some, Ok, Result as Answer};
ghost use Rattle.frac128.specs.declared.number.TooWide.{TooWide};
ghost use Rattle.model_core.specs.State.{ModelState};
ghost use Rattle.model_core.specs.Finding.{find_criterion, criterion_at};
ghost use Rattle.value_scale.specs.Basic.{IsBasic};
ghost use Rattle.value_scale.specs.declared.basic.Basic.{Basic};
ghost use Rattle.session_state.specs.State.{SessionState, ResultsState, IsSession, AreResults, matrix_of, kept_of, carried, changed, undone};
ghost use Rattle.session_state.specs.Taking.{Takes};
ghost use Rattle.session_state.specs.declared.history.TheConstants.{UNDO_STEPS};
ghost use Rattle.session_state.specs.declared.subject.Subject.{Subject as Place};

use crate::subject::Subject;

/// States that after a change of the model a place keeps its result exactly where a place of the same
/// name had it before, with equal judgements; and that what is kept is taken as it is, so that
/// nothing changes and no pivot is counted. It does nothing.
pub fn kept_exactly()
    ensures criterion { (m after : ModelState) (results : ResultsState) (c : ℕ) (basic : Basic)
        → c < length after.criteria
        → (kept_of (carried m results after) (Subject.Criterion c) ≡ Some basic)
        ↔ ((before : ℕ) × (find_criterion m (criterion_at after c).name ≡ Some before)
        × ((criterion_at m before).matrix ≡ (criterion_at after c).matrix)
        × (kept_of results (Subject.Criterion before) ≡ Some basic)) }
    ensures weighting { (m after : ModelState) (results : ResultsState) (basic : Basic)
        → (kept_of (carried m results after) Subject.Weighting ≡ Some basic)
        ↔ ((m.weighting ≡ after.weighting) × (kept_of results Subject.Weighting ≡ Some basic)) }
    ensures taken { (m : ModelState) (subject : Place) (results after : ResultsState)
        (answer : Answer Basic TooWide) (basic : Basic) → kept_of results subject ≡ Some basic
        → Takes m subject results answer after → (answer ≡ Ok basic) × (after ≡ results) }
{}

/// States that what is taken is the basic scale of the matrix as it is now, and that all that is
/// kept afterwards is so too. It does nothing.
pub fn what_is_taken_is_basic()
    ensures basic { (m : ModelState) (subject : Place) (results after : ResultsState) (basic : Basic)
        → AreResults m results → Takes m subject results (Ok basic) after
        → IsBasic (matrix_of m subject) basic }
    ensures results { (m : ModelState) (subject : Place) (results after : ResultsState)
        (answer : Answer Basic TooWide) → AreResults m results
        → Takes m subject results answer after → AreResults m after }
{}

/// States that behind a change of the model there is something to undo, which brings the whole model
/// back, and the history too unless its oldest model fell out. It does nothing.
pub fn a_change_can_be_undone()
    ensures { (s : SessionState) (after : ModelState)
        → (t : SessionState) × (undone (changed s after) ≡ Some t) × (t.model ≡ s.model)
        × (length s.history < UNDO_STEPS → t.history ≡ s.history) }
{}
