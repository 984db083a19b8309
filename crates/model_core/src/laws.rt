//! What the definitions amount to: functions that do nothing, whose contracts are the laws.
ghost use Rattle.std.specs.Prelude.{◌≡◌, ◌≢◌, ◌↔◌, ℕ, List, Some, Ok, Result};
ghost use Rattle.judgement_matrix.specs.Range.{Bounds};
ghost use Rattle.model_core.specs.Categories.{range_of, WritesRange};
ghost use Rattle.model_core.specs.State.{ModelState, IsModel, IsCriterion, empty_model};
ghost use Rattle.model_core.specs.Whole.{IsWholeModel, IsLawful};
ghost use Rattle.model_core.specs.Edits.{Edit, Edits, edited};
ghost use Rattle.model_core.specs.declared.edit.EditFault.{EditFault as Fault};

use crate::criterion::Criterion;
use crate::edit::EditFault;
use crate::model::Model;

/// States that an edit of a model has an outcome, and only one but for want of memory. It does nothing.
pub fn one_outcome()
    ensures some { (m : ModelState) (edit : Edit)
        → (outcome : Result (Unit {0}) Fault) × (new : ModelState) × Edits m edit outcome new }
    ensures one { (m : ModelState) (edit : Edit) (x y : Result (Unit {0}) Fault) (a b : ModelState)
        → Edits m edit x a → Edits m edit y b → x ≢ Err EditFault.NoMemory → y ≢ Err EditFault.NoMemory
        → (x ≡ y) × (a ≡ b) }
{}

/// States that bytes are read as a range exactly where they write it: `positive`, a category's digit or word, or two of these
/// joined by `..`, the first not above the second. It does nothing.
pub fn ranges_as_written()
    ensures { (bytes : List ℕ) (range : Bounds) → (range_of bytes ≡ Some range) ↔ WritesRange bytes range }
{}

/// States that an edit whose parts are lawful leaves a whole model whole, where it isn't refused: its criteria and its weighting
/// have matrices of their sizes. So is the empty model. It does nothing.
pub fn edits_keep_a_model_whole()
    ensures empty { IsWholeModel empty_model }
    ensures edited { (m after : ModelState) (edit : Edit) → IsWholeModel m → IsLawful m edit
        → edited m edit ≡ Ok after → IsWholeModel after }
{}

/// States what the type of a model keeps. It only reads it.
pub fn what_a_model_keeps(model: &Model)
    ensures { IsModel model.now }
{
    let _ = model.rows.len();
}

/// States what the type of a criterion keeps. It only reads it.
pub fn what_a_criterion_keeps(criterion: &Criterion)
    ensures { IsCriterion criterion.now }
{
    let _ = criterion.elements();
}
