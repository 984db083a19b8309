//! What the definitions amount to: functions that do nothing, whose contracts are the laws.
ghost use Rattle.std.specs.Prelude.{◌≡◌, ◌==◌, not, ℕ, List, true, Ok, Err};
ghost use Rattle.std.specs.List.{list_all};
ghost use Rattle.model_core.specs.State.{ModelState};
ghost use Rattle.model_core.specs.Whole.{IsWholeModel};
ghost use Rattle.model_json.specs.Kept.{IsNamedModel};
ghost use Rattle.model_json.specs.Reading.{model_of};
ghost use Rattle.model_json.specs.Writing.{model_data};
ghost use Rattle.model_json.specs.Text.{load_of};

use crate::fault::LoadFault;

/// States that the value of a model is read as that model. It does nothing.
#[tactic(auto, using(crate::proofs::ModelAgain::model_again))]
pub fn written_is_read()
    ensures { (m : ModelState) → IsNamedModel m → model_of (model_data m) ≡ Ok m }
{}

/// States that the pointer with which a text is refused has no newline. It does nothing.
#[tactic(auto, using(crate::proofs::PointerLemmas::fault_line))]
pub fn pointers_have_no_newline()
    ensures { (bytes pointer : List ℕ) → load_of bytes ≡ Err (LoadFault.BadModel pointer)
        → list_all (λ byte. not (byte == 10)) pointer ≡ true }
{}

/// States that a text that loads gives a whole model: its criteria and its weighting have matrices of their sizes. It does
/// nothing.
pub fn loaded_models_are_whole()
    ensures { (bytes : List ℕ) (m : ModelState) → load_of bytes ≡ Ok m → IsWholeModel m }
{}
