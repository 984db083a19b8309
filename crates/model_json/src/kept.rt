//! What a model keeps with its names. Each function only reads what it speaks of.
ghost use Rattle.std.specs.Prelude.{All};
ghost use Rattle.model_json.specs.Kept.{IsNamed, IsNamedCriterion, IsNamedModel};

use model_core::laws::{what_a_criterion_keeps, what_a_model_keeps};
use model_core::{Criterion, Model};

fn elements_are_named(criterion: &Criterion)
    ensures { All IsNamed criterion.now.elements }
{
    for at in 0..criterion.elements() {
        let _ = criterion.element(at + 1).as_bytes();
    }
}

fn criterion_is_named(criterion: &Criterion)
    ensures { IsNamedCriterion criterion.now }
{
    what_a_criterion_keeps(criterion);
    let _ = criterion.name().as_bytes();
    elements_are_named(criterion);
    let _ = criterion.matrix().size();
}

fn criteria_are_named(model: &Model)
    ensures { All IsNamedCriterion model.now.criteria }
{
    for at in 0..model.criteria() {
        criterion_is_named(model.criterion(at));
    }
}

fn groups_are_named(model: &Model)
    ensures { All (λ group. IsNamed group.name) model.now.groups }
{
    for at in 0..model.groups() {
        let _ = model.group(at).name().as_bytes();
    }
}

fn options_are_named(model: &Model)
    ensures { All IsNamed model.now.options }
{
    for at in 0..model.options() {
        let _ = model.option(at).as_bytes();
    }
}

/// What the type of a model keeps, so that its text loads as the same model.
pub(crate) fn model_is_named(model: &Model)
    ensures { IsNamedModel model.now }
{
    what_a_model_keeps(model);
    let _ = model.groups();
    groups_are_named(model);
    let _ = model.criteria();
    criteria_are_named(model);
    let _ = model.options();
    options_are_named(model);
    let _ = model.weighting().size();
}
