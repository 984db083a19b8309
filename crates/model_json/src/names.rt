//! Copies of names, by which an edit finds again what has this name.
ghost use Rattle.std.specs.Prelude.{◌≡◌, ◌<◌, ◌≤◌, length, IfOk, Some};
ghost use Rattle.model_core.specs.Finding.{find_option, find_criterion, find_group, find_element};

use model_core::{Criterion, Model, Name, NoMemory};

/// The name of an option.
pub(crate) fn option_name(model: &Model, at: usize) -> Result<Name, NoMemory>
    requires { at < length model.now.options }
    ensures { IfOk result (λ name. find_option model.now name ≡ Some at) }
{
    prove!(model.options() <= usize::MAX);
    model.option(at).copy()
}

/// The name of a criterion.
pub(crate) fn criterion_name(model: &Model, at: usize) -> Result<Name, NoMemory>
    requires { at < length model.now.criteria }
    ensures { IfOk result (λ name. find_criterion model.now name ≡ Some at) }
{
    prove!(model.criteria() <= usize::MAX);
    model.criterion(at).name().copy()
}

/// The name of an element of a criterion, which counts from 1.
pub(crate) fn element_name(criterion: &Criterion, at: usize) -> Result<Name, NoMemory>
    requires { (1 ≤ at) × (at ≤ length criterion.now.elements) }
    ensures { IfOk result (λ name. find_element criterion.now name ≡ Some at) }
{
    prove!(criterion.elements() <= usize::MAX);
    criterion.element(at).copy()
}

/// The name of a group.
pub(crate) fn group_name(model: &Model, at: usize) -> Result<Name, NoMemory>
    requires { at < length model.now.groups }
    ensures { IfOk result (λ name. find_group model.now name ≡ Some at) }
{
    prove!(model.groups() <= usize::MAX);
    model.group(at).name().copy()
}
