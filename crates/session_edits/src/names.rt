//! The names beside a reply.
ghost use Rattle.std.specs.Prelude.{◌≡◌, ◌++◌, ◌∷◌, [], length, IfOk, codes};
ghost use Rattle.session_state.specs.State.{matrix_of};
ghost use Rattle.session_state.specs.Taking.{IsSubject};
ghost use Rattle.session_edits.specs.Subjects.{names_of, weighed_names};

use crate::NoMemory;
use frac128::List;
use model_core::laws::{what_a_criterion_keeps, what_a_model_keeps};
use model_core::{Criterion, Model, Name};
use session_state::Subject;
use std::alloc::Global;

/// The names of the elements of a matrix.
pub(crate) fn names_of(
    alloc: Global,
    model: &Model,
    subject: Subject,
) -> Result<List<Name>, NoMemory>
    requires { IsSubject model.now subject }
    ensures names { IfOk result (λ names. names ≡ names_of model.now subject) }
    ensures each { IfOk result (λ names. length names ≡ (matrix_of model.now subject).size) }
{
    match subject {
        Subject::Criterion(at) => element_names(alloc, model.criterion(at)),
        Subject::Weighting => swing_names(alloc, model),
    }
}

/// The names of the elements of a criterion.
pub(crate) fn element_names(alloc: Global, criterion: &Criterion) -> Result<List<Name>, NoMemory>
    ensures names { IfOk result (λ names. names ≡ criterion.now.elements) }
    ensures each { IfOk result (λ names. length names ≡ criterion.now.matrix.size) }
{
    // For the proofs alone: a criterion's matrix has its elements.
    what_a_criterion_keeps(criterion);
    let mut names = Vec::new(alloc);
    for at in 0..criterion.elements() {
        names.push(criterion.element(at + 1).copy()?)?;
    }
    Ok(List::make(names))
}

/// The names of the criteria in the order of the weighting.
pub(crate) fn weighed_names(alloc: Global, model: &Model) -> Result<Vec<Name>, NoMemory>
    ensures names { IfOk result (λ names. names.items ≡ weighed_names model.now) }
    ensures each { IfOk result (λ names. length names.items ≡ length model.now.criteria) }
{
    // For the proofs alone: the order holds each criterion.
    what_a_model_keeps(model);
    let mut names = Vec::new(alloc);
    for place in 0..model.criteria() {
        let criterion = model.order(place + 1);
        names.push(model.criterion(criterion).name().copy()?)?;
    }
    Ok(names)
}

// The same, and behind them the profile that is neutral on all criteria.
fn swing_names(alloc: Global, model: &Model) -> Result<List<Name>, NoMemory>
    ensures names { IfOk result (λ names. names ≡ names_of model.now Subject.Weighting) }
    ensures each { IfOk result (λ names. length names ≡ model.now.weighting.size) }
{
    let mut names = weighed_names(alloc, model)?;
    push_none(alloc, &mut names)?;
    prove!(model.weighting().size() == model.criteria() + 1);
    Ok(List::make(names))
}

// Adds `none`. It is a name, so the last case never comes; want of memory is the one answer that is
// free there.
fn push_none(alloc: Global, names: &mut Vec<Name>) -> Result<(), NoMemory>
    ensures { IfOk result (λ _. names.new.items ≡ names.old.items ++ codes "none" ∷ []) }
{
    match Name::check(alloc, b"none".as_slice())? {
        Some(none) => {
            names.push(none)?;
            Ok(())
        }
        None => Err(NoMemory),
    }
}
