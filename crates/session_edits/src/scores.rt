//! What is asked of all criteria and the weighting: scores and subtotals.
ghost use Rattle.std.specs.Prelude.{◌≡◌, ◌+◌, ◌-◌, ◌<◌, ◌≤◌, ◌++◌, ◌∷◌, [], All, map, length, IfOk, if◌then◌else◌};
ghost use Rattle.std.specs.List.{range_with_len, zip};
ghost use Rattle.judgement_matrix.specs.Values.{fraction_at};
ghost use Rattle.model_core.specs.Finding.{criterion_at};
ghost use Rattle.report_text.specs.Reply.{IsPrintable};
ghost use Rattle.session_state.specs.State.{AreResults};
ghost use Rattle.session_state.specs.Taking.{IsSubject};
ghost use Rattle.session_edits.specs.Refusals.{Works, or_too_wide};
ghost use Rattle.session_edits.specs.Scores.{missing, missing_on, missing_detail, TakesOr, TakesAllOr, weight_at, value_at, partial_score, criteria_under, checked_scores, checked_subtotals, checked_parts, each_score, group_names, anchored_at, is_under};
ghost use Rattle.session_edits.specs.Subjects.{all_subjects, places};

use crate::NoMemory;
use crate::refusal::{Stop, TOO_WIDE, stopped};
use crate::scales::worth_of_basic;
use frac128::{Frac, List};
use model_core::laws::what_a_model_keeps;
use model_core::{Model, Name, OPTIONS};
use report_text::{Detail, Reply};
use session_state::{Results, Subject};
use std::alloc::Global;
use swing_weights::score;
use value_scale::ScaleFault;

// ---- performances

/// The first performance that is missing of so many options from one on, by option and then by
/// criterion.
pub(crate) fn missing(model: &Model, first: usize, count: usize) -> Result<Option<Detail>, NoMemory>
    requires { first + count ≤ length model.now.options }
    ensures { IfOk result (λ detail. detail ≡ missing model.now (range_with_len first count)) }
{
    // For the proofs alone: there are few options.
    prove!(model.options() <= OPTIONS);
    for option in first..first + count {
        match missing_on(model, option)? {
            Some(detail) => return Ok(Some(detail)),
            None => {}
        }
    }
    Ok(None)
}

// The first criterion on which an option performs no element.
fn missing_on(model: &Model, option: usize) -> Result<Option<Detail>, NoMemory>
    requires { option < length model.now.options }
    ensures { IfOk result (λ detail. detail ≡ missing_on model.now option (places model.now)) }
{
    for criterion in 0..model.criteria() {
        match model.performance(option, criterion) {
            None => return Ok(Some(missing_detail(model, option, criterion)?)),
            Some(_) => {}
        }
    }
    Ok(None)
}

// An option and a criterion, by their names.
fn missing_detail(model: &Model, option: usize, criterion: usize) -> Result<Detail, NoMemory>
    requires option { option < length model.now.options }
    requires criterion { criterion < length model.now.criteria }
    ensures { IfOk result (λ detail. detail ≡ missing_detail model.now option criterion) }
{
    Ok(Detail::Missing(
        model.option(option).copy()?,
        model.criterion(criterion).name().copy()?,
    ))
}

// ---- the places that are taken

// Takes the basic scale of a subject, and works what a score needs of it.
fn take_worth(
    alloc: Global,
    model: &Model,
    results: &mut Results,
    subject: Subject,
) -> Result<Vec<Frac>, Stop>
    requires subject { IsSubject model.now subject }
    requires results { AreResults model.now results.old }
    ensures takes { TakesOr (λ v. v.items) model.now subject results.old result results.new }
    ensures results { AreResults model.now results.new }
{
    match results.take(alloc, model, subject) {
        Ok(taken) => worth_of_basic(alloc, model, subject, taken.basic()),
        Err(ScaleFault::TooWide) => Err(stopped(TOO_WIDE)),
        Err(ScaleFault::NoMemory) => Err(Stop::NoMemory),
    }
}

/// The anchored scale of each criterion, and last the weights, taken up to the first with a refusal.
pub(crate) fn take_worths(
    alloc: Global,
    model: &Model,
    results: &mut Results,
) -> Result<Vec<List<Frac>>, Stop>
    requires some { IsSubject model.now Subject.Weighting }
    requires results { AreResults model.now results.old }
    ensures takes { TakesAllOr (λ v. v.items) model.now (all_subjects model.now)
        results.old result results.new }
    ensures results { AreResults model.now results.new }
{
    let mut worths = Vec::new(alloc);
    for criterion in 0..model.criteria() {
        match take_worth(alloc, model, results, Subject::Criterion(criterion)) {
            Ok(worth) => worths.push(List::make(worth))?,
            Err(stop) => return Err(stop),
        }
    }
    match take_worth(alloc, model, results, Subject::Weighting) {
        Ok(weights) => {
            worths.push(List::make(weights))?;
            Ok(worths)
        }
        Err(stop) => Err(stop),
    }
}

// ---- scores

// The value of an element, which counts from 1.
fn fraction_at(values: &[Frac], element: usize) -> Frac
    requires { 1 ≤ element }
    ensures { result ≡ fraction_at values.now element }
{
    match values.get(element - 1) {
        Some(value) => *value,
        None => Frac::whole(0),
    }
}

// One of the lists.
fn list_at(worths: &[List<Frac>], at: usize) -> &[Frac]
    ensures { result.now ≡ anchored_at worths.now at }
{
    match worths.get(at) {
        Some(worth) => worth.as_slice(),
        None => &[],
    }
}

// The weights of some criteria.
fn weights_at(
    alloc: Global,
    model: &Model,
    worths: &[List<Frac>],
    criteria: &[usize],
) -> Result<Vec<Frac>, NoMemory>
    requires { All (λ c. c < length model.now.criteria) criteria.now }
    ensures { IfOk result (λ v. v.items ≡ map (weight_at model.now worths.now) criteria.now) }
{
    let weights = list_at(worths, model.criteria());
    let mut some = Vec::new(alloc);
    for criterion in criteria {
        some.push(fraction_at(weights, model.place_of(*criterion)))?;
    }
    Ok(some)
}

// The anchored value of an option on a criterion.
fn value_at(model: &Model, worths: &[List<Frac>], option: usize, criterion: usize) -> Frac
    requires option { option < length model.now.options }
    requires criterion { criterion < length model.now.criteria }
    ensures { result ≡ value_at model.now worths.now option criterion }
{
    match model.performance(option, criterion) {
        Some(element) => fraction_at(list_at(worths, criterion), element),
        None => Frac::whole(0),
    }
}

// The anchored values of an option on some criteria.
fn values_at(
    alloc: Global,
    model: &Model,
    worths: &[List<Frac>],
    option: usize,
    criteria: &[usize],
) -> Result<Vec<Frac>, NoMemory>
    requires option { option < length model.now.options }
    requires criteria { All (λ c. c < length model.now.criteria) criteria.now }
    ensures { IfOk result
        (λ v. v.items ≡ map (value_at model.now worths.now option) criteria.now) }
{
    let mut values = Vec::new(alloc);
    for criterion in criteria {
        values.push(value_at(model, worths, option, *criterion))?;
    }
    Ok(values)
}

// The sum over some criteria of weight times value.
fn partial_score(
    alloc: Global,
    model: &Model,
    worths: &[List<Frac>],
    option: usize,
    criteria: &[usize],
) -> Result<Frac, Stop>
    requires option { option < length model.now.options }
    requires criteria { All (λ c. c < length model.now.criteria) criteria.now }
    ensures { Works (λ f. f) (or_too_wide (partial_score model.now worths.now option criteria.now))
        result }
{
    let weights = weights_at(alloc, model, worths, criteria)?;
    let values = values_at(alloc, model, worths, option, criteria)?;
    match score(&weights, &values) {
        Ok(score) => Ok(score),
        Err(_) => Err(stopped(TOO_WIDE)),
    }
}

// The places of the criteria.
fn all_places(alloc: Global, model: &Model) -> Result<Vec<usize>, NoMemory>
    ensures value { IfOk result (λ v. v.items ≡ places model.now) }
    ensures within { IfOk result (λ v. All (λ c. c < length model.now.criteria) v.items) }
{
    let mut all = Vec::new(alloc);
    for criterion in 0..model.criteria() {
        all.push(criterion)?;
    }
    Ok(all)
}

// The names of the options.
fn option_names(alloc: Global, model: &Model) -> Result<List<Name>, NoMemory>
    ensures { IfOk result (λ names. names ≡ model.now.options) }
{
    let mut names = Vec::new(alloc);
    for option in 0..model.options() {
        names.push(model.option(option).copy()?)?;
    }
    Ok(List::make(names))
}

// The score of each option.
fn each_score(alloc: Global, model: &Model, worths: &[List<Frac>]) -> Result<List<Frac>, Stop>
    ensures { Works (λ v. v) (or_too_wide (each_score model.now worths.now)) result }
{
    let criteria = all_places(alloc, model)?;
    let mut scores = Vec::new(alloc);
    for option in 0..model.options() {
        scores.push(partial_score(alloc, model, worths, option, &criteria)?)?;
    }
    Ok(List::make(scores))
}

/// The scores of all options.
pub(crate) fn scores_told(
    alloc: Global,
    model: &Model,
    worths: &[List<Frac>],
) -> Result<Reply, Stop>
    ensures value { Works (λ r. r) (checked_scores model.now worths.now) result }
    ensures printable { IfOk result IsPrintable }
{
    let values = each_score(alloc, model, worths)?;
    let names = option_names(alloc, model)?;
    Ok(Reply::Scores { names, values })
}

// ---- subtotals

// Whether a criterion lies under a group.
fn is_under(model: &Model, criterion: usize, group: usize) -> bool
    requires criterion { criterion < length model.now.criteria }
    requires group { group < length model.now.groups }
    ensures { result ≡ is_under model.now.groups (criterion_at model.now criterion).group group }
{
    // For the proofs alone: groups stand behind their parents.
    what_a_model_keeps(model);
    model.under(criterion, group)
}

// The places of the criteria under a group.
fn places_under(alloc: Global, model: &Model, group: usize) -> Result<Vec<usize>, NoMemory>
    requires { group < length model.now.groups }
    ensures value { IfOk result (λ v. v.items ≡ criteria_under model.now group) }
    ensures within { IfOk result (λ v. All (λ c. c < length model.now.criteria) v.items) }
{
    let mut some = Vec::new(alloc);
    for criterion in 0..model.criteria() {
        push_under(&mut some, model, criterion, group)?;
    }
    Ok(some)
}

// Adds the criterion, if it lies under the group.
fn push_under(
    some: &mut Vec<usize>,
    model: &Model,
    criterion: usize,
    group: usize,
) -> Result<(), NoMemory>
    requires criterion { criterion < length model.now.criteria }
    requires group { group < length model.now.groups }
    ensures { IfOk result (λ _. some.new.items ≡ some.old.items
        ++ (if is_under model.now.groups (criterion_at model.now criterion).group group
        then criterion ∷ [] else [])) }
{
    if is_under(model, criterion, group) {
        some.push(criterion)?;
    }
    Ok(())
}

// The sum over the criteria under each group.
fn each_part(
    alloc: Global,
    model: &Model,
    worths: &[List<Frac>],
    option: usize,
) -> Result<Vec<Frac>, Stop>
    requires { option < length model.now.options }
    ensures { Works (λ v. v.items) (or_too_wide (checked_parts model.now worths.now option))
        result }
{
    let mut parts = Vec::new(alloc);
    for group in 0..model.groups() {
        let criteria = places_under(alloc, model, group)?;
        parts.push(partial_score(alloc, model, worths, option, &criteria)?)?;
    }
    Ok(parts)
}

// Each group by its name, beside a number.
fn beside_groups(
    alloc: Global,
    model: &Model,
    parts: &[Frac],
) -> Result<List<(Name, Frac)>, NoMemory>
    requires { length parts.now ≡ length model.now.groups }
    ensures { IfOk result (λ v. v ≡ zip (group_names model.now) parts.now) }
{
    let mut named = Vec::new(alloc);
    for group in 0..model.groups() {
        named.push((model.group(group).name().copy()?, parts[group]))?;
    }
    Ok(List::make(named))
}

/// The subtotals of an option, and its score.
pub(crate) fn subtotals_told(
    alloc: Global,
    model: &Model,
    option: usize,
    worths: &[List<Frac>],
) -> Result<Reply, Stop>
    requires { option < length model.now.options }
    ensures value { Works (λ r. r) (checked_subtotals model.now option worths.now) result }
    ensures printable { IfOk result IsPrintable }
{
    let parts = each_part(alloc, model, worths, option)?;
    let criteria = all_places(alloc, model)?;
    let total = partial_score(alloc, model, worths, option, &criteria)?;
    Ok(Reply::Subtotals {
        parts: beside_groups(alloc, model, &parts)?,
        total,
    })
}
