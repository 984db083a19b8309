//! Judgements of a JSON value.
ghost use Rattle.std.specs.Prelude.{◌≡◌, true, IfOk, option_map};
ghost use Rattle.serde_json.specs.View.{view, items_view};
ghost use Rattle.judgement_matrix.specs.Matrix.{IsSize, IsPair, cell_at, unjudged, judged};
ghost use Rattle.judgement_matrix.specs.Range.{IsRange, bounds};
ghost use Rattle.model_json.specs.Steps.{Gives, Reads, each_into};
ghost use Rattle.model_json.specs.Reading.{four, is_judgement, judgements_place, judgement_place, judgement_of, judgements_of};

use crate::fault::Stop;
use crate::place::Place;
use crate::steps::array_or_none;
use judgement_matrix::{Matrix, Range};
use serde_json::Value;
use std::alloc::Global;

/// The numbers of a judgement: two places from 1, the least and the greatest category.
#[derive(Clone, Copy, Drop)]
pub(crate) struct Numbers {
    pub(crate) upper: u64,
    pub(crate) lower: u64,
    pub(crate) least: u64,
    pub(crate) most: u64,
}

// Four whole numbers and nothing else.
fn four(value: &Value) -> Option<Numbers>
    ensures { result ≡ four (view value.now) }
{
    let upper = value.get(0usize).and_then(Value::as_u64)?;
    let lower = value.get(1usize).and_then(Value::as_u64)?;
    let least = value.get(2usize).and_then(Value::as_u64)?;
    let most = value.get(3usize).and_then(Value::as_u64)?;
    if value.get(4usize).is_some() {
        return None;
    }
    Some(Numbers {
        upper,
        lower,
        least,
        most,
    })
}

fn is_judgement(size: usize, numbers: Numbers) -> bool
    ensures { result ≡ is_judgement size numbers }
{
    (0 < numbers.upper && (numbers.upper < numbers.lower && numbers.lower <= size as u64))
        && (numbers.least <= numbers.most && numbers.most <= 6)
}

// Where the judgements of a criterion stand, or those of the weighting.
fn judgements_place(criterion: Option<usize>) -> Place
    ensures { result ≡ judgements_place criterion }
{
    match criterion {
        None => Place::Swings,
        Some(i) => Place::Judgements(i),
    }
}

fn judgement_place(criterion: Option<usize>, j: usize) -> Place
    ensures { result ≡ judgement_place criterion j }
{
    match criterion {
        None => Place::Swing(j),
        Some(i) => Place::Judgement(i, j),
    }
}

// Judges the pair that a value judges, where it isn't judged yet.
#[tactic(auto, unfolding(crate::specs::Reading::judgement_of))]
fn judge(criterion: Option<usize>, j: usize, matrix: &mut Matrix, value: &Value) -> Result<(), Stop>
    ensures read { Reads result (judgement_of criterion j matrix.old (view value.now)) matrix.new }
    ensures size { matrix.new.size ≡ matrix.old.size }
{
    let place = judgement_place(criterion, j);
    let Some(numbers) = four(value) else {
        return Err(Stop::At(place));
    };
    if !is_judgement(matrix.size(), numbers) {
        return Err(Stop::At(place));
    }
    let upper = numbers.upper as usize;
    let lower = numbers.lower as usize;
    if matrix.get(upper, lower).1 {
        return Err(Stop::At(place));
    }
    matrix.set(
        upper,
        lower,
        Range {
            lo: numbers.least as u8,
            hi: numbers.most as u8,
        },
    );
    Ok(())
}

// Judges the pairs that these values judge.
fn judge_each(criterion: Option<usize>, matrix: &mut Matrix, values: &[Value]) -> Result<(), Stop>
    ensures read { Reads result
        (each_into (judgement_of criterion) 0 matrix.old (items_view values.now)) matrix.new }
    ensures size { matrix.new.size ≡ matrix.old.size }
{
    'values: for (j, value) in values.iter().enumerate() {
        judge(criterion, j, matrix, value)?;
    }
    Ok(())
}

/// The judgements of so many elements, of a criterion or of the weighting.
#[tactic(auto, unfolding(crate::specs::Reading::judgements_of))]
pub(crate) fn read_judgements(
    alloc: Global,
    criterion: Option<usize>,
    size: usize,
    value: Option<&Value>,
) -> Result<Matrix, Stop>
    requires { IsSize size }
    ensures matrix { Gives (λ m. m) result
        (judgements_of criterion size (option_map (λ v. view v.now) value.entry)) }
    ensures size { IfOk result (λ m. m.size ≡ size) }
{
    let values = array_or_none(judgements_place(criterion), value)?;
    let mut matrix = Matrix::new(alloc, size)?;
    judge_each(criterion, &mut matrix, values)?;
    Ok(matrix)
}
