//! The closed problem of a weighting: the least weighted sum of the criteria's least gaps over the closure of its open weightings.

ghost use Rattle.std.specs.Prelude.{◌≡◌, ◌++◌, ◌∷◌, [], ◌-◌, ◌≤◌, ◌<◌, pos, ◌*ℤ◌, ◌+ℤ◌, ◌<ℤ◌, int_div, length, map, All, IfOk};
ghost use Rattle.frac128.specs.Checked.{Gives};
ghost use Rattle.frac128.specs.Problem.{IsRow};
ghost use Rattle.frac128.specs.Range.{IsInRange};
ghost use Rattle.integers.specs.Counting.{IsOrder};
ghost use Rattle.integers.specs.Divisibility.{gcd_of};
ghost use Rattle.integers.specs.Vector.{AreNonNegative};
ghost use Rattle.judgement_matrix.specs.Rows.{IsTagAmong};
ghost use Rattle.lp_macbeth.specs.ClosedWeighting.{in_order, weighting_row_of, falling, sum_up, sum_down, weighting_problem_of, checked_whole, lesser, least_of, checked_excesses, checked_multiple, checked_numerators, checked_costs, checked_weighting, FaultSays};
ghost use Rattle.lp_macbeth.specs.Gaps.{opposite};

use crate::closed::push_coefs;
use crate::tags::closed_tags;
use frac128::laws::are_fractions;
use frac128::problem::{Problem, Row};
use frac128::{Frac, List, NoMemory, Number, TooWide};
use judgement_matrix::{Matrix, Tag};
use std::alloc::{AllocFailed, Global};
use std::cmp::Ordering;

/// The closed problem of a weighting, with what makes its costs whole numbers. Where the problem's value is `v`, the least weighted
/// sum of the gaps is `v / scale + least`.
#[derive(Debug, Drop)]
pub struct ClosedWeighting {
    /// The gaps between the weights, bottom first, are its variables.
    pub problem: Problem,
    /// The common denominator of the criteria's gaps less the least one, at least 1.
    pub scale: i128,
    /// The least of the criteria's gaps.
    pub least: Frac,
}

/// Why there is no closed problem.
#[derive(Clone, Copy, Debug, PartialEq, Eq)]
pub enum WeightingFault {
    /// A difference, product or sum is out of the range of fractions.
    TooWide,
    /// There is not enough memory.
    NoMemory,
}

impl From<TooWide> for WeightingFault {
    ghost use Rattle.lp_macbeth.specs.declared.weighting.WeightingFault.TheVariants as given;

    ghost from_gives = { λ _ fault. fault ≡ given.TooWide };

    fn from(_: TooWide) -> WeightingFault {
        WeightingFault::TooWide
    }
}

impl From<NoMemory> for WeightingFault {
    ghost use Rattle.lp_macbeth.specs.declared.weighting.WeightingFault.TheVariants as given;

    ghost from_gives = { λ _ fault. fault ≡ given.NoMemory };

    fn from(_: NoMemory) -> WeightingFault {
        WeightingFault::NoMemory
    }
}

impl<T: Drop> From<AllocFailed<T>> for WeightingFault {
    ghost use Rattle.lp_macbeth.specs.declared.weighting.WeightingFault.TheVariants as given;

    ghost from_gives = { λ _ fault. fault ≡ given.NoMemory };

    fn from(_: AllocFailed<T>) -> WeightingFault {
        WeightingFault::NoMemory
    }
}

/// The problem of the least sum of weight times least gap, over all weights of sum 1 that meet the weighting matrix in some unit of
/// at least 0. `gaps` are the least gaps of the criteria in the order of the model, and `order` is the weighting's order, by their
/// positions from 0 on. The costs are each gap less the least one, as whole numbers over a common denominator.
#[tactic(auto, unfolding(crate::specs::ClosedWeighting::checked_weighting))]
pub fn closed_weighting(
    alloc: Global,
    matrix: &Matrix,
    order: &[usize],
    gaps: &[Frac],
) -> Result<ClosedWeighting, WeightingFault>
    requires gaps { length gaps.now ≡ matrix.now.size - 1 }
    requires some { 1 ≤ length gaps.now }
    requires order { IsOrder (length gaps.now) order.now }
    ensures { Gives FaultSays (λ v. v) (checked_weighting matrix.now order.now gaps.now) result }
{
    // For the proofs alone: the denominators are positive.
    are_fractions(gaps);
    let least = least(gaps);
    let excesses = excesses(alloc, gaps, &least)?;
    let scale = multiple(&excesses)?;
    let numerators = numerators(alloc, &excesses, scale)?;
    let cost = costs(alloc, order, &numerators)?;
    let problem = weighting_problem(alloc, matrix, cost)?;
    Ok(ClosedWeighting {
        problem,
        scale: scale.get(),
        least,
    })
}

// ---- the costs

// The product, where it is in range.
fn product(a: Number, b: Number) -> Result<Number, TooWide>
    ensures { result ≡ checked_whole (a *ℤ b) }
{
    a.times(b)
}

// The sum, where it is in range.
fn sum(a: Number, b: Number) -> Result<Number, TooWide>
    ensures { result ≡ checked_whole (a +ℤ b) }
{
    a.plus(b)
}

// The lesser of the two, the first where they are equal.
fn lesser(first: &Frac, second: &Frac) -> Frac
    ensures { result ≡ lesser first.now second.now }
{
    match second.cmp(first) {
        Ordering::Less => *second,
        Ordering::Equal => *first,
        Ordering::Greater => *first,
    }
}

// The least of the fractions.
fn least(fractions: &[Frac]) -> Frac
    requires { 1 ≤ length fractions.now }
    ensures { result ≡ least_of fractions.now }
{
    let mut least = fractions[0];
    for fraction in &fractions[1..] {
        least = lesser(&least, fraction);
    }
    least
}

// Each gap less the least one.
#[tactic(auto, unfolding(crate::specs::ClosedWeighting::checked_excesses))]
fn excesses(alloc: Global, gaps: &[Frac], least: &Frac) -> Result<Vec<Frac>, WeightingFault>
    ensures { Gives FaultSays (λ v. v.items) (checked_excesses least.now gaps.now) result }
{
    let mut excesses = Vec::new(alloc);
    for gap in gaps {
        let excess = gap.sub(least)?;
        excesses.push(excess)?;
    }
    Ok(excesses)
}

// The number over its common divisor with the other, times the other.
fn with_factor(number: Number, other: Number) -> Result<Number, TooWide>
    requires { pos 0 <ℤ other }
    ensures { result ≡ checked_whole (int_div number (gcd_of number other) *ℤ other) }
{
    product(number.quotient(number.common_divisor(other)), other)
}

// The denominator as a number.
fn denominator(fraction: &Frac) -> Number
    ensures value { result ≡ fraction.now.den }
    ensures positive { pos 0 <ℤ result }
{
    Number::known(fraction.den())
}

// A common multiple of the denominators.
#[tactic(auto, unfolding(crate::specs::ClosedWeighting::checked_multiple))]
fn multiple(excesses: &[Frac]) -> Result<Number, TooWide>
    ensures { result ≡ checked_multiple (pos 1) excesses.now }
{
    let mut multiple = Number::ONE;
    for excess in excesses {
        multiple = with_factor(multiple, denominator(excess))?;
    }
    Ok(multiple)
}

// The numerator of the fraction over a multiple of its denominator.
fn numerator(fraction: &Frac, scale: Number) -> Result<Number, TooWide>
    ensures { result ≡ checked_whole (fraction.now.num *ℤ int_div scale fraction.now.den) }
{
    product(
        Number::known(fraction.num()),
        scale.quotient(denominator(fraction)),
    )
}

// The numerator of each.
#[tactic(auto, unfolding(crate::specs::ClosedWeighting::checked_numerators))]
fn numerators(
    alloc: Global,
    excesses: &[Frac],
    scale: Number,
) -> Result<Vec<Number>, WeightingFault>
    ensures { Gives FaultSays (λ v. v.items) (checked_numerators scale excesses.now) result }
{
    let mut numerators = Vec::new(alloc);
    for excess in excesses {
        let numerator = numerator(excess, scale)?;
        numerators.push(numerator)?;
    }
    Ok(numerators)
}

// The costs of the gaps, bottom first.
#[tactic(auto, unfolding(crate::specs::ClosedWeighting::checked_costs, crate::specs::ClosedWeighting::checked_sums))]
fn costs(alloc: Global, order: &[usize], numerators: &[Number]) -> Result<Vec<i128>, WeightingFault>
    requires { All (λ c. c < length numerators.now) order.now }
    ensures { Gives FaultSays (λ v. v.items)
        (checked_costs (in_order (pos 0) order.now numerators.now)) result }
{
    let mut total = Number::ZERO;
    let mut costs = Vec::new(alloc);
    for criterion in order {
        total = sum(total, numerators[*criterion])?;
        costs.push(total.get())?;
    }
    costs.reverse();
    Ok(costs)
}

// ---- the problem

// The problem with these costs.
fn weighting_problem(alloc: Global, matrix: &Matrix, cost: Vec<i128>) -> Result<Problem, NoMemory>
    requires some { 2 ≤ matrix.now.size }
    requires one_each { length cost.items ≡ matrix.now.size - 1 }
    requires nonneg { AreNonNegative cost.items }
    requires in_range { All IsInRange cost.items }
    ensures { IfOk result (λ problem. problem ≡ weighting_problem_of matrix.now cost.items) }
{
    let vars = matrix.size() - 1;
    let tags = closed_tags(alloc, matrix)?;
    let mut rows = Vec::new(alloc);
    push_compared(alloc, &mut rows, matrix, &tags)?;
    push_sums(alloc, &mut rows, vars)?;
    Ok(Problem::make(vars, List::make(cost), List::make(rows)))
}

// Adds the rows that compare pairs.
fn push_compared(
    alloc: Global,
    rows: &mut Vec<Row>,
    matrix: &Matrix,
    tags: &[Tag],
) -> Result<(), NoMemory>
    requires among { All (IsTagAmong matrix.now.size) tags.now }
    requires before { All (IsRow (matrix.now.size - 1)) rows.old.items }
    ensures rows { IfOk result (λ _. rows.new.items
        ≡ rows.old.items ++ map (weighting_row_of matrix.now) tags.now) }
    ensures fit { IfOk result (λ _. All (IsRow (matrix.now.size - 1)) rows.new.items) }
{
    for tag in tags {
        rows.push(weighting_row(alloc, matrix, *tag)?)?;
    }
    Ok(())
}

// The constraint of a tag in unit 0.
fn weighting_row(alloc: Global, matrix: &Matrix, tag: Tag) -> Result<Row, NoMemory>
    requires { IsTagAmong matrix.now.size tag }
    ensures row { IfOk result (λ row. row ≡ weighting_row_of matrix.now tag) }
    ensures fits { IfOk result (IsRow (matrix.now.size - 1)) }
{
    let mut coefs = Vec::new(alloc);
    push_coefs(&mut coefs, matrix, tag)?;
    Ok(Row {
        coefs: List::make(coefs),
        bound: 0,
    })
}

/// Adds the rows that set the sum of the weights to 1.
pub(crate) fn push_sums(alloc: Global, rows: &mut Vec<Row>, count: usize) -> Result<(), NoMemory>
    ensures { IfOk result (λ _. rows.new.items
        ≡ rows.old.items ++ sum_up count ∷ sum_down count ∷ []) }
{
    rows.push(Row {
        coefs: List::make(counts(alloc, count)?),
        bound: 1,
    })?;
    rows.push(Row {
        coefs: List::make(opposite_counts(alloc, count)?),
        bound: -1,
    })?;
    Ok(())
}

// How many weights lie above each gap, bottom first.
fn counts(alloc: Global, count: usize) -> Result<Vec<i128>, NoMemory>
    ensures { IfOk result (λ counts. counts.items ≡ falling count) }
{
    let mut counts = Vec::new(alloc);
    for gap in 0..count {
        counts.push((count - gap) as i128)?;
    }
    Ok(counts)
}

// The same with the other sign.
fn opposite_counts(alloc: Global, count: usize) -> Result<Vec<i128>, NoMemory>
    ensures { IfOk result (λ counts. counts.items ≡ opposite (falling count)) }
{
    let mut counts = Vec::new(alloc);
    for gap in 0..count {
        counts.push(-((count - gap) as i128))?;
    }
    Ok(counts)
}
