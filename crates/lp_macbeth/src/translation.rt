//! Multipliers of the threshold problem's rows as multipliers of the matrix's own rows.

ghost use Rattle.std.specs.Prelude.{◌≡◌, ◌≤◌, ◌++◌, ℕ, length, map, pos, replicate, IfOk, All};
ghost use Rattle.frac128.specs.Entries.{entries_from};
ghost use Rattle.frac128.specs.Problem.{AreRowMultipliers};
ghost use Rattle.judgement_matrix.specs.Matrix.{range_at};
ghost use Rattle.lp_macbeth.specs.Pairs.{ArePairs};
ghost use Rattle.lp_macbeth.specs.Passing.{with_entries, spread as spread_over, after_spread, at_zero, ranges as ranges_of, own_weights};
ghost use Rattle.lp_macbeth.specs.Translated.{IsCarried, ProvesThreshold};

use crate::kinds::Kind;
use crate::pairs::{element_pairs, range};
use crate::passing::pass_all;
use crate::threshold_lists::threshold_tags;
use crate::weight::{Supply, Weight};
use frac128::problem::Cert;
use frac128::{List, NoMemory};
use judgement_matrix::{Matrix, Range};
use std::alloc::Global;

/// A certificate of the threshold problem as a certificate of the matrix's own problem: what it shows of the one, the answer
/// shows of the other, over the same denominator.
pub fn translate(alloc: Global, matrix: &Matrix, cert: &Cert) -> Result<Cert, NoMemory>
    requires size { 2 ≤ matrix.now.size }
    requires cert { ProvesThreshold matrix.now cert.now }
    ensures { IfOk result (IsCarried matrix.now cert.now) }
{
    // For the prover alone: a read of the size tells what every matrix keeps.
    matrix.size();
    let ranges = ranges(alloc, matrix)?;
    let tags = threshold_tags(alloc, matrix)?;
    let weights = weights(alloc, tags.as_slice().len(), cert.on.as_slice())?;
    let own = own(alloc, ranges.as_slice(), weights)?;
    Ok(Cert {
        den: cert.den,
        on: entries(alloc, own.as_slice())?,
    })
}

/// The range of each pair, in pair order.
pub(crate) fn ranges(alloc: Global, matrix: &Matrix) -> Result<Vec<Range>, NoMemory>
    ensures { IfOk result (λ ranges. ranges.items ≡ ranges_of matrix.now) }
{
    let pairs = element_pairs(alloc, matrix.size() as u8)?;
    ranges_of_pairs(alloc, matrix, pairs.as_slice())
}

// The range of each of these pairs.
fn ranges_of_pairs(
    alloc: Global,
    matrix: &Matrix,
    pairs: &[(u8, u8)],
) -> Result<Vec<Range>, NoMemory>
    requires { ArePairs matrix.now.size pairs.now }
    ensures { IfOk result (λ ranges. ranges.items
        ≡ map (λ pair. range_at matrix.now pair.0 pair.1) pairs.now) }
{
    let mut ranges = Vec::new(alloc);
    for pair in pairs {
        ranges.push(range(matrix, *pair))?;
    }
    Ok(ranges)
}

/// A weight for each row, 0 where no entry names it.
pub(crate) fn weights(
    alloc: Global,
    count: usize,
    on: &[(usize, i128)],
) -> Result<Vec<Weight>, NoMemory>
    requires { AreRowMultipliers count on.now }
    ensures { IfOk result (λ weights. weights.items ≡ with_entries (replicate count 0) on.now) }
{
    let mut weights = zeros(alloc, count)?;
    put(weights.as_mut_slice(), on);
    Ok(weights)
}

// So many weights of 0.
fn zeros(alloc: Global, count: usize) -> Result<Vec<Weight>, NoMemory>
    ensures { IfOk result (λ weights. weights.items ≡ replicate count 0) }
{
    let mut weights = Vec::new(alloc);
    for _row in 0..count {
        weights.push(Weight::ZERO)?;
    }
    Ok(weights)
}

// Puts each entry at its place.
fn put(weights: &mut [Weight], on: &[(usize, i128)])
    requires { AreRowMultipliers (length weights.old) on.now }
    ensures { weights.new ≡ with_entries weights.old on.now }
{
    for (position, multiplier) in on {
        weights[*position] = Weight::make(*multiplier);
    }
}

// The weights of the matrix's own rows.
fn own(alloc: Global, ranges: &[Range], weights: Vec<Weight>) -> Result<Vec<Weight>, NoMemory>
    ensures { IfOk result (λ own. own.items ≡ own_weights ranges.now weights.items) }
{
    let mut supply = Supply::make(weights);
    let ats = spread(alloc, Kind::At, ranges, &mut supply)?;
    let equals = spread(alloc, Kind::Zero, ranges, &mut supply)?;
    let belows = spread(alloc, Kind::Below, ranges, &mut supply)?;
    let (kept, taken) = pass_all(alloc, ats.as_slice(), belows.as_slice())?;
    let mut own = kept.into_vec();
    push_zeros(&mut own, equals.as_slice())?;
    own.extend_from_slice(taken.as_slice())?;
    Ok(own)
}

/// For each range the category and the weight of its row of a kind, or 0 where it has none.
pub(crate) fn spread(
    alloc: Global,
    kind: Kind,
    ranges: &[Range],
    supply: &mut Supply,
) -> Result<List<(u8, Weight)>, NoMemory>
    ensures weights { IfOk result (λ weights. weights ≡ spread_over kind ranges.now supply.old) }
    ensures rest { IfOk result (λ _. supply.new ≡ after_spread kind ranges.now supply.old) }
{
    let mut weights = Vec::new(alloc);
    for range in ranges {
        let weight = if kind.has_row(*range) {
            supply.take()
        } else {
            Weight::ZERO
        };
        weights.push((kind.category(*range), weight))?;
    }
    Ok(List::make(weights))
}

/// Adds the weights at category 0.
pub(crate) fn push_zeros(own: &mut Vec<Weight>, equals: &[(u8, Weight)]) -> Result<(), NoMemory>
    ensures { IfOk result (λ _. own.new.items ≡ own.old.items ++ at_zero equals.now) }
{
    for (category, weight) in equals {
        if *category == 0 {
            own.push(*weight)?;
        }
    }
    Ok(())
}

/// The weights other than 0, each with its row's position.
pub(crate) fn entries(alloc: Global, weights: &[Weight]) -> Result<List<(usize, i128)>, NoMemory>
    ensures { IfOk result (λ on. on ≡ entries_from 0 (map (λ w. pos w) weights.now)) }
{
    let mut on = Vec::new(alloc);
    for (position, weight) in weights.iter().enumerate() {
        if *weight != Weight::ZERO {
            on.push((position, weight.get()))?;
        }
    }
    Ok(List::make(on))
}
