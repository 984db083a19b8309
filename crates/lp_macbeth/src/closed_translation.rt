//! Multipliers of the rows of a closed problem's threshold form as multipliers of the problem's own rows.

ghost use Rattle.std.specs.Prelude.{◌≡◌, ◌≤◌, ◌++◌, ◌+◌, length, map, pos, drop, IfOk};
ghost use Rattle.frac128.specs.Entries.{entries_from};
ghost use Rattle.frac128.specs.Problem.{AreRowMultipliers};
ghost use Rattle.lp_macbeth.specs.ClosedThreshold.{closed_threshold_rows};
ghost use Rattle.lp_macbeth.specs.ClosedTranslated.{ProvesClosed, IsClosedCarried, ProvesWeighting, IsWeightingCarried, carried_of};
ghost use Rattle.lp_macbeth.specs.Passing.{first_weights, closed_weights, with_entries, ranges as ranges_of};

use crate::closed_form::closed_threshold_tags;
use crate::kinds::Kind;
use crate::passing::pass_all;
use crate::translation::{entries, push_zeros, ranges, spread, weights};
use crate::weight::{Supply, Weight};
use frac128::problem::Cert;
use frac128::{List, NoMemory};
use judgement_matrix::{Matrix, Range};
use std::alloc::Global;

/// A certificate of `closed_thresholds_with` as one of `closed_problem_with`: what it shows of the one, the answer shows of the
/// other, over the same denominator.
pub fn translate_closed(alloc: Global, matrix: &Matrix, cert: &Cert) -> Result<Cert, NoMemory>
    requires { ProvesClosed matrix.now cert.now }
    ensures { IfOk result (IsClosedCarried matrix.now cert.now) }
{
    // For the prover alone: a read of the size tells what every matrix keeps.
    matrix.size();
    carried(alloc, matrix, 4, cert)
}

/// The same of `weighting_thresholds` and the closed problem of a weighting.
pub fn translate_weighting(alloc: Global, matrix: &Matrix, cert: &Cert) -> Result<Cert, NoMemory>
    requires size { 2 ≤ matrix.now.size }
    requires cert { ProvesWeighting matrix.now cert.now }
    ensures { IfOk result (IsWeightingCarried matrix.now cert.now) }
{
    // For the prover alone: a read of the size tells what every matrix keeps.
    matrix.size();
    carried(alloc, matrix, 2, cert)
}

// The certificate with the weights of a closed problem's rows, of which so many are named.
fn carried(alloc: Global, matrix: &Matrix, named: usize, cert: &Cert) -> Result<Cert, NoMemory>
    requires few { named ≤ 4 }
    requires cert { AreRowMultipliers (length (closed_threshold_rows matrix.now) + named)
        cert.now.on }
    ensures { IfOk result (λ carried. carried ≡ carried_of matrix.now named cert.now) }
{
    let ranges = ranges(alloc, matrix)?;
    let tags = closed_threshold_tags(alloc, matrix)?;
    let weights = weights(alloc, tags.as_slice().len() + named, cert.on.as_slice())?;
    let own = own(alloc, ranges.as_slice(), named, weights)?;
    Ok(Cert {
        den: cert.den,
        on: entries(alloc, own.as_slice())?,
    })
}

// The weights of a closed problem's rows.
fn own(
    alloc: Global,
    ranges: &[Range],
    named: usize,
    weights: Vec<Weight>,
) -> Result<Vec<Weight>, NoMemory>
    ensures { IfOk result (λ own. own.items ≡ closed_weights ranges.now named weights.items) }
{
    let mut supply = Supply::make(weights);
    let highs = spread(alloc, Kind::High, ranges, &mut supply)?;
    let equals = spread(alloc, Kind::Zero, ranges, &mut supply)?;
    let belows = spread(alloc, Kind::Below, ranges, &mut supply)?;
    let (_, taken) = pass_all(alloc, highs.as_slice(), belows.as_slice())?;
    let mut own = Vec::new(alloc);
    push_zeros(&mut own, equals.as_slice())?;
    own.extend_from_slice(taken.as_slice())?;
    skip(&mut supply, 4);
    push_first(&mut own, named, &mut supply)?;
    Ok(own)
}

// Leaves out so many weights.
fn skip(supply: &mut Supply, count: usize)
    ensures { supply.new ≡ drop count supply.old }
{
    for _place in 0..count {
        supply.take();
    }
}

// Adds so many weights from the front.
fn push_first(own: &mut Vec<Weight>, count: usize, supply: &mut Supply) -> Result<(), NoMemory>
    ensures { IfOk result (λ _. own.new.items
        ≡ own.old.items ++ first_weights count supply.old) }
{
    for _place in 0..count {
        let weight = supply.take();
        own.push(weight)?;
    }
    Ok(())
}
