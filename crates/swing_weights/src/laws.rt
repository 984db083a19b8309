//! Laws of weights, as contracts of functions that do nothing.

ghost use Rattle.std.specs.Prelude.{◌≡◌, ◌≤◌, ◌-◌, All, List, length, ℤ, pos, ◌<ℤ◌, Ok};
ghost use Rattle.frac128.specs.Frac.{IsReduced};
ghost use Rattle.integers.specs.Fraction.{Fraction, AreFractions};
ghost use Rattle.integers.specs.Vector.{int_sum, AreNonNegative};
ghost use Rattle.swing_weights.specs.Score.{checked_score, IsScore};
ghost use Rattle.swing_weights.specs.Weights.{swings, AreShares, AreWeights, AreFalling, AreAllZero, AreSwingValues, checked_weights};
ghost use Rattle.value_scale.specs.Basic.{IsBasic};

use judgement_matrix::Matrix;
use value_scale::Basic;
use value_scale::laws::least_values_meet;

/// States that weights sum to 1, and that none is below 0 where no swing is. It does nothing.
pub fn weights_share_all()
    ensures sum { (w k : List ℤ) (d : ℤ) → AreShares w k d → int_sum k ≡ d }
    ensures none_below { (w k : List ℤ) (d : ℤ) → pos 0 <ℤ d → AreNonNegative (swings w) → AreShares w k d
        → AreNonNegative k }
{}

/// States that a basic scale has swings: two values at least, none above one before it, the last one 0. It only reads them, since
/// what a type keeps is told where it is read.
pub fn basic_scales_have_swings(matrix: &Matrix, basic: &Basic)
    requires size { 2 ≤ matrix.now.size }
    requires basic { IsBasic matrix.now basic.now }
    ensures { AreSwingValues basic.now }
{
    match basic {
        Basic::Scale { values, .. } => least_values_meet(matrix, values.as_slice()),
        Basic::Inconsistent { .. } => {}
    }
}

/// States that what the formula gives are the weights, in lowest terms, one for each value but the last. It does nothing.
pub fn worked_weights_are_weights()
    ensures weights { (values weights : List Fraction) → AreFractions values → AreFalling values
        → ¬ AreAllZero values → checked_weights values ≡ Ok weights
        → AreWeights values weights × All IsReduced weights }
    ensures each { (values weights : List Fraction) → checked_weights values ≡ Ok weights
        → length weights ≡ length values - 1 }
{}

/// States that what the formula gives is the score, in lowest terms. It does nothing.
pub fn worked_scores_are_scores()
    ensures { (weights values : List Fraction) (score : Fraction) → AreFractions weights
        → AreFractions values → checked_score weights values ≡ Ok score
        → IsScore weights values score × IsReduced score }
{}
