//! What the definitions in the contracts amount to: functions that do nothing, whose contracts are the laws.

ghost use Rattle.std.specs.Prelude.{◌≡◌, ℕ, ◌≤◌, ◌<◌, ◌-◌, ◌↔◌, ◌++◌, ◌∷◌, [], List, ℤ, pos, ◌+ℤ◌, ◌*ℤ◌, ◌≤ℤ◌, ◌<ℤ◌, length, take, Ok};
ghost use Rattle.frac128.specs.Problem.{IsFeasible, IsInfeasible, IsLeast, cost_and_numbers, cost_at};
ghost use Rattle.frac128.specs.Range.{IsInRange};
ghost use Rattle.integers.specs.Fraction.{IsWriting, SameFraction, fraction_of};
ghost use Rattle.integers.specs.Lexicographic.{LexLess};
ghost use Rattle.judgement_matrix.specs.Least.{IsSmaller, IsLeastScale};
ghost use Rattle.judgement_matrix.specs.Matrix.{IsPair};
ghost use Rattle.judgement_matrix.specs.Scale.{difference, IsScale, IsMetInUnit, IsMetBy, IsInconsistent};
ghost use Rattle.lp_macbeth.specs.Closed.{closed_cost, closed_problem_with, closed_problem_of, AreApart, IsClosedScale};
ghost use Rattle.integers.specs.Vector.{dot};
ghost use Rattle.integers.specs.Counting.{IsOrder};
ghost use Rattle.lp_macbeth.specs.ClosedThreshold.{closed_thresholds_with, closed_thresholds_of, weighting_thresholds_of, IsThresholdForm};
ghost use Rattle.lp_macbeth.specs.ClosedWeighting.{checked_weighting, weighting_problem_of, weights_of, in_order, IsClosedWeighting, IsLeastOf, AreCostNumbers, weighted_gap};
ghost use Rattle.lp_macbeth.specs.Gaps.{scale_of, gaps_of};
ghost use Rattle.lp_macbeth.specs.Rows.{problem_of};
ghost use Rattle.lp_macbeth.specs.Threshold.{threshold_problem_of};

use crate::ClosedWeighting;
use frac128::Frac;
use frac128::laws::are_fractions;
use judgement_matrix::Matrix;

/// States that gaps are a feasible point of a matrix's problem exactly where their sums from the bottom are a scale that
/// meets the matrix, over any denominator, and that gaps and scales make each other. It does nothing.
pub fn points_are_scales(matrix: &Matrix)
    requires { 2 ≤ matrix.now.size }
    ensures points { (x : List ℤ) (n : ℤ)
        → IsFeasible (problem_of matrix.now) x n ↔ IsMetBy matrix.now (scale_of x) n }
    ensures scales { (w : List ℤ) (n : ℤ) → IsScale matrix.now w n → scale_of (gaps_of w) ≡ w }
    ensures gaps { (x : List ℤ) → gaps_of (scale_of x) ≡ x }
{}

/// States that the order of points, by cost and then by gaps from the bottom, is that of scales, so that the least point of
/// a matrix's problem is the least scale, and that no point is feasible exactly where no scale meets the matrix. It does
/// nothing.
pub fn least_point_is_least_scale(matrix: &Matrix)
    requires { 2 ≤ matrix.now.size }
    ensures order { (x : List ℤ) (n : ℤ) (y : List ℤ) (k : ℤ)
        → IsFeasible (problem_of matrix.now) x n → IsFeasible (problem_of matrix.now) y k
        → LexLess (cost_and_numbers (problem_of matrix.now) x n)
        (cost_and_numbers (problem_of matrix.now) y k)
        ↔ IsSmaller (scale_of x) n (scale_of y) k }
    ensures least { (x : List ℤ) (n : ℤ)
        → IsLeast (problem_of matrix.now) x n ↔ IsLeastScale matrix.now (scale_of x) n }
    ensures nothing { IsInfeasible (problem_of matrix.now) ↔ IsInconsistent matrix.now }
{}

/// States that the points of the threshold problem, cut to their gaps, are those of the matrix's problem, that each of these
/// has thresholds, and that the least point of the one is that of the other, so that its gaps are the least scale; where the
/// threshold problem has no point, no scale meets the matrix. It does nothing.
pub fn thresholds_are_enough(matrix: &Matrix)
    requires { 2 ≤ matrix.now.size }
    ensures cut { (z : List ℤ) (n : ℤ) → IsFeasible (threshold_problem_of matrix.now) z n
        → IsFeasible (problem_of matrix.now) (take (matrix.now.size - 1) z) n }
    ensures extended { (x : List ℤ) (n : ℤ) → IsFeasible (problem_of matrix.now) x n
        → (t : List ℤ) × IsFeasible (threshold_problem_of matrix.now) (x ++ t) n }
    ensures least { (z : List ℤ) (n : ℤ) → IsLeast (threshold_problem_of matrix.now) z n
        → IsLeast (problem_of matrix.now) (take (matrix.now.size - 1) z) n }
    ensures scale { (z : List ℤ) (n : ℤ) → IsLeast (threshold_problem_of matrix.now) z n
        → IsLeastScale matrix.now (scale_of (take (matrix.now.size - 1) z)) n }
    ensures nothing { IsInfeasible (threshold_problem_of matrix.now) ↔ IsInconsistent matrix.now }
{
    // The fact that every matrix keeps is told where its size is read.
    matrix.size();
}

/// States that a point of a criterion's closed problem is a scale that meets the matrix in unit 0, with good 100 above neutral,
/// and its room, which is what the span leaves of the reach, whatever the costs; and that each unit of at least 0 asks for at
/// least what the unit 0 asks for. It does nothing.
pub fn closed_points_are_closed_scales(
    matrix: &Matrix,
    good: usize,
    neutral: usize,
    reach: u32,
    a: usize,
    b: usize,
)
    requires { IsPair matrix.now.size good neutral }
    ensures points { (x : List ℤ) (r n : ℤ)
        → IsFeasible (closed_problem_of matrix.now good neutral reach a b) (x ++ r ∷ []) n
        ↔ IsClosedScale matrix.now good neutral reach (scale_of x) r n }
    ensures costs { (cost x : List ℤ) (n : ℤ)
        → IsFeasible (closed_problem_with matrix.now good neutral reach cost) x n
        ↔ IsFeasible (closed_problem_of matrix.now good neutral reach a b) x n }
    ensures units { (w : List ℤ) (u : ℤ) → pos 0 ≤ℤ u
        → IsMetInUnit matrix.now u w → IsMetInUnit matrix.now (pos 0) w }
{}

/// States what a point of a criterion's closed problem costs: where `a` is listed above `b` the difference of the two on the scale of
/// its gaps, and else that difference and the reach. It does nothing.
pub fn closed_costs_are_differences(
    matrix: &Matrix,
    good: usize,
    neutral: usize,
    reach: u32,
    a: usize,
    b: usize,
)
    requires references { IsPair matrix.now.size good neutral }
    requires a { (1 ≤ a) × (a ≤ matrix.now.size) }
    requires b { (1 ≤ b) × (b ≤ matrix.now.size) }
    ensures above { (x : List ℤ) (r n : ℤ)
        → IsFeasible (closed_problem_of matrix.now good neutral reach a b) (x ++ r ∷ []) n → a < b
        → cost_at (closed_problem_of matrix.now good neutral reach a b) (x ++ r ∷ []) n
        ≡ record { num = difference (scale_of x) a b; den = n } }
    ensures below { (x : List ℤ) (r n : ℤ)
        → IsFeasible (closed_problem_of matrix.now good neutral reach a b) (x ++ r ∷ []) n → b < a
        → cost_at (closed_problem_of matrix.now good neutral reach a b) (x ++ r ∷ []) n
        ≡ record { num = difference (scale_of x) a b +ℤ n *ℤ pos reach; den = n } }
{}

/// States that a point of a weighting's closed problem is a list of weights of the closure, none below 0 and of sum 1, which with 0
/// added last meet the matrix in unit 0, and that gaps and weights make each other; and that each unit of at least 0 asks for at
/// least what the unit 0 asks for. It does nothing.
pub fn closed_points_are_closed_weightings(
    matrix: &Matrix,
    order: &[usize],
    gaps: &[Frac],
    closed: &ClosedWeighting,
)
    requires gaps { length gaps.now ≡ matrix.now.size - 1 }
    requires some { 1 ≤ length gaps.now }
    requires made { checked_weighting matrix.now order.now gaps.now ≡ Ok closed.now }
    ensures points { (x : List ℤ) (n : ℤ)
        → IsFeasible closed.now.problem x n ↔ IsClosedWeighting matrix.now (weights_of x) n }
    ensures weights { (k : List ℤ) → weights_of (gaps_of (k ++ pos 0 ∷ [])) ≡ k }
    ensures gaps { (x : List ℤ) → gaps_of (weights_of x ++ pos 0 ∷ []) ≡ x }
    ensures units { (w : List ℤ) (u : ℤ) → pos 0 ≤ℤ u
        → IsMetInUnit matrix.now u w → IsMetInUnit matrix.now (pos 0) w }
{
    // For the proofs alone: the denominators are positive.
    are_fractions(gaps);
}

/// States what the costs of a weighting's closed problem mean. Its least gap is one of the gaps, and none of them is below it; its
/// scale is above 0. A point costs the sum of numbers times weights, where the numbers over the scale are each gap less the least
/// one; so its cost over the scale, and the least gap, are the sum of gaps times weights, however the gaps are written. It does
/// nothing.
pub fn costs_are_weighted_gaps(
    matrix: &Matrix,
    order: &[usize],
    gaps: &[Frac],
    closed: &ClosedWeighting,
)
    requires gaps { length gaps.now ≡ matrix.now.size - 1 }
    requires some { 1 ≤ length gaps.now }
    requires order { IsOrder (length gaps.now) order.now }
    requires made { checked_weighting matrix.now order.now gaps.now ≡ Ok closed.now }
    ensures least { IsLeastOf gaps.now closed.now.least }
    ensures scale { (pos 0 <ℤ closed.now.scale) × IsInRange closed.now.scale }
    ensures numbers { (numbers : List ℤ)
        × AreCostNumbers order.now gaps.now closed.now numbers }
    ensures sum { (x : List ℤ) (n : ℤ) (g : List ℤ) (d : ℤ)
        → IsFeasible closed.now.problem x n
        → IsWriting (in_order (fraction_of (pos 0)) order.now gaps.now) g d
        → SameFraction (weighted_gap closed.now (cost_at closed.now.problem x n))
        (record { num = dot (weights_of x) g; den = n *ℤ d }) }
{
    // For the proofs alone: the denominators are positive.
    are_fractions(gaps);
}

/// States that the threshold form of a criterion's closed problem has the same points, cut to the gaps and the room, the same values
/// and the same least point: whatever the costs, one for each variable, as where the difference of two elements costs. It does
/// nothing.
pub fn closed_thresholds_are_enough(matrix: &Matrix, good: usize, neutral: usize, reach: u32)
    requires { IsPair matrix.now.size good neutral }
    ensures costs { (cost : List ℤ) → length cost ≡ matrix.now.size
        → IsThresholdForm (closed_problem_with matrix.now good neutral reach cost)
        (closed_thresholds_with matrix.now good neutral reach cost) }
    ensures difference { (a b : ℕ) → AreApart matrix.now.size a b
        → IsThresholdForm (closed_problem_of matrix.now good neutral reach a b)
        (closed_thresholds_of matrix.now good neutral reach a b) }
    ensures one_each { (a b : ℕ) → AreApart matrix.now.size a b
        → length (closed_cost matrix.now.size a b) ≡ matrix.now.size }
{
    // The fact that every matrix keeps is told where its size is read.
    matrix.size();
}

/// States that the threshold form of a weighting's closed problem has the same points, cut to the gaps, the same values and the same
/// least point, whatever the costs, one for each gap. It does nothing.
pub fn weighting_thresholds_are_enough(matrix: &Matrix)
    requires { 2 ≤ matrix.now.size }
    ensures { (cost : List ℤ) → length cost ≡ matrix.now.size - 1
        → IsThresholdForm (weighting_problem_of matrix.now cost)
        (weighting_thresholds_of matrix.now cost) }
{
    // The fact that every matrix keeps is told where its size is read.
    matrix.size();
}
