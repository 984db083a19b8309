//! What the definitions in the contracts amount to: functions that do nothing, whose contracts are the laws.

ghost use Rattle.std.specs.Prelude.{◌≡◌, ◌≢◌, ◌⊎◌, ℕ, ◌+◌, ◌-◌, ◌<◌, ◌≤◌, ◌↔◌, true, false, IsTrue, length, replicate, slice_get, Some, List, ◌∷◌, ◌++◌, ℤ, pos, ◌+ℤ◌, ◌-ℤ◌, ◌*ℤ◌, ◌≤ℤ◌, ◌<ℤ◌};
ghost use Rattle.std.specs.List.{AllByRecursion};
ghost use Rattle.integers.specs.Fraction.{Fraction, AreFractions, over, SameFractions};
ghost use Rattle.integers.specs.Vector.{scale, add};
ghost use Rattle.judgement_matrix.specs.declared.matrix.TheConstants.{LIMIT};
ghost use Rattle.judgement_matrix.specs.Range.{full};
ghost use Rattle.judgement_matrix.specs.Matrix.{IsMatrix, IsPair, pairs, pairs_before, place, cell_at, range_at, unjudged, judged, cleared};
ghost use Rattle.judgement_matrix.specs.Same.{same_judgements};
ghost use Rattle.judgement_matrix.specs.SameShift.{same_shift};
ghost use Rattle.judgement_matrix.specs.Change.{grown, grown_cell, without, left_cell};
ghost use Rattle.judgement_matrix.specs.Scale.{value_at, IsScale, IsMetInUnit, IsMetBy, IsConsistent};
ghost use Rattle.judgement_matrix.specs.Rows.{RowHolds, rows, IsFit};
ghost use Rattle.judgement_matrix.specs.Values.{AreValues, IsAnswer};
ghost use Rattle.judgement_matrix.specs.Least.{IsSmaller, IsLeastScale};
ghost use Rattle.judgement_matrix.specs.Repair.{IsLawfulStep, IsLawfulShift, IsBetween, step_at, shifted, shift_total, IsRepair, IsLeastRepair, IsNearShift, IsShiftBefore};

use crate::matrix::Matrix;
use crate::range::Range;
use crate::shift::Shift;
use crate::tag::Fit;
use frac128::TooWide;

/// States how many elements a matrix may have. It does nothing.
pub fn most_elements()
    ensures { LIMIT ≡ 24 }
{}

/// States that each pair stands at its place in pair order. It does nothing.
pub fn pair_at_its_place(size: usize, p: usize, q: usize)
    requires { IsPair size p q }
    ensures { slice_get (pairs size) (place size p q) ≡ Some (p, q) }
{}

/// States that all pairs are those before the last element. It does nothing.
pub fn number_of_pairs(size: usize)
    ensures { length (pairs size) ≡ pairs_before size (size - 1) }
{}

/// States that in a new matrix each pair has the full range. It does nothing.
pub fn nothing_judged(size: usize, p: usize, q: usize)
    requires { IsPair size p q }
    ensures { cell_at (unjudged size) p q ≡ (full, false) }
{}

/// States that a judgement gives one pair its range, and every other pair keeps what it had. It does nothing.
pub fn one_pair_judged(matrix: &Matrix, p: usize, q: usize, range: Range)
    requires { IsPair matrix.now.size p q }
    ensures here { cell_at (judged matrix.now p q range) p q ≡ (range, true) }
    ensures elsewhere { (x y : ℕ) → IsPair matrix.now.size x y → ¬ ((x ≡ p) × (y ≡ q))
        → cell_at (judged matrix.now p q range) x y ≡ cell_at matrix.now x y }
{
    // What a matrix keeps is told by its size.
    prove!(matrix.size() >= 1);
}

/// States that where a judgement is taken back one pair has the full range, and every other pair keeps what it had. It
/// does nothing.
pub fn one_pair_cleared(matrix: &Matrix, p: usize, q: usize)
    requires { IsPair matrix.now.size p q }
    ensures here { cell_at (cleared matrix.now p q) p q ≡ (full, false) }
    ensures elsewhere { (x y : ℕ) → IsPair matrix.now.size x y → ¬ ((x ≡ p) × (y ≡ q))
        → cell_at (cleared matrix.now p q) x y ≡ cell_at matrix.now x y }
{
    // What a matrix keeps is told by its size.
    prove!(matrix.size() >= 1);
}

/// States that after a new element came in each pair has the cell of the pair that it was, if it was one. It does nothing.
pub fn pairs_of_grown(matrix: &Matrix, p: usize, q: usize)
    requires { IsPair (matrix.now.size + 1) p q }
    ensures { cell_at (grown matrix.now) p q ≡ grown_cell matrix.now (p, q) }
{}

/// States that after an element went each pair has the cell of the pair that it was. It does nothing.
pub fn pairs_left(matrix: &Matrix, element: usize, p: usize, q: usize)
    requires { IsPair (matrix.now.size - 1) p q }
    ensures { cell_at (without matrix.now element) p q ≡ left_cell matrix.now element (p, q) }
{}

/// States that matrices are equal by `==` exactly where their judgements are the same. It does nothing.
pub fn equal_matrices(first: &Matrix, second: &Matrix)
    ensures { IsTrue (same_judgements first.now second.now) ↔ (first.now ≡ second.now) }
{}

/// States that shifts are equal by `==` exactly where their numbers are the same. It does nothing.
pub fn equal_shifts(first: &Shift, second: &Shift)
    ensures { IsTrue (same_shift first.now second.now) ↔ (first.now ≡ second.now) }
{}

/// States that the constraints hold exactly where all rows do, in any unit of at least 0. It does nothing.
pub fn met_where_rows_hold(matrix: &Matrix)
    ensures { (w : List ℤ) (unit : ℤ) → pos 0 ≤ℤ unit → IsMetInUnit matrix.now unit w
        ↔ AllByRecursion (RowHolds matrix.now w unit) (rows matrix.now) }
{}

/// States that for a scale there is one answer. It does nothing.
pub fn one_fit(matrix: &Matrix, first: Fit, second: Fit)
    ensures { (w : List ℤ) (n : ℤ) → IsFit matrix.now w n first → IsFit matrix.now w n second → first ≡ second }
{}

/// States that for values there is an answer, and one only. It does nothing.
pub fn one_answer(matrix: &Matrix, first: Result<Fit, TooWide>, second: Result<Fit, TooWide>)
    ensures { (fs : List Fraction) → AreFractions fs
        → IsAnswer matrix.now fs first → IsAnswer matrix.now fs second → first ≡ second }
{}

/// States that two writings of one scale meet the same matrices. It does nothing.
pub fn writings_meet_alike(matrix: &Matrix)
    ensures { (w v : List ℤ) (n k : ℤ) → pos 0 <ℤ k → SameFractions (over w n) (over v k)
        → IsMetBy matrix.now w n → IsMetBy matrix.now v k }
{}

/// States that whether a scale is smaller than another doesn't depend on how the two are written. It does nothing.
pub fn writings_compare_alike()
    ensures { (w v x y : List ℤ) (n k l j : ℤ) → pos 0 <ℤ n → pos 0 <ℤ k → pos 0 <ℤ l → pos 0 <ℤ j
        → SameFractions (over w n) (over v k) → SameFractions (over x l) (over y j)
        → IsSmaller w n x l → IsSmaller v k y j }
{}

/// States that scales are ordered: none is smaller than itself, smaller than a smaller one is smaller, and of two scales of
/// one matrix one is smaller, or they are the same numbers. It does nothing.
pub fn scales_are_ordered(matrix: &Matrix)
    ensures irreflexive { (w : List ℤ) (n : ℤ) → ¬ IsSmaller w n w n }
    ensures transitive { (w v x : List ℤ) (n k l : ℤ) → pos 0 <ℤ n → pos 0 <ℤ k → pos 0 <ℤ l
        → IsSmaller w n v k → IsSmaller v k x l → IsSmaller w n x l }
    ensures total { (w v : List ℤ) (n k : ℤ) → IsScale matrix.now w n → IsScale matrix.now v k
        → IsSmaller w n v k ⊎ SameFractions (over w n) (over v k) ⊎ IsSmaller v k w n }
{}

/// States that a matrix has at most one least scale. It does nothing.
pub fn one_least_scale(matrix: &Matrix)
    ensures { (w v : List ℤ) (n k : ℤ) → IsLeastScale matrix.now w n → IsLeastScale matrix.now v k
        → SameFractions (over w n) (over v k) }
{}

/// States that the values of a scale that meets a matrix don't rise. It does nothing.
pub fn values_fall(matrix: &Matrix)
    ensures { (w : List ℤ) (n : ℤ) (p q : ℕ) → IsMetBy matrix.now w n → IsPair matrix.now.size p q
        → value_at w q ≤ℤ value_at w p }
{}

/// States that zeros meet a matrix in which nothing is judged. It does nothing.
pub fn zeros_meet_what_is_unjudged(size: usize)
    ensures { IsMetBy (unjudged size) (replicate size (pos 0)) (pos 1) }
{}

/// States that a shift by nothing is lawful and leaves the judgements as they are. It does nothing.
pub fn no_shift(matrix: &Matrix)
    ensures lawful { IsLawfulShift matrix.now (replicate (length matrix.now.cells) (pos 0)) }
    ensures same { shifted matrix.now (replicate (length matrix.now.cells) (pos 0)) ≡ matrix.now }
{
    // What a matrix keeps is told by its size.
    prove!(matrix.size() >= 1);
}

/// States what a lawful shift does to a pair: both ends of its range move by the pair's number, which is 0 where nothing was
/// judged; what was judged stays judged; several categories from 1 on or above still are. It does nothing.
pub fn pairs_after_a_shift(matrix: &Matrix, p: usize, q: usize)
    requires { IsPair matrix.now.size p q }
    ensures lo { (s : List ℤ) → IsLawfulShift matrix.now s
        → pos (range_at (shifted matrix.now s) p q).lo ≡ pos (range_at matrix.now p q).lo +ℤ step_at matrix.now s p q }
    ensures hi { (s : List ℤ) → IsLawfulShift matrix.now s
        → pos (range_at (shifted matrix.now s) p q).hi ≡ pos (range_at matrix.now p q).hi +ℤ step_at matrix.now s p q }
    ensures judged { (s : List ℤ) → IsLawfulShift matrix.now s
        → (cell_at (shifted matrix.now s) p q).1 ≡ (cell_at matrix.now p q).1 }
    ensures unjudged { (s : List ℤ) → IsLawfulShift matrix.now s
        → (cell_at matrix.now p q).1 ≡ false → step_at matrix.now s p q ≡ pos 0 }
    ensures positive { (s : List ℤ) → IsLawfulShift matrix.now s
        → 1 ≤ (range_at matrix.now p q).lo → (range_at matrix.now p q).lo < (range_at matrix.now p q).hi
        → 1 ≤ (range_at (shifted matrix.now s) p q).lo }
{
    // What a matrix keeps is told by its size.
    prove!(matrix.size() >= 1);
}

/// States that a lawful shift leaves a matrix, and that what lies between no shift and a lawful one is lawful. It does
/// nothing.
pub fn lawful_shifts(matrix: &Matrix)
    ensures matrix { (s : List ℤ) → IsLawfulShift matrix.now s → IsMatrix (shifted matrix.now s) }
    ensures between { (s t : List ℤ) → IsLawfulShift matrix.now t → IsBetween s t → IsLawfulShift matrix.now s }
{
    // What a matrix keeps is told by its size.
    prove!(matrix.size() >= 1);
}

/// States that a judged range may be moved onto each range of as many categories, but several that begin at 1 or above only
/// onto such as do. It does nothing.
pub fn ranges_within_reach(from: Range, to: Range)
    requires as_many { from.lo + to.hi ≡ to.lo + from.hi }
    requires above { 1 ≤ from.lo → from.lo < from.hi → 1 ≤ to.lo }
    ensures { IsLawfulStep (from, true) (pos to.lo -ℤ pos from.lo) }
{
    // What a range keeps is told where it is read.
    prove!(from.lo() <= 6);
    prove!(to.hi() <= 6);
}

/// States that shifts are ordered, of which none stands before itself (`repairs`): what stands before one that stands before
/// another is before that, and of two shifts one stands before the other or they are one. The first number that differs
/// decides, the less one first. It does nothing.
pub fn shifts_are_ordered()
    ensures transitive { (s t u : List ℤ) → IsShiftBefore s t → IsShiftBefore t u → IsShiftBefore s u }
    ensures total { (s t : List ℤ) → IsShiftBefore s t ⊎ ((s ≡ t) ⊎ IsShiftBefore t s) }
    ensures first { (front s t : List ℤ) (a b : ℤ) → a ≢ b
        → IsShiftBefore (front ++ a ∷ s) (front ++ b ∷ t) ↔ (a <ℤ b) }
{}

/// States that least repairs move by the same in all, that they are near where that is at most 4, that a matrix which some
/// scale meets is repaired by no shift, and that no shift stands before itself. It does nothing.
pub fn repairs(matrix: &Matrix)
    ensures totals { (s t : List ℤ) → IsLeastRepair matrix.now s → IsLeastRepair matrix.now t
        → shift_total s ≡ shift_total t }
    ensures near { (s : List ℤ) → IsLeastRepair matrix.now s → shift_total s ≤ 4 → IsNearShift matrix.now s }
    ensures none { IsConsistent matrix.now → IsRepair matrix.now (replicate (length matrix.now.cells) (pos 0)) }
    ensures strict { (s : List ℤ) → ¬ IsShiftBefore s s }
{
    // What a matrix keeps is told by its size.
    prove!(matrix.size() >= 1);
}

/// States that a multiple of what meets a matrix in a unit meets it in that multiple of the unit, and a sum in the sum of the
/// units. It does nothing.
pub fn mixtures_meet_alike(matrix: &Matrix)
    ensures multiple { (c u : ℤ) (w : List ℤ) → pos 0 ≤ℤ c → IsMetInUnit matrix.now u w
        → IsMetInUnit matrix.now (c *ℤ u) (scale c w) }
    ensures sum { (u t : ℤ) (w v : List ℤ) → IsMetInUnit matrix.now u w → IsMetInUnit matrix.now t v
        → IsMetInUnit matrix.now (u +ℤ t) (add w v) }
{}
