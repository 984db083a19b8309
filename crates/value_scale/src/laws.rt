//! Laws of the definitions, as contracts of functions that do nothing.

ghost use Rattle.std.specs.Prelude.{◌≡◌, ◌≢◌, ◌≤◌, ◌+◌, All, None, Ok, ℕ, List, ℤ, pos, length, ◌<ℤ◌, ◌≤ℤ◌, ◌↔◌, IsTrue, Result as Answer};
ghost use Rattle.integers.specs.Fraction.{Fraction, IsFraction, AreFractions, over, SameFractions};
ghost use Rattle.frac128.specs.Frac.{IsReduced};
ghost use Rattle.judgement_matrix.specs.Matrix.{IsPair, Judgements};
ghost use Rattle.judgement_matrix.specs.Scale.{value_at, IsMetBy};
ghost use Rattle.value_scale.specs.Anchor.{IsAnchoredScale, AreAnchored, AreReferences, NeverRise, IsFlat, checked_anchor};
ghost use Rattle.judgement_matrix.specs.Values.{AreValues};
ghost use Rattle.value_scale.specs.Basic.{AreLeastValues, IsFound, IsAnswered, TellTheSame};
ghost use Rattle.value_scale.specs.GapSums.{AreScaleOf, checked_values};
ghost use Rattle.value_scale.specs.Narrowing.{checked_slack};
ghost use Rattle.value_scale.specs.Slack.{IsSlack, IsSlackOf, MeetValues};

use crate::{Basic, Interval, ScaleFault};
use frac128::Frac;
use frac128::laws::are_fractions;
use judgement_matrix::Matrix;
use judgement_matrix::laws::{writings_compare_alike, writings_meet_alike};
use lp_macbeth::laws::thresholds_are_enough;

/// States that a scale has at most one anchored scale for two references. It does nothing.
pub fn one_anchored_scale()
    ensures { (w : List ℤ) (n : ℤ) (good neutral : ℕ) (v x : List ℤ) (k l : ℤ) → pos 0 <ℤ n
        → AreReferences (length w) good neutral → IsAnchoredScale w n good neutral v k
        → IsAnchoredScale w n good neutral x l → SameFractions (over v k) (over x l) }
{}

/// States that an anchored scale has as many values as the scale, and orders any two as the scale does. It does nothing.
pub fn anchored_values_fall()
    ensures each { (w : List ℤ) (n : ℤ) (good neutral : ℕ) (v : List ℤ) (k : ℤ)
        → IsAnchoredScale w n good neutral v k → length v ≡ length w }
    ensures fall { (w : List ℤ) (n : ℤ) (good neutral : ℕ) (v : List ℤ) (k : ℤ) (p q : ℕ)
        → pos 0 <ℤ n → IsAnchoredScale w n good neutral v k → IsPair (length w) p q
        → value_at w q ≤ℤ value_at w p → value_at v q ≤ℤ value_at v p }
{}

/// States that a scale has an anchored scale exactly where its references have two values, if good isn't below neutral. It does
/// nothing.
pub fn references_apart_can_be_anchored()
    ensures { (w : List ℤ) (n : ℤ) (good neutral : ℕ) → pos 0 <ℤ n
        → AreReferences (length w) good neutral → value_at w neutral ≤ℤ value_at w good
        → ((v : List ℤ) × (k : ℤ) × IsAnchoredScale w n good neutral v k)
        ↔ (value_at w good ≢ value_at w neutral) }
{}

/// States that the values that the formula gives are those of the anchored scale, in lowest terms, and as many as there were. It
/// does nothing.
pub fn worked_anchors_are_anchored()
    ensures anchored { (values anchored : List Fraction) (good neutral : ℕ) → AreFractions values
        → AreReferences (length values) good neutral → NeverRise values
        → ¬ IsFlat values good neutral → checked_anchor values good neutral ≡ Ok anchored
        → AreAnchored values good neutral anchored × All IsReduced anchored }
    ensures each { (values anchored : List Fraction) (good neutral : ℕ)
        → checked_anchor values good neutral ≡ Ok anchored → length anchored ≡ length values }
{}

/// States that the values of a scale that meets a matrix never rise. It only reads them, since what a type keeps is told where
/// it is read.
pub fn met_values_never_rise(matrix: &Matrix, values: &[Frac])
    requires { MeetValues matrix.now values.now }
    ensures { NeverRise values.now }
{
    are_fractions(values);
}

/// States that only the first element can have no upper end. It does nothing.
pub fn only_the_first_is_unbounded()
    ensures { (m : Judgements) (w : List ℤ) (n : ℤ) (element : ℕ) (low : Fraction) → IsMetBy m w n → 2 ≤ element
        → element ≤ m.size → IsFraction low → ¬ IsSlack m w n element (record { low = low; high = None }) }
{}

/// States that the interval that the formula gives is the slack of the element. It does nothing.
pub fn worked_slacks_are_slacks()
    ensures { (m : Judgements) (values : List Fraction) (element : ℕ) (interval : Interval)
        → AreFractions values → MeetValues m values → 1 ≤ element → element ≤ m.size
        → checked_slack m values element ≡ Ok interval → IsSlackOf m values element interval }
{}

/// States that the values that the formula of gap sums gives are the scale of the gaps, in lowest terms, one more than there are
/// gaps. It does nothing.
pub fn worked_values_are_scales()
    ensures scale { (gaps values : List Fraction) → AreFractions gaps
        → checked_values gaps ≡ Ok values → AreScaleOf gaps values × All IsReduced values }
    ensures each { (gaps values : List Fraction) → AreFractions gaps
        → checked_values gaps ≡ Ok values → length values ≡ length gaps + 1 }
{}

/// States that the values of the least scale are those of a scale that meets the matrix: one for each element, the last one 0, and
/// none above one listed before it. It only reads them, since what a type keeps is told where it is read.
pub fn least_values_meet(matrix: &Matrix, values: &[Frac])
    requires { AreLeastValues matrix.now values.now }
    ensures meet { MeetValues matrix.now values.now }
    ensures each { AreValues matrix.now values.now }
    ensures fall { NeverRise values.now }
{
    are_fractions(values);
    matrix.size();
}

/// States that a matrix has one answer but for its multipliers, and that it adds one number to a count, unless memory is wanted.
/// It does nothing.
pub fn one_basic_scale(matrix: &Matrix)
    ensures { (count after later : ℕ) (first second : Answer Basic ScaleFault)
        → IsAnswered first → IsAnswered second → IsFound matrix.now count first after
        → IsFound matrix.now count second later → TellTheSame first second × (after ≡ later) }
{}

/// States that each matrix of at least two elements has an answer other than that memory is wanted, for each count.
/// It does nothing.
pub fn every_matrix_has_an_answer(matrix: &Matrix)
    requires { 2 ≤ matrix.now.size }
    ensures { (count : ℕ) → (answer : Answer Basic ScaleFault) × (after : ℕ) × IsAnswered answer
        × IsFound matrix.now count answer after }
{
    // What the proof rests on: laws, and what a matrix keeps.
    thresholds_are_enough(matrix);
    writings_meet_alike(matrix);
    writings_compare_alike();
    matrix.size();
}

/// Whether two basic scales are equal: exactly where they are one.
pub fn are_equal_basics(a: &Basic, b: &Basic) -> bool
    ensures { IsTrue result ↔ (a.now ≡ b.now) }
{
    a == b
}
