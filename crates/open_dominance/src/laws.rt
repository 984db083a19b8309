//! What the definitions in the contracts amount to: functions that do nothing, whose contracts are the laws.

ghost use Rattle.std.specs.Prelude.{◌≡◌, ℕ, ◌↔◌, ◌∷◌, ◌++◌, [], List, ℤ, pos, length, ◌+ℤ◌, ◌-ℤ◌, ◌*ℤ◌, ◌≤ℤ◌, ◌<ℤ◌};
ghost use Rattle.std.specs.List.{AllByRecursion};
ghost use Rattle.integers.specs.Fraction.{Fraction, IsFraction, IsWriting};
ghost use Rattle.integers.specs.Vector.{running_sums, AreNonNegative};
ghost use Rattle.judgement_matrix.specs.Matrix.{Judgements, IsPair};
ghost use Rattle.judgement_matrix.specs.Scale.{difference, IsMetBy};
ghost use Rattle.lp_macbeth.specs.Closed.{IsClosedScale};
ghost use Rattle.lp_macbeth.specs.ClosedWeighting.{IsClosedWeighting};
ghost use Rattle.open_dominance.specs.Open.{IsMetOpenly, AreOpenDifferences, IsMetInClosure, References, IsOpenScale, IsClosureScale, IsOpenWeighting, IsClosureWeighting, lowered, mix};
ghost use Rattle.open_dominance.specs.Dominance.{Ground, HaveOpenPoints, HasClosedLead, LeadsDominate, Dominates, leads_over, differences, AreLeastLeads, IsLeastSum};
ghost use Rattle.open_dominance.specs.Compared.{Compared, grounds, uppers, lowers, leasts, IsLeastCompared, HasNoSumBelow};
ghost use Rattle.open_dominance.specs.Share.{share, mixed_value, IsShare};
ghost use Rattle.swing_weights.specs.Weights.{AreShares};
ghost use Rattle.value_scale.specs.Anchor.{IsAnchoredScale};

use judgement_matrix::Matrix;

// ---- open points

/// States that numbers meet the judgements in some unit above 0 exactly where each difference with a bound above 0 is above 0, none is
/// below 0 and equal elements are equal. It does nothing.
pub fn open_in_two_wordings(matrix: &Matrix)
    ensures { (v : List ℤ) → IsMetOpenly matrix.now v ↔ AreOpenDifferences matrix.now v }
{
    // What a matrix keeps is told by its size.
    matrix.size();
}

/// States that what is open is in the closure. It does nothing.
pub fn open_is_in_the_closure(matrix: &Matrix)
    ensures { (v : List ℤ) → IsMetOpenly matrix.now v → IsMetInClosure matrix.now v }
{}

/// States that a mixture with a part above 0 of what is open, the rest of the closure, is open. It does nothing.
pub fn mixtures_are_open()
    ensures scales { (m : Judgements) (refs : References) (a : ℤ) (v : List ℤ) (n b : ℤ) (w : List ℤ) (k : ℤ)
        → pos 0 <ℤ a → pos 0 ≤ℤ b → IsOpenScale m refs v n → IsClosureScale m refs w k
        → IsOpenScale m refs (mix a v b w) (a *ℤ n +ℤ b *ℤ k) }
    ensures weightings { (m : Judgements) (a : ℤ) (k : List ℤ) (d b : ℤ) (j : List ℤ) (e : ℤ)
        → pos 0 <ℤ a → pos 0 ≤ℤ b → IsOpenWeighting m k d → IsClosureWeighting m j e
        → IsOpenWeighting m (mix a k b j) (a *ℤ d +ℤ b *ℤ e) }
{}

/// States that the anchored scale of a scale that meets the judgements is open where its span is within the reach. It does nothing.
pub fn anchored_scales_are_open()
    ensures { (m : Judgements) (refs : References) (w : List ℤ) (n : ℤ) (v : List ℤ) (k : ℤ)
        → IsMetBy m w n → IsAnchoredScale w n refs.good refs.neutral v k
        → difference v 1 m.size ≤ℤ (pos refs.reach *ℤ k) → IsOpenScale m refs v k }
{}

/// States that the weights of a scale that meets the weighting matrix, as the least scale is one, are an open weighting. It does
/// nothing.
pub fn weights_of_scales_are_open()
    ensures { (m : Judgements) (w : List ℤ) (n : ℤ) (k : List ℤ) (d : ℤ)
        → IsMetBy m w n → pos 0 <ℤ d → AreShares w k d → IsOpenWeighting m k d }
{}

// ---- points of closed problems

/// States that the scales of the closure are those of the points of a criterion's closed problem, moved so that neutral stands at 0 in
/// place of the last element. It does nothing.
pub fn closed_scales_are_of_the_closure()
    ensures closed { (m : Judgements) (refs : References) (w : List ℤ) (r n : ℤ)
        → IsPair m.size refs.good refs.neutral
        → IsClosedScale m refs.good refs.neutral refs.reach w r n
        → IsClosureScale m refs (lowered w refs.neutral) n }
    ensures scales { (m : Judgements) (refs : References) (v : List ℤ) (n : ℤ)
        → IsPair m.size refs.good refs.neutral → IsClosureScale m refs v n
        → IsClosedScale m refs.good refs.neutral refs.reach (lowered v m.size) (n *ℤ pos refs.reach -ℤ difference v 1 m.size) n }
{}

/// States that the weightings of the closure are those of the points of the weighting's closed problem. It does nothing.
pub fn closed_weightings_are_of_the_closure()
    ensures { (m : Judgements) (k : List ℤ) (n : ℤ)
        → IsClosedWeighting m k n ↔ IsClosureWeighting m k n }
{}

// ---- dominance

/// States that where open points exist, leads dominate exactly where they do over the closures, and exactly where the least weighted
/// sum of the least leads is at least 0. It does nothing.
pub fn leads_are_decided_by_least_sums()
    ensures closures { (m : Judgements) (cs : List Ground) (ls : List (List ℤ))
        → HaveOpenPoints m cs
        → LeadsDominate m cs ls ↔ HasClosedLead m cs (leads_over ls) }
    ensures least { (m : Judgements) (cs : List Ground) (ls : List (List ℤ)) (gs : List ℤ) (n g d : ℤ)
        → HaveOpenPoints m cs → AreLeastLeads cs ls gs n → IsLeastSum m gs g d
        → LeadsDominate m cs ls ↔ (pos 0 ≤ℤ g) }
{}

/// States that leads dominate where the sums of their least leads along the order of the weighting are all at least 0, since weights
/// fall along it. It does nothing.
pub fn sums_along_the_order_decide()
    ensures { (m : Judgements) (cs : List Ground) (ls : List (List ℤ)) (gs : List ℤ) (n : ℤ)
        → AreLeastLeads cs ls gs n → AreNonNegative (running_sums (pos 0) gs)
        → LeadsDominate m cs ls }
{}

/// States that where open points exist, an option dominates another exactly where it does over the closures. It does nothing.
pub fn options_dominate_over_closures()
    ensures { (m : Judgements) (cs : List Ground) (upper lower : List ℕ) → HaveOpenPoints m cs
        → Dominates m cs upper lower ↔ HasClosedLead m cs (differences upper lower) }
{}

/// States that where open points exist, an option dominates another exactly where no weighting of the closure gives the least gaps of
/// their elements a sum below 0; criteria stand in the order of the weighting. It does nothing.
pub fn least_gaps_decide_dominance()
    ensures { (m : Judgements) (xs : List Compared) (g : List ℤ) (d : ℤ)
        → HaveOpenPoints m (grounds xs)
        → AllByRecursion IsLeastCompared xs → IsWriting (leasts xs) g d
        → Dominates m (grounds xs) (uppers xs) (lowers xs) ↔ HasNoSumBelow m g }
{}

/// States that an option dominates itself, and that it dominates what an option that it dominates does. It does nothing.
pub fn dominance_is_a_preorder()
    ensures reflexive { (m : Judgements) (cs : List Ground) (at : List ℕ) → Dominates m cs at at }
    ensures transitive { (m : Judgements) (cs : List Ground) (first second third : List ℕ)
        → length first ≡ length second → length second ≡ length third
        → Dominates m cs first second → Dominates m cs second third → Dominates m cs first third }
{}

/// States that the share of a counterexample is above 0 and at most 1, and that the value of its mixture is below 0 as the optimum's
/// is. It does nothing.
pub fn shares_keep_below_zero()
    ensures share { (g h : Fraction) → IsFraction g → IsFraction h → g.num <ℤ pos 0
        → IsShare (share g h) }
    ensures below { (g h : Fraction) → IsFraction g → IsFraction h → g.num <ℤ pos 0
        → (mixed_value g h (share g h)).num <ℤ pos 0 }
{}
