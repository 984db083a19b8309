//! What the definitions in the contracts amount to: functions that do nothing, whose contracts are the laws.

ghost use Rattle.std.specs.Prelude.{◌≡◌, ◌↔◌, ◌+◌, ◌≤◌, ℕ, ℤ, List as Items, [], ◌∷◌, length, Contains};
ghost use Rattle.frac128.specs.Problem.{IsFarkasCertificate};
ghost use Rattle.frac128.specs.declared.problem.Cert.{Cert as Given};
ghost use Rattle.judgement_matrix.specs.Repair.{IsBetween, shifted, shift_total, IsRepair, IsLeastRepair, IsNearShift, IsUndercutByNone};
ghost use Rattle.judgement_matrix.specs.declared.shift.Shift.{Shift as Steps};
ghost use Rattle.lp_macbeth.specs.Rows.{problem_of};
ghost use Rattle.repair_enum.specs.Children.{LeadsTo};
ghost use Rattle.repair_enum.specs.Levels.{Covers, AreOfTotal, Ends, shifts_of, AreRefuted, AreChildren, AreLevelsOf};

use judgement_matrix::Matrix;

/// States that where a shift lies between no shift and a repair, and a certificate refutes it, some child of the shift lies there
/// too, one step further. It does nothing.
pub fn conflicts_lead_to_repairs(matrix: &Matrix)
    requires { 2 ≤ matrix.now.size }
    ensures { (s t : Items ℤ) (cert : Given)
        → IsFarkasCertificate (problem_of (shifted matrix.now s)) cert
        → IsRepair matrix.now t → IsBetween s t → LeadsTo matrix.now s cert t }
{
    // What a matrix keeps is told by its size.
    prove!(matrix.size() >= 1);
}

/// States that the children of a refuted level cover each repair that the level covers, but for those of its own total. It does
/// nothing.
pub fn children_cover(matrix: &Matrix)
    requires { 2 ≤ matrix.now.size }
    ensures { (k : ℕ) (level : Items (Steps × Given)) (next : Items Steps)
        → Covers matrix.now k (shifts_of level) → AreRefuted matrix.now level
        → AreChildren matrix.now level next → Covers matrix.now (k + 1) next }
{
    // What a matrix keeps is told by its size.
    prove!(matrix.size() >= 1);
}

/// States that where shifts cover, no repair moves by less and one of them is a repair, the repairs among them are exactly the least
/// ones; and that where none is left, no repair moves by as much. It does nothing.
pub fn covering_shifts_hold_the_least(matrix: &Matrix)
    ensures least { (k : ℕ) (shifts : Items Steps) → Covers matrix.now k shifts → AreOfTotal k shifts
        → IsUndercutByNone matrix.now k → (s : Steps) → Contains shifts s → IsRepair matrix.now s.by
        → (t : Steps) → (Contains shifts t × IsRepair matrix.now t.by) ↔ IsLeastRepair matrix.now t.by }
    ensures none { (k : ℕ) → Covers matrix.now k []
        → (t : Items ℤ) → k ≤ shift_total t → ¬ IsRepair matrix.now t }
{}

/// States what the levels from the shift of zeros on come to: what is known of the shifts that follow them (`Ends`), that these
/// hold exactly the least repairs where one is a repair, and that the matrix has no repair where there are none. It does nothing.
pub fn levels_end_at_the_least(matrix: &Matrix)
    requires { 2 ≤ matrix.now.size }
    ensures ends { (levels : Items (Items (Steps × Given))) (last : Items Steps)
        → AreLevelsOf matrix.now levels last → Ends matrix.now (length levels) last }
    ensures least { (levels : Items (Items (Steps × Given))) (last : Items Steps)
        → AreLevelsOf matrix.now levels last → (s : Steps) → Contains last s → IsRepair matrix.now s.by
        → (t : Steps) → (Contains last t × IsRepair matrix.now t.by) ↔ IsLeastRepair matrix.now t.by }
    ensures none { (levels : Items (Items (Steps × Given))) → AreLevelsOf matrix.now levels []
        → (t : Items ℤ) → ¬ IsRepair matrix.now t }
{
    // What a matrix keeps is told by its size.
    prove!(matrix.size() >= 1);
}

/// States that the shifts after at most four levels are near, and that after five levels no repair is. It does nothing.
pub fn near_shifts_of_levels(matrix: &Matrix)
    ensures near { (k : ℕ) (shifts : Items Steps) → Ends matrix.now k shifts → k ≤ 4
        → (s : Steps) → Contains shifts s → IsNearShift matrix.now s.by }
    ensures too_far { (shifts : Items Steps) → Ends matrix.now 5 shifts
        → (t : Items ℤ) → shift_total t ≤ 4 → ¬ IsRepair matrix.now t }
{}
