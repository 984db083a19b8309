//! Laws of tableaus and runs, as contracts of functions that do nothing.

ghost use Rattle.integers.specs.Counting.{choose};
ghost use Rattle.integers.specs.Fraction.{SameFractions};
ghost use Rattle.integers.specs.Lexicographic.{LexLess};
ghost use Rattle.integers.specs.Vector.{scale, unit_vector};
ghost use Rattle.lex_simplex.specs.Answer.{IsOutcome, end_of};
ghost use Rattle.lex_simplex.specs.Columns.{column_set, IsChoice};
ghost use Rattle.lex_simplex.specs.Equations.{IsTableauOf};
ghost use Rattle.lex_simplex.specs.Pivot.{IsLeaving, IsEntering};
ghost use Rattle.lex_simplex.specs.Tableau.{TableRow, Tableau, start, row_of, entry, values};
ghost use Rattle.lex_simplex.specs.Turn.{IsRun, Reaches, ratios, leaving, entering};
ghost use Rattle.lex_simplex.specs.declared.end.End.{End as RunEnd};
ghost use Rattle.lex_simplex.specs.declared.outcome.Outcome.{Outcome as Answer};
ghost use Rattle.std.specs.Prelude.{◌≡◌, ◌≢◌, ◌↔◌, ℕ, suc, ◌+◌, ◌<◌, ◌<ℤ◌, ◌≤ℤ◌, length, get_or, pos, All, AllPairs, IsTrue, Some as SomePlace, None as NoPlace, Result as Ended, Ok as EndOk};

use crate::end::{End, PivotFault};
use crate::outcome::Outcome;
use frac128::problem::Problem;

/// States that turns keep what a tableau says of its problem: each row's equation at each point,
/// columns that are independent and lexicographically positive. It does nothing.
pub fn turns_keep_the_problem(problem: &Problem)
    ensures start { IsTableauOf problem.now (start problem.now) }
    ensures kept { (n : ℕ) (t s : Tableau) → IsTableauOf problem.now t → Reaches n t s
        → IsTableauOf problem.now s }
{
    // For the prover alone: the value is a problem.
    problem.vars();
}

/// States that a tableau's columns stand for different quantities, and that the row of such a
/// quantity says it itself. It does nothing.
pub fn columns_stand_for_themselves(problem: &Problem)
    ensures different { (t : Tableau) → IsTableauOf problem.now t
        → AllPairs (λ a b. a ≢ b) t.columns }
    ensures constant { (t : Tableau) (j : ℕ) → IsTableauOf problem.now t → j < length t.columns
        → (row_of t (get_or t.columns j 0)).constant ≡ pos 0 }
    ensures coefs { (t : Tableau) (j : ℕ) → IsTableauOf problem.now t → j < length t.columns
        → (row_of t (get_or t.columns j 0)).coefs
        ≡ scale (row_of t (get_or t.columns j 0)).den (unit_vector problem.now.vars j) }
{}

/// States that no two columns with a positive number in the pivot row have the same ratios, so that
/// the pivot column is one. It does nothing.
pub fn ratios_differ(problem: &Problem)
    ensures { (t : Tableau) (r e f : ℕ) → IsTableauOf problem.now t → r < length t.rows
        → e < length t.columns → f < length t.columns → e ≢ f
        → pos 0 <ℤ entry (row_of t r) e → pos 0 <ℤ entry (row_of t r) f
        → ¬ SameFractions (ratios t r e) (ratios t r f) }
{}

/// States that the pivot row is the first quantity whose constant is negative and that there is
/// none exactly where no constant is; that the pivot column is the one whose ratios come first; and
/// that there is none exactly where no number of the pivot row is positive. It does nothing.
pub fn pivot_is_one(problem: &Problem)
    ensures row { (t : Tableau) (r : ℕ) → (leaving t ≡ SomePlace r) ↔ IsLeaving t r }
    ensures no_row { (t : Tableau) → (leaving t ≡ NoPlace)
        ↔ All (λ (row : TableRow). pos 0 ≤ℤ row.constant) t.rows }
    ensures column { (t : Tableau) (r e : ℕ) → (entering t r ≡ SomePlace e) ↔ IsEntering t r e }
    ensures no_column { (t : Tableau) (r : ℕ) → IsTableauOf problem.now t → r < length t.rows
        → (entering t r ≡ NoPlace) ↔ ((f : ℕ) → f < length t.columns
        → entry (row_of t r) f ≤ℤ pos 0) }
{}

/// States that no set of columns comes back in a run, since the values of the cost and the
/// variables rise lexicographically, and that there are fewer turns than ways to choose as many
/// quantities as there are variables. It does nothing.
pub fn no_columns_come_back(problem: &Problem)
    ensures choice { (n : ℕ) (t : Tableau) → Reaches n (start problem.now) t
        → IsChoice (problem.now.vars + length problem.now.rows) problem.now.vars (column_set t) }
    ensures different { (n k : ℕ) (t s : Tableau) → Reaches n (start problem.now) t
        → Reaches (suc k) t s → column_set t ≢ column_set s }
    ensures rise { (n k : ℕ) (t s : Tableau) → Reaches n (start problem.now) t → Reaches (suc k) t s
        → LexLess (values t) (values s) }
    ensures few { (n : ℕ) (t : Tableau) → Reaches n (start problem.now) t
        → n < choose (problem.now.vars + length problem.now.rows) problem.now.vars }
{
    // For the prover alone: the value is a problem.
    problem.vars();
}

/// States that the run of a problem has an end and a number of pivots, and but one. It does
/// nothing.
pub fn run_is_one(problem: &Problem)
    ensures ends { (end : Ended End PivotFault) × (n : ℕ) × IsRun problem.now end n }
    ensures one { (d e : Ended End PivotFault) (n m : ℕ) → IsRun problem.now d n
        → IsRun problem.now e m → (d ≡ e) × (n ≡ m) }
{
    // For the prover alone: the value is a problem.
    problem.vars();
}

/// Whether two outcomes are equal: exactly where they are one.
pub fn are_equal_outcomes(a: &Outcome, b: &Outcome) -> bool
    ensures { IsTrue result ↔ (a.now ≡ b.now) }
{
    a == b
}

/// States that where a run ends in range there is an outcome that tells its end. It does nothing.
pub fn ends_have_outcomes(problem: &Problem)
    ensures { (end : RunEnd) (n : ℕ) → IsRun problem.now (EndOk end) n → (outcome : Answer)
        × IsOutcome problem.now outcome × (end_of outcome ≡ end) }
{
    // For the prover alone: the value is a problem.
    problem.vars();
}
