//! A table of a problem: a tableau in whole numbers that turns work on in place.

ghost use Rattle.frac128.specs.Problem.{ProblemData, IsProblem};
ghost use Rattle.lex_simplex.specs.Answer.{IsOutcome, end_of};
ghost use Rattle.lex_simplex.specs.Equations.{IsTableauOf};
ghost use Rattle.lex_simplex.specs.Run.{IsRunMade};
ghost use Rattle.lex_simplex.specs.Tableau.{start};
ghost use Rattle.std.specs.Prelude.{◌≡◌, Result as Ended, Ok as EndOk, Some as HasEnded, None as NoEnd, IfOk};

use crate::cells::Cells;
use crate::choice::leaving;
use crate::count::Count;
use crate::end::{End, PivotFault};
use crate::outcome::Outcome;
use crate::reading::{empty_outcome, optimal_outcome};
use crate::run::run;
use frac128::NoMemory;
use frac128::problem::Problem;
use std::alloc::Global;
use std::marker::Model;

/// A table of a problem, with all memory that turns need.
#[derive(Debug, Drop)]
pub struct Table {
    cells: Cells,
    end: Option<Result<End, PivotFault>>,
}

impl Model for Table {
    ghost use Rattle.lex_simplex.specs.State.{TableData, IsKept};

    ghost Value = { TableData };

    ghost view = { λ t. record { tableau = t.cells; end = t.end } };

    ghost invariant = { λ t. IsKept t.cells t.end };
}

impl Table {
    /// The first table of a problem. It takes all memory that any number of turns needs.
    pub fn make(alloc: Global, problem: &Problem) -> Result<Table, NoMemory>
        ensures value { IfOk result (λ table. table
            ≡ record { tableau = start problem.now; end = NoEnd }) }
        ensures problem { IfOk result (λ table. IsProblem problem.now
            × IsTableauOf problem.now table.tableau) }
    {
        let cells = Cells::first(alloc, problem)?;
        // For the prover alone: the value is a problem.
        problem.vars();
        Ok(Table { cells, end: None })
    }

    /// Makes turns until an end, and counts the pivots. There is no limit: no set of columns comes
    /// back. Each later call answers what the first did and leaves the count as it was.
    pub fn pivot_all(&mut self, pivots: &mut Count) -> Result<End, PivotFault>
        ensures first { self.old.end ≡ NoEnd
            → IsRunMade self.old.tableau pivots.old result self.new.tableau pivots.new
            × (self.new.end ≡ HasEnded result) }
        ensures again { (end : Ended End PivotFault) → self.old.end ≡ HasEnded end
            → (result ≡ end) × (self.new ≡ self.old) × (pivots.new ≡ pivots.old) }
        ensures same_problem { (p : ProblemData) → IsTableauOf p self.old.tableau
            → IfOk result (λ _. IsTableauOf p self.new.tableau) }
    {
        if let Some(end) = self.end {
            return end;
        }
        let end = run(&mut self.cells, pivots);
        self.end = Some(end);
        end
    }

    /// What the end of the table's run says of a problem whose tableau it has.
    pub fn outcome(&self, alloc: Global) -> Result<Outcome, NoMemory>
        requires { (end : End) × (self.now.end ≡ HasEnded (EndOk end)) }
        ensures outcome { (p : ProblemData) → IsProblem p → IsTableauOf p self.now.tableau
            → IfOk result (IsOutcome p) }
        ensures end { IfOk result (λ outcome. self.now.end ≡ HasEnded (EndOk (end_of outcome))) }
    {
        if self.end == Some(Ok(End::Optimal)) {
            return optimal_outcome(alloc, &self.cells);
        }
        let Some(row) = leaving(&self.cells) else {
            unreachable!()
        };
        empty_outcome(alloc, &self.cells, row)
    }
}
