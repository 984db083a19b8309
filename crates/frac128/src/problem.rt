//! Linear problems in whole numbers as plain data, and the certificates that speak of them.

ghost use Rattle.std.specs.Prelude.{◌≡◌, ◌<ℤ◌, IfOk, List as Items, ℤ, pos, SomeIff};
ghost use Rattle.frac128.specs.Problem.{IsProblem, IsFeasible, IsLeast, IsLowerBound, IsInfeasible, IsSpanCertificate, IsFarkasCertificate, problem_of};
ghost use Rattle.integers.specs.Fraction.{Fraction, over, SameFractions};

mod check;

use crate::List;
use crate::problem::check::{are_in_range, are_not_negative, are_rows};
use std::alloc::{AllocError, Global};
use std::marker::Model;

/// One condition on a point `x`: the sum of all `coefs[j] * x[j]` is at least `bound`.
#[derive(Debug, PartialEq, Eq, Drop)]
pub struct Row {
    /// One number for each variable.
    pub coefs: List<i128>,
    /// What the sum is at least.
    pub bound: i128,
}

/// The least `cost * x` over the points `x` that meet each row, with a number of at least 0 for
/// each variable. No cost is below 0, and each number's absolute value is below 2^127.
#[derive(Debug, Drop)]
pub struct Problem {
    vars: usize,
    cost: List<i128>,
    rows: List<Row>,
}

/// Multipliers of a problem's rows, whose sum with them shows a bound of the cost, or that no point
/// meets all rows.
#[derive(Debug, PartialEq, Eq, Drop)]
pub struct Cert {
    /// What the multipliers are over.
    pub den: i128,
    /// A row's position, from 0 on, and its multiplier, in the order of the positions.
    pub on: List<(usize, i128)>,
}

impl Model for Problem {
    ghost use Rattle.frac128.specs.Problem.{ProblemData, IsProblem};

    ghost Value = { ProblemData };

    ghost view = { λ p. record { vars = p.vars; cost = p.cost; rows = p.rows } };

    ghost invariant = { λ p. IsProblem (record { vars = p.vars; cost = p.cost; rows = p.rows }) };
}

impl PartialEq for Problem {
    ghost use Rattle.frac128.specs.Equality.{is_same_problem, is_same_problem-laws};
    ghost use Rattle.std.specs.Cmp.{partial_equiv_from_equiv};

    ghost eq = { is_same_problem };

    ghost laws = { partial_equiv_from_equiv is_same_problem-laws };

    fn eq(&self, other: &Problem) -> bool {
        self.vars == other.vars && self.cost == other.cost && self.rows == other.rows
    }
}

impl Eq for Problem {
    ghost use Rattle.frac128.specs.Equality.{is_same_problem-laws};

    ghost laws = { is_same_problem-laws };
}

impl Problem {
    /// The problem of these data. It takes no memory.
    pub fn make(vars: usize, cost: List<i128>, rows: List<Row>) -> Problem
        requires { IsProblem (problem_of vars cost rows) }
        ensures { result ≡ problem_of vars cost rows }
    {
        Problem { vars, cost, rows }
    }

    /// The problem of these data, where they are one: one cost for each variable, none below 0, rows
    /// over the same variables, and no number -2^127. It takes no memory.
    pub fn checked(vars: usize, cost: List<i128>, rows: List<Row>) -> Option<Problem>
        ensures { SomeIff result (IsProblem (problem_of vars cost rows))
            (problem_of vars cost rows) }
    {
        let costs = cost.as_slice();
        if costs.len() == vars
            && are_not_negative(costs)
            && are_in_range(costs)
            && are_rows(rows.as_slice(), vars)
        {
            return Some(Problem::make(vars, cost, rows));
        }
        None
    }

    /// How many variables there are.
    pub fn vars(&self) -> usize
        ensures value { result ≡ self.now.vars }
        ensures problem { IsProblem self.now }
    {
        self.vars
    }

    /// The cost of one unit of each variable.
    pub fn cost(&self) -> &[i128]
        ensures value { result.now ≡ self.now.cost }
        ensures problem { IsProblem self.now }
    {
        self.cost.as_slice()
    }

    /// The conditions in order. A certificate names them by their positions here.
    pub fn rows(&self) -> &[Row]
        ensures value { result.now ≡ self.now.rows }
        ensures problem { IsProblem self.now }
    {
        self.rows.as_slice()
    }
}

impl Cert {
    /// The same certificate once more.
    pub fn copy(&self, alloc: Global) -> Result<Cert, AllocError>
        ensures { IfOk result (λ copy. copy ≡ self.now) }
    {
        Ok(Cert {
            den: self.den,
            on: self.on.copy(alloc)?,
        })
    }
}

/// States that a span certificate of a value bounds the cost of each point that meets the problem.
pub fn span_bounds_cost(problem: &Problem, cert: &Cert)
    ensures { (value : Fraction) → IsSpanCertificate problem.now cert.now value
        → IsLowerBound problem.now value }
{}

/// States that with a Farkas certificate no point meets the problem.
pub fn farkas_refutes(problem: &Problem, cert: &Cert)
    requires { IsFarkasCertificate problem.now cert.now }
    ensures { IsInfeasible problem.now }
{}

/// States that two least points are one, however they are written.
pub fn least_is_unique(problem: &Problem)
    ensures { (x : Items ℤ) (n : ℤ) (y : Items ℤ) (m : ℤ)
        → IsLeast problem.now x n → IsLeast problem.now y m → SameFractions (over x n) (over y m) }
{}

/// States that a point's numbers alone decide whether it meets the problem and whether it is the
/// least, and not how they are written.
pub fn writing_does_not_count(problem: &Problem)
    ensures feasible { (x : Items ℤ) (n : ℤ) (y : Items ℤ) (m : ℤ)
        → pos 0 <ℤ m → SameFractions (over x n) (over y m)
        → IsFeasible problem.now x n → IsFeasible problem.now y m }
    ensures least { (x : Items ℤ) (n : ℤ) (y : Items ℤ) (m : ℤ)
        → pos 0 <ℤ m → SameFractions (over x n) (over y m)
        → IsLeast problem.now x n → IsLeast problem.now y m }
{}
