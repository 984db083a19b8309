//! What the end of a run says of the problem.

ghost use Rattle.std.specs.Prelude.{◌≡◌};
ghost use Rattle.lex_simplex.specs.Same.{is_same_outcome};

use frac128::problem::Cert;
use frac128::{Frac, List};

/// The answer to a problem. Two answers are equal exactly where all that they hold is
/// (`laws::are_equal_outcomes`).
#[derive(Debug, Drop)]
pub enum Outcome {
    /// The least point, one number for each variable, its cost, and multipliers of the rows that
    /// bound the cost by it.
    Least {
        point: List<Frac>,
        value: Frac,
        cert: Cert,
    },
    /// Multipliers of the rows that show that no point meets all.
    Nothing {
        cert: Cert,
    },
}

impl PartialEq for Outcome {
    ghost use Rattle.lex_simplex.specs.Same.{is_same_outcome, is_same_outcome-laws};
    ghost use Rattle.std.specs.Cmp.{partial_equiv_from_equiv};

    ghost eq = { is_same_outcome };

    ghost laws = { partial_equiv_from_equiv is_same_outcome-laws };

    fn eq(&self, other: &Outcome) -> bool {
        match self {
            Outcome::Least { point, value, cert } => is_least(other, point, value, cert),
            Outcome::Nothing { cert } => is_nothing(other, cert),
        }
    }
}

impl Eq for Outcome {
    ghost use Rattle.lex_simplex.specs.Same.{is_same_outcome-laws};

    ghost laws = { is_same_outcome-laws };
}

// Whether an outcome is this least point.
fn is_least(outcome: &Outcome, point: &List<Frac>, value: &Frac, cert: &Cert) -> bool
    ensures { result ≡ is_same_outcome (Outcome.Least point.now value.now cert.now) outcome.now }
{
    match outcome {
        Outcome::Least {
            point: p,
            value: v,
            cert: c,
        } => value == v && point == p && cert == c,
        Outcome::Nothing { .. } => false,
    }
}

// Whether an outcome is this refutation.
fn is_nothing(outcome: &Outcome, cert: &Cert) -> bool
    ensures { result ≡ is_same_outcome (Outcome.Nothing cert.now) outcome.now }
{
    match outcome {
        Outcome::Least { .. } => false,
        Outcome::Nothing { cert: c } => cert == c,
    }
}
