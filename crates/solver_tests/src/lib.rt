//! Tests of fractions, problems, matrices and the solver, by the calls of frac128, judgement_matrix
//! and lex_simplex.
#![tactic(auto)]

#[cfg(test)]
mod fractions;
#[cfg(test)]
mod matrices;
#[cfg(test)]
mod problems;
#[cfg(test)]
mod solving;
