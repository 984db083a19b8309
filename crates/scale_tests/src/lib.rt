//! Tests of rows, problems, certificates and numbers that no session reaches, by the calls of lp_macbeth, cert_check,
//! value_scale and swing_weights.
#![tactic(auto)]

#[cfg(test)]
mod certificates;
#[cfg(test)]
mod closed;
#[cfg(test)]
mod problems;
#[cfg(test)]
mod weightings;
#[cfg(test)]
mod widths;
