//! The score of an option.

ghost use Rattle.std.specs.Prelude.{◌≡◌, IfOk, length};
ghost use Rattle.swing_weights.specs.Score.{checked_score, IsScore};

use frac128::laws::are_fractions;
use frac128::{Frac, TooWide};

/// The sum over the criteria of weight times value, one weight and one value for each criterion. It refuses where a product or
/// a sum of these does, worked from the first criterion on. It takes no memory.
pub fn score(weights: &[Frac], values: &[Frac]) -> Result<Frac, TooWide>
    requires { length weights.now ≡ length values.now }
    ensures worked { result ≡ checked_score weights.now values.now }
    ensures value { IfOk result (IsScore weights.now values.now) }
{
    // For the proofs alone: the denominators are positive.
    are_fractions(weights);
    are_fractions(values);
    added(weights, values)
}

// The same by its formula alone.
#[tactic(auto, unfolding(crate::specs::Score::checked_score_from))]
fn added(weights: &[Frac], values: &[Frac]) -> Result<Frac, TooWide>
    requires { length weights.now ≡ length values.now }
    ensures { result ≡ checked_score weights.now values.now }
{
    let mut sum = Frac::whole(0);
    for i in 0..weights.len() {
        sum = sum.add(&weights[i].mul(&values[i])?)?;
    }
    Ok(sum)
}
