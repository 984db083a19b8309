//! What has a basic scale.
ghost use Rattle.std.specs.Prelude.{◌≡◌, ◌≤◌};
ghost use Rattle.session_state.specs.State.{matrix_of};
ghost use Rattle.session_state.specs.Taking.{IsSubject};

use judgement_matrix::Matrix;
use model_core::Model;

/// A matrix of a model: that of a criterion, which counts from 0, or the weighting.
#[derive(Clone, Copy, Debug)]
pub enum Subject {
    /// The criterion at this place.
    Criterion(usize),
    /// The weighting.
    Weighting,
}

impl Subject {
    /// Its matrix.
    pub fn matrix(self, model: &Model) -> &Matrix
        requires { IsSubject model.now self }
        ensures value { result.now ≡ matrix_of model.now self }
        ensures size { 2 ≤ result.now.size }
    {
        match self {
            Subject::Criterion(at) => {
                let criterion = model.criterion(at);
                prove!(criterion.elements() >= 2);
                criterion.matrix()
            }
            Subject::Weighting => model.weighting(),
        }
    }
}
