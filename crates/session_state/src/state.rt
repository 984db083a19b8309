//! The state of a session.
ghost use Rattle.std.specs.Prelude.{◌≡◌, length, IfOk, IfSome, OnOk, OnErr};
ghost use Rattle.model_core.specs.State.{empty_model};
ghost use Rattle.session_state.specs.State.{AreResults, Undoes, start_state, changed, with_results};

use crate::history::History;
use crate::results::Results;
use model_core::{Model, NoMemory};
use std::alloc::Global;
use std::mem;

/// A model, the models before it and the results of its judgements.
#[derive(Drop)]
pub struct State {
    alloc: Global,
    model: Model,
    // A copy of the model for the next edit.
    spare: Option<Model>,
    history: History,
    results: Results,
}

impl std::marker::Model for State {
    ghost use Rattle.std.specs.Prelude.{◌≡◌, IfSome};
    ghost use Rattle.session_state.specs.State.{SessionState, IsState};

    ghost Value = { SessionState };

    ghost view = { λ s. record { model = s.model; history = s.history; results = s.results } };

    ghost invariant = { λ s. IsState (record { model = s.model; history = s.history; results = s.results })
        × IfSome s.spare (λ spare. spare ≡ s.model) };
}

impl State {
    /// An empty model, with nothing before it and no results.
    pub fn start(alloc: Global) -> Result<State, NoMemory>
        ensures { IfOk result (λ state. state ≡ start_state) }
    {
        let model = Model::empty(alloc)?;
        State::of(alloc, model)
    }

    // The same with its empty model.
    fn of(alloc: Global, model: Model) -> Result<State, NoMemory>
        requires { model ≡ empty_model }
        ensures { IfOk result (λ state. state ≡ start_state) }
    {
        match History::new(alloc) {
            Ok(history) => Ok(State {
                alloc,
                model,
                spare: None,
                history,
                results: Results::new(alloc),
            }),
            Err(fault) => {
                drop(model);
                Err(fault)
            }
        }
    }

    /// The model.
    pub fn model(&self) -> &Model
        ensures { result.now ≡ self.now.model }
    {
        &self.model
    }

    /// How many models can be gone back to.
    pub fn undo_steps(&self) -> usize
        ensures { result ≡ length self.now.history }
    {
        self.history.len()
    }

    /// The results.
    pub fn results(&self) -> &Results
        ensures value { result.now ≡ self.now.results }
        ensures results { AreResults self.now.model self.now.results }
    {
        &self.results
    }

    /// A copy of the model to be edited. Hand it on to `change_to`, or to `give_back` where it was
    /// left as it is.
    pub fn scratch(&mut self) -> Result<Model, NoMemory>
        ensures copy { IfOk result (λ copy. copy ≡ self.old.model) }
        ensures same { self.new ≡ self.old }
    {
        match self.spare.take() {
            Some(spare) => Ok(spare),
            None => self.model.copy(),
        }
    }

    /// Takes a copy of the model back, so that the next edit needs no other one.
    pub fn give_back(&mut self, model: Model)
        requires { model ≡ self.old.model }
        ensures { self.new ≡ self.old }
    {
        drop(self.spare.replace(model));
    }

    /// Goes on to another model, as after an edit. The present one goes on the history.
    pub fn change_to(&mut self, after: Model) -> Result<(), NoMemory>
        ensures ok { OnOk result (self.new ≡ changed self.old after) }
        ensures err { OnErr result (self.new ≡ self.old) }
    {
        match self.results.carried(self.alloc, &self.model, &after) {
            Ok(results) => {
                let before = self.enter(after, results);
                self.history.push(before);
                Ok(())
            }
            Err(fault) => {
                drop(after);
                Err(fault)
            }
        }
    }

    /// Goes back to the newest model of the history, if there is one. Says whether there was.
    pub fn undo(&mut self) -> Result<bool, NoMemory>
        ensures { Undoes self.old result self.new }
    {
        let Some(before) = self.history.newest() else {
            return Ok(false);
        };
        let results = self.results.carried(self.alloc, &self.model, before)?;
        let before = self.history.take_newest().unwrap();
        drop(self.enter(before, results));
        Ok(true)
    }

    /// Puts other results of the model in place of those that there are.
    pub fn keep(&mut self, results: Results)
        requires { AreResults self.old.model results }
        ensures { self.new ≡ with_results self.old results }
    {
        self.results = results;
    }

    // Puts a model with its results in place of the present one, which it gives back.
    fn enter(&mut self, after: Model, kept: Results) -> Model
        requires { AreResults after kept }
        ensures before { result ≡ self.old.model }
        ensures now { self.new ≡ record self.old { model = after; results = kept } }
    {
        drop(mem::replace(&mut self.spare, spare_of(&after)));
        drop(mem::replace(&mut self.results, kept));
        mem::replace(&mut self.model, after)
    }
}

// A copy of a model, where there is memory for it.
fn spare_of(model: &Model) -> Option<Model>
    ensures { IfSome result (λ spare. spare ≡ model.now) }
{
    model.copy().ok()
}
