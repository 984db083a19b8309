//! The models that came before.
ghost use Rattle.std.specs.Prelude.{◌≡◌, ◌-◌, ◌≤◌, ◌++◌, [], ◌∷◌, length, take, IfOk};
ghost use Rattle.std.specs.Option.{option_copied};
ghost use Rattle.circular_buffer.specs.Buffer.{keep_last, last_item};

use circular_buffer::HeapCircularBuffer;
use model_core::{Model, NoMemory};
use std::alloc::Global;

/// How many models are there at most.
pub const UNDO_STEPS: usize = 32;

/// The latest models before the present one, the oldest first.
#[derive(Drop)]
pub struct History {
    past: HeapCircularBuffer<Model>,
}

impl std::marker::Model for History {
    ghost use Rattle.std.specs.Prelude.{◌≡◌, ◌≤◌, List, length};
    ghost use Rattle.model_core.specs.State.{ModelState};
    ghost use Rattle.session_state.specs.declared.history.TheConstants.{UNDO_STEPS};

    ghost Value = { List ModelState };

    ghost view = { λ history. history.past.items };

    ghost invariant = { λ history. (history.past.capacity ≡ UNDO_STEPS)
        × (length history.past.items ≤ UNDO_STEPS) };
}

impl History {
    /// No models. It takes the memory of all places.
    pub fn new(alloc: Global) -> Result<History, NoMemory>
        ensures { IfOk result (λ history. history ≡ []) }
    {
        Ok(History {
            past: HeapCircularBuffer::with_capacity(alloc, UNDO_STEPS)?,
        })
    }

    /// How many there are.
    pub fn len(&self) -> usize
        ensures len { result ≡ length self.now }
        ensures few { result ≤ UNDO_STEPS }
    {
        self.past.len()
    }

    /// Puts a model behind the others. Where all places are taken the oldest falls out. It takes no
    /// memory.
    pub fn push(&mut self, model: Model)
        ensures models { self.new ≡ keep_last UNDO_STEPS (self.old ++ model ∷ []) }
        ensures few { length self.new ≤ UNDO_STEPS }
    {
        self.past.push_back(model);
    }

    /// The newest model.
    pub fn newest(&self) -> Option<&Model>
        ensures { option_copied result ≡ last_item self.now }
    {
        self.past.back()
    }

    /// Takes the newest model out.
    pub fn take_newest(&mut self) -> Option<Model>
        ensures newest { result ≡ last_item self.old }
        ensures rest { self.new ≡ take (length self.old - 1) self.old }
    {
        self.past.pop_back()
    }
}
