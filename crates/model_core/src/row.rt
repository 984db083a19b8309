//! What an option performs.
ghost use Rattle.std.specs.Prelude.{◌≡◌, ◌<◌, ◌≤◌, ◌++◌, [], ◌∷◌, None, Some, length, map, remove, replicate, slice_get, slice_set, slice_index_or};

use crate::limits::CRITERIA;
use std::marker::Model;

/// The place of an element for each criterion, or nothing. It has room for the most criteria and takes no memory.
#[derive(Drop)]
pub(crate) struct Row {
    places: [Option<u8>; CRITERIA],
    width: usize,
}

impl Model for Row {
    ghost use Rattle.std.specs.Prelude.{◌≤◌, List, Option, ℕ, take};
    ghost use Rattle.model_core.specs.declared.limits.TheConstants.{CRITERIA};

    ghost Value = { List (Option ℕ) };

    ghost view = { λ row. take row.width row.places };

    ghost invariant = { λ row. row.width ≤ CRITERIA };
}

impl Row {
    /// Nothing for each of so many criteria.
    pub(crate) fn new(width: usize) -> Row
        requires { width ≤ CRITERIA }
        ensures { result ≡ replicate width None }
    {
        Row {
            places: [None; CRITERIA],
            width,
        }
    }

    /// What stands at a place.
    pub(crate) fn get(&self, at: usize) -> Option<usize>
        requires { at < length self.now }
        ensures { result ≡ slice_index_or self.now at None }
    {
        prove!(at < self.width);
        match self.places[at] {
            None => None,
            Some(element) => Some(usize::from(element)),
        }
    }

    /// Sets what stands at a place.
    pub(crate) fn set(&mut self, at: usize, element: usize)
        requires within { at < length self.old }
        requires small { element < 256 }
        ensures { self.new ≡ slice_set self.old at (Some element) }
    {
        prove!(at < self.width);
        self.places[at] = Some(element as u8);
    }

    /// Nothing for one more criterion.
    pub(crate) fn push(&mut self)
        requires { length self.old < CRITERIA }
        ensures { self.new ≡ self.old ++ None ∷ [] }
    {
        self.places[self.width] = None;
        self.width += 1;
    }

    /// The place of a criterion goes; those after it move up.
    pub(crate) fn remove(&mut self, at: usize)
        requires { at < length self.old }
        ensures { self.new ≡ remove self.old at }
    {
        prove!(at < self.width);
        self.places[at..].rotate_left(1);
        self.width -= 1;
    }

    /// An equal row.
    pub(crate) fn copy(&self) -> Row
        ensures { result ≡ self.now }
    {
        Row {
            places: self.places,
            width: self.width,
        }
    }
}
