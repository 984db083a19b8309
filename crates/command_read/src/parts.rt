//! Parts of commands that keep a fact.
ghost use Rattle.std.specs.Prelude.{◌≡◌, ◌≤◌, IsTrue, length, false};
ghost use Rattle.model_core.specs.State.{is_reserved};
ghost use Rattle.judgement_matrix.specs.declared.reach.TheConstants.{LEAST_REACH, MOST_REACH};
ghost use Rattle.command_read.specs.Parts.{ends_in_zero};

use frac128::Frac;
use model_core::Name;
use std::marker::Model;

/// The name of a new criterion: neither `none` nor `weighting`. It is seen as its bytes.
#[derive(Drop)]
pub struct NewName {
    name: Name,
}

impl Model for NewName {
    ghost use Rattle.std.specs.Prelude.{◌≡◌, List, ℕ, false};
    ghost use Rattle.model_core.specs.State.{is_reserved};

    ghost Value = { List ℕ };

    ghost view = { λ new. new.name };

    ghost invariant = { λ new. is_reserved new.name ≡ false };
}

impl NewName {
    /// The name as one of a new criterion.
    pub fn make(name: Name) -> NewName
        requires { is_reserved name ≡ false }
        ensures { result ≡ name }
    {
        NewName { name }
    }

    /// The name itself.
    pub fn as_name(&self) -> &Name
        ensures value { result.now ≡ self.now }
        ensures free { is_reserved self.now ≡ false }
    {
        &self.name
    }
}

/// Names, as many as `LEAST` or more. They are seen as their list.
#[derive(Drop)]
pub struct Names<const LEAST: usize> {
    names: Vec<Name>,
}

impl<const LEAST: usize> Model for Names<LEAST> {
    ghost use Rattle.std.specs.Prelude.{◌≤◌, List, ℕ, length};

    ghost Value = { List (List ℕ) };

    ghost view = { λ all. all.names.items };

    ghost invariant = { λ all. LEAST ≤ length all.names.items };
}

impl<const LEAST: usize> Names<LEAST> {
    /// These names.
    pub fn make(names: Vec<Name>) -> Names<LEAST>
        requires { LEAST ≤ length names.items }
        ensures { result ≡ names.items }
    {
        Names { names }
    }

    /// The names in order.
    pub fn as_slice(&self) -> &[Name]
        ensures value { result.now ≡ self.now }
        ensures several { LEAST ≤ length self.now }
    {
        self.names.as_slice()
    }
}

/// The values of a scale: one or more, the last of them 0. They are seen as their list.
#[derive(Drop)]
pub struct Values {
    values: Vec<Frac>,
}

impl Model for Values {
    ghost use Rattle.std.specs.Prelude.{List, IsTrue};
    ghost use Rattle.integers.specs.Fraction.{Fraction};
    ghost use Rattle.command_read.specs.Parts.{ends_in_zero};

    ghost Value = { List Fraction };

    ghost view = { λ all. all.values.items };

    ghost invariant = { λ all. IsTrue (ends_in_zero all.values.items) };
}

impl Values {
    /// These values.
    pub fn make(values: Vec<Frac>) -> Values
        requires { IsTrue (ends_in_zero values.items) }
        ensures { result ≡ values.items }
    {
        Values { values }
    }

    /// The values in order.
    pub fn as_slice(&self) -> &[Frac]
        ensures value { result.now ≡ self.now }
        ensures ends { IsTrue (ends_in_zero self.now) }
    {
        self.values.as_slice()
    }
}

/// A reach that a criterion may have. It is seen as its number.
#[derive(Drop)]
pub struct Reach {
    reach: u32,
}

impl Model for Reach {
    ghost use Rattle.std.specs.Prelude.{◌≤◌, ℕ};
    ghost use Rattle.judgement_matrix.specs.declared.reach.TheConstants.{LEAST_REACH, MOST_REACH};

    ghost Value = { ℕ };

    ghost view = { λ one. one.reach };

    ghost invariant = { λ one. (LEAST_REACH ≤ one.reach) × (one.reach ≤ MOST_REACH) };
}

impl Reach {
    /// This reach.
    pub fn make(reach: u32) -> Reach
        requires { (LEAST_REACH ≤ reach) × (reach ≤ MOST_REACH) }
        ensures { result ≡ reach }
    {
        Reach { reach }
    }

    /// Its number.
    pub fn get(&self) -> u32
        ensures value { result ≡ self.now }
        ensures within { (LEAST_REACH ≤ result) × (result ≤ MOST_REACH) }
    {
        self.reach
    }
}
