//! Multipliers of rows as numbers of at least 0, and a row of them that is used up from the front.

ghost use Rattle.std.specs.Prelude.{◌≡◌, ◌-◌, pos, unsigned_abs, ◌≤ℤ◌, get_or, drop};

use std::marker::Model;

/// A whole number of at least 0 that is a multiplier: it fits a signed machine number.
#[derive(Clone, Copy, Debug, PartialEq, Eq)]
pub(crate) struct Weight {
    value: i128,
}

impl Model for Weight {
    ghost use Rattle.std.specs.Prelude.{ℕ, pos, unsigned_abs, ◌≤ℤ◌};

    ghost Value = { ℕ };

    ghost view = { λ w. unsigned_abs w.value };

    ghost inverse = { λ n. record { value = pos n } };

    ghost invariant = { λ w. pos 0 ≤ℤ w.value };
}

impl Weight {
    pub(crate) const ZERO: Weight = Weight { value: 0 };

    /// A multiplier.
    pub(crate) fn make(value: i128) -> Weight
        requires { pos 0 ≤ℤ value }
        ensures { result ≡ unsigned_abs value }
    {
        Weight { value }
    }

    /// The weight as a plain number.
    pub(crate) fn get(self) -> i128
        ensures { result ≡ pos self }
    {
        self.value
    }

    /// What is left when as much as there is of another is taken off.
    pub(crate) fn less(self, other: Weight) -> Weight
        ensures { result ≡ self - other }
    {
        if self.value < other.value {
            return Weight::ZERO;
        }
        Weight {
            value: self.value - other.value,
        }
    }
}

/// Weights that are used up from the front.
#[derive(Debug, Drop)]
pub(crate) struct Supply {
    items: Vec<Weight>,
    next: usize,
}

impl Model for Supply {
    ghost use Rattle.std.specs.Prelude.{ℕ, List, drop};

    ghost Value = { List ℕ };

    ghost view = { λ s. drop s.next s.items.items };
}

impl Supply {
    /// A supply of these.
    pub(crate) fn make(items: Vec<Weight>) -> Supply
        ensures { result ≡ items.items }
    {
        Supply { items, next: 0 }
    }

    /// The next weight, 0 where none is left.
    pub(crate) fn take(&mut self) -> Weight
        ensures weight { result ≡ get_or self.old 0 0 }
        ensures rest { self.new ≡ drop 1 self.old }
    {
        if self.next < self.items.len() {
            let weight = self.items[self.next];
            self.next += 1;
            return weight;
        }
        Weight::ZERO
    }
}
