//! A walk over the pairs of elements, in pair order.
ghost use Rattle.std.specs.Prelude.{◌≡◌, ◌≤◌};
ghost use Rattle.std.specs.Iterator.{YieldsFirst, item_count};
ghost use Rattle.judgement_matrix.specs.Matrix.{IsSize, pairs};

use std::marker::Model;

/// The pairs of elements that are left, seen as their list.
#[derive(Drop)]
pub struct Pairs {
    size: u8,
    upper: u8,
    lower: u8,
}

impl Model for Pairs {
    ghost use Rattle.std.specs.Prelude.{ℕ, List};
    ghost use Rattle.judgement_matrix.specs.Walk.{pairs_from, IsCursor};

    ghost Value = { List (ℕ × ℕ) };

    ghost view = { λ w. pairs_from w.size w.upper w.lower };

    ghost invariant = { λ w. IsCursor w.size w.upper w.lower };
}

impl Pairs {
    /// The pairs of `size` elements.
    pub(crate) fn of(size: u8) -> Pairs
        requires { IsSize size }
        ensures { result ≡ pairs size }
    {
        Pairs {
            size,
            upper: 1,
            lower: 2,
        }
    }
}

impl Iterator for Pairs {
    type Item = (u8, u8);

    ghost next_gives = { YieldsFirst (λ rest. rest) };

    ghost remaining = { item_count (λ rest. rest) };

    fn next(&mut self) -> Option<(u8, u8)> {
        if self.lower > self.size {
            return None;
        }
        let pair = (self.upper, self.lower);
        if self.lower < self.size {
            self.lower += 1;
        } else {
            self.upper += 1;
            self.lower = self.upper + 1;
        }
        Some(pair)
    }
}
