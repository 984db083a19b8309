//! The count of pivots.

ghost use Rattle.lex_simplex.specs.Count.{capped_sum};
ghost use Rattle.std.specs.Prelude.{◌≡◌, ◌^◌, ◌<◌};

use std::marker::Model;

/// How many pivots were made. It stays at the greatest `u64` once there.
#[derive(Debug, Drop)]
pub struct Count {
    made: u64,
}

impl Model for Count {
    ghost use Rattle.std.specs.Prelude.{ℕ};

    ghost Value = { ℕ };

    ghost view = { λ count. count.made };
}

impl Count {
    /// No pivots.
    pub fn new() -> Count
        ensures { result ≡ 0 }
    {
        Count { made: 0 }
    }

    /// How many were made.
    pub fn made(&self) -> u64
        ensures value { result ≡ self.now }
        ensures in_range { self.now < 2 ^ 64 }
    {
        self.made
    }

    /// As many more as another count has.
    pub fn add(&mut self, more: &Count)
        ensures { self.new ≡ capped_sum self.old more.now }
    {
        self.made = self.made.saturating_add(more.made);
    }

    /// One more.
    pub(crate) fn add_one(&mut self)
        ensures { self.new ≡ capped_sum self.old 1 }
    {
        self.made = self.made.saturating_add(1);
    }
}
