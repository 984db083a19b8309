//! Ranges of the categories of difference in attractiveness.
ghost use Rattle.std.specs.Prelude.{◌≡◌, ◌≤◌, SomeIff};
ghost use Rattle.judgement_matrix.specs.Range.{Bounds, IsRange, full, bounds};

use std::marker::Model;

/// The categories from `lo` to `hi`, of 0 (no difference) to 6 (extreme).
#[derive(Clone, Copy, Debug, PartialEq, Eq)]
pub struct Range {
    pub lo: u8,
    pub hi: u8,
}

impl Model for Range {
    ghost Value = { Bounds };

    ghost view = { λ r. record { lo = r.lo; hi = r.hi } };

    ghost inverse = { λ b. record { lo = b.lo; hi = b.hi } };

    ghost invariant = { λ r. (r.lo ≤ r.hi) × (r.hi ≤ 6) };
}

impl Range {
    /// The range from `lo` to `hi`, where these are categories in this order.
    pub fn make(lo: u8, hi: u8) -> Option<Range>
        ensures { SomeIff result (IsRange (bounds lo hi)) (bounds lo hi) }
    {
        if lo <= hi && hi <= 6 {
            Some(Range { lo, hi })
        } else {
            None
        }
    }

    /// All categories: what an unjudged pair has.
    pub fn full() -> Range
        ensures { result ≡ full }
    {
        Range { lo: 0, hi: 6 }
    }

    /// The least category.
    pub fn lo(self) -> u8
        ensures value { result ≡ self.lo }
        ensures range { IsRange self }
    {
        self.lo
    }

    /// The greatest category.
    pub fn hi(self) -> u8
        ensures value { result ≡ self.hi }
        ensures range { IsRange self }
    {
        self.hi
    }
}
