//! The kinds of a threshold problem's rows that stand for a pair.

ghost use Rattle.std.specs.Prelude.{◌≡◌};
ghost use Rattle.lp_macbeth.specs.Passing.{has_row as has, category_of};

use judgement_matrix::Range;

/// A kind of row. At most one row of each kind stands for a pair.
#[derive(Clone, Copy, Debug, PartialEq, Eq)]
pub(crate) enum Kind {
    /// The least category judged.
    At,
    /// The least category judged, from 2 on.
    High,
    /// No difference.
    Zero,
    /// The greatest category judged.
    Below,
}

impl Kind {
    /// Whether a pair with this range has a row of the kind.
    pub(crate) fn has_row(self, range: Range) -> bool
        ensures { result ≡ has self range }
    {
        match self {
            Kind::At => range.lo() >= 1,
            Kind::High => range.lo() >= 2,
            Kind::Zero => range.hi() == 0,
            Kind::Below => 1 <= range.hi() && range.hi() <= 5,
        }
    }

    /// The category that such a row speaks of.
    pub(crate) fn category(self, range: Range) -> u8
        ensures { result ≡ category_of self range }
    {
        match self {
            Kind::At | Kind::High => range.lo(),
            Kind::Zero | Kind::Below => range.hi(),
        }
    }
}
