//! Shifts of judgements.
ghost use Rattle.std.specs.Prelude.{◌≡◌, IfOk};

use crate::matrix::NoMemory;
use frac128::List;
use std::alloc::Global;
use std::cmp::Ordering;

/// One number for each pair, in pair order, by which its range is moved; 0 for a pair that isn't judged. Two shifts are equal
/// exactly where their numbers are (`laws::equal_shifts`), and the first number that differs orders them (`laws::shifts_are_ordered`).
#[derive(Debug, Drop)]
pub struct Shift {
    pub by: List<i8>,
}

impl Shift {
    /// An equal shift with memory of its own.
    pub fn copy(&self, alloc: Global) -> Result<Shift, NoMemory>
        ensures { IfOk result (λ shift. shift ≡ self.now) }
    {
        Ok(Shift {
            by: self.by.copy(alloc)?,
        })
    }
}

impl PartialEq for Shift {
    ghost use Rattle.std.specs.Cmp.{partial_equiv_from_equiv};
    ghost use Rattle.judgement_matrix.specs.SameShift.{same_shift, same_shift_is_equivalent};

    ghost eq = { same_shift };

    ghost laws = { partial_equiv_from_equiv same_shift_is_equivalent };

    fn eq(&self, other: &Shift) -> bool {
        self.by == other.by
    }
}

impl Eq for Shift {
    ghost use Rattle.judgement_matrix.specs.SameShift.{same_shift_is_equivalent};

    ghost laws = { same_shift_is_equivalent };
}

impl PartialOrd for Shift {
    ghost use Rattle.std.specs.Ordering.{as_partial_cmp};
    ghost use Rattle.judgement_matrix.specs.SameShift.{shift_order, shift_order_is_partial};

    ghost partial_cmp = { as_partial_cmp shift_order };

    ghost laws = { shift_order_is_partial };

    fn partial_cmp(&self, other: &Shift) -> Option<Ordering> {
        Some(self.cmp(other))
    }
}

impl Ord for Shift {
    ghost use Rattle.std.proofs.Common.{refl};
    ghost use Rattle.judgement_matrix.specs.SameShift.{shift_order, shift_order_is_total, ties_are_same};

    ghost cmp = { shift_order };

    ghost total = { shift_order_is_total };

    ghost matches_partial_cmp = { λ _ _. refl };

    ghost matches_eq = { ties_are_same };

    fn cmp(&self, other: &Shift) -> Ordering {
        self.by.as_slice().cmp(other.by.as_slice())
    }
}
