//! The entries of a certificate: rows by position, with multipliers.

ghost use Rattle.std.specs.Prelude.{length, MatchOption};
ghost use Rattle.frac128.specs.Problem.{AreRowMultipliers};
ghost use Rattle.cert_check.specs.Entries.{IsEntry};
ghost use Rattle.cert_check.specs.First.{IsFirstFailing};

/// The place of the first entry that names none of so many rows, or none after the row before, or has a multiplier below 0.
pub(crate) fn first_false_entry(count: usize, on: &[(usize, i128)]) -> Option<usize>
    ensures { MatchOption result (AreRowMultipliers count on.now)
        (λ k. IsFirstFailing (IsEntry count on.now) (length on.now) k) }
{
    let mut least = 0;
    for i in 0..on.len() {
        let (row, multiplier) = on[i];
        if row >= count || row < least || multiplier < 0 {
            return Some(i);
        }
        least = row + 1;
    }
    None
}
