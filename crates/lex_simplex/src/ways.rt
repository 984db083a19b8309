//! Row steps that take the row once: its cells less a multiple of the pivot row's, where these
//! aren't 0.

ghost use Rattle.lex_simplex.specs.Steps.{DoneIff, row_less, LessFits};
ghost use Rattle.std.specs.Prelude.{◌≡◌, ◌<◌, length, All, pos, negsuc};

use frac128::{Number, TooWide};

/// Takes `factor` times the entries off the row. Where it refuses, some product or difference is
/// out of range.
pub(crate) fn subtract(
    row: &mut [Number],
    entries: &[(usize, Number)],
    factor: Number,
) -> Result<(), TooWide>
    requires { All (λ e. e.0 < length row.old) entries.now }
    ensures done { DoneIff result (LessFits factor entries.now row.old) row.new
        (row_less factor entries.now row.old) }
    ensures same_length { length row.new ≡ length row.old }
{
    if factor == Number::ONE {
        return subtract_once(row, entries);
    }
    if factor == Number::ONE.negated() {
        return add_once(row, entries);
    }
    subtract_times(row, entries, factor)
}

// Takes the entries off the row.
fn subtract_once(row: &mut [Number], entries: &[(usize, Number)]) -> Result<(), TooWide>
    requires { All (λ e. e.0 < length row.old) entries.now }
    ensures done { DoneIff result (LessFits (pos 1) entries.now row.old) row.new
        (row_less (pos 1) entries.now row.old) }
    ensures same_length { length row.new ≡ length row.old }
{
    for k in 0..entries.len() {
        let (place, number) = entries[k];
        // For the prover alone: an entry is in range.
        prove!(number.get() <= i128::MAX);
        row[place] = row[place].minus(number)?;
    }
    Ok(())
}

// Adds the entries to the row.
fn add_once(row: &mut [Number], entries: &[(usize, Number)]) -> Result<(), TooWide>
    requires { All (λ e. e.0 < length row.old) entries.now }
    ensures done { DoneIff result (LessFits (negsuc 0) entries.now row.old) row.new
        (row_less (negsuc 0) entries.now row.old) }
    ensures same_length { length row.new ≡ length row.old }
{
    for k in 0..entries.len() {
        let (place, number) = entries[k];
        // For the prover alone: an entry is in range.
        prove!(number.get() <= i128::MAX);
        row[place] = row[place].plus(number)?;
    }
    Ok(())
}

// Takes `factor` times the entries off the row.
fn subtract_times(
    row: &mut [Number],
    entries: &[(usize, Number)],
    factor: Number,
) -> Result<(), TooWide>
    requires { All (λ e. e.0 < length row.old) entries.now }
    ensures done { DoneIff result (LessFits factor entries.now row.old) row.new
        (row_less factor entries.now row.old) }
    ensures same_length { length row.new ≡ length row.old }
{
    for k in 0..entries.len() {
        let (place, number) = entries[k];
        row[place] = row[place].minus(factor.times(number)?)?;
    }
    Ok(())
}
