//! Arithmetic on the cells of a row in place.

ghost use Prim.Native.Nat.{◌∣◌};
ghost use Rattle.integers.specs.Divisibility.{IsGcdOfAll, quotients};
ghost use Rattle.integers.specs.Vector.{row_step as row_stepped};
ghost use Rattle.lex_simplex.specs.Steps.{DoneIff, CellFits, StepFits, reduced_list, exchanged_row, ExchangeFits, exchanged_row_by, ExchangeFitsBy, CanExchange};
ghost use Rattle.std.specs.Prelude.{◌≡◌, ◌≢◌, length, get_or, pos, ◌-ℤ◌, ◌*ℤ◌, ◌≤ℤ◌, ◌<ℤ◌, unsigned_abs, OkIff};

use crate::pivot_row::PivotRow;
use crate::ways::subtract;
use frac128::{Number, TooWide};

/// Makes of a row's cells what a pivot makes of them. `pivot` holds the pivot row's cells,
/// prepared, `number` is its own number in the pivot column, whose cells stand at `place`. Where it
/// refuses, some product or difference is out of range.
pub(crate) fn exchange(
    row: &mut [Number],
    pivot: &PivotRow,
    place: usize,
    number: Number,
) -> Result<(), TooWide>
    requires { CanExchange number place pivot.now row.old }
    ensures done { DoneIff result (ExchangeFits number place pivot.now row.old) row.new
        (exchanged_row number place pivot.now row.old) }
    ensures same_length { length row.new ≡ length row.old }
{
    let own = row[place];
    if own == Number::ZERO {
        return Ok(());
    }
    let divisor = number.common_divisor(own);
    let p = number.quotient(divisor);
    let q = own.quotient(divisor);
    if p == Number::ONE {
        return exchange_once(row, pivot, place, q);
    }
    exchange_by(row, pivot.cells(), place, p, q)
}

// The same where the row is taken once, which changes it only where the pivot row isn't 0. A common
// divisor of the new cells divides `q` times the pivot row's denominator: where that is 1, it
// divides `q`, and with it the old cells, which have none.
fn exchange_once(
    row: &mut [Number],
    pivot: &PivotRow,
    place: usize,
    q: Number,
) -> Result<(), TooWide>
    requires can { CanExchange (pos 1) place pivot.now row.old }
    requires divides { unsigned_abs q ∣ unsigned_abs (get_or row.old place (pos 0)) }
    ensures done { DoneIff result (ExchangeFitsBy (pos 1) q place pivot.now row.old) row.new
        (exchanged_row_by (pos 1) q place pivot.now row.old) }
    ensures same_length { length row.new ≡ length row.old }
{
    row[place] = Number::ZERO;
    subtract(row, pivot.entries(), q)?;
    if pivot.cells()[place] != Number::ONE.negated() {
        reduce(row);
    }
    Ok(())
}

// The same with the multiples of the row and of the pivot row at hand, whatever they are.
fn exchange_by(
    row: &mut [Number],
    pivot: &[Number],
    place: usize,
    p: Number,
    q: Number,
) -> Result<(), TooWide>
    requires { CanExchange p place pivot.now row.old }
    ensures done { DoneIff result (ExchangeFitsBy p q place pivot.now row.old) row.new
        (exchanged_row_by p q place pivot.now row.old) }
    ensures same_length { length row.new ≡ length row.old }
{
    row[place] = Number::ZERO;
    row_step(row, pivot, p, q)?;
    reduce(row);
    Ok(())
}

/// Makes the row `p` times itself less `q` times the other. It refuses where a product or a
/// difference is out of range.
pub(crate) fn row_step(
    row: &mut [Number],
    other: &[Number],
    p: Number,
    q: Number,
) -> Result<(), TooWide>
    requires { length row.old ≡ length other.now }
    ensures done { DoneIff result (StepFits p q row.old other.now) row.new
        (row_stepped p q row.old other.now) }
    ensures same_length { length row.new ≡ length row.old }
{
    for i in 0..row.len() {
        row[i] = step(row[i], other[i], p, q)?;
    }
    Ok(())
}

// `p` times one number less `q` times the other.
fn step(number: Number, other: Number, p: Number, q: Number) -> Result<Number, TooWide>
    ensures { OkIff result (CellFits p q number other) (p *ℤ number -ℤ q *ℤ other) }
{
    p.times(number)?.minus(q.times(other)?)
}

/// Divides the numbers by their greatest common divisor.
pub(crate) fn reduce(numbers: &mut [Number])
    requires { pos 0 <ℤ get_or numbers.old 0 (pos 0) }
    ensures { numbers.new ≡ reduced_list numbers.old }
{
    let divisor = divisor_of(numbers);
    divide(numbers, divisor);
}

/// The greatest common divisor of the numbers, 0 where all are 0. The divisor so far comes second,
/// so that the remainders stay short.
pub(crate) fn divisor_of(numbers: &[Number]) -> Number
    ensures divisor { IsGcdOfAll numbers.now (unsigned_abs result) }
    ensures sign { pos 0 ≤ℤ result }
{
    let mut divisor = Number::ZERO;
    for number in numbers {
        if divisor == Number::ONE {
            return divisor;
        }
        divisor = number.common_divisor(divisor);
    }
    divisor
}

/// Divides each number, rounding toward 0.
pub(crate) fn divide(numbers: &mut [Number], divisor: Number)
    requires { pos 0 <ℤ divisor }
    ensures { numbers.new ≡ quotients numbers.old divisor }
{
    if divisor == Number::ONE {
        return;
    }
    for i in 0..numbers.len() {
        numbers[i] = numbers[i].quotient(divisor);
    }
}
