//! Numbers of a certificate's text, which are read only as they are printed.

ghost use Rattle.std.specs.Prelude.{IfOk};
ghost use Rattle.cert_check.specs.Reading.{Found, IsPrintedValue, IsPrintedWhole, IsPrintedPlace, ArePrintedPlaces};

use crate::words::is_same;
use frac128::{Frac, NoMemory, read_frac};
use std::alloc::Global;

/// The fraction that is printed so.
pub(crate) fn read_value(alloc: Global, word: &[u8]) -> Result<Option<Frac>, NoMemory>
    ensures { IfOk result (Found (IsPrintedValue word.now)) }
{
    let Ok(value) = read_frac(word) else {
        return Ok(None);
    };
    // The range of its numbers is told where they are read.
    let _ = (value.num(), value.den());
    let text = value.print(alloc)?;
    if is_same(text.as_bytes(), word) {
        Ok(Some(value))
    } else {
        Ok(None)
    }
}

/// The whole number that is printed so.
pub(crate) fn read_whole(alloc: Global, word: &[u8]) -> Result<Option<i128>, NoMemory>
    ensures { IfOk result (Found (IsPrintedWhole word.now)) }
{
    let Some(value) = read_value(alloc, word)? else {
        return Ok(None);
    };
    if value.den() == 1 {
        Ok(Some(value.num()))
    } else {
        Ok(None)
    }
}

/// The position from 1 to 255 that is printed so.
pub(crate) fn read_position(alloc: Global, word: &[u8]) -> Result<Option<u8>, NoMemory>
    ensures { IfOk result (Found (IsPrintedPlace word.now)) }
{
    let Some(number) = read_whole(alloc, word)? else {
        return Ok(None);
    };
    if number < 1 {
        return Ok(None);
    }
    if number > 255 {
        return Ok(None);
    }
    Ok(Some(number as u8))
}

/// The positions of an element and of one below it that are printed so.
pub(crate) fn read_positions(
    alloc: Global,
    upper: &[u8],
    lower: &[u8],
) -> Result<Option<(u8, u8)>, NoMemory>
    ensures { IfOk result (Found (ArePrintedPlaces upper.now lower.now)) }
{
    let Some(p) = read_position(alloc, upper)? else {
        return Ok(None);
    };
    let Some(q) = read_position(alloc, lower)? else {
        return Ok(None);
    };
    if p < q { Ok(Some((p, q))) } else { Ok(None) }
}
