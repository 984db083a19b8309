//! From values to their table.
ghost use Rattle.std.specs.Prelude.{◌≡◌, ◌∷◌, [], length, codes, IfOk, IsTrue};
ghost use Rattle.table_csv.specs.Layout.{value_row, value_table};
ghost use Rattle.table_csv.specs.Lines.{rows, is_line};

use crate::fields::{text_from, text_of};
use frac128::Frac;
use model_core::{Name, NoMemory, Text};
use std::alloc::Global;

/// The places to which values are rounded.
pub const PLACES: u8 = 2;

// The head of the names, and those of the values.
fn head_row(alloc: Global, head: &str) -> Result<Vec<Text>, NoMemory>
    requires { IsTrue (is_line head.now) }
    ensures { IfOk result (λ row. row.items ≡ head.now ∷ codes "value" ∷ codes "decimal" ∷ []) }
{
    let head = text_from(alloc, head)?;
    let value = text_from(alloc, "value")?;
    let decimal = text_from(alloc, "decimal")?;
    let row = vec![in alloc; head, value, decimal]?;
    Ok(row)
}

// A name, its value as a fraction, and that rounded.
fn value_row(alloc: Global, name: &Name, value: &Frac) -> Result<Vec<Text>, NoMemory>
    ensures { IfOk result (λ row. row.items ≡ value_row (name.now, value.now)) }
{
    let name = text_of(alloc, name.as_bytes())?;
    let fraction = value.print(alloc)?;
    let rounded = value.decimal(alloc, PLACES)?;
    let fraction = text_from(alloc, fraction.as_str())?;
    let rounded = text_from(alloc, rounded.as_str())?;
    let row = vec![in alloc; name, fraction, rounded]?;
    Ok(row)
}

/// The table of values: the head of the names, `value` and `decimal`, and then for each name the name, its value as a fraction
/// and that rounded to two places.
pub fn value_table(
    alloc: Global,
    head: &str,
    names: &[Name],
    values: &[Frac],
) -> Result<Vec<Vec<Text>>, NoMemory>
    requires head { IsTrue (is_line head.now) }
    requires each { length values.now ≡ length names.now }
    ensures { IfOk result (λ table. rows table.items ≡ value_table head.now names.now values.now) }
{
    let mut table = vec![in alloc; head_row(alloc, head)?]?;
    for i in 0..names.len() {
        table.push(value_row(alloc, &names[i], &values[i])?)?;
    }
    Ok(table)
}
