//! From a matrix to its table.
ghost use Rattle.std.specs.Prelude.{◌≡◌, ◌∷◌, ◌≤◌, [], true, length, IfOk};
ghost use Rattle.judgement_matrix.specs.Range.{IsRange};
ghost use Rattle.table_csv.specs.Layout.{pair_text, cell_text, matrix_row, matrix_table};
ghost use Rattle.table_csv.specs.Lines.{rows};

use crate::fields::{text_from, text_of};
use judgement_matrix::{Matrix, Range};
use model_core::{Name, NoMemory, Text, range_text};
use std::alloc::Global;

// A name as a field.
fn name_field(alloc: Global, name: &Name) -> Result<Text, NoMemory>
    ensures { IfOk result (λ field. field ≡ name.now) }
{
    text_of(alloc, name.as_bytes())
}

// Nothing, and then the names.
fn names_row(alloc: Global, names: &[Name]) -> Result<Vec<Text>, NoMemory>
    ensures { IfOk result (λ row. row.items ≡ [] ∷ names.now) }
{
    let mut row = vec![in alloc; text_from(alloc, "")?]?;
    for name in names {
        row.push(name_field(alloc, name)?)?;
    }
    Ok(row)
}

// A range as a field.
fn range_field(alloc: Global, range: Range) -> Result<Text, NoMemory>
    requires { IsRange range }
    ensures { IfOk result (λ field. field ≡ cell_text (range, true)) }
{
    let text = range_text(alloc, range)?;
    text_from(alloc, text.as_str())
}

// What stands in row p and column q.
fn pair_field(alloc: Global, matrix: &Matrix, p: usize, q: usize) -> Result<Text, NoMemory>
    requires row { 1 ≤ p }
    requires column { q ≤ matrix.now.size }
    ensures { IfOk result (λ field. field ≡ pair_text matrix.now p q) }
{
    if q <= p {
        return text_from(alloc, "");
    }
    let (range, is_judged) = matrix.get(p, q);
    if is_judged {
        range_field(alloc, range)
    } else {
        text_from(alloc, "")
    }
}

// The row of element p.
fn matrix_row(
    alloc: Global,
    names: &[Name],
    matrix: &Matrix,
    p: usize,
) -> Result<Vec<Text>, NoMemory>
    requires each { matrix.now.size ≡ length names.now }
    requires element { (1 ≤ p) × (p ≤ length names.now) }
    ensures { IfOk result (λ row. row.items ≡ matrix_row names.now matrix.now p) }
{
    let mut row = vec![in alloc; name_field(alloc, &names[p - 1])?]?;
    for q in 0..names.len() {
        row.push(pair_field(alloc, matrix, p, q + 1)?)?;
    }
    Ok(row)
}

/// The table of a matrix of these names: an empty field and the names, and then for each element its name, and in each column
/// the text of the range where the pair stands above the diagonal and was judged, else nothing.
pub fn matrix_table(
    alloc: Global,
    names: &[Name],
    matrix: &Matrix,
) -> Result<Vec<Vec<Text>>, NoMemory>
    requires { matrix.now.size ≡ length names.now }
    ensures { IfOk result (λ table. rows table.items ≡ matrix_table names.now matrix.now) }
{
    let mut table = vec![in alloc; names_row(alloc, names)?]?;
    for p in 0..names.len() {
        table.push(matrix_row(alloc, names, matrix, p + 1)?)?;
    }
    Ok(table)
}
