//! From a text to the matrix of its table.
ghost use Rattle.std.specs.Prelude.{◌≡◌, ◌+◌, ◌≤◌, length, map, true, Some, IfOk, IfErr};
ghost use Rattle.csv.specs.Reading.{stops_reader, error_kind};
ghost use Rattle.csv.specs.Records.{fields_of};
ghost use Rattle.judgement_matrix.specs.Matrix.{IsPair, IsSize};
ghost use Rattle.table_csv.specs.Table.{AreRecordsOf, heading, may_stand, wrong_field, fault_of, field_of, cell_in, matrix_in, with_cell, Imports};

use crate::fault::TableFault;
use csv::{ByteRecord, Error, ReaderBuilder};
use judgement_matrix::Matrix;
use model_core::{Name, NoMemory, read_range};
use std::alloc::Global;

// A reader that may have records of any length stops for the reader underneath or for memory, and these bytes are in memory.
fn stopped_by(_refused: Error) -> TableFault
    requires { stops_reader (error_kind _refused) ≡ true }
    ensures { result ≡ TableFault.NoMemory }
{
    TableFault::NoMemory
}

// The records of a text.
fn all_records(alloc: Global, text: &[u8]) -> Result<Vec<ByteRecord>, TableFault>
    ensures ok { IfOk result (λ records. AreRecordsOf text.now (map fields_of records.items)) }
    ensures err { IfErr result (λ fault. fault ≡ TableFault.NoMemory) }
{
    let reader = ReaderBuilder::new()
        .has_headers(false)
        .flexible(true)
        .from_reader(alloc, text);
    let mut records = Vec::new(alloc);
    for row in reader.into_byte_records() {
        match row {
            Ok(row) => records.push(row)?,
            Err(error) => return Err(stopped_by(error)),
        }
    }
    Ok(records)
}

// The heading at a place, from 0.
fn heading(names: &[Name], place: usize) -> &[u8]
    requires { place ≤ length names.now }
    ensures { result.now ≡ heading names.now place }
{
    if place == 0 {
        b""
    } else {
        names[place - 1].as_bytes()
    }
}

// Whether a field may stand in this row and column, from 0.
fn may_stand(names: &[Name], row: usize, column: usize, field: &[u8]) -> bool
    requires row { row ≤ length names.now }
    requires column { column ≤ length names.now }
    ensures { result ≡ may_stand names.now row column field.now }
{
    if row == 0 {
        return field == heading(names, column);
    }
    if column == 0 {
        return field == heading(names, row);
    }
    if row == column {
        return field.is_empty() || field == b"no".as_slice();
    }
    if column < row {
        return field.is_empty();
    }
    field.is_empty() || field == b"?".as_slice() || read_range(field).is_some()
}

// The first field of a row, from 1, that may not stand there, or is wanting or too much.
fn wrong_field(names: &[Name], row: usize, fields: &ByteRecord) -> Option<usize>
    requires size { IsSize (length names.now) }
    requires row { row ≤ length names.now }
    ensures { result ≡ wrong_field names.now row 0 (fields_of fields.now) }
{
    for column in 0..fields.len() {
        if names.len() < column {
            return Some(column + 1);
        }
        let field = fields.get(column).unwrap();
        if !may_stand(names, row, column, field) {
            return Some(column + 1);
        }
    }
    if fields.len() == names.len() + 1 {
        None
    } else {
        Some(fields.len() + 1)
    }
}

// The first record and the first field in it that isn't as it must be.
fn first_fault(names: &[Name], records: &[ByteRecord]) -> Option<(usize, usize)>
    requires size { IsSize (length names.now) }
    ensures { result ≡ fault_of names.now (map fields_of records.now) }
{
    for row in 0..records.len() {
        if names.len() < row {
            return Some((row + 1, 1));
        }
        if let Some(field) = wrong_field(names, row, &records[row]) {
            return Some((row + 1, field));
        }
    }
    if records.len() == names.len() + 1 {
        None
    } else {
        Some((records.len() + 1, 1))
    }
}

// The field of a row and a column, from 0.
fn field_of(records: &[ByteRecord], row: usize, column: usize) -> &[u8]
    ensures { result.now ≡ field_of (map fields_of records.now) row column }
{
    if records.len() <= row {
        return b"";
    }
    let Some(field) = records[row].get(column) else {
        return b"";
    };
    field
}

// Writes the cell of a pair.
fn write_cell(matrix: &mut Matrix, records: &[ByteRecord], p: usize, q: usize)
    requires { IsPair matrix.old.size p q }
    ensures { matrix.new ≡ with_cell matrix.old p q (cell_in (map fields_of records.now) (p, q)) }
{
    match read_range(field_of(records, p, q)) {
        Some(range) => matrix.set(p, q, range),
        None => matrix.clear(p, q),
    }
}

// The matrix of so many elements that these records are.
fn matrix_in(alloc: Global, size: usize, records: &[ByteRecord]) -> Result<Matrix, NoMemory>
    requires { IsSize size }
    ensures { IfOk result (λ matrix. matrix ≡ matrix_in size (map fields_of records.now)) }
{
    let mut matrix = Matrix::new(alloc, size)?;
    for (p, q) in matrix.pairs() {
        write_cell(&mut matrix, records, usize::from(p), usize::from(q));
    }
    Ok(matrix)
}

/// The matrix of a table of these names: as many records as names and one more, each with as many fields. The first record is an
/// empty field and the names in order, and each other one begins with the name of its row. Above the diagonal stands a range of
/// categories, or nothing or `?` for a pair that isn't judged; on it nothing or `no`; below it nothing. A fault names the first
/// record and in it the first field that isn't so, both from 1.
pub fn import_matrix(alloc: Global, bytes: &[u8], names: &[Name]) -> Result<Matrix, TableFault>
    requires { IsSize (length names.now) }
    ensures { Imports names.now bytes.now result }
{
    let records = all_records(alloc, bytes)?;
    if let Some((line, field)) = first_fault(names, &records) {
        return Err(TableFault::BadTable { line, field });
    }
    let matrix = matrix_in(alloc, names.len(), &records)?;
    Ok(matrix)
}
