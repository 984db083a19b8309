//! From a table to the lines of its text.
ghost use Rattle.std.specs.Prelude.{◌≡◌, IfOk, OnOk, IsTrue};
ghost use Rattle.std.specs.List.{list_all};
ghost use Rattle.model_core.specs.Names.{is_text};
ghost use Rattle.csv.specs.Records.{fields_of};
ghost use Rattle.csv.specs.Writing.{default_writer, row_text};
ghost use Rattle.table_csv.specs.Lines.{rows, ended, AreLinesOf, ReadAs, IsTable};

use crate::fields::text_of;
use csv::{ByteRecord, Error, WriterBuilder};
use model_core::{NoMemory, Text};
use std::alloc::Global;

// A row as a record. Each field is read, since what a type keeps is told where it is read.
fn record_of(alloc: Global, row: &[Text]) -> Result<ByteRecord, NoMemory>
    ensures fields { IfOk result (λ made. fields_of made ≡ row.now) }
    ensures texts { OnOk result (IsTrue (list_all is_text row.now)) }
{
    let mut record = ByteRecord::new(alloc);
    for field in row {
        record.push_field(field.as_bytes())?;
    }
    Ok(record)
}

// How csv writes by its defaults.
fn defaults() -> WriterBuilder
    ensures { result ≡ default_writer }
{
    WriterBuilder::new()
}

// The text of one record.
fn row_bytes(alloc: Global, row: &ByteRecord) -> Result<Vec<u8>, Error>
    ensures { IfOk result (λ text. text.items ≡ row_text default_writer (fields_of row.now)) }
{
    let mut writer = defaults().from_writer(Vec::new(alloc));
    writer.write_byte_record(row)?;
    match writer.into_inner() {
        Ok(text) => Ok(text),
        Err(error) => Err(error.into_error()),
    }
}

// The line of one row, without its newline.
fn line(alloc: Global, row: &[Text]) -> Result<Text, NoMemory>
    ensures { IfOk result (λ line. ended line ≡ row_text default_writer row.now) }
{
    let record = record_of(alloc, row)?;
    let Ok(text) = row_bytes(alloc, &record) else {
        return Err(NoMemory);
    };
    text_of(alloc, &text[..text.len() - 1])
}

/// The lines of a table, without their newlines. Read, they are the table again, where each row has two fields or more.
pub fn export(alloc: Global, table: &[Vec<Text>]) -> Result<Vec<Text>, NoMemory>
    ensures lines { IfOk result (λ lines. AreLinesOf (rows table.now) lines.items) }
    ensures again { IsTable (rows table.now)
        → IfOk result (λ lines. ReadAs (rows table.now) lines.items) }
{
    let mut lines = Vec::new(alloc);
    for row in table {
        lines.push(line(alloc, row)?)?;
    }
    Ok(lines)
}
