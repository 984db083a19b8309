//! A last record without its newline, a table of one name, and a field with quotation marks.
ghost use Rattle.std.specs.Prelude.{◌≡◌, length, IfOk};
ghost use Rattle.table_csv.specs.Layout.{matrix_table};
ghost use Rattle.table_csv.specs.Lines.{AreLinesOf};

use judgement_matrix::Matrix;
use model_core::{Name, NoMemory, Text};
use std::alloc::Global;
use std::test::Fail;
use table_csv::{export, import_matrix, matrix_table};

// The lines of a matrix.
fn exported(alloc: Global, names: &[Name], matrix: &Matrix) -> Result<Vec<Text>, NoMemory>
    requires { matrix.now.size ≡ length names.now }
    ensures { IfOk result (λ lines. AreLinesOf (matrix_table names.now matrix.now) lines.items) }
{
    let table = matrix_table(alloc, names, matrix)?;
    export(alloc, &table)
}

// The lines, each with its newline.
fn joined(alloc: Global, lines: &[Text]) -> Result<String, NoMemory> {
    let mut text = String::new(alloc);
    for line in lines {
        text.push_str(line.as_str())?;
        text.push_str("\n")?;
    }
    Ok(text)
}

// A table of one name imported, and exported again.
fn alone(alloc: Global, name: Name, text: &[u8]) -> Result<String, Fail> {
    let names = [name];
    let matrix = import_matrix(alloc, text, &names).map_err(|_| "a fault")?;
    let lines = exported(alloc, &names, &matrix)?;
    let text = joined(alloc, &lines)?;
    Ok(text)
}

#[test]
fn a_last_record_without_its_newline(rt: HostRuntime) -> Result<(), Fail> {
    let alloc = rt.alloc();
    let name = Name::check(alloc, b"a, b")?.ok_or("no name")?;
    let read = alone(alloc, name, b",\"a, b\"\n\"a, b\",")?;
    assert_eq!(rt; read.as_str(), ",\"a, b\"\n\"a, b\",\n");
    Ok(())
}

#[test]
fn quotation_marks_are_doubled(rt: HostRuntime) -> Result<(), Fail> {
    let alloc = rt.alloc();
    let field = Text::check(alloc, b"a \"b\"")?.ok_or("no text")?;
    let empty = Text::check(alloc, b"")?.ok_or("no text")?;
    let table = vec![in alloc; vec![in alloc; field, empty]?]?;
    let lines = export(alloc, &table)?;
    assert_eq!(rt; joined(alloc, &lines)?.as_str(), "\"a \"\"b\"\"\",\n");
    Ok(())
}
