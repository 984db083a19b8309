//! Laws of tables, as contracts of functions that do nothing.
ghost use Rattle.std.specs.Prelude.{◌≡◌, ◌↔◌, ◌⊎◌, ℕ, List, None, Result, length};
ghost use Rattle.judgement_matrix.specs.Matrix.{Judgements, IsMatrix, IsSize};
ghost use Rattle.csv.specs.Reading.{strip_bom};
ghost use Rattle.integers.specs.Fraction.{Fraction};
ghost use Rattle.table_csv.specs.Table.{AreRecordsOf, fault_of, IsFaultless, table_matrix, Imports};
ghost use Rattle.table_csv.specs.Layout.{matrix_table, value_table};
ghost use Rattle.table_csv.specs.Lines.{lines_text, lines_of, AreLinesOf, IsTable};
ghost use Rattle.table_csv.specs.declared.fault.TableFault.{TableFault as Fault};

use crate::fault::TableFault;

/// States that a text has a list of records, and only one. It does nothing.
pub fn one_list_of_records()
    ensures some { (text : List ℕ) → (records : List (List (List ℕ))) × AreRecordsOf text records }
    ensures one { (text : List ℕ) (a b : List (List (List ℕ)))
        → AreRecordsOf text a → AreRecordsOf text b → a ≡ b }
{}

/// States that the lines of a table are a function of it. It does nothing.
pub fn one_list_of_lines()
    ensures { (table : List (List (List ℕ))) (lines : List (List ℕ))
        → AreLinesOf table lines → lines ≡ lines_of table }
{}

/// States that records have no fault exactly where they are a table of these names. It does nothing.
pub fn faultless_tables()
    ensures { (names : List (List ℕ)) (records : List (List (List ℕ)))
        → (fault_of names records ≡ None) ↔ IsFaultless names records }
{}

/// States that the table of a matrix has no fault, and holds the matrix. It does nothing.
pub fn exported_matrices_import()
    ensures { (names : List (List ℕ)) (m : Judgements) → IsMatrix m → m.size ≡ length names
        → (fault_of names (matrix_table names m) ≡ None)
        × (table_matrix names (matrix_table names m) ≡ m) }
{}

/// States that the lines of a matrix's table import as the matrix, but for want of memory. It does nothing.
pub fn exported_lines_import()
    ensures { (names : List (List ℕ)) (m : Judgements) (lines : List (List ℕ))
        (answer : Result Judgements Fault) → IsMatrix m → m.size ≡ length names
        → AreLinesOf (matrix_table names m) lines → Imports names (lines_text lines) answer
        → (answer ≡ Ok m) ⊎ (answer ≡ Err TableFault.NoMemory) }
{}

/// States that the tables of matrices and of values are read back from their lines. It does nothing.
pub fn tables_are_tables()
    ensures matrices { (names : List (List ℕ)) (m : Judgements)
        → IsSize (length names) → IsTable (matrix_table names m) }
    ensures values { (head : List ℕ) (names : List (List ℕ)) (values : List Fraction)
        → strip_bom head ≡ head → IsTable (value_table head names values) }
{}

/// States that records of at least one and at most as many rows as a matrix may have elements hold a matrix. It does nothing.
#[tactic(auto, using(crate::proofs::MatrixLemmas::IsMatrix_of_table))]
pub fn imported_matrices_are_matrices()
    ensures { (names : List (List ℕ)) (records : List (List (List ℕ)))
        → IsSize (length names) → IsMatrix (table_matrix names records) }
{}
