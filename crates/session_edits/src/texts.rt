//! The commands about whole texts: a model as JSON, judgements and values as tables.
ghost use Rattle.std.specs.Prelude.{◌≡◌, All, length, map, Some, IfOk, IfSome, IsTrue, OnOk, OnErr};
ghost use Rattle.report_text.specs.Reply.{IsPrintable};
ghost use Rattle.model_core.specs.Edits.{set_matrix};
ghost use Rattle.model_core.specs.Finding.{matrix_size};
ghost use Rattle.table_csv.specs.Layout.{value_table};
ghost use Rattle.table_csv.specs.Lines.{rows, is_line};
ghost use Rattle.session_state.specs.State.{AreResults, with_results};
ghost use Rattle.session_state.specs.Taking.{IsSubject};
ghost use Rattle.session_edits.specs.Answer.{Replies, Of};
ghost use Rattle.session_edits.specs.Edits.{AnswersEdit, OfBlock};
ghost use Rattle.session_edits.specs.Scales.{Asks};
ghost use Rattle.session_edits.specs.Scores.{TellsScores};
ghost use Rattle.session_edits.specs.Subjects.{matrix_named};
ghost use Rattle.session_edits.specs.Texts.{ReadsModel, ReadsTable, ImportsInto, dump_reply, lines_between, csv_reply, judged_table, table_reply, AsTable};

use crate::NoMemory;
use crate::names::names_of;
use crate::question::Question;
use crate::refusal::{BAD_JSON, BAD_MODEL, BLOCK_CUT, BLOCK_TOO_LARGE, UNKNOWN_CRITERION, refused};
use crate::session::Session;
use command_read::Held;
use frac128::{Frac, List};
use judgement_matrix::{LIMIT, Matrix};
use model_core::laws::what_a_model_keeps;
use model_core::{Model, Name, Text};
use model_json::{LoadFault, dump, load};
use report_text::{Detail, Reply};
use session_state::{Results, Subject};
use std::alloc::Global;
use table_csv::{TableFault, export, import_matrix, matrix_table, text_from, value_table};

// ---- `load` and `dump`

impl Session {
    /// Goes on to the model that the text of a block is.
    pub(crate) fn load(&mut self, block: &Held) -> Result<Reply, NoMemory>
        ensures answer { Replies (OfBlock self.old block.now (ReadsModel self.old))
            self.old result self.new }
        ensures printable { IfOk result IsPrintable }
    {
        match block {
            Held::Whole(bytes) => self.load_text(bytes.as_slice()),
            Held::Cut => Ok(refused(BLOCK_CUT)),
            Held::Large => Ok(refused(BLOCK_TOO_LARGE)),
        }
    }

    // The same of a text.
    fn load_text(&mut self, bytes: &[u8]) -> Result<Reply, NoMemory>
        ensures answer { Replies (ReadsModel self.old bytes.now) self.old result self.new }
        ensures printable { IfOk result IsPrintable }
    {
        match load(self.alloc, bytes) {
            Ok(model) => {
                self.state.change_to(model)?;
                Ok(Reply::Ok)
            }
            Err(LoadFault::BadJson) => Ok(refused(BAD_JSON)),
            Err(LoadFault::BadModel(pointer)) => Ok(bad_model(Detail::At(pointer))),
            Err(LoadFault::NoMemory) => Err(NoMemory),
        }
    }
}

// A text isn't a model or a table.
fn bad_model(detail: Detail) -> Reply
    ensures value { result ≡ Reply.Refused BAD_MODEL detail }
    ensures printable { IsPrintable result }
{
    Reply::Refused {
        number: BAD_MODEL,
        detail,
    }
}

/// The model as JSON.
pub(crate) fn dump_reply(alloc: Global, model: &Model) -> Result<Reply, NoMemory>
    ensures value { IfOk result (λ r. r ≡ dump_reply model.now) }
    ensures printable { IfOk result IsPrintable }
{
    let text = dump(alloc, model)?;
    Ok(Reply::Dump {
        lines: lines_of(alloc, text.as_str())?,
    })
}

// The lines of a text: what stands between its newlines.
fn lines_of(alloc: Global, text: &str) -> Result<List<Text>, NoMemory>
    ensures { IfOk result (λ some. some ≡ lines_between text.now) }
{
    let pieces = pieces_of(alloc, text)?;
    texts_of(alloc, &pieces)
}

fn pieces_of<'t>(alloc: Global, text: &'t str) -> Result<Vec<&'t str>, NoMemory>
    ensures { IfOk result (λ pieces. map (λ piece. piece.now) pieces.items ≡ lines_between text.now) }
{
    text.split('\n').collect(alloc)
}

// Pieces without a newline as texts.
fn texts_of(alloc: Global, pieces: &[&str]) -> Result<List<Text>, NoMemory>
    requires { All (λ piece. IsTrue (is_line piece.now)) pieces.now }
    ensures { IfOk result (λ some. some ≡ map (λ piece. piece.now) pieces.now) }
{
    let mut some = Vec::new(alloc);
    for piece in pieces {
        some.push(text_from(alloc, piece)?)?;
    }
    Ok(List::make(some))
}

// ---- `import`

impl Session {
    /// Puts the matrix of a table in the place of the one of this name.
    pub(crate) fn import(&mut self, name: &Name, block: &Held) -> Result<Reply, NoMemory>
        ensures answer { Replies (Of self.old (matrix_named self.old.model name.now)
            (ImportsInto self.old name.now block.now)) self.old result self.new }
        ensures printable { IfOk result IsPrintable }
    {
        let Some(subject) = self.matrix_named(name) else {
            return Ok(refused(UNKNOWN_CRITERION));
        };
        match block {
            Held::Whole(bytes) => self.import_table(name, subject, bytes.as_slice()),
            Held::Cut => Ok(refused(BLOCK_CUT)),
            Held::Large => Ok(refused(BLOCK_TOO_LARGE)),
        }
    }

    // The same of a text.
    fn import_table(
        &mut self,
        name: &Name,
        subject: Subject,
        bytes: &[u8],
    ) -> Result<Reply, NoMemory>
        requires subject { IsSubject self.old.model subject }
        requires named { matrix_named self.old.model name.now ≡ Some subject }
        ensures answer { Replies (ReadsTable self.old name.now subject bytes.now)
            self.old result self.new }
        ensures printable { IfOk result IsPrintable }
    {
        let names = names_of(self.alloc, self.state.model(), subject)?;
        // For the proofs alone: the order of the weighting holds each criterion, and a matrix has as
        // many elements as it may have.
        what_a_model_keeps(self.state.model());
        prove!(subject.matrix(self.state.model()).size() <= LIMIT);
        match import_matrix(self.alloc, bytes, names.as_slice()) {
            Ok(matrix) => self.set_matrix(name, matrix),
            Err(TableFault::BadTable { line, field }) => Ok(bad_model(Detail::Cell(line, field))),
            Err(TableFault::NoMemory) => Err(NoMemory),
        }
    }

    // Puts a matrix in the place of the one of this name.
    fn set_matrix(&mut self, name: &Name, matrix: Matrix) -> Result<Reply, NoMemory>
        requires { IfSome (matrix_size self.old.model name.now) (λ size. matrix.size ≡ size) }
        ensures answer { Replies (AnswersEdit self.old (set_matrix name.now matrix))
            self.old result self.new }
        ensures printable { IfOk result IsPrintable }
    {
        let mut model = self.state.scratch()?;
        let outcome = model.set_matrix(name.as_bytes(), matrix);
        self.settle(model, outcome)
    }
}

// ---- `export`

// A table, line by line.
fn csv_reply(alloc: Global, table: &[Vec<Text>]) -> Result<Reply, NoMemory>
    ensures value { IfOk result (λ r. r ≡ csv_reply (rows table.now)) }
    ensures printable { IfOk result IsPrintable }
{
    Ok(Reply::Csv {
        lines: List::make(export(alloc, table)?),
    })
}

/// The judgements of a matrix as a table.
pub(crate) fn judged_table(
    alloc: Global,
    model: &Model,
    subject: Subject,
) -> Result<Reply, NoMemory>
    requires { IsSubject model.now subject }
    ensures value { IfOk result (λ r. r ≡ judged_table model.now subject) }
    ensures printable { IfOk result IsPrintable }
{
    let names = names_of(alloc, model, subject)?;
    let table = matrix_table(alloc, names.as_slice(), subject.matrix(model))?;
    csv_reply(alloc, &table)
}

// The table of the values that a reply shows.
fn table_reply(alloc: Global, shown: Reply) -> Result<Reply, NoMemory>
    requires { IsPrintable shown }
    ensures value { IfOk result (λ r. r ≡ table_reply shown) }
    ensures printable { IfOk result IsPrintable }
{
    match shown {
        Reply::Anchored { names, values } => values_reply(alloc, "element", &names, &values),
        Reply::Weights { names, values } => values_reply(alloc, "criterion", &names, &values),
        Reply::Scores { names, values } => values_reply(alloc, "option", &names, &values),
        other => Ok(other),
    }
}

// The table of values beside their names.
fn values_reply(
    alloc: Global,
    head: &str,
    names: &List<Name>,
    values: &List<Frac>,
) -> Result<Reply, NoMemory>
    requires head { IsTrue (is_line head.now) }
    requires each { length values.now ≡ length names.now }
    ensures value { IfOk result
        (λ r. r ≡ csv_reply (value_table head.now names.now values.now)) }
    ensures printable { IfOk result IsPrintable }
{
    let table = value_table(alloc, head, names.as_slice(), values.as_slice())?;
    csv_reply(alloc, &table)
}

impl Session {
    /// The anchored scale of a criterion or the weights as a table.
    pub(crate) fn export_worth(&mut self, subject: Option<Subject>) -> Result<Reply, NoMemory>
        requires { IfSome subject (IsSubject self.old.model) }
        ensures answer { Replies (AsTable (Of self.old subject (Asks self.old Question.Worth)))
            self.old result self.new }
        ensures printable { IfOk result IsPrintable }
    {
        let before = self.state.results().copy(self.alloc)?;
        let shown = self.ask_of(subject, Question::Worth)?;
        self.as_table(shown, before)
    }

    /// The scores as a table.
    pub(crate) fn export_scores(&mut self) -> Result<Reply, NoMemory>
        ensures answer { Replies (AsTable (TellsScores self.old)) self.old result self.new }
        ensures printable { IfOk result IsPrintable }
    {
        let before = self.state.results().copy(self.alloc)?;
        let shown = self.scores()?;
        self.as_table(shown, before)
    }

    // What a query showed, as a table. Without memory for it the results are those before the
    // query.
    fn as_table(&mut self, shown: Reply, before: Results) -> Result<Reply, NoMemory>
        requires printable { IsPrintable shown }
        requires results { AreResults self.old.model before }
        ensures ok { OnOk result (self.new ≡ self.old) }
        ensures value { IfOk result (λ r. r ≡ table_reply shown) }
        ensures printable { IfOk result IsPrintable }
        ensures err { OnErr result (self.new ≡ with_results self.old before) }
    {
        match table_reply(self.alloc, shown) {
            Ok(table) => Ok(table),
            Err(none) => {
                self.state.keep(before);
                Err(none)
            }
        }
    }
}
