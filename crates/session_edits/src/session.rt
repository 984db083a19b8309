//! A session: its state, and what a command does to it.
ghost use Rattle.std.specs.Prelude.{◌≡◌, ◌<◌, ◌≤◌, length, IfOk, IfSome, IsTrue, option_copied};
ghost use Rattle.command_read.specs.Parts.{ends_in_zero};
ghost use Rattle.report_text.specs.Reply.{IsPrintable};
ghost use Rattle.session_state.specs.State.{kept_of, kept_count, start_state};
ghost use Rattle.session_state.specs.Taking.{IsSubject};
ghost use Rattle.session_edits.specs.Answer.{Answer, Replies, Of, AsksSlack, element_named};
ghost use Rattle.model_core.specs.Finding.{criterion_at};
ghost use Rattle.session_edits.specs.Matrices.{ReadsCertificate};
ghost use Rattle.session_edits.specs.Scales.{Asks, IsQuestionOf};
ghost use Rattle.session_edits.specs.Subjects.{criterion_named, weighting_of, matrix_named};

use crate::NoMemory;
use crate::groups::groups_reply;
use crate::matrices::{fit_reply, matrix_reply, rows_reply};
use crate::question::Question;
use crate::refusal::{
    BLOCK_CUT, BLOCK_TOO_LARGE, UNKNOWN_COMMAND, UNKNOWN_CRITERION, UNKNOWN_ELEMENT, WRONG_COUNT,
    refused,
};
use crate::texts::{dump_reply, judged_table};
use crate::verify::text_reply;
use command_read::{Command, Held, is_done_later};
use frac128::Frac;
use model_core::laws::what_a_criterion_keeps;
use model_core::{Model, Name};
use report_text::Reply;
use session_state::{State, Subject};
use std::alloc::Global;
use value_scale::Basic;

/// The model of a session, the models before it, and the basic scales that are kept.
#[derive(Drop)]
pub struct Session {
    pub(crate) alloc: Global,
    pub(crate) state: State,
}

impl std::marker::Model for Session {
    ghost use Rattle.session_state.specs.State.{SessionState};

    ghost Value = { SessionState };

    ghost view = { λ s. s.state };
}

impl Session {
    /// A session with an empty model, nothing to undo and no results.
    pub fn start(alloc: Global) -> Result<Session, NoMemory>
        ensures { IfOk result (λ session. session ≡ start_state) }
    {
        Ok(Session {
            alloc,
            state: State::start(alloc)?,
        })
    }

    /// The model.
    pub fn model(&self) -> &Model
        ensures { result.now ≡ self.now.model }
    {
        self.state.model()
    }

    /// How many edits can be undone.
    pub fn undo_steps(&self) -> usize
        ensures { result ≡ length self.now.history }
    {
        self.state.undo_steps()
    }

    /// How many pivots were made for queries.
    pub fn pivots(&self) -> u64
        ensures { result ≡ self.now.results.pivots }
    {
        self.state.results().pivots()
    }

    /// The result that is kept of a criterion.
    pub fn kept(&self, criterion: usize) -> Option<&Basic>
        requires { criterion < length self.now.model.criteria }
        ensures { option_copied result ≡ kept_of self.now.results (Subject.Criterion criterion) }
    {
        self.state.results().kept(Subject::Criterion(criterion))
    }

    /// The result that is kept of the weighting.
    pub fn kept_weighting(&self) -> Option<&Basic>
        ensures { option_copied result ≡ kept_of self.now.results Subject.Weighting }
    {
        self.state.results().kept(Subject::Weighting)
    }

    /// Does what a command says. A refusal leaves the model and the history as they were, and want of
    /// memory leaves all.
    pub fn apply(&mut self, command: &Command) -> Result<Reply, NoMemory>
        ensures answer { Replies (Answer self.old command.now) self.old result self.new }
        ensures printable { IfOk result IsPrintable }
    {
        if is_done_later(command) {
            return Ok(refused(UNKNOWN_COMMAND));
        }
        match command {
            Command::Undo => self.undo(),
            Command::Matrix(name) => self.matrix(name),
            Command::Rows(name) => self.rows(name),
            Command::Fits(name, values) => self.fits(name, values.as_slice()),
            Command::Verify(name, block) => self.verify(name, block),
            Command::Scale(name) => self.ask_of(self.criterion_named(name), Question::Scale),
            Command::Cert(name) => self.ask_of(self.criterion_named(name), Question::Cert),
            Command::Anchored(name) => self.ask_of(self.criterion_named(name), Question::Worth),
            Command::Slack(name, element) => self.slack(name, element),
            Command::Weights => self.ask_of(self.weighting(), Question::Worth),
            Command::Wcert => self.ask_of(self.weighting(), Question::Cert),
            Command::Scores => self.scores(),
            Command::Subtotals(name) => self.subtotals(name),
            Command::Groups => groups_reply(self.alloc, self.state.model()),
            Command::Stats => Ok(self.stats()),
            Command::Quit => Ok(Reply::Ok),
            Command::Load(block) => self.load(block),
            Command::Dump => dump_reply(self.alloc, self.state.model()),
            Command::Import(name, block) => self.import(name, block),
            Command::ExportMatrix(name) => self.export_matrix(name),
            Command::ExportAnchored(name) => self.export_worth(self.criterion_named(name)),
            Command::ExportWeights => self.export_worth(self.weighting()),
            Command::ExportScores => self.export_scores(),
            _ => self.edit(command),
        }
    }

    // The criterion of this name.
    fn criterion_named(&self, name: &Name) -> Option<Subject>
        ensures subject { result ≡ criterion_named self.now.model name.now }
        ensures is { IfSome result (IsSubject self.now.model) }
    {
        match self.model().find_criterion(name.as_bytes()) {
            Some(at) => Some(Subject::Criterion(at)),
            None => None,
        }
    }

    // The weighting, where there is a criterion.
    fn weighting(&self) -> Option<Subject>
        ensures subject { result ≡ weighting_of self.now.model }
        ensures is { IfSome result (IsSubject self.now.model) }
    {
        if self.model().criteria() > 0 {
            Some(Subject::Weighting)
        } else {
            None
        }
    }

    /// The criterion of this name, or for `weighting` the weighting.
    pub(crate) fn matrix_named(&self, name: &Name) -> Option<Subject>
        ensures subject { result ≡ matrix_named self.now.model name.now }
        ensures is { IfSome result (IsSubject self.now.model) }
    {
        if name.as_bytes() == b"weighting".as_slice() {
            self.weighting()
        } else {
            self.criterion_named(name)
        }
    }

    // The judged pairs of a matrix.
    fn matrix(&self, name: &Name) -> Result<Reply, NoMemory>
        ensures answer { Replies (Answer self.now (Command.Matrix name.now))
            self.now result self.now }
        ensures printable { IfOk result IsPrintable }
    {
        match self.matrix_named(name) {
            Some(subject) => matrix_reply(self.alloc, self.model(), subject),
            None => Ok(refused(UNKNOWN_CRITERION)),
        }
    }

    // The judged pairs of a matrix as a table.
    fn export_matrix(&self, name: &Name) -> Result<Reply, NoMemory>
        ensures answer { Replies (Answer self.now (Command.ExportMatrix name.now))
            self.now result self.now }
        ensures printable { IfOk result IsPrintable }
    {
        match self.matrix_named(name) {
            Some(subject) => judged_table(self.alloc, self.model(), subject),
            None => Ok(refused(UNKNOWN_CRITERION)),
        }
    }

    // The rows of a matrix.
    fn rows(&self, name: &Name) -> Result<Reply, NoMemory>
        ensures answer { Replies (Answer self.now (Command.Rows name.now))
            self.now result self.now }
        ensures printable { IfOk result IsPrintable }
    {
        match self.matrix_named(name) {
            Some(subject) => rows_reply(self.alloc, self.model(), subject),
            None => Ok(refused(UNKNOWN_CRITERION)),
        }
    }

    // Whether values meet a matrix.
    fn fits(&self, name: &Name, values: &[Frac]) -> Result<Reply, NoMemory>
        requires { IsTrue (ends_in_zero values.now) }
        ensures answer { Replies (Answer self.now (Command.Fits name.now values.now))
            self.now result self.now }
        ensures printable { IfOk result IsPrintable }
    {
        let Some(subject) = self.matrix_named(name) else {
            return Ok(refused(UNKNOWN_CRITERION));
        };
        if values.len() == subject.matrix(self.model()).size() {
            fit_reply(self.alloc, self.model(), subject, values)
        } else {
            Ok(refused(WRONG_COUNT))
        }
    }

    // Whether a certificate holds of a matrix.
    fn verify(&self, name: &Name, block: &Held) -> Result<Reply, NoMemory>
        ensures answer { Replies (Answer self.now (Command.Verify name.now block.now))
            self.now result self.now }
        ensures printable { IfOk result IsPrintable }
    {
        let Some(subject) = self.matrix_named(name) else {
            return Ok(refused(UNKNOWN_CRITERION));
        };
        match block {
            Held::Whole(bytes) => self.verify_text(subject, bytes.as_slice()),
            Held::Cut => Ok(refused(BLOCK_CUT)),
            Held::Large => Ok(refused(BLOCK_TOO_LARGE)),
        }
    }

    // The same of its text.
    fn verify_text(&self, subject: Subject, bytes: &[u8]) -> Result<Reply, NoMemory>
        requires { IsSubject self.now.model subject }
        ensures answer { Replies (ReadsCertificate self.now subject bytes.now)
            self.now result self.now }
        ensures printable { IfOk result IsPrintable }
    {
        text_reply(self.alloc, subject.matrix(self.model()), bytes)
    }

    /// A question about a matrix, where there is that matrix.
    pub(crate) fn ask_of(
        &mut self,
        subject: Option<Subject>,
        question: Question,
    ) -> Result<Reply, NoMemory>
        requires subject { IfSome subject (IsSubject self.old.model) }
        requires question { IfSome subject
            (λ subject. IsQuestionOf self.old.model subject question) }
        ensures answer { Replies (Of self.old subject (Asks self.old question))
            self.old result self.new }
        ensures printable { IfOk result IsPrintable }
    {
        match subject {
            Some(subject) => self.ask(subject, question),
            None => Ok(refused(UNKNOWN_CRITERION)),
        }
    }

    // The room of an element.
    fn slack(&mut self, name: &Name, element: &Name) -> Result<Reply, NoMemory>
        ensures answer { Replies
            (Of self.old (criterion_named self.old.model name.now) (AsksSlack self.old element.now))
            self.old result self.new }
        ensures printable { IfOk result IsPrintable }
    {
        match self.model().find_criterion(name.as_bytes()) {
            Some(at) => self.slack_of(at, element),
            None => Ok(refused(UNKNOWN_CRITERION)),
        }
    }

    // The same for a criterion that is there.
    fn slack_of(&mut self, at: usize, element: &Name) -> Result<Reply, NoMemory>
        requires { at < length self.old.model.criteria }
        ensures answer { Replies (AsksSlack self.old element.now (Subject.Criterion at))
            self.old result self.new }
        ensures printable { IfOk result IsPrintable }
    {
        match self.element_named(at, element) {
            Some(element) => self.ask(Subject::Criterion(at), Question::Slack(element)),
            None => Ok(refused(UNKNOWN_ELEMENT)),
        }
    }

    // Where an element of a criterion stands.
    fn element_named(&self, at: usize, element: &Name) -> Option<usize>
        requires { at < length self.now.model.criteria }
        ensures place { result ≡ element_named self.now (Subject.Criterion at) element.now }
        ensures within { IfSome result
            (λ e. (1 ≤ e) × (e ≤ (criterion_at self.now.model at).matrix.size)) }
    {
        let criterion = self.model().criterion(at);
        // For the proofs alone: its matrix has its elements.
        what_a_criterion_keeps(criterion);
        criterion.find_element(element.as_bytes())
    }

    // How many pivots were made, and how many results are kept.
    fn stats(&self) -> Reply
        ensures answer { result
            ≡ Reply.Stats self.now.results.pivots (kept_count self.now.results) }
        ensures printable { IsPrintable result }
    {
        Reply::Stats {
            pivots: self.pivots(),
            kept: self.state.results().count(),
        }
    }
}
