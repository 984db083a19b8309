//! Questions about one matrix, and about all.
ghost use Rattle.std.specs.Prelude.{◌≡◌, ◌+◌, ◌<◌, ◌≤◌, ◌∷◌, [], length, IfOk};
ghost use Rattle.std.specs.List.{range_with_len};
ghost use Rattle.session_state.specs.State.{AreResults};
ghost use Rattle.report_text.specs.Reply.{IsPrintable};
ghost use Rattle.session_state.specs.Taking.{IsSubject};
ghost use Rattle.session_edits.specs.Answer.{Replies};
ghost use Rattle.model_core.specs.Finding.{find_option};
ghost use Rattle.session_edits.specs.Scales.{Asks, AsksFrom, IsQuestionOf};
ghost use Rattle.session_edits.specs.Scores.{TellsScores, TellsSubtotals, WherePerformed, WhereWeighed, checked_subtotals, AsksAll, AsksAllFrom, WorksAll, checked_sum, IsSumOf};
ghost use Rattle.session_edits.specs.declared.refusal.TheConstants.{PERFORMANCE_MISSING};

use crate::NoMemory;
use crate::question::{Question, Sum};
use crate::refusal::{
    PERFORMANCE_MISSING, Stop, TOO_WIDE, UNKNOWN_CRITERION, UNKNOWN_OPTION, refused,
};
use crate::scales::told;
use crate::scores::{missing, scores_told, subtotals_told, take_worths};
use crate::session::Session;
use model_core::{Model, Name};
use report_text::{Detail, Reply};
use session_state::{Results, Subject};
use std::alloc::Global;
use value_scale::ScaleFault;

impl Session {
    /// Takes the basic scale of a matrix, and answers a question from it. The result is kept with
    /// the reply.
    pub(crate) fn ask(&mut self, subject: Subject, question: Question) -> Result<Reply, NoMemory>
        requires subject { IsSubject self.old.model subject }
        requires question { IsQuestionOf self.old.model subject question }
        ensures answer { Replies (Asks self.old question subject) self.old result self.new }
        ensures printable { IfOk result IsPrintable }
    {
        let mut results = self.state.results().copy(self.alloc)?;
        let model = self.state.model();
        let reply = asked(self.alloc, model, &mut results, subject, question)?;
        self.state.keep(results);
        Ok(reply)
    }
}

// Takes the basic scale of a matrix, and answers a question from it.
fn asked(
    alloc: Global,
    model: &Model,
    results: &mut Results,
    subject: Subject,
    question: Question,
) -> Result<Reply, NoMemory>
    requires subject { IsSubject model.now subject }
    requires question { IsQuestionOf model.now subject question }
    requires results { AreResults model.now results.old }
    ensures answer { IfOk result (λ r. AsksFrom model.now question subject
        results.old r results.new) }
    ensures printable { IfOk result IsPrintable }
    ensures results { AreResults model.now results.new }
{
    match results.take(alloc, model, subject) {
        Ok(taken) => told(alloc, model, subject, question, taken.basic()),
        Err(ScaleFault::TooWide) => Ok(refused(TOO_WIDE)),
        Err(ScaleFault::NoMemory) => Err(NoMemory),
    }
}

impl Session {
    /// The scores of all options.
    pub(crate) fn scores(&mut self) -> Result<Reply, NoMemory>
        ensures answer { Replies (TellsScores self.old) self.old result self.new }
        ensures printable { IfOk result IsPrintable }
    {
        if self.model().criteria() == 0 {
            return Ok(refused(UNKNOWN_CRITERION));
        }
        self.ask_all(0, self.model().options(), Sum::Scores)
    }

    /// The subtotals of an option.
    pub(crate) fn subtotals(&mut self, name: &Name) -> Result<Reply, NoMemory>
        ensures answer { Replies (TellsSubtotals self.old (find_option self.old.model name.now))
            self.old result self.new }
        ensures printable { IfOk result IsPrintable }
    {
        let Some(option) = self.model().find_option(name.as_bytes()) else {
            return Ok(refused(UNKNOWN_OPTION));
        };
        self.subtotals_of(option)
    }

    // The same of an option that is there.
    fn subtotals_of(&mut self, option: usize) -> Result<Reply, NoMemory>
        requires { option < length self.old.model.options }
        ensures answer { Replies
            (WhereWeighed self.old (option ∷ []) (checked_subtotals self.old.model option))
            self.old result self.new }
        ensures printable { IfOk result IsPrintable }
    {
        if self.model().criteria() == 0 {
            return Ok(refused(UNKNOWN_CRITERION));
        }
        self.ask_all(option, 1, Sum::Subtotals(option))
    }

    // Takes what scores need of all criteria and the weighting, where so many options from one on
    // perform on each criterion.
    fn ask_all(&mut self, first: usize, count: usize, sum: Sum) -> Result<Reply, NoMemory>
        requires some { IsSubject self.old.model Subject.Weighting }
        requires options { first + count ≤ length self.old.model.options }
        requires sum { IsSumOf self.old.model sum }
        ensures answer { Replies (WherePerformed self.old (range_with_len first count)
            (checked_sum self.old.model sum)) self.old result self.new }
        ensures printable { IfOk result IsPrintable }
    {
        match missing(self.state.model(), first, count)? {
            Some(detail) => Ok(missing_performance(detail)),
            None => self.sum_up(sum),
        }
    }

    // The same where nothing is missing.
    fn sum_up(&mut self, sum: Sum) -> Result<Reply, NoMemory>
        requires some { IsSubject self.old.model Subject.Weighting }
        requires sum { IsSumOf self.old.model sum }
        ensures answer { Replies (AsksAll self.old (checked_sum self.old.model sum))
            self.old result self.new }
        ensures printable { IfOk result IsPrintable }
    {
        let mut results = self.state.results().copy(self.alloc)?;
        let model = self.state.model();
        let reply = summed(self.alloc, model, &mut results, sum)?;
        self.state.keep(results);
        Ok(reply)
    }
}

// What all criteria and the weighting give, or the refusal at which that stops.
fn summed(alloc: Global, model: &Model, results: &mut Results, sum: Sum) -> Result<Reply, NoMemory>
    requires some { IsSubject model.now Subject.Weighting }
    requires sum { IsSumOf model.now sum }
    requires results { AreResults model.now results.old }
    ensures answer { IfOk result (λ r. AsksAllFrom model.now (checked_sum model.now sum)
        results.old r results.new) }
    ensures printable { IfOk result IsPrintable }
    ensures results { AreResults model.now results.new }
{
    match worked(alloc, model, results, sum) {
        Ok(reply) => Ok(reply),
        Err(Stop::Refused(reply)) => Ok(reply),
        Err(Stop::NoMemory) => Err(NoMemory),
    }
}

// What all criteria and the weighting give, taken in order.
fn worked(alloc: Global, model: &Model, results: &mut Results, sum: Sum) -> Result<Reply, Stop>
    requires some { IsSubject model.now Subject.Weighting }
    requires sum { IsSumOf model.now sum }
    requires results { AreResults model.now results.old }
    ensures value { WorksAll model.now (checked_sum model.now sum) results.old result results.new }
    ensures printable { IfOk result IsPrintable }
    ensures results { AreResults model.now results.new }
{
    let worths = take_worths(alloc, model, results)?;
    match sum {
        Sum::Scores => scores_told(alloc, model, &worths),
        Sum::Subtotals(option) => subtotals_told(alloc, model, option, &worths),
    }
}

// A performance is missing.
fn missing_performance(detail: Detail) -> Reply
    ensures value { result ≡ Reply.Refused PERFORMANCE_MISSING detail }
    ensures printable { IsPrintable result }
{
    Reply::Refused {
        number: PERFORMANCE_MISSING,
        detail,
    }
}
