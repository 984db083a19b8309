//! The commands that change the model.
ghost use Rattle.std.specs.Prelude.{◌≡◌, IfOk, OnErr, MatchOption, None, Some, Result as Answer};
ghost use Rattle.model_core.specs.Edits.{Edits, Edit};
ghost use Rattle.report_text.specs.Reply.{IsPrintable};
ghost use Rattle.session_edits.specs.Edits.{edit_of, MakesEdit, AnswersEdit, AnswersUndo};
ghost use Rattle.session_edits.specs.Answer.{Replies};

use crate::NoMemory;
use crate::refusal::{NOTHING_TO_UNDO, number_of, refused};
use crate::session::Session;
use command_read::Command;
use model_core::{EditFault, Model, Name};
use report_text::Reply;
use std::alloc::Global;

impl Session {
    /// Does an edit. A refused one, and want of memory, leave the session as it was.
    pub(crate) fn edit(&mut self, command: &Command) -> Result<Reply, NoMemory>
        ensures answer { (edit : Edit) → edit_of command.now ≡ Some edit
            → Replies (AnswersEdit self.old edit) self.old result self.new }
        ensures printable { IfOk result IsPrintable }
    {
        let mut model = self.state.scratch()?;
        let outcome = make(self.alloc, &mut model, command);
        self.settle(model, outcome)
    }

    /// Goes on to the model that an edit gave, which is the present one where the edit was refused.
    pub(crate) fn settle(
        &mut self,
        model: Model,
        outcome: Result<(), EditFault>,
    ) -> Result<Reply, NoMemory>
        requires { OnErr outcome (model ≡ self.old.model) }
        ensures answer { (edit : Edit) → Edits self.old.model edit outcome model
            → Replies (AnswersEdit self.old edit) self.old result self.new }
        ensures printable { IfOk result IsPrintable }
    {
        match outcome {
            Ok(()) => {
                self.state.change_to(model)?;
                Ok(Reply::Ok)
            }
            Err(EditFault::NoMemory) => {
                self.state.give_back(model);
                Err(NoMemory)
            }
            Err(fault) => {
                self.state.give_back(model);
                Ok(refused(number_of(fault)))
            }
        }
    }

    /// Takes the newest model of the history back.
    pub(crate) fn undo(&mut self) -> Result<Reply, NoMemory>
        ensures answer { Replies (AnswersUndo self.old) self.old result self.new }
        ensures printable { IfOk result IsPrintable }
    {
        if self.state.undo()? {
            Ok(Reply::Ok)
        } else {
            Ok(refused(NOTHING_TO_UNDO))
        }
    }
}

// Does an edit of a model. A command that is no edit leaves it as it is.
fn make(alloc: Global, model: &mut Model, command: &Command) -> Result<(), EditFault>
    ensures { MakesEdit (edit_of command.now) model.old result model.new }
{
    match command {
        Command::Option(name) => model.add_option(name.copy()?),
        Command::DropOption(name) => model.drop_option(name.as_bytes()),
        Command::Criterion(name, elements) => {
            let elements = copied(alloc, elements.as_slice())?;
            model.add_criterion(name.as_name().copy()?, elements)
        }
        Command::DropCriterion(name) => model.drop_criterion(name.as_bytes()),
        Command::Refs(name, good, neutral) => {
            model.set_refs(name.as_bytes(), good.as_bytes(), neutral.as_bytes())
        }
        Command::Judge(name, x, y, range) => {
            model.judge(name.as_bytes(), x.as_bytes(), y.as_bytes(), *range)
        }
        Command::Unjudge(name, x, y) => {
            model.unjudge(name.as_bytes(), x.as_bytes(), y.as_bytes())
        }
        Command::Perform(option, name, element) => {
            model.perform(option.as_bytes(), name.as_bytes(), element.as_bytes())
        }
        Command::WeighOrder(names) => model.set_order(names.as_slice()),
        Command::Weigh(x, y, range) => model.weigh(x.as_bytes(), y.as_bytes(), *range),
        Command::Unweigh(x, y) => model.unweigh(x.as_bytes(), y.as_bytes()),
        Command::Reach(name, reach) => model.set_reach(name.as_bytes(), reach.get()),
        Command::Group(name, parent) => {
            let parent = copied_name(parent)?;
            model.add_group(name.copy()?, parent)
        }
        Command::DropGroup(name) => model.drop_group(name.as_bytes()),
        Command::Place(name, group) => model.place(name.as_bytes(), Some(group.as_bytes())),
        Command::Unplace(name) => model.place(name.as_bytes(), None),
        _ => Ok(()),
    }
}

// The same names.
fn copied(alloc: Global, names: &[Name]) -> Result<Vec<Name>, NoMemory>
    ensures { IfOk result (λ copy. copy.items ≡ names.now) }
{
    let mut copy = Vec::new(alloc);
    for name in names {
        copy.push(name.copy()?)?;
    }
    Ok(copy)
}

// The same name, where there is one.
fn copied_name(name: &Option<Name>) -> Result<Option<Name>, NoMemory>
    ensures { IfOk result (λ copy. copy ≡ name.now) }
{
    match name {
        Some(name) => Ok(Some(name.copy()?)),
        None => Ok(None),
    }
}
