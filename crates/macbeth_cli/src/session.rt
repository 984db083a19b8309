//! A session as a service.
ghost use Rattle.std.specs.Prelude.{◌≡◌, IfOk, true};
ghost use Rattle.command_read.specs.Blocks.{held_of};
ghost use Rattle.command_read.specs.Reading.{command_of};
ghost use Rattle.report_text.specs.Reply.{IsPrintable, reply_text};
ghost use Rattle.session_state.specs.State.{start_state};
ghost use Rattle.macbeth_cli.specs.Session.{session_rules, parsed_entry, AnswersParsed, is_quit, ends_session, HasRefusal};
ghost use Rattle.macbeth_cli.specs.SessionLaw.{session_begins, session_keeps, session_total};

use command_read::laws::readings;
use command_read::{Block, Command, Parsed, read_command, takes_block};
use report_text::{Reply, text};
use session_edits::{LINE_TOO_LONG, Session, refused};
use std::alloc::Global;
use std::marker::Model;
use transcript::{Answered, Entry, NoMemory, Service, Shape};

/// A session that answers entries.
#[derive(Drop)]
pub struct SessionMode {
    session: Session,
}

impl Model for SessionMode {
    ghost use Rattle.session_state.specs.State.{SessionState};

    ghost Value = { SessionState };

    ghost view = { λ m. m.session };
}

impl Service for SessionMode {
    ghost rules = { session_rules };

    ghost first = { start_state };

    fn start(alloc: Global) -> Result<SessionMode, NoMemory> {
        Ok(SessionMode {
            session: Session::start(alloc)?,
        })
    }

    fn takes_block(line: &[u8]) -> bool {
        takes_block(line)
    }

    fn answer(&mut self, alloc: Global, entry: &Entry) -> Result<Answered, NoMemory> {
        answer_entry(alloc, &mut self.session, entry)
    }

    ghost begins = { session_begins };

    ghost keeps = { session_keeps };

    ghost total = { session_total };
}

/// Answers an entry.
fn answer_entry(alloc: Global, session: &mut Session, entry: &Entry) -> Result<Answered, NoMemory>
    ensures text { IfOk result (λ answered.
        AnswersParsed session.old (parsed_entry entry.now) answered.text.items session.new) }
    ensures ends { IfOk result (λ answered. answered.ends ≡ is_quit (parsed_entry entry.now)) }
{
    let parsed = read_entry(alloc, entry)?;
    let answered = answer_parsed(alloc, session, &parsed);
    drop(parsed);
    answered
}

/// What an entry asks for.
fn read_entry(alloc: Global, entry: &Entry) -> Result<Parsed, NoMemory>
    ensures parsed { IfOk result (λ parsed. parsed ≡ parsed_entry entry.now) }
    ensures number { IfOk result HasRefusal }
{
    match entry.shape() {
        Shape::TooLong => Ok(Parsed::Refused(LINE_TOO_LONG)),
        Shape::Line(line) => read_line(alloc, line, Block::Absent),
        Shape::Whole(line, block) => read_line(alloc, line, Block::Whole(block)),
        Shape::Cut(line) => read_line(alloc, line, Block::Cut),
        Shape::Large(line) => read_line(alloc, line, Block::Large),
    }
}

// What a line with this block asks for.
fn read_line(alloc: Global, line: &[u8], block: Block<'_>) -> Result<Parsed, NoMemory>
    ensures parsed { IfOk result (λ parsed. parsed ≡ command_of line.now (held_of block.entry)) }
    ensures number { IfOk result HasRefusal }
{
    // For the proofs alone: a refusal has a number from 2 to 7.
    readings();
    read_command(alloc, line, block)
}

/// Answers what was read.
fn answer_parsed(
    alloc: Global,
    session: &mut Session,
    parsed: &Parsed,
) -> Result<Answered, NoMemory>
    requires { HasRefusal parsed.now }
    ensures text { IfOk result (λ answered.
        AnswersParsed session.old parsed.now answered.text.items session.new) }
    ensures ends { IfOk result (λ answered. answered.ends ≡ is_quit parsed.now) }
{
    match parsed {
        Parsed::Nothing => Ok(Answered {
            text: Vec::new(alloc),
            ends: false,
        }),
        Parsed::Refused(number) => Ok(Answered {
            text: told(alloc, refused(*number))?,
            ends: false,
        }),
        Parsed::Do(command) => obey(alloc, session, command),
    }
}

/// Does a command.
fn obey(alloc: Global, session: &mut Session, command: &Command) -> Result<Answered, NoMemory>
    ensures text { IfOk result (λ answered.
        AnswersParsed session.old (Parsed.Do command.now) answered.text.items session.new) }
    ensures ends { IfOk result (λ answered. answered.ends ≡ ends_session command.now) }
{
    let reply = session.apply(command)?;
    Ok(Answered {
        text: told(alloc, reply)?,
        ends: matches!(command, Command::Quit),
    })
}

/// The bytes of a reply.
fn told(alloc: Global, reply: Reply) -> Result<Vec<u8>, NoMemory>
    requires { IsPrintable reply }
    ensures { IfOk result (λ bytes. bytes.items ≡ reply_text reply) }
{
    let text = text(alloc, &reply);
    drop(reply);
    Ok(text?.into_bytes())
}
