//! The commands that a session doesn't do yet.
ghost use Rattle.std.specs.Prelude.{◌≡◌};
ghost use Rattle.command_read.specs.Later.{is_done_later};

use crate::command::Command;

/// Whether the command is one that a session doesn't do yet. A session refuses it as it does an unknown one, after all that is
/// refused from the line alone.
pub fn is_done_later(command: &Command) -> bool
    ensures { result ≡ is_done_later command.now }
{
    match command {
        Command::Repairs(_)
        | Command::Wrepairs
        | Command::Dominance(..)
        | Command::Dcert(..)
        | Command::Dominances => true,
        _ => false,
    }
}
