//! The exit status of the process.
ghost use Rattle.macbeth_cli.specs.Code.{code_of};
ghost use Rattle.std.specs.Prelude.{◌≡◌};

use transcript::Status;

/// The exit status of a run that ended so.
pub fn exit_code(status: Status) -> u8
    ensures { result ≡ code_of status }
{
    match status {
        Status::Done => 0,
        Status::BadWords => 2,
        Status::ReadFault => 3,
        Status::WriteFault => 4,
        Status::NoMemory => 5,
        Status::InputLimit => 6,
    }
}
