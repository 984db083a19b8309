//! A line that is read without a block.
ghost use Rattle.std.specs.Prelude.{◌≡◌, [], IfOk};
ghost use Rattle.command_read.specs.Reading.{command_of};
ghost use Rattle.command_read.specs.declared.block.Held.TheVariants as held;

use command_read::{Block, NoMemory, Parsed, read_command};
use std::alloc::Global;
use std::test::Fail;

/// What a line asks for that takes no block.
fn read(alloc: Global, line: &[u8]) -> Result<Parsed, NoMemory>
    ensures { IfOk result (λ parsed. parsed ≡ command_of line.now (held.Whole [])) }
{
    read_command(alloc, line, Block::Absent)
}

// Whether it is refused by this number.
fn is_refused(alloc: Global, line: &[u8], number: u8) -> Result<bool, NoMemory> {
    let parsed = read(alloc, line)?;
    let is_refused = match &parsed {
        Parsed::Refused(found) => *found == number,
        Parsed::Nothing | Parsed::Do(_) => false,
    };
    drop(parsed);
    Ok(is_refused)
}

#[test]
fn a_line_without_a_block(rt: HostRuntime) -> Result<(), Fail> {
    assert!(rt; is_refused(rt.alloc(), b"judg c", 3)?);
    Ok(())
}
