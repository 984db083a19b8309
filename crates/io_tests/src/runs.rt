ghost use Rattle.std.specs.Prelude.{◌≡◌, ◌≤◌, ◌+◌, ℕ, IfOk, nat_lt, if◌then◌else◌};
ghost use Rattle.transcript.specs.Tally.{tally_rules, tally_text, tally_quits, next_count};
ghost use Rattle.transcript.specs.TallyLaw.{tally_begins, tally_keeps, tally_total};

use line_io::{MemSink, MemSource, NeverSink, NeverSource, Sink, Source};
use std::alloc::{AllocError, Global};
use std::marker::Model;
use std::test::Fail;
use transcript::*;

/// A count of entries, up to 9: a line that begins with `!` takes a block, and `quit` ends it.
#[derive(Drop)]
struct Tally {
    count: u8,
}

impl Model for Tally {
    ghost use Rattle.std.specs.Prelude.{ℕ, ◌≤◌};

    ghost Value = { ℕ };

    ghost view = { λ t. t.count };

    ghost invariant = { λ t. t.count ≤ 9 };
}

impl Service for Tally {
    ghost rules = { tally_rules };

    ghost first = { 0 };

    fn start(_alloc: Global) -> Result<Tally, NoMemory> {
        Ok(Tally { count: 0 })
    }

    fn takes_block(line: &[u8]) -> bool {
        match line.first() {
            Some(byte) => *byte == b'!',
            None => false,
        }
    }

    fn answer(&mut self, alloc: Global, entry: &Entry) -> Result<Answered, NoMemory> {
        let answered = reply(alloc, self.count, entry)?;
        if self.count < 9 {
            self.count += 1;
        }
        Ok(answered)
    }

    ghost begins = { tally_begins };

    ghost keeps = { tally_keeps };

    ghost total = { tally_total };
}

/// The count, and what the entry is; of a block its bytes.
fn reply(alloc: Global, count: u8, entry: &Entry) -> Result<Answered, NoMemory>
    requires { count ≤ 9 }
    ensures text { IfOk result (λ answered. answered.text.items ≡ tally_text count entry.now) }
    ensures ends { IfOk result (λ answered. answered.ends ≡ tally_quits entry.now) }
{
    let mut text = Vec::new(alloc);
    let mut ends = false;
    text.push(b'0' + count)?;
    match entry.shape() {
        Shape::TooLong => text.extend_from_slice(b"long\n")?,
        Shape::Line(line) => {
            ends = line == b"quit".as_slice();
            text.extend_from_slice(b"line\n")?;
        }
        Shape::Whole(_, block) => text.extend_from_slice(block)?,
        Shape::Cut(_) => text.extend_from_slice(b"cut\n")?,
        Shape::Large(_) => text.extend_from_slice(b"large\n")?,
    }
    Ok(Answered { text, ends })
}

/// The end of a run over these bytes in pieces of this length, with these calls failing, and what was
/// written.
fn tallied(
    alloc: Global,
    input: &[u8],
    piece: usize,
    fails: Vec<u64>,
) -> Result<(Status, NeverSink), Fail>
    requires { 1 ≤ piece }
{
    let mut source = MemSource::make(input.to_vec(alloc)?, piece, fails);
    let mut sink = NeverSink::make(alloc, 1_000)?;
    let status = run_entries::<Tally, MemSource, NeverSink>(alloc, &mut source, &mut sink);
    Ok((status, sink))
}

#[test]
fn blocks(rt: HostRuntime) -> Result<(), Fail> {
    let alloc = rt.alloc();
    for (input, want) in [
        (
            b"a\n!b\nx\r\ny\nend\nc\n".as_slice(),
            b"0line\n1x\ny\n2line\n".as_slice(),
        ),
        (b"!b\nend".as_slice(), b"0".as_slice()),
        (b"!b\r\nend\r\na".as_slice(), b"01line\n".as_slice()),
        (b"!b\nend \nend\n".as_slice(), b"0end \n".as_slice()),
        (
            b"!b\n end\nEnd\n\nend\n".as_slice(),
            b"0 end\nEnd\n\n".as_slice(),
        ),
        (b"!b\nx\nen".as_slice(), b"0cut\n".as_slice()),
        (b"!b".as_slice(), b"0cut\n".as_slice()),
        (b"end\nend\n".as_slice(), b"0line\n1line\n".as_slice()),
        (
            b"!b\n!c\nquit\nend\nquit\na\n".as_slice(),
            b"0!c\nquit\n1line\n".as_slice(),
        ),
        (b"!b\n!c\nend\nend\n".as_slice(), b"0!c\n1line\n".as_slice()),
    ] {
        // Takes of every length: blocks are cut at every byte.
        for piece in 1..20 {
            let (status, sink) = tallied(alloc, input, piece, Vec::new(alloc))?;
            assert_eq!(rt; status, Status::Done);
            assert_eq!(rt; sink.bytes(), want);
        }
    }
    Ok(())
}

#[test]
fn a_fault_inside_a_block(rt: HostRuntime) -> Result<(), Fail> {
    let alloc = rt.alloc();
    for (call, want) in [
        (1, b"".as_slice()),
        (2, b"0line\n".as_slice()),
        (3, b"0line\n".as_slice()),
        (4, b"0line\n".as_slice()),
        (5, b"0line\n1x\n".as_slice()),
        (6, b"0line\n1x\n2line\n".as_slice()),
    ] {
        let (status, sink) = tallied(alloc, b"a\n!b\nx\nend\nc\n", 3, vec![in alloc; call]?)?;
        assert_eq!(rt; status, Status::ReadFault);
        assert_eq!(rt; sink.bytes(), want);
    }
    Ok(())
}

/// A line that takes a block, so many lines of so many bytes with this end each, and what follows.
fn block_of(
    alloc: Global,
    count: usize,
    len: usize,
    end: &[u8],
    rest: &[u8],
) -> Result<Vec<u8>, Fail> {
    let mut bytes = b"!\n".to_vec(alloc)?;
    let line = vec![in alloc; b'x'; len]?;
    for _ in 0..count {
        bytes.extend_from_slice(&line)?;
        bytes.extend_from_slice(end)?;
    }
    bytes.extend_from_slice(rest)?;
    Ok(bytes)
}

/// The end of a run over these bytes, the length of what was written, and whether it ends so.
fn written(alloc: Global, bytes: Vec<u8>, last: &[u8]) -> Result<(Status, usize, bool), Fail> {
    let mut sink = MemSink::make(alloc, 2_000_000, 65_536, Vec::new(alloc))?;
    let mut source = NeverSource::make(bytes);
    let status = run_entries::<Tally, NeverSource, MemSink>(alloc, &mut source, &mut sink);
    Ok((status, sink.bytes().len(), sink.bytes().ends_with(last)))
}

#[test]
fn limits(rt: HostRuntime) -> Result<(), Fail> {
    let alloc = rt.alloc();
    for (count, len, end, rest, length, last) in [
        // 16 times 65,536 bytes are the limit, with or without carriage returns.
        (
            16,
            65_535,
            b"\n".as_slice(),
            b"end\n".as_slice(),
            1_048_577,
            b"xx\n".as_slice(),
        ),
        (
            16,
            65_535,
            b"\r\n".as_slice(),
            b"end\n".as_slice(),
            1_048_577,
            b"xx\n".as_slice(),
        ),
        (
            16,
            65_535,
            b"\n".as_slice(),
            b"\nend\n".as_slice(),
            7,
            b"ge\n".as_slice(),
        ),
        // A large block is read to its end, and one that is cut is cut.
        (
            1,
            65_537,
            b"\n".as_slice(),
            b"quit\nend\na\n".as_slice(),
            13,
            b"ne\n".as_slice(),
        ),
        (
            17,
            65_535,
            b"\n".as_slice(),
            b"x\nend\r\na".as_slice(),
            13,
            b"ne\n".as_slice(),
        ),
        (
            1,
            65_537,
            b"\n".as_slice(),
            b"en".as_slice(),
            5,
            b"ut\n".as_slice(),
        ),
        (
            17,
            65_535,
            b"\n".as_slice(),
            b"".as_slice(),
            5,
            b"ut\n".as_slice(),
        ),
    ] {
        let block = block_of(alloc, count, len, end, rest)?;
        let found = written(alloc, block, last)?;
        assert_eq!(rt; found, (Status::Done, length, true));
    }
    Ok(())
}

/// Adds what a reader finds: a line and a bar, a line with a block in brackets, a point for the end, and its name for a fault.
fn add_next(
    out: &mut Vec<u8>,
    reader: &mut Reader,
    source: &mut MemSource,
) -> Result<(), AllocError> {
    match reader.next::<Tally, MemSource>(source) {
        Ok(Next::Found) => add_entry(out, reader.entry().shape()),
        Ok(Next::End) => out.extend_from_slice(b"."),
        Err(EntryFault::Read) => out.extend_from_slice(b"Read"),
        Err(_) => out.extend_from_slice(b"another fault"),
    }
}

fn add_entry(out: &mut Vec<u8>, shape: Shape) -> Result<(), AllocError> {
    match shape {
        Shape::Line(line) => {
            out.extend_from_slice(line)?;
            out.extend_from_slice(b"|")
        }
        Shape::Whole(line, block) => {
            out.extend_from_slice(line)?;
            out.extend_from_slice(b"[")?;
            out.extend_from_slice(block)?;
            out.extend_from_slice(b"]")
        }
        _ => out.extend_from_slice(b"another entry"),
    }
}

/// What four calls of a reader find.
fn found(alloc: Global, source: &mut MemSource) -> Result<Vec<u8>, AllocError> {
    let mut out = Vec::new(alloc);
    let mut reader = Reader::make(alloc)?;
    for _ in 0..4 {
        add_next(&mut out, &mut reader, source)?;
    }
    Ok(out)
}

#[test]
fn a_reader_of_entries(rt: HostRuntime) -> Result<(), Fail> {
    let alloc = rt.alloc();
    let input = b"a\n!b\nx\nend\n".to_vec(alloc)?;
    let mut source = MemSource::make(input, 100, vec![in alloc; 2]?);
    let found = found(alloc, &mut source)?;
    assert_eq!(rt; found.as_slice(), b"a|!b[x\n]ReadRead".as_slice());
    Ok(())
}

#[test]
fn a_start_from_a_state(rt: HostRuntime) -> Result<(), Fail> {
    let alloc = rt.alloc();
    let mut source = NeverSource::make(b"a\nquit\nb\n".to_vec(alloc)?);
    let mut sink = NeverSink::make(alloc, 100)?;
    let status = run_from(alloc, Tally { count: 8 }, &mut source, &mut sink);
    assert_eq!(rt; status, Status::Done);
    assert_eq!(rt; sink.bytes(), b"8line\n9line\n".as_slice());
    Ok(())
}
