ghost use Rattle.std.specs.Prelude.{◌≤◌, None, Option, List, ℕ};

use line_io::*;
use std::alloc::{AllocError, Global};
use std::io;
use std::io::{ErrorKind, Read, Write};
use std::test::Fail;

/// Adds what was answered: a line and a bar, a length in brackets for a long line, a number and an
/// exclamation mark for one that is too long, a point for the end, and its name for a fault.
fn add_answer(
    alloc: Global,
    out: &mut Vec<u8>,
    answer: Result<Item, LineFault>,
) -> Result<(), AllocError> {
    let text = match answer {
        Ok(Item::Line(line)) if line.len() > 9 => format!(in alloc; "({})", line.len())?,
        Ok(Item::Line(line)) => {
            out.extend_from_slice(line)?;
            format!(in alloc; "|")?
        }
        Ok(Item::TooLong(count)) => format!(in alloc; "{count}!")?,
        Ok(Item::End) => format!(in alloc; ".")?,
        Err(fault) => format!(in alloc; "{fault:?}")?,
    };
    out.extend_from_slice(text.as_bytes())?;
    Ok(())
}

/// What so many calls answer.
fn answers<S: Source>(alloc: Global, source: &mut S, calls: usize) -> Result<Vec<u8>, AllocError> {
    let mut lines = Lines::make(alloc)?;
    let mut out = Vec::new(alloc);
    for _ in 0..calls {
        add_answer(alloc, &mut out, lines.next(source))?;
    }
    Ok(out)
}

/// The same of these bytes in pieces of this length, where these calls fail.
fn answers_of(
    alloc: Global,
    input: &[u8],
    piece: usize,
    fails: &[u64],
    calls: usize,
) -> Result<Vec<u8>, AllocError>
    requires { 1 ≤ piece }
{
    let input = input.to_vec(alloc)?;
    let mut source = MemSource::make(input, piece, fails.to_vec(alloc)?);
    answers(alloc, &mut source, calls)
}

/// The same where no call fails.
fn sure_answers(alloc: Global, input: &[u8], calls: usize) -> Result<Vec<u8>, AllocError> {
    let mut source = NeverSource::make(input.to_vec(alloc)?);
    answers(alloc, &mut source, calls)
}

/// So many bytes, and then these.
fn long_line(alloc: Global, count: usize, end: &[u8]) -> Result<Vec<u8>, AllocError> {
    let mut bytes = vec![in alloc; b'x'; count]?;
    bytes.extend_from_slice(end)?;
    Ok(bytes)
}

/// What three calls answer of so many bytes, and then these.
fn long_answers(alloc: Global, count: usize, end: &[u8]) -> Result<Vec<u8>, AllocError> {
    let bytes = long_line(alloc, count, end)?;
    answers_of(alloc, &bytes, 4_096, &[], 3)
}

#[test]
fn short_lines(rt: HostRuntime) -> Result<(), Fail> {
    let alloc = rt.alloc();
    for (input, want) in [
        (b"".as_slice(), b"....".as_slice()),
        (b"a\nbc\n".as_slice(), b"a|bc|..".as_slice()),
        (b"a\r\nb\r\r\n".as_slice(), b"a|b\r|..".as_slice()),
        (b"ab\ncd".as_slice(), b"ab|cd|..".as_slice()),
        (b"\n\r\n\nz".as_slice(), b"|||z|".as_slice()),
        (b"\r".as_slice(), b"|...".as_slice()),
    ] {
        for piece in [1, 3, 4_096] {
            let found = answers_of(alloc, input, piece, &[], 4)?;
            assert_eq!(rt; found.as_slice(), want);
        }
        let found = sure_answers(alloc, input, 4)?;
        assert_eq!(rt; found.as_slice(), want);
    }
    Ok(())
}

#[test]
fn long_lines(rt: HostRuntime) -> Result<(), Fail> {
    let alloc = rt.alloc();
    for (count, end, want) in [
        (65_536, b"\nb".as_slice(), b"(65536)b|.".as_slice()),
        (65_535, b"\r\nb".as_slice(), b"(65535)b|.".as_slice()),
        (65_537, b"\nb".as_slice(), b"65537!b|.".as_slice()),
        (65_536, b"\r\nb".as_slice(), b"65537!b|.".as_slice()),
        (200_000, b"".as_slice(), b"200000!..".as_slice()),
    ] {
        let found = long_answers(alloc, count, end)?;
        assert_eq!(rt; found.as_slice(), want);
    }
    Ok(())
}

#[test]
fn a_take_that_fails(rt: HostRuntime) -> Result<(), Fail> {
    let found = answers_of(rt.alloc(), b"a\nbc\nd", 3, &[2], 4)?;
    assert_eq!(rt; found.as_slice(), b"a|ReadReadRead".as_slice());
    Ok(())
}

#[test]
fn a_sink_with_room(rt: HostRuntime) -> Result<(), Fail> {
    let alloc = rt.alloc();
    let mut sink = MemSink::make(alloc, 5, 2, Vec::new(alloc))?;
    assert!(rt; put_all(&mut sink, b"").is_ok());
    assert!(rt; put_all(&mut sink, b"abc").is_ok());
    assert_eq!(rt; put_all(&mut sink, b"defg"), Err(PutFault));
    assert_eq!(rt; sink.bytes(), b"abcde".as_slice());
    Ok(())
}

#[test]
fn a_put_that_fails(rt: HostRuntime) -> Result<(), Fail> {
    let alloc = rt.alloc();
    let mut fails = Vec::new(alloc);
    fails.push(3)?;
    let mut failing = MemSink::make(alloc, 100, 2, fails)?;
    assert_eq!(rt; put_all(&mut failing, b"abcdefg"), Err(PutFault));
    assert_eq!(rt; failing.bytes(), b"abcd".as_slice());
    Ok(())
}

#[test]
fn a_sink_that_never_fails(rt: HostRuntime) -> Result<(), Fail> {
    let alloc = rt.alloc();
    let mut kept = NeverSink::make(alloc, 5)?;
    assert!(rt; put_all(&mut kept, b"abc").is_ok());
    assert!(rt; put_all(&mut kept, b"defg").is_ok());
    assert_eq!(rt; kept.bytes(), b"abcde".as_slice());
    Ok(())
}

#[test]
fn a_source_over_std(rt: HostRuntime) -> Result<(), Fail> {
    let alloc = rt.alloc();
    let mut source = StdSource::make(b"a\nb".as_slice());
    let found = answers(alloc, &mut source, 3)?;
    assert_eq!(rt; found.as_slice(), b"a|b|.".as_slice());
    Ok(())
}

#[test]
fn a_sink_over_std(rt: HostRuntime) -> Result<(), Fail> {
    let alloc = rt.alloc();
    let mut written = Vec::new(alloc);
    let mut sink = StdSink::make(&mut written);
    assert!(rt; put_all(&mut sink, b"a\nb").is_ok());
    assert_eq!(rt; written.as_slice(), b"a\nb".as_slice());
    Ok(())
}

/// A reader and a writer that serve one call and fail from then on.
#[derive(Drop)]
struct Once {
    is_used: bool,
}

impl Read for Once {
    fn read(&mut self, buf: &mut [u8]) -> io::Result<usize> {
        if self.is_used || buf.is_empty() {
            return Err(io::Error::from(ErrorKind::BrokenPipe));
        }
        self.is_used = true;
        buf[0] = b'\n';
        Ok(1)
    }
}

impl Write for Once {
    fn write(&mut self, buf: &[u8]) -> io::Result<usize> {
        if self.is_used {
            return Err(io::Error::from(ErrorKind::BrokenPipe));
        }
        self.is_used = true;
        Ok(buf.len().min(1))
    }

    fn flush(&mut self) -> io::Result<()> {
        Ok(())
    }
}

#[test]
fn a_reader_that_fails(rt: HostRuntime) -> Result<(), Fail> {
    let alloc = rt.alloc();
    let mut source = StdSource::make(Once { is_used: false });
    let found = answers(alloc, &mut source, 3)?;
    assert_eq!(rt; found.as_slice(), b"|ReadRead".as_slice());
    Ok(())
}

#[test]
fn a_writer_that_fails(rt: HostRuntime) -> Result<(), Fail> {
    let mut sink = StdSink::make(Once { is_used: false });
    assert_eq!(rt; put_all(&mut sink, b"a"), Ok(()));
    assert_eq!(rt; put_all(&mut sink, b"a"), Err(PutFault));
    Ok(())
}

/// A source and a sink that never fail and note how they are called. A take gives so many newlines;
/// a put takes so many bytes.
#[derive(Drop)]
struct Noting {
    each: usize,
    calls: u64,
    /// The lengths that the calls were made with, summed.
    asked: u64,
}

fn start_noting(each: usize) -> Noting {
    Noting {
        each,
        calls: 0,
        asked: 0,
    }
}

impl Source for Noting {
    ghost left = { λ _. None };

    ghost faults = { λ _. 0 };

    fn take(&mut self, into: &mut [u8]) -> Result<usize, Failed> {
        self.calls = self.calls.saturating_add(1);
        self.asked = self.asked.saturating_add(into.len() as u64);
        into.fill(b'\n');
        Ok(into.len().min(self.each))
    }
}

impl Sink for Noting {
    ghost held = { λ _. None };

    ghost faults = { λ _. 0 };

    fn put(&mut self, piece: &[u8]) -> Result<usize, Failed> {
        self.calls = self.calls.saturating_add(1);
        self.asked = self.asked.saturating_add(piece.len() as u64);
        Ok(piece.len().min(self.each.max(1)))
    }
}

#[test]
fn no_take_with_a_whole_line_in_hand(rt: HostRuntime) -> Result<(), Fail> {
    let alloc = rt.alloc();
    let mut source = start_noting(3);
    assert_eq!(rt;
        answers(alloc, &mut source, 3)?.as_slice(),
        b"|||".as_slice()
    );
    assert_eq!(rt; source.calls, 1);
    Ok(())
}

#[test]
fn a_take_asks_for_4096_bytes(rt: HostRuntime) -> Result<(), Fail> {
    let alloc = rt.alloc();
    let mut source = start_noting(1);
    assert_eq!(rt;
        answers(alloc, &mut source, 3)?.as_slice(),
        b"|||".as_slice()
    );
    assert_eq!(rt; source.calls, 3);
    assert_eq!(rt; source.asked, 3 * 4_096);
    Ok(())
}

#[test]
fn a_put_passes_all_that_is_left(rt: HostRuntime) -> Result<(), Fail> {
    let mut sink = start_noting(2);
    assert_eq!(rt; put_all(&mut sink, b"abcdefg"), Ok(()));
    assert_eq!(rt; sink.calls, 4);
    assert_eq!(rt; sink.asked, 7 + 5 + 3 + 1);
    Ok(())
}
