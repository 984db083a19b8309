ghost use Rattle.std.specs.Prelude.{None, Option, List, ℕ};

use super::{ABC, ROOM, bytes_of, run_into, told_from};
use crate::run::run;
use crate::words::words_of;
use line_io::{Failed, MemSink, MemSource, NeverSink, NeverSource, Sink};
use std::alloc::Global;
use std::env::{Env, FillError};
use std::test::Fail;
use transcript::Status;

#[test]
fn a_session_that_cannot_fail(rt: HostRuntime) -> Result<(), Fail> {
    let alloc = rt.alloc();
    let mut sink = NeverSink::make(alloc, 18)?;
    let input = bytes_of(alloc, &[ABC, "fits c 5 2 0\n"])?;
    assert_eq!(rt; run_into(alloc, input, &mut sink), Status::Done);
    assert_eq!(rt; sink.bytes(), b"ok\nok\nok\nok\nmeets\n".as_slice());
    Ok(())
}

#[test]
fn a_read_that_fails(rt: HostRuntime) -> Result<(), Fail> {
    let alloc = rt.alloc();
    let takes = vec![in alloc; 2]?;
    let mut source = MemSource::make(bytes_of(alloc, &[ABC])?, 50, takes);
    let (status, text) = told_from(alloc, &mut source)?;
    assert_eq!(rt; status, Status::ReadFault);
    assert_eq!(rt; text.as_slice(), b"ok\nok\nok\n".as_slice());
    Ok(())
}

#[test]
fn a_write_that_fails(rt: HostRuntime) -> Result<(), Fail> {
    let alloc = rt.alloc();
    let mut sink = MemSink::make(alloc, 100, 64, vec![in alloc; 3]?)?;
    let status = run_into(alloc, bytes_of(alloc, &[ABC])?, &mut sink);
    assert_eq!(rt; status, Status::WriteFault);
    assert_eq!(rt; sink.bytes(), b"ok\nok\n".as_slice());
    Ok(())
}

fn two_words(alloc: Global) -> Result<Vec<String>, Fail> {
    let mut words = Vec::new(alloc);
    words.push(String::from_str(alloc, "sample")?)?;
    words.push(String::from_str(alloc, "0")?)?;
    Ok(words)
}

#[test]
fn words_that_are_not_known(rt: HostRuntime) -> Result<(), Fail> {
    let alloc = rt.alloc();
    let words = two_words(alloc)?;
    let mut source = NeverSource::make(bytes_of(alloc, &[ABC])?);
    let mut sink = NeverSink::make(alloc, ROOM)?;
    let status = run(alloc, &words, &mut source, &mut sink);
    assert_eq!(rt; status, Status::BadWords);
    assert_eq!(rt; sink.bytes(), b"".as_slice());
    Ok(())
}

/// A sink that takes all, and counts the calls.
#[derive(Drop)]
struct Counting {
    puts: u64,
}

impl Sink for Counting {
    ghost held = { λ _. None };

    ghost faults = { λ _. 0 };

    fn put(&mut self, piece: &[u8]) -> Result<usize, Failed> {
        self.puts = self.puts.saturating_add(1);
        Ok(piece.len())
    }
}

#[test]
fn a_reply_is_put_at_once(rt: HostRuntime) -> Result<(), Fail> {
    let alloc = rt.alloc();
    let mut sink = Counting { puts: 0 };
    let input = bytes_of(alloc, &[ABC, "fits c 4 2 0\n\n"])?;
    assert_eq!(rt; run_into(alloc, input, &mut sink), Status::Done);
    assert_eq!(rt; sink.puts, 5);
    Ok(())
}

/// An environment whose program has a name that isn't text, with these words behind it.
#[derive(Drop)]
struct Words<'a> {
    words: &'a [&'a [u8]],
}

impl<'a> Env for Words<'a> {
    fn arg(&self, i: usize, buf: &mut [u8]) -> Result<usize, FillError> {
        let word = match i {
            0 => b"\xff".as_slice(),
            _ => match self.words.get(i - 1) {
                Some(word) => *word,
                None => return Err(FillError::NotPresent),
            },
        };
        if word.len() > buf.len() {
            return Err(FillError::TooLong);
        }
        buf[..word.len()].copy_from_slice(word);
        Ok(word.len())
    }

    fn var(&self, _name: &str, _buf: &mut [u8]) -> Result<usize, FillError> {
        Err(FillError::NotPresent)
    }

    fn var_at(&self, _i: usize, _buf: &mut [u8]) -> Result<usize, FillError> {
        Err(FillError::NotPresent)
    }
}

/// The words joined by bars, or the name of the status.
fn words_text(alloc: Global, words: &[&[u8]]) -> Result<String, Fail> {
    match words_of(&Words { words }, alloc) {
        Err(status) => Ok(format!(in alloc; "{status:?}")?),
        Ok(words) => {
            let mut text = String::new(alloc);
            for word in &words {
                text.push_str(word.as_str())?;
                text.push_str("|")?;
            }
            Ok(text)
        }
    }
}

#[test]
fn words_that_are_text(rt: HostRuntime) -> Result<(), Fail> {
    let alloc = rt.alloc();
    for (words, want) in [
        ([b"sample".as_slice(), b"12".as_slice()], "sample|12|"),
        ([b"".as_slice(), b"\xc3\xa4".as_slice()], "|ä|"),
        ([b"sample".as_slice(), b"\xff".as_slice()], "BadWords"),
        ([b"\xc3".as_slice(), b"".as_slice()], "BadWords"),
        ([[b'a'; 257].as_slice(), b"".as_slice()], "BadWords"),
    ] {
        assert_eq!(rt; words_text(alloc, &words)?.as_str(), want);
    }
    assert_eq!(rt; words_text(alloc, &[])?.as_str(), "");
    Ok(())
}
