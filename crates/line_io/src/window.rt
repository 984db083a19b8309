// The buffer behind the lines: the line that was given last, and behind it the bytes in hand.
ghost use Rattle.std.specs.Prelude.{◌≡◌, ◌+◌, ◌<◌, ◌≤◌, [], ◌++◌, List, ℕ, length, take, drop, IfOk, OnErr, slice_range, vec_len, ◌-◌};
ghost use Rattle.line_io.specs.Window.{IsFirstNewline, Gains};
ghost use Rattle.line_io.specs.Lines.{without_return};
ghost use Rattle.line_io.specs.Outside.{change_of, Fails, Took, IsAtEnd};
ghost use Rattle.line_io.specs.declared.lines.TheConstants.{LINE_LIMIT, TAKE_LEN};

use crate::lines::{LINE_LIMIT, TAKE_LEN};
use crate::outside::{Failed, Source};
use std::alloc::{AllocError, Global};
use std::marker::Model;

const NEWLINE: u8 = b'\n';

const RETURN: u8 = b'\r';

#[derive(Drop)]
pub(crate) struct Window {
    bytes: Vec<u8>,
    line: usize,
    line_end: usize,
    start: usize,
    end: usize,
}

impl Model for Window {
    ghost use Rattle.std.specs.Prelude.{◌≡◌, ◌+◌, ◌≤◌, slice_range, vec_len};
    ghost use Rattle.line_io.specs.Window.{Held};
    ghost use Rattle.line_io.specs.declared.lines.TheConstants.{LINE_LIMIT, TAKE_LEN};

    ghost Value = { Held };

    ghost view = { λ w. record {
      line = slice_range w.bytes.items w.line w.line_end;
      in_hand = slice_range w.bytes.items w.start w.end;
    } };

    ghost invariant = { λ w. (w.line ≤ w.line_end) × (w.line_end ≤ w.end) × (w.start ≤ w.end)
        × (w.end ≤ LINE_LIMIT + TAKE_LEN) × (vec_len w.bytes ≡ LINE_LIMIT + TAKE_LEN) };
}

/// The place of the first newline.
fn newline_at(bytes: &[u8]) -> Option<usize>
    ensures { IsFirstNewline bytes.now result }
{
    bytes.iter().position(|b| *b == NEWLINE)
}

/// The length of the line that a piece is.
fn len_without_return(piece: &[u8]) -> usize
    ensures bound { result ≤ length piece.now }
    ensures value { take result piece.now ≡ without_return piece.now }
{
    match piece.last() {
        Some(b) if *b == RETURN => piece.len() - 1,
        Some(_) => piece.len(),
        None => 0,
    }
}

impl Window {
    /// An empty window, with memory for a line of full length and the next take.
    pub(crate) fn make(alloc: Global) -> Result<Window, AllocError>
        ensures { IfOk result (λ w. (w.line ≡ []) × (w.in_hand ≡ [])) }
    {
        let bytes = vec![in alloc; 0; LINE_LIMIT + TAKE_LEN]?;
        Ok(Window {
            bytes,
            line: 0,
            line_end: 0,
            start: 0,
            end: 0,
        })
    }

    /// The line that was given last.
    pub(crate) fn line(&self) -> &[u8]
        ensures { result.now ≡ self.now.line }
    {
        let bytes = self.bytes.as_slice();
        &bytes[self.line..self.line_end]
    }

    /// How many bytes are in hand.
    pub(crate) fn len(&self) -> usize
        ensures value { result ≡ length self.now.in_hand }
        ensures bound { result ≤ LINE_LIMIT + TAKE_LEN }
    {
        self.end - self.start
    }

    /// The place of the first newline among the bytes in hand, from a place on.
    pub(crate) fn newline_from(&self, from: usize) -> Option<usize>
        requires { from ≤ length self.now.in_hand }
        ensures { IsFirstNewline (drop from self.now.in_hand) result }
    {
        let bytes = self.bytes.as_slice();
        newline_at(&bytes[self.start + from..self.end])
    }

    /// The length of the line that the first so many bytes in hand are.
    pub(crate) fn line_len(&self, len: usize) -> usize
        requires { len ≤ length self.now.in_hand }
        ensures bound { result ≤ len }
        ensures value { take result self.now.in_hand ≡ without_return (take len self.now.in_hand) }
    {
        let bytes = self.bytes.as_slice();
        len_without_return(&bytes[self.start..self.start + len])
    }

    /// Gives a line from the front of the bytes in hand, which lose all up to the end of its piece.
    pub(crate) fn give(&mut self, line_len: usize, through: usize)
        requires line { line_len ≤ through }
        requires in_hand { through ≤ length self.old.in_hand }
        ensures line { self.new.line ≡ take line_len self.old.in_hand }
        ensures in_hand { self.new.in_hand ≡ drop through self.old.in_hand }
    {
        self.line = self.start;
        self.line_end = self.start + line_len;
        self.start += through;
    }

    /// Takes at most so many bytes from a source, behind those in hand.
    pub(crate) fn fill<S: Source>(&mut self, source: &mut S, most: usize) -> Result<usize, Failed>
        requires room { length self.old.in_hand ≤ LINE_LIMIT }
        requires most { most ≤ TAKE_LEN }
        ensures taken { IfOk result (λ k. (k ≤ most) × Gains
            (change_of S.left S.faults source.old source.new) self.old.in_hand self.new.in_hand k) }
        ensures end { IfOk result (λ k. 0 < most → k ≡ 0 → IsAtEnd (S.left source.new)) }
        ensures failed { OnErr result (Fails (change_of S.left S.faults source.old source.new)
            × (self.new.in_hand ≡ self.old.in_hand)) }
        ensures count { S.faults source.old ≤ S.faults source.new }
    {
        move_to_front(&mut self.bytes, self.start, self.end);
        self.end -= self.start;
        self.start = 0;
        self.line = 0;
        self.line_end = 0;
        let count = take_at(source, &mut self.bytes, self.end, most)?;
        self.end += count;
        Ok(count)
    }
}

/// Moves the bytes of a range to the front.
fn move_to_front(bytes: &mut Vec<u8>, start: usize, end: usize)
    requires ordered { start ≤ end }
    requires in_bounds { end ≤ vec_len bytes.old }
    ensures moved { take (end - start) bytes.new.items ≡ slice_range bytes.old.items start end }
    ensures len { vec_len bytes.new ≡ vec_len bytes.old }
{
    if start > 0 {
        bytes.copy_within(start..end, 0);
    }
}

/// Takes at most so many bytes from a source, to a place.
fn take_at<S: Source>(
    source: &mut S,
    bytes: &mut Vec<u8>,
    at: usize,
    most: usize,
) -> Result<usize, Failed>
    requires room { at + most ≤ vec_len bytes.old }
    ensures taken { IfOk result (λ k. (k ≤ most)
        × Took (S.left source.old) (S.left source.new) (slice_range bytes.new.items at (at + k))) }
    ensures before { take at bytes.new.items ≡ take at bytes.old.items }
    ensures len { vec_len bytes.new ≡ vec_len bytes.old }
    ensures end { IfOk result (λ k. 0 < most → k ≡ 0 → IsAtEnd (S.left source.new)) }
    ensures failed { OnErr result (Fails (change_of S.left S.faults source.old source.new)) }
    ensures count { S.faults source.old ≤ S.faults source.new }
{
    source.take(&mut bytes[at..at + most])
}
