// How far the reading has come, with the window.
ghost use Rattle.std.specs.Prelude.{◌≡◌, ◌+◌, ◌^◌, ◌<◌, ◌≤◌, ◌↔◌, ℕ, List, Option, None, length, IfOk, IfErr, OnErr, IsTrue};
ghost use Rattle.line_io.specs.Outside.{change_of, Fails, IsAtEnd};
ghost use Rattle.line_io.specs.declared.lines.TheConstants.{INPUT_LIMIT, LINE_LIMIT, TAKE_LEN};
ghost use Rattle.line_io.specs.Window.{Gains};

use crate::lines::{INPUT_LIMIT, LINE_LIMIT, LineFault, TAKE_LEN};
use crate::outside::{Failed, Source};
use crate::window::Window;
use std::alloc::{AllocError, Global};

#[derive(Clone, Copy)]
pub(crate) enum Found {
    Line,
    TooLong(u64),
    End,
}

/// What was found at the front of the bytes in hand: the rest of a piece of which so many bytes
/// were dropped.
#[derive(Clone, Copy)]
struct Piece {
    dropped: u64,
    len: usize,
    /// Whether a newline follows.
    whole: bool,
}

#[derive(Drop)]
pub(crate) struct Cursor {
    window: Window,
    taken: u64,
    ended: bool,
    fault: Option<LineFault>,
    ghost within: { taken ≤ INPUT_LIMIT },
}

impl Cursor {
    ghost use Rattle.line_io.specs.Lines.{start};
    ghost use Rattle.line_io.specs.Cursor.{progress, Finds, Reaches, Sheds, IsReached, IsGiven, rest_after};

    pub(crate) fn make(alloc: Global) -> Result<Cursor, AllocError>
        ensures { IfOk result (λ c. progress c ≡ start) }
    {
        let window = Window::make(alloc)?;
        Ok(Cursor {
            window,
            taken: 0,
            ended: false,
            fault: None,
        })
    }

    pub(crate) fn line(&self) -> &[u8]
        ensures { result.now ≡ self.now.window.line }
    {
        self.window.line()
    }

    /// Gives the next line, takes bytes until there is one, or says why there is none.
    pub(crate) fn advance<S: Source>(&mut self, source: &mut S) -> Result<Found, LineFault>
        ensures { Finds (progress self.old) (progress self.new)
            (change_of S.left S.faults source.old source.new) self.new.window.line result }
    {
        if let Some(fault) = self.fault {
            return Err(fault);
        }
        match self.find(source) {
            Ok(piece) => Ok(self.give(piece)),
            Err(fault) => {
                self.fault = Some(fault);
                Err(fault)
            }
        }
    }

    // Takes bytes until a whole piece is in hand, and drops those of one that is already too long.
    fn find<S: Source>(&mut self, source: &mut S) -> Result<Piece, LineFault>
        requires { self.old.fault ≡ None }
        ensures { Reaches (progress self.old) (progress self.new)
            (change_of S.left S.faults source.old source.new) result }
    {
        let mut dropped: u64 = 0;
        let mut searched = 0;
        let mut held = self.window.len();
        loop {
            if let Some(at) = self.window.newline_from(searched) {
                let len = searched + at;
                return Ok(Piece {
                    dropped,
                    len,
                    whole: true,
                });
            }
            if self.ended {
                return Ok(Piece {
                    dropped,
                    len: held,
                    whole: false,
                });
            }
            if self.taken == INPUT_LIMIT {
                return Err(LineFault::Limit);
            }
            dropped += self.shed(held);
            searched = self.window.len();
            let Ok(count) = self.more(source) else {
                return Err(LineFault::Read);
            };
            held = searched + count;
        }
    }

    // Drops the bytes in hand where they are part of a line that is too long, and says how many.
    fn shed(&mut self, held: usize) -> u64
        requires { held ≡ length self.old.window.in_hand }
        ensures { Sheds (progress self.old) (progress self.new) result }
    {
        if held <= LINE_LIMIT {
            return 0;
        }
        self.window.give(0, held);
        held as u64
    }

    // Takes some bytes, as many as there may be.
    fn more<S: Source>(&mut self, source: &mut S) -> Result<usize, Failed>
        requires room { length self.old.window.in_hand ≤ LINE_LIMIT }
        requires below_limit { self.old.taken < INPUT_LIMIT }
        ensures taken { IfOk result (λ k. Gains (change_of S.left S.faults source.old source.new)
            self.old.window.in_hand self.new.window.in_hand k × (self.new.taken ≡ self.old.taken + k)
            × (k ≤ TAKE_LEN)) }
        ensures ended { IfOk result (λ k. IsTrue self.new.ended ↔ (k ≡ 0)) }
        ensures at_end { IfOk result (λ k. k ≡ 0 → IsAtEnd (S.left source.new)) }
        ensures failed { OnErr result (Fails (change_of S.left S.faults source.old source.new)
            × (progress self.new ≡ progress self.old)) }
        ensures count { S.faults source.old ≤ S.faults source.new }
        ensures fault { self.new.fault ≡ self.old.fault }
    {
        let left = (INPUT_LIMIT - self.taken).min(TAKE_LEN as u64);
        let count = self.window.fill(source, left as usize)?;
        self.taken += count as u64;
        self.ended = count == 0;
        Ok(count)
    }

    // Gives the piece that was found.
    fn give(&mut self, piece: Piece) -> Found
        requires { IsReached (progress self.old) piece }
        ensures rest { self.new.window.in_hand ≡ rest_after piece self.old.window.in_hand }
        ensures same { (self.new.taken ≡ self.old.taken) × (self.new.ended ≡ self.old.ended)
            × (self.new.fault ≡ self.old.fault) }
        ensures found { IsGiven self.old.window.in_hand piece self.new.window.line result }
    {
        let count = piece.dropped + piece.len as u64;
        let through = if piece.whole {
            piece.len + 1
        } else {
            piece.len
        };
        if count == 0 && !piece.whole {
            return Found::End;
        }
        if count > LINE_LIMIT as u64 {
            self.window.give(0, through);
            return Found::TooLong(count);
        }
        let len = self.window.line_len(piece.len);
        self.window.give(len, through);
        Found::Line
    }
}
