//! What the lines and the program know of the outside: a source of bytes and a sink for them.
ghost use Rattle.std.specs.Prelude.{◌≡◌, ◌↔◌, ℕ, ◌<◌, ◌≤◌, [], List, Option, length, take, IfOk, OnErr, IfSome};
ghost use Rattle.line_io.specs.Outside.{Rose, Took, Put};

/// Why a take or a put failed: nothing more is known.
#[derive(Clone, Copy, Debug, PartialEq, Eq)]
pub struct Failed;

/// Where bytes come from.
pub trait Source {
    /// What is left, where the source tells it.
    ghost left: { Self → Option (List ℕ) };

    /// How many faults there were. It never falls.
    ghost faults: { Self → ℕ };

    /// Gives the next bytes, up to the length of `into`, and says how many; 0 is the end.
    ///
    /// # Errors
    ///
    /// `Failed` where a fault was counted; nothing is lost then.
    fn take(&mut self, into: &mut [u8]) -> Result<usize, Failed>
        // The first bytes of the piece are the next bytes: they leave the source.
        ensures given { IfOk result (λ k. (k ≤ length into.old)
            × Took (left self.old) (left self.new) (take k into.new)) }
        // For a piece that isn't empty 0 is the end: where it is told, exactly where nothing is left.
        ensures end { IfOk result (λ k. 0 < length into.old
            → IfSome (left self.old) (λ bytes. (k ≡ 0) ↔ (bytes ≡ []))) }
        ensures failed { OnErr result (Rose (faults self.old) (faults self.new)
            × (left self.new ≡ left self.old)) }
        ensures count { faults self.old ≤ faults self.new };
}

/// Where bytes go to.
pub trait Sink {
    /// What it holds, where the sink tells it.
    ghost held: { Self → Option (List ℕ) };

    /// How many faults there were. It never falls.
    ghost faults: { Self → ℕ };

    /// Takes some of the bytes from the front of `piece`, one at least if there is one, and says how
    /// many.
    ///
    /// # Errors
    ///
    /// `Failed` where a fault was counted; nothing is taken then.
    fn put(&mut self, piece: &[u8]) -> Result<usize, Failed>
        ensures taken { IfOk result (λ k. (k ≤ length piece.now)
            × (0 < length piece.now → 0 < k)
            × Put (held self.old) (held self.new) (take k piece.now)) }
        ensures failed { OnErr result (Rose (faults self.old) (faults self.new)
            × Put (held self.old) (held self.new) []) }
        ensures count { faults self.old ≤ faults self.new };
}
