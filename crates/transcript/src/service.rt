//! What the loop knows of a service.
ghost use Rattle.std.specs.Prelude.{◌≡◌, IfOk};
ghost use Rattle.transcript.specs.Rules.{Rules, IsKept, IsTotal};

use crate::NoMemory;
use crate::entry::Entry;
use std::alloc::Global;

/// What a service answers to an entry.
#[derive(Drop)]
pub struct Answered {
    /// The bytes of the reply; none where there is no reply.
    pub text: Vec<u8>,
    /// Whether the entry was an accepted `quit`.
    pub ends: bool,
}

/// What answers entries.
pub trait Service: Drop {
    /// What its states hold, its answers, which lines take a block, and which entries end it.
    ghost rules: { Rules Self };

    /// Its state before the first entry.
    ghost first: { Self };

    /// The service before the first entry.
    ///
    /// # Errors
    ///
    /// Where there is no memory.
    fn start(alloc: Global) -> Result<Self, NoMemory>
        ensures { IfOk result (λ service. service ≡ first) };

    /// Whether a block follows this line.
    fn takes_block(line: &[u8]) -> bool
        ensures { result ≡ rules.takes_block line.now };

    /// Answers an entry.
    ///
    /// # Errors
    ///
    /// Where there is no memory.
    fn answer(&mut self, alloc: Global, entry: &Entry) -> Result<Answered, NoMemory>
        ensures text { IfOk result (λ answered.
            rules.answers self.old entry.now answered.text.items self.new) }
        ensures ends { IfOk result (λ answered. answered.ends ≡ rules.quits entry.now) };

    /// Its first state holds.
    ghost begins: { rules.holds first };

    /// Each answer in a state that holds leaves a state that holds.
    ghost keeps: { IsKept rules };

    /// Every entry has an answer in every state that holds.
    ghost total: { IsTotal rules };
}
