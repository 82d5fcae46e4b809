ghost use Rattle.std.specs.Prelude.{◌≡◌, ◌<◌, ◌≤◌, ◌++◌, ℕ, List, [], length, min};
ghost use Rattle.std.specs.Prelude.{Option, Some, IfOk, OnOk, OnErr};
ghost use Rattle.nm_io.specs.Counts.{Rose};
ghost use Rattle.nm_io.specs.Held.{GrewBy};
ghost use Rattle.nm_io.specs.Calls.{no_calls, no_calls_in_pieces, WasAnswered, WasRefused};
ghost use Rattle.nm_io.specs.SinkState.{SinkState};

use crate::calls::Calls;
use crate::{Failed, Sink};
use std::alloc::Global;
use std::marker::Model;

/// An in-memory sink with injected failures. Its calls are numbered from 1.
#[derive(Drop)]
pub struct MemorySink {
    bytes: Vec<u8>,
    calls: Calls,
}

impl Model for MemorySink {
    ghost Value = { SinkState };

    ghost view = { λ s. record { bytes = s.bytes.items; calls = s.calls } };
}

impl MemorySink {
    /// An empty sink. `fail` lists the numbers of the calls that fail.
    pub fn new(alloc: Global, fail: Vec<u64>) -> MemorySink
        ensures { result ≡ record { bytes = []; calls = no_calls fail.items } }
    {
        MemorySink::in_pieces(alloc, fail, usize::MAX)
    }

    /// An empty sink of which each call takes at most `piece` bytes. `fail` lists the numbers of the
    /// calls that fail.
    pub fn in_pieces(alloc: Global, fail: Vec<u64>, piece: usize) -> MemorySink
        requires { 1 ≤ piece }
        ensures { result ≡ record { bytes = []; calls = no_calls_in_pieces fail.items piece } }
    {
        MemorySink {
            bytes: Vec::new(alloc),
            calls: Calls::in_pieces(fail, piece),
        }
    }

    /// Returns what was put.
    pub fn bytes(&self) -> &[u8]
        ensures { result.now ≡ self.now.bytes }
    {
        self.bytes.as_slice()
    }

    /// Counts the calls that failed because memory ran out.
    pub fn wants(&self) -> u64
        ensures { result ≡ self.now.calls.wants }
    {
        self.calls.wants()
    }
}

impl Sink for MemorySink {
    ghost holds = { λ s. Some s.bytes };

    ghost faults = { λ s. s.calls.faults };

    fn put(&mut self, bytes: &[u8]) -> Result<usize, Failed>
        ensures within { IfOk result (λ n. n ≤ length bytes.now) }
        ensures moves { IfOk result (λ n. 0 < length bytes.now → 0 < n) }
        ensures grown { IfOk result (GrewBy (Some self.old.bytes) (Some self.new.bytes) bytes.now) }
        ensures err { OnErr result (Some self.new.bytes ≡ Some self.old.bytes) }
        ensures later { self.old.calls.faults ≤ self.new.calls.faults }
        ensures cause { OnErr result (Rose self.old.calls.faults self.new.calls.faults) }

        // It fails only if it is listed or out of memory, and otherwise takes a whole piece.
        ensures taken { IfOk result (λ n. n ≡ min (length bytes.now) self.old.calls.piece) }
        ensures answered { OnOk result (WasAnswered self.old.calls self.new.calls) }
        ensures failed { OnErr result (WasRefused self.old.calls self.new.calls) }
    {
        self.calls.pass()?;
        let count = self.calls.taken(bytes);
        if self.bytes.extend_from_slice(&bytes[..count]).is_err() {
            return Err(self.calls.refuse());
        }
        self.calls.count();
        Ok(count)
    }
}
