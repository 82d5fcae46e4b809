ghost use Rattle.std.specs.Prelude.{◌≡◌, ◌<◌, ◌≤◌, ◌⊎◌, ℕ, List, [], length, min, take, map};
ghost use Rattle.std.specs.Prelude.{string_bytes, Option, Some, None, IfOk, OnOk, OnErr, IfSome};
ghost use Rattle.std.specs.Option.{option_map};
ghost use Rattle.nm_io.specs.Counts.{Rose};
ghost use Rattle.nm_io.specs.Files.{Files, appended_told, replaced, ReadsPart};
ghost use Rattle.nm_io.specs.Calls.{IsListed, no_calls, no_calls_in_pieces, after_fault, after_want};
ghost use Rattle.nm_io.specs.Calls.{WasAnswered, WasRefused};
ghost use Rattle.nm_io.specs.ShelfState.{ShelfState, files_of, seen_entries};

use crate::calls::Calls;
use crate::stored::Stored;
use crate::{Failed, Shelf};
use nm_types::NoMemory;
use std::alloc::Global;
use std::collections::BTreeMap;
use std::marker::Model;

/// An in-memory shelf with injected failures. Its reads and appends are numbered together, from 1.
#[derive(Drop)]
pub struct MemoryShelf {
    stored: Stored,
    calls: Calls,
}

impl Model for MemoryShelf {
    ghost Value = { ShelfState };

    ghost view = { λ s. record { entries = seen_entries s.stored.files; calls = s.calls } };
}

impl MemoryShelf {
    /// A shelf without files. `fail` lists the numbers of the calls that fail.
    pub fn new(alloc: Global, fail: Vec<u64>) -> MemoryShelf
        ensures { result ≡ record { entries = []; calls = no_calls fail.items } }
    {
        MemoryShelf::in_pieces(alloc, fail, usize::MAX)
    }

    /// A shelf without files of which each call takes or gives at most `piece` bytes. `fail` lists the
    /// numbers of the calls that fail.
    pub fn in_pieces(alloc: Global, fail: Vec<u64>, piece: usize) -> MemoryShelf
        requires { 1 ≤ piece }
        ensures { result ≡ record { entries = []; calls = no_calls_in_pieces fail.items piece } }
    {
        MemoryShelf {
            stored: Stored {
                alloc,
                files: BTreeMap::new(alloc),
            },
            calls: Calls::in_pieces(fail, piece),
        }
    }

    /// Sets the contents of a file. This is not a numbered call.
    #[tactic(auto, using(crate::proofs::Stores::stores))]
    pub fn add(&mut self, name: &str, bytes: &[u8]) -> Result<(), NoMemory>
        ensures ok { OnOk result
            (files_of self.new.entries ≡ replaced (files_of self.old.entries) name.now bytes.now) }
        ensures err { OnErr result (files_of self.new.entries ≡ files_of self.old.entries) }
        ensures answered { OnOk result (self.new.calls ≡ self.old.calls) }
        ensures wanting { OnErr result (self.new.calls ≡ after_want self.old.calls) }
    {
        match self.stored.replace(name, bytes) {
            Ok(()) => Ok(()),
            Err(error) => {
                self.calls.want();
                Err(error)
            }
        }
    }

    /// Returns the contents of a file, or none if there is no such file.
    #[tactic(auto, using(crate::proofs::Stores::stores))]
    pub fn file(&self, name: &str) -> Option<&[u8]>
        ensures { option_map (λ f. f.now) result ≡ files_of self.now.entries name.now }
    {
        self.stored.contents(name)
    }

    /// Counts the calls that failed because memory ran out.
    pub fn wants(&self) -> u64
        ensures { result ≡ self.now.calls.wants }
    {
        self.calls.wants()
    }
}

impl Shelf for MemoryShelf {
    ghost files = { λ s. Some (files_of s.entries) };

    ghost read_faults = { λ s _. s.calls.faults };

    ghost append_faults = { λ s _. s.calls.faults };

    #[tactic(auto, using(crate::proofs::Stores::stores))]
    fn read(&mut self, name: &str, at: u64, room: &mut [u8]) -> Result<usize, Failed>
        ensures within { IfOk result (λ n. n ≤ length room.old) }
        ensures reads { IfOk result (λ n. IfSome (Some (files_of self.old.entries))
            (λ all. ReadsPart (all name.now) at n room.new)) }
        ensures files { Some (files_of self.new.entries) ≡ Some (files_of self.old.entries) }
        ensures reads_later { (other : List ℕ) → self.old.calls.faults ≤ self.new.calls.faults }
        ensures appends_later { (other : List ℕ) → self.old.calls.faults ≤ self.new.calls.faults }
        ensures cause { OnErr result (Rose self.old.calls.faults self.new.calls.faults) }

        // It fails only if it is listed or there is no such file, and otherwise gives a piece at most.
        ensures piece { IfOk result (λ n. n ≤ self.old.calls.piece) }
        ensures answered { OnOk result (WasAnswered self.old.calls self.new.calls) }
        ensures failed { OnErr result
            ((IsListed self.old.calls ⊎ (files_of self.old.entries name.now ≡ None))
            × (self.new.calls ≡ after_fault self.old.calls)) }
    {
        self.calls.pass()?;
        match self.stored.contents(name) {
            Some(contents) => {
                let count = copy_part(contents, at, room, self.calls.piece());
                self.calls.count();
                Ok(count)
            }
            None => Err(self.calls.fault()),
        }
    }

    #[tactic(auto, using(crate::proofs::Stores::stores))]
    fn append(&mut self, name: &str, bytes: &[u8]) -> Result<usize, Failed>
        ensures within { IfOk result (λ n. n ≤ length bytes.now) }
        ensures moves { IfOk result (λ n. 0 < length bytes.now → 0 < n) }
        ensures grown { IfOk result (λ n. Some (files_of self.new.entries)
            ≡ appended_told (Some (files_of self.old.entries)) name.now (take n bytes.now)) }
        ensures err { OnErr result
            (Some (files_of self.new.entries) ≡ Some (files_of self.old.entries)) }
        ensures reads_later { (other : List ℕ) → self.old.calls.faults ≤ self.new.calls.faults }
        ensures appends_later { (other : List ℕ) → self.old.calls.faults ≤ self.new.calls.faults }
        ensures cause { OnErr result (Rose self.old.calls.faults self.new.calls.faults) }

        // It fails only if it is listed or out of memory, and otherwise takes a whole piece.
        ensures taken { IfOk result (λ n. n ≡ min (length bytes.now) self.old.calls.piece) }
        ensures answered { OnOk result (WasAnswered self.old.calls self.new.calls) }
        ensures failed { OnErr result (WasRefused self.old.calls self.new.calls) }
    {
        self.calls.pass()?;
        let count = self.calls.taken(bytes);
        if self.stored.extend(name, &bytes[..count]).is_err() {
            return Err(self.calls.refuse());
        }
        self.calls.count();
        Ok(count)
    }
}

/// Copies the contents, from their byte `at` on, to the front of `room`, as many as fit but at most
/// `piece`, and returns how many.
fn copy_part(contents: &[u8], at: u64, room: &mut [u8], piece: usize) -> usize
    requires { 0 < piece }
    ensures within { result ≤ length room.old }
    ensures reads { ReadsPart (Some contents.now) at result room.new }
    ensures piece { result ≤ piece }
{
    let start = contents.len().min(at as usize);
    let rest = &contents[start..];
    let count = rest.len().min(room.len()).min(piece);
    room[..count].copy_from_slice(&rest[..count]);
    count
}
