ghost use Rattle.std.specs.Prelude.{◌≡◌, ◌+◌, ◌-◌, ◌<◌, ◌≤◌, ◌^◌, ◌∷◌, ◌++◌, [], length, slice_get, IfOk, IfErr, OnOk, OnErr, option_copied, None};
ghost use Rattle.nm_types.specs.Frames.{bytes_of_frames};
ghost use Rattle.vale_entry.specs.Legal.{kept_items};
ghost use Rattle.vale_entry.specs.Pipe.{frames_of_items};
ghost use Rattle.vale_entry.specs.Room.{bytes_of_entry, frame_bytes};
ghost use Rattle.vale_entry.specs.Stored.{Fits, IsFull};

use crate::entry::{Ask, Entry, Reply};
use nm_types::{Limits, Part, StepFault};
use std::alloc::Global;
use std::marker::Model;

/// The entries that were made, within the limits of a record, and the room promised for those that
/// are still to come.
#[derive(Drop)]
pub struct History {
    entries: Vec<Entry>,
    limits: Limits,
    promised: u64,
    bytes: u64,
}

impl Model for History {
    ghost use Rattle.std.specs.Prelude.{◌-◌, length, vec_capacity};
    ghost use Rattle.vale_entry.specs.Stored.{Stored};

    ghost Value = { Stored };

    ghost use Rattle.vale_entry.specs.Kept.{IsKept};

    ghost view = { λ h. record { entries = h.entries.items; limits = h.limits; promised = h.promised; spare = vec_capacity h.entries - length h.entries.items } };

    ghost invariant = { IsKept };
}

fn kept_bytes(reply: &Reply) -> u64
    requires { bytes_of_frames (frames_of_items (kept_items reply.now)) < 2 ^ 64 }
    ensures { result ≡ bytes_of_frames (frames_of_items (kept_items reply.now)) }
{
    match reply {
        Reply::Took { items, .. } => items.size(),
        _ => 0,
    }
}

fn bytes_of_entry(entry: &Entry) -> u64
    requires { bytes_of_entry entry.now < 2 ^ 64 }
    ensures { result ≡ bytes_of_entry entry.now }
{
    match &entry.ask {
        Ask::Send { frames, .. } => frames.size(),
        Ask::Put { .. } => kept_bytes(&entry.reply),
        Ask::PutKept { .. } => kept_bytes(&entry.reply),
        Ask::Enter { .. }
        | Ask::Open { .. }
        | Ask::Grant { .. }
        | Ask::Done { .. }
        | Ask::Sync { .. }
        | Ask::Reset { .. }
        | Ask::Shut { .. }
        | Ask::Finish { .. }
        | Ask::Leave { .. }
        | Ask::Get { .. }
        | Ask::Watch { .. }
        | Ask::Stat { .. } => 0,
    }
}

impl History {
    /// Creates a history without entries, within these limits.
    pub fn new(alloc: Global, limits: Limits) -> History
        requires { limits.entries < 2 ^ 32 }
        ensures entries { result.entries ≡ [] }
        ensures limits { result.limits ≡ limits }
        ensures promised { result.promised ≡ 0 }
    {
        History {
            entries: Vec::new(alloc),
            limits,
            promised: 0,
            bytes: 0,
        }
    }

    /// Promises room for so many entries more, with so many bytes of frames in the next one. Fails
    /// with `RecordFull` if the entries, or else the bytes, would pass their limit, and with
    /// `NoMemory` if there is no memory for the entries.
    pub fn reserve(&mut self, entries: u64, bytes: u64) -> Result<(), StepFault>
        ensures promised { OnOk result (self.new.promised ≡ self.old.promised + entries) }
        ensures entries { self.new.entries ≡ self.old.entries }
        ensures limits { self.new.limits ≡ self.old.limits }
        ensures fits { OnOk result (Fits self.old entries bytes) }
        ensures full { IfErr result (IsFull self.old entries bytes) }
        ensures err { OnErr result (self.new.promised ≡ self.old.promised) }
        ensures spare { self.new.promised ≤ self.new.spare }
    {
        let used = self.entries.len() as u64 + self.promised;
        if entries > self.limits.entries - used {
            return Err(StepFault::RecordFull {
                what: Part::Entries,
                used,
                want: entries,
            });
        }
        if bytes > self.limits.bytes - self.bytes {
            return Err(StepFault::RecordFull {
                what: Part::Bytes,
                used: self.bytes,
                want: bytes,
            });
        }
        self.entries.reserve((self.promised + entries) as usize)?;
        self.promised += entries;
        Ok(())
    }

    /// Appends an entry, for which room was promised.
    pub fn push(&mut self, entry: Entry)
        requires promised { 0 < self.old.promised }
        requires room { 0 < bytes_of_entry entry → frame_bytes self.old.entries + bytes_of_entry entry ≤ self.old.limits.bytes }
        ensures { self.new ≡ record self.old { entries = self.old.entries ++ entry ∷ []; promised = self.old.promised - 1; spare = self.old.spare - 1 } }
    {
        self.promised -= 1;
        self.bytes += bytes_of_entry(&entry);
        self.entries.push_reserved(entry);
    }

    /// Gives up room that was promised.
    pub fn release(&mut self, entries: u64)
        requires { entries ≤ self.old.promised }
        ensures { self.new ≡ record self.old { promised = self.old.promised - entries } }
    {
        self.promised -= entries;
    }

    /// Returns the number of entries.
    pub fn len(&self) -> u32
        ensures len { result ≡ length self.now.entries }
        ensures room { length self.now.entries + self.now.promised ≤ self.now.limits.entries }
        ensures few { self.now.limits.entries < 2 ^ 32 }
    {
        self.entries.len() as u32
    }

    /// Returns how many bytes the frames stored have together.
    pub fn frame_bytes(&self) -> u64
        ensures bytes { result ≡ frame_bytes self.now.entries }
        ensures room { frame_bytes self.now.entries ≤ self.now.limits.bytes }
    {
        self.bytes
    }

    /// Returns the entries, of which the first has the number 1.
    pub fn entries(&self) -> &[Entry]
        ensures { result.now ≡ self.now.entries }
    {
        &self.entries
    }

    /// Returns the entry of this number, or None if `number` is 0 or past the last.
    pub fn get(&self, number: u32) -> Option<&Entry>
        ensures none { number ≡ 0 → option_copied result ≡ None }
        ensures some { 0 < number → option_copied result ≡ slice_get self.now.entries (number - 1) }
    {
        if number == 0 {
            return None;
        }
        self.entries.get(number as usize - 1)
    }
}
