//! Whole transcripts: their lines on their way to a sink.
ghost use Rattle.std.specs.Prelude.{◌≡◌, ◌≤◌, ◌<◌, ◌-◌, ◌+◌, ◌^◌, ◌++◌, [], length, take, Some, IfOk, IfErr, OnOk, OnErr};
ghost use Rattle.std.specs.Str.{bytes_eq};
ghost use Rattle.nm_io.specs.Counts.{Rose};
ghost use Rattle.nm_io.specs.Gathered.{Gathers};
ghost use Rattle.nm_io.specs.Held.{Writes};
ghost use Rattle.vale_entry.specs.Transcript.{newest, start_line, entry_line, entry_lines, end_line, text_of};
ghost use Rattle.vale_text.specs.declared.transcript.PutError.TheVariants.{Failed as PutFailed, NoMemory as OutOfMemory};
ghost use Rattle.vale_text.specs.Written.{LineBytes, BlamesSink};

use crate::rows::{EndLine, EntryLine, StartLine, put_entry_line};
use nm_io::{Failed, Sink, Text, put_all};
use nm_types::NoMemory;
use std::alloc::Global;
use std::marker::Model;
use vale_entry::Entry;
use vale_strip::{NEWEST, Strip, put_strip};

/// How many bytes are gathered before they go out.
const PAGE_BYTES: usize = 32_768;

/// Why a transcript was not written whole.
#[derive(Clone, Copy, Debug, PartialEq, Eq)]
pub enum PutError {
    /// The output failed.
    Failed,
    /// Out of memory.
    NoMemory,
}

impl From<Failed> for PutError {
    ghost from_gives = { λ _ e. e ≡ PutFailed };

    fn from(_: Failed) -> Self {
        PutError::Failed
    }
}

impl From<NoMemory> for PutError {
    ghost from_gives = { λ _ e. e ≡ OutOfMemory };

    fn from(_: NoMemory) -> Self {
        PutError::NoMemory
    }
}

/// Whole lines in memory. Takes every byte, as long as there is memory.
#[derive(Drop)]
pub(crate) struct Lines {
    bytes: Vec<u8>,
    faults: u64,
}

impl Model for Lines {
    ghost Value = { LineBytes };

    ghost view = { λ l. record { bytes = l.bytes.items; faults = l.faults } };
}

impl Lines {
    pub(crate) fn new(alloc: Global) -> Lines
        ensures { result ≡ record { bytes = []; faults = 0 } }
    {
        Lines {
            bytes: Vec::new(alloc),
            faults: 0,
        }
    }

    pub(crate) fn bytes(&self) -> &[u8]
        ensures { result.now ≡ self.now.bytes }
    {
        &self.bytes
    }

    /// Forgets what went out, and all bytes behind the first `len`.
    pub(crate) fn truncate(&mut self, len: usize)
        ensures { self.new ≡ record self.old { bytes = take len self.old.bytes } }
    {
        self.bytes.truncate(len);
    }
}

impl Sink for Lines {
    ghost holds = { λ l. Some l.bytes };

    ghost faults = { λ l. l.faults };

    fn put(&mut self, bytes: &[u8]) -> Result<usize, Failed> {
        if self.bytes.extend_from_slice(bytes).is_err() {
            self.faults = self.faults.saturating_add(1);
            return Err(Failed);
        }
        Ok(bytes.len())
    }
}

/// Writes the lines that were gathered.
fn put_gathered<K: Sink>(out: &mut K, lines: &mut Lines) -> Result<(), Failed>
    ensures writes { Writes (K.holds out.old) (K.holds out.new) result lines.old.bytes }
    ensures later { K.faults out.old ≤ K.faults out.new }
    ensures cause { OnErr result (Rose (K.faults out.old) (K.faults out.new)) }
    ensures emptied { OnOk result (lines.new.bytes ≡ []) }
    ensures kept { OnErr result (lines.new ≡ lines.old) }
{
    put_all(out, lines.bytes())?;
    lines.truncate(0);
    Ok(())
}

/// Writes a line in memory, or says that there is none left.
pub(crate) fn gather<T: Text>(lines: &mut Lines, line: &T) -> Result<(), NoMemory>
    ensures ok { OnOk result (lines.new.bytes ≡ lines.old.bytes ++ T.text line.now) }
{
    match line.write(lines) {
        Ok(()) => Ok(()),
        Err(Failed) => Err(NoMemory),
    }
}

/// Whether the bytes are those of a line.
pub(crate) fn is_text<T: Text>(
    scratch: &mut Lines,
    line: &T,
    bytes: &[u8],
) -> Result<bool, NoMemory>
    ensures { IfOk result (λ same. same ≡ bytes_eq (T.text line.now) bytes.now) }
{
    scratch.truncate(0);
    gather(scratch, line)?;
    Ok(scratch.bytes() == bytes)
}

/// Writes a line by way of those gathered, which go out if they are many.
fn put_line<K: Sink, T: Text>(out: &mut K, lines: &mut Lines, line: &T) -> Result<(), PutError>
    ensures gathers { Gathers (K.holds out.old) (K.holds out.new) lines.old.bytes lines.new.bytes
        result (T.text line.now) }
    ensures later { K.faults out.old ≤ K.faults out.new }
    ensures cause { IfErr result (BlamesSink (K.faults out.old) (K.faults out.new)) }
{
    gather(lines, line)?;
    if lines.bytes().len() >= PAGE_BYTES {
        put_gathered(out, lines)?;
    }
    Ok(())
}

/// Writes the line of an entry in memory by way of a strip, or says that there is none left.
fn gather_entry(lines: &mut Lines, strip: &mut Strip, line: &EntryLine<'_>) -> Result<(), NoMemory>
    ensures { OnOk result (lines.new.bytes ++ strip.new ≡ (lines.old.bytes ++ strip.old)
        ++ entry_line line.now.version line.now.number line.now.entry.now) }
{
    match put_entry_line(lines, strip, line) {
        Ok(()) => Ok(()),
        Err(Failed) => Err(NoMemory),
    }
}

/// Writes what a strip holds in memory, or says that there is none left.
fn gather_strip(lines: &mut Lines, strip: &mut Strip) -> Result<(), NoMemory>
    ensures { OnOk result (lines.new.bytes ≡ lines.old.bytes ++ strip.old) }
{
    match put_strip(lines, strip) {
        Ok(()) => Ok(()),
        Err(Failed) => Err(NoMemory),
    }
}

/// Writes the line of an entry by way of a strip, and of the lines gathered, which go out if they are
/// many.
fn put_entry<K: Sink>(
    out: &mut K,
    lines: &mut Lines,
    strip: &mut Strip,
    number: u32,
    entry: &Entry,
) -> Result<(), PutError>
    ensures gathers { Gathers (K.holds out.old) (K.holds out.new) (lines.old.bytes ++ strip.old)
        (lines.new.bytes ++ strip.new) result (entry_line newest number entry.now) }
    ensures later { K.faults out.old ≤ K.faults out.new }
    ensures cause { IfErr result (BlamesSink (K.faults out.old) (K.faults out.new)) }
{
    gather_entry(
        lines,
        strip,
        &EntryLine {
            version: NEWEST,
            number,
            entry,
        },
    )?;
    if lines.bytes().len() >= PAGE_BYTES {
        put_gathered(out, lines)?;
    }
    Ok(())
}

/// Writes the lines of the entries, the first of which has the number 1. Several short ones share a
/// strip.
fn put_entries<K: Sink>(out: &mut K, lines: &mut Lines, entries: &[Entry]) -> Result<(), PutError>
    requires { length entries.now < 2 ^ 32 - 1 }
    ensures gathers { Gathers (K.holds out.old) (K.holds out.new) lines.old.bytes lines.new.bytes
        result (entry_lines newest 1 entries.now) }
    ensures later { K.faults out.old ≤ K.faults out.new }
    ensures cause { IfErr result (BlamesSink (K.faults out.old) (K.faults out.new)) }
{
    let mut strip = Strip::new();
    for (i, entry) in entries.iter().enumerate() {
        put_entry(out, lines, &mut strip, i as u32 + 1, entry)?;
    }
    gather_strip(lines, &mut strip)?;
    Ok(())
}

/// Writes the first line, which goes out by itself.
fn put_start<K: Sink>(out: &mut K, lines: &mut Lines, pool: u32) -> Result<(), PutError>
    requires { lines.old.bytes ≡ [] }
    ensures writes { Writes (K.holds out.old) (K.holds out.new) result (start_line newest pool) }
    ensures emptied { OnOk result (lines.new.bytes ≡ []) }
    ensures later { K.faults out.old ≤ K.faults out.new }
    ensures cause { IfErr result (BlamesSink (K.faults out.old) (K.faults out.new)) }
{
    gather(
        lines,
        &StartLine {
            version: NEWEST,
            pool,
        },
    )?;
    put_gathered(out, lines)?;
    Ok(())
}

/// Writes the entries' lines and the last one.
fn put_rest<K: Sink>(
    out: &mut K,
    lines: &mut Lines,
    entries: &[Entry],
    free: u32,
) -> Result<(), PutError>
    requires few { length entries.now < 2 ^ 32 - 1 }
    requires empty { lines.old.bytes ≡ [] }
    ensures writes { Writes (K.holds out.old) (K.holds out.new) result
        (entry_lines newest 1 entries.now ++ end_line (length entries.now) free) }
    ensures later { K.faults out.old ≤ K.faults out.new }
    ensures cause { IfErr result (BlamesSink (K.faults out.old) (K.faults out.new)) }
{
    put_entries(out, lines, entries)?;
    let count = entries.len() as u32;
    put_line(out, lines, &EndLine { count, free })?;
    put_gathered(out, lines)?;
    Ok(())
}

/// Writes the transcript of these entries, which begins with the pool and ends with the free buffers.
/// The first line goes out in a call of its own, the others some tens of kilobytes at once.
#[tactic(auto, unfolding(vale_entry::specs::Transcript::text_of))]
pub fn write_transcript<K: Sink>(
    alloc: Global,
    out: &mut K,
    pool: u32,
    entries: &[Entry],
    free: u32,
) -> Result<(), PutError>
    requires { length entries.now < 2 ^ 32 - 1 }
    ensures writes { Writes (K.holds out.old) (K.holds out.new) result (text_of newest pool entries.now free) }
    ensures later { K.faults out.old ≤ K.faults out.new }
    ensures cause { IfErr result (BlamesSink (K.faults out.old) (K.faults out.new)) }
{
    let mut lines = Lines::new(alloc);
    put_start(out, &mut lines, pool)?;
    put_rest(out, &mut lines, entries, free)
}
