//! Reads a transcript, line by line. Each line is read field by field and written again: it is the
//! line of its entry if it comes back.
ghost use Rattle.std.specs.Prelude.{◌≡◌, ◌+◌, ◌-◌, ◌<◌, ◌≤◌, ◌^◌, ◌==◌, [], length, sum_by, drop, Some, IfOk, IfErr, IfSome, slice_index};
ghost use Rattle.std.specs.List.{position};
ghost use Rattle.std.specs.Option.{IfNone};
ghost use Rattle.vale_entry.specs.Transcript.{newest};
ghost use Rattle.vale_fields.specs.Lists.{words_of};
ghost use Rattle.vale_fields.specs.Rows.{entry_of};
ghost use Rattle.vale_text.specs.declared.reader.TextFault.TheVariants.{NoMemory as OutOfMemory};
ghost use Rattle.vale_text.specs.Lines.{is_line_feed, IsCut, IsUncut, front_of, version_in, pool_in, most_pool_of, is_start, free_in, is_end, entry_in};
ghost use Rattle.vale_text.specs.Reading.{IsTextWith, BlamesText, IsReadTo, listed_in};

use crate::rows::{EndLine, EntryLine, StartLine};
use crate::transcript::{Lines, is_text};
use nm_types::{MAX_POOL, NoMemory};
use std::alloc::{AllocFailed, Global};
use vale_entry::{Ask, Entry};
use vale_fields::{cut_at, entry_of, is_printable, mark_in, short_of, words_of};
use vale_strip::NEWEST;

/// Why a text was not read.
#[derive(Clone, Copy, Debug, PartialEq, Eq)]
pub enum TextFault {
    /// The first line that is no line of a transcript, counted from 1; one past the last line if the
    /// end is missing.
    BadLine { line: u32 },
    /// Out of memory.
    NoMemory,
}

impl From<NoMemory> for TextFault {
    ghost from_gives = { λ _ e. e ≡ OutOfMemory };

    fn from(_: NoMemory) -> Self {
        TextFault::NoMemory
    }
}

impl<T: Drop> From<AllocFailed<T>> for TextFault {
    ghost from_gives = { λ _ e. e ≡ OutOfMemory };

    fn from(_: AllocFailed<T>) -> Self {
        TextFault::NoMemory
    }
}

fn line_feed_in(bytes: &[u8]) -> Option<usize>
    ensures { result ≡ position is_line_feed bytes.now }
{
    mark_in(b'\n', bytes)
}

/// The first line with its line feed, and what follows it; `None` if no line ends.
fn first_line(bytes: &[u8]) -> Option<(&[u8], &[u8])>
    ensures some { IfSome result (λ cut. IsCut bytes.now cut.0.now cut.1.now) }
    ensures none { IfNone result (IsUncut bytes.now) }
{
    match line_feed_in(bytes) {
        Some(end) => Some((&bytes[..end + 1], &bytes[end + 1..])),
        None => None,
    }
}

/// The bytes behind the first `n`.
fn behind(n: usize, bytes: &[u8]) -> &[u8]
    ensures { result.now ≡ drop n bytes.now }
{
    if n <= bytes.len() { &bytes[n..] } else { b"" }
}

#[tactic(auto, unfolding(crate::specs::Lines::version_in))]
fn version_in(line: &[u8]) -> u32
    ensures { result ≡ version_in line.now }
{
    short_of(cut_at(b' ', behind(5, line)).0)
}

#[tactic(auto, unfolding(crate::specs::Lines::pool_in))]
fn pool_in(line: &[u8]) -> u32
    ensures { result ≡ pool_in line.now }
{
    let pool = behind(5, cut_at(b' ', behind(5, line)).1);
    short_of(cut_at(b'\n', pool).0)
}

/// The greatest pool of a text of the first version.
const FIRST_MOST_POOL: u32 = 65_536;

/// The greatest pool of a text of this version.
fn most_pool_of(version: u32) -> u32
    ensures { result ≡ most_pool_of version }
{
    if version == 1 {
        FIRST_MOST_POOL
    } else {
        MAX_POOL
    }
}

fn is_start(scratch: &mut Lines, oldest: u32, line: &[u8]) -> Result<bool, NoMemory>
    ensures { IfOk result (λ is. is ≡ is_start oldest line.now) }
{
    let (version, pool) = (version_in(line), pool_in(line));
    if !(oldest..=NEWEST).contains(&version) {
        return Ok(false);
    }
    if !(1..=most_pool_of(version)).contains(&pool) {
        return Ok(false);
    }
    is_text(scratch, &StartLine { version, pool }, line)
}

#[tactic(auto, unfolding(crate::specs::Lines::free_in))]
fn free_in(line: &[u8]) -> u32
    ensures { result ≡ free_in line.now }
{
    let free = behind(5, cut_at(b' ', behind(4, line)).1);
    short_of(cut_at(b'\n', free).0)
}

fn begins_with_e(line: &[u8]) -> bool
    ensures { result ≡ (slice_index line.now 0 == 101) }
{
    match line.first() {
        Some(b) => *b == b'e',
        None => false,
    }
}

#[tactic(auto, using(crate::proofs::LineReads::ends))]
fn is_end(scratch: &mut Lines, count: u32, line: &[u8]) -> Result<bool, NoMemory>
    ensures { IfOk result (λ is. is ≡ is_end count line.now) }
{
    if !begins_with_e(line) {
        return Ok(false);
    }
    let free = free_in(line);
    is_text(scratch, &EndLine { count, free }, line)
}

/// The entry that the words of a line say under its number, `None` if they say none.
fn entry_said(alloc: Global, number: u32, line: &[u8]) -> Result<Option<Entry>, NoMemory>
    ensures { IfOk result (λ entry. entry ≡ entry_of number (words_of (front_of 10 line.now))) }
{
    let words = words_of(alloc, cut_at(b'\n', line).0)?;
    entry_of(alloc, number, &words)
}

/// The entry whose line this is in a text of this version, `None` if it is none's.
fn entry_in(
    alloc: Global,
    scratch: &mut Lines,
    version: u32,
    number: u32,
    line: &[u8],
) -> Result<Option<Entry>, NoMemory>
    ensures { IfOk result (λ entry. entry ≡ entry_in version number line.now) }
{
    let Some(entry) = entry_said(alloc, number, line)? else {
        return Ok(None);
    };
    if !is_printable(number, &entry) {
        return Ok(None);
    }
    let own_line = EntryLine {
        version,
        number,
        entry: &entry,
    };
    if is_text(scratch, &own_line, line)? {
        Ok(Some(entry))
    } else {
        Ok(None)
    }
}

/// How many buffers the entries of a text list at most, all together: as many as a text of version 1
/// has room for in 256 MB. Spans could say more than any memory holds.
const MOST_LISTED: usize = 134_217_728;

/// How many buffers an entry lists.
fn listed_in(entry: &Entry) -> usize
    ensures { result ≡ listed_in entry.now }
{
    match &entry.ask {
        Ask::Sync { back, .. } | Ask::Get { back, .. } => back.as_slice().len(),
        Ask::Finish { bufs, .. } => bufs.as_slice().len(),
        _ => 0,
    }
}

/// How many buffers may be listed behind an entry, where so many may be by it and behind it.
fn left_behind(left: usize, entry: &Entry) -> Result<usize, NoMemory>
    ensures { IfOk result (λ fewer. fewer + listed_in entry.now ≡ left) }
{
    left.checked_sub(listed_in(entry)).ok_or(NoMemory)
}

/// Reads the first line, and returns it with what stands behind it.
#[tactic(auto, using(crate::proofs::Reading::reading))]
fn read_start<'a>(
    scratch: &mut Lines,
    oldest: u32,
    bytes: &'a [u8],
) -> Result<(StartLine, &'a [u8]), TextFault>
    requires { oldest ≤ newest }
    ensures ok { IfOk result (λ start. IsReadTo oldest start.0.version start.0.pool bytes.now [] start.1.now) }
    ensures shorter { IfOk result (λ start. length start.1.now < length bytes.now) }
    ensures bad { IfErr result (BlamesText oldest bytes.now) }
{
    let Some((line, rest)) = first_line(bytes) else {
        return Err(TextFault::BadLine { line: 1 });
    };
    if !is_start(scratch, oldest, line)? {
        return Err(TextFault::BadLine { line: 1 });
    }
    let (version, pool) = (version_in(line), pool_in(line));
    Ok((StartLine { version, pool }, rest))
}

/// What a transcript tells.
#[derive(Drop)]
pub struct Text {
    /// Its version.
    pub version: u32,
    /// The number of buffers of the pool.
    pub pool: u32,
    /// The entries.
    pub entries: Vec<Entry>,
    /// The number of free buffers.
    pub free: u32,
}

/// Reads a transcript of a version from the oldest one on.
fn read_since(alloc: Global, oldest: u32, bytes: &[u8]) -> Result<Text, TextFault>
    requires short { length bytes.now < 2 ^ 32 - 1 }
    requires known { oldest ≤ newest }
    ensures ok { IfOk result (λ text. IsTextWith oldest bytes.now text.version text.pool text.entries.items text.free) }
    ensures few { IfOk result (λ text. length text.entries.items < length bytes.now) }
    ensures listed { IfOk result (λ text. sum_by listed_in text.entries.items ≤ MOST_LISTED) }
    ensures bad { IfErr result (BlamesText oldest bytes.now) }
{
    let mut scratch = Lines::new(alloc);
    let mut entries = Vec::new(alloc);
    let mut left = MOST_LISTED;
    let (start, mut rest) = read_start(&mut scratch, oldest, bytes)?;
    let mut at = 2;
    while let Some((line, after)) = first_line(rest) {
        if is_end(&mut scratch, at - 2, line)? {
            if after.is_empty() {
                let free = free_in(line);
                return Ok(Text {
                    version: start.version,
                    pool: start.pool,
                    entries,
                    free,
                });
            }
            return Err(TextFault::BadLine { line: at + 1 });
        }
        match entry_in(alloc, &mut scratch, start.version, at - 1, line)? {
            Some(entry) => {
                left = left_behind(left, &entry)?;
                entries.push(entry)?;
            }
            None => return Err(TextFault::BadLine { line: at }),
        }
        rest = after;
        at += 1;
    }
    Err(TextFault::BadLine { line: at })
}

/// Reads a transcript of version 1 or 2, and returns what it tells, which is written as the same
/// bytes. `BadLine` tells that the text is that of no history in either version; `NoMemory` tells
/// nothing. It is also the answer to a line with more than a million buffers or words, before memory
/// is taken for them.
pub fn read_any(alloc: Global, bytes: &[u8]) -> Result<Text, TextFault>
    requires { length bytes.now < 2 ^ 32 - 1 }
    ensures ok { IfOk result (λ text. IsTextWith 1 bytes.now text.version text.pool text.entries.items text.free) }
    ensures few { IfOk result (λ text. length text.entries.items < length bytes.now) }
    ensures listed { IfOk result (λ text. sum_by listed_in text.entries.items ≤ MOST_LISTED) }
    ensures bad { IfErr result (BlamesText 1 bytes.now) }
{
    read_since(alloc, 1, bytes)
}

/// Reads a transcript of the version that is written, and returns what it tells, as `read_any` does.
/// `BadLine` tells that the text is that of no history in this version; `NoMemory` tells nothing.
pub fn read(alloc: Global, bytes: &[u8]) -> Result<Text, TextFault>
    requires { length bytes.now < 2 ^ 32 - 1 }
    ensures ok { IfOk result (λ text. IsTextWith newest bytes.now text.version text.pool text.entries.items text.free) }
    ensures few { IfOk result (λ text. length text.entries.items < length bytes.now) }
    ensures listed { IfOk result (λ text. sum_by listed_in text.entries.items ≤ MOST_LISTED) }
    ensures bad { IfErr result (BlamesText newest bytes.now) }
{
    read_since(alloc, NEWEST, bytes)
}
