use nm_io::{MemorySink, Sink};
use nm_types::{Batch, NoMemory, PortId, SessionId};
use std::alloc::Global;
use std::io::{self, Print};
use std::time::{Clock, Duration, Instant};
use vale_entry::{Ask, Dests, Entry, Reply};
use vale_text::{Text, read, write_transcript};

/// The bytes of each frame.
const FRAME: usize = 1514;

/// The frames of each send.
const FRAMES: u32 = 64;

const FEW: u32 = 4;

const MANY: u32 = 340;

/// What it took to write a transcript and to read it.
#[derive(Clone, Copy)]
struct Times {
    entries: usize,
    bytes: usize,
    writing: Duration,
    reading: Duration,
}

/// A batch of 64 frames.
fn frames(alloc: Global) -> Result<Batch, NoMemory> {
    let frame = [0x5a; FRAME];
    let mut frames = Batch::new(alloc);
    for _ in 0..FRAMES {
        frames.push(&frame, false)?;
    }
    Ok(frames)
}

/// Sends of 64 frames to nobody.
fn history(alloc: Global, sends: u32) -> Option<Vec<Entry>> {
    let mut entries = Vec::new(alloc);
    for _ in 0..sends {
        let frames = frames(alloc).ok()?;
        let entry = Entry {
            session: SessionId(1),
            ask: Ask::Send {
                port: PortId(2),
                frames,
            },
            reply: Reply::Offered {
                short: 0,
                lone: FRAMES,
                to: Dests::from(Vec::new(alloc)),
            },
        };
        entries.push(entry).ok()?;
    }
    Some(entries)
}

/// Writes the transcript of a history with a pool of so many buffers, all free at its end. Answers
/// whether all was written.
pub fn write<K: Sink>(alloc: Global, out: &mut K, pool: u32, entries: &[Entry]) -> bool {
    entries.len() < u32::MAX as usize && write_transcript(alloc, out, pool, entries, pool).is_ok()
}

/// The entries of a transcript of the newest version.
pub fn entries_of(alloc: Global, text: &[u8]) -> Option<Vec<Entry>> {
    if text.len() >= u32::MAX as usize {
        return None;
    }
    match read(alloc, text) {
        Ok(Text { entries, .. }) => Some(entries),
        Err(_) => None,
    }
}

/// Writes the transcript of a history, and reads it.
fn play<R: Clock>(rt: &R, alloc: Global, entries: &[Entry]) -> Option<Times> {
    let mut sink = MemorySink::new(alloc, Vec::new(alloc));
    let start = Instant::now(rt).ok()?;
    if !write(alloc, &mut sink, 64, entries) {
        return None;
    }
    let writing = start.elapsed(rt).ok()?;
    let entries = entries_of(alloc, sink.bytes())?.len();
    Some(Times {
        entries,
        bytes: sink.bytes().len(),
        writing,
        reading: start.elapsed(rt).ok()?.saturating_sub(writing),
    })
}

/// Writes a small transcript, reads it and prints how many entries it has, or, if `is_timed`, one of
/// 66 MB and also prints megabytes per second each way.
pub fn run<R: Print + Clock>(rt: &R, alloc: Global, is_timed: bool) -> io::Result<()> {
    let Some(entries) = history(alloc, if is_timed { MANY } else { FEW }) else {
        return Err(io::ErrorKind::OutOfMemory.into());
    };
    let Some(times) = play(rt, alloc, &entries) else {
        return Err(io::ErrorKind::InvalidData.into());
    };
    println!(rt; "text: {} entries written and read", times.entries)?;
    if is_timed {
        let bytes = times.bytes as u128;
        let written = bytes / times.writing.as_micros().max(1);
        let read = bytes / times.reading.as_micros().max(1);
        println!(rt; "text: {written} megabytes written per second, {read} read")?;
    }
    Ok(())
}
