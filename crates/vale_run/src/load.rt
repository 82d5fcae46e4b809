//! Runs the load of a number.
ghost use Rattle.std.specs.Prelude.{◌≡◌, ◌≤◌, ◌<◌, ◌^◌, map, sum_by, string_bytes, OnErr};
ghost use Rattle.nm_io.specs.Counts.{Rose};
ghost use Rattle.nm_io.specs.Held.{Writes};
ghost use Rattle.vale_entry.specs.World.{free_count};
ghost use Rattle.vale_book.specs.Recorded.{standing};
ghost use Rattle.vale_words.specs.Words.{are_digits, number_in};
ghost use Rattle.vale_run.specs.Load.{most_load, load_number, count_sent, bytes_sent, load_line, load_text, LoadEnds};
ghost use Rattle.vale_run.specs.Status.{WritesAnswer};

use crate::command::{stopped, word_behind};
use crate::playing::play_recorded;
use crate::remains::Remains;
use crate::status::Status;
use nm_io::{Failed, Gate, Sink};
use nm_types::Limits;
use std::sync::Wait;
use std::thread::Threads;
use vale_book::Book;
use vale_captures::Inputs;
use vale_entry::{Ask, Entry};
use vale_gen::load;
use vale_strip::{Part, put_parts};

/// The most digits of a number.
const MAX_DIGITS: usize = 20;

fn are_digits(word: &[u8]) -> bool
    ensures { result ≡ are_digits word.now }
{
    word.iter().all(|b| b.is_ascii_digit())
}

/// The number that a word of digits writes, if it fits 64 bits.
fn number_of(word: &str) -> Option<u64>
    ensures { result ≡ number_in 0 most_load word.now }
{
    if word.len() <= MAX_DIGITS && are_digits(word.as_bytes()) {
        word.parse().ok()
    } else {
        None
    }
}

/// The number of the words `load N`.
pub(crate) fn load_number(words: &[String]) -> Option<u64>
    ensures { result ≡ load_number (map string_bytes words.now) }
{
    number_of(word_behind(words, "load")?)
}

/// How many frames an entry sends, and how many bytes these have.
fn sent_by(entry: &Entry) -> (u64, u64)
    requires { bytes_sent entry.now < 2 ^ 64 }
    ensures { result ≡ (count_sent entry.now, bytes_sent entry.now) }
{
    match &entry.ask {
        Ask::Send { frames, .. } => (frames.len() as u64, frames.size()),
        _ => (0, 0),
    }
}

/// The frames and the bytes that the entries of a history send.
fn sent(entries: &[Entry]) -> (u64, u64)
    requires frames { sum_by count_sent entries.now < 2 ^ 64 }
    requires bytes { sum_by bytes_sent entries.now < 2 ^ 64 }
    ensures { result ≡ (sum_by count_sent entries.now, sum_by bytes_sent entries.now) }
{
    let (mut frames, mut bytes) = (0, 0);
    for entry in entries {
        let (count, size) = sent_by(entry);
        frames += count;
        bytes += size;
    }
    (frames, bytes)
}

#[tactic(auto, unfolding(crate::specs::Load::load_line))]
fn put_line<K: Sink>(out: &mut K, n: u64, frames: u64, bytes: u64, free: u32) -> Result<(), Failed>
    ensures writes { Writes (K.holds out.old) (K.holds out.new) result
        (load_line n frames bytes free) }
    ensures later { K.faults out.old ≤ K.faults out.new }
    ensures cause { OnErr result (Rose (K.faults out.old) (K.faults out.new)) }
{
    put_parts(
        out,
        &[
            Part::Text(b"load "),
            Part::Number(n),
            Part::Text(b" users 4 frames "),
            Part::Number(frames),
            Part::Text(b" bytes "),
            Part::Number(bytes),
            Part::Text(b" free "),
            Part::Number(free as u64),
            Part::Text(b"\n"),
        ],
    )
}

/// Writes the line of a load that was played.
fn write<K: Sink>(out: &mut K, n: u64, book: Book, remains: &mut Remains) -> Status
    requires whole { free_count (standing book).world ≡ book.pool }
    ensures written { WritesAnswer (load_text n book.pool book.entries)
        (K.faults out.old, K.faults out.new) (K.holds out.old) (K.holds out.new) result }
    ensures later { K.faults out.old ≤ K.faults out.new }
{
    let (frames, bytes) = sent(book.history().entries());
    let free = book.free();
    remains.keep(book.close());
    match put_line(out, n, frames, bytes, free) {
        Ok(()) => Status::Done,
        Err(Failed) => Status::WriteFault,
    }
}

/// Plays the load of a number, and writes the line that says what was sent.
pub(crate) fn run_load<R: AllocGlobal + Threads + Wait + Sync, K: Sink, G: Gate>(
    rt: &R,
    n: u64,
    out: &mut K,
    gate: &G,
    remains: &mut Remains,
) -> Status
    ensures ends { LoadEnds Limits.VERSION_2 n (K.faults out.old, K.faults out.new)
        (K.holds out.old) (K.holds out.new) result }
    ensures later { K.faults out.old ≤ K.faults out.new }
{
    let Ok(script) = load(rt.alloc(), n) else {
        return Status::NoMemory;
    };
    let inputs = Inputs::from(Vec::new(rt.alloc()));
    let Ok((book, played)) = play_recorded(rt, &script, &inputs, gate) else {
        return Status::NoMemory;
    };
    match played {
        Ok(_) => write(out, n, book, remains),
        // A load sends so few frames that its record is never full: memory was wanting.
        Err(fault) => {
            drop(book.close());
            stopped(fault)
        }
    }
}
