use crate::plays::count_in;
use nm_io::{MemoryShelf, MemorySink, NoGate};
use nm_types::NoMemory;
use std::alloc::{AllocError, Global};
use std::process::Abort;
use std::sync::Wait;
use std::thread::Threads;
use vale_run::{Status, report, run};

mod captures;
mod hostile;
mod load;
mod scripts;
mod texts;

use captures::*;
use scripts::*;
use texts::*;

/// What a run leaves: the shelf, the output, and the line that says how it ended, with its status.
#[derive(Drop)]
struct Left {
    shelf: MemoryShelf,
    out: MemorySink,
    line: MemorySink,
    code: u8,
}

impl Left {
    /// The run's line and its output are these.
    fn says(&self, rt: &impl Abort, line: &[u8], text: &[u8]) {
        assert_eq!(rt; self.line.bytes(), line);
        assert_eq!(rt; self.out.bytes(), text);
    }

    /// The run is done, and these lines stand in its output.
    fn holds(&self, rt: &impl Abort, lines: &[u8]) {
        assert_eq!(rt; self.line.bytes(), EMPTY);
        assert!(rt; stand_in(self.out.bytes(), lines));
    }

    /// What was saved in out.pcap.
    fn saved(&self) -> &[u8] {
        self.shelf.file("out.pcap").unwrap_or(EMPTY)
    }

    /// The run is done, and saved these bytes.
    fn saves(&self, rt: &impl Abort, saved: &[u8]) {
        assert_eq!(rt; self.line.bytes(), EMPTY);
        assert_eq!(rt; self.saved(), saved);
    }
}

fn command(alloc: Global, words: &[&str]) -> Result<Vec<String>, AllocError> {
    let mut command = Vec::new(alloc);
    for word in words {
        command.push(String::from_str(alloc, word)?)?;
    }
    Ok(command)
}

/// Puts a script and a capture on a shelf.
fn fill(shelf: &mut MemoryShelf, script: &[u8], capture: &[u8]) -> Result<(), NoMemory> {
    shelf.add("s", script)?;
    shelf.add("in.pcap", capture)
}

/// Runs a command over a shelf and a sink.
fn run_over<R: AllocGlobal + Threads + Wait + Sync>(
    rt: &R,
    words: &[String],
    shelf: MemoryShelf,
    out: MemorySink,
) -> (Left, Status) {
    let (mut shelf, mut out) = (shelf, out);
    let status = run(rt, words, &mut shelf, &mut out, &NoGate);
    let mut line = MemorySink::new(rt.alloc(), Vec::new(rt.alloc()));
    let code = report(&mut line, &status);
    let left = Left {
        shelf,
        out,
        line,
        code,
    };
    (left, status)
}

fn ran<R: AllocGlobal + Threads + Wait + Sync>(
    rt: &R,
    words: &[&str],
    script: &[u8],
    capture: &[u8],
    fail_shelf: u64,
    fail_sink: u64,
) -> Result<Left, NoMemory> {
    let alloc = rt.alloc();
    let words = command(alloc, words)?;
    let mut shelf = MemoryShelf::new(alloc, vec![in alloc; fail_shelf]?);
    fill(&mut shelf, script, capture)?;
    let out = MemorySink::new(alloc, vec![in alloc; fail_sink]?);
    let (left, _status) = run_over(rt, &words, shelf, out);
    Ok(left)
}

/// A run that may play a capture ends with this line, and writes this text.
fn run_says<R: AllocGlobal + Threads + Wait + Sync + Abort>(
    rt: &R,
    script: &[u8],
    capture: &[u8],
    line: &[u8],
    text: &[u8],
) -> Result<(), NoMemory> {
    let left = ran(rt, &["run", "s"], script, capture, 99_999, 99)?;
    left.says(rt, line, text);
    Ok(())
}

/// Each script's run ends with its line, and writes its text.
fn all_say<R: AllocGlobal + Threads + Wait + Sync + Abort>(
    rt: &R,
    cases: &[Case],
) -> Result<(), NoMemory> {
    for (script, line, text) in cases {
        run_says(rt, script, EMPTY, line, text)?;
    }
    Ok(())
}

#[test]
fn examples_are_played(rt: HostRuntime) -> Result<(), NoMemory> {
    all_say(&rt, EXAMPLES)
}

/// Tells whether lines stand in a text, one behind the other.
fn stand_in(text: &[u8], lines: &[u8]) -> bool {
    !lines.is_empty() && text.windows(lines.len()).any(|part| part == lines)
}

/// A run that may play a capture is done, and these lines stand in what it writes.
fn run_holds<R: AllocGlobal + Threads + Wait + Sync + Abort>(
    rt: &R,
    script: &[u8],
    capture: &[u8],
    lines: &[u8],
) -> Result<(), NoMemory> {
    let left = ran(rt, &["run", "s"], script, capture, 99_999, 99_999)?;
    left.holds(rt, lines);
    Ok(())
}

/// These lines stand in what each script writes.
#[test]
fn lines_are_run(rt: HostRuntime) -> Result<(), NoMemory> {
    for (script, lines) in LINES {
        run_holds(&rt, script, EMPTY, lines)?;
    }
    Ok(())
}

/// Opens the port of this number.
fn push_opening(script: &mut Vec<u8>, port: u8, sizes: &[u8]) -> Result<(), AllocError> {
    let digits = [b'0' + port / 100, b'0' + port / 10 % 10, b'0' + port % 10];
    script.extend_from_slice(b"open a vale0:p")?;
    script.extend_from_slice(&digits)?;
    script.extend_from_slice(sizes)
}

/// The lines that open ports, with those before and behind them.
fn opening_script(alloc: Global, opening: &Opening) -> Result<Vec<u8>, AllocError> {
    let mut script = Vec::from_slice(alloc, opening.before)?;
    for port in 0..opening.ports {
        push_opening(&mut script, port, opening.sizes)?;
    }
    script.extend_from_slice(opening.behind)?;
    Ok(script)
}

/// Runs the script that opens ports. Its lines are written, and so many grants give a frame.
fn open_ports<R: AllocGlobal + Threads + Wait + Sync + Abort>(
    rt: &R,
    opening: &Opening,
) -> Result<(), NoMemory> {
    let script = opening_script(rt.alloc(), opening)?;
    let left = ran(rt, &["run", "s"], &script, EMPTY, 99, 99_999)?;
    left.holds(rt, opening.lines);
    assert_eq!(rt; count_in(left.out.bytes(), GIVEN), opening.given);
    Ok(())
}

/// A switch takes no more ports than the limits say, and a pool gives no more buffers.
#[test]
fn many_ports_are_opened(rt: HostRuntime) -> Result<(), NoMemory> {
    for opening in OPENINGS {
        open_ports(&rt, opening)?;
    }
    Ok(())
}

/// The entry that sends the frame of the first 64 slots, with all their bytes, and the one behind it.
fn longest_sent(alloc: Global) -> Result<Vec<u8>, AllocError> {
    let mut line = Vec::from_slice(alloc, LONGEST_BEFORE)?;
    for _ in 0..64 {
        line.extend_from_slice(SLOT_BYTES)?;
    }
    line.push(b',')?;
    line.extend_from_slice(SLOT_BYTES)?;
    line.extend_from_slice(LONGEST_BEHIND)?;
    Ok(line)
}

/// Marks a slot: the frame goes on behind it.
fn push_mark(script: &mut Vec<u8>, slot: u8) -> Result<(), AllocError> {
    script.extend_from_slice(b"poke a vale0:a tx ")?;
    script.extend_from_slice(&[b'0' + slot / 10, b'0' + slot % 10])?;
    script.extend_from_slice(b" flags 32\n")
}

/// Puts 65 slots, marks so many of them, and sends.
fn slots_script(alloc: Global, marked: u8) -> Result<Vec<u8>, AllocError> {
    let mut script = Vec::from_slice(alloc, SLOTS_PUT)?;
    for slot in 0..marked {
        push_mark(&mut script, slot)?;
    }
    script.extend_from_slice(b"tx a vale0:a\n")?;
    Ok(script)
}

/// Of 65 slots pushed so many go on, and this line tells what becomes of them.
fn push_slots<R: AllocGlobal + Threads + Wait + Sync + Abort>(
    rt: &R,
    marked: u8,
    line: &[u8],
) -> Result<(), NoMemory> {
    let script = slots_script(rt.alloc(), marked)?;
    run_holds(rt, &script, EMPTY, line)
}

/// Of 65 slots pushed so many go on: the frame of 64 slots is sent, and the longer one refused.
#[test]
fn a_frame_takes_so_many_slots(rt: HostRuntime) -> Result<(), NoMemory> {
    let sent = longest_sent(rt.alloc())?;
    push_slots(&rt, 63, &sent)?;
    push_slots(&rt, 64, LONGER_REFUSED)
}

/// Puts a broadcast of this length behind the records of a capture.
fn push_record(capture: &mut Vec<u8>, len: u32) -> Result<(), AllocError> {
    let [a, b, c, d] = len.to_be_bytes();
    capture.extend_from_slice(&[0, 0, 0, 0, 0, 0, 0, 0, a, b, c, d, a, b, c, d])?;
    let end = capture.len().saturating_add(len as usize);
    capture.extend_from_slice(BROADCAST)?;
    capture.resize(end, 0x5a)
}

/// A capture of broadcasts of these lengths.
fn capture_of(alloc: Global, lens: &[u32]) -> Result<Vec<u8>, AllocError> {
    let mut capture = Vec::from_slice(alloc, PLAYED_HEADER)?;
    for len in lens {
        push_record(&mut capture, *len)?;
    }
    Ok(capture)
}

/// Plays records of these lengths. Lines stand in what the script writes.
fn run_long<R: AllocGlobal + Threads + Wait + Sync + Abort>(
    rt: &R,
    lens: &[u32],
    script: &[u8],
    lines: &[u8],
) -> Result<(), NoMemory> {
    let capture = capture_of(rt.alloc(), lens)?;
    run_holds(rt, script, &capture, lines)
}

/// These lines stand in what each script writes that plays long records.
#[test]
fn long_records_are_run(rt: HostRuntime) -> Result<(), NoMemory> {
    for (lens, script, lines) in LONG_RECORDS {
        run_long(&rt, lens, script, lines)?;
    }
    Ok(())
}

/// A run that plays a capture is done, and saves these bytes.
fn run_saves<R: AllocGlobal + Threads + Wait + Sync + Abort>(
    rt: &R,
    script: &[u8],
    capture: &[u8],
    saved: &[u8],
) -> Result<(), NoMemory> {
    let left = ran(rt, &["run", "s"], script, capture, 99_999, 99_999)?;
    left.saves(rt, saved);
    Ok(())
}

/// The capture that is saved of a record of 5,000 bytes.
fn long_saved(alloc: Global) -> Result<Vec<u8>, AllocError> {
    let mut saved = Vec::from_slice(alloc, SAVED_HEADER)?;
    saved.extend_from_slice(LONG_SAVED)?;
    saved.extend_from_slice(BROADCAST)?;
    saved.resize(5_040, 0x5a)?;
    Ok(saved)
}

/// A record of 5,000 bytes is saved whole. A pipe's end passes it over.
#[test]
fn long_records_are_played_and_saved(rt: HostRuntime) -> Result<(), NoMemory> {
    let capture = capture_of(rt.alloc(), &[5_000])?;
    let saved = long_saved(rt.alloc())?;
    run_saves(&rt, CAPTURE, &capture, &saved)?;
    run_saves(&rt, PIPE_CAPTURE, &capture, SAVED_HEADER)
}

#[test]
fn captures_are_played_and_saved(rt: HostRuntime) -> Result<(), NoMemory> {
    for (script, capture, saved) in SAVED_CAPTURES {
        run_saves(&rt, script, capture, saved)?;
    }
    Ok(())
}

#[test]
fn bad_captures_are_told(rt: HostRuntime) -> Result<(), NoMemory> {
    for (capture, count, line) in BAD_CAPTURES {
        let part = &capture[..capture.len().min(*count)];
        run_says(&rt, CAPTURE, part, line, EMPTY)?;
    }
    Ok(())
}

/// A capture of so many bytes, zeros behind the first ones, is not played.
fn run_large<R: AllocGlobal + Threads + Wait + Sync + Abort>(
    rt: &R,
    head: &[u8],
    count: usize,
    script: &[u8],
    line: &[u8],
) -> Result<(), NoMemory> {
    let mut capture = Vec::from_slice(rt.alloc(), head)?;
    capture.resize(count, 0)?;
    run_says(rt, script, &capture, line, EMPTY)
}

/// Captures of too many bytes, and of too many frames, counted once for each line that plays them.
#[test]
fn large_captures_are_told(rt: HostRuntime) -> Result<(), NoMemory> {
    for (head, count, script, line) in LARGE_CAPTURES {
        run_large(&rt, head, *count, script, line)?;
    }
    Ok(())
}

/// A script that a run reads, the calls of the shelf and of the sink that fail, and the line that
/// tells it.
const FAULTS: &[(&str, u64, u64, &[u8])] = &[
    ("s", 1, 99, b"vale: cannot read s\n"),
    ("t", 99, 99, b"vale: cannot read t\n"),
    ("s", 3, 99, b"vale: cannot read in.pcap\n"),
    ("s", 99, 1, b"vale: cannot write\n"),
];

#[test]
fn faults_are_told(rt: HostRuntime) -> Result<(), NoMemory> {
    for (name, fail_shelf, fail_sink, line) in FAULTS {
        let left = ran(
            &rt,
            &["run", name],
            CAPTURE,
            PLAYED,
            *fail_shelf,
            *fail_sink,
        )?;
        left.says(&rt, line, EMPTY);
    }
    Ok(())
}

/// Where the shelf's or the sink's call fails, this text is written, and this saved.
fn run_keeps<R: AllocGlobal + Threads + Wait + Sync + Abort>(
    rt: &R,
    fail_shelf: u64,
    fail_sink: u64,
    text: &[u8],
    saved: &[u8],
) -> Result<(), NoMemory> {
    let left = ran(rt, &["run", "s"], TWO_SAVED, PLAYED, fail_shelf, fail_sink)?;
    left.says(rt, b"vale: cannot write\n", text);
    assert_eq!(rt; left.saved(), saved);
    assert!(rt; left.shelf.file("other.pcap").is_none());
    Ok(())
}

/// A sink whose second call fails holds the first line; where the second of two captures is not
/// saved, the transcript and the first one are whole.
#[test]
fn what_was_written_before_a_fault_stays(rt: HostRuntime) -> Result<(), NoMemory> {
    run_keeps(&rt, 99, 2, b"vale 2 pool 64\n", EMPTY)?;
    run_keeps(&rt, 6, 99, CAPTURE_TEXT, SAVED)
}

/// A word twice; a port that is not open, is another's, is closed twice; a user in a block; frames
/// too many.
#[test]
fn bad_scripts_are_told(rt: HostRuntime) -> Result<(), NoMemory> {
    all_say(&rt, BAD_SCRIPTS)
}

const USAGE: &[u8] = b"usage: vale run SCRIPT | vale load N | vale migrate FILE\n";

/// Words of no command; of a load no word, two words, no digits, a sign, a number past 64 bits, and
/// one of 21 digits.
const OTHER_WORDS: &[&[&str]] = &[
    &["run"],
    &["ran", "s"],
    &["run", "s", "s"],
    &["load"],
    &["load", "7", "7"],
    &["load", ""],
    &["load", "x"],
    &["load", "-1"],
    &["load", "+1"],
    &["load", "18446744073709551616"],
    &["load", "000000000000000000007"],
    &["Load", "7"],
    &["migrate"],
    &["migrate", "s", "s"],
];

#[test]
fn other_words_are_refused(rt: HostRuntime) -> Result<(), NoMemory> {
    for words in OTHER_WORDS {
        let left = ran(&rt, words, EMPTY, EMPTY, 99, 99)?;
        left.says(&rt, USAGE, EMPTY);
    }
    Ok(())
}

/// A migration ends with this status and its line, and writes this text.
fn migrate<R: AllocGlobal + Threads + Wait + Sync + Abort>(
    rt: &R,
    (text, code, line, new_text): &Migration,
) -> Result<(), NoMemory> {
    let left = ran(rt, &["migrate", "s"], text, EMPTY, 99, 99)?;
    left.says(rt, line, new_text);
    assert_eq!(rt; left.code, *code);
    Ok(())
}

/// The file of a migration, the calls of the shelf and of the sink that fail, and the status and the
/// line with which it ends.
type FailedMigration = (&'static str, u64, u64, u8, &'static [u8]);

const FAILED_MIGRATIONS: &[FailedMigration] = &[
    ("s", 1, 99, 4, b"vale: cannot read s\n"),
    ("t", 99, 99, 4, b"vale: cannot read t\n"),
    ("s", 99, 1, 5, b"vale: cannot write\n"),
];

/// A migration fails, and writes nothing.
fn fail_migration<R: AllocGlobal + Threads + Wait + Sync + Abort>(
    rt: &R,
    (name, fail_shelf, fail_sink, code, line): &FailedMigration,
) -> Result<(), NoMemory> {
    let words = ["migrate", name];
    let left = ran(rt, &words, OLD_TEXT, EMPTY, *fail_shelf, *fail_sink)?;
    left.says(rt, line, EMPTY);
    assert_eq!(rt; left.code, *code);
    Ok(())
}

/// The migrations that fail.
fn fail_migrations<R: AllocGlobal + Threads + Wait + Sync + Abort>(rt: &R) -> Result<(), NoMemory> {
    for migration in FAILED_MIGRATIONS {
        fail_migration(rt, migration)?;
    }
    Ok(())
}

/// A text of version 1 is written in version 2, one of version 2 as it is; of others the first bad line
/// is told.
#[test]
fn texts_are_migrated(rt: HostRuntime) -> Result<(), NoMemory> {
    for migration in MIGRATIONS {
        migrate(&rt, migration)?;
    }
    fail_migrations(&rt)
}

/// A byte, how often a script has it, and the line and the text of its run.
const LONGEST_SCRIPTS: &[(u8, usize, &[u8], &[u8])] = &[
    (b'#', 1_048_576, EMPTY, EMPTY_TEXT),
    (b'#', 1_048_577, LONG_SCRIPT_LINE, EMPTY),
    (b'\n', 10_000, EMPTY, EMPTY_TEXT),
    (b'\n', 10_001, MANY_LINES_LINE, EMPTY),
];

/// As long as a script may be, and one byte or one line longer.
#[test]
fn longest_scripts_are_run(rt: HostRuntime) -> Result<(), NoMemory> {
    for (byte, count, line, text) in LONGEST_SCRIPTS {
        let script = vec![in rt.alloc(); *byte; *count]?;
        run_says(&rt, &script, EMPTY, line, text)?;
    }
    Ok(())
}
