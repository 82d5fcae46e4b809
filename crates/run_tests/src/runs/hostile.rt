//! Runs whose shelf or sink fails at one call after another, or answers in pieces, whose memory is
//! refused, whose captures are cut, and whose rings and chains are wrong.
ghost use Rattle.std.specs.Prelude.{◌≤◌};

use super::*;
use std::io;
use vale_cases::{CAPTURE_RUN, CUTS, Cut, RINGS, RUNS, Run};

const NO_SCRIPT: &[u8] = b"vale: cannot read s\n";

const NO_CAPTURE: &[u8] = b"vale: cannot read in.pcap\n";

const NO_WRITE: &[u8] = b"vale: cannot write\n";

const BYTE_0_TRUNCATED: &[u8] = b"vale: in.pcap: byte 0: truncated\n";

const BYTE_24_TRUNCATED: &[u8] = b"vale: in.pcap: byte 24: truncated\n";

/// How a shelf and a sink answer: the calls that fail, and the most bytes of each other call.
#[derive(Clone, Copy)]
struct Answers {
    fail_shelf: u64,
    fail_sink: u64,
    piece: usize,
}

/// No call fails, and each takes or gives all bytes.
const GOOD: Answers = Answers {
    fail_shelf: u64::MAX,
    fail_sink: u64::MAX,
    piece: usize::MAX,
};

/// A shelf that answers so, with a script and a capture.
fn shelf_of(
    alloc: Global,
    script: &[u8],
    capture: &[u8],
    answers: Answers,
) -> Result<MemoryShelf, NoMemory>
    requires { 1 ≤ answers.piece }
{
    let fail = vec![in alloc; answers.fail_shelf]?;
    let mut shelf = MemoryShelf::in_pieces(alloc, fail, answers.piece);
    fill(&mut shelf, script, capture)?;
    Ok(shelf)
}

/// A sink that answers so.
fn sink_of(alloc: Global, answers: Answers) -> Result<MemorySink, AllocError>
    requires { 1 ≤ answers.piece }
{
    let fail = vec![in alloc; answers.fail_sink]?;
    Ok(MemorySink::in_pieces(alloc, fail, answers.piece))
}

/// A run of a script, with this capture as in.pcap.
fn tried<R: AllocGlobal + Threads + Wait + Sync>(
    rt: &R,
    script: &[u8],
    capture: &[u8],
    answers: Answers,
) -> Result<(Left, Status), NoMemory>
    requires { 1 ≤ answers.piece }
{
    let words = command(rt.alloc(), &["run", "s"])?;
    let shelf = shelf_of(rt.alloc(), script, capture, answers)?;
    let out = sink_of(rt.alloc(), answers)?;
    Ok(run_over(rt, &words, shelf, out))
}

/// The run is done, and writes its text.
fn is_done<R: AllocGlobal + Threads + Wait + Sync + Abort>(
    rt: &R,
    run: &Run,
    piece: usize,
) -> Result<(), NoMemory>
    requires { 1 ≤ piece }
{
    let (left, _status) = tried(rt, run.script, EMPTY, Answers { piece, ..GOOD })?;
    left.says(rt, EMPTY, run.text);
    Ok(())
}

#[test]
fn wrong_rings_and_chains_are_told(rt: HostRuntime) -> Result<(), NoMemory> {
    for run in RINGS {
        is_done(&rt, &run, usize::MAX)?;
    }
    Ok(())
}

/// The run could not write all, and wrote the beginning of its text.
fn breaks_off(rt: &impl Abort, left: &Left, text: &[u8]) {
    assert_eq!(rt; left.line.bytes(), NO_WRITE);
    assert!(rt; text.starts_with(left.out.bytes()));
}

/// A run whose sink may fail at a call is done with its whole text, or breaks off. Tells whether it
/// is done.
fn is_done_past<R: AllocGlobal + Threads + Wait + Sync + Abort>(
    rt: &R,
    run: &Run,
    answers: Answers,
) -> Result<bool, NoMemory>
    requires { 1 ≤ answers.piece }
{
    let (left, status) = tried(rt, run.script, EMPTY, answers)?;
    let done = matches!(status, Status::Done);
    if done {
        left.says(rt, EMPTY, run.text);
    } else {
        breaks_off(rt, &left, run.text);
    }
    Ok(done)
}

/// The sink's calls fail in turn, as many as the run makes; answers how many these are.
fn fail_each_put<R: AllocGlobal + Threads + Wait + Sync + Abort>(
    rt: &R,
    run: &Run,
    piece: usize,
) -> Result<u64, NoMemory>
    requires { 1 ≤ piece }
{
    for fail_sink in 1..9_999 {
        let answers = Answers {
            fail_sink,
            piece,
            ..GOOD
        };
        if is_done_past(rt, run, answers)? {
            return Ok(fail_sink - 1);
        }
    }
    Ok(0)
}

/// The sink's calls fail in turn where each takes all bytes, and where each takes 50; and each may
/// take one.
fn fail_puts<R: AllocGlobal + Threads + Wait + Sync + Abort>(
    rt: &R,
    run: &Run,
) -> Result<(), NoMemory> {
    assert!(rt; fail_each_put(rt, run, usize::MAX)? > 1, "{}", run.name);
    let calls = fail_each_put(rt, run, 50)?;
    assert!(rt; calls >= run.text.len() as u64 / 50, "{}", run.name);
    is_done(rt, run, 1)
}

#[test]
fn a_sink_fails_at_each_call(rt: HostRuntime) -> Result<(), NoMemory> {
    for run in RUNS {
        fail_puts(&rt, &run)?;
    }
    Ok(())
}

/// A shelf's pieces, and the last of its calls that reads the script of 122 bytes, that reads the
/// capture of 54, and that saves 54.
const SHELF_CALLS: [(usize, u64, u64, u64); 3] = [
    (usize::MAX, 2, 4, 5),
    (32, 5, 8, 10),
    (1, 123, 178, 232),
];

/// The line and the text of a run whose shelf fails at a call.
fn told_by(row: (usize, u64, u64, u64), fail_shelf: u64) -> (&'static [u8], &'static [u8]) {
    let (_, script, capture, save) = row;
    if fail_shelf <= script {
        (NO_SCRIPT, EMPTY)
    } else if fail_shelf <= capture {
        (NO_CAPTURE, EMPTY)
    } else if fail_shelf <= save {
        (NO_WRITE, CAPTURE_TEXT)
    } else {
        (EMPTY, CAPTURE_TEXT)
    }
}

/// The shelf fails at a call. What was saved is the beginning of the capture, all of it behind the
/// last call.
fn fail_shelf_call<R: AllocGlobal + Threads + Wait + Sync + Abort>(
    rt: &R,
    row: (usize, u64, u64, u64),
    fail_shelf: u64,
) -> Result<(), NoMemory>
    requires piece { 1 ≤ row.0 }
{
    let answers = Answers {
        fail_shelf,
        piece: row.0,
        ..GOOD
    };
    let (left, _status) = tried(rt, CAPTURE, PLAYED, answers)?;
    let (line, text) = told_by(row, fail_shelf);
    left.says(rt, line, text);
    assert!(rt; SAVED.starts_with(left.saved()));
    assert!(rt; fail_shelf <= row.3 || left.saved() == SAVED);
    Ok(())
}

/// The shelf's calls fail in turn, and one behind them.
fn fail_each_shelf_call<R: AllocGlobal + Threads + Wait + Sync + Abort>(
    rt: &R,
    row: (usize, u64, u64, u64),
) -> Result<(), NoMemory> {
    assert!(rt; row.0 > 0);
    for fail_shelf in 1..=row.3.saturating_add(1) {
        fail_shelf_call(rt, row, fail_shelf)?;
    }
    Ok(())
}

#[test]
fn a_shelf_fails_at_each_call(rt: HostRuntime) -> Result<(), NoMemory> {
    for row in SHELF_CALLS {
        fail_each_shelf_call(&rt, row)?;
    }
    Ok(())
}

/// The run is done, and saves the first bytes of the capture.
fn saves_cut(rt: &impl Abort, left: &Left, count: usize) {
    let saved = left.saved();
    assert_eq!(rt; left.line.bytes(), EMPTY);
    assert!(rt; saved.len() == count && SAVED.starts_with(saved));
}

/// A run that plays the first bytes of the capture.
fn play_cut<R: AllocGlobal + Threads + Wait + Sync + Abort>(
    rt: &R,
    cut: &Cut,
    len: usize,
) -> Result<(), NoMemory> {
    let part = &PLAYED[..len.min(PLAYED.len())];
    let (left, _status) = tried(rt, CAPTURE, part, GOOD)?;
    match cut.truncated {
        Some(0) => left.says(rt, BYTE_0_TRUNCATED, EMPTY),
        Some(_) => left.says(rt, BYTE_24_TRUNCATED, EMPTY),
        None => saves_cut(rt, &left, if cut.records == 0 { 24 } else { 54 }),
    }
    Ok(())
}

/// Runs that play the first bytes of the capture, as many as the cut says.
fn play_cuts<R: AllocGlobal + Threads + Wait + Sync + Abort>(
    rt: &R,
    cut: &Cut,
) -> Result<(), NoMemory> {
    for len in cut.from..=cut.to {
        play_cut(rt, cut, len)?;
    }
    Ok(())
}

#[test]
fn a_capture_is_cut_at_each_length(rt: HostRuntime) -> Result<(), NoMemory> {
    for cut in CUTS {
        play_cuts(&rt, &cut)?;
    }
    Ok(())
}

/// A run of which an allocation may have been refused is done, or says that memory is wanting, or
/// cannot write where its sink or shelf could not grow; and what it wrote is the beginning of the text.
fn has_ended(run: &Run, left: &Left, status: &Status) -> bool {
    let ended = match status {
        Status::Done => left.out.bytes().len() == run.text.len(),
        Status::WriteFault => left.out.wants() > 0 || left.shelf.wants() > 0,
        Status::NoMemory => true,
        _ => false,
    };
    ended && run.text.starts_with(left.out.bytes())
}

/// Runs where an allocation may be refused, and prints where one was, which may be before the run
/// begins.
fn end_for_want_of_memory<R: AllocGlobal + Threads + Wait + Sync + Abort + Print>(
    rt: &R,
    run: &Run,
) -> io::Result<()> {
    let Ok((left, status)) = tried(rt, run.script, PLAYED, GOOD) else {
        return println!(rt; "refused before {}", run.name);
    };
    assert!(rt; has_ended(run, &left, &status), "{}", run.name);
    if left.line.wants() > 0 || !matches!(status, Status::Done) {
        println!(rt; "refused in {}", run.name)?;
    }
    Ok(())
}

/// `checks/refused_growth` has one allocation after another of this test refused, and
/// `checks/refused_allocations` those of the program.
#[test]
fn growth_may_be_refused(rt: HostRuntime) -> io::Result<()> {
    for run in RUNS {
        end_for_want_of_memory(&rt, &run)?;
    }
    end_for_want_of_memory(&rt, &CAPTURE_RUN)
}
