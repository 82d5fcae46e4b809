//! Runs a command.
ghost use Rattle.std.specs.Prelude.{ℕ, List, ◌≡◌, ◌≤◌, ◌<◌, ◌^◌, length, map, string_bytes, option_map, Ok};
ghost use Rattle.std.specs.List.{AllByRecursion};
ghost use Rattle.vale_book.specs.Recorded.{standing};
ghost use Rattle.vale_captures.specs.Counting.{frames_played};
ghost use Rattle.vale_captures.specs.Inputs.{HasContents, name_of, AreInputs};
ghost use Rattle.vale_captures.specs.Outputs.{IsWritable};
ghost use Rattle.vale_entry.specs.Transcript.{transcript_text};
ghost use Rattle.vale_entry.specs.World.{free_count};
ghost use Rattle.vale_script.specs.Sound.{IsSound};
ghost use Rattle.vale_run.specs.Run.{io_of, CountsRise, script_name, word_behind, Ends, IsScript, IsAccepted, IsCounted, HasInputs, IsReady};
ghost use Rattle.vale_run.specs.Load.{load_number};
ghost use Rattle.vale_run.specs.Migrate.{text_name};
ghost use Rattle.vale_run.specs.Commands.{Runs};
ghost use Rattle.vale_run.specs.Complete.{Completes};
ghost use Rattle.vale_run.specs.Writing.{IsFewUsed, stopped, NamesFile, BlamesFile, Saves, Written, IsSaid, NamesInput, BlamesInput};

use crate::load::{load_number, run_load};
use crate::migrate::{migrate_file, text_name};
use crate::playing::play_recorded;
use crate::remains::Remains;
use crate::status::{Status, What, offset_of};
use nm_io::{Gate, ReadError, Shelf, Sink, read_all};
use nm_types::{
    Limits, MAX_CAPTURE_BYTES, MAX_COUNTS, MAX_PLAYED, MAX_SCRIPT_BYTES, MAX_SCRIPT_LINES, Part,
    StepFault,
};
use pcap_io::PcapFault;
use std::alloc::Global;
use std::sync::Wait;
use std::thread::Threads;
use vale_book::Book;
use vale_captures::{
    InputFault, Inputs, Outputs, SaveFault, counts_of, frames_played, read_inputs, write_outputs,
};
use vale_script::{Script, ScriptFault, line_count, parse};
use vale_text::{PutError, write_transcript};

/// Of a verb and one word more, where the verb is this one: that word.
pub(crate) fn word_behind<'w>(words: &'w [String], verb: &str) -> Option<&'w str>
    ensures { option_map (λ word. word.now) result
        ≡ word_behind verb.now (map string_bytes words.now) }
{
    let [first, word] = words else {
        return None;
    };
    if first.as_str() == verb {
        Some(word.as_str())
    } else {
        None
    }
}

/// The name of the words `run SCRIPT`.
fn script_name(words: &[String]) -> Option<&str>
    ensures { option_map (λ name. name.now) result ≡ script_name (map string_bytes words.now) }
{
    word_behind(words, "run")
}

/// How a run ends that could not read a file.
pub(crate) fn read_fault(alloc: Global, name: &str) -> Status
    ensures { NamesFile name.now result }
{
    match String::from_str(alloc, name) {
        Ok(name) => Status::ReadFault { name },
        Err(_) => Status::NoMemory,
    }
}

/// How a run ends that found no capture in a file.
fn bad_capture(alloc: Global, name: &str, cause: PcapFault) -> Status
    ensures { BlamesFile name.now cause result }
{
    match String::from_str(alloc, name) {
        Ok(name) => Status::BadPcap {
            name,
            offset: offset_of(cause),
            cause,
        },
        Err(_) => Status::NoMemory,
    }
}

/// How a run ends that met a fault of the record.
pub(crate) fn stopped(fault: StepFault) -> Status
    requires { IsFewUsed fault }
    ensures { result ≡ stopped Limits.VERSION_2 fault }
{
    match fault {
        StepFault::RecordFull {
            what: Part::Entries,
            used,
            want,
        } => Status::Over {
            what: What::Entries,
            count: used + want,
            limit: Limits::VERSION_2.entries,
        },
        StepFault::RecordFull {
            what: Part::Bytes,
            used,
            want,
        } => Status::Over {
            what: What::Bytes,
            count: used + want,
            limit: Limits::VERSION_2.bytes,
        },
        StepFault::NoMemory => Status::NoMemory,
    }
}

/// Writes the captures that a run has saved.
fn write_saved<S: Shelf>(alloc: Global, outputs: &Outputs, shelf: &mut S) -> Status
    requires { AllByRecursion IsWritable outputs.now }
    ensures saves { Saves (S.files shelf.old) (S.files shelf.new) outputs.now
        (λ name. (S.append_faults shelf.old name, S.append_faults shelf.new name)) result }
    ensures reads_later { (other : List ℕ) →
        S.read_faults shelf.old other ≤ S.read_faults shelf.new other }
    ensures appends_later { (other : List ℕ) →
        S.append_faults shelf.old other ≤ S.append_faults shelf.new other }
{
    match write_outputs(alloc, shelf, outputs) {
        Ok(()) => Status::Done,
        Err(SaveFault::Failed) => Status::WriteFault,
        Err(SaveFault::NoMemory) => Status::NoMemory,
    }
}

/// Writes the transcript of a run that has ended, and then the captures that it has saved.
fn write<S: Shelf, K: Sink>(
    alloc: Global,
    book: Book,
    outputs: &Outputs,
    shelf: &mut S,
    out: &mut K,
    remains: &mut Remains,
) -> Status
    requires limits { book.limits ≡ Limits.VERSION_2 }
    requires whole { free_count (standing book).world ≡ book.pool }
    requires writable { AllByRecursion IsWritable outputs.now }
    ensures small { book.pool < 2 ^ 32 }
    ensures written { Written (transcript_text book.pool book.entries) outputs.now
        (io_of S.Shelf K.Sink shelf.old shelf.new out.old out.new) result }
    ensures later { CountsRise (io_of S.Shelf K.Sink shelf.old shelf.new out.old out.new) }
{
    let (pool, free) = (book.buffers(), book.free());
    let history = book.close();
    match write_transcript(alloc, out, pool, history.entries(), free) {
        Ok(()) => {
            remains.keep(history);
            write_saved(alloc, outputs, shelf)
        }
        Err(PutError::Failed) => Status::WriteFault,
        Err(PutError::NoMemory) => Status::NoMemory,
    }
}

/// Plays a script with its captures, and writes what came of it.
fn run_ready<R: AllocGlobal + Threads + Wait + Sync, S: Shelf, K: Sink, G: Gate>(
    rt: &R,
    script: &Script,
    inputs: &Inputs,
    shelf: &mut S,
    out: &mut K,
    gate: &G,
    remains: &mut Remains,
) -> Status
    requires sound { IsSound script.now }
    requires files { map name_of inputs.now ≡ script.now.files }
    ensures ends { (name : List ℕ) → IsReady (S.files shelf.old) name script.now inputs.now
        → Ends Limits.VERSION_2
        (io_of S.Shelf K.Sink shelf.old shelf.new out.old out.new) name result }
    ensures later { CountsRise (io_of S.Shelf K.Sink shelf.old shelf.new out.old out.new) }
{
    let Ok((book, played)) = play_recorded(rt, script, inputs, gate) else {
        return Status::NoMemory;
    };
    match played {
        Ok(outputs) => write(rt.alloc(), book, &outputs, shelf, out, remains),
        Err(fault) => {
            drop(book.close());
            stopped(fault)
        }
    }
}

/// How a run ends that did not read all captures that its script plays.
fn input_fault(alloc: Global, script: &Script, at: usize, fault: InputFault) -> Status
    requires { NamesInput fault at script.now.files }
    ensures { BlamesInput script.now.files at fault result }
{
    match fault {
        InputFault::Failed => read_fault(alloc, script.files()[at].as_str()),
        InputFault::TooLong => Status::Over {
            what: What::Inputs,
            count: MAX_CAPTURE_BYTES + 1,
            limit: MAX_CAPTURE_BYTES,
        },
        InputFault::BadPcap { fault } => bad_capture(alloc, script.files()[at].as_str(), fault),
        InputFault::NoMemory => Status::NoMemory,
    }
}

/// Runs a script with its captures, if few of their frames are played.
fn run_inputs<R: AllocGlobal + Threads + Wait + Sync, S: Shelf, K: Sink, G: Gate>(
    rt: &R,
    script: &Script,
    inputs: &Inputs,
    shelf: &mut S,
    out: &mut K,
    gate: &G,
    remains: &mut Remains,
) -> Status
    requires sound { IsSound script.now }
    requires files { map name_of inputs.now ≡ script.now.files }
    requires few { frames_played script.now inputs.now < 2 ^ 64 }
    ensures ends { (name : List ℕ) → HasInputs (S.files shelf.old) name script.now inputs.now
        → Ends Limits.VERSION_2
        (io_of S.Shelf K.Sink shelf.old shelf.new out.old out.new) name result }
    ensures later { CountsRise (io_of S.Shelf K.Sink shelf.old shelf.new out.old out.new) }
{
    let count = frames_played(script, inputs);
    if count > MAX_PLAYED {
        return Status::Over {
            what: What::Frames,
            count,
            limit: MAX_PLAYED,
        };
    }
    run_ready(rt, script, inputs, shelf, out, gate, remains)
}

/// Reads the captures that a script plays, and runs it with them.
fn run_counted<R: AllocGlobal + Threads + Wait + Sync, S: Shelf, K: Sink, G: Gate>(
    rt: &R,
    script: &Script,
    shelf: &mut S,
    out: &mut K,
    gate: &G,
    remains: &mut Remains,
) -> Status
    requires sound { IsSound script.now }
    requires said { IsSaid script.now }
    ensures ends { (name : List ℕ) → IsCounted (S.files shelf.old) name script.now
        → Ends Limits.VERSION_2
        (io_of S.Shelf K.Sink shelf.old shelf.new out.old out.new) name result }
    ensures later { CountsRise (io_of S.Shelf K.Sink shelf.old shelf.new out.old out.new) }
{
    match read_inputs(rt.alloc(), shelf, script.files(), MAX_CAPTURE_BYTES) {
        Ok(inputs) => run_inputs(rt, script, &inputs, shelf, out, gate, remains),
        Err((at, fault)) => input_fault(rt.alloc(), script, at, fault),
    }
}

/// Runs a script that was accepted, if its lines put few frames.
fn run_accepted<R: AllocGlobal + Threads + Wait + Sync, S: Shelf, K: Sink, G: Gate>(
    rt: &R,
    script: &Script,
    shelf: &mut S,
    out: &mut K,
    gate: &G,
    remains: &mut Remains,
) -> Status
    requires sound { IsSound script.now }
    requires said { IsSaid script.now }
    ensures ends { (name : List ℕ) → IsAccepted (S.files shelf.old) name script.now
        → Ends Limits.VERSION_2
        (io_of S.Shelf K.Sink shelf.old shelf.new out.old out.new) name result }
    ensures later { CountsRise (io_of S.Shelf K.Sink shelf.old shelf.new out.old out.new) }
{
    let count = counts_of(script);
    if count > MAX_COUNTS {
        return Status::Over {
            what: What::Counts,
            count,
            limit: MAX_COUNTS,
        };
    }
    run_counted(rt, script, shelf, out, gate, remains)
}

/// Runs the script that these bytes are.
fn run_script<R: AllocGlobal + Threads + Wait + Sync, S: Shelf, K: Sink, G: Gate>(
    rt: &R,
    bytes: &[u8],
    shelf: &mut S,
    out: &mut K,
    gate: &G,
    remains: &mut Remains,
) -> Status
    requires { length bytes.now ≤ MAX_SCRIPT_BYTES }
    ensures ends { (name : List ℕ) → HasContents (S.files shelf.old) name bytes.now
        → Ends Limits.VERSION_2
        (io_of S.Shelf K.Sink shelf.old shelf.new out.old out.new) name result }
    ensures later { CountsRise (io_of S.Shelf K.Sink shelf.old shelf.new out.old out.new) }
{
    let count = line_count(bytes) as u64;
    if count > MAX_SCRIPT_LINES {
        return Status::Over {
            what: What::Lines,
            count,
            limit: MAX_SCRIPT_LINES,
        };
    }
    match parse(rt.alloc(), bytes) {
        Ok(script) => {
            let status = run_accepted(rt, &script, shelf, out, gate, remains);
            remains.keep_script(script);
            status
        }
        Err(ScriptFault::BadLine { line, cause }) => Status::BadScript { line, cause },
        Err(ScriptFault::NoMemory) => Status::NoMemory,
    }
}

/// Runs the script of this name.
fn run_file<R: AllocGlobal + Threads + Wait + Sync, S: Shelf, K: Sink, G: Gate>(
    rt: &R,
    name: &str,
    shelf: &mut S,
    out: &mut K,
    gate: &G,
    remains: &mut Remains,
) -> Status
    ensures ends { Ends Limits.VERSION_2
        (io_of S.Shelf K.Sink shelf.old shelf.new out.old out.new) name.now result }
    ensures later { CountsRise (io_of S.Shelf K.Sink shelf.old shelf.new out.old out.new) }
{
    match read_all(rt.alloc(), shelf, name, MAX_SCRIPT_BYTES) {
        Ok(bytes) => run_script(rt, &bytes, shelf, out, gate, remains),
        Err(ReadError::TooLong) => Status::Over {
            what: What::Script,
            count: MAX_SCRIPT_BYTES + 1,
            limit: MAX_SCRIPT_BYTES,
        },
        Err(ReadError::Failed) => read_fault(rt.alloc(), name),
        Err(ReadError::NoMemory) => Status::NoMemory,
    }
}

/// Runs a command, as `run` does. Its record goes to `remains` once it was written.
pub fn run_leaving<R: AllocGlobal + Threads + Wait + Sync, S: Shelf, K: Sink, G: Gate>(
    rt: &R,
    words: &[String],
    shelf: &mut S,
    out: &mut K,
    gate: &G,
    remains: &mut Remains,
) -> Status
    ensures runs { Runs Limits.VERSION_2 (script_name (map string_bytes words.now))
        (load_number (map string_bytes words.now)) (text_name (map string_bytes words.now))
        (io_of S.Shelf K.Sink shelf.old shelf.new out.old out.new) result }
    ensures completes { Completes (script_name (map string_bytes words.now))
        (load_number (map string_bytes words.now)) (text_name (map string_bytes words.now))
        (io_of S.Shelf K.Sink shelf.old shelf.new out.old out.new) result }
    ensures later { CountsRise (io_of S.Shelf K.Sink shelf.old shelf.new out.old out.new) }
{
    match script_name(words) {
        Some(name) => run_file(rt, name, shelf, out, gate, remains),
        None => match load_number(words) {
            Some(n) => run_load(rt, n, out, gate, remains),
            None => match text_name(words) {
                Some(name) => migrate_file(rt.alloc(), name, shelf, out),
                None => Status::Usage,
            },
        },
    }
}

/// Runs a command: the words `run SCRIPT`, where SCRIPT names a file of the shelf, `load N`, or
/// `migrate FILE`.
///
/// The script's users play their lines as sessions of one fabric, side by side on threads where the
/// script says so; the gate is passed as frames go to ports. Once all have left, the transcript of
/// what happened goes to the output, and then each capture that the script saves to the end of its
/// file. `load N` plays the script that `vale_gen` makes of N, and writes one line of what was sent.
/// `migrate FILE` writes the transcript that the file is, of version 1 or 2, in version 2.
pub fn run<R: AllocGlobal + Threads + Wait + Sync, S: Shelf, K: Sink, G: Gate>(
    rt: &R,
    words: &[String],
    shelf: &mut S,
    out: &mut K,
    gate: &G,
) -> Status
    ensures runs { Runs Limits.VERSION_2 (script_name (map string_bytes words.now))
        (load_number (map string_bytes words.now)) (text_name (map string_bytes words.now))
        (io_of S.Shelf K.Sink shelf.old shelf.new out.old out.new) result }
    ensures completes { Completes (script_name (map string_bytes words.now))
        (load_number (map string_bytes words.now)) (text_name (map string_bytes words.now))
        (io_of S.Shelf K.Sink shelf.old shelf.new out.old out.new) result }
    ensures later { CountsRise (io_of S.Shelf K.Sink shelf.old shelf.new out.old out.new) }
{
    run_leaving(rt, words, shelf, out, gate, &mut Remains::new())
}
