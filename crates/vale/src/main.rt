//! Runs a script of netmap rings, VALE switches, pipes and monitors, and writes the transcript of
//! what they did; or runs the load of a number, or writes a transcript in the newest version.
#![tactic(auto)]

ghost use Rattle.std.specs.Prelude.{◌≡◌, map, string_bytes, option_map};
ghost use Rattle.vale.specs.Command.{help_text, version_text, answer_to, Answers};
ghost use Rattle.vale_run.specs.Run.{io_of, script_name};
ghost use Rattle.vale_run.specs.Load.{load_number};
ghost use Rattle.vale_run.specs.Migrate.{text_name};
ghost use Rattle.vale_run.specs.Complete.{Completes};

use nm_io::{FileShelf, NoGate, Shelf, Sink, StdSink, put_all};
use nm_types::Limits;
use std::alloc::AllocError;
use std::process::ExitCode;
use std::sync::Wait;
use std::thread::Threads;
use std::{env, io};
use vale_run::{Remains, Status, report, run_leaving};

const HELP: &str = "usage: vale run SCRIPT | vale load N | vale migrate FILE

  run SCRIPT  runs a script of netmap rings, VALE switches, pipes and monitors, and writes the
              transcript of what they did
  load N      runs four users of one switch side by side, who send 8,000 frames that hang on the
              number N, and writes one line of what was sent
  migrate FILE
              writes a transcript of version 1 or 2 in version 2

Lines of a script (a SIDE is tx or rx, a MAC as 02:00:00:00:00:0a):
  pool N                             the pool has N buffers (the first line)
  user U                             a user enters
  open U NAME TX RX [EXTRA]          opens a port, with rings of TX and RX slots and extra buffers
  put U NAME N MAC MAC LEN FILL      puts N frames of LEN bytes, to and from these addresses
  hex U NAME HEX                     puts one frame of these bytes
  play U NAME FILE BATCH             puts the frames of a capture, with a tx after each BATCH
  tx U NAME                          syncs the transmit ring
  rx U NAME [keep]                   gives all received frames back, and syncs the receive ring
  fwd U NAME NAME N                  forwards up to N frames without a copy
  poke U NAME SIDE SLOT FIELD VALUE  writes idx, len, flags or ptr of a slot
  move U NAME SIDE HEAD CUR          sets head and cur of a ring
  swap U NAME SIDE SLOT NAME SIDE SLOT [quiet]
                                     exchanges the buffers of two slots
  extra U NAME I J                   links extra buffer I to J
  watch U MON NAME SIDES             has a monitor watch a port (t, r or tr)
  stat U NAME                        reads a port's counters
  save U NAME FILE                   saves the frames that the port gives, as a capture
  close U NAME                       closes the port
  par .. end                         the lines between run side by side, user by user
  # ..                               a comment
";

const VERSION: &str = "vale 0.1.0\n";

fn words_of_command(rt: &HostRuntime) -> io::Result<Vec<String>> {
    let mut words = Vec::new(rt.alloc());
    for word in env::args(rt)?.skip(1) {
        if words.push(word).is_err() {
            return Err(io::Error::from(AllocError));
        }
    }
    Ok(words)
}

#[tactic(auto, unfolding(crate::specs::Command::help_text))]
fn help() -> &'static str
    ensures { result.now ≡ help_text }
{
    HELP
}

#[tactic(auto, unfolding(crate::specs::Command::version_text))]
fn version() -> &'static str
    ensures { result.now ≡ version_text }
{
    VERSION
}

/// What `--help` and `--version` answer.
fn answer(words: &[String]) -> Option<&'static str>
    ensures { option_map (λ text. text.now) result ≡ answer_to (map string_bytes words.now) }
{
    match words {
        [word] if word.as_str() == "--help" => Some(help()),
        [word] if word.as_str() == "--version" => Some(version()),
        _ => None,
    }
}

/// Writes what `--help` or `--version` answers, or runs the command.
fn run_command<R: AllocGlobal + Threads + Wait + Sync, S: Shelf, K: Sink>(
    rt: &R,
    words: &[String],
    shelf: &mut S,
    out: &mut K,
    remains: &mut Remains,
) -> Status
    ensures answers { Answers Limits.VERSION_2 (answer_to (map string_bytes words.now))
        (script_name (map string_bytes words.now)) (load_number (map string_bytes words.now))
        (text_name (map string_bytes words.now))
        (io_of S.Shelf K.Sink shelf.old shelf.new out.old out.new) result }
    ensures completes { Completes (script_name (map string_bytes words.now))
        (load_number (map string_bytes words.now)) (text_name (map string_bytes words.now))
        (io_of S.Shelf K.Sink shelf.old shelf.new out.old out.new) result }
{
    let Some(text) = answer(words) else {
        return run_leaving(rt, words, shelf, out, &NoGate, remains);
    };
    match put_all(out, text.as_bytes()) {
        Ok(()) => Status::Done,
        Err(_) => Status::WriteFault,
    }
}

fn main(rt: HostRuntime) -> ExitCode {
    let mut remains = Remains::new();
    let status = match words_of_command(&rt) {
        Ok(words) => run_command(
            &rt,
            &words,
            &mut FileShelf::new(&rt),
            &mut StdSink::new(&rt),
            &mut remains,
        ),
        Err(error) if error.kind() == io::ErrorKind::OutOfMemory => Status::NoMemory,
        Err(_) => Status::Usage,
    };
    let code = report(&mut StdSink::new(&rt.stderr()), &status);
    remains.leave();
    ExitCode::from(code)
}
