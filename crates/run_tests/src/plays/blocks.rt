//! The users of a block are inside their calls at once, and its gate is told whose stage it is.
ghost use Rattle.std.specs.Prelude.{◌≡◌, IfOk, map};
ghost use Rattle.vale_act.specs.Words.{IsSound, name_of};

use super::{FROM_A, no_inputs, script};
use nm_io::{Gate, NoGate, Stage};
use nm_types::{Batch, Limits, NoMemory, PortId};
use pcap_io::Record;
use std::alloc::{AllocError, Global};
use std::process::Abort;
use std::sync::{Mutex, Wait};
use std::thread;
use std::thread::Threads;
use std::time::{Clock, Duration};
use vale_act::play;
use vale_captures::{Input, Inputs};
use vale_entry::{Ask, Entry, History, Reply};
use vale_fabric::Fabric;
use vale_script::Script;

/// Two users of three each send a broadcast, side by side: entries 1 to 3 are their coming, 4 to 6
/// their ports.
const PAIR: &[u8] =
    b"pool 64\nuser a\nuser b\nuser c\nopen a vale0:a 4 4\nopen b vale0:b 4 4\nopen c vale0:c 4 4\npar\nput a vale0:a 1 ff:ff:ff:ff:ff:ff 02:00:00:00:00:0a 14 00\ntx a vale0:a\nput b vale0:b 1 ff:ff:ff:ff:ff:ff 02:00:00:00:00:0b 14 00\ntx b vale0:b\nend\n";

/// The stages of a user's two leases, one behind the other: each destination has its own.
const STAGES: [Stage; 6] = [
    Stage::Granted,
    Stage::Filled,
    Stage::Done,
    Stage::Granted,
    Stage::Filled,
    Stage::Done,
];

/// A user plays a capture; two others and a monitor read.
const DESK: &[u8] =
    b"pool 8192\nuser a\nuser b\nuser c\nuser m\nopen a vale0:a 256 256\nopen b vale0:b 256 256\nopen c vale0:c 256 256\nopen m mon0 0 1024\nwatch m mon0 vale0:a t\npar\nplay a vale0:a desk.pcap 64\n";

/// Forty times in the block.
const READS: &[u8] = b"rx b vale0:b\nrx c vale0:c\nrx m mon0\n";

/// The frames of the capture.
const FRAMES: u16 = 2_000;

const ROOMY: Limits = Limits {
    entries: 10_000,
    bytes: 10_000_000,
};

/// Holds each of two users at a grant until the other has one too, and writes down what is passed.
#[derive(Drop)]
struct Meeting<'r, R> {
    rt: &'r R,
    passed: Mutex<Vec<(u64, Stage)>>,
}

impl<'r, R: Abort + Wait + Clock> Meeting<'r, R> {
    fn write(&self, user: u64, stage: Stage) {
        let mut passed = self.passed.lock(self.rt);
        passed.push((user, stage)).expect(self.rt, "memory");
    }

    /// Both users have passed a grant.
    fn have_met(&self) -> bool {
        let passed = self.passed.lock(self.rt);
        passed.contains(&(1, Stage::Granted)) && passed.contains(&(2, Stage::Granted))
    }

    /// Waits for a thousandth of a second.
    fn wait(&self) {
        thread::sleep(self.rt, Duration::from_millis(1));
    }

    /// Waits until they have.
    fn meet(&self) {
        for _ in 0..10_000 {
            if self.have_met() {
                return;
            }
            self.wait();
        }
        panic!(self.rt; "the other user is not inside");
    }
}

impl<'r, R: Abort + Wait + Clock + Sync> Gate for Meeting<'r, R> {
    fn pass(&self, user: u64, stage: Stage) {
        self.write(user, stage);
        if stage == Stage::Granted {
            self.meet();
        }
    }
}

/// Plays a script past a gate, to its end. All buffers are free then.
fn played_past<R: AllocGlobal + Abort + Threads + Wait + Sync, G: Gate>(
    rt: &R,
    script: &Script,
    inputs: &Inputs,
    gate: &G,
) -> Result<History, NoMemory>
    requires sound { IsSound script.now }
    requires files { map name_of inputs.now ≡ script.now.files }
{
    let alloc = rt.alloc();
    let (fabric, pass) = Fabric::new(alloc, script.pool(), ROOMY)?;
    let (pass, played) = play(alloc, rt, &fabric, pass, script, inputs, gate);
    let book = fabric.close(rt, pass);
    assert!(rt; book.free() == book.buffers());
    match played {
        Ok(_) => Ok(book.close()),
        Err(fault) => panic!(rt; "{fault:?}"),
    }
}

/// Two users of a block send side by side, past a gate.
fn pair_past<R: AllocGlobal + Abort + Threads + Wait + Sync, G: Gate>(
    rt: &R,
    gate: &G,
) -> Result<History, NoMemory> {
    let script = script(rt, PAIR);
    let inputs = no_inputs(rt, &script);
    played_past(rt, &script, &inputs, gate)
}

/// They meet inside their sends. Answers what was recorded, and what was passed.
fn met<R: AllocGlobal + Abort + Threads + Wait + Clock + Sync>(
    rt: &R,
) -> Result<(History, Vec<(u64, Stage)>), NoMemory> {
    let gate = Meeting {
        rt,
        passed: Mutex::new(Vec::new(rt.alloc())),
    };
    let history = pair_past(rt, &gate)?;
    let Meeting { rt: _, passed } = gate;
    Ok((history, passed.into_inner()))
}

/// The place of the first grant that a session made.
fn first_grant(history: &History, session: u32) -> Option<usize> {
    history.entries().iter().position(|entry| entry.session.0 == session
        && matches!(&entry.ask, Ask::Grant { .. }))
}

/// The place of the first completion.
fn first_done(history: &History) -> Option<usize> {
    history
        .entries()
        .iter()
        .position(|entry| matches!(&entry.ask, Ask::Done { .. }))
}

/// A session's first grant is recorded before a frame is delivered.
fn is_granted_first(history: &History, session: u32) -> bool {
    match (first_grant(history, session), first_done(history)) {
        (Some(granted), Some(done)) => granted < done,
        _ => false,
    }
}

/// A stage that is not the next one of its user's, which has passed so many.
fn is_astray(passed: &[(u64, Stage)], user: u64) -> bool {
    let mut wanted = STAGES.iter();
    for (who, stage) in passed {
        if *who == user && wanted.next() != Some(stage) {
            return true;
        }
    }
    wanted.next().is_some()
}

/// The first grants of both users, whose sessions have their numbers, are recorded before a frame is
/// delivered; and each lease of theirs is passed at its three stages in their order, as that user's.
#[test]
fn both_users_inside(rt: HostRuntime) -> Result<(), NoMemory> {
    let (history, passed) = met(&rt)?;
    for user in [1, 2] {
        assert!(rt; is_granted_first(&history, user));
        assert!(rt; !is_astray(&passed, u64::from(user)));
    }
    assert_eq!(rt; passed.len(), 12);
    Ok(())
}

/// How many bytes a broadcast of the capture has, 60 to 1,514.
fn desk_len(number: u16) -> u32 {
    60 + u32::from(number) * 97 % 1_455
}

/// A broadcast of the capture, with its number behind its header.
fn desk_frame(alloc: Global, number: u16) -> Result<Vec<u8>, AllocError> {
    let mut bytes = Vec::from_slice(alloc, FROM_A)?;
    bytes.extend_from_slice(&number.to_be_bytes())?;
    bytes.resize(desk_len(number) as usize, 0)?;
    Ok(bytes)
}

/// The record of a broadcast of the capture.
fn desk_record(alloc: Global, number: u16) -> Result<Record, AllocError> {
    let bytes = desk_frame(alloc, number)?;
    Ok(Record {
        seconds: 0,
        fraction: 0,
        original: desk_len(number),
        bytes: bytes.into(),
    })
}

/// The records of the capture.
fn desk_records(alloc: Global) -> Result<Vec<Record>, AllocError> {
    let mut records = Vec::new(alloc);
    for number in 0..FRAMES {
        records.push(desk_record(alloc, number)?)?;
    }
    Ok(records)
}

/// The capture of the desk's script.
fn desk_inputs<R: AllocGlobal + Abort>(rt: &R, script: &Script) -> Result<Inputs, NoMemory>
    ensures { IfOk result (λ inputs. map name_of inputs ≡ script.now.files) }
{
    let alloc = rt.alloc();
    let files = script.files();
    assert!(rt; files.len() == 1);
    let records = desk_records(alloc)?;
    let name = String::from_str(alloc, files[0].as_str())?;
    let mut inputs = Vec::new(alloc);
    inputs.push(Input { name, records })?;
    Ok(Inputs::from(inputs))
}

/// The desk's script: a block in which one plays and three read.
fn desk_text(alloc: Global) -> Result<Vec<u8>, AllocError> {
    let mut text = Vec::from_slice(alloc, DESK)?;
    for _ in 0..40 {
        text.extend_from_slice(READS)?;
    }
    text.extend_from_slice(b"end\n")?;
    Ok(text)
}

/// The frames are the next ones of the capture. Answers how many are behind them.
fn are_next(rt: &impl Abort, frames: &Batch, records: &[Record], at: usize) -> usize {
    let mut at = at;
    for place in 0..frames.len() {
        match records.get(at) {
            Some(record) => assert_eq!(rt; frames.frame(place), record.bytes.as_slice()),
            None => panic!(rt; "a frame more"),
        }
        at = at.wrapping_add(1);
    }
    at
}

/// How many frames of an entry are wanted at a port.
fn wanted_at(history: &History, origin: u32, to: PortId) -> Option<u32> {
    let Reply::Offered { to: dests, .. } = &history.get(origin)?.reply else {
        return None;
    };
    let dest = dests.as_slice().iter().find(|dest| dest.to.0 == to.0)?;
    Some(dest.count)
}

/// The frames of a grant add up to those that are wanted.
fn adds_up(history: &History, entry: &Entry) -> bool {
    match (&entry.ask, &entry.reply) {
        (Ask::Grant { origin, to }, Reply::Shared { given, full, gone }) => {
            wanted_at(history, *origin, *to) == Some(given.wrapping_add(*full).wrapping_add(*gone))
        }
        _ => true,
    }
}

/// Each grant shares out what its port wants.
fn all_add_up(rt: &impl Abort, history: &History) {
    for entry in history.entries() {
        assert!(rt; adds_up(history, entry));
    }
}

/// The sends bring the capture, in its order. Answers how many frames that are, and how many sends.
fn brought(rt: &impl Abort, history: &History, records: &[Record]) -> (usize, u32) {
    let (mut at, mut sends) = (0, 0);
    for entry in history.entries() {
        if let Ask::Send { port: _, frames } = &entry.ask {
            at = are_next(rt, frames, records, at);
            sends = u32::wrapping_add(sends, 1);
        }
    }
    (at, sends)
}

/// Thirty-two sends of up to 64 frames bring the capture into the switch, in its order, and each
/// grant shares out what its port wants.
#[test]
fn a_desk_is_played(rt: HostRuntime) -> Result<(), NoMemory> {
    let text = desk_text(rt.alloc())?;
    let script = script(&rt, &text);
    let inputs = desk_inputs(&rt, &script)?;
    let history = played_past(&rt, &script, &inputs, &NoGate)?;
    all_add_up(&rt, &history);
    let frames = usize::from(FRAMES);
    assert!(rt; brought(&rt, &history, inputs.records("desk.pcap")) == (frames, 32));
    Ok(())
}
