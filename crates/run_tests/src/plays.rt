//! Scripts that are played to their end, or until the record is full.
ghost use Rattle.std.specs.Prelude.{◌≡◌, ◌<◌, ◌^◌, map};
ghost use Rattle.vale_act.specs.Words.{name_of};
ghost use Rattle.vale_script.specs.Sound.{IsSound};

use nm_io::{MemoryShelf, NoGate};
use nm_types::{Limits, NoMemory, Part, StepFault};
use std::process::Abort;
use std::sync::Wait;
use std::thread::Threads;
use vale_act::play;
use vale_captures::{Inputs, write_outputs};
use vale_cases::FULL_RECORD;
use vale_fabric::Fabric;
use vale_script::{Script, parse};

mod blocks;
mod saving;

/// Two users send side by side, and a third one's frames are saved.
const BLOCK: &[u8] =
    b"pool 64\nuser a\nuser b\nuser c\nopen a vale0:a 4 4\nopen b vale0:b 4 4\nopen c vale0:c 4 8\nsave c vale0:c got.pcap\npar\nput a vale0:a 3 ff:ff:ff:ff:ff:ff 02:00:00:00:00:0a 14 00\ntx a vale0:a\nput b vale0:b 2 ff:ff:ff:ff:ff:ff 02:00:00:00:00:0b 14 00\ntx b vale0:b\nend\nrx c vale0:c\n";

/// What the first user of the block puts.
const FROM_A: &[u8] = b"\xff\xff\xff\xff\xff\xff\x02\x00\x00\x00\x00\n\x88\xb5";

/// What the second one puts.
const FROM_B: &[u8] = b"\xff\xff\xff\xff\xff\xff\x02\x00\x00\x00\x00\x0b\x88\xb5";

/// The record of a frame of 14 bytes begins so: it came by the seventeenth entry.
const RECORD: &[u8] = b"\x11\x00\x00\x00";

/// How often these stand in what is saved of the block.
const SAVED_PARTS: &[(&[u8], usize)] = &[(FROM_A, 3), (FROM_B, 2), (RECORD, 5)];

/// A user comes, and another one.
const TWO: &[u8] = b"user a\nuser b\n";

/// One entry is stored and one promised when the second user comes, which wants two.
const FULL: StepFault = StepFault::RecordFull {
    what: Part::Entries,
    used: 2,
    want: 2,
};

const WIDE: Limits = Limits {
    entries: 100,
    bytes: 1_000,
};

/// Room for one user that comes and leaves, and for no other.
const NARROW: Limits = Limits {
    entries: 3,
    bytes: 0,
};

/// The script that these bytes are, which plays no captures.
fn script<R: AllocGlobal + Abort>(rt: &R, bytes: &[u8]) -> Script
    ensures { IsSound result }
{
    assert!(rt; bytes.len() < 1_000_000);
    match parse(rt.alloc(), bytes) {
        Ok(script) => script,
        Err(fault) => panic!(rt; "{fault:?}"),
    }
}

/// The captures of a script that plays none.
fn no_inputs<R: AllocGlobal + Abort>(rt: &R, script: &Script) -> Inputs
    ensures { map name_of result ≡ script.now.files }
{
    assert!(rt; script.files().is_empty());
    Inputs::from(Vec::new(rt.alloc()))
}

/// Plays a script. Answers how many entries that made, and what was saved.
fn played<R: AllocGlobal + Abort + Threads + Wait + Sync>(
    rt: &R,
    bytes: &[u8],
    limits: Limits,
    shelf: &mut MemoryShelf,
) -> Result<(u32, Result<(), StepFault>), NoMemory>
    requires { limits.entries < 2 ^ 32 }
{
    let script = script(rt, bytes);
    let inputs = no_inputs(rt, &script);
    let alloc = rt.alloc();
    let (fabric, pass) = Fabric::new(alloc, script.pool(), limits)?;
    let (pass, played) = play(alloc, rt, &fabric, pass, &script, &inputs, &NoGate);
    let book = fabric.close(rt, pass);
    assert!(rt; book.free() == book.buffers());
    let entries = book.close().len();
    match played {
        Ok(outputs) => {
            assert!(rt; write_outputs(alloc, shelf, &outputs).is_ok());
            Ok((entries, Ok(())))
        }
        Err(fault) => Ok((entries, Err(fault))),
    }
}

/// Plays a script, which makes so many entries and ends so.
fn plays<R: AllocGlobal + Abort + Threads + Wait + Sync>(
    rt: &R,
    bytes: &[u8],
    limits: Limits,
    shelf: &mut MemoryShelf,
    wanted: (u32, Result<(), StepFault>),
) -> Result<(), NoMemory>
    requires { limits.entries < 2 ^ 32 }
{
    let (entries, ended) = played(rt, bytes, limits, shelf)?;
    assert!(rt; entries == wanted.0, "{entries} entries");
    assert!(rt; ended == wanted.1);
    Ok(())
}

/// How often a part stands in a text.
pub(crate) fn count_in(text: &[u8], part: &[u8]) -> usize {
    if part.is_empty() {
        0
    } else {
        text.windows(part.len())
            .filter(|bytes| *bytes == part)
            .count()
    }
}

/// The frames of both users are saved.
fn holds_parts(rt: &impl Abort, saved: &[u8]) {
    assert_eq!(rt; saved.len(), 174);
    for (part, count) in SAVED_PARTS {
        assert!(rt; count_in(saved, part) == *count, "{part:?}");
    }
}

#[test]
fn a_block_is_played(rt: HostRuntime) -> Result<(), NoMemory> {
    let mut shelf = MemoryShelf::new(rt.alloc(), Vec::new(rt.alloc()));
    plays(&rt, BLOCK, WIDE, &mut shelf, (26, Ok(())))?;
    holds_parts(&rt, shelf.file("got.pcap").unwrap_or(b""));
    Ok(())
}

/// The script of the full record stops so.
fn stops_full<R: AllocGlobal + Abort + Threads + Wait + Sync>(
    rt: &R,
    shelf: &mut MemoryShelf,
) -> Result<(), NoMemory> {
    let full = FULL_RECORD;
    let wanted = (full.entries, Err(full.fault));
    assert!(rt; script(rt, full.script).pool() == full.free);
    plays(rt, full.script, full.limits, shelf, wanted)
}

#[test]
fn a_full_record_stops_a_script(rt: HostRuntime) -> Result<(), NoMemory> {
    let mut shelf = MemoryShelf::new(rt.alloc(), Vec::new(rt.alloc()));
    plays(&rt, TWO, NARROW, &mut shelf, (2, Err(FULL)))?;
    stops_full(&rt, &mut shelf)
}
