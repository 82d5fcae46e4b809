use nm_types::{
    Batch, Frame, Kind, Name, NoMemory, OpenFault, Part, PortId, Side, Sides, SlotFault, StepFault,
    SyncFault, WatchFault,
};
use std::alloc::Global;
use std::fmt::Display;
use std::process::Abort;

/// A broadcast from 02:00:00:00:00:0a of 14 bytes.
const BROADCAST: [u8; 14] = [
    0xff, 0xff, 0xff, 0xff, 0xff, 0xff, 0x02, 0, 0, 0, 0, 0x0a, 0x88, 0xb5,
];

/// A name, its kind, the word of its switch, and the other end of its pipe.
type Row = (
    &'static str,
    Kind,
    Option<&'static str>,
    Option<&'static str>,
);

const NAMES: &[Row] = &[
    ("vale:a", Kind::Vale, Some(""), None),
    ("vale0:a", Kind::Vale, Some("0"), None),
    ("vale0:abcdefghij", Kind::Vale, Some("0"), None),
    ("valelab:uplink", Kind::Vale, Some("lab"), None),
    ("pipe0{", Kind::Master, None, Some("pipe0}")),
    ("pipe0}", Kind::Slave, None, Some("pipe0{")),
    ("pipe_-a}", Kind::Slave, None, Some("pipe_-a{")),
    ("mon0", Kind::Monitor, None, None),
    ("monitor", Kind::Monitor, None, None),
];

/// What no port is named.
const NO_NAMES: &[&str] = &[
    "vale0:abcdefghijk",
    "vale0:",
    "eth0",
    "pipe{",
    "mon",
    "vale0:no.body",
    "",
];

/// Whether a port of this switch has the name, or no port of a switch.
fn is_at_switch(name: &Name, switch: Option<&str>) -> bool {
    match switch {
        Some(switch) => name.is_switch_port() && name.switch() == switch.as_bytes(),
        None => !name.is_switch_port(),
    }
}

/// Whether an end of a pipe has the name, and this its other end, or no end of one.
fn has_peer(name: &Name, peer: Option<&str>) -> bool {
    match peer {
        Some(peer) if name.is_pipe() => name.peer().as_bytes() == peer.as_bytes(),
        Some(_) => false,
        None => !name.is_pipe(),
    }
}

/// Whether a text is a name of that kind, and the name's bytes are those of the text.
fn is_name((text, kind, switch, peer): &Row) -> bool {
    match Name::parse(text) {
        Ok(name) => {
            name.kind() == *kind
                && name.as_bytes() == text.as_bytes()
                && name.is_monitor() == (*kind == Kind::Monitor)
                && is_at_switch(&name, *switch)
                && has_peer(&name, *peer)
        }
        Err(_) => false,
    }
}

#[test]
fn names_of_every_kind(rt: HostRuntime) {
    for row in NAMES {
        assert!(rt; is_name(row), "{}", row.0);
    }
    for text in NO_NAMES {
        assert!(rt; Name::parse(text).is_err(), "{text}");
    }
}

#[test]
fn sides_are_watched(rt: HostRuntime) {
    for (sides, tx, rx) in [
        (Sides::T, true, false),
        (Sides::R, false, true),
        (Sides::TR, true, true),
    ] {
        assert!(rt; sides.watches(Side::Tx) == tx);
        assert!(rt; sides.watches(Side::Rx) == rx);
    }
}

/// A fault is told by this text.
fn says<T: Display>(rt: &impl Abort, alloc: Global, fault: &T, text: &str) {
    match format!(in alloc; "{fault}") {
        Ok(told) => assert!(rt; told.as_str() == text, "{text}"),
        Err(_) => panic!(rt; "out of memory"),
    }
}

const FULL: StepFault = StepFault::RecordFull {
    what: Part::Entries,
    used: 7,
    want: 3,
};

const FULL_TEXT: &str = "the record is full: 7 entries are used, and 3 more are wanted";

/// The faults that pass one of a full record on say what it says.
fn full_is_passed_on(rt: &impl Abort, alloc: Global) {
    says(rt, alloc, &FULL, FULL_TEXT);
    says(rt, alloc, &SyncFault::from(FULL), FULL_TEXT);
    says(rt, alloc, &WatchFault::from(FULL), FULL_TEXT);
}

const HEAD_OUT: SyncFault = SyncFault::HeadOut {
    head: 9,
    from: 1,
    to: 3,
};

#[test]
fn faults_say_what_to_do(rt: HostRuntime) {
    let alloc = rt.alloc();
    full_is_passed_on(&rt, alloc);
    says(&rt, alloc, &NoMemory, "out of memory");
    let text = "head 9 is not between 1 and the tail 3";
    says(&rt, alloc, &HEAD_OUT, text);
    let text = "slot 1 has 2049 bytes, more than a buffer";
    says(&rt, alloc, &SlotFault::LongLen { slot: 1, len: 2049 }, text);
    let text = "port 5 is watching it";
    says(&rt, alloc, &WatchFault::Watched { by: PortId(5) }, text);
    let text = "8 buffers are wanted, and 2 are free";
    says(&rt, alloc, &OpenFault::NoBuffers { want: 8, have: 2 }, text);
}

#[test]
fn frames_keep_bytes_and_mark(rt: HostRuntime) -> Result<(), NoMemory> {
    let frame = Frame::new(rt.alloc(), &BROADCAST, false)?;
    assert!(rt; frame.bytes() == BROADCAST.as_slice() && !frame.no_learn());
    Ok(())
}

/// Its bytes, the first six of them, and the others.
const WHOLE: &[u8] = &BROADCAST;

const START: &[u8] = &[0xff; 6];

const REST: &[u8] = &[0x02, 0, 0, 0, 0, 0x0a, 0x88, 0xb5];

/// A frame with its mark, or bytes behind those of the last frame.
enum Piece {
    Frame(&'static [u8], bool),
    Rest(&'static [u8]),
}

/// Frames, each with its mark.
type Frames = &'static [(&'static [u8], bool)];

/// What is put into a batch, and its frames then: none, a broadcast, the same and one that is
/// cut short and marked, two that are cut short, and the same where the last one goes on.
const BATCHES: &[(&[Piece], Frames)] = &[
    (&[], &[]),
    (&[Piece::Frame(WHOLE, false)], &[(WHOLE, false)]),
    (
        &[Piece::Frame(WHOLE, false), Piece::Frame(START, true)],
        &[(WHOLE, false), (START, true)],
    ),
    (
        &[Piece::Frame(START, false), Piece::Frame(START, true)],
        &[(START, false), (START, true)],
    ),
    (
        &[
            Piece::Frame(START, false),
            Piece::Frame(START, true),
            Piece::Rest(REST),
        ],
        &[(START, false), (WHOLE, true)],
    ),
];

/// Puts a frame, or bytes behind those of the last frame of a batch, which has one.
fn put(rt: &impl Abort, batch: &mut Batch, piece: &Piece) -> Result<(), NoMemory> {
    match piece {
        Piece::Frame(bytes, no_learn) => batch.push(bytes, *no_learn),
        Piece::Rest(bytes) => {
            assert!(rt; batch.len() > 0);
            batch.extend_last(bytes)
        }
    }
}

/// A batch of what is put.
fn batch_of(rt: &impl Abort, alloc: Global, pieces: &[Piece]) -> Result<Batch, NoMemory> {
    let mut batch = Batch::new(alloc);
    for piece in pieces {
        put(rt, &mut batch, piece)?;
    }
    Ok(batch)
}

/// Whether a batch has these frames.
fn holds(batch: &Batch, frames: Frames) -> bool {
    if batch.len() != frames.len() {
        return false;
    }
    for at in 0..frames.len() {
        let (bytes, no_learn) = frames[at];
        if batch.frame(at) != bytes || batch.no_learn(at) != no_learn {
            return false;
        }
    }
    batch.is_empty() == frames.is_empty()
}

/// A batch has the frames that are put, and so has its copy, whatever comes behind them.
fn hold(rt: &impl Abort, alloc: Global, pieces: &[Piece], frames: Frames) -> Result<(), NoMemory> {
    let mut batch = batch_of(rt, alloc, pieces)?;
    let copy = batch.clone()?;
    put(rt, &mut batch, &Piece::Frame(START, false))?;
    assert!(rt; batch.len() > frames.len() && batch.is_sendable());
    assert!(rt; holds(&copy, frames));
    Ok(())
}

#[test]
fn batches_hold_frames_in_order(rt: HostRuntime) -> Result<(), NoMemory> {
    for (pieces, frames) in BATCHES {
        hold(&rt, rt.alloc(), pieces, *frames)?;
    }
    Ok(())
}

/// How many bytes two frames have of which the last one went on.
fn size_of_two(alloc: Global) -> Result<u64, NoMemory> {
    let mut batch = Batch::new(alloc);
    batch.push(&BROADCAST[..6], false)?;
    batch.push(&BROADCAST[..6], true)?;
    batch.extend_last(&BROADCAST[6..])?;
    Ok(batch.size())
}

#[test]
fn bytes_are_counted(rt: HostRuntime) -> Result<(), NoMemory> {
    let size = size_of_two(rt.alloc())?;
    assert!(rt; size == 20);
    Ok(())
}

#[test]
fn a_batch_too_large_is_not_sendable(rt: HostRuntime) -> Result<(), NoMemory> {
    let mut batch = Batch::new(rt.alloc());
    for _ in 0..2047 {
        batch.push(&[0; 2049], false)?;
    }
    assert!(rt; batch.is_sendable());
    batch.push(&[0; 2049], false)?;
    assert!(rt; !batch.is_sendable());
    Ok(())
}
