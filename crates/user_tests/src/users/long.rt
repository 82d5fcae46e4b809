//! Frames of several slots go to a port, and to a monitor of what is sent or of what is received.
ghost use Rattle.nm_user.specs.Words.{IsPassIn};

use super::lines::play;
use super::{Sizes, User, leave, pull, push, three_come, watch};
use nm_io::NoGate;
use nm_types::{MAX_FRAME_BYTES, PortId, Side, Sides};
use nm_user::{Sent, Session};
use std::alloc::{AllocError, Global};
use std::process::Abort;
use std::sync::Wait;
use std::test::Fail;
use vale_fabric::{Fabric, Pass};

/// Frames, by their lengths; the slots of the ring of the port to which they go, and of its monitor's;
/// and what becomes of them.
#[derive(Clone, Copy)]
struct Row {
    lens: &'static [usize],
    rx: u32,
    monitor: u32,
    /// How many of the frames the port is given, and how many the monitor.
    given: usize,
    watched: usize,
    /// The lengths and the flags of the port's first receive slots.
    slots: &'static [(u16, u16)],
    /// How many slots went, and how many of their frames were given and found no room, where the
    /// monitor watches the sender.
    told: (u32, u32, u32),
    /// The same where it watches the port to which they go.
    told_of_one: (u32, u32, u32),
}

const ROWS: [Row; 5] = [
    // A frame of three slots, and one of five.
    Row {
        lens: &[5000, 9000],
        rx: 9,
        monitor: 9,
        given: 2,
        watched: 2,
        slots: &[(2048, 544), (2048, 288), (904, 0), (2048, 1056)],
        told: (8, 4, 0),
        told_of_one: (8, 2, 0),
    },
    // A frame of two slots between two of one.
    Row {
        lens: &[2048, 2049, 14],
        rx: 5,
        monitor: 5,
        given: 3,
        watched: 3,
        slots: &[(2048, 0), (2048, 288), (1, 0), (14, 0)],
        told: (4, 6, 0),
        told_of_one: (4, 3, 0),
    },
    // The longest, which never fits in a ring of 64 slots.
    Row {
        lens: &[MAX_FRAME_BYTES],
        rx: 65,
        monitor: 64,
        given: 1,
        watched: 0,
        slots: &[(2048, 16160), (2048, 15904)],
        told: (64, 1, 1),
        told_of_one: (64, 1, 0),
    },
    // The first two fit in five slots, and the first in three.
    Row {
        lens: &[4096, 4097, 14],
        rx: 6,
        monitor: 4,
        given: 2,
        watched: 1,
        slots: &[(2048, 288), (2048, 0), (2048, 544), (2048, 288), (1, 0)],
        told: (6, 3, 3),
        told_of_one: (6, 2, 1),
    },
    // The first does not fit, and the other is behind it.
    Row {
        lens: &[4097, 14],
        rx: 3,
        monitor: 3,
        given: 0,
        watched: 0,
        slots: &[],
        told: (4, 0, 4),
        told_of_one: (4, 0, 2),
    },
];

/// A ring of each kind, without extra buffers.
fn sizes(tx: u32, rx: u32) -> Sizes {
    Sizes { tx, rx, extra: 0 }
}

/// A frame of so many bytes, no two parts of which are alike. It goes to a station that no switch
/// knows.
fn frame(alloc: Global, len: usize) -> Result<Vec<u8>, AllocError> {
    let mut bytes = Vec::new(alloc);
    for at in 0..len {
        bytes.push((at % 251) as u8)?;
    }
    Ok(bytes)
}

/// A frame is put by one call.
fn put<R: AllocGlobal + Abort>(rt: &R, session: &mut Session, port: PortId, len: usize) {
    let Ok(bytes) = frame(rt.alloc(), len) else {
        panic!(rt; "out of memory")
    };
    assert!(rt; bytes.len() <= MAX_FRAME_BYTES);
    assert!(rt; session.has_room(port, bytes.len()));
    session.put_frame(port, &bytes);
}

/// The frames are put, and go on together.
fn send<R: AllocGlobal + Abort + Wait>(rt: &R, user: &mut User, lens: &[usize]) -> Sent {
    for len in lens {
        put(rt, &mut user.session, user.port, *len);
    }
    push(rt, &mut user.session, user.port, &NoGate)
}

/// Whether a frame of so many bytes has these.
fn is_frame(rt: &impl Abort, alloc: Global, found: &[u8], len: usize) -> bool {
    match frame(alloc, len) {
        Ok(bytes) => found == bytes.as_slice(),
        Err(_) => panic!(rt; "out of memory"),
    }
}

/// Frames of these lengths are read by one call.
fn read_all(rt: &impl Abort, alloc: Global, user: &User, lens: &[usize]) {
    let Ok(frames) = user.session.frames_from(user.port, 0) else {
        panic!(rt; "out of memory")
    };
    assert!(rt; frames.len() == lens.len());
    for i in 0..lens.len() {
        assert!(rt; is_frame(rt, alloc, frames.frame(i), lens[i]), "frame {i}");
    }
}

/// Frames of these lengths come.
fn receive<R: AllocGlobal + Abort + Wait>(rt: &R, user: &mut User, lens: &[usize]) {
    let received = pull(rt, &mut user.session, user.port);
    assert!(rt; received.gave as usize == lens.len());
    read_all(rt, rt.alloc(), user, lens);
}

/// A port's receive slot has this length and these flags.
fn is_slot(session: &Session, port: PortId, at: u32, slot: (u16, u16)) -> bool {
    match session.slot(port, Side::Rx, at) {
        Some(found) => (found.len, found.flags) == slot,
        None => false,
    }
}

/// The port's first receive slots are as the row tells.
fn are_slots(rt: &impl Abort, user: &User, slots: &[(u16, u16)]) {
    for (at, slot) in (0u32..).zip(slots) {
        assert!(rt; is_slot(&user.session, user.port, at, *slot), "slot {at}");
    }
}

/// Users come with a port of a switch, another one, and a monitor of one of them.
fn watched<'f, R: AllocGlobal + Abort + Wait>(
    rt: &R,
    fabric: &'f Fabric,
    pass: Pass,
    row: &Row,
    target: (&str, Sides),
) -> (User<'f>, User<'f>, User<'f>)
    requires { IsPassIn fabric.now pass }
{
    let ports = [
        ("vale0:a", sizes(65, 2)),
        ("vale0:b", sizes(2, row.rx)),
        ("mon0", sizes(0, row.monitor)),
    ];
    let (first, second, mut third) = three_come(rt, fabric, pass, ports);
    let monitor = third.port;
    watch(rt, &mut third.session, monitor, target);
    (first, second, third)
}

/// The first ones of some lengths.
fn first(lens: &[usize], count: usize) -> &[usize] {
    &lens[..lens.len().min(count)]
}

/// The frames are sent, received and watched.
fn send_and_watch<R: AllocGlobal + Abort + Wait>(
    rt: &R,
    fabric: &Fabric,
    pass: Pass,
    row: &Row,
    target: (&str, Sides),
) -> Sent
    requires { IsPassIn fabric.now pass }
{
    let (mut sender, mut second, mut third) = watched(rt, fabric, pass, row, target);
    let sent = send(rt, &mut sender, row.lens);
    receive(rt, &mut second, first(row.lens, row.given));
    receive(rt, &mut third, first(row.lens, row.watched));
    are_slots(rt, &second, row.slots);
    drop(leave(rt, sender));
    drop(leave(rt, second));
    drop(leave(rt, third));
    sent
}

fn is_told(rt: &impl Abort, sent: Sent, told: (u32, u32, u32)) {
    assert!(rt; (sent.pushed, sent.given, sent.full) == told);
}

#[test]
fn frames_of_several_slots_are_sent_and_watched(rt: HostRuntime) -> Result<(), Fail> {
    let (sender, receiver) = (("vale0:a", Sides::T), ("vale0:b", Sides::R));
    for row in ROWS {
        let (sent, _) = play(
            &rt,
            |fabric, pass| send_and_watch(&rt, fabric, pass, &row, sender),
        )?;
        is_told(&rt, sent, row.told);
        let (sent, _) = play(
            &rt,
            |fabric, pass| send_and_watch(&rt, fabric, pass, &row, receiver),
        )?;
        is_told(&rt, sent, row.told_of_one);
    }
    Ok(())
}
