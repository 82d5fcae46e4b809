ghost use Rattle.std.specs.Prelude.{◌≤◌, length};
ghost use Rattle.vale_fabric.specs.Fabrics.{IsPassIn};

use crate::users::{end, open, receive, send};
use nm_types::{Limits, MAX_RING, PortId};
use nm_user::Session;
use std::alloc::Global;
use std::io::{self, Print};
use std::sync::Wait;
use std::thread::{Threads, join};
use std::time::{Clock, Instant};
use vale_fabric::{Fabric, Pass};

/// The slots of each ring.
const RING: u32 = 1024;

/// The buffers of the pool: those of two ports with the largest rings.
const POOL: u32 = 4 * MAX_RING;

/// The bytes of the longest frame.
const LONGEST: usize = 9000;

/// The bytes of a frame.
const LENGTHS: [usize; 2] = [60, 1514];

/// The frames of a batch.
const BATCHES: [u32; 3] = [1, 64, 512];

const FEW: u32 = 512;

const MANY: u32 = 204_800;

const TO_ALL: [u8; 6] = [0xff; 6];

/// The address behind the port from which frames go.
const HERE: [u8; 6] = [2, 0, 0, 0, 0, 1];

/// The address behind the port to which they go.
const THERE: [u8; 6] = [2, 0, 0, 0, 0, 2];

/// What goes from one session to the other: so many frames of so many bytes, at most 9,000, by
/// batches, through rings of as many slots.
#[derive(Clone, Copy)]
pub struct Traffic {
    pub len: usize,
    pub batch: u32,
    pub frames: u32,
    pub slots: u32,
}

/// A session's part in it.
#[derive(Clone, Copy)]
enum Part {
    Sends,
    Receives,
}

/// A frame from one address to another.
fn frame(to: &[u8; 6], from: &[u8; 6]) -> [u8; LONGEST] {
    let mut bytes = [0x5a; LONGEST];
    bytes[..6].copy_from_slice(to);
    bytes[6..12].copy_from_slice(from);
    bytes
}

/// Puts copies of a frame, one by one where it takes more than a slot.
fn put(session: &mut Session, port: PortId, bytes: &[u8], count: u32)
    requires { length bytes.now ≤ 9000 }
{
    if bytes.len() <= 2048 {
        session.put_copies(port, bytes, count);
        return;
    }
    for _ in 0..count {
        session.put_frame(port, bytes);
    }
}

/// The first bytes of a frame, so many at most.
fn start(frame: &[u8; LONGEST], len: usize) -> &[u8]
    ensures { length result.now ≤ 9000 }
{
    &frame[..len.min(LONGEST)]
}

/// Puts a batch of frames, and sends it. Answers how many found room.
fn send_batch<R: Wait>(
    rt: &R,
    session: &mut Session,
    port: PortId,
    frame: &[u8; LONGEST],
    traffic: Traffic,
) -> Option<u32> {
    put(session, port, start(frame, traffic.len), traffic.batch);
    send(rt, session, port)
}

/// Opens the port to which frames go, and sends its first frame, by which the switch learns of it.
fn open_receiver<R: Wait>(rt: &R, session: &mut Session, slots: u32) -> Option<PortId> {
    let port = open(rt, session, "vale0:b", slots)?;
    let greeting = frame(&TO_ALL, &THERE);
    put(session, port, start(&greeting, 60), 1);
    send(rt, session, port)?;
    Some(port)
}

/// Sends one batch after another, each of which the other session receives. Answers how many frames
/// came.
fn carry_in_turns<R: Wait>(
    rt: &R,
    from: &mut Session,
    here: PortId,
    to: &mut Session,
    there: PortId,
    traffic: Traffic,
) -> Option<u32> {
    let frame = frame(&THERE, &HERE);
    let mut came = 0u32;
    for _ in 0..traffic.frames / traffic.batch.max(1) {
        send_batch(rt, from, here, &frame, traffic)?;
        came = came.saturating_add(receive(rt, to, there)?);
    }
    Some(came)
}

/// Sends a batch, or receives what is there. Answers how many frames found room, or came.
fn go_on<R: Wait>(
    rt: &R,
    session: &mut Session,
    port: PortId,
    part: Part,
    frame: &[u8; LONGEST],
    traffic: Traffic,
) -> Option<u32> {
    match part {
        Part::Sends => send_batch(rt, session, port, frame, traffic),
        Part::Receives => receive(rt, session, port),
    }
}

/// Goes on until as many frames as are wanted found room, or came. Answers how many did.
fn carry_part<R: Wait>(
    rt: &R,
    fabric: &Fabric,
    session: &mut Session,
    port: PortId,
    part: Part,
    traffic: Traffic,
) -> Option<u32> {
    let frame = frame(&THERE, &HERE);
    let mut count = 0u32;
    for _ in rt.forever() {
        match go_on(rt, session, port, part, &frame, traffic)? {
            0 => fabric.rest(),
            more => count = count.saturating_add(more),
        }
        if count >= traffic.frames {
            return Some(count);
        }
    }
    unreachable!()
}

/// Opens the ports, and carries frames on as many threads, one or two.
fn carry<R: Threads + Wait + Sync>(
    rt: &R,
    fabric: &Fabric,
    from: &mut Session,
    to: &mut Session,
    threads: u32,
    traffic: Traffic,
) -> Option<u32> {
    let there = open_receiver(rt, to, traffic.slots)?;
    let here = open(rt, from, "vale0:a", traffic.slots)?;
    if threads < 2 {
        return carry_in_turns(rt, from, here, to, there, traffic);
    }
    let (given, came) = join(
        rt,
        || carry_part(rt, fabric, from, here, Part::Sends, traffic),
        || carry_part(rt, fabric, to, there, Part::Receives, traffic),
    );
    given.and(came)
}

/// A user comes beside a sender, receives its frames, and leaves.
fn receive_beside<R: Threads + Wait + Sync>(
    rt: &R,
    alloc: Global,
    fabric: &Fabric,
    pass: Pass,
    from: &mut Session,
    threads: u32,
    traffic: Traffic,
) -> Option<u32>
    requires { IsPassIn fabric.now pass }
{
    let mut to = Session::enter(alloc, rt, fabric, pass, 2).ok()?;
    let came = carry(rt, fabric, from, &mut to, threads, traffic);
    drop(to.leave(rt));
    came
}

/// A sender comes, and a user who receives what it sends, and both leave.
fn live<R: Threads + Wait + Sync>(
    rt: &R,
    alloc: Global,
    fabric: &Fabric,
    one: Pass,
    two: Pass,
    threads: u32,
    traffic: Traffic,
) -> Option<u32>
    requires one { IsPassIn fabric.now one }
    requires two { IsPassIn fabric.now two }
{
    let mut from = Session::enter(alloc, rt, fabric, one, 1).ok()?;
    let came = receive_beside(rt, alloc, fabric, two, &mut from, threads, traffic);
    drop(from.leave(rt));
    came
}

/// How many frames came from one session to the other, on as many threads, one or two, and the
/// nanoseconds from the fabric's opening to its end.
pub fn exchange<R: Clock + Threads + Wait + Sync>(
    rt: &R,
    alloc: Global,
    threads: u32,
    traffic: Traffic,
) -> io::Result<(u32, u128)> {
    let start = Instant::now(rt)?;
    let Ok((fabric, mut pass)) = Fabric::new(alloc, POOL, Limits::VERSION_2) else {
        return Err(io::ErrorKind::OutOfMemory.into());
    };
    let (one, two) = (fabric.fork(&mut pass), fabric.fork(&mut pass));
    let came = live(rt, alloc, &fabric, one, two, threads, traffic);
    end(rt, fabric.close(rt, pass));
    match came {
        Some(came) => Ok((came, start.elapsed(rt)?.as_nanos())),
        None => Err(io::ErrorKind::OutOfMemory.into()),
    }
}

/// Carries frames on as many threads, one or two, and prints what came.
fn carry_timed<R: Print + Clock + Threads + Wait + Sync>(
    rt: &R,
    alloc: Global,
    threads: u32,
    traffic: Traffic,
    is_timed: bool,
) -> io::Result<()> {
    let (came, nanos) = exchange(rt, alloc, threads, traffic)?;
    let Traffic {
        len,
        batch,
        frames,
        ..
    } = traffic;
    if is_timed {
        let rate = u128::from(came) * 1_000_000_000 / nanos.max(1);
        println!(rt;
            "session: {len} bytes, batches of {batch}, {threads} threads, {rate} frames per second"
        )
    } else {
        println!(rt;
            "session: {frames} frames of {len} bytes, batches of {batch}, {threads} threads"
        )
    }
}

/// Carries frames of 60 and of 1,514 bytes from one session to another, by batches of 1, 64 and 512
/// frames, on one thread and on two, and prints how many were to come at least, or, if `is_timed`, more
/// of them, and also prints how many came each second. The record keeps all that were sent.
pub fn run<R: Print + Clock + Threads + Wait + Sync>(
    rt: &R,
    alloc: Global,
    is_timed: bool,
) -> io::Result<()> {
    let frames = if is_timed { MANY } else { FEW };
    for len in LENGTHS {
        for batch in BATCHES {
            let traffic = Traffic {
                len,
                batch,
                frames,
                slots: RING,
            };
            carry_timed(rt, alloc, 1, traffic, is_timed)?;
            carry_timed(rt, alloc, 2, traffic, is_timed)?;
        }
    }
    Ok(())
}
