use crate::memory;
use nm_types::{
    Batch, LeaseId, Limits, MAX_BATCH, MAX_POOL, MAX_SWITCH_PORTS, MIN_RING, Name, NoMemory,
    PortId, SessionId,
};
use std::alloc::{Alloc, Global};
use std::fs::Files;
use std::io::{self, Print};
use std::time::{Clock, Instant};
use vale_drive::Drive;
use vale_entry::{Ask, Dest, Reply};

/// The ports of a switch, and the frames that one of them sends at once.
#[derive(Clone, Copy)]
struct Shape {
    ports: u32,
    frames: u32,
}

/// The ports that a switch may have.
const PORTS: u32 = MAX_SWITCH_PORTS as u32;

/// The frames that may be sent at once.
const FRAMES: u32 = MAX_BATCH as u32;

const FEW: [Shape; 1] = [Shape {
    ports: 4,
    frames: 64,
}];

/// A quarter of the ports or of the frames, half of the ports, and all of both.
const MANY: [Shape; 4] = [
    Shape {
        ports: PORTS / 4,
        frames: FRAMES,
    },
    Shape {
        ports: PORTS,
        frames: FRAMES / 4,
    },
    Shape {
        ports: PORTS / 2,
        frames: FRAMES,
    },
    Shape {
        ports: PORTS,
        frames: FRAMES,
    },
];

/// How many frames the ports were given, and how many found no room.
#[derive(Clone, Copy)]
struct Shares {
    given: u32,
    full: u32,
}

/// So many broadcasts of 60 bytes.
fn batch(alloc: Global, frames: u32) -> Result<Batch, NoMemory> {
    let mut frame = [0; 60];
    frame[..6].copy_from_slice(&[0xff; 6]);
    frame[6] = 2;
    let mut batch = Batch::new(alloc);
    for _ in 0..frames {
        batch.push(&frame, false)?;
    }
    Ok(batch)
}

/// Makes an ask. `None`: it is not enabled, or there is no room for it.
fn made(drive: &mut Drive, ask: &Ask) -> Option<Reply> {
    match drive.apply(ask) {
        Ok(reply) => reply,
        Err(_) => None,
    }
}

/// The first session opens a port. The pool has buffers for receive rings that hold up to a quarter
/// of the frames.
fn open_port(alloc: Global, drive: &mut Drive, port: u32, shape: Shape) -> Option<()> {
    let text = format!(in alloc; "vale0:{port}").ok()?;
    let ask = Ask::Open {
        session: SessionId(1),
        name: Name::parse(&text).ok()?,
        tx: MIN_RING,
        rx: shape.frames / 4,
        extra: 0,
    };
    drop(made(drive, &ask)?);
    Some(())
}

/// Grants one port's offer, and completes what it is given.
fn share(drive: &mut Drive, origin: u32, to: PortId) -> Option<Shares> {
    let Reply::Shared { given, full, .. } = made(drive, &Ask::Grant { origin, to })? else {
        return None;
    };
    if given > 0 {
        let lease = LeaseId(drive.history().len());
        drop(made(drive, &Ask::Done { lease })?);
    }
    Some(Shares { given, full })
}

/// Grants and completes all offers of the last entry.
fn share_all(drive: &mut Drive, dests: &[Dest]) -> Option<Shares> {
    let origin = drive.history().len();
    let mut all = Shares { given: 0, full: 0 };
    for dest in dests {
        let Shares { given, full } = share(drive, origin, dest.to)?;
        all.given = all.given.saturating_add(given);
        all.full = all.full.saturating_add(full);
    }
    Some(all)
}

/// The first port sends frames, which each other port is granted.
fn broadcast(drive: &mut Drive, frames: Batch) -> Option<Shares> {
    let port = PortId(2);
    match made(drive, &Ask::Send { port, frames })? {
        Reply::Offered { to, .. } => share_all(drive, to.as_slice()),
        _ => None,
    }
}

/// A session comes and opens the ports, of which the first sends. Answers what became of the frames,
/// and how many nanoseconds it took from the send to the last completion.
fn play<R: Clock>(
    rt: &R,
    alloc: Global,
    drive: &mut Drive,
    shape: Shape,
) -> Option<(Shares, u128)> {
    drop(made(drive, &Ask::Enter { user: 1 })?);
    for port in 0..shape.ports {
        open_port(alloc, drive, port, shape)?;
    }
    let frames = batch(alloc, shape.frames).ok()?;
    let start = Instant::now(rt).ok()?;
    let shares = broadcast(drive, frames)?;
    Some((shares, start.elapsed(rt).ok()?.as_nanos()))
}

/// Sends a batch in a drive of its own.
fn play_anew<R: Clock>(rt: &R, alloc: Global, shape: Shape) -> Option<(Shares, u128)> {
    let mut drive = Drive::new(alloc, MAX_POOL, Limits::VERSION_2).ok()?;
    let played = play(rt, alloc, &mut drive, shape);
    drop(drive.close());
    played
}

/// How many frames are wanted at all ports together.
fn wanted(ports: u32, frames: u32) -> u64 {
    u64::from(ports) * u64::from(frames)
}

/// Sends one batch of broadcasts of 60 bytes to all other ports of a switch, grants and completes
/// them, and prints what became of them, or, if `is_timed`, does so with as many ports and frames as
/// there may be, and also prints nanoseconds and the most memory so far.
pub fn run<R: Print + Clock + Files + Alloc>(
    rt: &R,
    alloc: Global,
    is_timed: bool,
) -> io::Result<()> {
    let shapes: &[Shape] = if is_timed { &MANY } else { &FEW };
    for shape in shapes {
        let Some((Shares { given, full }, nanos)) = play_anew(rt, alloc, *shape) else {
            return Err(io::ErrorKind::OutOfMemory.into());
        };
        let Shape { ports, frames } = *shape;
        println!(rt; "broadcast: {frames} frames among {ports} ports, {given} given, {full} full")?;
        if is_timed {
            let wants = wanted(ports, frames).max(1);
            let (each, peak) = (nanos / u128::from(wants), memory::peak(rt));
            println!(rt;
                "broadcast: {nanos} ns, {each} for each frame and port, at most {peak} kB so far"
            )?;
        }
    }
    Ok(())
}
