//! Asks and answers as tables write them.
use nm_types::{
    Batch, Chain, Counts, Frame, LeaseId, Name, NoMemory, OpenFault, PortId, SessionId, Sides,
    StepFault,
};
use std::alloc::Global;
use std::process::Abort;
use vale_entry::{Ask, Dest, Dests, Item, Items, Numbers, Reply};

/// An ask. Frames are broadcasts of 14 bytes, whose source ends with a byte that is given, or have as
/// many bytes as are given for each.
#[derive(Clone, Copy)]
pub(super) enum Step {
    Enter,
    Open(u32, &'static str, u32, u32, u32),
    Watch(u32, &'static str, Sides),
    Send(u32, u8, usize),
    SendLong(u32, &'static [usize]),
    Grant(u32, u32),
    Done(u32),
    Sync(u32, &'static [u32]),
    Get(u32, &'static [u32]),
    Put(u32, &'static [u32]),
    Shut(u32),
    Finish(u32, &'static [u32]),
    Leave(u32),
    Stat(u32),
}

/// An answer. Of ports to which something is offered the first is told, and their number.
#[derive(Clone, Copy, Debug, PartialEq, Eq)]
pub(super) enum Answer {
    NotEnabled,
    Fault(StepFault),
    Made,
    Opened,
    Refused(OpenFault),
    Watching(u32),
    NoTarget,
    Watched(u32),
    Offered(u32, usize),
    Shared(u32, u32, u32),
    Gave(u32, usize),
    Took(usize, usize),
    PeerGone,
    Unread(u32),
    LeasesOut(u32),
    Counted(Counts),
}

fn broadcast(source: u8) -> [u8; 14] {
    [
        255, 255, 255, 255, 255, 255, 2, 0, 0, 0, 0, source, 0x88, 0xb5,
    ]
}

fn batch(alloc: Global, source: u8, count: usize) -> Result<Batch, NoMemory> {
    let mut batch = Batch::new(alloc);
    for _ in 0..count {
        batch.push(&broadcast(source), false)?;
    }
    Ok(batch)
}

/// A broadcast of each of these lengths.
fn long(alloc: Global, lens: &[usize]) -> Result<Batch, NoMemory> {
    let mut bytes = Vec::from_slice(alloc, &broadcast(10))?;
    let mut batch = Batch::new(alloc);
    for len in lens {
        bytes.resize(*len, 7)?;
        batch.push(&bytes, false)?;
    }
    Ok(batch)
}

fn items(alloc: Global, indices: &[u32]) -> Result<Items, NoMemory> {
    let mut items = Vec::new(alloc);
    for index in indices {
        let bytes = Frame::new(alloc, &broadcast(10), false)?;
        items.push(Item {
            index: *index,
            bytes,
        })?;
    }
    Ok(Items::from(items))
}

fn numbers(alloc: Global, numbers: &[u32]) -> Result<Numbers, NoMemory> {
    Ok(Numbers::from(Vec::from_slice(alloc, numbers)?))
}

fn name(rt: &impl Abort, text: &str) -> Name {
    match Name::parse(text) {
        Ok(name) => name,
        Err(_) => panic!(rt; "{text} is no name"),
    }
}

/// The ask of a step at one port that names buffers.
fn ask_with(port: PortId, bufs: Numbers, step: Step) -> Ask {
    match step {
        Step::Sync(..) => Ask::Sync { port, back: bufs },
        Step::Get(..) => Ask::Get { port, back: bufs },
        _ => Ask::Finish {
            port,
            bufs,
            chain: Chain {
                found: 0,
                astray: 0,
            },
        },
    }
}

/// The ask of a step at one port.
fn ask_at(alloc: Global, port: PortId, step: Step) -> Result<Ask, NoMemory> {
    Ok(match step {
        Step::Send(_, source, count) => Ask::Send {
            port,
            frames: batch(alloc, source, count)?,
        },
        Step::SendLong(_, lens) => Ask::Send {
            port,
            frames: long(alloc, lens)?,
        },
        Step::Put(_, indices) => Ask::Put {
            port,
            offered: items(alloc, indices)?,
        },
        Step::Sync(_, bufs) | Step::Get(_, bufs) | Step::Finish(_, bufs) => {
            ask_with(port, numbers(alloc, bufs)?, step)
        }
        Step::Shut(_) => Ask::Shut { port },
        _ => Ask::Stat { port },
    })
}

pub(super) fn ask_of(rt: &impl Abort, alloc: Global, step: Step) -> Result<Ask, NoMemory> {
    match step {
        Step::Enter => Ok(Ask::Enter { user: 7 }),
        Step::Open(session, text, tx, rx, extra) => Ok(Ask::Open {
            session: SessionId(session),
            name: name(rt, text),
            tx,
            rx,
            extra,
        }),
        Step::Watch(monitor, text, sides) => Ok(Ask::Watch {
            monitor: PortId(monitor),
            target: name(rt, text),
            sides,
        }),
        Step::Grant(origin, to) => Ok(Ask::Grant {
            origin,
            to: PortId(to),
        }),
        Step::Done(lease) => Ok(Ask::Done {
            lease: LeaseId(lease),
        }),
        Step::Leave(session) => Ok(Ask::Leave {
            session: SessionId(session),
        }),
        Step::Send(port, _, _)
        | Step::SendLong(port, _)
        | Step::Sync(port, _)
        | Step::Get(port, _)
        | Step::Put(port, _)
        | Step::Finish(port, _)
        | Step::Shut(port)
        | Step::Stat(port) => ask_at(alloc, PortId(port), step),
    }
}

/// The first port that is told, or 0.
fn first(to: &Dests) -> u32 {
    match to.as_slice() {
        [Dest { to, .. }, ..] => to.0,
        [] => 0,
    }
}

pub(super) fn answer_of(reply: &Reply) -> Answer {
    match reply {
        Reply::Made => Answer::Made,
        Reply::Opened => Answer::Opened,
        Reply::Refused { fault } => Answer::Refused(*fault),
        Reply::Watching { target } => Answer::Watching(target.0),
        Reply::NoTarget => Answer::NoTarget,
        Reply::Watched { by } => Answer::Watched(by.0),
        Reply::Offered { to, .. } => Answer::Offered(first(to), to.as_slice().len()),
        Reply::Shared { given, full, gone } => Answer::Shared(*given, *full, *gone),
        Reply::Gave { count, to } => Answer::Gave(*count, to.as_slice().len()),
        Reply::Took { items, to } => Answer::Took(items.as_slice().len(), to.as_slice().len()),
        Reply::PeerGone => Answer::PeerGone,
        Reply::Unread { count } => Answer::Unread(*count),
        Reply::LeasesOut { n } => Answer::LeasesOut(*n),
        Reply::Counted { counts } => Answer::Counted(*counts),
    }
}
