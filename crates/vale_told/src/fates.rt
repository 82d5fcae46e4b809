//! What the entries tell of one frame.
ghost use Rattle.std.specs.Prelude.{◌≡◌, ◌<◌, ◌≤◌, ◌-◌, ◌+◌, ◌^◌, ℕ, length, map, take, sum, [], ◌++◌, option_copied, IfOk, OnOk};
ghost use Rattle.vale_entry.specs.Delivered.{count_gave};
ghost use Rattle.vale_entry.specs.Offers.{dests_in};
ghost use Rattle.vale_told.specs.Told.{told_of};
ghost use Rattle.vale_told.specs.Fates.{frame_count, entry_at, frames_in, share_in, share_of, done_in, done_of, reads_at, reader_from, given_before, stay_of, fate_in, fate_by, fate_of, trace_of, ends_from, put_trace, traces_by, traces_told};

use crate::ends::{End, change_ends, peer_among};
use crate::told::{taken, told_by_port, told_in};
use nm_types::NoMemory;
use std::alloc::Global;
use vale_entry::{Ask, Dest, Entry, Reply};

/// How the Grant `by` shared out the frames of an entry that are wanted at a port.
#[derive(Clone, Copy)]
pub(crate) struct Share {
    by: u32,
    given: u32,
    full: u32,
    gone: u32,
}

/// A frame's stay at a port that was given it.
#[derive(Clone, Copy, Debug, PartialEq, Eq)]
pub struct Stay {
    /// The entry that gave it: a Grant, or the Put itself.
    pub by: u32,
    /// The entry behind which its buffers are filled.
    pub done: Option<u32>,
    /// The Sync or Get that read it.
    pub read: Option<u32>,
    /// The entry that finished the port.
    pub finished: Option<u32>,
}

/// What became of a frame at a port.
#[derive(Clone, Copy, Debug, PartialEq, Eq)]
pub enum Fate {
    /// The entries do not tell it: some frames of its entry are wanted at the port and some are not,
    /// or they are not the entries of a switch.
    Unknown,
    /// It is wanted there, and not granted.
    Pending,
    /// There was no room for it.
    Full { by: u32 },
    /// The port was not open any more.
    Gone { by: u32 },
    /// The port was given it.
    Given { stay: Stay },
}

/// What is told of a frame at a port for which the reply of its entry names frames.
#[derive(Clone, Copy, Debug, PartialEq, Eq)]
pub struct Trace {
    /// The port.
    pub to: u32,
    /// How many frames of the entry are wanted there.
    pub count: u64,
    pub fate: Fate,
}

/// How many frames a Sync or a Get gave.
fn count_gave(reply: &Reply) -> u64
    ensures { result ≡ sum (count_gave reply.now) }
{
    match reply {
        Reply::Gave { count, .. } => *count as u64,
        _ => 0,
    }
}

/// How many frames an entry has.
fn frame_count(entry: &Entry) -> u64
    ensures { result ≡ frame_count entry.now.ask entry.now.reply }
{
    match &entry.ask {
        Ask::Send { frames, .. } => frames.len() as u64,
        Ask::PutKept { .. } => taken(&entry.reply),
        Ask::Sync { .. } => count_gave(&entry.reply),
        Ask::Get { .. } => count_gave(&entry.reply),
        _ => 0,
    }
}

/// The entry of this number.
fn entry_at(entries: &[Entry], number: u32) -> Option<&Entry>
    ensures { option_copied result ≡ entry_at entries.now number }
{
    if number == 0 {
        return None;
    }
    entries.get(number as usize - 1)
}

/// How many frames the entry of this number has; none where there is no such entry.
pub fn frames_at(entries: &[Entry], number: u32) -> u64
    ensures { result ≡ frames_in (entry_at entries.now number) }
{
    match entry_at(entries, number) {
        Some(entry) => frame_count(entry),
        None => 0,
    }
}

/// The share of an entry's frames at a port, if this entry makes it.
fn share_in(origin: u32, to: u32, number: u32, entry: &Entry) -> Option<Share>
    ensures { result ≡ share_in origin to number entry.now }
{
    match (&entry.ask, &entry.reply) {
        (
            Ask::Grant {
                origin: at,
                to: port,
            },
            Reply::Shared { given, full, gone },
        ) if *at == origin && port.0 == to => {
            Some(Share {
                by: number,
                given: *given,
                full: *full,
                gone: *gone,
            })
        }
        _ => None,
    }
}

fn share_of(entries: &[Entry], origin: u32, to: u32) -> Option<Share>
    requires { length entries.now < 2 ^ 32 - 1 }
    ensures { result ≡ share_of entries.now origin to }
{
    for (i, entry) in entries.iter().enumerate() {
        let share = share_in(origin, to, i as u32 + 1, entry);
        if share.is_some() {
            return share;
        }
    }
    None
}

/// The number of this entry, if it is the Done of a lease.
fn done_in(lease: u32, number: u32, entry: &Entry) -> Option<u32>
    ensures { result ≡ done_in lease number entry.now }
{
    match &entry.ask {
        Ask::Done { lease: at } if at.0 == lease => Some(number),
        _ => None,
    }
}

fn done_of(entries: &[Entry], lease: u32) -> Option<u32>
    requires { length entries.now < 2 ^ 32 - 1 }
    ensures { result ≡ done_of entries.now lease }
{
    for (i, entry) in entries.iter().enumerate() {
        let done = done_in(lease, i as u32 + 1, entry);
        if done.is_some() {
            return done;
        }
    }
    None
}

/// How many frames an entry reads at a port.
fn reads_at(port: u32, entry: &Entry) -> u64
    ensures { result ≡ reads_at port entry.now }
{
    match &entry.ask {
        Ask::Sync { port: at, .. } if at.0 == port => count_gave(&entry.reply),
        Ask::Get { port: at, .. } if at.0 == port => count_gave(&entry.reply),
        _ => 0,
    }
}

/// The entry that read the frame that was given to a port behind so many others.
fn reader_of(entries: &[Entry], port: u32, place: u64) -> Option<u32>
    requires { length entries.now < 2 ^ 32 - 1 }
    ensures { result ≡ reader_from port 1 place entries.now }
{
    let mut left = place;
    for (i, entry) in entries.iter().enumerate() {
        let read = reads_at(port, entry);
        if left < read {
            return Some(i as u32 + 1);
        }
        left -= read;
    }
    None
}

/// The entries before the one of this number.
#[tactic(auto, using(crate::proofs::Tracing::take_past))]
fn before(entries: &[Entry], number: u32) -> &[Entry]
    ensures { result.now ≡ take (number - 1) entries.now }
{
    let count = number.saturating_sub(1) as usize;
    if count < entries.len() {
        &entries[..count]
    } else {
        entries
    }
}

/// How many frames a port was given before the entry of this number.
fn given_before(alloc: Global, entries: &[Entry], number: u32, port: u32) -> Result<u64, NoMemory>
    requires { length entries.now < 2 ^ 32 - 1 }
    ensures { IfOk result (λ given. given ≡ given_before entries.now number port) }
{
    let by_port = told_by_port(alloc, before(entries, number))?;
    Ok(told_in(&by_port, port).tally.counts.given)
}

/// The entry that finished a port.
fn finished_of(alloc: Global, entries: &[Entry], port: u32) -> Result<Option<u32>, NoMemory>
    requires { length entries.now < 2 ^ 32 - 1 }
    ensures { IfOk result (λ finished. finished ≡ (told_of entries.now port).finished) }
{
    let by_port = told_by_port(alloc, entries)?;
    Ok(told_in(&by_port, port).finished)
}

/// What is told of a frame that a port was given by this entry.
fn stay_of(
    alloc: Global,
    entries: &[Entry],
    port: u32,
    place: u64,
    by: u32,
    done: Option<u32>,
) -> Result<Stay, NoMemory>
    requires { length entries.now < 2 ^ 32 - 1 }
    ensures { IfOk result (λ stay. stay ≡ stay_of entries.now port place by done) }
{
    let ahead = given_before(alloc, entries, by, port)?;
    let at = ahead.checked_add(place).ok_or(NoMemory)?;
    let finished = finished_of(alloc, entries, port)?;
    Ok(Stay {
        by,
        done,
        read: reader_of(entries, port, at),
        finished,
    })
}

/// What became of a frame by the share that counts it.
fn fate_in(
    alloc: Global,
    entries: &[Entry],
    port: u32,
    place: u64,
    share: Share,
) -> Result<Fate, NoMemory>
    requires { length entries.now < 2 ^ 32 - 1 }
    ensures { IfOk result (λ fate. fate ≡ fate_in entries.now port place share) }
{
    if place < share.given as u64 {
        let done = done_of(entries, share.by);
        let stay = stay_of(alloc, entries, port, place, share.by, done)?;
        return Ok(Fate::Given { stay });
    }
    if share.gone > 0 {
        return Ok(Fate::Gone { by: share.by });
    }
    Ok(Fate::Full { by: share.by })
}

/// What became of a frame at a port where all frames of its entry are wanted.
fn fate_by(
    alloc: Global,
    entries: &[Entry],
    dest: &Dest,
    place: u64,
    share: Option<Share>,
) -> Result<Fate, NoMemory>
    requires { length entries.now < 2 ^ 32 - 1 }
    ensures { IfOk result (λ fate. fate
        ≡ fate_by entries.now dest.now.to.0 dest.now.count place share) }
{
    let Some(share) = share else {
        return Ok(Fate::Pending);
    };
    if share.given as u64 + share.full as u64 + share.gone as u64 != dest.count as u64 {
        return Ok(Fate::Unknown);
    }
    fate_in(alloc, entries, dest.to.0, place, share)
}

/// What is told of a frame at a port for which the reply of its entry names frames.
fn trace_of(
    alloc: Global,
    entries: &[Entry],
    origin: u32,
    all: u64,
    place: u64,
    dest: &Dest,
) -> Result<Trace, NoMemory>
    requires { length entries.now < 2 ^ 32 - 1 }
    ensures { IfOk result (λ trace. trace ≡ trace_of entries.now origin all place dest.now) }
{
    let count = dest.count as u64;
    let fate = if count == all {
        let share = share_of(entries, origin, dest.to.0);
        fate_by(alloc, entries, dest, place, share)?
    } else {
        Fate::Unknown
    };
    Ok(Trace {
        to: dest.to.0,
        count,
        fate,
    })
}

/// The ends of pipes that are open behind these entries.
fn ends_behind(alloc: Global, entries: &[Entry]) -> Result<Vec<End>, NoMemory>
    requires { length entries.now < 2 ^ 32 - 1 }
    ensures { IfOk result (λ ends. ends.items ≡ ends_from 1 [] entries.now) }
{
    let mut ends = Vec::new(alloc);
    for (i, entry) in entries.iter().enumerate() {
        change_ends(&mut ends, i as u32 + 1, entry)?;
    }
    Ok(ends)
}

/// Adds what is told of a frame of a Put at the pipe's other end.
fn add_put_trace(
    traces: &mut Vec<Trace>,
    alloc: Global,
    entries: &[Entry],
    number: u32,
    all: u64,
    place: u64,
    ask: &Ask,
) -> Result<(), NoMemory>
    requires { length entries.now < 2 ^ 32 - 1 }
    ensures { OnOk result (traces.new.items
        ≡ traces.old.items ++ put_trace entries.now number all place ask.now) }
{
    let Ask::PutKept { port, .. } = ask else {
        return Ok(());
    };
    let ends = ends_behind(alloc, before(entries, number))?;
    let Some(peer) = peer_among(&ends, port.0) else {
        return Ok(());
    };
    let stay = stay_of(alloc, entries, peer, place, number, Some(number))?;
    traces.push(Trace {
        to: peer,
        count: all,
        fate: Fate::Given { stay },
    })?;
    Ok(())
}

/// The ports for which a reply names frames.
fn dests_in(reply: &Reply) -> &[Dest]
    ensures { result.now ≡ dests_in reply.now }
{
    match reply {
        Reply::Offered { to, .. } => to.as_slice(),
        Reply::Gave { to, .. } => to.as_slice(),
        Reply::Took { to, .. } => to.as_slice(),
        _ => &[],
    }
}

fn add_traces(
    traces: &mut Vec<Trace>,
    alloc: Global,
    entries: &[Entry],
    origin: u32,
    all: u64,
    place: u64,
    dests: &[Dest],
) -> Result<(), NoMemory>
    requires { length entries.now < 2 ^ 32 - 1 }
    ensures { OnOk result (traces.new.items
        ≡ traces.old.items ++ map (trace_of entries.now origin all place) dests.now) }
{
    for dest in dests {
        traces.push(trace_of(alloc, entries, origin, all, place, dest)?)?;
    }
    Ok(())
}

/// Lists what is told of the frame at this place of the entry of this number, places counted from 0
/// and numbers from 1: a trace for the other end of a Put's pipe, and one for each port for which
/// the entry's reply names frames, in that order. Where there is no such frame there are none.
pub fn traces(
    alloc: Global,
    entries: &[Entry],
    number: u32,
    place: u64,
) -> Result<Vec<Trace>, NoMemory>
    requires { length entries.now < 2 ^ 32 - 1 }
    ensures { IfOk result (λ traces. traces.items ≡ traces_told entries.now number place) }
{
    let mut traces = Vec::new(alloc);
    let Some(entry) = entry_at(entries, number) else {
        return Ok(traces);
    };
    let all = frame_count(entry);
    if place < all {
        add_put_trace(&mut traces, alloc, entries, number, all, place, &entry.ask)?;
        add_traces(
            &mut traces,
            alloc,
            entries,
            number,
            all,
            place,
            dests_in(&entry.reply),
        )?;
    }
    Ok(traces)
}
