//! What the entries tell of each port.
ghost use Rattle.std.specs.Prelude.{◌≡◌, ◌<◌, ◌-◌, ◌^◌, ◌==◌, ℕ, length, IfOk, OnOk};
ghost use Rattle.vale_entry.specs.Legal.{kept_items};
ghost use Rattle.vale_told.specs.Told.{told_both, told_if, told_of_counts, told_of_send, told_of_grant, told_of_receive, told_of_finish, told_by_put, told_by, told_of};
ghost use Rattle.vale_told.specs.ByPort.{told_in};

use crate::ends::{End, change_ends, peer_among};
use crate::tally::Tally;
use nm_types::{Batch, Counts, NoMemory, PortId};
use std::alloc::Global;
use std::collections::HashMap;
use vale_entry::{Ask, Entry, Reply};

/// What entries tell of a port.
#[derive(Clone, Copy, Debug, PartialEq, Eq)]
pub struct Told {
    /// The frames there.
    pub tally: Tally,
    /// The number of the entry that shut it.
    pub shut: Option<u32>,
    /// The number of the entry that finished it.
    pub finished: Option<u32>,
}

impl Told {
    /// What no entries tell.
    pub const NOTHING: Told = Told {
        tally: Tally::ZERO,
        shut: None,
        finished: None,
    };

    /// What these entries tell and further ones behind them.
    fn and(self, more: Told) -> Result<Told, NoMemory>
        ensures { IfOk result (λ both. both ≡ told_both self more) }
    {
        Ok(Told {
            tally: self.tally.plus(more.tally)?,
            shut: self.shut.or(more.shut),
            finished: self.finished.or(more.finished),
        })
    }

    /// These counts, and nothing else.
    fn of_counts(counts: Counts) -> Told
        ensures { result ≡ told_of_counts counts }
    {
        Told {
            tally: Tally {
                counts,
                ..Tally::ZERO
            },
            ..Told::NOTHING
        }
    }
}

/// What a Send tells of the port that it is of.
fn told_of_send(frames: &Batch, reply: &Reply) -> Told
    ensures { result ≡ told_of_send frames.now reply.now }
{
    let sent = frames.len() as u64;
    match reply {
        Reply::Offered { short, lone, .. } => Told::of_counts(Counts {
            sent,
            short: *short as u64,
            lone: *lone as u64,
            ..Counts::ZERO
        }),
        _ => Told::of_counts(Counts {
            sent,
            ..Counts::ZERO
        }),
    }
}

/// What a Grant tells of the port that it is to.
fn told_of_grant(reply: &Reply) -> Told
    ensures { result ≡ told_of_grant reply.now }
{
    match reply {
        Reply::Shared { given, full, gone } => Told {
            tally: Tally {
                counts: Counts {
                    given: *given as u64,
                    full: *full as u64,
                    ..Counts::ZERO
                },
                gone: *gone as u64,
                unread: 0,
            },
            ..Told::NOTHING
        },
        _ => Told::NOTHING,
    }
}

/// What a Sync or a Get tells of its port.
fn told_of_receive(reply: &Reply) -> Told
    ensures { result ≡ told_of_receive reply.now }
{
    match reply {
        Reply::Gave { count, .. } => Told::of_counts(Counts {
            read: *count as u64,
            ..Counts::ZERO
        }),
        _ => Told::NOTHING,
    }
}

/// What a Finish of this number tells of its port.
fn told_of_finish(number: u32, reply: &Reply) -> Told
    ensures { result ≡ told_of_finish number reply.now }
{
    let unread = match reply {
        Reply::Unread { count } => *count as u64,
        _ => 0,
    };
    Told {
        tally: Tally {
            unread,
            ..Tally::ZERO
        },
        finished: Some(number),
        ..Told::NOTHING
    }
}

/// How many frames a Put's other end took.
pub(crate) fn taken(reply: &Reply) -> u64
    ensures { result ≡ length (kept_items reply.now) }
{
    match reply {
        Reply::Took { items, .. } => items.as_slice().len() as u64,
        _ => 0,
    }
}

/// Adds what an entry tells of a port.
fn add(by_port: &mut HashMap<u32, Told>, port: PortId, more: Told) -> Result<(), NoMemory>
    ensures { OnOk result ((q : ℕ) → told_in by_port.new q
        ≡ told_both (told_in by_port.old q) (told_if (port.0 == q) more)) }
{
    let told = told_in(by_port, port.0);
    by_port.insert(port.0, told.and(more)?)?;
    Ok(())
}

/// What is told of a port.
pub(crate) fn told_in(by_port: &HashMap<u32, Told>, port: u32) -> Told
    ensures { result ≡ told_in by_port.now port }
{
    by_port.get(&port).copied().unwrap_or(Told::NOTHING)
}

/// Adds what a Put tells: its frames are sent by its port, and given to the other end.
fn add_put(
    by_port: &mut HashMap<u32, Told>,
    ends: &[End],
    port: PortId,
    reply: &Reply,
) -> Result<(), NoMemory>
    ensures { OnOk result ((q : ℕ) → told_in by_port.new q
        ≡ told_both (told_in by_port.old q) (told_by_put ends.now port.0 reply.now q)) }
{
    let count = taken(reply);
    let sent = Counts {
        sent: count,
        ..Counts::ZERO
    };
    let given = Counts {
        given: count,
        ..Counts::ZERO
    };
    add(by_port, port, Told::of_counts(sent))?;
    match peer_among(ends, port.0) {
        Some(peer) => add(by_port, PortId(peer), Told::of_counts(given)),
        None => Ok(()),
    }
}

/// Adds what an entry of this number tells.
#[tactic(auto, using(crate::proofs::Telling::nothing_more))]
fn note(
    by_port: &mut HashMap<u32, Told>,
    ends: &[End],
    number: u32,
    entry: &Entry,
) -> Result<(), NoMemory>
    ensures { OnOk result ((q : ℕ) → told_in by_port.new q
        ≡ told_both (told_in by_port.old q) (told_by number ends.now entry.now.ask entry.now.reply q)) }
{
    let reply = &entry.reply;
    match &entry.ask {
        Ask::Send { port, frames } => add(by_port, *port, told_of_send(frames, reply)),
        Ask::Grant { origin: _, to } => add(by_port, *to, told_of_grant(reply)),
        Ask::Sync { port, .. } => add(by_port, *port, told_of_receive(reply)),
        Ask::Get { port, .. } => add(by_port, *port, told_of_receive(reply)),
        Ask::PutKept { port, .. } => add_put(by_port, ends, *port, reply),
        Ask::Shut { port } => add(
            by_port,
            *port,
            Told {
                shut: Some(number),
                ..Told::NOTHING
            },
        ),
        Ask::Finish { port, .. } => add(by_port, *port, told_of_finish(number, reply)),
        Ask::Enter { .. }
        | Ask::Open { .. }
        | Ask::Done { .. }
        | Ask::Reset { .. }
        | Ask::Leave { .. }
        | Ask::Put { .. }
        | Ask::Watch { .. }
        | Ask::Stat { .. } => Ok(()),
    }
}

/// What the entries of a history tell, by the ports' numbers.
pub(crate) fn told_by_port(alloc: Global, entries: &[Entry]) -> Result<HashMap<u32, Told>, NoMemory>
    requires { length entries.now < 2 ^ 32 - 1 }
    ensures { IfOk result (λ by_port. (port : ℕ) → told_in by_port port ≡ told_of entries.now port) }
{
    let mut by_port = HashMap::new(alloc);
    let mut ends = Vec::new(alloc);
    for (i, entry) in entries.iter().enumerate() {
        let number = i as u32 + 1;
        note(&mut by_port, &ends, number, entry)?;
        change_ends(&mut ends, number, entry)?;
    }
    Ok(by_port)
}
