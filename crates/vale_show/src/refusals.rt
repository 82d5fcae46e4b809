//! The entries that did nothing, in words.
ghost use Rattle.std.specs.Prelude.{◌≡◌, ◌++◌, ◌<◌, ◌-◌, ◌^◌, length, OnOk};
ghost use Rattle.vale_show.specs.Refusals.{open_words, position_words, slot_words, index_words, unannounced_words, long_words, reset_words, ring_words, opening_start, reset_start, peer_gone_line, no_target_line, watched_line, opening_text, reset_text, put_text, watch_text, refusal_text, refusal_texts};

use crate::page::{Page, add};
use nm_types::{Name, NoMemory, OpenFault, PortId, Side, SyncFault};
use vale_entry::{Ask, Entry, Reply};
use vale_strip::Part;

/// Adds why an opening was refused.
#[tactic(auto, unfolding(crate::specs::Refusals::no_buffers_words))]
fn add_open_words(page: &mut Page, fault: &OpenFault) -> Result<(), NoMemory>
    ensures { OnOk result (page.new.bytes ≡ page.old.bytes ++ open_words fault.now) }
{
    match *fault {
        OpenFault::BadSize => add(page, &[Part::Text(b"a size is out of range\n")]),
        OpenFault::SwitchesFull => add(
            page,
            &[Part::Text(b"there are as many switches as there may be\n")],
        ),
        OpenFault::PortsFull => add(
            page,
            &[Part::Text(b"there are as many ports of this kind as there may be\n")],
        ),
        OpenFault::NameTaken => add(page, &[Part::Text(b"a port of this name is there\n")]),
        OpenFault::NoBuffers { want, have } => add(
            page,
            &[
                Part::Number(want as u64),
                Part::Text(b" buffers are wanted, and "),
                Part::Number(have as u64),
                Part::Text(b" are free\n"),
            ],
        ),
        OpenFault::RecordFull { .. } => add(page, &[Part::Text(b"the record is full\n")]),
        OpenFault::NoMemory => add(page, &[Part::Text(b"out of memory\n")]),
    }
}

/// Adds what is wrong with a position of a ring.
#[tactic(auto, unfolding(crate::specs::Refusals::position_words))]
fn add_position(
    page: &mut Page,
    position: &[u8],
    at: u32,
    from: u32,
    to: u32,
) -> Result<(), NoMemory>
    ensures { OnOk result (page.new.bytes ≡ page.old.bytes ++ position_words position.now at from to) }
{
    add(
        page,
        &[
            Part::Text(position),
            Part::Text(b" "),
            Part::Number(at as u64),
            Part::Text(b" is not between "),
            Part::Number(from as u64),
            Part::Text(b" and the tail "),
            Part::Number(to as u64),
            Part::Text(b"\n"),
        ],
    )
}

/// Adds what is wrong with a slot, in words alone.
#[tactic(auto, unfolding(crate::specs::Refusals::slot_words))]
fn add_slot(page: &mut Page, slot: u32, words: &[u8]) -> Result<(), NoMemory>
    ensures { OnOk result (page.new.bytes ≡ page.old.bytes ++ slot_words slot words.now) }
{
    add(
        page,
        &[
            Part::Text(b"slot "),
            Part::Number(slot as u64),
            Part::Text(words),
        ],
    )
}

/// Adds what is wrong with the buffer that a slot names.
#[tactic(auto, unfolding(crate::specs::Refusals::index_words))]
fn add_index(page: &mut Page, slot: u32, idx: u32, words: &[u8]) -> Result<(), NoMemory>
    ensures { OnOk result (page.new.bytes ≡ page.old.bytes ++ index_words slot idx words.now) }
{
    add(
        page,
        &[
            Part::Text(b"slot "),
            Part::Number(slot as u64),
            Part::Text(b" names buffer "),
            Part::Number(idx as u64),
            Part::Text(words),
        ],
    )
}

/// Adds that a slot names another buffer than the one in its place.
#[tactic(auto, unfolding(crate::specs::Refusals::unannounced_words))]
fn add_unannounced(page: &mut Page, slot: u32, idx: u32, was: u32) -> Result<(), NoMemory>
    ensures { OnOk result (page.new.bytes ≡ page.old.bytes ++ unannounced_words slot idx was) }
{
    add(
        page,
        &[
            Part::Text(b"slot "),
            Part::Number(slot as u64),
            Part::Text(b" names buffer "),
            Part::Number(idx as u64),
            Part::Text(b" in place of "),
            Part::Number(was as u64),
            Part::Text(b" without NS_BUF_CHANGED\n"),
        ],
    )
}

/// Adds that a slot has too many bytes.
#[tactic(auto, unfolding(crate::specs::Refusals::long_words))]
fn add_long(page: &mut Page, slot: u32, len: u16) -> Result<(), NoMemory>
    ensures { OnOk result (page.new.bytes ≡ page.old.bytes ++ long_words slot len) }
{
    add(
        page,
        &[
            Part::Text(b"slot "),
            Part::Number(slot as u64),
            Part::Text(b" has "),
            Part::Number(len as u64),
            Part::Text(b" bytes, more than a buffer\n"),
        ],
    )
}

/// Adds why a sync was refused.
fn add_reset_words(page: &mut Page, fault: &SyncFault) -> Result<(), NoMemory>
    ensures { OnOk result (page.new.bytes ≡ page.old.bytes ++ reset_words fault.now) }
{
    match *fault {
        SyncFault::HeadOut { head, from, to } => add_position(page, b"head", head, from, to),
        SyncFault::CurOut { cur, from, to } => add_position(page, b"cur", cur, from, to),
        SyncFault::Indirect { slot } => add_slot(page, slot, b" is marked NS_INDIRECT\n"),
        SyncFault::IndexOut { slot, idx } => {
            add_index(page, slot, idx, b", which is none of the pool\n")
        }
        SyncFault::NotHeld { slot, idx } => add_index(
            page,
            slot,
            idx,
            b", which the session does not hold in a place\n",
        ),
        SyncFault::Doubled { slot, idx } => {
            add_index(page, slot, idx, b", as an earlier slot does\n")
        }
        SyncFault::Unannounced { slot, idx, was } => add_unannounced(page, slot, idx, was),
        SyncFault::LongLen { slot, len } => add_long(page, slot, len),
        SyncFault::Fragment { slot } => add_slot(page, slot, b" is marked NS_MOREFRAG\n"),
        SyncFault::PeerGone => add(page, &[Part::Text(b"the pipe's other end is not open\n")]),
        SyncFault::RecordFull { .. } => add(page, &[Part::Text(b"the record is full\n")]),
        SyncFault::NoMemory => add(page, &[Part::Text(b"out of memory\n")]),
    }
}

/// Adds which opening was refused.
#[tactic(auto, unfolding(crate::specs::Refusals::opening_start))]
fn add_opening_start(
    page: &mut Page,
    number: u32,
    session: u32,
    name: &Name,
) -> Result<(), NoMemory>
    ensures { OnOk result (page.new.bytes ≡ page.old.bytes ++ opening_start number session name.now) }
{
    add(
        page,
        &[
            Part::Text(b"entry "),
            Part::Number(number as u64),
            Part::Text(b": session "),
            Part::Number(session as u64),
            Part::Text(b" opens no "),
            Part::Text(name.as_bytes()),
            Part::Text(b": "),
        ],
    )
}

fn ring_words(side: Side) -> &'static [u8]
    ensures { result.now ≡ ring_words side }
{
    match side {
        Side::Tx => b"transmit",
        Side::Rx => b"receive",
    }
}

/// Adds which ring was reset.
#[tactic(auto, unfolding(crate::specs::Refusals::reset_start))]
fn add_reset_start(
    page: &mut Page,
    number: u32,
    session: u32,
    port: PortId,
    side: Side,
) -> Result<(), NoMemory>
    ensures { OnOk result (page.new.bytes ≡ page.old.bytes ++ reset_start number session port.0 (ring_words side)) }
{
    add(
        page,
        &[
            Part::Text(b"entry "),
            Part::Number(number as u64),
            Part::Text(b": session "),
            Part::Number(session as u64),
            Part::Text(b" syncs no "),
            Part::Text(ring_words(side)),
            Part::Text(b" ring of port "),
            Part::Number(port.0 as u64),
            Part::Text(b": "),
        ],
    )
}

/// Adds that a put came to a pipe whose other end is not open.
#[tactic(auto, unfolding(crate::specs::Refusals::peer_gone_line))]
fn add_peer_gone(page: &mut Page, number: u32, session: u32, port: PortId) -> Result<(), NoMemory>
    ensures { OnOk result (page.new.bytes ≡ page.old.bytes ++ peer_gone_line number session port.0) }
{
    add(
        page,
        &[
            Part::Text(b"entry "),
            Part::Number(number as u64),
            Part::Text(b": session "),
            Part::Number(session as u64),
            Part::Text(b" puts nothing from port "),
            Part::Number(port.0 as u64),
            Part::Text(b": the pipe's other end is not open\n"),
        ],
    )
}

/// Adds that a monitor found no port of this name.
#[tactic(auto, unfolding(crate::specs::Refusals::no_target_line))]
fn add_no_target(
    page: &mut Page,
    number: u32,
    session: u32,
    monitor: PortId,
    target: &Name,
) -> Result<(), NoMemory>
    ensures { OnOk result (page.new.bytes ≡ page.old.bytes ++ no_target_line number session monitor.0 target.now) }
{
    add(
        page,
        &[
            Part::Text(b"entry "),
            Part::Number(number as u64),
            Part::Text(b": session "),
            Part::Number(session as u64),
            Part::Text(b" watches nothing by port "),
            Part::Number(monitor.0 as u64),
            Part::Text(b": no open port has the name "),
            Part::Text(target.as_bytes()),
            Part::Text(b"\n"),
        ],
    )
}

/// Adds that a port was watched already.
#[tactic(auto, unfolding(crate::specs::Refusals::watched_line))]
fn add_watched(
    page: &mut Page,
    number: u32,
    session: u32,
    monitor: PortId,
    target: &Name,
    by: PortId,
) -> Result<(), NoMemory>
    ensures { OnOk result (page.new.bytes ≡ page.old.bytes ++ watched_line number session monitor.0 target.now by.0) }
{
    add(
        page,
        &[
            Part::Text(b"entry "),
            Part::Number(number as u64),
            Part::Text(b": session "),
            Part::Number(session as u64),
            Part::Text(b" watches nothing by port "),
            Part::Number(monitor.0 as u64),
            Part::Text(b": "),
            Part::Text(target.as_bytes()),
            Part::Text(b" is watched by port "),
            Part::Number(by.0 as u64),
            Part::Text(b"\n"),
        ],
    )
}

/// Adds why a port was not opened, if it was not.
#[tactic(auto, using(crate::proofs::Pages::adding))]
fn add_opening(
    page: &mut Page,
    number: u32,
    session: u32,
    name: &Name,
    reply: &Reply,
) -> Result<(), NoMemory>
    ensures { OnOk result (page.new.bytes ≡ page.old.bytes ++ opening_text number session name.now reply.now) }
{
    match reply {
        Reply::Refused { fault } => {
            add_opening_start(page, number, session, name)?;
            add_open_words(page, fault)
        }
        _ => Ok(()),
    }
}

#[tactic(auto, using(crate::proofs::Pages::adding))]
fn add_reset(
    page: &mut Page,
    number: u32,
    session: u32,
    port: PortId,
    side: Side,
    fault: &SyncFault,
) -> Result<(), NoMemory>
    ensures { OnOk result (page.new.bytes ≡ page.old.bytes ++ reset_text number session port.0 side fault.now) }
{
    add_reset_start(page, number, session, port, side)?;
    add_reset_words(page, fault)
}

/// Adds why a put did nothing, if it did.
#[tactic(auto, using(crate::proofs::Pages::adding))]
fn add_put(
    page: &mut Page,
    number: u32,
    session: u32,
    port: PortId,
    reply: &Reply,
) -> Result<(), NoMemory>
    ensures { OnOk result (page.new.bytes ≡ page.old.bytes ++ put_text number session port.0 reply.now) }
{
    match reply {
        Reply::PeerGone => add_peer_gone(page, number, session, port),
        _ => Ok(()),
    }
}

/// Adds why a monitor watches nothing, if it does not.
#[tactic(auto, using(crate::proofs::Pages::adding))]
fn add_watch(
    page: &mut Page,
    number: u32,
    session: u32,
    monitor: PortId,
    target: &Name,
    reply: &Reply,
) -> Result<(), NoMemory>
    ensures { OnOk result (page.new.bytes ≡ page.old.bytes ++ watch_text number session monitor.0 target.now reply.now) }
{
    match reply {
        Reply::NoTarget => add_no_target(page, number, session, monitor, target),
        Reply::Watched { by } => add_watched(page, number, session, monitor, target, *by),
        _ => Ok(()),
    }
}

/// Adds why an entry did nothing, if it did.
#[tactic(auto, using(crate::proofs::Pages::adding))]
fn add_refusal(page: &mut Page, number: u32, entry: &Entry) -> Result<(), NoMemory>
    ensures { OnOk result (page.new.bytes ≡ page.old.bytes ++ refusal_text number entry.now.session.0 entry.now.ask entry.now.reply) }
{
    let (session, reply) = (entry.session.0, &entry.reply);
    match &entry.ask {
        Ask::Open { name, .. } => add_opening(page, number, session, name, reply),
        Ask::Reset { port, side, fault } => add_reset(page, number, session, *port, *side, fault),
        Ask::PutKept { port, .. } => add_put(page, number, session, *port, reply),
        Ask::Watch {
            monitor,
            target,
            ..
        } => add_watch(page, number, session, *monitor, target, reply),
        _ => Ok(()),
    }
}

/// Adds a line for each entry that did nothing.
pub(crate) fn add_refusals(page: &mut Page, entries: &[Entry]) -> Result<(), NoMemory>
    requires { length entries.now < 2 ^ 32 - 1 }
    ensures { OnOk result (page.new.bytes ≡ page.old.bytes ++ refusal_texts 1 entries.now) }
{
    for (i, entry) in entries.iter().enumerate() {
        add_refusal(page, i as u32 + 1, entry)?;
    }
    Ok(())
}
