//! The rows: what the words of each kind of line stand for.
ghost use Rattle.std.specs.Prelude.{◌≡◌, map, IfOk, option_map};
ghost use Rattle.vale_words.specs.Fixed.{word_at};
ghost use Rattle.vale_fields.specs.Rows.{short_at, long_at, port_at, session_at, entry_by, enter_row, open_answer, open_with, open_row, send_row, grant_row, done_row, gave_reply, back_row, fault_by, reset_row, shut_row, finish_row, leave_row, put_answer, put_row, watch_answer, watch_with, watch_row, counts_of, stat_row, row_of, entry_of};

use crate::fields::{half_of, long_of, name_of, short_of};
use crate::lists::{dests_of, frames_of, items_of, numbers_of};
use nm_types::{Chain, Counts, LeaseId, Name, NoMemory, OpenFault, PortId, SessionId, SyncFault};
use std::alloc::Global;
use vale_entry::{Ask, Entry, Reply};
use vale_words::{side_of, sides_of, word_at};

fn short_at(words: &[&[u8]], i: usize) -> u32
    ensures { result ≡ short_at i (map (λ w. w.now) words.now) }
{
    short_of(word_at(words, i))
}

fn long_at(words: &[&[u8]], i: usize) -> u64
    ensures { result ≡ long_at i (map (λ w. w.now) words.now) }
{
    long_of(word_at(words, i))
}

fn port_at(words: &[&[u8]], i: usize) -> PortId
    ensures { result ≡ port_at i (map (λ w. w.now) words.now) }
{
    PortId(short_at(words, i))
}

/// An entry of the session that the second word names.
fn entry_by(words: &[&[u8]], ask: Ask, reply: Reply) -> Entry
    ensures { result ≡ entry_by (map (λ w. w.now) words.now) ask reply }
{
    Entry {
        session: SessionId(short_at(words, 1)),
        ask,
        reply,
    }
}

fn enter_row(number: u32, words: &[&[u8]]) -> Entry
    ensures { result ≡ enter_row number (map (λ w. w.now) words.now) }
{
    Entry {
        session: SessionId(number),
        ask: Ask::Enter {
            user: long_at(words, 2),
        },
        reply: Reply::Made,
    }
}

fn open_answer(word: &[u8], words: &[&[u8]]) -> Reply
    ensures { result ≡ open_answer word.now (map (λ w. w.now) words.now) }
{
    let fault = if word == b"ok".as_slice() {
        return Reply::Opened;
    } else if word == b"badsize".as_slice() {
        OpenFault::BadSize
    } else if word == b"switchesfull".as_slice() {
        OpenFault::SwitchesFull
    } else if word == b"portsfull".as_slice() {
        OpenFault::PortsFull
    } else if word == b"nametaken".as_slice() {
        OpenFault::NameTaken
    } else {
        let (want, have) = (short_at(words, 9), short_at(words, 10));
        OpenFault::NoBuffers { want, have }
    };
    Reply::Refused { fault }
}

fn open_with(words: &[&[u8]], name: Name) -> Entry
    ensures { result ≡ open_with (map (λ w. w.now) words.now) name }
{
    let ask = Ask::Open {
        session: SessionId(short_at(words, 1)),
        name,
        tx: short_at(words, 4),
        rx: short_at(words, 5),
        extra: short_at(words, 6),
    };
    entry_by(words, ask, open_answer(word_at(words, 8), words))
}

fn open_row(words: &[&[u8]]) -> Option<Entry>
    ensures { result ≡ open_row (map (λ w. w.now) words.now) }
{
    let name = name_of(word_at(words, 3))?;
    Some(open_with(words, name))
}

fn send_row(alloc: Global, words: &[&[u8]]) -> Result<Entry, NoMemory>
    ensures { IfOk result (λ entry. entry ≡ send_row (map (λ w. w.now) words.now)) }
{
    let ask = Ask::Send {
        port: port_at(words, 3),
        frames: frames_of(alloc, word_at(words, 4))?,
    };
    let reply = Reply::Offered {
        short: short_at(words, 7),
        lone: short_at(words, 9),
        to: dests_of(alloc, word_at(words, 11))?,
    };
    Ok(entry_by(words, ask, reply))
}

fn grant_row(words: &[&[u8]]) -> Entry
    ensures { result ≡ grant_row (map (λ w. w.now) words.now) }
{
    let ask = Ask::Grant {
        origin: short_at(words, 3),
        to: port_at(words, 4),
    };
    let reply = Reply::Shared {
        given: short_at(words, 7),
        full: short_at(words, 9),
        gone: short_at(words, 11),
    };
    entry_by(words, ask, reply)
}

fn done_row(words: &[&[u8]]) -> Entry
    ensures { result ≡ done_row (map (λ w. w.now) words.now) }
{
    let lease = LeaseId(short_at(words, 3));
    entry_by(words, Ask::Done { lease }, Reply::Made)
}

fn gave_reply(alloc: Global, words: &[&[u8]]) -> Result<Reply, NoMemory>
    ensures { IfOk result (λ reply. reply ≡ gave_reply (map (λ w. w.now) words.now)) }
{
    Ok(Reply::Gave {
        count: short_at(words, 7),
        to: dests_of(alloc, word_at(words, 9))?,
    })
}

/// The row of a sync or of a get.
fn back_row(alloc: Global, verb: &[u8], words: &[&[u8]]) -> Result<Entry, NoMemory>
    ensures { IfOk result (λ entry. entry ≡ back_row verb.now (map (λ w. w.now) words.now)) }
{
    let port = port_at(words, 3);
    let back = numbers_of(alloc, word_at(words, 4))?;
    let reply = gave_reply(alloc, words)?;
    let ask = if verb == b"sync".as_slice() {
        Ask::Sync { port, back }
    } else {
        Ask::Get { port, back }
    };
    Ok(entry_by(words, ask, reply))
}

/// The fault of a word, with its numbers behind it.
fn fault_by(word: &[u8], words: &[&[u8]]) -> SyncFault
    ensures { result ≡ fault_by word.now (map (λ w. w.now) words.now) }
{
    let (first, idx) = (short_at(words, 6), short_at(words, 7));
    let (slot, from) = (first, idx);
    if word == b"headout".as_slice() {
        let (head, to) = (first, short_at(words, 8));
        SyncFault::HeadOut { head, from, to }
    } else if word == b"curout".as_slice() {
        let (cur, to) = (first, short_at(words, 8));
        SyncFault::CurOut { cur, from, to }
    } else if word == b"indirect".as_slice() {
        SyncFault::Indirect { slot }
    } else if word == b"indexout".as_slice() {
        SyncFault::IndexOut { slot, idx }
    } else if word == b"notheld".as_slice() {
        SyncFault::NotHeld { slot, idx }
    } else if word == b"doubled".as_slice() {
        SyncFault::Doubled { slot, idx }
    } else if word == b"unannounced".as_slice() {
        let was = short_at(words, 8);
        SyncFault::Unannounced { slot, idx, was }
    } else if word == b"longlen".as_slice() {
        let len = half_of(word_at(words, 7));
        SyncFault::LongLen { slot, len }
    } else {
        SyncFault::Fragment { slot }
    }
}

fn reset_row(words: &[&[u8]]) -> Entry
    ensures { result ≡ reset_row (map (λ w. w.now) words.now) }
{
    let ask = Ask::Reset {
        port: port_at(words, 3),
        side: side_of(word_at(words, 4)),
        fault: fault_by(word_at(words, 5), words),
    };
    entry_by(words, ask, Reply::Made)
}

fn shut_row(words: &[&[u8]]) -> Entry
    ensures { result ≡ shut_row (map (λ w. w.now) words.now) }
{
    let port = port_at(words, 3);
    entry_by(words, Ask::Shut { port }, Reply::Made)
}

fn finish_row(alloc: Global, words: &[&[u8]]) -> Result<Entry, NoMemory>
    ensures { IfOk result (λ entry. entry ≡ finish_row (map (λ w. w.now) words.now)) }
{
    let chain = Chain {
        found: short_at(words, 6),
        astray: short_at(words, 8),
    };
    let ask = Ask::Finish {
        port: port_at(words, 3),
        bufs: numbers_of(alloc, word_at(words, 4))?,
        chain,
    };
    let count = short_at(words, 11);
    Ok(entry_by(words, ask, Reply::Unread { count }))
}

fn leave_row(words: &[&[u8]]) -> Entry
    ensures { result ≡ leave_row (map (λ w. w.now) words.now) }
{
    let session = SessionId(short_at(words, 1));
    entry_by(words, Ask::Leave { session }, Reply::Made)
}

fn put_answer(alloc: Global, word: &[u8], words: &[&[u8]]) -> Result<Reply, NoMemory>
    ensures { IfOk result (λ reply. reply ≡ put_answer word.now (map (λ w. w.now) words.now)) }
{
    if word == b"took".as_slice() {
        Ok(Reply::Took {
            items: items_of(alloc, word_at(words, 7))?,
            to: dests_of(alloc, word_at(words, 9))?,
        })
    } else {
        Ok(Reply::PeerGone)
    }
}

fn put_row(alloc: Global, words: &[&[u8]]) -> Result<Entry, NoMemory>
    ensures { IfOk result (λ entry. entry ≡ put_row (map (λ w. w.now) words.now)) }
{
    let ask = Ask::PutKept {
        port: port_at(words, 3),
        offered: short_at(words, 4),
    };
    let reply = put_answer(alloc, word_at(words, 6), words)?;
    Ok(entry_by(words, ask, reply))
}

fn watch_answer(word: &[u8], words: &[&[u8]]) -> Reply
    ensures { result ≡ watch_answer word.now (map (λ w. w.now) words.now) }
{
    if word == b"ok".as_slice() {
        Reply::Watching {
            target: port_at(words, 8),
        }
    } else if word == b"watched".as_slice() {
        Reply::Watched {
            by: port_at(words, 8),
        }
    } else {
        Reply::NoTarget
    }
}

fn watch_with(words: &[&[u8]], target: Name) -> Entry
    ensures { result ≡ watch_with (map (λ w. w.now) words.now) target }
{
    let ask = Ask::Watch {
        monitor: port_at(words, 3),
        target,
        sides: sides_of(word_at(words, 5)),
    };
    entry_by(words, ask, watch_answer(word_at(words, 7), words))
}

fn watch_row(words: &[&[u8]]) -> Option<Entry>
    ensures { result ≡ watch_row (map (λ w. w.now) words.now) }
{
    let target = name_of(word_at(words, 4))?;
    Some(watch_with(words, target))
}

fn counts_of(words: &[&[u8]]) -> Counts
    ensures { result ≡ counts_of (map (λ w. w.now) words.now) }
{
    Counts {
        sent: long_at(words, 6),
        short: long_at(words, 8),
        lone: long_at(words, 10),
        given: long_at(words, 12),
        full: long_at(words, 14),
        read: long_at(words, 16),
    }
}

fn stat_row(words: &[&[u8]]) -> Entry
    ensures { result ≡ stat_row (map (λ w. w.now) words.now) }
{
    let port = port_at(words, 3);
    let counts = counts_of(words);
    entry_by(words, Ask::Stat { port }, Reply::Counted { counts })
}

/// The entry of a verb's row.
fn row_of(
    alloc: Global,
    number: u32,
    verb: &[u8],
    words: &[&[u8]],
) -> Result<Option<Entry>, NoMemory>
    ensures { IfOk result (λ entry. entry ≡ row_of number verb.now (map (λ w. w.now) words.now)) }
{
    let entry = if verb == b"open".as_slice() {
        return Ok(open_row(words));
    } else if verb == b"send".as_slice() {
        send_row(alloc, words)?
    } else if verb == b"grant".as_slice() {
        grant_row(words)
    } else if verb == b"done".as_slice() {
        done_row(words)
    } else if verb == b"sync".as_slice() || verb == b"get".as_slice() {
        back_row(alloc, verb, words)?
    } else if verb == b"reset".as_slice() {
        reset_row(words)
    } else if verb == b"shut".as_slice() {
        shut_row(words)
    } else if verb == b"finish".as_slice() {
        finish_row(alloc, words)?
    } else if verb == b"leave".as_slice() {
        leave_row(words)
    } else if verb == b"put".as_slice() {
        put_row(alloc, words)?
    } else if verb == b"watch".as_slice() {
        return Ok(watch_row(words));
    } else if verb == b"stat".as_slice() {
        stat_row(words)
    } else {
        enter_row(number, words)
    };
    Ok(Some(entry))
}

/// Returns the entry that the words of a line stand for, `number` being the line's; `None` if a word
/// that has to be a name is none. Whether the line is the entry's is not judged.
#[tactic(auto, unfolding(crate::specs::Rows::entry_of))]
pub fn entry_of(alloc: Global, number: u32, words: &[&[u8]]) -> Result<Option<Entry>, NoMemory>
    ensures { IfOk result (λ entry. entry ≡ entry_of number (map (λ w. w.now) words.now)) }
{
    row_of(alloc, number, word_at(words, 2), words)
}
