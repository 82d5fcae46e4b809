//! The lines of a transcript, one row for each kind.
ghost use Rattle.std.specs.Prelude.{◌≡◌, ◌≤◌, [], ◌∷◌, ◌++◌, codes, decimal, OnOk, OnErr};
ghost use Rattle.nm_io.specs.Counts.{Rose};
ghost use Rattle.nm_io.specs.Held.{Writes};
ghost use Rattle.vale_entry.specs.Transcript.{buffers_text, side_word, sides_word, fault_words, ask_words, reply_words, entry_line, start_line, end_line, newest};
ghost use Rattle.vale_entry.specs.declared.entry.Ask.TheVariants.{Done, Finish, Grant, Reset, Send, Sync, Watch};
ghost use Rattle.vale_entry.specs.declared.entry.Reply.TheVariants.{Refused, Offered, Shared, Gave, Took, Counted};
ghost use Rattle.vale_strip.specs.Failures.{Puts, PutsWords, CountsFailures};
ghost use Rattle.vale_strip.specs.Pieces.{piece_text, pieces_text};
ghost use Rattle.vale_strip.specs.declared.pieces.Piece.TheVariants.{Number as NumberPiece};

use nm_io::{Failed, Sink, Text};
use nm_types::{Batch, Chain, Counts, LeaseId, Name, OpenFault, PortId, Side, Sides, SyncFault};
use vale_entry::{Ask, Dests, Entry, Items, Numbers, Reply};
use vale_strip::Piece::{Buffers, Destinations, Frames, Number, Taken, Word};
use vale_strip::{
    NEWEST, Part, Piece, Strip, make_room, put_byte, put_number, put_parts, put_strip, put_words,
};

/// A number of 32 bits as a word.
fn short(number: u32) -> Piece<'static>
    ensures { result ≡ NumberPiece number }
{
    Number(number as u64)
}

/// A list of buffers as a word of a text of this version.
fn listed(version: u32, numbers: &Numbers) -> Piece<'_>
    ensures { piece_text result ≡ buffers_text version numbers.now }
{
    Buffers(version, numbers.as_slice())
}

fn side_word(side: Side) -> Piece<'static>
    ensures { piece_text result ≡ side_word side }
{
    match side {
        Side::Tx => Word(b"tx"),
        Side::Rx => Word(b"rx"),
    }
}

fn sides_word(sides: Sides) -> Piece<'static>
    ensures { piece_text result ≡ sides_word sides }
{
    match sides {
        Sides::T => Word(b"t"),
        Sides::R => Word(b"r"),
        Sides::TR => Word(b"tr"),
    }
}

/// The first line of a transcript.
#[derive(Clone, Copy)]
pub(crate) struct StartLine {
    /// The version of the transcript.
    pub(crate) version: u32,
    /// The number of buffers of the pool.
    pub(crate) pool: u32,
}

impl Text for StartLine {
    ghost text = { λ line. start_line line.version line.pool };

    #[tactic(auto, unfolding(vale_entry::specs::Transcript::start_line))]
    fn write<K: Sink>(&self, out: &mut K) -> Result<(), Failed> {
        let (version, pool) = (
            Part::Number(self.version as u64),
            Part::Number(self.pool as u64),
        );
        let start = [
            Part::Text(b"vale "),
            version,
            Part::Text(b" pool "),
            pool,
            Part::Text(b"\n"),
        ];
        put_parts(out, &start)
    }
}

/// The last line of a transcript.
#[derive(Clone, Copy)]
pub(crate) struct EndLine {
    /// The number of entries.
    pub(crate) count: u32,
    /// The number of free buffers.
    pub(crate) free: u32,
}

impl Text for EndLine {
    ghost text = { λ line. end_line line.count line.free };

    #[tactic(auto, unfolding(vale_entry::specs::Transcript::end_line))]
    fn write<K: Sink>(&self, out: &mut K) -> Result<(), Failed> {
        let (count, free) = (
            Part::Number(self.count as u64),
            Part::Number(self.free as u64),
        );
        let end = [
            Part::Text(b"end "),
            count,
            Part::Text(b" free "),
            free,
            Part::Text(b"\n"),
        ];
        put_parts(out, &end)
    }
}

/// Writes an answer of one word.
fn put_answer<K: Sink>(out: &mut K, strip: &mut Strip, word: &[u8]) -> Result<(), Failed>
    ensures gathers { PutsWords K.Sink out.old out.new strip.old strip.new result (codes "=" ∷ word.now ∷ []) }
    ensures counts { CountsFailures K.Sink out.old out.new result }
{
    put_words(out, strip, &[Word(b"="), Word(word)])
}

/// Writes an answer of a word and a number.
fn put_answer_with<K: Sink>(
    out: &mut K,
    strip: &mut Strip,
    word: &[u8],
    number: u32,
) -> Result<(), Failed>
    ensures gathers { PutsWords K.Sink out.old out.new strip.old strip.new result
        (codes "=" ∷ word.now ∷ decimal number ∷ []) }
    ensures counts { CountsFailures K.Sink out.old out.new result }
{
    put_words(out, strip, &[Word(b"="), Word(word), short(number)])
}

/// Writes an answer of a word and two numbers.
fn put_answer_with_two<K: Sink>(
    out: &mut K,
    strip: &mut Strip,
    word: &[u8],
    first: u32,
    second: u32,
) -> Result<(), Failed>
    ensures gathers { PutsWords K.Sink out.old out.new strip.old strip.new result
        (codes "=" ∷ word.now ∷ decimal first ∷ decimal second ∷ []) }
    ensures counts { CountsFailures K.Sink out.old out.new result }
{
    put_words(
        out,
        strip,
        &[Word(b"="), Word(word), short(first), short(second)],
    )
}

fn put_opening<K: Sink>(out: &mut K, strip: &mut Strip, fault: &OpenFault) -> Result<(), Failed>
    ensures gathers { PutsWords K.Sink out.old out.new strip.old strip.new result (reply_words (Refused fault.now)) }
    ensures counts { CountsFailures K.Sink out.old out.new result }
{
    match *fault {
        OpenFault::BadSize => put_answer(out, strip, b"badsize"),
        OpenFault::SwitchesFull => put_answer(out, strip, b"switchesfull"),
        OpenFault::PortsFull => put_answer(out, strip, b"portsfull"),
        OpenFault::NameTaken => put_answer(out, strip, b"nametaken"),
        OpenFault::NoBuffers { want, have } => {
            put_answer_with_two(out, strip, b"nobuffers", want, have)
        }
        OpenFault::RecordFull { .. } | OpenFault::NoMemory => {
            put_words(out, strip, &[Word(b"=")])
        }
    }
}

/// Writes what a session does with one of its ports, and a word more.
fn put_with_port<K: Sink>(
    out: &mut K,
    strip: &mut Strip,
    session: u32,
    word: &[u8],
    port: PortId,
    last: Piece<'_>,
) -> Result<(), Failed>
    ensures gathers { PutsWords K.Sink out.old out.new strip.old strip.new result
        (decimal session ∷ word.now ∷ decimal port.0 ∷ piece_text last.entry ∷ []) }
    ensures counts { CountsFailures K.Sink out.old out.new result }
{
    let port = short(port.0);
    put_words(out, strip, &[short(session), Word(word), port, last])
}

/// Writes a word and a number.
fn put_one<K: Sink>(out: &mut K, strip: &mut Strip, word: &[u8], number: u64) -> Result<(), Failed>
    ensures gathers { PutsWords K.Sink out.old out.new strip.old strip.new result (word.now ∷ decimal number ∷ []) }
    ensures counts { CountsFailures K.Sink out.old out.new result }
{
    put_words(out, strip, &[Word(word), Number(number)])
}

/// Writes a word and two numbers.
fn put_two<K: Sink>(
    out: &mut K,
    strip: &mut Strip,
    word: &[u8],
    first: u32,
    second: u32,
) -> Result<(), Failed>
    ensures gathers { PutsWords K.Sink out.old out.new strip.old strip.new result
        (word.now ∷ decimal first ∷ decimal second ∷ []) }
    ensures counts { CountsFailures K.Sink out.old out.new result }
{
    put_words(out, strip, &[Word(word), short(first), short(second)])
}

/// Writes a word and three numbers.
fn put_three<K: Sink>(
    out: &mut K,
    strip: &mut Strip,
    word: &[u8],
    first: u32,
    second: u32,
    third: u32,
) -> Result<(), Failed>
    ensures gathers { PutsWords K.Sink out.old out.new strip.old strip.new result
        (word.now ∷ decimal first ∷ decimal second ∷ decimal third ∷ []) }
    ensures counts { CountsFailures K.Sink out.old out.new result }
{
    put_words(
        out,
        strip,
        &[Word(word), short(first), short(second), short(third)],
    )
}

/// Writes why a sync was refused.
fn put_fault<K: Sink>(out: &mut K, strip: &mut Strip, fault: &SyncFault) -> Result<(), Failed>
    ensures gathers { PutsWords K.Sink out.old out.new strip.old strip.new result (fault_words fault.now) }
    ensures counts { CountsFailures K.Sink out.old out.new result }
{
    match *fault {
        SyncFault::HeadOut { head, from, to } => put_three(out, strip, b"headout", head, from, to),
        SyncFault::CurOut { cur, from, to } => put_three(out, strip, b"curout", cur, from, to),
        SyncFault::Indirect { slot } => put_one(out, strip, b"indirect", slot as u64),
        SyncFault::IndexOut { slot, idx } => put_two(out, strip, b"indexout", slot, idx),
        SyncFault::NotHeld { slot, idx } => put_two(out, strip, b"notheld", slot, idx),
        SyncFault::Doubled { slot, idx } => put_two(out, strip, b"doubled", slot, idx),
        SyncFault::Unannounced { slot, idx, was } => {
            put_three(out, strip, b"unannounced", slot, idx, was)
        }
        SyncFault::LongLen { slot, len } => put_two(out, strip, b"longlen", slot, len as u32),
        SyncFault::Fragment { slot } => put_one(out, strip, b"fragment", slot as u64),
        SyncFault::PeerGone | SyncFault::RecordFull { .. } | SyncFault::NoMemory => {
            put_words(out, strip, &[])
        }
    }
}

fn put_reset<K: Sink>(
    out: &mut K,
    strip: &mut Strip,
    session: u32,
    port: PortId,
    side: Side,
    fault: &SyncFault,
) -> Result<(), Failed>
    ensures gathers { PutsWords K.Sink out.old out.new strip.old strip.new result
        (decimal session ∷ codes "reset" ∷ decimal port.0 ∷ side_word side ∷ fault_words fault.now) }
    ensures counts { CountsFailures K.Sink out.old out.new result }
{
    put_with_port(out, strip, session, b"reset", port, side_word(side))?;
    put_fault(out, strip, fault)
}

/// Writes what a session does, without a port.
fn put_call<K: Sink>(
    out: &mut K,
    strip: &mut Strip,
    session: u32,
    word: &[u8],
) -> Result<(), Failed>
    ensures gathers { PutsWords K.Sink out.old out.new strip.old strip.new result (decimal session ∷ word.now ∷ []) }
    ensures counts { CountsFailures K.Sink out.old out.new result }
{
    put_words(out, strip, &[short(session), Word(word)])
}

/// Writes what a session does with one of its ports.
fn put_port_call<K: Sink>(
    out: &mut K,
    strip: &mut Strip,
    session: u32,
    word: &[u8],
    port: PortId,
) -> Result<(), Failed>
    ensures gathers { PutsWords K.Sink out.old out.new strip.old strip.new result
        (decimal session ∷ word.now ∷ decimal port.0 ∷ []) }
    ensures counts { CountsFailures K.Sink out.old out.new result }
{
    put_words(out, strip, &[short(session), Word(word), short(port.0)])
}

fn put_open<K: Sink>(
    out: &mut K,
    strip: &mut Strip,
    session: u32,
    name: &Name,
    tx: u32,
    rx: u32,
    extra: u32,
) -> Result<(), Failed>
    ensures gathers { PutsWords K.Sink out.old out.new strip.old strip.new result
        (decimal session ∷ codes "open" ∷ name.now ∷ decimal tx ∷ decimal rx ∷ decimal extra ∷ []) }
    ensures counts { CountsFailures K.Sink out.old out.new result }
{
    let (s, name) = (short(session), Word(name.as_bytes()));
    let (tx, rx, extra) = (short(tx), short(rx), short(extra));
    put_words(out, strip, &[s, Word(b"open"), name, tx, rx, extra])
}

fn put_finish<K: Sink>(
    out: &mut K,
    strip: &mut Strip,
    version: u32,
    session: u32,
    port: PortId,
    bufs: &Numbers,
    chain: Chain,
) -> Result<(), Failed>
    ensures gathers { PutsWords K.Sink out.old out.new strip.old strip.new result
        (ask_words version session (Finish port bufs.now chain)) }
    ensures counts { CountsFailures K.Sink out.old out.new result }
{
    put_words(
        out,
        strip,
        &[
            short(session),
            Word(b"finish"),
            short(port.0),
            listed(version, bufs),
            Word(b"found"),
            short(chain.found),
            Word(b"astray"),
            short(chain.astray),
        ],
    )
}

fn put_watch<K: Sink>(
    out: &mut K,
    strip: &mut Strip,
    session: u32,
    monitor: PortId,
    target: &Name,
    sides: Piece<'static>,
) -> Result<(), Failed>
    ensures gathers { PutsWords K.Sink out.old out.new strip.old strip.new result
        (decimal session ∷ codes "watch" ∷ decimal monitor.0 ∷ target.now ∷ piece_text sides.entry ∷ []) }
    ensures counts { CountsFailures K.Sink out.old out.new result }
{
    let (monitor, target) = (short(monitor.0), Word(target.as_bytes()));
    put_words(
        out,
        strip,
        &[short(session), Word(b"watch"), monitor, target, sides],
    )
}

/// The most bytes that the numbers of a line take with the words between them.
const SHORT_WORDS: usize = 96;

/// Writes what a session calls at one of its ports, and the list that goes with it.
fn put_at<K: Sink>(
    out: &mut K,
    strip: &mut Strip,
    session: u32,
    call: &[u8; 6],
    port: PortId,
    list: Piece<'_>,
) -> Result<(), Failed>
    ensures gathers { Puts K.Sink out.old out.new strip.old strip.new result
        ((codes " " ++ decimal session) ++ (call.now ++ (decimal port.0 ++ pieces_text (list.entry ∷ [])))) }
    ensures counts { CountsFailures K.Sink out.old out.new result }
{
    make_room(out, strip, SHORT_WORDS)?;
    strip.labelled(*b" ", session);
    strip.labelled(*call, port.0);
    put_words(out, strip, &[list])
}

/// Writes who is granted room, for which send, and where.
fn put_grant<K: Sink>(
    out: &mut K,
    strip: &mut Strip,
    session: u32,
    origin: u32,
    to: PortId,
) -> Result<(), Failed>
    ensures gathers { PutsWords K.Sink out.old out.new strip.old strip.new result
        (decimal session ∷ codes "grant" ∷ decimal origin ∷ decimal to.0 ∷ []) }
    ensures counts { CountsFailures K.Sink out.old out.new result }
{
    make_room(out, strip, SHORT_WORDS)?;
    strip.labelled(*b" ", session);
    strip.labelled(*b" grant ", origin);
    strip.labelled(*b" ", to.0);
    Ok(())
}

fn put_done<K: Sink>(
    out: &mut K,
    strip: &mut Strip,
    session: u32,
    lease: LeaseId,
) -> Result<(), Failed>
    ensures gathers { PutsWords K.Sink out.old out.new strip.old strip.new result
        (decimal session ∷ codes "done" ∷ decimal lease.0 ∷ []) }
    ensures counts { CountsFailures K.Sink out.old out.new result }
{
    make_room(out, strip, SHORT_WORDS)?;
    strip.labelled(*b" ", session);
    strip.labelled(*b" done ", lease.0);
    Ok(())
}

/// Writes what was asked, where it is none of the calls that a frame takes.
#[inline(never)]
fn put_other_ask<K: Sink>(
    out: &mut K,
    strip: &mut Strip,
    version: u32,
    session: u32,
    ask: &Ask,
) -> Result<(), Failed>
    ensures gathers { PutsWords K.Sink out.old out.new strip.old strip.new result (ask_words version session ask.now) }
    ensures counts { CountsFailures K.Sink out.old out.new result }
{
    match ask {
        Ask::Enter { user } => put_one(out, strip, b"enter", *user),
        Ask::Open {
            name,
            tx,
            rx,
            extra,
            ..
        } => put_open(out, strip, session, name, *tx, *rx, *extra),
        Ask::Send { port, frames } => put_at(out, strip, session, b" send ", *port, Frames(frames)),
        Ask::Grant { origin, to } => put_grant(out, strip, session, *origin, *to),
        Ask::Done { lease } => put_done(out, strip, session, *lease),
        Ask::Sync { port, back } => put_at(
            out,
            strip,
            session,
            b" sync ",
            *port,
            listed(version, back),
        ),
        Ask::Reset { port, side, fault } => put_reset(out, strip, session, *port, *side, fault),
        Ask::Shut { port } => put_port_call(out, strip, session, b"shut", *port),
        Ask::Finish { port, bufs, chain } => put_finish(
            out, strip, version, session, *port, bufs, *chain,
        ),
        Ask::Leave { .. } => put_call(out, strip, session, b"leave"),
        Ask::PutKept { port, offered } => {
            put_with_port(out, strip, session, b"put", *port, short(*offered))
        }
        Ask::Get { port, back } => put_with_port(
            out,
            strip,
            session,
            b"get",
            *port,
            listed(version, back),
        ),
        Ask::Watch {
            monitor,
            target,
            sides,
        } => put_watch(out, strip, session, *monitor, target, sides_word(*sides)),
        Ask::Stat { port } => put_port_call(out, strip, session, b"stat", *port),
        Ask::Put { .. } => put_words(out, strip, &[]),
    }
}

/// Writes what was asked.
fn put_ask<K: Sink>(
    out: &mut K,
    strip: &mut Strip,
    version: u32,
    session: u32,
    ask: &Ask,
) -> Result<(), Failed>
    ensures gathers { PutsWords K.Sink out.old out.new strip.old strip.new result (ask_words version session ask.now) }
    ensures counts { CountsFailures K.Sink out.old out.new result }
{
    match ask {
        Ask::Send { port, frames } => put_at(out, strip, session, b" send ", *port, Frames(frames)),
        Ask::Grant { origin, to } => put_grant(out, strip, session, *origin, *to),
        Ask::Done { lease } => put_done(out, strip, session, *lease),
        Ask::Sync { port, back } => put_at(
            out,
            strip,
            session,
            b" sync ",
            *port,
            listed(version, back),
        ),
        _ => put_other_ask(out, strip, version, session, ask),
    }
}

fn put_counts<K: Sink>(out: &mut K, strip: &mut Strip, counts: &Counts) -> Result<(), Failed>
    ensures gathers { PutsWords K.Sink out.old out.new strip.old strip.new result (reply_words (Counted counts.now)) }
    ensures counts { CountsFailures K.Sink out.old out.new result }
{
    put_words(
        out,
        strip,
        &[
            Word(b"="),
            Word(b"sent"),
            Number(counts.sent),
            Word(b"short"),
            Number(counts.short),
            Word(b"lone"),
            Number(counts.lone),
            Word(b"given"),
            Number(counts.given),
            Word(b"full"),
            Number(counts.full),
            Word(b"read"),
            Number(counts.read),
        ],
    )
}

/// Writes how many frames were short and alone.
fn put_left<K: Sink>(out: &mut K, strip: &mut Strip, lines: u32, lone: u32) -> Result<(), Failed>
    ensures gathers { PutsWords K.Sink out.old out.new strip.old strip.new result
        (codes "=" ∷ codes "short" ∷ decimal lines ∷ codes "lone" ∷ decimal lone ∷ codes "to" ∷ []) }
    ensures counts { CountsFailures K.Sink out.old out.new result }
{
    make_room(out, strip, SHORT_WORDS)?;
    strip.labelled(*b" = short ", lines);
    strip.labelled(*b" lone ", lone);
    strip.add_label(*b" to");
    Ok(())
}

fn put_offered<K: Sink>(
    out: &mut K,
    strip: &mut Strip,
    lines: u32,
    lone: u32,
    to: &Dests,
) -> Result<(), Failed>
    ensures gathers { PutsWords K.Sink out.old out.new strip.old strip.new result
        (reply_words (Offered lines lone to.now)) }
    ensures counts { CountsFailures K.Sink out.old out.new result }
{
    put_left(out, strip, lines, lone)?;
    put_words(out, strip, &[Destinations(to.as_slice())])
}

fn put_shared<K: Sink>(
    out: &mut K,
    strip: &mut Strip,
    given: u32,
    full: u32,
    gone: u32,
) -> Result<(), Failed>
    ensures gathers { PutsWords K.Sink out.old out.new strip.old strip.new result (reply_words (Shared given full gone)) }
    ensures counts { CountsFailures K.Sink out.old out.new result }
{
    make_room(out, strip, SHORT_WORDS)?;
    strip.labelled(*b" = given ", given);
    strip.labelled(*b" full ", full);
    strip.labelled(*b" gone ", gone);
    Ok(())
}

/// Writes how many frames a sync gave.
fn put_given<K: Sink>(out: &mut K, strip: &mut Strip, count: u32) -> Result<(), Failed>
    ensures gathers { PutsWords K.Sink out.old out.new strip.old strip.new result
        (codes "=" ∷ codes "gave" ∷ decimal count ∷ codes "to" ∷ []) }
    ensures counts { CountsFailures K.Sink out.old out.new result }
{
    make_room(out, strip, SHORT_WORDS)?;
    strip.labelled(*b" = gave ", count);
    strip.add_label(*b" to");
    Ok(())
}

fn put_gave<K: Sink>(out: &mut K, strip: &mut Strip, count: u32, to: &Dests) -> Result<(), Failed>
    ensures gathers { PutsWords K.Sink out.old out.new strip.old strip.new result (reply_words (Gave count to.now)) }
    ensures counts { CountsFailures K.Sink out.old out.new result }
{
    put_given(out, strip, count)?;
    put_words(out, strip, &[Destinations(to.as_slice())])
}

/// Writes what a put took, and where it went.
fn put_took<'a, K: Sink>(
    out: &mut K,
    strip: &mut Strip,
    items: &'a Items,
    to: &'a Dests,
) -> Result<(), Failed>
    ensures gathers { PutsWords K.Sink out.old out.new strip.old strip.new result (reply_words (Took items.now to.now)) }
    ensures counts { CountsFailures K.Sink out.old out.new result }
{
    let (items, to) = (Taken(items.as_slice()), Destinations(to.as_slice()));
    put_words(
        out,
        strip,
        &[Word(b"="), Word(b"took"), items, Word(b"to"), to],
    )
}

/// Writes the answer, where it is none of those to the calls that a frame takes.
#[inline(never)]
fn put_other_reply<K: Sink>(out: &mut K, strip: &mut Strip, reply: &Reply) -> Result<(), Failed>
    ensures gathers { PutsWords K.Sink out.old out.new strip.old strip.new result (reply_words reply.now) }
    ensures counts { CountsFailures K.Sink out.old out.new result }
{
    match reply {
        Reply::Opened => put_answer(out, strip, b"ok"),
        Reply::Refused { fault } => put_opening(out, strip, fault),
        Reply::Offered { short, lone, to } => put_offered(out, strip, *short, *lone, to),
        Reply::Shared { given, full, gone } => put_shared(out, strip, *given, *full, *gone),
        Reply::Gave { count, to } => put_gave(out, strip, *count, to),
        Reply::Took { items, to } => put_took(out, strip, items, to),
        Reply::PeerGone => put_answer(out, strip, b"peergone"),
        Reply::Unread { count } => put_answer_with(out, strip, b"unread", *count),
        Reply::Watching { target } => put_answer_with(out, strip, b"ok", target.0),
        Reply::NoTarget => put_answer(out, strip, b"notarget"),
        Reply::Watched { by } => put_answer_with(out, strip, b"watched", by.0),
        Reply::Counted { counts } => put_counts(out, strip, counts),
        Reply::Made | Reply::LeasesOut { .. } => put_words(out, strip, &[]),
    }
}

/// Writes the answer.
fn put_reply<K: Sink>(out: &mut K, strip: &mut Strip, reply: &Reply) -> Result<(), Failed>
    ensures gathers { PutsWords K.Sink out.old out.new strip.old strip.new result (reply_words reply.now) }
    ensures counts { CountsFailures K.Sink out.old out.new result }
{
    match reply {
        Reply::Made => Ok(()),
        Reply::Offered { short, lone, to } => put_offered(out, strip, *short, *lone, to),
        Reply::Shared { given, full, gone } => put_shared(out, strip, *given, *full, *gone),
        Reply::Gave { count, to } => put_gave(out, strip, *count, to),
        _ => put_other_reply(out, strip, reply),
    }
}

/// Writes what was asked, and the answer.
fn put_entry<K: Sink>(
    out: &mut K,
    strip: &mut Strip,
    version: u32,
    entry: &Entry,
) -> Result<(), Failed>
    ensures gathers { PutsWords K.Sink out.old out.new strip.old strip.new result
        (ask_words version entry.now.session.0 entry.now.ask ++ reply_words entry.now.reply) }
    ensures counts { CountsFailures K.Sink out.old out.new result }
{
    put_ask(out, strip, version, entry.session.0, &entry.ask)?;
    put_reply(out, strip, &entry.reply)
}

/// The line of an entry under its number.
#[derive(Clone, Copy)]
pub(crate) struct EntryLine<'a> {
    /// The version of the transcript.
    pub(crate) version: u32,
    /// The entry's number.
    pub(crate) number: u32,
    /// The entry.
    pub(crate) entry: &'a Entry,
}

/// Writes the line of an entry under its number.
pub(crate) fn put_entry_line<K: Sink>(
    out: &mut K,
    strip: &mut Strip,
    line: &EntryLine<'_>,
) -> Result<(), Failed>
    ensures gathers { Puts K.Sink out.old out.new strip.old strip.new result
        (entry_line line.now.version line.now.number line.now.entry.now) }
    ensures counts { CountsFailures K.Sink out.old out.new result }
{
    put_number(out, strip, line.number as u64)?;
    put_entry(out, strip, line.version, line.entry)?;
    put_byte(out, strip, b'\n')
}

/// Writes the line of an entry under its number, by way of a strip that is empty again then.
#[tactic(auto, using(vale_strip::proofs::Strips::strips))]
fn put_whole_line<K: Sink>(
    out: &mut K,
    strip: &mut Strip,
    line: &EntryLine<'_>,
) -> Result<(), Failed>
    requires { strip.old ≡ [] }
    ensures writes { Writes (K.holds out.old) (K.holds out.new) result
        (entry_line line.now.version line.now.number line.now.entry.now) }
    ensures counts { CountsFailures K.Sink out.old out.new result }
    ensures emptied { OnOk result (strip.new ≡ []) }
{
    put_entry_line(out, strip, line)?;
    put_strip(out, strip)
}

impl Text for EntryLine<'_> {
    ghost text = { λ line. entry_line line.version line.number line.entry.now };

    fn write<K: Sink>(&self, out: &mut K) -> Result<(), Failed> {
        put_whole_line(out, &mut Strip::new(), self)
    }
}

/// Writes the line of an entry under its number, in a transcript of the version that is written.
pub fn write_line<K: Sink>(number: u32, entry: &Entry, out: &mut K) -> Result<(), Failed>
    ensures writes { Writes (K.holds out.old) (K.holds out.new) result (entry_line newest number entry.now) }
    ensures later { K.faults out.old ≤ K.faults out.new }
    ensures cause { OnErr result (Rose (K.faults out.old) (K.faults out.new)) }
{
    EntryLine {
        version: NEWEST,
        number,
        entry,
    }
    .write(out)
}
