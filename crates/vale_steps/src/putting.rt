ghost use Rattle.std.specs.Prelude.{ℕ, List, ◌≡◌, ◌≤◌, ◌<◌, ◌+◌, ◌-◌, ◌*◌, [], ◌∷◌, ◌++◌, true};
ghost use Rattle.std.specs.Prelude.{false, All, length, min, take, drop, replicate, slice_set};
ghost use Rattle.std.specs.Prelude.{Some, None, IsSome, OnOk, OnErr, IfOk, IfErr, IfSome};
ghost use Rattle.std.specs.Prelude.{vec_capacity};
ghost use Rattle.vale_steps.specs.Words.{ChangesSeat, Fits, FitsPart, ForSome, Frame as Packet};
ghost use Rattle.vale_steps.specs.Words.{IsFull};
ghost use Rattle.vale_steps.specs.Words.{IsNames, IsSingle, OfSeat, OfState, SumFits, buffers_of};
ghost use Rattle.vale_steps.specs.Words.{buffer_bytes, bytes_of, bytes_of_frames, counts_of, frame_bytes};
ghost use Rattle.vale_steps.specs.Words.{frames_in, frames_of_items, indices_of, is_pipe_name};
ghost use Rattle.vale_steps.specs.Words.{is_there, lease_id, leases_of, line_after_put, most_batch};
ghost use Rattle.vale_steps.specs.Words.{open_port_of, peer_name, seat_put, space_of as line_space};
ghost use Rattle.vale_steps.specs.Words.{taken_count, tally_after_add, with_line};
ghost use Rattle.vale_entry.specs.declared.entry.Ask.TheVariants as asks;
ghost use Rattle.vale_entry.specs.declared.entry.Reply.TheVariants as replies;
ghost use Rattle.vale_steps.specs.Putting.{CanCount, IsTaking, item_of, items_of, put_entry};
ghost use Rattle.vale_steps.specs.Putting.{gone_entry, count_sent, count_given, copied};
ghost use Rattle.vale_steps.specs.Putting.{IfPut, IsPutBy, wants_put};
ghost use Rattle.vale_steps.specs.Monitored.{room_of_wants, wants_by};

use crate::monitored::Monitored;
use crate::offers::Offers;
use nm_count::Tally;
use nm_region::Buf;
use nm_types::{Batch, Counts, Frame, LeaseId, NoMemory, PortId, SessionId, StepFault};
use std::alloc::{AllocError, Global};
use vale_entry::{Ask, Dests, Entry, History, Item, Items, Reply};
use vale_line::Got;
use vale_names::Names;
use vale_port::{Port, PutRoom, put_at};

/// What a put gave. It must be spent with its buffers and its offers.
pub struct Put {
    /// How many frames the other end took.
    pub took: u32,
    /// As many idle buffers of the other end.
    pub back: Vec<Buf>,
    /// The frames taken, if the port is watched on its transmit side.
    pub copies: Batch,
    /// What of these is offered to a monitor.
    pub offers: Offers,
}

/// What is known of a put before it is made.
#[derive(Clone, Copy)]
pub struct Putting {
    pub at: PortId,
    pub session: SessionId,
    /// The port at the other end, and its place.
    pub peer: PortId,
    pub place: usize,
    /// How many frames are offered, and how many of them the other end takes.
    pub offered: u32,
    pub took: u32,
    /// The monitor of the port's transmit side.
    pub monitor: Option<PortId>,
}

/// The frames that are taken, with memory for all that a put gives.
#[derive(Drop)]
struct Taking {
    room: PutRoom,
    items: Items,
    copies: Batch,
    monitored: Monitored,
}

/// A buffer's index and the frame in its first bytes.
fn item_of(alloc: Global, got: &Got) -> Result<Item, NoMemory>
    ensures item { IfOk result (λ item. item ≡ item_of got.now) }
    ensures size { IfOk result (λ item. length item.bytes.bytes ≤ buffer_bytes) }
{
    let bytes = got.buf.bytes();
    let len = bytes.len().min(got.len as usize);
    Ok(Item {
        index: got.buf.index(),
        bytes: Frame::new(alloc, &bytes[..len], false)?,
    })
}

/// The frames in buffers.
#[tactic(auto, using(crate::proofs::PutLists::put_lists))]
fn items_of(alloc: Global, gots: &[Got]) -> Result<Items, NoMemory>
    ensures items { IfOk result (λ items. items ≡ items_of gots.now) }
    ensures size { IfOk result (λ items.
        bytes_of_frames (frames_of_items items) ≤ buffer_bytes * length gots.now) }
{
    let mut items = Vec::with_capacity(alloc, gots.len())?;
    for i in 0..gots.len() {
        items.push_reserved(item_of(alloc, &gots[i])?);
    }
    Ok(Items::from(items))
}

/// The frames of items.
#[tactic(auto, using(crate::proofs::PutLists::put_lists))]
fn batch_of(alloc: Global, items: &[Item]) -> Result<Batch, NoMemory>
    ensures { IfOk result (λ batch. batch ≡ frames_of_items items.now) }
{
    let mut batch = Batch::new(alloc);
    for i in 0..items.len() {
        batch.push(items[i].bytes.bytes(), items[i].bytes.no_learn())?;
    }
    Ok(batch)
}

/// The frames of items, if there is a monitor.
fn copies_of(alloc: Global, monitor: Option<PortId>, items: &Items) -> Result<Batch, NoMemory>
    ensures { IfOk result (λ batch. batch ≡ copied monitor (frames_of_items items.now)) }
{
    match monitor {
        Some(_) => batch_of(alloc, items.as_slice()),
        None => Ok(Batch::new(alloc)),
    }
}

fn ones(alloc: Global, count: u32) -> Result<Vec<u32>, AllocError>
    ensures { IfOk result (λ all. all.items ≡ replicate count 1) }
{
    let mut all = Vec::new(alloc);
    all.resize(count as usize, 1)?;
    Ok(all)
}

/// What a monitor, if there is one, is offered of so many frames, each of which takes one slot.
fn monitored_of(alloc: Global, monitor: Option<PortId>, count: u32) -> Result<Monitored, NoMemory>
    requires { count ≤ most_batch }
    ensures { IfOk result (λ monitored. monitored ≡ wants_by monitor (replicate count 1)) }
{
    match monitor {
        Some(_) => Monitored::new(alloc, monitor, ones(alloc, count)?),
        None => Monitored::new(alloc, None, Vec::new(alloc)),
    }
}

/// Makes what a put gives, with memory for all of it.
fn taking_of(alloc: Global, putting: Putting, pending: &[Got]) -> Result<Taking, NoMemory>
    requires few { putting.took ≤ most_batch }
    requires within { putting.took ≤ length pending.now }
    ensures taking { IfOk result (IsTaking putting pending.now) }
    ensures size { IfOk result (λ taking.
        bytes_of_frames (frames_of_items taking.items) ≤ buffer_bytes * putting.took) }
{
    let items = items_of(alloc, &pending[..putting.took as usize])?;
    let copies = copies_of(alloc, putting.monitor, &items)?;
    let monitored = monitored_of(alloc, putting.monitor, putting.took)?;
    let room = PutRoom::new(alloc, putting.took)?;
    Ok(Taking {
        room,
        items,
        copies,
        monitored,
    })
}

/// Makes room for all that a put gives and records.
fn room_to_put(
    alloc: Global,
    history: &mut History,
    putting: Putting,
    pending: &[Got],
) -> Result<Taking, StepFault>
    requires few { putting.took ≤ most_batch }
    requires within { putting.took ≤ length pending.now }
    ensures taking { IfOk result (IsTaking putting pending.now) }
    ensures promised { OnOk result (history.new.promised
        ≡ history.old.promised + room_of_wants (wants_put putting)) }
    ensures entries { history.new.entries ≡ history.old.entries }
    ensures limits { history.new.limits ≡ history.old.limits }
    ensures fits { OnOk result (Fits history.old (room_of_wants (wants_put putting))
        (bytes_of_frames (frames_of_items (items_of (take putting.took pending.now))))) }
    ensures full { IfErr result (IsFull history.old (room_of_wants (wants_put putting))
        (bytes_of_frames (frames_of_items (items_of (take putting.took pending.now))))) }
    ensures err { OnErr result (history.new.promised ≡ history.old.promised) }
{
    let taking = taking_of(alloc, putting, pending)?;
    let entries = 1 + 2 * taking.monitored.len();
    match history.reserve(entries, taking.items.size()) {
        Ok(()) => Ok(taking),
        Err(fault) => {
            drop(taking);
            Err(fault)
        }
    }
}

/// Counts the frames taken at both ends, and records them.
fn record_put(history: &mut History, tally: &mut Tally, putting: Putting, items: Items, to: Dests)
    requires promised { 0 < history.old.promised }
    requires room { frame_bytes history.old.entries + bytes_of_frames (frames_of_items items)
        ≤ history.old.limits.bytes }
    requires counts { CanCount putting tally.old }
    ensures entries { history.new.entries ≡ history.old.entries
        ++ (record {
          session = putting.session;
          ask = asks.PutKept putting.at putting.offered;
          reply = replies.Took items to;
        }) ∷ [] }
    ensures promised { history.new.promised ≡ history.old.promised - 1 }
    ensures limits { history.new.limits ≡ history.old.limits }
    ensures tally { tally.new ≡ tally_after_add putting.peer.0 (count_given putting.took)
        (tally_after_add putting.at.0 (count_sent putting.took) tally.old) }
{
    let sent = Counts {
        sent: putting.took as u64,
        ..Counts::ZERO
    };
    let given = Counts {
        given: putting.took as u64,
        ..Counts::ZERO
    };
    tally.add(putting.at, &sent);
    tally.add(putting.peer, &given);
    history.push(Entry {
        session: putting.session,
        ask: Ask::PutKept {
            port: putting.at,
            offered: putting.offered,
        },
        reply: Reply::Took { items, to },
    });
}

/// Lets the other end take the first frames, and hands out as many of its idle buffers.
fn take_at(
    ports: &mut Vec<Port>,
    putting: Putting,
    id: LeaseId,
    pending: &mut Vec<Got>,
    room: PutRoom,
) -> Vec<Buf>
    requires place { putting.place < length ports.old.items }
    requires new { OfState (λ p. is_there id.0 (leases_of p.line.lots) ≡ false)
        ports.old.items putting.place }
    requires single { All IsSingle pending.old.items }
    requires fits { All FitsPart pending.old.items }
    requires took { OfState (λ p. putting.took
        ≡ min (length pending.old.items) (line_space p.line)) ports.old.items putting.place }
    requires room { putting.took ≤ room }
    ensures seats { (session : ℕ) (frames : List Packet)
        → bytes_of frames ≡ frames_in (take putting.took pending.old.items)
        → ChangesSeat (seat_put id.0 session frames
        (indices_of (buffers_of (take putting.took pending.old.items))))
        ports.old.items putting.place ports.new.items }
    ensures line { OfState (λ p. ports.new.items ≡ slice_set ports.old.items putting.place
        (with_line (line_after_put id (take putting.took pending.old.items) p.line) p))
        ports.old.items putting.place }
    ensures pending { pending.new.items ≡ drop putting.took pending.old.items }
    ensures capacity { vec_capacity pending.new ≡ vec_capacity pending.old }
    ensures idle { OfSeat (λ seat. indices_of result.items ≡ take putting.took seat.held.idle)
        ports.old.items putting.place }
    ensures back { OfState (λ p. result.items ≡ take putting.took p.line.idle)
        ports.old.items putting.place }
{
    put_at(ports, putting.place, id, pending, room)
}

/// Lets the other end take frames, and records it.
pub fn put_to_peer(
    alloc: Global,
    history: &mut History,
    ports: &mut Vec<Port>,
    tally: &mut Tally,
    putting: Putting,
    pending: &mut Vec<Got>,
) -> Result<Option<Put>, StepFault>
    requires place { putting.place < length ports.old.items }
    requires new { OfState (λ p. is_there (length history.old.entries + 1)
        (leases_of p.line.lots) ≡ false) ports.old.items putting.place }
    requires single { All IsSingle pending.old.items }
    requires fits { All FitsPart pending.old.items }
    requires few { putting.took ≤ most_batch }
    requires within { putting.took ≤ length pending.old.items }
    requires took { OfState (λ p. putting.took
        ≡ min (length pending.old.items) (line_space p.line)) ports.old.items putting.place }
    requires own { IsSome (counts_of tally.old putting.at.0) }
    requires own_fits { ForSome (counts_of tally.old putting.at.0)
        (λ counts. SumFits counts (count_sent putting.took)) }
    requires other { IsSome (counts_of (tally_after_add putting.at.0 (count_sent putting.took)
        tally.old) putting.peer.0) }
    requires other_fits { ForSome (counts_of (tally_after_add putting.at.0
        (count_sent putting.took) tally.old) putting.peer.0)
        (λ counts. SumFits counts (count_given putting.took)) }
    ensures entries { OnOk result (history.new.entries ≡ history.old.entries
        ++ put_entry putting (items_of (take putting.took pending.old.items)) ∷ []) }
    ensures promised { OnOk result (history.new.promised + 1
        ≡ history.old.promised + room_of_wants (wants_put putting)) }
    ensures limits { history.new.limits ≡ history.old.limits }
    ensures seats { OnOk result ((session : ℕ) (frames : List Packet)
        → bytes_of frames ≡ frames_in (take putting.took pending.old.items)
        → ChangesSeat (seat_put (length history.old.entries + 1) session frames
        (indices_of (buffers_of (take putting.took pending.old.items))))
        ports.old.items putting.place ports.new.items) }
    ensures line { OnOk result (OfState (λ p. ports.new.items
        ≡ slice_set ports.old.items putting.place
        (with_line (line_after_put (lease_id (length history.old.entries + 1))
        (take putting.took pending.old.items) p.line) p)) ports.old.items putting.place) }
    ensures tally { OnOk result (tally.new
        ≡ tally_after_add putting.peer.0 (count_given putting.took)
        (tally_after_add putting.at.0 (count_sent putting.took) tally.old)) }
    ensures put { IfOk result (λ made. IfPut made (IsPutBy putting
        (length history.old.entries + 1) (take putting.took pending.old.items))) }
    ensures idle { IfOk result (λ made. IfPut made (λ put. OfSeat (λ seat.
        indices_of put.back.items ≡ take putting.took seat.held.idle)
        ports.old.items putting.place)) }
    ensures back { IfOk result (λ made. IfPut made (λ put. OfState (λ p.
        put.back.items ≡ take putting.took p.line.idle) ports.old.items putting.place)) }
    ensures pending { OnOk result (pending.new.items ≡ drop putting.took pending.old.items) }
    ensures capacity { vec_capacity pending.new ≡ vec_capacity pending.old }
    ensures fits { OnOk result (Fits history.old (room_of_wants (wants_put putting))
        (bytes_of_frames (frames_of_items (items_of (take putting.took pending.old.items))))) }
    ensures full { IfErr result (IsFull history.old (room_of_wants (wants_put putting))
        (bytes_of_frames (frames_of_items (items_of (take putting.took pending.old.items))))) }
    ensures err { OnErr result ((history.new.entries ≡ history.old.entries)
        × (history.new.promised ≡ history.old.promised) × (ports.new.items ≡ ports.old.items)
        × (tally.new ≡ tally.old) × (pending.new.items ≡ pending.old.items)) }
{
    let Taking {
        room,
        items,
        copies,
        monitored,
    } = room_to_put(alloc, history, putting, pending)?;
    let number = history.len() + 1;
    let (offers, to) = monitored.into_offers(number, putting.session);
    let back = take_at(ports, putting, LeaseId(number), pending, room);
    record_put(history, tally, putting, items, to);
    Ok(Some(Put {
        took: putting.took,
        back,
        copies,
        offers,
    }))
}

/// Records that frames were offered and the other end is not open.
pub fn put_nowhere(
    history: &mut History,
    session: SessionId,
    at: PortId,
    offered: u32,
) -> Result<Option<Put>, StepFault>
    ensures none { IfOk result (λ made. IfSome made (λ _. ⊥)) }
    ensures entries { OnOk result (history.new.entries
        ≡ history.old.entries ++ gone_entry session at offered ∷ []) }
    ensures promised { history.new.promised ≡ history.old.promised }
    ensures limits { history.new.limits ≡ history.old.limits }
    ensures fits { OnOk result (Fits history.old 1 0) }
    ensures full { IfErr result (IsFull history.old 1 0) }
    ensures err { OnErr result (history.new.entries ≡ history.old.entries) }
{
    history.reserve(1, 0)?;
    history.push(Entry {
        session,
        ask: Ask::PutKept { port: at, offered },
        reply: Reply::PeerGone,
    });
    Ok(None)
}

/// The other end of the pipe whose end is at a place, if it is open.
pub fn peer_of(ports: &[Port], names: &Names, place: usize) -> Option<PortId>
    requires place { place < length ports.now }
    requires pipe { OfState (λ p. is_pipe_name p.name ≡ true) ports.now place }
    ensures peer { OfState (λ p. result ≡ open_port_of names.now (peer_name p.name))
        ports.now place }
    ensures names { IsNames names.now }
{
    names.find(&ports[place].name().peer())
}

/// How many of so many frames the port at a place takes.
pub fn taken_by(ports: &[Port], place: usize, offered: u32) -> u32
    requires { place < length ports.now }
    ensures took { OfState (λ p. result ≡ min offered (line_space p.line)) ports.now place }
    ensures few { result ≤ offered }
    ensures seat { OfSeat (λ seat. result ≡ taken_count (Some seat.port) offered) ports.now place }
{
    offered.min(ports[place].space())
}
