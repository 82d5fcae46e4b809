ghost use Rattle.std.specs.Prelude.{◌≡◌, ◌≤◌, ◌++◌, length, nat_eq, IfOk, IsSome, None, Some};
ghost use Rattle.std.specs.Prelude.{option_map, slice_get};
ghost use Rattle.nm_types.specs.Limits.{most_extra};
ghost use Rattle.nm_own.specs.Words.{AllByRecursion, AllOf, AreOf, IsDistinct};
ghost use Rattle.nm_own.specs.Words.{IsPoolSize, IsRingSize, OwnPort, Rx, TellsRefusal, Tx};
ghost use Rattle.nm_own.specs.Words.{back_on, buffers_with_id, bytes_at, bytes_of_buffers};
ghost use Rattle.nm_own.specs.Words.{can_receive, chain_in, contains_index, empty_own};
ghost use Rattle.nm_own.specs.Words.{frames_offered, indices_of, link_bytes, named_of};
ghost use Rattle.nm_own.specs.Words.{option_copied, option_copied_mut, own_after_finish};
ghost use Rattle.nm_own.specs.Words.{own_after_open, own_after_reset, own_after_send};
ghost use Rattle.nm_own.specs.Words.{port_at, port_with_id, pushed_frames};
ghost use Rattle.nm_own.specs.Words.{pushed_on, refusal_at, ring_at, ring_of, sem};
ghost use Rattle.nm_own.specs.Words.{slot_before_tail, slots_at, slots_on, user_slot_at, with_cur};
ghost use Rattle.nm_own.specs.Words.{with_head, with_head_of_chain, with_user_slot, with_written};
ghost use Rattle.nm_port.specs.RingSlots.{RingSlots};
ghost use Rattle.nm_own.specs.Opening.{IsTxSize, IsNew, blank_arrivals};
ghost use Rattle.nm_own.specs.FittingRings.{IsFittingRing};
ghost use Rattle.nm_own.specs.Arriving.{HasCome};
ghost use Rattle.nm_own.specs.NewPorts.{HasRoomFor};
ghost use Rattle.nm_own.specs.PortPlaces.{place_with_id};
ghost use Rattle.nm_own.specs.ExtraChain.{head_of_extras, extra_at, extra_numbered, named_bytes};
ghost use Rattle.std.specs.Prelude.{ℕ, [], ◌+◌, ◌↔◌, IfSome, true, map, is_some};
ghost use Rattle.std.specs.Prelude.{option_and_then};
ghost use Rattle.nm_own.specs.Edits.{own_edited};
ghost use Rattle.nm_own.specs.Acts.{IsRingAt, front_slot_in, head_slot_in};
ghost use Rattle.nm_own.specs.Kept.{IsKept};
ghost use Rattle.nm_port.specs.Regions.{SideState, side_seen};

use crate::edit::{RingEdit, edit_rings};
use crate::extras::{extra_at, extra_numbered, set_heads};
use crate::open::{NewPort, add_last};
use crate::slot_lent::{index_of_port, slot_in};
use nm_extra::relink;
use nm_hold::Hold;
use nm_port::checks::check_named_ring;
use nm_port::close::{empty_port, take_port};
use nm_port::exchange::{accept_pushes, send_out};
use nm_port::fill::{Row, fill};
use nm_port::gather::{gather, gather_names, gather_offered};
use nm_port::receive::clear_behind;
use nm_port::reset::reset_rings;
use nm_port::{Marks, SlotRing, UserPort};
use nm_region::Buf;
use nm_ring::Ring;
use nm_types::{Batch, Chain, Name, NoMemory, PortId, PortSizes, Side, Slot, SyncFault};
use std::alloc::Global;
use std::marker::Model;

/// A session's own side: its ports with their rings and slots, and the buffers in their places.
pub struct OwnSide {
    pub(crate) hold: Hold,
    pub(crate) ports: Vec<UserPort>,
    /// Marks of indices, all of them clear between two calls.
    pub(crate) marks: Marks,
}

impl Model for OwnSide {
    ghost Value = { SideState };

    ghost view = { λ o. side_seen o.hold o.ports.items };

    ghost invariant = { IsKept };
}

/// The port of an id.
#[inline(never)]
pub(crate) fn port_at(ports: &[UserPort], id: PortId) -> Option<&UserPort>
    ensures { option_copied result ≡ port_at ports.now id.0 }
{
    ports.iter().find(|port| port.id.0 == id.0)
}

/// The ring on a side of a port.
fn ring_on(port: &UserPort, side: Side) -> Option<&SlotRing>
    ensures { option_copied result ≡ slots_on side port.now }
{
    match side {
        Side::Tx => port.tx.as_ref(),
        Side::Rx => Some(&port.rx),
    }
}

/// The ring on a side of the port of an id.
pub(crate) fn ring_at(ports: &[UserPort], id: PortId, side: Side) -> Option<&SlotRing>
    ensures { option_copied result ≡ slots_at side ports.now id.0 }
{
    match port_at(ports, id) {
        Some(port) => ring_on(port, side),
        None => None,
    }
}

/// The ring on a side of the port of an id, which has one whose positions fit.
pub(crate) fn fitting_ring(ports: &[UserPort], id: PortId, side: Side) -> &SlotRing
    requires { (r : RingSlots) × IsFittingRing ports.now id.0 side r }
    ensures { IsFittingRing ports.now id.0 side result.now }
{
    match ring_at(ports, id, side) {
        Some(ring) => ring,
        None => unreachable!(),
    }
}

/// The slot at the head of a ring, if its positions fit and its head is before its tail.
fn slot_at_head(ring: &SlotRing) -> Option<Slot>
    ensures { result ≡ slot_before_tail ring.now }
{
    if ring.has_slot() {
        Some(ring.head_slot())
    } else {
        None
    }
}

impl OwnSide {
    ghost use Rattle.nm_own.specs.LentBytes.{LendsBytesAt, LendsNamedAt};
    ghost use Rattle.nm_own.specs.LentSlots.{LendsSlotAt};

    /// An own side without ports, for a pool of `buffers` buffers.
    pub fn new(alloc: Global, buffers: u32) -> Result<OwnSide, NoMemory>
        requires { IsPoolSize buffers }
        ensures { IfOk result
            (λ side. side ≡ record { own = empty_own buffers; regions = [] }) }
    {
        let marks = Marks::new(alloc, buffers as usize + 2)?;
        let hold = Hold::new(alloc, buffers)?;
        Ok(OwnSide {
            hold,
            ports: Vec::new(alloc),
            marks,
        })
    }

    /// Takes all memory that a port of these sizes will want here; a monitor has 0 transmit slots. If
    /// the port is not opened, what was prepared is dropped.
    pub fn prepare(
        &self,
        alloc: Global,
        name: Name,
        tx: u32,
        rx: u32,
        extra: u32,
    ) -> Result<NewPort, NoMemory>
        requires tx { IsTxSize tx }
        requires rx { IsRingSize rx }
        requires extra { extra ≤ most_extra }
        ensures name { IfOk result (λ new. new.name ≡ name) }
        ensures sizes { IfOk result
            (λ new. new.sizes ≡ record { tx = tx; rx = rx; extra = extra }) }
        ensures room { IfOk result (HasRoomFor self.now.own) }
    {
        let sizes = PortSizes { tx, rx, extra };
        NewPort::new(alloc, &self.hold, &self.ports, name, sizes)
    }

    /// Adds a port that was prepared and then opened as `id`, with these buffers in its transmit
    /// slots and in its extra positions. The buffers are cleared, each extra one links to the next,
    /// and each transmit slot names its own. It takes no memory.
    pub fn add(&mut self, new: NewPort, id: PortId, tx: Vec<Buf>, extra: Vec<Buf>)
        requires tx { length tx.items ≡ new.sizes.tx }
        requires extra { length extra.items ≡ new.sizes.extra }
        requires room { HasRoomFor self.old.own new }
        requires id { port_with_id self.old.own id.0 ≡ None }
        requires away { AllByRecursion (IsNew self.old.own)
            (indices_of tx.items ++ indices_of extra.items) }
        requires once { IsDistinct nat_eq (indices_of tx.items ++ indices_of extra.items) }
        ensures own { self.new.own ≡ own_after_open id.0 new.name new.sizes.tx new.sizes.rx
            (blank_arrivals (indices_of tx.items ++ indices_of extra.items)) self.old.own }
        ensures region { (region : ℕ) → AllOf region self.old → AreOf region tx.items
            → AreOf region extra.items → AllOf region self.new }
    {
        let (slots, extras) = (tx.len() as u32, extra.len() as u32);
        let (port, room, ports) = new.open(id, &tx, &extra);
        self.hold.set_port(id, room);
        fill(&mut self.hold, id, Row::Slots, slots.saturating_sub(1), tx);
        fill(&mut self.hold, id, Row::Extras, extras, extra);
        add_last(&mut self.ports, ports, port);
    }

    /// Whether the session has no port.
    pub fn is_empty(&self) -> bool
        ensures { (result ≡ true) ↔ (self.now.own.ports ≡ []) }
    {
        self.ports.is_empty()
    }

    /// The port that was opened first of those that the session has.
    pub fn first_port(&self) -> Option<PortId>
        ensures { result ≡ option_map (λ (p : OwnPort). p.id) (slice_get self.now.own.ports 0) }
    {
        match self.ports.first() {
            Some(port) => Some(port.id),
            None => None,
        }
    }

    /// Whether the session has a port.
    pub fn has_port(&self, port: PortId) -> bool
        ensures { result ≡ is_some (port_with_id self.now.own port.0) }
    {
        port_at(&self.ports, port).is_some()
    }

    /// Where a port stands in the order of the ports; behind them all, if there is no such port.
    pub fn place_of(&self, port: PortId) -> usize
        ensures { result ≡ place_with_id self.now.own port.0 }
    {
        index_of_port(&self.ports, port)
    }

    /// The name of a port, if the session has it.
    pub fn name(&self, port: PortId) -> Option<&Name>
        ensures { option_copied result
            ≡ option_map (λ (p : OwnPort). p.name) (port_with_id self.now.own port.0) }
    {
        match port_at(&self.ports, port) {
            Some(own) => Some(&own.name),
            None => None,
        }
    }

    /// The number of buffers in the places of a port, 0 if there is no such port. No buffer is in
    /// two of them.
    pub fn buffer_count(&self, port: PortId) -> u32
        ensures count { result ≡ length (buffers_with_id self.now.own port.0) }
        ensures once { IsDistinct nat_eq (buffers_with_id self.now.own port.0) }
    {
        match port_at(&self.ports, port) {
            Some(port) => port.place_count(),
            None => 0,
        }
    }

    /// The index that a port's list of extra buffers begins with, any number.
    pub fn extra_head(&self, port: PortId) -> Option<u32>
        ensures { result ≡ option_map head_of_extras (port_with_id self.now.own port.0) }
    {
        match port_at(&self.ports, port) {
            Some(own) => Some(own.extra_head),
            None => None,
        }
    }

    /// Stores the index that a port's list of extra buffers begins with, any number; does nothing
    /// if there is no such port.
    pub fn set_extra_head(&mut self, port: PortId, idx: u32)
        ensures { self.new ≡ record self.old { own = with_head_of_chain port.0 idx self.old.own } }
    {
        set_heads(&mut self.ports, port, idx);
    }

    /// The buffer in an extra position of a port, counted from 1, and 0 for the position 0; none if
    /// there is no such position.
    pub fn extra_numbered(&self, port: PortId, number: u32) -> Option<u32>
        ensures { result
            ≡ option_and_then (extra_numbered number) (port_with_id self.now.own port.0) }
    {
        match port_at(&self.ports, port) {
            Some(own) => extra_numbered(&self.hold, own, number),
            None => None,
        }
    }

    /// The buffer in an extra position of a port, counted from 0; none if there is no such
    /// position.
    pub fn extra_at(&self, port: PortId, at: u32) -> Option<u32>
        ensures { result ≡ option_and_then (extra_at at) (port_with_id self.now.own port.0) }
    {
        match port_at(&self.ports, port) {
            Some(own) => extra_at(&self.hold, own, at),
            None => None,
        }
    }

    /// Links a named buffer to the next one of its list; does nothing if it is not one.
    pub(crate) fn relink(&mut self, idx: u32, next: u32)
        ensures { self.new
            ≡ record self.old { own = with_written idx (link_bytes next) self.old.own } }
    {
        if self.hold.named(idx) {
            relink(&mut self.hold, idx, next);
        }
    }

    /// The bytes of a buffer that the user may name.
    pub fn bytes(&self, idx: u32) -> Option<&[u8]>
        ensures { option_copied result ≡ named_bytes self.now.own idx }
    {
        self.hold.bytes(idx)
    }

    /// The bytes of a buffer that the user may name, to be written. The own side then has what was
    /// written there, and is otherwise unchanged.
    pub fn bytes_mut(&mut self, idx: u32) -> Option<&mut [u8]>
        ensures* writes_back { sem 𝓛 (LendsNamedAt self.entry idx result) }
        ensures bytes { option_copied_mut result ≡ named_bytes self.old.own idx }
    {
        if self.finds_named(idx) {
            Some(self.lend(idx))
        } else {
            None
        }
    }

    /// Whether the user may name a buffer, asked through the reference that `bytes_mut` has.
    fn finds_named(&mut self, idx: u32) -> bool
        ensures named { result ≡ contains_index (named_of self.old.own) idx }
        ensures same { self.new ≡ self.old }
    {
        self.hold.named(idx)
    }

    /// The bytes, to be written, of a buffer that the user may name; its index is one of those.
    pub fn lend(&mut self, idx: u32) -> &mut [u8]
        requires { contains_index (named_of self.old.own) idx ≡ true }
        ensures* writes_back { sem 𝓛 (LendsBytesAt self.entry idx result) }
        ensures bytes { named_bytes self.old.own idx ≡ Some result.now }
        ensures size { length result.now ≡ 2048 }
    {
        self.hold.lend(idx)
    }

    /// Removes a port, and counts the chain of its extra buffers. The buffers in its places come in
    /// their order: transmit slots, the user's receive slots, extra positions. It takes no memory.
    pub fn close_port(&mut self, port: PortId) -> (Vec<Buf>, Chain)
        requires there { IsSome (port_with_id self.old.own port.0) }
        ensures own { self.new.own
            ≡ own_after_finish port.0 (buffers_with_id self.old.own port.0) self.old.own }
        ensures back { indices_of result.0.items ≡ buffers_with_id self.old.own port.0 }
        ensures bytes { bytes_of_buffers result.0.items
            ≡ map (bytes_at self.old.own) (buffers_with_id self.old.own port.0) }
        ensures chain { IfSome (port_with_id self.old.own port.0)
            (λ p. result.1 ≡ chain_in self.old.own p) }
        ensures region { (region : ℕ) → AllOf region self.old → AllOf region self.new }
        ensures out { (region : ℕ) → AllOf region self.old → AreOf region result.0.items }
    {
        let own = take_port(&mut self.ports, port);
        let emptied = empty_port(&mut self.hold, own);
        self.hold.drop_port(port);
        emptied
    }

    /// Ends an own side without ports.
    pub fn close(self)
        requires { self.own.ports ≡ [] }
    {
        let OwnSide {
            hold,
            ports: _,
            marks: _,
        } = self;
        hold.close();
    }

    /// The first check that refuses a sync of a port's ring.
    pub fn check(&mut self, port: PortId, side: Side) -> Result<(), SyncFault>
        requires { IsSome (ring_at side self.old.own port.0) }
        ensures refusal { TellsRefusal result (refusal_at side port.0 self.old.own) }
        ensures same { self.new ≡ self.old }
    {
        match port_at(&self.ports, port) {
            Some(own) => match ring_on(own, side) {
                Some(ring) => {
                    let whole = own.name.is_pipe();
                    check_named_ring(&self.hold, port, ring, whole, &mut self.marks)
                }
                None => unreachable!(),
            },
            None => unreachable!(),
        }
    }

    /// The positions of a port's ring, if the session has that port and the port that ring.
    pub fn ring(&self, port: PortId, side: Side) -> Option<&Ring>
        ensures { option_copied result ≡ option_map ring_of (ring_at side self.now.own port.0) }
    {
        match ring_at(&self.ports, port, side) {
            Some(ring) => Some(ring.ring()),
            None => None,
        }
    }

    /// One of the user's slots; none if it is not the user's.
    pub fn slot(&self, port: PortId, side: Side, at: u32) -> Option<&Slot>
        ensures { option_copied result ≡ user_slot_at side self.now.own port.0 at }
    {
        match ring_at(&self.ports, port, side) {
            Some(ring) => ring.slot(at),
            None => None,
        }
    }

    /// One of the user's slots, to be written; none if it is not the user's. The own side then has
    /// what was written there, and is otherwise unchanged.
    pub fn slot_mut(&mut self, port: PortId, side: Side, at: u32) -> Option<&mut Slot>
        ensures* writes_back { sem 𝓛 (LendsSlotAt self.entry side port.0 at result) }
        ensures slot { option_copied_mut result ≡ user_slot_at side self.old.own port.0 at }
    {
        let index = index_of_port(&self.ports, port);
        slot_in(&mut self.ports, index, side, at)
    }

    /// Writes one of the user's slots; does nothing if it is not the user's.
    pub fn put_slot(&mut self, port: PortId, side: Side, at: u32, slot: Slot)
        ensures { self.new
            ≡ record self.old { own = with_user_slot side port.0 at slot self.old.own } }
    {
        self.edit(port, side, RingEdit::Slot(at, slot));
    }

    /// Stores a head, any number; does nothing if there is no such ring.
    pub fn put_head(&mut self, port: PortId, side: Side, head: u32)
        ensures { self.new ≡ record self.old { own = with_head side port.0 head self.old.own } }
    {
        self.edit(port, side, RingEdit::Head(head));
    }

    /// Stores a cur, any number; does nothing if there is no such ring.
    pub fn put_cur(&mut self, port: PortId, side: Side, cur: u32)
        ensures { self.new ≡ record self.old { own = with_cur side port.0 cur self.old.own } }
    {
        self.edit(port, side, RingEdit::Cur(cur));
    }

    /// The slot at the head of a ring whose positions fit and whose head is before its tail.
    pub(crate) fn head_slot(&self, port: PortId, side: Side) -> Option<Slot>
        ensures slot { result ≡ head_slot_in side (ring_at side self.now.own port.0) }
        ensures ring { IsRingAt side self.now.own port.0 }
    {
        match ring_at(&self.ports, port, side) {
            Some(ring) => slot_at_head(ring),
            None => None,
        }
    }

    /// The slot at the head of a ring, wherever the head is.
    pub(crate) fn front_slot(&self, port: PortId, side: Side) -> Option<Slot>
        ensures { result ≡ front_slot_in side (ring_at side self.now.own port.0) }
    {
        match ring_at(&self.ports, port, side) {
            Some(ring) => Some(ring.head_slot()),
            None => None,
        }
    }

    /// Writes bytes over the first ones of a named buffer; does nothing if it is not one.
    pub fn write_front(&mut self, idx: u32, bytes: &[u8])
        requires { length bytes.now ≤ 2048 }
        ensures { self.new ≡ record self.old { own = with_written idx bytes.now self.old.own } }
    {
        if self.hold.named(idx) {
            self.hold.write(idx, bytes);
        }
    }

    /// Makes an edit of a port's ring.
    pub(crate) fn edit(&mut self, port: PortId, side: Side, edit: RingEdit)
        ensures { self.new ≡ record self.old { own = own_edited port.0 side edit self.old.own } }
    {
        edit_rings(&mut self.ports, port, side, edit);
    }

    /// How many slots of a transmit ring are pushed, for a push that no check refuses.
    pub fn pushed_count(&self, port: PortId) -> u32
        requires ring { IsSome (ring_at Tx self.now.own port.0) }
        requires passes { refusal_at Tx port.0 self.now.own ≡ None }
        ensures { result ≡ length (pushed_on Tx port.0 self.now.own) }
    {
        fitting_ring(&self.ports, port, Side::Tx).pushed().1
    }

    /// The frames of the pushed slots of a transmit ring, for a push that no check refuses.
    pub fn frames(&self, alloc: Global, port: PortId) -> Result<Batch, NoMemory>
        requires ring { IsSome (ring_at Tx self.now.own port.0) }
        requires passes { refusal_at Tx port.0 self.now.own ≡ None }
        ensures { IfOk result (λ batch.
            batch ≡ pushed_frames (bytes_at self.now.own) (pushed_on Tx port.0 self.now.own)) }
    {
        gather(alloc, &self.hold, fitting_ring(&self.ports, port, Side::Tx))
    }

    /// The frames that a put of a transmit ring offers, none of them marked, for a push that no
    /// check refuses: those of the slots still pushed, and then of those pushed now.
    pub fn offers(&self, alloc: Global, port: PortId) -> Result<Batch, NoMemory>
        requires ring { IsSome (ring_at Tx self.now.own port.0) }
        requires passes { refusal_at Tx port.0 self.now.own ≡ None }
        ensures { IfOk result (λ batch. batch ≡ frames_offered port.0 self.now.own) }
    {
        gather_offered(alloc, &self.hold, fitting_ring(&self.ports, port, Side::Tx))
    }

    /// The indices of the buffers that a receive sync gives back, for a push that no check refuses.
    pub fn back(&self, alloc: Global, port: PortId) -> Result<Vec<u32>, NoMemory>
        requires ring { IsSome (ring_at Rx self.now.own port.0) }
        requires passes { refusal_at Rx port.0 self.now.own ≡ None }
        ensures { IfOk result (λ names. names.items ≡ back_on port.0 self.now.own) }
    {
        gather_names(alloc, fitting_ring(&self.ports, port, Side::Rx))
    }

    /// Whether a port's receive ring has its positions accepted, and a slot left for a part of a frame.
    pub fn can_receive(&self, port: PortId) -> bool
        ensures { result ≡ can_receive port.0 self.now.own }
    {
        match ring_at(&self.ports, port, Side::Rx) {
            Some(ring) => ring.has_free_slot(),
            None => false,
        }
    }

    /// Whether an index is that of a buffer of the pool which is none of the session's.
    pub fn is_new(&self, idx: u32) -> bool
        ensures { (result ≡ true) ↔ IsNew self.now.own idx }
    {
        if idx < 2 {
            return false;
        }
        if idx as usize >= self.marks.len() {
            return false;
        }
        self.hold.buffer(idx).is_none()
    }

    /// Publishes a part of a frame of `len` bytes, the first ones of the buffer that brings it, in the
    /// next slot of a port's receive ring; behind it `rest` parts of that frame follow. All bytes of the
    /// buffer behind the part are cleared.
    pub fn receive(&mut self, port: PortId, buf: Buf, len: u16, rest: u8)
        requires room { can_receive port.0 self.old.own ≡ true }
        requires len { len ≤ 2048 }
        requires new { IsNew self.old.own buf.index }
        ensures { HasCome port.0 buf len rest self.old self.new }
    {
        let at = self.place_of(port);
        self.receive_at(at, port, buf, len, rest);
    }

    /// Does what `receive` does, at the place that `place_of` tells of the port.
    pub fn receive_at(&mut self, at: usize, port: PortId, buf: Buf, len: u16, rest: u8)
        requires place { at ≡ place_with_id self.old.own port.0 }
        requires room { can_receive port.0 self.old.own ≡ true }
        requires len { len ≤ 2048 }
        requires new { IsNew self.old.own buf.index }
        ensures { HasCome port.0 buf len rest self.old self.new }
    {
        let slot = self.ports[at].rx.publish(buf.index(), len, rest);
        let mut buf = buf;
        clear_behind(&mut buf, len);
        self.hold.add_received(port, slot, buf);
    }

    /// What stands after a send, for a push that no check refuses: the buffers that the pushed
    /// slots name are in their places, and the tail goes on by as many slots.
    pub fn sent(&mut self, port: PortId)
        requires ring { IsSome (ring_at Tx self.old.own port.0) }
        requires passes { refusal_at Tx port.0 self.old.own ≡ None }
        ensures { self.new ≡ record self.old { own = own_after_send port.0 self.old.own } }
    {
        let taken = match ring_at(&self.ports, port, Side::Tx) {
            Some(ring) => send_out(&mut self.hold, port, ring),
            None => unreachable!(),
        };
        accept_pushes(&mut self.ports, port, taken);
    }

    /// Resets a port's ring: its positions are those last accepted, and each of the user's slots
    /// names the buffer in its place. Does nothing if there is no such ring.
    pub fn reset(&mut self, port: PortId, side: Side)
        ensures { self.new ≡ record self.old { own = own_after_reset port.0 side self.old.own } }
    {
        reset_rings(&self.hold, &mut self.ports, port, side);
    }
}
