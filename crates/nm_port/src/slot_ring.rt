ghost use Rattle.std.specs.Prelude.{ℕ, ◌≡◌, ◌<◌, ◌≤◌, ◌++◌, ◌∷◌, [], None, Some, IfSome, IfOk};
ghost use Rattle.std.specs.Prelude.{option_map, drop, length, map, min, slice_index_or, false, true};
ghost use Rattle.std.specs.Prelude.{◌+◌, ◌-◌};
ghost use Rattle.nm_types.specs.Limits.{most_ring};
ghost use Rattle.nm_port.specs.Words.{FitsRing, IsRing, IsRingSize, Rx, Tx, accepted, blank_slot};
ghost use Rattle.nm_port.specs.Words.{deque_capacity, dist, index_of, indices_of, is_user_slot};
ghost use Rattle.nm_port.specs.Words.{opened_rx, opened_slot, opened_tx, option_copied};
ghost use Rattle.nm_port.specs.Words.{option_copied_mut, published_slot, reset_positions, sem};
ghost use Rattle.nm_port.specs.Words.{slots_after_push, slots_from, slots_to_end, step_on};
ghost use Rattle.nm_port.specs.RingSlots.{RingSlots, IsRingSlots, slot_of_user};
ghost use Rattle.nm_port.specs.RingSlots.{with_slot_of_user, with_slot_reset_at, at_positions};
ghost use Rattle.nm_port.specs.RingSlots.{slot_at, with_slot_at, both_stepped, head_stepped};
ghost use Rattle.nm_port.specs.RingSlots.{slot_framed, slot_going_on, frame_ahead};
ghost use Rattle.nm_port.specs.RingSlots.{head_has_slot, slots_ahead, count_behind_tail};
ghost use Rattle.nm_port.specs.RingSlots.{AreSideBySide};
ghost use Rattle.nm_port.specs.Exchanges.{CanPushOut, ring_pushed_out, user_position};
ghost use Rattle.nm_port.specs.Receives.{has_free_slot};

use crate::slots::{
    BLANK, any_announces, clear_if_announced, drop_front, framed, goes_on, going_on, opened_slots,
    part_flags,
};
use nm_hold::step_on;
use nm_region::Buf;
use nm_ring::Ring;
use nm_types::{Side, Slot};
use std::alloc::{AllocError, Global};
use std::collections::VecDeque;
use std::marker::Model;

/// A ring of a session's port with its slots: of a transmit ring all slots, by position, and of a
/// receive ring the user's slots, from the accepted head on.
#[derive(Drop)]
pub struct SlotRing {
    side: Side,
    ring: Ring,
    slots: VecDeque<Slot>,
}

impl Model for SlotRing {
    ghost use Rattle.nm_port.specs.RingSlots.{RingSlots, IsRingSlots};

    ghost Value = { RingSlots };

    ghost view = { λ r. record { side = r.side; ring = r.ring; slots = r.slots.items } };

    ghost use Rattle.std.specs.Prelude.{◌≤◌};
    ghost use Rattle.std.specs.VecDeque.{deque_capacity};

    ghost invariant = { λ r.
        (IsRingSlots (record { side = r.side; ring = r.ring; slots = r.slots.items }))
        × (r.ring.size ≤ deque_capacity r.slots) };
}

/// How many steps it is from one position of a ring to another, which may be any number, going
/// round.
#[tactic(auto, using(nm_ring::proofs::Distances::distances))]
fn dist(size: u32, from: u32, to: u32) -> u32
    requires size { 0 < size }
    requires from { from < size }
    ensures { result ≡ dist size from to }
{
    if to < from {
        size - (from - to)
    } else if to < size {
        to - from
    } else {
        ((to as u64 + (size - from) as u64) % size as u64) as u32
    }
}

/// The position after one of a ring.
#[tactic(auto, using(nm_hold::proofs::Turns::turns))]
fn after(size: u32, at: u32) -> u32
    requires size { size ≤ most_ring }
    requires within { at < size }
    ensures { result ≡ step_on size at 1 }
{
    let next = at + 1;
    if next == size { 0 } else { next }
}

/// Accepts a ring's own positions, which fit. The tail stays.
fn accept(ring: &mut Ring)
    requires { FitsRing ring.old ring.old.head ring.old.cur }
    ensures accepted { ring.new ≡ accepted 0 ring.old }
    ensures ring { IsRing ring.new }
{
    let (head, cur, tail) = (ring.head(), ring.cur(), ring.tail());
    ring.advance(head, cur, tail);
}

/// The slots of a list from one on, at most so many.
fn part(slots: &[Slot], first: usize, most: usize) -> &[Slot]
    requires { first < length slots.now }
    ensures count { length result.now ≡ min most (length slots.now - first) }
    ensures slots { (j : ℕ) → j < length result.now
        → slice_index_or result.now j blank_slot ≡ slice_index_or slots.now (first + j) blank_slot }
{
    &slots[first..first + most.min(slots.len() - first)]
}

impl SlotRing {
    ghost use Rattle.nm_port.specs.LentSlots.{LendsUserSlot};

    /// The positions of the ring.
    pub fn ring(&self) -> &Ring
        ensures ring { result.now ≡ self.now.ring }
        ensures slots { IsRingSlots self.now }
    {
        &self.ring
    }

    /// Stores a head, even one that no sync accepts.
    pub fn put_head(&mut self, head: u32)
        ensures { self.new ≡ at_positions head self.old.ring.cur self.old }
    {
        self.ring.put_head(head);
    }

    /// Stores a cur, even one that no sync accepts.
    pub fn put_cur(&mut self, cur: u32)
        ensures { self.new ≡ at_positions self.old.ring.head cur self.old }
    {
        self.ring.put_cur(cur);
    }

    /// Stores a head and a cur, even ones that no sync accepts.
    pub fn put_positions(&mut self, head: u32, cur: u32)
        ensures { self.new ≡ at_positions head cur self.old }
    {
        self.ring.put_head(head);
        self.ring.put_cur(cur);
    }

    /// Stores the tail as head and as cur.
    pub fn give_all_back(&mut self)
        ensures { self.new ≡ at_positions self.old.ring.tail self.old.ring.tail self.old }
    {
        let tail = self.ring.tail();
        self.put_positions(tail, tail);
    }

    /// Whether the positions fit and the head is before the tail.
    pub fn has_slot(&self) -> bool
        ensures { result ≡ head_has_slot self.now.ring }
    {
        match self.ring.check(self.ring.head(), self.ring.cur()) {
            Ok(()) => self.ring.head() != self.ring.tail(),
            Err(_) => false,
        }
    }

    /// How many slots there are from the head to before the tail; none if the positions do not fit.
    pub fn slots_ahead(&self) -> u32
        ensures ahead { result ≡ slots_ahead self.now.ring }
        ensures slots { IsRingSlots self.now }
    {
        match self.ring.check(self.ring.head(), self.ring.cur()) {
            Ok(()) => dist(self.ring.size(), self.ring.head(), self.ring.tail()),
            Err(_) => 0,
        }
    }

    /// How many of `count` slots from a position on there are up to the first in which a frame ends; 0
    /// if none does.
    fn slots_to_end(&self, first: u32, count: u32) -> u32
        requires first { first < self.now.ring.size }
        requires count { count < self.now.ring.size }
        ensures { result
            ≡ slots_to_end (map (slot_at self.now) (slots_from self.now.ring.size first count)) }
    {
        let size = self.ring.size();
        for k in 0..count {
            if !goes_on(&self.any_slot((first + k) % size)) {
                return k + 1;
            }
        }
        0
    }

    /// How many slots the frame at the head has; 0 if the positions do not fit, or if it does not end
    /// before the tail.
    pub fn frame_ahead(&self) -> u32
        ensures { result ≡ frame_ahead self.now }
    {
        let (head, tail) = (self.ring.head(), self.ring.tail());
        match self.ring.check(head, self.ring.cur()) {
            Ok(()) => self.slots_to_end(head, dist(self.ring.size(), head, tail)),
            Err(_) => 0,
        }
    }

    /// Whether the positions fit, the head is accepted, and a slot is left for a frame that comes.
    pub fn has_free_slot(&self) -> bool
        ensures { result ≡ has_free_slot self.now.ring }
    {
        let (accepted, user) = self.ring.user_range();
        match self.ring.check(self.ring.head(), self.ring.cur()) {
            Ok(()) => accepted == self.ring.head() && user < self.ring.size() - 1,
            Err(_) => false,
        }
    }

    /// The position after one that may be any number.
    #[tactic(auto, using(nm_ring::proofs::Distances::distances))]
    pub fn next(&self, at: u32) -> u32
        ensures { result ≡ step_on self.now.ring.size at 1 }
    {
        let size = self.ring.size();
        if at < size - 1 {
            at + 1
        } else {
            ((at as u64 + 1) % size as u64) as u32
        }
    }

    /// The slot at a position, a blank one if it is no slot of the ring.
    pub(crate) fn any_slot(&self, at: u32) -> Slot
        ensures { result ≡ slot_at self.now at }
    {
        match self.slots.get(self.index_of(at)) {
            Some(slot) => *slot,
            None => BLANK,
        }
    }

    /// The slot at the head, a blank one if the head is no slot of the ring.
    pub fn head_slot(&self) -> Slot
        ensures { result ≡ slot_at self.now self.now.ring.head }
    {
        self.any_slot(self.ring.head())
    }

    /// Writes the slot at a position; does nothing if it is no slot of the ring.
    pub(crate) fn put_any_slot(&mut self, at: u32, slot: Slot)
        ensures { self.new ≡ with_slot_at at slot self.old }
    {
        let index = self.index_of(at);
        if index < self.slots.len() {
            self.slots[index] = slot;
        }
    }

    /// Writes the slot at the head, and moves head and cur on by one.
    pub fn forward(&mut self, slot: Slot)
        ensures { self.new ≡ both_stepped (with_slot_at self.old.ring.head slot self.old) }
    {
        let at = self.ring.head();
        self.put_any_slot(at, slot);
        let (head, cur) = (self.next(self.ring.head()), self.next(self.ring.cur()));
        self.put_positions(head, cur);
    }

    /// Writes the slot at the head, and moves head and cur to the next position.
    fn put_at_head(&mut self, slot: Slot)
        ensures { self.new ≡ head_stepped (with_slot_at self.old.ring.head slot self.old) }
    {
        let at = self.ring.head();
        self.put_any_slot(at, slot);
        let next = self.next(self.ring.head());
        self.put_positions(next, next);
    }

    /// Writes the length of a frame to the slot at the head, clears the marks of a former frame
    /// there, and moves head and cur to the next position.
    pub fn put_frame(&mut self, len: u16)
        ensures { self.new ≡ head_stepped (with_slot_at self.old.ring.head
            (slot_framed len (slot_at self.old self.old.ring.head)) self.old) }
    {
        let slot = framed(self.head_slot(), len);
        self.put_at_head(slot);
    }

    /// Does what `put_frame` does with a part of a frame, behind which others follow: the slot says
    /// that its frame goes on.
    pub fn put_part(&mut self, len: u16)
        ensures { self.new ≡ head_stepped (with_slot_at self.old.ring.head
            (slot_going_on len (slot_at self.old self.old.ring.head)) self.old) }
    {
        let slot = going_on(self.head_slot(), len);
        self.put_at_head(slot);
    }

    /// Does what `put_frame` does, on a transmit ring that has a slot at its head. Answers the buffer
    /// that the slot names.
    pub fn put_next(&mut self, len: u16) -> u32
        requires side { self.old.side ≡ Tx }
        requires slot { head_has_slot self.old.ring ≡ true }
        ensures named { result ≡ (slot_at self.old self.old.ring.head).buf_idx }
        ensures ring { self.new ≡ head_stepped (with_slot_at self.old.ring.head
            (slot_framed len (slot_at self.old self.old.ring.head)) self.old) }
    {
        let at = self.ring.head();
        let slot = &mut self.slots[at as usize];
        let idx = slot.buf_idx;
        *slot = framed(*slot, len);
        let next = after(self.ring.size(), at);
        self.put_positions(next, next);
        idx
    }

    /// Whether a position is one of the user's slots.
    fn is_user_slot(&self, at: u32) -> bool
        ensures user { result ≡ is_user_slot self.now.ring at }
        ensures slots { IsRingSlots self.now }
    {
        let (first, count) = self.ring.user_range();
        at < self.ring.size() && dist(self.ring.size(), first, at) < count
    }

    /// Where the slot of a position, which may be any number, would be in the list of slots.
    #[inline(always)]
    fn index_of(&self, at: u32) -> usize
        ensures { result ≡ index_of self.now.side self.now.ring at }
    {
        match self.side {
            Side::Tx => at as usize,
            Side::Rx => {
                let (first, _) = self.ring.user_range();
                dist(self.ring.size(), first, at) as usize
            }
        }
    }

    /// The slot at a position, if it is one of the user's.
    pub fn slot(&self, at: u32) -> Option<&Slot>
        ensures { option_copied result ≡ slot_of_user self.now at }
    {
        if self.is_user_slot(at) {
            self.slots.get(self.index_of(at))
        } else {
            None
        }
    }

    /// Where the slot of a position is in the list of slots, if it is one of the user's, and else
    /// behind the list.
    fn user_index(&self, at: u32) -> usize
        ensures user { is_user_slot self.now.ring at ≡ true
            → result ≡ index_of self.now.side self.now.ring at }
        ensures within { is_user_slot self.now.ring at ≡ true
            → result < length self.now.slots }
        ensures other { is_user_slot self.now.ring at ≡ false
            → length self.now.slots ≤ result }
    {
        if self.is_user_slot(at) {
            self.index_of(at)
        } else {
            self.slots.len()
        }
    }

    /// The slot at a position, to be written, if it is one of the user's.
    pub fn slot_mut(&mut self, at: u32) -> Option<&mut Slot>
        ensures* writes_back { sem 𝓛 (LendsUserSlot self.entry at result) }
        ensures slot { option_copied_mut result ≡ slot_of_user self.old at }
    {
        let index = self.user_index(at);
        self.slots.get_mut(index)
    }

    /// Writes the slot at a position, if it is one of the user's.
    pub fn put_slot(&mut self, at: u32, slot: Slot)
        ensures { self.new ≡ with_slot_of_user at slot self.old }
    {
        if self.is_user_slot(at) {
            let index = self.index_of(at);
            self.slots[index] = slot;
        }
    }

    /// Whether a pushed slot of a transmit ring whose positions fit announces a changed buffer. If
    /// none does, clearing their announcements changes nothing.
    fn announces(&self) -> bool
        requires side { self.now.side ≡ Tx }
        requires fits { FitsRing self.now.ring self.now.ring.head self.now.ring.cur }
        ensures { result ≡ false → slots_after_push self.now.ring self.now.slots ≡ self.now.slots }
    {
        let (_, count) = self.pushed();
        let mut k = 0;
        while k < count {
            let slots = self.side_by_side(k, count - k);
            if any_announces(slots) {
                return true;
            }
            k += slots.len() as u32;
        }
        false
    }

    /// Accepts the push of a transmit ring whose positions fit, and clears the announcements of its
    /// slots. The tail stays.
    pub(crate) fn accept_push(&mut self)
        requires side { self.old.side ≡ Tx }
        requires fits { FitsRing self.old.ring self.old.ring.head self.old.ring.cur }
        ensures { self.new ≡ record self.old {
          ring = accepted 0 self.old.ring;
          slots = slots_after_push self.old.ring self.old.slots;
        } }
    {
        let (first, count) = self.pushed();
        let (size, announced) = (self.ring.size(), self.announces());
        clear_if_announced(&mut self.slots, size, first, count, announced);
        accept(&mut self.ring);
    }

    /// The first of the slots that a sync at the ring's head pushes, and the number of them.
    #[inline(never)]
    pub fn pushed(&self) -> (u32, u32)
        requires { self.now.ring.head < self.now.ring.size }
        ensures first { result.0 ≡ self.now.ring.accepted_head }
        ensures count { result.1
            ≡ dist self.now.ring.size self.now.ring.accepted_head self.now.ring.head }
        ensures slots { IsRingSlots self.now }
    {
        let (first, _) = self.ring.user_range();
        (first, dist(self.ring.size(), first, self.ring.head()))
    }

    /// The first of the slots that are still pushed behind the tail, and the number of them.
    pub fn pending(&self) -> (u32, u32)
        ensures first { result.0 ≡ step_on self.now.ring.size self.now.ring.last_tail 1 }
        ensures count { result.1
            ≡ dist self.now.ring.size result.0 self.now.ring.accepted_head }
    {
        let (accepted, _) = self.ring.user_range();
        let first = self.next(self.ring.tail());
        (first, dist(self.ring.size(), first, accepted))
    }

    /// The first of the slots that a put at the ring's head offers, and the number of them: those
    /// behind the tail that are still pushed, and those pushed now.
    pub fn offered(&self) -> (u32, u32)
        requires { self.now.ring.head < self.now.ring.size }
        ensures first { result.0 ≡ step_on self.now.ring.size self.now.ring.last_tail 1 }
        ensures count { result.1
            ≡ dist self.now.ring.size result.0 self.now.ring.accepted_head
            + dist self.now.ring.size self.now.ring.accepted_head self.now.ring.head }
        ensures slots { IsRingSlots self.now }
    {
        let (_, pushed) = self.pushed();
        let (first, pending) = self.pending();
        (first, pending + pushed)
    }

    /// Moves the tail of a transmit ring on, past slots of the kernel side.
    pub(crate) fn move_tail(&mut self, taken: u32)
        requires side { self.old.side ≡ Tx }
        requires fits { FitsRing self.old.ring self.old.ring.head self.old.ring.cur }
        requires taken { taken ≤ count_behind_tail self.old.ring }
        ensures { self.new ≡ record self.old { ring = accepted taken self.old.ring } }
    {
        let tail = (self.ring.tail() + taken) % self.ring.size();
        self.ring.advance(self.ring.head(), self.ring.cur(), tail);
    }

    /// Accepts the push of a transmit ring, of whose frames `taken` were taken.
    pub(crate) fn push_out(&mut self, taken: u32)
        requires { CanPushOut taken self.old }
        ensures { self.new ≡ ring_pushed_out taken self.old }
    {
        self.accept_push();
        self.move_tail(taken);
    }

    /// Accepts the push of a receive ring whose positions fit: the pushed slots are no longer the
    /// user's. The tail stays.
    pub(crate) fn accept_back(&mut self)
        requires side { self.old.side ≡ Rx }
        requires fits { FitsRing self.old.ring self.old.ring.head self.old.ring.cur }
        ensures { self.new ≡ record self.old {
          ring = accepted 0 self.old.ring;
          slots = drop (dist self.old.ring.size self.old.ring.accepted_head self.old.ring.head)
              self.old.slots;
        } }
    {
        let (_, count) = self.pushed();
        drop_front(&mut self.slots, count);
        accept(&mut self.ring);
    }

    /// Publishes a part of a received frame, behind which `rest` parts follow, in the slot at the tail of
    /// a receive ring whose head is accepted. Answers that slot.
    pub fn publish(&mut self, buffer: u32, len: u16, rest: u8) -> u32
        requires side { self.old.side ≡ Rx }
        requires fits { FitsRing self.old.ring self.old.ring.head self.old.ring.cur }
        requires accepted { self.old.ring.accepted_head ≡ self.old.ring.head }
        requires room { 0 < count_behind_tail self.old.ring }
        ensures slot { result ≡ self.old.ring.last_tail }
        ensures ring { self.new ≡ record self.old {
          ring = accepted 1 self.old.ring;
          slots = self.old.slots ++ published_slot buffer len rest ∷ [];
        } }
    {
        let slot = self.ring.tail();
        let tail = after(self.ring.size(), slot);
        self.ring.advance(self.ring.head(), self.ring.cur(), tail);
        self.slots.push_back_reserved(Slot {
            buf_idx: buffer,
            len,
            flags: part_flags(rest),
            ptr: 0,
        });
        slot
    }

    /// Resets one of the user's slots: it names the buffer in its place.
    pub(crate) fn reset_slot(&mut self, at: u32, was: u32)
        requires { is_user_slot self.old.ring at ≡ true }
        ensures { self.new ≡ with_slot_reset_at at was self.old }
    {
        let index = self.index_of(at);
        let len = match self.side {
            Side::Tx => 0,
            Side::Rx => self.slots[index].len,
        };
        self.slots[index] = Slot {
            buf_idx: was,
            len,
            flags: 0,
            ptr: 0,
        };
    }

    /// Resets the positions to those last accepted.
    pub(crate) fn reset_positions(&mut self)
        ensures { self.new ≡ record self.old { ring = reset_positions self.old.ring } }
    {
        self.ring.reset();
    }

    /// An opened transmit ring, each of whose slots names a buffer.
    pub fn tx(slots: VecDeque<Slot>, bufs: &[Buf]) -> SlotRing
        requires size { IsRingSize (length bufs.now) }
        requires none { slots.items ≡ [] }
        requires room { length bufs.now ≤ deque_capacity slots }
        ensures { result ≡ record {
          side = Tx;
          ring = opened_tx (length bufs.now);
          slots = map opened_slot (indices_of bufs.now);
        } }
    {
        SlotRing {
            side: Side::Tx,
            ring: Ring::tx(bufs.len() as u32),
            slots: opened_slots(slots, bufs),
        }
    }

    /// An opened receive ring, none of whose slots is the user's.
    pub fn rx(alloc: Global, size: u32) -> Result<SlotRing, AllocError>
        requires { IsRingSize size }
        ensures { IfOk result (λ r.
            r ≡ record { side = Rx; ring = opened_rx size; slots = [] }) }
    {
        Ok(SlotRing {
            side: Side::Rx,
            ring: Ring::rx(size),
            slots: VecDeque::with_capacity(alloc, size as usize)?,
        })
    }

    /// The side of the ring.
    pub fn side(&self) -> Side
        ensures { result ≡ self.now.side }
    {
        self.side
    }

    /// Where the slot of a position, so many steps behind the accepted head, is in the list of slots.
    fn index_behind(&self, at: u32, steps: u32) -> usize
        requires steps { steps < self.now.ring.size }
        requires there { at ≡ step_on self.now.ring.size self.now.ring.accepted_head steps }
        ensures { result ≡ index_of self.now.side self.now.ring at }
    {
        match self.side {
            Side::Tx => at as usize,
            Side::Rx => steps as usize,
        }
    }

    /// The slot at a position, which is one of the user's, so many steps behind the accepted head.
    pub(crate) fn slot_behind(&self, at: u32, steps: u32) -> Slot
        requires user { is_user_slot self.now.ring at ≡ true }
        requires steps { steps < self.now.ring.size }
        requires there { at ≡ step_on self.now.ring.size self.now.ring.accepted_head steps }
        ensures { result ≡ slot_at self.now at }
    {
        self.slots[self.index_behind(at, steps)]
    }

    /// The position so many steps behind the accepted head, which is at most that of the last tail.
    pub(crate) fn position_behind(&self, steps: u32) -> u32
        requires { steps
            ≤ dist self.now.ring.size self.now.ring.accepted_head self.now.ring.last_tail }
        ensures { result ≡ user_position self.now steps }
    {
        let (first, _) = self.ring.user_range();
        step_on(self.ring.size(), first, steps)
    }

    /// Some of the user's slots that lie side by side, at most so many, from the position on that is so
    /// many steps behind the accepted head.
    #[inline(never)]
    pub(crate) fn side_by_side(&self, steps: u32, most: u32) -> &[Slot]
        requires user { steps + most
            ≤ dist self.now.ring.size self.now.ring.accepted_head self.now.ring.last_tail }
        requires some { 0 < most }
        ensures some { 0 < length result.now }
        ensures few { length result.now ≤ most }
        ensures slots { AreSideBySide self.now steps result.now }
    {
        let at = self.position_behind(steps);
        let most = most.min(self.ring.size() - at) as usize;
        let index = self.index_behind(at, steps);
        let (front, back) = self.slots.as_slices();
        if index < front.len() {
            part(front, index, most)
        } else {
            part(back, index - front.len(), most)
        }
    }

    /// The slot at a position, which is one of the user's.
    #[inline(always)]
    pub(crate) fn user_slot(&self, at: u32) -> Slot
        requires { is_user_slot self.now.ring at ≡ true }
        ensures { result ≡ slot_at self.now at }
    {
        self.slots[self.index_of(at)]
    }
}
