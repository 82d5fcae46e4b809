ghost use Rattle.std.specs.Prelude.{ℕ, ◌≡◌, ◌<◌, ◌≤◌, [], drop, false, fold, length, map};
ghost use Rattle.std.specs.Prelude.{slice_index_or};
ghost use Rattle.nm_types.specs.Limits.{most_ring};
ghost use Rattle.nm_port.specs.Words.{blank_slot, deque_capacity, goes_on, indices_of, opened_slot};
ghost use Rattle.nm_port.specs.Words.{part_flags};
ghost use Rattle.nm_port.specs.Words.{slot_after_push, slots_from, with_push_cleared};
ghost use Rattle.nm_port.specs.RingSlots.{slot_framed, slot_going_on};

use bitflags::Flags;
use nm_hold::step_on;
use nm_region::Buf;
use nm_types::{Slot, SlotFlags};
use std::collections::VecDeque;

/// A slot that names no buffer.
pub(crate) const BLANK: Slot = Slot {
    buf_idx: 0,
    len: 0,
    flags: 0,
    ptr: 0,
};

/// The marks of a frame: not to be learned, indirect, going on in the next slot.
const FRAME_MARKS: SlotFlags = SlotFlags(
    SlotFlags::NO_LEARN.0 | SlotFlags::INDIRECT.0 | SlotFlags::MORE_FRAGMENTS.0,
);

/// A slot with a frame of that length, and no mark of a former one.
pub(crate) fn framed(slot: Slot, len: u16) -> Slot
    ensures { result ≡ slot_framed len slot }
{
    let flags = SlotFlags::from_bits_retain(slot.flags);
    Slot {
        len,
        flags: flags.difference(FRAME_MARKS).bits(),
        ..slot
    }
}

/// A slot with a part of a frame of that length, behind which others follow, and no other mark of a
/// former frame.
pub(crate) fn going_on(slot: Slot, len: u16) -> Slot
    ensures { result ≡ slot_going_on len slot }
{
    let slot = framed(slot, len);
    Slot {
        flags: slot.flags | SlotFlags::MORE_FRAGMENTS.0,
        ..slot
    }
}

/// Whether the frame of a slot goes on in the next one.
pub fn goes_on(slot: &Slot) -> bool
    ensures { result ≡ goes_on slot.now }
{
    SlotFlags::from_bits_retain(slot.flags).contains(SlotFlags::MORE_FRAGMENTS)
}

/// The flags of a slot with the last part of a received frame, or with a part behind which `rest`
/// parts follow.
pub(crate) fn part_flags(rest: u8) -> u16
    ensures { result ≡ part_flags rest }
{
    if rest == 0 { 0 } else { rest_flags(rest) }
}

/// The flags of a slot with a part of a received frame behind which others follow. It stands apart so
/// that a frame in one slot passes a branch alone.
#[inline(never)]
fn rest_flags(rest: u8) -> u16
    requires { 0 < rest }
    ensures { result ≡ part_flags rest }
{
    SlotFlags::MORE_FRAGMENTS.bits() + 256 * u16::from(rest)
}

/// Clears the announcement of a pushed slot.
fn clear_announcement(slot: &mut Slot)
    ensures { slot.new ≡ slot_after_push slot.old }
{
    let flags = SlotFlags::from_bits_retain(slot.flags);
    slot.flags = flags.difference(SlotFlags::BUF_CHANGED).bits();
}

/// Whether a slot announces a changed buffer.
fn announces(slot: &Slot) -> bool
    ensures { result ≡ false → slot_after_push slot.now ≡ slot.now }
{
    let flags = SlotFlags::from_bits_retain(slot.flags);
    flags.difference(SlotFlags::BUF_CHANGED).bits() != slot.flags
}

/// Whether one of some slots announces a changed buffer. Looks at all of them without a stop, so that
/// several are looked at at once.
pub(crate) fn any_announces(slots: &[Slot]) -> bool
    ensures { result ≡ false → (j : ℕ) → j < length slots.now
        → slot_after_push (slice_index_or slots.now j blank_slot)
        ≡ slice_index_or slots.now j blank_slot }
{
    let mut announced = false;
    for k in 0..slots.len() {
        announced |= announces(&slots[k]);
    }
    announced
}

/// Clears the announcements of `count` slots from a position on, going round, if one of them
/// announces a changed buffer.
pub(crate) fn clear_if_announced(
    slots: &mut VecDeque<Slot>,
    size: u32,
    first: u32,
    count: u32,
    announced: bool,
)
    requires size { length slots.old.items ≡ size }
    requires few { size ≤ most_ring }
    requires first { first < size }
    requires count { count < size }
    requires none { announced ≡ false
        → fold with_push_cleared slots.old.items (slots_from size first count) ≡ slots.old.items }
    ensures slots { slots.new.items
        ≡ fold with_push_cleared slots.old.items (slots_from size first count) }
    ensures room { deque_capacity slots.new ≡ deque_capacity slots.old }
{
    if announced {
        clear_announcements(slots, size, first, count);
    }
}

/// Clears the announcements of `count` slots from a position on, going round.
fn clear_announcements(slots: &mut VecDeque<Slot>, size: u32, first: u32, count: u32)
    requires size { length slots.old.items ≡ size }
    requires few { size ≤ most_ring }
    requires first { first < size }
    requires count { count < size }
    ensures slots { slots.new.items
        ≡ fold with_push_cleared slots.old.items (slots_from size first count) }
    ensures room { deque_capacity slots.new ≡ deque_capacity slots.old }
{
    for k in 0..count {
        let at = step_on(size, first, k);
        clear_announcement(&mut slots[at as usize]);
    }
}

/// Removes the first slots.
pub(crate) fn drop_front(slots: &mut VecDeque<Slot>, count: u32)
    ensures slots { slots.new.items ≡ drop count slots.old.items }
    ensures room { deque_capacity slots.new ≡ deque_capacity slots.old }
{
    if slots.len() <= count as usize {
        slots.truncate(0);
        return;
    }
    for _ in 0..count {
        let _first = slots.pop_front();
    }
}

/// The slots of an opened transmit ring, each of which names a buffer.
pub(crate) fn opened_slots(mut slots: VecDeque<Slot>, bufs: &[Buf]) -> VecDeque<Slot>
    requires none { slots.items ≡ [] }
    requires room { length bufs.now ≤ deque_capacity slots }
    ensures slots { result.items ≡ map opened_slot (indices_of bufs.now) }
    ensures room { length bufs.now ≤ deque_capacity result }
{
    for buf in bufs {
        slots.push_back_reserved(Slot {
            buf_idx: buf.index(),
            ..BLANK
        });
    }
    slots
}
