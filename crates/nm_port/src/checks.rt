ghost use Rattle.std.specs.Prelude.{ℕ, Bool, List, ◌≡◌, ◌<◌, ◌≤◌, ◌^◌, ◌++◌, ◌∷◌, [], IfOk, IfErr, OnOk};
ghost use Rattle.std.specs.Prelude.{OnErr, MatchResult};
ghost use Rattle.std.specs.Prelude.{None, Some, true, false, length, replicate, slice_index_or};
ghost use Rattle.std.specs.Prelude.{slice_set, ◌+◌};
ghost use Rattle.nm_port.specs.Words.{FitsRing, IsHold, begun_after, blank_slot, buffers_of};
ghost use Rattle.nm_port.specs.Words.{is_closing, is_named_at, is_tx};
ghost use Rattle.nm_port.specs.Words.{is_user_slot, pushed_names, slots_refusal};
ghost use Rattle.nm_port.specs.Sides.{place_on, number_at, pushed_seen_at, pushed_seen};
ghost use Rattle.nm_port.specs.Sides.{names_pushed, AreNamed, AreMarked, AreMarkedOf, AreCleared};
ghost use Rattle.nm_port.specs.Sides.{JudgesSlot, JudgesAll, TellsCheck, marks_after};
ghost use Rattle.nm_port.specs.Sides.{HaveNamed, IsPlain};
ghost use Rattle.nm_port.specs.Exchanges.{pushed_count_of, user_position};
ghost use Rattle.nm_port.specs.RingSlots.{IsRingSlots, slot_at};

use crate::kept::ring_matches;
use crate::marks::Marks;
use crate::slot_ring::SlotRing;
use crate::slots::goes_on;
use bitflags::Flags;
use nm_hold::Hold;
use nm_slot::judge;
use nm_types::{
    BUFFER_BYTES, MAX_FRAME_SLOTS, Place, PortId, Seen, Side, Slot, SlotFault, SlotFlags, SyncFault,
};

/// The place of a slot.
pub(crate) fn place_on(side: Side, port: PortId, slot: u32) -> Place
    ensures { result ≡ place_on side port slot }
{
    match side {
        Side::Tx => Place::Tx { port, slot },
        Side::Rx => Place::Rx { port, slot },
    }
}

/// The index of the buffer in a place, 0 if it holds none.
pub fn number_at(hold: &Hold, place: Place) -> u32
    ensures { result ≡ number_at hold.now place }
{
    hold.index(place).unwrap_or(0)
}

/// What a sync knows of a pushed slot. `marks` has each index that an earlier slot names.
fn seen_at(hold: &Hold, place: Place, idx: u32, closing: bool, marks: &Marks) -> Seen
    requires { length marks.now ≡ buffers_of hold.now + 2 }
    ensures was { result.was ≡ number_at hold.now place }
    ensures top { result.top ≡ buffers_of hold.now + 1 }
    ensures held { result.held ≡ is_named_at hold.now idx }
    ensures doubled { result.doubled ≡ slice_index_or marks.now idx false }
    ensures closing { result.closing ≡ closing }
    ensures hold { IsHold hold.now }
{
    let held = hold.named(idx);
    let top = marks.len() as u32 - 1;
    Seen {
        was: number_at(hold, place),
        top,
        held,
        doubled: marks.is_marked(idx),
        closing,
    }
}

/// Whether a frame must end in a slot behind which `left` are pushed, and before which `begun` are of
/// the same frame.
fn is_closing(whole: bool, left: u32, begun: u32) -> bool
    requires { begun < 2 ^ 31 }
    ensures { result ≡ is_closing whole begun left }
{
    whole || left == 0 || begun + 1 == MAX_FRAME_SLOTS
}

/// How many slots of the frame that goes on there are up to and with a slot.
fn begun_after(begun: u32, slot: &Slot) -> u32
    requires { begun < 2 ^ 31 }
    ensures { result ≡ begun_after begun slot.now }
{
    if goes_on(slot) { begun + 1 } else { 0 }
}

/// Judges the pushed slot at a position, and marks the buffer that it names if it passes.
fn judge_slot(
    hold: &Hold,
    port: PortId,
    ring: &SlotRing,
    at: u32,
    closing: bool,
    marks: &mut Marks,
) -> Result<(), SlotFault>
    requires user { is_user_slot ring.now.ring at ≡ true }
    requires marks { length marks.old ≡ buffers_of hold.now + 2 }
    ensures refusal { (named earlier : List ℕ) → AreNamed hold.now named
        → AreMarked marks.old earlier
        → JudgesSlot result ring.now.side closing (buffers_of hold.now) named earlier
        (pushed_seen_at hold.now port ring.now at) }
    ensures marks { marks.new ≡ marks_after result marks.old (slot_at ring.now at).buf_idx }
{
    let slot = ring.user_slot(at);
    let place = place_on(ring.side(), port, at);
    let seen = seen_at(hold, place, slot.buf_idx, closing, marks);
    judge(at, &slot, &seen, ring.side())?;
    marks.mark(slot.buf_idx);
    Ok(())
}

/// Judges the pushed slots in their order up to the first that does not pass, and marks the buffers
/// that those before it name.
fn judge_pushed(
    hold: &Hold,
    port: PortId,
    ring: &SlotRing,
    whole: bool,
    marks: &mut Marks,
) -> Result<(), SlotFault>
    requires fits { FitsRing ring.now.ring ring.now.ring.head ring.now.ring.cur }
    requires blank { marks.old ≡ replicate (buffers_of hold.now + 2) false }
    ensures refusal { (named : List ℕ) → AreNamed hold.now named
        → JudgesAll result (slots_refusal ring.now.side whole (buffers_of hold.now) named [] 0
        (pushed_seen hold.now port ring.now)) }
    ensures count { length marks.new ≡ length marks.old }
    ensures marks { AreMarkedOf marks.new (pushed_names (pushed_seen hold.now port ring.now)) }
{
    let (first, count) = ring.pushed();
    let size = ring.ring().size();
    let mut begun = 0;
    for k in 0..count {
        let at = (first + k) % size;
        let closing = is_closing(whole, count - 1 - k, begun);
        judge_slot(hold, port, ring, at, closing, marks)?;
        begun = begun_after(begun, &ring.user_slot(at));
    }
    Ok(())
}

/// Whether neither the marks nor the length of a transmit slot refuse it.
fn is_plain(slot: &Slot) -> bool
    ensures { result ≡ true → IsPlain slot.now }
{
    let flags = SlotFlags::from_bits_retain(slot.flags);
    let is_long = slot.len as usize > BUFFER_BYTES;
    !(flags.contains(SlotFlags::INDIRECT) | flags.contains(SlotFlags::MORE_FRAGMENTS) | is_long)
}

/// Whether neither the marks nor the length of any of some transmit slots refuse it. Looks at all of
/// them without a stop, so that several are looked at at once.
fn are_plain(slots: &[Slot]) -> bool
    ensures { result ≡ true → (j : ℕ) → j < length slots.now
        → IsPlain (slice_index_or slots.now j blank_slot) }
{
    let mut are_plain = true;
    for k in 0..slots.len() {
        are_plain &= is_plain(&slots[k]);
    }
    are_plain
}

/// Whether neither the marks nor the length of any pushed slot of a transmit ring refuse it.
fn is_plain_push(ring: &SlotRing) -> bool
    requires { FitsRing ring.now.ring ring.now.ring.head ring.now.ring.cur }
    ensures { result ≡ true → (k : ℕ) → k < pushed_count_of ring.now
        → IsPlain (slot_at ring.now (user_position ring.now k)) }
{
    let (_, count) = ring.pushed();
    let mut k = 0;
    while k < count {
        let slots = ring.side_by_side(k, count - k);
        if !are_plain(slots) {
            return false;
        }
        k += slots.len() as u32;
    }
    true
}

/// Whether neither the marks nor the length of any pushed slot refuse it; those of a receive slot
/// never do.
fn is_plain_on(ring: &SlotRing) -> bool
    requires { FitsRing ring.now.ring ring.now.ring.head ring.now.ring.cur }
    ensures { result ≡ true → is_tx ring.now.side ≡ true
        → (k : ℕ) → k < pushed_count_of ring.now
        → IsPlain (slot_at ring.now (user_position ring.now k)) }
{
    match ring.side() {
        Side::Tx => is_plain_push(ring),
        Side::Rx => true,
    }
}

/// Whether each pushed slot keeps the buffer in its place, a named one, and passes the other checks:
/// no two of them then name one buffer, and none of them is refused. It does not look at what stands
/// in the places, as the user's slots have named buffers in theirs.
fn all_keep(hold: &Hold, port: PortId, ring: &SlotRing) -> bool
    requires fits { FitsRing ring.now.ring ring.now.ring.head ring.now.ring.cur }
    requires named { HaveNamed hold.now port ring.now }
    ensures { result ≡ true → (whole : Bool) (named : List ℕ) → AreNamed hold.now named
        → slots_refusal ring.now.side whole (buffers_of hold.now) named [] 0
        (pushed_seen hold.now port ring.now) ≡ None }
{
    match hold.numbers(port, ring.side()) {
        Some(numbers) => is_plain_on(ring) && ring_matches(ring, numbers),
        None => false,
    }
}

/// Clears the marks of the buffers that the pushed slots name.
fn clear_marks(ring: &SlotRing, marks: &mut Marks)
    requires { FitsRing ring.now.ring ring.now.ring.head ring.now.ring.cur }
    ensures count { length marks.new ≡ length marks.old }
    ensures cleared { AreCleared marks.old marks.new (names_pushed ring.now) }
{
    let (first, count) = ring.pushed();
    let size = ring.ring().size();
    for k in 0..count {
        marks.unmark(ring.user_slot((first + k) % size).buf_idx);
    }
}

/// The first check that refuses a sync of a port's ring at its own head and cur. `whole` says that each
/// slot is a frame, as at a pipe's end. `marks` is blank.
pub fn check_ring(
    hold: &Hold,
    port: PortId,
    ring: &SlotRing,
    whole: bool,
    marks: &mut Marks,
) -> Result<(), SyncFault>
    requires { marks.old ≡ replicate (buffers_of hold.now + 2) false }
    ensures refusal { TellsCheck result hold.now port ring.now whole }
    ensures same { marks.new ≡ marks.old }
    ensures slots { IsRingSlots ring.now }
{
    let positions = ring.ring();
    positions.check(positions.head(), positions.cur())?;
    let judged = judge_pushed(hold, port, ring, whole, marks);
    clear_marks(ring, marks);
    Ok(judged?)
}

/// Does what `check_ring` does for a ring of which each of the user's slots has a named buffer in its
/// place. If all pushed slots keep the buffers in their places, none of these is looked at.
pub fn check_named_ring(
    hold: &Hold,
    port: PortId,
    ring: &SlotRing,
    whole: bool,
    marks: &mut Marks,
) -> Result<(), SyncFault>
    requires blank { marks.old ≡ replicate (buffers_of hold.now + 2) false }
    requires named { HaveNamed hold.now port ring.now }
    ensures refusal { TellsCheck result hold.now port ring.now whole }
    ensures same { marks.new ≡ marks.old }
    ensures slots { IsRingSlots ring.now }
{
    let positions = ring.ring();
    positions.check(positions.head(), positions.cur())?;
    if all_keep(hold, port, ring) {
        return Ok(());
    }
    check_ring(hold, port, ring, whole, marks)
}
