ghost use Rattle.std.specs.Prelude.{ℕ, ◌≡◌, ◌<◌, ◌≤◌, ◌+◌, ◌++◌, [], length, map, reverse};
ghost use Rattle.std.specs.Prelude.{slice_get, slice_index_or, true, Some};
ghost use Rattle.nm_port.specs.Words.{FitsRing, IsRing, SlotState, blank_slot, slots_from};
ghost use Rattle.nm_port.specs.Words.{vec_capacity};
ghost use Rattle.nm_port.specs.Sides.{name_at};
ghost use Rattle.nm_port.specs.Exchanges.{CanExchange, CanNote, AreExchanged, KeepFirst, KeepAll};
ghost use Rattle.nm_port.specs.Exchanges.{pushed_count_of};
ghost use Rattle.nm_port.specs.Lending.{AreSwapped};
ghost use Rattle.nm_port.specs.RingSlots.{IsRingSlots};

use crate::slot_ring::SlotRing;
use nm_hold::Hold;
use nm_types::{PortId, Slot};

/// The numbers from a position on.
pub(crate) fn numbers_from(numbers: &[u32], at: u32) -> &[u32]
    ensures read { (j : ℕ) → slice_index_or result.now j 0
        ≡ slice_index_or numbers.now (at + j) 0 }
    ensures get { (j : ℕ) → slice_get result.now j ≡ slice_get numbers.now (at + j) }
{
    if (at as usize) < numbers.len() {
        &numbers[at as usize..]
    } else {
        &[]
    }
}

/// Whether each of some slots names the buffer in its place. `numbers` begins with the index of the
/// buffer in the place of each. Looks at all of them without a stop, so that several are compared at
/// once.
fn slots_match(slots: &[Slot], numbers: &[u32]) -> bool
    ensures { result ≡ true → (j : ℕ) → j < length slots.now
        → slice_get numbers.now j ≡ Some (slice_index_or slots.now j blank_slot).buf_idx }
{
    if numbers.len() < slots.len() {
        return false;
    }
    let mut matches = true;
    for k in 0..slots.len() {
        matches &= slots[k].buf_idx == numbers[k];
    }
    matches
}

/// Whether each pushed slot names the buffer in its place. `numbers` has the index of the buffer in
/// each place of the ring.
pub(crate) fn ring_matches(ring: &SlotRing, numbers: &[u32]) -> bool
    requires { FitsRing ring.now.ring ring.now.ring.head ring.now.ring.cur }
    ensures keeps { result ≡ true → KeepAll ring.now numbers.now (pushed_count_of ring.now) }
    ensures ring { IsRingSlots ring.now }
{
    let (_, count) = ring.pushed();
    let mut k = 0;
    while k < count {
        let slots = ring.side_by_side(k, count - k);
        if !slots_match(slots, numbers_from(numbers, ring.position_behind(k))) {
            return false;
        }
        k += slots.len() as u32;
    }
    true
}

/// Whether each pushed slot names the buffer in its place, so that nothing changes where these are
/// exchanged.
pub(crate) fn is_kept(hold: &Hold, port: PortId, ring: &SlotRing) -> bool
    requires can { CanExchange hold.now port ring.now }
    requires ring { IsRing ring.now.ring }
    ensures { result ≡ true
        → AreExchanged hold.now hold.now port ring.now (pushed_count_of ring.now) }
{
    match hold.numbers(port, ring.side()) {
        Some(numbers) => ring_matches(ring, numbers),
        None => false,
    }
}

/// How many slots there are in front of the first that does not name the buffer in its place.
/// `numbers` begins with the index of the buffer in the place of each.
fn slots_kept(slots: &[Slot], numbers: &[u32]) -> usize
    ensures few { result ≤ length slots.now }
    ensures kept { (j : ℕ) → j < result
        → slice_index_or numbers.now j 0 ≡ (slice_index_or slots.now j blank_slot).buf_idx }
{
    let changed = slots
        .iter()
        .zip(numbers)
        .position(|(slot, number)| *number != slot.buf_idx);
    match changed {
        Some(count) => count,
        None => slots.len().min(numbers.len()),
    }
}

/// How many pushed slots there are in front of the first that does not name the buffer in its
/// place. `numbers` has the index of the buffer in each place of the ring.
fn count_kept(ring: &SlotRing, numbers: &[u32]) -> u32
    requires { FitsRing ring.now.ring ring.now.ring.head ring.now.ring.cur }
    ensures few { result ≤ pushed_count_of ring.now }
    ensures kept { KeepFirst ring.now numbers.now result }
{
    let (_, count) = ring.pushed();
    let mut k = 0;
    while k < count {
        let slots = ring.side_by_side(k, count - k);
        let kept = slots_kept(slots, numbers_from(numbers, ring.position_behind(k)));
        k += kept as u32;
        if kept < slots.len() {
            return k;
        }
    }
    k
}

/// How many of the first pushed slots name the buffers in their places, so that nothing changes
/// where these are exchanged.
pub(crate) fn kept_count(hold: &Hold, port: PortId, ring: &SlotRing) -> u32
    requires can { CanExchange hold.now port ring.now }
    requires ring { IsRing ring.now.ring }
    ensures few { result ≤ pushed_count_of ring.now }
    ensures exchanged { AreExchanged hold.now hold.now port ring.now result }
{
    match hold.numbers(port, ring.side()) {
        Some(numbers) => count_kept(ring, numbers),
        None => 0,
    }
}

/// Keeps the names in slots.
fn note_slots(slots: &[Slot], was: &mut Vec<u32>)
    requires room { length was.old.items + length slots.now ≤ vec_capacity was.old }
    ensures names { was.new.items
        ≡ was.old.items ++ map (λ (s : SlotState). s.buf_idx) slots.now }
    ensures capacity { vec_capacity was.new ≡ vec_capacity was.old }
{
    for slot in slots {
        was.push_reserved(slot.buf_idx);
    }
}

/// Keeps the names in the first `count` pushed slots.
pub(crate) fn note_first(ring: &SlotRing, count: u32, was: &mut Vec<u32>)
    requires fits { FitsRing ring.now.ring ring.now.ring.head ring.now.ring.cur }
    requires few { count ≤ pushed_count_of ring.now }
    requires empty { was.old.items ≡ [] }
    requires room { count ≤ vec_capacity was.old }
    ensures names { was.new.items ≡ map (name_at ring.now)
        (slots_from ring.now.ring.size ring.now.ring.accepted_head count) }
    ensures capacity { vec_capacity was.new ≡ vec_capacity was.old }
{
    let mut k = 0;
    while k < count {
        let slots = ring.side_by_side(k, count - k);
        note_slots(slots, was);
        k += slots.len() as u32;
    }
}

/// Keeps the names in the pushed slots in front of the first that does not name the buffer in its
/// place, and answers how many they are. `numbers` has the index of the buffer in each place of the
/// ring.
fn note_names(ring: &SlotRing, numbers: &[u32], was: &mut Vec<u32>) -> u32
    requires fits { FitsRing ring.now.ring ring.now.ring.head ring.now.ring.cur }
    requires empty { was.old.items ≡ [] }
    requires room { pushed_count_of ring.now ≤ vec_capacity was.old }
    ensures few { result ≤ pushed_count_of ring.now }
    ensures kept { KeepFirst ring.now numbers.now result }
    ensures names { was.new.items ≡ map (name_at ring.now)
        (slots_from ring.now.ring.size ring.now.ring.accepted_head result) }
    ensures capacity { vec_capacity was.new ≡ vec_capacity was.old }
{
    let kept = count_kept(ring, numbers);
    note_first(ring, kept, was);
    kept
}

/// How many of the first pushed slots name the buffers in their places, so that nothing changes
/// where these are exchanged. Keeps the indices of these buffers.
pub(crate) fn note_kept(hold: &Hold, port: PortId, ring: &SlotRing, was: &mut Vec<u32>) -> u32
    requires { CanNote hold.now port ring.now was.old }
    ensures few { result ≤ pushed_count_of ring.now }
    ensures exchanged { AreExchanged hold.now hold.now port ring.now result }
    ensures swapped { AreSwapped hold.now port ring.now (reverse was.new.items) hold.now }
    ensures count { length was.new.items ≡ result }
    ensures capacity { vec_capacity was.new ≡ vec_capacity was.old }
{
    match hold.numbers(port, ring.side()) {
        Some(numbers) => note_names(ring, numbers, was),
        None => 0,
    }
}
