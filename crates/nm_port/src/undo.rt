ghost use Rattle.std.specs.Prelude.{ℕ, ◌≡◌, ◌<◌, ◌≤◌, ◌+◌, [], length, map, reverse, drop};
ghost use Rattle.std.specs.Prelude.{Some, IsSome, nat_le};
ghost use Rattle.nm_types.specs.Limits.{most_ring};
ghost use Rattle.nm_port.specs.Words.{HoldState, IsHold, IsRing, index_at, slots_from};
ghost use Rattle.nm_port.specs.Words.{vec_capacity};
ghost use Rattle.nm_port.specs.Sides.{place_on};
ghost use Rattle.nm_port.specs.Closing.{AreTaken};
ghost use Rattle.nm_port.specs.Exchanges.{CanExchange, CanNote, AreExchanged, pushed_count_of};
ghost use Rattle.nm_port.specs.Lending.{AreSwapped, AreOut, AreNamedAs, place_of_run};

use crate::checks::place_on;
use crate::fill::put;
use crate::kept::{is_kept, note_kept};
use crate::slot_ring::SlotRing;
use nm_hold::{Hold, SlotRun};
use nm_region::Buf;
use nm_types::{Place, PortId, Side};

/// The index of the buffer in a place that holds one.
fn index_in(hold: &Hold, place: Place) -> u32
    requires { IsSome (index_at hold.now place) }
    ensures { index_at hold.now place ≡ Some result }
{
    match hold.index(place) {
        Some(idx) => idx,
        None => unreachable!(),
    }
}

/// Does what `exchange_noted` does, where a slot may name another buffer. Keeps an index for each
/// pushed slot.
fn exchange_changed(hold: &mut Hold, port: PortId, ring: &SlotRing, was: &mut Vec<u32>)
    requires { CanNote hold.old port ring.now was.old }
    ensures exchanged { AreExchanged hold.old hold.new port ring.now (pushed_count_of ring.now) }
    ensures swapped { AreSwapped hold.old port ring.now (reverse was.new.items) hold.new }
    ensures count { length was.new.items ≡ pushed_count_of ring.now }
{
    let (first, count) = ring.pushed();
    let (side, size) = (ring.side(), ring.ring().size());
    let kept = note_kept(hold, port, ring, was);
    for k in kept..count {
        let at = (first + k) % size;
        let place = place_on(side, port, at);
        was.push_reserved(index_in(hold, place));
        hold.exchange(place, ring.user_slot(at).buf_idx);
    }
}

/// Exchanges, for each pushed slot in order, the buffer in its place and the one that it names, and
/// keeps the index of the one that stood there. It keeps none if each slot names the one in its
/// place, so that nothing changes.
pub fn exchange_noted(hold: &mut Hold, port: PortId, ring: &SlotRing, was: &mut Vec<u32>)
    requires can { CanExchange hold.old port ring.now }
    requires ring { IsRing ring.now.ring }
    requires empty { was.old.items ≡ [] }
    requires room { pushed_count_of ring.now ≤ vec_capacity was.old }
    ensures exchanged { AreExchanged hold.old hold.new port ring.now (pushed_count_of ring.now) }
    ensures swapped { AreSwapped hold.old port ring.now (reverse was.new.items) hold.new }
    ensures few { length was.new.items ≤ pushed_count_of ring.now }
    ensures none { length was.new.items < pushed_count_of ring.now
        → (was.new.items ≡ []) × (hold.new ≡ hold.old) }
{
    if !is_kept(hold, port, ring) {
        exchange_changed(hold, port, ring, was);
    }
}

/// Exchanges the buffers in the places of the first pushed slots and those that stood there before,
/// the last one first.
pub fn exchange_back(hold: &mut Hold, port: PortId, ring: &SlotRing, mut was: Vec<u32>)
    requires ring { IsRing ring.now.ring }
    requires head { ring.now.ring.head < ring.now.ring.size }
    requires few { length was.items ≤ most_ring }
    requires swapped { (h : HoldState) × AreSwapped h port ring.now (reverse was.items) hold.old }
    ensures { (h : HoldState) → AreSwapped h port ring.now (reverse was.items) hold.old
        → hold.new ≡ h }
{
    let (first, _) = ring.pushed();
    let (side, size) = (ring.side(), ring.ring().size());
    while let Some(idx) = was.pop() {
        let at = (first + was.len() as u32) % size;
        hold.exchange(place_on(side, port, at), idx);
    }
}

/// Takes the buffers out of the places of some slots, in their order.
pub fn take_slots(
    hold: &mut Hold,
    port: PortId,
    side: Side,
    size: u32,
    first: u32,
    count: u32,
    back: &mut Vec<Buf>,
)
    requires hold { IsHold hold.old }
    requires size { size ≤ most_ring }
    requires first { first < size }
    requires count { count ≤ size }
    requires held { (k : ℕ) → k < count → IsSome (index_at hold.old (place_of_run
        (record { id = port; side = side; size = size; first = first }) k)) }
    requires room { length back.old.items + count ≤ vec_capacity back.old }
    ensures taken { AreTaken hold.old hold.new
        (map (place_on side port) (slots_from size first count)) back.old.items back.new.items }
    ensures out { (unnamed : ℕ) → ((k : ℕ) → k < count → AreNamedAs (nat_le unnamed k) hold.old
        (place_of_run (record { id = port; side = side; size = size; first = first }) k))
        → AreOut hold.old (record { id = port; side = side; size = size; first = first }) unnamed
        (reverse (drop (length back.old.items) back.new.items)) hold.new }
    ensures capacity { vec_capacity back.new ≡ vec_capacity back.old }
{
    let run = SlotRun {
        port,
        side,
        size,
        first,
    };
    hold.take_slots(run, count, back);
}

/// Puts buffers back into the places of some slots out of which they were taken, the last one first,
/// as named ones but for the first `unnamed`.
pub fn put_slots(
    hold: &mut Hold,
    port: PortId,
    side: Side,
    size: u32,
    first: u32,
    unnamed: u32,
    bufs: &mut Vec<Buf>,
)
    requires size { size ≤ most_ring }
    requires first { first < size }
    requires few { length bufs.old.items ≤ most_ring }
    requires out { (h : HoldState) × AreOut h
        (record { id = port; side = side; size = size; first = first }) unnamed
        (reverse bufs.old.items) hold.old }
    ensures back { (h : HoldState) → AreOut h
        (record { id = port; side = side; size = size; first = first }) unnamed
        (reverse bufs.old.items) hold.old → hold.new ≡ h }
    ensures bufs { bufs.new.items ≡ [] }
    ensures capacity { vec_capacity bufs.new ≡ vec_capacity bufs.old }
{
    while let Some(buf) = bufs.pop() {
        let k = bufs.len() as u32;
        put(
            hold,
            place_on(side, port, (first + k) % size),
            buf,
            unnamed <= k,
        );
    }
}
