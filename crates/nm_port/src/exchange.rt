ghost use Rattle.std.specs.Prelude.{ℕ, ◌≡◌, ◌<◌, ◌≤◌, IsSome, map};
ghost use Rattle.nm_types.specs.Limits.{most_ring};
ghost use Rattle.nm_port.specs.Words.{AllByRecursion, IsHold, IsRing, PortId, Tx, index_at};
ghost use Rattle.nm_port.specs.Words.{step_on};
ghost use Rattle.nm_types.specs.declared.place.Place.TheVariants as place;
ghost use Rattle.nm_port.specs.Own.{port_changed_if};
ghost use Rattle.nm_port.specs.Exchanges.{CanExchange, AreExchanged, pushed_count_of, AreRenamed};
ghost use Rattle.nm_port.specs.Exchanges.{tx_places, ArePushedOut, ring_pushed_out, CanAccept};

use crate::checks::place_on;
use crate::kept::{is_kept, kept_count};
use crate::port::UserPort;
use crate::slot_ring::SlotRing;
use nm_hold::{Hold, step_on};
use nm_types::PortId;

/// Exchanges, for each pushed slot in order, the buffer in its place and the one that it names.
pub(crate) fn exchange_pushed(hold: &mut Hold, port: PortId, ring: &SlotRing)
    requires can { CanExchange hold.old port ring.now }
    requires ring { IsRing ring.now.ring }
    ensures { AreExchanged hold.old hold.new port ring.now (pushed_count_of ring.now) }
{
    if !is_kept(hold, port, ring) {
        exchange_changed(hold, port, ring);
    }
}

/// Does what `exchange_pushed` does, where a slot may name another buffer.
fn exchange_changed(hold: &mut Hold, port: PortId, ring: &SlotRing)
    requires can { CanExchange hold.old port ring.now }
    requires ring { IsRing ring.now.ring }
    ensures { AreExchanged hold.old hold.new port ring.now (pushed_count_of ring.now) }
{
    let (first, count) = ring.pushed();
    let (side, size) = (ring.side(), ring.ring().size());
    let kept = kept_count(hold, port, ring);
    for k in kept..count {
        let at = (first + k) % size;
        hold.exchange(place_on(side, port, at), ring.user_slot(at).buf_idx);
    }
}

/// Makes the buffers in the places of some transmit slots named ones, or ones that are not named.
pub fn name_slots(hold: &mut Hold, port: PortId, size: u32, first: u32, count: u32, named: bool)
    requires hold { IsHold hold.old }
    requires size { size ≤ most_ring }
    requires first { first < size }
    requires count { count ≤ size }
    requires held { (at : ℕ) → at < size → IsSome (index_at hold.old (place.Tx port at)) }
    ensures { AreRenamed hold.old hold.new named (tx_places port size first count) }
{
    hold.name_slots(port, size, first, count, named);
}

/// Exchanges the buffers of a transmit push, of whose frames `taken` were taken, and names those of
/// the slots that are then the user's.
pub(crate) fn push_out(hold: &mut Hold, port: PortId, ring: &SlotRing, taken: u32)
    requires can { CanExchange hold.old port ring.now }
    requires side { ring.now.side ≡ Tx }
    requires taken { taken ≤ ring.now.ring.size }
    requires held { (at : ℕ) → at < ring.now.ring.size
        → IsSome (index_at hold.old (place.Tx port at)) }
    ensures { ArePushedOut hold.old hold.new port ring.now taken }
{
    let positions = ring.ring();
    let (first, count) = ring.pushed();
    exchange_pushed(hold, port, ring);
    name_slots(hold, port, positions.size(), first, count, false);
    name_slots(hold, port, positions.size(), positions.tail(), taken, true);
}

/// Does what `push_out` does, for all frames of a push, where none of an earlier one is still pushed:
/// but for the last one its slots stay the user's, and the slot at the tail is the user's again.
fn push_all(hold: &mut Hold, port: PortId, ring: &SlotRing)
    requires can { CanExchange hold.old port ring.now }
    requires side { ring.now.side ≡ Tx }
    requires some { 0 < pushed_count_of ring.now }
    requires behind { step_on ring.now.ring.size ring.now.ring.last_tail 1
        ≡ ring.now.ring.accepted_head }
    requires held { (at : ℕ) → at < ring.now.ring.size
        → IsSome (index_at hold.old (place.Tx port at)) }
    ensures { ArePushedOut hold.old hold.new port ring.now (pushed_count_of ring.now) }
{
    let (first, count) = ring.pushed();
    let positions = ring.ring();
    let last = step_on(positions.size(), first, count - 1);
    exchange_pushed(hold, port, ring);
    name_slots(hold, port, positions.size(), last, 1, false);
    name_slots(hold, port, positions.size(), positions.tail(), 1, true);
}

/// Exchanges the buffers of a transmit push all of whose frames were taken; answers their number.
pub fn send_out(hold: &mut Hold, port: PortId, ring: &SlotRing) -> u32
    requires can { CanExchange hold.old port ring.now }
    requires side { ring.now.side ≡ Tx }
    requires held { (at : ℕ) → at < ring.now.ring.size
        → IsSome (index_at hold.old (place.Tx port at)) }
    ensures count { result ≡ pushed_count_of ring.now }
    ensures out { ArePushedOut hold.old hold.new port ring.now (pushed_count_of ring.now) }
{
    let (first, count) = ring.pushed();
    if count > 0 && ring.next(ring.ring().tail()) == first {
        push_all(hold, port, ring);
    } else {
        push_out(hold, port, ring, count);
    }
    count
}

/// Accepts the push of a port's transmit ring, if it is the port of this id.
fn accept_if(port: &mut UserPort, id: PortId, taken: u32)
    requires { CanAccept id.0 taken port.old }
    ensures { port.new
        ≡ port_changed_if id.0 Tx (λ (of : PortId). ring_pushed_out taken) port.old }
{
    if port.id.0 == id.0 {
        if let Some(ring) = &mut port.tx {
            ring.push_out(taken);
        }
    }
}

/// Accepts the push of the transmit ring of the port of an id, of whose frames `taken` were taken.
pub fn accept_pushes(ports: &mut [UserPort], id: PortId, taken: u32)
    requires { AllByRecursion (CanAccept id.0 taken) ports.old }
    ensures { ports.new
        ≡ map (port_changed_if id.0 Tx (λ (of : PortId). ring_pushed_out taken)) ports.old }
{
    for port in ports.iter_mut() {
        accept_if(port, id, taken);
    }
}
