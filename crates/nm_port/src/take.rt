ghost use Rattle.std.specs.Prelude.{◌≡◌, ◌<◌, ◌≤◌, map, fold};
ghost use Rattle.nm_port.specs.Words.{AllByRecursion, PortId, Tx, slots_from};
ghost use Rattle.nm_port.specs.Own.{port_changed_if};
ghost use Rattle.nm_port.specs.Exchanges.{CanPushOut, CanAccept};
ghost use Rattle.nm_port.specs.Puts.{with_slot_named, ring_taken};

use crate::checks::number_at;
use crate::port::UserPort;
use crate::slot_ring::SlotRing;
use nm_hold::Hold;
use nm_types::{Place, PortId, Slot};

/// Names in some slots of a transmit ring, from a position on, the buffers in their places.
fn name_held(hold: &Hold, id: PortId, ring: &mut SlotRing, first: u32, count: u32)
    requires side { ring.old.side ≡ Tx }
    requires first { first < ring.old.ring.size }
    requires count { count ≤ ring.old.ring.size }
    ensures { ring.new ≡ record ring.old {
      slots = fold (with_slot_named hold.now id)
          ring.old.slots (slots_from ring.old.ring.size first count);
    } }
{
    let size = ring.ring().size();
    for k in 0..count {
        let at = (first + k) % size;
        let slot = Slot {
            buf_idx: number_at(hold, Place::Tx { port: id, slot: at }),
            ..ring.any_slot(at)
        };
        ring.put_any_slot(at, slot);
    }
}

/// Accepts the push of a transmit ring, of whose frames the first `taken` were taken: their slots
/// name the buffers in their places.
fn take_out(hold: &Hold, id: PortId, ring: &mut SlotRing, taken: u32)
    requires { CanPushOut taken ring.old }
    ensures { ring.new ≡ ring_taken hold.now id taken ring.old }
{
    let (first, _) = ring.pending();
    ring.accept_push();
    name_held(hold, id, ring, first, taken);
    ring.move_tail(taken);
}

/// Accepts the push of a port's transmit ring, of whose frames the first `taken` were taken, if it
/// is the port of this id.
fn take_if(hold: &Hold, port: &mut UserPort, id: PortId, taken: u32)
    requires { CanAccept id.0 taken port.old }
    ensures { port.new ≡ port_changed_if id.0 Tx
        (λ (of : PortId). ring_taken hold.now id taken) port.old }
{
    if port.id.0 == id.0 {
        if let Some(ring) = &mut port.tx {
            take_out(hold, id, ring, taken);
        }
    }
}

/// Accepts the push of the transmit ring of the port of an id, of whose frames the first `taken`
/// were taken: their slots name the buffers in their places.
pub fn take_at(hold: &Hold, ports: &mut [UserPort], id: PortId, taken: u32)
    requires { AllByRecursion (CanAccept id.0 taken) ports.old }
    ensures { ports.new ≡ map (port_changed_if id.0 Tx
        (λ (of : PortId). ring_taken hold.now id taken)) ports.old }
{
    for port in ports.iter_mut() {
        take_if(hold, port, id, taken);
    }
}
