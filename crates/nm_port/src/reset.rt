ghost use Rattle.std.specs.Prelude.{◌≡◌, map};
ghost use Rattle.nm_port.specs.Resets.{ring_reset, port_reset, port_reset_if};

use crate::checks::{number_at, place_on};
use crate::port::UserPort;
use crate::slot_ring::SlotRing;
use nm_hold::Hold;
use nm_types::{PortId, Side};

/// Resets a ring: its positions are those last accepted, and each of the user's slots names the
/// buffer in its place.
fn reset_ring(hold: &Hold, port: PortId, ring: &mut SlotRing)
    ensures { ring.new ≡ ring_reset hold.now port ring.old }
{
    let side = ring.side();
    let (first, count) = ring.ring().user_range();
    let size = ring.ring().size();
    for k in 0..count {
        let at = (first + k) % size;
        ring.reset_slot(at, number_at(hold, place_on(side, port, at)));
    }
    ring.reset_positions();
}

/// Resets a port's ring, if it has that ring.
fn reset_port(hold: &Hold, port: &mut UserPort, side: Side)
    ensures { port.new ≡ port_reset hold.now side port.old }
{
    match side {
        Side::Tx => {
            if let Some(ring) = &mut port.tx {
                reset_ring(hold, port.id, ring);
            }
        }
        Side::Rx => reset_ring(hold, port.id, &mut port.rx),
    }
}

/// Resets a port's ring, if it is the port of this id.
fn reset_if(hold: &Hold, port: &mut UserPort, id: PortId, side: Side)
    ensures { port.new ≡ port_reset_if hold.now id.0 side port.old }
{
    if port.id.0 == id.0 {
        reset_port(hold, port, side);
    }
}

/// Resets the ring on a side of the port of an id.
pub fn reset_rings(hold: &Hold, ports: &mut [UserPort], id: PortId, side: Side)
    ensures { ports.new ≡ map (port_reset_if hold.now id.0 side) ports.old }
{
    for port in ports.iter_mut() {
        reset_if(hold, port, id, side);
    }
}
