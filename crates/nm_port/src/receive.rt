ghost use Rattle.std.specs.Prelude.{ℕ, ◌≡◌, ◌<◌, ◌≤◌, ◌+◌, length, map, IsSome};
ghost use Rattle.nm_port.specs.Words.{AllByRecursion, FitsRing, IsHold, IsRing, PortId, Rx};
ghost use Rattle.nm_port.specs.Words.{cleared_but, index_at, vec_capacity};
ghost use Rattle.nm_port.specs.Own.{port_changed_if};
ghost use Rattle.nm_port.specs.Closing.{AreTaken};
ghost use Rattle.nm_port.specs.Exchanges.{pushed_count_of, user_place};
ghost use Rattle.nm_port.specs.Receives.{user_places, ring_given_back, CanGiveBack};
ghost use Rattle.std.specs.Prelude.{take};

use crate::checks::place_on;
use crate::port::UserPort;
use crate::slot_ring::SlotRing;
use nm_hold::Hold;
use nm_region::Buf;
use nm_types::{BUFFER_BYTES, PortId};

/// Accepts the push of a port's receive ring, if it is the port of this id.
fn accept_if(port: &mut UserPort, id: PortId)
    requires { CanGiveBack id.0 port.old }
    ensures { port.new
        ≡ port_changed_if id.0 Rx (λ (of : PortId). ring_given_back) port.old }
{
    if port.id.0 == id.0 {
        port.rx.accept_back();
    }
}

/// Accepts the push of the receive ring of the port of an id.
pub fn accept_backs(ports: &mut [UserPort], id: PortId)
    requires { AllByRecursion (CanGiveBack id.0) ports.old }
    ensures { ports.new
        ≡ map (port_changed_if id.0 Rx (λ (of : PortId). ring_given_back)) ports.old }
{
    for port in ports.iter_mut() {
        accept_if(port, id);
    }
}

/// Clears all bytes of a buffer behind a frame of `len` bytes.
pub fn clear_behind(buf: &mut Buf, len: u16)
    requires { len ≤ 2048 }
    ensures cleared { buf.new
        ≡ record buf.old { bytes = cleared_but (take len buf.old.bytes) } }
    ensures size { length (take len buf.old.bytes) ≡ len }
{
    let room = buf.bytes().len();
    prove!(room == BUFFER_BYTES);
    buf.clear_behind(len as usize);
}
