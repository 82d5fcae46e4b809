ghost use Rattle.std.specs.Prelude.{ℕ, ◌≡◌, ◌<◌, ◌≤◌, ◌+◌, [], Some, length, map, position, IsSome};
ghost use Rattle.nm_types.specs.Limits.{most_extra, most_ring};
ghost use Rattle.nm_port.specs.Words.{ArePortsOnce, IsHold, IsRing, chain_of, extras_of, index_at};
ghost use Rattle.nm_port.specs.Words.{link_at, vec_capacity};
ghost use Rattle.nm_port.specs.Own.{size_if, port_at, places_of_port, HasBackRoom};
ghost use Rattle.nm_port.specs.Closing.{place_count, held_place, held_places, AreTaken};
ghost use Rattle.nm_port.specs.Closing.{has_id, others};

use crate::port::UserPort;
use nm_extra::walk;
use nm_hold::Hold;
use nm_region::Buf;
use nm_types::{Chain, Place, PortId};

impl UserPort {
    /// The number of transmit slots.
    fn slot_count(&self) -> u32
        ensures count { result ≡ size_if self.now.tx }
        ensures small { result ≤ most_ring }
    {
        match &self.tx {
            Some(ring) => ring.ring().size(),
            None => 0,
        }
    }

    /// The number of places that hold a buffer.
    pub fn place_count(&self) -> u32
        requires { self.now.extra ≤ most_extra }
        ensures { result ≡ place_count self.now }
    {
        let (_, received) = self.rx.ring().user_range();
        self.slot_count() + received + self.extra
    }

    /// The place of a number among those that hold a buffer: transmit slots, receive slots of the
    /// user, extra positions.
    fn held_place(&self, k: u32) -> Place
        ensures { result ≡ held_place self.now k }
    {
        let port = self.id;
        let slots = self.slot_count();
        let (first, received) = self.rx.ring().user_range();
        if k < slots {
            Place::Tx { port, slot: k }
        } else if k - slots < received {
            let slot = (first + (k - slots)) % self.rx.ring().size();
            Place::Rx { port, slot }
        } else {
            let at = k - slots - received;
            Place::Extra { port, at }
        }
    }
}

/// The place of a port in a list.
pub fn place_of_port(ports: &[UserPort], port: PortId) -> Option<usize>
    ensures { result ≡ position (has_id port.0) ports.now }
{
    ports.iter().position(|own| own.id.0 == port.0)
}

/// Takes a port out of a list.
pub fn take_port(ports: &mut Vec<UserPort>, port: PortId) -> UserPort
    requires there { IsSome (port_at ports.old.items port.0) }
    requires once { ArePortsOnce (map places_of_port ports.old.items) }
    ensures port { port_at ports.old.items port.0 ≡ Some result }
    ensures others { ports.new.items ≡ others port.0 ports.old.items }
{
    match place_of_port(ports, port) {
        Some(at) => ports.remove(at),
        None => unreachable!(),
    }
}

/// Counts the chain of a port's extra buffers, and takes the buffers out of its places, into the
/// vector that was kept for them.
pub fn empty_port(hold: &mut Hold, mut port: UserPort) -> (Vec<Buf>, Chain)
    requires hold { IsHold hold.old }
    requires ring { IsRing port.rx.ring }
    requires extra { port.extra ≤ most_extra }
    requires held { (k : ℕ) → k < place_count port
        → IsSome (index_at hold.old (held_place port k)) }
    requires room { HasBackRoom port }
    ensures taken { AreTaken hold.old hold.new (held_places port (place_count port)) []
        result.0.items }
    ensures chain { result.1 ≡ chain_of (extras_of hold.old port.id) (link_at hold.old)
        port.extra_head }
{
    let chain = walk(hold, port.id, port.extra_head);
    let mut back = port.back.take();
    take_all(hold, &port, &mut back);
    (back, chain)
}

/// Takes the buffers out of a port's places, in their order.
fn take_all(hold: &mut Hold, port: &UserPort, back: &mut Vec<Buf>)
    requires hold { IsHold hold.old }
    requires ring { IsRing port.now.rx.ring }
    requires extra { port.now.extra ≤ most_extra }
    requires held { (k : ℕ) → k < place_count port.now
        → IsSome (index_at hold.old (held_place port.now k)) }
    requires room { length back.old.items + place_count port.now ≤ vec_capacity back.old }
    ensures taken { AreTaken hold.old hold.new (held_places port.now (place_count port.now))
        back.old.items back.new.items }
    ensures capacity { vec_capacity back.new ≡ vec_capacity back.old }
{
    for k in 0..port.place_count() {
        back.push_reserved(hold.remove(port.held_place(k)));
    }
}
