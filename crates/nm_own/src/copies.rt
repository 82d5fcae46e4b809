//! Copies of a frame, put into a transmit ring one after another.
ghost use Rattle.std.specs.Prelude.{◌≡◌, ◌≤◌, length};
ghost use Rattle.nm_own.specs.Words.{IsTxSide, Tx, port_changed};
ghost use Rattle.nm_own.specs.Copies.{with_copies, AreCopies};
ghost use Rattle.nm_own.specs.CopiesIn.{ring_behind, IsFronted, ArePutIn, ArePutOn};

use crate::own::OwnSide;
use nm_hold::Hold;
use nm_port::close::place_of_port;
use nm_port::{SlotRing, UserPort};
use nm_types::PortId;

/// Writes bytes over the first ones of a named buffer; does nothing if it is not one.
fn write_front(hold: &mut Hold, idx: u32, bytes: &[u8])
    requires { length bytes.now ≤ 2048 }
    ensures { IsFronted idx bytes.now hold.old hold.new }
{
    if hold.named(idx) {
        hold.write(idx, bytes);
    }
}

/// Puts copies of a frame into a transmit ring, as long as there is a slot at its head. Answers how
/// many.
fn put_in(hold: &mut Hold, ring: &mut SlotRing, bytes: &[u8], count: u32) -> u32
    requires side { ring.old.side ≡ Tx }
    requires fits { length bytes.now ≤ 2048 }
    ensures put { ArePutIn count result bytes.now ring.old hold.old hold.new }
    ensures ring { ring.new ≡ ring_behind result (length bytes.now) ring.old }
{
    let len = bytes.len() as u16;
    let most = ring.slots_ahead().min(count);
    for put in 0..most {
        let idx = ring.put_next(len);
        write_front(hold, idx, bytes);
    }
    most
}

/// Puts copies of a frame into the transmit ring of a port; none if it has no such ring.
fn put_on(hold: &mut Hold, port: &mut UserPort, bytes: &[u8], count: u32) -> u32
    requires side { IsTxSide port.old.tx }
    requires fits { length bytes.now ≤ 2048 }
    ensures put { ArePutOn count result bytes.now port.old.tx hold.old hold.new }
    ensures port { port.new
        ≡ port_changed Tx (λ id. ring_behind result (length bytes.now)) port.old }
{
    match &mut port.tx {
        Some(ring) => put_in(hold, ring, bytes, count),
        None => 0,
    }
}

impl OwnSide {
    /// Puts copies of a frame at the head of a port's transmit ring, each as `put_frame` does, until
    /// there are `count` or the ring has no room for one more. Answers how many were put.
    pub fn put_copies(&mut self, port: PortId, bytes: &[u8], count: u32) -> u32
        requires { length bytes.now ≤ 2048 }
        ensures copies { AreCopies count result port.0 bytes.now self.old.own }
        ensures own { self.new
            ≡ record self.old { own = with_copies result port.0 bytes.now self.old.own } }
    {
        match place_of_port(&self.ports, port) {
            Some(at) => put_on(&mut self.hold, &mut self.ports[at], bytes, count),
            None => 0,
        }
    }
}
