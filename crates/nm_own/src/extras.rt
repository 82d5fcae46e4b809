ghost use Rattle.std.specs.Prelude.{◌≡◌, map};
ghost use Rattle.nm_own.specs.Words.{port_seen, with_extra_link};
ghost use Rattle.nm_own.specs.ExtraChain.{extra_at, extra_numbered, port_headed_if};

use crate::own::OwnSide;
use nm_hold::Hold;
use nm_port::UserPort;
use nm_port::checks::number_at;
use nm_types::{Place, PortId};

/// Stores the head of a port's list of extra buffers, if it is the port of this id.
fn set_head_if(port: &mut UserPort, id: PortId, idx: u32)
    ensures { port.new ≡ port_headed_if id.0 idx port.old }
{
    if port.id.0 == id.0 {
        port.extra_head = idx;
    }
}

/// Stores the head of the list of extra buffers of the port of an id.
pub(crate) fn set_heads(ports: &mut [UserPort], id: PortId, idx: u32)
    ensures { ports.new ≡ map (port_headed_if id.0 idx) ports.old }
{
    for port in ports.iter_mut() {
        set_head_if(port, id, idx);
    }
}

/// The buffer in an extra position of a port, counted from 1, and 0 for the position 0.
pub(crate) fn extra_numbered(hold: &Hold, port: &UserPort, number: u32) -> Option<u32>
    ensures { result ≡ extra_numbered number (port_seen hold.now port.now) }
{
    if number > port.extra {
        None
    } else if number == 0 {
        Some(0)
    } else {
        let at = number - 1;
        Some(number_at(hold, Place::Extra { port: port.id, at }))
    }
}

/// The buffer in an extra position of a port, counted from 0.
pub(crate) fn extra_at(hold: &Hold, port: &UserPort, at: u32) -> Option<u32>
    ensures { result ≡ extra_at at (port_seen hold.now port.now) }
{
    if at < port.extra {
        Some(number_at(hold, Place::Extra { port: port.id, at }))
    } else {
        None
    }
}

impl OwnSide {
    /// Links an extra position to another, both counted from 1: 0 instead of the first one is the
    /// head of the port's list, and 0 instead of the second ends the list. Does nothing if there is
    /// no such port or no such position.
    pub fn link_extra(&mut self, port: PortId, from: u32, to: u32)
        ensures { self.new ≡ record self.old { own = with_extra_link port.0 from to self.old.own } }
    {
        if let Some(here) = self.extra_numbered(port, from) {
            if let Some(next) = self.extra_numbered(port, to) {
                if from == 0 {
                    self.set_extra_head(port, next);
                } else {
                    self.relink(here, next);
                }
            }
        }
    }
}
