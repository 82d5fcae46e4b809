//! What a user reads of its own side.
ghost use Rattle.std.specs.Prelude.{◌≡◌, false, None, is_some, option_map, option_and_then};
ghost use Rattle.nm_user.specs.Words.{OwnPort, extra_at, head_of_extras, is_monitor_name};
ghost use Rattle.nm_user.specs.Words.{named_bytes, option_copied, option_map_or, port_with_id};
ghost use Rattle.nm_user.specs.Words.{port_with_name, ring_at, ring_of, user_slot_at};
ghost use Rattle.nm_user.specs.Sessions.{IsThere};

use crate::session::Session;
use nm_ring::Ring;
use nm_types::{Name, PortId, SessionId, Side, Slot};

impl<'f> Session<'f> {
    /// The number of the session's first entry. By what its pass has seen it has just what is on
    /// its own side.
    pub fn id(&self) -> SessionId
        ensures id { result.0 ≡ self.now.id }
        ensures there { IsThere None self.now }
    {
        self.id
    }

    /// The port of a name, if the session has it open.
    pub fn port_named(&self, name: &Name) -> Option<PortId>
        ensures { result
            ≡ option_map (λ (p : OwnPort). p.id) (port_with_name self.now.own name.now) }
    {
        match &self.own {
            Some(own) => own.port_named(name),
            None => None,
        }
    }

    /// Whether the session has a port.
    pub fn has_port(&self, port: PortId) -> bool
        ensures { result ≡ is_some (port_with_id self.now.own port.0) }
    {
        match &self.own {
            Some(own) => own.has_port(port),
            None => false,
        }
    }

    /// Whether a port is one of the session's, and a monitor: `watch` asks for one.
    pub fn is_monitor(&self, port: PortId) -> bool
        ensures { result
            ≡ option_map_or (λ (p : OwnPort). is_monitor_name p.name)
            (port_with_id self.now.own port.0) false }
    {
        let name = match &self.own {
            Some(own) => own.name(port),
            None => None,
        };
        match name {
            Some(name) => name.is_monitor(),
            None => false,
        }
    }

    /// The positions of a port's ring, if the session has that port and the port that ring: a monitor
    /// has no transmit ring.
    pub fn ring(&self, port: PortId, side: Side) -> Option<&Ring>
        ensures { option_copied result ≡ option_map ring_of (ring_at side self.now.own port.0) }
    {
        match &self.own {
            Some(own) => own.ring(port, side),
            None => None,
        }
    }

    /// One of the user's slots, those from the accepted head to before the tail (`Ring::user_range`);
    /// none if it is not the user's.
    pub fn slot(&self, port: PortId, side: Side, at: u32) -> Option<&Slot>
        ensures { option_copied result ≡ user_slot_at side self.now.own port.0 at }
    {
        match &self.own {
            Some(own) => own.slot(port, side, at),
            None => None,
        }
    }

    /// The 2,048 bytes of a buffer that the user may name: one in a user slot's place or an extra
    /// position of any of its ports. None for any other index.
    pub fn bytes(&self, idx: u32) -> Option<&[u8]>
        ensures { option_copied result ≡ named_bytes self.now.own idx }
    {
        match &self.own {
            Some(own) => own.bytes(idx),
            None => None,
        }
    }

    /// The index that a port's list of extra buffers begins with, any number, where 0 is the empty list;
    /// none if the session has no such port. netmap(4) calls this `ni_bufs_head`.
    pub fn extra_head(&self, port: PortId) -> Option<u32>
        ensures { result ≡ option_map head_of_extras (port_with_id self.now.own port.0) }
    {
        match &self.own {
            Some(own) => own.extra_head(port),
            None => None,
        }
    }

    /// The buffer in an extra position of a port, counted from 0; none if there is no such
    /// position.
    pub fn extra_at(&self, port: PortId, at: u32) -> Option<u32>
        ensures { result ≡ option_and_then (extra_at at) (port_with_id self.now.own port.0) }
    {
        match &self.own {
            Some(own) => own.extra_at(port, at),
            None => None,
        }
    }
}
