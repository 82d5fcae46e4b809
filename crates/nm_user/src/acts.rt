//! What a user does on its rings between its calls, as the lines of a script do it.
ghost use Rattle.std.specs.Prelude.{◌≡◌, ◌≤◌, length};
ghost use Rattle.nm_types.specs.Limits.{most_frame_bytes};
ghost use Rattle.nm_user.specs.Words.{has_room, place_seen, with_all_back};
ghost use Rattle.nm_user.specs.Words.{with_extra_link};
ghost use Rattle.nm_user.specs.Words.{with_forwarded, with_frame, with_positions, with_slot_field};
ghost use Rattle.nm_user.specs.Words.{with_slots_swapped};

use crate::session::Session;
use nm_own::SlotPlace;
use nm_types::{PortId, Side, SlotWrite};

impl<'f> Session<'f> {
    /// Stores a ring's head and cur, any numbers, which the next sync judges; does nothing if there is
    /// no such ring.
    pub fn put_positions(&mut self, port: PortId, side: Side, head: u32, cur: u32)
        ensures { self.new
            ≡ record self.old { own = with_positions side port.0 head cur self.old.own } }
    {
        if let Some(own) = &mut self.own {
            own.put_positions(port, side, head, cur);
        }
    }

    /// Stores the tail of a port's receive ring as its head and cur, so that the next sync gives
    /// all received frames back. Does nothing if there is no such port.
    pub fn give_all_back(&mut self, port: PortId)
        ensures { self.new ≡ record self.old { own = with_all_back port.0 self.old.own } }
    {
        if let Some(own) = &mut self.own {
            own.give_all_back(port);
        }
    }

    /// Writes one field of one of the user's slots; does nothing if the slot is not the user's.
    pub fn write_slot(&mut self, port: PortId, side: Side, at: u32, write: SlotWrite)
        ensures { self.new
            ≡ record self.old { own = with_slot_field side port.0 at write self.old.own } }
    {
        if let Some(own) = &mut self.own {
            own.write_slot(port, side, at, write);
        }
    }

    /// Exchanges the buffers that two of the user's slots name, and marks both as changed if
    /// `announce`. Does nothing if one of them is not the user's.
    pub fn swap_slots(&mut self, here: SlotPlace, there: SlotPlace, announce: bool)
        ensures { self.new
            ≡ record self.old {
              own = with_slots_swapped announce (place_seen here) (place_seen
                  there) self.old.own;
            } }
    {
        if let Some(own) = &mut self.own {
            own.swap_slots(here, there, announce);
        }
    }

    /// Whether a frame of `len` bytes can be put at the head of a port's transmit ring: its positions
    /// fit, and from its head to before its tail there are as many slots as the frame takes
    /// (`nm_types::slots`).
    pub fn has_room(&self, port: PortId, len: usize) -> bool
        requires { len ≤ most_frame_bytes }
        ensures { result ≡ has_room self.now.own port.0 len }
    {
        match &self.own {
            Some(own) => own.has_room(port, len),
            None => false,
        }
    }

    /// Puts a frame at the head of a port's transmit ring, if it has room for it, each part of 2,048
    /// bytes in a slot: writes the bytes over the first ones of the buffer that the slot names, if the
    /// user may name it, sets the slot's length, clears its marks of a former frame, marks it as going
    /// on if a part follows, and moves head and cur to the next position.
    pub fn put_frame(&mut self, port: PortId, bytes: &[u8])
        requires { length bytes.now ≤ most_frame_bytes }
        ensures { self.new
            ≡ record self.old { own = with_frame port.0 bytes.now self.old.own } }
    {
        if let Some(own) = &mut self.own {
            own.put_frame(port, bytes);
        }
    }

    /// Forwards up to `count` frames without a copy, from the receive ring of one port to the
    /// transmit ring of another, which may be the same, while a whole frame stands at the receive
    /// ring's head and the transmit ring has as many slots from its head to before its tail; an end of
    /// a pipe takes frames of one slot alone. The slots change the buffers that they name and are
    /// marked as changed, the transmit slots take the lengths and say whether the frame goes on, and
    /// head and cur of both rings go on past it.
    pub fn forward(&mut self, from: PortId, to: PortId, count: u32)
        ensures { self.new
            ≡ record self.old {
              own = with_forwarded count from.0 to.0 self.old.own;
            } }
    {
        if let Some(own) = &mut self.own {
            own.forward(from, to, count);
        }
    }

    /// Links an extra position to another, both counted from 1: 0 instead of the first one is the
    /// head of the port's list, and 0 instead of the second ends the list. Does nothing if there is
    /// no such port or no such position.
    pub fn link_extra(&mut self, port: PortId, from: u32, to: u32)
        ensures { self.new
            ≡ record self.old { own = with_extra_link port.0 from to self.old.own } }
    {
        if let Some(own) = &mut self.own {
            own.link_extra(port, from, to);
        }
    }
}
