//! What a user does on its rings between its calls, and what it reads there. No act makes an entry, and
//! each leaves the desk one of its book.
ghost use Rattle.std.specs.Prelude.{◌≡◌, ◌≤◌, length};
ghost use Rattle.nm_types.specs.Limits.{most_frame_bytes};
ghost use Rattle.nm_types.specs.OwnEdits.{with_all_back, with_extra_link, with_forwarded, with_frame};
ghost use Rattle.nm_types.specs.OwnEdits.{with_head_of_chain, with_positions, with_slot_field};
ghost use Rattle.nm_types.specs.OwnEdits.{with_slots_swapped, with_user_slot, with_written};
ghost use Rattle.nm_own.specs.Acts.{place_seen};
ghost use Rattle.vale_own.specs.Recorded.{Recorded};
ghost use Rattle.nm_desk.specs.Desks.{IsDeskOf, side_of};

use crate::desk::Desk;
use nm_own::{OwnSide, SlotPlace};
use nm_types::{PortId, Side, Slot, SlotWrite};

impl Desk {
    /// The rings, slots and buffers of the desk's ports, to be read.
    pub fn own(&self) -> &OwnSide
        ensures { result.now ≡ side_of self.now }
    {
        match &self.own {
            Some(own) => own,
            None => unreachable!(),
        }
    }

    /// Stores a ring's head and cur, any numbers, which the next sync judges; does nothing if there is
    /// no such ring.
    pub fn put_positions(&mut self, port: PortId, side: Side, head: u32, cur: u32)
        ensures own { self.new
            ≡ record self.old { own = with_positions side port.0 head cur self.old.own } }
        ensures desk { (b : Recorded) → IsDeskOf b self.old → IsDeskOf b self.new }
    {
        if let Some(own) = &mut self.own {
            own.put_positions(port, side, head, cur);
        }
    }

    /// Stores the tail of a port's receive ring as its head and cur, so that the next sync gives
    /// all received frames back. Does nothing if there is no such port.
    pub fn give_all_back(&mut self, port: PortId)
        ensures own { self.new ≡ record self.old { own = with_all_back port.0 self.old.own } }
        ensures desk { (b : Recorded) → IsDeskOf b self.old → IsDeskOf b self.new }
    {
        if let Some(own) = &mut self.own {
            own.give_all_back(port);
        }
    }

    /// Writes one of the user's slots whole; does nothing if it is not the user's.
    pub fn put_slot(&mut self, port: PortId, side: Side, at: u32, slot: Slot)
        ensures own { self.new
            ≡ record self.old { own = with_user_slot side port.0 at slot self.old.own } }
        ensures desk { (b : Recorded) → IsDeskOf b self.old → IsDeskOf b self.new }
    {
        if let Some(own) = &mut self.own {
            own.put_slot(port, side, at, slot);
        }
    }

    /// Writes one field of one of the user's slots; does nothing if the slot is not the user's.
    pub fn write_slot(&mut self, port: PortId, side: Side, at: u32, write: SlotWrite)
        ensures own { self.new
            ≡ record self.old { own = with_slot_field side port.0 at write self.old.own } }
        ensures desk { (b : Recorded) → IsDeskOf b self.old → IsDeskOf b self.new }
    {
        if let Some(own) = &mut self.own {
            own.write_slot(port, side, at, write);
        }
    }

    /// Exchanges the buffers that two of the user's slots name, and marks both as changed if
    /// `announce`. Does nothing if one of them is not the user's.
    pub fn swap_slots(&mut self, here: SlotPlace, there: SlotPlace, announce: bool)
        ensures own { self.new
            ≡ record self.old {
              own = with_slots_swapped announce (place_seen here) (place_seen
                  there) self.old.own;
            } }
        ensures desk { (b : Recorded) → IsDeskOf b self.old → IsDeskOf b self.new }
    {
        if let Some(own) = &mut self.own {
            own.swap_slots(here, there, announce);
        }
    }

    /// Puts a frame at the head of a port's transmit ring, if it has room for it, each part of 2,048
    /// bytes in a slot: writes the bytes over the first ones of the buffer that the slot names, if the
    /// user may name it, sets the slot's length, clears its marks of a former frame, marks it as going
    /// on if a part follows, and moves head and cur to the next position.
    pub fn put_frame(&mut self, port: PortId, bytes: &[u8])
        requires { length bytes.now ≤ most_frame_bytes }
        ensures own { self.new
            ≡ record self.old { own = with_frame port.0 bytes.now self.old.own } }
        ensures desk { (b : Recorded) → IsDeskOf b self.old → IsDeskOf b self.new }
    {
        if let Some(own) = &mut self.own {
            own.put_frame(port, bytes);
        }
    }

    /// Writes bytes over the first ones of a buffer that the user may name; does nothing if it is
    /// not one.
    pub fn write(&mut self, idx: u32, bytes: &[u8])
        requires { length bytes.now ≤ 2048 }
        ensures own { self.new
            ≡ record self.old { own = with_written idx bytes.now self.old.own } }
        ensures desk { (b : Recorded) → IsDeskOf b self.old → IsDeskOf b self.new }
    {
        if let Some(own) = &mut self.own {
            own.write_front(idx, bytes);
        }
    }

    /// Forwards up to `count` frames without a copy, from the receive ring of one port to the
    /// transmit ring of another, which may be the same, while a whole frame stands at the receive
    /// ring's head and the transmit ring has as many slots from its head to before its tail; an end of
    /// a pipe takes frames of one slot alone.
    pub fn forward(&mut self, from: PortId, to: PortId, count: u32)
        ensures own { self.new
            ≡ record self.old {
              own = with_forwarded count from.0 to.0 self.old.own;
            } }
        ensures desk { (b : Recorded) → IsDeskOf b self.old → IsDeskOf b self.new }
    {
        if let Some(own) = &mut self.own {
            own.forward(from, to, count);
        }
    }

    /// Stores the index that a port's list of extra buffers begins with, any number: no call judges it,
    /// and `finish` tells how far the list led. Does nothing if there is no such port.
    pub fn set_extra_head(&mut self, port: PortId, idx: u32)
        ensures own { self.new
            ≡ record self.old { own = with_head_of_chain port.0 idx self.old.own } }
        ensures desk { (b : Recorded) → IsDeskOf b self.old → IsDeskOf b self.new }
    {
        if let Some(own) = &mut self.own {
            own.set_extra_head(port, idx);
        }
    }

    /// Links an extra position to another, both counted from 1: 0 instead of the first one is the
    /// head of the port's list, and 0 instead of the second ends the list. Does nothing if there is
    /// no such port or no such position.
    pub fn link_extra(&mut self, port: PortId, from: u32, to: u32)
        ensures own { self.new
            ≡ record self.old { own = with_extra_link port.0 from to self.old.own } }
        ensures desk { (b : Recorded) → IsDeskOf b self.old → IsDeskOf b self.new }
    {
        if let Some(own) = &mut self.own {
            own.link_extra(port, from, to);
        }
    }
}
