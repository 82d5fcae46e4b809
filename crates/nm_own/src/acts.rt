ghost use Rattle.std.specs.Prelude.{◌≡◌};
ghost use Rattle.nm_own.specs.Words.{slot_naming, slot_of_place, with_all_back, with_positions};
ghost use Rattle.nm_own.specs.Words.{with_slot_field, with_slots_swapped};
ghost use Rattle.nm_own.specs.Acts.{place_seen};

use crate::edit::RingEdit;
use crate::own::OwnSide;
use nm_types::{PortId, Side, Slot, SlotFlags, SlotWrite};

/// A slot of a session's port.
#[derive(Clone, Copy, Debug, PartialEq, Eq)]
pub struct SlotPlace {
    pub port: PortId,
    pub side: Side,
    pub at: u32,
}

/// A slot that names another buffer, announced or not.
pub(crate) fn naming(slot: Slot, idx: u32, announce: bool) -> Slot
    ensures { result ≡ slot_naming announce idx slot }
{
    let flags = if announce {
        slot.flags | SlotFlags::BUF_CHANGED.0
    } else {
        slot.flags
    };
    Slot {
        buf_idx: idx,
        flags,
        ..slot
    }
}

impl OwnSide {
    /// Stores a head and a cur, any numbers; does nothing if there is no such ring.
    pub fn put_positions(&mut self, port: PortId, side: Side, head: u32, cur: u32)
        ensures { self.new
            ≡ record self.old { own = with_positions side port.0 head cur self.old.own } }
    {
        self.edit(port, side, RingEdit::Positions(head, cur));
    }

    /// Stores the tail of a port's receive ring as its head and cur, so that the next sync gives
    /// all received frames back. Does nothing if there is no such port.
    pub fn give_all_back(&mut self, port: PortId)
        ensures { self.new ≡ record self.old { own = with_all_back port.0 self.old.own } }
    {
        self.edit(port, Side::Rx, RingEdit::AllBack);
    }

    /// Writes one field of one of the user's slots; does nothing if the slot is not the user's.
    pub fn write_slot(&mut self, port: PortId, side: Side, at: u32, write: SlotWrite)
        ensures { self.new
            ≡ record self.old { own = with_slot_field side port.0 at write self.old.own } }
    {
        if let Some(slot) = self.slot_in(SlotPlace { port, side, at }) {
            let mut slot = slot;
            slot.write(write);
            self.put_slot(port, side, at, slot);
        }
    }

    /// One of the user's slots.
    fn slot_in(&self, place: SlotPlace) -> Option<Slot>
        ensures { result ≡ slot_of_place self.now.own (place_seen place) }
    {
        match self.slot(place.port, place.side, place.at) {
            Some(slot) => Some(*slot),
            None => None,
        }
    }

    /// Exchanges the buffers that two of the user's slots name, and marks both as changed if
    /// `announce`. Does nothing if one of them is not the user's.
    pub fn swap_slots(&mut self, here: SlotPlace, there: SlotPlace, announce: bool)
        ensures { self.new
            ≡ record self.old {
              own = with_slots_swapped announce (place_seen here) (place_seen
                  there) self.old.own;
            } }
    {
        if let Some(one) = self.slot_in(here) {
            if let Some(two) = self.slot_in(there) {
                let (first, second) = (one.buf_idx, two.buf_idx);
                self.put_slot(here.port, here.side, here.at, naming(one, second, announce));
                self.put_slot(
                    there.port,
                    there.side,
                    there.at,
                    naming(two, first, announce),
                );
            }
        }
    }
}
