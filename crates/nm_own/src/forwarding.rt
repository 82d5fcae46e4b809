//! Frames that are forwarded without a copy.
ghost use Rattle.std.specs.Prelude.{◌≡◌, nat_lt};
ghost use Rattle.nm_own.specs.Words.{Rx, Tx, ring_at, sent_slot, with_forwarded};
ghost use Rattle.nm_own.specs.Words.{is_whole_at, with_heads_forwarded, with_slots_forwarded};
ghost use Rattle.nm_own.specs.Acts.{frame_to_go, slots_to_go_at};

use crate::acts::naming;
use crate::edit::RingEdit;
use crate::own::{OwnSide, port_at, ring_at};
use bitflags::Flags;
use nm_port::{SlotRing, goes_on};
use nm_types::{PortId, Side, Slot, SlotFlags};

/// A transmit slot to which a receive slot's frame goes: it names that one's buffer, takes its length,
/// and says whether the frame goes on.
fn sent(got: Slot, free: Slot) -> Slot
    ensures { result ≡ sent_slot got free }
{
    let named = naming(free, got.buf_idx, true);
    let flags = if goes_on(&got) {
        named.flags | SlotFlags::MORE_FRAGMENTS.0
    } else {
        let flags = SlotFlags::from_bits_retain(named.flags);
        flags.difference(SlotFlags::MORE_FRAGMENTS).bits()
    };
    Slot {
        len: got.len,
        flags,
        ..named
    }
}

/// How many slots the frame at a receive ring's head has, if a transmit ring has as many slots for it,
/// and else 0. `whole` says that it may have one alone.
fn frame_to_go(got: &SlotRing, free: &SlotRing, whole: bool) -> u32
    ensures { result ≡ frame_to_go whole got.now free.now }
{
    let count = got.frame_ahead();
    if count <= free.slots_ahead() && (!whole || count == 1) {
        count
    } else {
        0
    }
}

impl OwnSide {
    /// Forwards up to `count` frames without a copy, from the receive ring of one port to the
    /// transmit ring of another, which may be the same, while a whole frame stands at the receive
    /// ring's head and the transmit ring has as many slots from its head to before its tail; an end of
    /// a pipe takes frames of one slot alone. The slots change the buffers that they name and are
    /// marked as changed, the transmit slots take the lengths and say whether the frame goes on, and
    /// head and cur of both rings go on past it.
    pub fn forward(&mut self, from: PortId, to: PortId, count: u32)
        ensures { self.new
            ≡ record self.old {
              own = with_forwarded count from.0 to.0 self.old.own;
            } }
    {
        let whole = self.is_whole(to);
        for _ in 0..count {
            if !self.forward_frame(from, to, whole) {
                return;
            }
        }
    }

    /// Whether each slot of a port is a frame, as at an end of a pipe.
    fn is_whole(&self, port: PortId) -> bool
        ensures { result ≡ is_whole_at self.now.own port.0 }
    {
        match port_at(&self.ports, port) {
            Some(own) => own.name.is_pipe(),
            None => false,
        }
    }

    /// Forwards one frame, if there is one that may go.
    fn forward_frame(&mut self, from: PortId, to: PortId, whole: bool) -> bool
        ensures moved { result ≡ nat_lt 0 (slots_to_go_at whole from.0 to.0 self.old.own) }
        ensures after { self.new
            ≡ record self.old {
              own = with_slots_forwarded (slots_to_go_at whole from.0 to.0 self.old.own)
                  from.0 to.0 self.old.own;
            } }
    {
        let count = self.slots_to_go(from, to, whole);
        for _ in 0..count {
            self.forward_slot(from, to);
        }
        count > 0
    }

    /// How many slots the frame at the head of a port's receive ring has, if it may go to the transmit
    /// ring of another, and else 0.
    fn slots_to_go(&self, from: PortId, to: PortId, whole: bool) -> u32
        ensures { result ≡ slots_to_go_at whole from.0 to.0 self.now.own }
    {
        match ring_at(&self.ports, from, Side::Rx) {
            Some(got) => match ring_at(&self.ports, to, Side::Tx) {
                Some(free) => frame_to_go(got, free, whole),
                None => 0,
            },
            None => 0,
        }
    }

    /// Forwards the slot at the head of a port's receive ring to the one at the head of another's
    /// transmit ring, if both rings are there.
    fn forward_slot(&mut self, from: PortId, to: PortId)
        ensures { self.new
            ≡ record self.old {
              own = with_heads_forwarded from.0 to.0 self.old.own (ring_at Rx self.old.own from.0)
                  (ring_at Tx self.old.own to.0);
            } }
    {
        if let Some(got) = self.front_slot(from, Side::Rx) {
            if let Some(free) = self.front_slot(to, Side::Tx) {
                let back = naming(got, free.buf_idx, true);
                self.edit(from, Side::Rx, RingEdit::Forward(back));
                self.edit(to, Side::Tx, RingEdit::Forward(sent(got, free)));
            }
        }
    }
}
