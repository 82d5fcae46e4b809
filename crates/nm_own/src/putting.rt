//! Frames that are put at the head of a transmit ring.
ghost use Rattle.std.specs.Prelude.{◌≡◌, ◌≤◌, ◌<◌, drop, length, take};
ghost use Rattle.nm_types.specs.Limits.{buffer_bytes, most_frame_bytes};
ghost use Rattle.nm_own.specs.Words.{has_room, parts_of, with_frame, with_part, with_parts};
ghost use Rattle.nm_own.specs.Edits.{part_edit};

use crate::edit::RingEdit;
use crate::own::{OwnSide, ring_at};
use nm_frag::slots;
use nm_types::{BUFFER_BYTES, PortId, Side};

/// The first bytes of a long frame, as many as a buffer has, and those behind them.
fn cut(bytes: &[u8]) -> (&[u8], &[u8])
    requires { buffer_bytes < length bytes.now }
    ensures first { result.0.now ≡ take buffer_bytes bytes.now }
    ensures rest { result.1.now ≡ drop buffer_bytes bytes.now }
{
    bytes.split_at(BUFFER_BYTES)
}

/// The edit of a ring at whose head a part of that length is put.
fn part_edit(len: u16, more: bool) -> RingEdit
    ensures { result ≡ part_edit more len }
{
    if more {
        RingEdit::Part(len)
    } else {
        RingEdit::Frame(len)
    }
}

impl OwnSide {
    /// Whether a frame of `len` bytes can be put at the head of a port's transmit ring: its positions
    /// fit, and from its head to before its tail there are as many slots as the frame takes.
    pub fn has_room(&self, port: PortId, len: usize) -> bool
        requires { len ≤ most_frame_bytes }
        ensures { result ≡ has_room self.now.own port.0 len }
    {
        match ring_at(&self.ports, port, Side::Tx) {
            Some(ring) => slots(len) <= ring.slots_ahead(),
            None => false,
        }
    }

    /// Puts a frame at the head of a port's transmit ring, if it has room for it, each part of 2,048
    /// bytes in a slot: writes the bytes over the first ones of the buffer that the slot names, if it
    /// is a named one, sets the slot's length, clears its marks of a former frame, marks it as going
    /// on if a part follows, and moves head and cur to the next position.
    pub fn put_frame(&mut self, port: PortId, bytes: &[u8])
        requires { length bytes.now ≤ most_frame_bytes }
        ensures { self.new ≡ record self.old { own = with_frame port.0 bytes.now self.old.own } }
    {
        if bytes.len() <= BUFFER_BYTES {
            self.put_short(port, bytes);
        } else if self.has_room(port, bytes.len()) {
            self.put_parts(port, bytes);
        }
    }

    /// Puts a frame that fits a buffer, as `put_frame` does.
    fn put_short(&mut self, port: PortId, bytes: &[u8])
        requires { length bytes.now ≤ buffer_bytes }
        ensures { self.new ≡ record self.old { own = with_frame port.0 bytes.now self.old.own } }
    {
        if let Some(slot) = self.head_slot(port, Side::Tx) {
            self.write_front(slot.buf_idx, bytes);
            self.edit(port, Side::Tx, RingEdit::Frame(bytes.len() as u16));
        }
    }

    /// Puts the parts of a frame into the slots from the head of a port's transmit ring on.
    fn put_parts(&mut self, port: PortId, bytes: &[u8])
        ensures { self.new
            ≡ record self.old { own = with_parts port.0 (parts_of bytes.now) self.old.own } }
    {
        let mut rest = bytes;
        while rest.len() > BUFFER_BYTES {
            let (part, behind) = cut(rest);
            self.put_part(port, part, true);
            rest = behind;
        }
        self.put_part(port, rest, false);
    }

    /// Puts a part of a frame into the slot at the head of a port's transmit ring, if it has that
    /// ring. `more` says that others follow it.
    fn put_part(&mut self, port: PortId, part: &[u8], more: bool)
        requires { length part.now ≤ buffer_bytes }
        ensures { self.new
            ≡ record self.old { own = with_part port.0 more part.now self.old.own } }
    {
        if let Some(slot) = self.front_slot(port, Side::Tx) {
            self.write_front(slot.buf_idx, part);
            self.edit(port, Side::Tx, part_edit(part.len() as u16, more));
        }
    }
}
