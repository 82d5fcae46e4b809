//! The frames that a receive sync brought, read from the ring and joined of their parts.
ghost use Rattle.std.specs.Prelude.{◌≡◌, ◌<◌, length, take, true, IfOk, OnOk};
ghost use Rattle.std.specs.Prelude.{ℕ, List};
ghost use Rattle.nm_user.specs.Words.{goes_on, with_gathered};
ghost use Rattle.nm_user.specs.Saving.{count_to_tail, frames_from, readable_bytes, slot_or_blank_at};

use crate::session::Session;
use nm_port::gather::is_not_learned;
use nm_port::goes_on;
use nm_ring::Ring;
use nm_types::{Batch, NoMemory, PortId, Side, Slot};

/// A slot that names no buffer.
const BLANK: Slot = Slot {
    buf_idx: 0,
    len: 0,
    flags: 0,
    ptr: 0,
};

/// How many slots there are from a position on to before a ring's tail, going round; 0 if it is no
/// position of the ring.
fn count_to_tail(ring: &Ring, at: u32) -> u32
    ensures { result ≡ count_to_tail at ring.now }
{
    let (size, tail) = (ring.size(), ring.tail());
    if at < size {
        (tail + size - at) % size
    } else {
        0
    }
}

/// The first of these bytes, as many as a slot's length says.
fn part_in<'a>(bytes: &'a [u8], slot: &Slot) -> &'a [u8]
    ensures { result.now ≡ take slot.now.len bytes.now }
{
    &bytes[..bytes.len().min(slot.len as usize)]
}

/// Adds the bytes of a slot: to the last frame, if that goes on, or as a frame that begins there.
#[tactic(auto, using(nm_port::proofs::Gathering::gathering))]
fn add_bytes(bytes: &[u8], slot: &Slot, begun: bool, frames: &mut Batch) -> Result<(), NoMemory>
    requires { begun ≡ true → 0 < length frames.old }
    ensures frames { (bytes_of : ℕ → List ℕ)
        → bytes.now ≡ take slot.now.len (bytes_of slot.now.buf_idx)
        → OnOk result (frames.new ≡ with_gathered bytes_of frames.old begun slot.now) }
    ensures some { OnOk result (0 < length frames.new) }
{
    if begun {
        frames.extend_last(bytes)
    } else {
        frames.push(bytes, is_not_learned(slot))
    }
}

impl<'f> Session<'f> {
    /// The user's slot at a position of a port's receive ring, a blank one if there is none.
    fn slot_or_blank(&self, port: PortId, at: u32) -> Slot
        ensures { result ≡ slot_or_blank_at self.now.own port.0 at }
    {
        match self.slot(port, Side::Rx, at) {
            Some(slot) => *slot,
            None => BLANK,
        }
    }

    /// The first bytes of the buffer that a slot names, as many as its length says; none if the user
    /// may not name it.
    fn part_of_slot(&self, slot: &Slot) -> &[u8]
        ensures { result.now ≡ take slot.now.len (readable_bytes self.now.own slot.now.buf_idx) }
    {
        match self.bytes(slot.buf_idx) {
            Some(bytes) => part_in(bytes, slot),
            None => &[],
        }
    }

    /// Adds the part in a slot: to the last frame, if that goes on, or as a frame that begins there.
    /// Returns whether the frame goes on in the next slot.
    fn add_part(
        &self,
        port: PortId,
        at: u32,
        begun: bool,
        frames: &mut Batch,
    ) -> Result<bool, NoMemory>
        requires { begun ≡ true → 0 < length frames.old }
        ensures frames { OnOk result (frames.new ≡ with_gathered (readable_bytes self.now.own)
            frames.old begun (slot_or_blank_at self.now.own port.0 at)) }
        ensures begun { IfOk result (λ on. on
            ≡ goes_on (slot_or_blank_at self.now.own port.0 at)) }
        ensures some { OnOk result (0 < length frames.new) }
    {
        let slot = self.slot_or_blank(port, at);
        add_bytes(self.part_of_slot(&slot), &slot, begun, frames)?;
        Ok(goes_on(&slot))
    }

    /// A copy of the frames in the slots of a port's receive ring from a position on to before the
    /// tail, in the order of the ring, each joined of its parts: from where the tail stood before a
    /// receive sync on, those that it brought. If the last one does not end before the tail, it has
    /// the bytes that are there.
    pub fn frames_from(&self, port: PortId, at: u32) -> Result<Batch, NoMemory>
        ensures { IfOk result (λ frames. frames ≡ frames_from self.now.own port.0 at) }
    {
        let mut frames = Batch::new(self.alloc);
        let (size, count) = match self.ring(port, Side::Rx) {
            Some(ring) => (ring.size(), count_to_tail(ring, at)),
            None => return Ok(frames),
        };
        let mut begun = false;
        for k in 0..count {
            begun = self.add_part(port, (at + k) % size, begun, &mut frames)?;
        }
        Ok(frames)
    }
}
