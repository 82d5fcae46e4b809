ghost use Rattle.std.specs.Prelude.{◌≡◌, ◌<◌, ◌≤◌, IfOk, OnOk, drop, false, length, take, true, []};
ghost use Rattle.nm_port.specs.Words.{FitsRing, has_flag, no_learn};
ghost use Rattle.nm_port.specs.Gathered.{gathered, goes_on_behind, slots_pushed, with_gathered};
ghost use Rattle.nm_port.specs.Sides.{names_pushed};
ghost use Rattle.nm_port.specs.Own.{bytes_in_hold, frames_seen};
ghost use Rattle.nm_port.specs.Offers.{offers_seen, lengths_seen};

use crate::kept::note_first;
use crate::slot_ring::SlotRing;
use crate::slots::goes_on;
use bitflags::Flags;
use nm_hold::Hold;
use nm_types::{BUFFER_BYTES, Batch, NoMemory, Slot, SlotFlags};
use std::alloc::Global;

/// The first bytes of the buffer that a slot names, as many as its frame has.
fn frame_bytes<'a>(hold: &'a Hold, slot: &Slot) -> &'a [u8]
    ensures { result.now ≡ take slot.now.len (bytes_in_hold hold.now slot.now.buf_idx) }
{
    match hold.buffer(slot.buf_idx) {
        Some(buf) => {
            let bytes = buf.bytes();
            &bytes[..bytes.len().min(slot.len as usize)]
        }
        None => &[],
    }
}

/// Whether the switch is not to learn the source of a slot's frame.
pub fn is_not_learned(slot: &Slot) -> bool
    ensures { result ≡ has_flag no_learn slot.now }
{
    SlotFlags::from_bits_retain(slot.flags).contains(SlotFlags::NO_LEARN)
}

/// No frames yet, with room for `count` of them that are as long as the frame of a slot, which is in
/// one buffer.
fn batch_for(alloc: Global, count: u32, slot: &Slot) -> Result<Batch, NoMemory>
    ensures { IfOk result (λ batch. batch ≡ []) }
{
    let mut batch = Batch::new(alloc);
    if count > 0 {
        let len = (slot.len as usize).min(BUFFER_BYTES);
        batch.reserve(count as usize, count as usize * len)?;
    }
    Ok(batch)
}

/// Adds the bytes of a slot: to the last frame, if that goes on, or as a frame that begins there.
#[inline(always)]
#[tactic(auto, using(crate::proofs::Gathering::gathering))]
fn gather_slot(hold: &Hold, slot: &Slot, begun: bool, batch: &mut Batch) -> Result<(), NoMemory>
    requires { begun ≡ true → 0 < length batch.old }
    ensures frames { OnOk result (batch.new
        ≡ with_gathered (bytes_in_hold hold.now) batch.old begun slot.now) }
    ensures some { OnOk result (0 < length batch.new) }
{
    let bytes = frame_bytes(hold, slot);
    if begun {
        batch.extend_last(bytes)
    } else {
        batch.push(bytes, is_not_learned(slot))
    }
}

/// Adds the frames of slots. Returns whether the last of them goes on.
#[inline(never)]
fn gather_parts(
    hold: &Hold,
    slots: &[Slot],
    begun: bool,
    batch: &mut Batch,
) -> Result<bool, NoMemory>
    requires { begun ≡ true → 0 < length batch.old }
    ensures frames { OnOk result (batch.new
        ≡ gathered (bytes_in_hold hold.now) batch.old begun slots.now) }
    ensures begun { IfOk result (λ goes_on. goes_on ≡ goes_on_behind begun slots.now) }
    ensures some { IfOk result (λ goes_on. goes_on ≡ true → 0 < length batch.new) }
{
    let mut open = begun;
    for i in 0..slots.len() {
        gather_slot(hold, &slots[i], open, batch)?;
        open = goes_on(&slots[i]);
    }
    Ok(open)
}

/// Adds the frames of the first slots, up to one whose frame goes on in the next. Returns how many.
fn gather_whole(hold: &Hold, slots: &[Slot], batch: &mut Batch) -> Result<usize, NoMemory>
    ensures few { IfOk result (λ count. count ≤ length slots.now) }
    ensures frames { IfOk result (λ count.
        gathered (bytes_in_hold hold.now) batch.new false (drop count slots.now)
        ≡ gathered (bytes_in_hold hold.now) batch.old false slots.now) }
    ensures begun { IfOk result (λ count.
        goes_on_behind false (drop count slots.now) ≡ goes_on_behind false slots.now) }
{
    for i in 0..slots.len() {
        if goes_on(&slots[i]) {
            return Ok(i);
        }
        batch.push(frame_bytes(hold, &slots[i]), is_not_learned(&slots[i]))?;
    }
    Ok(slots.len())
}

/// Does what `gather_parts` does. Frames in one slot each are added by a loop of their own.
#[inline(never)]
fn gather_slots(
    hold: &Hold,
    slots: &[Slot],
    begun: bool,
    batch: &mut Batch,
) -> Result<bool, NoMemory>
    requires { begun ≡ true → 0 < length batch.old }
    ensures frames { OnOk result (batch.new
        ≡ gathered (bytes_in_hold hold.now) batch.old begun slots.now) }
    ensures begun { IfOk result (λ goes_on. goes_on ≡ goes_on_behind begun slots.now) }
    ensures some { IfOk result (λ goes_on. goes_on ≡ true → 0 < length batch.new) }
{
    if begun {
        return gather_parts(hold, slots, true, batch);
    }
    let whole = gather_whole(hold, slots, batch)?;
    gather_parts(hold, &slots[whole..], false, batch)
}

/// The frames of the pushed slots, all of which end there.
pub fn gather(alloc: Global, hold: &Hold, ring: &SlotRing) -> Result<Batch, NoMemory>
    requires fits { FitsRing ring.now.ring ring.now.ring.head ring.now.ring.cur }
    requires ends { goes_on_behind false (slots_pushed ring.now) ≡ false }
    ensures { IfOk result (λ batch. batch ≡ frames_seen hold.now ring.now) }
{
    let (first, count) = ring.pushed();
    let mut batch = batch_for(alloc, count, &ring.any_slot(first))?;
    let mut begun = false;
    let mut k = 0;
    while k < count {
        let slots = ring.side_by_side(k, count - k);
        begun = gather_slots(hold, slots, begun, &mut batch)?;
        k += slots.len() as u32;
    }
    Ok(batch)
}

/// The indices that the pushed slots name, in their order.
pub fn gather_names(alloc: Global, ring: &SlotRing) -> Result<Vec<u32>, NoMemory>
    requires { FitsRing ring.now.ring ring.now.ring.head ring.now.ring.cur }
    ensures { IfOk result (λ names. names.items ≡ names_pushed ring.now) }
{
    let (_, count) = ring.pushed();
    let mut names = Vec::with_capacity(alloc, count as usize)?;
    note_first(ring, count, &mut names);
    Ok(names)
}

/// The frames that a put offers: those of the slots still pushed, and then of those pushed now.
/// None of them is marked.
pub fn gather_offered(alloc: Global, hold: &Hold, ring: &SlotRing) -> Result<Batch, NoMemory>
    requires { FitsRing ring.now.ring ring.now.ring.head ring.now.ring.cur }
    ensures { IfOk result (λ batch. batch ≡ offers_seen hold.now ring.now) }
{
    let (first, count) = ring.offered();
    let size = ring.ring().size();
    let mut batch = batch_for(alloc, count, &ring.any_slot(first))?;
    for k in 0..count {
        let slot = ring.any_slot((first + k) % size);
        batch.push(frame_bytes(hold, &slot), false)?;
    }
    Ok(batch)
}

/// The lengths of the slots that a put offers.
pub fn gather_lengths(alloc: Global, ring: &SlotRing) -> Result<Vec<u16>, NoMemory>
    requires { FitsRing ring.now.ring ring.now.ring.head ring.now.ring.cur }
    ensures { IfOk result (λ lengths. lengths.items ≡ lengths_seen ring.now) }
{
    let (first, count) = ring.offered();
    let size = ring.ring().size();
    let mut lengths = Vec::with_capacity(alloc, count as usize)?;
    for k in 0..count {
        lengths.push_reserved(ring.any_slot((first + k) % size).len);
    }
    Ok(lengths)
}
