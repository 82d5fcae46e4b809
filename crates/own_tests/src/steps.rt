//! What is done at a port, and what is seen of it, as tables write it.
ghost use Rattle.std.specs.Prelude.{◌≡◌, IsSome, None};
ghost use Rattle.nm_own.specs.Words.{refusal_at, ring_at};

use nm_own::{OwnSide, SlotPlace};
use nm_types::{Batch, MAX_FRAME_BYTES, PortId, Side, Slot, SlotWrite, SyncFault};
use std::alloc::Global;
use std::process::Abort;

pub(crate) const PORT: PortId = PortId(2);

/// A broadcast from 02:00:00:00:00:0a.
pub(crate) const FRAME: [u8; 14] = [255, 255, 255, 255, 255, 255, 2, 0, 0, 0, 0, 10, 136, 181];

/// Its bytes, as tables name them, and the first seven of them.
pub(crate) const WHOLE: &[u8] = &FRAME;

pub(crate) const SHORT: &[u8] = &[255, 255, 255, 255, 255, 255, 2];

/// What is done at the port. Slots are transmit slots where no side is told.
#[derive(Clone, Copy)]
pub(crate) enum Step {
    /// A frame is put.
    Put(&'static [u8]),
    /// A field of a slot is written.
    Write(u32, SlotWrite),
    /// Head and cur of a ring are stored.
    Move(Side, u32, u32),
    /// Two slots come to name each other's buffers, with marks or without.
    Swap(u32, u32, bool),
    /// The transmit ring is reset.
    Reset,
    /// What is pushed is sent, which no check refuses.
    Send,
    /// All frames of the receive ring go back.
    GiveAllBack,
    /// Up to nine frames go on to the transmit ring.
    Forward,
    /// An extra position is linked to another one.
    Link(u32, u32),
    /// The head of the list of extra buffers is stored.
    Head(u32),
    /// The first bytes of a buffer are written, if the user may name it.
    Front(u32, [u8; 2]),
    /// This is seen.
    Sees(Look),
}

/// What is seen of the port, and of its session's buffers.
#[derive(Clone, Copy)]
pub(crate) enum Look {
    /// What refuses a sync of a ring, if something does.
    Refused(Side, Option<SyncFault>),
    /// A slot that is the user's: its buffer, its length and its flags.
    Slot(Side, u32, u32, u16, u16),
    /// Whether a slot is the user's.
    Users(Side, u32, bool),
    /// Whether there is room for a frame of so many bytes.
    Room(usize, bool),
    /// The one frame that is pushed, which no check refuses.
    Pushed(&'static [u8]),
    /// The frames that a put offers, which no check refuses.
    Offered(&'static [&'static [u8]]),
    /// How many buffers a receive sync gives back, which no check refuses.
    Back(usize),
    /// Whether a receive slot is left for a part of a frame.
    Receives(bool),
    /// The head of the list of extra buffers.
    Head(u32),
    /// The buffer in an extra position, counted from 1.
    Numbered(u32, Option<u32>),
    /// The first bytes of a buffer that the user may name.
    Starts(u32, &'static [u8]),
    /// Whether the user may name a buffer.
    Named(u32, bool),
    /// Whether a buffer is none of the session's.
    New(u32, bool),
}

pub(crate) fn place(side: Side, at: u32) -> SlotPlace {
    SlotPlace {
        port: PORT,
        side,
        at,
    }
}

/// Whether a slot is the user's, and names a buffer with a frame of that length.
fn is_slot(own: &OwnSide, side: Side, at: u32, buf_idx: u32, len: u16, flags: u16) -> bool {
    let wanted = Slot {
        buf_idx,
        len,
        flags,
        ptr: 0,
    };
    match own.slot(PORT, side, at) {
        Some(slot) => *slot == wanted,
        None => false,
    }
}

/// Whether the user may name a buffer, which begins with these bytes.
fn starts_with(own: &OwnSide, idx: u32, bytes: &[u8]) -> bool {
    match own.bytes(idx) {
        Some(all) => all.starts_with(bytes),
        None => false,
    }
}

/// What refuses a sync of the port's ring.
fn refusal(rt: &impl Abort, own: &mut OwnSide, side: Side) -> Option<SyncFault> {
    assert!(rt; own.ring(PORT, side).is_some());
    own.check(PORT, side).err()
}

/// A push on a side of the port that no check refuses.
pub(crate) fn check_push(rt: &impl Abort, own: &mut OwnSide, side: Side)
    ensures own { own.new ≡ own.old }
    ensures ring { IsSome (ring_at side own.old.own PORT.0) }
    ensures passes { refusal_at side PORT.0 own.old.own ≡ None }
{
    assert!(rt; own.ring(PORT, side).is_some());
    if let Err(fault) = own.check(PORT, side) {
        panic!(rt; "{fault:?}");
    }
}

/// Whether a batch has these frames.
fn has_frames(batch: &Batch, frames: &[&[u8]]) -> bool {
    if batch.len() != frames.len() {
        return false;
    }
    for at in 0..frames.len() {
        if batch.frame(at) != frames[at] {
            return false;
        }
    }
    true
}

/// Whether one frame alone is pushed, with these bytes.
fn is_pushed(rt: &impl Abort, own: &mut OwnSide, alloc: Global, bytes: &[u8]) -> bool {
    check_push(rt, own, Side::Tx);
    match own.frames(alloc, PORT) {
        Ok(batch) => has_frames(&batch, &[bytes]),
        Err(_) => false,
    }
}

/// Whether a put offers these frames.
fn are_offered(rt: &impl Abort, own: &mut OwnSide, alloc: Global, frames: &[&[u8]]) -> bool {
    check_push(rt, own, Side::Tx);
    match own.offers(alloc, PORT) {
        Ok(batch) => has_frames(&batch, frames),
        Err(_) => false,
    }
}

/// Whether a receive sync gives so many buffers back.
fn gives_back(rt: &impl Abort, own: &mut OwnSide, alloc: Global, count: usize) -> bool {
    check_push(rt, own, Side::Rx);
    match own.back(alloc, PORT) {
        Ok(names) => names.len() == count,
        Err(_) => false,
    }
}

/// Whether the port is seen so.
fn is_so(rt: &impl Abort, own: &mut OwnSide, alloc: Global, look: &Look) -> bool {
    match look {
        Look::Refused(side, fault) => refusal(rt, own, *side) == *fault,
        Look::Slot(side, at, idx, len, flags) => is_slot(own, *side, *at, *idx, *len, *flags),
        Look::Users(side, at, is) => own.slot(PORT, *side, *at).is_some() == *is,
        Look::Room(len, is) => *len <= MAX_FRAME_BYTES && own.has_room(PORT, *len) == *is,
        Look::Pushed(bytes) => is_pushed(rt, own, alloc, bytes),
        Look::Offered(frames) => are_offered(rt, own, alloc, frames),
        Look::Back(count) => gives_back(rt, own, alloc, *count),
        Look::Receives(is) => own.can_receive(PORT) == *is,
        Look::Head(idx) => own.extra_head(PORT) == Some(*idx),
        Look::Numbered(number, idx) => own.extra_numbered(PORT, *number) == *idx,
        Look::Starts(idx, bytes) => starts_with(own, *idx, bytes),
        Look::Named(idx, is) => own.bytes(*idx).is_some() == *is,
        Look::New(idx, is) => own.is_new(*idx) == *is,
    }
}

/// All this is seen.
pub(crate) fn see(rt: &impl Abort, own: &mut OwnSide, alloc: Global, looks: &[Look]) {
    for (at, look) in looks.iter().enumerate() {
        assert!(rt; is_so(rt, own, alloc, look), "look {at}");
    }
}

/// Puts a frame.
fn put(rt: &impl Abort, own: &mut OwnSide, frame: &[u8]) {
    assert!(rt; frame.len() <= MAX_FRAME_BYTES);
    own.put_frame(PORT, frame);
}

/// Sends what is pushed, which no check refuses.
fn send(rt: &impl Abort, own: &mut OwnSide) {
    check_push(rt, own, Side::Tx);
    own.sent(PORT);
}

/// Takes a step. Tells whether what it sees is so.
fn is_made(rt: &impl Abort, own: &mut OwnSide, alloc: Global, step: &Step) -> bool {
    match step {
        Step::Put(frame) => put(rt, own, frame),
        Step::Write(at, write) => own.write_slot(PORT, Side::Tx, *at, *write),
        Step::Move(side, head, cur) => own.put_positions(PORT, *side, *head, *cur),
        Step::Swap(here, there, marks) => {
            own.swap_slots(place(Side::Tx, *here), place(Side::Tx, *there), *marks)
        }
        Step::Reset => own.reset(PORT, Side::Tx),
        Step::Send => send(rt, own),
        Step::GiveAllBack => own.give_all_back(PORT),
        Step::Forward => own.forward(PORT, PORT, 9),
        Step::Link(from, to) => own.link_extra(PORT, *from, *to),
        Step::Head(idx) => own.set_extra_head(PORT, *idx),
        Step::Front(idx, bytes) => own.write_front(*idx, bytes),
        Step::Sees(look) => return is_so(rt, own, alloc, look),
    }
    true
}

/// Takes steps. Answers the first one that does not see what it says.
pub(crate) fn astray(
    rt: &impl Abort,
    own: &mut OwnSide,
    alloc: Global,
    steps: &[Step],
) -> Option<usize> {
    for (at, step) in steps.iter().enumerate() {
        if !is_made(rt, own, alloc, step) {
            return Some(at);
        }
    }
    None
}

/// Takes steps, each of which sees what it says.
pub(crate) fn play(rt: &impl Abort, own: &mut OwnSide, alloc: Global, steps: &[Step]) {
    if let Some(at) = astray(rt, own, alloc, steps) {
        panic!(rt; "step {at}");
    }
}
