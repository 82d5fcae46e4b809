//! Leases are filled, outside the turn.
ghost use Rattle.std.specs.Prelude.{ℕ, ◌≡◌, ◌≤◌, ◌<◌, ◌+◌, [], ◌∷◌, ◌++◌, length};
ghost use Rattle.nm_types.specs.Limits.{most_frame_bytes};
ghost use Rattle.vale_fabric.specs.Words.{AreOf, IsCut, Recorded, buffers_of, bytes_of, contents};
ghost use Rattle.vale_fabric.specs.Words.{AreFrames, frames_in, next_of, slots_of_length};
ghost use Rattle.vale_fabric.specs.Words.{with_frame};
ghost use Rattle.vale_fabric.specs.Filling.{AreFitting, Begins, IsFilling, bytes_from};
ghost use Rattle.vale_book.specs.Leases.{IsFilledBy, IsHeldFor, IsToFill};

use nm_types::{BUFFER_BYTES, Batch};
use vale_line::{Got, Lease};

/// Frames with which leases are filled.
#[derive(Clone, Copy)]
pub enum Frames<'a> {
    /// Those of a batch.
    Batch(&'a Batch),
    /// Those in received buffers, part by part.
    Gots(&'a [Got]),
}

/// A frame among those in received buffers, and the buffer in which it begins.
#[derive(Clone, Copy)]
struct Cursor {
    frame: usize,
    at: usize,
}

/// Copies a frame, which has the next size, into the next buffers.
#[tactic(auto, using(crate::proofs::LeaseFilling::filling))]
fn fill_next(lease: &mut Lease, bytes: &[u8])
    requires frame { length bytes.now ≤ most_frame_bytes }
    requires next { slots_of_length (length bytes.now) ≡ next_of lease.old }
    ensures lease { lease.new ≡ with_frame bytes.now lease.old }
    ensures contents { contents lease.new ≡ contents lease.old ++ bytes.now ∷ [] }
{
    if bytes.len() <= BUFFER_BYTES {
        lease.fill_one(bytes);
    } else {
        lease.fill(bytes);
    }
}

/// Fills a lease with frames of a batch.
fn fill_from_batch(lease: &mut Lease, batch: &Batch, places: &[u32])
    requires held { IsToFill lease.old (bytes_of batch.now) places.now }
    requires fit { AreFrames batch.now }
    ensures { IsFilling lease.old (bytes_of batch.now) places.now (length places.now) lease.new }
{
    for i in 0..places.len() {
        fill_next(lease, batch.frame(places[i] as usize));
    }
}

/// Finds the buffer in which the frame at a place begins: behind the frame that was found before,
/// or else from the first one on.
fn find(gots: &[Got], from: Cursor, place: usize) -> Cursor
    requires cut { IsCut gots.now }
    requires from { Begins gots.now from.frame from.at }
    requires there { place < length (frames_in gots.now) }
    ensures frame { result.frame ≡ place }
    ensures begins { Begins gots.now place result.at }
{
    let mut cursor = if place < from.frame {
        Cursor { frame: 0, at: 0 }
    } else {
        from
    };
    while cursor.frame < place {
        cursor.at += usize::from(gots[cursor.at].rest) + 1;
        cursor.frame += 1;
    }
    cursor
}

/// Fills a lease with frames in received buffers.
fn fill_from_gots(lease: &mut Lease, gots: &[Got], places: &[u32])
    requires held { IsToFill lease.old (frames_in gots.now) places.now }
    requires cut { IsCut gots.now }
    ensures { IsFilling lease.old (frames_in gots.now) places.now (length places.now) lease.new }
{
    let mut next = Cursor { frame: 0, at: 0 };
    for i in 0..places.len() {
        let here = find(gots, next, places[i] as usize);
        let end = here.at + lease.next() as usize;
        lease.fill_from(&gots[here.at..end]);
        next = Cursor {
            frame: here.frame + 1,
            at: end,
        };
    }
}

/// Fills a lease with the frames at these places, in their order.
pub fn fill(lease: &mut Lease, frames: Frames, places: &[u32])
    requires held { IsToFill lease.old (bytes_from frames) places.now }
    requires fit { AreFitting frames }
    ensures filled { (b : Recorded) (session : ℕ)
        → IsHeldFor b session lease.old (bytes_from frames.entry) places.now
        → IsFilledBy b session lease.new }
    ensures id { lease.new.id ≡ lease.old.id }
    ensures sizes { lease.new.sizes ≡ [] }
    ensures empty { lease.new.empty ≡ [] }
    ensures region { (region : ℕ) → AreOf region lease.old.empty
        → AreOf region (buffers_of lease.new.filled) }
{
    match frames {
        Frames::Batch(batch) => fill_from_batch(lease, batch, places),
        Frames::Gots(gots) => fill_from_gots(lease, gots, places),
    }
}
