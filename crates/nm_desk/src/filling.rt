//! Leases are filled with the frames of a batch. `vale_fabric` fills those of its sessions alike.
ghost use Rattle.std.specs.Prelude.{ℕ, ◌≡◌, ◌≤◌, [], ◌∷◌, ◌++◌, length};
ghost use Rattle.nm_types.specs.Limits.{most_frame_bytes};
ghost use Rattle.nm_types.specs.Parts.{slots_of_length};
ghost use Rattle.nm_types.specs.Sendable.{AreFrames};
ghost use Rattle.nm_port.specs.Regions.{AreOf};
ghost use Rattle.vale_line.specs.Gots.{buffers_of};
ghost use Rattle.vale_line.specs.Leased.{contents, next_of, with_frame};
ghost use Rattle.vale_own.specs.Recorded.{Recorded};
ghost use Rattle.vale_port.specs.Kept.{bytes_of};
ghost use Rattle.vale_book.specs.Leases.{IsFilledBy, IsHeldFor, IsToFill};
ghost use Rattle.nm_desk.specs.Filling.{IsFilling};

use nm_types::{BUFFER_BYTES, Batch};
use vale_line::Lease;

/// Copies a frame, which has the next size, into the next buffers.
#[tactic(auto, using(crate::proofs::LeaseFilling::filling))]
fn fill_next(lease: &mut Lease, bytes: &[u8])
    requires frame { length bytes.now ≤ most_frame_bytes }
    requires next { slots_of_length (length bytes.now) ≡ next_of lease.old }
    ensures lease { lease.new ≡ with_frame bytes.now lease.old }
    ensures contents { contents lease.new ≡ contents lease.old ++ bytes.now ∷ [] }
{
    if bytes.len() <= BUFFER_BYTES {
        lease.fill_one(bytes);
    } else {
        lease.fill(bytes);
    }
}

/// Fills a lease with frames of a batch.
fn fill_from_batch(lease: &mut Lease, batch: &Batch, places: &[u32])
    requires held { IsToFill lease.old (bytes_of batch.now) places.now }
    requires fit { AreFrames batch.now }
    ensures { IsFilling lease.old (bytes_of batch.now) places.now (length places.now) lease.new }
{
    for i in 0..places.len() {
        fill_next(lease, batch.frame(places[i] as usize));
    }
}

/// Fills a lease with the frames of a batch at these places, in their order: those that its grant
/// gave.
pub fn fill(lease: &mut Lease, batch: &Batch, places: &[u32])
    requires held { IsToFill lease.old (bytes_of batch.now) places.now }
    requires fit { AreFrames batch.now }
    ensures filled { (b : Recorded) (session : ℕ)
        → IsHeldFor b session lease.old (bytes_of batch.now) places.now
        → IsFilledBy b session lease.new }
    ensures id { lease.new.id ≡ lease.old.id }
    ensures sizes { lease.new.sizes ≡ [] }
    ensures empty { lease.new.empty ≡ [] }
    ensures region { (region : ℕ) → AreOf region lease.old.empty
        → AreOf region (buffers_of lease.new.filled) }
{
    fill_from_batch(lease, batch, places);
}
