//! A part of a block: 2048 bytes where they lie.
ghost use Rattle.std.specs.Prelude.{◌≡◌, ℕ, List, [], length};
ghost use Rattle.std.specs.Borrow.{sem, u8};
ghost use Rattle.std.specs.Vec.{vec_capacity, vec_ptr};
ghost use Rattle.std_alloc.specs.Vec.Ownership.{lodged, vec_shares};
ghost use Rattle.nm_types.specs.Buffers.{cleared};

use nm_types::BUFFER_BYTES;
use std::marker::Model;
use std::slice;
use std_alloc::vec::{Lodged, lodge};

/// A part of a block, which nothing else reaches. Proofs know what is written there: nothing, or
/// all bytes.
pub(crate) struct Part {
    pub(crate) at: *mut u8,
    pub ghost items: { List ℕ },
}

impl Model for Part {
    ghost also_owns = { λ p. lodged u8 p.at (length p.items) 2048 p.items };

    ghost also_shares = { λ p _ κ. vec_shares u8 p.at (length p.items) 2048 p.items κ };
}

/// It is memory that nothing else reaches.
unsafe impl Send for Part {}

/// Behind a `&` it is bytes that are read.
unsafe impl Sync for Part {}

/// Writes zeros to a part that has none of its bytes.
fn zeroed(mut part: Vec<u8, Lodged>) -> Vec<u8, Lodged>
    requires { (part.items ≡ []) × (vec_capacity part ≡ 2048) }
    ensures { (result.items ≡ cleared)
        × (vec_capacity result ≡ 2048)
        × (vec_ptr result ≡ vec_ptr part) }
{
    for _ in 0..BUFFER_BYTES {
        part.push_reserved(0);
    }
    part
}

impl Part {
    ghost use Rattle.nm_region.specs.LendingPart.{LendsItems};

    /// Writes zeros to a part of which nothing is written.
    pub(crate) fn clear(&mut self)
        requires { self.old.items ≡ [] }
        ensures { (self.new.at ≡ self.old.at) × (self.new.items ≡ cleared) }
    {
        let part = unsafe { lodge(self.at, 0, BUFFER_BYTES) };
        let _len = zeroed(part).dislodge();
    }

    /// The bytes of a part that is written.
    pub(crate) fn bytes(&self) -> &[u8]
        requires { length self.now.items ≡ 2048 }
        ensures { result.now ≡ self.now.items }
    {
        unsafe { slice::from_raw_parts(self.at, BUFFER_BYTES) }
    }

    /// Lends the bytes of a part that is written.
    pub(crate) fn bytes_mut(&mut self) -> &mut [u8]
        requires { length self.old.items ≡ 2048 }
        ensures* writes_back { sem 𝓛 (LendsItems self.entry result) }
        ensures value { result.now ≡ self.old.items }
    {
        unsafe { slice::from_raw_parts_mut(self.at, BUFFER_BYTES) }
    }
}
