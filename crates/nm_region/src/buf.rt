ghost use Rattle.std.specs.Prelude.{◌≡◌, ◌≢◌, ◌≤◌, [], length, take};
ghost use Rattle.std.specs.Borrow.{sem};
ghost use denote.RawPtr.{block_of};
ghost use Rattle.nm_types.specs.Buffers.{cleared, cleared_but};
ghost use Rattle.nm_region.specs.Marked.{written_front, with_front, cleared_between, AreWritten, place_of};

use crate::part::Part;
use nm_types::BUFFER_BYTES;
use std::marker::Model;

/// What a buffer is seen as while nothing was written there.
const ZEROS: [u8; BUFFER_BYTES] = [0; BUFFER_BYTES];

/// A buffer of a region: 2048 bytes that hold a frame or a part of one, as in netmap(4). It cannot
/// be dropped: it goes back to its region. It may be sent to another thread.
pub struct Buf {
    /// Lies in the region's block, by which regions are told apart.
    part: Part,
    index: u32,
    /// All bytes from here on are zero.
    used: u16,
    /// Until the first write all bytes count as zero, none is used, and the memory is not touched.
    is_written: bool,
}

impl Model for Buf {
    ghost use Rattle.std.specs.Prelude.{◌≡◌};
    ghost use Rattle.nm_types.specs.Buffers.{cleared_but};
    ghost use Rattle.nm_region.specs.Buffers.{Buffer, region_of};

    ghost Value = { Buffer };

    ghost view = { λ b. record {
      region = region_of b.part.at;
      index = b.index;
      bytes = cleared_but b.part.items;
    } };

    ghost use Rattle.nm_region.specs.Marked.{IsKept};

    ghost invariant = { λ b. IsKept b.used b.index b.is_written b.part.items b.part.at };
}

/// Has all bytes of a part in memory.
fn fill(part: &mut Part, is_written: bool)
    requires { AreWritten is_written part.old.items }
    ensures bytes { part.new.items ≡ cleared_but part.old.items }
    ensures size { length part.new.items ≡ 2048 }
    ensures place { part.new.at ≡ part.old.at }
{
    if !is_written {
        part.clear();
    }
}

/// Writes `bytes` over the first ones of `room`.
fn put_front(room: &mut [u8], bytes: &[u8])
    requires { length bytes.now ≤ length room.old }
    ensures { room.new ≡ written_front bytes.now room.old }
{
    room[..bytes.len()].copy_from_slice(bytes);
}

/// Clears the bytes from `from` up to before `to`.
fn clear_between(bytes: &mut [u8], from: usize, to: usize)
    requires order { from ≤ to }
    requires within { to ≤ length bytes.old }
    ensures { bytes.new ≡ cleared_between from to bytes.old }
{
    bytes[from..to].fill(0);
}

/// Tells that two parts do not begin at one place, since each owns its memory.
fn lie_apart(a: &mut Part, b: &mut Part)
    requires { (length a.old.items ≤ 2048) × (length b.old.items ≤ 2048) }
    ensures apart { a.old.at ≢ b.old.at }
    ensures kept { (a.new ≡ a.old) × (b.new ≡ b.old) }
{}

/// Tells that two buffers of one region have different indices, without a look at them: each owns a
/// part of the region's block, and no byte has two owners. When it runs it does nothing.
pub fn distinct(a: &mut Buf, b: &mut Buf)
    ensures apart { a.old.region ≡ b.old.region → a.old.index ≢ b.old.index }
    ensures kept { (a.new ≡ a.old) × (b.new ≡ b.old) }
{
    lie_apart(&mut a.part, &mut b.part);
}

impl Buf {
    ghost use Rattle.nm_region.specs.Lending.{LendsBytes};

    /// The buffer of a part of which nothing is written: its bytes are all zero.
    pub(crate) fn new(part: Part, index: u32) -> Buf
        requires none { part.items ≡ [] }
        requires place { part.at ≡ place_of (block_of part.at) index }
        ensures { result ≡ record {
          region = block_of part.at;
          index = index;
          bytes = cleared;
        } }
    {
        Buf {
            part,
            index,
            used: 0,
            is_written: false,
        }
    }

    /// The buffer's part and its index.
    pub(crate) fn into_part(self) -> (Part, u32)
        ensures size { length result.0.items ≤ 2048 }
        ensures place { result.0.at ≡ place_of self.region self.index }
        ensures index { result.1 ≡ self.index }
    {
        let Buf {
            part,
            index,
            used: _,
            is_written: _,
        } = self;
        (part, index)
    }

    /// The buffer's index: 2 or more.
    pub fn index(&self) -> u32
        ensures { result ≡ self.now.index }
    {
        self.index
    }

    /// The buffer's 2048 bytes.
    pub fn bytes(&self) -> &[u8]
        ensures bytes { result.now ≡ self.now.bytes }
        ensures size { length result.now ≡ 2048 }
    {
        if self.is_written {
            self.part.bytes()
        } else {
            &ZEROS
        }
    }

    /// Lends the buffer's 2048 bytes for writing. The next `clear_behind` then takes all bytes for
    /// written; a frame is better put by `write`.
    pub fn bytes_mut(&mut self) -> &mut [u8]
        ensures* writes_back { sem 𝓛 (LendsBytes self.entry result) }
        ensures bytes { result.now ≡ self.old.bytes }
        ensures size { length result.now ≡ 2048 }
    {
        self.used = BUFFER_BYTES as u16;
        fill(&mut self.part, self.is_written);
        self.is_written = true;
        self.part.bytes_mut()
    }

    /// Writes the zeros of a buffer of which nothing is written, and tells whether it did: its first
    /// write then takes no longer than a later one. The bytes stay what they are.
    pub fn prepare(&mut self) -> bool
        ensures kept { self.new ≡ self.old }
    {
        let is_fresh = !self.is_written;
        fill(&mut self.part, self.is_written);
        self.is_written = true;
        is_fresh
    }

    /// Writes `bytes` over the first ones of the buffer.
    #[tactic(auto, using(crate::proofs::Marks::marks))]
    pub fn write(&mut self, bytes: &[u8])
        requires { length bytes.now ≤ 2048 }
        ensures { self.new ≡ with_front bytes.now self.old }
    {
        fill(&mut self.part, self.is_written);
        self.is_written = true;
        put_front(self.part.bytes_mut(), bytes);
        self.used = self.used.max(bytes.len() as u16);
    }

    /// Clears all bytes but the first `len`. Costs no more than what was written since the last
    /// time.
    pub fn clear_behind(&mut self, len: usize)
        requires { len ≤ 2048 }
        ensures { self.new ≡ record self.old { bytes = cleared_but (take len self.old.bytes) } }
    {
        if len < self.used as usize {
            clear_between(self.part.bytes_mut(), len, self.used as usize);
            self.used = len as u16;
        }
    }
}
