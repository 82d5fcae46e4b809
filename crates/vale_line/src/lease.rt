ghost use Rattle.std.specs.Prelude.{ℕ, ◌≡◌, ◌≤◌, ◌<◌, ◌+◌, [], ◌∷◌, ◌++◌, All, length, map, replicate, take, drop, sum, true, false, IfOk, vec_capacity};
ghost use Rattle.nm_types.specs.Limits.{buffer_bytes, most_frame_bytes, most_ring};
ghost use Rattle.nm_frag.specs.Parts.{slots_of_length, parts_of, cut_frame};
ghost use Rattle.vale_line.specs.Fitting.{IsFrameSize};
ghost use Rattle.vale_line.specs.Gots.{blank, buffers_of, written_parts, copied_parts, held_parts, joined_parts, IsCut};
ghost use Rattle.vale_line.specs.Stored.{lease_state, IsStoredLease};
ghost use Rattle.vale_line.specs.Leased.{Leased, contents, count_of, buffer_count, is_next, next_of, sizes_in, with_frame};

use crate::got::Got;
use nm_frag::{MAX_FRAME_BYTES, Sizes, Told, slots};
use nm_types::{BUFFER_BYTES, LeaseId, NoMemory, PortId};
use std::alloc::Global;
use std::marker::Model;

/// Memory for a lease of some buffers.
pub struct LeaseRoom {
    slots: u32,
    gots: Vec<Got>,
}

impl Model for LeaseRoom {
    ghost Value = { ℕ };

    ghost view = { λ r. r.slots };

    ghost invariant = { λ r. (r.gots.items ≡ []) × (r.slots ≤ vec_capacity r.gots) };
}

impl LeaseRoom {
    /// Makes room for a lease of `n` buffers.
    pub fn new(alloc: Global, n: u32) -> Result<LeaseRoom, NoMemory>
        ensures { IfOk result (λ room. room ≡ n) }
    {
        Ok(LeaseRoom {
            slots: n,
            gots: Vec::with_capacity(alloc, n as usize)?,
        })
    }

    pub(crate) fn into_vec(self) -> Vec<Got>
        ensures none { result.items ≡ [] }
        ensures room { self ≤ vec_capacity result }
    {
        let LeaseRoom { slots: _, gots } = self;
        gots
    }
}

impl Drop for LeaseRoom {
    fn drop(self) {
        self.into_vec().destroy_empty();
    }
}

/// Has the first buffer of each frame tell how many more the frame takes.
fn mark_sizes(gots: &mut Vec<Got>, sizes: &[u32])
    requires sizes { All IsFrameSize sizes.now }
    requires room { sum sizes.now ≡ length gots.old.items }
    ensures buffers { buffers_of gots.new.items ≡ buffers_of gots.old.items }
    ensures sizes { sizes_in gots.new.items ≡ sizes.now }
{
    let mut at = 0;
    for i in 0..sizes.len() {
        let size = sizes[i];
        gots[at].rest = (size - 1) as u8;
        at += size as usize;
    }
}

/// The same of buffers with no frames, which tell of none more: nothing is written where each frame
/// takes one.
#[tactic(auto, using(crate::proofs::Filling::marks))]
fn mark_blank(gots: &mut Vec<Got>, sizes: &[u32])
    requires sizes { All IsFrameSize sizes.now }
    requires room { sum sizes.now ≡ length gots.old.items }
    requires blank { gots.old.items ≡ map blank (buffers_of gots.old.items) }
    ensures buffers { buffers_of gots.new.items ≡ buffers_of gots.old.items }
    ensures sizes { sizes_in gots.new.items ≡ sizes.now }
{
    if sizes.len() < gots.len() {
        mark_sizes(gots, sizes);
    }
}

/// The number of buffers with no frames, which tell of as many frames of one slot each.
#[tactic(auto, using(crate::proofs::Filling::blanks))]
fn count_blank(gots: &[Got]) -> u32
    requires few { length gots.now ≤ most_ring }
    requires blank { gots.now ≡ map blank (buffers_of gots.now) }
    ensures count { result ≡ length gots.now }
    ensures sizes { sizes_in gots.now ≡ replicate (length gots.now) 1 }
{
    gots.len() as u32
}

/// Copies a frame of one part into the buffer at `at`.
fn fill_first(gots: &mut Vec<Got>, at: usize, bytes: &[u8])
    requires frame { length bytes.now ≤ buffer_bytes }
    requires room { at < length gots.old.items }
    ensures { gots.new.items ≡ take at gots.old.items
        ++ written_parts (parts_of bytes.now) (drop at gots.old.items) }
{
    gots[at].fill(bytes, 0);
}

/// Copies a frame into the buffers from `at` on, a full part in each but the last.
fn fill_parts(gots: &mut Vec<Got>, at: usize, bytes: &[u8])
    requires frame { length bytes.now ≤ most_frame_bytes }
    requires room { at + slots_of_length (length bytes.now) ≤ length gots.old.items }
    ensures { gots.new.items ≡ take at gots.old.items
        ++ written_parts (parts_of bytes.now) (drop at gots.old.items) }
{
    if bytes.len() <= BUFFER_BYTES {
        fill_first(gots, at, bytes);
        return;
    }
    let count = slots(bytes.len());
    let mut rest = bytes;
    for k in 0..count {
        let (part, behind) = rest.split_at(rest.len().min(BUFFER_BYTES));
        gots[at + k as usize].fill(part, (count - 1 - k) as u8);
        rest = behind;
    }
}

/// Copies the parts in some buffers into those from `at` on.
fn copy_parts(gots: &mut Vec<Got>, at: usize, from: &[Got])
    requires { at + length from.now ≤ length gots.old.items }
    ensures { gots.new.items ≡ take at gots.old.items
        ++ copied_parts (held_parts from.now) (drop at gots.old.items) }
{
    for k in 0..from.len() {
        let got = &from[k];
        gots[at + k].fill(got.part(), got.rest);
    }
}

/// Buffers of a receive ring that a sender fills with frames, while other senders fill theirs. It
/// cannot be dropped: it goes back to its line once it is full.
pub struct Lease {
    id: LeaseId,
    to: PortId,
    gots: Vec<Got>,
    filled: usize,
    /// How many frames it is for, and how many are filled in.
    count: u32,
    frames: u32,
}

impl Model for Lease {
    ghost Value = { Leased };

    ghost view = { lease_state };

    ghost invariant = { IsStoredLease };
}

impl Lease {
    /// A lease of these buffers, none of which has a frame, for as many frames of one slot each.
    #[tactic(auto, using(crate::proofs::Filling::ones))]
    fn of_ones(id: LeaseId, to: PortId, gots: Vec<Got>) -> Lease
        requires few { length gots.items ≤ most_ring }
        requires blank { gots.items ≡ map blank (buffers_of gots.items) }
        ensures { result ≡ record {
          id = id.0;
          to = to.0;
          filled = [];
          sizes = replicate (length gots.items) 1;
          empty = buffers_of gots.items;
        } }
    {
        let count = count_blank(&gots);
        Lease {
            id,
            to,
            gots,
            filled: 0,
            count,
            frames: 0,
        }
    }

    /// A lease of these buffers, none of which has a frame, for frames of these sizes in slots.
    #[tactic(auto, using(crate::proofs::Filling::filling))]
    fn of_each(id: LeaseId, to: PortId, mut gots: Vec<Got>, sizes: &[u32]) -> Lease
        requires few { length gots.items ≤ most_ring }
        requires few_frames { length sizes.now ≤ most_ring }
        requires blank { gots.items ≡ map blank (buffers_of gots.items) }
        requires sizes { All IsFrameSize sizes.now }
        requires room { sum sizes.now ≡ length gots.items }
        ensures { result ≡ record {
          id = id.0;
          to = to.0;
          filled = [];
          sizes = sizes.now;
          empty = buffers_of gots.items;
        } }
    {
        mark_blank(&mut gots, sizes);
        Lease {
            id,
            to,
            gots,
            filled: 0,
            count: sizes.len() as u32,
            frames: 0,
        }
    }

    /// A lease of these buffers, none of which has a frame, for the first of some frames that take
    /// so many slots.
    #[tactic(auto, using(crate::proofs::Filling::told))]
    pub(crate) fn new(id: LeaseId, to: PortId, gots: Vec<Got>, want: &Sizes, frames: usize) -> Lease
        requires few { length gots.items ≤ most_ring }
        requires within { frames ≤ length want.now }
        requires few_frames { length (take frames want.now) ≤ most_ring }
        requires blank { gots.items ≡ map blank (buffers_of gots.items) }
        requires sizes { All IsFrameSize (take frames want.now) }
        requires room { sum (take frames want.now) ≡ length gots.items }
        ensures { result ≡ record {
          id = id.0;
          to = to.0;
          filled = [];
          sizes = take frames want.now;
          empty = buffers_of gots.items;
        } }
    {
        match want.told() {
            Told::Ones(_) => Lease::of_ones(id, to, gots),
            Told::Each(sizes) => Lease::of_each(id, to, gots, &sizes[..frames]),
        }
    }

    /// The number of the grant's entry.
    pub fn id(&self) -> LeaseId
        ensures { result.0 ≡ self.now.id }
    {
        self.id
    }

    /// The port whose ring the buffers are of.
    pub fn to(&self) -> PortId
        ensures { result.0 ≡ self.now.to }
    {
        self.to
    }

    /// The number of frames that the lease is for.
    #[tactic(auto, using(crate::proofs::Filling::filling))]
    pub fn count(&self) -> u32
        ensures { result ≡ count_of self.now }
    {
        self.count
    }

    /// The number of frames that were filled in.
    pub fn filled(&self) -> u32
        ensures { result ≡ length (contents self.now) }
    {
        self.frames
    }

    /// The number of buffers.
    #[tactic(auto, using(crate::proofs::Filling::filling))]
    pub fn slots(&self) -> u32
        ensures { result ≡ buffer_count self.now }
    {
        self.gots.len() as u32
    }

    /// The number of slots of the frame that is to be filled in next.
    #[tactic(auto, using(crate::proofs::Filling::filling))]
    pub fn next(&self) -> u32
        requires { 1 ≤ length self.now.sizes }
        ensures { result ≡ next_of self.now }
    {
        u32::from(self.gots[self.filled].rest) + 1
    }

    /// Copies a frame of the next size into the next buffers. A full lease has no next size.
    #[tactic(auto, using(crate::proofs::Filling::filling))]
    pub fn fill(&mut self, bytes: &[u8])
        requires frame { length bytes.now ≤ most_frame_bytes }
        requires next { slots_of_length (length bytes.now) ≡ next_of self.old }
        ensures lease { self.new ≡ with_frame bytes.now self.old }
        ensures contents { contents self.new ≡ contents self.old ++ bytes.now ∷ [] }
        ensures count { buffer_count self.new ≡ buffer_count self.old }
    {
        let size = usize::from(self.gots[self.filled].rest) + 1;
        fill_parts(&mut self.gots, self.filled, bytes);
        self.filled += size;
        self.frames += 1;
    }

    /// Tells whether a frame has the next size.
    #[tactic(auto, using(crate::proofs::Filling::tests))]
    fn is_next(&self, bytes: &[u8]) -> bool
        ensures { result ≡ is_next bytes.now self.now }
    {
        self.frames < self.count
            && bytes.len() <= MAX_FRAME_BYTES
            && slots(bytes.len()) == self.next()
    }

    /// Copies a frame into the next buffers if it has the next size, and tells whether it did.
    pub fn try_fill(&mut self, bytes: &[u8]) -> bool
        ensures next { result ≡ is_next bytes.now self.old }
        ensures filled { result ≡ true → self.new ≡ with_frame bytes.now self.old }
        ensures refused { result ≡ false → self.new ≡ self.old }
        ensures id { self.new.id ≡ self.old.id }
        ensures count { buffer_count self.new ≡ buffer_count self.old }
    {
        let fits = self.is_next(bytes);
        if fits {
            self.fill(bytes);
        }
        fits
    }

    /// Copies a frame that fits one buffer, as the next size says, into the next buffer.
    #[tactic(auto, using(crate::proofs::Filling::filling))]
    pub fn fill_one(&mut self, bytes: &[u8])
        requires frame { length bytes.now ≤ buffer_bytes }
        requires next { next_of self.old ≡ 1 }
        ensures lease { self.new ≡ with_frame bytes.now self.old }
        ensures contents { contents self.new ≡ contents self.old ++ bytes.now ∷ [] }
    {
        fill_first(&mut self.gots, self.filled, bytes);
        self.filled += 1;
        self.frames += 1;
    }

    /// Copies the frame in these buffers, which has the next size, into the next ones, part by part.
    #[tactic(auto, using(crate::proofs::Filling::filling))]
    pub fn fill_from(&mut self, gots: &[Got])
        requires frame { held_parts gots.now ≡ cut_frame (joined_parts gots.now) }
        requires next { length gots.now ≡ next_of self.old }
        ensures lease { self.new ≡ with_frame (joined_parts gots.now) self.old }
        ensures contents { contents self.new ≡ contents self.old ++ joined_parts gots.now ∷ [] }
        ensures count { buffer_count self.new ≡ buffer_count self.old }
    {
        copy_parts(&mut self.gots, self.filled, gots);
        self.filled += gots.len();
        self.frames += 1;
    }

    /// The buffers of a full lease, with their frames.
    #[tactic(auto, using(crate::proofs::Filling::filling))]
    pub(crate) fn into_gots(self) -> Vec<Got>
        requires { self.sizes ≡ [] }
        ensures gots { result.items ≡ self.filled }
        ensures count { length result.items ≡ buffer_count self }
        ensures cut { IsCut result.items }
    {
        let Lease {
            id: _,
            to: _,
            gots,
            filled: _,
            count: _,
            frames: _,
        } = self;
        gots
    }
}
