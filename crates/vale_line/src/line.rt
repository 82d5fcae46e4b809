ghost use Rattle.std.specs.Prelude.{◌≡◌, ◌≤◌, ◌<◌, ◌+◌, ◌-◌, ◌^◌, [], ◌∷◌, ◌++◌, All, length, take, drop, map, min, replicate, sum, false, Some, vec_len, vec_capacity, IfOk, IfErr, IfSome, IfNone};
ghost use Rattle.std.specs.List.{list_any};
ghost use Rattle.std.specs.VecDeque.{deque_capacity};
ghost use Rattle.nm_types.specs.Limits.{most_ring};
ghost use Rattle.vale_lease.specs.Leases.{AreLeases, is_there, out_count};
ghost use Rattle.nm_frag.specs.Parts.{slots_of_bytes};
ghost use Rattle.vale_line.specs.Fitting.{IsFrameSize, first_fitting, fitting_sizes};
ghost use Rattle.vale_line.specs.Rings.{ring_state, IsRing};
ghost use Rattle.vale_line.specs.Gots.{blank, buffers_of, frames_in, IsSingle, IsCut, FitsPart};
ghost use Rattle.vale_line.specs.Leased.{buffer_count};
ghost use Rattle.vale_line.specs.Stored.{state_of, IsStored};
ghost use Rattle.vale_line.specs.Lines.{LineState, is_out_at, slots_out, first_gots, IsLine, space_of, out_of, slots_of, leases_of, done_lots, behind_done, ready_gots, ready_frames, room_to_sync, completed, new_line, granted_sizes, with_lease, leased, given_by_sync, with_put, held_gots};

use crate::got::Got;
use crate::lease::{Lease, LeaseRoom};
use crate::ring::Ring;
use nm_frag::{Sizes, Told};
use nm_region::Buf;
use nm_types::{LeaseId, NoMemory, PortId};
use std::alloc::Global;
use std::marker::Model;
use std::mem::replace;
use vale_lease::Leases;

/// The kernel side of a receive ring of vale(4): idle buffers, and the lots of those that were
/// leased, oldest first. It cannot be dropped: `clear` gives its buffers back.
pub struct Line {
    size: u32,
    ring: Ring,
    leases: Leases,
    /// The vector that the line was made of, empty.
    room: Vec<Buf>,
    alloc: Global,
}

impl Model for Line {
    ghost Value = { LineState };

    ghost view = { state_of };

    ghost invariant = { IsStored };
}

/// Gives the buffers of the longest prefix of done lots behind others.
#[tactic(auto, using(crate::proofs::LotLemmas::lots))]
fn give_done(ring: &mut Ring, gots: Vec<Got>) -> Vec<Got>
    requires ring { IsRing ring.old }
    requires room { vec_len gots + length (ready_gots (ring_state ring.old).lots)
        ≤ vec_capacity gots }
    ensures ring { IsRing ring.new }
    ensures got { result.items ≡ gots.items ++ ready_gots (ring_state ring.old).lots }
    ensures line { ring_state ring.new ≡ record (ring_state ring.old) {
      lots = behind_done (ring_state ring.old).lots;
    } }
    ensures capacity { vec_capacity gots ≤ vec_capacity result }
{
    let mut got = gots;
    while ring.is_first_done() {
        got = ring.publish_first(got);
    }
    got
}

/// Gives the buffers of the longest prefix of done lots, in the vector of the only one or in
/// `room`.
fn give_ready(ring: &mut Ring, room: Vec<Got>) -> Vec<Got>
    requires ring { IsRing ring.old }
    requires none { room.items ≡ [] }
    requires room { room_to_sync (ring_state ring.old).lots ≤ vec_capacity room }
    ensures ring { IsRing ring.new }
    ensures got { result.items ≡ ready_gots (ring_state ring.old).lots }
    ensures line { ring_state ring.new ≡ record (ring_state ring.old) {
      lots = behind_done (ring_state ring.old).lots;
    } }
    ensures capacity { vec_capacity room ≤ vec_capacity result }
{
    if ring.is_one_done() {
        ring.publish_first(room)
    } else {
        give_done(ring, room)
    }
}

/// Gives the buffers of the longest prefix of done lots behind others, without their frames. Returns
/// the number of frames in them.
#[tactic(auto, using(crate::proofs::LotLemmas::lots))]
fn discard_done(ring: &mut Ring, room: &mut Vec<Buf>) -> u32
    requires ring { IsRing ring.old }
    requires room { vec_len room.old + length (ready_gots (ring_state ring.old).lots)
        ≤ vec_capacity room.old }
    requires few { length (ready_gots (ring_state ring.old).lots) < 2 ^ 32 }
    ensures ring { IsRing ring.new }
    ensures items { room.new.items
        ≡ room.old.items ++ buffers_of (ready_gots (ring_state ring.old).lots) }
    ensures line { ring_state ring.new ≡ record (ring_state ring.old) {
      lots = behind_done (ring_state ring.old).lots;
    } }
    ensures count { result ≡ length (frames_in (ready_gots (ring_state ring.old).lots)) }
{
    let mut count = 0;
    while ring.is_first_done() {
        count += ring.discard_first(room);
    }
    count
}

/// The first size, if it is at most `room`.
fn first_fitting(sizes: &[u32], room: u32) -> Option<u32>
    ensures { result ≡ first_fitting room sizes.now }
{
    match sizes {
        [size, ..] if *size <= room => Some(*size),
        _ => None,
    }
}

#[tactic(auto, using(std::proofs::lemmas::List::take_rest))]
fn behind_first(sizes: &[u32]) -> &[u32]
    requires { 1 ≤ length sizes.now }
    ensures { result.now ≡ drop 1 sizes.now }
{
    &sizes[1..]
}

/// How many of the first sizes have a sum of at most `room`, and that sum.
#[tactic(auto, using(crate::proofs::FittingLemmas::fitting))]
fn count_fitting(want: &[u32], room: u32) -> (usize, u32)
    ensures within { result.0 ≤ length want.now }
    ensures sizes { take result.0 want.now ≡ fitting_sizes room want.now }
    ensures sum { result.1 ≡ sum (fitting_sizes room want.now) }
{
    let mut count = 0;
    let mut rest = want;
    let mut left = room;
    while let Some(size) = first_fitting(rest, left) {
        count += 1;
        left -= size;
        rest = behind_first(rest);
    }
    (count, room - left)
}

/// How many of so many sizes of one have a sum of at most `room`, and that sum.
#[tactic(auto, using(crate::proofs::FittingLemmas::ones))]
fn count_ones(count: u32, room: u32) -> (usize, u32)
    ensures within { result.0 ≤ count }
    ensures sizes { take result.0 (replicate count 1) ≡ fitting_sizes room (replicate count 1) }
    ensures sum { result.1 ≡ sum (fitting_sizes room (replicate count 1)) }
{
    let fitting = count.min(room);
    (fitting as usize, fitting)
}

/// How many of the first of some sizes have a sum of at most `room`, and that sum: one step where
/// each is one.
#[tactic(auto, using(crate::proofs::FittingLemmas::told))]
fn fitting(want: &Sizes, room: u32) -> (usize, u32)
    ensures within { result.0 ≤ length want.now }
    ensures sizes { take result.0 want.now ≡ fitting_sizes room want.now }
    ensures sum { result.1 ≡ sum (fitting_sizes room want.now) }
{
    match want.told() {
        Told::Ones(count) => count_ones(count, room),
        Told::Each(sizes) => count_fitting(sizes, room),
    }
}

impl Line {
    /// A line of these buffers, which are idle. `clear` gives them back in the vector that is
    /// passed here, and so does `NoMemory` at once. No other call takes memory.
    pub fn new(alloc: Global, mut bufs: Vec<Buf>) -> Result<Line, (NoMemory, Vec<Buf>)>
        requires size { (1 ≤ length bufs.items) × (length bufs.items ≤ most_ring) }
        ensures ok { IfOk result (λ line. line ≡ new_line bufs.items) }
        ensures err { IfErr result (λ fault. fault.1.items ≡ bufs.items) }
    {
        let size = bufs.len() as u32;
        let Ok(leases) = Leases::new(alloc, size) else {
            return Err((NoMemory, bufs));
        };
        match Ring::new(alloc, &mut bufs) {
            Ok(ring) => Ok(Line {
                size,
                ring,
                leases,
                room: bufs,
                alloc,
            }),
            Err(fault) => Err((fault, bufs)),
        }
    }

    /// The number of slots of the ring.
    pub fn size(&self) -> u32
        ensures { result ≡ self.now.size }
    {
        self.size
    }

    /// The number of buffers that a grant can lease: one always stays idle.
    pub fn space(&self) -> u32
        ensures space { result ≡ space_of self.now }
        ensures line { IsLine self.now }
    {
        self.ring.idle_len() - 1
    }

    /// The number of buffers that a sync would hand out.
    #[tactic(auto, using(crate::proofs::LotLemmas::lots))]
    pub fn ready(&self) -> u32
        ensures ready { result ≡ slots_of (done_lots self.now.lots) }
        ensures gots { result ≡ length (ready_gots self.now.lots) }
        ensures line { IsLine self.now }
    {
        self.leases.ready()
    }

    /// The number of frames that a sync would hand out.
    #[tactic(auto, using(crate::proofs::ReadyLemmas::line))]
    pub fn ready_frames(&self) -> u32
        ensures { result ≡ length (ready_frames self.now.lots) }
    {
        self.ring.ready_frames()
    }

    /// Puts the slots of each of these frames into an empty vector that has room for them.
    #[tactic(auto, using(crate::proofs::ReadyLemmas::line))]
    pub fn ready_sizes(&self, sizes: &mut Vec<u32>)
        requires none { sizes.old.items ≡ [] }
        requires room { length (ready_frames self.now.lots) ≤ vec_capacity sizes.old }
        ensures sizes { sizes.new.items ≡ map slots_of_bytes (ready_frames self.now.lots) }
        ensures capacity { vec_capacity sizes.new ≡ vec_capacity sizes.old }
    {
        self.ring.push_ready(sizes);
    }

    /// The number of buffers for which a sync wants room: none where it hands out one lot, whose own
    /// vector serves.
    pub fn room_to_sync(&self) -> u32
        ensures { result ≡ room_to_sync self.now.lots }
    {
        if self.ring.is_one_done() {
            0
        } else {
            self.ready()
        }
    }

    /// The number of lots that are not done.
    pub fn out(&self) -> u32
        ensures { result ≡ out_count (leases_of self.now.lots) }
    {
        self.leases.out()
    }

    /// Leases the first idle buffers for the longest prefix of the frames that fits: `want` is the
    /// number of slots of each frame. Returns None if the first frame is missing or does not fit.
    #[tactic(auto, using(crate::proofs::LotLemmas::lots))]
    pub fn grant(&mut self, id: LeaseId, to: PortId, room: LeaseRoom, want: &Sizes) -> Option<Lease>
        requires new { is_there id.0 (leases_of self.old.lots) ≡ false }
        requires sizes { All IsFrameSize want.now }
        requires room { min (sum want.now) (self.old.size - 1) ≤ room }
        ensures none { IfNone result
            ((granted_sizes want.now self.old ≡ []) × (self.new ≡ self.old)) }
        ensures some { IfSome result (λ lease. 1 ≤ length (granted_sizes want.now self.old)) }
        ensures lease { IfSome result (λ lease.
            lease ≡ leased id to.0 (granted_sizes want.now self.old) self.old) }
        ensures count { IfSome result (λ lease.
            buffer_count lease ≡ sum (granted_sizes want.now self.old)) }
        ensures lot { IfSome result (λ lease.
            self.new ≡ with_lease id (sum (granted_sizes want.now self.old)) self.old) }
        ensures line { IsLine self.old }
    {
        let gots = room.into_vec();
        let (frames, count) = fitting(want, self.space());
        if count == 0 {
            gots.destroy_empty();
            return None;
        }
        self.leases.open(id, count);
        self.ring.settle(&mut self.room);
        let gots = self.ring.lease(id, count, gots);
        Some(Lease::new(id, to, gots, want, frames))
    }

    /// Completes a lot with its lease, which is full.
    #[tactic(auto, using(crate::proofs::LotLemmas::lots))]
    pub fn done(&mut self, lease: Lease)
        requires lot { slots_out lease.id self.old.lots ≡ Some (buffer_count lease) }
        requires full { lease.sizes ≡ [] }
        ensures line { self.new ≡ record self.old {
          lots = map (completed lease.id lease.filled) self.old.lots;
        } }
        ensures was { IsLine self.old }
    {
        let id = lease.id();
        self.leases.done(id);
        self.ring.complete(id, lease.into_gots());
    }

    /// Takes buffers back, and hands out those of the longest prefix of done lots, with their
    /// frames, in `room`, or in a vector that is not smaller.
    #[tactic(auto, using(crate::proofs::LotLemmas::lots))]
    pub fn sync(&mut self, back: Vec<Buf>, room: Vec<Got>) -> Vec<Got>
        requires returned { length back.items ≤ out_of self.old }
        requires none { room.items ≡ [] }
        requires room { room_to_sync self.old.lots ≤ vec_capacity room }
        ensures line { self.new ≡ given_by_sync back.items self.old }
        ensures got { result.items ≡ ready_gots self.old.lots }
        ensures frames { frames_in result.items ≡ ready_frames self.old.lots }
        ensures cut { IsCut result.items }
        ensures capacity { vec_capacity room ≤ vec_capacity result }
        ensures was { IsLine self.old }
    {
        self.leases.take();
        self.ring.take_back(back, &mut self.room);
        give_ready(&mut self.ring, room)
    }

    /// Lends the first `k` idle buffers in `room`, for a put that gives others in their place.
    #[tactic(auto, using(crate::proofs::LotLemmas::lots))]
    pub fn lend(&mut self, k: u32, room: Vec<Buf>) -> Vec<Buf>
        requires space { k ≤ space_of self.old }
        requires none { room.items ≡ [] }
        requires room { k ≤ vec_capacity room }
        ensures lent { result.items ≡ take k self.old.idle }
        ensures line { self.new ≡ record self.old { idle = drop k self.old.idle } }
        ensures was { IsLine self.old }
    {
        self.ring.settle(&mut self.room);
        self.ring.lend(k, room)
    }

    /// Takes buffers with a frame in each, in the place of those that were lent, as a done lot. No
    /// buffers make no lot.
    #[tactic(auto, using(crate::proofs::LotLemmas::lots))]
    pub fn accept(&mut self, id: LeaseId, frames: &mut Vec<Got>)
        requires new { is_there id.0 (leases_of self.old.lots) ≡ false }
        requires lent { length frames.old.items ≤ out_of self.old }
        requires single { All IsSingle frames.old.items }
        requires fits { All FitsPart frames.old.items }
        ensures line { self.new ≡ with_put id frames.old.items self.old }
        ensures none { frames.new.items ≡ [] }
        ensures was { IsLine self.old }
    {
        let gots = replace(frames, Vec::new(self.alloc));
        if gots.is_empty() {
            gots.destroy_empty();
            return;
        }
        self.leases.open(id, gots.len() as u32);
        self.leases.done(id);
        self.ring.accept(id, gots, &mut self.room);
    }

    /// Gives back all buffers, in the vector that the line was made of, and the number of frames
    /// that no sync handed out.
    #[tactic(auto, using(crate::proofs::LotLemmas::lots))]
    pub fn clear(self) -> (Vec<Buf>, u32)
        requires { out_count (leases_of self.lots) ≡ 0 }
        ensures buffers { result.0.items ≡ self.idle ++ buffers_of (held_gots self.lots) }
        ensures unread { result.1 ≡ length (frames_in (held_gots self.lots)) }
        ensures was { IsLine self }
    {
        let Line {
            size: _,
            mut ring,
            leases: _,
            room,
            alloc: _,
        } = self;
        let mut bufs = ring.give_idle(room);
        let unread = discard_done(&mut ring, &mut bufs);
        ring.end();
        (bufs, unread)
    }
}
