//! A receive sync: the buffers of the pushed slots go back, and what was granted to the port is
//! published in its ring.
ghost use Rattle.std.specs.Prelude.{ℕ, true, ◌≡◌, ◌≤◌, ◌<◌, ◌^◌, [], length, take, fold};
ghost use Rattle.std.specs.Prelude.{sum_by};
ghost use Rattle.std.specs.Prelude.{IsSome, IfSome, IfOk, IfErr, OnOk, OnErr, Some, None};
ghost use Rattle.nm_user.specs.Words.{AllOf, AreOf, IsBufferOf, IsNew, IsPassIn, IsRead, MayIn};
ghost use Rattle.nm_user.specs.Words.{RefusesIn, Rx, back_on, buffers_of, can_receive};
ghost use Rattle.nm_user.specs.Words.{last_count};
ghost use Rattle.nm_user.specs.Words.{fixed_in, frames_in, indices_of, is_pipe_name, knowing};
ghost use Rattle.nm_user.specs.Words.{own_after_receive, own_with_arrival, part_in, place_with_id};
ghost use Rattle.nm_user.specs.Words.{port_with_id, read_ask, refusal_at, ring_at, sync_fault_of};
ghost use Rattle.nm_user.specs.Words.{vec_capacity};
ghost use Rattle.nm_user.specs.Sessions.{IsThere};
ghost use Rattle.nm_user.specs.Receives.{IsReceived, ReceivesNot};
ghost use Rattle.nm_user.specs.Syncs.{PassesBy};
ghost use Rattle.nm_user.specs.Receiving.{arrival_in, arrivals_in, CanCome};

use crate::session::Session;
use nm_io::Gate;
use nm_own::OwnSide;
use nm_region::Buf;
use nm_types::{PortId, Side, StepFault, SyncFault};
use std::alloc::{AllocError, Global};
use std::sync::Wait;
use vale_book::Synced;
use vale_fabric::{Fabric, Frames, OwnGate, Pass, SharedGate};
use vale_line::Got;

/// What a receive sync told. The frames that it brought stand in the last slots before the tail.
#[derive(Clone, Copy, Debug, PartialEq, Eq)]
pub struct Received {
    /// The number of its entry: that of a sync, or at a pipe's end of a get.
    pub entry: u32,
    /// How many frames came, each in one slot or in several, one behind the other.
    pub gave: u32,
    /// How many buffers went back: one for each slot that was pushed.
    pub returned: u32,
}

/// Memory for the buffers that a receive sync gives back, and for those in whose places they stand.
struct BackRoom {
    back: Vec<Buf>,
    notes: Vec<u32>,
}

impl BackRoom {
    /// Room for `count` buffers.
    fn new(alloc: Global, count: usize) -> Result<BackRoom, AllocError>
        ensures back { IfOk result (λ room. room.back.items ≡ []) }
        ensures notes { IfOk result (λ room. room.notes.items ≡ []) }
        ensures back_room { IfOk result (λ room. count ≤ vec_capacity room.back) }
        ensures notes_room { IfOk result (λ room. count ≤ vec_capacity room.notes) }
    {
        let notes = Vec::with_capacity(alloc, count)?;
        let back = Vec::with_capacity(alloc, count)?;
        Ok(BackRoom { back, notes })
    }
}

/// Gives back the buffers that the pushed slots of a port's receive ring name, and takes what is
/// ready there. Answers with the own side and the number of those buffers. Where that is refused, the
/// own side stays as it was.
fn give_and_take<R: Wait>(
    fabric: &Fabric,
    rt: &R,
    pass: &mut Pass,
    own: OwnSide,
    port: PortId,
    is_pipe: bool,
    room: BackRoom,
) -> (OwnSide, u32, Result<Synced, StepFault>)
    requires pass { IsPassIn fabric.now pass.old }
    requires may { MayIn fabric.now pass.old
        (read_ask is_pipe port (back_on port.0 own.own)) }
    requires region { AllOf (fixed_in fabric.now).region own }
    requires ring { IsSome (ring_at Rx own.own port.0) }
    requires passes { refusal_at Rx port.0 own.own ≡ None }
    requires few { length (back_on port.0 own.own) < 2 ^ 32 }
    requires back { room.back.items ≡ [] }
    requires notes { room.notes.items ≡ [] }
    requires back_room { length (back_on port.0 own.own) ≤ vec_capacity room.back }
    requires notes_room { length (back_on port.0 own.own) ≤ vec_capacity room.notes }
    ensures pass { IsPassIn fabric.now pass.new }
    ensures returned { result.1 ≡ length (back_on port.0 own.own) }
    ensures own { IfOk result.2 (λ synced.
        result.0.own ≡ own_after_receive port.0 [] own.own) }
    ensures region { IfOk result.2 (λ synced. AllOf (fixed_in fabric.now).region result.0) }
    ensures read { IfOk result.2 (IsRead (fixed_in fabric.now) (knowing pass.old)
        (knowing pass.new) (read_ask is_pipe port (back_on port.0 own.own)) port) }
    ensures same { IfErr result.2 (λ fault. result.0 ≡ own) }
    ensures full { IfErr result.2 (RefusesIn fabric.now pass.old pass.new
        (read_ask is_pipe port (back_on port.0 own.own))) }
{
    let BackRoom { mut back, notes } = room;
    let lent = own.lend_back(port, &mut back, notes);
    let returned = back.len() as u32;
    match fabric.read(rt, pass, port, is_pipe, back) {
        Ok(synced) => (lent.received(), returned, Ok(synced)),
        Err((fault, mut back)) => {
            let own = lent.undo(&mut back);
            back.destroy_empty();
            (own, returned, Err(fault))
        }
    }
}

/// One, if a frame ends in a received buffer.
fn last_count(got: &Got) -> u32
    ensures { result ≡ last_count got.now }
{
    if got.rest == 0 { 1 } else { 0 }
}

/// How many frames end in received buffers.
fn count_lasts(gots: &[Got]) -> u32
    requires { length gots.now < 2 ^ 32 }
    ensures { result ≡ sum_by last_count gots.now }
{
    let mut count = 0;
    for i in 0..gots.len() {
        count += last_count(&gots[i]);
    }
    count
}

/// How many frames lie in received buffers: each ends in the last of its own.
fn frame_count(gots: &[Got]) -> u32
    requires { length gots.now < 2 ^ 32 }
    ensures { result ≡ length (frames_in gots.now) }
{
    count_lasts(gots)
}

/// How many bytes of a received buffer are a part of a frame.
fn part_len(got: &Got) -> u16
    ensures few { result ≤ 2048 }
    ensures bytes { take result got.now.buf.bytes ≡ part_in got.now }
{
    got.buf.bytes().len().min(got.len as usize) as u16
}

/// Publishes a part of a frame in the next slot of a port's receive ring. The port stands at a place in
/// the order of the ports.
fn publish(own: &mut OwnSide, at: usize, port: PortId, got: Got)
    requires place { at ≡ place_with_id own.old.own port.0 }
    requires room { can_receive port.0 own.old.own ≡ true }
    requires new { IsNew own.old.own got.buf.index }
    ensures own { own.new.own ≡ own_with_arrival port.0 own.old.own (arrival_in got) }
    ensures region { (region : ℕ) → AllOf region own.old → IsBufferOf region got.buf
        → AllOf region own.new }
{
    let (len, rest) = (part_len(&got), got.rest);
    own.receive_at(at, port, got.into_buf(), len, rest);
}

/// Publishes parts of frames in their order.
#[inline(never)]
fn publish_all(own: &mut OwnSide, port: PortId, gots: Vec<Got>)
    requires come { CanCome port.0 own.old.own (arrivals_in gots.items) }
    ensures own { own.new.own
        ≡ fold (own_with_arrival port.0) own.old.own (arrivals_in gots.items) }
    ensures region { (region : ℕ) → AllOf region own.old → AreOf region (buffers_of gots.items)
        → AllOf region own.new }
{
    let at = own.place_of(port);
    let mut coming = gots.into_iter();
    while let Some(got) = coming.next() {
        publish(own, at, port, got);
    }
    coming.destroy_empty();
}

/// Puts an own side back that was away.
pub(crate) fn put_back(away: &mut Option<OwnSide>, own: OwnSide)
    requires { away.old ≡ None }
    ensures { away.new ≡ Some own }
{
    match away.replace(own) {
        None => {}
        Some(_other) => unreachable!(),
    }
}

impl<'f> Session<'f> {
    /// Memory for a receive sync that no check refuses.
    fn back_room(&self, port: PortId) -> Result<BackRoom, AllocError>
        requires there { IsSome (ring_at Rx self.now.own port.0) }
        requires passes { refusal_at Rx port.0 self.now.own ≡ None }
        ensures back { IfOk result (λ room. room.back.items ≡ []) }
        ensures notes { IfOk result (λ room. room.notes.items ≡ []) }
        ensures back_room { IfOk result (λ room.
            length (back_on port.0 self.now.own) ≤ vec_capacity room.back) }
        ensures notes_room { IfOk result (λ room.
            length (back_on port.0 self.now.own) ≤ vec_capacity room.notes) }
    {
        match self.ring(port, Side::Rx) {
            Some(ring) => BackRoom::new(self.alloc, ring.user_range().1 as usize),
            None => unreachable!(),
        }
    }

    /// Makes a receive sync that no check refuses, of a pipe end or of another port. The gate is
    /// passed as frames go to the port's monitor: after each grant that gave a lease, after its
    /// filling and after its completion. If it is refused nothing has changed.
    pub(crate) fn receive<R: Wait, G: OwnGate>(
        &mut self,
        rt: &R,
        port: PortId,
        is_pipe: bool,
        gate: &mut G,
    ) -> Result<Received, StepFault>
        requires there { IsSome (port_with_id self.old.own port.0) }
        requires kind { IfSome (port_with_id self.old.own port.0)
            (λ p. is_pipe_name p.name ≡ is_pipe) }
        requires passes { refusal_at Rx port.0 self.old.own ≡ None }
        ensures received { IfOk result (IsReceived self.old self.new port.0) }
        ensures full { IfErr result (λ fault.
            ReceivesNot self.old self.new port.0 (sync_fault_of fault)) }
        ensures there { IsThere None self.new }
        ensures passed { OnOk result (PassesBy self.old self.new (G.passed gate.old)
            (G.passed gate.new)) }
        ensures unpassed { OnErr result (G.passed gate.new ≡ G.passed gate.old) }
    {
        let room = self.back_room(port)?;
        let own = match self.own.take() {
            Some(own) => own,
            None => unreachable!(),
        };
        let (mut own, returned, read) = give_and_take(
            self.fabric,
            rt,
            &mut self.pass,
            own,
            port,
            is_pipe,
            room,
        );
        let Synced { got, offers } = match read {
            Ok(synced) => synced,
            Err(fault) => {
                put_back(&mut self.own, own);
                return Err(fault);
            }
        };
        let entry = offers.entry();
        let frames = Frames::Gots(&got);
        self.fabric
            .settle(rt, &mut self.pass, gate, self.user, offers, frames);
        let gave = frame_count(&got);
        publish_all(&mut own, port, got);
        put_back(&mut self.own, own);
        Ok(Received {
            entry,
            gave,
            returned,
        })
    }

    /// Whether a port is an end of a pipe.
    pub(crate) fn is_pipe(&self, port: PortId) -> bool
        requires { IsSome (port_with_id self.now.own port.0) }
        ensures { IfSome (port_with_id self.now.own port.0)
            (λ p. is_pipe_name p.name ≡ result) }
    {
        let name = match &self.own {
            Some(own) => own.name(port),
            None => unreachable!(),
        };
        match name {
            Some(name) => name.is_pipe(),
            None => unreachable!(),
        }
    }

    /// Syncs a port's receive ring: netmap(4) calls this NIOCRXSYNC. First `head` and `cur` are
    /// checked, then each pushed slot, in order from the accepted head to before `head`. If no check
    /// refuses, the buffers that the pushed slots name go back to the port's line, `head` is the
    /// accepted head, and the frames that are ready there are published from the tail on, each in as many
    /// slots as it has parts, with their buffers and lengths: of a switch's port, a pipe's end or a
    /// monitor alike. A slot behind which `r` of its frame's follow has the flags
    /// `SlotFlags::MORE_FRAGMENTS` + 256 * `r`, and the last one none. What the port's own monitor wants
    /// of them is granted, filled and completed before the call returns.
    ///
    /// The gate is passed as frames go to the monitor: after each grant that gave a lease, after its
    /// filling and after its completion.
    ///
    /// The error tells the first check that refused. `HeadOut` and `CurOut`: `head` or `cur` is out
    /// of its range. `IndexOut`: a slot names no buffer of the pool. `NotHeld`: it names none of the
    /// session's named buffers. `Doubled`: an earlier one names the same. `Unannounced`: it names
    /// another buffer than the one in its place, and is not marked as changed. The refusal is
    /// recorded and the ring is reset: `head` and `cur` are the accepted head again, each of the
    /// user's slots names the buffer in its place, nothing went back and no frame came.
    ///
    /// `RecordFull` and `NoMemory` are no refusals of a check. Nothing is recorded then, and the
    /// ring stays as it was, pushed slots and all.
    pub fn rx_sync<R: Wait, G: Gate>(
        &mut self,
        rt: &R,
        port: PortId,
        gate: &G,
    ) -> Result<Received, SyncFault>
        requires { IsSome (port_with_id self.old.own port.0) }
        ensures received { IfOk result (IsReceived self.old self.new port.0) }
        ensures refused { IfErr result (ReceivesNot self.old self.new port.0) }
        ensures there { IsThere None self.new }
    {
        self.rx_sync_past(rt, port, &mut SharedGate::new(gate))
    }

    /// Syncs a port's receive ring as `rx_sync` does, past a gate that the user has for itself. For
    /// each lease that the sync completes it passes the three stages, in their order and as the
    /// session's user; where the sync fails it passes none.
    pub fn rx_sync_past<R: Wait, G: OwnGate>(
        &mut self,
        rt: &R,
        port: PortId,
        gate: &mut G,
    ) -> Result<Received, SyncFault>
        requires { IsSome (port_with_id self.old.own port.0) }
        ensures received { IfOk result (IsReceived self.old self.new port.0) }
        ensures refused { IfErr result (ReceivesNot self.old self.new port.0) }
        ensures there { IsThere None self.new }
        ensures passed { OnOk result (PassesBy self.old self.new (G.passed gate.old)
            (G.passed gate.new)) }
        ensures unpassed { OnErr result (G.passed gate.new ≡ G.passed gate.old) }
    {
        if let Err(fault) = self.check(port, Side::Rx) {
            return Err(self.refuse(rt, port, Side::Rx, fault));
        }
        let is_pipe = self.is_pipe(port);
        Ok(self.receive(rt, port, is_pipe, gate)?)
    }
}
