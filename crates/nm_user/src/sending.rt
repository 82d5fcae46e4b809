//! A transmit sync: what was pushed is sent, or put to a pipe's other end, and what it offers is
//! settled.
ghost use Rattle.std.specs.Prelude.{false, true, ◌≡◌, IsSome, IfOk, IfErr, OnOk, OnErr, None, Some};
ghost use Rattle.nm_user.specs.Words.{TellsRefusal, Tx, fits_fault, refusal_at, ring_at};
ghost use Rattle.vale_entry.specs.declared.entry.Ask.TheVariants as asks;
ghost use Rattle.vale_entry.specs.declared.entry.Reply.TheVariants as replies;
ghost use Rattle.nm_user.specs.Sessions.{IsThere};
ghost use Rattle.nm_user.specs.Calls.{Made, MadeNone};
ghost use Rattle.nm_user.specs.Receives.{RingNot};
ghost use Rattle.nm_user.specs.Syncs.{IsSent, IsTransmitted, IsUnsent, PassesBy, PassesTx};
ghost use Rattle.nm_user.specs.Syncs.{TransmitsNot};

use crate::session::Session;
use nm_io::Gate;
use nm_types::{PortId, Side, StepFault, SyncFault};
use std::sync::Wait;
use vale_fabric::{Frames, OwnGate, SharedGate};

/// What a transmit sync told: how many slots went, and of their frames what became of them. The last
/// three count a frame once for each port that wants it: the ports of the switch to which it goes, and
/// the sender's monitor. At a pipe's end that is the monitor alone, as the other end has what it took at
/// once.
#[derive(Clone, Copy, Debug, PartialEq, Eq)]
pub struct Sent {
    /// The number of its entry: that of a send, or at a pipe's end of a put.
    pub entry: u32,
    /// The slots whose frames went: at a port of a switch all that were pushed, at a pipe's end, where
    /// each slot is a frame, the first ones, as many as the other end took. Those that it did not take
    /// stay pushed.
    pub pushed: u32,
    /// The frames with fewer than 14 bytes, which go to no port of the switch. 0 at a pipe's end.
    pub short: u32,
    /// The frames, not short, that went to no port of the switch: the destination is behind the
    /// sender, or no other port is open. 0 at a pipe's end.
    pub lone: u32,
    /// The frames for which there was room, so that they were copied there.
    pub given: u32,
    /// Those for which there was none.
    pub full: u32,
    /// Those whose port was not open any more.
    pub gone: u32,
}

impl<'f> Session<'f> {
    /// Sends what is pushed at a port's transmit ring, and settles what it offers. The gate is
    /// passed after each grant that gave a lease, after its filling and after its completion. A
    /// full record and want of memory leave it pushed.
    pub(crate) fn send_sync<R: Wait, G: OwnGate>(
        &mut self,
        rt: &R,
        port: PortId,
        gate: &mut G,
    ) -> Result<Sent, StepFault>
        requires { PassesTx false self.old.own port.0 }
        ensures sent { IfOk result (IsSent self.old self.new port.0) }
        ensures full { IfErr result (IsUnsent self.old self.new port.0) }
        ensures there { IsThere None self.new }
        ensures passed { OnOk result (PassesBy self.old self.new (G.passed gate.old)
            (G.passed gate.new)) }
        ensures unpassed { OnErr result (G.passed gate.new ≡ G.passed gate.old) }
    {
        let own = match &mut self.own {
            Some(own) => own,
            None => unreachable!(),
        };
        let batch = own.frames(self.alloc, port)?;
        let pushed = own.pushed_count(port);
        let offers = match self.fabric.send(rt, &mut self.pass, port, &batch) {
            Ok(offers) => offers,
            Err(fault) => return Err(fault),
        };
        let (entry, short, lone) = (offers.entry(), offers.short(), offers.lone());
        own.sent(port);
        let frames = Frames::Batch(&batch);
        let shares = self
            .fabric
            .settle(rt, &mut self.pass, gate, self.user, offers, frames);
        Ok(Sent {
            entry,
            pushed,
            short,
            lone,
            given: shares.given,
            full: shares.full,
            gone: shares.gone,
        })
    }

    /// The first check that refuses a sync of a port's ring.
    pub(crate) fn check(&mut self, port: PortId, side: Side) -> Result<(), SyncFault>
        requires { IsSome (ring_at side self.old.own port.0) }
        ensures refusal { TellsRefusal result (refusal_at side port.0 self.old.own) }
        ensures fits { IfErr result (λ fault. fits_fault fault ≡ true) }
        ensures same { self.new ≡ self.old }
    {
        match &mut self.own {
            Some(own) => own.check(port, side),
            None => unreachable!(),
        }
    }

    /// Records that a check refused a sync of a port's ring, and resets the ring.
    fn reset<R: Wait>(
        &mut self,
        rt: &R,
        port: PortId,
        side: Side,
        fault: SyncFault,
    ) -> Result<(), StepFault>
        requires refused { refusal_at side port.0 self.old.own ≡ Some fault }
        requires fits { fits_fault fault ≡ true }
        ensures made { OnOk result (Made self.old self.new (asks.Reset port side fault)
            replies.Made) }
        ensures full { IfErr result (MadeNone self.old self.new (asks.Reset port side fault)) }
        ensures there { IsThere None self.new }
    {
        self.fabric.reset(rt, &mut self.pass, port, side, &fault)?;
        match &mut self.own {
            Some(own) => own.reset(port, side),
            None => unreachable!(),
        }
        Ok(())
    }

    /// Records that a check refused a sync of a port's ring, and resets the ring. Answers with that
    /// refusal, or with what the record has no room for, which leaves the ring as it is.
    pub(crate) fn refuse<R: Wait>(
        &mut self,
        rt: &R,
        port: PortId,
        side: Side,
        fault: SyncFault,
    ) -> SyncFault
        requires refused { refusal_at side port.0 self.old.own ≡ Some fault }
        requires fits { fits_fault fault ≡ true }
        ensures not { RingNot side self.old self.new port.0 result }
        ensures there { IsThere None self.new }
    {
        match self.reset(rt, port, side, fault) {
            Ok(()) => fault,
            Err(full) => full.into(),
        }
    }

    /// Syncs a port's transmit ring: netmap(4) calls this NIOCTXSYNC. First `head` and `cur` are
    /// checked, then each pushed slot, in order from the accepted head to before `head`. If no check
    /// refuses, `head` is the accepted head, and the frames go on in their order:
    ///
    /// At a port that is no pipe's end all frames that were pushed are sent, with their bytes, and the
    /// tail goes on by as many slots. A frame is a run of slots, up to the first that is not marked as
    /// going on (`SlotFlags::MORE_FRAGMENTS`), and has the bytes of them all. It is not kept for a port
    /// that has no space for it.
    ///
    /// At an end of a pipe the frames that are still pushed from earlier syncs are offered to the
    /// other end, and then those pushed now. It takes the first ones, as many as it has space for,
    /// with their buffers. For each of them one of its idle buffers comes, with all bytes cleared,
    /// and stands in the slot, and the tail goes on by as many slots. The frames that were not taken
    /// stay pushed.
    ///
    /// What the ports and the monitors that want frames are granted is filled and completed before
    /// the call returns. The gate is passed after each grant that gave a lease, after its filling and
    /// after its completion.
    ///
    /// The error tells the first check that refused. `HeadOut` and `CurOut`: `head` or `cur` is out
    /// of its range. `Indirect`: a slot asks for bytes that stand elsewhere. `IndexOut`: it names no
    /// buffer of the pool. `NotHeld`: it names none of the session's named buffers. `Doubled`: an
    /// earlier one names the same. `Unannounced`: it names another buffer than the one in its place,
    /// and is not marked as changed. `LongLen`: its length passes a buffer's. `Fragment`: it is marked
    /// as going on, and is the last one pushed, or the last one that a frame may have, or at an end of
    /// a pipe. The refusal is recorded and the ring is reset: `head` and `cur` are the accepted head
    /// again, each of the user's slots names the buffer in its place, and no frame went.
    ///
    /// `PeerGone` is no refusal of a check: the other end of the pipe is not open. This is recorded
    /// too. `head` is the accepted head then, and the frames stay pushed.
    ///
    /// `RecordFull` and `NoMemory`: nothing is recorded, and the ring stays as it was, pushed slots
    /// and all.
    pub fn tx_sync<R: Wait, G: Gate>(
        &mut self,
        rt: &R,
        port: PortId,
        gate: &G,
    ) -> Result<Sent, SyncFault>
        requires { IsSome (ring_at Tx self.old.own port.0) }
        ensures sent { IfOk result (IsTransmitted self.old self.new port.0) }
        ensures refused { IfErr result (TransmitsNot self.old self.new port.0) }
        ensures there { IsThere None self.new }
    {
        self.tx_sync_past(rt, port, &mut SharedGate::new(gate))
    }

    /// Syncs a port's transmit ring as `tx_sync` does, past a gate that the user has for itself. For
    /// each lease that the sync completes it passes the three stages, in their order and as the
    /// session's user; where the sync fails it passes none.
    pub fn tx_sync_past<R: Wait, G: OwnGate>(
        &mut self,
        rt: &R,
        port: PortId,
        gate: &mut G,
    ) -> Result<Sent, SyncFault>
        requires { IsSome (ring_at Tx self.old.own port.0) }
        ensures sent { IfOk result (IsTransmitted self.old self.new port.0) }
        ensures refused { IfErr result (TransmitsNot self.old self.new port.0) }
        ensures there { IsThere None self.new }
        ensures passed { OnOk result (PassesBy self.old self.new (G.passed gate.old)
            (G.passed gate.new)) }
        ensures unpassed { OnErr result (G.passed gate.new ≡ G.passed gate.old) }
    {
        if let Err(fault) = self.check(port, Side::Tx) {
            return Err(self.refuse(rt, port, Side::Tx, fault));
        }
        if self.is_pipe(port) {
            return self.put_sync(rt, port, gate);
        }
        Ok(self.send_sync(rt, port, gate)?)
    }
}
