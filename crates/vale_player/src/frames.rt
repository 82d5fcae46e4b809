//! What a user does with frames, at its ports by their names: it puts them into a transmit ring,
//! sends them and takes them, with the syncs that this wants. Nothing is done where it has not the
//! port, or the port not the ring.
ghost use Rattle.std.specs.Prelude.{ℕ, List, ◌≡◌, ◌≤◌, [], ◌∷◌, cond, length, map, replicate};
ghost use Rattle.std.specs.Prelude.{true, None, Some, IsSome, IfSome, OnOk, IfOk, IfErr};
ghost use Rattle.vale_player.specs.Words.{IsThere, IsUnsent, PutFrame, SendFrames, TakeFrames, Tx};
ghost use Rattle.vale_player.specs.Words.{buffer_bytes, captured, frame_of_put, has_room};
ghost use Rattle.vale_player.specs.Words.{most_frame_bytes, most_to_play, played, port_with_id};
ghost use Rattle.vale_player.specs.Words.{ring_at};
ghost use Rattle.vale_player.specs.Players.{Does, DoesOrEnds, DoesLine, HasCalled, Stops, StopsAt};
ghost use Rattle.vale_player.specs.Players.{IsStill};
ghost use Rattle.vale_player.specs.Syncing.{sender_named, sync_end_of, EndsTx, RxMadeNone};
ghost use Rattle.vale_player.specs.Kept.{SavesBy, CameRx, rx_tail, sync_stop_of};
ghost use Rattle.vale_player.specs.Syncing.{has_passed, leaves_room, with_put, NeedsNoneOrEnds};
ghost use Rattle.vale_player.specs.Syncing.{playing, HasSent, PlaysOn};

use crate::player::Player;
use nm_io::Gate;
use nm_types::{
    BUFFER_BYTES, MAX_FRAME_BYTES, Mac, Name, NoMemory, PortId, Side, StepFault, SyncFault,
};
use nm_user::{Received, Session};
use pcap_io::Record;
use std::alloc::Global;
use std::sync::Wait;

/// What came of a sync that made an entry.
#[derive(Clone, Copy)]
enum SyncEnd {
    /// It went through.
    Passed,
    /// The other end of the pipe is not open.
    PeerGone,
    /// A check refused it.
    Refused,
}

impl SyncEnd {
    /// How many frames come before the next sync: a whole batch, if this one went through.
    fn next_batch(self, batch: u32) -> Option<u32>
        ensures { result ≡ cond (has_passed self) (Some batch) None }
    {
        match self {
            SyncEnd::Passed => Some(batch),
            SyncEnd::PeerGone => None,
            SyncEnd::Refused => None,
        }
    }

    /// Whether there is room behind a sync that no check refused.
    fn leaves_room(self, room: bool) -> bool
        ensures { result ≡ leaves_room self room }
    {
        match self {
            SyncEnd::Passed => room,
            SyncEnd::PeerGone => room,
            SyncEnd::Refused => false,
        }
    }
}

/// What came of a sync that did not go through. A full record and want of memory stop the user.
fn end_of(fault: SyncFault) -> Result<SyncEnd, StepFault>
    ensures { result ≡ sync_end_of fault }
{
    match fault {
        SyncFault::PeerGone => Ok(SyncEnd::PeerGone),
        SyncFault::RecordFull { what, used, want } => {
            Err(StepFault::RecordFull { what, used, want })
        }
        SyncFault::NoMemory => Err(StepFault::NoMemory),
        _ => Ok(SyncEnd::Refused),
    }
}

/// Syncs a transmit ring, with what settles it.
fn transmit<'f, R: Wait, G: Gate>(
    session: &mut Session<'f>,
    rt: &R,
    port: PortId,
    gate: &G,
) -> Result<SyncEnd, StepFault>
    requires ring { IsSome (ring_at Tx session.old.own port.0) }
    ensures came { IfOk result (EndsTx session.old session.new port.0) }
    ensures none { IfErr result (IsUnsent session.old session.new port.0) }
    ensures there { IsThere None session.new }
{
    match session.tx_sync(rt, port, gate) {
        Ok(_) => Ok(SyncEnd::Passed),
        Err(fault) => end_of(fault),
    }
}

/// Where the tail of a port's receive ring is.
fn rx_tail(session: &Session, port: PortId) -> u32
    ensures { result ≡ rx_tail session.now.own port.0 }
{
    match session.ring(port, Side::Rx) {
        Some(ring) => ring.tail(),
        None => 0,
    }
}

/// How many bytes a record may have that is put at the port of a name.
fn most_to_play(name: &Name) -> usize
    ensures { result ≡ most_to_play name.now }
{
    if name.is_pipe() {
        BUFFER_BYTES
    } else {
        MAX_FRAME_BYTES
    }
}

/// Why a user stops at a sync that did not go through, if it does.
fn stop_of(fault: SyncFault) -> Result<(), StepFault>
    ensures { result ≡ sync_stop_of fault }
{
    match end_of(fault) {
        Ok(_) => Ok(()),
        Err(fault) => Err(fault),
    }
}

/// Syncs a receive ring, with what settles it. Answers what it brought, and why the user stops.
fn receive<'f, R: Wait, G: Gate>(
    session: &mut Session<'f>,
    rt: &R,
    port: PortId,
    gate: &G,
) -> (Option<Received>, Result<(), StepFault>)
    requires port { IsSome (port_with_id session.old.own port.0) }
    ensures saves { SavesBy session.old session.new port.0 result.0 }
    ensures came { OnOk result.1 (CameRx session.old session.new port.0) }
    ensures none { IfErr result.1 (RxMadeNone session.old session.new port.0) }
    ensures there { IsThere None session.new }
{
    match session.rx_sync(rt, port, gate) {
        Ok(received) => (Some(received), Ok(())),
        Err(fault) => (None, stop_of(fault)),
    }
}

impl<'f> Player<'f> {
    /// The port of a name, if it has a transmit ring.
    fn sender(&self, name: &Name) -> Option<PortId>
        ensures sender { result ≡ sender_named self.now.session.own name.now }
        ensures there { IsThere None self.now.session }
    {
        let Some(port) = self.session.port_named(name) else {
            return None;
        };
        match self.session.ring(port, Side::Tx) {
            Some(_) => Some(port),
            None => None,
        }
    }

    /// Puts a frame at the port of a name, if there is room for it.
    fn write_frame(&mut self, name: &Name, port: PortId, bytes: &[u8])
        requires size { length bytes.now ≤ most_frame_bytes }
        requires named { sender_named self.old.session.own name.now ≡ Some port }
        ensures put { self.new ≡ with_put name.now bytes.now self.old }
        ensures named { sender_named self.new.session.own name.now ≡ Some port }
    {
        self.session.put_frame(port, bytes);
    }

    /// Puts copies of a frame at the port of a name, as many as there is room for. Answers how many.
    fn write_copies(&mut self, name: &Name, port: PortId, bytes: &[u8], count: u32) -> u32
        requires size { length bytes.now ≤ buffer_bytes }
        requires named { sender_named self.old.session.own name.now ≡ Some port }
        ensures does { Does self.old self.new (replicate result (PutFrame name.now bytes.now)) }
        ensures named { sender_named self.new.session.own name.now ≡ Some port }
        ensures some { has_room self.old.session.own port.0 (length bytes.now) ≡ true → 1 ≤ count
            → 1 ≤ result }
        ensures most { result ≤ count }
        ensures still { IsStill self.old self.new }
    {
        self.session.put_copies(port, bytes, count)
    }

    /// There is room for a frame in the transmit ring of a port.
    fn has_room(&self, port: PortId, bytes: &[u8]) -> bool
        requires { length bytes.now ≤ most_frame_bytes }
        ensures room { result ≡ has_room self.now.session.own port.0 (length bytes.now) }
        ensures there { IsThere None self.now.session }
    {
        self.session.has_room(port, bytes.len())
    }

    /// Syncs the transmit ring of a name's port. The line ends unless the sync goes through: where a
    /// check refuses it, and where the other end of a pipe is not open.
    fn send<R: Wait, G: Gate>(
        &mut self,
        rt: &R,
        name: &Name,
        port: PortId,
        gate: &G,
    ) -> Result<SyncEnd, StepFault>
        requires { sender_named self.old.session.own name.now ≡ Some port }
        ensures { HasSent self.old self.new name.now port result }
    {
        transmit(&mut self.session, rt, port, gate)
    }

    /// Syncs the transmit ring of a name's port if it has no room for a frame. The line ends where a
    /// check refused the sync, and where there is no room behind it.
    fn make_room<R: Wait, G: Gate>(
        &mut self,
        rt: &R,
        name: &Name,
        port: PortId,
        bytes: &[u8],
        gate: &G,
    ) -> Result<bool, StepFault>
        requires size { length bytes.now ≤ most_frame_bytes }
        requires named { sender_named self.old.session.own name.now ≡ Some port }
        ensures room { IfOk result
            (NeedsNoneOrEnds self.old self.new (PutFrame name.now bytes.now)) }
        ensures ready { IfOk result (λ goes.
            goes ≡ true → has_room self.new.session.own port.0 (length bytes.now) ≡ true) }
        ensures named { sender_named self.new.session.own name.now ≡ Some port }
        ensures stops { IfErr result (StopsAt self.old self.new (PutFrame name.now bytes.now)) }
        ensures still { IsStill self.old self.new }
        ensures there { IsThere None self.old.session }
    {
        if self.has_room(port, bytes) {
            return Ok(true);
        }
        match self.send(rt, name, port, gate) {
            Ok(end) => Ok(end.leaves_room(self.has_room(port, bytes))),
            Err(fault) => Err(fault),
        }
    }

    /// Puts a frame at the port of a name. Where the transmit ring has no room for it, it is synced
    /// first. Answers whether the line goes on: it ends where a check refused the sync, and where
    /// there is no room behind it.
    fn put_frame<R: Wait, G: Gate>(
        &mut self,
        rt: &R,
        name: &Name,
        port: PortId,
        bytes: &[u8],
        gate: &G,
    ) -> Result<bool, StepFault>
        requires size { length bytes.now ≤ most_frame_bytes }
        requires named { sender_named self.old.session.own name.now ≡ Some port }
        ensures does { IfOk result
            (DoesOrEnds self.old self.new (PutFrame name.now bytes.now ∷ [])) }
        ensures named { sender_named self.new.session.own name.now ≡ Some port }
        ensures stops { IfErr result (StopsAt self.old self.new (PutFrame name.now bytes.now)) }
        ensures still { IsStill self.old self.new }
        ensures there { IsThere None self.old.session }
    {
        match self.make_room(rt, name, port, bytes, gate) {
            Ok(true) => {
                self.write_frame(name, port, bytes);
                Ok(true)
            }
            Ok(false) => Ok(false),
            Err(fault) => Err(fault),
        }
    }

    /// Syncs a receive ring: takes the frames that are ready. That a check refused the sync is an
    /// entry too, and the user goes on.
    pub fn take<R: Wait, G: Gate>(&mut self, rt: &R, name: &Name, gate: &G) -> Result<(), StepFault>
        ensures { HasCalled self.old self.new (TakeFrames name.now) result }
    {
        let Some(port) = self.session.port_named(name) else {
            return Ok(());
        };
        let tail = rx_tail(&self.session, port);
        let ended = receive(&mut self.session, rt, port, gate);
        self.kept.receive(&self.session, port, tail, ended.0);
        ended.1
    }

    /// A line that syncs a transmit ring.
    pub fn tx<R: Wait, G: Gate>(&mut self, rt: &R, name: &Name, gate: &G) -> Result<(), StepFault>
        ensures does { OnOk result (DoesLine self.old self.new (SendFrames name.now ∷ [])) }
        ensures stops { IfErr result (Stops self.old self.new (SendFrames name.now ∷ [])) }
        ensures still { IsStill self.old self.new }
    {
        let Some(port) = self.sender(name) else {
            return Ok(());
        };
        match self.send(rt, name, port, gate) {
            Ok(_) => Ok(()),
            Err(fault) => Err(fault),
        }
    }

    /// A line that puts a frame so many times.
    pub fn put<R: Wait, G: Gate>(
        &mut self,
        rt: &R,
        name: &Name,
        count: u32,
        frame: &[u8],
        gate: &G,
    ) -> Result<(), StepFault>
        requires { length frame.now ≤ buffer_bytes }
        ensures does { OnOk result
            (DoesLine self.old self.new (replicate count (PutFrame name.now frame.now))) }
        ensures stops { IfErr result
            (Stops self.old self.new (replicate count (PutFrame name.now frame.now))) }
        ensures still { IsStill self.old self.new }
    {
        let Some(port) = self.sender(name) else {
            return Ok(());
        };
        let put = self.write_copies(name, port, frame, count);
        let mut left = count - put;
        while left > 0 {
            match self.make_room(rt, name, port, frame, gate) {
                Ok(true) => left -= self.write_copies(name, port, frame, left),
                Ok(false) => return Ok(()),
                Err(fault) => return Err(fault),
            }
        }
        Ok(())
    }

    /// Puts a record at the port of a name, and syncs behind it if it is the last one before a sync.
    /// One that has more than `most` bytes is passed over. Answers how many come then before the next
    /// sync; none where the line has ended.
    fn play_one<R: Wait, G: Gate>(
        &mut self,
        rt: &R,
        name: &Name,
        port: PortId,
        bytes: &[u8],
        most: usize,
        batch: u32,
        left: u32,
        gate: &G,
    ) -> Result<Option<u32>, StepFault>
        requires most { most ≡ most_to_play name.now }
        requires named { sender_named self.old.session.own name.now ≡ Some port }
        requires batch { 1 ≤ batch }
        requires left { 1 ≤ left }
        ensures plays { IfOk result (λ next. (frames : List (List ℕ))
            → PlaysOn self.old self.new (playing name.now batch left (bytes.now ∷ frames))
            name.now batch frames next) }
        ensures left { IfOk result (λ next. IfSome next (λ n. 1 ≤ n)) }
        ensures named { sender_named self.new.session.own name.now ≡ Some port }
        ensures stops { IfErr result (λ fault. (frames : List (List ℕ))
            → Stops self.old self.new (playing name.now batch left (bytes.now ∷ frames)) fault) }
        ensures still { IsStill self.old self.new }
    {
        if bytes.len() > most {
            return Ok(Some(left));
        }
        match self.put_frame(rt, name, port, bytes, gate) {
            Ok(true) => {}
            Ok(false) => return Ok(None),
            Err(fault) => return Err(fault),
        }
        if left != 1 {
            return Ok(Some(left - 1));
        }
        match self.send(rt, name, port, gate) {
            Ok(end) => Ok(end.next_batch(batch)),
            Err(fault) => Err(fault),
        }
    }

    /// A line that plays the records of a capture: puts them one after another, and syncs behind
    /// each `batch` of them and behind the last one. Records longer than a frame may be are passed
    /// over, and at an end of a pipe those longer than a buffer.
    pub fn play<R: Wait, G: Gate>(
        &mut self,
        rt: &R,
        name: &Name,
        records: &[Record],
        batch: u32,
        gate: &G,
    ) -> Result<(), StepFault>
        requires { 1 ≤ batch }
        ensures does { OnOk result
            (DoesLine self.old self.new (played name.now batch (map captured records.now))) }
        ensures stops { IfErr result
            (Stops self.old self.new (played name.now batch (map captured records.now))) }
        ensures still { IsStill self.old self.new }
    {
        let Some(port) = self.sender(name) else {
            return Ok(());
        };
        let most = most_to_play(name);
        let mut left = batch;
        for record in records {
            let bytes = record.bytes.as_slice();
            match self.play_one(rt, name, port, bytes, most, batch, left, gate) {
                Ok(Some(next)) => left = next,
                Ok(None) => return Ok(()),
                Err(fault) => return Err(fault),
            }
        }
        if left == batch {
            return Ok(());
        }
        match self.send(rt, name, port, gate) {
            Ok(_) => Ok(()),
            Err(fault) => Err(fault),
        }
    }
}

/// Writes the frame that a line asks for, in the place of other bytes: the first `len` bytes of
/// destination, source, 88 b5 and the fill byte repeated.
pub(crate) fn write_frame_of_put(
    bytes: &mut Vec<u8>,
    to: Mac,
    from: Mac,
    len: u16,
    fill: u8,
) -> Result<(), NoMemory>
    requires { len ≤ buffer_bytes }
    ensures { OnOk result (bytes.new.items ≡ frame_of_put to from len fill) }
{
    let len = len as usize;
    bytes.clear();
    bytes.reserve(len + 14)?;
    bytes.extend_from_slice(&to.0)?;
    bytes.extend_from_slice(&from.0)?;
    bytes.push(0x88)?;
    bytes.push(0xb5)?;
    bytes.resize(len + 14, fill)?;
    bytes.truncate(len);
    Ok(())
}
