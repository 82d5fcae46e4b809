//! A transmit sync of a pipe end: what is pushed is offered to the other end.
ghost use Rattle.std.specs.Prelude.{ℕ, true, ◌≡◌, ◌≤◌, List, [], length, map, None};
ghost use Rattle.std.specs.Prelude.{IsSome, IfOk, IfErr, OnOk, OnErr};
ghost use Rattle.nm_user.specs.Words.{AllOf, AreOf, Got, SideState, Tx, blank_arrivals, buffers_of};
ghost use Rattle.nm_user.specs.Words.{bytes_at, bytes_of_buffers, indices_of, offered_buffers};
ghost use Rattle.nm_user.specs.Words.{offered_lengths, own_after_put, refusal_at, ring_at};
ghost use Rattle.nm_user.specs.Words.{vec_capacity};
ghost use Rattle.nm_user.specs.Sessions.{IsThere};
ghost use Rattle.nm_user.specs.Offering.{gots_of, side_after_fault, sync_fault_of_put};
ghost use Rattle.nm_user.specs.Offering.{IsOffering, CanTake};
ghost use Rattle.nm_user.specs.Syncs.{IsPut, PassesBy, PassesTx, TransmitsNot};

use crate::receiving::put_back;
use crate::sending::Sent;
use crate::session::Session;
use nm_own::{LentOffers, OwnSide};
use nm_region::Buf;
use nm_types::{NoMemory, PortId, SyncFault};
use std::alloc::Global;
use std::marker::Model;
use std::sync::Wait;
use vale_book::{Put, PutFault};
use vale_fabric::{Frames, OwnGate};
use vale_line::Got;

/// Memory for the frames that a put offers, and how many bytes each of them has.
pub(crate) struct OfferRoom {
    lengths: Vec<u16>,
    notes: Vec<u32>,
    bufs: Vec<Buf>,
    pending: Vec<Got>,
}

impl Model for OfferRoom {
    ghost use Rattle.std.specs.Prelude.{ℕ, List};

    ghost Value = { List ℕ };

    ghost view = { λ r. r.lengths.items };

    ghost use Rattle.nm_user.specs.Offering.{IsOfferRoom};

    ghost invariant = { IsOfferRoom };
}

impl OfferRoom {
    fn new(alloc: Global, lengths: Vec<u16>) -> Result<OfferRoom, NoMemory>
        ensures { IfOk result (λ room. room ≡ lengths.items) }
    {
        let count = lengths.len();
        let notes = Vec::with_capacity(alloc, count)?;
        let bufs = Vec::with_capacity(alloc, count)?;
        let Ok(pending) = Vec::with_capacity(alloc, count) else {
            bufs.destroy_empty();
            return Err(NoMemory);
        };
        Ok(OfferRoom {
            lengths,
            notes,
            bufs,
            pending,
        })
    }

    fn into_vecs(self) -> (Vec<u16>, Vec<u32>, Vec<Buf>, Vec<Got>)
        ensures lengths { result.0.items ≡ self }
        ensures notes { result.1.items ≡ [] }
        ensures bufs { result.2.items ≡ [] }
        ensures pending { result.3.items ≡ [] }
        ensures notes_room { length self ≤ vec_capacity result.1 }
        ensures bufs_room { length self ≤ vec_capacity result.2 }
        ensures pending_room { length self ≤ vec_capacity result.3 }
    {
        let OfferRoom {
            lengths,
            notes,
            bufs,
            pending,
        } = self;
        (lengths, notes, bufs, pending)
    }
}

impl Drop for OfferRoom {
    fn drop(self) {
        let (_, _, bufs, pending) = self.into_vecs();
        bufs.destroy_empty();
        pending.destroy_empty();
    }
}

/// An own side whose put is about to be made, and the frames that it offers.
pub(crate) struct Offering {
    lent: LentOffers,
    pending: Vec<Got>,
    /// Empty, with room for the buffers of the frames.
    bufs: Vec<Buf>,
}

/// Makes buffers frames of so many bytes.
fn wrap(bufs: &mut Vec<Buf>, lengths: &[u16], pending: &mut Vec<Got>)
    requires count { length bufs.old.items ≡ length lengths.now }
    requires empty { pending.old.items ≡ [] }
    requires room { length lengths.now ≤ vec_capacity pending.old }
    ensures pending { pending.new.items ≡ gots_of bufs.old.items lengths.now }
    ensures bufs { bufs.new.items ≡ [] }
    ensures capacity { vec_capacity bufs.new ≡ vec_capacity bufs.old }
{
    bufs.reverse();
    for len in lengths {
        pending.push_reserved(Got {
            buf: bufs.take_last(),
            len: *len,
            rest: 0,
        });
    }
}

/// Takes the buffers of frames out.
fn unwrap(pending: &mut Vec<Got>, bufs: &mut Vec<Buf>)
    requires empty { bufs.old.items ≡ [] }
    requires room { length pending.old.items ≤ vec_capacity bufs.old }
    ensures bufs { bufs.new.items ≡ buffers_of pending.old.items }
    ensures pending { pending.new.items ≡ [] }
{
    pending.reverse();
    while let Some(got) = pending.pop() {
        bufs.push_reserved(got.into_buf());
    }
}

impl Offering {
    /// Lends the frames that a put of a transmit ring offers, for a push that no check refuses.
    fn new(own: OwnSide, port: PortId, room: OfferRoom) -> Offering
        requires ring { IsSome (ring_at Tx own.own port.0) }
        requires passes { refusal_at Tx port.0 own.own ≡ None }
        requires room { room ≡ offered_lengths port.0 own.own }
        ensures offering { IsOffering own result }
        ensures port { result.lent.port ≡ port }
        ensures pending { result.pending.items
            ≡ gots_of (buffers_of result.pending.items) (offered_lengths port.0 own.own) }
        ensures buffers { indices_of (buffers_of result.pending.items)
            ≡ offered_buffers port.0 own.own }
        ensures bytes { bytes_of_buffers (buffers_of result.pending.items)
            ≡ map (bytes_at own.own) (offered_buffers port.0 own.own) }
        ensures out { (region : ℕ) → AllOf region own
            → AreOf region (buffers_of result.pending.items) }
    {
        let (lengths, notes, mut bufs, mut pending) = room.into_vecs();
        let lent = own.lend_offered(port, &mut bufs, notes);
        wrap(&mut bufs, &lengths, &mut pending);
        Offering {
            lent,
            pending,
            bufs,
        }
    }

    /// The own side that lent the frames, and their buffers.
    fn into_lent(self) -> (LentOffers, Vec<Buf>)
        requires empty { self.bufs.items ≡ [] }
        requires room { length self.pending.items ≤ vec_capacity self.bufs }
        ensures lent { result.0 ≡ self.lent }
        ensures bufs { result.1.items ≡ buffers_of self.pending.items }
    {
        let Offering {
            lent,
            mut pending,
            mut bufs,
        } = self;
        unwrap(&mut pending, &mut bufs);
        pending.destroy_empty();
        (lent, bufs)
    }

    /// The own side as it was before the frames were lent, of which none was taken.
    fn undo(self) -> OwnSide
        requires { (s : SideState) × IsOffering s self }
        ensures { (s : SideState) → IsOffering s self → result ≡ s }
    {
        let (lent, mut bufs) = self.into_lent();
        let own = lent.undo(&mut bufs);
        bufs.destroy_empty();
        own
    }

    /// What stands of the own side once the first of the frames were taken, and for each of them a
    /// buffer came.
    fn taken(self, came: Vec<Buf>) -> OwnSide
        requires { (s : SideState) × ((offered : List Got) × CanTake s offered self came.items) }
        ensures own { (s : SideState) (offered : List Got) → CanTake s offered self came.items
            → result.own ≡ own_after_put self.lent.port.0 (blank_arrivals (indices_of came.items))
            s.own }
        ensures region { (s : SideState) (offered : List Got) → CanTake s offered self came.items
            → (region : ℕ) → AllOf region s → AreOf region came.items → AllOf region result }
    {
        let (lent, mut bufs) = self.into_lent();
        let own = lent.taken(&mut bufs, came);
        bufs.destroy_empty();
        own
    }

    /// What stands of the own side after a put that gave nothing. If the other end is gone the push is
    /// accepted, and its frames stay pushed.
    fn refused(self, alloc: Global, fault: PutFault) -> OwnSide
        requires { (s : SideState) × IsOffering s self }
        ensures own { (s : SideState) → IsOffering s self
            → result.own ≡ (side_after_fault fault self.lent.port.0 s).own }
        ensures region { (s : SideState) → IsOffering s self
            → (region : ℕ) → AllOf region s → AllOf region result }
    {
        match fault {
            PutFault::PeerGone => self.taken(Vec::new(alloc)),
            PutFault::RecordFull { .. } => self.undo(),
            PutFault::NoMemory => self.undo(),
        }
    }
}

/// What a put that gave nothing is to a sync.
fn sync_fault_of(fault: PutFault) -> SyncFault
    ensures { result ≡ sync_fault_of_put fault }
{
    match fault {
        PutFault::PeerGone => SyncFault::PeerGone,
        PutFault::RecordFull { what, used, want } => SyncFault::RecordFull { what, used, want },
        PutFault::NoMemory => SyncFault::NoMemory,
    }
}

impl<'f> Session<'f> {
    /// All memory that a put will want here.
    fn room_to_offer(&self, port: PortId) -> Result<OfferRoom, NoMemory>
        requires ring { IsSome (ring_at Tx self.now.own port.0) }
        requires passes { refusal_at Tx port.0 self.now.own ≡ None }
        ensures { IfOk result (λ room. room ≡ offered_lengths port.0 self.now.own) }
    {
        match &self.own {
            Some(own) => OfferRoom::new(self.alloc, own.offered_lengths(self.alloc, port)?),
            None => unreachable!(),
        }
    }

    /// Offers what is pushed at the transmit ring of a pipe end to the other end, for a push that no
    /// check refuses.
    pub(crate) fn put_sync<R: Wait, G: OwnGate>(
        &mut self,
        rt: &R,
        port: PortId,
        gate: &mut G,
    ) -> Result<Sent, SyncFault>
        requires { PassesTx true self.old.own port.0 }
        ensures put { IfOk result (IsPut self.old self.new port.0) }
        ensures refused { IfErr result (TransmitsNot self.old self.new port.0) }
        ensures there { IsThere None self.new }
        ensures passed { OnOk result (PassesBy self.old self.new (G.passed gate.old)
            (G.passed gate.new)) }
        ensures unpassed { OnErr result (G.passed gate.new ≡ G.passed gate.old) }
    {
        let room = self.room_to_offer(port)?;
        let own = match self.own.take() {
            Some(own) => own,
            None => unreachable!(),
        };
        let mut offering = Offering::new(own, port, room);
        let Put {
            took,
            back,
            copies,
            offers,
        } = match self
            .fabric
            .pipe_put(rt, &mut self.pass, port, &mut offering.pending)
        {
            Ok(put) => put,
            Err(fault) => {
                put_back(&mut self.own, offering.refused(self.alloc, fault));
                return Err(sync_fault_of(fault));
            }
        };
        let entry = offers.entry();
        put_back(&mut self.own, offering.taken(back));
        let frames = Frames::Batch(&copies);
        let shares = self
            .fabric
            .settle(rt, &mut self.pass, gate, self.user, offers, frames);
        Ok(Sent {
            entry,
            pushed: took,
            short: 0,
            lone: 0,
            given: shares.given,
            full: shares.full,
            gone: shares.gone,
        })
    }
}
