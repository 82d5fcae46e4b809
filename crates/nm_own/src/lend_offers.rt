ghost use Rattle.std.specs.Prelude.{ℕ, List, ◌≡◌, [], None, length, drop, map, IsSome, IfOk};
ghost use Rattle.nm_own.specs.Words.{AllOf, AreOf, Buffer, SideState, Tx, cleared, indices_of};
ghost use Rattle.nm_own.specs.Words.{offered_lengths, own_after_put, refusal_at, ring_at};
ghost use Rattle.nm_own.specs.Words.{vec_capacity};
ghost use Rattle.nm_own.specs.Opening.{blank_arrivals};
ghost use Rattle.nm_own.specs.LentOffers.{IsLentOffers, CanBeTaken};
ghost use Rattle.nm_own.specs.LentSides.{CanLend, IsUndone, Lends};

use crate::lending::{LentSide, lend, undo};
use crate::own::{OwnSide, fitting_ring, ring_at};
use nm_port::exchange::name_slots;
use nm_port::gather::gather_lengths;
use nm_port::take::take_at;
use nm_port::undo::put_slots;
use nm_region::Buf;
use nm_types::{NoMemory, PortId, Side};
use std::alloc::Global;

/// An own side whose put is about to be accepted: the buffers of the frames that it offers are lent
/// out. It cannot be dropped: `taken` ends it once those of the frames that were taken are gone for
/// good and the others came back, `undo` once all of them came back.
pub struct LentOffers {
    pub(crate) port: PortId,
    pub(crate) lent: LentSide,
}

impl OwnSide {
    /// The lengths of the frames that a put of a transmit ring offers, for a push that no check
    /// refuses.
    pub fn offered_lengths(&self, alloc: Global, port: PortId) -> Result<Vec<u16>, NoMemory>
        requires ring { IsSome (ring_at Tx self.now.own port.0) }
        requires passes { refusal_at Tx port.0 self.now.own ≡ None }
        ensures { IfOk result (λ lengths. lengths.items ≡ offered_lengths port.0 self.now.own) }
    {
        gather_lengths(alloc, fitting_ring(&self.ports, port, Side::Tx))
    }

    /// Lends the buffers of the frames that a put of a transmit ring offers, for a push that no check
    /// refuses: those of the slots still pushed, and then those that the slots pushed now name. They
    /// go to `pending`, which has room for them. `notes` is an empty vector with room for as many
    /// numbers.
    pub fn lend_offered(self, port: PortId, pending: &mut Vec<Buf>, notes: Vec<u32>) -> LentOffers
        requires { CanLend Tx port self pending.old notes }
        ensures { Lends Tx port self pending.old pending.new result.port result.lent }
    {
        let lent = lend(self, port, Side::Tx, pending, notes);
        LentOffers { port, lent }
    }
}

/// Clears all bytes of buffers.
fn clear_all(bufs: &mut [Buf])
    ensures { bufs.new ≡ map cleared bufs.old }
{
    for buf in bufs.iter_mut() {
        buf.clear_behind(0);
    }
}

impl LentOffers {
    /// What stands after a put of whose frames some were taken, the first ones: for each of them a
    /// buffer that came stands in its place, with all bytes cleared, and the tail goes on by as many
    /// slots; the other frames stay pushed. `rest` has the buffers of those, and nothing else, and
    /// `came` as many as were taken, none if the peer is gone.
    pub fn taken(self, rest: &mut Vec<Buf>, came: Vec<Buf>) -> OwnSide
        requires { (s : SideState) × ((lent : List Buffer)
            × CanBeTaken s lent rest.old.items came.items self) }
        ensures own { (s : SideState) (lent : List Buffer) → IsLentOffers s lent self
            → rest.old.items ≡ drop (length came.items) lent
            → result.own ≡ own_after_put self.port.0 (blank_arrivals (indices_of came.items)) s.own }
        ensures region { (s : SideState) (lent : List Buffer) → IsLentOffers s lent self
            → rest.old.items ≡ drop (length came.items) lent
            → (region : ℕ) → AllOf region s → AreOf region came.items → AllOf region result }
        ensures rest { rest.new.items ≡ [] }
        ensures capacity { vec_capacity rest.new ≡ vec_capacity rest.old }
    {
        let LentOffers { port, lent } = self;
        let LentSide {
            mut hold,
            mut ports,
            marks,
            replaced: _,
        } = lent;
        let taken = came.len() as u32;
        let mut came = came;
        clear_all(&mut came);
        match ring_at(&ports, port, Side::Tx) {
            Some(ring) => {
                let (first, pending) = ring.pending();
                let (side, size, tail) = (ring.side(), ring.ring().size(), ring.ring().tail());
                let (accepted, pushed) = ring.pushed();
                let behind = (first + taken) % size;
                let unnamed = pending.saturating_sub(taken);
                put_slots(&mut hold, port, side, size, behind, unnamed, rest);
                put_slots(&mut hold, port, side, size, first, pending, &mut came);
                name_slots(&mut hold, port, size, accepted, pushed, false);
                name_slots(&mut hold, port, size, tail, taken, true);
            }
            None => unreachable!(),
        }
        came.destroy_empty();
        take_at(&hold, &mut ports, port, taken);
        OwnSide { hold, ports, marks }
    }

    /// The own side as it was before the buffers were lent, once they are back. `pending` has them,
    /// and nothing else.
    pub fn undo(self, pending: &mut Vec<Buf>) -> OwnSide
        requires { (s : SideState) × IsLentOffers s pending.old.items self }
        ensures { IsUndone Tx self.port self.lent pending.old pending.new result }
    {
        let LentOffers { port, lent } = self;
        undo(lent, port, Side::Tx, pending)
    }
}
