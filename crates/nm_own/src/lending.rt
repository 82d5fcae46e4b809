ghost use Rattle.std.specs.Prelude.{◌≡◌, ◌<◌};
ghost use Rattle.nm_own.specs.Words.{SideState};
ghost use Rattle.nm_own.specs.LentSides.{CanLend, IsLent, IsUndone, Lends};
ghost use Rattle.nm_own.specs.LentSides.{first_lent, lent_count_of, unnamed_count};

use crate::own::{OwnSide, ring_at};
use nm_hold::Hold;
use nm_port::undo::{exchange_back, exchange_noted, put_slots, take_slots};
use nm_port::{Marks, SlotRing, UserPort};
use nm_region::Buf;
use nm_types::{PortId, Side};

/// An own side whose push on a side of a port is about to be accepted: the buffers of its slots are
/// lent out. It cannot be dropped.
pub(crate) struct LentSide {
    pub(crate) hold: Hold,
    pub(crate) ports: Vec<UserPort>,
    pub(crate) marks: Marks,
    /// The buffers that stood in the places of the pushed slots; none if each slot names the one in
    /// its place.
    pub(crate) replaced: Vec<u32>,
}

/// The first of the slots whose buffers a push on a side lends, the number of them, and how many of
/// them are still pushed.
fn lent_slots(side: Side, ring: &SlotRing) -> (u32, u32, u32)
    requires { ring.now.ring.head < ring.now.ring.size }
    ensures first { result.0 ≡ first_lent side ring.now }
    ensures count { result.1 ≡ lent_count_of side ring.now }
    ensures unnamed { result.2 ≡ unnamed_count side ring.now }
{
    match side {
        Side::Tx => {
            let (first, unnamed) = ring.pending();
            let (_, count) = ring.offered();
            (first, count, unnamed)
        }
        Side::Rx => {
            let (first, count) = ring.pushed();
            (first, count, 0)
        }
    }
}

/// Lends the buffers of a push on a side of a port, which no check refuses. They go to `to`, which has
/// room for them, in the order of the slots. `notes` is an empty vector with room for as many numbers.
pub(crate) fn lend(
    own: OwnSide,
    port: PortId,
    side: Side,
    to: &mut Vec<Buf>,
    notes: Vec<u32>,
) -> LentSide
    requires { CanLend side port own to.old notes }
    ensures { Lends side port own to.old to.new port result }
{
    let OwnSide {
        mut hold,
        ports,
        marks,
    } = own;
    let mut replaced = notes;
    match ring_at(&ports, port, side) {
        Some(ring) => {
            exchange_noted(&mut hold, port, ring, &mut replaced);
            let (first, count, _) = lent_slots(side, ring);
            let size = ring.ring().size();
            take_slots(&mut hold, port, ring.side(), size, first, count, to);
        }
        None => unreachable!(),
    }
    LentSide {
        hold,
        ports,
        marks,
        replaced,
    }
}

/// The own side as it was before the buffers of a push on a side of a port were lent, once they are
/// back. `bufs` has them, and nothing else.
pub(crate) fn undo(lent: LentSide, port: PortId, side: Side, bufs: &mut Vec<Buf>) -> OwnSide
    requires { (s : SideState) × IsLent side port s bufs.old.items lent }
    ensures { IsUndone side port lent bufs.old bufs.new result }
{
    let LentSide {
        mut hold,
        ports,
        marks,
        replaced,
    } = lent;
    match ring_at(&ports, port, side) {
        Some(ring) => {
            let (first, _, unnamed) = lent_slots(side, ring);
            let size = ring.ring().size();
            put_slots(&mut hold, port, ring.side(), size, first, unnamed, bufs);
            exchange_back(&mut hold, port, ring, replaced);
        }
        None => unreachable!(),
    }
    OwnSide { hold, ports, marks }
}
