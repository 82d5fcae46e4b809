ghost use Rattle.std.specs.Prelude.{◌≡◌, ◌&&◌};
ghost use Rattle.nm_types.specs.SyncFaults.{is_check_fault};
ghost use Rattle.vale_entry.specs.declared.entry.Ask.TheVariants as asks;
ghost use Rattle.vale_entry.specs.World.{Port};
ghost use Rattle.vale_entry.specs.Legal.{has_ring, can_reset, fits_fault};
ghost use Rattle.vale_book.specs.Asking.{IsSeen};
ghost use Rattle.vale_serve.specs.Joined.{AsksAt};
ghost use Rattle.vale_serve.specs.Words.{IsServed, IsUser, open_port, standing};

use crate::users::User;
use nm_types::{PortId, Side, StepFault, SyncFault};
use vale_book::{Book, PortSeen};
use vale_entry::Reply;

/// Tells whether a port has a ring on this side: a monitor has no transmit ring.
fn has_ring(seen: PortSeen, side: Side) -> bool
    ensures { (port : Port) → IsSeen port seen → result ≡ has_ring side port }
{
    match side {
        Side::Tx => seen.tx > 0,
        Side::Rx => true,
    }
}

/// Tells whether it is one of the nine refusals of a sync's checks.
#[tactic(auto, using(crate::proofs::Resets::check_faults))]
fn is_check_fault(fault: SyncFault) -> bool
    ensures { result ≡ (is_check_fault fault && fits_fault fault) }
{
    match fault {
        SyncFault::HeadOut {
            head: _,
            from: _,
            to: _,
        } => true,
        SyncFault::CurOut {
            cur: _,
            from: _,
            to: _,
        } => true,
        SyncFault::Indirect { slot: _ } => true,
        SyncFault::IndexOut { slot: _, idx: _ } => true,
        SyncFault::NotHeld { slot: _, idx: _ } => true,
        SyncFault::Doubled { slot: _, idx: _ } => true,
        SyncFault::Unannounced {
            slot: _,
            idx: _,
            was: _,
        } => true,
        SyncFault::LongLen { slot: _, len: _ } => true,
        SyncFault::Fragment { slot: _ } => true,
        SyncFault::PeerGone | SyncFault::RecordFull { .. } | SyncFault::NoMemory => false,
    }
}

/// Tells whether the ring on this side of a port may be reset for this refusal.
fn can_reset(seen: PortSeen, side: Side, fault: SyncFault) -> bool
    ensures { (port : Port) → IsSeen port seen → result ≡ can_reset side fault port }
{
    has_ring(seen, side) && is_check_fault(fault)
}

/// A sync of a session's port was refused, and the ring reset.
pub(crate) fn reset(
    book: &mut Book,
    user: &User,
    port: PortId,
    seen: PortSeen,
    side: Side,
    fault: &SyncFault,
) -> Result<Option<Reply>, StepFault>
    requires { AsksAt book.old user.now (open_port (standing book.old).world.ports port.0) seen }
    ensures served { IsServed book.old book.new (asks.Reset port side fault.now) result }
    ensures kept { IsUser book.new user.now }
{
    if !can_reset(seen, side, *fault) {
        return Ok(None);
    }
    book.reset(port, side, fault)?;
    Ok(Some(Reply::Made))
}
