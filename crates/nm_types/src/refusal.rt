ghost use Rattle.std.specs.Prelude.{◌≡◌};

use crate::fault::SyncFault;
use std::error::Error;
use std::fmt;

/// Why a sync refuses the positions that a user left in a ring.
#[derive(Clone, Copy, Debug, PartialEq, Eq)]
pub enum RingFault {
    /// `head` is not a slot of the ring, or is past the tail `to`, seen from the last accepted
    /// head `from`.
    HeadOut { head: u32, from: u32, to: u32 },
    /// `cur` is not a slot of the ring, or is past the tail `to`, seen from the head `from`.
    CurOut { cur: u32, from: u32, to: u32 },
}

impl fmt::Display for RingFault {
    fn fmt<W: fmt::Write>(&self, f: &mut fmt::Formatter<W>) -> fmt::Result {
        SyncFault::from(*self).fmt(f)
    }
}

impl Error for RingFault {}

/// Why a sync refuses a pushed slot.
#[derive(Clone, Copy, Debug, PartialEq, Eq)]
pub enum SlotFault {
    /// A transmit slot is marked indirect.
    Indirect { slot: u32 },
    /// The slot names no buffer of the pool.
    IndexOut { slot: u32, idx: u32 },
    /// The slot names a buffer that is not one of the session's named ones.
    NotHeld { slot: u32, idx: u32 },
    /// An earlier slot of the pushed range names the same buffer.
    Doubled { slot: u32, idx: u32 },
    /// The slot names another buffer than the one in its place, and is not marked so.
    Unannounced { slot: u32, idx: u32, was: u32 },
    /// A transmit slot has more bytes than a buffer.
    LongLen { slot: u32, len: u16 },
    /// A transmit slot's frame goes on where it must end.
    Fragment { slot: u32 },
}

impl fmt::Display for SlotFault {
    fn fmt<W: fmt::Write>(&self, f: &mut fmt::Formatter<W>) -> fmt::Result {
        SyncFault::from(*self).fmt(f)
    }
}

impl Error for SlotFault {}

impl From<RingFault> for SyncFault {
    ghost use Rattle.nm_types.specs.SyncFaults.{ring_sync_fault};

    ghost from_gives = { λ fault e. e ≡ ring_sync_fault fault };

    fn from(fault: RingFault) -> Self {
        match fault {
            RingFault::HeadOut { head, from, to } => SyncFault::HeadOut { head, from, to },
            RingFault::CurOut { cur, from, to } => SyncFault::CurOut { cur, from, to },
        }
    }
}

impl From<SlotFault> for SyncFault {
    ghost use Rattle.nm_types.specs.SyncFaults.{slot_sync_fault};

    ghost from_gives = { λ fault e. e ≡ slot_sync_fault fault };

    fn from(fault: SlotFault) -> Self {
        match fault {
            SlotFault::Indirect { slot } => SyncFault::Indirect { slot },
            SlotFault::IndexOut { slot, idx } => SyncFault::IndexOut { slot, idx },
            SlotFault::NotHeld { slot, idx } => SyncFault::NotHeld { slot, idx },
            SlotFault::Doubled { slot, idx } => SyncFault::Doubled { slot, idx },
            SlotFault::Unannounced { slot, idx, was } => SyncFault::Unannounced { slot, idx, was },
            SlotFault::LongLen { slot, len } => SyncFault::LongLen { slot, len },
            SlotFault::Fragment { slot } => SyncFault::Fragment { slot },
        }
    }
}
