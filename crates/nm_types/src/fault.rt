ghost use Rattle.std.specs.Prelude.{◌≡◌};

use crate::id::PortId;
use std::alloc::{AllocError, AllocFailed};
use std::fmt;
use thiserror::Error;

/// Out of memory. A call that answers it has changed nothing of what it was lent.
#[derive(Clone, Copy, Debug, PartialEq, Eq, Error)]
#[error("out of memory")]
pub struct NoMemory;

impl From<AllocError> for NoMemory {
    fn from(_: AllocError) -> Self {
        NoMemory
    }
}

impl<T: Drop> From<AllocFailed<T>> for NoMemory {
    fn from(_: AllocFailed<T>) -> Self {
        NoMemory
    }
}

/// The text is no name of a switch port, a pipe end or a monitor.
#[derive(Clone, Copy, Debug, PartialEq, Eq, Error)]
#[error("not a port's name: expected valeS:P, pipeS{{, pipeS}} or monS, of at most 16 bytes")]
pub struct BadName;

/// Why a line of a script is bad.
#[derive(Clone, Copy, Debug, PartialEq, Eq, Error)]
pub enum LineCause {
    /// A byte that no line may hold, or a word that no line has there.
    #[error("a word that is not expected here")]
    Word,
    /// Another number of words than the line's.
    #[error("too few or too many words")]
    Count,
    /// No number, one out of range, or bad hexadecimal digits.
    #[error("not a number in range")]
    Number,
    /// No name of a user or a port, or no address.
    #[error("not a name or an address")]
    Name,
    /// A user that no line declared.
    #[error("a user that is not declared")]
    User,
    /// A port that this user has not opened, or of the wrong kind.
    #[error("a port that the user has not opened, or of the wrong kind")]
    Port,
    /// A line at a place where it may not stand.
    #[error("a line that may not stand here")]
    Order,
    /// Something declared, opened or saved twice.
    #[error("declared, opened or saved twice")]
    Twice,
}

/// What a record counts.
#[derive(Clone, Copy, Debug, PartialEq, Eq)]
pub enum Part {
    /// Entries, stored and promised.
    Entries,
    /// Bytes of frames, stored.
    Bytes,
}

impl fmt::Display for Part {
    fn fmt<W: fmt::Write>(&self, f: &mut fmt::Formatter<W>) -> fmt::Result {
        match self {
            Part::Entries => write!(f, "entries"),
            Part::Bytes => write!(f, "bytes"),
        }
    }
}

/// Why a step was refused. The step has then changed nothing.
#[derive(Clone, Copy, Debug, PartialEq, Eq, Error)]
pub enum StepFault {
    /// What is used of the record and what the step wants of it pass the limit of that part.
    #[error("the record is full: {used} {what} are used, and {want} more are wanted")]
    RecordFull { what: Part, used: u64, want: u64 },
    /// Out of memory.
    #[error("out of memory")]
    NoMemory,
}

impl From<NoMemory> for StepFault {
    ghost use Rattle.nm_types.specs.declared.fault.StepFault.TheVariants as faults;

    ghost from_gives = { λ _ e. e ≡ faults.NoMemory };

    fn from(_: NoMemory) -> Self {
        StepFault::NoMemory
    }
}

impl From<AllocError> for StepFault {
    ghost use Rattle.nm_types.specs.declared.fault.StepFault.TheVariants as faults;

    ghost from_gives = { λ _ e. e ≡ faults.NoMemory };

    fn from(_: AllocError) -> Self {
        StepFault::NoMemory
    }
}

impl<T: Drop> From<AllocFailed<T>> for StepFault {
    ghost use Rattle.nm_types.specs.declared.fault.StepFault.TheVariants as faults;

    ghost from_gives = { λ _ e. e ≡ faults.NoMemory };

    fn from(_: AllocFailed<T>) -> Self {
        StepFault::NoMemory
    }
}

/// Why a sync was refused. After one of the first nine the ring is reset; after `PeerGone` the
/// positions are accepted and the frames stay pushed; after the others nothing has changed.
#[derive(Clone, Copy, Debug, PartialEq, Eq, Error)]
pub enum SyncFault {
    /// `head` is not a slot of the ring, or is past the tail `to`, seen from the last accepted
    /// head `from`.
    #[error("head {head} is not between {from} and the tail {to}")]
    HeadOut { head: u32, from: u32, to: u32 },
    /// `cur` is not a slot of the ring, or is past the tail `to`, seen from the head `from`.
    #[error("cur {cur} is not between the head {from} and the tail {to}")]
    CurOut { cur: u32, from: u32, to: u32 },
    /// A transmit slot is marked indirect.
    #[error("slot {slot} is marked NS_INDIRECT")]
    Indirect { slot: u32 },
    /// The slot names no buffer of the pool.
    #[error("slot {slot} names {idx}, which is no buffer")]
    IndexOut { slot: u32, idx: u32 },
    /// The slot names a buffer that is not one of the session's named ones.
    #[error("slot {slot} names buffer {idx}, which the session does not hold in a place")]
    NotHeld { slot: u32, idx: u32 },
    /// An earlier slot of the pushed range names the same buffer.
    #[error("slot {slot} names buffer {idx}, as an earlier slot does")]
    Doubled { slot: u32, idx: u32 },
    /// The slot names another buffer than the one in its place, and is not marked so.
    #[error("slot {slot} names buffer {idx} in place of {was} without NS_BUF_CHANGED")]
    Unannounced { slot: u32, idx: u32, was: u32 },
    /// A transmit slot has more bytes than a buffer.
    #[error("slot {slot} has {len} bytes, more than a buffer")]
    LongLen { slot: u32, len: u16 },
    /// A transmit slot's frame goes on where it must end.
    #[error("slot {slot} is marked NS_MOREFRAG")]
    Fragment { slot: u32 },
    /// The other end of the pipe is not open.
    #[error("the pipe's other end is not open")]
    PeerGone,
    /// What is used of the record and what the sync wants of it pass the limit of that part.
    #[error("the record is full: {used} {what} are used, and {want} more are wanted")]
    RecordFull { what: Part, used: u64, want: u64 },
    /// Out of memory.
    #[error("out of memory")]
    NoMemory,
}

impl From<StepFault> for SyncFault {
    ghost use Rattle.nm_types.specs.Faults.{sync_fault_of};

    ghost from_gives = { λ fault e. e ≡ sync_fault_of fault };

    fn from(fault: StepFault) -> Self {
        match fault {
            StepFault::RecordFull { what, used, want } => SyncFault::RecordFull {
                what,
                used,
                want,
            },
            StepFault::NoMemory => SyncFault::NoMemory,
        }
    }
}

impl From<NoMemory> for SyncFault {
    ghost use Rattle.nm_types.specs.declared.fault.SyncFault.TheVariants as faults;

    ghost from_gives = { λ _ e. e ≡ faults.NoMemory };

    fn from(_: NoMemory) -> Self {
        SyncFault::NoMemory
    }
}

/// Why a port was not opened.
#[derive(Clone, Copy, Debug, PartialEq, Eq, Error)]
pub enum OpenFault {
    /// A ring's size or the number of extra buffers is out of range for a port of this kind.
    #[error("a ring has 2 to 4096 slots (a monitor no transmit ring), a port up to 1024 extra buffers")]
    BadSize,
    /// The name's switch has no port, and the most switches are there.
    #[error("there are as many switches as there may be")]
    SwitchesFull,
    /// The name's switch has the most ports, or the most pipe ends or monitors are there.
    #[error("there are as many ports of this kind as there may be")]
    PortsFull,
    /// A port of this name is open or shutting.
    #[error("a port of this name is there")]
    NameTaken,
    /// The port wants more buffers than are free.
    #[error("{want} buffers are wanted, and {have} are free")]
    NoBuffers { want: u32, have: u32 },
    /// What is used of the record and what the step wants of it pass the limit of that part.
    #[error("the record is full: {used} {what} are used, and {want} more are wanted")]
    RecordFull { what: Part, used: u64, want: u64 },
    /// Out of memory.
    #[error("out of memory")]
    NoMemory,
}

impl From<StepFault> for OpenFault {
    ghost use Rattle.nm_types.specs.Faults.{open_fault_of};

    ghost from_gives = { λ fault e. e ≡ open_fault_of fault };

    fn from(fault: StepFault) -> Self {
        match fault {
            StepFault::RecordFull { what, used, want } => OpenFault::RecordFull {
                what,
                used,
                want,
            },
            StepFault::NoMemory => OpenFault::NoMemory,
        }
    }
}

impl From<NoMemory> for OpenFault {
    ghost use Rattle.nm_types.specs.declared.fault.OpenFault.TheVariants as faults;

    ghost from_gives = { λ _ e. e ≡ faults.NoMemory };

    fn from(_: NoMemory) -> Self {
        OpenFault::NoMemory
    }
}

/// Why a monitor does not watch a port.
#[derive(Clone, Copy, Debug, PartialEq, Eq, Error)]
pub enum WatchFault {
    /// No open port has that name.
    #[error("no open port has this name")]
    NoTarget,
    /// The port has a monitor already: this one.
    #[error("port {} is watching it", by.0)]
    Watched { by: PortId },
    /// What is used of the record and what the step wants of it pass the limit of that part.
    #[error("the record is full: {used} {what} are used, and {want} more are wanted")]
    RecordFull { what: Part, used: u64, want: u64 },
    /// Out of memory.
    #[error("out of memory")]
    NoMemory,
}

impl From<StepFault> for WatchFault {
    ghost use Rattle.nm_types.specs.Faults.{watch_fault_of};

    ghost from_gives = { λ fault e. e ≡ watch_fault_of fault };

    fn from(fault: StepFault) -> Self {
        match fault {
            StepFault::RecordFull { what, used, want } => WatchFault::RecordFull {
                what,
                used,
                want,
            },
            StepFault::NoMemory => WatchFault::NoMemory,
        }
    }
}

impl From<NoMemory> for WatchFault {
    ghost use Rattle.nm_types.specs.declared.fault.WatchFault.TheVariants as faults;

    ghost from_gives = { λ _ e. e ≡ faults.NoMemory };

    fn from(_: NoMemory) -> Self {
        WatchFault::NoMemory
    }
}
