use nm_types::{Part, StepFault};
use thiserror::Error;

/// Why a put gave nothing.
#[derive(Clone, Copy, Debug, PartialEq, Eq, Error)]
pub enum PutFault {
    /// The other end of the pipe is not open. This is recorded.
    #[error("the pipe's other end is not open")]
    PeerGone,
    /// What is used of the record and what the put wants of it pass the limit of that part.
    #[error("the record is full: {used} {what} are used, and {want} more are wanted")]
    RecordFull { what: Part, used: u64, want: u64 },
    /// Out of memory.
    #[error("out of memory")]
    NoMemory,
}

impl From<StepFault> for PutFault {
    ghost use Rattle.std.specs.Prelude.{◌≡◌};
    ghost use Rattle.vale_book.specs.PutFaults.{put_fault_of};

    ghost from_gives = { λ fault e. e ≡ put_fault_of fault };

    fn from(fault: StepFault) -> Self {
        match fault {
            StepFault::RecordFull { what, used, want } => PutFault::RecordFull { what, used, want },
            StepFault::NoMemory => PutFault::NoMemory,
        }
    }
}
