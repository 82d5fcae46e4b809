ghost use Rattle.std.specs.Prelude.{◌≡◌};
ghost use Rattle.nm_io.specs.declared.read_error.ReadError.TheVariants as faults;

use crate::Failed;
use std::alloc::AllocError;
use thiserror::Error;

/// Why a file was not read whole.
#[derive(Clone, Copy, Debug, PartialEq, Eq, Error)]
pub enum ReadError {
    /// It has more bytes than the limit.
    #[error("the file is longer than allowed")]
    TooLong,
    /// A read failed.
    #[error("the file could not be read")]
    Failed,
    /// Out of memory.
    #[error("out of memory")]
    NoMemory,
}

impl From<Failed> for ReadError {
    ghost from_gives = { λ _ e. e ≡ faults.Failed };

    fn from(_: Failed) -> Self {
        ReadError::Failed
    }
}

impl From<AllocError> for ReadError {
    ghost from_gives = { λ _ e. e ≡ faults.NoMemory };

    fn from(_: AllocError) -> Self {
        ReadError::NoMemory
    }
}
