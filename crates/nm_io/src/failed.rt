use thiserror::Error;

/// A read or a write failed. It changed no contents, and was counted.
#[derive(Clone, Copy, Debug, PartialEq, Eq, Error)]
#[error("a read or a write failed")]
pub struct Failed;
