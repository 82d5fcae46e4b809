use crate::Bytes;

/// A record of a capture.
#[derive(Debug, Drop)]
pub struct Record {
    /// Seconds since 1970-01-01 00:00 UTC.
    pub seconds: u32,
    /// The fraction of the second, in the unit of the capture that it was read from: microseconds
    /// or nanoseconds, by the capture's magic. The unit itself is not kept; `write_header` says
    /// microseconds.
    pub fraction: u32,
    /// The bytes of the frame, of which the first were captured.
    pub original: u32,
    /// The captured bytes.
    pub bytes: Bytes,
}
