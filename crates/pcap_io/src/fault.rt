ghost use Rattle.std.specs.Prelude.{◌≡◌};
ghost use Rattle.pcap_io.specs.declared.fault.PcapFault.TheVariants.{NoMemory as OutOfMemory};

use std::alloc::{AllocError, AllocFailed};
use thiserror::Error;

/// Why bytes are not read as a capture. Offsets are counted in bytes from the start of the capture.
#[derive(Clone, Copy, Debug, PartialEq, Eq, Error)]
pub enum PcapFault {
    /// The first four bytes, as a big-endian number, are none of the four magics.
    #[error("not a capture: its magic is {magic:#010x}")]
    BadMagic { magic: u32 },
    /// The version is not 2.4.
    #[error("a capture of version {major}.{minor}, not 2.4")]
    BadVersion { major: u16, minor: u16 },
    /// The low 16 bits of the link field are not those of Ethernet.
    #[error("a capture of link type {link:#x}, not Ethernet")]
    BadLink { link: u32 },
    /// The record at this offset has more than 262,144 captured bytes.
    #[error("the record at byte {offset} has {len} bytes, more than 262144")]
    LongRecord { offset: u64, len: u32 },
    /// The header, at offset 0, or the record at this offset is not whole.
    #[error("the capture ends within the header or record at byte {offset}")]
    Truncated { offset: u64 },
    /// Out of memory.
    #[error("out of memory")]
    NoMemory,
}

impl From<AllocError> for PcapFault {
    ghost from_gives = { λ _ e. e ≡ OutOfMemory };

    fn from(_: AllocError) -> Self {
        PcapFault::NoMemory
    }
}

impl<T: Drop> From<AllocFailed<T>> for PcapFault {
    ghost from_gives = { λ _ e. e ≡ OutOfMemory };

    fn from(_: AllocFailed<T>) -> Self {
        PcapFault::NoMemory
    }
}
