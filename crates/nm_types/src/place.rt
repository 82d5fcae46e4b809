use crate::id::PortId;

/// Where a session keeps a buffer: a slot of a transmit or receive ring, or an extra position. Both
/// are counted from 0.
#[derive(Clone, Copy, Debug, PartialEq, Eq)]
pub enum Place {
    Tx { port: PortId, slot: u32 },
    Rx { port: PortId, slot: u32 },
    Extra { port: PortId, at: u32 },
}
