use crate::buf_room::BufRoom;
use crate::slot_ring::SlotRing;
use nm_types::{Name, PortId};

/// A port of a session.
#[derive(Drop)]
pub struct UserPort {
    pub id: PortId,
    pub name: Name,
    /// Its transmit ring; a monitor has none.
    pub tx: Option<SlotRing>,
    pub rx: SlotRing,
    /// The number of its extra buffers.
    pub extra: u32,
    /// The index that the list of its extra buffers begins with, any number.
    pub extra_head: u32,
    /// Room for the buffers in all its places, for when it is closed.
    pub back: BufRoom,
}
