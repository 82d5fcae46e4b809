//! The own side of one port, after netmap(4): its two rings with their slots, the checks of a sync,
//! and the exchange of the buffers in its places.
#![tactic(auto)]

mod buf_room;
pub mod checks;
pub mod close;
pub mod exchange;
pub mod fill;
pub mod gather;
mod kept;
mod marks;
mod port;
pub mod receive;
pub mod reset;
mod slot_ring;
mod slots;
pub mod take;
pub mod undo;

pub use buf_room::BufRoom;
pub use marks::Marks;
pub use port::UserPort;
pub use slot_ring::SlotRing;
pub use slots::goes_on;
