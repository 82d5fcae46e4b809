//! A user's own side of its ports, after netmap(4): all its ports, and the buffers in their places.
#![tactic(auto)]

mod acts;
mod copies;
mod edit;
mod extras;
mod forwarding;
pub mod laws;
mod lend;
mod lend_offers;
mod lending;
mod named;
mod open;
mod own;
mod putting;
mod slot_lent;

pub use acts::SlotPlace;
pub use lend::LentBack;
pub use lend_offers::LentOffers;
pub use open::NewPort;
pub use own::OwnSide;
