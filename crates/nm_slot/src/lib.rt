//! The checks of a pushed slot, after netmap(4).
#![tactic(auto)]

mod checks;
pub mod laws;

pub use checks::judge;
pub use nm_types::{Seen, Slot, SlotFault};
