//! Frames over several slots, as netmap(4) has them with NS_MOREFRAG: a frame is cut into parts of
//! 2048 bytes, but for the last one.
#![tactic(auto)]

mod cuts;
pub mod laws;
mod sizes;

pub use cuts::part;
pub use nm_types::{MAX_FRAME_BYTES, slots};
pub use sizes::{Sizes, Told};
