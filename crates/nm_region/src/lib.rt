//! The buffers of a pool: 2048 bytes each, owned by whoever has them.
#![tactic(auto)]

mod block;
mod buf;
mod part;
mod region;

pub use buf::{Buf, distinct};
pub use region::Region;
