//! The free buffers of a pool, the smallest first.
#![tactic(auto)]

mod bits;
pub mod laws;
mod pool;

pub use nm_region::Buf;
pub use pool::{Pool, TakeFault};
