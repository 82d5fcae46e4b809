//! The positions of a netmap ring: head, cur and tail, as netmap(4) has them.
#![tactic(auto)]

pub mod laws;
mod ring;

pub use nm_types::RingFault;
pub use ring::Ring;
