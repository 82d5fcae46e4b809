//! The chain of a port's extra buffers: each links to the next, as netmap(4) has them.
#![tactic(auto)]

mod chain;
pub mod laws;

pub use chain::{link, relink, walk};
pub use nm_types::Chain;
