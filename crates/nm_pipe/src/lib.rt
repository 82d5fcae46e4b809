//! The exchange of a netmap(4) pipe: frames pass to the other end with their buffers, and buffers
//! of the other end come back in their place.
#![tactic(auto)]

mod exchange;

pub use exchange::give;
