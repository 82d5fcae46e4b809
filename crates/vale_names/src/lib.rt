//! The names of the ports that are open or shutting: the switches of vale(4) with their ports, and
//! the pipe ends and monitors of netmap(4).
#![tactic(auto)]

mod group;
pub mod laws;
mod names;
mod port;
mod switch;

pub use names::Names;
pub use port::NamedPort;
