//! The fabric: one book for all callers. Each call takes the turn, makes at most one step of the
//! book, and gives the turn up, so every caller sees one history and knows which of its entries are
//! its own.
#![tactic(auto)]

mod fabric;
mod filling;
mod gates;
mod kept;
mod passes;
mod ports;
mod putting;
mod reading;
mod sending;
mod sessions;
mod settling;

pub use fabric::Fabric;
pub use filling::{Frames, fill};
pub use gates::{OwnGate, SharedGate};
pub use kept::{Fixed, Pass, Shared};
pub use reading::PortRead;
pub use settling::Shares;
pub use vale_book::{Book, Granted, LeasesOut, Offers, Opened, Put, PutFault, Synced};
