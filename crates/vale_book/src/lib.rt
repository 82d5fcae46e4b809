//! The switch over its parts: names, learning tables, ports with their lines, watches, counters and
//! the pool, and the record of every step. Buffers are owned: what an opening, a grant or a sync
//! hands out leaves the book, and what comes back is the book's again.
#![tactic(auto)]

mod asking;
mod book;
mod closing;
mod coming;
mod completing;
mod fault;
mod finishing;
pub mod fitting;
mod granting;
mod leaving;
mod noting;
mod opening;
mod putting;
mod reading;
mod sending;
mod shutting;
mod watching;

pub use asking::{PortSeen, Ready};
pub use book::Book;
pub use fault::PutFault;
pub use finishing::LeasesOut;
pub use vale_steps::granting::Granted;
pub use vale_steps::offers::Offers;
pub use vale_steps::opening::Opened;
pub use vale_steps::putting::Put;
pub use vale_steps::reading::Synced;
