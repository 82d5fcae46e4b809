//! The learning table of a VALE switch: behind which port an Ethernet address was seen last, as
//! vale(4)'s bridge has it.
#![tactic(auto)]

pub mod laws;
mod table;

pub use table::{Station, Table};
