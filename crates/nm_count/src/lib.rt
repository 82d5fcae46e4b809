//! The counters of the ports: frames sent, short, lone, given, dropped because a ring was full, and
//! read.
#![tactic(auto)]

pub mod laws;
mod tally;

pub use tally::{Tallied, Tally};
