//! The load generator: from a number, a script of four users that put frames side by side.
#![tactic(auto)]

mod generator;
mod sheet;
mod workload;

pub use generator::load;
