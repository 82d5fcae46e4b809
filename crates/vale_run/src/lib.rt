//! Runs a command: a script with its captures, from a shelf and to an output, a load, or a transcript
//! of an earlier version that is written anew.
#![tactic(auto)]

mod command;
pub mod laws;
mod load;
mod migrate;
mod playing;
mod remains;
mod status;

pub use command::{run, run_leaving};
pub use remains::Remains;
pub use status::{Status, What, report};
