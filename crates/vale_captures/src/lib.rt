//! The captures of a script: those that it plays, read from a shelf and judged, and those that it
//! saves, written there.
#![tactic(auto)]

mod counting;
mod inputs;
mod outputs;

pub use counting::{counts_are_few, counts_of, frames_are_few, frames_played};
pub use inputs::{Input, InputFault, Inputs, read_inputs};
pub use outputs::{Outputs, SaveFault, Saved, write_outputs};
