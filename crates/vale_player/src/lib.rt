//! A user of a script at work, as a session of a fabric.
#![tactic(auto)]

mod acts;
mod calls;
mod coming;
mod frames;
mod kept;
pub mod laws;
pub mod lines;
mod own_lines;
mod player;
pub mod saving;

pub use kept::{KeptPort, SavedPorts};
pub use player::{Player, SaveFile};
