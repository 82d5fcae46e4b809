//! A script at work: its users play its lines one after another, and those of a block side by side.
#![tactic(auto)]

mod block_run;
pub mod departing;
mod ending;
mod line_run;
pub mod outputs;
mod passing;
mod scene;
mod script_run;
mod seat;
pub mod units;

pub use script_run::play;
pub use seat::Seat;
