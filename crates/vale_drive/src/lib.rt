//! A book joined with what is outside it, so that plain asks can be run on one thread.
#![tactic(auto)]

mod drive;
mod winding;

pub use drive::Drive;
