//! What is a session's own of all that stands in a switch: only its own entries change it.
#![tactic(auto)]

pub mod laws;
