//! Entries, the stored history, and what a history means: the world of a switch, who holds which
//! buffer, which asks are enabled, and the transcript's text.
#![tactic(auto)]

mod entry;
mod history;
pub mod laws;
mod lists;

pub use entry::{Ask, Dest, Entry, Item, Reply, Span};
pub use history::History;
pub use lists::{Dests, Items, Listed, Numbers};
