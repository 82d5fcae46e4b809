//! What a history tells of its ports, its users and its entries: what their asks and replies say,
//! whether or not a switch may have had it.
#![tactic(auto)]

mod ends;
mod entered;
mod fates;
pub mod laws;
mod listed;
mod opened;
mod tally;
mod told;
mod verbs;

pub use entered::{User, users};
pub use fates::{Fate, Stay, Trace, frames_at, traces};
pub use opened::{Port, ports, total};
pub use tally::Tally;
pub use told::Told;
pub use verbs::{VERBS, count_of, verb_of};
