//! The leases of a receive ring of a VALE switch, in the order in which they were granted. A sender
//! fills the slots of its lease while others fill theirs, and the reader gets them in the order of
//! the leases, as vale(4)'s forwarding does.
#![tactic(auto)]

mod leases;

pub use leases::{LeaseSlots, Leases};
