//! The kernel side of the receive ring of a VALE port, over owned buffers: a grant leases the first
//! idle ones, a sender fills them, and a sync hands out those of the longest run of done leases.
#![tactic(auto)]

mod got;
mod lease;
mod line;
mod lot;
mod moves;
mod ring;

pub use got::Got;
pub use lease::{Lease, LeaseRoom};
pub use line::Line;
pub use nm_frag::Sizes;
