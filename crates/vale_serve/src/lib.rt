//! Plain asks served by a book and what its sessions have outside it: their buffers, their leases and
//! their offers.
#![tactic(auto)]

mod asking;
mod buffers;
mod coming;
mod completing;
mod copying;
mod exchanging;
mod finishing;
mod granting;
mod leaving;
mod noting;
mod opening;
mod putting;
mod reading;
mod resetting;
mod sending;
mod serving;
mod shutting;
mod users;
mod watching;

pub use asking::{done_at, finish_at, grant_at, owner_of_shut, shut_at};
pub use buffers::unwrap_all;
pub use granting::place_of_origin;
pub use leaving::leave;
pub use opening::MOST_DUE;
pub use serving::serve;
pub use users::{Room, Sent, User};
