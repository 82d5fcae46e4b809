//! Desks: users of netmap(4) on one thread, each a session over the parts of a switch
//! (`vale_book::Book`) with its own side (`nm_own::OwnSide`): the same calls as those of
//! `nm_user::Session`, without a lock, and each of them one entry of the record. Who makes a switch's
//! devices and guests take turns on one thread uses it, and who follows a transcript entry by entry.
//!
//! Any number of desks share a book, which each call is lent. That a desk is one of a book is
//! `IsDeskOf`, which `enter` begins with and each call keeps for its own desk; entries of others keep
//! it too.
#![tactic(auto)]

mod acts;
mod desk;
mod filling;
mod granting;
mod leaving;
mod noting;
mod opening;
mod sending;

pub use desk::Desk;
pub use filling::fill;
pub use leaving::Detached;
