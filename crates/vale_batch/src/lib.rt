//! Where the frames of a batch go, as vale(4) forwards: each frame's source is learned first, then
//! its destination is looked up.
#![tactic(auto)]

mod addresses;
mod alone;
mod classifying;
mod compared;
mod destinations;
mod floods;
mod lists;
mod looking;
mod lookup;
mod shares;
mod sole;

pub use classifying::classify;
pub use compared::Compared;
pub use lists::{Dest, Lists, Want};
pub use looking::{Destination, Looked};
pub use lookup::Lookup;
pub use shares::Places;
