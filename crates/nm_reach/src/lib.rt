//! Raw cells, and rights to circular runs of them.
#![tactic(auto)]

mod cell;
mod field;
mod parts;
mod reach;
mod sides;
mod stretch;

pub use cell::Cell;
pub use field::Field;
pub use reach::Reach;
