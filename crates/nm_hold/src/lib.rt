//! A session's places and the buffers that stand in them.
#![tactic(auto)]

mod around;
mod cells;
mod hold;
pub mod laws;
mod number_table;
mod ports;
mod renames;
mod standing;
mod table;
mod taking;

pub use around::step_on;
pub use hold::{Hold, PortRoom};
pub use nm_types::PortSizes;
pub use renames::number_in;
pub use standing::{Home, Standing};
pub use table::PortPlaces;
pub use taking::SlotRun;
