//! Where bytes are read from and written to: named files and one output, of the system or, for
//! tests, in memory with failures where they are asked for.
#![tactic(auto)]

mod calls;
mod failed;
mod file_shelf;
mod gate;
mod memory_shelf;
mod memory_sink;
mod raw;
mod raw_sink;
mod read_error;
mod shelf;
mod sink;
mod std_sink;
mod stored;
mod text;
mod whole;

pub use failed::Failed;
pub use file_shelf::FileShelf;
pub use gate::{Gate, NoGate, Stage};
pub use memory_shelf::MemoryShelf;
pub use memory_sink::MemorySink;
pub use raw::{RawRead, RawWrite};
pub use raw_sink::RawSink;
pub use read_error::ReadError;
pub use shelf::Shelf;
pub use sink::Sink;
pub use std_sink::{Printed, StdSink};
pub use text::Text;
pub use whole::{append_all, put_all, read_all};
