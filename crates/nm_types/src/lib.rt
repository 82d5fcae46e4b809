//! Words that every crate of vale shares: ids, names, frames, refusals and limits, as netmap(4)
//! and vale(4) use them.
#![tactic(auto)]

mod cuts;
mod fault;
mod flags;
mod frame;
mod id;
pub mod laws;
mod limits;
mod name;
mod place;
mod refusal;
mod slot;

pub use cuts::slots;
pub use fault::{BadName, LineCause, NoMemory, OpenFault, Part, StepFault, SyncFault, WatchFault};
pub use flags::SlotFlags;
pub use frame::{Batch, Frame};
pub use id::{Chain, Counts, LeaseId, Mac, PortId, PortSizes, SessionId, Side, Sides};
pub use limits::{
    BUCKETS, BUFFER_BYTES, DEFAULT_POOL, Limits, MAX_BATCH, MAX_CAPTURE_BYTES, MAX_COUNTS,
    MAX_EXTRA, MAX_FRAME_BYTES, MAX_FRAME_SLOTS, MAX_MONITORS, MAX_PIPE_ENDS, MAX_PLAYED, MAX_POOL,
    MAX_PORTS, MAX_RING, MAX_SCRIPT_BYTES, MAX_SCRIPT_LINES, MAX_SWITCH_PORTS, MAX_SWITCHES,
    MAX_TEXT, MAX_USERS, MIN_RING, NAME_BYTES,
};
pub use name::{Kind, Name, are_word_bytes};
pub use place::Place;
pub use refusal::{RingFault, SlotFault};
pub use slot::{Seen, Slot, SlotWrite};
