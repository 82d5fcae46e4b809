//! What the parts of a switch say, tied to what stands after a history: its names, learning tables,
//! batches, watches, counters and free buffers. Definitions and laws; nothing here runs.
#![tactic(auto)]

pub mod laws;
