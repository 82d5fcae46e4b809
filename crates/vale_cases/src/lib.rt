//! Cases of hostile use, as data that the tests of other crates walk: runs whose memory, files or
//! output may fail, captures that are cut, positions and chains that are wrong, a record that is full.
#![tactic(auto)]

mod captures;
mod chains;
mod records;
mod runs;

pub use captures::{CAPTURE, CAPTURE_RUN, CAPTURE_SCRIPT, CAPTURE_TEXT, CUTS, Cut, SAVED};
pub use chains::{CHAINS, ChainCase, ChainChange};
pub use records::{FULL_RECORD, FullRecord};
pub use runs::{FIRST_TEXT, RINGS, RUNS, Run};
