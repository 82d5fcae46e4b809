//! What the entries of a script cost of the room of a record: a script that puts few frames never
//! fills it.
#![tactic(auto)]

pub mod completeness;
