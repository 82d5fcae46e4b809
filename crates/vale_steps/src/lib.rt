//! The steps of a switch that hand something out, each over the parts that it changes and with its
//! entry in the history: openings, sends, grants, puts and syncs. What a step wants of memory and
//! of the record's room comes before it changes anything.
#![tactic(auto)]

pub mod buffers;
pub mod granting;
mod monitored;
pub mod offers;
pub mod opening;
pub mod putting;
pub mod reading;
pub mod sending;
pub mod tables;
mod wanting;
