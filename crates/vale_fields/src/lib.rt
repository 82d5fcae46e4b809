//! The fields of a transcript's lines: what the words of a line stand for.
//!
//! Each field is read by a call that gives some value for any text; whether the text is that of the
//! value is for the caller to see, who writes the entry and compares.
#![tactic(auto)]

mod fields;
mod hex;
pub mod laws;
mod lists;
mod printable;
mod rows;

pub use fields::{cut_at, mark_in, short_of};
pub use lists::words_of;
pub use printable::is_printable;
pub use rows::entry_of;
