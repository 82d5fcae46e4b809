//! The text of transcripts.
#![tactic(auto)]

pub mod laws;
mod reader;
mod rows;
mod transcript;

pub use reader::{Text, TextFault, read, read_any};
pub use rows::write_line;
pub use transcript::{PutError, write_transcript};
