//! Scripts of netmap rings and VALE ports: users, and the lines that they run.
#![tactic(auto)]

mod draft;
mod feeds;
mod forms;
mod keys;
mod places;
mod reader;
mod script;
mod statements;
mod tables;

pub use forms::{Verb, verb_of};
pub use reader::{ScriptFault, first_line, line_count, parse};
pub use script::{Act, Line, Lines, Script, ScriptWord, SlotField, Unit};
pub use statements::{LineFault, Said, line_said};
pub use vale_words::word_at;
