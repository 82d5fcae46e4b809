//! The words of a line on a strip of a fixed size, on their way to a sink.
#![tactic(auto)]

mod hex;
mod numerals;
mod pieces;
mod spans;
mod strip;

pub use pieces::{NEWEST, Part, Piece, put_parts, put_words};
pub use strip::{ROOM, Strip, make_room, put_byte, put_number, put_strip};
