//! The words of a script's lines, each by itself: names, numbers, addresses and bytes.
#![tactic(auto)]

mod fixed;
mod lanes;
mod words;

pub use fixed::{side_of, sides_of, value_of, word_at};
pub use words::{
    cut_plain_words, cut_words, frame_bytes, frame_bytes_fit, hex_byte_of, is_hex_byte, is_mac,
    is_silent, is_user_name, mac_of, name_text, number_in, port_name, room_for_words, text_of,
    words_of,
};
