//! Each call with the words that it takes and those that it does not.
use nm_types::{NoMemory, Side, Sides};
use std::alloc::Global;
use vale_words::{
    cut_plain_words, cut_words, frame_bytes, frame_bytes_fit, hex_byte_of, is_hex_byte, is_mac,
    is_silent, is_user_name, mac_of, name_text, number_in, port_name, room_for_words, side_of,
    sides_of, text_of, value_of, word_at, words_of,
};

/// A word, or a line of words, and what it is read as.
enum Case {
    /// The name of a user.
    User(&'static [u8], Option<&'static str>),
    /// The name of a file.
    Text(&'static [u8], Option<&'static str>),
    /// Whether it is the name of a port.
    Port(&'static [u8], bool),
    /// A number within bounds.
    Number(u64, u64, &'static [u8], Option<u64>),
    /// Two hexadecimal digits.
    Byte(&'static [u8], Option<u8>),
    /// The digits of a frame.
    Frame(&'static [u8], Option<&'static [u8]>),
    /// An address.
    Address(&'static [u8], Option<[u8; 6]>),
    /// The side of a ring.
    Side(&'static [u8], Side),
    /// The sides that a monitor watches.
    Sides(&'static [u8], Sides),
    /// The value of a word in a table, or 9.
    Digit(&'static [u8], u32),
    /// Whether a line says nothing.
    Silent(&'static [u8], bool),
}

const GREATEST: u64 = 18446744073709551615;

const CASES: &[Case] = &[
    Case::User(b"a", Some("a")),
    Case::User(b"user-16_letters_", Some("user-16_letters_")),
    Case::User(b"user-17_letters__", None),
    Case::User(b"", None),
    Case::User(b"a:b", None),
    Case::Text(b"a/b.pcap", Some("a/b.pcap")),
    Case::Text(b"", None),
    Case::Text(b"\x7f", None),
    Case::Port(b"vale0:a", true),
    Case::Port(b"mon0", true),
    Case::Port(b"vale0", false),
    Case::Port(b"", false),
    Case::Number(0, GREATEST, b"0", Some(0)),
    Case::Number(0, GREATEST, b"007", Some(7)),
    Case::Number(0, GREATEST, b"18446744073709551615", Some(GREATEST)),
    Case::Number(0, GREATEST, b"18446744073709551616", None),
    Case::Number(0, GREATEST, b"000000000000000000001", None),
    Case::Number(0, GREATEST, b"1a", None),
    Case::Number(4, 1024, b"3", None),
    Case::Number(4, 1024, b"4", Some(4)),
    Case::Number(4, 1024, b"1024", Some(1024)),
    Case::Number(4, 1024, b"1025", None),
    Case::Byte(b"11", Some(17)),
    Case::Byte(b"aB", Some(171)),
    Case::Byte(b"g0", None),
    Case::Byte(b"0", None),
    Case::Byte(b"000", None),
    Case::Frame(b".", Some(b"")),
    Case::Frame(b"02fF", Some(b"\x02\xff")),
    Case::Frame(b"", None),
    Case::Frame(b"02f", None),
    Case::Frame(b"0x", None),
    Case::Address(b"Ff:ff:ff:ff:ff:ff", Some([255; 6])),
    Case::Address(b"02:00:00:00:00:0A", Some([2, 0, 0, 0, 0, 10])),
    Case::Address(b"02:00:00:00:00:0", None),
    Case::Address(b"02-00-00-00-00-0a", None),
    Case::Side(b"tx", Side::Tx),
    Case::Side(b"rx", Side::Rx),
    Case::Sides(b"t", Sides::T),
    Case::Sides(b"r", Sides::R),
    Case::Sides(b"tr", Sides::TR),
    Case::Digit(b"one", 1),
    Case::Digit(b"two", 2),
    Case::Digit(b"ten", 9),
    Case::Silent(b" \t ", true),
    Case::Silent(b" #put a", true),
    Case::Silent(b"put #", false),
];

/// Words and their values.
const DIGITS: [(&[u8], u32); 2] = [(b"one", 1), (b"two", 2)];

/// The name of a user, if a word is one.
fn user_text(word: &[u8]) -> Option<&str> {
    if is_user_name(word) {
        name_text(word)
    } else {
        None
    }
}

/// Whether the digits of a frame are read as these bytes.
fn is_frame(alloc: Global, word: &[u8], wanted: Option<&[u8]>) -> Result<bool, NoMemory> {
    let frame = frame_bytes(alloc, word)?;
    Ok(frame.as_deref() == wanted && frame_bytes_fit(word) == wanted.is_some())
}

/// Whether a line's words say nothing.
fn says_nothing(alloc: Global, line: &[u8]) -> Result<bool, NoMemory> {
    let words = words_of(alloc, line)?;
    Ok(is_silent(&words))
}

/// Whether a case is read as it says.
fn is_read(alloc: Global, case: &Case) -> Result<bool, NoMemory> {
    Ok(match case {
        Case::User(word, name) => user_text(word) == *name,
        Case::Text(word, text) => text_of(word) == *text,
        Case::Port(word, is) => port_name(word).is_some() == *is,
        Case::Number(low, high, word, number) => number_in(*low, *high, word) == *number,
        Case::Byte(word, byte) => hex_byte_of(word) == *byte && is_hex_byte(word) == byte.is_some(),
        Case::Frame(word, frame) => is_frame(alloc, word, *frame)?,
        Case::Address(word, address) => {
            mac_of(word).map(|mac| mac.0) == *address && is_mac(word) == address.is_some()
        }
        Case::Side(word, side) => side_of(word) == *side,
        Case::Sides(word, sides) => sides_of(word) == *sides,
        Case::Digit(word, digit) => value_of(&DIGITS, word, 9) == *digit,
        Case::Silent(line, is) => says_nothing(alloc, line)? == *is,
    })
}

#[test]
fn words_are_read(rt: HostRuntime) -> Result<(), NoMemory> {
    for (at, case) in CASES.iter().enumerate() {
        let is_so = is_read(rt.alloc(), case)?;
        assert!(rt; is_so, "case {at}");
    }
    Ok(())
}

/// A line, whether no byte of it but blanks and tabs is outside of words, and its words.
type Line = (&'static [u8], bool, &'static [&'static [u8]]);

const LINES: &[Line] = &[
    (
        b"  put a\tvale0:a 1 ff:ff:ff:ff:ff:ff 02:00:00:00:00:0a 60 11 ",
        true,
        &[
            b"put",
            b"a",
            b"vale0:a",
            b"1",
            b"ff:ff:ff:ff:ff:ff",
            b"02:00:00:00:00:0a",
            b"60",
            b"11",
        ],
    ),
    (b"put a \x01", false, &[b"put", b"a", b"\x01"]),
    (
        b"a long-word-of-which one-byte-is \xff",
        false,
        &[b"a", b"long-word-of-which", b"one-byte-is", b"\xff"],
    ),
    (b"a \x01\t\xff", false, &[b"a", b"\x01", b"\xff"]),
];

/// Whether these are the words, and there is none behind them.
fn are_words(words: &[&[u8]], wanted: &[&[u8]]) -> bool {
    for at in 0..wanted.len() {
        if word_at(words, at) != wanted[at] {
            return false;
        }
    }
    words.len() == wanted.len() && word_at(words, words.len()).is_empty()
}

/// Whether a line is cut into its words, also by the call that cuts those of a plain line alone.
fn is_cut(alloc: Global, line: &Line) -> Result<bool, NoMemory> {
    let (bytes, plain, wanted) = line;
    let mut words = room_for_words(alloc)?;
    cut_words(&mut words, *bytes)?;
    let are_cut = are_words(&words, wanted);
    let is_plain = cut_plain_words(&mut words, *bytes)?;
    Ok(are_cut && is_plain == *plain && (!is_plain || are_words(&words, wanted)))
}

#[test]
fn lines_are_cut_at_blanks_and_tabs(rt: HostRuntime) -> Result<(), NoMemory> {
    for (at, line) in LINES.iter().enumerate() {
        let is_so = is_cut(rt.alloc(), line)?;
        assert!(rt; is_so, "line {at}");
    }
    Ok(())
}
