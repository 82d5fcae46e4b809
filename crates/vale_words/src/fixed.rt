//! The word at a place of a line, and what the fixed words stand for, of which a place has a few.
ghost use Rattle.std.specs.Prelude.{◌≡◌, map};
ghost use Rattle.vale_words.specs.Fixed.{word_at, value_of, side_of, sides_of};

use nm_types::{Side, Sides};

/// The word at a place, counted from 0; past the line's end it is empty.
pub fn word_at<'a>(words: &[&'a [u8]], i: usize) -> &'a [u8]
    ensures { result.now ≡ word_at i (map (λ w. w.now) words.now) }
{
    match words.get(i) {
        Some(word) => word,
        None => b"",
    }
}

/// The value beside a word in a table, or the last value for a word that is not in it.
pub fn value_of<T: Copy>(table: &[(&[u8], T)], word: &[u8], last: T) -> T
    ensures { result ≡ value_of (map (λ row. (row.0.now, row.1)) table.now) word.now last }
{
    let Some(((name, value), rows)) = table.split_first() else {
        return last;
    };
    if *name == word {
        return *value;
    }
    value_of(rows, word, last)
}

/// The side of a ring.
pub fn side_of(word: &[u8]) -> Side
    ensures { result ≡ side_of word.now }
{
    if word == b"tx".as_slice() {
        Side::Tx
    } else {
        Side::Rx
    }
}

/// The sides that a monitor watches.
pub fn sides_of(word: &[u8]) -> Sides
    ensures { result ≡ sides_of word.now }
{
    value_of(&[(b"t", Sides::T), (b"r", Sides::R)], word, Sides::TR)
}
