//! What is wrong with a line's words, each at its place.
ghost use Rattle.std.specs.Prelude.{◌≡◌, ◌≤◌, map, length};
ghost use Rattle.vale_script.specs.Places.{is_side, is_sides, is_field, misses_word, misses_number, misses_name, is_out, any_out, has_fixed_words, greatest_of, field_of};
ghost use Rattle.vale_script.specs.Sound.{most_of};

use crate::forms::{Place, Verb};
use crate::script::SlotField;
use nm_types::LineCause;
use vale_words::{
    frame_bytes_fit, is_hex_byte, is_mac, is_user_name, number_in, port_name, value_of,
};

fn is_side(word: &[u8]) -> bool
    ensures { result ≡ is_side word.now }
{
    word == b"tx".as_slice() || word == b"rx".as_slice()
}

fn is_sides(word: &[u8]) -> bool
    ensures { result ≡ is_sides word.now }
{
    word == b"t".as_slice() || word == b"r".as_slice() || word == b"tr".as_slice()
}

fn is_field(word: &[u8]) -> bool
    ensures { result ≡ is_field word.now }
{
    word == b"idx".as_slice()
        || word == b"len".as_slice()
        || word == b"flags".as_slice()
        || word == b"ptr".as_slice()
}

/// The greatest value of a slot's field.
pub(crate) fn greatest_of(field: &[u8]) -> u64
    ensures value { result ≡ greatest_of field.now }
    ensures fits { result ≤ most_of (field_of field.now) }
{
    if field == b"idx".as_slice() {
        4_294_967_295
    } else if field == b"ptr".as_slice() {
        u64::MAX
    } else {
        65_535
    }
}

/// Whether a word is none of the words that its place has.
fn misses_word(place: Place, word: &[u8]) -> bool
    ensures { result ≡ misses_word place word.now }
{
    match place {
        Place::Side => !is_side(word),
        Place::Sides => !is_sides(word),
        Place::Field => !is_field(word),
        Place::Keep => word != b"keep".as_slice(),
        Place::Quiet => word != b"quiet".as_slice(),
        _ => false,
    }
}

/// Whether a word is no number of its place's range, or has bad digits. The word before it tells the
/// range of a slot's field.
fn misses_number(place: Place, before: &[u8], word: &[u8]) -> bool
    ensures { result ≡ misses_number place before.now word.now }
{
    match place {
        Place::Number { low, high } => number_in(low as u64, high as u64, word).is_none(),
        Place::Value => number_in(0, greatest_of(before), word).is_none(),
        Place::Byte => !is_hex_byte(word),
        Place::Bytes => !frame_bytes_fit(word),
        _ => false,
    }
}

/// Whether a word is no name of its place's kind.
fn misses_name(place: Place, word: &[u8]) -> bool
    ensures { result ≡ misses_name place word.now }
{
    match place {
        Place::UserName => !is_user_name(word),
        Place::PortName => port_name(word).is_none(),
        Place::Address => !is_mac(word),
        _ => false,
    }
}

/// Whether a word is bad at its place for this cause.
fn is_out(cause: LineCause, place: Place, before: &[u8], word: &[u8]) -> bool
    ensures { result ≡ is_out cause place before.now word.now }
{
    match cause {
        LineCause::Word => misses_word(place, word),
        LineCause::Number => misses_number(place, before, word),
        LineCause::Name => misses_name(place, word),
        _ => false,
    }
}

/// Whether any of the words is bad at its place for this cause, as far as places and words reach.
pub(crate) fn any_out(cause: LineCause, places: &[Place], before: &[u8], words: &[&[u8]]) -> bool
    ensures { result ≡ any_out cause places.now before.now (map (λ w. w.now) words.now) }
{
    let Some((place, places)) = places.split_first() else {
        return false;
    };
    let Some((word, words)) = words.split_first() else {
        return false;
    };
    is_out(cause, *place, before, word) || any_out(cause, places, word, words)
}

/// Whether lines of this form have words that are one of a few.
pub(crate) fn has_fixed_words(verb: Verb) -> bool
    ensures { result ≡ has_fixed_words verb }
{
    matches!(
        &verb,
        Verb::Rx | Verb::Poke | Verb::Move | Verb::Swap | Verb::Watch
    )
}

/// The field of a slot.
pub(crate) fn field_of(word: &[u8]) -> SlotField
    ensures { result ≡ field_of word.now }
{
    let fields: [(&[u8], SlotField); 3] = [
        (b"idx", SlotField::Idx),
        (b"len", SlotField::Len),
        (b"flags", SlotField::Flags),
    ];
    value_of(&fields, word, SlotField::Ptr)
}
