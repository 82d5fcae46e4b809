//! The words of a script's lines, each by itself.
ghost use Rattle.std.specs.Prelude.{◌≡◌, ◌+◌, ◌*◌, ◌/◌, ◌<◌, ◌≤◌, ◌^◌, ◌++◌, ◌∷◌, [], ℕ, length, take, drop, map, filter, not, position, option_map, min, is_some, true, IsTrue, IfOk, OnOk, IfSome};
ghost use Rattle.nm_types.specs.Names.{IsName};
ghost use Rattle.vale_words.specs.Lanes.{AllPassBetween};
ghost use Rattle.vale_words.specs.Pairs.{digit_read, pair_read, pairs_read};
ghost use Rattle.vale_words.specs.Words.{is_blank, has_bytes, words_of, is_graphic, are_line_bytes, begins_with_hash, is_silent, has_up_to, is_user_name, port_name, are_graphic, is_file_name, text_of, is_digit, are_digits, is_number, number_of, number_in, is_hex, are_hex, hex_value, is_pair_at, byte_at, is_colon_at, is_hex_byte, hex_byte_of, is_digits, bytes_of, frame_bytes, are_pairs, are_joined, is_mac, mac_value, mac_of};

use crate::lanes::{HALF_LANES, LANES, word_run, word_run_half};
use nm_types::{BUFFER_BYTES, Mac, Name, NoMemory, are_word_bytes};
use std::alloc::{AllocError, Global};

/// As many words as the longest form of a line has.
const FEW_WORDS: usize = 9;

/// Above each number of a script.
const CAP: u128 = 1 << 64;

fn is_blank(b: u8) -> bool
    ensures { result ≡ is_blank b }
{
    b == b' ' || b == b'\t'
}

fn is_graphic(b: u8) -> bool
    ensures { result ≡ is_graphic b }
{
    (33..=126).contains(&b)
}

/// Where the first byte stands that is a blank or no line byte, if none does before a place.
fn end_by_byte(bytes: &[u8], from: usize) -> Option<usize>
    requires within { from ≤ length bytes.now }
    requires before { AllPassBetween is_graphic bytes.now 0 from }
    ensures { result ≡ position (λ b. not (is_graphic b)) bytes.now }
{
    for at in from..bytes.len() {
        if !is_graphic(bytes[at]) {
            return Some(at);
        }
    }
    None
}

/// The same, where fewer than sixteen bytes are left.
fn end_of_rest(bytes: &[u8], from: usize) -> Option<usize>
    requires within { from ≤ length bytes.now }
    requires before { AllPassBetween is_graphic bytes.now 0 from }
    ensures { result ≡ position (λ b. not (is_graphic b)) bytes.now }
{
    if bytes.len() - from < HALF_LANES {
        return end_by_byte(bytes, from);
    }
    let run = word_run_half(bytes, from);
    if run < HALF_LANES {
        return Some(from + run);
    }
    end_by_byte(bytes, from + HALF_LANES)
}

/// Where the first byte stands that is a blank or no line byte.
fn end_of_word(bytes: &[u8]) -> Option<usize>
    ensures { result ≡ position (λ b. not (is_graphic b)) bytes.now }
{
    let mut from = 0;
    while bytes.len() - from >= LANES {
        let run = word_run(bytes, from);
        if run < LANES {
            return Some(from + run);
        }
        from += LANES;
    }
    end_of_rest(bytes, from)
}

/// What stands before a place, and what stands behind it.
#[inline(always)]
fn around(bytes: &[u8], at: usize) -> (&[u8], &[u8])
    requires { at < length bytes.now }
    ensures before { result.0.now ≡ take at bytes.now }
    ensures behind { result.1.now ≡ drop (at + 1) bytes.now }
{
    (&bytes[..at], &bytes[at + 1..])
}

/// Adds a word, if it has a byte.
#[inline(always)]
fn add_word<'a>(words: &mut Vec<&'a [u8]>, word: &'a [u8]) -> Result<(), AllocError>
    ensures { OnOk result (map (λ w. w.now) words.new.items ≡ map (λ w. w.now) words.old.items
        ++ filter has_bytes (word.now ∷ [])) }
{
    if !word.is_empty() {
        words.push(word)?;
    }
    Ok(())
}

/// Tells whether a line holds line bytes alone, and if so cuts its words at blanks and tabs, in the
/// place of those that were there.
#[tactic(auto, using(crate::proofs::Plain::plain))]
pub fn cut_plain_words<'a>(words: &mut Vec<&'a [u8]>, line: &'a [u8]) -> Result<bool, AllocError>
    ensures plain { IfOk result (λ plain. plain ≡ are_line_bytes line.now) }
    ensures words { IfOk result (λ plain. IsTrue plain
        → map (λ w. w.now) words.new.items ≡ words_of line.now) }
{
    words.clear();
    let mut rest = line;
    while let Some(at) = end_of_word(rest) {
        if !is_blank(rest[at]) {
            return Ok(false);
        }
        let (word, after) = around(rest, at);
        add_word(words, word)?;
        rest = after;
    }
    add_word(words, rest)?;
    Ok(true)
}

/// Cuts the words of a line at blanks and tabs, in the place of those that were there.
pub fn cut_words<'a>(words: &mut Vec<&'a [u8]>, line: &'a [u8]) -> Result<(), AllocError>
    ensures { OnOk result (map (λ w. w.now) words.new.items ≡ words_of line.now) }
{
    words.clear();
    words.extend(line.split(|b| is_blank(*b)).filter(|word| !word.is_empty()))?;
    Ok(())
}

/// Room for the words of a line.
pub fn room_for_words<'a>(alloc: Global) -> Result<Vec<&'a [u8]>, AllocError> {
    Vec::with_capacity(alloc, FEW_WORDS)
}

/// The words of a line, cut at blanks and tabs.
pub fn words_of(alloc: Global, line: &[u8]) -> Result<Vec<&[u8]>, AllocError>
    ensures { IfOk result (λ words. map (λ w. w.now) words.items ≡ words_of line.now) }
{
    let mut words = room_for_words(alloc)?;
    cut_words(&mut words, line)?;
    Ok(words)
}

fn begins_with_hash(word: &[u8]) -> bool
    ensures { result ≡ begins_with_hash word.now }
{
    match word.first() {
        Some(b) => *b == b'#',
        None => false,
    }
}

/// Whether a line of these words says nothing.
pub fn is_silent(words: &[&[u8]]) -> bool
    ensures { result ≡ is_silent (map (λ w. w.now) words.now) }
{
    match words.first() {
        Some(word) => begins_with_hash(word),
        None => true,
    }
}

fn has_up_to(most: usize, word: &[u8]) -> bool
    ensures { result ≡ has_up_to most word.now }
{
    !word.is_empty() && word.len() <= most
}

/// Whether a word is a user's name.
pub fn is_user_name(word: &[u8]) -> bool
    ensures { result ≡ is_user_name word.now }
{
    has_up_to(16, word) && are_word_bytes(word)
}

fn are_graphic(word: &[u8]) -> bool
    ensures { result ≡ are_graphic word.now }
{
    word.iter().all(|b| is_graphic(*b))
}

fn is_file_name(word: &[u8]) -> bool
    ensures { result ≡ is_file_name word.now }
{
    !word.is_empty() && are_graphic(word)
}

/// The text of a word, or none if it has no byte, or one that is not printable or a blank.
#[tactic(auto, using(crate::proofs::Texts::texts), unfolding(crate::specs::Words::text_of))]
pub fn text_of(word: &[u8]) -> Option<&str>
    ensures text { option_map (λ text. text.now) result ≡ text_of word.now }
    ensures same { IfSome result (λ text. text.now ≡ word.now) }
    ensures named { IfSome result (λ text. is_file_name text.now ≡ true) }
{
    if is_file_name(word) {
        str::from_utf8(word).ok()
    } else {
        None
    }
}

/// The text of a user's name.
#[tactic(auto, using(crate::proofs::Texts::texts), unfolding(crate::specs::Words::text_of))]
pub fn name_text(word: &[u8]) -> Option<&str>
    requires { is_user_name word.now ≡ true }
    ensures text { option_map (λ text. text.now) result ≡ text_of word.now }
    ensures same { IfSome result (λ text. text.now ≡ word.now) }
{
    str::from_utf8(word).ok()
}

/// The name of a port, a pipe end or a monitor, or none if the word is none.
#[tactic(auto, unfolding(crate::specs::Words::port_name))]
pub fn port_name(word: &[u8]) -> Option<Name>
    ensures name { result ≡ port_name word.now }
    ensures named { IfSome result IsName }
{
    Name::from_bytes(word).ok()
}

fn is_digit(b: u8) -> bool
    ensures { result ≡ is_digit b }
{
    b.is_ascii_digit()
}

fn are_digits(word: &[u8]) -> bool
    ensures { result ≡ are_digits word.now }
{
    word.iter().all(|b| is_digit(*b))
}

fn is_number(word: &[u8]) -> bool
    ensures { result ≡ is_number word.now }
{
    has_up_to(20, word) && are_digits(word)
}

/// The number that digits write, or `CAP` if it is above that.
#[tactic(auto, using(crate::proofs::Numerals::numerals))]
fn capped_number(word: &[u8]) -> u128
    ensures { result ≡ min (number_of word.now) (2 ^ 64) }
{
    let mut number = 0u128;
    for b in word {
        number = (number * 10 + b.saturating_sub(b'0') as u128).min(CAP);
    }
    number
}

/// A number within these bounds, or none if the word is none.
#[tactic(auto, unfolding(crate::specs::Words::number_in))]
pub fn number_in(low: u64, high: u64, word: &[u8]) -> Option<u64>
    ensures value { result ≡ number_in low high word.now }
    ensures within { IfSome result (λ n. n ≤ high) }
    ensures least { IfSome result (λ n. low ≤ n) }
{
    if !is_number(word) {
        return None;
    }
    let number = capped_number(word);
    if low as u128 <= number && number <= high as u128 {
        Some(number as u64)
    } else {
        None
    }
}

fn is_hex(b: u8) -> bool
    ensures { result ≡ is_hex b }
{
    is_digit(b) || (b'a'..=b'f').contains(&b) || (b'A'..=b'F').contains(&b)
}

fn hex_value(b: u8) -> u8
    requires { is_hex b ≡ true }
    ensures value { result ≡ hex_value b }
    ensures low { result < 16 }
{
    if is_digit(b) {
        b - b'0'
    } else if b >= b'a' {
        b - b'a' + 10
    } else {
        b - b'A' + 10
    }
}

/// What a hexadecimal digit counts, or none if the byte is none.
#[inline(always)]
fn digit_of(b: u8) -> Option<u8>
    ensures value { result ≡ digit_read b }
    ensures low { IfSome result (λ n. n < 16) }
{
    if is_digit(b) {
        Some(b - b'0')
    } else if (b'a'..=b'f').contains(&b) {
        Some(b - b'a' + 10)
    } else if (b'A'..=b'F').contains(&b) {
        Some(b - b'A' + 10)
    } else {
        None
    }
}

fn is_pair_at(word: &[u8], i: usize) -> bool
    requires { i + 1 < length word.now }
    ensures { result ≡ is_pair_at word.now i }
{
    is_hex(word[i]) && is_hex(word[i + 1])
}

fn byte_at(word: &[u8], i: usize) -> u8
    requires within { i + 1 < length word.now }
    requires pair { is_pair_at word.now i ≡ true }
    ensures { result ≡ byte_at word.now i }
{
    hex_value(word[i]) * 16 + hex_value(word[i + 1])
}

/// Whether a word is two hexadecimal digits.
#[tactic(auto, unfolding(crate::specs::Words::is_hex_byte))]
pub fn is_hex_byte(word: &[u8]) -> bool
    ensures value { result ≡ is_hex_byte word.now }
    ensures two { IsTrue result → 1 < length word.now }
    ensures pair { IsTrue result → is_pair_at word.now 0 ≡ true }
{
    word.len() == 2 && is_pair_at(word, 0)
}

/// The byte that two hexadecimal digits write, or none if the word is none.
pub fn hex_byte_of(word: &[u8]) -> Option<u8>
    ensures { result ≡ hex_byte_of word.now }
{
    if is_hex_byte(word) {
        Some(byte_at(word, 0))
    } else {
        None
    }
}

fn are_hex(word: &[u8]) -> bool
    ensures { result ≡ are_hex word.now }
{
    word.iter().all(|b| is_hex(*b))
}

/// Whether a word is the digits of 1 to 2048 bytes.
#[tactic(auto, unfolding(crate::specs::Words::is_digits))]
fn is_digits(word: &[u8]) -> bool
    ensures value { result ≡ is_digits word.now }
    ensures hex { IsTrue result → are_hex word.now ≡ true }
    ensures few { IsTrue result → length word.now ≤ 2 * BUFFER_BYTES }
{
    has_up_to(2 * BUFFER_BYTES, word) && word.len() % 2 == 0 && are_hex(word)
}

/// The bytes that hexadecimal digits write.
#[tactic(auto, using(crate::proofs::Numerals::pairs))]
fn bytes_of(alloc: Global, word: &[u8]) -> Result<Vec<u8>, NoMemory>
    requires { are_hex word.now ≡ true }
    ensures half { IfOk result (λ bytes. length bytes.items ≡ length word.now / 2) }
    ensures value { IfOk result (λ bytes. bytes.items ≡ bytes_of word.now) }
{
    let mut bytes = Vec::new(alloc);
    for k in 0..word.len() / 2 {
        bytes.push(byte_at(word, 2 * k))?;
    }
    Ok(bytes)
}

/// Whether a word is the digits of a frame, or a dot.
#[tactic(auto, unfolding(crate::specs::Words::frame_bytes))]
pub fn frame_bytes_fit(word: &[u8]) -> bool
    ensures { result ≡ is_some (frame_bytes word.now) }
{
    word == b".".as_slice() || is_digits(word)
}

/// The bytes of a frame in digits, or none if the word is none. A dot is the empty frame.
#[tactic(auto, unfolding(crate::specs::Words::frame_bytes))]
pub fn frame_bytes(alloc: Global, word: &[u8]) -> Result<Option<Vec<u8>>, NoMemory>
    ensures fits { IfOk result (λ bytes. IfSome bytes (λ b. length b.items ≤ BUFFER_BYTES)) }
    ensures value { IfOk result (λ bytes. option_map (λ b. b.items) bytes ≡ frame_bytes word.now) }
{
    if word == b".".as_slice() {
        return Ok(Some(Vec::new(alloc)));
    }
    if is_digits(word) {
        Ok(Some(bytes_of(alloc, word)?))
    } else {
        Ok(None)
    }
}

fn are_pairs(word: &[u8]) -> bool
    requires { length word.now ≡ 17 }
    ensures { result ≡ are_pairs word.now }
{
    is_pair_at(word, 0)
        && is_pair_at(word, 3)
        && is_pair_at(word, 6)
        && is_pair_at(word, 9)
        && is_pair_at(word, 12)
        && is_pair_at(word, 15)
}

fn are_joined(word: &[u8]) -> bool
    requires { length word.now ≡ 17 }
    ensures { result ≡ are_joined word.now }
{
    word[2] == b':' && word[5] == b':' && word[8] == b':' && word[11] == b':' && word[14] == b':'
}

/// Whether a word is an Ethernet address.
#[tactic(auto, unfolding(crate::specs::Words::is_mac))]
pub fn is_mac(word: &[u8]) -> bool
    ensures value { result ≡ is_mac word.now }
    ensures length { IsTrue result → length word.now ≡ 17 }
    ensures pairs { IsTrue result → are_pairs word.now ≡ true }
{
    word.len() == 17 && are_pairs(word) && are_joined(word)
}

/// The byte that two digits at a place write, or none if they are no digits.
#[inline(always)]
fn pair_at(word: &[u8], i: usize) -> Option<u8>
    requires { i + 1 < length word.now }
    ensures { result ≡ pair_read word.now i }
{
    let high = digit_of(word[i])?;
    let low = digit_of(word[i + 1])?;
    Some(high * 16 + low)
}

/// The bytes of an address, if all its pairs are digits.
fn mac_of_pairs(word: &[u8]) -> Option<Mac>
    requires { length word.now ≡ 17 }
    ensures { result ≡ pairs_read word.now }
{
    let a = pair_at(word, 0)?;
    let b = pair_at(word, 3)?;
    let c = pair_at(word, 6)?;
    let d = pair_at(word, 9)?;
    let e = pair_at(word, 12)?;
    let f = pair_at(word, 15)?;
    Some(Mac([a, b, c, d, e, f]))
}

/// An Ethernet address: six pairs of hexadecimal digits joined by colons, or none if the word is
/// none.
#[tactic(auto, using(crate::proofs::Pairs::macs))]
pub fn mac_of(word: &[u8]) -> Option<Mac>
    ensures { result ≡ mac_of word.now }
{
    if word.len() != 17 || !are_joined(word) {
        return None;
    }
    mac_of_pairs(word)
}
