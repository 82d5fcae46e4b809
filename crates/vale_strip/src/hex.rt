//! Bytes as hexadecimal digits, sixteen at once. The last sixteen may overlap those before.
ghost use Rattle.std.specs.Prelude.{◌≡◌, ◌≤◌, ◌<◌, ◌*◌, ◌+◌, ◌∷◌, [], if◌then◌else◌, ℕ, length, take, map};
ghost use Rattle.std.specs.List.{flat_map};
ghost use Rattle.std.specs.Simd.Lanes.{Each1};
ghost use Rattle.vale_strip.specs.Pieces.{behind};
ghost use Rattle.vale_strip.specs.Placed.{Placed};
ghost use Rattle.vale_entry.specs.Transcript.{frame_text, hex_digit, hex_byte, hex_text};

use std::simd::prelude::*;

/// How many bytes are spelled at once.
const BLOCK: usize = 16;

/// The digit of a number below 16, in lower case.
fn hex_digit(n: u8) -> u8
    requires { n < 16 }
    ensures { result ≡ hex_digit n }
{
    b'0' + n + if n > 9 { 39 } else { 0 }
}

/// The digits of the numbers below 16, in lower case.
const HEX: [u8; 16] = *b"0123456789abcdef";

/// The digits of numbers below 16, in lower case.
#[inline(always)]
fn digits_of(numbers: u8x16) -> u8x16
    requires long { length numbers ≡ 16 }
    requires low { Each1 (λ n. n < 16) numbers }
    ensures { result ≡ map hex_digit numbers }
{
    u8x16::from_array(HEX).swizzle_dyn(numbers)
}

/// Spells the first sixteen bytes.
#[inline(always)]
fn place_block(buf: &mut [u8], at: usize, bytes: &[u8])
    requires { (16 ≤ length bytes.now) × (at + 32 ≤ length buf.old) }
    ensures { Placed buf.old buf.new at (flat_map hex_byte (take 16 bytes.now)) (at + 32) }
{
    let block = u8x16::from_slice(bytes);
    let high = digits_of(block / u8x16::splat(16));
    let low = digits_of(block % u8x16::splat(16));
    let (front, back) = high.interleave(low);
    front.copy_to_slice(&mut buf[at..]);
    back.copy_to_slice(&mut buf[at + BLOCK..]);
}

#[inline(always)]
fn place_many(buf: &mut [u8], at: usize, bytes: &[u8])
    requires { (16 ≤ length bytes.now) × (at + 2 * length bytes.now ≤ length buf.old) }
    ensures { Placed buf.old buf.new at (flat_map hex_byte bytes.now) (at + 2 * length bytes.now) }
{
    let last = bytes.len() - BLOCK;
    let mut done = 0;
    while done < last {
        place_block(buf, at + 2 * done, &bytes[done..]);
        done += BLOCK;
    }
    place_block(buf, at + 2 * last, &bytes[last..]);
}

/// Spells 32 to 64 bytes: the first and the last thirty-two, which may overlap.
#[inline(always)]
fn place_halves(buf: &mut [u8], at: usize, bytes: &[u8])
    requires { (32 ≤ length bytes.now) × (length bytes.now ≤ 64) × (at + 2 * length bytes.now ≤ length buf.old) }
    ensures { Placed buf.old buf.new at (flat_map hex_byte bytes.now) (at + 2 * length bytes.now) }
{
    let last = bytes.len() - BLOCK;
    let half = last - BLOCK;
    place_block(buf, at, bytes);
    place_block(buf, at + 2 * BLOCK, &bytes[BLOCK..]);
    place_block(buf, at + 2 * half, &bytes[half..]);
    place_block(buf, at + 2 * last, &bytes[last..]);
}

fn place_few(buf: &mut [u8], at: usize, bytes: &[u8])
    requires { at + 2 * length bytes.now ≤ length buf.old }
    ensures { Placed buf.old buf.new at (flat_map hex_byte bytes.now) (at + 2 * length bytes.now) }
{
    for (i, byte) in bytes.iter().enumerate() {
        buf[at + 2 * i] = hex_digit(*byte / 16);
        buf[at + 2 * i + 1] = hex_digit(*byte % 16);
    }
}

/// Spells bytes, two digits for each, and returns where they end.
#[inline(always)]
pub(crate) fn place_digits(buf: &mut [u8], at: usize, bytes: &[u8]) -> usize
    requires { at + 2 * length bytes.now ≤ length buf.old }
    ensures placed { Placed buf.old buf.new at (flat_map hex_byte bytes.now) result }
    ensures end { result ≡ at + 2 * length bytes.now }
{
    let len = bytes.len();
    if len < BLOCK {
        place_few(buf, at, bytes);
    } else if 2 * BLOCK <= len && len <= 4 * BLOCK {
        place_halves(buf, at, bytes);
    } else {
        place_many(buf, at, bytes);
    }
    at + 2 * len
}

/// Writes the mark of a frame that teaches nothing, and returns where it ends.
#[inline(always)]
fn place_mark(buf: &mut [u8], at: usize, no_learn: bool) -> usize
    requires { at < length buf.old }
    ensures placed { Placed buf.old buf.new at (if no_learn then 126 ∷ [] else []) result }
    ensures within { result ≤ at + 1 }
{
    if no_learn {
        buf[at] = b'~';
        return at + 1;
    }
    at
}

/// Spells bytes, or writes a dot if there are none, and returns where they end.
#[inline(always)]
fn place_hex(buf: &mut [u8], at: usize, bytes: &[u8]) -> usize
    requires { at + 2 * length bytes.now < length buf.old }
    ensures placed { Placed buf.old buf.new at (hex_text bytes.now) result }
    ensures within { result ≤ at + 2 * length bytes.now + 1 }
{
    if bytes.is_empty() {
        buf[at] = b'.';
        return at + 1;
    }
    place_digits(buf, at, bytes)
}

/// Writes a frame behind a comma, and returns where it ends.
#[inline(always)]
pub(crate) fn place_next_frame(buf: &mut [u8], at: usize, bytes: &[u8], no_learn: bool) -> usize
    requires { at + 2 * length bytes.now + 2 < length buf.old }
    ensures placed { Placed buf.old buf.new at
        (behind 44 frame_text (record { bytes = bytes.now; no_learn = no_learn })) result }
    ensures within { result ≤ at + 2 * length bytes.now + 3 }
{
    buf[at] = b',';
    let from = place_mark(buf, at + 1, no_learn);
    place_hex(buf, from, bytes)
}
