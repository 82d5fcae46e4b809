//! How many bytes of one load, from the first, are of a word.
ghost use Rattle.std.specs.Prelude.{◌≡◌, ◌+◌, ◌≤◌, length};
ghost use Rattle.vale_words.specs.Lanes.{IsRunIn, first_set};
ghost use Rattle.vale_words.specs.Words.{is_graphic};

use std::simd::prelude::*;

pub(crate) const LANES: usize = 16;

pub(crate) const HALF_LANES: usize = 8;

/// The place of the lowest bit that is set, or how many there are.
#[inline(always)]
fn first_set(mask: u64, lanes: usize) -> usize
    ensures { result ≡ first_set mask lanes }
{
    if mask == 0 {
        lanes
    } else {
        mask.trailing_zeros() as usize
    }
}

/// How many of sixteen bytes, from the first, are printable and no blanks.
#[inline(always)]
pub(crate) fn word_run(bytes: &[u8], at: usize) -> usize
    requires { at + LANES ≤ length bytes.now }
    ensures { IsRunIn is_graphic bytes.now at LANES result }
{
    let above = u8x16::from_slice(&bytes[at..]) - u8x16::splat(b'!');
    first_set(above.simd_ge(u8x16::splat(94)).to_bitmask(), LANES)
}

/// The same of eight bytes.
#[inline(always)]
pub(crate) fn word_run_half(bytes: &[u8], at: usize) -> usize
    requires { at + HALF_LANES ≤ length bytes.now }
    ensures { IsRunIn is_graphic bytes.now at HALF_LANES result }
{
    let above = u8x8::from_slice(&bytes[at..]) - u8x8::splat(b'!');
    first_set(above.simd_ge(u8x8::splat(94)).to_bitmask(), HALF_LANES)
}
