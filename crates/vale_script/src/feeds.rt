//! How many line feeds there are, sixty-four bytes at once.
ghost use Rattle.std.specs.Prelude.{◌≡◌, length, count_by};
ghost use Rattle.vale_script.specs.Grammar.{is_line_feed};

use std::simd::prelude::*;

/// How many bytes are looked through at once.
const BLOCK: usize = 64;

#[inline(always)]
fn line_feeds_in(block: u8x64) -> usize
    requires { length block ≡ 64 }
    ensures { result ≡ count_by is_line_feed block }
{
    block.simd_eq(u8x64::splat(b'\n')).to_bitmask().count_ones() as usize
}

fn line_feeds_by_byte(bytes: &[u8]) -> usize
    ensures { result ≡ count_by is_line_feed bytes.now }
{
    bytes.iter().filter(|b| **b == b'\n').count()
}

/// How many line feeds there are.
pub(crate) fn line_feeds(bytes: &[u8]) -> usize
    ensures { result ≡ count_by is_line_feed bytes.now }
{
    let mut at = 0;
    let mut count = 0;
    while bytes.len() - at >= BLOCK {
        count += line_feeds_in(u8x64::from_slice(&bytes[at..]));
        at += BLOCK;
    }
    count + line_feeds_by_byte(&bytes[at..])
}
