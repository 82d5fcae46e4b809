//! Bytes from hexadecimal digits, sixteen digits at once.
ghost use Rattle.std.specs.Prelude.{◌≡◌, ◌≤◌, ◌<◌, ◌++◌, length, get_or, map, take, IfOk, OnOk};
ghost use Rattle.std.specs.Simd.Lanes.{Each1};
ghost use Rattle.vale_fields.specs.Fields.{hex_value, bytes_of};

use nm_types::NoMemory;
use std::alloc::Global;
use std::simd::prelude::*;

/// What each byte stands for as a hexadecimal digit in lower case; 0 for a byte that is none.
static HEX_VALUES: [u8; 256] = [
    0, 0, 0, 0, 0, 0, 0, 0, 0, 0, 0, 0, 0, 0, 0, 0, 0, 0, 0, 0, 0, 0, 0, 0, 0, 0, 0, 0, 0, 0, 0, 0,
    0, 0, 0, 0, 0, 0, 0, 0, 0, 0, 0, 0, 0, 0, 0, 0, 0, 1, 2, 3, 4, 5, 6, 7, 8, 9, 0, 0, 0, 0, 0, 0,
    0, 0, 0, 0, 0, 0, 0, 0, 0, 0, 0, 0, 0, 0, 0, 0, 0, 0, 0, 0, 0, 0, 0, 0, 0, 0, 0, 0, 0, 0, 0, 0,
    0, 10, 11, 12, 13, 14, 15, 0, 0, 0, 0, 0, 0, 0, 0, 0, 0, 0, 0, 0, 0, 0, 0, 0, 0, 0, 0, 0, 0, 0,
    0, 0, 0, 0, 0, 0, 0, 0, 0, 0, 0, 0, 0, 0, 0, 0, 0, 0, 0, 0, 0, 0, 0, 0, 0, 0, 0, 0, 0, 0, 0, 0,
    0, 0, 0, 0, 0, 0, 0, 0, 0, 0, 0, 0, 0, 0, 0, 0, 0, 0, 0, 0, 0, 0, 0, 0, 0, 0, 0, 0, 0, 0, 0, 0,
    0, 0, 0, 0, 0, 0, 0, 0, 0, 0, 0, 0, 0, 0, 0, 0, 0, 0, 0, 0, 0, 0, 0, 0, 0, 0, 0, 0, 0, 0, 0, 0,
    0, 0, 0, 0, 0, 0, 0, 0, 0, 0, 0, 0, 0, 0, 0, 0, 0, 0, 0, 0, 0, 0, 0, 0, 0, 0, 0, 0, 0, 0, 0, 0,
    0, 0,
];

/// What a hexadecimal digit in lower case stands for; 0 for any other byte.
#[tactic(auto, using(crate::proofs::HexValues::hex_values))]
#[inline(always)]
fn hex_value(b: u8) -> u8
    ensures value { result ≡ hex_value b }
    ensures low { result < 16 }
{
    HEX_VALUES[b as usize]
}

/// How many digits are read at once.
const BLOCK: usize = 16;

/// What `0` to `9` stand for, by their lower four bits.
const DECIMALS: [u8; 16] = [0, 1, 2, 3, 4, 5, 6, 7, 8, 9, 0, 0, 0, 0, 0, 0];

/// What `a` to `f` stand for, by their lower four bits.
const LETTERS: [u8; 16] = [0, 10, 11, 12, 13, 14, 15, 0, 0, 0, 0, 0, 0, 0, 0, 0];

/// All bits at the upper four bits of `0` to `9`.
const AT_DECIMALS: [u8; 16] = [0, 0, 0, 255, 0, 0, 0, 0, 0, 0, 0, 0, 0, 0, 0, 0];

/// All bits at the upper four bits of `a` to `f`.
const AT_LETTERS: [u8; 16] = [0, 0, 0, 0, 0, 0, 255, 0, 0, 0, 0, 0, 0, 0, 0, 0];

/// What stands in a table at these places.
#[inline(always)]
fn looked_up(table: [u8; 16], places: u8x16) -> u8x16
    requires long { (length table ≡ 16) × (length places ≡ 16) }
    requires low { Each1 (λ n. n < 16) places }
    ensures { result ≡ map (λ n. get_or table n 0) places }
{
    u8x16::from_array(table).swizzle_dyn(places)
}

/// What the first sixteen digits stand for.
#[inline(always)]
fn values_of(digits: &[u8]) -> u8x16
    requires { 16 ≤ length digits.now }
    ensures { result ≡ map hex_value (take 16 digits.now) }
{
    let block = u8x16::from_slice(digits);
    let (upper, lower) = (block / u8x16::splat(16), block % u8x16::splat(16));
    let decimals = looked_up(DECIMALS, lower) & looked_up(AT_DECIMALS, upper);
    let letters = looked_up(LETTERS, lower) & looked_up(AT_LETTERS, upper);
    decimals | letters
}

/// The bytes that the first sixteen digits write.
#[inline(always)]
fn block_of(digits: &[u8]) -> [u8; 8]
    requires { 16 ≤ length digits.now }
    ensures { result ≡ bytes_of (take 16 digits.now) }
{
    let values = values_of(digits);
    let high = values.swizzle([0, 2, 4, 6, 8, 10, 12, 14]);
    let low = values.swizzle([1, 3, 5, 7, 9, 11, 13, 15]);
    (high * u8x8::splat(16) + low).to_array()
}

/// Adds the bytes that digits write, one by one.
#[tactic(auto, using(crate::proofs::Pairs::pairs))]
fn push_few(bytes: &mut Vec<u8>, digits: &[u8]) -> Result<(), NoMemory>
    ensures ok { OnOk result (bytes.new.items ≡ bytes.old.items ++ bytes_of digits.now) }
{
    for k in 0..digits.len() / 2 {
        bytes.push(hex_value(digits[2 * k]) * 16 + hex_value(digits[2 * k + 1]))?;
    }
    Ok(())
}

/// The bytes that hexadecimal digits write.
#[tactic(auto, using(crate::proofs::Pairs::blocks))]
pub(crate) fn bytes_of(alloc: Global, digits: &[u8]) -> Result<Vec<u8>, NoMemory>
    ensures { IfOk result (λ bytes. bytes.items ≡ bytes_of digits.now) }
{
    let mut bytes = Vec::with_capacity(alloc, digits.len() / 2)?;
    let mut rest = digits;
    while rest.len() >= BLOCK {
        bytes.extend_from_slice(&block_of(rest))?;
        rest = &rest[BLOCK..];
    }
    push_few(&mut bytes, rest)?;
    Ok(bytes)
}
