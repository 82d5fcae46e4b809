//! Numbers in decimal digits. Most numbers of a transcript are below 10,000.
ghost use Rattle.std.specs.Prelude.{◌≡◌, ◌≤◌, ◌<◌, ◌*◌, ◌/◌, ◌%◌, ◌^◌, ◌+◌, ◌-◌, ◌∷◌, [], length, get_or, decimal};
ghost use Rattle.vale_strip.specs.Pieces.{behind};
ghost use Rattle.vale_strip.specs.declared.numerals.TheConstants.{NUMBERS};
ghost use Rattle.vale_strip.specs.Placed.{Placed, PlacedFew, AreHundreds};

use itoa::write_digits;
use std::simd::prelude::*;

/// How many digits a number has at most.
pub(crate) const DIGITS: usize = 20;

/// The numbers below 100 behind a comma, four bytes each: the last tells how long a number with these
/// hundreds is, comma and all. Then the same numbers, two digits each.
static NUMBERS: [u8; 600] =
    *b",0 \x04,1 \x04,2 \x04,3 \x04,4 \x04,5 \x04,6 \x04,7 \x04,8 \x04,9 \x04,10\x05,11\x05,12\x05,13\x05,14\x05,15\x05,16\x05,17\x05,18\x05,19\x05,20\x05,21\x05,22\x05,23\x05,24\x05,25\x05,26\x05,27\x05,28\x05,29\x05,30\x05,31\x05,32\x05,33\x05,34\x05,35\x05,36\x05,37\x05,38\x05,39\x05,40\x05,41\x05,42\x05,43\x05,44\x05,45\x05,46\x05,47\x05,48\x05,49\x05,50\x05,51\x05,52\x05,53\x05,54\x05,55\x05,56\x05,57\x05,58\x05,59\x05,60\x05,61\x05,62\x05,63\x05,64\x05,65\x05,66\x05,67\x05,68\x05,69\x05,70\x05,71\x05,72\x05,73\x05,74\x05,75\x05,76\x05,77\x05,78\x05,79\x05,80\x05,81\x05,82\x05,83\x05,84\x05,85\x05,86\x05,87\x05,88\x05,89\x05,90\x05,91\x05,92\x05,93\x05,94\x05,95\x05,96\x05,97\x05,98\x05,99\x0500010203040506070809101112131415161718192021222324252627282930313233343536373839404142434445464748495051525354555657585960616263646566676869707172737475767778798081828384858687888990919293949596979899";

/// Writes a number below 100 in two digits.
#[inline(always)]
fn place_pair(buf: &mut [u8], at: usize, number: u64)
    requires { (number < 100) × (at + 2 ≤ length buf.old) }
    ensures { Placed buf.old buf.new at ((48 + number / 10) ∷ (48 + number % 10) ∷ []) (at + 2) }
{
    let from = number as usize * 2 + 400;
    u8x2::from_slice(&NUMBERS[from..]).copy_to_slice(&mut buf[at..]);
}

/// Writes a number below 100, and returns where its digits end.
#[inline(always)]
fn place_first(buf: &mut [u8], at: usize, number: u64) -> usize
    requires { (number < 100) × (at + 2 ≤ length buf.old) }
    ensures { PlacedFew buf.old buf.new at (decimal number) result 2 }
{
    if number < 10 {
        buf[at] = b'0' + number as u8;
        return at + 1;
    }
    place_pair(buf, at, number);
    at + 2
}

/// Writes a number from 100 to 9,999, and returns where its digits end.
#[inline(always)]
fn place_middle(buf: &mut [u8], at: usize, number: u64) -> usize
    requires { (100 ≤ number) × (number < 10000) × (at + 4 ≤ length buf.old) }
    ensures { PlacedFew buf.old buf.new at (decimal number) result 4 }
{
    let (high, low) = (number / 100, number % 100);
    if high < 10 {
        buf[at] = b'0' + high as u8;
        let end = at + 1;
        place_pair(buf, end, low);
        return end + 2;
    }
    place_pair(buf, at, high);
    let end = at + 2;
    place_pair(buf, end, low);
    end + 2
}

/// Writes a number below 10,000, and returns where its digits end.
#[inline(always)]
fn place_short(buf: &mut [u8], at: usize, number: u64) -> usize
    requires { (number < 10000) × (at + 4 ≤ length buf.old) }
    ensures { PlacedFew buf.old buf.new at (decimal number) result 4 }
{
    if number < 100 {
        return place_first(buf, at, number);
    }
    place_middle(buf, at, number)
}

/// Writes a number from 10,000 to 99,999,999, and returns where its digits end.
fn place_wide(buf: &mut [u8], at: usize, number: u64) -> usize
    requires { (10000 ≤ number) × (number < 100000000) × (at + 8 ≤ length buf.old) }
    ensures { PlacedFew buf.old buf.new at (decimal number) result 8 }
{
    let end = place_short(buf, at, number / 10_000);
    let low = number % 10_000;
    place_pair(buf, end, low / 100);
    place_pair(buf, end + 2, low % 100);
    end + 2 + 2
}

/// Writes any number, and returns where its digits end. The bytes behind them may change.
fn place_long(buf: &mut [u8], at: usize, number: u64) -> usize
    requires { at + 20 ≤ length buf.old }
    ensures { PlacedFew buf.old buf.new at (decimal number) result 20 }
{
    let mut digits = [0; 2 * DIGITS];
    let start = write_digits(number, &mut digits, DIGITS);
    u8x16::from_slice(&digits[start..]).copy_to_slice(&mut buf[at..]);
    u8x4::from_slice(&digits[start + 16..]).copy_to_slice(&mut buf[at + 16..]);
    at + (DIGITS - start)
}

/// Writes a number from 10,000 on, and returns where its digits end. The bytes behind them may
/// change.
fn place_large(buf: &mut [u8], at: usize, number: u64) -> usize
    requires { (10000 ≤ number) × (at + 20 ≤ length buf.old) }
    ensures { PlacedFew buf.old buf.new at (decimal number) result 20 }
{
    if number < 100_000_000 {
        return place_wide(buf, at, number);
    }
    place_long(buf, at, number)
}

/// Writes a number, and returns where its digits end. The bytes behind them may change.
#[inline(always)]
pub(crate) fn place_number(buf: &mut [u8], at: usize, number: u64) -> usize
    requires { at + 20 ≤ length buf.old }
    ensures { PlacedFew buf.old buf.new at (decimal number) result 20 }
{
    if number < 10_000 {
        return place_short(buf, at, number);
    }
    place_large(buf, at, number)
}

/// How far the least of the numbers that have the same digits but for the last two is below 2^64, a comma
/// and the digits that they share, and how long each of them is behind a comma.
#[derive(Clone, Copy)]
pub(crate) struct Hundreds {
    below: u64,
    text: u8x16,
    len: usize,
}

/// The hundreds of numbers from 10,000 on.
#[inline(always)]
fn far_hundreds(high: u64) -> Hundreds
    requires { (100 ≤ high) × (high * 100 < 2 ^ 32) }
    ensures are { AreHundreds (2 ^ 64 - result.below) result.text result.len }
    ensures own { result.below ≡ 2 ^ 64 - high * 100 }
{
    let mut text = [b','; 24];
    let end = place_number(&mut text, 1, high);
    Hundreds {
        below: u64::MAX - high * 100 + 1,
        text: u8x16::from_slice(&text),
        len: end + 2,
    }
}

/// The hundreds of numbers below 10,000.
#[inline(always)]
pub(crate) fn near_hundreds(high: u64) -> Hundreds
    requires { (0 < high) × (high < 100) }
    ensures are { AreHundreds (2 ^ 64 - result.below) result.text result.len }
    ensures own { result.below ≡ 2 ^ 64 - high * 100 }
{
    let at = high as usize * 4;
    let len = NUMBERS[at + 3] as usize;
    Hundreds {
        below: u64::MAX - high * 100 + 1,
        text: u8x16::from_slice(&NUMBERS[at..]),
        len,
    }
}

/// How far a number is above hundreds: below 100 if it has them.
#[inline(always)]
pub(crate) fn above(hundreds: Hundreds, number: u64) -> u64
    ensures { result ≡ (number + hundreds.below) % 2 ^ 64 }
{
    number.wrapping_add(hundreds.below)
}

/// Writes hundreds behind a mark. The bytes behind them may change.
#[inline(always)]
fn place_hundreds(buf: &mut [u8], at: usize, mark: u8, hundreds: Hundreds)
    requires room { at + 16 ≤ length buf.old }
    requires hundreds { AreHundreds (2 ^ 64 - hundreds.below) hundreds.text hundreds.len }
    ensures { Placed buf.old buf.new at (behind mark decimal ((2 ^ 64 - hundreds.below) / 100))
        (at + (hundreds.len - 2)) }
{
    hundreds.text.copy_to_slice(&mut buf[at..]);
    if mark != b',' {
        buf[at] = mark;
    }
}

/// Writes a number behind a mark by the hundreds that it has, and returns where it ends.
#[inline(always)]
pub(crate) fn place_shared(
    buf: &mut [u8],
    at: usize,
    mark: u8,
    hundreds: Hundreds,
    low: u64,
) -> usize
    requires room { at + 21 ≤ length buf.old }
    requires hundreds { AreHundreds (2 ^ 64 - hundreds.below) hundreds.text hundreds.len }
    requires low { low < 100 }
    ensures placed { Placed buf.old buf.new at (behind mark decimal (2 ^ 64 - hundreds.below + low)) result }
    ensures within { result ≤ at + 21 }
{
    place_hundreds(buf, at, mark, hundreds);
    let end = at + hundreds.len;
    place_pair(buf, end - 2, low);
    end
}

/// Writes a number below 100 behind a mark. The bytes behind it may change.
#[inline(always)]
fn place_head(buf: &mut [u8], at: usize, mark: u8, number: u64)
    requires { (number < 100) × (at + 4 ≤ length buf.old) }
    ensures { Placed buf.old buf.new at (behind mark decimal number) (at + (get_or NUMBERS (number * 4 + 3) 0 - 2)) }
{
    u8x4::from_slice(&NUMBERS[number as usize * 4..]).copy_to_slice(&mut buf[at..]);
    if mark != b',' {
        buf[at] = mark;
    }
}

/// Writes a number below 100 behind a mark, and returns where it ends. The bytes behind it may change.
#[inline(always)]
pub(crate) fn place_little(buf: &mut [u8], at: usize, mark: u8, number: u64) -> usize
    requires { (number < 100) × (at + 4 ≤ length buf.old) }
    ensures placed { Placed buf.old buf.new at (behind mark decimal number) result }
    ensures within { result ≤ at + 3 }
{
    place_head(buf, at, mark, number);
    at + (NUMBERS[number as usize * 4 + 3] as usize - 2)
}

/// Writes a number behind a mark, and returns where its digits end. The bytes behind them may change.
#[inline(always)]
pub(crate) fn place_marked(buf: &mut [u8], at: usize, mark: u8, number: u64) -> usize
    requires { at + 21 ≤ length buf.old }
    ensures placed { Placed buf.old buf.new at (behind mark decimal number) result }
    ensures within { result ≤ at + 21 }
{
    buf[at] = mark;
    place_number(buf, at + 1, number)
}

/// Writes a number from 100 on behind a mark, and returns where it ends, and its hundreds. The bytes
/// behind it may change.
#[inline(always)]
pub(crate) fn place_anew(
    buf: &mut [u8],
    at: usize,
    mark: u8,
    number: u64,
    high: u64,
) -> (usize, Hundreds)
    requires room { at + 21 ≤ length buf.old }
    requires high { (high ≡ number / 100) × (0 < high) × (number < 2 ^ 32) }
    ensures placed { Placed buf.old buf.new at (behind mark decimal number) result.0 }
    ensures within { result.0 ≤ at + 21 }
    ensures hundreds { AreHundreds (2 ^ 64 - result.1.below) result.1.text result.1.len }
{
    let own = if high < 100 {
        near_hundreds(high)
    } else {
        far_hundreds(high)
    };
    (place_shared(buf, at, mark, own, above(own, number)), own)
}

/// Writes a number behind a mark, and returns where its digits end, and hundreds that the next number
/// may have: `hundreds` is what was so returned of another number. The bytes behind them may change.
#[inline(always)]
pub(crate) fn place_next(
    buf: &mut [u8],
    at: usize,
    mark: u8,
    hundreds: Hundreds,
    number: u64,
) -> (usize, Hundreds)
    requires room { at + 21 ≤ length buf.old }
    requires hundreds { AreHundreds (2 ^ 64 - hundreds.below) hundreds.text hundreds.len }
    requires fits { number < 2 ^ 32 }
    ensures placed { Placed buf.old buf.new at (behind mark decimal number) result.0 }
    ensures within { result.0 ≤ at + 21 }
    ensures hundreds { AreHundreds (2 ^ 64 - result.1.below) result.1.text result.1.len }
{
    let low = above(hundreds, number);
    if low < 100 {
        return (place_shared(buf, at, mark, hundreds, low), hundreds);
    }
    if number < 100 {
        return (place_little(buf, at, mark, number), hundreds);
    }
    place_anew(buf, at, mark, number, number / 100)
}
