//! The spans of a list of buffers: neighbours are written by the first and the last of them.
ghost use Rattle.std.specs.Prelude.{◌≡◌, ◌<◌, ◌≤◌, ◌+◌, ◌-◌, ◌*◌, ◌^◌, ◌∷◌, [], length, drop, get_or, decimal, IfSome};
ghost use Rattle.std.specs.Option.{IfNone};
ghost use Rattle.vale_entry.specs.Spans.{spans_in};
ghost use Rattle.vale_strip.specs.Pieces.{behind};
ghost use Rattle.vale_strip.specs.Placed.{Placed, AreHundreds};
ghost use Rattle.vale_strip.specs.Spans.{IsRun, ArePlaced};

use crate::numerals::{
    DIGITS, Hundreds, above, near_hundreds, place_anew, place_little, place_marked, place_next,
    place_shared,
};
use vale_entry::Span;

/// How many numbers at the front follow one another, from the first one on.
#[inline(always)]
fn run_len(numbers: &[u32], first: u32) -> usize
    requires { (0 < length numbers.now) × (get_or numbers.now 0 first ≡ first) }
    ensures { IsRun numbers.now first result }
{
    let mut len = 1;
    while len < numbers.len() {
        if numbers[len] as usize != first as usize + len {
            return len;
        }
        len += 1;
    }
    len
}

/// The first span of numbers in a text of this version, and the numbers behind it.
#[inline(always)]
pub(crate) fn first_span(version: u32, numbers: &[u32]) -> Option<(Span, &[u32])>
    ensures some { IfSome result (λ cut. spans_in version numbers.now ≡ cut.0 ∷ spans_in version cut.1.now) }
    ensures shorter { IfSome result (λ cut. length cut.1.now < length numbers.now) }
    ensures none { IfNone result (numbers.now ≡ []) }
{
    if numbers.is_empty() {
        return None;
    }
    let first = numbers[0];
    if version == 1 {
        let span = Span { first, last: first };
        return Some((span, &numbers[1..]));
    }
    let len = run_len(numbers, first);
    let last = numbers[len - 1];
    Some((Span { first, last }, &numbers[len..]))
}

/// The most bytes of a number behind a mark.
const ITEM: usize = DIGITS + 1;

/// The most bytes of a span behind a comma.
pub(crate) const SPAN: usize = 2 * ITEM;

/// The hundreds of the least number of four digits.
const LEAST: u64 = 10;

/// Where the numbers end that follow one another from the k-th on, which is the first of at least two,
/// and the last of them.
#[inline(always)]
fn run_end(numbers: &[u32], k: usize, first: u64) -> (usize, u64)
    requires inside { k + 1 < length numbers.now }
    requires first { get_or numbers.now k 0 ≡ first }
    requires second { get_or numbers.now (k + 1) 0 ≡ first + 1 }
    ensures run { IsRun (drop k numbers.now) first (result.0 - k) }
    ensures last { result.1 ≡ first + (result.0 - k - 1) }
    ensures within { (k + 1 < result.0) × (result.0 ≤ length numbers.now) }
    ensures later { (first < result.1) × (result.1 < 2 ^ 32) }
{
    let (mut end, mut last) = (k + 2, first + 1);
    while end < numbers.len() {
        if numbers[end] as u64 != last + 1 {
            return (end, last);
        }
        end += 1;
        last += 1;
    }
    (end, last)
}

/// Writes the span that begins with the k-th number, which is below 100, behind a comma, and returns
/// where it ends, and which number is behind it.
#[inline(always)]
fn place_little_span(buf: &mut [u8], at: usize, numbers: &[u32], k: usize) -> (usize, usize)
    requires room { at + 42 ≤ length buf.old }
    requires inside { k + 1 < length numbers.now }
    requires few { get_or numbers.now k 0 < 100 }
    ensures placed { ArePlaced buf.old buf.new at result.0 (drop k numbers.now) (drop result.1 numbers.now) }
    ensures within { result.0 + 21 * k ≤ at + 21 * result.1 }
    ensures room { result.0 ≤ at + 42 }
    ensures further { (k < result.1) × (result.1 ≤ length numbers.now) }
{
    let first = numbers[k] as u64;
    let end = place_little(buf, at, b',', first);
    if numbers[k + 1] as u64 != first + 1 {
        return (end, k + 1);
    }
    let (next, last) = run_end(numbers, k, first);
    (place_marked(buf, end, b'-', last), next)
}

/// Writes spans from the k-th number on as long as they begin with a number below 100, as the first of them
/// does, each behind a comma, and returns where they end, and which number is behind them.
#[inline(never)]
fn place_little_spans(
    buf: &mut [u8],
    at: usize,
    numbers: &[u32],
    k: usize,
    count: usize,
) -> (usize, usize)
    requires room { at + 21 * count + 21 ≤ length buf.old + 21 * k }
    requires inside { (k < count) × (count < length numbers.now) }
    requires few { get_or numbers.now k 0 < 100 }
    ensures placed { ArePlaced buf.old buf.new at result.0 (drop k numbers.now) (drop result.1 numbers.now) }
    ensures within { result.0 + 21 * k ≤ at + 21 * result.1 }
    ensures room { result.0 ≤ length buf.old }
    ensures further { (k < result.1) × (result.1 ≤ length numbers.now) }
{
    let (mut end, mut done) = place_little_span(buf, at, numbers, k);
    while done < count && numbers[done] < 100 {
        (end, done) = place_little_span(buf, end, numbers, done);
    }
    (end, done)
}

/// Writes a number behind a comma as `place_next` does, but for one below 100.
#[inline(always)]
fn place_greater(
    buf: &mut [u8],
    at: usize,
    hundreds: Hundreds,
    number: u64,
) -> Option<(usize, Hundreds)>
    requires room { at + 21 ≤ length buf.old }
    requires hundreds { AreHundreds (2 ^ 64 - hundreds.below) hundreds.text hundreds.len }
    requires fits { number < 2 ^ 32 }
    ensures placed { IfSome result (λ next. Placed buf.old buf.new at (behind 44 decimal number) next.0) }
    ensures within { IfSome result (λ next. next.0 ≤ at + 21) }
    ensures hundreds { IfSome result (λ next. AreHundreds (2 ^ 64 - next.1.below) next.1.text next.1.len) }
    ensures none { IfNone result ((number < 100) × (buf.new ≡ buf.old)) }
{
    let low = above(hundreds, number);
    if low < 100 {
        return Some((place_shared(buf, at, b',', hundreds, low), hundreds));
    }
    let high = number / 100;
    // Most of the others have three or four digits, which one comparison tells.
    if number.wrapping_sub(100) < 9900 {
        return Some(place_anew(buf, at, b',', number, high));
    }
    if number < 100 {
        return None;
    }
    Some(place_anew(buf, at, b',', number, high))
}

/// Writes the span that begins with the k-th number behind a comma, or, if that number is below 100, also
/// those behind it that begin with such a number, and returns where they end, hundreds as `place_next` does,
/// and which number is behind them. A number that has not its neighbour behind it is written before an end
/// is looked for.
#[inline(always)]
fn place_span(
    buf: &mut [u8],
    at: usize,
    hundreds: Hundreds,
    numbers: &[u32],
    k: usize,
    count: usize,
) -> (usize, Hundreds, usize)
    requires room { at + 21 * count + 21 ≤ length buf.old + 21 * k }
    requires hundreds { AreHundreds (2 ^ 64 - hundreds.below) hundreds.text hundreds.len }
    requires inside { (k < count) × (count < length numbers.now) }
    ensures placed { ArePlaced buf.old buf.new at result.0 (drop k numbers.now) (drop result.2 numbers.now) }
    ensures within { result.0 + 21 * k ≤ at + 21 * result.2 }
    ensures room { result.0 ≤ length buf.old }
    ensures hundreds { AreHundreds (2 ^ 64 - result.1.below) result.1.text result.1.len }
    ensures further { (k < result.2) × (result.2 ≤ length numbers.now) }
{
    let first = numbers[k] as u64;
    let Some((end, hundreds)) = place_greater(buf, at, hundreds, first) else {
        let (end, next) = place_little_spans(buf, at, numbers, k, count);
        return (end, hundreds, next);
    };
    if numbers[k + 1] as u64 != first + 1 {
        return (end, hundreds, k + 1);
    }
    let (next, last) = run_end(numbers, k, first);
    let (end, hundreds) = place_next(buf, end, b'-', hundreds, last);
    (end, hundreds, next)
}

/// Writes the spans of at least so many numbers, each behind a comma, and returns where they end,
/// hundreds as `place_next` does, and how many numbers they are.
#[inline(always)]
fn place_many(buf: &mut [u8], at: usize, numbers: &[u32], count: usize) -> (usize, Hundreds, usize)
    requires room { at + 21 * count + 21 ≤ length buf.old }
    requires inside { count < length numbers.now }
    ensures placed { ArePlaced buf.old buf.new at result.0 numbers.now (drop result.2 numbers.now) }
    ensures within { (result.0 ≤ at + 21 * result.2) × (result.0 ≤ length buf.old) }
    ensures hundreds { AreHundreds (2 ^ 64 - result.1.below) result.1.text result.1.len }
    ensures further { (count ≤ result.2) × (result.2 ≤ length numbers.now) }
{
    let (mut end, mut hundreds, mut done) = (at, near_hundreds(LEAST), 0);
    while done < count {
        (end, hundreds, done) = place_span(buf, end, hundreds, numbers, done, count);
    }
    (end, hundreds, done)
}

/// Writes the first spans of numbers, each behind a comma, as long as there is room, and returns
/// where they end, and the numbers that are left.
pub(crate) fn place_spans<'a>(buf: &mut [u8], at: usize, numbers: &'a [u32]) -> (usize, &'a [u32])
    requires { at + 42 ≤ length buf.old }
    ensures placed { ArePlaced buf.old buf.new at result.0 numbers.now result.1.now }
    ensures within { result.0 ≤ length buf.old }
    ensures some { 0 < length numbers.now → length result.1.now < length numbers.now }
{
    if numbers.is_empty() {
        return (at, numbers);
    }
    let last = numbers.len() - 1;
    let count = last.min((buf.len() - at) / ITEM - 1);
    let (end, hundreds, done) = place_many(buf, at, numbers, count);
    if done != last || buf.len() - end < ITEM {
        return (end, &numbers[done..]);
    }
    let (end, _) = place_next(buf, end, b',', hundreds, numbers[last] as u64);
    (end, &numbers[numbers.len()..])
}
