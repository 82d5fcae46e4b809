//! Bytes gathered on a strip of a fixed size, on their way to a sink.
ghost use Rattle.std.specs.Prelude.{◌≡◌, ◌≤◌, ◌<◌, ◌*◌, ◌+◌, ◌++◌, ◌∷◌, [], if◌then◌else◌, ℕ, List, length, take, decimal, OnOk};
ghost use Rattle.std.specs.List.{flat_map};
ghost use Rattle.nm_io.specs.Held.{Writes};
ghost use Rattle.vale_entry.specs.Transcript.{newest, frame_text, hex_byte, hex_text, span_text};
ghost use Rattle.vale_entry.specs.Spans.{spans_in};
ghost use Rattle.vale_strip.specs.Spans.{AreAdded};
ghost use Rattle.vale_strip.specs.Failures.{Puts, CountsFailures};
ghost use Rattle.vale_strip.specs.Pieces.{behind};

use crate::hex::{place_digits, place_next_frame};
use crate::numerals::{DIGITS, place_number};
use crate::spans::{SPAN, place_spans};
use nm_io::{Failed, Sink, put_all};
use std::marker::Model;
use vale_entry::Span;

/// How many bytes a strip has room for.
pub const ROOM: usize = 1536;

/// How many bytes are spelled at once.
const PART: usize = 256;

/// Spans are written many at once as long as there is room for so many bytes.
const MANY: usize = 10 * SPAN;

/// Bytes on their way to a sink.
#[derive(Drop)]
pub struct Strip {
    room: [u8; ROOM],
    len: usize,
}

impl Model for Strip {
    ghost Value = { List ℕ };

    ghost view = { λ s. take s.len s.room };

    ghost invariant = { λ s. (s.len ≤ 1536) × (length s.room ≡ 1536) };
}

impl Strip {
    /// An empty strip.
    pub fn new() -> Strip
        ensures { result ≡ [] }
    {
        Strip {
            room: [0; ROOM],
            len: 0,
        }
    }

    pub(crate) fn len(&self) -> usize
        ensures value { result ≡ length self.now }
        ensures within { result ≤ ROOM }
    {
        self.len
    }

    pub(crate) fn bytes(&self) -> &[u8]
        ensures { result.now ≡ self.now }
    {
        &self.room[..self.len]
    }

    pub(crate) fn clear(&mut self)
        ensures { self.new ≡ [] }
    {
        self.len = 0;
    }

    #[inline(always)]
    pub(crate) fn push(&mut self, byte: u8)
        requires { length self.old < ROOM }
        ensures { self.new ≡ self.old ++ byte ∷ [] }
    {
        self.room[self.len] = byte;
        self.len += 1;
    }

    #[inline(always)]
    pub(crate) fn add(&mut self, text: &[u8])
        requires { length self.old + length text.now ≤ ROOM }
        ensures { self.new ≡ self.old ++ text.now }
    {
        let end = self.len + text.len();
        self.room[self.len..end].copy_from_slice(text);
        self.len = end;
    }

    /// Adds a text of a known length.
    #[inline(always)]
    pub fn add_label<const N: usize>(&mut self, label: [u8; N])
        requires { length self.old + length label ≤ ROOM }
        ensures { self.new ≡ self.old ++ label.entry }
    {
        let end = self.len + label.len();
        self.room[self.len..end].copy_from_slice(&label);
        self.len = end;
    }

    /// Adds a label, and a number behind it.
    #[inline(always)]
    pub fn labelled<const N: usize>(&mut self, label: [u8; N], number: u32)
        requires { length self.old + length label + 20 ≤ ROOM }
        ensures value { self.new ≡ self.old ++ (label.entry ++ decimal number) }
        ensures within { length self.new ≤ length self.old + length label.entry + 20 }
    {
        self.add_label(label);
        self.number(number as u64);
    }

    pub(crate) fn number(&mut self, number: u64)
        requires { length self.old + 20 ≤ ROOM }
        ensures value { self.new ≡ self.old ++ decimal number }
        ensures within { length self.new ≤ length self.old + 20 }
    {
        self.len = place_number(&mut self.room, self.len, number);
    }

    /// Adds a number, or the first and the last one of a span with a dash between them.
    #[inline(always)]
    fn span(&mut self, span: Span)
        requires { length self.old + 41 ≤ ROOM }
        ensures { self.new ≡ self.old ++ span_text span }
    {
        self.len = place_number(&mut self.room, self.len, span.first as u64);
        if span.first != span.last {
            self.push(b'-');
            self.number(span.last as u64);
        }
    }

    /// Adds the first spans of numbers, each behind a comma, and returns the numbers that are left.
    #[inline(always)]
    fn spans<'a>(&mut self, numbers: &'a [u32]) -> &'a [u32]
        requires { length self.old + 42 ≤ ROOM }
        ensures added { AreAdded self.old self.new numbers.now result.now }
        ensures some { 0 < length numbers.now → length result.now < length numbers.now }
    {
        let (end, rest) = place_spans(&mut self.room, self.len, numbers);
        self.len = end;
        rest
    }

    #[inline(always)]
    pub(crate) fn digits(&mut self, bytes: &[u8])
        requires { length self.old + 2 * length bytes.now ≤ ROOM }
        ensures { self.new ≡ self.old ++ flat_map hex_byte bytes.now }
    {
        self.len = place_digits(&mut self.room, self.len, bytes);
    }

    /// Adds a frame behind a comma.
    fn next_frame(&mut self, bytes: &[u8], no_learn: bool)
        requires { length self.old + 2 * length bytes.now + 2 < ROOM }
        ensures { self.new
            ≡ self.old ++ behind 44 frame_text (record { bytes = bytes.now; no_learn = no_learn }) }
    {
        self.len = place_next_frame(&mut self.room, self.len, bytes, no_learn);
    }
}

/// Writes what a strip holds, and empties it.
pub fn put_strip<K: Sink>(out: &mut K, strip: &mut Strip) -> Result<(), Failed>
    ensures writes { Writes (K.holds out.old) (K.holds out.new) result strip.old }
    ensures counts { CountsFailures K.Sink out.old out.new result }
    ensures emptied { OnOk result (strip.new ≡ []) }
{
    put_all(out, strip.bytes())?;
    strip.clear();
    Ok(())
}

/// Writes what a strip holds, if it has no room for so many bytes more.
#[tactic(auto, using(crate::proofs::Strips::strips))]
#[inline(always)]
pub fn make_room<K: Sink>(out: &mut K, strip: &mut Strip, count: usize) -> Result<(), Failed>
    requires { count ≤ ROOM }
    ensures gathers { Puts K.Sink out.old out.new strip.old strip.new result ([]) }
    ensures counts { CountsFailures K.Sink out.old out.new result }
    ensures room { OnOk result (length strip.new + count ≤ ROOM) }
{
    if strip.len() + count > ROOM {
        put_strip(out, strip)?;
    }
    Ok(())
}

/// Writes a byte.
#[inline(always)]
pub fn put_byte<K: Sink>(out: &mut K, strip: &mut Strip, byte: u8) -> Result<(), Failed>
    ensures gathers { Puts K.Sink out.old out.new strip.old strip.new result (byte ∷ []) }
    ensures counts { CountsFailures K.Sink out.old out.new result }
{
    make_room(out, strip, 1)?;
    strip.push(byte);
    Ok(())
}

/// Writes a text that is longer than a strip.
fn put_long<K: Sink>(out: &mut K, strip: &mut Strip, text: &[u8]) -> Result<(), Failed>
    ensures gathers { Puts K.Sink out.old out.new strip.old strip.new result (text.now) }
    ensures counts { CountsFailures K.Sink out.old out.new result }
{
    put_strip(out, strip)?;
    put_all(out, text)
}

/// Writes a text as it is.
pub(crate) fn put_text<K: Sink>(out: &mut K, strip: &mut Strip, text: &[u8]) -> Result<(), Failed>
    ensures gathers { Puts K.Sink out.old out.new strip.old strip.new result (text.now) }
    ensures counts { CountsFailures K.Sink out.old out.new result }
{
    if text.len() > ROOM {
        return put_long(out, strip, text);
    }
    make_room(out, strip, text.len())?;
    strip.add(text);
    Ok(())
}

/// Writes a mark, and a text as it is behind it.
pub(crate) fn put_text_after<K: Sink>(
    out: &mut K,
    strip: &mut Strip,
    mark: u8,
    text: &[u8],
) -> Result<(), Failed>
    ensures gathers { Puts K.Sink out.old out.new strip.old strip.new result (mark ∷ text.now) }
    ensures counts { CountsFailures K.Sink out.old out.new result }
{
    if text.len() >= ROOM {
        put_byte(out, strip, mark)?;
        return put_long(out, strip, text);
    }
    make_room(out, strip, text.len() + 1)?;
    strip.push(mark);
    strip.add(text);
    Ok(())
}

/// Writes a number in decimal digits.
pub fn put_number<K: Sink>(out: &mut K, strip: &mut Strip, number: u64) -> Result<(), Failed>
    ensures gathers { Puts K.Sink out.old out.new strip.old strip.new result (decimal number) }
    ensures counts { CountsFailures K.Sink out.old out.new result }
{
    make_room(out, strip, DIGITS)?;
    strip.number(number);
    Ok(())
}

/// Writes a mark, and a number in decimal digits behind it.
pub(crate) fn put_number_after<K: Sink>(
    out: &mut K,
    strip: &mut Strip,
    mark: u8,
    number: u64,
) -> Result<(), Failed>
    ensures gathers { Puts K.Sink out.old out.new strip.old strip.new result (mark ∷ decimal number) }
    ensures counts { CountsFailures K.Sink out.old out.new result }
{
    make_room(out, strip, DIGITS + 1)?;
    strip.push(mark);
    strip.number(number);
    Ok(())
}

/// Writes the spans of numbers, each behind a comma.
pub(crate) fn put_more_runs<K: Sink>(
    out: &mut K,
    strip: &mut Strip,
    numbers: &[u32],
) -> Result<(), Failed>
    ensures gathers { Puts K.Sink out.old out.new strip.old strip.new result
        (flat_map (behind 44 span_text) (spans_in newest numbers.now)) }
    ensures counts { CountsFailures K.Sink out.old out.new result }
{
    let mut rest = numbers;
    while !rest.is_empty() {
        make_room(out, strip, MANY)?;
        rest = strip.spans(rest);
    }
    Ok(())
}

/// Writes a number, or the first and the last one of a span with a dash between them.
pub(crate) fn put_span<K: Sink>(out: &mut K, strip: &mut Strip, span: Span) -> Result<(), Failed>
    ensures gathers { Puts K.Sink out.old out.new strip.old strip.new result (span_text span) }
    ensures counts { CountsFailures K.Sink out.old out.new result }
{
    make_room(out, strip, SPAN - 1)?;
    strip.span(span);
    Ok(())
}

/// Writes a mark, and a span behind it.
#[inline(always)]
pub(crate) fn put_span_after<K: Sink>(
    out: &mut K,
    strip: &mut Strip,
    mark: u8,
    span: Span,
) -> Result<(), Failed>
    ensures gathers { Puts K.Sink out.old out.new strip.old strip.new result (behind mark span_text span) }
    ensures counts { CountsFailures K.Sink out.old out.new result }
{
    make_room(out, strip, SPAN)?;
    strip.push(mark);
    strip.span(span);
    Ok(())
}

/// Spells bytes that a strip has room for.
#[inline(always)]
fn put_part<K: Sink>(out: &mut K, strip: &mut Strip, bytes: &[u8]) -> Result<(), Failed>
    requires { 2 * length bytes.now ≤ ROOM }
    ensures gathers { Puts K.Sink out.old out.new strip.old strip.new result (flat_map hex_byte bytes.now) }
    ensures counts { CountsFailures K.Sink out.old out.new result }
{
    make_room(out, strip, 2 * bytes.len())?;
    strip.digits(bytes);
    Ok(())
}

fn put_digits<K: Sink>(out: &mut K, strip: &mut Strip, bytes: &[u8]) -> Result<(), Failed>
    ensures gathers { Puts K.Sink out.old out.new strip.old strip.new result (flat_map hex_byte bytes.now) }
    ensures counts { CountsFailures K.Sink out.old out.new result }
{
    let mut done = 0;
    while done < bytes.len() {
        let end = bytes.len().min(done + PART);
        put_part(out, strip, &bytes[done..end])?;
        done = end;
    }
    Ok(())
}

/// Writes bytes as digits, or a dot if there are none.
pub(crate) fn put_hex<K: Sink>(out: &mut K, strip: &mut Strip, bytes: &[u8]) -> Result<(), Failed>
    ensures gathers { Puts K.Sink out.old out.new strip.old strip.new result (hex_text bytes.now) }
    ensures counts { CountsFailures K.Sink out.old out.new result }
{
    if bytes.is_empty() {
        put_byte(out, strip, b'.')
    } else {
        put_digits(out, strip, bytes)
    }
}

/// How many bytes a short frame has at most.
pub(crate) const SHORT_FRAME: usize = PART;

/// Writes a short frame behind a comma.
pub(crate) fn put_short_frame<K: Sink>(
    out: &mut K,
    strip: &mut Strip,
    bytes: &[u8],
    no_learn: bool,
) -> Result<(), Failed>
    requires { length bytes.now ≤ SHORT_FRAME }
    ensures gathers { Puts K.Sink out.old out.new strip.old strip.new result
        (behind 44 frame_text (record { bytes = bytes.now; no_learn = no_learn })) }
    ensures counts { CountsFailures K.Sink out.old out.new result }
{
    make_room(out, strip, 2 * bytes.len() + 3)?;
    strip.next_frame(bytes, no_learn);
    Ok(())
}
