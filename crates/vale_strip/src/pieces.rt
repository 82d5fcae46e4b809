//! The words of a line, and the items of its lists.
ghost use Rattle.std.specs.Prelude.{◌≡◌, ◌≤◌, ℕ, List, [], ◌∷◌, map, decimal, OnErr, if◌then◌else◌};
ghost use Rattle.std.specs.List.{flat_map};
ghost use Rattle.nm_io.specs.Counts.{Rose};
ghost use Rattle.nm_io.specs.Held.{Writes};
ghost use Rattle.vale_entry.specs.Transcript.{frame_text, frames_text, span_text, buffers_text, dest_text, item_text, list_text};
ghost use Rattle.vale_entry.specs.Spans.{spans_in};
ghost use Rattle.vale_strip.specs.Failures.{Puts, CountsFailures};
ghost use Rattle.vale_strip.specs.Pieces.{behind, part_text, parts_text, piece_text, pieces_text};

use crate::spans::first_span;
use crate::strip::{
    SHORT_FRAME, Strip, put_byte, put_hex, put_more_runs, put_number, put_number_after,
    put_short_frame, put_span, put_span_after, put_strip, put_text, put_text_after,
};
use nm_io::{Failed, Sink};
use nm_types::Batch;
use vale_entry::{Dest, Item};

/// The version of the transcripts that are written.
pub const NEWEST: u32 = 2;

/// Something that a line spells: a word, or an item of a list.
pub trait Spelled {
    // its bytes in the line
    ghost text: { Self → List ℕ };

    fn spell<K: Sink>(&self, out: &mut K, strip: &mut Strip) -> Result<(), Failed>
        ensures gathers { Puts K.Sink out.old out.new strip.old strip.new result (text self.now) }
        ensures counts { CountsFailures K.Sink out.old out.new result };
}

/// A part of a text.
#[derive(Clone, Copy)]
pub enum Part<'a> {
    /// A number in decimal digits.
    Number(u64),
    /// Bytes as they are.
    Text(&'a [u8]),
    /// Bytes in hexadecimal digits, or a dot for none.
    Hex(&'a [u8]),
}

/// A word of a line.
#[derive(Clone, Copy)]
pub enum Piece<'a> {
    /// A number in decimal digits.
    Number(u64),
    /// Bytes as they are.
    Word(&'a [u8]),
    /// Frames with commas between them.
    Frames(&'a Batch),
    /// Buffers, as a text of this version has them.
    Buffers(u32, &'a [u32]),
    /// Ports, and how many frames go to each.
    Destinations(&'a [Dest]),
    /// Frames that found room, each behind its place in what was offered.
    Taken(&'a [Item]),
}

impl Spelled for Part<'_> {
    ghost text = { part_text };

    fn spell<K: Sink>(&self, out: &mut K, strip: &mut Strip) -> Result<(), Failed> {
        match *self {
            Part::Number(number) => put_number(out, strip, number),
            Part::Text(text) => put_text(out, strip, text),
            Part::Hex(bytes) => put_hex(out, strip, bytes),
        }
    }
}

/// Writes items one after another.
fn put_each<T: Spelled, K: Sink>(out: &mut K, strip: &mut Strip, items: &[T]) -> Result<(), Failed>
    ensures gathers { Puts K.Sink out.old out.new strip.old strip.new result (flat_map T.text items.now) }
    ensures counts { CountsFailures K.Sink out.old out.new result }
{
    for item in items {
        item.spell(out, strip)?;
    }
    Ok(())
}

/// Writes parts one after another, by way of a strip.
#[tactic(auto, using(crate::proofs::Strips::parts_are))]
fn put_parts_on<K: Sink>(out: &mut K, strip: &mut Strip, parts: &[Part<'_>]) -> Result<(), Failed>
    ensures gathers { Puts K.Sink out.old out.new strip.old strip.new result (parts_text parts.now) }
    ensures counts { CountsFailures K.Sink out.old out.new result }
{
    put_each(out, strip, parts)
}

/// Writes parts one after another.
#[tactic(auto, using(crate::proofs::Strips::strips))]
pub fn put_parts<K: Sink>(out: &mut K, parts: &[Part<'_>]) -> Result<(), Failed>
    ensures writes { Writes (K.holds out.old) (K.holds out.new) result (parts_text parts.now) }
    ensures later { K.faults out.old ≤ K.faults out.new }
    ensures cause { OnErr result (Rose (K.faults out.old) (K.faults out.new)) }
{
    let mut strip = Strip::new();
    put_parts_on(out, &mut strip, parts)?;
    put_strip(out, &mut strip)
}

impl Spelled for Dest {
    ghost text = { dest_text };

    fn spell<K: Sink>(&self, out: &mut K, strip: &mut Strip) -> Result<(), Failed> {
        let (to, count) = (self.to.0 as u64, self.count as u64);
        put_parts_on(
            out,
            strip,
            &[Part::Number(to), Part::Text(b"*"), Part::Number(count)],
        )
    }
}

impl Spelled for Item {
    ghost text = { item_text };

    fn spell<K: Sink>(&self, out: &mut K, strip: &mut Strip) -> Result<(), Failed> {
        let (index, bytes) = (self.index as u64, self.bytes.bytes());
        put_parts_on(
            out,
            strip,
            &[Part::Number(index), Part::Text(b":"), Part::Hex(bytes)],
        )
    }
}

/// Writes an item behind a mark.
#[inline(always)]
fn put_after<T: Spelled, K: Sink>(
    out: &mut K,
    strip: &mut Strip,
    mark: u8,
    item: &T,
) -> Result<(), Failed>
    ensures gathers { Puts K.Sink out.old out.new strip.old strip.new result (behind mark T.text item.now) }
    ensures counts { CountsFailures K.Sink out.old out.new result }
{
    put_byte(out, strip, mark)?;
    item.spell(out, strip)
}

/// Writes items, each behind a mark.
fn put_each_after<T: Spelled, K: Sink>(
    out: &mut K,
    strip: &mut Strip,
    mark: u8,
    items: &[T],
) -> Result<(), Failed>
    ensures gathers { Puts K.Sink out.old out.new strip.old strip.new result (flat_map (behind mark T.text) items.now) }
    ensures counts { CountsFailures K.Sink out.old out.new result }
{
    for item in items {
        put_after(out, strip, mark, item)?;
    }
    Ok(())
}

/// Writes items with commas between them, or a dash if there are none.
fn put_list<T: Spelled, K: Sink>(out: &mut K, strip: &mut Strip, items: &[T]) -> Result<(), Failed>
    ensures gathers { Puts K.Sink out.old out.new strip.old strip.new result (list_text (map T.text items.now)) }
    ensures counts { CountsFailures K.Sink out.old out.new result }
{
    let Some((first, others)) = items.split_first() else {
        return put_byte(out, strip, b'-');
    };
    first.spell(out, strip)?;
    put_each_after(out, strip, b',', others)
}

/// Writes the mark of a frame that teaches nothing.
#[inline(always)]
fn put_mark<K: Sink>(out: &mut K, strip: &mut Strip, no_learn: bool) -> Result<(), Failed>
    ensures gathers { Puts K.Sink out.old out.new strip.old strip.new result (if no_learn then 126 ∷ [] else []) }
    ensures counts { CountsFailures K.Sink out.old out.new result }
{
    if no_learn {
        put_byte(out, strip, b'~')
    } else {
        Ok(())
    }
}

fn put_frame<K: Sink>(out: &mut K, strip: &mut Strip, frame: (&[u8], bool)) -> Result<(), Failed>
    ensures gathers { Puts K.Sink out.old out.new strip.old strip.new result
        (frame_text (record { bytes = frame.entry.0.now; no_learn = frame.entry.1 })) }
    ensures counts { CountsFailures K.Sink out.old out.new result }
{
    let (bytes, no_learn) = frame;
    put_mark(out, strip, no_learn)?;
    put_hex(out, strip, bytes)
}

fn put_next_frame<K: Sink>(
    out: &mut K,
    strip: &mut Strip,
    frame: (&[u8], bool),
) -> Result<(), Failed>
    ensures gathers { Puts K.Sink out.old out.new strip.old strip.new result
        (behind 44 frame_text (record { bytes = frame.entry.0.now; no_learn = frame.entry.1 })) }
    ensures counts { CountsFailures K.Sink out.old out.new result }
{
    let (bytes, no_learn) = frame;
    if bytes.len() <= SHORT_FRAME {
        return put_short_frame(out, strip, bytes, no_learn);
    }
    put_byte(out, strip, b',')?;
    put_frame(out, strip, frame)
}

fn put_frames<K: Sink>(out: &mut K, strip: &mut Strip, frames: &Batch) -> Result<(), Failed>
    ensures gathers { Puts K.Sink out.old out.new strip.old strip.new result (frames_text frames.now) }
    ensures counts { CountsFailures K.Sink out.old out.new result }
{
    if frames.is_empty() {
        return put_byte(out, strip, b'-');
    }
    put_frame(out, strip, frames.get(0))?;
    for i in 1..frames.len() {
        put_next_frame(out, strip, frames.get(i))?;
    }
    Ok(())
}

/// Writes the spans of numbers, each behind a comma.
fn put_more_spans<K: Sink>(
    out: &mut K,
    strip: &mut Strip,
    version: u32,
    numbers: &[u32],
) -> Result<(), Failed>
    ensures gathers { Puts K.Sink out.old out.new strip.old strip.new result
        (flat_map (behind 44 span_text) (spans_in version numbers.now)) }
    ensures counts { CountsFailures K.Sink out.old out.new result }
{
    let mut rest = numbers;
    while let Some((span, others)) = first_span(version, rest) {
        put_span_after(out, strip, b',', span)?;
        rest = others;
    }
    Ok(())
}

/// Writes the spans of numbers, each behind a comma: many at once where neighbours are together.
fn put_others<K: Sink>(
    out: &mut K,
    strip: &mut Strip,
    version: u32,
    numbers: &[u32],
) -> Result<(), Failed>
    ensures gathers { Puts K.Sink out.old out.new strip.old strip.new result
        (flat_map (behind 44 span_text) (spans_in version numbers.now)) }
    ensures counts { CountsFailures K.Sink out.old out.new result }
{
    if version == NEWEST {
        return put_more_runs(out, strip, numbers);
    }
    put_more_spans(out, strip, version, numbers)
}

/// Writes the spans of numbers with commas between them, or a dash if there are none.
fn put_buffers<K: Sink>(
    out: &mut K,
    strip: &mut Strip,
    version: u32,
    numbers: &[u32],
) -> Result<(), Failed>
    ensures gathers { Puts K.Sink out.old out.new strip.old strip.new result (buffers_text version numbers.now) }
    ensures counts { CountsFailures K.Sink out.old out.new result }
{
    let Some((span, others)) = first_span(version, numbers) else {
        return put_byte(out, strip, b'-');
    };
    put_span(out, strip, span)?;
    put_others(out, strip, version, others)
}

impl Spelled for Piece<'_> {
    ghost text = { piece_text };

    fn spell<K: Sink>(&self, out: &mut K, strip: &mut Strip) -> Result<(), Failed> {
        match *self {
            Piece::Number(number) => put_number(out, strip, number),
            Piece::Word(word) => put_text(out, strip, word),
            Piece::Frames(frames) => put_frames(out, strip, frames),
            Piece::Buffers(version, numbers) => put_buffers(out, strip, version, numbers),
            Piece::Destinations(dests) => put_list(out, strip, dests),
            Piece::Taken(items) => put_list(out, strip, items),
        }
    }
}

/// Writes a word behind a blank.
fn put_word<K: Sink>(out: &mut K, strip: &mut Strip, piece: &Piece<'_>) -> Result<(), Failed>
    ensures gathers { Puts K.Sink out.old out.new strip.old strip.new result (behind 32 piece_text piece.now) }
    ensures counts { CountsFailures K.Sink out.old out.new result }
{
    match *piece {
        Piece::Number(number) => put_number_after(out, strip, b' ', number),
        Piece::Word(word) => put_text_after(out, strip, b' ', word),
        _ => put_after(out, strip, b' ', piece),
    }
}

/// Writes words, each behind a blank.
pub fn put_words<K: Sink>(
    out: &mut K,
    strip: &mut Strip,
    pieces: &[Piece<'_>],
) -> Result<(), Failed>
    ensures gathers { Puts K.Sink out.old out.new strip.old strip.new result (pieces_text pieces.now) }
    ensures counts { CountsFailures K.Sink out.old out.new result }
{
    for piece in pieces {
        put_word(out, strip, piece)?;
    }
    Ok(())
}
