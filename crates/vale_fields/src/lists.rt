//! The lists of a line.
ghost use Rattle.std.specs.Prelude.{◌≡◌, ◌==◌, ◌<◌, ◌++◌, ◌∷◌, [], length, map, IfOk, IfSome, OnOk};
ghost use Rattle.std.specs.List.{slice_split};
ghost use Rattle.std.specs.Option.{IfNone};
ghost use Rattle.vale_entry.specs.Spans.{numbers_in};
ghost use Rattle.vale_fields.specs.Lists.{words_of, parts_of, numbers_of, dests_of, items_of, frames_of};

use crate::fields::{Listed, mark_in, push_frame, span_of};
use nm_types::{Batch, NoMemory};
use std::alloc::Global;
use vale_entry::{Dests, Items, Numbers, Span};

/// How many words a line is read to have at most, and how many items a list. A pool has fewer
/// buffers; a line of no history may have more.
const MOST_ITEMS: usize = 1_048_576;

/// Tells whether a mark cuts a text into more pieces than are read.
fn has_many(mark: u8, text: &[u8]) -> bool {
    text.len() >= MOST_ITEMS && text.iter().filter(|b| **b == mark).count() >= MOST_ITEMS
}

/// The first piece of a text between marks, and what stands behind its mark; `None` if no mark stands
/// in the text.
fn first_piece(mark: u8, text: &[u8]) -> Option<(&[u8], &[u8])>
    ensures some { IfSome result (λ cut. slice_split (λ b. b == mark) text.now ≡ cut.0.now ∷ slice_split (λ b. b == mark) cut.1.now) }
    ensures shorter { IfSome result (λ cut. length cut.1.now < length text.now) }
    ensures none { IfNone result (slice_split (λ b. b == mark) text.now ≡ text.now ∷ []) }
{
    match mark_in(mark, text) {
        Some(end) => Some((&text[..end], &text[end + 1..])),
        None => None,
    }
}

/// As many pieces as a line of a transcript has words, and one more.
const FEW_PIECES: usize = 18;

/// The pieces of a text between marks.
fn pieces_of(alloc: Global, mark: u8, text: &[u8]) -> Result<Vec<&[u8]>, NoMemory>
    ensures { IfOk result (λ pieces. map (λ w. w.now) pieces.items ≡ slice_split (λ b. b == mark) text.now) }
{
    let mut pieces = Vec::with_capacity(alloc, FEW_PIECES)?;
    let mut rest = text;
    while let Some((piece, behind)) = first_piece(mark, rest) {
        pieces.push(piece)?;
        rest = behind;
    }
    pieces.push(rest)?;
    Ok(pieces)
}

/// The words of a line, cut at blanks. More of them than a list has items are too many for memory.
pub fn words_of(alloc: Global, line: &[u8]) -> Result<Vec<&[u8]>, NoMemory>
    ensures { IfOk result (λ words. map (λ w. w.now) words.items ≡ words_of line.now) }
{
    if has_many(b' ', line) {
        return Err(NoMemory);
    }
    pieces_of(alloc, b' ', line)
}

/// The items of a list, if they are not too many.
#[tactic(auto, unfolding(crate::specs::Lists::parts_of))]
fn parts_of(alloc: Global, word: &[u8]) -> Result<Vec<&[u8]>, NoMemory>
    ensures { IfOk result (λ parts. map (λ w. w.now) parts.items ≡ parts_of word.now) }
{
    if word == b"-".as_slice() {
        return Ok(Vec::new(alloc));
    }
    if has_many(b',', word) {
        return Err(NoMemory);
    }
    pieces_of(alloc, b',', word)
}

/// The items of a list, each read.
#[tactic(auto, using(crate::proofs::Parts::parts))]
fn items_read<T: Listed + Drop>(alloc: Global, word: &[u8]) -> Result<Vec<T>, NoMemory>
    ensures { IfOk result (λ items. items.items ≡ map T.item_of (parts_of word.now)) }
{
    let parts = parts_of(alloc, word)?;
    let mut items = Vec::with_capacity(alloc, parts.len())?;
    for part in &parts {
        items.push(T::read(alloc, part)?)?;
    }
    Ok(items)
}

/// Adds the numbers of a span, if they are not too many.
fn push_span(numbers: &mut Vec<u32>, span: Span) -> Result<(), NoMemory>
    ensures ok { OnOk result (numbers.new.items ≡ numbers.old.items ++ numbers_in span) }
{
    let count = (span.last as usize + 1).saturating_sub(span.first as usize);
    if count > MOST_ITEMS.saturating_sub(numbers.len()) {
        return Err(NoMemory);
    }
    for k in 0..count {
        numbers.push(span.first + k as u32)?;
    }
    Ok(())
}

/// The numbers of a list of spans, in a text of either version.
#[tactic(auto, using(crate::proofs::Parts::spans))]
pub(crate) fn numbers_of(alloc: Global, word: &[u8]) -> Result<Numbers, NoMemory>
    ensures { IfOk result (λ numbers. numbers ≡ numbers_of word.now) }
{
    let parts = parts_of(alloc, word)?;
    let mut numbers = Vec::with_capacity(alloc, parts.len())?;
    for part in &parts {
        push_span(&mut numbers, span_of(part))?;
    }
    Ok(Numbers::from(numbers))
}

pub(crate) fn dests_of(alloc: Global, word: &[u8]) -> Result<Dests, NoMemory>
    ensures { IfOk result (λ dests. dests ≡ dests_of word.now) }
{
    Ok(Dests::from(items_read(alloc, word)?))
}

pub(crate) fn items_of(alloc: Global, word: &[u8]) -> Result<Items, NoMemory>
    ensures { IfOk result (λ items. items ≡ items_of word.now) }
{
    Ok(Items::from(items_read(alloc, word)?))
}

#[tactic(auto, using(crate::proofs::Parts::parts))]
pub(crate) fn frames_of(alloc: Global, word: &[u8]) -> Result<Batch, NoMemory>
    ensures { IfOk result (λ frames. frames ≡ frames_of word.now) }
{
    let parts = parts_of(alloc, word)?;
    let mut frames = Batch::new(alloc);
    for part in &parts {
        push_frame(alloc, &mut frames, part)?;
    }
    Ok(frames)
}
