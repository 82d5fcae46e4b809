//! Single fields.
ghost use Rattle.std.specs.Prelude.{◌≡◌, ◌<◌, ◌++◌, ◌∷◌, [], ℕ, List, min, length, IsTrue, IfOk, OnOk};
ghost use Rattle.vale_fields.specs.Fields.{long_of, short_of, half_of, bytes_of, is_marked, frame_of, front_by, back_by, mark_in, span_of, dest_of, item_of, name_of};

use crate::hex::bytes_of;
use memchr::memchr;
use nm_types::{Batch, Frame, Name, NoMemory, PortId};
use std::alloc::Global;
use vale_entry::{Dest, Item, Span};

/// The number of 64 bits that digits write, or the greatest one if theirs is greater.
#[tactic(auto, using(crate::proofs::Numerals::numerals), unfolding(crate::specs::Fields::long_of))]
pub fn long_of(word: &[u8]) -> u64
    ensures { result ≡ long_of word.now }
{
    let mut number = 0u128;
    for b in word {
        number = (number * 10 + b.saturating_sub(b'0') as u128).min(u64::MAX as u128);
    }
    number as u64
}

/// The number of 32 bits that digits write, or the greatest one if theirs is greater.
#[tactic(auto, unfolding(crate::specs::Fields::short_of))]
pub fn short_of(word: &[u8]) -> u32
    ensures { result ≡ short_of word.now }
{
    long_of(word).min(u32::MAX as u64) as u32
}

/// The number of 16 bits that digits write, or the greatest one if theirs is greater.
#[tactic(auto, unfolding(crate::specs::Fields::half_of))]
pub(crate) fn half_of(word: &[u8]) -> u16
    ensures { result ≡ half_of word.now }
{
    long_of(word).min(u16::MAX as u64) as u16
}

fn is_marked(word: &[u8]) -> bool
    ensures value { result ≡ is_marked word.now }
    ensures some { IsTrue result → 0 < length word.now }
{
    match word.first() {
        Some(b) => *b == b'~',
        None => false,
    }
}

/// The digits of a frame, without the tilde that marks it, and whether it is marked.
#[tactic(auto, unfolding(crate::specs::Fields::frame_of))]
fn unmarked(word: &[u8]) -> (&[u8], bool)
    ensures { record { bytes = bytes_of result.0.now; no_learn = result.1 } ≡ frame_of word.now }
{
    if is_marked(word) {
        (&word[1..], true)
    } else {
        (word, false)
    }
}

/// Adds the frame of this text to those of a batch.
pub(crate) fn push_frame(alloc: Global, frames: &mut Batch, word: &[u8]) -> Result<(), NoMemory>
    ensures ok { OnOk result (frames.new ≡ frames.old ++ frame_of word.now ∷ []) }
{
    let (digits, no_learn) = unmarked(word);
    let bytes = bytes_of(alloc, digits)?;
    frames.push(&bytes, no_learn)
}

/// Where a mark stands first.
pub fn mark_in(mark: u8, word: &[u8]) -> Option<usize>
    ensures { result ≡ mark_in mark word.now }
{
    memchr(mark, word)
}

/// What stands before a mark, and what behind it.
pub fn cut_at(mark: u8, word: &[u8]) -> (&[u8], &[u8])
    ensures front { result.0.now ≡ front_by (mark_in mark word.now) word.now }
    ensures back { result.1.now ≡ back_by (mark_in mark word.now) word.now }
{
    match mark_in(mark, word) {
        Some(k) => (&word[..k], &word[k + 1..]),
        None => (word, b""),
    }
}

/// A number, or the first and the last of a span with a dash between them.
#[tactic(auto, unfolding(crate::specs::Fields::span_of))]
pub(crate) fn span_of(word: &[u8]) -> Span
    ensures { result ≡ span_of word.now }
{
    let Some(k) = mark_in(b'-', word) else {
        let number = short_of(word);
        return Span {
            first: number,
            last: number,
        };
    };
    Span {
        first: short_of(&word[..k]),
        last: short_of(&word[k + 1..]),
    }
}

/// What a list has as its items.
pub(crate) trait Listed: Sized {
    // what a text stands for
    ghost item_of: { List ℕ → Self };

    fn read(alloc: Global, word: &[u8]) -> Result<Self, NoMemory>
        ensures { IfOk result (λ item. item ≡ item_of word.now) };
}

/// A destination: its port, a star, and how many frames.
impl Listed for Dest {
    ghost item_of = { dest_of };

    #[tactic(auto, unfolding(crate::specs::Fields::dest_of))]
    fn read(_: Global, word: &[u8]) -> Result<Self, NoMemory> {
        let (to, count) = cut_at(b'*', word);
        Ok(Dest {
            to: PortId(short_of(to)),
            count: short_of(count),
        })
    }
}

/// A frame that a pipe took: its buffer, a colon, and its digits.
impl Listed for Item {
    ghost item_of = { item_of };

    #[tactic(auto, unfolding(crate::specs::Fields::item_of))]
    fn read(alloc: Global, word: &[u8]) -> Result<Self, NoMemory> {
        let (index, digits) = cut_at(b':', word);
        let bytes = bytes_of(alloc, digits)?;
        Ok(Item {
            index: short_of(index),
            bytes: Frame::new(alloc, &bytes, false)?,
        })
    }
}

/// The name of a port, a pipe end or a monitor, or none if the word is none.
#[tactic(auto, unfolding(crate::specs::Fields::name_of))]
pub(crate) fn name_of(word: &[u8]) -> Option<Name>
    ensures { result ≡ name_of word.now }
{
    Name::from_bytes(word).ok()
}
