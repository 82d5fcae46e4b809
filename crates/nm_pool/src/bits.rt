ghost use Rattle.std.specs.Prelude.{◌≡◌, ◌≢◌, ◌≤◌, ◌<◌, ◌+◌, ◌*◌, ◌-◌, ◌^◌, ◌/◌, ◌%◌, ℕ, length, min, IfOk, IfSome, IfNone};
ghost use Rattle.nm_types.specs.Limits.{most_pool};
ghost use Rattle.nm_pool.specs.Bits.{bit_of};

use std::alloc::{AllocError, Global};

/// A word of which the `count` lowest bits are set, or all.
fn full_word(count: usize) -> u64
    ensures { result ≡ 2 ^ min count 64 - 1 }
{
    if count < 64 {
        (1 << count) - 1
    } else {
        u64::MAX
    }
}

/// Words of which the `count` first bits are set.
pub(crate) fn full_words(alloc: Global, count: usize) -> Result<Vec<u64>, AllocError>
    requires { count ≤ most_pool }
    ensures set { IfOk result (λ words. (k : ℕ) → k < count → bit_of words.items k ≡ 1) }
    ensures clear { IfOk result (λ words. (k : ℕ) → count ≤ k → bit_of words.items k ≡ 0) }
    ensures enough { IfOk result (λ words. count ≤ length words.items * 64) }
    ensures few { IfOk result (λ words. length words.items * 64 ≤ most_pool) }
{
    let most = (count + 63) / 64;
    let mut words = Vec::with_capacity(alloc, most)?;
    for at in 0..most {
        words.push_reserved(full_word(count - at * 64));
    }
    Ok(words)
}

/// Sets the bit at `k`.
pub(crate) fn set_bit(words: &mut Vec<u64>, k: usize)
    requires { k < length words.old.items * 64 }
    ensures same { bit_of words.new.items k ≡ 1 }
    ensures other { (j : ℕ) → j ≢ k → bit_of words.new.items j ≡ bit_of words.old.items j }
    ensures count { length words.new.items ≡ length words.old.items }
{
    words[k / 64] |= 1 << (k % 64);
}

/// Clears the bit at `k`.
pub(crate) fn clear_bit(words: &mut Vec<u64>, k: usize)
    requires { k < length words.old.items * 64 }
    ensures same { bit_of words.new.items k ≡ 0 }
    ensures other { (j : ℕ) → j ≢ k → bit_of words.new.items j ≡ bit_of words.old.items j }
    ensures count { length words.new.items ≡ length words.old.items }
{
    words[k / 64] &= !(1 << (k % 64));
}

/// The first bit that is set, where none is before `from`.
pub(crate) fn first_bit(words: &Vec<u64>, from: usize) -> Option<usize>
    requires before { (k : ℕ) → k < from → bit_of words.now.items k ≡ 0 }
    requires few { length words.now.items * 64 ≤ most_pool }
    requires from { from ≤ most_pool }
    ensures set { IfSome result (λ k. bit_of words.now.items k ≡ 1) }
    ensures before { IfSome result (λ k. (j : ℕ) → j < k → bit_of words.now.items j ≡ 0) }
    ensures within { IfSome result (λ k. k < length words.now.items * 64) }
    ensures none { IfNone result ((j : ℕ) → bit_of words.now.items j ≡ 0) }
{
    let mut at = from / 64;
    while at < words.len() {
        let word = words[at];
        if word != 0 {
            return Some(at * 64 + word.trailing_zeros() as usize);
        }
        at += 1;
    }
    None
}
