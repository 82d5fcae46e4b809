ghost use Rattle.std.specs.Prelude.{ℕ, ◌≡◌, ◌<◌, ◌≤◌, ◌+◌, ◌++◌, IfOk, length, replicate};
ghost use Rattle.std.specs.Prelude.{slice_set};
ghost use Rattle.std.specs.Vec.{vec_capacity};
ghost use Rattle.nm_hold.specs.Sparse.{number_of};
ghost use Rattle.nm_hold.specs.NumberTables.{IsPlace, Reaches, zeros};

use std::alloc::{AllocError, Global};
use std::marker::Model;

/// Where the numbers in memory begin is a multiple of so many.
const STRIDE: usize = 512;

/// A number for each of so many indices, 0 at first. Only those from about the smallest to the
/// largest index that was given one lie in memory.
#[derive(Drop)]
pub(crate) struct NumberTable {
    count: usize,
    // the index of the first number in memory
    first: usize,
    numbers: Vec<u32>,
}

impl Model for NumberTable {
    ghost use Rattle.std.specs.Prelude.{ℕ, List};

    ghost Value = { List ℕ };

    ghost use Rattle.nm_hold.specs.NumberTables.{among_zeros, IsNumberTable};

    ghost view = { λ t. among_zeros t.first t.count t.numbers.items };

    ghost invariant = { IsNumberTable };
}

/// Puts so many zeros behind numbers, for which there is room.
fn push_zeros(numbers: &mut Vec<u32>, count: usize)
    requires { length numbers.old.items + count ≤ vec_capacity numbers.old }
    ensures items { numbers.new.items ≡ numbers.old.items ++ zeros count }
    ensures room { vec_capacity numbers.new ≡ vec_capacity numbers.old }
{
    for _ in 0..count {
        numbers.push_reserved(0);
    }
}

/// The place of an index among numbers that begin at the index `first`, behind all of them for an
/// index before that.
fn place_of(first: usize, idx: usize) -> usize
    ensures { IsPlace first idx result }
{
    idx.wrapping_sub(first)
}

/// Lets the number of an index lie in memory, beside numbers that begin at the index `first`, and
/// tells where they begin now.
#[inline(never)]
fn grow(numbers: &mut Vec<u32>, first: usize, idx: usize) -> usize
    requires within { idx < vec_capacity numbers.old }
    requires fits { first + length numbers.old.items ≤ vec_capacity numbers.old }
    ensures reaches { Reaches idx first numbers.old.items result numbers.new.items }
    ensures room { vec_capacity numbers.new ≡ vec_capacity numbers.old }
{
    let start = idx - idx % STRIDE;
    if numbers.is_empty() {
        push_zeros(numbers, idx + 1 - start);
        start
    } else if idx < first {
        push_zeros(numbers, first - start);
        numbers.rotate_right(first - start);
        start
    } else {
        let missing = (idx + 1 - first).saturating_sub(numbers.len());
        push_zeros(numbers, missing);
        first
    }
}

impl NumberTable {
    /// The number 0 for each of so many indices.
    pub(crate) fn new(alloc: Global, count: usize) -> Result<NumberTable, AllocError>
        ensures { IfOk result (λ table. table ≡ replicate count 0) }
    {
        Ok(NumberTable {
            count,
            first: 0,
            numbers: Vec::with_capacity(alloc, count)?,
        })
    }

    /// The number of an index, 0 behind the last one.
    pub(crate) fn number(&self, idx: u32) -> u32
        ensures { result ≡ number_of self.now idx }
    {
        match self.numbers.get(place_of(self.first, idx as usize)) {
            Some(number) => *number,
            None => 0,
        }
    }

    /// The number of an index, which is not 0.
    pub(crate) fn given(&self, idx: u32) -> u32
        requires { 0 < number_of self.now idx }
        ensures { result ≡ number_of self.now idx }
    {
        self.numbers[idx as usize - self.first]
    }

    /// Gives an index another number, in the place of one that is not 0.
    pub(crate) fn change(&mut self, idx: u32, number: u32)
        requires { 0 < number_of self.old idx }
        ensures { self.new ≡ slice_set self.old idx number }
    {
        self.numbers[idx as usize - self.first] = number;
    }

    /// Gives an index a number.
    pub(crate) fn set(&mut self, idx: u32, number: u32)
        requires { idx < length self.old }
        ensures { self.new ≡ slice_set self.old idx number }
    {
        let idx = idx as usize;
        let place = place_of(self.first, idx);
        if place < self.numbers.len() {
            self.numbers[place] = number;
            return;
        }
        self.first = grow(&mut self.numbers, self.first, idx);
        self.numbers[idx - self.first] = number;
    }
}
