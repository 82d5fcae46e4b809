ghost use Rattle.std.specs.Prelude.{◌≡◌, ◌+◌, ◌-◌, ◌<◌, ◌≤◌, ◌^◌, [], ◌++◌, length, take, drop, slice_index_or};
ghost use Rattle.std.specs.Borrow.{sem};
ghost use Rattle.nm_reach.specs.Fields.{round, Meet, from_first, front_of, back_of};
ghost use Rattle.nm_reach.specs.Sides.{values_of, IsRound};

use crate::sides::Sides;
use crate::stretch::Stretch;
use std::marker::Model;
use std::mem::replace;

/// The exclusive right to a circular run of a field's cells. It cannot be dropped: it is joined to
/// others, and the field is closed with the right to all its cells.
pub struct Reach<T> {
    start: u32,
    size: u32,
    sides: Sides<T>,
}

impl<T> Model for Reach<T> {
    ghost use Rattle.nm_reach.specs.Fields.{Run, run_code};

    ghost Value = { Run T };

    ghost coded = { run_code T.code };

    ghost use Rattle.nm_reach.specs.Sides.{values_of};

    ghost view = { λ r. record {
      field = r.sides.front.field;
      size = r.size;
      start = r.start;
      values = values_of r.sides;
    } };

    ghost use Rattle.nm_reach.specs.Kept.{IsReach};

    ghost invariant = { IsReach };
}

/// The cell `k` behind the cell `from`, round a ring.
fn place_after(size: u32, from: u32, k: u32) -> u32
    requires within { from < size }
    requires once { k ≤ size }
    ensures { result ≡ round size from k }
{
    let room = size - from;
    if k < room { from + k } else { k - room }
}

impl<T> Reach<T> {
    ghost use Rattle.nm_reach.specs.LendingRun.{LendsCellOf, LendsFrontOf, LendsBackOf};

    /// The right to all cells of a field.
    pub(crate) fn whole(size: u32, sides: Sides<T>) -> Reach<T>
        requires { IsRound sides.front.field size 0 sides }
        ensures { result ≡ record {
          field = sides.front.field;
          size = size;
          start = 0;
          values = values_of sides;
        } }
    {
        Reach {
            start: 0,
            size,
            sides,
        }
    }

    /// The cells, from cell 0 on, if this is the right to all of them.
    pub(crate) fn unrolled(self) -> Stretch<T>
        requires all { length self.values ≡ self.size }
        ensures field { result.field ≡ self.field }
        ensures start { result.start ≡ 0 }
        ensures values { result.values ≡ from_first self }
    {
        let Reach {
            start: _,
            size: _,
            sides,
        } = self;
        sides.unrolled()
    }

    /// The first cell of the run.
    pub fn start(&self) -> u32
        ensures { result ≡ self.now.start }
    {
        self.start
    }

    /// How many cells the run has.
    pub fn len(&self) -> u32
        ensures { result ≡ length self.now.values }
    {
        self.sides.len() as u32
    }

    /// Ends a right to no cells.
    pub fn end(self)
        requires { self.values ≡ [] }
    {
        let Reach {
            start: _,
            size: _,
            sides,
        } = self;
        sides.end();
    }

    /// Takes the first `k` cells as a right of their own. No value is changed.
    #[inline(never)]
    pub fn split_front(&mut self, k: u32) -> Reach<T>
        requires { k ≤ length self.old.values }
        ensures first { result ≡ record self.old { values = take k self.old.values } }
        ensures rest { self.new ≡ record self.old {
          start = round self.old.size self.old.start k;
          values = drop k self.old.values;
        } }
    {
        let (start, size) = (self.start, self.size);
        let sides = replace(&mut self.sides, Sides::none());
        let (first, rest) = sides.split((size - start) as usize, k as usize);
        replace(&mut self.sides, rest).end();
        self.start = place_after(size, start, k);
        Reach {
            start,
            size,
            sides: first,
        }
    }

    /// Joins the right to the cells that begin where this run ends. No value is changed.
    #[inline(never)]
    pub fn join(&mut self, next: Reach<T>)
        requires { Meet self.old next }
        ensures { self.new ≡ record self.old { values = self.old.values ++ next.values } }
    {
        let room = (self.size - self.start) as usize;
        let sides = replace(&mut self.sides, Sides::none());
        let Reach {
            start: _,
            size: _,
            sides: others,
        } = next;
        replace(&mut self.sides, sides.join(others, room)).end();
    }

    /// The value in the cell `i` of the run.
    pub fn get(&self, i: u32) -> &T
        requires { i < length self.now.values }
        ensures { result.now ≡ slice_index_or self.now.values i result.now }
    {
        let before = self.sides.front.len();
        if (i as usize) < before {
            self.sides.front.get(i as usize)
        } else {
            self.sides.back.get(i as usize - before)
        }
    }

    /// The cell `i` of the run, for writing.
    pub fn get_mut(&mut self, i: u32) -> &mut T
        requires { i < length self.old.values }
        ensures* writes_back { sem 𝓛 (LendsCellOf T.row self.entry i result) }
        ensures value { result.now ≡ slice_index_or self.old.values i result.now }
    {
        let before = self.sides.front.len();
        if (i as usize) < before {
            self.sides.front.get_mut(i as usize)
        } else {
            self.sides.back.get_mut(i as usize - before)
        }
    }

    /// The values in the cells up to the end of the field, for writing.
    pub fn front_mut(&mut self) -> &mut [T]
        ensures* writes_back { sem 𝓛 (LendsFrontOf T.row self.entry result) }
        ensures value { result.now ≡ front_of self.old }
        ensures few { length self.old.values < 2 ^ 32 }
    {
        self.sides.front.values_mut()
    }

    /// The values in the cells from cell 0 on, if the run goes round, for writing.
    pub fn back_mut(&mut self) -> &mut [T]
        ensures* writes_back { sem 𝓛 (LendsBackOf T.row self.entry result) }
        ensures value { result.now ≡ back_of self.old }
        ensures few { length self.old.values < 2 ^ 32 }
    {
        self.sides.back.values_mut()
    }
}
