ghost use Rattle.std.specs.Prelude.{ℕ, ◌≡◌, ◌<◌, ◌≤◌, IfOk, IsSome, length, None, replicate, slice_set};
ghost use Rattle.std.specs.Prelude.{Some, ◌≢◌, ◌+◌, ◌-◌, ◌↔◌, IsTrue, slice_index_or};
ghost use Rattle.std.specs.Vec.{vec_len, vec_capacity};
ghost use Rattle.nm_types.specs.Limits.{most_pool};
ghost use Rattle.nm_hold.specs.declared.cells.Owned.{Owned};
ghost use Rattle.std.specs.Borrow.{sem};
ghost use Rattle.std.specs.Option.{option_copied};
ghost use Rattle.nm_hold.specs.Holds.{cell_at};
ghost use Rattle.nm_hold.specs.Sparse.{cells_of, number_of, standings_in};
ghost use Rattle.nm_hold.specs.Standings.{buf_in, bytes_in, cell_named};

use crate::number_table::NumberTable;
use crate::standing::Standing;
use nm_region::Buf;
use std::alloc::{AllocError, Global};
use std::marker::Model;
use std::mem::replace;

/// At each index of a pool the buffer that stands there, or nothing. It cannot be dropped:
/// `destroy` ends it once nothing stands.
///
/// What stands lies side by side in no order, so that only as much memory is touched as buffers
/// have stood at once; the rest of the room lies untouched.
pub(crate) struct Cells {
    // by index: 0 where nothing stands, else one more than the position of what stands there
    at: NumberTable,
    // by position
    held: Vec<Owned>,
}

/// What stands at an index, with that index. The buffer lies at the front, so that it is moved out by
/// the same loads as what stands was stored by.
pub(crate) struct Owned {
    standing: Standing,
    index: u32,
}

impl Model for Cells {
    ghost use Rattle.std.specs.Prelude.{List, Option};
    ghost use Rattle.nm_hold.specs.declared.standing.Standing.{Standing};

    ghost Value = { List (Option Standing) };

    ghost use Rattle.nm_hold.specs.Sparse.{cells_of, standings_in, IsSparse};

    ghost view = { λ c. cells_of c.at (standings_in c.held.items) };

    ghost invariant = { IsSparse };
}

/// Takes out what stands at a position before the last one. What stands last takes that position.
fn swap_out(held: &mut Vec<Owned>, position: usize) -> Owned
    requires { position + 1 < vec_len held.old }
    ensures value { result ≡ slice_index_or held.old.items position result }
    ensures len { vec_len held.new + 1 ≡ vec_len held.old }
    ensures capacity { vec_capacity held.new ≡ vec_capacity held.old }
    ensures by_index { ((d : Owned) → position + 1 < vec_len held.old
        → slice_index_or held.new.items position d
        ≡ slice_index_or held.old.items (vec_len held.old - 1) d)
        × ((k : ℕ) (d : Owned) → k ≢ position → k + 1 < vec_len held.old
        → slice_index_or held.new.items k d ≡ slice_index_or held.old.items k d) }
{
    let end = held.take_last();
    replace(&mut held[position], end)
}

/// The position of what stands at an index, at which something stands.
fn position_of(at: &NumberTable, held: &[Owned], idx: u32) -> usize
    requires { IsSome (cell_at (cells_of at.now (standings_in held.now)) idx) }
    ensures number { number_of at.now idx ≡ result + 1 }
    ensures within { result < length held.now }
{
    (at.given(idx) - 1) as usize
}

impl Cells {
    ghost use Rattle.nm_hold.specs.CellLends.{LendsStandingAt, LendsBytesIn};

    /// Nothing at each of so many indices.
    pub(crate) fn new(alloc: Global, count: usize) -> Result<Cells, AllocError>
        requires { count ≤ most_pool + 2 }
        ensures { IfOk result (λ cells. cells ≡ replicate count None) }
    {
        Ok(Cells {
            at: NumberTable::new(alloc, count)?,
            held: Vec::with_capacity(alloc, count)?,
        })
    }

    /// What stands at an index.
    pub(crate) fn get(&self, idx: u32) -> Option<&Standing>
        ensures { option_copied result ≡ cell_at self.now idx }
    {
        let number = self.at.number(idx);
        if number == 0 {
            None
        } else {
            Some(&self.held[(number - 1) as usize].standing)
        }
    }

    /// What stands at an index, at which something stands.
    pub(crate) fn standing(&self, idx: u32) -> &Standing
        requires { IsSome (cell_at self.now idx) }
        ensures { cell_at self.now idx ≡ Some result.now }
    {
        let position = position_of(&self.at, &self.held, idx);
        &self.held[position].standing
    }

    /// The same, to be changed.
    pub(crate) fn standing_mut(&mut self, idx: u32) -> &mut Standing
        requires { IsSome (cell_at self.old idx) }
        ensures* writes_back { sem 𝓛 (LendsStandingAt self.entry idx result) }
        ensures standing { cell_at self.old idx ≡ Some result.now }
    {
        let position = position_of(&self.at, &self.held, idx);
        &mut self.held[position].standing
    }

    /// The bytes of the buffer at an index, to be written.
    pub(crate) fn bytes_mut(&mut self, idx: u32) -> &mut [u8]
        requires { IsSome (cell_at self.old idx) }
        ensures* writes_back { sem 𝓛 (LendsBytesIn self.entry idx result) }
        ensures bytes { bytes_in (cell_at self.old idx) ≡ Some result.now }
    {
        self.standing_mut(idx).bytes_mut()
    }

    /// Writes the zeros of the buffer at an index, if one stands there of which nothing is written.
    pub(crate) fn prepare(&mut self, idx: u32)
        ensures { self.new ≡ self.old }
    {
        let number = self.at.number(idx);
        if number > 0 {
            self.held[(number - 1) as usize].standing.buf.prepare();
        }
    }

    /// Makes the buffer at an index, at which one stands, a named one, or one that is not named.
    pub(crate) fn rename(&mut self, idx: u32, named: bool)
        requires { IsSome (cell_at self.old idx) }
        ensures { self.new ≡ slice_set self.old idx (cell_named named (cell_at self.old idx)) }
    {
        let standing = self.standing_mut(idx);
        standing.home.named = named;
    }

    /// Puts a buffer at an index, at which nothing stands.
    pub(crate) fn put(&mut self, idx: u32, standing: Standing)
        requires within { idx < length self.old }
        requires empty { cell_at self.old idx ≡ None }
        ensures { self.new ≡ slice_set self.old idx (Some standing) }
    {
        self.held.push_reserved(Owned {
            index: idx,
            standing,
        });
        self.at.set(idx, self.held.len() as u32);
    }

    /// Takes out the buffer that stands at an index. What stands last takes its position, unless it is
    /// the one that goes.
    pub(crate) fn take(&mut self, idx: u32) -> Buf
        requires { IsSome (cell_at self.old idx) }
        ensures buffer { buf_in (cell_at self.old idx) ≡ Some result }
        ensures cells { self.new ≡ slice_set self.old idx None }
    {
        let number = self.at.given(idx);
        if number as usize == self.held.len() {
            self.at.change(idx, 0);
            let Owned {
                index: _,
                standing: Standing { home: _, buf },
            } = self.held.take_last();
            return buf;
        }
        let position = (number - 1) as usize;
        let last = self.held[self.held.len() - 1].index;
        self.at.change(last, number);
        self.at.change(idx, 0);
        let Owned {
            index: _,
            standing: Standing { home: _, buf },
        } = swap_out(&mut self.held, position);
        buf
    }

    /// Whether nothing stands at any index.
    pub(crate) fn is_empty(&self) -> bool
        ensures { IsTrue result ↔ ((idx : ℕ) → cell_at self.now idx ≡ None) }
    {
        self.held.is_empty()
    }

    /// Ends cells in which nothing stands.
    pub(crate) fn destroy(self)
        requires { (idx : ℕ) → cell_at self idx ≡ None }
    {
        let Cells { at: _, held } = self;
        held.destroy_empty();
    }
}
