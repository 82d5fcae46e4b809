ghost use Rattle.std.specs.Prelude.{◌≡◌, ◌+◌, ◌^◌, ◌<◌, ◌≤◌, [], ◌++◌, length, take, drop, slice_index_or};
ghost use Rattle.std.specs.Borrow.{sem};

use crate::parts::{Spot, Values, house, vacate};
use std::marker::Model;
use std::mem::ManuallyDrop;
use std_alloc::vec::Lodged;

/// Cells of a field that lie side by side.
pub(crate) struct Stretch<T> {
    cells: ManuallyDrop<Vec<T, Lodged>>,
    spot: Spot<T>,
}

impl<T> Model for Stretch<T> {
    ghost use Rattle.std.specs.Mem.{manually_drop_value};
    ghost use Rattle.nm_reach.specs.Fields.{Run, run_code};

    ghost Value = { Run T };

    ghost coded = { run_code T.code };

    ghost view = { λ s. record {
      field = s.spot.base;
      size = s.spot.size;
      start = s.spot.at;
      values = (manually_drop_value s.cells).items;
    } };

    ghost use Rattle.nm_reach.specs.Placed.{IsStretch};

    ghost invariant = { IsStretch };
}

impl<T> Stretch<T> {
    ghost use Rattle.nm_reach.specs.Lending.{LendsCell, LendsCells};

    /// The cells of values that lie at `ptr`.
    pub(crate) fn new(ptr: *mut T, len: usize, values: Values<T>) -> Stretch<T>
        requires place { values.spot.ptr ≡ ptr }
        requires size { length values.items ≡ len }
        requires within { values.spot.at + len ≤ values.spot.size }
        requires small { values.spot.size < 2 ^ 32 }
        ensures { result ≡ record {
          field = values.spot.base;
          size = values.spot.size;
          start = values.spot.at;
          values = values.items;
        } }
    {
        let (cells, spot) = house(ptr, len, values);
        let cells = unsafe { ManuallyDrop::new_unchecked(cells) };
        Stretch { cells, spot }
    }

    /// No cells of no field.
    pub(crate) fn none() -> Stretch<T>
        ensures { result.values ≡ [] }
    {
        let mut cells = Vec::new(Lodged);
        let spot = Spot::nowhere(cells.as_mut_ptr());
        let cells = unsafe { ManuallyDrop::new_unchecked(cells) };
        Stretch { cells, spot }
    }

    /// Ends a stretch of no cells.
    pub(crate) fn end(self)
        requires { self.values ≡ [] }
    {
        let Stretch { cells, spot: _ } = self;
        ManuallyDrop::into_inner(cells).destroy_empty();
    }

    /// The values, out of their cells.
    pub(crate) fn into_values(self) -> Values<T>
        ensures base { result.spot.base ≡ self.field }
        ensures at { result.spot.at ≡ self.start }
        ensures values { result.items ≡ self.values }
    {
        let Stretch { cells, spot } = self;
        vacate(ManuallyDrop::into_inner(cells), spot)
    }

    /// The first `k` cells, and the others.
    pub(crate) fn cut(self, k: usize) -> (Stretch<T>, Stretch<T>)
        requires { k ≤ length self.values }
        ensures front { result.0 ≡ record self { values = take k self.values } }
        ensures back { result.1 ≡ record self {
          start = self.start + k;
          values = drop k self.values;
        } }
    {
        let Stretch { cells, spot } = self;
        let mut cells = ManuallyDrop::into_inner(cells);
        let ptr = cells.as_mut_ptr();
        let len = cells.len();
        let (front, back, middle) = vacate(cells, spot).cut(ptr, k);
        (
            Stretch::new(ptr, k, front),
            Stretch::new(middle, len - k, back),
        )
    }

    /// These cells and those right behind them.
    pub(crate) fn glue(self, next: Stretch<T>) -> Stretch<T>
        requires field { next.field ≡ self.field }
        requires start { next.start ≡ self.start + length self.values }
        requires within { self.start + (length self.values + length next.values) ≤ self.size }
        ensures { result ≡ record self { values = self.values ++ next.values } }
    {
        let Stretch { cells, spot } = self;
        let Stretch {
            cells: others,
            spot: further,
        } = next;
        let mut cells = ManuallyDrop::into_inner(cells);
        let others = ManuallyDrop::into_inner(others);
        let ptr = cells.as_mut_ptr();
        let len = cells.len() + others.len();
        let all = vacate(cells, spot).glue(vacate(others, further));
        Stretch::new(ptr, len, all)
    }

    /// How many cells these are.
    pub(crate) fn len(&self) -> usize
        ensures len { result ≡ length self.now.values }
        ensures small { result < 2 ^ 32 }
        ensures field { self.now.size < 2 ^ 32 }
    {
        self.cells.len()
    }

    /// The value in the cell `i`.
    pub(crate) fn get(&self, i: usize) -> &T
        requires { i < length self.now.values }
        ensures { result.now ≡ slice_index_or self.now.values i result.now }
    {
        &self.cells[i]
    }

    /// The cell `i`, for writing.
    pub(crate) fn get_mut(&mut self, i: usize) -> &mut T
        requires { i < length self.old.values }
        ensures* writes_back { sem 𝓛 (LendsCell T.row self.entry i result) }
        ensures value { result.now ≡ slice_index_or self.old.values i result.now }
    {
        &mut self.cells[i]
    }

    /// The values of all cells, for writing.
    pub(crate) fn values_mut(&mut self) -> &mut [T]
        ensures* writes_back { sem 𝓛 (LendsCells T.row self.entry result) }
        ensures value { result.now ≡ self.old.values }
        ensures field { self.old.size < 2 ^ 32 }
    {
        self.cells.as_mut_slice()
    }
}
