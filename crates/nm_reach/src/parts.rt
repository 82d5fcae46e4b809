//! The memory of a vector, apart from it. What takes no space here is known to proofs alone.
ghost use Rattle.std.specs.Prelude.{◌≡◌, ℕ, ◌+◌, ◌^◌, ◌<◌, ◌≤◌, List, ◌++◌, length, take, drop};
ghost use Rattle.std.specs.Vec.{vec_capacity, vec_len, vec_ptr, with_items};
ghost use base.Fml.{ftrue, fex, fall, fwand, fsep, feq};
ghost use denote.RawPtr.{Ptr};
ghost use Rattle.nm_reach.specs.Cells.{stands, values_at};
ghost use Rattle.nm_reach.specs.Fields.{FieldState, field_code, husk_of};

use std::marker::{Model, Move, Owns, PhantomData};
use std_alloc::vec::{Lodged, lodge};

/// That the cell `at` of the field at `base` is at `ptr`.
#[derive(Drop)]
pub(crate) struct Spot<T> {
    marker: PhantomData<T>,
    pub ghost base: { Ptr },
    pub ghost size: { ℕ },
    pub ghost at: { ℕ },
    pub ghost ptr: { Ptr },
}

impl<T> Model for Spot<T> {
    ghost also_owns = { λ s. stands T.row s.base s.size s.at s.ptr };
}

/// Values in their cells, which nothing else reaches.
pub(crate) struct Values<T> {
    spot: Spot<T>,
    pub ghost items: { List T },
}

impl<T> Model for Values<T> {
    ghost also_owns = { λ v. values_at T.row v.spot.ptr v.items };
}

/// A vector whose values are out.
pub(crate) struct Husk<T> {
    vec: Vec<T>,
}

impl<T> Owns for Husk<T> {
    ghost Value = { FieldState };

    ghost coded = { field_code };

    ghost shr_at = { λ _ _ _. ftrue };
}

impl<T> Move for Husk<T> {
    ghost own_val = { λ e vs. fex Inside (λ v.
        fsep (feq FieldState (husk_of v.vec) e)
        (fall (List T.row.Denot) (λ xs.
        fwand (fsep (feq ℕ (length xs) e.size) (values_at T.row e.field xs))
        (Fields.own_val (record { vec = with_items v.vec xs }) vs)))) };
}

/// It is a fact.
unsafe impl<T: Send> Send for Spot<T> {}

/// It is the right to free memory that nothing else reaches.
unsafe impl<T: Send> Send for Husk<T> {}

impl<T> Spot<T> {
    /// The first cell of a field of no cells.
    pub(crate) fn nowhere(ptr: *mut T) -> Spot<T>
        ensures { (result.base ≡ ptr)
            × (result.size ≡ 0)
            × (result.at ≡ 0)
            × (result.ptr ≡ ptr) }
    {
        let marker = PhantomData;
        Spot { marker }
    }
}

/// Takes the values out of a vector.
pub(crate) fn detach<T>(vec: Vec<T>) -> (Values<T>, Husk<T>)
    requires { 0 < vec_len vec }
    ensures { (result.0.items ≡ vec.items)
        × (result.0.spot.base ≡ vec_ptr vec)
        × (result.0.spot.size ≡ vec_len vec)
        × (result.0.spot.at ≡ 0)
        × (result.0.spot.ptr ≡ vec_ptr vec)
        × (result.1 ≡ husk_of vec) }
{
    let marker = PhantomData;
    let spot = Spot { marker };
    (Values { spot }, Husk { vec })
}

/// Puts the values back into their vector.
pub(crate) fn attach<T>(values: Values<T>, husk: Husk<T>) -> Vec<T>
    requires { (values.spot.base ≡ husk.field)
        × (values.spot.at ≡ 0)
        × (length values.items ≡ husk.size) }
    ensures { (result.items ≡ values.items)
        × (vec_ptr result ≡ husk.field)
        × (vec_capacity result ≡ husk.capacity) }
{
    let Values { spot: _ } = values;
    let Husk { vec } = husk;
    vec
}

/// A vector over values where they lie. It neither grows nor frees them.
pub(crate) fn house<T>(ptr: *mut T, len: usize, values: Values<T>) -> (Vec<T, Lodged>, Spot<T>)
    requires { (values.spot.ptr ≡ ptr)
        × (length values.items ≡ len)
        × (len < 2 ^ 63)
        × (values.spot.at + len ≤ values.spot.size) }
    ensures { (result.0.items ≡ values.items)
        × (vec_len result.0 ≡ len)
        × (vec_capacity result.0 ≡ len)
        × (vec_ptr result.0 ≡ ptr)
        × (result.1 ≡ values.spot) }
{
    let Values { spot } = values;
    let cells = unsafe { lodge(ptr, len, len) };
    (cells, spot)
}

/// The values that such a vector holds.
pub(crate) fn vacate<T>(cells: Vec<T, Lodged>, spot: Spot<T>) -> Values<T>
    requires { (spot.ptr ≡ vec_ptr cells) × (vec_capacity cells ≡ vec_len cells) }
    ensures { (result.items ≡ cells.items) × (result.spot ≡ spot) }
{
    let _len = cells.dislodge();
    Values { spot }
}

impl<T> Values<T> {
    /// The first `k` values and the others, and where those lie.
    pub(crate) fn cut(self, ptr: *mut T, k: usize) -> (Values<T>, Values<T>, *mut T)
        requires { (k ≤ length self.items)
            × (self.spot.at + length self.items ≤ self.spot.size)
            × (self.spot.ptr ≡ ptr) }
        ensures { (result.0.spot ≡ self.spot)
            × (result.0.items ≡ take k self.items)
            × (result.1.items ≡ drop k self.items)
            × (result.1.spot.base ≡ self.spot.base)
            × (result.1.spot.size ≡ self.spot.size)
            × (result.1.spot.at ≡ self.spot.at + k)
            × (result.1.spot.ptr ≡ result.2) }
    {
        let Values { spot } = self;
        let Spot { marker } = spot;
        let front = Values {
            spot: Spot { marker },
        };
        let back = Values {
            spot: Spot { marker },
        };
        (front, back, unsafe { ptr.add(k) })
    }

    /// These values and those that lie behind them.
    pub(crate) fn glue(self, next: Values<T>) -> Values<T>
        requires { (next.spot.base ≡ self.spot.base)
            × (next.spot.at ≡ self.spot.at + length self.items) }
        ensures { (result.spot ≡ self.spot) × (result.items ≡ self.items ++ next.items) }
    {
        let Values { spot } = self;
        let Values { spot: _ } = next;
        Values { spot }
    }
}
