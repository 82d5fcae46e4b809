//! A cell that holds a value or nothing. Memory does not tell which.
ghost use Rattle.std.specs.Prelude.{◌≡◌, Option, None, Some, true, is_some};
ghost use Rattle.std.specs.Coded.{coded_option};
ghost use base.Fml.{ftrue};
ghost use Rattle.nm_reach.specs.Held.{held_in};

use std::marker::{Move, Owns};
use std::mem::{ManuallyDrop, replace};

/// A cell that holds a value or nothing. Only proofs know which, so it takes no more space than its
/// value. It cannot be dropped: an empty one is ended.
pub struct Cell<T> {
    value: T,
}

impl<T> Owns for Cell<T> {
    ghost Value = { Option T };

    ghost coded = { coded_option T.code };

    ghost shr_at = { λ _ _ _. ftrue };
}

impl<T> Move for Cell<T> {
    ghost own_val = { λ held vs. held_in (λ x. Fields.own_val (record { value = x }) vs) held };
}

/// It is its value, or bytes that are nothing's.
unsafe impl<T: Send> Send for Cell<T> {}

impl<T> Cell<T> {
    /// A full cell.
    pub fn full(value: T) -> Cell<T>
        ensures { result ≡ Some value }
    {
        Cell { value }
    }

    /// Takes the value out of a full cell, which is then empty.
    pub fn take(&mut self) -> T
        requires { is_some self.old ≡ true }
        ensures was { self.old ≡ Some result }
        ensures none { self.new ≡ None }
    {
        let cell = self as *mut Cell<T>;
        let Cell { value } = unsafe { cell.read() };
        value
    }

    /// Puts a value into an empty cell.
    pub fn put(&mut self, value: T)
        requires { self.old ≡ None }
        ensures { self.new ≡ Some value }
    {
        replace(self, Cell::full(value)).end();
    }

    /// Ends an empty cell.
    pub fn end(self)
        requires { self ≡ None }
    {
        let _empty = unsafe { ManuallyDrop::new_unchecked(self) };
    }
}
