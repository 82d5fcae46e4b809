//! The book as what a turn keeps.
use nm_turn::Kept;
use nm_types::Limits;
use std::marker::Model;
use vale_book::Book;
use vale_entry::Entry;

/// A book that a turn keeps, in memory of its own: a call moves no more than where it lies.
///
/// Contracts see it as the book's record, which is legal between two calls.
pub struct Shared {
    pub(crate) book: Box<Book>,
}

impl Model for Shared {
    ghost use Rattle.vale_book.specs.Recorded.{Recorded};
    ghost use Rattle.vale_book.specs.LegalRecords.{IsLegalRecord};

    ghost Value = { Recorded };

    ghost view = { λ s. s.book.value };

    ghost invariant = { λ s. IsLegalRecord s.book.value };
}

/// What never changes of a book: the pool's size, the number of its region, and the limits. No
/// value of it is made.
pub struct Fixed {
    pub pool: u32,
    pub region: usize,
    pub limits: Limits,
}

impl Kept for Shared {
    type Entry = Entry;

    type Fixed = Fixed;

    ghost use Rattle.vale_fabric.specs.Roots.{entries_of, fixed_of, root_of};
    ghost use Rattle.std.proofs.Math.Nat.{min-le_right};

    ghost entries = { entries_of };

    ghost fixed = { fixed_of };

    ghost root = { root_of };

    ghost root_is_earlier = { λ entry number. min-le_right entry.session.0 number };
}

/// A caller's token for a fabric. It can be sent to another thread.
pub type Pass = nm_turn::Pass<Shared>;
