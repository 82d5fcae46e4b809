ghost use Rattle.std.specs.Prelude.{◌≡◌, ◌<◌, ◌^◌, [], IfOk};
ghost use Rattle.nm_types.specs.Buffers.{IsPoolSize};
ghost use Rattle.nm_turn.specs.Passes.{first_view};
ghost use Rattle.nm_turn.specs.Turns.{opened, HasEntered, IsPassOf};
ghost use Rattle.vale_fabric.specs.Roots.{root_of, fixed_of};

use crate::kept::{Pass, Shared};
use nm_turn::Turn;
use nm_types::{Limits, NoMemory};
use std::alloc::{AllocFailed, Global};
use std::sync::Wait;
use vale_book::Book;

/// A book behind a turn. It must be closed, so that the book is not lost.
pub struct Fabric {
    pub(crate) turn: Turn<Shared>,
    pub(crate) buffers: u32,
    ghost pool: { (opened turn).pool ≡ buffers },
    ghost size: { IsPoolSize buffers },
    ghost few: { (opened turn).limits.entries < 2 ^ 32 },
}

/// Puts a book with no entries into memory of its own. Closes it if out of memory.
fn boxed(alloc: Global, book: Book) -> Result<Box<Book>, NoMemory>
    requires { book.entries ≡ [] }
    ensures { IfOk result (λ boxed. boxed.value ≡ book) }
{
    match Box::new(alloc, book) {
        Ok(boxed) => Ok(boxed),
        Err(AllocFailed { value }) => {
            drop(value.close());
            Err(NoMemory)
        }
    }
}

impl Fabric {
    ghost use Rattle.vale_fabric.specs.Fabrics.{IsPassIn, fixed_in, knowing};
    ghost use Rattle.vale_fabric.specs.Steps.{GoesBack, IsPutBack, IsTaken};

    /// A fabric with no entries, over a pool of so many buffers. The pass has the whole.
    pub fn new(alloc: Global, buffers: u32, limits: Limits) -> Result<(Fabric, Pass), NoMemory>
        requires pool { IsPoolSize buffers }
        requires few { limits.entries < 2 ^ 32 }
        ensures pass { IfOk result (λ made. IsPassIn made.0 made.1) }
        ensures first { IfOk result (λ made. knowing made.1 ≡ first_view (fixed_in made.0)) }
        ensures pool { IfOk result (λ made. (fixed_in made.0).pool ≡ buffers) }
        ensures limits { IfOk result (λ made. (fixed_in made.0).limits ≡ limits) }
    {
        let book = boxed(alloc, Book::new(alloc, buffers, limits)?)?;
        match Turn::open(alloc, Shared { book }) {
            Ok((turn, pass)) => Ok((Fabric { turn, buffers }, pass)),
            Err((NoMemory, Shared { book })) => {
                drop(Box::into_inner(book).close());
                Err(NoMemory)
            }
        }
    }

    /// The number of buffers in the pool.
    pub fn buffers(&self) -> u32
        ensures pool { result ≡ (fixed_in self.now).pool }
        ensures size { IsPoolSize result }
    {
        self.buffers
    }

    /// Lets the thread that has waited for the fabric longest go on, if some do. A caller that makes no
    /// call for a while says so; without it, those who wait may go on a millisecond later.
    pub fn rest(&self) {
        self.turn.rest();
    }

    /// Takes the turn and the book.
    pub(crate) fn take<R: Wait>(&self, rt: &R, pass: &mut Pass) -> Box<Book>
        requires { IsPassIn self.now pass.old }
        ensures pass { IsPassOf fixed_of self.now.turn pass.new }
        ensures entered { HasEntered pass.new }
        ensures taken { IsTaken (fixed_in self.now) (knowing pass.old) (knowing pass.new)
            result.value }
    {
        let Shared { book } = self.turn.enter(rt, pass);
        book
    }

    /// Gives the turn up, and the book back, which has one entry more if the call `made` one.
    pub(crate) fn give(&self, pass: &mut Pass, book: Box<Book>, made: bool)
        requires pass { IsPassOf fixed_of self.now.turn pass.old }
        requires entered { HasEntered pass.old }
        requires goes { GoesBack (fixed_in self.now) (knowing pass.old) book.value made }
        ensures pass { IsPassIn self.now pass.new }
        ensures back { IsPutBack (knowing pass.old) (knowing pass.new) book.value }
    {
        self.turn.leave(pass, Shared { book }, made);
    }
}
