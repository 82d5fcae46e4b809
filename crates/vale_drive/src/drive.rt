ghost use Rattle.std.specs.Prelude.{◌≡◌, ◌<◌, ◌^◌, [], IfOk, IfErr, OnOk};
ghost use Rattle.nm_types.specs.Buffers.{IsPoolSize};
ghost use Rattle.vale_entry.specs.Legal.{IsLegal, world_of};
ghost use Rattle.vale_entry.specs.World.{free_count};
ghost use Rattle.vale_entry.specs.Room.{promised_of};
ghost use Rattle.vale_book.specs.Recorded.{standing, HadRoom};
ghost use Rattle.vale_book.specs.LegalRecords.{IsLegalRecord};
ghost use Rattle.vale_serve.specs.Joined.{AreUsersOf};
ghost use Rattle.vale_drive.specs.Running.{after_asks, IsStopped};
ghost use Rattle.vale_serve.specs.Serving.{IsServed};
ghost use Rattle.vale_drive.specs.Winding.{IsEnded};

use crate::winding::wind_up;
use nm_types::{Limits, NoMemory, StepFault};
use std::alloc::Global;
use std::marker::Model;
use vale_book::Book;
use vale_entry::{Ask, History, Reply};
use vale_serve::{User, serve};

/// A book joined with what is outside it: the buffers of the sessions, their leases, and what of
/// their frames is not granted yet. It cannot be dropped.
///
/// Contracts see a drive as its record, as they see a book.
pub struct Drive {
    pub(crate) book: Book,
    pub(crate) users: Vec<User>,
    pub(crate) alloc: Global,
}

impl Model for Drive {
    ghost use Rattle.vale_book.specs.Recorded.{Recorded};

    ghost Value = { Recorded };

    ghost use Rattle.vale_drive.specs.DriveView.{IsDrive};

    ghost view = { λ d. d.book };

    ghost invariant = { IsDrive };
}

/// Makes asks one after another, and stops at one that is refused.
fn run_each(
    alloc: Global,
    book: &mut Book,
    users: &mut Vec<User>,
    asks: &[Ask],
) -> Result<(), StepFault>
    requires users { AreUsersOf book.old users.old.items }
    requires legal { IsLegalRecord book.old }
    ensures made { OnOk result (book.new ≡ after_asks book.old asks.now) }
    ensures stopped { IfErr result (IsStopped book.old book.new asks.now) }
    ensures users { AreUsersOf book.new users.new.items }
    ensures legal { IsLegalRecord book.new }
{
    for ask in asks {
        serve(alloc, book, users, ask)?;
    }
    Ok(())
}

impl Drive {
    /// A drive with no entries, over a pool of so many buffers, all free. A pool has 1 to 262,144
    /// buffers, and the limit on entries is below 2^32.
    pub fn new(alloc: Global, buffers: u32, limits: Limits) -> Result<Drive, NoMemory>
        requires pool { IsPoolSize buffers }
        requires few { limits.entries < 2 ^ 32 }
        ensures pool { IfOk result (λ drive. drive.pool ≡ buffers) }
        ensures limits { IfOk result (λ drive. drive.limits ≡ limits) }
        ensures entries { IfOk result (λ drive. drive.entries ≡ []) }
    {
        Ok(Drive {
            book: Book::new(alloc, buffers, limits)?,
            users: Vec::new(alloc),
            alloc,
        })
    }

    /// The record of every step that was made: a legal history, each entry of which had room.
    pub fn history(&self) -> &History
        ensures entries { result.now.entries ≡ self.now.entries }
        ensures limits { result.now.limits ≡ self.now.limits }
        ensures promised { result.now.promised ≡ promised_of (standing self.now).world }
        ensures roomy { HadRoom self.now }
        ensures legal { IsLegal self.now.pool self.now.entries }
    {
        self.book.history()
    }

    /// Makes one ask: its reply, or `None` where it is not enabled, and then nothing changes. Nor
    /// does anything where a port cannot go yet, as leases of it are not done.
    ///
    /// A full record and want of memory change nothing.
    pub fn apply(&mut self, ask: &Ask) -> Result<Option<Reply>, StepFault>
        ensures served { IsServed self.old self.new ask.now result }
    {
        serve(self.alloc, &mut self.book, &mut self.users, ask)
    }

    /// Makes asks one after another, passing over those that are not enabled. Where the record is
    /// full or memory is wanting it stops, and those before are made.
    pub fn run(&mut self, asks: &[Ask]) -> Result<(), StepFault>
        ensures made { OnOk result (self.new ≡ after_asks self.old asks.now) }
        ensures stopped { IfErr result (IsStopped self.old self.new asks.now) }
        ensures legal { IsLegal self.new.pool self.new.entries }
        ensures roomy { HadRoom self.new }
    {
        run_each(self.alloc, &mut self.book, &mut self.users, asks)
    }

    /// Ends the drive, and frees its region: its record is left. First it makes what was promised
    /// and is wanting still, until each session has left: all offers are granted, those of the
    /// oldest entry first; then all leases are completed, by rising number; then each session, by
    /// rising id, shuts and finishes its ports, by rising id too, and leaves. A port goes with the
    /// smallest buffers of its session. Room and memory were kept for all of it.
    pub fn close(self) -> History
        ensures ended { IsEnded self (record self { entries = result.entries }) }
        ensures limits { result.limits ≡ self.limits }
        ensures legal { IsLegal self.pool result.entries }
        ensures roomy { HadRoom (record self { entries = result.entries }) }
        ensures free { free_count (world_of self.pool result.entries) ≡ self.pool }
    {
        let Drive {
            mut book,
            mut users,
            alloc: _,
        } = self;
        wind_up(&mut book, &mut users);
        users.destroy_empty();
        book.close()
    }
}
