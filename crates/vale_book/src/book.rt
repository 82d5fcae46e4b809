ghost use Rattle.std.specs.Prelude.{◌≡◌, ◌<◌, ◌≤◌, ◌^◌, [], length, IfOk};
ghost use Rattle.vale_book.specs.Words.{IsLegal, IsPoolSize, free_count, promised_of};
ghost use Rattle.vale_own.specs.Recorded.{standing, HadRoom, IsWithinLimits};

use nm_count::Tally;
use nm_pool::Pool;
use nm_region::Region;
use nm_types::{Limits, NoMemory, SessionId};
use nm_watch::Watches;
use std::alloc::Global;
use std::marker::Model;
use vale_entry::History;
use vale_names::Names;
use vale_port::Port;
use vale_steps::tables::NamedTable;

/// The switches, pipes and monitors with all their parts, and the record of every step. It cannot be
/// dropped: `close` frees its region.
///
/// Contracts see a book as its record. What its parts are is what stands after these entries.
pub struct Book {
    pub(crate) buffers: u32,
    pub(crate) region: Region,
    pub(crate) pool: Pool,
    pub(crate) history: History,
    pub(crate) sessions: Vec<SessionId>,
    pub(crate) ports: Vec<Port>,
    pub(crate) names: Names,
    pub(crate) tables: Vec<NamedTable>,
    pub(crate) watches: Watches,
    pub(crate) tally: Tally,
    pub(crate) alloc: Global,
}

impl Model for Book {
    ghost use Rattle.vale_own.specs.Recorded.{Recorded};

    ghost Value = { Recorded };

    ghost use Rattle.vale_book.specs.BookView.{recorded, IsBook};

    ghost view = { recorded };

    ghost invariant = { IsBook };
}

impl Book {
    /// A book with no entries, over a pool of so many buffers, all free. A pool has 1 to 262,144
    /// buffers, and the limit on entries is below 2^32.
    pub fn new(alloc: Global, buffers: u32, limits: Limits) -> Result<Book, NoMemory>
        requires pool { IsPoolSize buffers }
        requires few { limits.entries < 2 ^ 32 }
        ensures pool { IfOk result (λ book. book.pool ≡ buffers) }
        ensures limits { IfOk result (λ book. book.limits ≡ limits) }
        ensures entries { IfOk result (λ book. book.entries ≡ []) }
    {
        let names = Names::new(alloc)?;
        let tally = Tally::new(alloc)?;
        let (region, all) = Region::new(alloc, buffers)?;
        match Pool::new(alloc, all) {
            Ok(pool) => Ok(Book {
                buffers,
                region,
                pool,
                history: History::new(alloc, limits),
                sessions: Vec::new(alloc),
                ports: Vec::new(alloc),
                names,
                tables: Vec::new(alloc),
                watches: Watches::new(alloc),
                tally,
                alloc,
            }),
            Err((NoMemory, all)) => {
                region.close(all);
                Err(NoMemory)
            }
        }
    }

    /// The record of every step: a legal history of fewer than 2^32 entries, each of which had room.
    pub fn history(&self) -> &History
        ensures entries { result.now.entries ≡ self.now.entries }
        ensures limits { result.now.limits ≡ self.now.limits }
        ensures promised { result.now.promised ≡ promised_of (standing self.now).world }
        ensures roomy { HadRoom self.now }
        ensures within { IsWithinLimits self.now }
        ensures few { length self.now.entries < 2 ^ 32 }
        ensures legal { IsLegal self.now.pool self.now.entries }
    {
        &self.history
    }

    /// The number of buffers in the pool.
    pub fn buffers(&self) -> u32
        ensures { result ≡ self.now.pool }
    {
        self.buffers
    }

    /// The number of free buffers.
    pub fn free(&self) -> u32
        ensures { result ≡ free_count (standing self.now).world }
    {
        self.pool.free()
    }
}
