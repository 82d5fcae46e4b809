ghost use Rattle.std.specs.Prelude.{◌≡◌};
ghost use Rattle.vale_book.specs.Words.{IsLegal, free_count, promised_of};
ghost use Rattle.vale_own.specs.Recorded.{standing, HadRoom};

use crate::book::Book;
use vale_entry::History;

impl Book {
    /// Ends the book, once all buffers are free again, and frees its region. Its record is left: a
    /// legal history, each entry of which had room.
    pub fn close(self) -> History
        requires { free_count (standing self).world ≡ self.pool }
        ensures entries { result.entries ≡ self.entries }
        ensures limits { result.limits ≡ self.limits }
        ensures promised { result.promised ≡ promised_of (standing self).world }
        ensures roomy { HadRoom self }
        ensures legal { IsLegal self.pool self.entries }
    {
        let Book {
            buffers: _,
            region,
            pool,
            history,
            sessions: _,
            ports,
            names: _,
            tables: _,
            watches: _,
            tally: _,
            alloc: _,
        } = self;
        ports.destroy_empty();
        region.close(pool.close());
        history
    }
}
