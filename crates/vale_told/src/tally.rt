ghost use Rattle.std.specs.Prelude.{◌≡◌, ◌+◌, IfOk};
ghost use Rattle.nm_types.specs.Counters.{sum_of_counts};
ghost use Rattle.vale_told.specs.Tallies.{sum_of_tallies};

use nm_types::{Counts, NoMemory};

/// How many frames entries tell of at a port.
#[derive(Clone, Copy, Debug, PartialEq, Eq)]
pub struct Tally {
    /// Those that its counters count.
    pub counts: Counts,
    /// Those wanted at it that were gone, since it was not open.
    pub gone: u64,
    /// Those that nobody had read when it was finished.
    pub unread: u64,
}

/// The sum of two numbers of frames. For 2^64 frames there is no memory.
fn sum(a: u64, b: u64) -> Result<u64, NoMemory>
    ensures { IfOk result (λ total. total ≡ a + b) }
{
    a.checked_add(b).ok_or(NoMemory)
}

fn sum_of_counts(counts: Counts, more: Counts) -> Result<Counts, NoMemory>
    ensures { IfOk result (λ total. total ≡ sum_of_counts counts more) }
{
    Ok(Counts {
        sent: sum(counts.sent, more.sent)?,
        short: sum(counts.short, more.short)?,
        lone: sum(counts.lone, more.lone)?,
        given: sum(counts.given, more.given)?,
        full: sum(counts.full, more.full)?,
        read: sum(counts.read, more.read)?,
    })
}

impl Tally {
    /// No frames.
    pub const ZERO: Tally = Tally {
        counts: Counts::ZERO,
        gone: 0,
        unread: 0,
    };

    /// The sum with another one, number by number. For 2^64 frames there is no memory.
    pub fn plus(self, more: Tally) -> Result<Tally, NoMemory>
        ensures { IfOk result (λ total. total ≡ sum_of_tallies self more) }
    {
        Ok(Tally {
            counts: sum_of_counts(self.counts, more.counts)?,
            gone: sum(self.gone, more.gone)?,
            unread: sum(self.unread, more.unread)?,
        })
    }
}
