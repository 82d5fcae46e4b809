ghost use Rattle.std.specs.Prelude.{◌≡◌, ◌<◌, ◌≤◌, length, IfOk, OnErr};
ghost use Rattle.nm_io.specs.Counts.{Rose};

use crate::raw::write_part;
use crate::{Failed, RawWrite, Sink};

/// A sink over single calls of the system. It tells what it holds if these do.
#[derive(Drop)]
pub struct RawSink<W: RawWrite + Drop> {
    raw: W,
    faults: u64,
}

impl<W: RawWrite + Drop> RawSink<W> {
    /// A sink that writes to `raw`.
    pub fn over(raw: W) -> Self
        ensures { (result.raw ≡ raw) × (result.faults ≡ 0) }
    {
        RawSink { raw, faults: 0 }
    }

    /// Returns what it writes to.
    pub fn raw(&self) -> &W
        ensures { result.now ≡ self.now.raw }
    {
        &self.raw
    }
}

impl<W: RawWrite + Drop> Sink for RawSink<W> {
    ghost holds = { λ s. W.written s.raw };

    ghost faults = { λ s. s.faults };

    fn put(&mut self, bytes: &[u8]) -> Result<usize, Failed> {
        match write_part(&mut self.raw, bytes) {
            Ok(count) => Ok(count),
            Err(error) => {
                self.faults = self.faults.saturating_add(1);
                Err(error)
            }
        }
    }
}
