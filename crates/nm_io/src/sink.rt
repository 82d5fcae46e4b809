ghost use Rattle.std.specs.Prelude.{◌≡◌, ◌<◌, ◌≤◌, ℕ, List, length, Option, IfOk, OnErr};
ghost use Rattle.nm_io.specs.Counts.{Rose};
ghost use Rattle.nm_io.specs.Held.{GrewBy};

use crate::Failed;

/// A stream that bytes are appended to.
pub trait Sink {
    /// What it has taken so far, if it tells.
    ghost holds: { Self → Option (List ℕ) };

    /// How many calls failed, up to 2^64 - 1.
    ghost faults: { Self → ℕ };

    /// Appends some of `bytes`, from the first on, and returns how many: at least one, if there is
    /// any.
    fn put(&mut self, bytes: &[u8]) -> Result<usize, Failed>
        ensures within { IfOk result (λ n. n ≤ length bytes.now) }
        ensures moves { IfOk result (λ n. 0 < length bytes.now → 0 < n) }
        ensures grown { IfOk result (GrewBy (holds self.old) (holds self.new) bytes.now) }
        ensures err { OnErr result (holds self.new ≡ holds self.old) }
        ensures later { faults self.old ≤ faults self.new }
        ensures cause { OnErr result (Rose (faults self.old) (faults self.new)) };
}
