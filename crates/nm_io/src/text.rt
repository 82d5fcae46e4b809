ghost use Rattle.std.specs.Prelude.{◌≤◌, List, ℕ, OnErr};
ghost use Rattle.nm_io.specs.Counts.{Rose};
ghost use Rattle.nm_io.specs.Held.{Writes};

use crate::{Failed, Sink};

/// A value that writes itself as bytes.
pub trait Text {
    /// The bytes that it writes.
    ghost text: { Self → List ℕ };

    /// Writes the bytes. If it fails, a prefix was written.
    fn write<K: Sink>(&self, out: &mut K) -> Result<(), Failed>
        ensures writes { Writes (K.holds out.old) (K.holds out.new) result (text self.now) }
        ensures later { K.faults out.old ≤ K.faults out.new }
        ensures cause { OnErr result (Rose (K.faults out.old) (K.faults out.new)) };
}
