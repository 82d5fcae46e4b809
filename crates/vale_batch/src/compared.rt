ghost use Rattle.std.specs.Prelude.{◌≡◌, length, IsTrue};
ghost use Rattle.vale_batch.specs.Looking.{AreAlike};

use crate::looking::are_alike;
use nm_types::Batch;
use std::marker::Model;

/// A batch whose frames were compared, which costs a step for each of them and needs no table: a
/// batch of frames that are alike is then looked up in the time of one frame.
#[derive(Drop)]
pub struct Compared<'a> {
    batch: &'a Batch,
    alike: bool,
}

impl<'a> Model for Compared<'a> {
    ghost use Rattle.std.specs.Prelude.{List};
    ghost use Rattle.nm_types.specs.Frames.{Frame as Packet};

    ghost Value = { List Packet };

    ghost use Rattle.std.specs.Prelude.{IsTrue};
    ghost use Rattle.vale_batch.specs.Looking.{AreAlike};

    ghost view = { λ c. c.batch.now };

    ghost invariant = { λ c. IsTrue c.alike → AreAlike c.batch.now };
}

impl<'a> Compared<'a> {
    /// Compares the frames of a batch.
    pub fn new(batch: &'a Batch) -> Compared<'a>
        ensures { result ≡ batch.now }
    {
        Compared {
            batch,
            alike: are_alike(batch),
        }
    }

    /// The frames.
    pub fn batch(&self) -> &Batch
        ensures { result.now ≡ self.now }
    {
        self.batch
    }

    /// The number of frames.
    pub fn len(&self) -> usize
        ensures { result ≡ length self.now }
    {
        self.batch.len()
    }

    /// Whether each of them takes one slot and has the addresses and the mark of the first.
    pub(crate) fn are_alike(&self) -> bool
        ensures { IsTrue result → AreAlike self.now }
    {
        self.alike
    }
}
