ghost use Rattle.std.specs.Prelude.{ℕ, ◌≡◌, ◌≤◌, [], vec_capacity, IfOk};
ghost use Rattle.vale_port.specs.Rooms.{IsEmptyRoom};

use nm_region::Buf;
use nm_types::NoMemory;
use std::alloc::Global;
use std::marker::Model;
use vale_line::Got;

/// Memory for a put of some frames.
pub struct PutRoom {
    frames: u32,
    taken: Vec<Got>,
    lent: Vec<Buf>,
    back: Vec<Buf>,
}

impl Model for PutRoom {
    ghost Value = { ℕ };

    ghost view = { λ r. r.frames };

    ghost invariant = { IsEmptyRoom };
}

impl PutRoom {
    /// Makes room for a put of `n` frames.
    pub fn new(alloc: Global, n: u32) -> Result<PutRoom, NoMemory>
        ensures { IfOk result (λ room. room ≡ n) }
    {
        let taken = Vec::with_capacity(alloc, n as usize)?;
        let Ok(lent) = Vec::with_capacity(alloc, n as usize) else {
            taken.destroy_empty();
            return Err(NoMemory);
        };
        let Ok(back) = Vec::with_capacity(alloc, n as usize) else {
            taken.destroy_empty();
            lent.destroy_empty();
            return Err(NoMemory);
        };
        Ok(PutRoom {
            frames: n,
            taken,
            lent,
            back,
        })
    }

    /// The empty vectors for the frames, for the buffers that the port lends, and for handing these
    /// out.
    pub(crate) fn into_vecs(self) -> (Vec<Got>, Vec<Buf>, Vec<Buf>)
        ensures taken { result.0.items ≡ [] }
        ensures lent { result.1.items ≡ [] }
        ensures back { result.2.items ≡ [] }
        ensures taken_room { self ≤ vec_capacity result.0 }
        ensures lent_room { self ≤ vec_capacity result.1 }
        ensures back_room { self ≤ vec_capacity result.2 }
    {
        let PutRoom {
            frames: _,
            taken,
            lent,
            back,
        } = self;
        (taken, lent, back)
    }
}

impl Drop for PutRoom {
    fn drop(self) {
        let (taken, lent, back) = self.into_vecs();
        taken.destroy_empty();
        lent.destroy_empty();
        back.destroy_empty();
    }
}
