ghost use Rattle.std.specs.Prelude.{◌≡◌, [], IfOk};
ghost use Rattle.nm_port.specs.Words.{vec_capacity};

use nm_region::Buf;
use std::alloc::{AllocError, Global};
use std::marker::Model;
use std::mem::replace;

/// An empty vector with room for buffers.
pub struct BufRoom {
    bufs: Vec<Buf>,
}

impl Model for BufRoom {
    ghost use Rattle.std.specs.Prelude.{ℕ, ◌≡◌, []};
    ghost use Rattle.std.specs.Vec.{vec_capacity};

    ghost Value = { ℕ };

    ghost view = { λ r. vec_capacity r.bufs };

    ghost invariant = { λ r. r.bufs.items ≡ [] };
}

impl Drop for BufRoom {
    fn drop(self) {
        let BufRoom { bufs } = self;
        bufs.destroy_empty();
    }
}

impl BufRoom {
    /// Room for `count` buffers.
    pub fn new(alloc: Global, count: u32) -> Result<BufRoom, AllocError>
        ensures { IfOk result (λ room. room ≡ count) }
    {
        Ok(BufRoom {
            bufs: Vec::with_capacity(alloc, count as usize)?,
        })
    }

    /// Hands the vector out.
    pub fn take(&mut self) -> Vec<Buf>
        ensures empty { result.items ≡ [] }
        ensures room { vec_capacity result ≡ self.old }
    {
        let alloc = *self.bufs.allocator();
        replace(&mut self.bufs, Vec::new(alloc))
    }
}
