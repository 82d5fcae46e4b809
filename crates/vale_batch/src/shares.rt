ghost use Rattle.std.specs.Prelude.{◌≡◌, length, IfOk};

use std::alloc::{AllocError, Global};
use std::marker::Model;
use std::sync::Arc;

/// How the places of some frames are kept.
#[derive(Debug, Drop)]
enum Kept {
    /// A list of its own.
    Own(Vec<u32>),
    /// A list that others have too.
    Shared(Arc<Vec<u32>>),
}

/// The places of some frames in a batch. Several may share one list.
#[derive(Debug, Drop)]
pub struct Places {
    kept: Kept,
}

impl Model for Places {
    ghost use Rattle.std.specs.Prelude.{List, ℕ};

    ghost Value = { List ℕ };

    ghost use Rattle.vale_batch.specs.Kept.{places_kept};

    ghost view = { λ p. places_kept p.kept };
}

impl Places {
    /// These places.
    pub fn own(places: Vec<u32>) -> Places
        ensures { result ≡ places.items }
    {
        Places {
            kept: Kept::Own(places),
        }
    }

    /// These places, in a list that others may share.
    pub(crate) fn shared(alloc: Global, places: Vec<u32>) -> Result<Places, AllocError>
        ensures { IfOk result (λ made. made ≡ places.items) }
    {
        Ok(Places {
            kept: Kept::Shared(Arc::new(alloc, places)?),
        })
    }

    /// The same places, without a list of their own where these are shared.
    pub(crate) fn share(&self, alloc: Global) -> Result<Places, AllocError>
        ensures { IfOk result (λ same. same ≡ self.now) }
    {
        let kept = match &self.kept {
            Kept::Own(places) => Kept::Own(places.to_vec(alloc)?),
            Kept::Shared(places) => Kept::Shared(places.clone()?),
        };
        Ok(Places { kept })
    }

    /// The places, one behind the other.
    pub fn as_slice(&self) -> &[u32]
        ensures { result.now ≡ self.now }
    {
        match &self.kept {
            Kept::Own(places) => places,
            Kept::Shared(places) => places,
        }
    }

    /// The number of frames.
    pub fn len(&self) -> usize
        ensures { result ≡ length self.now }
    {
        self.as_slice().len()
    }
}
