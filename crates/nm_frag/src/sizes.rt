ghost use Rattle.std.specs.Prelude.{◌≡◌, ◌<◌, ◌^◌, length, replicate, sum, IfOk, IsTrue, ◌↔◌};
ghost use Rattle.nm_frag.specs.Sizes.{sizes_told};

use std::alloc::{AllocError, Global};
use std::marker::Model;
use std::sync::Arc;

/// How the sizes of some frames are kept.
#[derive(Debug, Drop)]
enum Kept {
    /// So many frames of one slot each.
    Ones(u32),
    /// A list of its own.
    Own(Vec<u32>),
    /// A list that others have too.
    Shared(Arc<Vec<u32>>),
}

/// How many slots each of some frames takes. Where each takes one there is no list of them, and
/// several may share one list.
#[derive(Debug, Drop)]
pub struct Sizes {
    kept: Kept,
}

impl Model for Sizes {
    ghost use Rattle.std.specs.Prelude.{List, ℕ};

    ghost Value = { List ℕ };

    ghost use Rattle.nm_frag.specs.Kept.{sizes_kept};

    ghost view = { λ s. sizes_kept s.kept };
}

/// The sizes of some frames, as they are kept.
#[derive(Clone, Copy)]
pub enum Told<'a> {
    /// So many frames of one slot each.
    Ones(u32),
    /// How many slots each takes.
    Each(&'a [u32]),
}

fn total(sizes: &[u32]) -> u32
    requires { sum sizes.now < 2 ^ 32 }
    ensures { result ≡ sum sizes.now }
{
    sizes.iter().sum()
}

impl Sizes {
    /// The sizes of so many frames of one slot each.
    pub fn ones(count: u32) -> Sizes
        ensures { result ≡ replicate count 1 }
    {
        Sizes {
            kept: Kept::Ones(count),
        }
    }

    /// These sizes.
    pub fn own(sizes: Vec<u32>) -> Sizes
        ensures { result ≡ sizes.items }
    {
        Sizes {
            kept: Kept::Own(sizes),
        }
    }

    /// These sizes, in a list that others may share.
    pub fn shared(alloc: Global, sizes: Vec<u32>) -> Result<Sizes, AllocError>
        ensures { IfOk result (λ made. made ≡ sizes.items) }
    {
        Ok(Sizes {
            kept: Kept::Shared(Arc::new(alloc, sizes)?),
        })
    }

    /// The same sizes, without a list of their own where these are shared or all one.
    pub fn share(&self, alloc: Global) -> Result<Sizes, AllocError>
        ensures { IfOk result (λ same. same ≡ self.now) }
    {
        let kept = match &self.kept {
            Kept::Ones(count) => Kept::Ones(*count),
            Kept::Own(sizes) => Kept::Own(sizes.to_vec(alloc)?),
            Kept::Shared(sizes) => Kept::Shared(sizes.clone()?),
        };
        Ok(Sizes { kept })
    }

    /// The sizes, as they are kept.
    pub fn told(&self) -> Told<'_>
        ensures { sizes_told result ≡ self.now }
    {
        match &self.kept {
            Kept::Ones(count) => Told::Ones(*count),
            Kept::Own(sizes) => Told::Each(sizes),
            Kept::Shared(sizes) => Told::Each(sizes),
        }
    }

    /// The number of frames.
    pub fn len(&self) -> usize
        ensures { result ≡ length self.now }
    {
        match self.told() {
            Told::Ones(count) => count as usize,
            Told::Each(sizes) => sizes.len(),
        }
    }

    /// How many slots all of them take.
    pub fn sum(&self) -> u32
        requires { sum self.now < 2 ^ 32 }
        ensures { result ≡ sum self.now }
    {
        match self.told() {
            Told::Ones(count) => count,
            Told::Each(sizes) => total(sizes),
        }
    }
}
