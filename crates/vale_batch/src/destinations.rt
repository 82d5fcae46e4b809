//! Where the frames of a batch go, as it is kept: frames that are alike are not listed.
ghost use Rattle.std.specs.Prelude.{◌≡◌, ◌<◌, ◌≤◌, ◌^◌, All, length, map, replicate, true, count_by, IsTrue, IfOk, IfSome, IfNone};
ghost use Rattle.nm_types.specs.declared.id.PortId.{PortId};
ghost use Rattle.vale_batch.specs.Kept.{looked_kept};
ghost use Rattle.vale_batch.specs.Looking.{looked_one};
ghost use Rattle.vale_batch.specs.Wants.{goes_alone, is_flooded, is_lone, is_short_destination, port_number, size_of, wants_of, IsRising};

use crate::classifying::lists_of;
use crate::floods::{is_flood, is_flood_alike};
use crate::lists::Lists;
use crate::looking::{Destination, Looked};
use crate::sole::{sizes_of, sole_alike, sole_port};
use nm_frag::Sizes;
use nm_types::PortId;
use std::alloc::{AllocError, Global};

/// Where the frames of a batch go.
#[derive(Debug, Drop)]
pub(crate) enum Destinations {
    /// So many frames of one slot each, which all go to one place.
    Alike(Destination, usize),
    Each(Vec<Looked>),
}

/// So many frames of one slot each that go to one place.
fn listed(alloc: Global, to: Destination, count: usize) -> Result<Vec<Looked>, AllocError>
    ensures { IfOk result (λ all. all.items ≡ replicate count (looked_one to)) }
{
    let mut all = Vec::new(alloc);
    let looked = Looked {
        destination: to,
        size: 1,
    };
    all.resize(count, looked)?;
    Ok(all)
}

impl Destinations {
    /// The number of frames.
    pub(crate) fn len(&self) -> usize
        ensures { result ≡ length (looked_kept self.now) }
    {
        match self {
            Destinations::Alike(_, count) => *count,
            Destinations::Each(all) => all.len(),
        }
    }

    /// The port to which all frames go, each to it alone. None where they go to several ports, and
    /// where there is no frame.
    pub(crate) fn sole(&self) -> Option<PortId>
        ensures some { IfSome result (λ port. 1 ≤ length (looked_kept self.now)) }
        ensures alone { IfSome result (λ port.
            All (λ looked. goes_alone port looked ≡ true) (looked_kept self.now)) }
        ensures none { IfNone result ((port : PortId) → 1 ≤ length (looked_kept self.now)
            → All (λ looked. goes_alone port looked ≡ true) (looked_kept self.now) → ⊥) }
    {
        match self {
            Destinations::Alike(to, count) => sole_alike(*to, *count),
            Destinations::Each(all) => sole_port(all),
        }
    }

    /// Whether there are frames, and all of them go to all ports but the one that sent them.
    pub(crate) fn is_flood(&self) -> bool
        ensures some { IsTrue result → 1 ≤ length (looked_kept self.now) }
        ensures all { IsTrue result
            → All (λ looked. is_flooded looked ≡ true) (looked_kept self.now) }
    {
        match self {
            Destinations::Alike(to, count) => is_flood_alike(*to, *count),
            Destinations::Each(all) => is_flood(all),
        }
    }

    /// How many slots each of the frames takes.
    #[tactic(auto, using(crate::proofs::ToOne::singles))]
    pub(crate) fn sizes(&self, alloc: Global) -> Result<Sizes, AllocError>
        requires { length (looked_kept self.now) < 2 ^ 32 }
        ensures { IfOk result (λ sizes. sizes ≡ map size_of (looked_kept self.now)) }
    {
        match self {
            Destinations::Alike(_, count) => Ok(Sizes::ones(*count as u32)),
            Destinations::Each(all) => sizes_of(alloc, all),
        }
    }

    /// The lists of the frames for ports that rise.
    pub(crate) fn lists(
        &self,
        alloc: Global,
        from: PortId,
        ports: &[PortId],
    ) -> Result<Lists, AllocError>
        requires few { length (looked_kept self.now) < 2 ^ 32 }
        requires ports { IsRising (map port_number ports.now) }
        ensures short { IfOk result (λ lists.
            lists.short ≡ count_by is_short_destination (looked_kept self.now)) }
        ensures lone { IfOk result (λ lists.
            lists.lone ≡ count_by (is_lone from ports.now) (looked_kept self.now)) }
        ensures wants { IfOk result (λ lists.
            lists.wants ≡ wants_of from (looked_kept self.now) ports.now) }
    {
        match self {
            Destinations::Alike(to, count) => {
                let all = listed(alloc, *to, *count)?;
                lists_of(alloc, from, ports, &all)
            }
            Destinations::Each(all) => lists_of(alloc, from, ports, all),
        }
    }
}
