//! Batches whose frames all go to one port alone: nothing is listed for the other ports, and no
//! frame is looked for among flooded, short and lone ones.
ghost use Rattle.std.specs.Prelude.{◌≡◌, ◌<◌, ◌≤◌, ◌^◌, ◌∷◌, [], All, length, map, replicate, true, false, IsTrue, IfOk, IfSome, IfNone};
ghost use Rattle.std.specs.List.{range_with_len};
ghost use Rattle.nm_types.specs.declared.id.PortId.{PortId};
ghost use Rattle.vale_batch.specs.declared.looking.Destination.TheVariants as destinations;
ghost use Rattle.vale_batch.specs.Looking.{looked_one};
ghost use Rattle.vale_batch.specs.Wants.{goes_alone, is_only, size_of};

use crate::lists::Want;
use crate::looking::{Destination, Looked};
use nm_frag::Sizes;
use nm_types::PortId;
use std::alloc::{AllocError, Global};

/// Whether a frame goes to this port alone.
fn goes_alone(looked: &Looked, port: PortId) -> bool
    ensures { result ≡ goes_alone port looked.now }
{
    match looked.destination {
        Destination::Short => false,
        Destination::Nobody => false,
        Destination::Only(to) => port == to,
        Destination::Others => false,
    }
}

fn all_go_alone(all: &[Looked], port: PortId) -> bool
    ensures alone { IsTrue result → All (λ looked. goes_alone port looked ≡ true) all.now }
    ensures other { All (λ looked. goes_alone port looked ≡ true) all.now → IsTrue result }
{
    all.iter().all(|looked| goes_alone(looked, port))
}

/// The port to which all frames go, each to it alone. None where they go to several ports, and where
/// there is no frame.
pub(crate) fn sole_port(all: &[Looked]) -> Option<PortId>
    ensures some { IfSome result (λ port. 1 ≤ length all.now) }
    ensures alone { IfSome result (λ port.
        All (λ looked. goes_alone port looked ≡ true) all.now) }
    ensures none { IfNone result ((port : PortId) → 1 ≤ length all.now
        → All (λ looked. goes_alone port looked ≡ true) all.now → ⊥) }
{
    if all.is_empty() {
        return None;
    }
    match all[0].destination {
        Destination::Only(port) if all_go_alone(all, port) => Some(port),
        _ => None,
    }
}

/// The port to which alone a frame goes.
fn only_port(to: Destination) -> Option<PortId>
    ensures some { IfSome result (λ port. to ≡ destinations.Only port) }
    ensures none { IfNone result ((port : PortId) → is_only port to ≡ false) }
{
    match to {
        Destination::Short => None,
        Destination::Nobody => None,
        Destination::Only(port) => Some(port),
        Destination::Others => None,
    }
}

/// The port to which so many frames of one slot each go, each to it alone, if they go to one place.
pub(crate) fn sole_alike(to: Destination, count: usize) -> Option<PortId>
    ensures some { IfSome result (λ port. 1 ≤ length (replicate count (looked_one to))) }
    ensures alone { IfSome result (λ port.
        All (λ looked. goes_alone port looked ≡ true) (replicate count (looked_one to))) }
    ensures none { IfNone result ((port : PortId) → 1 ≤ length (replicate count (looked_one to))
        → All (λ looked. goes_alone port looked ≡ true) (replicate count (looked_one to)) → ⊥) }
{
    if count == 0 {
        return None;
    }
    only_port(to)
}

/// The places of so many frames.
pub(crate) fn places(alloc: Global, count: u32) -> Result<Vec<u32>, AllocError>
    ensures { IfOk result (λ all. all.items ≡ range_with_len 0 count) }
{
    let mut all = Vec::with_capacity(alloc, count as usize)?;
    for place in 0..count {
        all.push_reserved(place);
    }
    Ok(all)
}

/// How many slots each of the frames takes.
fn sizes(alloc: Global, all: &[Looked]) -> Result<Vec<u32>, AllocError>
    ensures { IfOk result (λ sizes. sizes.items ≡ map size_of all.now) }
{
    let mut sizes = Vec::with_capacity(alloc, all.len())?;
    for looked in all {
        sizes.push_reserved(looked.size);
    }
    Ok(sizes)
}

/// Whether each of the frames takes one slot.
fn are_single(all: &[Looked]) -> bool
    ensures { IsTrue result → All (λ looked. looked.size ≡ 1) all.now }
{
    all.iter().all(|looked| looked.size == 1)
}

/// How many slots each of the frames takes, with no list of them where each takes one.
#[tactic(auto, using(crate::proofs::ToOne::singles))]
pub(crate) fn sizes_of(alloc: Global, all: &[Looked]) -> Result<Sizes, AllocError>
    requires { length all.now < 2 ^ 32 }
    ensures { IfOk result (λ sizes. sizes ≡ map size_of all.now) }
{
    if are_single(all) {
        return Ok(Sizes::ones(all.len() as u32));
    }
    Sizes::shared(alloc, sizes(alloc, all)?)
}

/// A list of one want.
pub(crate) fn one_want(alloc: Global, want: Want) -> Result<Vec<Want>, AllocError>
    ensures { IfOk result (λ wants. wants.items ≡ want ∷ []) }
{
    let mut wants = Vec::with_capacity(alloc, 1)?;
    wants.push_reserved(want);
    Ok(wants)
}
