//! Batches whose frames all go to all ports but their sender's: each of these wants all of them, and
//! they share the lists.
ghost use Rattle.std.specs.Prelude.{◌≡◌, ◌<◌, ◌≤◌, ◌^◌, All, filter, length, map, replicate, true, count_by, IsTrue, IfOk};
ghost use Rattle.vale_batch.specs.Looking.{looked_one};
ghost use Rattle.vale_batch.specs.Wants.{is_flooded, is_lone, is_other, is_short_destination, want_with, wanted, wants_of};

use crate::alone::is_flooded;
use crate::classifying::has_others;
use crate::lists::Want;
use crate::looking::{Destination, Looked};
use crate::lookup::Lookup;
use crate::shares::Places;
use crate::sole::places;
use nm_frag::Sizes;
use nm_types::{NoMemory, PortId};
use std::alloc::{AllocError, Global};

fn all_flooded(all: &[Looked]) -> bool
    ensures { IsTrue result → All (λ looked. is_flooded looked ≡ true) all.now }
{
    all.iter().all(|looked| is_flooded(*looked))
}

/// Whether there are frames, and all of them go to all ports but the one that sent them.
pub(crate) fn is_flood(all: &[Looked]) -> bool
    ensures some { IsTrue result → 1 ≤ length all.now }
    ensures all { IsTrue result → All (λ looked. is_flooded looked ≡ true) all.now }
{
    all.len() > 0 && all_flooded(all)
}

/// The same for so many frames of one slot each that go to one place.
pub(crate) fn is_flood_alike(to: Destination, count: usize) -> bool
    ensures some { IsTrue result → 1 ≤ length (replicate count (looked_one to)) }
    ensures all { IsTrue result
        → All (λ looked. is_flooded looked ≡ true) (replicate count (looked_one to)) }
{
    count > 0
        && is_flooded(Looked {
            destination: to,
            size: 1,
        })
}

/// What ports but the sender's want that want frames at the same places, of the same sizes.
#[tactic(auto, using(crate::proofs::ToOthers::floods))]
fn wants_of_others(
    alloc: Global,
    from: PortId,
    ports: &[PortId],
    places: &Places,
    sizes: &Sizes,
) -> Result<Vec<Want>, AllocError>
    ensures { IfOk result (λ wants. map wanted wants.items
        ≡ map (want_with places.now sizes.now) (filter (is_other from) ports.now)) }
{
    let mut wants = Vec::with_capacity(alloc, ports.len())?;
    for port in ports {
        if *port != from {
            let want = Want {
                to: *port,
                places: places.share(alloc)?,
                sizes: sizes.share(alloc)?,
            };
            wants.push_reserved(want);
        }
    }
    Ok(wants)
}

impl Lookup {
    /// What the ports of a switch want where all frames go to all ports but the sender's: each of
    /// these wants all.
    #[tactic(auto, using(crate::proofs::ToOthers::floods))]
    pub fn flood_wants(&self, alloc: Global, ports: &[PortId]) -> Result<Vec<Want>, NoMemory>
        requires few { length self.now.all < 2 ^ 32 }
        requires some { 1 ≤ length self.now.all }
        requires all { All (λ looked. is_flooded looked ≡ true) self.now.all }
        ensures { IfOk result (λ wants.
            map wanted wants.items ≡ wants_of self.now.from self.now.all ports.now) }
    {
        let places = Places::shared(alloc, places(alloc, self.len() as u32)?)?;
        let sizes = self.sizes(alloc)?;
        Ok(wants_of_others(alloc, self.from(), ports, &places, &sizes)?)
    }

    /// How many of the frames are lone, and none is short, where all of them go to all ports but the
    /// sender's: all, if there is no other port.
    #[tactic(auto, using(crate::proofs::ToOthers::floods))]
    pub fn flood_lone(&self, ports: &[PortId]) -> u32
        requires few { length self.now.all < 2 ^ 32 }
        requires all { All (λ looked. is_flooded looked ≡ true) self.now.all }
        ensures lone { result ≡ count_by (is_lone self.now.from ports.now) self.now.all }
        ensures short { 0 ≡ count_by is_short_destination self.now.all }
    {
        if has_others(ports, self.from()) {
            0
        } else {
            self.len() as u32
        }
    }
}
