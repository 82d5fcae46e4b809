ghost use Rattle.std.specs.Prelude.{◌≡◌, ◌<◌, ◌≤◌, ◌^◌, if◌then◌else◌, [], ◌∷◌, ◌++◌, All, length, map, slice_get, true, false, IsTrue, IfOk, IfSome, IfNone, OnOk};
ghost use Rattle.std.specs.List.Sorted.{IsPartitionPoint};
ghost use Rattle.vale_batch.specs.declared.looking.Destination.TheVariants as destinations;
ghost use Rattle.vale_batch.specs.Wants.{owned, placed_at, with_placed, with_frame, is_to, is_before, stands_at, numbers_of, port_number, IsRising, empty_own, own_at, picked, is_flooded};

use crate::looking::{Destination, Looked};
use nm_types::PortId;
use std::alloc::{AllocError, Global};

/// A frame of a batch: its place, counted from 0, and how many slots it takes.
#[derive(Clone, Copy, Debug)]
pub(crate) struct Placed {
    pub(crate) place: u32,
    pub(crate) size: u32,
}

/// The frames of a batch that go to one port alone, in the order of the batch.
#[derive(Debug, Drop)]
pub(crate) struct Own {
    pub(crate) to: PortId,
    pub(crate) frames: Vec<Placed>,
}

/// How many ports stand before the place of one.
#[tactic(auto, using(crate::proofs::Ranks::places))]
fn rank_of(all: &Vec<Own>, to: PortId) -> usize
    requires { IsRising (numbers_of all.now.items) }
    ensures bound { result ≤ length all.now.items }
    ensures point { IsPartitionPoint (λ own. is_before to.0 own ≡ true)
        (λ own. is_before to.0 own ≡ false) all.now.items result }
{
    all.partition_point(|own| own.to.0 < to.0)
}

fn stands_at(all: &Vec<Own>, at: usize, to: PortId) -> bool
    ensures { result ≡ stands_at to.0 at all.now.items }
{
    match all.get(at) {
        Some(own) => own.to == to,
        None => false,
    }
}

/// The place of a port. The ports rise.
#[tactic(auto, using(crate::proofs::Ranks::places))]
fn place_of(all: &Vec<Own>, to: PortId) -> Option<usize>
    requires { IsRising (numbers_of all.now.items) }
    ensures within { IfSome result (λ at. at < length all.now.items) }
    ensures found { IfSome result (λ at.
        IfSome (slice_get all.now.items at) (λ own. IsTrue (is_to to.0 own))) }
    ensures none { IfNone result (All (λ own. is_to to.0 own ≡ false) all.now.items) }
{
    let at = rank_of(all, to);
    if stands_at(all, at, to) {
        Some(at)
    } else {
        None
    }
}

/// The place of a port, which is looked for at `near` first. The ports rise.
fn place_near(all: &Vec<Own>, to: PortId, near: usize) -> Option<usize>
    requires { IsRising (numbers_of all.now.items) }
    ensures within { IfSome result (λ at. at < length all.now.items) }
    ensures found { IfSome result (λ at.
        IfSome (slice_get all.now.items at) (λ own. IsTrue (is_to to.0 own))) }
    ensures none { IfNone result (All (λ own. is_to to.0 own ≡ false) all.now.items) }
{
    if stands_at(all, near, to) {
        Some(near)
    } else {
        place_of(all, to)
    }
}

/// How many frames there is room for once the first is there, if so many may follow.
fn first_room(left: usize) -> usize {
    left.min(64)
}

impl Own {
    /// Adds a frame, behind which at most `left` may follow.
    fn push(&mut self, placed: Placed, left: usize) -> Result<(), AllocError>
        ensures { OnOk result (owned self.new ≡ with_placed placed (owned self.old)) }
    {
        if self.frames.is_empty() {
            self.frames.reserve(first_room(left))?;
        }
        self.frames.push(placed)?;
        Ok(())
    }
}

/// Adds a frame that goes to one port to those of that port, which is looked for at `near` first.
/// Answers with its place.
fn add_to_one(
    all: &mut Vec<Own>,
    to: PortId,
    looked: Looked,
    place: u32,
    near: usize,
    left: usize,
) -> Result<usize, AllocError>
    requires rising { IsRising (numbers_of all.old.items) }
    requires only { looked.destination ≡ destinations.Only to }
    ensures { OnOk result (map owned all.new.items
        ≡ map (with_frame looked place) (map owned all.old.items)) }
{
    match place_near(all, to, near) {
        Some(at) => {
            all[at].push(
                Placed {
                    place,
                    size: looked.size,
                },
                left,
            )?;
            Ok(at)
        }
        None => Ok(near),
    }
}

/// Adds a frame to those of its port, if it goes to one port alone. That is looked for at `near`
/// first. Answers with the place at which the next one is looked for first.
fn add(
    all: &mut Vec<Own>,
    looked: Looked,
    place: u32,
    near: usize,
    left: usize,
) -> Result<usize, AllocError>
    requires { IsRising (numbers_of all.old.items) }
    ensures { OnOk result (map owned all.new.items
        ≡ map (with_frame looked place) (map owned all.old.items)) }
{
    match looked.destination {
        Destination::Short => Ok(near),
        Destination::Nobody => Ok(near),
        Destination::Only(to) => add_to_one(all, to, looked, place, near, left),
        Destination::Others => Ok(near),
    }
}

/// No frame for each port.
fn empty_owns(alloc: Global, ports: &[PortId]) -> Result<Vec<Own>, AllocError>
    ensures { IfOk result (λ all. map owned all.items ≡ map empty_own ports.now) }
{
    let mut all = Vec::with_capacity(alloc, ports.len())?;
    for port in ports {
        all.push_reserved(Own {
            to: *port,
            frames: Vec::new(alloc),
        });
    }
    Ok(all)
}

/// The frames that go to each of the ports alone.
pub(crate) fn owns_of(
    alloc: Global,
    ports: &[PortId],
    looked: &[Looked],
) -> Result<Vec<Own>, AllocError>
    requires few { length looked.now < 2 ^ 32 }
    requires ports { IsRising (map port_number ports.now) }
    ensures { IfOk result (λ all. map owned all.items ≡ map (own_at looked.now) ports.now) }
{
    let mut all = empty_owns(alloc, ports)?;
    let mut near = 0;
    for place in 0..looked.len() {
        let left = looked.len() - place;
        near = add(&mut all, looked[place], place as u32, near, left)?;
    }
    Ok(all)
}

pub(crate) fn is_flooded(looked: Looked) -> bool
    ensures { result ≡ is_flooded looked }
{
    match looked.destination {
        Destination::Others => true,
        _ => false,
    }
}

/// Adds a frame, if it goes to all ports but its sender's. At most `left` may follow.
fn add_flooded(
    all: &mut Vec<Placed>,
    looked: Looked,
    place: u32,
    left: usize,
) -> Result<(), AllocError>
    ensures { OnOk result (all.new.items ≡ all.old.items
        ++ (if is_flooded looked then placed_at place looked ∷ [] else [])) }
{
    if is_flooded(looked) {
        if all.is_empty() {
            all.reserve(first_room(left))?;
        }
        all.push(Placed {
            place,
            size: looked.size,
        })?;
    }
    Ok(())
}

/// The frames that go to all ports but their sender's.
pub(crate) fn flooded_of(alloc: Global, looked: &[Looked]) -> Result<Vec<Placed>, AllocError>
    requires few { length looked.now < 2 ^ 32 }
    ensures { IfOk result (λ all. all.items ≡ picked is_flooded 0 looked.now) }
{
    let mut all = Vec::new(alloc);
    for place in 0..looked.len() {
        add_flooded(&mut all, looked[place], place as u32, looked.len() - place)?;
    }
    Ok(all)
}
