ghost use Rattle.std.specs.Prelude.{◌≡◌, ◌+◌, ◌<◌, ◌≤◌, ◌^◌, [], ◌∷◌, ◌++◌, All, Some, filter, length, map, option_map, slice_get, vec_len, vec_capacity, IfOk, IfSome, IfNone};
ghost use Rattle.vale_batch.specs.Looking.{untaught_all};
ghost use Rattle.vale_batch.specs.Wants.{Classed, IsFew, wanted, dest_of, owned, merged, place_of, slots_of, flooded_to, want_of, want_seen, wants_some};

use crate::alone::{Own, Placed};
use crate::looking::{Taught, forget_taught};
use crate::shares::Places;
use nm_frag::Sizes;
use nm_types::{NoMemory, PortId};
use std::alloc::{AllocError, Global};
use std::marker::Model;
use vale_learn::Table;

/// The frames of a batch that a port wants.
#[derive(Debug, Drop)]
pub struct Want {
    pub to: PortId,
    /// The places of the frames in the batch, rising from 0.
    pub places: Places,
    /// How many slots each of them takes.
    pub sizes: Sizes,
}

/// How many frames of a batch a port wants, at least 1.
#[derive(Clone, Copy, Debug, PartialEq, Eq)]
pub struct Dest {
    pub to: PortId,
    pub count: u32,
}

/// What became of the frames of a batch. Frames that go to all other ports are kept once, not once
/// for each port.
#[derive(Debug, Drop)]
pub struct Lists {
    pub(crate) short: u32,
    pub(crate) lone: u32,
    pub(crate) from: PortId,
    pub(crate) flooded: Vec<Placed>,
    pub(crate) owns: Vec<Own>,
    pub(crate) taughts: Vec<Taught>,
}

impl Model for Lists {
    ghost Value = { Classed };

    ghost view = { λ l. record {
      short = l.short;
      lone = l.lone;
      wants = map (want_seen l.from l.flooded.items) (map owned l.owns.items);
      taughts = l.taughts.items;
    } };

    ghost invariant = { λ l. All IsFew
        (map (want_seen l.from l.flooded.items) (map owned l.owns.items)) };
}

/// The first frame of two rising lists, and what is behind it in both.
fn next<'a>(
    own: &'a [Placed],
    flooded: &'a [Placed],
) -> Option<(Placed, &'a [Placed], &'a [Placed])>
    ensures some { IfSome result (λ n. merged own.now flooded.now ≡ n.0 ∷ merged n.1.now n.2.now) }
    ensures none { IfNone result (merged own.now flooded.now ≡ []) }
{
    match (own.split_first(), flooded.split_first()) {
        (None, None) => None,
        (Some((first, rest)), None) => Some((*first, rest, flooded)),
        (None, Some((other, others))) => Some((*other, own, others)),
        (Some((first, rest)), Some((other, others))) => {
            if first.place < other.place {
                Some((*first, rest, flooded))
            } else {
                Some((*other, own, others))
            }
        }
    }
}

/// Adds the places and the sizes of the frames of two rising lists, in the order of the batch.
fn merge(places: &mut Vec<u32>, sizes: &mut Vec<u32>, own: &[Placed], flooded: &[Placed])
    requires places { vec_len places.old + length (merged own.now flooded.now)
        ≤ vec_capacity places.old }
    requires sizes { vec_len sizes.old + length (merged own.now flooded.now)
        ≤ vec_capacity sizes.old }
    ensures places { places.new.items
        ≡ places.old.items ++ map place_of (merged own.now flooded.now) }
    ensures sizes { sizes.new.items
        ≡ sizes.old.items ++ map slots_of (merged own.now flooded.now) }
{
    let mut own = own;
    let mut flooded = flooded;
    while let Some((placed, rest, others)) = next(own, flooded) {
        places.push_reserved(placed.place);
        sizes.push_reserved(placed.size);
        own = rest;
        flooded = others;
    }
}

/// What a port wants that gets these frames.
#[tactic(auto, using(crate::proofs::Merging::merges))]
fn want_just(alloc: Global, to: PortId, frames: &[Placed]) -> Result<Want, AllocError>
    ensures { IfOk result (λ want. wanted want ≡ want_of to [] frames.now) }
{
    let mut places = Vec::with_capacity(alloc, frames.len())?;
    let mut sizes = Vec::with_capacity(alloc, frames.len())?;
    for placed in frames {
        places.push_reserved(placed.place);
        sizes.push_reserved(placed.size);
    }
    Ok(Want {
        to,
        places: Places::own(places),
        sizes: Sizes::own(sizes),
    })
}

/// What a port wants of its own frames and the flooded ones.
#[tactic(auto, using(crate::proofs::Merging::merges))]
fn want_of(
    alloc: Global,
    to: PortId,
    own: &[Placed],
    flooded: &[Placed],
) -> Result<Want, AllocError>
    requires { length own.now + length flooded.now < 2 ^ 32 }
    ensures { IfOk result (λ want. wanted want ≡ want_of to own.now flooded.now) }
{
    if flooded.is_empty() {
        return want_just(alloc, to, own);
    }
    if own.is_empty() {
        return want_just(alloc, to, flooded);
    }
    let count = own.len() + flooded.len();
    let mut places = Vec::with_capacity(alloc, count)?;
    let mut sizes = Vec::with_capacity(alloc, count)?;
    merge(&mut places, &mut sizes, own, flooded);
    Ok(Want {
        to,
        places: Places::own(places),
        sizes: Sizes::own(sizes),
    })
}

/// The flooded frames that go to a port.
fn flooded_to<'a>(from: PortId, flooded: &'a [Placed], port: PortId) -> &'a [Placed]
    ensures { result.now ≡ flooded_to from flooded.now port }
{
    if port != from { flooded } else { &[] }
}

/// How many of its own frames and the flooded ones a port wants.
#[tactic(auto, using(crate::proofs::Merging::merges))]
fn count_of(from: PortId, flooded: &[Placed], own: &Own) -> usize
    ensures { result ≡ length (want_seen from flooded.now (owned own.now)).places }
{
    own.frames.len() + flooded_to(from, flooded, own.to).len()
}

fn wants_some(from: PortId, flooded: &[Placed], own: &Own) -> bool
    ensures { result ≡ wants_some (want_seen from flooded.now (owned own.now)) }
{
    count_of(from, flooded, own) > 0
}

/// Removes the ports that want nothing.
pub(crate) fn keep_wanting(from: PortId, flooded: &[Placed], owns: &mut Vec<Own>)
    ensures { map (want_seen from flooded.now) (map owned owns.new.items)
        ≡ filter wants_some (map (want_seen from flooded.now) (map owned owns.old.items)) }
{
    owns.retain(|own| wants_some(from, flooded, own));
}

impl Lists {
    /// How many frames are too short to have addresses.
    pub fn short(&self) -> u32
        ensures { result ≡ self.now.short }
    {
        self.short
    }

    /// How many longer frames go to no port.
    pub fn lone(&self) -> u32
        ensures { result ≡ self.now.lone }
    {
        self.lone
    }

    /// How many ports want some.
    pub fn len(&self) -> usize
        ensures { result ≡ length self.now.wants }
    {
        self.owns.len()
    }

    /// The i-th port that wants some, in the order of the ports that were given, and how many it
    /// wants. Costs one step.
    pub fn dest(&self, i: usize) -> Dest
        requires { i < length self.now.wants }
        ensures { option_map dest_of (slice_get self.now.wants i) ≡ Some result }
    {
        let own = &self.owns[i];
        let count = count_of(self.from, &self.flooded, own) as u32;
        Dest { to: own.to, count }
    }

    /// Makes the want of the i-th port that wants some, in the time of the frames that it wants.
    pub fn want(&self, alloc: Global, i: usize) -> Result<Want, NoMemory>
        requires { i < length self.now.wants }
        ensures { IfOk result (λ want. slice_get self.now.wants i ≡ Some (wanted want)) }
    {
        let own = &self.owns[i];
        let flooded = flooded_to(self.from, &self.flooded, own.to);
        Ok(want_of(alloc, own.to, &own.frames, flooded)?)
    }

    /// Takes back what `classify` taught the table, at the cost of the batch. If nothing else was
    /// learned since, the table is what it was before the batch.
    pub fn forget(self, table: &mut Table)
        ensures { table.new ≡ untaught_all table.old self.taughts }
    {
        let mut taughts = self.taughts;
        forget_taught(table, &mut taughts);
    }
}
