//! A batch whose frames were looked up, before any port is listed.
ghost use Rattle.std.specs.Prelude.{List, ◌≡◌, ◌<◌, ◌≤◌, ◌^◌, [], All, length, map, true, count_by, IsTrue, IfOk, IfSome, IfNone, OnOk, OnErr};
ghost use Rattle.std.specs.List.{list_any};
ghost use Rattle.vale_batch.specs.Kept.{looked_kept};
ghost use Rattle.vale_batch.specs.Looking.{looked_up_batch, learned_of_batch, untaught_all};
ghost use Rattle.nm_types.specs.declared.id.PortId.{PortId};
ghost use Rattle.nm_types.specs.Sendable.{IsFrame};
ghost use Rattle.vale_batch.specs.Wants.{goes_alone, is_flooded, is_lone, is_port, is_short_destination, port_number, size_of, wanted, wants_of, IsRising};

use crate::compared::Compared;
use crate::destinations::Destinations;
use crate::lists::{Lists, Want};
use crate::looking::{Taught, forget_taught, look_up, look_up_alike};
use crate::shares::Places;
use crate::sole::{one_want, places};
use nm_frag::Sizes;
use nm_types::{NoMemory, PortId};
use std::alloc::{AllocError, Global};
use std::marker::Model;
use vale_learn::Table;

/// The frames of a batch, each looked up, and what they taught the table.
#[derive(Debug, Drop)]
pub struct Lookup {
    from: PortId,
    all: Destinations,
    taughts: Vec<Taught>,
}

impl Model for Lookup {
    ghost use Rattle.vale_batch.specs.Looking.{LookedUp};

    ghost Value = { LookedUp };

    ghost use Rattle.vale_batch.specs.Kept.{looked_kept};

    ghost view = { λ l. record {
      from = l.from;
      all = looked_kept l.all;
      taughts = l.taughts.items;
    } };
}

/// Learns the sources of a batch and looks up where its frames go. Frames that are alike teach the
/// table once, and are looked up once. Want of memory ends it at some frame.
fn look_up_all(
    alloc: Global,
    table: &mut Table,
    taughts: &mut Vec<Taught>,
    from: PortId,
    batch: &Compared,
) -> Result<Destinations, AllocError>
    requires frames { All IsFrame batch.now }
    requires none { taughts.old.items ≡ [] }
    ensures all { IfOk result (λ all. looked_kept all ≡ looked_up_batch from table.old batch.now) }
    ensures table { OnOk result (table.new ≡ learned_of_batch from table.old batch.now) }
    ensures undo { untaught_all table.new taughts.new.items ≡ table.old }
{
    if batch.are_alike() {
        let to = look_up_alike(table, taughts, from, batch.batch())?;
        return Ok(Destinations::Alike(to, batch.len()));
    }
    let mut all = Vec::with_capacity(alloc, batch.len())?;
    look_up(table, taughts, &mut all, from, batch.batch())?;
    Ok(Destinations::Each(all))
}

impl Lookup {
    /// Learns the sources of a batch that port `from` sends, and looks up where its frames go,
    /// frame by frame. `NoMemory` leaves the table as it was.
    pub fn new(
        alloc: Global,
        table: &mut Table,
        from: PortId,
        batch: &Compared,
    ) -> Result<Lookup, NoMemory>
        requires { All IsFrame batch.now }
        ensures from { IfOk result (λ lookup. lookup.from ≡ from) }
        ensures all { IfOk result (λ lookup.
            lookup.all ≡ looked_up_batch from table.old batch.now) }
        ensures table { OnOk result (table.new ≡ learned_of_batch from table.old batch.now) }
        ensures err { OnErr result (table.new ≡ table.old) }
        ensures undo { IfOk result (λ lookup.
            untaught_all table.new lookup.taughts ≡ table.old) }
    {
        let mut taughts = Vec::new(alloc);
        match look_up_all(alloc, table, &mut taughts, from, batch) {
            Ok(all) => Ok(Lookup { from, all, taughts }),
            Err(_) => {
                forget_taught(table, &mut taughts);
                Err(NoMemory)
            }
        }
    }

    /// The port to which all frames go, each to it alone. None where they go to several ports, and
    /// where there is no frame.
    pub fn sole(&self) -> Option<PortId>
        ensures some { IfSome result (λ port. 1 ≤ length self.now.all) }
        ensures alone { IfSome result (λ port.
            All (λ looked. goes_alone port looked ≡ true) self.now.all) }
        ensures none { IfNone result ((port : PortId) → 1 ≤ length self.now.all
            → All (λ looked. goes_alone port looked ≡ true) self.now.all → ⊥) }
        ensures short { IfSome result (λ _. 0 ≡ count_by is_short_destination self.now.all) }
        ensures lone { IfSome result (λ _. (ports : List PortId)
            → 0 ≡ count_by (is_lone self.now.from ports) self.now.all) }
    {
        self.all.sole()
    }

    /// The lists of the frames for a switch with these open ports, without what the frames taught.
    pub fn lists(&self, alloc: Global, ports: &[PortId]) -> Result<Lists, NoMemory>
        requires few { length self.now.all < 2 ^ 32 }
        requires ports { IsRising (map port_number ports.now) }
        ensures short { IfOk result (λ lists.
            lists.short ≡ count_by is_short_destination self.now.all) }
        ensures lone { IfOk result (λ lists.
            lists.lone ≡ count_by (is_lone self.now.from ports.now) self.now.all) }
        ensures wants { IfOk result (λ lists.
            lists.wants ≡ wants_of self.now.from self.now.all ports.now) }
    {
        Ok(self.all.lists(alloc, self.from, ports)?)
    }

    /// The number of frames.
    pub(crate) fn len(&self) -> usize
        ensures { result ≡ length self.now.all }
    {
        self.all.len()
    }

    /// How many slots each of the frames takes.
    pub(crate) fn sizes(&self, alloc: Global) -> Result<Sizes, AllocError>
        requires { length self.now.all < 2 ^ 32 }
        ensures { IfOk result (λ sizes. sizes ≡ map size_of self.now.all) }
    {
        self.all.sizes(alloc)
    }

    /// The port that sent the frames.
    pub(crate) fn from(&self) -> PortId
        ensures { result ≡ self.now.from }
    {
        self.from
    }

    /// Whether there are frames, and all of them go to all ports but the one that sent them.
    pub fn is_flood(&self) -> bool
        ensures some { IsTrue result → 1 ≤ length self.now.all }
        ensures all { IsTrue result
            → All (λ looked. is_flooded looked ≡ true) self.now.all }
    {
        self.all.is_flood()
    }

    /// What the ports want where all frames go to this port, each to it alone: it wants all, if
    /// `there` says that it is one of the switch's open ports, whichever these are.
    pub fn sole_wants(
        &self,
        alloc: Global,
        sole: PortId,
        there: bool,
    ) -> Result<Vec<Want>, NoMemory>
        requires few { length self.now.all < 2 ^ 32 }
        requires some { 1 ≤ length self.now.all }
        requires alone { All (λ looked. goes_alone sole looked ≡ true) self.now.all }
        ensures { IfOk result (λ wants. (ports : List PortId)
            → IsRising (map port_number ports) → list_any (is_port sole) ports ≡ there
            → map wanted wants.items ≡ wants_of self.now.from self.now.all ports) }
    {
        if !there {
            return Ok(Vec::new(alloc));
        }
        let places = Places::own(places(alloc, self.len() as u32)?);
        let sizes = self.sizes(alloc)?;
        Ok(one_want(
            alloc,
            Want {
                to: sole,
                places,
                sizes,
            },
        )?)
    }

    /// Gives the lists what the frames taught.
    pub(crate) fn told(self, lists: Lists) -> Lists
        ensures { result ≡ record lists { taughts = self.taughts } }
    {
        Lists {
            taughts: self.taughts,
            ..lists
        }
    }

    /// Takes back what the frames taught the table, at the cost of the batch. If nothing else was
    /// learned since, the table is what it was before the batch.
    pub fn forget(self, table: &mut Table)
        ensures { table.new ≡ untaught_all table.old self.taughts }
    {
        let mut taughts = self.taughts;
        forget_taught(table, &mut taughts);
    }
}
