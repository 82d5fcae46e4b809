ghost use Rattle.std.specs.Prelude.{◌≡◌, ◌<◌, ◌≤◌, [], length, position, IfOk, IsSome, None};
ghost use Rattle.std.specs.Prelude.{vec_capacity};
ghost use Rattle.std.specs.Option.{ForSome};
ghost use Rattle.nm_types.specs.Counters.{sum_of_counts, SumFits};
ghost use Rattle.nm_types.specs.Limits.{most_ports};
ghost use Rattle.nm_count.specs.Tallies.{is_port, counts_of, rank_of, IsRising, IsTally};
ghost use Rattle.nm_count.specs.Tallies.{tally_with, tally_after_add, tally_without};

use nm_types::{Counts, MAX_PORTS, NoMemory, PortId};
use std::alloc::Global;
use std::marker::Model;

/// A port and what it has counted.
#[derive(Clone, Copy, Debug, PartialEq, Eq)]
pub struct Tallied {
    /// The port.
    pub port: PortId,
    /// Its counters, in frames.
    pub counts: Counts,
}

/// The counters of the ports, in frames. They are kept by rising port, so that a port is found
/// by binary search.
#[derive(Drop)]
pub struct Tally {
    ports: Vec<Tallied>,
}

impl Model for Tally {
    ghost use Rattle.std.specs.Prelude.{List, ◌≤◌, vec_capacity};
    ghost use Rattle.nm_count.specs.declared.tally.Tallied.{Tallied};

    ghost Value = { List Tallied };

    ghost use Rattle.nm_types.specs.Limits.{most_ports};
    ghost use Rattle.nm_count.specs.Tallies.{IsTally};

    ghost view = { λ t. t.ports.items };

    ghost invariant = { λ t. IsTally t.ports.items × (most_ports ≤ vec_capacity t.ports) };
}

/// Adds `more` to `counts`, field by field.
fn add_counts(counts: &mut Counts, more: &Counts)
    requires { SumFits counts.old more.now }
    ensures { counts.new ≡ sum_of_counts counts.old more.now }
{
    counts.sent += more.sent;
    counts.short += more.short;
    counts.lone += more.lone;
    counts.given += more.given;
    counts.full += more.full;
    counts.read += more.read;
}

/// Counts the ports lower than `port`.
#[tactic(auto, using(crate::proofs::TallyLemmas::tallies))]
fn rank_of(ports: &[Tallied], port: PortId) -> usize
    requires { IsRising ports.now }
    ensures rank { result ≡ rank_of port.0 ports.now }
    ensures within { result ≤ length ports.now }
{
    ports.partition_point(|tallied| tallied.port.0 < port.0)
}

/// Finds the place of `port`.
#[tactic(auto, using(crate::proofs::TallyLemmas::tallies))]
fn place_of(ports: &[Tallied], port: PortId) -> Option<usize>
    requires { IsRising ports.now }
    ensures { result ≡ position (is_port port.0) ports.now }
{
    let at = rank_of(ports, port);
    if at < ports.len() && ports[at].port == port {
        Some(at)
    } else {
        None
    }
}

/// Finds the counters of `port`.
fn counts_at(ports: &[Tallied], port: PortId) -> Option<Counts>
    requires { IsRising ports.now }
    ensures { result ≡ counts_of ports.now port.0 }
{
    match place_of(ports, port) {
        Some(at) => Some(ports[at].counts),
        None => None,
    }
}

/// Adds `more` to the counters of `port`.
#[tactic(auto, using(crate::proofs::TallyLemmas::tallies))]
fn add_at(ports: &mut Vec<Tallied>, port: PortId, more: &Counts)
    requires rising { IsRising ports.old.items }
    requires there { IsSome (counts_of ports.old.items port.0) }
    requires fits { ForSome (counts_of ports.old.items port.0) (λ counts. SumFits counts more.now) }
    ensures sums { ports.new.items ≡ tally_after_add port.0 more.now ports.old.items }
    ensures capacity { vec_capacity ports.new ≡ vec_capacity ports.old }
{
    match place_of(ports, port) {
        Some(at) => add_counts(&mut ports[at].counts, more),
        None => unreachable!(),
    }
}

impl Tally {
    /// An empty tally. It takes the room for all ports, so that the other calls take no memory.
    pub fn new(alloc: Global) -> Result<Tally, NoMemory>
        ensures { IfOk result (λ tally. tally ≡ []) }
    {
        Ok(Tally {
            ports: Vec::with_capacity(alloc, MAX_PORTS)?,
        })
    }

    /// Adds a port with zero counters.
    #[tactic(auto, using(crate::proofs::TallyLemmas::tallies))]
    pub fn open(&mut self, port: PortId)
        requires new { counts_of self.old port.0 ≡ None }
        requires room { length self.old < most_ports }
        ensures { self.new ≡ tally_with port self.old }
    {
        let at = rank_of(&self.ports, port);
        let counts = Counts::ZERO;
        if self.ports.insert(at, Tallied { port, counts }).is_err() {
            unreachable!();
        }
    }

    /// Adds to the port's counters, field by field.
    #[tactic(auto, using(crate::proofs::TallyLemmas::tallies))]
    pub fn add(&mut self, port: PortId, more: &Counts)
        requires there { IsSome (counts_of self.old port.0) }
        requires fits { ForSome (counts_of self.old port.0) (λ counts. SumFits counts more.now) }
        ensures { self.new ≡ tally_after_add port.0 more.now self.old }
    {
        add_at(&mut self.ports, port, more);
    }

    /// The port's counters, or none if it has not been added.
    pub fn of(&self, port: PortId) -> Option<Counts>
        ensures counts { result ≡ counts_of self.now port.0 }
        ensures tally { IsTally self.now }
    {
        counts_at(&self.ports, port)
    }

    /// Removes a port and its counters.
    #[tactic(auto, using(crate::proofs::TallyLemmas::tallies))]
    pub fn gone(&mut self, port: PortId)
        requires { IsSome (counts_of self.old port.0) }
        ensures { self.new ≡ tally_without port.0 self.old }
    {
        self.ports.retain(|tallied| tallied.port != port);
    }
}
