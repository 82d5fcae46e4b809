ghost use Rattle.std.specs.Prelude.{◌≡◌, ◌≤◌, [], None, Some, length, nat_eq};
ghost use Rattle.std.specs.Prelude.{IfOk, OnOk, OnErr, MatchResult};
ghost use Rattle.std.specs.List.{list_any};
ghost use Rattle.slab.specs.Slab.{values, slab_len};
ghost use Rattle.vale_names.specs.Ports.{has_name, is_open_as, open_port_of, fresh_port};
ghost use Rattle.vale_names.specs.Ports.{Joins, shut_at, shut_in, ports_without};
ghost use Rattle.vale_names.specs.Groups.{group_refusal};

use crate::port::NamedPort;
use nm_types::{Name, NoMemory, OpenFault, PortId};
use slab::Slab;
use std::alloc::Global;
use std::marker::Model;

/// Ports that share a limit: those of one switch, all pipe ends, or all monitors.
#[derive(Drop)]
pub(crate) struct Group {
    ports: Slab<NamedPort>,
    most: usize,
}

impl Model for Group {
    ghost use Rattle.vale_names.specs.Groups.{PortGroup};

    ghost Value = { PortGroup };

    ghost use Rattle.std.specs.Prelude.{◌≤◌};
    ghost use Rattle.slab.specs.Slab.{values};

    ghost view = { λ g. record { ports = values g.ports; most = g.most } };

    ghost invariant = { λ g. g.most ≤ g.ports.capacity };
}

/// Tells whether a port has this name.
#[tactic(auto, using(crate::proofs::GroupLemmas::groups))]
fn is_taken(ports: &Slab<NamedPort>, name: &Name) -> bool
    ensures { result ≡ list_any (has_name name.now) (values ports.now) }
{
    for (_, port) in ports.iter() {
        if port.has_name(name) {
            return true;
        }
    }
    false
}

/// Finds the open port of this name.
#[tactic(auto, using(crate::proofs::GroupLemmas::groups))]
fn open_port_of(ports: &Slab<NamedPort>, name: &Name) -> Option<PortId>
    ensures { result ≡ open_port_of (values ports.now) name.now }
{
    for (_, port) in ports.iter() {
        if port.is_open_as(name) {
            return Some(port.id);
        }
    }
    None
}

/// Marks the port as shutting if it has this id.
fn shut_at(port: &mut NamedPort, id: PortId)
    ensures { port.new ≡ shut_at id.0 port.old }
{
    if port.id == id {
        port.shutting = true;
    }
}

impl Group {
    /// An empty group with room for `most` ports.
    pub(crate) fn new(alloc: Global, most: usize) -> Result<Group, NoMemory>
        ensures { IfOk result (λ group. group ≡ record { ports = []; most = most }) }
    {
        Ok(Group {
            ports: Slab::with_capacity(alloc, most)?,
            most,
        })
    }

    /// Tells whether there is no port.
    #[tactic(auto, using(crate::proofs::GroupLemmas::groups))]
    pub(crate) fn is_empty(&self) -> bool
        ensures { result ≡ nat_eq (length self.now.ports) 0 }
    {
        self.ports.is_empty()
    }

    /// Adds an open port. Refuses with `PortsFull` if the group has its most ports, else with
    /// `NameTaken` if a port has this name.
    #[tactic(auto, using(crate::proofs::GroupLemmas::groups))]
    pub(crate) fn open(&mut self, name: &Name, id: PortId) -> Result<(), OpenFault>
        ensures refusal { MatchResult result
            (λ _. group_refusal self.old name.now ≡ None)
            (λ fault. group_refusal self.old name.now ≡ Some fault) }
        ensures joined { OnOk result
            (Joins self.old.ports (fresh_port name.now id) self.new.ports) }
        ensures most { self.new.most ≡ self.old.most }
        ensures err { OnErr result (self.new ≡ self.old) }
    {
        if self.ports.len() >= self.most {
            return Err(OpenFault::PortsFull);
        }
        if is_taken(&self.ports, name) {
            return Err(OpenFault::NameTaken);
        }
        self.ports.insert_reserved(NamedPort {
            name: *name,
            id,
            shutting: false,
        });
        Ok(())
    }

    /// Finds the open port of this name.
    pub(crate) fn find(&self, name: &Name) -> Option<PortId>
        ensures { result ≡ open_port_of self.now.ports name.now }
    {
        open_port_of(&self.ports, name)
    }

    /// Marks the port of this id as shutting.
    #[tactic(auto, using(crate::proofs::GroupLemmas::groups))]
    pub(crate) fn shut(&mut self, id: PortId)
        ensures { self.new ≡ record self.old { ports = shut_in id.0 self.old.ports } }
    {
        self.ports.retain(|_, port| {
            shut_at(port, id);
            true
        });
    }

    /// Removes the port of this id.
    #[tactic(auto, using(crate::proofs::GroupLemmas::groups))]
    pub(crate) fn gone(&mut self, id: PortId)
        ensures { self.new ≡ record self.old { ports = ports_without id.0 self.old.ports } }
    {
        self.ports.retain(|_, port| port.id != id);
    }
}
