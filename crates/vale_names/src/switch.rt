ghost use Rattle.std.specs.Prelude.{◌≡◌, [], None, Some, true};
ghost use Rattle.std.specs.Prelude.{IfOk, OnOk, OnErr, MatchResult};
ghost use Rattle.std.specs.Prelude.{position, map};
ghost use Rattle.nm_types.specs.Limits.{most_switch_ports};
ghost use Rattle.nm_types.specs.Names.{switch_of, is_switch_port_name};
ghost use Rattle.vale_names.specs.Ports.{open_port_of, fresh_port, Joins};
ghost use Rattle.vale_names.specs.Groups.{group_refusal};
ghost use Rattle.vale_names.specs.Switches.{is_for, is_vacant, ports_on, ArePlaces};
ghost use Rattle.vale_names.specs.Switches.{place_for, place_refusal, shut_place, place_without};

use crate::group::Group;
use nm_types::{MAX_SWITCH_PORTS, Name, NoMemory, OpenFault, PortId};
use std::alloc::Global;

/// A place for a switch: its ports, and the name of the port that was opened here last.
#[derive(Drop)]
pub(crate) struct Switch {
    label: Option<Name>,
    group: Group,
}

impl Switch {
    /// A place without ports, that no switch has had yet.
    pub(crate) fn new(alloc: Global) -> Result<Switch, NoMemory>
        ensures { IfOk result (λ place. place
            ≡ record { label = None; group = record { ports = []; most = most_switch_ports } }) }
    {
        Ok(Switch {
            label: None,
            group: Group::new(alloc, MAX_SWITCH_PORTS)?,
        })
    }

    /// Tells whether the place is that of the name's switch.
    fn is_for(&self, name: &Name) -> bool
        ensures { result ≡ is_for (switch_of name.now) self.now }
    {
        match &self.label {
            Some(label) => label.switch() == name.switch(),
            None => false,
        }
    }

    /// Tells whether the place has no port.
    fn is_vacant(&self) -> bool
        ensures { result ≡ is_vacant self.now }
    {
        self.group.is_empty()
    }

    /// Adds an open port and makes its name the label. Refuses as its group does.
    fn open(&mut self, name: &Name, id: PortId) -> Result<(), OpenFault>
        ensures refusal { MatchResult result
            (λ _. group_refusal self.old.group name.now ≡ None)
            (λ fault. group_refusal self.old.group name.now ≡ Some fault) }
        ensures joined { OnOk result
            (Joins self.old.group.ports (fresh_port name.now id) self.new.group.ports) }
        ensures label { OnOk result (self.new.label ≡ Some name.now) }
        ensures most { self.new.group.most ≡ self.old.group.most }
        ensures err { OnErr result (self.new ≡ self.old) }
    {
        let opened = self.group.open(name, id);
        if opened.is_ok() {
            self.label = Some(*name);
        }
        opened
    }

    /// Marks the port of this id as shutting, if it is here.
    fn shut(&mut self, id: PortId)
        ensures { self.new ≡ shut_place id.0 self.old }
    {
        self.group.shut(id);
    }

    /// Removes the port of this id, if it is here.
    fn gone(&mut self, id: PortId)
        ensures { self.new ≡ place_without id.0 self.old }
    {
        self.group.gone(id);
    }
}

/// The place of the name's switch.
fn place_of(places: &[Switch], name: &Name) -> Option<usize>
    ensures { result ≡ position (is_for (switch_of name.now)) places.now }
{
    places.iter().position(|place| place.is_for(name))
}

/// The first place that has no port.
fn vacant_place(places: &[Switch]) -> Option<usize>
    ensures { result ≡ position is_vacant places.now }
{
    places.iter().position(|place| place.is_vacant())
}

/// The place of the name's switch, else the first that has no port.
fn place_for(places: &[Switch], name: &Name) -> Option<usize>
    ensures { result ≡ place_for places.now (switch_of name.now) }
{
    match place_of(places, name) {
        Some(at) => Some(at),
        None => vacant_place(places),
    }
}

/// Opens a port of this name on its switch, or on a place without ports if the switch has none.
#[tactic(auto, using(crate::proofs::SwitchLemmas::places))]
pub(crate) fn open_on_switch(
    places: &mut [Switch],
    name: &Name,
    id: PortId,
) -> Result<(), OpenFault>
    requires places { ArePlaces places.old }
    requires kind { is_switch_port_name name.now ≡ true }
    ensures refusal { MatchResult result
        (λ _. place_refusal places.old name.now ≡ None)
        (λ fault. place_refusal places.old name.now ≡ Some fault) }
    ensures joined { OnOk result
        (Joins (ports_on places.old) (fresh_port name.now id) (ports_on places.new)) }
    ensures places { ArePlaces places.new }
    ensures err { OnErr result (places.new ≡ places.old) }
{
    match place_for(places, name) {
        Some(at) => places[at].open(name, id),
        None => Err(OpenFault::SwitchesFull),
    }
}

/// Finds the open port of a switch port's name.
#[tactic(auto, using(crate::proofs::SwitchLemmas::places))]
pub(crate) fn find_on_switch(places: &[Switch], name: &Name) -> Option<PortId>
    requires places { ArePlaces places.now }
    requires kind { is_switch_port_name name.now ≡ true }
    ensures { result ≡ open_port_of (ports_on places.now) name.now }
{
    match place_of(places, name) {
        Some(at) => places[at].group.find(name),
        None => None,
    }
}

/// Marks the port of this id as shutting, if it is on a switch.
pub(crate) fn shut_on_switches(places: &mut [Switch], id: PortId)
    ensures { places.new ≡ map (shut_place id.0) places.old }
{
    for place in places.iter_mut() {
        place.shut(id);
    }
}

/// Removes the port of this id, if it is on a switch.
pub(crate) fn leave_switches(places: &mut [Switch], id: PortId)
    ensures { places.new ≡ map (place_without id.0) places.old }
{
    for place in places.iter_mut() {
        place.gone(id);
    }
}
