#![tactic(auto, using(crate::proofs::NameLemmas::names))]

ghost use Rattle.std.specs.Prelude.{◌≡◌, [], None, Some, IfOk, OnOk, OnErr, MatchResult};
ghost use Rattle.nm_types.specs.Openings.{are_sizes, is_ring_size, open_refusal};
ghost use Rattle.vale_names.specs.Ports.{names_of, open_port_of, fresh_port, Joins};
ghost use Rattle.vale_names.specs.Ports.{shut_in, ports_without};
ghost use Rattle.vale_names.specs.PortNames.{IsNames};

use crate::group::Group;
use crate::switch::{Switch, find_on_switch, leave_switches, open_on_switch, shut_on_switches};
use nm_types::{
    Kind, MAX_EXTRA, MAX_MONITORS, MAX_PIPE_ENDS, MAX_RING, MAX_SWITCHES, MIN_RING, Name, NoMemory,
    OpenFault, PortId,
};
use std::alloc::Global;
use std::marker::Model;

/// The ports that are open or shutting, each with its name and its id. A name is looked up among
/// the ports of its switch, the pipe ends or the monitors alone.
#[derive(Drop)]
pub struct Names {
    switches: [Switch; MAX_SWITCHES],
    pipes: Group,
    monitors: Group,
}

impl Model for Names {
    ghost use Rattle.std.specs.Prelude.{List};
    ghost use Rattle.vale_names.specs.declared.port.NamedPort.{NamedPort};

    ghost Value = { List NamedPort };

    ghost use Rattle.vale_names.specs.Named.{all_ports, AreNamed};

    ghost view = { λ n. all_ports n.switches n.pipes n.monitors };

    ghost invariant = { λ n. AreNamed n.switches n.pipes n.monitors };
}

/// Tells whether a ring may have `size` slots.
fn is_ring_size(size: u32) -> bool
    ensures { result ≡ is_ring_size size }
{
    (MIN_RING..=MAX_RING).contains(&size)
}

/// Tells whether a port of this name may have rings of `tx` and `rx` slots and `extra` buffers.
fn are_sizes(name: &Name, tx: u32, rx: u32, extra: u32) -> bool
    ensures { result ≡ are_sizes name.now tx rx extra }
{
    let is_tx = if name.is_monitor() {
        tx == 0
    } else {
        is_ring_size(tx)
    };
    is_tx && is_ring_size(rx) && extra <= MAX_EXTRA
}

impl Names {
    /// An empty table. It takes the room for all ports, so that the other calls take no memory.
    pub fn new(alloc: Global) -> Result<Names, NoMemory>
        ensures { IfOk result (λ names. names ≡ []) }
    {
        let first = Switch::new(alloc)?;
        let second = Switch::new(alloc)?;
        let third = Switch::new(alloc)?;
        let fourth = Switch::new(alloc)?;
        Ok(Names {
            switches: [first, second, third, fourth],
            pipes: Group::new(alloc, MAX_PIPE_ENDS)?,
            monitors: Group::new(alloc, MAX_MONITORS)?,
        })
    }

    /// Registers an open port of this name under a new id. `tx` and `rx` are the slots of its
    /// rings, and `extra` is the number of its extra buffers. The first refusal that applies is
    /// answered: `BadSize` if a ring does not have 2 to 4096 slots (0 for the transmit ring of a
    /// monitor), or if there are more than 1024 extra buffers; `SwitchesFull` if the name's switch
    /// has no port and 4 switches have one; `PortsFull` if its switch has 254 ports or, for a name
    /// of that kind, there are 32 pipe ends or 32 monitors; `NameTaken` if an open or shutting port
    /// has this name. No other fault is answered.
    pub fn open(
        &mut self,
        name: &Name,
        id: PortId,
        tx: u32,
        rx: u32,
        extra: u32,
    ) -> Result<(), OpenFault>
        ensures refusal { MatchResult result
            (λ _. open_refusal (names_of self.old) name.now tx rx extra ≡ None)
            (λ fault. open_refusal (names_of self.old) name.now tx rx extra ≡ Some fault) }
        ensures names { OnOk result (IsNames self.new) }
        ensures opened { OnOk result (Joins self.old (fresh_port name.now id) self.new) }
        ensures err { OnErr result (self.new ≡ self.old) }
    {
        if !are_sizes(name, tx, rx, extra) {
            return Err(OpenFault::BadSize);
        }
        match name.kind() {
            Kind::Vale => open_on_switch(&mut self.switches, name, id),
            Kind::Master | Kind::Slave => self.pipes.open(name, id),
            Kind::Monitor => self.monitors.open(name, id),
        }
    }

    /// Finds the open port of this name.
    pub fn find(&self, name: &Name) -> Option<PortId>
        ensures port { result ≡ open_port_of self.now name.now }
        ensures names { IsNames self.now }
    {
        match name.kind() {
            Kind::Vale => find_on_switch(&self.switches, name),
            Kind::Master | Kind::Slave => self.pipes.find(name),
            Kind::Monitor => self.monitors.find(name),
        }
    }

    /// Marks the port as shutting: its name stays taken, and finds nothing. Does nothing if no port
    /// has this id.
    pub fn shut(&mut self, id: PortId)
        ensures { self.new ≡ shut_in id.0 self.old }
    {
        shut_on_switches(&mut self.switches, id);
        self.pipes.shut(id);
        self.monitors.shut(id);
    }

    /// Removes the port and frees its name. Does nothing if no port has this id.
    pub fn gone(&mut self, id: PortId)
        ensures { self.new ≡ ports_without id.0 self.old }
    {
        leave_switches(&mut self.switches, id);
        self.pipes.gone(id);
        self.monitors.gone(id);
    }
}
