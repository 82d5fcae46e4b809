ghost use Rattle.std.specs.Prelude.{◌≡◌, ◌≤◌, ◌==◌, length, position, true, IsTrue, IfOk, IfSome, IfNone};
ghost use Rattle.std.specs.List.{prefix_len};
ghost use Rattle.vale_port.specs.Words.{list_any, open_port, port_at, shutting_port};
ghost use Rattle.vale_port.specs.Words.{switch_of};
ghost use Rattle.vale_port.specs.Lists.{IsFoundAt, IsNotFound, AreOpenOn};
ghost use Rattle.vale_port.specs.Ports.{AreByRisingIds, open_ids, is_state_before, is_state_of, is_open_id_on, is_open_state, is_shutting_state};

use crate::port::{Port, last_byte};
use nm_types::{Name, NoMemory, PortId};
use std::alloc::Global;
use vale_line::Lease;

/// Counts the ports whose ids are smaller.
fn rank_of(ports: &[Port], id: PortId) -> usize
    requires { AreByRisingIds ports.now }
    ensures rank { result ≡ prefix_len (is_state_before id.0) ports.now }
    ensures within { result ≤ length ports.now }
{
    ports.partition_point(|port| port.id().0 < id.0)
}

fn place_by_halves(ports: &[Port], id: PortId) -> Option<usize>
    requires { AreByRisingIds ports.now }
    ensures { result ≡ position (is_state_of id.0) ports.now }
{
    let at = rank_of(ports, id);
    if at < ports.len() && ports[at].id() == id {
        Some(at)
    } else {
        None
    }
}

fn open_place_by_halves(ports: &[Port], id: PortId) -> Option<usize>
    requires { AreByRisingIds ports.now }
    ensures { result ≡ position (is_open_state id.0) ports.now }
{
    let at = rank_of(ports, id);
    if at < ports.len() && ports[at].is_open_at(id) {
        Some(at)
    } else {
        None
    }
}

fn place_of_open(ports: &[Port], id: PortId) -> Option<usize>
    ensures { result ≡ position (is_open_state id.0) ports.now }
{
    ports.iter().position(|port| port.is_open_at(id))
}

fn place_of_shutting(ports: &[Port], id: PortId) -> Option<usize>
    ensures { result ≡ position (is_shutting_state id.0) ports.now }
{
    ports.iter().position(|port| port.is_shutting_at(id))
}

/// Returns the place of the open port of this id.
pub fn open_port(ports: &[Port], id: PortId) -> Option<usize>
    ensures some { IfSome result (IsFoundAt (λ all. open_port all id.0) ports.now) }
    ensures none { IfNone result (IsNotFound (λ all. open_port all id.0) ports.now) }
{
    place_of_open(ports, id)
}

/// Returns the place of the shutting port of this id.
pub fn shutting_port(ports: &[Port], id: PortId) -> Option<usize>
    ensures some { IfSome result (IsFoundAt (λ all. shutting_port all id.0) ports.now) }
    ensures none { IfNone result (IsNotFound (λ all. shutting_port all id.0) ports.now) }
{
    place_of_shutting(ports, id)
}

/// Returns the place of the open port of this id, to which frames are offered or which its session
/// syncs. It looks at few of the ports.
pub fn offered_port(ports: &[Port], to: PortId) -> Option<usize>
    requires { AreByRisingIds ports.now }
    ensures some { IfSome result (IsFoundAt (λ all. open_port all to.0) ports.now) }
    ensures none { IfNone result (IsNotFound (λ all. open_port all to.0) ports.now) }
{
    open_place_by_halves(ports, to)
}

/// Returns the place of the port that a lease is of, open or shutting. It looks at few of the ports.
pub fn leased_port(ports: &[Port], lease: &Lease) -> Option<usize>
    requires { AreByRisingIds ports.now }
    ensures some { IfSome result (IsFoundAt (λ all. port_at all lease.now.to) ports.now) }
    ensures none { IfNone result (IsNotFound (λ all. port_at all lease.now.to) ports.now) }
{
    place_by_halves(ports, lease.to())
}

#[tactic(auto, using(crate::proofs::OnSwitch::switches))]
fn ids_on(alloc: Global, ports: &[Port], name: &Name) -> Result<Vec<PortId>, NoMemory>
    ensures { IfOk result (λ ids. ids.items ≡ open_ids (switch_of name.now) ports.now) }
{
    let switch = name.switch();
    let last = last_byte(switch);
    let mut ids = Vec::with_capacity(alloc, ports.len())?;
    for port in ports {
        if port.is_open_on(switch, last) {
            ids.push_reserved(port.id());
        }
    }
    Ok(ids)
}

/// Returns the ids of the open ports on the switch of a name, in the order of the ports.
pub fn open_ports_on(alloc: Global, ports: &[Port], name: &Name) -> Result<Vec<PortId>, NoMemory>
    ensures open { IfOk result (λ ids. AreOpenOn (switch_of name.now) ports.now ids.items) }
    ensures ids { IfOk result (λ ids. ids.items ≡ open_ids (switch_of name.now) ports.now) }
{
    ids_on(alloc, ports, name)
}

/// Tells whether the port at a place is open, of this id and on the switch of a name.
fn stands_open_on(ports: &[Port], at: usize, id: PortId, name: &Name) -> bool
    ensures { IsTrue result
        → list_any (is_open_id_on (switch_of name.now) id.0) ports.now ≡ true }
{
    at < ports.len() && ports[at].is_open_at(id) && ports[at].is_open_beside(name)
}

fn has_open_on(ports: &[Port], id: PortId, name: &Name) -> bool
    ensures { result ≡ list_any (is_open_id_on (switch_of name.now) id.0) ports.now }
{
    ports
        .iter()
        .any(|port| port.is_open_at(id) && port.is_open_beside(name))
}

/// The same, looked for first where the port stands if the ports are by rising ids.
fn has_open_near(ports: &[Port], id: PortId, name: &Name) -> bool
    ensures { result ≡ list_any (is_open_id_on (switch_of name.now) id.0) ports.now }
{
    let at = ports.partition_point(|port| port.id().0 < id.0);
    stands_open_on(ports, at, id, name) || has_open_on(ports, id, name)
}

/// Tells whether the port of this id is one of the open ports on the switch of a name.
pub fn is_open_on(ports: &[Port], id: PortId, name: &Name) -> bool
    ensures { result
        ≡ list_any (λ port. port.0 == id.0) (open_ids (switch_of name.now) ports.now) }
{
    has_open_near(ports, id, name)
}
