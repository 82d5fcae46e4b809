//! The ports of a history, in the order of their opening.
ghost use Rattle.std.specs.Prelude.{◌≡◌, ◌<◌, ◌-◌, ◌^◌, length, IfOk};
ghost use Rattle.vale_told.specs.ByPort.{told_in};
ghost use Rattle.vale_told.specs.Ports.{port_opened, ports_told, total_of};

use crate::ends::is_opened;
use crate::listed::push_some;
use crate::tally::Tally;
use crate::told::{Told, told_by_port, told_in};
use nm_types::{Name, NoMemory};
use std::alloc::Global;
use std::collections::HashMap;
use vale_entry::{Ask, Entry};

/// A port that was opened.
#[derive(Clone, Copy)]
pub struct Port {
    /// Its number, which is that of the entry that opened it.
    pub id: u32,
    /// The session that opened it.
    pub session: u32,
    pub name: Name,
    /// Slots of its transmit ring, of its receive ring, and extra buffers.
    pub tx: u32,
    pub rx: u32,
    pub extra: u32,
    /// What all entries tell of it.
    pub told: Told,
}

/// The port that an entry of this number opens.
fn port_opened(by_port: &HashMap<u32, Told>, number: u32, entry: &Entry) -> Option<Port>
    ensures { result ≡ port_opened (told_in by_port.now) number entry.now }
{
    match &entry.ask {
        Ask::Open {
            session,
            name,
            tx,
            rx,
            extra,
        } if is_opened(&entry.reply) => Some(Port {
            id: number,
            session: session.0,
            name: *name,
            tx: *tx,
            rx: *rx,
            extra: *extra,
            told: told_in(by_port, number),
        }),
        _ => None,
    }
}

/// Lists the ports that were opened, in the order of their opening.
pub fn ports(alloc: Global, entries: &[Entry]) -> Result<Vec<Port>, NoMemory>
    requires { length entries.now < 2 ^ 32 - 1 }
    ensures { IfOk result (λ ports. ports.items ≡ ports_told entries.now) }
{
    let by_port = told_by_port(alloc, entries)?;
    let mut ports = Vec::new(alloc);
    for (i, entry) in entries.iter().enumerate() {
        push_some(&mut ports, port_opened(&by_port, i as u32 + 1, entry))?;
    }
    Ok(ports)
}

/// Adds up what is told of all of the ports.
pub fn total(ports: &[Port]) -> Result<Tally, NoMemory>
    ensures { IfOk result (λ total. total ≡ total_of ports.now) }
{
    let mut total = Tally::ZERO;
    for port in ports {
        total = total.plus(port.told.tally)?;
    }
    Ok(total)
}
