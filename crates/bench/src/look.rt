ghost use Rattle.std.specs.Prelude.{ℕ, ◌≡◌, ◌<◌, ◌≤◌, [], false, OnOk};
ghost use Rattle.nm_hold.specs.Holds.{empty_hold};
ghost use Rattle.nm_hold.specs.Offsets.{has_port};

use nm_hold::Hold;
use nm_types::{NoMemory, Place, PortId};
use std::alloc::Global;
use std::io;
use std::time::{Clock, Duration, Instant};

/// How many places are looked up.
pub const TURNS: u32 = 10_000_000;

const POOL: u32 = 64;

/// Opens a port with two slots in each ring.
fn open(hold: &mut Hold, port: u32) -> Result<(), NoMemory>
    requires { has_port hold.old.ports port ≡ false }
    ensures cells { hold.new.cells ≡ hold.old.cells }
    ensures later { OnOk result ((other : ℕ) → port < other → has_port hold.new.ports other ≡ has_port hold.old.ports other) }
{
    let room = hold.room(2, 2, 0)?;
    hold.set_port(PortId(port), room);
    Ok(())
}

fn open_ports(hold: &mut Hold, ports: u32) -> Result<(), NoMemory>
    requires { hold.old.ports ≡ [] }
    ensures { hold.new.cells ≡ hold.old.cells }
{
    for port in 0..ports {
        open(hold, port)?;
    }
    Ok(())
}

/// How many of the places that are looked up hold no buffer.
fn count_empty(hold: &Hold, ports: u32) -> usize
    requires { 0 < ports }
{
    (0..TURNS)
        .filter(|turn| hold.index(first_place(*turn % ports)).is_none())
        .count()
}

fn first_place(port: u32) -> Place {
    Place::Tx {
        port: PortId(port),
        slot: 0,
    }
}

fn time_turns<R: Clock>(rt: &R, hold: &Hold, ports: u32) -> io::Result<Duration>
    requires { 0 < ports }
{
    let start = Instant::now(rt)?;
    let empty = count_empty(hold, ports);
    let time = start.elapsed(rt)?;
    if empty == TURNS as usize {
        Ok(time)
    } else {
        Err(io::ErrorKind::InvalidData.into())
    }
}

/// How long it takes to look up places of a hold that has so many ports, one port after another.
pub fn time_look_ups<R: Clock>(rt: &R, alloc: Global, ports: u32) -> io::Result<Duration>
    requires { 0 < ports }
{
    let Ok(mut hold) = Hold::new(alloc, POOL) else {
        return Err(io::ErrorKind::OutOfMemory.into());
    };
    let time = match open_ports(&mut hold, ports) {
        Ok(()) => time_turns(rt, &hold, ports),
        Err(_) => Err(io::ErrorKind::OutOfMemory.into()),
    };
    hold.close();
    time
}
