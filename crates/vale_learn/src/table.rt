ghost use Rattle.std.specs.Prelude.{◌≡◌, ◌+◌, ◌<◌, length, map, bytes_eq, IfOk};
ghost use Rattle.nm_types.specs.Limits.{buckets};
ghost use Rattle.nm_types.specs.Addresses.{word_at};
ghost use Rattle.vale_learn.specs.AddressTable.{bucket_of, no_stations, entry_of, port_of_address, port_if_address, learned, restored, without_port, forgotten};

use nm_types::{BUCKETS, Mac, NoMemory, PortId};
use std::alloc::Global;
use std::marker::Model;
use std::mem::replace;

/// An address and the port behind which it was seen last.
#[derive(Clone, Copy, Debug, PartialEq, Eq)]
pub struct Station {
    pub address: Mac,
    pub port: PortId,
}

/// A switch's learning table. An entry holds one station; the entry of an address is the xor of its
/// three big-endian 16-bit words, modulo 1024.
#[derive(Drop)]
pub struct Table {
    entries: Box<[Option<Station>; BUCKETS]>,
}

impl Model for Table {
    ghost use Rattle.nm_types.specs.Limits.{buckets};
    ghost use Rattle.vale_learn.specs.AddressTable.{Entries};

    ghost Value = { Entries };

    ghost use Rattle.std.specs.Prelude.{◌≡◌, length};

    ghost view = { λ t. t.entries.value };

    ghost invariant = { λ t. length t.entries.value ≡ buckets };
}

fn half_at(address: &Mac, i: usize) -> u32
    requires { i + 1 < 6 }
    ensures { result ≡ word_at address.now.0 i }
{
    256 * u32::from(address.0[i]) + u32::from(address.0[i + 1])
}

fn bucket_of(address: &Mac) -> usize
    ensures value { result ≡ bucket_of address.now.0 }
    ensures within { result < buckets }
{
    let halves = half_at(address, 0) ^ half_at(address, 2) ^ half_at(address, 4);
    halves as usize % BUCKETS
}

/// Whether two addresses are the same, byte by byte.
fn is_same(address: &Mac, other: &Mac) -> bool
    ensures { result ≡ bytes_eq address.now.0 other.now.0 }
{
    for i in 0..6 {
        if address.0[i] != other.0[i] {
            return false;
        }
    }
    true
}

fn port_if_address(entry: &Option<Station>, address: &Mac) -> Option<PortId>
    ensures { result ≡ port_if_address address.now.0 entry.now }
{
    match entry {
        Some(station) if is_same(&station.address, address) => Some(station.port),
        _ => None,
    }
}

/// Empties the entry if it holds a station of `port`.
fn leave_port(entry: &mut Option<Station>, port: PortId)
    ensures { entry.new ≡ without_port port entry.old }
{
    if let Some(station) = entry {
        if station.port == port {
            *entry = None;
        }
    }
}

fn leave_all(entries: &mut [Option<Station>], port: PortId)
    ensures { entries.new ≡ map (without_port port) entries.old }
{
    for entry in entries.iter_mut() {
        leave_port(entry, port);
    }
}

impl Table {
    /// An empty table. No other call takes memory.
    pub fn new(alloc: Global) -> Result<Table, NoMemory>
        ensures { IfOk result (λ table. table ≡ no_stations) }
    {
        Ok(Table {
            entries: Box::new(alloc, [None; BUCKETS])?,
        })
    }

    /// Learns that `address` was seen behind `port`. Its entry no longer holds what it held.
    pub fn learn(&mut self, address: Mac, port: PortId)
        ensures { self.new ≡ learned self.old address port }
    {
        self.entries[bucket_of(&address)] = Some(Station { address, port });
    }

    /// Learns that `address` was seen behind `port`, as `learn` does, and tells what its entry held
    /// before, of whatever address that was.
    pub fn teach(&mut self, address: Mac, port: PortId) -> Option<Station>
        ensures table { self.new ≡ learned self.old address port }
        ensures before { result ≡ entry_of self.old address.0 }
        ensures entries { length self.old ≡ buckets }
    {
        let at = bucket_of(&address);
        replace(&mut self.entries[at], Some(Station { address, port }))
    }

    /// The port behind which `address` was seen, if its entry still holds the address.
    pub fn find(&self, address: Mac) -> Option<PortId>
        ensures found { result ≡ port_of_address self.now address.0 }
        ensures entries { length self.now ≡ buckets }
    {
        port_if_address(&self.entries[bucket_of(&address)], &address)
    }

    /// Empties all entries that hold `port`.
    pub fn forget(&mut self, port: PortId)
        ensures { self.new ≡ forgotten self.old port }
    {
        leave_all(self.entries.as_mut_slice(), port);
    }

    /// What the entry of `address` holds, of whatever address that is.
    pub fn station(&self, address: Mac) -> Option<Station>
        ensures held { result ≡ entry_of self.now address.0 }
        ensures entries { length self.now ≡ buckets }
    {
        self.entries[bucket_of(&address)]
    }

    /// Puts back what the entry of `address` held before, to undo a `learn`.
    pub fn restore(&mut self, address: Mac, station: Option<Station>)
        ensures { self.new ≡ restored self.old address station }
    {
        self.entries[bucket_of(&address)] = station;
    }

    /// Makes the table equal to `other`.
    pub fn copy_from(&mut self, other: &Table)
        ensures { self.new ≡ other.now }
    {
        *self.entries = *other.entries;
    }
}
