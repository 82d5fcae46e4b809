ghost use Rattle.std.specs.Prelude.{◌≡◌, ◌==◌, ◌≤◌, ◌<◌, ◌+◌, ◌++◌, ◌∷◌, [], All, IfOk, IfSome};
ghost use Rattle.std.specs.Prelude.{false, true, length, not, filter, find, map, nat_eq, option_map};
ghost use Rattle.std.specs.Prelude.{ℕ, Some};
ghost use Rattle.std.specs.HashMap.{get};
ghost use Rattle.std.specs.Vec.{vec_capacity, with_item};
ghost use Rattle.std.specs.Option.{option_copied};
ghost use Rattle.nm_types.specs.Limits.{most_ring};
ghost use Rattle.nm_types.specs.declared.place.Place.TheVariants.{Rx};
ghost use Rattle.nm_hold.specs.declared.table.PortTable.{PortTable};
ghost use Rattle.nm_hold.specs.Offsets.{has_place, has_port, ArePortsOnce};
ghost use Rattle.nm_hold.specs.Holds.{port_of};
ghost use Rattle.nm_hold.specs.Tables.{number_at, ports_of, put_in, IsTable};
ghost use Rattle.nm_hold.specs.Indexed.{tables_present, port_in, port_at, number_in_row, IsIndexed};
ghost use Rattle.nm_hold.specs.Takes.{place_in, AreTakenBehind};
ghost use Rattle.nm_hold.specs.Ties.{AreHeld};

use crate::cells::Cells;
use crate::table::PortTable;
use crate::taking::{SlotRun, take_run};
use nm_region::Buf;
use nm_types::{Place, PortId};
use std::alloc::{AllocError, Global};
use std::collections::HashMap;
use std::marker::Model;

/// The tables of a session's ports, in the order in which the ports were added. The table of a port
/// is found by its number: it is in the first row, or a hash map finds its row.
#[derive(Drop)]
pub(crate) struct Ports {
    // a removed port leaves its row empty until other ports take over
    rows: Vec<Option<PortTable>>,
    indices: HashMap<u32, usize>,
}

impl Model for Ports {
    ghost use Rattle.std.specs.Prelude.{nat_eq, min, ◌-◌};
    ghost use Rattle.std.specs.Vec.{vec_len, vec_capacity};
    ghost use Rattle.std.specs.HashMap.{get, spare};
    ghost use Rattle.nm_hold.specs.PortLists.{PortList};

    ghost Value = { PortList };

    ghost use Rattle.nm_hold.specs.Indexed.{tables_present, IsIndexed};

    ghost view = { λ p. record {
      tables = tables_present p.rows.items;
      spare = min (vec_capacity p.rows - vec_len p.rows) (spare p.indices);
    } };

    ghost invariant = { λ p. IsIndexed p.rows.items (get nat_eq p.indices) };
}

impl Ports {
    /// No ports. Takes no memory.
    pub(crate) fn new(alloc: Global) -> Ports
        ensures { result.tables ≡ [] }
    {
        Ports {
            rows: Vec::new(alloc),
            indices: HashMap::new(alloc),
        }
    }

    /// The table of a port.
    pub(crate) fn table(&self, port: PortId) -> Option<&PortTable>
        ensures table { option_copied result
            ≡ find (λ (t : PortTable). t.places.port.0 == port.0) self.now.tables }
        ensures once { ArePortsOnce (ports_of self.now.tables) }
    {
        if is_first(&self.rows, port) {
            return self.rows[0].as_ref();
        }
        match row_in(&self.indices, port) {
            Some(at) => self.rows[at].as_ref(),
            None => None,
        }
    }

    /// The index of the buffer in a place, 0 if it holds none.
    pub(crate) fn number(&self, place: Place) -> u32
        requires { All IsTable self.now.tables }
        ensures { result ≡ number_at self.now.tables place }
    {
        match self.table(port_of(place)) {
            Some(table) => table.number(place),
            None => 0,
        }
    }

    /// Puts the index of a buffer at a place, if it is one of these ports'. Returns the one that was
    /// there, 0 if it held none.
    pub(crate) fn replace(&mut self, place: Place, number: u32) -> u32
        requires { All IsTable self.old.tables }
        ensures number { result ≡ number_at self.old.tables place }
        ensures tables { self.new.tables ≡ map (put_in place number) self.old.tables }
        ensures spare { self.new.spare ≡ self.old.spare }
    {
        if is_first(&self.rows, port_of(place)) {
            return replace_at(&mut self.rows[0], place, number);
        }
        self.replace_by_map(place, number)
    }

    /// Does what `replace` does, in the row that the map finds.
    fn replace_by_map(&mut self, place: Place, number: u32) -> u32
        requires { All IsTable self.old.tables }
        ensures number { result ≡ number_at self.old.tables place }
        ensures tables { self.new.tables ≡ map (put_in place number) self.old.tables }
        ensures spare { self.new.spare ≡ self.old.spare }
    {
        match row_in(&self.indices, port_of(place)) {
            Some(at) => replace_at(&mut self.rows[at], place, number),
            None => 0,
        }
    }

    /// Puts the index of a buffer at a receive slot of one of these ports.
    pub(crate) fn put_received(&mut self, port: PortId, slot: u32, number: u32)
        requires tables { All IsTable self.old.tables }
        requires there { has_place (ports_of self.old.tables) (Rx port slot) ≡ true }
        ensures { self.new.tables ≡ map (put_in (Rx port slot) number) self.old.tables }
    {
        if is_of(&self.rows[0], port) {
            put_received_at(&mut self.rows[0], slot, number);
            return;
        }
        self.replace_by_map(Place::Rx { port, slot }, number);
    }

    /// Puts the index of a buffer at a place, and the one that was there at another place. Returns
    /// the latter. If both places are of one port, its row is found once.
    pub(crate) fn displace(&mut self, place: Place, number: u32, other: Place) -> u32
        requires { All IsTable self.old.tables }
        ensures number { result ≡ number_at self.old.tables place }
        ensures tables { self.new.tables
            ≡ map (put_in other result) (map (put_in place number) self.old.tables) }
    {
        if port_of(place) != port_of(other) {
            let was = self.replace(place, number);
            self.replace(other, was);
            return was;
        }
        match row_of(&self.rows, &self.indices, port_of(place)) {
            Some(at) => displace_at(&mut self.rows[at], place, number, other),
            None => 0,
        }
    }

    /// Takes the buffers out of the first `count` slots of a run, in their order.
    pub(crate) fn take_slots(
        &mut self,
        cells: &mut Cells,
        run: SlotRun,
        count: u32,
        back: &mut Vec<Buf>,
    )
        requires whole { AreHeld cells.old self.old.tables }
        requires size { run.size ≤ most_ring }
        requires first { run.first < run.size }
        requires count { count ≤ run.size }
        requires held { (k : ℕ) → k < count → 0 < number_at self.old.tables (place_in run k) }
        requires room { length back.old.items + count ≤ vec_capacity back.old }
        ensures whole { AreHeld cells.new self.new.tables }
        ensures taken { AreTakenBehind
            (record { cells = cells.old; ports = ports_of self.old.tables }) run count
            (record { cells = cells.new; ports = ports_of self.new.tables })
            back.old.items back.new.items }
        ensures capacity { vec_capacity back.new ≡ vec_capacity back.old }
    {
        take_run(&mut self.rows, &self.indices, cells, run, count, back);
    }

    /// Adds the table of a new port, for which there is room.
    pub(crate) fn push(&mut self, table: PortTable)
        requires room { 0 < self.old.spare }
        requires new { has_port (ports_of self.old.tables) table.places.port.0 ≡ false }
        ensures tables { self.new.tables ≡ self.old.tables ++ table ∷ [] }
        ensures spare { self.old.spare ≤ self.new.spare + 1 }
    {
        let port = table.places.port;
        let at = self.rows.len();
        self.rows.push_reserved(Some(table));
        match self.indices.insert(port.0, at) {
            Ok(_new) => {}
            Err(_failed) => unreachable!(),
        }
    }

    /// Removes the table of a port.
    pub(crate) fn remove(&mut self, port: PortId)
        ensures tables { self.new.tables
            ≡ filter (λ (t : PortTable). not (t.places.port.0 == port.0)) self.old.tables }
        ensures spare { self.old.spare ≤ self.new.spare }
    {
        if let Some(at) = self.indices.remove(&port.0) {
            self.rows[at] = None;
        }
    }

    /// No ports, with room for as many as these and one more.
    pub(crate) fn with_room_for_more(&self, alloc: Global) -> Result<Ports, AllocError>
        ensures tables { IfOk result (λ ports. ports.tables ≡ []) }
        ensures spare { IfOk result (λ ports. length self.now.tables < ports.spare) }
    {
        let count = self.rows.as_slice().len() + 1;
        let rows = Vec::with_capacity(alloc, count)?;
        let mut indices = HashMap::new(alloc);
        indices.reserve(count)?;
        Ok(Ports { rows, indices })
    }

    /// Takes over the tables of other ports in their order, for which there is room here.
    pub(crate) fn take_over(&mut self, others: Ports)
        requires empty { self.old.tables ≡ [] }
        requires room { length others.tables ≤ self.old.spare }
        ensures tables { self.new.tables ≡ others.tables }
        ensures spare { self.old.spare ≤ self.new.spare + length others.tables }
    {
        let Ports {
            mut rows,
            indices: _,
        } = others;
        rows.reverse();
        while let Some(row) = rows.pop() {
            self.push_row(row);
        }
    }

    /// Adds the table of a row, if it has one.
    fn push_row(&mut self, row: Option<PortTable>)
        requires room { IfSome row (λ table. 0 < self.old.spare) }
        requires new { IfSome row
            (λ table. has_port (ports_of self.old.tables) table.places.port.0 ≡ false) }
        ensures tables { self.new.tables ≡ self.old.tables ++ tables_present (row ∷ []) }
        ensures spare { self.old.spare + length self.old.tables
            ≤ self.new.spare + length self.new.tables }
    {
        if let Some(table) = row {
            self.push(table);
        }
    }
}

/// Whether a row has the table of a port.
fn is_of(row: &Option<PortTable>, port: PortId) -> bool
    ensures { result ≡ true → port_in row.now ≡ Some port.0 }
{
    match row {
        Some(table) => table.places.port.0 == port.0,
        None => false,
    }
}

/// Whether the first row has the table of a port.
fn is_first(rows: &[Option<PortTable>], port: PortId) -> bool
    ensures { result ≡ true → port_at rows.now 0 ≡ Some port.0 }
{
    match rows.first() {
        Some(row) => is_of(row, port),
        None => false,
    }
}

/// The row of a port's table, by the map.
fn row_in(indices: &HashMap<u32, usize>, port: PortId) -> Option<usize>
    ensures { result ≡ get nat_eq indices.now port.0 }
{
    match indices.get(&port.0) {
        Some(at) => Some(*at),
        None => None,
    }
}

/// The row of a port's table. The first row is tried before the map.
pub(crate) fn row_of(
    rows: &[Option<PortTable>],
    indices: &HashMap<u32, usize>,
    port: PortId,
) -> Option<usize>
    requires { IsIndexed rows.now (get nat_eq indices.now) }
    ensures row { result ≡ get nat_eq indices.now port.0 }
    ensures within { IfSome result (λ at. at < length rows.now) }
{
    if is_first(rows, port) {
        return Some(0);
    }
    row_in(indices, port)
}

/// The port of a place.
fn port_of(place: Place) -> PortId
    ensures { result.0 ≡ port_of place }
{
    match place {
        Place::Tx { port, slot: _ } | Place::Rx { port, slot: _ } => port,
        Place::Extra { port, at: _ } => port,
    }
}

/// Stores a number at a place of the port of a row. Returns the one that was there.
fn replace_at(row: &mut Option<PortTable>, place: Place, number: u32) -> u32
    requires { IfSome row.old IsTable }
    ensures number { result ≡ number_in_row row.old place }
    ensures row { row.new ≡ option_map (put_in place number) row.old }
{
    match row {
        Some(table) => table.replace(place, number),
        None => 0,
    }
}

/// Stores a number at a receive slot of the port of a row.
fn put_received_at(row: &mut Option<PortTable>, slot: u32, number: u32)
    requires { IfSome row.old
        (λ t. t.places.sizes.tx + slot < length t.numbers.items) }
    ensures { row.new ≡ option_map (λ (t : PortTable). record t {
      numbers = with_item t.numbers (t.places.sizes.tx + slot) number;
    }) row.old }
{
    if let Some(table) = row {
        let at = table.places.sizes.tx as usize + slot as usize;
        table.numbers[at] = number;
    }
}

/// Stores a number at a place of the port of a row, and the one that was there at another place.
/// Returns the latter.
fn displace_at(row: &mut Option<PortTable>, place: Place, number: u32, other: Place) -> u32
    requires { IfSome row.old IsTable }
    ensures number { result ≡ number_in_row row.old place }
    ensures row { row.new
        ≡ option_map (put_in other result) (option_map (put_in place number) row.old) }
{
    let was = replace_at(row, place, number);
    replace_at(row, other, was);
    was
}
