ghost use Rattle.std.specs.Prelude.{ℕ, ◌≡◌, ◌≢◌, ◌≤◌, ◌++◌, ◌∷◌, ◌==◌, ◌↔◌, [], true, false};
ghost use Rattle.std.specs.Prelude.{None, Some, IsSome, IsTrue, IfOk, IfSome, filter, not};
ghost use Rattle.std.specs.Prelude.{List, ◌<◌, ◌+◌, find, length, option_map, if◌then◌else◌};
ghost use Rattle.std.specs.Borrow.{sem};
ghost use Rattle.std.specs.Vec.{vec_capacity};
ghost use Rattle.std.specs.Option.{option_copied, option_copied_mut};
ghost use Rattle.nm_types.specs.Limits.{most_ring};
ghost use Rattle.nm_types.specs.Buffers.{IsPoolSize, IsBufferIndex};
ghost use Rattle.nm_types.specs.declared.place.Place.{Place};
ghost use Rattle.nm_types.specs.Places.{is_same_place};
ghost use Rattle.nm_types.specs.Exchange.{exchanged, swapped};
ghost use Rattle.nm_region.specs.Buffers.{Buffer};
ghost use Rattle.nm_hold.specs.declared.table.PortPlaces.{PortPlaces};
ghost use Rattle.nm_hold.specs.Offsets.{AreSizes, has_place, has_port};
ghost use Rattle.nm_hold.specs.Standings.{home_in, cell_named};
ghost use Rattle.nm_hold.specs.Holds.{empty_hold, buffers_of, extra_of, place_at, IsHold};
ghost use Rattle.nm_hold.specs.Holds.{standing_at, buffer_at, is_named_at, named_bytes_at, index_at};
ghost use Rattle.nm_hold.specs.Holds.{places_of, bufs_of, with_cell, SamePlaces, HoldsNothing};
ghost use Rattle.nm_hold.specs.Holds.{size_on, AreNumbers};
ghost use Rattle.nm_hold.specs.Changes.{HasAdded, HasWritten};
ghost use Rattle.nm_types.specs.declared.place.Place.TheVariants.{Tx, Rx};
ghost use Rattle.nm_hold.specs.Renames.{with_places_named, tx_slots};
ghost use Rattle.nm_hold.specs.Takes.{place_in, AreTakenBehind};

use crate::cells::Cells;
use crate::ports::Ports;
use crate::renames::name_cells;
use crate::standing::{Home, Standing};
use crate::table::{PortPlaces, PortTable};
use crate::taking::SlotRun;
use nm_region::Buf;
use nm_types::{NoMemory, Place, PortId, PortSizes, Side};
use std::alloc::Global;
use std::marker::Model;
use std::mem::replace;

/// The memory for one more port of a hold: its places, and a list with room for it and the ports
/// that there are.
#[derive(Drop)]
pub struct PortRoom {
    table: PortTable,
    ports: Ports,
}

impl Model for PortRoom {
    ghost use Rattle.nm_hold.specs.Rooms.{RoomState};

    ghost Value = { RoomState };

    ghost use Rattle.nm_hold.specs.Rooms.{IsRoom};

    ghost view = { λ r. record { sizes = r.table.places.sizes; ports = r.ports.spare } };

    ghost invariant = { IsRoom };
}

/// The places of a session's ports and the buffers in them. It cannot be dropped: `close` ends it
/// once it holds no buffer.
///
/// Finds the place of a buffer at the buffer's index in a list, and the buffer in a place at its
/// offset in the table of the place's port, which is the first one or which a hash map finds: in
/// constant time for any number of ports and buffers.
pub struct Hold {
    cells: Cells,
    ports: Ports,
    alloc: Global,
}

impl Model for Hold {
    ghost use Rattle.nm_hold.specs.Tables.{ports_of};
    ghost use Rattle.nm_hold.specs.Holds.{HoldState};

    ghost Value = { HoldState };

    ghost use Rattle.nm_hold.specs.Stored.{IsStored};

    ghost view = { λ h. record {
      cells = h.cells;
      ports = ports_of h.ports.tables;
    } };

    ghost invariant = { IsStored };
}

impl Hold {
    ghost use Rattle.nm_hold.specs.Lending.{LendsBytesAt, LendsNamedAt};

    /// An empty hold without ports, for a pool of `buffers` buffers.
    pub fn new(alloc: Global, buffers: u32) -> Result<Hold, NoMemory>
        requires { IsPoolSize buffers }
        ensures { IfOk result (λ hold. hold ≡ empty_hold buffers) }
    {
        Ok(Hold {
            cells: Cells::new(alloc, buffers as usize + 2)?,
            ports: Ports::new(alloc),
            alloc,
        })
    }

    /// The memory for one more port of these sizes, none of which is above that of the largest ring,
    /// or the most extra buffers of a port. If it is not used, it is dropped.
    pub fn room(&self, tx: u32, rx: u32, extra: u32) -> Result<PortRoom, NoMemory>
        requires { AreSizes (record { tx = tx; rx = rx; extra = extra }) }
        ensures sizes { IfOk result
            (λ room. room.sizes ≡ record { tx = tx; rx = rx; extra = extra }) }
        ensures ports { IfOk result (λ room. length self.now.ports < room.ports) }
    {
        let table = PortTable::blank(self.alloc, PortSizes { tx, rx, extra })?;
        let ports = self.ports.with_room_for_more(self.alloc)?;
        Ok(PortRoom { table, ports })
    }

    /// Adds a port, whose places hold nothing. It takes no more memory, and its cost grows with the
    /// number of ports.
    pub fn set_port(&mut self, port: PortId, room: PortRoom)
        requires room { length self.old.ports < room.ports }
        requires new { has_port self.old.ports port.0 ≡ false }
        ensures ports { self.new ≡ record self.old {
          ports = self.old.ports ++ record { port = port; sizes = room.sizes } ∷ [];
        } }
        ensures hold { IsHold self.new }
    {
        let PortRoom { mut table, ports } = room;
        let others = replace(&mut self.ports, ports);
        self.ports.take_over(others);
        table.places.port = port;
        self.ports.push(table);
    }

    /// Removes the places of a port, which hold nothing.
    pub fn drop_port(&mut self, port: PortId)
        requires { HoldsNothing self.old port.0 }
        ensures ports { self.new ≡ record self.old {
          ports = filter (λ (p : PortPlaces). not (p.port.0 == port.0)) self.old.ports;
        } }
        ensures hold { IsHold self.new }
    {
        self.ports.remove(port);
    }

    /// The number of extra positions of a port, 0 if there is no such port.
    pub fn extra_count(&self, port: PortId) -> u32
        ensures extras { result ≡ extra_of self.now.ports port.0 }
        ensures hold { IsHold self.now }
    {
        match self.ports.table(port) {
            Some(table) => table.places.sizes.extra,
            None => 0,
        }
    }

    /// The index of the buffer in a place.
    pub fn index(&self, place: Place) -> Option<u32>
        ensures index { result ≡ index_at self.now place }
        ensures hold { IsHold self.now }
    {
        let idx = self.ports.number(place);
        if idx == 0 { None } else { Some(idx) }
    }

    /// The indices of the buffers in the slots of a port's ring, by position, 0 where there is
    /// none; none of them if there is no such port.
    pub fn numbers(&self, port: PortId, side: Side) -> Option<&[u32]>
        ensures count { option_map (λ (ns : List ℕ). length ns) (option_copied result)
            ≡ option_map (λ (p : PortPlaces). size_on side p.sizes)
            (find (λ (p : PortPlaces). p.port.0 == port.0) self.now.ports) }
        ensures numbers { IfSome (option_copied result) (AreNumbers self.now side port) }
        ensures hold { IsHold self.now }
    {
        match self.ports.table(port) {
            Some(table) => Some(table.slots(side)),
            None => None,
        }
    }

    /// Where the buffer of an index stands.
    fn home_at(&self, idx: u32) -> Option<Home>
        ensures home { result ≡ home_in (standing_at self.now idx) }
        ensures hold { IsHold self.now }
    {
        match self.cells.get(idx) {
            Some(standing) => Some(standing.home),
            None => None,
        }
    }

    /// The place of the buffer of an index.
    pub fn place(&self, idx: u32) -> Option<Place>
        ensures place { result ≡ place_at self.now idx }
        ensures hold { IsHold self.now }
    {
        match self.home_at(idx) {
            Some(home) => Some(home.place),
            None => None,
        }
    }

    /// Whether the buffer of an index is one of the session's named ones.
    pub fn named(&self, idx: u32) -> bool
        ensures named { result ≡ is_named_at self.now idx }
        ensures hold { IsHold self.now }
    {
        match self.home_at(idx) {
            Some(home) => home.named,
            None => false,
        }
    }

    /// The buffer of an index, named or not.
    pub fn buffer(&self, idx: u32) -> Option<&Buf>
        ensures buffer { option_copied result ≡ buffer_at self.now idx }
        ensures hold { IsHold self.now }
    {
        match self.cells.get(idx) {
            Some(standing) => Some(&standing.buf),
            None => None,
        }
    }

    /// The bytes of a named buffer.
    pub fn bytes(&self, idx: u32) -> Option<&[u8]>
        ensures bytes { option_copied result ≡ named_bytes_at self.now idx }
        ensures hold { IsHold self.now }
    {
        match self.cells.get(idx) {
            Some(standing) if standing.home.named => Some(standing.buf.bytes()),
            _ => None,
        }
    }

    /// The bytes of a named buffer, to be written. The hold then has what was written there, and is
    /// otherwise unchanged.
    pub fn bytes_mut(&mut self, idx: u32) -> Option<&mut [u8]>
        ensures* writes_back { sem 𝓛 (LendsNamedAt self.entry idx result) }
        ensures bytes { option_copied_mut result ≡ named_bytes_at self.old idx }
    {
        if self.finds_named(idx) {
            Some(self.lend(idx))
        } else {
            None
        }
    }

    /// `named`, asked through the reference that `bytes_mut` has.
    fn finds_named(&mut self, idx: u32) -> bool
        ensures named { result ≡ is_named_at self.old idx }
        ensures same { self.new ≡ self.old }
    {
        self.named(idx)
    }

    /// The bytes, to be written, of a buffer that is a named one. A caller's proof knows what is
    /// written there.
    pub fn lend(&mut self, idx: u32) -> &mut [u8]
        requires { is_named_at self.old idx ≡ true }
        ensures* writes_back { sem 𝓛 (LendsBytesAt self.entry idx result) }
        ensures bytes { named_bytes_at self.old idx ≡ Some result.now }
    {
        self.cells.bytes_mut(idx)
    }

    /// Writes bytes over the first ones of a named buffer.
    pub fn write(&mut self, idx: u32, bytes: &[u8])
        requires named { is_named_at self.old idx ≡ true }
        requires fits { length bytes.now ≤ 2048 }
        ensures { HasWritten self.old self.new idx bytes.now }
    {
        if self.write_at(idx, bytes) {
            // the other buffer of its page
            self.cells.prepare(idx ^ 1);
        }
    }

    /// Writes bytes over the first ones of a named buffer, and tells whether they are the first ones
    /// that are written there.
    fn write_at(&mut self, idx: u32, bytes: &[u8]) -> bool
        requires named { is_named_at self.old idx ≡ true }
        requires fits { length bytes.now ≤ 2048 }
        ensures { HasWritten self.old self.new idx bytes.now }
    {
        let standing = self.cells.standing_mut(idx);
        let is_fresh = standing.buf.prepare();
        standing.buf.write(bytes);
        is_fresh
    }

    /// Puts a buffer into an empty place of one of the hold's ports. It is not a named buffer yet.
    pub fn add(&mut self, place: Place, buf: Buf)
        requires belongs { has_place self.old.ports place ≡ true }
        requires empty { index_at self.old place ≡ None }
        requires index { IsBufferIndex (buffers_of self.old) buf.index }
        requires apart { standing_at self.old buf.index ≡ None }
        ensures { HasAdded self.old self.new place false buf }
    {
        self.add_named(place, buf, false);
    }

    /// Puts a buffer into an empty place of one of the hold's ports, as a named one or not.
    pub fn add_named(&mut self, place: Place, buf: Buf, named: bool)
        requires belongs { has_place self.old.ports place ≡ true }
        requires empty { index_at self.old place ≡ None }
        requires index { IsBufferIndex (buffers_of self.old) buf.index }
        requires apart { standing_at self.old buf.index ≡ None }
        ensures { HasAdded self.old self.new place named buf }
    {
        let idx = buf.index();
        let home = Home { place, named };
        self.cells.put(idx, Standing { home, buf });
        self.ports.replace(place, idx);
    }

    /// Puts the buffer of a received frame into an empty slot of a port's receive ring. It is a named
    /// one.
    pub fn add_received(&mut self, port: PortId, slot: u32, buf: Buf)
        requires belongs { has_place self.old.ports (Rx port slot) ≡ true }
        requires empty { index_at self.old (Rx port slot) ≡ None }
        requires index { IsBufferIndex (buffers_of self.old) buf.index }
        requires apart { standing_at self.old buf.index ≡ None }
        ensures { HasAdded self.old self.new (Rx port slot) true buf }
    {
        let idx = buf.index();
        let place = Place::Rx { port, slot };
        let home = Home { place, named: true };
        self.cells.put(idx, Standing { home, buf });
        self.ports.put_received(port, slot, idx);
    }

    /// Takes the buffer out of a place.
    pub fn remove(&mut self, place: Place) -> Buf
        requires { IsSome (index_at self.old place) }
        ensures index { index_at self.old place ≡ Some result.index }
        ensures buffer { buffer_at self.old result.index ≡ Some result }
        ensures cell { self.new ≡ with_cell self.old result.index None }
        ensures places { (p : Place) → index_at self.new p
            ≡ (if is_same_place place p then None else index_at self.old p) }
        ensures hold { IsHold self.new }
    {
        let idx = self.ports.replace(place, 0);
        self.cells.take(idx)
    }

    /// Makes the buffer in a place a named one, or one that is not named.
    pub fn set_named(&mut self, place: Place, named: bool)
        requires { IsSome (index_at self.old place) }
        ensures cell { (idx : ℕ) → index_at self.old place ≡ Some idx
            → self.new ≡ with_cell self.old idx (cell_named named (standing_at self.old idx)) }
        ensures places { SamePlaces (places_of self.old) (places_of self.new) }
        ensures hold { IsHold self.new }
    {
        let idx = self.ports.number(place);
        self.cells.rename(idx, named);
    }

    /// Exchanges the buffer in a place and a named buffer. Each keeps its bytes, and a place whose
    /// buffer was a named one keeps a named one.
    pub fn exchange(&mut self, place: Place, idx: u32)
        requires held { IsSome (index_at self.old place) }
        requires named { is_named_at self.old idx ≡ true }
        ensures places { SamePlaces (exchanged (places_of self.old) place idx) (places_of self.new) }
        ensures buffers { (i : ℕ) → buffer_at self.new i ≡ buffer_at self.old i }
        ensures all { bufs_of self.new ≡ bufs_of self.old }
        ensures named { (was i : ℕ) → index_at self.old place ≡ Some was
            → is_named_at self.new i ≡ is_named_at self.old (swapped was idx i) }
        ensures ports { self.new.ports ≡ self.old.ports }
        ensures hold { IsHold self.new }
    {
        let there = self.cells.standing(idx).home;
        let was = self.ports.displace(place, idx, there.place);
        if was == idx {
            return;
        }
        let here = replace(&mut self.cells.standing_mut(was).home, there);
        self.cells.standing_mut(idx).home = here;
    }

    /// Whether it holds no buffer, so that it may be closed.
    pub fn is_empty(&self) -> bool
        ensures { IsTrue result ↔ ((idx : ℕ) → standing_at self.now idx ≡ None) }
    {
        self.cells.is_empty()
    }

    /// Ends a hold that holds no buffer.
    pub fn close(self)
        requires { (idx : ℕ) → standing_at self idx ≡ None }
    {
        let Hold {
            cells,
            ports: _,
            alloc: _,
        } = self;
        cells.destroy();
    }

    /// Makes the buffers in `count` transmit slots of a port, from the first one on and going round
    /// at `size`, named ones, or ones that are not named.
    pub fn name_slots(&mut self, port: PortId, size: u32, first: u32, count: u32, named: bool)
        requires size { size ≤ most_ring }
        requires first { first < size }
        requires count { count ≤ size }
        requires held { (at : ℕ) → at < size → IsSome (index_at self.old (Tx port at)) }
        ensures cells { self.new
            ≡ with_places_named named (tx_slots port size first count) self.old }
        ensures hold { IsHold self.new }
    {
        match self.ports.table(port) {
            Some(table) => {
                let numbers = table.slots(Side::Tx);
                name_cells(&mut self.cells, numbers, size, first, count, named);
            }
            None => unreachable!(),
        }
    }

    /// Takes the buffers out of the first `count` slots of a run, in their order.
    pub fn take_slots(&mut self, run: SlotRun, count: u32, back: &mut Vec<Buf>)
        requires size { run.size ≤ most_ring }
        requires first { run.first < run.size }
        requires count { count ≤ run.size }
        requires held { (k : ℕ) → k < count → IsSome (index_at self.old (place_in run k)) }
        requires room { length back.old.items + count ≤ vec_capacity back.old }
        ensures taken { AreTakenBehind self.old run count self.new
            back.old.items back.new.items }
        ensures capacity { vec_capacity back.new ≡ vec_capacity back.old }
        ensures hold { IsHold self.new }
    {
        self.ports.take_slots(&mut self.cells, run, count, back);
    }
}
