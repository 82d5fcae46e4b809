ghost use Rattle.std.specs.Prelude.{ℕ, ◌≡◌, ◌<◌, ◌≤◌, None, Some, length, nat_eq, true};
ghost use Rattle.nm_types.specs.Limits.{most_ring};
ghost use Rattle.nm_port.specs.Words.{AllByRecursion, IsBufferIndex, IsDistinct, IsHold, Place};
ghost use Rattle.nm_port.specs.Words.{buffers_of, has_place, index_at, indices_of, is_same_place};
ghost use Rattle.nm_port.specs.Words.{standing_at, with_cell};
ghost use Rattle.std.specs.Prelude.{if◌then◌else◌};
ghost use Rattle.nm_port.specs.Regions.{AreOf, HoldsOf};
ghost use Rattle.nm_port.specs.Filling.{place_in, first_bytes, placed, IsAway, AreFilledWith};

use nm_extra::link;
use nm_hold::Hold;
use nm_region::Buf;
use nm_types::{Place, PortId};

/// Places of a port that hold a buffer from its opening on.
#[derive(Clone, Copy)]
pub enum Row {
    /// The transmit slots.
    Slots,
    /// The extra positions, each of whose buffers links to the next.
    Extras,
}

/// A place of a row.
fn place_in(port: PortId, row: Row, at: u32) -> Place
    ensures { result ≡ place_in port row at }
{
    match row {
        Row::Slots => Place::Tx { port, slot: at },
        Row::Extras => Place::Extra { port, at },
    }
}

/// Clears a buffer, and links an extra one to the next.
fn clear(buf: &mut Buf, row: Row, next: u32)
    ensures { buf.new ≡ record buf.old { bytes = first_bytes row next } }
{
    buf.clear_behind(0);
    match row {
        Row::Slots => {}
        Row::Extras => link(buf, next),
    }
}

/// Puts a buffer into an empty place, whose buffer is a named one or not.
pub fn put(hold: &mut Hold, place: Place, buf: Buf, named: bool)
    requires hold { IsHold hold.old }
    requires belongs { has_place hold.old.ports place ≡ true }
    requires empty { index_at hold.old place ≡ None }
    requires index { IsBufferIndex (buffers_of hold.old) buf.index }
    requires apart { standing_at hold.old buf.index ≡ None }
    ensures cell { hold.new ≡ with_cell hold.old buf.index (Some (placed place named buf)) }
    ensures places { (q : Place) → index_at hold.new q
        ≡ (if is_same_place place q then Some buf.index else index_at hold.old q) }
    ensures hold { IsHold hold.new }
{
    hold.add_named(place, buf, named);
}

/// Puts buffers into the empty places of a row of a port, the last one first. The first `named` of
/// them are named ones.
pub fn fill(hold: &mut Hold, port: PortId, row: Row, named: u32, all: Vec<Buf>)
    requires hold { IsHold hold.old }
    requires belongs { (at : ℕ) → at < length all.items
        → has_place hold.old.ports (place_in port row at) ≡ true }
    requires empty { (at : ℕ) → index_at hold.old (place_in port row at) ≡ None }
    requires away { AllByRecursion (IsAway hold.old) (indices_of all.items) }
    requires once { IsDistinct nat_eq (indices_of all.items) }
    requires few { length all.items ≤ most_ring }
    ensures filled { AreFilledWith hold.old hold.new port row named 0 (indices_of all.items) }
    ensures region { (region : ℕ) → AreOf region all.items → HoldsOf region hold.old
        → HoldsOf region hold.new }
{
    let mut bufs = all;
    let mut next = 0;
    while let Some(mut buf) = bufs.pop() {
        let at = bufs.len() as u32;
        clear(&mut buf, row, next);
        next = buf.index();
        put(hold, place_in(port, row, at), buf, at < named);
    }
    bufs.destroy_empty();
}
