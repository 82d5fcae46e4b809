ghost use Rattle.std.specs.Prelude.{ℕ, ◌≡◌, ◌<◌, ◌≤◌, ◌+◌, ◌^◌, IfSome, length, nat_eq};
ghost use Rattle.std.specs.Prelude.{option_map, slice_index};
ghost use Rattle.std.specs.Option.{option_map_or};
ghost use Rattle.std.specs.HashMap.{get};
ghost use Rattle.std.specs.Vec.{vec_capacity, with_item};
ghost use Rattle.nm_types.specs.Limits.{most_ring};
ghost use Rattle.nm_types.specs.Positions.{step_on};
ghost use Rattle.nm_hold.specs.Indexed.{tables_present, IsIndexed};
ghost use Rattle.nm_hold.specs.declared.table.PortTable.{PortTable};
ghost use Rattle.nm_hold.specs.Tables.{number_at, places_before, ports_of};
ghost use Rattle.nm_hold.specs.Takes.{place_in, AreTakenBehind};
ghost use Rattle.nm_hold.specs.Ties.{AreHeld};

use crate::around::step_on;
use crate::cells::Cells;
use crate::ports::row_of;
use crate::table::PortTable;
use nm_region::Buf;
use nm_types::{PortId, Side};
use std::collections::HashMap;
use std::mem::replace;

/// Slots of a side of a port, from one on, going round at `size`.
#[derive(Clone, Copy, Debug, PartialEq, Eq)]
pub struct SlotRun {
    pub port: PortId,
    pub side: Side,
    pub size: u32,
    pub first: u32,
}

impl SlotRun {
    /// The slot so many steps behind the first one.
    fn slot(self, steps: u32) -> usize
        requires size { self.size ≤ most_ring }
        requires first { self.first < self.size }
        requires steps { steps ≤ self.size }
        ensures { result ≡ step_on self.size self.first steps }
    {
        step_on(self.size, self.first, steps) as usize
    }
}

/// How many places of a row's port stand before the slots of a side.
fn places_before(row: &Option<PortTable>, side: Side) -> usize
    ensures count { result ≡ places_before side row.now }
    ensures few { result < 2 ^ 32 }
{
    match row {
        Some(table) => match side {
            Side::Tx => 0,
            Side::Rx => table.places.sizes.tx as usize,
        },
        None => 0,
    }
}

/// Clears the number that stands so many places behind the first one of a row's port. Returns it.
fn clear_at(row: &mut Option<PortTable>, at: usize) -> u32
    requires { IfSome row.old (λ t. at < length t.numbers.items) }
    ensures number { result
        ≡ option_map_or (λ (t : PortTable). slice_index t.numbers.items at) row.old 0 }
    ensures row { row.new ≡ option_map
        (λ (t : PortTable). record t { numbers = with_item t.numbers at 0 }) row.old }
{
    match row {
        Some(table) => replace(&mut table.numbers[at], 0),
        None => 0,
    }
}

/// Takes the buffers out of the first `count` slots of a run, in their order. The row of the run's
/// port is found once.
pub(crate) fn take_run(
    rows: &mut [Option<PortTable>],
    indices: &HashMap<u32, usize>,
    cells: &mut Cells,
    run: SlotRun,
    count: u32,
    back: &mut Vec<Buf>,
)
    requires indexed { IsIndexed rows.old (get nat_eq indices.now) }
    requires whole { AreHeld cells.old (tables_present rows.old) }
    requires size { run.size ≤ most_ring }
    requires first { run.first < run.size }
    requires count { count ≤ run.size }
    requires held { (k : ℕ) → k < count
        → 0 < number_at (tables_present rows.old) (place_in run k) }
    requires room { length back.old.items + count ≤ vec_capacity back.old }
    ensures indexed { IsIndexed rows.new (get nat_eq indices.now) }
    ensures whole { AreHeld cells.new (tables_present rows.new) }
    ensures taken { AreTakenBehind
        (record { cells = cells.old; ports = ports_of (tables_present rows.old) }) run count
        (record { cells = cells.new; ports = ports_of (tables_present rows.new) })
        back.old.items back.new.items }
    ensures capacity { vec_capacity back.new ≡ vec_capacity back.old }
{
    let Some(at) = row_of(rows, indices, run.port) else {
        return;
    };
    let ahead = places_before(&rows[at], run.side);
    for k in 0..count {
        let place = ahead + run.slot(k);
        let idx = clear_at(&mut rows[at], place);
        back.push_reserved(cells.take(idx));
    }
}
