ghost use Rattle.std.specs.Prelude.{◌≡◌, ◌<◌, ◌≤◌, ◌^◌, All, length, map, count_by, IfOk, OnOk, OnErr};
ghost use Rattle.std.specs.List.{list_any};
ghost use Rattle.nm_types.specs.Limits.{most_batch};
ghost use Rattle.nm_types.specs.Sendable.{IsFrame};
ghost use Rattle.vale_batch.specs.Addresses.{is_short};
ghost use Rattle.vale_batch.specs.Looking.{looked_up_batch, learned_of_batch, untaught_all};
ghost use Rattle.vale_batch.specs.Wants.{wants_of, is_other, is_lone, is_short_destination, is_lone_if, port_number, IsRising};

use crate::alone::{flooded_of, owns_of};
use crate::compared::Compared;
use crate::lists::{Lists, keep_wanting};
use crate::looking::{Destination, Looked};
use crate::lookup::Lookup;
use nm_types::{Batch, NoMemory, PortId};
use std::alloc::{AllocError, Global};
use vale_learn::Table;

fn is_short(looked: &Looked) -> bool
    ensures { result ≡ is_short_destination looked.now }
{
    looked.destination == Destination::Short
}

/// Whether a frame is long enough and goes to no port. `others` says whether the sender's switch
/// has other ports.
fn is_lone(others: bool, looked: &Looked) -> bool
    ensures { result ≡ is_lone_if others looked.now }
{
    match looked.destination {
        Destination::Nobody => true,
        Destination::Others => !others,
        _ => false,
    }
}

pub(crate) fn has_others(ports: &[PortId], from: PortId) -> bool
    ensures { result ≡ list_any (is_other from) ports.now }
{
    ports.iter().any(|port| *port != from)
}

fn short_count(all: &[Looked]) -> usize
    ensures { result ≡ count_by is_short_destination all.now }
{
    all.iter().filter(|looked| is_short(looked)).count()
}

fn lone_count(all: &[Looked], others: bool) -> usize
    ensures { result ≡ count_by (is_lone_if others) all.now }
{
    all.iter().filter(|looked| is_lone(others, looked)).count()
}

/// The lists of frames that were looked up, before it is noted what they taught.
#[tactic(auto, using(crate::proofs::WantLemmas::counts))]
pub(crate) fn lists_of(
    alloc: Global,
    from: PortId,
    ports: &[PortId],
    all: &[Looked],
) -> Result<Lists, AllocError>
    requires few { length all.now < 2 ^ 32 }
    requires ports { IsRising (map port_number ports.now) }
    ensures short { IfOk result (λ lists. lists.short ≡ count_by is_short_destination all.now) }
    ensures lone { IfOk result (λ lists.
        lists.lone ≡ count_by (is_lone from ports.now) all.now) }
    ensures wants { IfOk result (λ lists.
        lists.wants ≡ wants_of from all.now ports.now) }
{
    let flooded = flooded_of(alloc, all)?;
    let mut owns = owns_of(alloc, ports, all)?;
    keep_wanting(from, &flooded, &mut owns);
    Ok(Lists {
        short: short_count(all) as u32,
        lone: lone_count(all, has_others(ports, from)) as u32,
        from,
        flooded,
        owns,
        taughts: Vec::new(alloc),
    })
}

/// Learns the sources of a batch that port `from` sends, frame by frame, and finds out which of the
/// switch's open ports each frame goes to. `ports` rise. `NoMemory` leaves the table as it was, and
/// `Lists::forget` takes back what was learned.
///
/// A frame to one port costs a binary search among the ports, or one step where the one before it
/// goes there too, a frame to all other ports one step, however many they are, and each port one
/// step beside that. What a port wants of the flooded frames costs nothing before `Lists::want`
/// makes it.
#[tactic(auto, using(crate::proofs::WantLemmas::classes))]
pub fn classify(
    alloc: Global,
    table: &mut Table,
    ports: &[PortId],
    from: PortId,
    batch: &Batch,
) -> Result<Lists, NoMemory>
    requires few { length batch.now ≤ most_batch }
    requires frames { All IsFrame batch.now }
    requires ports { IsRising (map port_number ports.now) }
    ensures table { OnOk result (table.new ≡ learned_of_batch from table.old batch.now) }
    ensures err { OnErr result (table.new ≡ table.old) }
    ensures undo { IfOk result (λ lists. untaught_all table.new lists.taughts ≡ table.old) }
    ensures short { IfOk result (λ lists. lists.short ≡ count_by is_short batch.now) }
    ensures lone { IfOk result (λ lists. lists.lone
        ≡ count_by (is_lone from ports.now) (looked_up_batch from table.old batch.now)) }
    ensures wants { IfOk result (λ lists. lists.wants
        ≡ wants_of from (looked_up_batch from table.old batch.now) ports.now) }
{
    let lookup = Lookup::new(alloc, table, from, &Compared::new(batch))?;
    match lookup.lists(alloc, ports) {
        Ok(lists) => Ok(lookup.told(lists)),
        Err(fault) => {
            lookup.forget(table);
            Err(fault)
        }
    }
}
