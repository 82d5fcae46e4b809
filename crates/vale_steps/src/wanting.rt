ghost use Rattle.std.specs.Prelude.{◌≡◌, ◌<◌, ◌^◌, true, All, length, map, option_map, position};
ghost use Rattle.std.specs.Prelude.{reverse, IfOk, OnOk};
ghost use Rattle.vale_steps.specs.Words.{dests_wanted, is_sendable, port_number, range_with_len};
ghost use Rattle.vale_steps.specs.Words.{sizes_of, wanted, wants_monitored, with_want};
ghost use Rattle.vale_steps.specs.Wanting.{IsSmall, IsSmallWant, dest_in, is_behind};
ghost use Rattle.vale_steps.specs.Wanting.{sizes_for, want_all, wants_with};

use nm_types::{Batch, NoMemory, PortId, slots};
use std::alloc::{AllocError, Global};
use vale_batch::{Lists, Places, Want};
use vale_entry::Dest;
use vale_line::Sizes;

fn places(alloc: Global, count: u32) -> Result<Vec<u32>, AllocError>
    ensures { IfOk result (λ all. all.items ≡ range_with_len 0 count) }
{
    (0..count).collect(alloc)
}

/// The slots of each frame of a batch.
#[tactic(auto, using(crate::proofs::SmallWants::batch_sizes))]
fn sizes_of(alloc: Global, batch: &Batch) -> Result<Vec<u32>, AllocError>
    requires { is_sendable batch.now ≡ true }
    ensures { IfOk result (λ sizes. sizes.items ≡ sizes_of batch.now) }
{
    let mut sizes = Vec::with_capacity(alloc, batch.len())?;
    for i in 0..batch.len() {
        sizes.push_reserved(slots(batch.frame(i).len()));
    }
    Ok(sizes)
}

/// The slots of each frame of a batch, if there is a monitor.
fn sizes_for(alloc: Global, monitor: Option<PortId>, batch: &Batch) -> Result<Vec<u32>, AllocError>
    requires { is_sendable batch.now ≡ true }
    ensures { IfOk result (λ sizes. sizes.items ≡ sizes_for monitor batch.now) }
{
    match monitor {
        Some(_) => sizes_of(alloc, batch),
        None => Ok(Vec::new(alloc)),
    }
}

/// What a port wants that gets all frames of these sizes.
fn want_all(alloc: Global, to: PortId, sizes: Vec<u32>) -> Result<Want, AllocError>
    requires { length sizes.items < 2 ^ 32 }
    ensures { IfOk result (λ want. wanted want ≡ want_all to sizes.items) }
{
    Ok(Want {
        to,
        places: Places::own(places(alloc, sizes.len() as u32)?),
        sizes: Sizes::own(sizes),
    })
}

/// The place of the first want of a port behind this one.
fn place_behind(wants: &[Want], port: PortId) -> Option<usize>
    ensures { result ≡ position (is_behind port.0) wants.now }
{
    wants.iter().position(|want| port.0 < want.to.0)
}

/// Adds a want before those of the ports behind its own.
fn add(wants: &mut Vec<Want>, want: Want) -> Result<(), NoMemory>
    ensures { OnOk result (map wanted wants.new.items
        ≡ with_want (wanted want) (map wanted wants.old.items)) }
{
    match place_behind(wants, want.to) {
        Some(place) => wants.insert(place, want)?,
        None => wants.push(want)?,
    }
    Ok(())
}

/// Adds what the monitor wants, if there is one: all frames of these sizes. Of no frames it wants
/// nothing.
pub(crate) fn add_monitor(
    alloc: Global,
    wants: &mut Vec<Want>,
    monitor: Option<PortId>,
    sizes: Vec<u32>,
) -> Result<(), NoMemory>
    requires { length sizes.items < 2 ^ 32 }
    ensures { OnOk result (map wanted wants.new.items
        ≡ wants_with monitor sizes.items (map wanted wants.old.items)) }
{
    if let Some(monitor) = monitor {
        if !sizes.is_empty() {
            add(wants, want_all(alloc, monitor, sizes)?)?;
        }
    }
    Ok(())
}

/// What the ports want, in their order.
#[tactic(auto, using(crate::proofs::MonitoredWants::wants_seen))]
pub(crate) fn listed(alloc: Global, lists: &Lists) -> Result<Vec<Want>, NoMemory>
    ensures { IfOk result (λ all. map wanted all.items ≡ lists.now.wants) }
{
    let mut all = Vec::with_capacity(alloc, lists.len())?;
    for i in 0..lists.len() {
        all.push_reserved(lists.want(alloc, i)?);
    }
    Ok(all)
}

/// What the ports want of a batch, with its monitor's want at its place.
pub(crate) fn with_monitor(
    alloc: Global,
    wants: Vec<Want>,
    monitor: Option<PortId>,
    batch: &Batch,
) -> Result<Vec<Want>, NoMemory>
    requires sendable { is_sendable batch.now ≡ true }
    requires small { All IsSmall (map wanted wants.items) }
    ensures wants { IfOk result (λ all. map wanted all.items
        ≡ wants_monitored (option_map port_number monitor) batch.now (map wanted wants.items)) }
    ensures small { IfOk result (λ all. All IsSmallWant all.items) }
{
    let mut wants = wants;
    let sizes = sizes_for(alloc, monitor, batch)?;
    add_monitor(alloc, &mut wants, monitor, sizes)?;
    Ok(wants)
}

/// How many frames a port wants.
fn dest_of(want: &Want) -> Dest
    requires { IsSmallWant want.now }
    ensures { result ≡ dest_in want.now }
{
    Dest {
        to: want.to,
        count: want.places.len() as u32,
    }
}

/// How many frames each port wants.
pub(crate) fn dests_of(alloc: Global, wants: &[Want]) -> Result<Vec<Dest>, AllocError>
    requires { All IsSmallWant wants.now }
    ensures { IfOk result (λ all. all.items ≡ dests_wanted (map wanted wants.now)) }
{
    wants.iter().map(|want| dest_of(want)).collect(alloc)
}

/// The wants with the last first, as offers keep them.
pub(crate) fn reversed(wants: Vec<Want>) -> Vec<Want>
    requires { All IsSmallWant wants.items }
    ensures wants { reverse (map wanted result.items) ≡ map wanted wants.items }
    ensures small { All IsSmallWant result.items }
{
    let mut wants = wants;
    wants.reverse();
    wants
}
