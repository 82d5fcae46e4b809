ghost use Rattle.std.specs.Prelude.{◌≡◌, ◌≤◌, [], ◌++◌, All, IsTrue, IfOk, OnOk, length, replicate, vec_capacity};
ghost use Rattle.vale_learn.specs.AddressTable.{learned, port_of_address};
ghost use Rattle.vale_batch.specs.Addresses.{is_learnable, source_address};
ghost use Rattle.vale_batch.specs.Looking.{destination_found, destination_of, learned_from, looked_up, looked_up_batch, learned_of_batch, looked_one, untaught_all, AreAlike, IsAlike, IsOneAlike};
ghost use Rattle.nm_types.specs.Sendable.{IsFrame};

use crate::addresses::{HEADER_BYTES, is_group, mac_at, word_at};
use nm_frag::slots;
use nm_types::{BUFFER_BYTES, Batch, Mac, PortId};
use std::alloc::AllocError;
use vale_learn::{Station, Table};

/// Where a frame goes.
#[derive(Clone, Copy, Debug, PartialEq, Eq)]
pub enum Destination {
    /// The frame has no addresses.
    Short,
    /// To no port: it is for the port that sent it.
    Nobody,
    /// To one other port.
    Only(PortId),
    /// To all other ports.
    Others,
}

/// A frame that was looked up: where it goes, and how many slots it takes.
#[derive(Clone, Copy, Debug, PartialEq, Eq)]
pub struct Looked {
    pub destination: Destination,
    pub size: u32,
}

/// What an address's entry held before it was learned.
#[derive(Clone, Copy, Debug)]
pub(crate) struct Taught {
    address: Mac,
    before: Option<Station>,
}

fn destination_found(from: PortId, found: Option<PortId>) -> Destination
    ensures { result ≡ destination_found from found }
{
    match found {
        Some(port) if port == from => Destination::Nobody,
        Some(port) => Destination::Only(port),
        None => Destination::Others,
    }
}

/// Looks up where a frame that `from` sends goes.
fn destination_of(table: &Table, from: PortId, bytes: &[u8], no_learn: bool) -> Destination
    ensures { result ≡ destination_of from table.now
        (record { bytes = bytes.now; no_learn = no_learn }) }
{
    if bytes.len() < HEADER_BYTES {
        return Destination::Short;
    }
    let address = mac_at(bytes, 0);
    if is_group(address) {
        return Destination::Others;
    }
    destination_found(from, table.find(address))
}

fn is_learnable(bytes: &[u8], no_learn: bool) -> bool
    ensures { result ≡ is_learnable (record { bytes = bytes.now; no_learn = no_learn }) }
{
    bytes.len() >= HEADER_BYTES && !is_group(mac_at(bytes, 6)) && !no_learn
}

/// Whether a table knows an address behind a port, so that learning it there changes nothing.
fn knows(table: &Table, address: Mac, port: PortId) -> bool
    ensures { IsTrue result → learned table.now address port ≡ table.now }
{
    match table.find(address) {
        Some(found) => found == port,
        None => false,
    }
}

/// Learns the source of a frame, if it may be learned, and notes what its entry held, if that is
/// something else. Want of memory teaches nothing.
#[tactic(auto, using(crate::proofs::Teaching::teaching))]
fn learn(
    table: &mut Table,
    taughts: &mut Vec<Taught>,
    from: PortId,
    bytes: &[u8],
    no_learn: bool,
) -> Result<(), AllocError>
    ensures table { OnOk result (table.new ≡ learned_from from table.old
        (record { bytes = bytes.now; no_learn = no_learn })) }
    ensures undo { untaught_all table.new taughts.new.items
        ≡ untaught_all table.old taughts.old.items }
{
    if !is_learnable(bytes, no_learn) {
        return Ok(());
    }
    let address = mac_at(bytes, 6);
    if !knows(table, address, from) {
        taughts.reserve(1)?;
        let before = table.teach(address, from);
        taughts.push_reserved(Taught { address, before });
    }
    Ok(())
}

/// Whether a frame has the addresses and the mark of the one before it, and both have addresses.
fn is_alike(bytes: &[u8], no_learn: bool, before: &[u8], before_no_learn: bool) -> bool
    ensures { IsTrue result → IsAlike (record { bytes = bytes.now; no_learn = no_learn })
        (record { bytes = before.now; no_learn = before_no_learn }) }
{
    bytes.len() >= HEADER_BYTES
        && before.len() >= HEADER_BYTES
        && word_at(bytes, 0) == word_at(before, 0)
        && word_at(bytes, 4) == word_at(before, 4)
        && no_learn == before_no_learn
}

/// Learns the source of a frame and looks up where it goes. The frame before it went to `went`: one
/// that is alike goes there too, and what it teaches the table knows.
fn follow(
    table: &mut Table,
    taughts: &mut Vec<Taught>,
    from: PortId,
    bytes: &[u8],
    no_learn: bool,
    before: &[u8],
    before_no_learn: bool,
    went: Destination,
) -> Result<Destination, AllocError>
    requires went { went ≡ destination_of from table.old
        (record { bytes = before.now; no_learn = before_no_learn }) }
    requires known { table.old ≡ learned_from from table.old
        (record { bytes = before.now; no_learn = before_no_learn }) }
    ensures table { OnOk result (table.new ≡ learned_from from table.old
        (record { bytes = bytes.now; no_learn = no_learn })) }
    ensures destination { IfOk result (λ to. to ≡ destination_of from table.new
        (record { bytes = bytes.now; no_learn = no_learn })) }
    ensures known { OnOk result (table.new ≡ learned_from from table.new
        (record { bytes = bytes.now; no_learn = no_learn })) }
    ensures undo { untaught_all table.new taughts.new.items
        ≡ untaught_all table.old taughts.old.items }
{
    if is_alike(bytes, no_learn, before, before_no_learn) {
        return Ok(went);
    }
    learn(table, taughts, from, bytes, no_learn)?;
    Ok(destination_of(table, from, bytes, no_learn))
}

/// Whether a frame takes one slot and has the addresses and the mark of another one.
fn is_one_alike(bytes: &[u8], no_learn: bool, other: &[u8], other_no_learn: bool) -> bool
    ensures { IsTrue result
        → IsOneAlike (record { bytes = other.now; no_learn = other_no_learn })
        (record { bytes = bytes.now; no_learn = no_learn }) }
{
    bytes.len() <= BUFFER_BYTES && is_alike(bytes, no_learn, other, other_no_learn)
}

/// Whether each frame of a batch takes one slot and has the addresses and the mark of another one.
#[tactic(auto, using(crate::proofs::Alike::more))]
fn all_alike(batch: &Batch, other: &[u8], other_no_learn: bool) -> bool
    ensures { IsTrue result
        → All (IsOneAlike (record { bytes = other.now; no_learn = other_no_learn })) batch.now }
{
    for i in 0..batch.len() {
        let (bytes, no_learn) = batch.get(i);
        if !is_one_alike(bytes, no_learn, other, other_no_learn) {
            return false;
        }
    }
    true
}

/// Whether a batch has frames, each of which takes one slot and has the addresses and the mark of
/// the first.
pub(crate) fn are_alike(batch: &Batch) -> bool
    ensures { IsTrue result → AreAlike batch.now }
{
    if batch.len() == 0 {
        return false;
    }
    let (first, no_learn) = batch.get(0);
    all_alike(batch, first, no_learn)
}

/// Learns the source of frames that are alike, and looks up where all of them go.
pub(crate) fn look_up_alike(
    table: &mut Table,
    taughts: &mut Vec<Taught>,
    from: PortId,
    batch: &Batch,
) -> Result<Destination, AllocError>
    requires { AreAlike batch.now }
    ensures all { IfOk result (λ to.
        replicate (length batch.now) (looked_one to) ≡ looked_up_batch from table.old batch.now) }
    ensures table { OnOk result (table.new ≡ learned_of_batch from table.old batch.now) }
    ensures undo { untaught_all table.new taughts.new.items
        ≡ untaught_all table.old taughts.old.items }
{
    let (first, marked) = batch.get(0);
    learn(table, taughts, from, first, marked)?;
    Ok(destination_of(table, from, first, marked))
}

/// Takes back what was learned.
#[tactic(auto, using(crate::proofs::Teaching::teaching))]
pub(crate) fn forget_taught(table: &mut Table, taughts: &mut Vec<Taught>)
    ensures { table.new ≡ untaught_all table.old taughts.old.items }
{
    while let Some(taught) = taughts.pop() {
        table.restore(taught.address, taught.before);
    }
}

/// Learns and looks up one frame after another. Want of memory ends it at some frame.
#[tactic(auto, using(crate::proofs::Teaching::teaching))]
pub(crate) fn look_up(
    table: &mut Table,
    taughts: &mut Vec<Taught>,
    all: &mut Vec<Looked>,
    from: PortId,
    batch: &Batch,
) -> Result<(), AllocError>
    requires frames { All IsFrame batch.now }
    requires none { (all.old.items ≡ []) × (taughts.old.items ≡ []) }
    requires all { length batch.now ≤ vec_capacity all.old }
    ensures all { OnOk result (all.new.items ≡ looked_up_batch from table.old batch.now) }
    ensures table { OnOk result (table.new ≡ learned_of_batch from table.old batch.now) }
    ensures undo { untaught_all table.new taughts.new.items ≡ table.old }
{
    let mut before: &[u8] = &[];
    let mut marked = false;
    let mut went = Destination::Short;
    for i in 0..batch.len() {
        let (bytes, no_learn) = batch.get(i);
        went = follow(table, taughts, from, bytes, no_learn, before, marked, went)?;
        all.push_reserved(Looked {
            destination: went,
            size: slots(bytes.len()),
        });
        before = bytes;
        marked = no_learn;
    }
    Ok(())
}
