ghost use Rattle.std.specs.Prelude.{◌≡◌, ◌<◌, ◌≤◌, ◌^◌, ◌+◌, ◌-◌, [], ◌∷◌, ◌++◌, true, All, IsSome, length, map, count_by, OnOk, OnErr, IfOk, IfErr};
ghost use Rattle.nm_types.specs.Limits.{most_batch};
ghost use Rattle.vale_steps.specs.Words.{Fits, FitsIn, IsFrame, IsFull, IsRising, bytes_of_frames};
ghost use Rattle.vale_steps.specs.Words.{counts_of, is_lone, is_sendable, is_short};
ghost use Rattle.vale_steps.specs.Words.{is_short_destination, learned_of_batch, looked_up_batch};
ghost use Rattle.vale_steps.specs.Words.{open_ids, port_number, switch_of, tally_after_add};
ghost use Rattle.vale_steps.specs.Words.{untaught_all, wants_of as ports_want};
ghost use Rattle.vale_steps.specs.Sending.{all_wants, classed_among, send_entry, send_room, send_offers, sent_counts};
ghost use Rattle.vale_steps.specs.Wanting.{IsSmall};

use crate::offers::{Offers, rooms_of};
use crate::wanting::{dests_of, listed, reversed, with_monitor};
use nm_count::Tally;
use nm_types::{Batch, Counts, Name, NoMemory, PortId, SessionId, StepFault};
use std::alloc::Global;
use std::marker::Model;
use vale_batch::{Compared, Lookup, Want};
use vale_entry::{Ask, Dests, Entry, History, Reply};
use vale_learn::Table;
use vale_port::{Port, is_open_on, open_ports_on};

fn copy_of(batch: &Batch) -> Result<Batch, NoMemory>
    ensures { IfOk result (λ copy. copy ≡ batch.now) }
{
    Ok(batch.clone()?)
}

/// The number of bytes of all frames.
fn size_of(batch: &Compared) -> u64
    requires { is_sendable batch.now ≡ true }
    ensures { result ≡ bytes_of_frames batch.now }
{
    batch.batch().size()
}

/// How many frames of a batch are short and how many are lone, and what the ports want.
#[derive(Drop)]
struct Classes {
    short: u32,
    lone: u32,
    wants: Vec<Want>,
}

impl Model for Classes {
    ghost use Rattle.std.specs.Prelude.{[], map};
    ghost use Rattle.vale_batch.specs.Wants.{Classed, wanted};

    ghost Value = { Classed };

    ghost view = { λ c. record {
      short = c.short;
      lone = c.lone;
      wants = map wanted c.wants.items;
      taughts = [];
    } };
}

/// The open port that sends, its session, and the monitor of its frames.
#[derive(Clone, Copy)]
struct Sender {
    session: SessionId,
    port: PortId,
    monitor: Option<PortId>,
}

/// Records a send whose batch was classified, and makes its offers. Where it fails nothing has
/// changed.
fn record(
    alloc: Global,
    history: &mut History,
    classes: Classes,
    sender: Sender,
    batch: &Compared,
) -> Result<Offers, StepFault>
    requires sendable { is_sendable batch.now ≡ true }
    requires small { All IsSmall classes.wants }
    ensures entries { OnOk result (history.new.entries ≡ history.old.entries
        ++ send_entry sender.session sender.port batch.now classes
        (all_wants sender.monitor batch.now classes) ∷ []) }
    ensures offers { IfOk result (λ offers. offers ≡ send_offers
        (length history.old.entries + 1) sender.session classes
        (all_wants sender.monitor batch.now classes)) }
    ensures promised { OnOk result (history.new.promised + 1 ≡ history.old.promised
        + send_room (all_wants sender.monitor batch.now classes)) }
    ensures limits { history.new.limits ≡ history.old.limits }
    ensures fits { OnOk result (Fits history.old
        (send_room (all_wants sender.monitor batch.now classes)) (bytes_of_frames batch.now)) }
    ensures full { IfErr result (IsFull history.old
        (send_room (all_wants sender.monitor batch.now classes)) (bytes_of_frames batch.now)) }
    ensures err { OnErr result ((history.new.entries ≡ history.old.entries)
        × (history.new.promised ≡ history.old.promised)) }
{
    let Sender {
        session,
        port,
        monitor,
    } = sender;
    let Classes { short, lone, wants } = classes;
    let wants = with_monitor(alloc, wants, monitor, batch.batch())?;
    let to = dests_of(alloc, &wants)?;
    let wants = reversed(wants);
    let rooms = rooms_of(alloc, &wants)?;
    let frames = copy_of(batch.batch())?;
    history.reserve(1 + 2 * to.len() as u64, size_of(batch))?;
    let entry = history.len() + 1;
    history.push(Entry {
        session,
        ask: Ask::Send { port, frames },
        reply: Reply::Offered {
            short,
            lone,
            to: Dests::from(to),
        },
    });
    Ok(Offers {
        entry,
        session,
        short,
        lone,
        wants,
        rooms,
    })
}

/// What is told and wanted of a batch that was looked up, for ports that rise. Where all frames go to
/// all other ports, these share the lists of them.
fn classes_for(alloc: Global, ids: &[PortId], lookup: &Lookup) -> Result<Classes, NoMemory>
    requires few { length lookup.now.all < 2 ^ 32 }
    requires ports { IsRising (map port_number ids.now) }
    ensures short { IfOk result (λ classes.
        classes.short ≡ count_by is_short_destination lookup.now.all) }
    ensures lone { IfOk result (λ classes. classes.lone
        ≡ count_by (is_lone lookup.now.from ids.now) lookup.now.all) }
    ensures wants { IfOk result (λ classes. classes.wants
        ≡ ports_want lookup.now.from lookup.now.all ids.now) }
{
    if lookup.is_flood() {
        return Ok(Classes {
            short: 0,
            lone: lookup.flood_lone(ids),
            wants: lookup.flood_wants(alloc, ids)?,
        });
    }
    let lists = lookup.lists(alloc, ids)?;
    Ok(Classes {
        short: lists.short(),
        lone: lists.lone(),
        wants: listed(alloc, &lists)?,
    })
}

/// What is told and wanted of a batch that was looked up, for the open ports on the switch of a
/// name. These are listed only where its frames do not all go to one port.
fn classes_among(
    alloc: Global,
    ports: &[Port],
    name: &Name,
    lookup: &Lookup,
) -> Result<Classes, NoMemory>
    requires few { length lookup.now.all < 2 ^ 32 }
    requires ports { IsRising (map port_number (open_ids (switch_of name.now) ports.now)) }
    ensures short { IfOk result (λ classes.
        classes.short ≡ count_by is_short_destination lookup.now.all) }
    ensures lone { IfOk result (λ classes. classes.lone ≡ count_by
        (is_lone lookup.now.from (open_ids (switch_of name.now) ports.now)) lookup.now.all) }
    ensures wants { IfOk result (λ classes. classes.wants ≡ ports_want
        lookup.now.from lookup.now.all (open_ids (switch_of name.now) ports.now)) }
{
    match lookup.sole() {
        Some(sole) => Ok(Classes {
            short: 0,
            lone: 0,
            wants: lookup.sole_wants(alloc, sole, is_open_on(ports, sole, name))?,
        }),
        None => {
            let ids = open_ports_on(alloc, ports, name)?;
            classes_for(alloc, &ids, lookup)
        }
    }
}

/// Looks a batch up, and finds what is told and wanted of it, for the open ports on the switch of a
/// name. `NoMemory` leaves the table as it was.
#[tactic(auto, using(vale_batch::proofs::WantLemmas::classes))]
fn classify_among(
    alloc: Global,
    table: &mut Table,
    ports: &[Port],
    name: &Name,
    from: PortId,
    batch: &Compared,
) -> Result<(Classes, Lookup), NoMemory>
    requires few { length batch.now ≤ most_batch }
    requires frames { All IsFrame batch.now }
    requires ports { IsRising (map port_number (open_ids (switch_of name.now) ports.now)) }
    ensures table { OnOk result (table.new ≡ learned_of_batch from table.old batch.now) }
    ensures err { OnErr result (table.new ≡ table.old) }
    ensures undo { IfOk result (λ found. untaught_all table.new found.1.taughts ≡ table.old) }
    ensures short { IfOk result (λ found. found.0.short ≡ count_by is_short batch.now) }
    ensures lone { IfOk result (λ found. found.0.lone ≡ count_by
        (is_lone from (open_ids (switch_of name.now) ports.now))
        (looked_up_batch from table.old batch.now)) }
    ensures wants { IfOk result (λ found. found.0.wants ≡ ports_want from
        (looked_up_batch from table.old batch.now) (open_ids (switch_of name.now) ports.now)) }
{
    let lookup = Lookup::new(alloc, table, from, batch)?;
    match classes_among(alloc, ports, name, &lookup) {
        Ok(classes) => Ok((classes, lookup)),
        Err(fault) => {
            lookup.forget(table);
            Err(fault)
        }
    }
}

/// Records a send of an open port on the switch of a name, which has this table. Where it fails
/// nothing has changed.
pub fn send(
    alloc: Global,
    history: &mut History,
    table: &mut Table,
    ports: &[Port],
    name: &Name,
    session: SessionId,
    monitor: Option<PortId>,
    port: PortId,
    batch: &Compared,
) -> Result<Offers, StepFault>
    requires sendable { is_sendable batch.now ≡ true }
    requires frames { All IsFrame batch.now }
    requires ports { IsRising (map port_number (open_ids (switch_of name.now) ports.now)) }
    ensures table { OnOk result (table.new ≡ learned_of_batch port table.old batch.now) }
    ensures entries { OnOk result (history.new.entries ≡ history.old.entries
        ++ send_entry session port batch.now
        (classed_among port table.old batch.now (switch_of name.now) ports.now)
        (all_wants monitor batch.now
        (classed_among port table.old batch.now (switch_of name.now) ports.now)) ∷ []) }
    ensures offers { IfOk result (λ offers. offers ≡ send_offers
        (length history.old.entries + 1) session
        (classed_among port table.old batch.now (switch_of name.now) ports.now)
        (all_wants monitor batch.now
        (classed_among port table.old batch.now (switch_of name.now) ports.now))) }
    ensures promised { OnOk result (history.new.promised + 1 ≡ history.old.promised + send_room
        (all_wants monitor batch.now
        (classed_among port table.old batch.now (switch_of name.now) ports.now))) }
    ensures limits { history.new.limits ≡ history.old.limits }
    ensures fits { OnOk result (Fits history.old (send_room (all_wants monitor batch.now
        (classed_among port table.old batch.now (switch_of name.now) ports.now)))
        (bytes_of_frames batch.now)) }
    ensures full { IfErr result (IsFull history.old (send_room (all_wants monitor batch.now
        (classed_among port table.old batch.now (switch_of name.now) ports.now)))
        (bytes_of_frames batch.now)) }
    ensures err { OnErr result ((history.new.entries ≡ history.old.entries)
        × (history.new.promised ≡ history.old.promised) × (table.new ≡ table.old)) }
{
    let (classes, looked) = classify_among(alloc, table, ports, name, port, batch)?;
    let sender = Sender {
        session,
        port,
        monitor,
    };
    match record(alloc, history, classes, sender, batch) {
        Ok(offers) => Ok(offers),
        Err(fault) => {
            looked.forget(table);
            Err(fault)
        }
    }
}

/// Counts at its port what a send sent, and how much of it was short and how much lone.
pub fn count(tally: &mut Tally, port: PortId, sent: u32, offers: &Offers)
    requires there { IsSome (counts_of tally.old port.0) }
    requires fits { FitsIn tally.old port.0 (sent_counts sent offers.now.short offers.now.lone) }
    ensures { tally.new ≡ tally_after_add port.0
        (sent_counts sent offers.now.short offers.now.lone) tally.old }
{
    let more = Counts {
        sent: u64::from(sent),
        short: u64::from(offers.short()),
        lone: u64::from(offers.lone()),
        ..Counts::ZERO
    };
    tally.add(port, &more);
}
