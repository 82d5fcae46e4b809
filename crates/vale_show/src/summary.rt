//! The summary of a transcript.
ghost use Rattle.std.specs.Prelude.{◌≡◌, ◌++◌, ◌<◌, ◌-◌, ◌^◌, length, OnOk};
ghost use Rattle.std.specs.List.{flat_map};
ghost use Rattle.vale_show.specs.Summary.{start_line, verb_text, verbs_text, user_line, tally_text, port_start, port_line, total_line, lists_text, summary_text};
ghost use Rattle.vale_told.specs.Ports.{total_of};

use crate::page::{Page, add, or_dash};
use crate::refusals::add_refusals;
use nm_types::NoMemory;
use std::alloc::Global;
use vale_entry::Entry;
use vale_strip::Part;
use vale_text::Text;
use vale_told::{Port, Tally, User, VERBS, count_of, ports, total, users};

#[tactic(auto, unfolding(crate::specs::Summary::start_line))]
fn add_start(page: &mut Page, text: &Text) -> Result<(), NoMemory>
    ensures { OnOk result (page.new.bytes ≡ page.old.bytes
        ++ start_line text.now.version text.now.pool text.now.free (length text.now.entries.items)) }
{
    add(
        page,
        &[
            Part::Text(b"version "),
            Part::Number(text.version as u64),
            Part::Text(b" pool "),
            Part::Number(text.pool as u64),
            Part::Text(b" free "),
            Part::Number(text.free as u64),
            Part::Text(b" entries "),
            Part::Number(text.entries.len() as u64),
            Part::Text(b"\n"),
        ],
    )
}

/// Adds how many entries have a verb, if any has.
#[tactic(auto, using(crate::proofs::Pages::adding), unfolding(crate::specs::Summary::verb_line))]
fn add_verb(page: &mut Page, entries: &[Entry], verb: &[u8]) -> Result<(), NoMemory>
    ensures { OnOk result (page.new.bytes ≡ page.old.bytes ++ verb_text entries.now verb.now) }
{
    let count = count_of(entries, verb);
    if count == 0 {
        return Ok(());
    }
    add(
        page,
        &[
            Part::Text(b"entries "),
            Part::Text(verb),
            Part::Text(b" "),
            Part::Number(count as u64),
            Part::Text(b"\n"),
        ],
    )
}

/// Adds how many entries have each of these verbs.
fn add_each_verb(page: &mut Page, entries: &[Entry], verbs: &[&[u8]]) -> Result<(), NoMemory>
    ensures { OnOk result (page.new.bytes ≡ page.old.bytes
        ++ flat_map (λ verb. verb_text entries.now verb.now) verbs.now) }
{
    for verb in verbs {
        add_verb(page, entries, verb)?;
    }
    Ok(())
}

fn add_verbs(page: &mut Page, entries: &[Entry]) -> Result<(), NoMemory>
    ensures { OnOk result (page.new.bytes ≡ page.old.bytes ++ verbs_text entries.now) }
{
    add_each_verb(page, entries, &VERBS)
}

#[tactic(auto, unfolding(crate::specs::Summary::user_line))]
fn add_user(page: &mut Page, user: &User) -> Result<(), NoMemory>
    ensures { OnOk result (page.new.bytes ≡ page.old.bytes ++ user_line user.now) }
{
    add(
        page,
        &[
            Part::Text(b"user "),
            Part::Number(user.user),
            Part::Text(b" session "),
            Part::Number(user.session as u64),
            Part::Text(b" entries "),
            Part::Number(user.entries as u64),
            Part::Text(b"\n"),
        ],
    )
}

fn add_users(page: &mut Page, users: &[User]) -> Result<(), NoMemory>
    ensures { OnOk result (page.new.bytes ≡ page.old.bytes ++ flat_map user_line users.now) }
{
    for user in users {
        add_user(page, user)?;
    }
    Ok(())
}

/// Adds the numbers of frames, behind what a line has of other things.
#[tactic(auto, unfolding(crate::specs::Summary::tally_text))]
fn add_tally(page: &mut Page, tally: &Tally) -> Result<(), NoMemory>
    ensures { OnOk result (page.new.bytes ≡ page.old.bytes ++ tally_text tally.now) }
{
    let counts = &tally.counts;
    add(
        page,
        &[
            Part::Text(b" sent "),
            Part::Number(counts.sent),
            Part::Text(b" short "),
            Part::Number(counts.short),
            Part::Text(b" lone "),
            Part::Number(counts.lone),
            Part::Text(b" given "),
            Part::Number(counts.given),
            Part::Text(b" full "),
            Part::Number(counts.full),
            Part::Text(b" gone "),
            Part::Number(tally.gone),
            Part::Text(b" read "),
            Part::Number(counts.read),
            Part::Text(b" unread "),
            Part::Number(tally.unread),
            Part::Text(b"\n"),
        ],
    )
}

#[tactic(auto, unfolding(crate::specs::Summary::port_start))]
fn add_port_start(page: &mut Page, port: &Port) -> Result<(), NoMemory>
    ensures { OnOk result (page.new.bytes ≡ page.old.bytes ++ port_start port.now) }
{
    add(
        page,
        &[
            Part::Text(b"port "),
            Part::Number(port.id as u64),
            Part::Text(b" "),
            Part::Text(port.name.as_bytes()),
            Part::Text(b" session "),
            Part::Number(port.session as u64),
            Part::Text(b" shut "),
            or_dash(port.told.shut),
            Part::Text(b" finished "),
            or_dash(port.told.finished),
        ],
    )
}

#[tactic(auto, using(crate::proofs::Pages::adding))]
fn add_port(page: &mut Page, port: &Port) -> Result<(), NoMemory>
    ensures { OnOk result (page.new.bytes ≡ page.old.bytes ++ port_line port.now) }
{
    add_port_start(page, port)?;
    add_tally(page, &port.told.tally)
}

fn add_ports(page: &mut Page, ports: &[Port]) -> Result<(), NoMemory>
    ensures { OnOk result (page.new.bytes ≡ page.old.bytes ++ flat_map port_line ports.now) }
{
    for port in ports {
        add_port(page, port)?;
    }
    Ok(())
}

/// Adds the line of all ports together.
#[tactic(auto, using(crate::proofs::Pages::adding))]
fn add_total(page: &mut Page, ports: &[Port]) -> Result<(), NoMemory>
    ensures { OnOk result (page.new.bytes ≡ page.old.bytes ++ total_line (total_of ports.now)) }
{
    let tally = total(ports)?;
    add(page, &[Part::Text(b"all ports")])?;
    add_tally(page, &tally)
}

/// Adds what a summary has of the users and the ports.
#[tactic(auto, using(crate::proofs::Pages::adding))]
fn add_lists(page: &mut Page, alloc: Global, entries: &[Entry]) -> Result<(), NoMemory>
    requires { length entries.now < 2 ^ 32 - 1 }
    ensures { OnOk result (page.new.bytes ≡ page.old.bytes ++ lists_text entries.now) }
{
    let users = users(alloc, entries)?;
    let ports = ports(alloc, entries)?;
    add_users(page, &users)?;
    add_ports(page, &ports)?;
    add_total(page, &ports)
}

/// Adds the summary of what a transcript tells.
#[tactic(auto, using(crate::proofs::Pages::adding))]
pub(crate) fn add_summary(page: &mut Page, alloc: Global, text: &Text) -> Result<(), NoMemory>
    requires { length text.now.entries.items < 2 ^ 32 - 1 }
    ensures { OnOk result (page.new.bytes ≡ page.old.bytes
        ++ summary_text text.now.version text.now.pool text.now.entries.items text.now.free) }
{
    add_start(page, text)?;
    add_verbs(page, &text.entries)?;
    add_lists(page, alloc, &text.entries)?;
    add_refusals(page, &text.entries)
}
