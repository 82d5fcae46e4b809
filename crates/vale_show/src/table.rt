//! The table of ports.
ghost use Rattle.std.specs.Prelude.{◌≡◌, ◌++◌, ◌<◌, ◌-◌, ◌^◌, length, OnOk};
ghost use Rattle.std.specs.List.{flat_map};
ghost use Rattle.vale_show.specs.Table.{head_line, row_start, row_counts, row, table_text};

use crate::page::{Page, add, or_dash};
use nm_types::NoMemory;
use std::alloc::Global;
use vale_entry::Entry;
use vale_strip::Part;
use vale_told::{Port, Tally, ports};

/// Adds when a port was opened, by whom, when it was closed, and how large it is.
#[tactic(auto, unfolding(crate::specs::Table::row_start))]
fn add_row_start(page: &mut Page, port: &Port) -> Result<(), NoMemory>
    ensures { OnOk result (page.new.bytes ≡ page.old.bytes ++ row_start port.now) }
{
    add(
        page,
        &[
            Part::Number(port.id as u64),
            Part::Text(b"\t"),
            Part::Number(port.session as u64),
            Part::Text(b"\t"),
            or_dash(port.told.shut),
            Part::Text(b"\t"),
            or_dash(port.told.finished),
            Part::Text(b"\t"),
            Part::Number(port.tx as u64),
            Part::Text(b"\t"),
            Part::Number(port.rx as u64),
            Part::Text(b"\t"),
            Part::Number(port.extra as u64),
            Part::Text(b"\t"),
        ],
    )
}

/// Adds the numbers of its frames.
#[tactic(auto, unfolding(crate::specs::Table::row_counts))]
fn add_row_counts(page: &mut Page, tally: &Tally) -> Result<(), NoMemory>
    ensures { OnOk result (page.new.bytes ≡ page.old.bytes ++ row_counts tally.now) }
{
    let counts = &tally.counts;
    add(
        page,
        &[
            Part::Number(counts.sent),
            Part::Text(b"\t"),
            Part::Number(counts.short),
            Part::Text(b"\t"),
            Part::Number(counts.lone),
            Part::Text(b"\t"),
            Part::Number(counts.given),
            Part::Text(b"\t"),
            Part::Number(counts.full),
            Part::Text(b"\t"),
            Part::Number(tally.gone),
            Part::Text(b"\t"),
            Part::Number(counts.read),
            Part::Text(b"\t"),
            Part::Number(tally.unread),
            Part::Text(b"\t"),
        ],
    )
}

#[tactic(auto, using(crate::proofs::Pages::adding))]
fn add_row(page: &mut Page, port: &Port) -> Result<(), NoMemory>
    ensures { OnOk result (page.new.bytes ≡ page.old.bytes ++ row port.now) }
{
    add_row_start(page, port)?;
    add_row_counts(page, &port.told.tally)?;
    add(page, &[Part::Text(port.name.as_bytes()), Part::Text(b"\n")])
}

fn add_rows(page: &mut Page, ports: &[Port]) -> Result<(), NoMemory>
    ensures { OnOk result (page.new.bytes ≡ page.old.bytes ++ flat_map row ports.now) }
{
    for port in ports {
        add_row(page, port)?;
    }
    Ok(())
}

#[tactic(auto, unfolding(crate::specs::Table::head_line))]
fn add_head(page: &mut Page) -> Result<(), NoMemory>
    ensures { OnOk result (page.new.bytes ≡ page.old.bytes ++ head_line) }
{
    add(
        page,
        &[Part::Text(
            b"port\tsession\tshut\tfinish\ttx\trx\textra\tsent\tshort\tlone\tgiven\tfull\tgone\tread\tunread\tname\n",
        )],
    )
}

/// Adds the table of the ports of a history.
#[tactic(auto, using(crate::proofs::Pages::adding))]
pub(crate) fn add_table(page: &mut Page, alloc: Global, entries: &[Entry]) -> Result<(), NoMemory>
    requires { length entries.now < 2 ^ 32 - 1 }
    ensures { OnOk result (page.new.bytes ≡ page.old.bytes ++ table_text entries.now) }
{
    let ports = ports(alloc, entries)?;
    add_head(page)?;
    add_rows(page, &ports)
}
