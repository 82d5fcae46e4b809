//! What is told of one frame.
ghost use Rattle.std.specs.Prelude.{◌≡◌, ◌++◌, ◌<◌, ◌-◌, ◌^◌, length, OnOk};
ghost use Rattle.std.specs.List.{flat_map};
ghost use Rattle.vale_show.specs.Frame.{no_frame_line, frame_line, trace_start, fate_words, trace_line, frame_text};

use crate::page::{Page, add, or_dash};
use nm_types::NoMemory;
use std::alloc::Global;
use vale_entry::Entry;
use vale_strip::Part;
use vale_told::{Fate, Trace, frames_at, traces};

#[tactic(auto, unfolding(crate::specs::Frame::no_frame_line))]
fn add_no_frame(page: &mut Page, number: u32, place: u32) -> Result<(), NoMemory>
    ensures { OnOk result (page.new.bytes ≡ page.old.bytes ++ no_frame_line number place) }
{
    add(
        page,
        &[
            Part::Text(b"entry "),
            Part::Number(number as u64),
            Part::Text(b" has no frame "),
            Part::Number(place as u64),
            Part::Text(b"\n"),
        ],
    )
}

#[tactic(auto, unfolding(crate::specs::Frame::frame_line))]
fn add_frame_line(page: &mut Page, number: u32, place: u32, all: u64) -> Result<(), NoMemory>
    ensures { OnOk result (page.new.bytes ≡ page.old.bytes ++ frame_line number place all) }
{
    add(
        page,
        &[
            Part::Text(b"entry "),
            Part::Number(number as u64),
            Part::Text(b" frame "),
            Part::Number(place as u64),
            Part::Text(b" of "),
            Part::Number(all),
            Part::Text(b"\n"),
        ],
    )
}

#[tactic(auto, unfolding(crate::specs::Frame::trace_start))]
fn add_trace_start(page: &mut Page, trace: &Trace) -> Result<(), NoMemory>
    ensures { OnOk result (page.new.bytes ≡ page.old.bytes ++ trace_start trace.now) }
{
    add(
        page,
        &[
            Part::Text(b"port "),
            Part::Number(trace.to as u64),
            Part::Text(b" wants "),
            Part::Number(trace.count),
        ],
    )
}

/// Adds what became of a frame.
#[tactic(auto, unfolding(crate::specs::Frame::unknown_words, crate::specs::Frame::pending_words, crate::specs::Frame::full_words, crate::specs::Frame::gone_words, crate::specs::Frame::given_words))]
fn add_fate(page: &mut Page, fate: Fate) -> Result<(), NoMemory>
    ensures { OnOk result (page.new.bytes ≡ page.old.bytes ++ fate_words fate) }
{
    match fate {
        Fate::Unknown => add(page, &[Part::Text(b" unknown\n")]),
        Fate::Pending => add(page, &[Part::Text(b" pending\n")]),
        Fate::Full { by } => add(
            page,
            &[
                Part::Text(b" full "),
                Part::Number(by as u64),
                Part::Text(b"\n"),
            ],
        ),
        Fate::Gone { by } => add(
            page,
            &[
                Part::Text(b" gone "),
                Part::Number(by as u64),
                Part::Text(b"\n"),
            ],
        ),
        Fate::Given { stay } => add(
            page,
            &[
                Part::Text(b" given "),
                Part::Number(stay.by as u64),
                Part::Text(b" done "),
                or_dash(stay.done),
                Part::Text(b" read "),
                or_dash(stay.read),
                Part::Text(b" finished "),
                or_dash(stay.finished),
                Part::Text(b"\n"),
            ],
        ),
    }
}

#[tactic(auto, using(crate::proofs::Pages::adding))]
fn add_trace(page: &mut Page, trace: &Trace) -> Result<(), NoMemory>
    ensures { OnOk result (page.new.bytes ≡ page.old.bytes ++ trace_line trace.now) }
{
    add_trace_start(page, trace)?;
    add_fate(page, trace.fate)
}

fn add_traces(page: &mut Page, traces: &[Trace]) -> Result<(), NoMemory>
    ensures { OnOk result (page.new.bytes ≡ page.old.bytes ++ flat_map trace_line traces.now) }
{
    for trace in traces {
        add_trace(page, trace)?;
    }
    Ok(())
}

/// Adds what is told of the frame at this place of the entry of this number, both counted from 1.
#[tactic(auto, using(crate::proofs::Pages::adding))]
pub(crate) fn add_frame(
    page: &mut Page,
    alloc: Global,
    entries: &[Entry],
    number: u32,
    place: u32,
) -> Result<(), NoMemory>
    requires { length entries.now < 2 ^ 32 - 1 }
    ensures { OnOk result (page.new.bytes ≡ page.old.bytes ++ frame_text entries.now number place) }
{
    let all = frames_at(entries, number);
    if place == 0 || all < place as u64 {
        return add_no_frame(page, number, place);
    }
    let traces = traces(alloc, entries, number, place as u64 - 1)?;
    add_frame_line(page, number, place, all)?;
    add_traces(page, &traces)
}
