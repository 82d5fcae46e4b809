//! Asks in a row, with the answers that the rules give them by hand.
mod rows;
mod steps;

use nm_types::{Limits, MAX_POOL, MAX_SWITCH_PORTS, Name, OpenFault, Part, SessionId, StepFault};
use rows::{Asks, ROWS, Row, TO_ALL};
use std::alloc::Global;
use std::process::Abort;
use steps::{Answer, Step, answer_of, ask_of};
use vale_drive::Drive;
use vale_entry::Ask;

fn fresh(rt: &impl Abort, alloc: Global, pool: u32, limits: Limits) -> Drive {
    assert!(rt; 1 <= pool && pool <= MAX_POOL);
    assert!(rt; limits.entries < 4_294_967_296);
    match Drive::new(alloc, pool, limits) {
        Ok(drive) => drive,
        Err(_) => panic!(rt; "no memory"),
    }
}

fn answered(rt: &impl Abort, alloc: Global, drive: &mut Drive, step: Step) -> Answer {
    let Ok(ask) = ask_of(rt, alloc, step) else {
        panic!(rt; "no memory")
    };
    answer(drive, &ask)
}

fn answer(drive: &mut Drive, ask: &Ask) -> Answer {
    match drive.apply(ask) {
        Ok(Some(reply)) => answer_of(&reply),
        Ok(None) => Answer::NotEnabled,
        Err(fault) => Answer::Fault(fault),
    }
}

/// Opens a port of the first switch under this number, with room for a frame of three slots.
fn opened(rt: &impl Abort, alloc: Global, drive: &mut Drive, number: u32) -> Answer {
    let Ok(text) = format!(in alloc; "vale0:{number}") else {
        panic!(rt; "no memory")
    };
    let Ok(name) = Name::parse(&text) else {
        panic!(rt; "{text} is no name")
    };
    let ask = Ask::Open {
        session: SessionId(1),
        name,
        tx: 2,
        rx: 4,
        extra: 0,
    };
    answer(drive, &ask)
}

/// Makes an ask, which is answered so.
fn make(rt: &impl Abort, alloc: Global, drive: &mut Drive, step: Step, wanted: Answer) {
    let found = answered(rt, alloc, drive, step);
    assert!(rt; found == wanted, "{found:?}");
}

/// Makes asks, each of which is answered so.
fn play(rt: &impl Abort, alloc: Global, drive: &mut Drive, asks: Asks) {
    for (step, answer) in asks {
        make(rt, alloc, drive, *step, *answer);
    }
}

/// Ends a drive, with so many entries.
fn close(rt: &impl Abort, drive: Drive, entries: u32) {
    let found = drive.close().len();
    assert!(rt; found == entries, "{found}");
}

/// Plays a row.
fn play_row(rt: &impl Abort, alloc: Global, row: &Row) {
    let (pool, before, asks, entries) = row;
    let mut drive = fresh(rt, alloc, *pool, Limits::VERSION_1);
    play(rt, alloc, &mut drive, before);
    play(rt, alloc, &mut drive, asks);
    close(rt, drive, *entries);
}

#[test]
fn rows_are_answered(rt: HostRuntime) {
    for row in ROWS {
        play_row(&rt, rt.alloc(), row);
    }
}

/// Opens so many ports of the first switch, and one more, which is refused.
fn fill_switch(rt: &impl Abort, alloc: Global, drive: &mut Drive) {
    for number in 0..MAX_SWITCH_PORTS as u32 {
        assert!(rt;
            opened(rt, alloc, drive, number) == Answer::Opened,
            "{number}"
        );
    }
    let full = Answer::Refused(OpenFault::PortsFull);
    assert!(rt; opened(rt, alloc, drive, 999) == full);
}

/// A port is granted the frame, and its lease is done.
fn serve(rt: &impl Abort, alloc: Global, drive: &mut Drive, port: u32, lease: u32) {
    let grant = Step::Grant(257, port);
    make(rt, alloc, drive, grant, Answer::Shared(1, 0, 0));
    make(rt, alloc, drive, Step::Done(lease), Answer::Made);
}

/// A switch takes no more ports than the limits say, and a frame of three slots goes from its first
/// one, which is 2, to all others. The first grant is entry 258.
#[test]
fn a_full_switch_is_served(rt: HostRuntime) {
    let alloc = rt.alloc();
    let mut drive = fresh(&rt, alloc, MAX_POOL, Limits::VERSION_2);
    make(&rt, alloc, &mut drive, Step::Enter, Answer::Made);
    fill_switch(&rt, alloc, &mut drive);
    make(&rt, alloc, &mut drive, TO_ALL, Answer::Offered(3, 253));
    for port in 3..256 {
        serve(&rt, alloc, &mut drive, port, 252 + 2 * port);
    }
    close(&rt, drive, 1272);
}

#[test]
fn a_run_ends_at_a_full_record(rt: HostRuntime) {
    let limits = Limits {
        entries: 4,
        bytes: 1000,
    };
    let mut drive = fresh(&rt, rt.alloc(), 64, limits);
    let asks = [
        Ask::Leave {
            session: SessionId(2),
        },
        Ask::Enter { user: 1 },
        Ask::Enter { user: 2 },
        Ask::Enter { user: 3 },
    ];
    let fault = StepFault::RecordFull {
        what: Part::Entries,
        used: 4,
        want: 2,
    };
    assert!(rt; drive.run(&asks) == Err(fault));
    close(&rt, drive, 4);
}
