use nm_types::{Limits, NoMemory, Part, PortId, SessionId, StepFault};
use std::process::Abort;
use vale_entry::{Ask, Dest, Dests, Entry, History, Items, Numbers, Reply, laws};

/// The limits of a small record.
const SMALL: Limits = Limits {
    entries: 4,
    bytes: 10,
};

/// What refuses one more entry where four are promised.
const NO_ENTRY: StepFault = StepFault::RecordFull {
    what: Part::Entries,
    used: 4,
    want: 1,
};

/// What refuses eleven bytes.
const NO_BYTES: StepFault = StepFault::RecordFull {
    what: Part::Bytes,
    used: 0,
    want: 11,
};

#[test]
fn a_record_refuses_beyond_its_limits(rt: HostRuntime) {
    let mut history = History::new(rt.alloc(), SMALL);
    assert!(rt; history.reserve(4, 10).is_ok());
    assert!(rt; history.reserve(1, 0) == Err(NO_ENTRY));
    history.release(2);
    assert!(rt; history.reserve(1, 11) == Err(NO_BYTES));
    assert!(rt; history.reserve(2, 0).is_ok());
}

/// The history has one entry, by which this user came.
fn has_user(rt: &impl Abort, history: &History, wanted: u64) {
    assert!(rt; history.len() == 1 && history.entries().len() == 1);
    assert!(rt; history.frame_bytes() == 0);
    assert!(rt; history.get(0).is_none() && history.get(2).is_none());
    match history.get(1) {
        Some(
            Entry {
                ask: Ask::Enter { user },
                ..
            },
        ) => assert!(rt; *user == wanted),
        _ => panic!(rt; "no entry"),
    }
}

#[test]
fn entries_are_kept_under_their_numbers(rt: HostRuntime) {
    let mut history = History::new(rt.alloc(), SMALL);
    if history.reserve(2, 0).is_err() {
        panic!(rt; "no room");
    }
    history.push(Entry {
        session: SessionId(1),
        ask: Ask::Enter { user: 7 },
        reply: Reply::Made,
    });
    has_user(&rt, &history, 7);
}

#[test]
fn an_entry_is_small(rt: HostRuntime) {
    assert!(rt; std::mem::size_of::<Entry>() <= 112);
}

#[test]
fn lists_keep_their_items(rt: HostRuntime) -> Result<(), NoMemory> {
    let numbers = Numbers::from(vec![in rt.alloc(); 2, 3]?);
    assert!(rt; numbers.as_slice() == [2, 3].as_slice());
    let dest = Dest {
        to: PortId(4),
        count: 1,
    };
    let dests = Dests::from(vec![in rt.alloc(); dest]?);
    assert!(rt; dests.as_slice() == [dest].as_slice());
    let none = Items::from(Vec::new(rt.alloc()));
    let _copy = none.clone()?;
    Ok(())
}

/// The laws of what is asked.
fn laws_of_asks() {
    laws::asks_are_answered();
    laws::puts_are_kept();
    laws::finish_waits_for_leases();
    laws::names_differ();
    laws::offers_climb();
    laws::counters_are_kept();
}

/// The laws of what is where.
fn laws_of_buffers() {
    laws::numbers_rise();
    laws::ports_are_within_sizes();
    laws::free_buffers_rise();
    laws::buffers_are_parted();
    laws::holdings_agree();
    laws::sessions_have_one_unsettled();
}

/// The laws of what is owed.
fn laws_of_room() {
    laws::room_is_promised();
    laws::room_is_used();
    laws::watches_are_open();
    laws::lots_are_single();
    laws::puts_bring_once();
    laws::out_is_counted();
}

#[test]
fn laws_are_called(_rt: HostRuntime) {
    laws_of_asks();
    laws_of_buffers();
    laws_of_room();
}
