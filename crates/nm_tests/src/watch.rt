use nm_types::{PortId, Side, Sides, WatchFault};
use nm_watch::Watches;
use std::alloc::Global;
use std::process::Abort;

/// A call, with its answer if it has one. Ports are told by their numbers.
enum Call {
    /// A port is watched by a monitor, or the call is refused for another one's watch.
    Adds(u32, u32, Sides, Option<u32>),
    /// The monitor of a side of a port.
    Sees(u32, Side, Option<u32>),
    /// A port goes.
    Forgets(u32),
}

/// Tells whether a port comes to be watched, or is refused for the watch of another monitor.
fn adds(watches: &mut Watches, target: u32, monitor: u32, sides: Sides, by: Option<u32>) -> bool {
    match watches.add(PortId(target), PortId(monitor), sides) {
        Ok(()) => by.is_none(),
        Err(WatchFault::Watched { by: other }) => by == Some(other.0),
        Err(_) => false,
    }
}

/// Tells whether a call is answered as it says.
fn is_answered(watches: &mut Watches, call: &Call) -> bool {
    match call {
        Call::Adds(target, monitor, sides, by) => adds(watches, *target, *monitor, *sides, *by),
        Call::Sees(target, side, monitor) => {
            watches.of(PortId(*target), *side) == monitor.map(PortId)
        }
        Call::Forgets(port) => {
            watches.forget(PortId(*port));
            true
        }
    }
}

/// Makes calls over no watches, each of which is answered as it says.
fn make_all(rt: &impl Abort, alloc: Global, calls: &[Call]) {
    let mut watches = Watches::new(alloc);
    for (at, call) in calls.iter().enumerate() {
        assert!(rt; is_answered(&mut watches, call), "call {at}");
    }
}

/// Calls over no watches.
const ROWS: &[&[Call]] = &[
    // Port 4 is watched by monitor 6; a second watch of it is refused, even by the same monitor.
    &[
        Call::Adds(4, 6, Sides::TR, None),
        Call::Adds(4, 7, Sides::T, Some(6)),
        Call::Adds(4, 6, Sides::TR, Some(6)),
        Call::Sees(4, Side::Tx, Some(6)),
        Call::Sees(6, Side::Tx, None),
    ],
    // Each kind of watch sees its own sides.
    &[
        Call::Adds(4, 6, Sides::T, None),
        Call::Sees(4, Side::Tx, Some(6)),
        Call::Sees(4, Side::Rx, None),
    ],
    &[
        Call::Adds(4, 6, Sides::R, None),
        Call::Sees(4, Side::Tx, None),
        Call::Sees(4, Side::Rx, Some(6)),
    ],
    &[
        Call::Adds(4, 6, Sides::TR, None),
        Call::Sees(4, Side::Tx, Some(6)),
        Call::Sees(4, Side::Rx, Some(6)),
    ],
    // Monitor 6 watches ports 4, 5 and 7, and monitor 8 watches port 9: a watch ends with either port.
    &[
        Call::Adds(4, 6, Sides::T, None),
        Call::Adds(5, 6, Sides::T, None),
        Call::Adds(7, 6, Sides::T, None),
        Call::Adds(9, 8, Sides::R, None),
        Call::Forgets(5),
        Call::Sees(4, Side::Tx, Some(6)),
        Call::Sees(5, Side::Tx, None),
        Call::Forgets(6),
        Call::Sees(4, Side::Tx, None),
        Call::Sees(7, Side::Tx, None),
        Call::Sees(9, Side::Rx, Some(8)),
        Call::Adds(4, 8, Sides::T, None),
        Call::Sees(4, Side::Tx, Some(8)),
    ],
];

#[test]
fn watches_are_answered(rt: HostRuntime) {
    for calls in ROWS {
        make_all(&rt, rt.alloc(), calls);
    }
}
