use nm_count::Tally;
use nm_types::{Counts, NoMemory, PortId};
use std::process::Abort;

/// Two additions to a port add up.
#[test]
fn two_adds(rt: HostRuntime) -> Result<(), NoMemory> {
    let one = Counts {
        sent: 1,
        ..Counts::ZERO
    };
    let mut tally = Tally::new(rt.alloc())?;
    tally.open(PortId(4));
    assert!(rt; tally.of(PortId(4)) == Some(Counts::ZERO));
    tally.add(PortId(4), &one);
    tally.add(PortId(4), &one);
    assert!(rt;
        tally.of(PortId(4))
            == Some(Counts {
                sent: 2,
                ..Counts::ZERO
            })
    );
    assert!(rt; tally.of(PortId(5)).is_none());
    Ok(())
}

/// Ports are added in any order and one is removed; each of the others keeps its own counters.
#[test]
fn ports_keep_their_own_counters(rt: HostRuntime) -> Result<(), NoMemory> {
    let some = Counts {
        sent: 1,
        short: 2,
        lone: 3,
        given: 4,
        full: 5,
        read: 6,
    };
    let mut tally = Tally::new(rt.alloc())?;
    tally.open(PortId(6));
    tally.open(PortId(4));
    tally.open(PortId(9));
    tally.add(PortId(6), &some);
    tally.gone(PortId(4));
    assert!(rt; tally.of(PortId(4)).is_none());
    assert!(rt; tally.of(PortId(6)) == Some(some));
    assert!(rt; tally.of(PortId(9)) == Some(Counts::ZERO));
    Ok(())
}
