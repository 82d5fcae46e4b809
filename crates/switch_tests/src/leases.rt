use nm_types::LeaseId;
use std::process::Abort;
use vale_lease::Leases;

/// So many slots could a reader take, and so many leases are not done.
fn count(rt: &impl Abort, leases: &Leases, ready: u32, out: u32) {
    assert!(rt; leases.ready() == ready, "{ready}");
    assert!(rt; leases.out() == out, "{out}");
}

/// A ring of 8 slots leases 2 slots and then 1; the second lease is completed first, and hands
/// nothing to the reader before the first one is done.
#[test]
fn leases_completed_out_of_order(rt: HostRuntime) {
    let mut leases = Leases::new(rt.alloc(), 8).expect(&rt, "room for the leases");
    count(&rt, &leases, 0, 0);
    leases.open(LeaseId(7), 2);
    leases.open(LeaseId(9), 1);
    count(&rt, &leases, 0, 2);
    leases.done(LeaseId(9));
    count(&rt, &leases, 0, 1);
    assert!(rt; leases.take() == 0);
    leases.done(LeaseId(7));
    count(&rt, &leases, 3, 0);
    assert!(rt; leases.take() == 3);
    count(&rt, &leases, 0, 0);
    assert!(rt; leases.take() == 0);
}

/// All slots but one of a ring of 3 are leased, again and again: the ring goes round.
#[test]
fn full_ring_goes_round(rt: HostRuntime) {
    let mut leases = Leases::new(rt.alloc(), 3).expect(&rt, "room for the leases");
    leases.open(LeaseId(1), 1);
    leases.open(LeaseId(2), 1);
    leases.done(LeaseId(1));
    assert!(rt; leases.take() == 1);
    leases.open(LeaseId(3), 1);
    leases.done(LeaseId(2));
    assert!(rt; leases.take() == 1);
    leases.open(LeaseId(4), 1);
    leases.done(LeaseId(4));
    count(&rt, &leases, 0, 1);
    leases.done(LeaseId(3));
    count(&rt, &leases, 2, 0);
}
