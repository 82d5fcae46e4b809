use nm_ring::Ring;
use nm_types::RingFault;
use std::process::Abort;

/// Every accepted head and tail of the rings of 2, 3 and 4 slots: the size, the accepted head, the
/// tail, the number of user slots, and the answer at each head and, within it, each cur, both from 0
/// to the size. `.` is Ok, `h` HeadOut and `c` CurOut. The script bench/ring_table.py worked it out
/// by walking round the ring slot by slot.
const POSITIONS: [(u32, u32, u32, u32, &[u8]); 29] = [
    (2, 0, 0, 0, b".cchhhhhh"),
    (2, 0, 1, 1, b"..cc.chhh"),
    (2, 1, 0, 1, b".cc..chhh"),
    (2, 1, 1, 0, b"hhhc.chhh"),
    (3, 0, 0, 0, b".ccchhhhhhhhhhhh"),
    (3, 0, 1, 1, b"..ccc.cchhhhhhhh"),
    (3, 0, 2, 2, b"...cc..ccc.chhhh"),
    (3, 1, 0, 2, b".ccc...c.c.chhhh"),
    (3, 1, 1, 0, b"hhhhc.cchhhhhhhh"),
    (3, 1, 2, 1, b"hhhhc..ccc.chhhh"),
    (3, 2, 0, 1, b".ccchhhh.c.chhhh"),
    (3, 2, 1, 2, b"..ccc.cc...chhhh"),
    (3, 2, 2, 0, b"hhhhhhhhcc.chhhh"),
    (4, 0, 0, 0, b".cccchhhhhhhhhhhhhhhhhhhh"),
    (4, 0, 1, 1, b"..cccc.ccchhhhhhhhhhhhhhh"),
    (4, 0, 2, 2, b"...ccc..cccc.cchhhhhhhhhh"),
    (4, 0, 3, 3, b"....cc...ccc..cccc.chhhhh"),
    (4, 1, 0, 3, b".cccc....c.c..c.cc.chhhhh"),
    (4, 1, 1, 0, b"hhhhhc.ccchhhhhhhhhhhhhhh"),
    (4, 1, 2, 1, b"hhhhhc..cccc.cchhhhhhhhhh"),
    (4, 1, 3, 2, b"hhhhhc...ccc..cccc.chhhhh"),
    (4, 2, 0, 2, b".cccchhhhh.c..c.cc.chhhhh"),
    (4, 2, 1, 3, b"..cccc.ccc....c..c.chhhhh"),
    (4, 2, 2, 0, b"hhhhhhhhhhcc.cchhhhhhhhhh"),
    (4, 2, 3, 1, b"hhhhhhhhhhcc..cccc.chhhhh"),
    (4, 3, 0, 1, b".cccchhhhhhhhhh.cc.chhhhh"),
    (4, 3, 1, 2, b"..cccc.ccchhhhh..c.chhhhh"),
    (4, 3, 2, 3, b"...ccc..cccc.cc....chhhhh"),
    (4, 3, 3, 0, b"hhhhhhhhhhhhhhhccc.chhhhh"),
];

/// A ring of this size with this accepted head and tail.
fn ring_at(rt: &impl Abort, size: u32, accepted: u32, tail: u32) -> Ring {
    assert!(rt; size >= 2 && size <= 4096);
    assert!(rt; tail < size);
    let mut ring = Ring::tx(size);
    assert!(rt; ring.check(accepted, accepted).is_ok());
    ring.advance(accepted, accepted, tail);
    ring
}

/// The letter of the table for an answer, whose numbers are those that were asked.
fn letter(rt: &impl Abort, ring: &Ring, head: u32, cur: u32) -> u8 {
    let (accepted, _) = ring.user_range();
    let tail = ring.tail();
    match ring.check(head, cur) {
        Ok(()) => b'.',
        Err(RingFault::HeadOut { head: at, from, to }) => {
            assert!(rt; at == head && from == accepted && to == tail);
            b'h'
        }
        Err(RingFault::CurOut { cur: at, from, to }) => {
            assert!(rt; at == cur && from == head && to == tail);
            b'c'
        }
    }
}

/// The answers at a head and each cur from 0 on.
fn answer_at_head(rt: &impl Abort, ring: &Ring, head: u32, answers: &[u8]) {
    for (cur, wanted) in (0u32..).zip(answers) {
        assert!(rt; letter(rt, ring, head, cur) == *wanted, "{head} {cur}");
    }
}

/// The answers at each head, as many as the ring has slots and one more, and each cur.
fn answer_all(rt: &impl Abort, ring: &Ring, answers: &[u8]) {
    let count = ring.size() as usize + 1;
    assert!(rt; answers.len() == count.saturating_mul(count));
    for (head, answers) in (0u32..).zip(answers.chunks(count)) {
        answer_at_head(rt, ring, head, answers);
    }
}

#[test]
fn every_position_of_small_rings(rt: HostRuntime) {
    for (size, accepted, tail, user, answers) in POSITIONS {
        let ring = ring_at(&rt, size, accepted, tail);
        assert!(rt;
            ring.size() == size
                && ring.user_range() == (accepted, user)
                && ring.would_wake() == (accepted != tail),
            "{size} {accepted} {tail}"
        );
        answer_all(&rt, &ring, answers);
    }
}

/// A transmit ring of 4096 slots that pushes 10 frames, 4095 more and none, all of them taken.
#[test]
fn ring_goes_round(rt: HostRuntime) {
    let mut ring = Ring::tx(4096);
    for (head, tail) in [(10, 9), (9, 8), (9, 8)] {
        ring.put_head(head);
        ring.put_cur(head);
        assert!(rt; ring.check(ring.head(), ring.cur()).is_ok());
        assert!(rt; ring.size() == 4096);
        ring.advance(head, head, tail);
        assert!(rt; ring.user_range() == (head, 4095));
    }
    assert!(rt; ring.head() == 9 && ring.cur() == 9 && ring.tail() == 8);
}

/// A head that is not among the slots from 0 to this one.
fn head_out(head: u32, to: u32) -> RingFault {
    RingFault::HeadOut { head, from: 0, to }
}

/// A cur that is not among the slots from this one to 3.
fn cur_out(cur: u32, from: u32) -> RingFault {
    RingFault::CurOut { cur, from, to: 3 }
}

/// Head and cur are stored in a ring as it was opened, and are refused; a reset takes them back.
fn refuse(rt: &impl Abort, opened: Ring, head: u32, cur: u32, fault: RingFault) {
    let mut ring = opened;
    ring.put_head(head);
    ring.put_cur(cur);
    assert!(rt; ring.check(ring.head(), ring.cur()) == Err(fault));
    ring.reset();
    assert!(rt; ring == opened);
    assert!(rt; ring.check(ring.head(), ring.cur()).is_ok());
}

#[test]
fn bad_positions_reset(rt: HostRuntime) {
    let rx = Ring::rx(4);
    let tx = Ring::tx(4);
    let last = u32::MAX;
    refuse(&rt, rx, 1, 1, head_out(1, 0));
    refuse(&rt, tx, 2, 1, cur_out(1, 2));
    refuse(&rt, tx, 4, 4, head_out(4, 3));
    refuse(&rt, tx, last, 0, head_out(last, 3));
    refuse(&rt, tx, 0, last, cur_out(last, 0));
    refuse(&rt, rx, last, last, head_out(last, 0));
}

/// A pipe of 4 slots whose peer takes one of three frames: two stay pending behind the tail.
#[test]
fn pipe_takes_in_part(rt: HostRuntime) {
    let mut ring = Ring::tx(4);
    assert!(rt; ring.check(3, 3).is_ok());
    assert!(rt; ring.size() == 4);
    ring.advance(3, 3, 0);
    assert!(rt; ring.user_range() == (3, 1));
    assert!(rt; ring.pending() == 2 && ring.space() == 1 && !ring.is_empty());
    assert!(rt; ring.check(3, 3).is_ok() && ring.check(0, 0).is_ok());
    assert!(rt;
        ring.check(1, 1)
            == Err(RingFault::HeadOut {
                head: 1,
                from: 3,
                to: 0
            })
    );
}

/// What a user asks of a ring between two syncs, whatever head it has stored.
#[test]
fn slots_from_the_head_on(rt: HostRuntime) {
    let (tx, rx) = (Ring::tx(4), Ring::rx(4));
    assert!(rt; tx.space() == 3 && tx.pending() == 0 && !tx.is_empty());
    assert!(rt; rx.space() == 0 && rx.is_empty());
    for (head, space) in [(0, 3), (2, 1), (3, 0), (4, 0), (u32::MAX, 0)] {
        let mut ring = tx;
        ring.put_head(head);
        assert!(rt; ring.space() == space, "head {head}");
    }
    for (at, next) in [(0, 1), (2, 3), (3, 0), (4, 0), (u32::MAX, 0)] {
        assert!(rt; tx.next(at) == next, "after {at}");
    }
}
