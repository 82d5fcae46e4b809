ghost use Rattle.std.specs.Prelude.{◌≡◌, ◌≢◌, ◌↔◌, ◌<◌, ◌≤◌, length, MatchResult, IsOk, IsTrue, None, Some};
ghost use Rattle.nm_types.specs.Positions.{IsRingSize, IsRing, FitsRing, dist};
ghost use Rattle.nm_types.specs.Positions.{opened_tx, opened_rx, advanced, step_on, pending_slots};
ghost use Rattle.nm_types.specs.SyncChecks.{ring_refusal};
ghost use Rattle.nm_types.specs.Reset.{reset_positions};
ghost use Rattle.nm_ring.specs.Front.{space};

use nm_types::RingFault;
use std::marker::Model;

/// The positions of a ring of 2 to 4096 slots. The user writes head and cur, which may be any
/// numbers; the tail is the kernel side's, which keeps the last accepted head and the last tail.
#[derive(Clone, Copy, PartialEq, Eq)]
pub struct Ring {
    size: u32,
    head: u32,
    cur: u32,
    tail: u32,
    accepted_head: u32,
    last_tail: u32,
}

impl Model for Ring {
    ghost use Rattle.nm_types.specs.Positions.{RingState};
    ghost use Rattle.nm_ring.specs.Stored.{seen, fields, IsStored};

    ghost Value = { RingState };

    ghost view = { seen };

    ghost invariant = { IsStored };

    ghost inverse = { fields };
}

/// How many steps it is from one position to another, going round.
#[tactic(auto, using(crate::proofs::Distances::distances))]
fn dist(size: u32, from: u32, to: u32) -> u32
    requires size { IsRingSize size }
    requires from { from < size }
    requires to { to < size }
    ensures { result ≡ dist size from to }
{
    if to < from {
        size - (from - to)
    } else {
        to - from
    }
}

impl Ring {
    /// An opened transmit ring: all its slots but one are the user's.
    pub fn tx(size: u32) -> Ring
        requires { IsRingSize size }
        ensures { result ≡ opened_tx size }
    {
        Ring {
            size,
            head: 0,
            cur: 0,
            tail: size - 1,
            accepted_head: 0,
            last_tail: size - 1,
        }
    }

    /// An opened receive ring: none of its slots is the user's.
    pub fn rx(size: u32) -> Ring
        requires { IsRingSize size }
        ensures { result ≡ opened_rx size }
    {
        Ring {
            size,
            head: 0,
            cur: 0,
            tail: 0,
            accepted_head: 0,
            last_tail: 0,
        }
    }

    /// The number of slots.
    pub fn size(&self) -> u32
        ensures size { result ≡ self.now.size }
        ensures ring { IsRing self.now }
    {
        self.size
    }

    /// The user's head: any number.
    pub fn head(&self) -> u32
        ensures { result ≡ self.now.head }
    {
        self.head
    }

    /// The user's cur: any number.
    pub fn cur(&self) -> u32
        ensures { result ≡ self.now.cur }
    {
        self.cur
    }

    /// The tail, a position.
    pub fn tail(&self) -> u32
        ensures tail { result ≡ self.now.tail }
        ensures ring { IsRing self.now }
    {
        self.tail
    }

    /// Stores a head, even one that no sync accepts.
    pub fn put_head(&mut self, head: u32)
        ensures { self.new ≡ record self.old { head = head } }
    {
        self.head = head;
    }

    /// Stores a cur, even one that no sync accepts.
    pub fn put_cur(&mut self, cur: u32)
        ensures { self.new ≡ record self.old { cur = cur } }
    {
        self.cur = cur;
    }

    /// Checks the head and the cur of a sync: `HeadOut` if the head is not a slot of the ring or is past
    /// the tail, else `CurOut` if the cur is not a slot of the ring or, seen from the head, is past the
    /// tail.
    #[tactic(auto, using(nm_types::proofs::RingChecks::ring_checks))]
    #[inline(never)]
    pub fn check(&self, head: u32, cur: u32) -> Result<(), RingFault>
        ensures refusal { MatchResult result
            (λ _. ring_refusal self.now head cur ≡ None)
            (λ fault. ring_refusal self.now head cur ≡ Some fault) }
        ensures fits { IsOk result ↔ FitsRing self.now head cur }
    {
        let (size, from, to) = (self.size, self.accepted_head, self.last_tail);
        if head >= size || dist(size, from, head) > dist(size, from, to) {
            return Err(RingFault::HeadOut { head, from, to });
        }
        if cur >= size || dist(size, head, cur) > dist(size, head, to) {
            return Err(RingFault::CurOut {
                cur,
                from: head,
                to,
            });
        }
        Ok(())
    }

    /// Accepts positions that `check` accepts, with the tail that the sync leaves.
    pub fn advance(&mut self, head: u32, cur: u32, tail: u32)
        requires fits { FitsRing self.old head cur }
        requires tail { tail < self.old.size }
        ensures { self.new ≡ advanced self.old head cur tail }
    {
        self.head = head;
        self.cur = cur;
        self.tail = tail;
        self.accepted_head = head;
        self.last_tail = tail;
    }

    /// Resets the positions to those last accepted.
    pub fn reset(&mut self)
        ensures { self.new ≡ reset_positions self.old }
    {
        self.head = self.accepted_head;
        self.cur = self.accepted_head;
        self.tail = self.last_tail;
    }

    /// The first of the user's slots, and the number of them, going round.
    pub fn user_range(&self) -> (u32, u32)
        ensures start { result.0 ≡ self.now.accepted_head }
        ensures count { result.1 ≡ dist self.now.size self.now.accepted_head self.now.last_tail }
        ensures ring { IsRing self.now }
    {
        let count = dist(self.size, self.accepted_head, self.last_tail);
        (self.accepted_head, count)
    }

    /// The slot after another one, going round: 0 after the last slot, and after what is no slot
    /// (`nm_ring_next` of netmap_user.h).
    #[tactic(auto, using(crate::proofs::Distances::steps))]
    pub fn next(&self, at: u32) -> u32
        ensures next { at < self.now.size → result ≡ step_on self.now.size at 1 }
        ensures slot { result < self.now.size }
    {
        if at < self.size - 1 { at + 1 } else { 0 }
    }

    /// How many slots there are from the head to before the tail: of a transmit ring those in which
    /// frames may still be written, of a receive ring those whose frames were not yet passed over.
    /// 0 if the head is no slot of the ring (`nm_ring_space`).
    pub fn space(&self) -> u32
        ensures { result ≡ space self.now }
    {
        if self.head < self.size {
            dist(self.size, self.head, self.tail)
        } else {
            0
        }
    }

    /// Whether the head is the tail, so that there is no such slot (`nm_ring_empty`).
    pub fn is_empty(&self) -> bool
        ensures { IsTrue result ↔ (self.now.head ≡ self.now.tail) }
    {
        self.head == self.tail
    }

    /// How many slots of a transmit ring were pushed by a sync and not taken yet: those that wait on
    /// a pipe whose other end is full (`nm_tx_pending` asks whether there are any).
    #[tactic(auto, using(crate::proofs::RingLaws::counts))]
    pub fn pending(&self) -> u32
        ensures { result ≡ length (pending_slots self.now) }
    {
        self.size - 1 - dist(self.size, self.accepted_head, self.last_tail)
    }

    /// Whether a user who waits on the ring would be woken.
    pub fn would_wake(&self) -> bool
        ensures { IsTrue result ↔ (self.now.cur ≢ self.now.tail) }
    {
        self.cur != self.tail
    }
}
