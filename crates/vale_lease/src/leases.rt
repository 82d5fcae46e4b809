ghost use Rattle.std.specs.Prelude.{All, ◌≡◌, ◌+◌, ◌-◌, ◌<◌, ◌≤◌, ◌^◌, [], ◌∷◌, ◌++◌, IfOk, IfSome, IfNone, IsTrue, false, length, map, drop, slice_get, take_while};
ghost use Rattle.std.specs.VecDeque.{deque_capacity};
ghost use Rattle.vale_lease.specs.Leases.{has_id, is_done, is_there, is_lease_out, slots_of, behind_done, first_done, out_count, completed, AreLeases, IsLeaseRing};

use nm_types::{LeaseId, NoMemory};
use std::alloc::Global;
use std::collections::VecDeque;
use std::marker::Model;

/// A lease of `slots` slots of a receive ring, and whether its holder has filled them.
#[derive(Clone, Copy, Debug, PartialEq, Eq)]
pub struct LeaseSlots {
    pub id: LeaseId,
    pub slots: u32,
    pub is_done: bool,
}

/// The leases of a receive ring, in the order in which they were opened. One slot of the ring is
/// never leased, as netmap(4)'s rings keep one slot back.
#[derive(Drop)]
pub struct Leases {
    size: u32,
    leases: VecDeque<LeaseSlots>,
}

impl Model for Leases {
    ghost use Rattle.vale_lease.specs.Leases.{LeaseRing};

    ghost Value = { LeaseRing };

    ghost use Rattle.std.specs.Prelude.{◌-◌, ◌≤◌};
    ghost use Rattle.std.specs.VecDeque.{deque_capacity};
    ghost use Rattle.vale_lease.specs.Leases.{IsLeaseRing};

    ghost view = { λ r. record { size = r.size; leases = r.leases.items } };

    ghost invariant = { λ r. IsLeaseRing (record { size = r.size; leases = r.leases.items })
        × (r.size - 1 ≤ deque_capacity r.leases) };
}

fn first_done(leases: &VecDeque<LeaseSlots>) -> Option<u32>
    ensures { result ≡ first_done leases.now.items }
{
    match leases.front() {
        Some(lease) if lease.is_done => Some(lease.slots),
        _ => None,
    }
}

/// Removes the first lease. The next one then stands where the only one stood, so that a queue which
/// is emptied again and again touches no more memory than it had leases at once.
fn remove_first(leases: &mut VecDeque<LeaseSlots>)
    requires { 1 ≤ length leases.old.items }
    ensures rest { leases.new.items ≡ drop 1 leases.old.items }
    ensures capacity { deque_capacity leases.new ≡ deque_capacity leases.old }
{
    if leases.len() == 1 {
        leases.pop_back();
    } else {
        leases.pop_front();
    }
}

#[tactic(auto, using(crate::proofs::LeaseLemmas::leases))]
fn take_done(leases: &mut VecDeque<LeaseSlots>) -> u32
    requires { slots_of leases.old.items < 2 ^ 32 }
    ensures slots { result ≡ slots_of (take_while is_done leases.old.items) }
    ensures rest { leases.new.items ≡ behind_done leases.old.items }
    ensures capacity { deque_capacity leases.new ≡ deque_capacity leases.old }
{
    let mut taken = 0;
    while let Some(slots) = first_done(leases) {
        remove_first(leases);
        taken += slots;
    }
    taken
}

/// The place of the lease of this id, found from the back, where the newest leases are.
#[tactic(auto, using(crate::proofs::LeaseLemmas::leases))]
fn place_of(leases: &VecDeque<LeaseSlots>, id: LeaseId) -> Option<usize>
    ensures within { IfSome result (λ at. at < length leases.now.items) }
    ensures found { IfSome result (λ at.
        IfSome (slice_get leases.now.items at) (λ lease. IsTrue (has_id id.0 lease))) }
    ensures none { IfNone result (All (λ lease. has_id id.0 lease ≡ false) leases.now.items) }
{
    leases.iter().rposition(|lease| lease.id == id)
}

#[tactic(auto, using(crate::proofs::LeaseLemmas::leases))]
fn mark_done(leases: &mut VecDeque<LeaseSlots>, id: LeaseId)
    requires leases { AreLeases leases.old.items }
    requires out { IsTrue (is_lease_out id.0 leases.old.items) }
    ensures items { leases.new.items ≡ map (completed id.0) leases.old.items }
    ensures capacity { deque_capacity leases.new ≡ deque_capacity leases.old }
{
    match place_of(leases, id) {
        Some(at) => leases[at].is_done = true,
        None => unreachable!(),
    }
}

fn ready_slots(leases: &VecDeque<LeaseSlots>) -> u32
    requires { slots_of leases.now.items < 2 ^ 32 }
    ensures { result ≡ slots_of (take_while is_done leases.now.items) }
{
    leases
        .iter()
        .take_while(|lease| lease.is_done)
        .map(|lease| lease.slots)
        .sum()
}

impl Leases {
    /// A ring of `size` slots, at least 1, with no lease. Takes the room for all its leases, at
    /// most one a slot: the other calls take no memory.
    pub fn new(alloc: Global, size: u32) -> Result<Leases, NoMemory>
        requires { 1 ≤ size }
        ensures { IfOk result (λ ring. ring ≡ record { size = size; leases = [] }) }
    {
        Ok(Leases {
            size,
            leases: VecDeque::with_capacity(alloc, size as usize - 1)?,
        })
    }

    /// Opens a lease of `slots` slots at the end of the queue.
    #[tactic(auto, using(crate::proofs::LeaseLemmas::leases))]
    pub fn open(&mut self, id: LeaseId, slots: u32)
        requires some { 1 ≤ slots }
        requires room { slots_of self.old.leases + slots ≤ self.old.size - 1 }
        requires new { is_there id.0 self.old.leases ≡ false }
        ensures { self.new ≡ record self.old {
          leases = self.old.leases
              ++ record { id = id; slots = slots; is_done = false } ∷ [];
        } }
    {
        self.leases.push_back_reserved(LeaseSlots {
            id,
            slots,
            is_done: false,
        });
    }

    /// Completes a lease that is out: its slots are filled.
    #[tactic(auto, using(crate::proofs::LeaseLemmas::leases))]
    pub fn done(&mut self, id: LeaseId)
        requires { IsTrue (is_lease_out id.0 self.old.leases) }
        ensures { self.new ≡ record self.old { leases = map (completed id.0) self.old.leases } }
    {
        mark_done(&mut self.leases, id);
    }

    /// The number of slots that a reader could take now: those of the longest prefix of done
    /// leases.
    pub fn ready(&self) -> u32
        ensures slots { result ≡ slots_of (take_while is_done self.now.leases) }
        ensures ring { IsLeaseRing self.now }
    {
        ready_slots(&self.leases)
    }

    /// Hands these slots to the reader: removes the longest prefix of done leases.
    #[tactic(auto, using(crate::proofs::LeaseLemmas::leases))]
    pub fn take(&mut self) -> u32
        ensures slots { result ≡ slots_of (take_while is_done self.old.leases) }
        ensures rest { self.new ≡ record self.old { leases = behind_done self.old.leases } }
    {
        take_done(&mut self.leases)
    }

    /// The number of leases that are not done.
    #[tactic(auto, using(crate::proofs::LeaseLemmas::leases))]
    pub fn out(&self) -> u32
        ensures count { result ≡ out_count self.now.leases }
        ensures ring { IsLeaseRing self.now }
    {
        self.leases.iter().filter(|lease| !lease.is_done).count() as u32
    }
}
