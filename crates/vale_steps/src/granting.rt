ghost use Rattle.std.specs.Prelude.{false, ◌≡◌, ◌<◌, ◌≤◌, ◌+◌, ◌==◌, ◌^◌, [], ◌∷◌, ◌++◌, All, length, sum, IsSome, slice_set, Some, if◌then◌else◌, IfSome, IfNone};
ghost use Rattle.vale_steps.specs.Words.{ChangesSeat, FitsIn, IsFrameSize, IsLeaseFor, OfSeat};
ghost use Rattle.vale_steps.specs.Words.{OfState, Offer, buffer_count, count_shared, counts_of};
ghost use Rattle.vale_steps.specs.Words.{given_frames, granted_sizes, is_there, leased, leases_of};
ghost use Rattle.vale_steps.specs.Words.{seat_given, sizes_of, tally_after_add, wanted, with_lease};
ghost use Rattle.vale_steps.specs.Words.{with_line};
ghost use Rattle.vale_entry.specs.declared.entry.Reply.TheVariants as replies;
ghost use Rattle.vale_steps.specs.Granting.{given_by, grant_entry, lease_id};

use nm_count::Tally;
use nm_types::{Counts, LeaseId, PortId, SessionId};
use vale_batch::Want;
use vale_entry::{Ask, Entry, History, Reply};
use vale_line::{Lease, LeaseRoom};
use vale_port::{Port, grant_at};

/// What a grant gave. It must be spent with its lease.
pub struct Granted {
    /// The port to which the frames were offered.
    pub to: PortId,
    /// The frames for which there was room.
    pub given: u32,
    /// The frames for which there was none.
    pub full: u32,
    /// The frames whose port is not open any more.
    pub gone: u32,
    /// What was wanted: the first `given` of its places are those of the frames with which the
    /// lease is to be filled.
    pub want: Want,
    /// The buffers for the frames given, if some were.
    pub lease: Option<Lease>,
}

impl Granted {
    /// What was wanted, and the lease.
    pub fn into_lease(self) -> (Want, Option<Lease>)
        ensures want { result.0 ≡ self.want }
        ensures lease { result.1 ≡ self.lease }
    {
        let Granted {
            to: _,
            given: _,
            full: _,
            gone: _,
            want,
            lease,
        } = self;
        (want, lease)
    }
}

/// Records a grant. One that gives nothing needs no room for its completion.
fn record(
    history: &mut History,
    session: SessionId,
    origin: u32,
    to: PortId,
    given: u32,
    full: u32,
    gone: u32,
)
    requires { 2 ≤ history.old.promised }
    ensures entries { history.new.entries
        ≡ history.old.entries ++ grant_entry session origin to given full gone ∷ [] }
    ensures promised { history.new.promised + 1 + (if given == 0 then 1 else 0)
        ≡ history.old.promised }
    ensures limits { history.new.limits ≡ history.old.limits }
{
    history.push(Entry {
        session,
        ask: Ask::Grant { origin, to },
        reply: Reply::Shared { given, full, gone },
    });
    if given == 0 {
        history.release(1);
    }
}

/// How many frames a grant gave room for.
fn given_by(lease: &Option<Lease>) -> u32
    ensures { result ≡ given_by lease.now }
{
    match lease {
        Some(lease) => lease.count(),
        None => 0,
    }
}

/// Grants what is wanted at the open port at a place, and records it.
pub fn give(
    history: &mut History,
    ports: &mut Vec<Port>,
    place: usize,
    session: SessionId,
    origin: u32,
    want: Want,
    room: LeaseRoom,
) -> Granted
    requires promised { 2 ≤ history.old.promised }
    requires place { place < length ports.old.items }
    requires new { OfState (λ p. is_there (length history.old.entries + 1)
        (leases_of p.line.lots) ≡ false) ports.old.items place }
    requires sizes { All IsFrameSize want.sizes }
    requires few { length want.sizes < 2 ^ 32 }
    requires room { sum want.sizes ≤ room }
    ensures to { result.to ≡ want.to }
    ensures want { result.want ≡ want }
    ensures given { result.given ≡ given_by result.lease }
    ensures full { result.given + result.full ≡ length want.sizes }
    ensures gone { result.gone ≡ 0 }
    ensures entries { history.new.entries ≡ history.old.entries
        ++ grant_entry session origin want.to result.given result.full 0 ∷ [] }
    ensures promised { history.new.promised + 1 + (if result.given == 0 then 1 else 0)
        ≡ history.old.promised }
    ensures limits { history.new.limits ≡ history.old.limits }
    ensures seats { (offer : Offer) → want.sizes ≡ sizes_of offer.frames
        → ChangesSeat (seat_given (length history.old.entries + 1) offer) ports.old.items place
        ports.new.items }
    ensures some { IfSome result.lease (λ lease. (offer : Offer)
        → want.sizes ≡ sizes_of offer.frames
        → OfSeat (λ seat. IsLeaseFor (length history.old.entries + 1) offer seat lease)
        ports.old.items place) }
    ensures none { IfNone result.lease ((offer : Offer)
        → want.sizes ≡ sizes_of offer.frames
        → OfSeat (λ seat. given_frames offer seat ≡ []) ports.old.items place) }
    ensures lease { IfSome result.lease (λ lease. OfState (λ p. lease
        ≡ leased (lease_id (length history.old.entries + 1)) p.id
        (granted_sizes want.sizes p.line) p.line) ports.old.items place) }
    ensures lot { IfSome result.lease (λ lease. OfState (λ p. ports.new.items
        ≡ slice_set ports.old.items place (with_line (with_lease
        (lease_id (length history.old.entries + 1)) (buffer_count lease) p.line) p))
        ports.old.items place) }
    ensures kept { IfNone result.lease (ports.new.items ≡ ports.old.items) }
{
    let id = LeaseId(history.len() + 1);
    let count = want.sizes.len() as u32;
    let lease = grant_at(ports, place, id, room, &want.sizes);
    let given = given_by(&lease);
    let full = count - given;
    record(history, session, origin, want.to, given, full, 0);
    Granted {
        to: want.to,
        given,
        full,
        gone: 0,
        want,
        lease,
    }
}

/// Records that all that is wanted at a port is gone with it.
pub fn lose(history: &mut History, session: SessionId, origin: u32, want: Want) -> Granted
    requires promised { 2 ≤ history.old.promised }
    requires few { length want.sizes < 2 ^ 32 }
    ensures to { result.to ≡ want.to }
    ensures want { result.want ≡ want }
    ensures given { (result.given ≡ 0) × (result.full ≡ 0) }
    ensures gone { result.gone ≡ length want.sizes }
    ensures lease { IfSome result.lease (λ _. ⊥) }
    ensures entries { history.new.entries ≡ history.old.entries
        ++ grant_entry session origin want.to 0 0 (length want.sizes) ∷ [] }
    ensures promised { history.new.promised + 2 ≡ history.old.promised }
    ensures limits { history.new.limits ≡ history.old.limits }
{
    let gone = want.sizes.len() as u32;
    record(history, session, origin, want.to, 0, 0, gone);
    Granted {
        to: want.to,
        given: 0,
        full: 0,
        gone,
        want,
        lease: None,
    }
}

/// Counts at its port what a grant gave and what it found full.
pub fn count(tally: &mut Tally, granted: &Granted)
    requires there { IsSome (counts_of tally.old granted.now.to.0) }
    requires fits { FitsIn tally.old granted.now.to.0
        (count_shared (replies.Shared granted.now.given granted.now.full granted.now.gone)) }
    ensures { tally.new ≡ tally_after_add granted.now.to.0
        (count_shared (replies.Shared granted.now.given granted.now.full granted.now.gone))
        tally.old }
{
    let more = Counts {
        given: u64::from(granted.given),
        full: u64::from(granted.full),
        ..Counts::ZERO
    };
    tally.add(granted.to, &more);
}
