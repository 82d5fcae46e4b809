ghost use Rattle.std.specs.Prelude.{List, ℕ, true, ◌≡◌, ◌≤◌, ◌+◌, ◌-◌, ◌==◌, ◌&&◌, not, nat_lt, slice_index, [], ◌++◌, All, length, take, drop, map, min, sum, nat_eq, false, Some, None, vec_capacity, IfOk, IfErr, IfSome, IfNone};
ghost use Rattle.nm_types.specs.Limits.{most_ring};
ghost use Rattle.vale_port.specs.Words.{FitsPart, Frame, IsFrameSize, IsName, IsSingle, Offer, buffer_count};
ghost use Rattle.vale_port.specs.Words.{buffers_at_port, buffers_of, colon_in, completed};
ghost use Rattle.vale_port.specs.Words.{delivered_frames, due_of, frames_in, given_by_sync};
ghost use Rattle.vale_port.specs.Words.{granted_sizes, held_gots, indices_of, is_on_switch};
ghost use Rattle.vale_port.specs.Words.{is_there, leased, leases_of, leases_out, out_count, out_of};
ghost use Rattle.vale_port.specs.Words.{ready_frames, ready_gots, room_to_sync, size_of_frames};
ghost use Rattle.vale_port.specs.Words.{slots_out};
ghost use Rattle.vale_port.specs.Words.{space_of as line_space, starts_with, switch_of};
ghost use Rattle.vale_port.specs.Words.{taken_count, unread_count, with_lease};
ghost use Rattle.vale_entry.specs.World.{space_of};
ghost use Rattle.vale_port.specs.Kept.{bytes_of};
ghost use Rattle.vale_port.specs.Laws.{with_line, line_after_put};
ghost use Rattle.vale_port.specs.Stored.{state_of, IsStored};
ghost use Rattle.vale_port.specs.Ports.{PortState, opened_state, due_of_state, is_open_state, is_open_state_on, is_shutting_state, is_part, IsLastByte, IsSeatOf, IsLeaseFor, IsFilledFor, Gives, sizes_of};
ghost use Rattle.vale_port.specs.Seat.{Seat, opened_seat, given_frames, seat_given, seat_done, seat_synced, seat_put, seat_shut};

use crate::room::PutRoom;
use nm_pipe::give;
use nm_region::Buf;
use nm_types::{LeaseId, Name, NoMemory, PortId, SessionId};
use std::alloc::Global;
use std::marker::Model;
use vale_line::{Got, Lease, LeaseRoom, Line, Sizes};

/// A port that is to be opened: all but its receive ring.
#[derive(Clone, Copy)]
pub struct Opening {
    /// The number of the entry that opens it.
    pub id: PortId,
    /// The session that opens it.
    pub session: SessionId,
    pub name: Name,
    /// The slots of the transmit ring.
    pub tx: u32,
    /// The extra buffers.
    pub extra: u32,
}

/// A port of a switch, an end of a pipe or a monitor, with the kernel side of its receive ring.
/// It cannot be dropped: `close` gives its buffers back.
///
/// `out` counts the buffers that syncs handed out and that have not come back. `numbers` is empty: it
/// is memory for the numbers of the buffers that the session holds for the port, which `close` gives
/// out.
pub struct Port {
    id: PortId,
    session: SessionId,
    name: Name,
    tx: u32,
    extra: u32,
    shutting: bool,
    out: u32,
    line: Line,
    numbers: Vec<u32>,
}

impl Model for Port {
    ghost Value = { PortState };

    ghost view = { state_of };

    ghost invariant = { IsStored };
}

/// Tells whether a text begins with another one, which is no longer.
fn begins(text: &[u8], with: &[u8]) -> bool
    requires { length with.now ≤ length text.now }
    ensures { result ≡ starts_with nat_eq text.now with.now }
{
    for i in 0..with.len() {
        if text[i] != with[i] {
            return false;
        }
    }
    true
}

/// Tells whether a text begins with a part and a colon.
fn is_part(text: &[u8], part: &[u8]) -> bool
    ensures { result ≡ is_part text.now part.now }
{
    part.len() < text.len() && text[part.len()] == b':' && begins(text, part)
}

/// Tells whether a name is that of a port of this switch, which has no colon. The part before the
/// colon is looked at first, as it tells ports of other switches apart.
fn is_named_on(name: &[u8], switch: &[u8]) -> bool
    requires name { IsName name.now }
    requires switch { colon_in switch.now ≡ None }
    ensures { result ≡ is_on_switch switch.now name.now }
{
    name.len() > 4 && is_part(&name[4..], switch) && begins(name, b"vale")
}

/// The last byte of `vale` and a switch's text.
pub(crate) fn last_byte(switch: &[u8]) -> u8
    ensures { IsLastByte switch.now result }
{
    if switch.is_empty() {
        b'e'
    } else {
        switch[switch.len() - 1]
    }
}

/// Tells whether a byte stands in a name at this place.
fn stands_at(name: &[u8], at: usize, byte: u8) -> bool
    ensures { result ≡ (nat_lt at (length name.now) && slice_index name.now at == byte) }
{
    at < name.len() && name[at] == byte
}

/// Tells whether a name is that of a port of this switch, which has no colon. Most ports are of
/// other switches, which the last byte of `vale` and the switch's text tells apart.
fn is_on(name: &[u8], switch: &[u8], last: u8) -> bool
    requires name { IsName name.now }
    requires switch { colon_in switch.now ≡ None }
    requires last { IsLastByte switch.now last }
    ensures { result ≡ is_on_switch switch.now name.now }
{
    stands_at(name, switch.len() + 3, last) && is_named_on(name, switch)
}

impl Port {
    /// Opens a port whose receive ring has these buffers, which are idle. `close` gives them back
    /// in the vector that is passed here, and so does `NoMemory` at once. No other call takes
    /// memory.
    pub fn new(
        alloc: Global,
        opening: Opening,
        bufs: Vec<Buf>,
    ) -> Result<Port, (NoMemory, Vec<Buf>)>
        requires size { (1 ≤ length bufs.items) × (length bufs.items ≤ most_ring) }
        ensures ok { IfOk result (λ port. port ≡ opened_state opening.id.0 opening.session.0
            opening.name opening.tx opening.extra bufs.items) }
        ensures seat { IfOk result (λ port. IsSeatOf (opened_seat opening.id.0 opening.session.0
            opening.name opening.tx opening.extra (indices_of bufs.items)) port) }
        ensures err { IfErr result (λ fault. fault.1.items ≡ bufs.items) }
    {
        let most = opening.tx as usize + opening.extra as usize + bufs.len();
        let Ok(numbers) = Vec::with_capacity(alloc, most) else {
            return Err((NoMemory, bufs));
        };
        match Line::new(alloc, bufs) {
            Ok(line) => Ok(Port {
                id: opening.id,
                session: opening.session,
                name: opening.name,
                tx: opening.tx,
                extra: opening.extra,
                shutting: false,
                out: 0,
                line,
                numbers,
            }),
            Err(fault) => Err(fault),
        }
    }

    /// Returns the number of the entry that opened the port.
    pub fn id(&self) -> PortId
        ensures { result.0 ≡ self.now.id }
    {
        self.id
    }

    /// Returns the session that opened the port.
    pub fn session(&self) -> SessionId
        ensures { result.0 ≡ self.now.session }
    {
        self.session
    }

    /// Returns the port's name.
    pub fn name(&self) -> Name
        ensures { result ≡ self.now.name }
    {
        self.name
    }

    /// Tells whether the port is open, and not being shut.
    pub fn is_open(&self) -> bool
        ensures { result ≡ not self.now.shutting }
    {
        !self.shutting
    }

    pub(crate) fn is_open_at(&self, id: PortId) -> bool
        ensures { result ≡ is_open_state id.0 self.now }
    {
        self.id == id && !self.shutting
    }

    pub(crate) fn is_shutting_at(&self, id: PortId) -> bool
        ensures { result ≡ is_shutting_state id.0 self.now }
    {
        self.id == id && self.shutting
    }

    /// Tells whether the port is open on this switch, which has no colon.
    pub(crate) fn is_open_on(&self, switch: &[u8], last: u8) -> bool
        requires switch { colon_in switch.now ≡ None }
        requires last { IsLastByte switch.now last }
        ensures { result ≡ is_open_state_on switch.now self.now }
    {
        is_on(self.name.as_bytes(), switch, last) && !self.shutting
    }

    /// Tells whether the port is open on the switch of a name.
    #[tactic(auto, using(crate::proofs::OnSwitch::switches))]
    pub(crate) fn is_open_beside(&self, name: &Name) -> bool
        ensures { result ≡ is_open_state_on (switch_of name.now) self.now }
    {
        let switch = name.switch();
        self.is_open_on(switch, last_byte(switch))
    }

    /// Returns the number of slots of the transmit ring: 0 for a monitor, which has none.
    pub fn tx(&self) -> u32
        ensures { result ≡ self.now.tx }
    {
        self.tx
    }

    /// Returns the number of buffers that syncs handed out and that have not come back.
    pub fn out(&self) -> u32
        ensures { result ≡ out_of self.now.line }
    {
        self.out
    }

    /// Returns the number of buffers that the session holds for the port.
    pub fn due(&self) -> u64
        ensures state { result ≡ due_of_state self.now }
        ensures seat { (seat : Seat) → IsSeatOf seat self.now → result ≡ due_of seat.port }
    {
        self.tx as u64 + self.extra as u64 + self.out as u64
    }

    /// Returns the number of slots of the receive ring.
    #[tactic(auto, using(crate::proofs::SeatTies::seats))]
    pub fn rx(&self) -> u32
        ensures state { result ≡ self.now.line.size }
        ensures seat { (seat : Seat) → IsSeatOf seat self.now → result ≡ seat.port.rx }
    {
        self.line.size()
    }

    /// Returns the number of slots that a grant or a put can still fill.
    #[tactic(auto, using(crate::proofs::SeatTies::seats))]
    pub fn space(&self) -> u32
        ensures state { result ≡ line_space self.now.line }
        ensures seat { (seat : Seat) → IsSeatOf seat self.now → result ≡ space_of seat.port }
    {
        self.line.space()
    }

    /// Returns the number of buffers that a sync would hand out.
    pub fn ready(&self) -> u32
        ensures state { result ≡ length (ready_gots self.now.line.lots) }
        ensures seat { (seat : Seat) → IsSeatOf seat self.now
            → result ≡ size_of_frames (delivered_frames seat.port) }
    {
        self.line.ready()
    }

    /// Returns the number of frames that a sync would hand out.
    pub fn ready_frames(&self) -> u32
        ensures state { result ≡ length (ready_frames self.now.line.lots) }
        ensures seat { (seat : Seat) → IsSeatOf seat self.now
            → result ≡ length (delivered_frames seat.port) }
    {
        self.line.ready_frames()
    }

    /// Puts the slots of each of these frames into an empty vector that has room for them.
    pub fn ready_sizes(&self, sizes: &mut Vec<u32>)
        requires none { sizes.old.items ≡ [] }
        requires room { length (ready_frames self.now.line.lots) ≤ vec_capacity sizes.old }
        ensures sizes { (seat : Seat) → IsSeatOf seat self.now
            → sizes.new.items ≡ sizes_of (delivered_frames seat.port) }
        ensures capacity { vec_capacity sizes.new ≡ vec_capacity sizes.old }
    {
        self.line.ready_sizes(sizes);
    }

    /// Returns the number of buffers for which a sync wants room: none where it hands out one lot,
    /// whose own vector serves.
    pub fn room_to_sync(&self) -> u32
        ensures { result ≡ room_to_sync self.now.line.lots }
    {
        self.line.room_to_sync()
    }

    /// Returns the number of leases that are not done.
    #[tactic(auto, using(crate::proofs::SeatTies::seats))]
    pub fn leases_out(&self) -> u32
        ensures state { result ≡ out_count (leases_of self.now.line.lots) }
        ensures seat { (seat : Seat) → IsSeatOf seat self.now → result ≡ leases_out seat.port }
    {
        self.line.out()
    }

    /// Leases the first idle buffers for the longest prefix of an offer's frames that fits: `want`
    /// is the number of slots of each frame. Returns None if no frame fits.
    pub fn grant(&mut self, id: LeaseId, room: LeaseRoom, want: &Sizes) -> Option<Lease>
        requires new { is_there id.0 (leases_of self.old.line.lots) ≡ false }
        requires sizes { All IsFrameSize want.now }
        requires room { min (sum want.now) (self.old.line.size - 1) ≤ room }
        ensures seat { (seat : Seat) (offer : Offer) → IsSeatOf seat self.old
            → want.now ≡ sizes_of offer.frames → IsSeatOf (seat_given id.0 offer seat) self.new }
        ensures some { IfSome result (λ lease. (seat : Seat) (offer : Offer)
            → IsSeatOf seat self.old → want.now ≡ sizes_of offer.frames
            → IsLeaseFor id.0 offer seat lease) }
        ensures none { IfNone result ((seat : Seat) (offer : Offer) → IsSeatOf seat self.old
            → want.now ≡ sizes_of offer.frames → given_frames offer seat ≡ []) }
        ensures refused { IfNone result (granted_sizes want.now self.old.line ≡ []) }
        ensures lease { IfSome result (λ lease. lease
            ≡ leased id self.old.id (granted_sizes want.now self.old.line) self.old.line) }
        ensures lot { IfSome result (λ lease.
            self.new ≡ with_line (with_lease id (buffer_count lease) self.old.line) self.old) }
        ensures kept { IfNone result (self.new ≡ self.old) }
    {
        self.line.grant(id, self.id, room, want)
    }

    /// Completes the lot of a lease, which is full.
    pub fn done(&mut self, lease: Lease)
        requires lot { slots_out lease.id self.old.line.lots ≡ Some (buffer_count lease) }
        requires full { lease.sizes ≡ [] }
        ensures lots { self.new ≡ with_line (record self.old.line {
          lots = map (completed lease.id lease.filled) self.old.line.lots;
        }) self.old }
        ensures seat { (seat : Seat) → IsSeatOf seat self.old → IsFilledFor seat lease
            → IsSeatOf (seat_done lease.id seat) self.new }
    {
        self.line.done(lease)
    }

    /// Takes buffers back, and hands out those of the lots that are ready, in `room`.
    pub fn sync(&mut self, back: Vec<Buf>, room: Vec<Got>) -> Vec<Got>
        requires returned { length back.items ≤ out_of self.old.line }
        requires none { room.items ≡ [] }
        requires room { room_to_sync self.old.line.lots ≤ vec_capacity room }
        ensures seat { (seat : Seat) → IsSeatOf seat self.old
            → IsSeatOf (seat_synced (indices_of back.items) seat) self.new }
        ensures gives { (seat : Seat) → IsSeatOf seat self.old → Gives seat result.items }
        ensures line { self.new ≡ with_line (given_by_sync back.items self.old.line) self.old }
        ensures got { result.items ≡ ready_gots self.old.line.lots }
        ensures capacity { vec_capacity room ≤ vec_capacity result }
    {
        let ready = self.line.ready();
        self.out = self.out + ready - back.len() as u32;
        self.line.sync(back, room)
    }

    /// Takes the first frames that the other end of a pipe offers, as many as there is space for,
    /// with their buffers, and hands out as many of the first idle buffers in their place. What is
    /// not taken stays in `pending`.
    pub fn put(&mut self, id: LeaseId, pending: &mut Vec<Got>, room: PutRoom) -> Vec<Buf>
        requires new { is_there id.0 (leases_of self.old.line.lots) ≡ false }
        requires single { All IsSingle pending.old.items }
        requires fits { All FitsPart pending.old.items }
        requires room { min (length pending.old.items) (line_space self.old.line) ≤ room }
        ensures count { length result.items
            ≡ min (length pending.old.items) (line_space self.old.line) }
        ensures took { (seat : Seat) → IsSeatOf seat self.old
            → length result.items ≡ taken_count (Some seat.port) (length pending.old.items) }
        ensures seat { (seat : Seat) (session : ℕ) (frames : List Frame) → IsSeatOf seat self.old
            → bytes_of frames ≡ frames_in (take (length result.items) pending.old.items)
            → IsSeatOf (seat_put id.0 session frames
            (indices_of (buffers_of (take (length result.items) pending.old.items))) seat)
            self.new }
        ensures line { self.new ≡ with_line (line_after_put id
            (take (length result.items) pending.old.items) self.old.line) self.old }
        ensures pending { pending.new.items ≡ drop (length result.items) pending.old.items }
        ensures capacity { vec_capacity pending.new ≡ vec_capacity pending.old }
        ensures back { result.items ≡ take (length result.items) self.old.line.idle }
        ensures idle { (seat : Seat) → IsSeatOf seat self.old
            → indices_of result.items ≡ take (length result.items) seat.held.idle }
    {
        let (mut taken, lent, mut back) = room.into_vecs();
        let count = pending.len().min(self.line.space() as usize);
        let mut lent = self.line.lend(count as u32, lent);
        give(pending, &mut taken, &mut lent, &mut back);
        lent.destroy_empty();
        self.line.accept(id, &mut taken);
        taken.destroy_empty();
        back
    }

    /// Closes the port for new frames.
    pub fn shut(&mut self)
        ensures state { self.new ≡ record self.old { shutting = true } }
        ensures seat { (seat : Seat) → IsSeatOf seat self.old → IsSeatOf (seat_shut seat) self.new }
    {
        self.shutting = true;
    }

    /// Gives back the buffers of the kernel side of its receive ring, in the vector that the port
    /// was opened with, the number of frames that no sync handed out, and an empty vector with room
    /// for the numbers of the buffers that the session holds for the port.
    pub fn close(self) -> (Vec<Buf>, u32, Vec<u32>)
        requires { out_count (leases_of self.line.lots) ≡ 0 }
        ensures buffers { result.0.items ≡ self.line.idle ++ buffers_of (held_gots self.line.lots) }
        ensures held { (seat : Seat) → IsSeatOf seat self
            → indices_of result.0.items ≡ buffers_at_port seat.held }
        ensures unread { (seat : Seat) → IsSeatOf seat self → result.1 ≡ unread_count seat.port }
        ensures unread_here { result.1 ≡ length (frames_in (held_gots self.line.lots)) }
        ensures none { result.2.items ≡ [] }
        ensures room { due_of_state self ≤ vec_capacity result.2 }
    {
        let Port {
            id: _,
            session: _,
            name: _,
            tx: _,
            extra: _,
            shutting: _,
            out: _,
            line,
            numbers,
        } = self;
        let (bufs, unread) = line.clear();
        (bufs, unread, numbers)
    }
}
