ghost use Rattle.std.specs.Prelude.{List, ℕ, ◌≡◌, ◌≤◌, ◌<◌, ◌-◌, true, [], ◌++◌, All, map, slice_set, length, drop, take, min, sum, false, Some, vec_len, vec_capacity, IfSome, IfNone};
ghost use Rattle.vale_port.specs.Words.{FitsPart, Frame, IsFrameSize, IsSingle, Offer, buffer_count};
ghost use Rattle.vale_port.specs.Words.{buffers_at_port, buffers_of, completed, frames_in};
ghost use Rattle.vale_port.specs.Words.{given_by_sync, granted_sizes, held_gots, indices_of};
ghost use Rattle.vale_port.specs.Words.{is_there, leased, leases_of, out_count, out_of, ready_gots};
ghost use Rattle.vale_port.specs.Words.{remove, room_to_sync, slots_out, space_of as line_space};
ghost use Rattle.vale_port.specs.Words.{taken_count, unread_count, with_lease};
ghost use Rattle.vale_port.specs.Kept.{bytes_of};
ghost use Rattle.vale_port.specs.Laws.{with_line, line_after_put};
ghost use Rattle.vale_port.specs.Lists.{ChangesSeat, ChangesSeatIf, OfSeat, OfState};
ghost use Rattle.vale_port.specs.Ports.{due_of_state, IsLeaseFor, IsFilledFor, Gives, sizes_of};
ghost use Rattle.vale_port.specs.Seat.{given_frames, seat_given, seat_done, seat_synced, seat_put, seat_shut};

use crate::port::Port;
use crate::room::PutRoom;
use nm_region::Buf;
use nm_types::LeaseId;
use vale_line::{Got, Lease, LeaseRoom, Sizes};

/// Leases idle buffers of the port at a place, as `Port::grant` does.
pub fn grant_at(
    ports: &mut Vec<Port>,
    place: usize,
    id: LeaseId,
    room: LeaseRoom,
    want: &Sizes,
) -> Option<Lease>
    requires place { place < length ports.old.items }
    requires new { OfState (λ p. is_there id.0 (leases_of p.line.lots) ≡ false)
        ports.old.items place }
    requires sizes { All IsFrameSize want.now }
    requires room { OfState (λ p. min (sum want.now) (p.line.size - 1) ≤ room)
        ports.old.items place }
    ensures seats { (offer : Offer) → want.now ≡ sizes_of offer.frames
        → ChangesSeat (seat_given id.0 offer) ports.old.items place ports.new.items }
    ensures some { IfSome result (λ lease. (offer : Offer) → want.now ≡ sizes_of offer.frames
        → OfSeat (λ seat. IsLeaseFor id.0 offer seat lease) ports.old.items place) }
    ensures none { IfNone result ((offer : Offer) → want.now ≡ sizes_of offer.frames
        → OfSeat (λ seat. given_frames offer seat ≡ []) ports.old.items place) }
    ensures refused { IfNone result (OfState (λ p. granted_sizes want.now p.line ≡ [])
        ports.old.items place) }
    ensures lease { IfSome result (λ lease. OfState (λ p. lease
        ≡ leased id p.id (granted_sizes want.now p.line) p.line) ports.old.items place) }
    ensures lot { IfSome result (λ lease. OfState (λ p. ports.new.items
        ≡ slice_set ports.old.items place
        (with_line (with_lease id (buffer_count lease) p.line) p)) ports.old.items place) }
    ensures kept { IfNone result (ports.new.items ≡ ports.old.items) }
    ensures count { vec_len ports.new ≡ vec_len ports.old }
    ensures capacity { vec_capacity ports.new ≡ vec_capacity ports.old }
{
    ports[place].grant(id, room, want)
}

/// Completes the lot of a full lease at the port of a place.
pub fn done_at(ports: &mut Vec<Port>, place: usize, lease: Lease)
    requires place { place < length ports.old.items }
    requires lot { OfState (λ p. slots_out lease.id p.line.lots ≡ Some (buffer_count lease))
        ports.old.items place }
    requires full { lease.sizes ≡ [] }
    ensures seats { ChangesSeatIf (λ seat. IsFilledFor seat lease) (seat_done lease.id)
        ports.old.items place ports.new.items }
    ensures lots { OfState (λ p. ports.new.items ≡ slice_set ports.old.items place
        (with_line (record p.line { lots = map (completed lease.id lease.filled) p.line.lots }) p))
        ports.old.items place }
    ensures count { vec_len ports.new ≡ vec_len ports.old }
    ensures capacity { vec_capacity ports.new ≡ vec_capacity ports.old }
{
    ports[place].done(lease);
}

/// Takes buffers back to the port at a place, and hands out those of its lots that are ready, in
/// `room`.
pub fn sync_at(ports: &mut Vec<Port>, place: usize, back: Vec<Buf>, room: Vec<Got>) -> Vec<Got>
    requires place { place < length ports.old.items }
    requires returned { OfState (λ p. length back.items ≤ out_of p.line) ports.old.items place }
    requires none { room.items ≡ [] }
    requires room { OfState (λ p. room_to_sync p.line.lots ≤ vec_capacity room)
        ports.old.items place }
    ensures seats { ChangesSeat (seat_synced (indices_of back.items)) ports.old.items place
        ports.new.items }
    ensures gives { OfSeat (λ seat. Gives seat result.items) ports.old.items place }
    ensures got { OfState (λ p. result.items ≡ ready_gots p.line.lots) ports.old.items place }
    ensures line { OfState (λ p. ports.new.items ≡ slice_set ports.old.items place
        (with_line (given_by_sync back.items p.line) p)) ports.old.items place }
    ensures count { vec_len ports.new ≡ vec_len ports.old }
    ensures capacity { vec_capacity ports.new ≡ vec_capacity ports.old }
{
    ports[place].sync(back, room)
}

/// Lets the port at a place take the first frames that the other end of a pipe offers, and hands
/// out as many of its idle buffers in their place, as `Port::put` does.
pub fn put_at(
    ports: &mut Vec<Port>,
    place: usize,
    id: LeaseId,
    pending: &mut Vec<Got>,
    room: PutRoom,
) -> Vec<Buf>
    requires place { place < length ports.old.items }
    requires new { OfState (λ p. is_there id.0 (leases_of p.line.lots) ≡ false)
        ports.old.items place }
    requires single { All IsSingle pending.old.items }
    requires fits { All FitsPart pending.old.items }
    requires room { OfState (λ p. min (length pending.old.items) (line_space p.line) ≤ room)
        ports.old.items place }
    ensures number { OfState (λ p. length result.items
        ≡ min (length pending.old.items) (line_space p.line)) ports.old.items place }
    ensures took { OfSeat (λ seat. length result.items
        ≡ taken_count (Some seat.port) (length pending.old.items)) ports.old.items place }
    ensures seats { (session : ℕ) (frames : List Frame)
        → bytes_of frames ≡ frames_in (take (length result.items) pending.old.items)
        → ChangesSeat (seat_put id.0 session frames
        (indices_of (buffers_of (take (length result.items) pending.old.items))))
        ports.old.items place ports.new.items }
    ensures pending { pending.new.items ≡ drop (length result.items) pending.old.items }
    ensures pending_capacity { vec_capacity pending.new ≡ vec_capacity pending.old }
    ensures idle { OfSeat (λ seat. indices_of result.items
        ≡ take (length result.items) seat.held.idle) ports.old.items place }
    ensures back { OfState (λ p. result.items ≡ take (length result.items) p.line.idle)
        ports.old.items place }
    ensures line { OfState (λ p. ports.new.items ≡ slice_set ports.old.items place (with_line
        (line_after_put id (take (length result.items) pending.old.items) p.line) p))
        ports.old.items place }
    ensures count { vec_len ports.new ≡ vec_len ports.old }
    ensures capacity { vec_capacity ports.new ≡ vec_capacity ports.old }
{
    ports[place].put(id, pending, room)
}

/// Closes the port at a place for new frames.
pub fn shut_at(ports: &mut Vec<Port>, place: usize)
    requires { place < length ports.old.items }
    ensures seats { ChangesSeat seat_shut ports.old.items place ports.new.items }
    ensures port { OfState (λ p. ports.new.items
        ≡ slice_set ports.old.items place (record p { shutting = true })) ports.old.items place }
    ensures count { vec_len ports.new ≡ vec_len ports.old }
    ensures capacity { vec_capacity ports.new ≡ vec_capacity ports.old }
{
    ports[place].shut();
}

/// Takes the port at a place out of the list, and gives back the buffers of its kernel side, the
/// number of frames that no sync handed out, and an empty vector with room for the numbers of the
/// buffers that the session holds for the port.
pub fn close_at(ports: &mut Vec<Port>, place: usize) -> (Vec<Buf>, u32, Vec<u32>)
    requires place { place < length ports.old.items }
    requires done { OfState (λ p. out_count (leases_of p.line.lots) ≡ 0) ports.old.items place }
    ensures ports { ports.new.items ≡ remove ports.old.items place }
    ensures buffers { OfState (λ p. result.0.items
        ≡ p.line.idle ++ buffers_of (held_gots p.line.lots)) ports.old.items place }
    ensures held { OfSeat (λ seat. indices_of result.0.items ≡ buffers_at_port seat.held)
        ports.old.items place }
    ensures unread { OfSeat (λ seat. result.1 ≡ unread_count seat.port) ports.old.items place }
    ensures unread_here { OfState (λ p. result.1
        ≡ length (frames_in (held_gots p.line.lots))) ports.old.items place }
    ensures none { result.2.items ≡ [] }
    ensures room { OfState (λ p. due_of_state p ≤ vec_capacity result.2) ports.old.items place }
    ensures capacity { vec_capacity ports.new ≡ vec_capacity ports.old }
{
    ports.remove(place).close()
}
