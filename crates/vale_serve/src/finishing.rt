ghost use Rattle.std.specs.Prelude.{◌≡◌, ◌<◌, ◌&&◌, ◌==◌, length, position, true, Ok, IfSome, IfNone};
ghost use Rattle.std.specs.List.{AllByRecursion, list_any};
ghost use Rattle.vale_entry.specs.Closing.{shutting_port};
ghost use Rattle.vale_entry.specs.declared.entry.Ask.TheVariants as asks;
ghost use Rattle.vale_entry.specs.declared.entry.Reply.TheVariants as replies;
ghost use Rattle.vale_serve.specs.Buffers.{holds_all};
ghost use Rattle.vale_serve.specs.Finishing.{HasRoomForPort, HasLostRoom, HasTakenForPort};
ghost use Rattle.vale_serve.specs.Joined.{AsksAt};
ghost use Rattle.vale_serve.specs.Users.{IsRoom, is_room_of};
ghost use Rattle.vale_serve.specs.Words.{IsMemory, IsServed, IsUser, standing};

use crate::buffers::{holds_all, take_out};
use crate::users::{Room, User};
use nm_region::Buf;
use nm_types::{Chain, PortId};
use vale_book::{Book, PortSeen};
use vale_entry::Reply;

/// Tells whether a port may go with these buffers of its session: as many as that is due for it.
fn can_finish(user: &User, seen: &PortSeen, bufs: &[u32]) -> bool
    ensures { result ≡ (length bufs.now == seen.now.due && holds_all user.now.bufs.items bufs.now) }
{
    bufs.len() as u64 == seen.due && holds_all(&user.bufs, bufs)
}

/// What is answered while leases of a port are not done.
fn waits(seen: &PortSeen) -> Option<Reply>
    ensures some { IfSome result (λ reply. (0 < seen.now.leases_out)
        × (reply ≡ replies.LeasesOut seen.now.leases_out)) }
    ensures none { IfNone result (seen.now.leases_out ≡ 0) }
{
    if seen.leases_out > 0 {
        Some(Reply::LeasesOut { n: seen.leases_out })
    } else {
        None
    }
}

/// The place of the room of a port.
fn place_of(rooms: &[Room], port: PortId) -> Option<usize>
    ensures { result ≡ position (is_room_of port.0) rooms.now }
{
    rooms.iter().position(|room| room.port == port)
}

/// Takes the room of a port out: the memory that was kept for its end.
fn take_room(rooms: &mut Vec<Room>, port: PortId) -> Vec<Buf>
    requires there { list_any (is_room_of port.0) rooms.old.items ≡ true }
    requires each { AllByRecursion IsRoom rooms.old.items }
    ensures memory { IsMemory result }
    ensures taken { HasLostRoom rooms.old.items port.0 rooms.new.items }
{
    let Some(place) = place_of(rooms, port) else {
        unreachable!()
    };
    let Room { port: _, bufs } = rooms.remove(place);
    bufs
}

/// Takes these buffers of a session out, in the memory that it has for this port.
fn take_for_port(user: &mut User, port: PortId, bufs: &[u32]) -> Vec<Buf>
    requires there { holds_all user.old.bufs.items bufs.now ≡ true }
    requires room { HasRoomForPort port.0 bufs.now user.old }
    ensures { HasTakenForPort port.0 user.old bufs.now result.items user.new }
{
    let room = take_room(&mut user.rooms, port);
    take_out(&mut user.bufs, bufs, room)
}

/// A port of a session goes with these buffers, unless leases of it are not done.
pub(crate) fn finish(
    book: &mut Book,
    user: &mut User,
    port: PortId,
    seen: PortSeen,
    bufs: &[u32],
    chain: Chain,
) -> Option<Reply>
    requires { AsksAt book.old user.old (shutting_port (standing book.old).world.ports port.0)
        seen }
    ensures served { IsServed book.old book.new (asks.Finish port bufs.now chain) (Ok result) }
    ensures kept { IsUser book.new user.new }
    ensures id { user.new.id ≡ user.old.id }
{
    if !can_finish(user, &seen, bufs) {
        return None;
    }
    if let Some(reply) = waits(&seen) {
        return Some(reply);
    }
    let bufs = take_for_port(user, port, bufs);
    match book.finish(port, bufs, chain) {
        Ok(count) => Some(Reply::Unread { count }),
        Err(_waiting) => unreachable!(),
    }
}
