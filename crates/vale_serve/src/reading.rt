ghost use Rattle.std.specs.Prelude.{◌≡◌, ◌≤◌, ◌<◌, ◌+◌, [], length, map, take, vec_capacity};
ghost use Rattle.std.specs.Prelude.{None, Some, OnOk, OnErr, IfOk, IfErr};
ghost use Rattle.nm_region.specs.Buffers.{indices_of};
ghost use Rattle.nm_types.specs.Parts.{slots_of_bytes};
ghost use Rattle.vale_line.specs.Gots.{IsCut, frames_in};
ghost use Rattle.vale_entry.specs.Delivery.{delivered_frames};
ghost use Rattle.vale_entry.specs.World.{Port};
ghost use Rattle.vale_entry.specs.Legal.{IsEnabled, reply_to};
ghost use Rattle.vale_entry.specs.declared.entry.Reply.TheVariants as replies;
ghost use Rattle.vale_parts.specs.Batches.{dests_wanted};
ghost use Rattle.vale_port.specs.Ports.{sizes_of};
ghost use Rattle.vale_book.specs.BookView.{AreOf};
ghost use Rattle.vale_book.specs.Reading.{read_ask, IsGiven, IsOffered};
ghost use Rattle.vale_book.specs.Recorded.{after_ask, IsRefusal, HasRoom};
ghost use Rattle.vale_serve.specs.Exchange.{HasRead, HasRoomFor};
ghost use Rattle.vale_serve.specs.Joined.{AsksAt};
ghost use Rattle.vale_serve.specs.Reading.{is_read_so, can_read, copied_sizes, IsReadRoom};
ghost use Rattle.vale_serve.specs.Replies.{last_dests};
ghost use Rattle.vale_serve.specs.Words.{IsServed, IsUser, SameUser, open_port, standing};

use crate::buffers::holds_all;
use crate::copying::CopyRoom;
use crate::exchanging::{give, give_all, take_from};
use crate::sending::{keep, last_dests};
use crate::users::User;
use nm_region::Buf;
use nm_types::{Name, NoMemory, PortId, StepFault};
use std::alloc::{AllocError, Global};
use vale_book::{Book, PortSeen, Ready, Synced};
use vale_entry::{Dest, History, Reply};

/// Memory for the buffers that come back, and for what a monitor is offered.
struct ReadRoom {
    back: Vec<Buf>,
    copies: CopyRoom,
    to: Vec<Dest>,
}

/// Tells whether a port of this name is read by a get, or by a sync.
fn is_read_so(is_pipe: bool, name: &Name) -> bool
    ensures { result ≡ is_read_so is_pipe name.now }
{
    if is_pipe {
        name.is_pipe()
    } else {
        name.is_switch_port() || name.is_monitor()
    }
}

/// Tells whether a session may read a port, and give these buffers back.
fn can_read(user: &User, seen: &PortSeen, is_pipe: bool, back: &[u32]) -> bool
    ensures { result ≡ can_read is_pipe back.now user.now seen.now }
{
    is_read_so(is_pipe, &seen.name)
        && user.is_settled()
        && back.len() as u64 <= seen.out as u64
        && holds_all(&user.bufs, back)
}

/// The sizes of the frames that have to be copied: those that a monitor is offered.
fn copied_sizes(
    alloc: Global,
    book: &Book,
    port: PortId,
    ready: Ready,
) -> Result<Vec<u32>, NoMemory>
    ensures { IfOk result (λ sizes. (seen : Port)
        → open_port (standing book.now).world.ports port.0 ≡ Some seen
        → sizes.items ≡ copied_sizes ready (sizes_of (delivered_frames seen))) }
{
    if ready.is_watched {
        book.ready_sizes(port)
    } else {
        Ok(Vec::new(alloc))
    }
}

/// Makes room for what is ready at a port, of which frames of these sizes are copied, and for so
/// many buffers that come back.
fn room_to_read(
    alloc: Global,
    user: &mut User,
    ready: Ready,
    sizes: Vec<u32>,
    back: &[u32],
) -> Result<ReadRoom, AllocError>
    ensures same { SameUser user.old user.new }
    ensures room { IfOk result (IsReadRoom sizes.items back.now) }
    ensures fits { OnOk result (HasRoomFor ready.buffers user.new) }
{
    user.reserve_leases(1)?;
    user.bufs.reserve(ready.buffers as usize)?;
    let copies = CopyRoom::new(alloc, sizes)?;
    let to = Vec::with_capacity(alloc, 1)?;
    Ok(ReadRoom {
        back: Vec::with_capacity(alloc, back.len())?,
        copies,
        to,
    })
}

/// Gives a session what was given and offered, and answers it.
fn take_in(
    history: &History,
    user: &mut User,
    synced: Synced,
    frames: u32,
    copies: CopyRoom,
    to: Vec<Dest>,
) -> Reply
    requires cut { IsCut synced.got.items }
    requires frames { frames ≡ length (frames_in synced.got.items) }
    requires copies { copies ≡ map slots_of_bytes
        (take (length copies) (frames_in synced.got.items)) }
    requires room { length user.old.bufs.items + length synced.got.items
        ≤ vec_capacity user.old.bufs }
    requires settled { user.old.sent ≡ None }
    requires none { to.items ≡ [] }
    requires dests { length (last_dests history.now.entries) ≤ vec_capacity to }
    ensures reply { result
        ≡ replies.Gave (length (frames_in synced.got.items)) (last_dests history.now.entries) }
    ensures taken { HasRead user.old synced.got.items synced.offers (length copies) user.new }
{
    let Synced { got, offers } = synced;
    let copied = copies.copy(&got);
    let reply = Reply::Gave {
        count: frames,
        to: last_dests(history, to),
    };
    give_all(user, got);
    keep(user, offers, copied);
    reply
}

/// A session reads a port by a sync, or a pipe end by a get, and gives buffers back to it.
pub(crate) fn read(
    alloc: Global,
    book: &mut Book,
    user: &mut User,
    port: PortId,
    seen: PortSeen,
    is_pipe: bool,
    back: &[u32],
) -> Result<Option<Reply>, StepFault>
    requires { AsksAt book.old user.old (open_port (standing book.old).world.ports port.0) seen }
    ensures served { IsServed book.old book.new (read_ask is_pipe port back.now) result }
    ensures kept { IsUser book.new user.new }
    ensures id { user.new.id ≡ user.old.id }
{
    if !can_read(user, &seen, is_pipe, back) {
        return Ok(None);
    }
    let ready = book.ready(port);
    let sizes = copied_sizes(alloc, book, port, ready)?;
    let room = room_to_read(alloc, user, ready, sizes, back)?;
    let ReadRoom {
        back: empty,
        copies,
        to,
    } = room;
    match book.read(port, is_pipe, take_from(user, back, empty)) {
        Ok(synced) => {
            let frames = ready.frames;
            Ok(Some(take_in(book.history(), user, synced, frames, copies, to)))
        }
        Err((fault, bufs)) => {
            give(user, bufs);
            Err(fault)
        }
    }
}
