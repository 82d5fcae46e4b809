ghost use Rattle.std.specs.Prelude.{◌≢◌, position, Option, None, Ok, IfSome};
ghost use Rattle.vale_entry.specs.declared.entry.Ask.TheVariants as asks;
ghost use Rattle.vale_entry.specs.Closing.{shutting_port};
ghost use Rattle.vale_entry.specs.World.{Port};
ghost use Rattle.vale_book.specs.Asking.{IsSeenAs};
ghost use Rattle.vale_book.specs.Reading.{read_ask};
ghost use Rattle.vale_serve.specs.Joined.{AreUsersOf, HasOwner};
ghost use Rattle.vale_serve.specs.Users.{is_user};
ghost use Rattle.vale_serve.specs.Words.{IsServed, open_port, standing};

use crate::completing::{done, place_of_lease};
use crate::finishing::finish;
use crate::granting::{grant, place_of_origin};
use crate::noting::stats;
use crate::opening::open;
use crate::putting::put;
use crate::reading::read;
use crate::resetting::reset;
use crate::sending::send;
use crate::shutting::shut;
use crate::users::{User, place_of};
use crate::watching::watch;
use nm_types::{Batch, Chain, LeaseId, Name, PortId, SessionId, Side, Sides, StepFault, SyncFault};
use std::alloc::Global;
use vale_book::{Book, PortSeen};
use vale_entry::{Item, Reply};

/// What was seen of a port, and the place of its session.
fn owner_seen(users: &[User], seen: Option<PortSeen>) -> Option<(PortSeen, usize)>
    requires { IfSome seen (λ port. position (is_user port.session.0) users.now ≢ None) }
    ensures { (found : Option Port) → IsSeenAs found seen → HasOwner users.now found result }
{
    match seen {
        Some(port) => match place_of(users, port.session) {
            Some(place) => Some((port, place)),
            None => unreachable!(),
        },
        None => None,
    }
}

/// What stands of an open port, and the place of its session.
fn owner_of(book: &Book, users: &[User], port: PortId) -> Option<(PortSeen, usize)>
    requires { AreUsersOf book.now users.now }
    ensures { HasOwner users.now (open_port (standing book.now).world.ports port.0) result }
{
    owner_seen(users, book.open_port(port))
}

/// What stands of a port that is shut and not gone, and the place of its session.
pub fn owner_of_shut(book: &Book, users: &[User], port: PortId) -> Option<(PortSeen, usize)>
    requires { AreUsersOf book.now users.now }
    ensures { HasOwner users.now (shutting_port (standing book.now).world.ports port.0) result }
{
    owner_seen(users, book.shutting_port(port))
}

/// A session opens a port, if it is there.
pub(crate) fn open_at(
    alloc: Global,
    book: &mut Book,
    users: &mut Vec<User>,
    session: SessionId,
    name: &Name,
    tx: u32,
    rx: u32,
    extra: u32,
) -> Result<Option<Reply>, StepFault>
    requires { AreUsersOf book.old users.old.items }
    ensures served { IsServed book.old book.new (asks.Open session name.now tx rx extra) result }
    ensures kept { AreUsersOf book.new users.new.items }
{
    match place_of(users, session) {
        Some(place) => open(alloc, book, &mut users[place], name, tx, rx, extra),
        None => Ok(None),
    }
}

/// A batch is sent into the switch of a port, if that is open and its session may send.
pub(crate) fn send_at(
    alloc: Global,
    book: &mut Book,
    users: &mut Vec<User>,
    port: PortId,
    batch: &Batch,
) -> Result<Option<Reply>, StepFault>
    requires { AreUsersOf book.old users.old.items }
    ensures served { IsServed book.old book.new (asks.Send port batch.now) result }
    ensures kept { AreUsersOf book.new users.new.items }
{
    match owner_of(book, users, port) {
        Some((seen, place)) => send(alloc, book, &mut users[place], port, seen, batch),
        None => Ok(None),
    }
}

/// A port is shut, if it is open and its session is settled.
pub fn shut_at(book: &mut Book, users: &[User], port: PortId) -> Option<Reply>
    requires { AreUsersOf book.old users.now }
    ensures served { IsServed book.old book.new (asks.Shut port) (Ok result) }
    ensures kept { AreUsersOf book.new users.now }
{
    let (_, place) = owner_of(book, users, port)?;
    shut(book, &users[place], port)
}

/// A port that was shut goes, if it may.
pub fn finish_at(
    book: &mut Book,
    users: &mut Vec<User>,
    port: PortId,
    bufs: &[u32],
    chain: Chain,
) -> Option<Reply>
    requires { AreUsersOf book.old users.old.items }
    ensures served { IsServed book.old book.new (asks.Finish port bufs.now chain) (Ok result) }
    ensures kept { AreUsersOf book.new users.new.items }
{
    let (seen, place) = owner_of_shut(book, users, port)?;
    finish(book, &mut users[place], port, seen, bufs, chain)
}

/// The counters of a port are read, if it is open.
pub(crate) fn stats_at(
    book: &mut Book,
    users: &[User],
    port: PortId,
) -> Result<Option<Reply>, StepFault>
    requires { AreUsersOf book.old users.now }
    ensures served { IsServed book.old book.new (asks.Stat port) result }
    ensures kept { AreUsersOf book.new users.now }
{
    match owner_of(book, users, port) {
        Some((_, place)) => stats(book, &users[place], port),
        None => Ok(None),
    }
}

/// A monitor watches the port of a name, if the monitor is open.
pub(crate) fn watch_at(
    book: &mut Book,
    users: &[User],
    monitor: PortId,
    target: &Name,
    sides: Sides,
) -> Result<Option<Reply>, StepFault>
    requires { AreUsersOf book.old users.now }
    ensures served { IsServed book.old book.new (asks.Watch monitor target.now sides) result }
    ensures kept { AreUsersOf book.new users.now }
{
    match owner_of(book, users, monitor) {
        Some((seen, place)) => watch(book, &users[place], monitor, seen, target, sides),
        None => Ok(None),
    }
}

/// A ring of a port is reset after a refused sync, if the port is open.
pub(crate) fn reset_at(
    book: &mut Book,
    users: &[User],
    port: PortId,
    side: Side,
    fault: &SyncFault,
) -> Result<Option<Reply>, StepFault>
    requires { AreUsersOf book.old users.now }
    ensures served { IsServed book.old book.new (asks.Reset port side fault.now) result }
    ensures kept { AreUsersOf book.new users.now }
{
    match owner_of(book, users, port) {
        Some((seen, place)) => reset(book, &users[place], port, seen, side, fault),
        None => Ok(None),
    }
}

/// The next offer of an entry is granted, if it is to this port.
pub fn grant_at(book: &mut Book, users: &mut Vec<User>, origin: u32, to: PortId) -> Option<Reply>
    requires { AreUsersOf book.old users.old.items }
    ensures served { IsServed book.old book.new (asks.Grant origin to) (Ok result) }
    ensures kept { AreUsersOf book.new users.new.items }
{
    match place_of_origin(users, origin) {
        Some(place) => grant(book, &mut users[place], origin, to),
        None => None,
    }
}

/// A lease is completed, if it is not done.
pub fn done_at(book: &mut Book, users: &mut Vec<User>, lease: LeaseId) -> Option<Reply>
    requires { AreUsersOf book.old users.old.items }
    ensures served { IsServed book.old book.new (asks.Done lease) (Ok result) }
    ensures kept { AreUsersOf book.new users.new.items }
{
    match place_of_lease(users, lease) {
        Some(place) => done(book, &mut users[place], lease),
        None => None,
    }
}

/// Buffers come back to a pipe end or to another port, and what is ready is given, if its session
/// may.
pub(crate) fn read_at(
    alloc: Global,
    book: &mut Book,
    users: &mut Vec<User>,
    port: PortId,
    is_pipe: bool,
    back: &[u32],
) -> Result<Option<Reply>, StepFault>
    requires { AreUsersOf book.old users.old.items }
    ensures served { IsServed book.old book.new (read_ask is_pipe port back.now) result }
    ensures kept { AreUsersOf book.new users.new.items }
{
    match owner_of(book, users, port) {
        Some((seen, place)) => read(alloc, book, &mut users[place], port, seen, is_pipe, back),
        None => Ok(None),
    }
}

/// Frames are offered to the other end of a pipe, if the session of this end may.
pub(crate) fn put_at(
    alloc: Global,
    book: &mut Book,
    users: &mut Vec<User>,
    port: PortId,
    offered: &[Item],
) -> Result<Option<Reply>, StepFault>
    requires { AreUsersOf book.old users.old.items }
    ensures served { IsServed book.old book.new (asks.Put port offered.now) result }
    ensures kept { AreUsersOf book.new users.new.items }
{
    match owner_of(book, users, port) {
        Some((seen, place)) => put(alloc, book, &mut users[place], port, seen, offered),
        None => Ok(None),
    }
}
