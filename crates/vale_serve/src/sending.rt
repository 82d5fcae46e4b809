ghost use Rattle.std.specs.Prelude.{◌≡◌, ◌≤◌, ◌&&◌, [], None, length, vec_capacity, IfOk};
ghost use Rattle.nm_types.specs.Names.{is_switch_port_name};
ghost use Rattle.nm_types.specs.Sendable.{is_sendable};
ghost use Rattle.vale_entry.specs.declared.entry.Ask.TheVariants as asks;
ghost use Rattle.vale_port.specs.Kept.{bytes_of};
ghost use Rattle.vale_serve.specs.Joined.{AsksAt};
ghost use Rattle.vale_serve.specs.Replies.{dests_in, last_dests};
ghost use Rattle.vale_serve.specs.Users.{is_settled_user, HasSent};
ghost use Rattle.vale_serve.specs.Words.{IsServed, IsUser, contents, open_port, standing};

use crate::users::{Sent, User};
use nm_types::{Batch, NoMemory, PortId, StepFault};
use std::alloc::{AllocError, Global};
use vale_book::{Book, Offers, PortSeen};
use vale_entry::{Dest, Dests, History, Reply};

/// The destinations that a reply tells.
fn dests_in(reply: &Reply) -> &[Dest]
    ensures { result.now ≡ dests_in reply.now }
{
    match reply {
        Reply::Offered { to, .. } => to.as_slice(),
        Reply::Gave { to, .. } => to.as_slice(),
        Reply::Took { to, .. } => to.as_slice(),
        _ => &[],
    }
}

/// Writes destinations into an empty vector with room for them.
fn copy_dests(mut to: Vec<Dest>, from: &[Dest]) -> Dests
    requires none { to.items ≡ [] }
    requires room { length from.now ≤ vec_capacity to }
    ensures { result ≡ from.now }
{
    for dest in from {
        to.push_reserved(*dest);
    }
    Dests::from(to)
}

/// The destinations that the last entry tells, in an empty vector with room for them.
pub(crate) fn last_dests(history: &History, to: Vec<Dest>) -> Dests
    requires none { to.items ≡ [] }
    requires room { length (last_dests history.now.entries) ≤ vec_capacity to }
    ensures { result ≡ last_dests history.now.entries }
{
    match history.get(history.len()) {
        Some(entry) => copy_dests(to, dests_in(&entry.reply)),
        None => Dests::from(to),
    }
}

fn copy_of(bytes: &[u8], alloc: Global) -> Result<Vec<u8>, AllocError>
    ensures { IfOk result (λ copy. copy.items ≡ bytes.now) }
{
    bytes.to_vec(alloc)
}

/// The bytes of each frame.
fn bytes_of(alloc: Global, batch: &Batch) -> Result<Vec<Vec<u8>>, AllocError>
    ensures { IfOk result (λ all. contents all.items ≡ bytes_of batch.now) }
{
    let mut all = Vec::with_capacity(alloc, batch.len())?;
    for i in 0..batch.len() {
        all.push_reserved(copy_of(batch.frame(i), alloc)?);
    }
    Ok(all)
}

/// Keeps what is not granted of frames, if there is some. It was settled before.
pub(crate) fn keep(user: &mut User, offers: Offers, frames: Vec<Vec<u8>>)
    requires { user.old.sent ≡ None }
    ensures { HasSent user.old offers frames user.new }
{
    if offers.next().is_none() {
        offers.close();
    } else {
        match user.sent.replace(Sent { offers, frames }) {
            None => {}
            Some(_) => unreachable!(),
        }
    }
}

/// Tells whether the session may send the batch from this port.
fn can_send(user: &User, seen: PortSeen, batch: &Batch) -> bool
    ensures { result ≡ (is_switch_port_name seen.name
        && (is_settled_user user.now && is_sendable batch.now)) }
{
    seen.name.is_switch_port() && user.is_settled() && batch.is_sendable()
}

/// A session sends a batch into the switch of its port.
pub(crate) fn send(
    alloc: Global,
    book: &mut Book,
    user: &mut User,
    port: PortId,
    seen: PortSeen,
    batch: &Batch,
) -> Result<Option<Reply>, StepFault>
    requires { AsksAt book.old user.old (open_port (standing book.old).world.ports port.0) seen }
    ensures served { IsServed book.old book.new (asks.Send port batch.now) result }
    ensures kept { IsUser book.new user.new }
    ensures id { user.new.id ≡ user.old.id }
{
    if !can_send(user, seen, batch) {
        return Ok(None);
    }
    let frames = bytes_of(alloc, batch)?;
    user.reserve_leases(book.ports())?;
    let to = Vec::with_capacity(alloc, book.ports())?;
    let offers = book.send(port, batch)?;
    let reply = Reply::Offered {
        short: offers.short(),
        lone: offers.lone(),
        to: last_dests(book.history(), to),
    };
    keep(user, offers, frames);
    Ok(Some(reply))
}
