ghost use Rattle.std.specs.Prelude.{◌≡◌, ◌≤◌, ◌+◌, ◌&&◌, [], true, false, length, take, map, vec_capacity, None, IfOk};
ghost use Rattle.std.specs.List.{list_all, list_any, AllByRecursion};
ghost use Rattle.nm_region.specs.Buffers.{indices_of};
ghost use Rattle.vale_line.specs.Gots.{got_of};
ghost use Rattle.vale_entry.specs.declared.entry.Ask.TheVariants as asks;
ghost use Rattle.vale_entry.specs.declared.entry.Reply.TheVariants as replies;
ghost use Rattle.vale_entry.specs.Holdings.{contains, are_distinct};
ghost use Rattle.vale_entry.specs.Pipe.{indices_of as item_indices, is_pipe_item};
ghost use Rattle.vale_serve.specs.Buffers.{holds, holds_all};
ghost use Rattle.vale_serve.specs.Joined.{AsksAt};
ghost use Rattle.vale_serve.specs.Putting.{is_in, is_held, bytes_in, can_put, unput, AreFramed, IsPutRoom, HasPut};
ghost use Rattle.vale_serve.specs.Replies.{last_dests};
ghost use Rattle.vale_serve.specs.Words.{IsServed, IsUser, SameUser, contents, open_port, standing};

use crate::buffers::holds;
use crate::exchanging::{give, give_all, take_from};
use crate::sending::{keep, last_dests};
use crate::users::User;
use nm_region::Buf;
use nm_types::{BUFFER_BYTES, MAX_BATCH, NoMemory, PortId, StepFault};
use std::alloc::{AllocError, Global};
use vale_book::{Book, PortSeen, Put, PutFault};
use vale_entry::{Dest, History, Item, Items, Reply};
use vale_line::Got;

/// Copies of what is offered, and memory for the buffers that go with it.
struct PutRoom {
    named: Vec<u32>,
    items: Vec<Item>,
    frames: Vec<Vec<u8>>,
    to: Vec<Dest>,
    bufs: Vec<Buf>,
    pending: Vec<Got>,
}

/// Tells whether a pipe carries a frame.
fn is_pipe_item(item: &Item) -> bool
    ensures { result ≡ is_pipe_item item.now }
{
    item.bytes.bytes().len() <= BUFFER_BYTES && !item.bytes.no_learn()
}

fn are_pipe_items(items: &[Item]) -> bool
    ensures { result ≡ list_all is_pipe_item items.now }
{
    items.iter().all(|item| is_pipe_item(item))
}

fn is_any_in(items: &[Item], index: u32) -> bool
    ensures { result ≡ list_any (is_in index) items.now }
{
    items.iter().any(|item| item.index == index)
}

/// Tells whether a frame is in the buffer of this index.
fn contains(items: &[Item], index: u32) -> bool
    ensures { result ≡ contains index (item_indices items.now) }
{
    is_any_in(items, index)
}

/// Tells whether no two frames are in one buffer.
fn are_distinct(items: &[Item]) -> bool
    ensures { result ≡ are_distinct (item_indices items.now) }
{
    match items {
        [] => true,
        [first, rest @ ..] => !contains(rest, first.index) && are_distinct(rest),
    }
}

fn are_held(bufs: &[Buf], items: &[Item]) -> bool
    ensures { result ≡ list_all (is_held bufs.now) items.now }
{
    items.iter().all(|item| holds(bufs, item.index))
}

/// Tells whether the frames are in buffers that are there, each in one of its own.
fn holds_items(bufs: &[Buf], items: &[Item]) -> bool
    ensures { result ≡ holds_all bufs.now (item_indices items.now) }
{
    are_held(bufs, items) && are_distinct(items)
}

/// Tells whether a session may offer these frames from a port.
fn can_put(user: &User, seen: &PortSeen, offered: &[Item]) -> bool
    ensures { result ≡ can_put offered.now user.now seen.now }
{
    (seen.name.is_pipe()
        && user.is_settled()
        && are_pipe_items(offered)
        && holds_items(&user.bufs, offered))
        && offered.len() <= MAX_BATCH
}

/// The indices of the buffers of frames.
fn indices_of(alloc: Global, offered: &[Item]) -> Result<Vec<u32>, AllocError>
    ensures { IfOk result (λ named. named.items ≡ item_indices offered.now) }
{
    offered.iter().map(|item| item.index).collect(alloc)
}

fn copy_of(item: &Item) -> Result<Item, AllocError>
    ensures { IfOk result (λ copy. copy ≡ item.now) }
{
    item.clone()
}

fn copies_of(alloc: Global, offered: &[Item]) -> Result<Vec<Item>, AllocError>
    ensures { IfOk result (λ items. items.items ≡ offered.now) }
{
    let mut items = Vec::with_capacity(alloc, offered.len())?;
    for item in offered {
        items.push_reserved(copy_of(item)?);
    }
    Ok(items)
}

fn bytes_of(item: &Item, alloc: Global) -> Result<Vec<u8>, AllocError>
    ensures { IfOk result (λ copy. copy.items ≡ item.now.bytes.bytes) }
{
    item.bytes.bytes().to_vec(alloc)
}

/// The bytes of each frame.
fn frames_of(alloc: Global, offered: &[Item]) -> Result<Vec<Vec<u8>>, AllocError>
    ensures { IfOk result (λ all. contents all.items ≡ bytes_in offered.now) }
{
    let mut all = Vec::with_capacity(alloc, offered.len())?;
    for i in 0..offered.len() {
        all.push_reserved(bytes_of(&offered[i], alloc)?);
    }
    Ok(all)
}

/// Copies what is offered, and makes room for the put.
fn room_to_put(alloc: Global, offered: &[Item]) -> Result<PutRoom, NoMemory>
    ensures { IfOk result (IsPutRoom offered.now) }
{
    let named = indices_of(alloc, offered)?;
    let items = copies_of(alloc, offered)?;
    let frames = frames_of(alloc, offered)?;
    let to = Vec::with_capacity(alloc, 1)?;
    let bufs = Vec::with_capacity(alloc, offered.len())?;
    let Ok(pending) = Vec::with_capacity(alloc, offered.len()) else {
        bufs.destroy_empty();
        return Err(NoMemory);
    };
    Ok(PutRoom {
        bufs,
        pending,
        named,
        items,
        frames,
        to,
    })
}

/// Writes a frame into a buffer.
fn framed(mut buf: Buf, item: &Item) -> Got
    requires { is_pipe_item item.now ≡ true }
    ensures { result ≡ got_of item.now.bytes.bytes 0 buf }
{
    let bytes = item.bytes.bytes();
    buf.write(bytes);
    Got {
        buf,
        len: bytes.len() as u16,
        rest: 0,
    }
}

/// Writes each frame into its buffer.
fn all_framed(bufs: Vec<Buf>, offered: &[Item], pending: Vec<Got>) -> Vec<Got>
    requires named { indices_of bufs.items ≡ item_indices offered.now }
    requires pipe { list_all is_pipe_item offered.now ≡ true }
    requires none { pending.items ≡ [] }
    requires room { length offered.now ≤ vec_capacity pending }
    ensures { AreFramed bufs.items offered.now result.items }
{
    let mut bufs = bufs;
    let mut pending = pending;
    bufs.reverse();
    for i in 0..offered.len() {
        pending.push_reserved(framed(bufs.take_last(), &offered[i]));
    }
    bufs.destroy_empty();
    pending
}

/// What is answered where nothing was taken.
fn unput(fault: PutFault) -> Result<Option<Reply>, StepFault>
    ensures { result ≡ unput fault }
{
    match fault {
        PutFault::PeerGone => Ok(Some(Reply::PeerGone)),
        PutFault::RecordFull { what, used, want } => Err(StepFault::RecordFull {
            what,
            used,
            want,
        }),
        PutFault::NoMemory => Err(StepFault::NoMemory),
    }
}

/// What a put is answered: the frames that were taken, and who is offered them.
fn took(history: &History, count: u32, mut items: Vec<Item>, to: Vec<Dest>) -> Reply
    requires none { to.items ≡ [] }
    requires dests { length (last_dests history.now.entries) ≤ vec_capacity to }
    ensures { result ≡ replies.Took (take count items.items) (last_dests history.now.entries) }
{
    items.truncate(count as usize);
    Reply::Took {
        items: Items::from(items),
        to: last_dests(history, to),
    }
}

/// Gives a session what a put gave, and what was not taken.
fn take_in(user: &mut User, put: Put, left: Vec<Got>, mut frames: Vec<Vec<u8>>)
    requires room { length user.old.bufs.items + (length left.items + length put.back.items)
        ≤ vec_capacity user.old.bufs }
    requires settled { user.old.sent ≡ None }
    ensures { HasPut user.old left.items put.back.items put.offers
        (take put.took (contents frames.items)) user.new }
{
    let Put {
        took,
        back,
        copies: _,
        offers,
    } = put;
    frames.truncate(took as usize);
    give_all(user, left);
    give(user, back);
    keep(user, offers, frames);
}

/// A session offers frames to the other end of a pipe.
pub(crate) fn put(
    alloc: Global,
    book: &mut Book,
    user: &mut User,
    port: PortId,
    seen: PortSeen,
    offered: &[Item],
) -> Result<Option<Reply>, StepFault>
    requires { AsksAt book.old user.old (open_port (standing book.old).world.ports port.0) seen }
    ensures served { IsServed book.old book.new (asks.Put port offered.now) result }
    ensures kept { IsUser book.new user.new }
    ensures id { user.new.id ≡ user.old.id }
{
    if !can_put(user, &seen, offered) {
        return Ok(None);
    }
    user.reserve_leases(1)?;
    let room = room_to_put(alloc, offered)?;
    let PutRoom {
        named,
        items,
        frames,
        to,
        bufs,
        pending,
    } = room;
    let mut pending = all_framed(take_from(user, &named, bufs), offered, pending);
    match book.pipe_put(port, &mut pending) {
        Ok(put) => {
            let reply = took(book.history(), put.took, items, to);
            take_in(user, put, pending, frames);
            Ok(Some(reply))
        }
        Err(fault) => {
            give_all(user, pending);
            unput(fault)
        }
    }
}
