ghost use Rattle.std.specs.Prelude.{ℕ, ◌≡◌, ◌≤◌, ◌+◌, length, vec_capacity, true, None, Ok, Some, position};
ghost use Rattle.vale_entry.specs.declared.entry.Ask.TheVariants as asks;
ghost use Rattle.vale_serve.specs.Filling.{IsFillable, IsFilledWith};
ghost use Rattle.vale_serve.specs.Granting.{CanGrant, HasGranted, AddsLease};
ghost use Rattle.vale_serve.specs.Users.{is_offered, next_is};
ghost use Rattle.vale_serve.specs.Words.{IsLegal, IsServed, IsUser, contents, standing};

use crate::sending::keep;
use crate::users::{Sent, User};
use nm_types::PortId;
use vale_batch::Want;
use vale_book::Book;
use vale_entry::Reply;
use vale_line::Lease;

/// Fills a lease with the frames at the first of these places, as many as it is for.
fn filled_from(lease: Lease, places: &[u32], frames: &[Vec<u8>]) -> Lease
    requires { IsFillable lease places.now (contents frames.now) }
    ensures { IsFilledWith lease places.now (contents frames.now) result }
{
    let mut lease = lease;
    let count = lease.count() as usize;
    for i in 0..count {
        lease.fill(&frames[places[i] as usize]);
    }
    lease
}

/// Fills a lease with the first of the frames that are wanted, as many as it is for.
fn filled(lease: Lease, want: &Want, frames: &[Vec<u8>]) -> Lease
    requires { IsFillable lease want.now.places (contents frames.now) }
    ensures { IsFilledWith lease want.now.places (contents frames.now) result }
{
    filled_from(lease, want.places.as_slice(), frames)
}

/// The place of the session whose offers are of this entry.
pub fn place_of_origin(users: &[User], origin: u32) -> Option<usize>
    ensures { result ≡ position (is_offered origin) users.now }
{
    users.iter().position(|user| user.has_offers_of(origin))
}

/// Grants the next of these offers, and fills its lease.
fn take_next(book: &mut Book, sent: &mut Sent) -> (Reply, Option<Lease>)
    requires { CanGrant book.old sent.old }
    ensures { HasGranted book.old book.new sent.old sent.new result.0 result.1 }
{
    let granted = book.grant(&mut sent.offers);
    let reply = Reply::Shared {
        given: granted.given,
        full: granted.full,
        gone: granted.gone,
    };
    let (want, lease) = granted.into_lease();
    match lease {
        Some(lease) => (reply, Some(filled(lease, &want, &sent.frames))),
        None => (reply, None),
    }
}

/// Gives a session a lease, if there is one.
fn add_lease(user: &mut User, lease: Option<Lease>)
    requires { length user.old.leases.items + 1 ≤ vec_capacity user.old.leases }
    ensures { AddsLease user.old lease user.new }
{
    if let Some(lease) = lease {
        user.leases.push_reserved(lease);
    }
}

/// Grants the next of a session's offers, which it has taken out.
fn grant_next(book: &mut Book, user: &mut User, sent: Sent) -> Reply
    requires user { IsUser book.old (record user.old { sent = Some sent }) }
    requires none { user.old.sent ≡ None }
    requires legal { IsLegal book.old.pool book.old.entries }
    ensures served { (to : ℕ) → next_is to sent.offers.wants ≡ true
        → IsServed book.old book.new (asks.Grant sent.offers.entry (record { 0 = to }))
        (Ok (Some result)) }
    ensures kept { IsUser book.new user.new }
    ensures id { user.new.id ≡ user.old.id }
{
    let mut sent = sent;
    let (reply, lease) = take_next(book, &mut sent);
    add_lease(user, lease);
    let Sent { offers, frames } = sent;
    keep(user, offers, frames);
    reply
}

/// The next offer of a session's entry is granted, if it is to this port.
pub(crate) fn grant(book: &mut Book, user: &mut User, origin: u32, to: PortId) -> Option<Reply>
    requires legal { IsLegal book.old.pool book.old.entries }
    requires user { IsUser book.old user.old }
    requires mine { is_offered origin user.old ≡ true }
    ensures served { IsServed book.old book.new (asks.Grant origin to) (Ok result) }
    ensures kept { IsUser book.new user.new }
    ensures id { user.new.id ≡ user.old.id }
{
    if !user.is_next(to) {
        return None;
    }
    match user.sent.take() {
        Some(sent) => Some(grant_next(book, user, sent)),
        None => unreachable!(),
    }
}
