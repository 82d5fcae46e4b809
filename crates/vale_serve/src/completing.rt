ghost use Rattle.std.specs.Prelude.{◌≡◌, true, Ok, position};
ghost use Rattle.vale_entry.specs.declared.entry.Ask.TheVariants as asks;
ghost use Rattle.vale_serve.specs.Users.{has_lease, is_lease};
ghost use Rattle.vale_serve.specs.Words.{IsLegal, IsServed, IsUser};

use crate::users::User;
use nm_types::LeaseId;
use vale_book::Book;
use vale_entry::Reply;
use vale_line::Lease;

/// The place of a lease among those of a session.
fn place_of(leases: &[Lease], id: LeaseId) -> Option<usize>
    ensures { result ≡ position (is_lease id.0) leases.now }
{
    leases.iter().position(|lease| lease.id() == id)
}

/// Tells whether a session has a lease.
fn has_lease(user: &User, id: LeaseId) -> bool
    ensures { result ≡ has_lease id.0 user.now }
{
    place_of(&user.leases, id).is_some()
}

/// The place of the session that has a lease.
pub(crate) fn place_of_lease(users: &[User], id: LeaseId) -> Option<usize>
    ensures { result ≡ position (has_lease id.0) users.now }
{
    users.iter().position(|user| has_lease(user, id))
}

/// A session completes a lease that it has.
pub(crate) fn done(book: &mut Book, user: &mut User, id: LeaseId) -> Option<Reply>
    requires legal { IsLegal book.old.pool book.old.entries }
    requires user { IsUser book.old user.old }
    requires mine { has_lease id.0 user.old ≡ true }
    ensures served { IsServed book.old book.new (asks.Done id) (Ok result) }
    ensures kept { IsUser book.new user.new }
    ensures id { user.new.id ≡ user.old.id }
{
    let Some(place) = place_of(&user.leases, id) else {
        unreachable!()
    };
    let lease = user.leases.remove(place);
    book.done(lease);
    Some(Reply::Made)
}
