ghost use Rattle.std.specs.Prelude.{◌≡◌, ◌≤◌, length, take, filter_map};
ghost use Rattle.std.specs.List.{AllByRecursion};
ghost use Rattle.nm_region.specs.Buffers.{indices_of};
ghost use Rattle.vale_serve.specs.Joined.{AreUsersOf};
ghost use Rattle.vale_serve.specs.Users.{offered_by, leased_by};
ghost use Rattle.vale_drive.specs.Turns.{HasGranted, IsQuiet, IsPortsTurn, IsGrantTurn, IsDoneTurn, IsLastTurn, IsToGo};
ghost use Rattle.vale_drive.specs.Winding.{IsEnded, IsNextMade, least};

use nm_region::Buf;
use nm_types::{Chain, LeaseId, PortId};
use vale_book::{Book, PortSeen};
use vale_serve::{
    MOST_DUE, User, done_at, finish_at, grant_at, leave, owner_of_shut, place_of_origin, shut_at,
};

/// The oldest entry of which sessions have offers.
fn oldest_offered(users: &[User]) -> Option<u32>
    ensures { result ≡ least (filter_map offered_by users.now) }
{
    users.iter().filter_map(|user| user.offered()).min()
}

/// The oldest of the leases that sessions have.
fn oldest_lease(users: &[User]) -> Option<u32>
    ensures { result ≡ least (filter_map leased_by users.now) }
{
    users.iter().filter_map(|user| user.leased()).min()
}

/// The next offer of the oldest entry is granted. Tells whether there was one.
fn grant_first(book: &mut Book, users: &mut Vec<User>) -> bool
    requires { AreUsersOf book.old users.old.items }
    ensures turn { IsGrantTurn result book.old book.new users.new.items }
    ensures kept { AreUsersOf book.new users.new.items }
{
    let Some(origin) = oldest_offered(users) else {
        return false;
    };
    let Some(place) = place_of_origin(users, origin) else {
        unreachable!()
    };
    let to = users[place].next_port();
    grant_at(book, users, origin, to);
    true
}

/// The oldest lease is completed. Tells whether there was one.
fn complete_first(book: &mut Book, users: &mut Vec<User>) -> bool
    requires users { AreUsersOf book.old users.old.items }
    requires granted { AllByRecursion HasGranted users.old.items }
    ensures turn { IsDoneTurn result book.old book.new users.new.items }
    ensures kept { AreUsersOf book.new users.new.items }
{
    let Some(lease) = oldest_lease(users) else {
        return false;
    };
    done_at(book, users, LeaseId(lease));
    true
}

/// Writes down the indices of the first buffers, as many as there is space for.
fn write_indices(bufs: &[Buf], numbers: &mut [u32])
    requires { length numbers.old ≤ length bufs.now }
    ensures { numbers.new ≡ take (length numbers.old) (indices_of bufs.now) }
{
    for i in 0..numbers.len() {
        numbers[i] = bufs[i].index();
    }
}

/// A port that is shut goes with the smallest buffers of its session, whose place this is. Their
/// indices are written where there is space for them.
fn finish_by(
    book: &mut Book,
    users: &mut Vec<User>,
    port: PortId,
    seen: PortSeen,
    place: usize,
    numbers: &mut [u32],
)
    requires turn { IsToGo book.old users.old.items port.0 seen place }
    requires space { seen.due ≤ length numbers.old }
    ensures made { IsNextMade book.old book.new }
    ensures kept { AreUsersOf book.new users.new.items }
{
    let named = &mut numbers[..seen.due as usize];
    users[place].sort_bufs();
    write_indices(&users[place].bufs, named);
    let chain = Chain {
        found: 0,
        astray: 0,
    };
    finish_at(book, users, port, named, chain);
}

/// A port that is shut goes with the smallest buffers of its session, whose place this is.
fn finish_with(book: &mut Book, users: &mut Vec<User>, port: PortId, seen: PortSeen, place: usize)
    requires { IsToGo book.old users.old.items port.0 seen place }
    ensures made { IsNextMade book.old book.new }
    ensures kept { AreUsersOf book.new users.new.items }
{
    let mut numbers = [0; MOST_DUE];
    finish_by(book, users, port, seen, place, &mut numbers);
}

/// The first port of the first session is shut, or goes.
fn end_port(book: &mut Book, users: &mut Vec<User>, port: PortId)
    requires users { AreUsersOf book.old users.old.items }
    requires quiet { AllByRecursion IsQuiet users.old.items }
    requires first { IsPortsTurn book.old users.old.items port.0 }
    ensures made { IsNextMade book.old book.new }
    ensures kept { AreUsersOf book.new users.new.items }
{
    if book.open_port(port).is_some() {
        shut_at(book, users, port);
        return;
    }
    match owner_of_shut(book, users, port) {
        Some((seen, place)) => finish_with(book, users, port, seen, place),
        None => unreachable!(),
    }
}

/// The first port of the first session is shut, or goes; a session without one leaves. Tells
/// whether there was a session.
fn end_first(book: &mut Book, users: &mut Vec<User>) -> bool
    requires users { AreUsersOf book.old users.old.items }
    requires quiet { AllByRecursion IsQuiet users.old.items }
    ensures turn { IsLastTurn result book.old book.new }
    ensures kept { AreUsersOf book.new users.new.items }
{
    if users.is_empty() {
        return false;
    }
    let session = users[0].id;
    match users[0].first_port() {
        Some(port) => end_port(book, users, port),
        None => {
            leave(book, users, session);
        }
    }
    true
}

/// Makes the entry that comes next on the way to the end. Tells whether there was one.
fn make_next(book: &mut Book, users: &mut Vec<User>) -> bool
    requires { AreUsersOf book.old users.old.items }
    ensures turn { IsLastTurn result book.old book.new }
    ensures kept { AreUsersOf book.new users.new.items }
{
    if grant_first(book, users) {
        return true;
    }
    if complete_first(book, users) {
        return true;
    }
    end_first(book, users)
}

/// Makes what was promised and is wanting still, until each session has left.
pub(crate) fn wind_up(book: &mut Book, users: &mut Vec<User>)
    requires { AreUsersOf book.old users.old.items }
    ensures ended { IsEnded book.old book.new }
    ensures kept { AreUsersOf book.new users.new.items }
{
    while make_next(book, users) {}
}
