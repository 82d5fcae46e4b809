ghost use Rattle.std.specs.Prelude.{Ok};
ghost use Rattle.vale_entry.specs.declared.entry.Ask.TheVariants as asks;
ghost use Rattle.vale_serve.specs.Joined.{AreUsersOf};
ghost use Rattle.vale_serve.specs.Serving.{IsServed};

use crate::users::{User, place_of};
use nm_types::SessionId;
use vale_book::Book;
use vale_entry::Reply;

/// A session leaves, if it is there, is settled and has no port.
pub fn leave(book: &mut Book, users: &mut Vec<User>, session: SessionId) -> Option<Reply>
    requires { AreUsersOf book.old users.old.items }
    ensures served { IsServed book.old book.new (asks.Leave session) (Ok result) }
    ensures kept { AreUsersOf book.new users.new.items }
{
    let place = place_of(users, session)?;
    if !users[place].can_leave() {
        return None;
    }
    book.leave(session);
    users.remove(place).end();
    Some(Reply::Made)
}
