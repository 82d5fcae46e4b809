ghost use Rattle.vale_entry.specs.declared.entry.Ask.TheVariants as asks;
ghost use Rattle.vale_serve.specs.Joined.{AreUsersOf};
ghost use Rattle.vale_serve.specs.Serving.{IsServed};

use crate::users::User;
use nm_types::StepFault;
use std::alloc::Global;
use vale_book::Book;
use vale_entry::Reply;

/// A user comes.
pub(crate) fn enter(
    alloc: Global,
    book: &mut Book,
    users: &mut Vec<User>,
    user: u64,
) -> Result<Option<Reply>, StepFault>
    requires { AreUsersOf book.old users.old.items }
    ensures served { IsServed book.old book.new (asks.Enter user) result }
    ensures kept { AreUsersOf book.new users.new.items }
{
    users.reserve(1)?;
    let id = book.enter(user)?;
    users.push_reserved(User::new(alloc, id));
    Ok(Some(Reply::Made))
}
