ghost use Rattle.vale_serve.specs.Joined.{AreUsersOf};
ghost use Rattle.vale_serve.specs.Serving.{IsServed};

use crate::asking::{
    done_at, finish_at, grant_at, open_at, put_at, read_at, reset_at, send_at, shut_at, stats_at,
    watch_at,
};
use crate::coming::enter;
use crate::leaving::leave;
use crate::users::User;
use nm_types::StepFault;
use std::alloc::Global;
use vale_book::Book;
use vale_entry::{Ask, Reply};

/// Makes one ask, if it is enabled.
pub fn serve(
    alloc: Global,
    book: &mut Book,
    users: &mut Vec<User>,
    ask: &Ask,
) -> Result<Option<Reply>, StepFault>
    requires { AreUsersOf book.old users.old.items }
    ensures served { IsServed book.old book.new ask.now result }
    ensures kept { AreUsersOf book.new users.new.items }
{
    match ask {
        Ask::Enter { user } => enter(alloc, book, users, *user),
        Ask::Open {
            session,
            name,
            tx,
            rx,
            extra,
        } => open_at(alloc, book, users, *session, name, *tx, *rx, *extra),
        Ask::Send { port, frames } => send_at(alloc, book, users, *port, frames),
        Ask::Grant { origin, to } => Ok(grant_at(book, users, *origin, *to)),
        Ask::Done { lease } => Ok(done_at(book, users, *lease)),
        Ask::Sync { port, back } => read_at(alloc, book, users, *port, false, back.as_slice()),
        Ask::Reset { port, side, fault } => reset_at(book, users, *port, *side, fault),
        Ask::Shut { port } => Ok(shut_at(book, users, *port)),
        Ask::Finish { port, bufs, chain } => {
            Ok(finish_at(book, users, *port, bufs.as_slice(), *chain))
        }
        Ask::Leave { session } => Ok(leave(book, users, *session)),
        Ask::Put { port, offered } => put_at(alloc, book, users, *port, offered.as_slice()),
        Ask::PutKept { .. } => Ok(None),
        Ask::Get { port, back } => read_at(alloc, book, users, *port, true, back.as_slice()),
        Ask::Watch {
            monitor,
            target,
            sides,
        } => watch_at(book, users, *monitor, target, *sides),
        Ask::Stat { port } => stats_at(book, users, *port),
    }
}
