ghost use Rattle.vale_entry.specs.declared.entry.Ask.TheVariants as asks;
ghost use Rattle.vale_serve.specs.Words.{IsLegal, IsMine, IsServed, IsUser, open_port, standing};

use crate::users::User;
use nm_types::{PortId, StepFault};
use vale_book::Book;
use vale_entry::Reply;

/// The counters of a session's port are read.
pub(crate) fn stats(book: &mut Book, user: &User, port: PortId) -> Result<Option<Reply>, StepFault>
    requires legal { IsLegal book.old.pool book.old.entries }
    requires user { IsUser book.old user.now }
    requires mine { IsMine user.now (open_port (standing book.old).world.ports port.0) }
    ensures served { IsServed book.old book.new (asks.Stat port) result }
    ensures kept { IsUser book.new user.now }
{
    let counts = book.stats(port)?;
    Ok(Some(Reply::Counted { counts }))
}
