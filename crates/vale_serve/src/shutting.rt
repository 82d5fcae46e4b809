ghost use Rattle.std.specs.Prelude.{Ok};
ghost use Rattle.vale_entry.specs.declared.entry.Ask.TheVariants as asks;
ghost use Rattle.vale_serve.specs.Words.{IsLegal, IsMine, IsServed, IsUser, open_port, standing};

use crate::users::User;
use nm_types::PortId;
use vale_book::Book;
use vale_entry::Reply;

/// A settled session shuts its port.
pub(crate) fn shut(book: &mut Book, user: &User, port: PortId) -> Option<Reply>
    requires legal { IsLegal book.old.pool book.old.entries }
    requires user { IsUser book.old user.now }
    requires mine { IsMine user.now (open_port (standing book.old).world.ports port.0) }
    ensures served { IsServed book.old book.new (asks.Shut port) (Ok result) }
    ensures kept { IsUser book.new user.now }
{
    if !user.is_settled() {
        return None;
    }
    book.shut(port);
    Some(Reply::Made)
}
