//! A desk's ports are closed, and it leaves.
ghost use Rattle.std.specs.Prelude.{◌≡◌, [], None, Some, IsSome, IfOk, IfErr};
ghost use Rattle.nm_types.specs.OwnPorts.{port_with_id};
ghost use Rattle.vale_entry.specs.declared.entry.Ask.TheVariants as asks;
ghost use Rattle.vale_entry.specs.declared.entry.Reply.TheVariants as replies;
ghost use Rattle.vale_entry.specs.Closing.{leases_out, shutting_port};
ghost use Rattle.vale_entry.specs.World.{Port as Seen};
ghost use Rattle.vale_own.specs.Recorded.{standing};
ghost use Rattle.vale_own.specs.SideAsks.{IsSettled};
ghost use Rattle.nm_desk.specs.Desks.{IsDeskOf};
ghost use Rattle.nm_desk.specs.Calls.{Made};
ghost use Rattle.nm_desk.specs.Leaving.{HasLeft, IsFinished, Waits};

use crate::desk::Desk;
use nm_types::{Chain, PortId};
use vale_book::Book;

/// What closing a port told.
#[derive(Clone, Copy, Debug, PartialEq, Eq)]
pub struct Detached {
    /// The frames in the port's line when it went: what was granted to it, or put to a pipe's end,
    /// and no sync of it had read. They are lost.
    pub unread: u32,
    /// How many extra buffers its list reached, from its head on, before it ended, met an index that is
    /// in no extra position of the port, or came to one again; and how many it did not reach.
    pub chain: Chain,
}

/// How many leases of a port that is shut are not done.
fn leases_out(book: &Book, port: PortId) -> u32
    ensures { (seen : Seen) → shutting_port (standing book.now).world.ports port.0 ≡ Some seen
        → result ≡ leases_out seen }
{
    match book.shutting_port(port) {
        Some(seen) => seen.leases_out,
        None => 0,
    }
}

impl Desk {
    /// Closes a port for new frames: nothing more is sent from it or granted to it. What it has on
    /// the desk's own side stays there until it is finished. Its monitor watches it no more.
    pub fn shut(&mut self, book: &mut Book, port: PortId)
        requires desk { IsDeskOf book.old self.old }
        requires settled { IsSettled book.old.pool book.old.entries self.old.id }
        requires none { self.old.shut ≡ None }
        requires there { IsSome (port_with_id self.old.own port.0) }
        ensures { Made book.old book.new self.old self.new (asks.Shut port) replies.Made }
    {
        book.shut(port);
        self.shut = Some(port);
    }

    /// Ends the port that is shut. All of its buffers go back to the pool, those named in its slots
    /// and those that its chain does not reach too.
    ///
    /// Where leases of the port are out it waits for those who have them: that many are the error, no
    /// entry was made, and nothing has changed.
    pub fn finish(&mut self, book: &mut Book, port: PortId) -> Result<Detached, u32>
        requires desk { IsDeskOf book.old self.old }
        requires shut { self.old.shut ≡ Some port.0 }
        requires there { IsSome (port_with_id self.old.own port.0) }
        ensures finished { IfOk result (IsFinished book.old book.new self.old self.new port.0) }
        ensures waits { IfErr result (Waits book.old book.new self.old self.new port.0) }
    {
        let out = leases_out(book, port);
        if out > 0 {
            return Err(out);
        }
        let (bufs, chain) = match &mut self.own {
            Some(own) => own.close_port(port),
            None => unreachable!(),
        };
        self.shut = None;
        match book.finish(port, bufs, chain) {
            Ok(unread) => Ok(Detached { unread, chain }),
            Err(_out) => unreachable!(),
        }
    }

    /// The session ends, which has closed its ports: netmap(4) closes its descriptor.
    pub fn leave(self, book: &mut Book)
        requires desk { IsDeskOf book.old self }
        requires settled { IsSettled book.old.pool book.old.entries self.id }
        requires empty { self.own.ports ≡ [] }
        ensures { HasLeft book.old book.new self }
    {
        let Desk {
            id,
            shut: _,
            own,
            alloc: _,
        } = self;
        book.leave(id);
        match own {
            Some(own) => own.close(),
            None => unreachable!(),
        }
    }
}
