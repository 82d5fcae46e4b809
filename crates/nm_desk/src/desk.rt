ghost use Rattle.std.specs.Prelude.{IfOk, IfErr};
ghost use Rattle.vale_entry.specs.declared.entry.Ask.TheVariants as asks;
ghost use Rattle.vale_entry.specs.declared.entry.Reply.TheVariants as replies;
ghost use Rattle.nm_types.specs.Buffers.{IsPoolSize};
ghost use Rattle.nm_desk.specs.Desks.{IsDeskOf};
ghost use Rattle.nm_desk.specs.Calls.{HasEntered, IsOpenAt, IsRefused, Made, MadeNone};

use nm_own::OwnSide;
use nm_types::{Counts, PortId, SessionId, StepFault};
use std::alloc::Global;
use std::marker::Model;
use vale_book::Book;

/// A user's session over a book, with the rings, slots and buffers of its ports. It cannot be
/// dropped, and ends by `leave`.
pub struct Desk {
    pub(crate) id: SessionId,
    /// The port that is shut and has not gone, if there is one.
    pub(crate) shut: Option<PortId>,
    /// Away only within a call.
    pub(crate) own: Option<OwnSide>,
    pub(crate) alloc: Global,
}

impl Model for Desk {
    ghost use Rattle.nm_desk.specs.Desks.{DeskState};

    ghost Value = { DeskState };

    ghost use Rattle.nm_desk.specs.Desks.{desk_seen, IsWhole};

    ghost view = { desk_seen };

    ghost invariant = { IsWhole };
}

impl Desk {
    /// A user comes, as a session: netmap(4) opens /dev/netmap. `user` is any number, which the entry
    /// is told.
    ///
    /// `RecordFull`: the record has no room for the entry and for that of the session's leaving.
    /// `NoMemory`: memory is wanting. Then no entry was made.
    pub fn enter(alloc: Global, book: &mut Book, user: u64) -> Result<Desk, StepFault>
        requires { IsPoolSize book.old.pool }
        ensures entered { IfOk result (HasEntered book.old book.new user) }
        ensures full { IfErr result (IsRefused book.old book.new (asks.Enter user)) }
    {
        let own = OwnSide::new(alloc, book.buffers())?;
        let _legal = book.history();
        match book.enter(user) {
            Ok(id) => Ok(Desk {
                id,
                shut: None,
                own: Some(own),
                alloc,
            }),
            Err(fault) => {
                own.close();
                Err(fault)
            }
        }
    }

    /// What a port has counted since it was opened, in frames. `RecordFull` and `NoMemory`: no entry
    /// was made.
    pub fn stats(&mut self, book: &mut Book, port: PortId) -> Result<Counts, StepFault>
        requires desk { IsDeskOf book.old self.old }
        requires is_open { IsOpenAt self.old port.0 }
        ensures made { IfOk result (λ counts. Made book.old book.new self.old self.new
            (asks.Stat port) (replies.Counted counts)) }
        ensures full { IfErr result (MadeNone book.old book.new self.old self.new
            (asks.Stat port)) }
    {
        book.stats(port)
    }
}
