//! A session's ports are closed, and it leaves.
ghost use Rattle.std.specs.Prelude.{◌≡◌, None, IsSome, option_map, slice_get, map, nat_eq};
ghost use Rattle.nm_user.specs.Words.{AnswersIn, IsDistinct, IsPassIn, OwnPort, fixed_in, id_of};
ghost use Rattle.nm_user.specs.Words.{indices_of, knowing, port_with_id};
ghost use Rattle.vale_entry.specs.declared.entry.Ask.TheVariants as asks;
ghost use Rattle.vale_entry.specs.declared.entry.Reply.TheVariants as replies;
ghost use Rattle.vale_book.specs.BookView.{AreOf};
ghost use Rattle.nm_user.specs.Sessions.{IsThere};
ghost use Rattle.nm_user.specs.Leaving.{MayWait, IsDetached, IsLeft};

use crate::session::Session;
use nm_region::Buf;
use nm_types::{Chain, PortId};
use std::sync::Wait;
use vale_book::LeasesOut;
use vale_fabric::{Fabric, Pass};

/// What closing a port told.
#[derive(Clone, Copy, Debug, PartialEq, Eq)]
pub struct Detached {
    /// The frames in the port's line when it went: what was granted to it, or put to a pipe's end,
    /// and no sync of it had read. They are lost.
    pub unread: u32,
    /// How many extra buffers its list reached, from its head on, before it ended, met an index that is
    /// in no extra position of the port, or came to one again; and how many it did not reach.
    pub chain: Chain,
}

/// Finishes a port that is shut, once no lease of it is out. Answers how many frames nobody read.
fn finish<R: Wait>(
    rt: &R,
    fabric: &Fabric,
    pass: &mut Pass,
    port: PortId,
    bufs: Vec<Buf>,
    chain: Chain,
) -> u32
    requires pass { IsPassIn fabric.now pass.old }
    requires may { MayWait (fixed_in fabric.now) (knowing pass.old)
        (asks.Finish port (indices_of bufs.items) chain) }
    requires region { AreOf (fixed_in fabric.now).region bufs.items }
    ensures pass { IsPassIn fabric.now pass.new }
    ensures made { AnswersIn fabric.now pass.old pass.new
        (asks.Finish port (indices_of bufs.items) chain) (replies.Unread result) }
{
    let mut bufs = bufs;
    for _ in rt.forever() {
        match fabric.finish(rt, pass, port, bufs, chain) {
            Ok(unread) => return unread,
            Err(LeasesOut { n: _, bufs: back }) => bufs = back,
        }
    }
    unreachable!()
}

impl<'f> Session<'f> {
    /// Closes a port: it is shut, so that nothing more is sent from it or granted to it, and finished
    /// once no lease of it is out. Until then the call waits for those who have the leases; that they
    /// complete them is not claimed. All of the port's buffers go back to the pool, those named in its
    /// slots and those that its chain does not reach too. Its monitor watches it no more.
    pub fn detach<R: Wait>(&mut self, rt: &R, port: PortId) -> Detached
        requires { IsSome (port_with_id self.old.own port.0) }
        ensures detached { IsDetached self.old self.new port.0 result }
        ensures there { IsThere None self.new }
    {
        self.fabric.shut(rt, &mut self.pass, port);
        let (bufs, chain) = match &mut self.own {
            Some(own) => own.close_port(port),
            None => unreachable!(),
        };
        let unread = finish(rt, self.fabric, &mut self.pass, port, bufs, chain);
        Detached { unread, chain }
    }

    /// The port that was opened first of those that the session has.
    fn first_port(&self) -> Option<PortId>
        ensures first { result
            ≡ option_map (λ (p : OwnPort). p.id) (slice_get self.now.own.ports 0) }
        ensures apart { IsDistinct nat_eq (map id_of self.now.own.ports) }
    {
        match &self.own {
            Some(own) => own.first_port(),
            None => None,
        }
    }

    /// Closes the ports in the order in which they were opened, as `detach` does and with its wait,
    /// and leaves: netmap(4) closes its descriptor. The pass speaks for the session no more.
    pub fn leave<R: Wait>(self, rt: &R) -> Pass
        ensures pass { IsPassIn self.entry.fabric result }
        ensures left { IsLeft self.entry (knowing result) }
    {
        let mut session = self;
        while let Some(port) = session.first_port() {
            session.detach(rt, port);
        }
        let Session {
            fabric,
            mut pass,
            id,
            user: _,
            own,
            alloc: _,
        } = session;
        fabric.leave(rt, &mut pass, id);
        match own {
            Some(own) => own.close(),
            None => unreachable!(),
        }
        pass
    }
}
