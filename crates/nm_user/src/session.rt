ghost use Rattle.std.specs.Prelude.{◌≡◌, length, IsSome, IfOk, IfErr};
ghost use Rattle.nm_user.specs.Words.{Answers, IsPassIn, empty_own, fixed_in, knowing};
ghost use Rattle.nm_user.specs.Words.{port_with_id};
ghost use Rattle.vale_entry.specs.declared.entry.Ask.TheVariants as asks;
ghost use Rattle.vale_entry.specs.declared.entry.Reply.TheVariants as replies;
ghost use Rattle.nm_user.specs.Calls.{Made, MadeNone, IsRefused};

use nm_own::OwnSide;
use nm_types::{Counts, PortId, SessionId, StepFault};
use std::alloc::Global;
use std::marker::Model;
use std::sync::Wait;
use vale_fabric::{Fabric, Pass};

/// A user's session on a fabric, which it borrows, with the rings, slots and buffers of its ports. It
/// cannot be dropped, and ends by `leave`.
pub struct Session<'f> {
    pub(crate) fabric: &'f Fabric,
    pub(crate) pass: Pass,
    pub(crate) id: SessionId,
    pub(crate) user: u64,
    /// Away only within a sync.
    pub(crate) own: Option<OwnSide>,
    pub(crate) alloc: Global,
}

impl<'f> Model for Session<'f> {
    ghost use Rattle.nm_user.specs.Sessions.{SessionState};

    ghost Value = { SessionState };

    ghost use Rattle.nm_user.specs.Sessions.{session_seen, IsSession};

    ghost view = { session_seen };

    ghost invariant = { IsSession };
}

impl<'f> Session<'f> {
    /// A user comes, as a session for which the pass speaks from then on: netmap(4) opens
    /// /dev/netmap. The pass is one of this fabric; `user` is any number, which the entry and the gates
    /// of the session's syncs are told.
    ///
    /// `RecordFull`: the record has no room for the entry and for that of the session's leaving.
    /// `NoMemory`: memory is wanting. Then no entry was made, and the pass is handed back.
    pub fn enter<R: Wait>(
        alloc: Global,
        rt: &R,
        fabric: &'f Fabric,
        pass: Pass,
        user: u64,
    ) -> Result<Session<'f>, (StepFault, Pass)>
        requires { IsPassIn fabric.now pass }
        ensures made { IfOk result (λ s. Answers (fixed_in fabric.now) (knowing pass) s.knows
            (asks.Enter user) replies.Made) }
        ensures id { IfOk result (λ s. s.id ≡ length s.knows.seen) }
        ensures user { IfOk result (λ s. s.user ≡ user) }
        ensures fabric { IfOk result (λ s. s.fabric ≡ fabric.now) }
        ensures fixed { IfOk result (λ s. s.fixed ≡ fixed_in fabric.now) }
        ensures own { IfOk result (λ s. s.own ≡ empty_own s.fixed.pool) }
        ensures pass { IfErr result (λ refused. IsPassIn fabric.now refused.1) }
        ensures full { IfErr result (λ refused. IsRefused (fixed_in fabric.now) (knowing pass)
            (knowing refused.1) (asks.Enter user) refused.0) }
    {
        let mut pass = pass;
        let own = match OwnSide::new(alloc, fabric.buffers()) {
            Ok(own) => own,
            Err(fault) => return Err((fault.into(), pass)),
        };
        match fabric.enter(rt, &mut pass, user) {
            Ok(id) => Ok(Session {
                fabric,
                pass,
                id,
                user,
                own: Some(own),
                alloc,
            }),
            Err(fault) => {
                own.close();
                Err((fault, pass))
            }
        }
    }

    /// What a port has counted since it was opened, in frames. `RecordFull` and `NoMemory`: no entry
    /// was made.
    pub fn stats<R: Wait>(&mut self, rt: &R, port: PortId) -> Result<Counts, StepFault>
        requires { IsSome (port_with_id self.old.own port.0) }
        ensures made { IfOk result (λ counts. Made self.old self.new (asks.Stat port)
            (replies.Counted counts)) }
        ensures full { IfErr result (MadeNone self.old self.new (asks.Stat port)) }
    {
        self.fabric.stats(rt, &mut self.pass, port)
    }
}
