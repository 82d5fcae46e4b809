//! Sessions come and leave.
ghost use Rattle.std.specs.Prelude.{◌≡◌, ◌<◌, ◌^◌, length, OnOk, IfOk, IfErr};
ghost use Rattle.vale_entry.specs.declared.entry.Ask.TheVariants as asks;
ghost use Rattle.vale_entry.specs.declared.entry.Reply.TheVariants as replies;
ghost use Rattle.vale_fabric.specs.Words.{AnswersIn, IsPassIn, MayIn, RefusesIn, knowing};

use crate::fabric::Fabric;
use crate::kept::Pass;
use nm_types::{SessionId, StepFault};
use std::sync::Wait;

impl Fabric {
    /// A user comes, as a session for which the pass speaks from now on. Room for its leaving is
    /// promised.
    pub fn enter<R: Wait>(&self, rt: &R, pass: &mut Pass, user: u64) -> Result<SessionId, StepFault>
        requires { IsPassIn self.now pass.old }
        ensures pass { IsPassIn self.now pass.new }
        ensures made { OnOk result (AnswersIn self.now pass.old pass.new
            (asks.Enter user) replies.Made) }
        ensures id { IfOk result (λ id. id.0 ≡ length (knowing pass.new).seen) }
        ensures full { IfErr result (RefusesIn self.now pass.old pass.new (asks.Enter user)) }
    {
        let mut book = self.take(rt, pass);
        let entered = book.enter(user);
        self.give(pass, book, entered.is_ok());
        entered
    }

    /// The session ends.
    pub fn leave<R: Wait>(&self, rt: &R, pass: &mut Pass, session: SessionId)
        requires pass { IsPassIn self.now pass.old }
        requires may { MayIn self.now pass.old (asks.Leave session) }
        ensures pass { IsPassIn self.now pass.new }
        ensures made { AnswersIn self.now pass.old pass.new (asks.Leave session) replies.Made }
    {
        let mut book = self.take(rt, pass);
        book.leave(session);
        self.give(pass, book, true);
    }
}
