//! Passes: cut in two, and made one again.
ghost use Rattle.std.specs.Prelude.{◌≡◌, ◌<◌, ◌^◌, length};
ghost use Rattle.vale_fabric.specs.Words.{HadRoom, HasAll, IsLegal, IsWhole, Knows, forked_view};
ghost use Rattle.vale_fabric.specs.Words.{joined_view, kept_view};
ghost use Rattle.vale_fabric.specs.Roots.{root_of};
ghost use Rattle.vale_fabric.specs.Fabrics.{IsPassIn, fixed_in, knowing, record_in};

use crate::fabric::Fabric;
use crate::kept::{Pass, Shared};
use std::sync::Wait;
use vale_book::Book;

impl Fabric {
    /// Cuts the pass's share in two. The new pass has seen as much, and speaks for no session.
    pub fn fork(&self, pass: &mut Pass) -> Pass
        requires { IsPassIn self.now pass.old }
        ensures pass { IsPassIn self.now pass.new × IsPassIn self.now result }
        ensures kept { knowing pass.new ≡ kept_view (knowing pass.old) }
        ensures given { knowing result ≡ forked_view (knowing pass.old) }
    {
        self.turn.fork(pass)
    }

    /// Takes in another pass, with its share and the sessions for which it speaks.
    pub fn join(&self, pass: &mut Pass, other: Pass)
        requires pass { IsPassIn self.now pass.old }
        requires other { IsPassIn self.now other }
        ensures pass { IsPassIn self.now pass.new }
        ensures joined { knowing pass.new ≡ joined_view (knowing pass.old) (knowing other) }
        ensures known { Knows root_of (knowing pass.new).seen
            (knowing pass.old).seen (knowing pass.old).mine
            × Knows root_of (knowing pass.new).seen (knowing other).seen (knowing other).mine }
        ensures whole { IsWhole (knowing pass.new).part
            → HasAll (knowing pass.new).seen (knowing pass.new).seen (knowing pass.new).mine }
    {
        self.turn.join(pass, other);
    }

    /// Waits as the other calls do, and ends the fabric. Its book is left.
    pub fn close<R: Wait>(self, rt: &R, pass: Pass) -> Book
        requires { IsPassIn self pass }
        ensures fixed { record_in (fixed_in self) result.entries ≡ result }
        ensures knows { Knows root_of result.entries (knowing pass).seen (knowing pass).mine }
        ensures whole { IsWhole (knowing pass).part
            → HasAll result.entries (knowing pass).seen (knowing pass).mine }
        ensures roomy { HadRoom result }
        ensures few { length result.entries < 2 ^ 32 }
        ensures legal { IsLegal result.pool result.entries }
    {
        let Fabric { turn, buffers: _ } = self;
        let Shared { book } = turn.close(rt, pass);
        Box::into_inner(book)
    }
}
