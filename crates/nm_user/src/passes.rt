//! A session's pass: cut in two, and made one again.
ghost use Rattle.std.specs.Prelude.{◌≡◌, None};
ghost use Rattle.nm_user.specs.Words.{HasAll, IsPassIn, IsWhole, Knows, forked_view, joined_view};
ghost use Rattle.nm_user.specs.Words.{kept_view, knowing, root_of};
ghost use Rattle.nm_user.specs.Sessions.{IsThere};

use crate::session::Session;
use vale_fabric::Pass;

impl<'f> Session<'f> {
    /// Cuts the share of the session's pass in two, so that another user may come on another thread.
    /// The new pass has seen as much, and speaks for no session.
    pub fn fork(&mut self) -> Pass
        ensures pass { IsPassIn self.old.fabric result }
        ensures kept { self.new ≡ record self.old { knows = kept_view self.old.knows } }
        ensures given { knowing result ≡ forked_view self.old.knows }
    {
        self.fabric.fork(&mut self.pass)
    }

    /// Takes another pass of the fabric into the session's, with its share and the sessions for which
    /// it speaks.
    pub fn join(&mut self, other: Pass)
        requires other { IsPassIn self.old.fabric other }
        ensures joined { self.new
            ≡ record self.old { knows = joined_view self.old.knows (knowing other) } }
        ensures known { Knows root_of self.new.knows.seen self.old.knows.seen self.old.knows.mine
            × Knows root_of self.new.knows.seen (knowing other).seen (knowing other).mine }
        ensures whole { IsWhole self.new.knows.part
            → HasAll self.new.knows.seen self.new.knows.seen self.new.knows.mine }
        ensures there { IsThere None self.new }
    {
        self.fabric.join(&mut self.pass, other);
    }
}
