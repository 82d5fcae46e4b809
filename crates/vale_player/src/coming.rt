//! How a user comes, closes its ports and leaves, and how its pass is cut in two and made one again.
ghost use Rattle.std.specs.Prelude.{◌≡◌, [], ◌∷◌, IfOk, IfErr, IfSome, None};
ghost use Rattle.vale_player.specs.Words.{FinishPort, IsLeft, IsPassIn, IsRefused, IsThere, Knows};
ghost use Rattle.vale_player.specs.Words.{ShutPort, fixed_in, forked_view, joined_view, kept_view};
ghost use Rattle.vale_player.specs.Words.{knowing, root_of};
ghost use Rattle.vale_entry.specs.declared.entry.Ask.TheVariants as asks;
ghost use Rattle.vale_player.specs.Kept.{AreWhole, KeepsAll};
ghost use Rattle.vale_player.specs.Players.{Does, HasEntered, IsStill};

use crate::kept::SavedPorts;
use crate::player::{Player, SaveFile};
use nm_types::{Name, StepFault};
use nm_user::Session;
use std::alloc::Global;
use std::sync::Wait;
use vale_fabric::{Fabric, Pass};

impl<'f> Player<'f> {
    /// A user of this number comes; the frames of its ports of these names are kept. If the record is
    /// full or memory is wanting, the pass is handed back, and the user has stopped at its Enter.
    pub fn enter<R: Wait>(
        alloc: Global,
        rt: &R,
        fabric: &'f Fabric,
        pass: Pass,
        number: u64,
        names: &'f [Name],
    ) -> Result<Player<'f>, (StepFault, Pass)>
        requires { IsPassIn fabric.now pass }
        ensures entered { IfOk result (HasEntered fabric.now (knowing pass) number) }
        ensures names { IfOk result (λ player. player.names ≡ names.now) }
        ensures pass { IfErr result (λ refused. IsPassIn fabric.now refused.1) }
        ensures stops { IfErr result (λ refused. IsRefused (fixed_in fabric.now) (knowing pass)
            (knowing refused.1) (asks.Enter number) refused.0) }
    {
        match Session::enter(alloc, rt, fabric, pass, number) {
            Ok(session) => Ok(Player {
                number,
                session,
                saves: Vec::new(alloc),
                names,
                kept: SavedPorts::new(alloc),
                frame: Vec::new(alloc),
            }),
            Err(refused) => Err(refused),
        }
    }

    /// Closes a port; does nothing if the user has not the port.
    pub fn close<R: Wait>(&mut self, rt: &R, name: &Name)
        ensures does { Does self.old self.new (ShutPort name.now ∷ FinishPort name.now ∷ []) }
        ensures still { IsStill self.old self.new }
    {
        if let Some(port) = self.session.port_named(name) {
            self.session.detach(rt, port);
        }
    }

    /// Closes all ports in the order in which they were opened, and leaves, with the notes of what is
    /// saved and all frames of the ports that were kept, those of the notes among them.
    pub fn leave<R: Wait>(self, rt: &R) -> (Pass, Vec<SaveFile>, SavedPorts)
        ensures pass { IsPassIn self.entry.session.fabric result.0 }
        ensures left { IsLeft self.entry.session (knowing result.0) }
        ensures saves { result.1.items ≡ self.entry.saves }
        ensures whole { IfSome result.2
            (AreWhole self.entry.session.fixed.pool (knowing result.0).seen) }
        ensures kept { KeepsAll result.2 result.1.items }
        ensures there { IsThere None self.entry.session }
    {
        let Player {
            number: _,
            session,
            saves,
            names: _,
            kept,
            frame: _,
        } = self;
        (session.leave(rt), saves, kept)
    }

    /// Cuts the share of the user's pass in two. The new pass has seen as much, and speaks for no
    /// session.
    pub fn fork(&mut self) -> Pass
        ensures pass { IsPassIn self.old.session.fabric result }
        ensures kept { self.new ≡ record self.old {
          session
              = record self.old.session { knows = kept_view self.old.session.knows };
        } }
        ensures given { knowing result ≡ forked_view self.old.session.knows }
        ensures there { IsThere None self.old.session }
    {
        self.session.fork()
    }

    /// Takes another pass into the user's, with its share and the sessions for which it speaks.
    pub fn meet(&mut self, other: Pass)
        requires { IsPassIn self.old.session.fabric other }
        ensures joined { self.new ≡ record self.old {
          session = record self.old.session
              { knows = joined_view self.old.session.knows (knowing other) };
        } }
        ensures known { Knows root_of self.new.session.knows.seen self.old.session.knows.seen
            self.old.session.knows.mine × Knows root_of self.new.session.knows.seen
            (knowing other).seen (knowing other).mine }
        ensures there { IsThere None self.new.session }
    {
        self.session.join(other);
    }
}
