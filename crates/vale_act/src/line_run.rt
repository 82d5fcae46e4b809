//! A line outside the blocks, at the seat of its user.
ghost use Rattle.std.specs.Prelude.{◌≡◌, ◌≤◌, ℕ, true, false, List, length, IfOk, IfErr};
ghost use Rattle.vale_script.specs.declared.script.Act.TheVariants as acts;
ghost use Rattle.vale_script.specs.declared.script.Unit.TheVariants as parts;
ghost use Rattle.vale_act.specs.declared.seat.Seat.TheVariants.{Away};
ghost use Rattle.vale_act.specs.Words.{IsDoable, IsPassIn, SavesNamed, fixed_in, knowing, records_in};
ghost use Rattle.vale_act.specs.Words.{shares_of};
ghost use Rattle.vale_act.specs.Leaving.{CanStillLeave, SeatStillLeaves};
ghost use Rattle.vale_act.specs.Seats.{AllKeepNames, KeepsNames, Comes, ComesNot, HasActed, LineAt, UnitAt, line_tasks, AreOnFabric, AreSeated, IsDeed, IsOnFabric, IsSeated};

use crate::scene::{Ended, Scene};
use crate::seat::Seat;
use nm_io::Gate;
use nm_types::StepFault;
use std::mem;
use std::sync::Wait;
use vale_fabric::Pass;
use vale_player::Player;
use vale_script::{Act, Line};

impl<'f, R: Wait, G> Scene<'f, R, G> {
    /// A user comes through a pass of its own. If it cannot, the pass goes back to the main one.
    fn come(&self, main: &mut Pass, number: u64) -> Result<Player<'f>, StepFault>
        requires { IsPassIn self.now.fabric.now main.old }
        ensures pass { IsPassIn self.now.fabric.now main.new }
        ensures comes { IfOk result (Comes self.now.fabric.now number (knowing main.old)
            (knowing main.new)) }
        ensures names { IfOk result (λ player. player.names ≡ self.now.names.now) }
        ensures not { IfErr result (ComesNot (fixed_in self.now.fabric.now) number
            (knowing main.old) (knowing main.new)) }
    {
        let pass = self.fabric.fork(main);
        match Player::enter(self.alloc, self.rt, self.fabric, pass, number, self.names) {
            Ok(player) => Ok(player),
            Err((fault, pass)) => {
                self.fabric.join(main, pass);
                Err(fault)
            }
        }
    }
}

impl<'f> Seat<'f> {
    /// The line is the one with which the seat's user comes.
    fn comes_by(&self, act: &Act) -> bool
        ensures yes { result ≡ true → (self.now ≡ Away) × (act.now ≡ acts.Enter) }
        ensures no { result ≡ false → self.now ≡ Away → IsDeed act.now }
    {
        match self {
            Seat::Away => matches!(act, Act::Enter),
            _ => false,
        }
    }

    /// The user of this number comes, and takes its seat.
    fn enter<R: Wait, G>(&mut self, scene: &Scene<'f, R, G>, main: &mut Pass, number: u64) -> Ended
        requires pass { IsPassIn scene.now.fabric.now main.old }
        requires away { self.old ≡ Away }
        ensures on { IsOnFabric scene.now.fabric.now main.new self.new }
        ensures line { (records : List ℕ → List (List ℕ)) → LineAt (fixed_in scene.now.fabric.now)
            number (line_tasks records acts.Enter) (knowing main.old) (knowing main.new)
            self.old self.new result }
        ensures leaves { SeatStillLeaves (knowing main.old) (knowing main.new) self.old self.new }
        ensures keep { KeepsNames scene.now.names.now self.new }
    {
        match scene.come(main, number) {
            Ok(player) => {
                let seat = Seat::There {
                    player,
                    fault: None,
                };
                mem::replace(self, seat).end();
                self.tell(scene.fabric, main);
                Ok(())
            }
            Err(fault) => Err(fault),
        }
    }

    /// The user does what a line says; it does nothing where it is not there.
    fn act<R: Wait, G: Gate>(&mut self, scene: &Scene<'f, R, G>, line: &Line) -> Ended
        requires doable { IsDoable line.now.act }
        requires keep { KeepsNames scene.now.names.now self.old }
        requires saves { SavesNamed scene.now.names.now line.now.act }
        ensures { HasActed (records_in scene.now.inputs.now) line.now.act result
            self.old self.new }
    {
        if let Seat::There { player, fault: _ } = self {
            return player.act(scene.rt, &line.act, scene.inputs, scene.gate);
        }
        Ok(())
    }

    /// The user does what a line says that stands outside the blocks.
    fn run_line<R: Wait, G: Gate>(
        &mut self,
        scene: &Scene<'f, R, G>,
        main: &mut Pass,
        line: &Line,
    ) -> Ended
        requires on { IsOnFabric scene.now.fabric.now main.old self.old }
        requires seated { IsSeated line.now.user self.old }
        requires doable { IsDoable line.now.act }
        requires keep { KeepsNames scene.now.names.now self.old }
        requires saves { SavesNamed scene.now.names.now line.now.act }
        ensures on { IsOnFabric scene.now.fabric.now main.new self.new }
        ensures line { LineAt (fixed_in scene.now.fabric.now) line.now.user
            (line_tasks (records_in scene.now.inputs.now) line.now.act)
            (knowing main.old) (knowing main.new) self.old self.new result }
        ensures leaves { SeatStillLeaves (knowing main.old) (knowing main.new) self.old self.new }
        ensures keep { KeepsNames scene.now.names.now self.new }
    {
        if self.comes_by(&line.act) {
            return self.enter(scene, main, line.user as u64);
        }
        self.meet(scene.fabric, main);
        let done = self.act(scene, line);
        self.tell(scene.fabric, main);
        done
    }
}

impl<'f, R: Wait, G: Gate> Scene<'f, R, G> {
    /// The user of a line that stands outside the blocks does what it says.
    pub(crate) fn run_single(&self, main: &mut Pass, seats: &mut [Seat<'f>], line: &Line) -> Ended
        requires on { AreOnFabric self.now.fabric.now main.old seats.old }
        requires seated { AreSeated seats.old }
        requires least { 1 ≤ line.now.user }
        requires most { line.now.user ≤ length seats.old }
        requires doable { IsDoable line.now.act }
        requires keep { AllKeepNames self.now.names.now seats.old }
        requires saves { SavesNamed self.now.names.now line.now.act }
        ensures on { AreOnFabric self.now.fabric.now main.new seats.new }
        ensures runs { UnitAt (fixed_in self.now.fabric.now)
            (shares_of (records_in self.now.inputs.now) (length seats.old) (parts.Single line.now))
            (knowing main.old) (knowing main.new) seats.old seats.new result }
        ensures leaves { CanStillLeave (knowing main.old) (knowing main.new) seats.old seats.new }
        ensures keep { AllKeepNames self.now.names.now seats.new }
    {
        let place = line.user as usize - 1;
        seats[place].run_line(self, main, line)
    }
}
