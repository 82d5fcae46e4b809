//! The lines of a block: each user does its own on a thread.
ghost use Rattle.std.specs.Prelude.{◌≡◌, OnOk, IfErr, length, map};
ghost use Rattle.std.specs.List.{AllByRecursion};
ghost use Rattle.vale_script.specs.declared.script.Unit.TheVariants as parts;
ghost use Rattle.vale_act.specs.Words.{AllSaveNamed, AreDoable, act_of, fixed_in, knowing, records_in};
ghost use Rattle.vale_act.specs.Words.{shares_of};
ghost use Rattle.vale_act.specs.Leaving.{CanStillLeave};
ghost use Rattle.vale_act.specs.Seats.{AllKeepNames, AreOnFabric, CanSave, MeetAll, TellAll, HasRun, AreEach, AllAre, AreSeated, IsDeedLine, UnitAt, fault_at, HasNoFault, IsFirstFault};

use crate::scene::{Ended, Scene};
use crate::seat::Seat;
use nm_io::Gate;
use nm_types::StepFault;
use std::sync::Wait;
use std::thread;
use std::thread::Threads;
use vale_captures::Inputs;
use vale_fabric::{Fabric, Pass};
use vale_script::Line;

impl<'f> Seat<'f> {
    /// The user does its own lines, and keeps the fault that stops it.
    fn run_lines<R: Wait, G: Gate>(&mut self, rt: &R, lines: &[Line], inputs: &Inputs, gate: &G)
        requires doable { AreDoable lines.now }
        requires saves { CanSave lines.now self.old }
        ensures { HasRun (records_in inputs.now) lines.now self.old self.new }
    {
        if let Seat::There { player, fault: _ } = self {
            let stop = player.run_own(rt, lines, inputs, gate);
            if let Seat::There { player: _, fault } = self {
                *fault = stop;
            }
        }
    }

    /// The fault that has stopped the user in the last block.
    fn fault(&self) -> Option<StepFault>
        ensures { result ≡ fault_at self.now }
    {
        match self {
            Seat::There { player: _, fault } => *fault,
            _ => None,
        }
    }
}

/// All users learn of what the main pass has seen.
fn meet_all(fabric: &Fabric, main: &mut Pass, seats: &mut [Seat])
    requires on { AreOnFabric fabric.now main.old seats.old }
    ensures on { AreOnFabric fabric.now main.new seats.new }
    ensures meets { MeetAll (knowing main.old) (knowing main.new) seats.old seats.new }
{
    for place in 0..seats.len() {
        seats[place].meet(fabric, main);
    }
}

/// The main pass learns of what all users have seen.
fn tell_all(fabric: &Fabric, main: &mut Pass, seats: &mut [Seat])
    requires on { AreOnFabric fabric.now main.old seats.old }
    ensures on { AreOnFabric fabric.now main.new seats.new }
    ensures tells { TellAll (knowing main.old) (knowing main.new) seats.old seats.new }
{
    for place in 0..seats.len() {
        seats[place].tell(fabric, main);
    }
}

/// The fault of the first user that one has stopped.
fn first_fault(seats: &[Seat]) -> Ended
    ensures none { OnOk result (AllAre (λ place. HasNoFault) seats.now) }
    ensures first { IfErr result (IsFirstFault seats.now) }
{
    for seat in seats {
        if let Some(fault) = seat.fault() {
            return Err(fault);
        }
    }
    Ok(())
}

/// Each user does its own lines on a thread, which lets others go on when it is done.
fn run_all<R: Threads + Wait + Sync, G: Gate>(
    rt: &R,
    fabric: &Fabric,
    seats: &mut [Seat],
    lines: &[Line],
    inputs: &Inputs,
    gate: &G,
)
    requires doable { AreDoable lines.now }
    requires saves { AllAre (λ place. CanSave lines.now) seats.old }
    ensures { AreEach (λ place. HasRun (records_in inputs.now) lines.now) seats.old seats.new }
{
    if seats.is_empty() {
        return;
    }
    let threads = seats.len();
    thread::for_each_mut(
        rt,
        seats,
        threads,
        &|_: usize, seat: &mut Seat|
            requires doable { AreDoable lines.now }
            requires saves { CanSave lines.now seat.old }
            ensures { HasRun (records_in inputs.entry.now) lines.entry.now seat.old seat.new }
        {
            seat.run_lines(rt, lines, inputs, gate);
            fabric.rest();
        },
    );
}

impl<'f, R: Threads + Wait + Sync, G: Gate> Scene<'f, R, G> {
    /// The users do the lines of a block. Of those that a fault stops, the one of the smallest number
    /// counts.
    pub(crate) fn run_block(&self, main: &mut Pass, seats: &mut [Seat<'f>], lines: &[Line]) -> Ended
        requires on { AreOnFabric self.now.fabric.now main.old seats.old }
        requires seated { AreSeated seats.old }
        requires doable { AreDoable lines.now }
        requires deeds { AllByRecursion IsDeedLine lines.now }
        requires keep { AllKeepNames self.now.names.now seats.old }
        requires saves { AllSaveNamed self.now.names.now (map act_of lines.now) }
        ensures on { AreOnFabric self.now.fabric.now main.new seats.new }
        ensures runs { UnitAt (fixed_in self.now.fabric.now)
            (shares_of (records_in self.now.inputs.now) (length seats.old) (parts.Block lines.now))
            (knowing main.old) (knowing main.new) seats.old seats.new result }
        ensures leaves { CanStillLeave (knowing main.old) (knowing main.new) seats.old seats.new }
        ensures keep { AllKeepNames self.now.names.now seats.new }
    {
        meet_all(self.fabric, main, seats);
        run_all(self.rt, self.fabric, seats, lines, self.inputs, self.gate);
        tell_all(self.fabric, main, seats);
        first_fault(seats)
    }
}
