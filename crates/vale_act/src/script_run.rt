//! A whole script over a fabric.
ghost use Rattle.std.specs.Prelude.{◌≡◌, ◌≤◌, ◌++◌, [], List, length, map, flat_map, Some, IfSome, OnOk, IfOk, IfErr};
ghost use Rattle.std.specs.List.{AllByRecursion};
ghost use Rattle.std.specs.Vec.{vec_capacity};
ghost use Rattle.vale_act.specs.Leaving.{AllHaveLeft, CanAllLeave, CanStillLeave};
ghost use Rattle.vale_act.specs.Outputs.{outputs_of};
ghost use Rattle.vale_act.specs.Plays.{HasWhole, PlaysScript, IsStoppedBy};
ghost use Rattle.vale_act.specs.SavedActs.{names_saved};
ghost use Rattle.vale_act.specs.Seats.{AllKeepNames, AreOnFabric, AreSeated, IsAtStart, IsRunnable, UnitAt, AllAre, AreSaves, IsEmpty, ScriptDone, files_in, saves_at, AreBetween, AreNew, AreStopped, IsScriptStopped, ScriptPlayed};
ghost use Rattle.vale_act.specs.Units.{knows_at};
ghost use Rattle.vale_act.specs.Words.{AllSaveNamed, AreWhole, Entry, IsPassIn, IsSound, IsWhole, IsWritable};
ghost use Rattle.vale_act.specs.Words.{KeepsAll, Machine, acts_of_unit, captures_of, fixed_in};
ghost use Rattle.vale_act.specs.Words.{frames_of, knowing, name_of, names_of, numbered, records_in};
ghost use Rattle.vale_act.specs.Words.{saves_of, shares_of};

use crate::ending::close_all;
use crate::outputs::{names_saved, outputs};
use crate::scene::{Ended, Scene};
use crate::seat::Seat;
use nm_io::Gate;
use nm_types::{NoMemory, StepFault};
use std::alloc::Global;
use std::mem;
use std::sync::Wait;
use std::thread::Threads;
use vale_captures::{Inputs, Outputs};
use vale_fabric::{Fabric, Pass};
use vale_player::{KeptPort, SaveFile, SavedPorts};
use vale_script::{Script, Unit};

impl<'f, R: Threads + Wait + Sync, G: Gate> Scene<'f, R, G> {
    /// The users do a line or a block.
    fn run_unit(&self, main: &mut Pass, seats: &mut [Seat<'f>], unit: &Unit) -> Ended
        requires on { AreOnFabric self.now.fabric.now main.old seats.old }
        requires seated { AreSeated seats.old }
        requires runnable { IsRunnable (length seats.old) unit.now }
        requires keep { AllKeepNames self.now.names.now seats.old }
        requires saves { AllSaveNamed self.now.names.now (acts_of_unit unit.now) }
        ensures on { AreOnFabric self.now.fabric.now main.new seats.new }
        ensures runs { UnitAt (fixed_in self.now.fabric.now)
            (shares_of (records_in self.now.inputs.now) (length seats.old) unit.now)
            (knowing main.old) (knowing main.new) seats.old seats.new result }
        ensures leaves { CanStillLeave (knowing main.old) (knowing main.new) seats.old seats.new }
        ensures keep { AllKeepNames self.now.names.now seats.new }
    {
        match unit {
            Unit::Single { line } => self.run_single(main, seats, line),
            Unit::Block { lines } => self.run_block(main, seats, lines.as_slice()),
        }
    }

    /// The users do the units of a script, one after another, up to its end or to a fault that stops
    /// one.
    fn run_units(&self, main: &mut Pass, seats: &mut [Seat<'f>], script: &Script) -> Ended
        requires on { AreOnFabric self.now.fabric.now main.old seats.old }
        requires start { IsAtStart (fixed_in self.now.fabric.now) script.now self.now.inputs.now
            (knowing main.old) seats.old }
        requires keep { AllKeepNames self.now.names.now seats.old }
        requires names { self.now.names.now ≡ names_saved script.now }
        ensures on { AreOnFabric self.now.fabric.now main.new seats.new }
        ensures plays { OnOk result (AreBetween script.now (captures_of self.now.inputs.now)
            (length script.now.units) (knowing main.new) seats.new) }
        ensures stops { IfErr result (AreStopped (fixed_in self.now.fabric.now) script.now
            (captures_of self.now.inputs.now) (knowing main.new) seats.new) }
        ensures leaves { CanStillLeave (knowing main.old) (knowing main.new) seats.old seats.new }
    {
        let all = script.units();
        for unit in all {
            match self.run_unit(main, seats, unit) {
                Ok(()) => {}
                Err(fault) => return Err(fault),
            }
        }
        Ok(())
    }

    /// The users do a script up to its end, or to a fault that stops one, and then all leave. The pass
    /// has the whole then, and all entries are its own.
    fn run_script(
        &self,
        main: &mut Pass,
        seats: &mut [Seat<'f>],
        kept: &mut SavedPorts,
        script: &Script,
    ) -> Ended
        requires on { AreOnFabric self.now.fabric.now main.old seats.old }
        requires start { IsAtStart (fixed_in self.now.fabric.now) script.now self.now.inputs.now
            (knowing main.old) seats.old }
        requires keep { AllKeepNames self.now.names.now seats.old }
        requires names { self.now.names.now ≡ names_saved script.now }
        ensures pass { IsPassIn self.now.fabric.now main.new }
        ensures gone { flat_map knows_at seats.new ≡ [] }
        ensures whole { IsWhole (knowing main.new).part }
        ensures mine { (knowing main.new).mine ≡ numbered 1 (knowing main.new).seen }
        ensures kept { kept.old ≡ Some [] → IfSome kept.new
            (AreWhole (fixed_in self.now.fabric.now).pool (knowing main.new).seen) }
        ensures saves { AllAre (λ place seat. KeepsAll kept.new (saves_at seat)) seats.new }
        ensures plays { OnOk result (ScriptPlayed script.now (captures_of self.now.inputs.now)
            (knowing main.new) seats.new) }
        ensures stops { IfErr result (IsScriptStopped (fixed_in self.now.fabric.now) script.now
            (captures_of self.now.inputs.now) (knowing main.new).seen) }
        ensures empty { CanAllLeave (knowing main.old) seats.old
            → AllHaveLeft script.now.pool (knowing main.new).seen }
    {
        let done = self.run_units(main, seats, script);
        close_all(self.rt, self.fabric, main, seats, kept);
        done
    }
}

/// A seat for each user, none of whom has come.
fn new_seats<'f>(alloc: Global, count: usize) -> Result<Vec<Seat<'f>>, NoMemory>
    ensures { IfOk result (λ seats. AreNew count seats.items) }
{
    let mut seats = Vec::with_capacity(alloc, count)?;
    for at in 0..count {
        seats.push_reserved(Seat::Away);
    }
    Ok(seats)
}

impl<'f> Seat<'f> {
    /// The files that get the frames of the user's ports, taken from a seat that nobody has.
    fn take_saves(&mut self, alloc: Global) -> Vec<SaveFile>
        requires { IsEmpty 0 self.old }
        ensures saves { result.items ≡ saves_at self.old }
        ensures left { IsEmpty 0 self.new }
    {
        match self {
            Seat::Gone { saves } => mem::replace(saves, Vec::new(alloc)),
            _ => Vec::new(alloc),
        }
    }
}

/// The files of all users, once they have left.
fn take_all_saves(
    alloc: Global,
    seats: &mut [Seat],
    mut saves: Vec<Vec<SaveFile>>,
) -> Vec<Vec<SaveFile>>
    requires empty { AllAre IsEmpty seats.old }
    requires none { saves.items ≡ [] }
    requires room { length seats.old ≤ vec_capacity saves }
    ensures empty { AllAre IsEmpty seats.new }
    ensures saves { AreSaves seats.old result.items }
{
    for place in 0..seats.len() {
        saves.push_reserved(seats[place].take_saves(alloc));
    }
    saves
}

/// Ends seats that nobody has.
fn end_all(seats: Vec<Seat>)
    requires { AllAre IsEmpty seats.items }
{
    let mut seats = seats;
    while let Some(seat) = seats.pop() {
        seat.end();
    }
    seats.destroy_empty();
}

impl<'f, R: Threads + Wait + Sync, G: Gate> Scene<'f, R, G> {
    /// Plays a script, and keeps the frames of the ports that it saves. The files that get them come
    /// back with what was kept.
    fn play_keeping(
        &self,
        pass: Pass,
        script: &Script,
    ) -> (Pass, Result<(Vec<Vec<SaveFile>>, SavedPorts), StepFault>)
        requires pass { IsPassIn self.now.fabric.now pass }
        requires whole { IsWhole (knowing pass).part }
        requires seen { (knowing pass).seen ≡ [] }
        requires mine { (knowing pass).mine ≡ [] }
        requires sound { IsSound script.now }
        requires pool { script.now.pool ≡ (fixed_in self.now.fabric.now).pool }
        requires files { names_of self.now.inputs.now ≡ script.now.files }
        requires names { self.now.names.now ≡ names_saved script.now }
        ensures pass { IsPassIn self.now.fabric.now result.0 }
        ensures whole { IsWhole (knowing result.0).part }
        ensures mine { (knowing result.0).mine ≡ numbered 1 (knowing result.0).seen }
        ensures plays { IfOk result.1 (λ left. ScriptDone script.now
            (captures_of self.now.inputs.now) (knowing result.0) left.0.items) }
        ensures kept { IfOk result.1 (λ left. IfSome left.1
            (AreWhole (fixed_in self.now.fabric.now).pool (knowing result.0).seen)) }
        ensures saves { IfOk result.1 (λ left.
            KeepsAll left.1 (flat_map files_in left.0.items)) }
        ensures stops { IfErr result.1 (IsScriptStopped (fixed_in self.now.fabric.now) script.now
            (captures_of self.now.inputs.now) (knowing result.0).seen) }
        ensures empty { AllHaveLeft script.now.pool (knowing result.0).seen }
    {
        let mut main = pass;
        let count = script.users().len();
        let Ok(saves) = Vec::with_capacity(self.alloc, count) else {
            return (main, Err(StepFault::NoMemory));
        };
        let Ok(mut seats) = new_seats(self.alloc, count) else {
            return (main, Err(StepFault::NoMemory));
        };
        let mut kept = SavedPorts::new(self.alloc);
        let done = self.run_script(&mut main, &mut seats, &mut kept, script);
        let saved = take_all_saves(self.alloc, &mut seats, saves);
        end_all(seats);
        match done {
            Ok(()) => (main, Ok((saved, kept))),
            Err(fault) => (main, Err(fault)),
        }
    }
}

/// Moves the files of all users behind others.
fn gather_saves(lists: &mut [Vec<SaveFile>], saves: &mut Vec<SaveFile>) -> Result<(), NoMemory>
    ensures { OnOk result (saves.new.items ≡ saves.old.items ++ flat_map files_in lists.old) }
{
    for place in 0..lists.len() {
        saves.append(&mut lists[place])?;
    }
    Ok(())
}

/// The files that a script saves, from the notes of each user and what was kept.
fn gathered_outputs(
    alloc: Global,
    script: &Script,
    lists: &mut [Vec<SaveFile>],
    kept: &[KeptPort],
) -> Result<Outputs, NoMemory>
    requires { KeepsAll (Some kept.now) (flat_map files_in lists.old) }
    ensures made { IfOk result (λ made. (history : List Entry) (users : List Machine)
        → saves_of users ≡ flat_map files_in lists.old
        → AreWhole script.now.pool history kept.now
        → made ≡ outputs_of script.now history users) }
    ensures writable { IfOk result (λ made. AllByRecursion IsWritable made) }
{
    let mut saves = Vec::new(alloc);
    gather_saves(lists, &mut saves)?;
    outputs(alloc, script, &saves, kept)
}

/// Plays a script: its lines one after another, those of a block on threads, and then all users
/// leave. The pass that comes back has the whole history, and the files to be saved have the frames
/// that it gave their ports.
pub fn play<'f, R: Threads + Wait + Sync, G: Gate>(
    alloc: Global,
    rt: &'f R,
    fabric: &'f Fabric,
    pass: Pass,
    script: &Script,
    inputs: &'f Inputs,
    gate: &'f G,
) -> (Pass, Result<Outputs, StepFault>)
    requires pass { IsPassIn fabric.now pass }
    requires whole { IsWhole (knowing pass).part }
    requires seen { (knowing pass).seen ≡ [] }
    requires mine { (knowing pass).mine ≡ [] }
    requires sound { IsSound script.now }
    requires pool { (fixed_in fabric.now).pool ≡ script.now.pool }
    requires files { map name_of inputs.now ≡ script.now.files }
    ensures pass { IsPassIn fabric.now result.0 }
    ensures whole { HasWhole (knowing result.0) }
    ensures played { IfOk result.1 (PlaysScript script.now (map frames_of inputs.now)
        (knowing result.0).seen) }
    ensures stopped { IfErr result.1 (IsStoppedBy (fixed_in fabric.now) script.now
        (map frames_of inputs.now) (knowing result.0).seen) }
    ensures empty { AllHaveLeft script.now.pool (knowing result.0).seen }
{
    let Ok(names) = names_saved(alloc, script) else {
        return (pass, Err(StepFault::NoMemory));
    };
    let scene = Scene {
        alloc,
        rt,
        fabric,
        names: names.as_slice(),
        inputs,
        gate,
    };
    let (main, done) = scene.play_keeping(pass, script);
    let (mut lists, kept) = match done {
        Ok(left) => left,
        Err(fault) => return (main, Err(fault)),
    };
    let Some(kept) = kept.into_ports() else {
        return (main, Err(StepFault::NoMemory));
    };
    match gathered_outputs(alloc, script, &mut lists, &kept) {
        Ok(files) => (main, Ok(files)),
        Err(_) => (main, Err(StepFault::NoMemory)),
    }
}
