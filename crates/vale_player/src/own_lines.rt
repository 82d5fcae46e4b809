//! What a user does of its own lines.
ghost use Rattle.std.specs.Prelude.{◌≡◌, ◌≤◌, [], ◌∷◌, true, length, map, replicate, OnOk, IfErr};
ghost use Rattle.vale_player.specs.Words.{IsSoundAct, PutFrame, SaveFrames, act_of, acts_of};
ghost use Rattle.vale_player.specs.Words.{buffer_bytes, captured, frame_of_put, has_line, tasks_of};
ghost use Rattle.vale_player.specs.Words.{tasks_of_lines};
ghost use Rattle.vale_player.specs.Players.{Does, DoesLine, Stops, IsStill, RunsLines, with_act};
ghost use Rattle.vale_player.specs.Inputs.{records_in};
ghost use Rattle.vale_player.specs.Deeds.{IsSoundWatch, AreDoable, SavesNamed, AllSaveNamed};
ghost use Rattle.vale_player.specs.Deeds.{receive_tasks};
ghost use Rattle.vale_player.specs.Kept.{is_one_of};

use crate::frames::write_frame_of_put;
use crate::player::Player;
use nm_io::Gate;
use nm_types::{Mac, Name, StepFault};
use pcap_io::Record;
use std::mem;
use std::sync::Wait;
use vale_captures::Inputs;
use vale_script::{Act, Line, ScriptWord};

/// The records of a file that a line plays.
fn records_played<'a>(inputs: &'a Inputs, file: &ScriptWord) -> &'a [Record]
    ensures { map captured result.now ≡ records_in inputs.now file.now }
{
    inputs.records(file.as_str())
}

/// The block has a line of this user.
fn has_line(lines: &[Line], number: u64) -> bool
    ensures { result ≡ has_line lines.now number }
{
    lines.iter().any(|line| line.user as u64 == number)
}

impl<'f> Player<'f> {
    /// The memory for a frame, which the player then has not.
    fn take_frame(&mut self) -> Vec<u8>
        ensures { self.new ≡ self.old }
    {
        let alloc = *self.saves.allocator();
        mem::replace(&mut self.frame, Vec::new(alloc))
    }

    /// Keeps memory for a frame.
    fn keep_frame(&mut self, frame: Vec<u8>)
        ensures { self.new ≡ self.old }
    {
        self.frame = frame;
    }

    /// Changes what is on the user's own side, as a line says that makes no call.
    fn change(&mut self, act: &Act)
        requires { IsSoundAct act.now }
        ensures { self.new ≡ with_act act.now self.old }
    {
        match act {
            Act::Rx { name, keep: _ } => self.give_all_back(name),
            Act::Fwd { from, to, count } => self.forward(from, to, *count),
            Act::Poke {
                name,
                side,
                slot,
                field,
                value,
            } => self.poke(name, *side, *slot, *field, *value),
            Act::Move {
                name,
                side,
                head,
                cur,
            } => self.move_positions(name, *side, *head, *cur),
            Act::Swap {
                name,
                side,
                slot,
                other,
                other_side,
                other_slot,
                quiet,
            } => self.swap(name, *side, *slot, other, *other_side, *other_slot, *quiet),
            Act::Extra { name, i, j } => self.link_extra(name, *i, *j),
            _ => {}
        }
    }

    /// Syncs the receive ring; without `keep`, gives all received frames back first.
    fn receive<R: Wait, G: Gate>(
        &mut self,
        rt: &R,
        name: &Name,
        keep: bool,
        gate: &G,
    ) -> Result<(), StepFault>
        ensures does { OnOk result (DoesLine self.old self.new (receive_tasks name.now keep)) }
        ensures stops { IfErr result (Stops self.old self.new (receive_tasks name.now keep)) }
        ensures still { IsStill self.old self.new }
    {
        if !keep {
            self.give_all_back(name);
        }
        self.take(rt, name, gate)
    }

    /// Notes a file that gets a port's frames; want of memory stops the user.
    fn note_file(&mut self, name: &Name, file: &ScriptWord) -> Result<(), StepFault>
        requires { is_one_of self.old.names name.now ≡ true }
        ensures does { OnOk result
            (DoesLine self.old self.new (SaveFrames name.now file.now ∷ [])) }
        ensures stops { IfErr result
            (Stops self.old self.new (SaveFrames name.now file.now ∷ [])) }
        ensures still { IsStill self.old self.new }
    {
        match self.save(name, file) {
            Ok(()) => Ok(()),
            Err(_) => Err(StepFault::NoMemory),
        }
    }

    /// A line that puts a frame of destination, source and fill bytes so many times.
    fn put_filled<R: Wait, G: Gate>(
        &mut self,
        rt: &R,
        name: &Name,
        count: u32,
        to: Mac,
        from: Mac,
        len: u16,
        fill: u8,
        gate: &G,
    ) -> Result<(), StepFault>
        requires { len ≤ buffer_bytes }
        ensures does { OnOk result (DoesLine self.old self.new
            (replicate count (PutFrame name.now (frame_of_put to from len fill)))) }
        ensures stops { IfErr result (Stops self.old self.new
            (replicate count (PutFrame name.now (frame_of_put to from len fill)))) }
        ensures still { IsStill self.old self.new }
    {
        let mut frame = self.take_frame();
        write_frame_of_put(&mut frame, to, from, len, fill)?;
        let done = self.put(rt, name, count, &frame, gate);
        self.keep_frame(frame);
        done
    }

    /// Does what a line says: opens, closes and reads ports, puts, sends and takes frames, or changes
    /// what is on the user's own side. A `user` line of a user that is there says nothing more.
    pub fn act<R: Wait, G: Gate>(
        &mut self,
        rt: &R,
        act: &Act,
        inputs: &Inputs,
        gate: &G,
    ) -> Result<(), StepFault>
        requires sound { IsSoundAct act.now }
        requires watch { IsSoundWatch act.now }
        requires saves { SavesNamed self.old.names act.now }
        ensures does { OnOk result
            (DoesLine self.old self.new (tasks_of (records_in inputs.now) act.now)) }
        ensures stops { IfErr result
            (Stops self.old self.new (tasks_of (records_in inputs.now) act.now)) }
        ensures still { IsStill self.old self.new }
    {
        match act {
            Act::Enter => Ok(()),
            Act::Open {
                name,
                tx,
                rx,
                extra,
            } => self.open(rt, name, *tx, *rx, *extra),
            Act::Watch {
                monitor,
                target,
                sides,
            } => self.watch(rt, monitor, target, *sides),
            Act::Stat { name } => self.stat(rt, name),
            Act::Save { name, file } => self.note_file(name, file),
            Act::Close { name } => {
                self.close(rt, name);
                Ok(())
            }
            Act::Put {
                name,
                count,
                to,
                from,
                len,
                fill,
            } => self.put_filled(rt, name, *count, *to, *from, *len, *fill, gate),
            Act::Hex { name, bytes } => self.put(rt, name, 1, bytes.bytes(), gate),
            Act::Play { name, file, batch } => {
                self.play(rt, name, records_played(inputs, file), *batch, gate)
            }
            Act::Tx { name } => self.tx(rt, name, gate),
            Act::Rx { name, keep } => self.receive(rt, name, *keep, gate),
            _ => {
                self.change(act);
                Ok(())
            }
        }
    }

    /// Does the user's own lines of a block, in their order.
    pub fn run_lines<R: Wait, G: Gate>(
        &mut self,
        rt: &R,
        lines: &[Line],
        inputs: &Inputs,
        gate: &G,
    ) -> Result<(), StepFault>
        requires doable { AreDoable lines.now }
        requires saves { AllSaveNamed self.old.names (map act_of lines.now) }
        ensures does { OnOk result (Does self.old self.new
            (tasks_of_lines (records_in inputs.now) (acts_of lines.now self.old.number))) }
        ensures stops { IfErr result (Stops self.old self.new
            (tasks_of_lines (records_in inputs.now) (acts_of lines.now self.old.number))) }
        ensures still { IsStill self.old self.new }
    {
        for line in lines {
            if line.user as u64 == self.number {
                self.act(rt, &line.act, inputs, gate)?;
            }
        }
        Ok(())
    }

    /// The user does its own lines, if it has any. Answers the fault that stops it.
    pub fn run_own<R: Wait, G: Gate>(
        &mut self,
        rt: &R,
        lines: &[Line],
        inputs: &Inputs,
        gate: &G,
    ) -> Option<StepFault>
        requires doable { AreDoable lines.now }
        requires saves { AllSaveNamed self.old.names (map act_of lines.now) }
        ensures { RunsLines (records_in inputs.now) lines.now self.old self.new result }
    {
        if !has_line(lines, self.number) {
            return None;
        }
        match self.run_lines(rt, lines, inputs, gate) {
            Ok(()) => None,
            Err(fault) => Some(fault),
        }
    }
}
