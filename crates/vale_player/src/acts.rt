//! What a user does that makes no call, at its ports by their names. Nothing changes where it has not
//! a port of a name.
ghost use Rattle.std.specs.Prelude.{◌≡◌, ◌≤◌, true, false, OnOk, OnErr};
ghost use Rattle.vale_script.specs.declared.script.Act.TheVariants as acts;
ghost use Rattle.vale_player.specs.Words.{field_written, most_of};
ghost use Rattle.vale_player.specs.Kept.{is_one_of};
ghost use Rattle.vale_player.specs.Players.{with_act, with_save};

use crate::player::{Player, SaveFile};
use nm_types::{Name, NoMemory, Side, SlotWrite};
use nm_user::SlotPlace;
use vale_script::{ScriptWord, SlotField};

/// What is written where a line names a field and its value apart.
fn field_written(field: SlotField, value: u64) -> SlotWrite
    requires { value ≤ most_of field }
    ensures { result ≡ field_written field value }
{
    match field {
        SlotField::Idx => SlotWrite::BufIdx(value as u32),
        SlotField::Len => SlotWrite::Len(value as u16),
        SlotField::Flags => SlotWrite::Flags(value as u16),
        SlotField::Ptr => SlotWrite::Ptr(value),
    }
}

impl<'f> Player<'f> {
    /// Stores the tail of a port's receive ring as its head and cur, so that the next sync gives
    /// all received frames back.
    pub fn give_all_back(&mut self, name: &Name)
        ensures { self.new ≡ with_act (acts.Rx name.now false) self.old }
    {
        if let Some(port) = self.session.port_named(name) {
            self.session.give_all_back(port);
        }
    }

    /// Writes a field of one of the user's slots; does nothing if the slot is not the user's.
    pub fn poke(&mut self, name: &Name, side: Side, slot: u32, field: SlotField, value: u64)
        requires { value ≤ most_of field }
        ensures { self.new ≡ with_act (acts.Poke name.now side slot field value) self.old }
    {
        if let Some(port) = self.session.port_named(name) {
            self.session
                .write_slot(port, side, slot, field_written(field, value));
        }
    }

    /// Stores a ring's head and cur, any numbers; does nothing if the port has no such ring.
    pub fn move_positions(&mut self, name: &Name, side: Side, head: u32, cur: u32)
        ensures { self.new ≡ with_act (acts.Move name.now side head cur) self.old }
    {
        if let Some(port) = self.session.port_named(name) {
            self.session.put_positions(port, side, head, cur);
        }
    }

    /// Links an extra position to another, both counted from 1: 0 instead of the first one is the
    /// head of the port's list, and 0 instead of the second ends the list.
    pub fn link_extra(&mut self, name: &Name, from: u32, to: u32)
        ensures { self.new ≡ with_act (acts.Extra name.now from to) self.old }
    {
        if let Some(port) = self.session.port_named(name) {
            self.session.link_extra(port, from, to);
        }
    }

    /// Forwards up to `count` frames without a copy, from the receive ring of one port to the
    /// transmit ring of another, while a whole frame stands at the receive ring's head and the
    /// transmit ring has slots for it; an end of a pipe takes frames of one slot alone.
    pub fn forward(&mut self, from: &Name, to: &Name, count: u32)
        ensures { self.new ≡ with_act (acts.Fwd from.now to.now count) self.old }
    {
        if let Some(here) = self.session.port_named(from) {
            if let Some(there) = self.session.port_named(to) {
                self.session.forward(here, there, count);
            }
        }
    }

    /// Exchanges the buffers that two of the user's slots name, and marks both as changed unless
    /// `quiet`. Does nothing if one of them is not the user's.
    pub fn swap(
        &mut self,
        name: &Name,
        side: Side,
        slot: u32,
        other: &Name,
        other_side: Side,
        other_slot: u32,
        quiet: bool,
    )
        ensures { self.new ≡ with_act (acts.Swap name.now side slot other.now other_side other_slot
            quiet) self.old }
    {
        if let Some(port) = self.session.port_named(name) {
            if let Some(other_port) = self.session.port_named(other) {
                let here = SlotPlace {
                    port,
                    side,
                    at: slot,
                };
                let there = SlotPlace {
                    port: other_port,
                    side: other_side,
                    at: other_slot,
                };
                self.session.swap_slots(here, there, !quiet);
            }
        }
    }

    /// Notes a file into which the frames of a port go, which are all kept.
    pub(crate) fn save(&mut self, name: &Name, file: &ScriptWord) -> Result<(), NoMemory>
        requires { is_one_of self.old.names name.now ≡ true }
        ensures saved { OnOk result (self.new ≡ with_save name.now file.now self.old) }
        ensures same { OnErr result (self.new ≡ self.old) }
    {
        let Some(port) = self.session.port_named(name) else {
            return Ok(());
        };
        let file = file.clone()?;
        self.saves.reserve(1)?;
        self.saves.push_reserved(SaveFile { file, port });
        Ok(())
    }
}
