//! Laws of scripts that put few frames: their record never is full. Each function does nothing; its
//! contract is a law about the definitions, which the check proves.

ghost use Rattle.vale_cost.specs.Completeness.{HistoriesAreCheap, CostThatFitsHasRoom, RoomIsNotRefused, UsersSpend, FewTasksFit, LinesCostLittle, SwitchesHaveFewPorts, SendsWantLittle, EntriesWantLittle, PortsWereOpened, TurnsSpend};
ghost use Rattle.vale_cost.specs.FewFrames.{LightScriptsFit};

/// A switch has no more ports, open ones and shutting ones, than the limits say.
pub fn switches_have_few_ports()
    ensures { SwitchesHaveFewPorts }
{}

/// The entry of a Send promises few others where each switch has few ports.
pub fn sends_want_little()
    ensures { SendsWantLittle }
{}

/// So each Send of frames wants few entries of room, and each call few entries more; a Grant, a
/// Done, a Shut, a Finish and a Leave want nothing, since they were promised.
pub fn entries_want_little()
    ensures { EntriesWantLittle }
{}

/// A switch has no more ports than were opened there.
pub fn ports_were_opened()
    ensures { PortsWereOpened }
{}

/// A turn of a user that writes no positions spends what its entry costs: of the slots that it has
/// put or is to put those that the entry takes, and of the calls that its tasks make one.
pub fn turns_spend()
    ensures { TurnsSpend }
{}

/// So what a history stores and promises is little for each Send of frames, and for each of its calls.
pub fn histories_are_cheap()
    ensures { HistoriesAreCheap }
{}

/// A record has room for a call where what the entries cost before and by it is little for its limits.
pub fn cost_that_fits_has_room()
    ensures { CostThatFitsHasRoom }
{}

/// And a record that has room for a call does not refuse it as full.
pub fn room_is_not_refused()
    ensures { RoomIsNotRefused }
{}

/// And its turns, one after another, spend what all of their entries cost.
pub fn users_spend()
    ensures { UsersSpend }
{}

/// Where a script writes no positions, and what its lines have its users put and call is few for
/// the limits, the record has room for each call to which the script comes, however the calls of
/// its users stand one behind another.
pub fn few_tasks_fit()
    ensures { FewTasksFit }
{}

/// A line has its user put no more frames than it names, and make few calls for each of them.
pub fn lines_cost_little()
    ensures { LinesCostLittle }
{}

/// So the tasks of a script that puts and plays few frames, and neither forwards frames nor moves
/// positions, are few for the limits of version 2.
pub fn light_scripts_fit()
    ensures { LightScriptsFit }
{}
