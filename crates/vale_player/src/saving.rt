//! Laws of the frames that are saved. Each function does nothing; its contract is a law about the
//! definitions, which the check proves.

ghost use Rattle.vale_player.specs.Saving.{OthersSaveNothing, SavedStay, SavedBegin};
ghost use Rattle.vale_player.specs.Saving.{SavedGrow, RingIsSaved, CallsSaveNothing};
ghost use Rattle.vale_player.specs.Saving.{SyncsSaveNothing, RefusedSaveNothing};
ghost use Rattle.vale_player.specs.Saving.{DetachSavesNothing, LeavingSavesNothing};
ghost use Rattle.vale_player.specs.Saving.{GoneSaveNothing, LeftPortsAreGone};
ghost use Rattle.vale_player.specs.Saving.{OtherReceivesSaveNothing, TransmitsSaveNothing};
ghost use Rattle.vale_player.specs.Kept.{KeptStaysWhole};
ghost use Rattle.vale_player.specs.Saving.{FailedReceivesSaveNothing, FailedTransmitsSaveNothing};

/// An entry of another session, or one that is no read of a session's port, saves nothing of the
/// port.
pub fn others_save_nothing()
    ensures { OthersSaveNothing }
{}

/// Over a legal history such entries leave what is saved of the port as it was.
pub fn saved_frames_stay()
    ensures { SavedStay }
{}

/// Up to the entry that opened a port, of whose number it is, nothing is saved of it.
pub fn saving_begins()
    ensures { SavedBegin }
{}

/// A receive sync adds to what is saved of its port the frames that its entry reads, under that
/// entry's number and in their order.
pub fn saved_frames_grow()
    ensures { SavedGrow }
{}

/// These are the frames in the slots of the port's receive ring from where its tail was on, each
/// joined of its parts.
pub fn ring_is_saved()
    ensures { RingIsSaved }
{}

/// A session's call of one entry that is no read of its port adds nothing to what is saved of it.
pub fn calls_save_nothing()
    ensures { CallsSaveNothing }
{}

/// Nor does a sync that is no read of the port, with the entries that settle the session.
pub fn syncs_save_nothing()
    ensures { SyncsSaveNothing }
{}

/// Nor does a call that made no entry, whatever else its session then sees.
pub fn refused_calls_save_nothing()
    ensures { RefusedSaveNothing }
{}

/// Nor does the closing of a port, its own or another.
pub fn detaches_save_nothing()
    ensures { DetachSavesNothing }
{}

/// Nor does the session's closing of all its ports, and its leaving.
pub fn leaving_saves_nothing()
    ensures { LeavingSavesNothing }
{}

/// Over a legal history nothing is saved of a port that has gone.
pub fn gone_ports_save_nothing()
    ensures { GoneSaveNothing }
{}

/// The ports of a session that has left have gone.
pub fn left_ports_are_gone()
    ensures { LeftPortsAreGone }
{}

/// A receive sync of another port saves nothing of a session's port.
pub fn other_receives_save_nothing()
    ensures { OtherReceivesSaveNothing }
{}

/// Nor does a transmit sync, of whatever port.
pub fn transmits_save_nothing()
    ensures { TransmitsSaveNothing }
{}

/// Nor does a receive sync that fails, be it refused by a check or for want of room or memory.
pub fn failed_receives_save_nothing()
    ensures { FailedReceivesSaveNothing }
{}

/// Nor does a transmit sync that fails.
pub fn failed_transmits_save_nothing()
    ensures { FailedTransmitsSaveNothing }
{}

/// What is kept of ports that have gone is all that they gave in every longer history too.
pub fn kept_stays_whole()
    ensures { KeptStaysWhole }
{}
