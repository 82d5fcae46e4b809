//! Laws of what a session does of its user's lines. Each function does nothing; its contract is a
//! law about the definitions, which the check proves.

ghost use Rattle.vale_player.specs.Acts.{NamedActsEdit, ActsBetweenEdit, UnnamedActsChangeNothing};
ghost use Rattle.vale_player.specs.Deeds.{SoundScriptsAreDoable};
ghost use Rattle.vale_player.specs.Lines.{OwnActsAreDone, FramesArePut, CallsAreDone};
ghost use Rattle.vale_player.specs.Lines.{ReceivesAreDone, SendsAreDone, FailedSendsEnd};
ghost use Rattle.vale_player.specs.Lines.{PutsSync, PutsCall, DetachesAreDone, PortlessTasksPass};
ghost use Rattle.vale_player.specs.Lines.{FilesAreSaved, LinesEnd};

/// A line that makes no call is done once the session's own side is changed as the line says.
pub fn own_acts_are_done()
    ensures { OwnActsAreDone }
{}

/// A frame is put where the transmit ring of an open port has room for it.
pub fn frames_are_put()
    ensures { FramesArePut }
{}

/// A port is opened, read, watched or counted by its call's one entry.
pub fn calls_are_done()
    ensures { CallsAreDone }
{}

/// Frames are taken by the entry of a receive sync and those that settle it.
pub fn receives_are_done()
    ensures { ReceivesAreDone }
{}

/// Frames are sent by the entry of a transmit sync and those that settle it.
pub fn sends_are_done()
    ensures { SendsAreDone }
{}

/// A transmit sync that a check refused, or that found the other end of a pipe gone, ends its line.
pub fn failed_sends_end()
    ensures { FailedSendsEnd }
{}

/// A frame that found no room is still to be put once a sync has made some; where that was refused
/// or made none, the line ends.
pub fn puts_sync()
    ensures { PutsSync }
{}

/// So it is behind a sync that made one entry, of a refusal or of a pipe's end that is gone.
pub fn puts_call()
    ensures { PutsCall }
{}

/// A port is closed by the entries of its Shut and its Finish.
pub fn detaches_are_done()
    ensures { DetachesAreDone }
{}

/// What a user has to do at a port that it does not have is nothing.
pub fn portless_tasks_pass()
    ensures { PortlessTasksPass }
{}

/// A file that gets a port's frames is noted without an entry; none is where the user does not have
/// that port.
pub fn files_are_saved()
    ensures { FilesAreSaved }
{}

/// A line ends without an entry.
pub fn lines_end()
    ensures { LinesEnd }
{}

/// A line that makes no call changes, at a port that its user has, what one edit of the own side
/// does.
pub fn named_acts_edit()
    ensures { NamedActsEdit }
{}

/// So does one that names two ports.
pub fn acts_between_edit()
    ensures { ActsBetweenEdit }
{}

/// A line that names a port which its user does not have changes nothing.
pub fn unnamed_acts_change_nothing()
    ensures { UnnamedActsChangeNothing }
{}

/// The users of a script that was accepted can do all its lines.
pub fn sound_scripts_are_doable()
    ensures { SoundScriptsAreDoable }
{}
