//! Laws of what a session finds in its receive rings, and of what is read at its ports. Each
//! function does nothing; its contract is a law about the definitions, which the check proves.

ghost use Rattle.nm_user.specs.Saving.{ReceivedAreRead};
ghost use Rattle.nm_user.specs.PortReads.{PortsAreOwn, PortsStayOwn, ReadsStay, ReadsGrow};

/// After a receive sync the frames in the slots from where the tail stood before it are in order those
/// that its entry read.
pub fn received_are_read()
    ensures { ReceivedAreRead }
{}

/// A port that a session has on its own side is the session's by the history that its pass has
/// seen.
pub fn ports_are_own()
    ensures { PortsAreOwn }
{}

/// As a history goes on a session's port stays the session's until it has gone, and then its id is
/// no other port's.
pub fn ports_stay_own()
    ensures { PortsStayOwn }
{}

/// Over a legal history, entries of other sessions, and those that are no read of a session's port,
/// leave what was read at the port as it was.
pub fn reads_stay()
    ensures { ReadsStay }
{}

/// A receive sync adds to what was read at its port what its entry reads, and nothing else that the
/// session then sees does.
pub fn reads_grow()
    ensures { ReadsGrow }
{}
