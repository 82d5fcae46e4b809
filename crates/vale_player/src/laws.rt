//! Laws of users at work. Each function does nothing; its contract is a law about the definitions,
//! which the check proves.

ghost use Rattle.vale_player.specs.Laws.{SettlingIsOwn, UserBegins, UserEnters, CallIsTurn};
ghost use Rattle.vale_player.specs.Laws.{SyncIsTurns, TaskIsDone, SeesMore, RefusedStays};
ghost use Rattle.vale_player.specs.Laws.{RefusedStops, MemoryStops, UserHasPlayed, DetachIsTurns};
ghost use Rattle.vale_player.specs.Laws.{LeaveIsTurn, ClosingIsPlayed, WorkIsKept, StopIsKept};
ghost use Rattle.vale_player.specs.Laws.{StoppedCallIsKept, WorkIsWithin, EnterStops, AbsentPasses};

/// After a legal history the call that settles a user's session is the one that what is the
/// session's own tells.
pub fn settling_is_own()
    ensures { SettlingIsOwn }
{}

/// A user that has a session begins its lines without an entry.
pub fn user_begins()
    ensures { UserBegins }
{}

/// A user that has no session and has to come begins with the entry of its Enter.
pub fn user_enters()
    ensures { UserEnters }
{}

/// Where a session makes the call of its user's next task, and it makes one entry and leaves the
/// session settled, that entry is the user's turn, and the user goes on from what the session has.
pub fn call_is_turn()
    ensures { CallIsTurn }
{}

/// The entry of a sync, and each Grant and Done behind it that settles the session, is a turn of
/// its user, which goes on from what the session has.
pub fn sync_is_turns()
    ensures { SyncIsTurns }
{}

/// The Shut and the Finish of a port that a session closes are two turns of its user.
pub fn detach_is_turns()
    ensures { DetachIsTurns }
{}

/// A session without ports that leaves ends its user's lines with the entry of its Leave.
pub fn leave_is_turn()
    ensures { LeaveIsTurn }
{}

/// A session that closes its ports, in the order in which they were opened, and leaves plays the
/// closing of its user.
pub fn closing_is_played()
    ensures { ClosingIsPlayed }
{}

/// A task that needs no call is done without an entry, once the session's own side is changed as
/// the task says.
pub fn task_is_done()
    ensures { TaskIsDone }
{}

/// What others make, seen or not, leaves a user where it was.
pub fn sees_more()
    ensures { SeesMore }
{}

/// A user whose call made no entry is where it was.
pub fn refused_stays()
    ensures { RefusedStays }
{}

/// A user whose next call made no entry has stopped: at that call where the record is full.
pub fn refused_stops()
    ensures { RefusedStops }
{}

/// Want of memory stops a user anywhere.
pub fn memory_stops()
    ensures { MemoryStops }
{}

/// A user that has nothing more to do has played its lines.
pub fn user_has_played()
    ensures { UserHasPlayed }
{}

/// A user that has played its lines plays them in every longer history.
pub fn work_is_kept()
    ensures { WorkIsKept }
{}

/// The entries of a user that has stopped are its own calls in every longer history.
pub fn stop_is_kept()
    ensures { StopIsKept }
{}

/// The call at which a full record stopped a user is the one that it comes to, after so many
/// entries, in every longer history.
pub fn stopped_call_is_kept()
    ensures { StoppedCallIsKept }
{}

/// The entries of a user's turns are behind those that its pass had seen when it began.
pub fn work_is_within()
    ensures { WorkIsWithin }
{}

/// A user that has to come stops before its first entry where its Enter is refused.
pub fn enter_stops()
    ensures { EnterStops }
{}

/// A user that is not there, and does not come, plays whatever it has to do without an entry.
pub fn absent_passes()
    ensures { AbsentPasses }
{}
