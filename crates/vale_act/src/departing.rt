//! Laws of users that come and leave. Each function does nothing; its contract is a law about the
//! definitions, which the check proves.

ghost use Rattle.vale_act.specs.Leaving.{AllLeave, TurnsEnterNot, LinesKeepSession, ComerIsThere, EnteredComesAlone, RefusedMakesNothing, DoerComesAlone, StoppedComesAlone, RunnerComesAlone, ForkedComesAlone, MeetingComesAlone, LearnerComesAlone, NobodyHasCome, ForkedEachLeaves, MetEachLeaves, LearnedEachLeaves, LeaverEachLeaves, BeginsToLeave, SeatCanLeave, SeatsCanLeave};

/// Where a pass has made all entries, and each session that came has left, no session is there and
/// all buffers are free.
pub fn all_leave()
    ensures { AllLeave }
{}

/// The turns of a user that does not come bring no session.
pub fn turns_enter_not()
    ensures { TurnsEnterNot }
{}

/// No line of a script says that its user leaves.
pub fn lines_keep_session()
    ensures { LinesKeepSession }
{}

/// A session that is there is the one that has come by the entries of its pass.
pub fn comer_is_there()
    ensures { ComerIsThere }
{}

/// A user that comes through a pass that has made nothing has come by it alone.
pub fn entered_comes_alone()
    ensures { EnteredComesAlone }
{}

/// A pass that has made nothing has made nothing by an Enter that was refused.
pub fn refused_makes_nothing()
    ensures { RefusedMakesNothing }
{}

/// What a user does that is there brings no other session.
pub fn doer_comes_alone()
    ensures { DoerComesAlone }
{}

/// Nor does what it has done before it stopped.
pub fn stopped_comes_alone()
    ensures { StoppedComesAlone }
{}

/// Nor does what it has done, whether a fault has stopped it or not.
pub fn runner_comes_alone()
    ensures { RunnerComesAlone }
{}

/// A user whose pass is cut in two has come by its part alone.
pub fn forked_comes_alone()
    ensures { ForkedComesAlone }
{}

/// And so has one whose pass takes in another that has made nothing.
pub fn meeting_comes_alone()
    ensures { MeetingComesAlone }
{}

/// And one whose pass has only seen more.
pub fn learner_comes_alone()
    ensures { LearnerComesAlone }
{}

/// By a pass that has made nothing nobody has come.
pub fn nobody_has_come()
    ensures { NobodyHasCome }
{}

/// Where the main pass is cut in two, each session that came by its part has left.
pub fn forked_each_leaves()
    ensures { ForkedEachLeaves }
{}

/// And so where it takes in a pass that has made nothing.
pub fn met_each_leaves()
    ensures { MetEachLeaves }
{}

/// And where it has only seen more.
pub fn learned_each_leaves()
    ensures { LearnedEachLeaves }
{}

/// And where it takes in the pass of a session that has left.
pub fn leaver_each_leaves()
    ensures { LeaverEachLeaves }
{}

/// Before the first line, where nobody has come, all sessions can leave by their seats.
pub fn begins_to_leave()
    ensures { BeginsToLeave }
{}

/// And so they can where the main pass and one seat have changed, each as it should.
pub fn seat_can_leave()
    ensures { SeatCanLeave }
{}

/// And where the main pass and all seats have changed, each as it should.
pub fn seats_can_leave()
    ensures { SeatsCanLeave }
{}
