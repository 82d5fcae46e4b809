//! Laws of the users of a script between two of its units. Each function does nothing; its contract
//! is a law about the definitions, which the check proves.

ghost use Rattle.vale_act.specs.Units.{PlayBegins, UnitIsPlayed, PlayIsWhole, StopIsWhole, ShareIsUnit, BlockIsUnit, ShareStops, BlockStops, WorkIsAt, StopIsAt, FullStopIsAt, AbsentIsAt, EnteringIsAt, ComingIsAt, EnterStopIsAt, FullEnterStopIsAt, LeavingIsAt, WorkIsOfBlock, StopIsOfBlock, FullStopIsOfBlock, IdleIsOfBlock, AbsentIsOfBlock, PlayIsReplay, JoinedIsBoth, CutIsWhole, AddedIsMade, FrontIsFree, PlayerPlaysLines, PlayerStopsInLines, PlayerIsFullInLines, BlockIsOfEach, StopIsOfEach};

/// Before the first unit, in a record with no entry, nobody has come.
pub fn play_begins()
    ensures { PlayBegins }
{}

/// Users that have played some units of a script, and then play the next one, have played all of
/// these.
pub fn unit_is_played()
    ensures { UnitIsPlayed }
{}

/// Where they have played all units, and nobody is there any more, the history plays the script.
pub fn play_is_whole()
    ensures { PlayIsWhole }
{}

/// Where users stop in a unit, and all leave, the history has stopped there.
pub fn stop_is_whole()
    ensures { StopIsWhole }
{}

/// A unit of one user is what its seat makes of it.
pub fn share_is_unit()
    ensures { ShareIsUnit }
{}

/// A block is what the seats of all users make of it: those that have lines in it play them, and
/// the others stay.
pub fn block_is_unit()
    ensures { BlockIsUnit }
{}

/// A unit in which its one user stops.
pub fn share_stops()
    ensures { ShareStops }
{}

/// A block in which a user stops: those of smaller numbers play their lines, and the entries of
/// the others are their own calls.
pub fn block_stops()
    ensures { BlockStops }
{}

/// A user that is there and does its tasks plays them at its seat.
pub fn work_is_at()
    ensures { WorkIsAt }
{}

/// The entries of a user that has stopped in its tasks are its own calls at its seat.
pub fn stop_is_at()
    ensures { StopIsAt }
{}

/// A user that a full record has stopped comes at its seat to the call that was refused.
pub fn full_stop_is_at()
    ensures { FullStopIsAt }
{}

/// A user that does not come plays whatever its lines say without an entry.
pub fn absent_is_at()
    ensures { AbsentIsAt }
{}

/// A user that comes, and does what its lines say behind that, plays them at its seat.
pub fn entering_is_at()
    ensures { EnteringIsAt }
{}

/// One whose line only says that it comes.
pub fn coming_is_at()
    ensures { ComingIsAt }
{}

/// A user whose Enter was refused has stopped at its seat before its first entry.
pub fn enter_stop_is_at()
    ensures { EnterStopIsAt }
{}

/// One whose Enter a full record refused comes at its seat to that Enter.
pub fn full_enter_stop_is_at()
    ensures { FullEnterStopIsAt }
{}

/// A user that closes its ports and leaves plays its closing at its seat.
pub fn leaving_is_at()
    ensures { LeavingIsAt }
{}

/// A user that plays its lines by entries of its own pass plays its part of a block.
pub fn work_is_of_block()
    ensures { WorkIsOfBlock }
{}

/// And so the entries of one that stops there are its own calls.
pub fn stop_is_of_block()
    ensures { StopIsOfBlock }
{}

/// One that a full record stops in a block comes there to the call that was refused.
pub fn full_stop_is_of_block()
    ensures { FullStopIsOfBlock }
{}

/// A user that has no lines in a block stays.
pub fn idle_is_of_block()
    ensures { IdleIsOfBlock }
{}

/// One that is not there, and does not come, stays too.
pub fn absent_is_of_block()
    ensures { AbsentIsOfBlock }
{}

/// What a user plays of a block is a row of its own calls.
pub fn play_is_replay()
    ensures { PlayIsReplay }
{}

/// A pass that is joined of two has made what both have.
pub fn joined_is_both()
    ensures { JoinedIsBoth }
{}

/// Of a pass that is cut in two, one part keeps what it has made.
pub fn cut_is_whole()
    ensures { CutIsWhole }
{}

/// A pass that has made more has made these, and what it had.
pub fn added_is_made()
    ensures { AddedIsMade }
{}

/// In which order passes stand makes no difference.
pub fn front_is_free()
    ensures { FrontIsFree }
{}

/// A player that does its lines of a block plays its part of it.
pub fn player_plays_lines()
    ensures { PlayerPlaysLines }
{}

/// One that stops in them replays its part.
pub fn player_stops_in_lines()
    ensures { PlayerStopsInLines }
{}

/// One that a full record stops in them comes to the call that was refused.
pub fn player_is_full_in_lines()
    ensures { PlayerIsFullInLines }
{}

/// Seats each of which plays its part of a block play it together.
pub fn block_is_of_each()
    ensures { BlockIsOfEach }
{}

/// And so they stop in it, where one does: those in front of it play, and those behind replay.
pub fn stop_is_of_each()
    ensures { StopIsOfEach }
{}
