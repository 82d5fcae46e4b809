//! Laws of what is a session's own. Each function does nothing; its contract is a law about the
//! definitions, which the check proves.
#![tactic(auto, using(crate::proofs::OwnLaws::own_laws))]

ghost use Rattle.vale_own.specs.Laws.{AskersMakeSteps, AsksStay, BuffersAreDue, BuffersAreMoved};
ghost use Rattle.vale_own.specs.Laws.{BuffersGoAndCome, EntriesAreOfAskers, EntriesHaveOneAsker};
ghost use Rattle.vale_own.specs.Laws.{FirstLeasesAreOwn, FirstOffersAreOwn, GrantsGoByPort};
ghost use Rattle.vale_own.specs.Laws.{LeasesHoldFrames, OffersLeftAreOwn, OwnBuffersAreApart};
ghost use Rattle.vale_own.specs.Laws.{OwnEntriesChangeOwn, OwnIsKept, OwnTellsAsks, SettledIsOwn};
ghost use Rattle.vale_own.specs.Laws.{ThereIsCome};
ghost use Rattle.vale_own.specs.SideAsks.{CallsAreOwn, CallsKeepSide, FinishMayBeAsked};
ghost use Rattle.vale_own.specs.SideAsks.{FinishesAreOfSide, LeaveMayBeAsked, OpenMayBeAsked};
ghost use Rattle.vale_own.specs.SideAsks.{ReceiveMayBeAsked, ReceivesAreOfSide, RefusalsFit};
ghost use Rattle.vale_own.specs.SideAsks.{ShutMayBeAsked, StatMayBeAsked, TransmitMayBeAsked};
ghost use Rattle.vale_own.specs.SideAsks.{TransmitsAreOfSide, WatchMayBeAsked};
ghost use Rattle.vale_own.specs.SideEdits.{EditsKeepSides};
ghost use Rattle.vale_own.specs.SideLaws.{ArrivalsAreApart, ArrivalsAreAsMany, BuffersComeNew};
ghost use Rattle.vale_own.specs.SideLaws.{OthersKeepSide, SideBegins, SideIsKept};

/// Over a legal history, entries none of which is a session's leave what is its own as it was:
/// whether it is there, its ports but for what is queued at them, its offers, its leases with
/// their buffers, and its buffers.
pub fn own_is_kept()
    ensures { OwnIsKept }
{}

/// In a legal history an entry makes of what is its session's own what `own_after_entry` says for
/// its ask: a port more or less, offers, a lease more or less, what is out, and buffers that go
/// and come.
pub fn own_entries_change_own()
    ensures { OwnEntriesChangeOwn }
{}

/// In a legal history what is a session's own tells what it asks: which asks are enabled and that
/// session's, a Finish also where it waits for leases.
pub fn own_tells_asks()
    ensures { OwnTellsAsks }
{}

/// Over a legal history, entries none of which is a session's leave what it asks as it was: an
/// ask of its own that is enabled stays so, and no other comes to it. What it is answered may
/// differ.
pub fn asks_stay()
    ensures { AsksStay }
{}

/// What an ask makes, an Enter aside, is of the session of which the ask is.
pub fn askers_make_steps()
    ensures { AskersMakeSteps }
{}

/// An entry, an Enter aside, is of the session of which its ask is.
pub fn entries_are_of_askers()
    ensures { EntriesAreOfAskers }
{}

/// After every history the offers of one entry that are not granted are of one session.
pub fn entries_have_one_asker()
    ensures { EntriesHaveOneAsker }
{}

/// In a legal history a session is there if the entry of its number is an Enter and no entry is
/// its Leave, and only then.
#[tactic(auto, using(crate::proofs::OwnLaws::reading_laws))]
pub fn there_is_come()
    ensures { ThereIsCome }
{}

/// The first offer that is a session's in the world is the first of its own.
#[tactic(auto, using(crate::proofs::OwnLaws::reading_laws))]
pub fn first_offers_are_own()
    ensures { FirstOffersAreOwn }
{}

/// The first lot in the lines of a legal history's world that a session was granted and has not
/// done is that of the first of its leases.
#[tactic(auto, using(crate::proofs::OwnLaws::reading_laws))]
pub fn first_leases_are_own()
    ensures { FirstLeasesAreOwn }
{}

/// In a legal history the offers left of an entry, if there are any, are its session's, and the
/// session has no others.
#[tactic(auto, using(crate::proofs::OwnLaws::reading_laws))]
pub fn offers_left_are_own()
    ensures { OffersLeftAreOwn }
{}

/// In a legal history a session is settled if it has neither an offer nor a lease, and only then.
#[tactic(auto, using(crate::proofs::OwnLaws::reading_laws))]
pub fn settled_is_own()
    ensures { SettledIsOwn }
{}

/// In a legal history a session that is there has as many buffers as its ports are due.
#[tactic(auto, using(crate::proofs::OwnLaws::reading_laws))]
pub fn buffers_are_due()
    ensures { BuffersAreDue }
{}

/// In a legal history a lease has as many buffers as its frames take.
#[tactic(auto, using(crate::proofs::OwnLaws::reading_laws))]
pub fn leases_hold_frames()
    ensures { LeasesHoldFrames }
{}

/// In a legal history the buffers of a session and of its leases are of the pool, and each stands
/// once among them.
#[tactic(auto, using(crate::proofs::OwnLaws::reading_laws))]
pub fn own_buffers_are_apart()
    ensures { OwnBuffersAreApart }
{}

/// After every history the offers of a session rise by port, and are to ports behind those at
/// which it has leases: an entry's offers are granted by rising port.
#[tactic(auto, using(crate::proofs::OwnLaws::reading_laws))]
pub fn grants_go_by_port()
    ensures { GrantsGoByPort }
{}

/// In a legal history an entry takes from its session's buffers those that it gives up, and adds
/// behind them those of its arrivals.
#[tactic(auto, using(crate::proofs::OwnLaws::reading_laws))]
pub fn buffers_go_and_come()
    ensures { BuffersGoAndCome }
{}

/// In a legal history what a session has after an entry of its own and what it gave up is, by
/// counts, what it had before and what came.
#[tactic(auto, using(crate::proofs::OwnLaws::reading_laws))]
pub fn buffers_are_moved()
    ensures { BuffersAreMoved }
{}

/// In a legal history the buffers that an entry brings and those that its session has are of the
/// pool, each once.
#[tactic(auto, using(crate::proofs::OwnLaws::side_laws))]
pub fn arrivals_are_apart()
    ensures { ArrivalsAreApart }
{}

/// In a legal history the buffers that an entry brings are of the pool, in no place of its
/// session's side, and without bytes there.
pub fn buffers_come_new()
    ensures { BuffersComeNew }
{}

/// In a legal history an opening brings as many buffers as transmit slots and extra positions, a
/// put one for each frame taken, a receive sync no more than the ring has room for, and every other
/// entry none.
pub fn arrivals_are_as_many()
    ensures { ArrivalsAreAsMany }
{}

/// In a legal history a session that enters has, as its own side, no ports and no buffers.
pub fn side_begins()
    ensures { SideBegins }
{}

/// In a legal history an entry of a call that a side makes makes of the side what its session then
/// has: the same ports, with as many buffers out, and in their places the same buffers; and the
/// side stays sound. A Shut is of a side none of whose ports is shut, and so is an Open.
#[tactic(auto, using(crate::proofs::OwnLaws::side_laws))]
pub fn side_is_kept()
    ensures { SideIsKept }
{}

/// In a legal history the transmit sync of an open port of a settled session's side is an ask that
/// the session may make: the frames pushed can be sent, what a pipe is offered is in buffers of
/// its own, and a refused sync is a reset of the ring. The numbers of a refusal must fit their
/// fields.
#[tactic(auto, using(crate::proofs::OwnLaws::asking_laws))]
pub fn transmit_may_be_asked()
    ensures { TransmitMayBeAsked }
{}

/// In a legal history the receive sync of an open port of a settled session's side is an ask that
/// the session may make: it gives back buffers of its own, no more of them than are out.
#[tactic(auto, using(crate::proofs::OwnLaws::asking_laws))]
pub fn receive_may_be_asked()
    ensures { ReceiveMayBeAsked }
{}

/// In a legal history a settled session may shut an open port of its side.
#[tactic(auto, using(crate::proofs::OwnLaws::asking_laws))]
pub fn shut_may_be_asked()
    ensures { ShutMayBeAsked }
{}

/// In a legal history a session may detach the port of its side that is shut, with the buffers in
/// the port's places. Whether it waits for leases is not told.
#[tactic(auto, using(crate::proofs::OwnLaws::asking_laws))]
pub fn finish_may_be_asked()
    ensures { FinishMayBeAsked }
{}

/// In a legal history a session may read the counters of an open port of its side.
#[tactic(auto, using(crate::proofs::OwnLaws::asking_laws))]
pub fn stat_may_be_asked()
    ensures { StatMayBeAsked }
{}

/// In a legal history a session may ask to watch, at an open monitor of its side, any name that is
/// no monitor's.
pub fn watch_may_be_asked()
    ensures { WatchMayBeAsked }
{}

/// In a legal history a session with a side may ask to open a port of any name, of numbers that fit
/// their fields.
#[tactic(auto, using(crate::proofs::OwnLaws::asking_laws))]
pub fn open_may_be_asked()
    ensures { OpenMayBeAsked }
{}

/// In a legal history a settled session whose side has no ports may leave.
#[tactic(auto, using(crate::proofs::OwnLaws::asking_laws))]
pub fn leave_may_be_asked()
    ensures { LeaveMayBeAsked }
{}

/// What a user writes on its own side between its calls, positions, slots, bytes of buffers, frames,
/// links and frames forwarded, leaves the side its session's, and sound: the ports, what is out of
/// them and the buffers in their places stay.
pub fn edits_keep_sides()
    ensures { EditsKeepSides }
{}

/// Over a legal history, entries none of which is a session's leave its side its side.
pub fn others_keep_side()
    ensures { OthersKeepSide }
{}

/// The entry of a transmit sync that a side makes, as it is recorded, is of the side: a put takes
/// the first of the frames offered.
pub fn transmits_are_of_side()
    ensures { TransmitsAreOfSide }
{}

/// The entry of a receive sync that a side makes is of the side.
pub fn receives_are_of_side()
    ensures { ReceivesAreOfSide }
{}

/// The entry of a detach that a side makes is of the side.
pub fn finishes_are_of_side()
    ensures { FinishesAreOfSide }
{}

/// In a legal history what a session may ask makes an entry, if it makes one, of that session.
pub fn calls_are_own()
    ensures { CallsAreOwn }
{}

/// In a legal history a call of a session's side that makes an entry leaves the side, changed as
/// the entry says, the session's, and the history legal.
pub fn calls_keep_side()
    ensures { CallsKeepSide }
{}

/// In a legal history of a pool's size the numbers of a refused sync of a session's side fit their
/// fields, where those of the ring's positions and slots fit theirs.
pub fn refusals_fit()
    ensures { RefusalsFit }
{}
