//! Laws of histories. Each function does nothing; its contract is a law about the definitions,
//! which the check proves.
#![tactic(auto, using(crate::proofs::HistoryLaws::history_laws))]

ghost use Rattle.vale_entry.specs.DeliveryLaws.{ReadIsPrefixOfGiven, GivenOnlyByWanted, ShortAndLoneAreForNobody, SendsTellShortAndLone, RepliesNameTheWanting, WantedIsSharedOnce, DroppedFramesAreCounted, NothingIsPendingAtTheEnd, SenderOrderIsKept, FramesAreDroppedForCause, RepliesCountFrames, PutsBringOnce, PutsAreOfReply, OutIsCounted, CountersAreSums, LeasesAreDoneOnce};
ghost use Rattle.vale_entry.specs.Laws.{AsksAreAnswered, PutsAreKept, FinishWaitsForLeases, NamesDiffer, OffersClimb, CountersAreKept, NumbersRise, PortsAreWithinSizes, FreeBuffersRise, FreeBuffersReturn, BuffersAreParted, HoldingsAgree, SessionsHaveOneUnsettled, PairsAreOfSwitch, WatchesAreOpen, LinesHaveFrames, LotsAreSingle, LotsAreOfEntries, RoomIsPromised, RoomIsUsed, LegalHistoriesFit, LegalHistoriesArePrintable, SpansAreOfNumbers, SpansTellNumbers};

/// The table of the asks that are enabled says which asks are answered.
pub fn asks_are_answered()
    ensures { AsksAreAnswered }
{}

/// What a Put makes is what its entry records, which keeps of what was offered the number alone.
pub fn puts_are_kept()
    ensures { PutsAreKept }
{}

/// A Finish that is answered with leases out finds a shutting port that has as many out, and some.
pub fn finish_waits_for_leases()
    ensures { FinishWaitsForLeases }
{}

/// After every legal history no two ports that are there, open or shutting, bear one name.
pub fn names_differ()
    ensures { NamesDiffer }
{}

/// After every legal history the offers that are not granted stand in the order of the entries that
/// made them: the first of all is of the oldest.
pub fn offers_climb()
    ensures { OffersClimb }
{}

/// After every legal history there are counters for each port that is there, and for no other.
pub fn counters_are_kept()
    ensures { CountersAreKept }
{}

/// After every history sessions and ports rise by number, none is numbered beyond the last entry,
/// and each port, each offer and each lease is of a session that is there.
pub fn numbers_rise()
    ensures { NumbersRise }
{}

/// After every legal history no lot is empty, each port keeps a slot to spare, its dues, idle
/// buffers and lots are all its buffers, and all ports together have no more than the pool.
pub fn ports_are_within_sizes()
    ensures { PortsAreWithinSizes }
{}

/// After every legal history the free buffers rise, so that the first ones are the smallest, and
/// they are as many as the world says.
pub fn free_buffers_rise()
    ensures { FreeBuffersRise }
{}

/// Buffers that were taken from the front of the free ones, which rise, leave them as they were
/// once they are given back.
pub fn free_buffers_return()
    ensures { FreeBuffersReturn }
{}

/// After every legal history each buffer of the pool is held exactly once, and nothing else is
/// held.
pub fn buffers_are_parted()
    ensures { BuffersAreParted }
{}

/// After every legal history the buffers held agree with the world: of ports, of lots, of sessions.
pub fn holdings_agree()
    ensures { HoldingsAgree }
{}

/// After every legal history a session has at most one entry with offers that are not granted.
pub fn sessions_have_one_unsettled()
    ensures { SessionsHaveOneUnsettled }
{}

/// After every history a pair that was learned names a port of its switch, or one that is gone.
pub fn pairs_are_of_switch()
    ensures { PairsAreOfSwitch }
{}

/// After every legal history each watch is of two open ports, of which the one that watches alone
/// has a monitor's name, and a port has one monitor at most.
pub fn watches_are_open()
    ensures { WatchesAreOpen }
{}

/// After every legal history no two lots that stand bear one number.
pub fn lots_are_single()
    ensures { LotsAreSingle }
{}

/// After every legal history no frame in a line, and none that is offered, is longer than frames are.
pub fn lines_have_frames()
    ensures { LinesHaveFrames }
{}

/// After every legal history each lot bears the number of the entry of its session that brought it:
/// of a Grant or a Put, and of a Grant if the lot is not done.
pub fn lots_are_of_entries()
    ensures { LotsAreOfEntries }
{}

/// What an entry takes and leaves promised is what was promised before and what it wants.
pub fn room_is_promised()
    ensures { RoomIsPromised }
{}

/// The entries stored and promised grow by what an entry wants.
pub fn room_is_used()
    ensures { RoomIsUsed }
{}

/// The numbers of each entry of a legal history are below 2^64, if the pool has fewer than 2^32
/// buffers and the history fewer than 2^32 entries.
pub fn legal_histories_fit()
    ensures { LegalHistoriesFit }
{}

/// Each entry of a legal history is printable at its number.
pub fn legal_histories_are_printable()
    ensures { LegalHistoriesArePrintable }
{}

/// In every legal history what was given to a port is what it read, and behind that what it has not
/// read: its line's frames while it is there, and once it is gone as many as its Finish counted.
#[tactic(auto, using(crate::proofs::DeliveryLaws::delivery_laws))]
pub fn read_is_prefix_of_given()
    ensures { ReadIsPrefixOfGiven }
{}

/// In every legal history what is granted to a port is, each time, a prefix of the frames of an
/// entry that are wanted there.
#[tactic(auto, using(crate::proofs::DeliveryLaws::delivery_laws))]
pub fn given_only_by_wanted()
    ensures { GivenOnlyByWanted }
{}

/// A frame that is short is named for no port of the switch. A frame is lone exactly where it is
/// long enough and named for no port of the switch.
#[tactic(auto, using(crate::proofs::DeliveryLaws::delivery_laws))]
pub fn short_and_lone_are_for_nobody()
    ensures { ShortAndLoneAreForNobody }
{}

/// In every legal history a Send is of an open port, and its reply counts which of its frames are
/// short and which lone.
#[tactic(auto, using(crate::proofs::DeliveryLaws::delivery_laws))]
pub fn sends_tell_short_and_lone()
    ensures { SendsTellShortAndLone }
{}

/// In every legal history the destinations in an entry's reply are just the ports at which frames
/// of it are wanted, by rising number, each with how many they are.
pub fn replies_name_the_wanting()
    ensures { RepliesNameTheWanting }
{}

/// In every legal history the frames of an entry that are wanted at a port stand in one offer until
/// one Grant shares them out, which counts each of them and gives the first ones.
pub fn wanted_is_shared_once()
    ensures { WantedIsSharedOnce }
{}

/// In every legal history each wanted frame has one fate; those given, full and gone are as many as
/// the Grant's reply says.
#[tactic(auto, using(crate::proofs::DeliveryLaws::delivery_laws))]
pub fn dropped_frames_are_counted()
    ensures { DroppedFramesAreCounted }
{}

/// A Grant of a legal history drops frames for a cause: they are gone where the port is not open,
/// and full where it is open, those given fit its space, and one more does not.
pub fn frames_are_dropped_for_cause()
    ensures { FramesAreDroppedForCause }
{}

/// In every legal history the replies count what is given and read: each Grant its frames, and the
/// Syncs of a port all that it read.
pub fn replies_count_frames()
    ensures { RepliesCountFrames }
{}

/// In every legal history a Put brings frames to a port at most once, and none of its frames is
/// wanted beside at a port to which it brings some.
pub fn puts_bring_once()
    ensures { PutsBringOnce }
{}

/// What a Put brings to a port is what its reply says was taken, if the port is the other end when
/// the Put is made; to any other port it brings nothing.
pub fn puts_are_of_reply()
    ensures { PutsAreOfReply }
{}

/// In every legal history what is out at a port that is there is what it read less what it brought
/// back.
pub fn out_is_counted()
    ensures { OutIsCounted }
{}

/// In every legal history the counters of a port that is there are what its entries tell: the
/// frames of its Sends and those that its Puts took, which of its Sends' frames were short and
/// which lone, the frames given to it and those that found it full, and the frames that its Syncs
/// and Gets gave.
pub fn counters_are_sums()
    ensures { CountersAreSums }
{}

/// In every legal history a lease, which a Grant that gave something granted under its own number,
/// stands until it is done, once; nothing else stands that is not done, and nothing else is done.
#[tactic(auto, using(crate::proofs::DeliveryLaws::delivery_laws))]
pub fn leases_are_done_once()
    ensures { LeasesAreDoneOnce }
{}

/// Once no session is left, no frame is pending.
#[tactic(auto, using(crate::proofs::DeliveryLaws::delivery_laws))]
pub fn nothing_is_pending_at_the_end()
    ensures { NothingIsPendingAtTheEnd }
{}

/// In every legal history what a port sent is given to another in the order of its entries, of each
/// entry the first frames that are wanted there.
pub fn sender_order_is_kept()
    ensures { SenderOrderIsKept }
{}

/// The spans of numbers are the only ones that have these numbers, one behind the other, and are as
/// long as they can be.
pub fn spans_are_of_numbers()
    ensures { SpansAreOfNumbers }
{}

/// The spans of a list of buffers, in a text of any version, have these buffers.
pub fn spans_tell_numbers()
    ensures { SpansTellNumbers }
{}
