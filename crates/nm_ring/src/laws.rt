//! Laws of a ring's positions. Each function does nothing; its contract is a law about the
//! definitions, which the check proves.
#![tactic(auto, using(crate::proofs::RingLaws::ring_laws))]

ghost use Rattle.nm_ring.specs.Laws.{StepsGoRound, StepsAddUp, DistanceLeadsThere};
ghost use Rattle.nm_ring.specs.Laws.{DistanceCountsSteps, PositionsFitAfterSync};
ghost use Rattle.nm_ring.specs.Laws.{PositionsFitAfterReset, PositionsFitAtOpening, SendTakesAll};
ghost use Rattle.nm_ring.specs.Laws.{TailGivesBack, PendingAreCounted, PushedBecomePending};
ghost use Rattle.nm_ring.specs.Laws.{TakenLeavePending, FreshSlots, PushedAreUserSlots};
ghost use Rattle.nm_ring.specs.Laws.{UserSlotsAreListed, ListedAreUserSlots};
ghost use Rattle.nm_ring.specs.Laws.{UserSlotsAreDistinct, PushedSlotsAreDistinct};

/// As many steps as the ring has slots lead back to the start, and steps add up.
pub fn steps_go_round()
    ensures round { StepsGoRound }
    ensures sums { StepsAddUp }
{}

/// The distance to a position is the number of steps that lead there.
pub fn distances_are_steps()
    ensures there { DistanceLeadsThere }
    ensures count { DistanceCountsSteps }
{}

/// Positions fit again after every accepted sync, even if no frame was taken, or only some.
pub fn positions_fit_after_sync()
    ensures { PositionsFitAfterSync }
{}

/// Positions fit again after a reset.
pub fn positions_fit_after_reset()
    ensures { PositionsFitAfterReset }
{}

/// The positions of an opened ring fit.
pub fn positions_fit_at_opening()
    ensures { PositionsFitAtOpening }
{}

/// After a send the tail is the slot before the head, and what it passes is the user's again.
pub fn tails_give_back()
    ensures all { SendTakesAll }
    ensures part { TailGivesBack }
{}

/// The positions fix the frames that a pipe has not taken: their number, those that a sync adds, and
/// those that leave as they are taken.
pub fn pending_frames_follow_positions()
    ensures counted { PendingAreCounted }
    ensures pushed { PushedBecomePending }
    ensures taken { TakenLeavePending }
{}

/// All slots but the last one of an opened transmit ring are the user's, and none of a receive ring.
pub fn fresh_slots()
    ensures { FreshSlots }
{}

/// The user's slots are those from the accepted head to before the tail, the pushed ones the first
/// of them.
pub fn user_slots_are_listed()
    ensures pushed { PushedAreUserSlots }
    ensures listed { UserSlotsAreListed }
    ensures none_else { ListedAreUserSlots }
{}

/// No slot is twice among the user's, nor among those that a sync pushes.
#[tactic(auto, using(crate::proofs::RingLaws::distinct_laws))]
pub fn slots_are_distinct()
    ensures user { UserSlotsAreDistinct }
    ensures pushed { PushedSlotsAreDistinct }
{}
