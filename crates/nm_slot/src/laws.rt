//! Laws of the checks of a sync, and of the exchange that an accepted one makes. Each function does
//! nothing; its contract is a law about the definitions, which the check proves.
#![tactic(auto, using(crate::proofs::CheckLaws::check_laws))]

ghost use Rattle.nm_slot.specs.Laws.{PassedPositionsFit, PassedSlotsPass, FittingPasses};
ghost use Rattle.nm_slot.specs.Laws.{PassedNamesOnce, RefusalsAreChecks, ExchangeBringsNamed};
ghost use Rattle.nm_slot.specs.Laws.{ExchangeGivesBack, ExchangeLeavesOthers, ExchangeKeepsOnce};
ghost use Rattle.nm_slot.specs.Laws.{PushedBytesAreSent, PushedFramesAreSent, PushedHoldNames, WholeSlotsAreFrames};

/// No check refuses a sync exactly if its positions fit and each pushed slot passes.
pub fn checks_pass_what_fits()
    ensures fit { PassedPositionsFit }
    ensures slots { PassedSlotsPass }
    ensures converse { FittingPasses }
{}

/// The slots of an accepted push name buffers of the session, and no buffer twice.
pub fn names_stand_once()
    ensures { PassedNamesOnce }
{}

/// A refusal is one of the nine after which a ring is reset.
pub fn refusals_are_checks()
    ensures { RefusalsAreChecks }
{}

/// The frames of an accepted push can be sent, and have all bytes of its slots; where each slot is to be
/// a frame, each is one.
pub fn pushed_frames_are_sent()
    ensures sent { PushedFramesAreSent }
    ensures bytes { PushedBytesAreSent }
    ensures whole { WholeSlotsAreFrames }
{}

/// In an exchange two buffers change places, and nothing else moves.
#[tactic(auto, using(crate::proofs::CheckLaws::exchange_laws))]
pub fn exchanges_move_two()
    ensures here { ExchangeBringsNamed }
    ensures there { ExchangeGivesBack }
    ensures others { ExchangeLeavesOthers }
    ensures once { ExchangeKeepsOnce }
{}

/// After an accepted push each pushed place holds the buffer that its slot names.
#[tactic(auto, using(crate::proofs::CheckLaws::exchange_laws))]
pub fn pushed_places_hold_names()
    ensures { PushedHoldNames }
{}
