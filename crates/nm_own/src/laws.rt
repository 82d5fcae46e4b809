//! Laws of a user's own side. Each function does nothing; its contract is a law about the
//! definitions, which the check proves.
#![tactic(auto, using(crate::proofs::OwnLaws::own_laws))]

ghost use Rattle.nm_own.specs.Laws.{FramesComeOneByOne, RoomForFrames};

/// A receive sync that brings frames is one that brings none, and then one frame after another.
pub fn frames_come_one_by_one()
    ensures frames { FramesComeOneByOne }
    ensures room { RoomForFrames }
{}
