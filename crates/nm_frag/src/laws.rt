//! Laws of a frame's parts. Each function does nothing; its contract is a law about the
//! definitions, which the check proves.
#![tactic(auto, using(crate::proofs::PartLemmas::part_laws))]

ghost use Rattle.nm_frag.specs.Laws.{PartsAreTheFrame, PartsFitSlots};

/// The parts of a frame, one behind the other, are the frame; they are as many as its slots.
pub fn parts_are_the_frame()
    ensures frame { PartsAreTheFrame }
    ensures slots { PartsFitSlots }
{}
