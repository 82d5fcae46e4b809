//! Laws of places and named buffers. Each function does nothing; its contract is a law about the
//! definitions, which the check proves.
#![tactic(auto, using(crate::proofs::Naming::naming_laws))]

ghost use Rattle.nm_hold.specs.Laws.{NamedAreHeld, NamedStandSomewhere};

/// A named buffer is held by a place whose buffer is a named one.
pub fn named_buffers_are_held()
    ensures places { NamedAreHeld }
    ensures hold { NamedStandSomewhere }
{}
