//! Laws of a tally's answers. Each function does nothing; its contract is a law about the
//! definitions, which the check proves.
#![tactic(auto, using(crate::proofs::TallyLaws::tally_laws))]

ghost use Rattle.nm_count.specs.Laws.{OpeningStartsAtZero, AddingSums, GoneIsOut};

/// A port that is added starts at zero, and no other port's counters change.
pub fn opening_starts_at_zero()
    ensures { OpeningStartsAtZero }
{}

/// An addition changes the port's counters alone, field by field.
pub fn adding_sums()
    ensures { AddingSums }
{}

/// A removed port has no counters, and no other port's counters change.
pub fn gone_is_out()
    ensures { GoneIsOut }
{}
