//! Laws of what is told. A function here does nothing; its contract is a law about the definitions,
//! which the check proves.
ghost use Rattle.vale_told.specs.Laws.{TellsCounters};

/// In every legal history the counts that are told of a port are what the port has counted.
pub fn counters_are_told()
    ensures { TellsCounters }
{}
