//! A law of how runs end. The function does nothing; its contract is a law about the definitions,
//! which the check proves.

ghost use Rattle.vale_run.specs.FullRecord.{FullIsTold};

/// A run of a script without blocks, read with its captures from a shelf that tells its files, comes
/// to a call for which the record has no room: it ends by saying so, with the count of that call,
/// unless a file was not read or memory was wanting.
pub fn full_is_told()
    ensures { FullIsTold }
{}
