//! Laws of the room that a record uses and that a call wants of it. Each function does nothing; its
//! contract is a law about the definitions, which the check proves.

ghost use Rattle.vale_book.specs.Fitting.{HadRoomIsWithin, PrefixHadRoom, PrefixIsWithin, RefusalsFit};

/// A record each of whose entries had room is within its limits.
pub fn had_room_is_within()
    ensures { HadRoomIsWithin }
{}

/// The first entries of a record each of whose entries had room had room too.
pub fn prefix_had_room()
    ensures { PrefixHadRoom }
{}

/// So the record was within its limits at each time.
pub fn prefix_is_within()
    ensures { PrefixIsWithin }
{}

/// What a record uses, and what a call that it has no room for wants of it, whichever of the
/// fifteen it is, are together a number of 64 bits.
pub fn refusals_fit()
    ensures { RefusalsFit }
{}
