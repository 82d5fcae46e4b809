ghost use Rattle.vale_port.specs.Lists.{EachPortStands, FoundIsFound, NotFoundIsNone, ChangeIsChange, DoneIsDoneAmong, OpenIsOpenAmong, GoneIsGone, NewIsNew, SeatChangeIsChange, ShutIsShutAmong};
ghost use Rattle.vale_port.specs.Laws.{OpenIsOpen, SpaceIsSpace, SizesAreSizes, GrantIsGrant, NoGrantIsNone, DoneIsDone, SyncIsSync, PutIsPut, ShutIsShut, ClearGivesAll, LotsAreLots, FilledIsOut, RingIsRing, SizesAreFrameSizes};

/// What a line does is what the world's port does: for each seat that a port stands for, it stands
/// for the seat after the step.
pub fn lines_are_ports()
    ensures space { SpaceIsSpace }
    ensures sizes { SizesAreSizes }
    ensures grant { GrantIsGrant }
    ensures no_grant { NoGrantIsNone }
    ensures done { DoneIsDone }
    ensures sync { SyncIsSync }
    ensures put { PutIsPut }
{}

/// A port is opened, shut and cleared as the world's is.
pub fn ports_open_and_close()
    ensures open { OpenIsOpen }
    ensures shut { ShutIsShut }
    ensures clear { ClearGivesAll }
{}

/// Leases, lots and their sizes are found in a line where the world has them.
pub fn lines_find_lots()
    ensures lots { LotsAreLots }
    ensures filled { FilledIsOut }
    ensures ring { RingIsRing }
    ensures sizes { SizesAreFrameSizes }
{}

/// A list of ports, by rising ids, stays that of the world's ports as these change: at one place,
/// by one that is opened, and by one that is gone.
pub fn ports_are_kept()
    ensures each { EachPortStands }
    ensures found { FoundIsFound }
    ensures not_found { NotFoundIsNone }
    ensures change { ChangeIsChange }
    ensures seat_change { SeatChangeIsChange }
    ensures shut { ShutIsShutAmong }
    ensures done { DoneIsDoneAmong }
    ensures open { OpenIsOpenAmong }
    ensures gone { GoneIsGone }
    ensures new { NewIsNew }
{}
