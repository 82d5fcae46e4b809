//! Laws of the parts of a switch. Each function does nothing; its contract is a law about the
//! definitions, which the check proves.
#![tactic(auto)]

ghost use Rattle.vale_parts.specs.BatchLaws.{BatchesAreNamed, LoneFramesAreCounted};
ghost use Rattle.vale_parts.specs.BatchLaws.{SendableCanBeLookedUp, OpenPortsRise};
ghost use Rattle.vale_parts.specs.BatchLaws.{SentWantsAreOffers, GivenWantsAreOffers};
ghost use Rattle.vale_parts.specs.BatchLaws.{PutWantsAreOffers, DestsAreWanted, SendsAreReplied};
ghost use Rattle.vale_parts.specs.BatchLaws.{ReadsAreReplied, PutsAreReplied};
ghost use Rattle.vale_parts.specs.CountLaws.{CountsFollow, OpenPortsAreCounted};
ghost use Rattle.vale_parts.specs.CountLaws.{ShuttingPortsAreCounted, NextPortsAreNot};
ghost use Rattle.vale_parts.specs.CountLaws.{AsManyAreCounted, NothingIsAdded, NowhereIsAdded};
ghost use Rattle.vale_parts.specs.CountLaws.{SumsFit, AdditionsFit};
ghost use Rattle.vale_parts.specs.FreeLaws.{FreeFollow, FreeAreCounted, OpeningsAreCut};
ghost use Rattle.vale_parts.specs.FreeLaws.{FinishesCanGive, PoolsKeepTheirSize, TakenIsGivenBack};
ghost use Rattle.vale_parts.specs.NameLaws.{NamesFollow, OpeningsAreAnswered, NamesFindPorts};
ghost use Rattle.vale_parts.specs.NameLaws.{NamesFindPeers, OpeningsAreUndone, OpeningsHaveRoom};
ghost use Rattle.vale_parts.specs.OfferLaws.{OffersFollow, FirstWantsAreNext, NoWantIsLeft};
ghost use Rattle.vale_parts.specs.OfferLaws.{OffersStart, SendsStart, ReadsStart, PutsStart};
ghost use Rattle.vale_parts.specs.PartLaws.{PartsFollow, EmptyPartsAreFirst, TablesStay};
ghost use Rattle.vale_parts.specs.PartLaws.{SendsTeachOne, ShutsEmptyOne, OtherShutsEmptyNone};
ghost use Rattle.vale_parts.specs.SwitchTableLaws.{AllTablesFollow, TablesAreGivenOver};
ghost use Rattle.vale_parts.specs.SwitchTableLaws.{FreshTablesAreAdded};
ghost use Rattle.vale_parts.specs.TableLaws.{TablesFollow, EmptyTablesServe};
ghost use Rattle.vale_parts.specs.TableLaws.{LastPortsEmptyTables, FoundPortsAreOpen};
ghost use Rattle.vale_parts.specs.TableLaws.{FreshTablesFindNothing, FreshTablesAreTables};
ghost use Rattle.vale_parts.specs.TableLaws.{TablesKeepTheirSize, FramesAreLearned};
ghost use Rattle.vale_parts.specs.TableLaws.{LearningIsTakenBack};
ghost use Rattle.vale_parts.specs.WatchLaws.{WatchesFollow, WatchedAreWatched};

/// A switch's table, taught by each Send of its ports and emptied of each port that is shut, finds
/// each address where the pairs say, after every entry.
pub fn tables_follow()
    ensures { TablesFollow }
{}

/// A table that finds nothing serves each switch that has no open port, and the table of a switch
/// that has lost its last open port is one.
pub fn empty_tables_serve()
    ensures serve { EmptyTablesServe }
    ensures last { LastPortsEmptyTables }
{}

/// A batch that is looked up in the table of its sender's switch is named as the world names it, in
/// as many slots, with as many frames for no port.
pub fn batches_are_named()
    ensures named { BatchesAreNamed }
    ensures lone { LoneFramesAreCounted }
    ensures sendable { SendableCanBeLookedUp }
{}

/// The open ports of a switch rise, as they must where a batch is looked up.
pub fn open_ports_rise()
    ensures { OpenPortsRise }
{}

/// What the open ports of a switch want of a batch, and what its monitor wants, is what a Send
/// offers: to the same ports in the same order, the same frames. What a Sync gives and what a Put's
/// other end takes is offered to the monitor alone. Destinations are told by the wants.
pub fn wants_are_offers()
    ensures sent { SentWantsAreOffers }
    ensures given { GivenWantsAreOffers }
    ensures put { PutWantsAreOffers }
    ensures dests { DestsAreWanted }
{}

/// Watches, with one more for each Watch and without those of a port and by it for each Shut, name
/// the monitor of each side of each port, after every entry. A port is watched exactly where the
/// world says so, and by the same monitor.
pub fn watches_follow()
    ensures follow { WatchesFollow }
    ensures watched { WatchedAreWatched }
{}

/// The free buffers, with those of an opening taken at once and cut, and those of a Finish given
/// back one by one, are the free ones of the holdings, after every entry. They are as many as the
/// world says, and what a Finish makes free can be given back.
pub fn free_buffers_follow()
    ensures follow { FreeFollow }
    ensures count { FreeAreCounted }
    ensures cut { OpeningsAreCut }
    ensures give { FinishesCanGive }
    ensures size { PoolsKeepTheirSize }
{}

/// Names, with one more for each opening, marked by each Shut and without that of each Finish, are
/// those of the ports, after every entry.
pub fn names_follow()
    ensures { NamesFollow }
{}

/// An opening is refused for its name as the names say, or else for want of buffers; a name finds
/// the open port that has it, and the name of a pipe's other end the open port there.
pub fn names_answer_as_ports()
    ensures openings { OpeningsAreAnswered }
    ensures ports { NamesFindPorts }
    ensures peers { NamesFindPeers }
    ensures undone { OpeningsAreUndone }
    ensures room { OpeningsHaveRoom }
{}

/// The tally, with what each entry counts, is the counters of the world after every entry. Each
/// port that is there has counters in it, which are those that a Stat tells, and no other has.
pub fn counts_follow()
    ensures follow { CountsFollow }
    ensures told { OpenPortsAreCounted }
    ensures shutting { ShuttingPortsAreCounted }
    ensures next { NextPortsAreNot }
    ensures count { AsManyAreCounted }
{}

/// What counts nothing changes no counters, nor does what counts at a port that has none.
pub fn nothing_need_be_added()
    ensures nothing { NothingIsAdded }
    ensures nowhere { NowhereIsAdded }
{}

/// With fewer than 2^32 entries no sum of a port's counters passes 2^64 - 1.
pub fn sums_fit()
    ensures sums { SumsFit }
    ensures additions { AdditionsFit }
{}

/// What an entry's offers want is what is left of its wants, after every later entry: a Grant takes
/// the first, and the first is the one that it finds.
pub fn offers_follow()
    ensures follow { OffersFollow }
    ensures first { FirstWantsAreNext }
    ensures none { NoWantIsLeft }
{}

/// The offers that an entry starts with, and what is wanted of its frames then: by a Send, by a
/// Sync or a Get, and by a Put.
pub fn offers_start()
    ensures start { OffersStart }
    ensures sends { SendsStart }
    ensures reads { ReadsStart }
    ensures puts { PutsStart }
{}

/// What a table finds is an open port of its switch. A fresh table finds nothing, and each table
/// keeps its size. It learns one frame as the pairs do, and what it learned is taken back.
pub fn tables_are_sound()
    ensures found { FoundPortsAreOpen }
    ensures fresh { FreshTablesFindNothing }
    ensures size { FreshTablesAreTables }
    ensures kept { TablesKeepTheirSize }
    ensures frame { FramesAreLearned }
    ensures back { LearningIsTakenBack }
{}

/// The tables of all switches that have a port follow each entry. The table of a switch that has
/// lost its last port may be given to a switch that has none, or a fresh one may be added.
pub fn all_tables_follow()
    ensures follow { AllTablesFollow }
    ensures over { TablesAreGivenOver }
    ensures added { FreshTablesAreAdded }
{}

/// Parts that change as an entry says are what stands once it is made; at first they are empty, and
/// all buffers are free.
pub fn parts_follow()
    ensures follow { PartsFollow }
    ensures first { EmptyPartsAreFirst }
{}

/// A Send teaches the table of its port's switch alone, and a Shut empties that of its port's
/// alone, if it is of one; all other asks leave the tables as they are.
pub fn one_table_changes()
    ensures stay { TablesStay }
    ensures sends { SendsTeachOne }
    ensures shuts { ShutsEmptyOne }
    ensures others { OtherShutsEmptyNone }
{}

/// The reply of a Send is told by the look-up of its batch, and the destinations of what a Sync
/// gives and of what a Put's other end takes by the monitor's want.
pub fn replies_are_told()
    ensures sends { SendsAreReplied }
    ensures reads { ReadsAreReplied }
    ensures puts { PutsAreReplied }
{}

/// Buffers that were taken can be given back, one by one, and then nothing has changed.
pub fn what_is_taken_is_given_back()
    ensures { TakenIsGivenBack }
{}
