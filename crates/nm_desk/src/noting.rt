//! Entries that leave a desk's buffers where they are: a port is watched, or a ring reset.
ghost use Rattle.std.specs.Prelude.{◌≡◌, false, true, Some, IfOk, IfErr, OnOk};
ghost use Rattle.nm_types.specs.OwnPorts.{refusal_at};
ghost use Rattle.vale_entry.specs.declared.entry.Ask.TheVariants as asks;
ghost use Rattle.vale_entry.specs.declared.entry.Reply.TheVariants as replies;
ghost use Rattle.vale_entry.specs.Legal.{fits_fault};
ghost use Rattle.nm_desk.specs.Desks.{IsDeskOf};
ghost use Rattle.nm_desk.specs.Calls.{IsOpenAt, Made, MadeNone};
ghost use Rattle.nm_desk.specs.Watching.{IsMonitorOn, IsWatchable, WatchesNot};

use crate::desk::Desk;
use nm_types::{Name, PortId, Side, Sides, StepFault, SyncFault, WatchFault};
use vale_book::Book;

impl Desk {
    /// A monitor watches these sides of the port of this name, which is a switch's port or a pipe's
    /// end of any session. Answers which port that is. From then on the monitor is offered a copy of
    /// each frame that the port sends (`T`), that its syncs bring (`R`), or both (`TR`). A monitor may
    /// watch several ports, until it or they are closed.
    ///
    /// `NoTarget`: no open port has the name. `Watched`: the port has a monitor, which may be this one.
    /// Both are entries. `RecordFull` and `NoMemory` are none, and nothing has changed.
    pub fn watch(
        &mut self,
        book: &mut Book,
        monitor: PortId,
        target: &Name,
        sides: Sides,
    ) -> Result<PortId, WatchFault>
        requires desk { IsDeskOf book.old self.old }
        requires is_open { IsOpenAt self.old monitor.0 }
        requires monitor { IsMonitorOn self.old.own monitor.0 }
        requires target { IsWatchable target.now }
        ensures watched { IfOk result (λ port. Made book.old book.new self.old self.new
            (asks.Watch monitor target.now sides) (replies.Watching port)) }
        ensures unwatched { IfErr result (WatchesNot book.old book.new self.old self.new
            (asks.Watch monitor target.now sides)) }
    {
        book.watch(monitor, target, sides)
    }
}
