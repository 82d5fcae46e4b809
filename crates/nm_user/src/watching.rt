//! Monitors watch ports.
ghost use Rattle.std.specs.Prelude.{IfOk, IfErr};
ghost use Rattle.vale_entry.specs.declared.entry.Ask.TheVariants as asks;
ghost use Rattle.vale_entry.specs.declared.entry.Reply.TheVariants as replies;
ghost use Rattle.nm_user.specs.Calls.{Made};
ghost use Rattle.nm_user.specs.Ports.{IsMonitorOn, IsWatchable, WatchesNot};

use crate::session::Session;
use nm_types::{Name, PortId, Sides, WatchFault};
use std::sync::Wait;

impl<'f> Session<'f> {
    /// A monitor watches these sides of the port of this name, which is a switch's port or a pipe's
    /// end of any session. Answers which port that is. From then on the monitor is granted a copy of
    /// each frame that the port sends (`T`), that its syncs bring (`R`), or both (`TR`), as far as it
    /// has space. A monitor may watch several ports, until it or they are closed.
    ///
    /// `NoTarget`: no open port has the name. `Watched`: the port has a monitor, which may be this one.
    /// Both are entries. `RecordFull` and `NoMemory` are none, and nothing has changed.
    pub fn watch<R: Wait>(
        &mut self,
        rt: &R,
        monitor: PortId,
        target: &Name,
        sides: Sides,
    ) -> Result<PortId, WatchFault>
        requires monitor { IsMonitorOn self.old.own monitor.0 }
        requires target { IsWatchable target.now }
        ensures watched { IfOk result (λ port. Made self.old self.new
            (asks.Watch monitor target.now sides) (replies.Watching port)) }
        ensures unwatched { IfErr result (WatchesNot self.old self.new
            (asks.Watch monitor target.now sides)) }
    {
        self.fabric
            .watch(rt, &mut self.pass, monitor, target, sides)
    }
}
