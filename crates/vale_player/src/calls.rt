//! What a user does that makes one entry, at its ports by their names. Nothing is made where it has
//! not the port.
ghost use Rattle.std.specs.Prelude.{◌≡◌, true};
ghost use Rattle.vale_player.specs.Words.{IsWatchable, OpenPort, ReadCounts, WatchPort};
ghost use Rattle.vale_player.specs.Words.{is_monitor_name};
ghost use Rattle.vale_player.specs.Players.{HasCalled};
ghost use Rattle.vale_player.specs.Stopping.{open_stop_of, watch_stop_of};

use crate::player::Player;
use nm_types::{Name, OpenFault, Sides, StepFault, WatchFault};
use std::sync::Wait;

/// Why a user stops at a port that was not opened: a full record and want of memory stop it, a
/// refusal does not.
fn unless_refused(fault: OpenFault) -> Result<(), StepFault>
    ensures { result ≡ open_stop_of fault }
{
    match fault {
        OpenFault::RecordFull { what, used, want } => {
            Err(StepFault::RecordFull { what, used, want })
        }
        OpenFault::NoMemory => Err(StepFault::NoMemory),
        _ => Ok(()),
    }
}

/// Why a user stops at a port that is not watched: a full record and want of memory stop it.
fn unless_told(fault: WatchFault) -> Result<(), StepFault>
    ensures { result ≡ watch_stop_of fault }
{
    match fault {
        WatchFault::RecordFull { what, used, want } => {
            Err(StepFault::RecordFull { what, used, want })
        }
        WatchFault::NoMemory => Err(StepFault::NoMemory),
        _ => Ok(()),
    }
}

impl<'f> Player<'f> {
    /// Opens a port. A refusal by the name, the sizes or the free buffers is an entry too, and the
    /// user goes on without the port.
    pub fn open<R: Wait>(
        &mut self,
        rt: &R,
        name: &Name,
        tx: u32,
        rx: u32,
        extra: u32,
    ) -> Result<(), StepFault>
        ensures { HasCalled self.old self.new (OpenPort name.now tx rx extra) result }
    {
        let opened = self.session.open(rt, name, tx, rx, extra);
        self.kept.open(self.names, name, &opened);
        match opened {
            Ok(_) => Ok(()),
            Err(fault) => unless_refused(fault),
        }
    }

    /// Has a monitor watch a port. That no open port has the name, and that the port has a monitor,
    /// are entries too.
    pub fn watch<R: Wait>(
        &mut self,
        rt: &R,
        monitor: &Name,
        target: &Name,
        sides: Sides,
    ) -> Result<(), StepFault>
        requires monitor { is_monitor_name monitor.now ≡ true }
        requires target { IsWatchable target.now }
        ensures { HasCalled self.old self.new (WatchPort monitor.now target.now sides) result }
    {
        let Some(port) = self.session.port_named(monitor) else {
            return Ok(());
        };
        match self.session.watch(rt, port, target, sides) {
            Ok(_) => Ok(()),
            Err(fault) => unless_told(fault),
        }
    }

    /// Reads a port's counters.
    pub fn stat<R: Wait>(&mut self, rt: &R, name: &Name) -> Result<(), StepFault>
        ensures { HasCalled self.old self.new (ReadCounts name.now) result }
    {
        let Some(port) = self.session.port_named(name) else {
            return Ok(());
        };
        match self.session.stats(rt, port) {
            Ok(_) => Ok(()),
            Err(fault) => Err(fault),
        }
    }
}
