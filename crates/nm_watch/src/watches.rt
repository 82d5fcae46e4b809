ghost use Rattle.std.specs.Prelude.{◌≡◌, ℕ, [], None, OnOk, OnErr, IfErr};
ghost use Rattle.nm_watch.specs.Watching.{watch_of, monitor_of, IsWatchRefusal};
ghost use Rattle.nm_watch.specs.Watching.{watch_after_add, watch_after_forget};

use nm_types::{PortId, Side, Sides, WatchFault};
use std::alloc::Global;
use std::collections::HashMap;
use std::marker::Model;

/// The watch of a port.
#[derive(Clone, Copy, Debug, PartialEq, Eq)]
pub struct Watch {
    /// The monitor that watches the port.
    pub monitor: PortId,
    /// The sides of the port that it watches.
    pub sides: Sides,
}

/// The watches of all ports. They are kept by the port that is watched, so a look-up costs the same
/// however many ports are watched.
#[derive(Drop)]
pub struct Watches {
    watches: HashMap<u32, Watch>,
}

impl Model for Watches {
    ghost use Rattle.nm_watch.specs.Watching.{Watching};

    ghost Value = { Watching };

    ghost view = { λ w. w.watches.entries };
}

impl Watches {
    /// An empty table. It takes no memory.
    pub fn new(alloc: Global) -> Watches
        ensures { result ≡ [] }
    {
        Watches {
            watches: HashMap::new(alloc),
        }
    }

    /// Makes `monitor` watch these sides of `target`. Refuses with `Watched` if the port has a
    /// monitor, which is named and may be the same one, and with `NoMemory` if out of memory. No
    /// other fault is answered.
    pub fn add(&mut self, target: PortId, monitor: PortId, sides: Sides) -> Result<(), WatchFault>
        ensures free { OnOk result (watch_of self.old target.0 ≡ None) }
        ensures added { OnOk result ((port : ℕ) →
            watch_of self.new port ≡ watch_after_add self.old target monitor sides port) }
        ensures refused { IfErr result (IsWatchRefusal self.old target.0) }
        ensures err { OnErr result (self.new ≡ self.old) }
    {
        if let Some(watch) = self.watches.get(&target.0) {
            return Err(WatchFault::Watched { by: watch.monitor });
        }
        match self.watches.insert(target.0, Watch { monitor, sides }) {
            Ok(_) => Ok(()),
            Err(_) => Err(WatchFault::NoMemory),
        }
    }

    /// Finds the monitor that watches this side of `target`.
    pub fn of(&self, target: PortId, side: Side) -> Option<PortId>
        ensures { result ≡ monitor_of self.now target.0 side }
    {
        match self.watches.get(&target.0) {
            Some(watch) if watch.sides.watches(side) => Some(watch.monitor),
            _ => None,
        }
    }

    /// Ends the watch of this port and every watch by it.
    pub fn forget(&mut self, port: PortId)
        ensures { (other : ℕ) → watch_of self.new other ≡ watch_after_forget self.old port other }
    {
        self.watches.remove(&port.0);
        self.watches.retain(|_, watch| watch.monitor != port);
    }
}
