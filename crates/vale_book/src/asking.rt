ghost use Rattle.std.specs.Prelude.{◌≡◌, ◌<◌, length, Some, IfOk};
ghost use Rattle.vale_book.specs.Words.{OfSeat, Port as Seen, delivered_frames, open_port};
ghost use Rattle.vale_book.specs.Words.{shutting_port, sizes_of};
ghost use Rattle.vale_book.specs.Asking.{AreReady, IsSeen, IsSeenAs, IsReady};
ghost use Rattle.vale_own.specs.Recorded.{standing};

use crate::book::Book;
use nm_types::{Name, NoMemory, PortId, SessionId, Side};
use vale_port::{Port, open_port, shutting_port};
use vale_steps::reading::ready_sizes;

/// What stands of a port.
#[derive(Clone, Copy)]
pub struct PortSeen {
    pub session: SessionId,
    pub name: Name,
    /// The slots of its transmit ring.
    pub tx: u32,
    /// The buffers that its syncs gave and that have not come back.
    pub out: u32,
    /// The buffers that its session holds for it.
    pub due: u64,
    /// The leases that are not done.
    pub leases_out: u32,
}

/// What a sync of a port, or a get, would give.
#[derive(Clone, Copy)]
pub struct Ready {
    /// How many frames.
    pub frames: u32,
    /// How many buffers, in which these lie.
    pub buffers: u32,
    /// Whether a monitor is offered the frames.
    pub is_watched: bool,
}

/// What stands of the port at a place.
fn seen_at(ports: &[Port], place: usize) -> PortSeen
    requires { place < length ports.now }
    ensures { OfSeat (λ seat. IsSeen seat.port result) ports.now place }
{
    let port = &ports[place];
    PortSeen {
        session: port.session(),
        name: port.name(),
        tx: port.tx(),
        out: port.out(),
        due: port.due(),
        leases_out: port.leases_out(),
    }
}

/// What is ready at the port of a place, which is watched or not.
fn ready_at(ports: &[Port], place: usize, is_watched: bool) -> Ready
    requires { place < length ports.now }
    ensures are { OfSeat (λ seat. AreReady seat.port result) ports.now place }
    ensures watched { result.is_watched ≡ is_watched }
{
    let port = &ports[place];
    Ready {
        frames: port.ready_frames(),
        buffers: port.ready(),
        is_watched,
    }
}

impl Book {
    /// What stands of the open port of this id.
    pub fn open_port(&self, port: PortId) -> Option<PortSeen>
        ensures { IsSeenAs (open_port (standing self.now).world.ports port.0) result }
    {
        match open_port(&self.ports, port) {
            Some(place) => Some(seen_at(&self.ports, place)),
            None => None,
        }
    }

    /// What stands of the port of this id that is shut and not gone.
    pub fn shutting_port(&self, port: PortId) -> Option<PortSeen>
        ensures { IsSeenAs (shutting_port (standing self.now).world.ports port.0) result }
    {
        match shutting_port(&self.ports, port) {
            Some(place) => Some(seen_at(&self.ports, place)),
            None => None,
        }
    }

    /// What a sync of the open port of this id, or a get, would give: nothing, where there is none.
    pub fn ready(&self, port: PortId) -> Ready
        ensures { (seen : Seen) → open_port (standing self.now).world.ports port.0 ≡ Some seen
            → IsReady (standing self.now).world seen result }
    {
        match open_port(&self.ports, port) {
            Some(place) => {
                let is_watched = self.watches.of(port, Side::Rx).is_some();
                ready_at(&self.ports, place, is_watched)
            }
            None => Ready {
                frames: 0,
                buffers: 0,
                is_watched: false,
            },
        }
    }

    /// The slots of each frame that a sync of the open port of this id, or a get, would give.
    pub fn ready_sizes(&self, port: PortId) -> Result<Vec<u32>, NoMemory>
        ensures { IfOk result (λ sizes. (seen : Seen)
            → open_port (standing self.now).world.ports port.0 ≡ Some seen
            → sizes.items ≡ sizes_of (delivered_frames seen)) }
    {
        match open_port(&self.ports, port) {
            Some(place) => ready_sizes(self.alloc, &self.ports, place),
            None => Ok(Vec::new(self.alloc)),
        }
    }

    /// The number of ports that are not gone.
    pub fn ports(&self) -> usize
        ensures { result ≡ length (standing self.now).world.ports }
    {
        self.ports.len()
    }
}
