ghost use Rattle.std.specs.Prelude.{◌≡◌, All, length, map, IfOk};
ghost use Rattle.vale_steps.specs.Words.{dests_wanted, wanted};
ghost use Rattle.vale_steps.specs.Monitored.{wants_by, offers_to};
ghost use Rattle.vale_steps.specs.Wanting.{AreSmall, IsSmallWant};

use crate::offers::{Offers, rooms_of};
use crate::wanting::{add_monitor, dests_of};
use nm_types::{NoMemory, PortId, SessionId};
use std::alloc::Global;
use std::marker::Model;
use vale_batch::Want;
use vale_entry::{Dest, Dests};
use vale_line::LeaseRoom;

/// What a port's monitor is to be offered of an entry's frames, with memory for all of it.
#[derive(Drop)]
pub(crate) struct Monitored {
    wants: Vec<Want>,
    rooms: Vec<LeaseRoom>,
    to: Vec<Dest>,
}

impl Model for Monitored {
    ghost use Rattle.std.specs.Prelude.{List, map};
    ghost use Rattle.vale_batch.specs.Wants.{Wanted, wanted};

    ghost Value = { List Wanted };

    ghost use Rattle.vale_steps.specs.Monitored.{AreMonitored};

    ghost view = { λ m. map wanted m.wants.items };

    ghost invariant = { AreMonitored };
}

/// The want of a monitor, if there is one and some frames are there.
fn wants_by(alloc: Global, monitor: Option<PortId>, sizes: Vec<u32>) -> Result<Vec<Want>, NoMemory>
    requires { AreSmall sizes.items }
    ensures wants { IfOk result (λ wants. map wanted wants.items ≡ wants_by monitor sizes.items) }
    ensures small { IfOk result (λ wants. All IsSmallWant wants.items) }
{
    let mut wants = Vec::new(alloc);
    add_monitor(alloc, &mut wants, monitor, sizes)?;
    Ok(wants)
}

impl Monitored {
    /// What a port's monitor, if it has one, is offered of frames of these sizes.
    #[tactic(auto, using(crate::proofs::MonitoredWants::monitor_wants))]
    pub(crate) fn new(
        alloc: Global,
        monitor: Option<PortId>,
        sizes: Vec<u32>,
    ) -> Result<Monitored, NoMemory>
        requires { AreSmall sizes.items }
        ensures { IfOk result (λ monitored. monitored ≡ wants_by monitor sizes.items) }
    {
        let wants = wants_by(alloc, monitor, sizes)?;
        let rooms = rooms_of(alloc, &wants)?;
        let to = dests_of(alloc, &wants)?;
        Ok(Monitored { wants, rooms, to })
    }

    /// How many ports are offered some.
    pub(crate) fn len(&self) -> u64
        ensures { result ≡ length (dests_wanted self.now) }
    {
        self.to.len() as u64
    }

    /// The offers of the entry of this number and this session, and the destinations that it tells.
    pub(crate) fn into_offers(self, entry: u32, session: SessionId) -> (Offers, Dests)
        ensures offers { result.0 ≡ offers_to entry session self }
        ensures to { result.1 ≡ dests_wanted self }
    {
        let Monitored { wants, rooms, to } = self;
        let offers = Offers {
            entry,
            session,
            short: 0,
            lone: 0,
            wants,
            rooms,
        };
        (offers, Dests::from(to))
    }
}
