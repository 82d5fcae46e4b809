//! At the end all users leave.
ghost use Rattle.vale_act.specs.Leaving.{CanStillLeave, SeatStillLeaves};
ghost use Rattle.vale_act.specs.Seats.{AllAre, AreOnFabric, AreSeated, Closes, ClosesAll, IsOnFabric, saves_at};
ghost use Rattle.vale_act.specs.Words.{IsPassIn, KeepsAll, KeepsMore, KeepsWhole, fixed_in, knowing};

use crate::seat::Seat;
use std::mem;
use std::sync::Wait;
use vale_fabric::{Fabric, Pass};
use vale_player::SavedPorts;

impl<'f> Seat<'f> {
    /// The user closes its ports and leaves, if it is there.
    fn close<R: Wait>(&mut self, rt: &R, fabric: &Fabric, main: &mut Pass, kept: &mut SavedPorts)
        requires on { IsOnFabric fabric.now main.old self.old }
        ensures pass { IsPassIn fabric.now main.new }
        ensures closes { Closes (fixed_in fabric.now).pool (knowing main.old) (knowing main.new) self.old self.new }
        ensures leaves { SeatStillLeaves (knowing main.old) (knowing main.new) self.old self.new }
        ensures kept { KeepsWhole (fixed_in fabric.now).pool (knowing main.old) (knowing main.new)
            kept.old kept.new }
        ensures more { KeepsMore kept.old kept.new }
        ensures saves { KeepsAll kept.old (saves_at self.old)
            → KeepsAll kept.new (saves_at self.new) }
    {
        self.meet(fabric, main);
        match mem::replace(self, Seat::Away) {
            Seat::Away => {}
            Seat::There { player, fault: _ } => {
                let (pass, saves, ports) = player.leave(rt);
                fabric.join(main, pass);
                kept.join(ports);
                mem::replace(self, Seat::Gone { saves }).end();
            }
            Seat::Gone { saves } => mem::replace(self, Seat::Gone { saves }).end(),
        }
    }
}

/// All users leave, in the order of their numbers. What was kept of their ports goes behind that of
/// others, and is not kept further where memory is wanting.
pub(crate) fn close_all<R: Wait>(
    rt: &R,
    fabric: &Fabric,
    main: &mut Pass,
    seats: &mut [Seat],
    kept: &mut SavedPorts,
)
    requires on { AreOnFabric fabric.now main.old seats.old }
    requires seated { AreSeated seats.old }
    ensures pass { IsPassIn fabric.now main.new }
    ensures closes { ClosesAll (fixed_in fabric.now).pool (knowing main.old) (knowing main.new)
        seats.old seats.new }
    ensures leaves { CanStillLeave (knowing main.old) (knowing main.new) seats.old seats.new }
    ensures kept { KeepsWhole (fixed_in fabric.now).pool (knowing main.old) (knowing main.new)
        kept.old kept.new }
    ensures saves { AllAre (λ place seat. KeepsAll kept.new (saves_at seat)) seats.new }
{
    for place in 0..seats.len() {
        seats[place].close(rt, fabric, main, kept);
    }
}
