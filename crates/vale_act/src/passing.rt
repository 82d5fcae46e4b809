//! What the main pass and the users' sessions learn from one another.
ghost use Rattle.vale_act.specs.Seats.{IsOnFabric, Meets, Tells};
ghost use Rattle.vale_act.specs.Words.{knowing};

use crate::seat::Seat;
use vale_fabric::{Fabric, Pass};

impl<'f> Seat<'f> {
    /// The user's session learns of all that the main pass has seen, and takes half of its share.
    pub fn meet(&mut self, fabric: &Fabric, main: &mut Pass)
        requires on { IsOnFabric fabric.now main.old self.old }
        ensures on { IsOnFabric fabric.now main.new self.new }
        ensures meets { Meets (knowing main.old) (knowing main.new) self.old self.new }
    {
        if let Seat::There { player, fault: _ } = self {
            let news = fabric.fork(main);
            player.meet(news);
        }
    }

    /// The main pass learns of all that the user's session has seen, and takes half of its share.
    pub fn tell(&mut self, fabric: &Fabric, main: &mut Pass)
        requires on { IsOnFabric fabric.now main.old self.old }
        ensures on { IsOnFabric fabric.now main.new self.new }
        ensures tells { Tells (knowing main.old) (knowing main.new) self.old self.new }
    {
        if let Seat::There { player, fault: _ } = self {
            let news = player.fork();
            fabric.join(main, news);
        }
    }
}
