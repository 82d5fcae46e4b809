ghost use Rattle.std.specs.Prelude.{ℕ, List, ◌≡◌, []};
ghost use Rattle.nm_own.specs.Words.{AllOf, Buffer, Rx, SideState, own_after_receive};
ghost use Rattle.nm_own.specs.LentBack.{IsLentBack};
ghost use Rattle.nm_own.specs.LentSides.{CanLend, IsUndone, Lends};

use crate::lending::{LentSide, lend, undo};
use crate::own::OwnSide;
use nm_port::receive::accept_backs;
use nm_region::Buf;
use nm_types::{PortId, Side};

/// An own side whose receive push is about to be accepted: the buffers that the pushed slots name
/// are lent out. It cannot be dropped: `received` ends it once they are gone for good, `undo` once
/// they came back.
pub struct LentBack {
    pub(crate) port: PortId,
    pub(crate) lent: LentSide,
}

impl OwnSide {
    /// Lends the buffers that the pushed slots of a receive ring name, for a push that no check
    /// refuses. They go to `back`, which has room for them, in the order of the slots. `notes` is an
    /// empty vector with room for as many numbers.
    pub fn lend_back(self, port: PortId, back: &mut Vec<Buf>, notes: Vec<u32>) -> LentBack
        requires { CanLend Rx port self back.old notes }
        ensures { Lends Rx port self back.old back.new result.port result.lent }
    {
        let lent = lend(self, port, Side::Rx, back, notes);
        LentBack { port, lent }
    }
}

impl LentBack {
    /// What stands after a receive sync that brought no frame: the buffers lent are gone.
    pub fn received(self) -> OwnSide
        requires { (s : SideState) × ((lent : List Buffer) × IsLentBack s lent self) }
        ensures own { (s : SideState) (lent : List Buffer) → IsLentBack s lent self
            → result.own ≡ own_after_receive self.port.0 [] s.own }
        ensures region { (s : SideState) (lent : List Buffer) → IsLentBack s lent self
            → (region : ℕ) → AllOf region s → AllOf region result }
    {
        let LentBack { port, lent } = self;
        let LentSide {
            hold,
            mut ports,
            marks,
            replaced: _,
        } = lent;
        accept_backs(&mut ports, port);
        OwnSide { hold, ports, marks }
    }

    /// The own side as it was before the buffers were lent, once they are back. `back` has them, and
    /// nothing else.
    pub fn undo(self, back: &mut Vec<Buf>) -> OwnSide
        requires { (s : SideState) × IsLentBack s back.old.items self }
        ensures { IsUndone Rx self.port self.lent back.old back.new result }
    {
        let LentBack { port, lent } = self;
        undo(lent, port, Side::Rx, back)
    }
}
