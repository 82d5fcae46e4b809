ghost use Rattle.std.specs.Prelude.{◌≡◌};
ghost use Rattle.std.specs.Borrow.{sem};

use nm_region::Buf;
use nm_types::Place;

/// A place, and whether the buffer in it is one of the session's named ones.
#[derive(Clone, Copy, Debug, PartialEq, Eq)]
pub struct Home {
    pub place: Place,
    pub named: bool,
}

/// A buffer, and where it stands.
pub struct Standing {
    pub buf: Buf,
    pub home: Home,
}

impl Standing {
    ghost use Rattle.nm_hold.specs.Standings.{LendsBytes};

    /// The bytes of the buffer, to be written.
    pub(crate) fn bytes_mut(&mut self) -> &mut [u8]
        ensures* writes_back { sem 𝓛 (LendsBytes self.entry result) }
        ensures bytes { result.now ≡ self.old.buf.bytes }
    {
        self.buf.bytes_mut()
    }
}
