ghost use Rattle.std.specs.Prelude.{⊤, [], ◌∷◌, codes};

use bitflags::{Flag, Flags, bitflag_items};

/// The flags of a slot, as netmap(4) numbers them. Other bits are kept and have no effect.
#[derive(Clone, Copy, PartialEq, Eq, Debug)]
pub struct SlotFlags(pub u16);

bitflag_items! {
    impl SlotFlags: u16 {
        /// The user put another buffer into the slot.
        const BUF_CHANGED = 0x0001;
        /// Accepted, with no effect.
        const REPORT = 0x0002;
        /// Accepted, with no effect.
        const FORWARD = 0x0004;
        /// The switch is not to learn the frame's source.
        const NO_LEARN = 0x0008;
        /// The frame is at an address of the user's.
        const INDIRECT = 0x0010;
        /// The frame goes on in the next slot.
        const MORE_FRAGMENTS = 0x0020;
    }
}

impl Flags for SlotFlags {
    type Bits = u16;

    ghost exact = { ⊤ };

    ghost table = { (codes "BUF_CHANGED", 1) ∷ (codes "REPORT", 2) ∷ (codes "FORWARD", 4)
        ∷ (codes "NO_LEARN", 8) ∷ (codes "INDIRECT", 16) ∷ (codes "MORE_FRAGMENTS", 32) ∷ [] };

    ghost set_of = { λ flags. flags.0 };

    fn flags<'a>() -> &'a [Flag<SlotFlags>] {
        SlotFlags::FLAGS
    }

    fn bits(&self) -> u16 {
        self.0
    }

    fn from_bits_retain(bits: u16) -> SlotFlags {
        SlotFlags(bits)
    }
}
