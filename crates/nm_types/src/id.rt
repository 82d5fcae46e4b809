ghost use Rattle.std.specs.Prelude.{◌≡◌};
ghost use Rattle.nm_types.specs.Sides.{watches_side};

/// An Ethernet address, in the order of the wire.
#[derive(Clone, Copy, Debug, PartialEq, Eq, PartialOrd, Ord, Hash)]
pub struct Mac(pub [u8; 6]);

/// A port: the number of the entry that opened it.
#[derive(Clone, Copy, Debug, PartialEq, Eq, PartialOrd, Ord, Hash)]
pub struct PortId(pub u32);

/// A lease: the number of the entry that granted it.
#[derive(Clone, Copy, Debug, PartialEq, Eq, PartialOrd, Ord, Hash)]
pub struct LeaseId(pub u32);

/// A session: the number of the entry by which it entered.
#[derive(Clone, Copy, Debug, PartialEq, Eq, PartialOrd, Ord, Hash)]
pub struct SessionId(pub u32);

/// A side of a port.
#[derive(Clone, Copy, Debug, PartialEq, Eq)]
pub enum Side {
    /// The transmit ring.
    Tx,
    /// The receive ring.
    Rx,
}

/// The sides of a port that a monitor watches.
#[derive(Clone, Copy, Debug, PartialEq, Eq)]
pub enum Sides {
    /// What the port sends.
    T,
    /// What the port receives.
    R,
    /// Both.
    TR,
}

impl Sides {
    /// Tells whether a monitor of these sides sees `side`.
    pub fn watches(self, side: Side) -> bool
        ensures { result ≡ watches_side self side }
    {
        match side {
            Side::Tx => matches!(&self, Sides::T | Sides::TR),
            Side::Rx => matches!(&self, Sides::R | Sides::TR),
        }
    }
}

/// How large a port is.
#[derive(Clone, Copy, Debug, PartialEq, Eq)]
pub struct PortSizes {
    /// The slots of the transmit ring; 0 for a monitor.
    pub tx: u32,
    /// The slots of the receive ring.
    pub rx: u32,
    /// The extra buffers.
    pub extra: u32,
}

/// What a detach found of a port's extra buffers.
#[derive(Clone, Copy, Debug, PartialEq, Eq)]
pub struct Chain {
    /// The buffers that the list of extra buffers reached.
    pub found: u32,
    /// The other extra buffers of the port.
    pub astray: u32,
}

/// What a port has counted, in frames.
#[derive(Clone, Copy, Debug, PartialEq, Eq)]
pub struct Counts {
    /// Frames of its sends, and those that its pipe's other end took.
    pub sent: u64,
    /// Frames that it sent shorter than an Ethernet header.
    pub short: u64,
    /// Frames that it sent for no other port.
    pub lone: u64,
    /// Frames that were placed in its receive queue.
    pub given: u64,
    /// Frames wanted at it that found no space.
    pub full: u64,
    /// Frames that its syncs read.
    pub read: u64,
}

impl Counts {
    /// The counts of a port that was just opened.
    pub const ZERO: Counts = Counts {
        sent: 0,
        short: 0,
        lone: 0,
        given: 0,
        full: 0,
        read: 0,
    };
}
