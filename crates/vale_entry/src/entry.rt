use crate::lists::{Dests, Items, Numbers};
use nm_types::{
    Batch, Chain, Counts, Frame, LeaseId, Name, OpenFault, PortId, SessionId, Side, Sides,
    SyncFault,
};

/// What a session asks of the switch. Each ask that is enabled makes one entry of the history.
#[derive(Clone, Drop)]
pub enum Ask {
    /// A user comes.
    Enter {
        user: u64,
    },
    /// A port of this name and these sizes is opened.
    Open {
        session: SessionId,
        name: Name,
        tx: u32,
        rx: u32,
        extra: u32,
    },
    /// Frames are sent into the port's switch.
    Send {
        port: PortId,
        frames: Batch,
    },
    /// The frames of an entry that are wanted at a port are granted room there.
    Grant {
        origin: u32,
        to: PortId,
    },
    /// A lease's buffers are filled.
    Done {
        lease: LeaseId,
    },
    /// Buffers go back to the port's receive ring, and what is ready comes.
    Sync {
        port: PortId,
        back: Numbers,
    },
    /// A sync was refused, and the ring reset.
    Reset {
        port: PortId,
        side: Side,
        fault: SyncFault,
    },
    /// The port is closed for new frames.
    Shut {
        port: PortId,
    },
    /// The port goes, and its buffers with it.
    Finish {
        port: PortId,
        bufs: Numbers,
        chain: Chain,
    },
    /// The session ends.
    Leave {
        session: SessionId,
    },
    /// Frames are offered to a pipe's other end, with their buffers.
    Put {
        port: PortId,
        offered: Items,
    },
    /// A `Put` as it is stored: the number of frames offered.
    PutKept {
        port: PortId,
        offered: u32,
    },
    /// `Sync` on a pipe end.
    Get {
        port: PortId,
        back: Numbers,
    },
    /// A monitor watches a port.
    Watch {
        monitor: PortId,
        target: Name,
        sides: Sides,
    },
    /// A port's counters are read.
    Stat {
        port: PortId,
    },
}

/// A frame offered to a pipe, and its buffer.
#[derive(Clone, Drop)]
pub struct Item {
    pub index: u32,
    pub bytes: Frame,
}

/// Numbers from one up to another, as a transcript has neighbouring buffers.
#[derive(Clone, Copy, Debug, PartialEq, Eq)]
pub struct Span {
    pub first: u32,
    pub last: u32,
}

/// How many frames of an entry are wanted at a port.
#[derive(Clone, Copy, Debug, PartialEq, Eq)]
pub struct Dest {
    pub to: PortId,
    pub count: u32,
}

/// What an ask is answered.
#[derive(Clone, Drop)]
pub enum Reply {
    Made,
    Opened,
    Refused { fault: OpenFault },
    Offered { short: u32, lone: u32, to: Dests },
    Shared { given: u32, full: u32, gone: u32 },
    Gave { count: u32, to: Dests },
    Took { items: Items, to: Dests },
    PeerGone,
    Unread { count: u32 },
    LeasesOut { n: u32 },
    Watching { target: PortId },
    NoTarget,
    Watched { by: PortId },
    Counted { counts: Counts },
}

/// One step of the switch: who asked, what, and the answer. Entries are numbered from 1.
#[derive(Clone, Drop)]
pub struct Entry {
    pub session: SessionId,
    pub ask: Ask,
    pub reply: Reply,
}
