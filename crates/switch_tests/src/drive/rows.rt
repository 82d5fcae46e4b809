//! Rows of asks with their answers.
use super::steps::{Answer, Step};
use nm_types::{
    Counts, MAX_BATCH, MAX_EXTRA, MAX_FRAME_BYTES, MAX_POOL, MAX_RING, OpenFault, Sides,
};

/// Asks with their answers.
pub(super) type Asks = &'static [(Step, Answer)];

/// The size of a pool, what a fresh drive is asked first, the asks that the row is about, and how
/// many entries there are once the drive is closed.
pub(super) type Row = (u32, Asks, Asks, u32);

pub(super) const ROWS: &[Row] = &[
    (64, THREE, LEASES, 27),
    (64, THREE, GONE, 22),
    (64, THREE, OUT, 20),
    (64, THREE, BOTH_OUT, 25),
    (64, &[], PIPE_END, 6),
    (64, &[], PIPE, 16),
    (64, THREE, TRANSMITTED, 24),
    (20, &[], RECEIVED, 20),
    (64, &[], LONG, 22),
    (64, &[], FITTING, 24),
    (136, &[], LONGEST, 19),
    (MAX_POOL, &[], LARGEST, 15),
    (64, &[], COUNTERS, 16),
    (10, &[], OPENINGS, 9),
    (40, &[], NAMES, 20),
];

/// A broadcast of three slots from the first port of a user who came first.
pub(super) const TO_ALL: Step = Step::SendLong(2, &[5000]);

/// Three users, two of which have a port on one switch.
const THREE: Asks = &[
    (Step::Enter, Answer::Made),
    (Step::Enter, Answer::Made),
    (Step::Enter, Answer::Made),
    (Step::Open(1, "vale0:a", 4, 4, 0), Answer::Opened),
    (Step::Open(2, "vale0:b", 4, 4, 0), Answer::Opened),
];

/// Frames are read in the order of their leases, and not in that of their completions.
const LEASES: Asks = &[
    (Step::Open(3, "vale0:c", 4, 4, 0), Answer::Opened),
    (Step::Send(4, 0x0a, 1), Answer::Offered(5, 2)),
    (Step::Grant(7, 6), Answer::NotEnabled),
    (Step::Grant(7, 5), Answer::Shared(1, 0, 0)),
    (Step::Done(8), Answer::Made),
    (Step::Grant(7, 6), Answer::Shared(1, 0, 0)),
    (Step::Send(4, 0x0a, 1), Answer::NotEnabled),
    (Step::Send(5, 0x0b, 1), Answer::Offered(4, 2)),
    (Step::Grant(11, 4), Answer::Shared(1, 0, 0)),
    (Step::Done(12), Answer::Made),
    (Step::Grant(11, 6), Answer::Shared(1, 0, 0)),
    (Step::Done(14), Answer::Made),
    (Step::Done(14), Answer::NotEnabled),
    (Step::Sync(6, &[]), Answer::Gave(0, 0)),
    (Step::Done(10), Answer::Made),
    (Step::Sync(6, &[]), Answer::Gave(2, 0)),
];

/// An offer to a port that is gone is granted nothing, also once its name is opened again.
const GONE: Asks = &[
    (Step::Open(3, "vale0:c", 4, 4, 0), Answer::Opened),
    (Step::Send(4, 0x0a, 1), Answer::Offered(5, 2)),
    (Step::Finish(6, &[18, 19, 20, 21]), Answer::NotEnabled),
    (Step::Shut(6), Answer::Made),
    (Step::Finish(6, &[18, 19, 20]), Answer::NotEnabled),
    (Step::Finish(6, &[18, 19, 20, 21]), Answer::Unread(0)),
    (Step::Open(3, "vale0:c", 4, 4, 0), Answer::Opened),
    (Step::Grant(7, 5), Answer::Shared(1, 0, 0)),
    (Step::Done(11), Answer::Made),
    (Step::Grant(7, 6), Answer::Shared(0, 0, 1)),
    (Step::Grant(7, 6), Answer::NotEnabled),
];

/// A port waits for the leases that were granted to it.
const OUT: Asks = &[
    (Step::Open(3, "vale0:c", 4, 4, 0), Answer::Opened),
    (Step::Send(4, 0x0a, 1), Answer::Offered(5, 2)),
    (Step::Grant(7, 5), Answer::Shared(1, 0, 0)),
    (Step::Done(8), Answer::Made),
    (Step::Grant(7, 6), Answer::Shared(1, 0, 0)),
    (Step::Shut(6), Answer::Made),
    (Step::Finish(6, &[18, 19, 20, 21]), Answer::LeasesOut(1)),
    (Step::Done(10), Answer::Made),
    (Step::Finish(6, &[18, 19, 20, 21]), Answer::Unread(1)),
    (Step::Leave(1), Answer::NotEnabled),
    (Step::Leave(3), Answer::Made),
];

/// A port waits for the leases of two sessions; then the frames of both are counted unread.
const BOTH_OUT: Asks = &[
    (Step::Open(3, "vale0:c", 4, 4, 0), Answer::Opened),
    (Step::Send(4, 0x0a, 1), Answer::Offered(5, 2)),
    (Step::Grant(7, 5), Answer::Shared(1, 0, 0)),
    (Step::Done(8), Answer::Made),
    (Step::Grant(7, 6), Answer::Shared(1, 0, 0)),
    (Step::Send(5, 0x0b, 1), Answer::Offered(4, 2)),
    (Step::Grant(11, 4), Answer::Shared(1, 0, 0)),
    (Step::Done(12), Answer::Made),
    (Step::Grant(11, 6), Answer::Shared(1, 0, 0)),
    (Step::Shut(6), Answer::Made),
    (Step::Finish(6, &[18, 19, 20, 21]), Answer::LeasesOut(2)),
    (Step::Done(14), Answer::Made),
    (Step::Finish(6, &[18, 19, 20, 21]), Answer::LeasesOut(1)),
    (Step::Done(10), Answer::Made),
    (Step::Finish(6, &[18, 19, 20, 21]), Answer::Unread(2)),
];

/// An end of a pipe is read before the other one is open: it has nothing.
const PIPE_END: Asks = &[
    (Step::Enter, Answer::Made),
    (Step::Open(1, "pipe0{", 4, 4, 0), Answer::Opened),
    (Step::Get(2, &[]), Answer::Gave(0, 0)),
];

/// Frames go through a pipe with their buffers, for which others come.
const PIPE: Asks = &[
    (Step::Enter, Answer::Made),
    (Step::Enter, Answer::Made),
    (Step::Open(1, "pipe0{", 4, 4, 0), Answer::Opened),
    (Step::Open(2, "pipe0}", 2, 2, 0), Answer::Opened),
    (Step::Put(3, &[9]), Answer::NotEnabled),
    (Step::Put(3, &[2, 3]), Answer::Took(1, 0)),
    (Step::Put(3, &[2]), Answer::NotEnabled),
    (Step::Sync(4, &[]), Answer::NotEnabled),
    (Step::Get(4, &[]), Answer::Gave(1, 0)),
    (Step::Put(3, &[3]), Answer::Took(0, 0)),
    (Step::Get(4, &[2]), Answer::Gave(0, 0)),
    (Step::Put(3, &[3]), Answer::Took(1, 0)),
    (Step::Shut(3), Answer::Made),
    (Step::Put(4, &[10]), Answer::PeerGone),
    (Step::Finish(3, &[4, 5, 12, 13]), Answer::Unread(0)),
];

/// What a port sends is named for its monitor too.
const TRANSMITTED: Asks = &[
    (Step::Open(3, "mon0", 0, 2, 0), Answer::Opened),
    (Step::Watch(4, "vale0:b", Sides::T), Answer::NotEnabled),
    (Step::Watch(6, "vale0:a", Sides::T), Answer::Watching(4)),
    (Step::Send(4, 0x0a, 2), Answer::Offered(5, 2)),
    (Step::Grant(8, 5), Answer::Shared(2, 0, 0)),
    (Step::Done(9), Answer::Made),
    (Step::Grant(8, 6), Answer::Shared(1, 1, 0)),
    (Step::Done(11), Answer::Made),
    (Step::Sync(6, &[]), Answer::Gave(1, 0)),
    (Step::Watch(6, "vale0:a", Sides::R), Answer::Watched(6)),
    (Step::Watch(6, "vale9:x", Sides::R), Answer::NoTarget),
];

/// What a port is given is offered to its monitor, which is given it too.
const RECEIVED: Asks = &[
    (Step::Enter, Answer::Made),
    (Step::Open(1, "vale0:a", 4, 4, 0), Answer::Opened),
    (Step::Open(1, "vale0:b", 4, 4, 0), Answer::Opened),
    (Step::Open(1, "mon0", 0, 3, 0), Answer::Opened),
    (Step::Watch(4, "vale0:b", Sides::R), Answer::Watching(3)),
    (Step::Send(2, 1, 1), Answer::Offered(3, 1)),
    (Step::Sync(3, &[]), Answer::NotEnabled),
    (Step::Grant(6, 3), Answer::Shared(1, 0, 0)),
    (Step::Done(7), Answer::Made),
    (Step::Sync(3, &[]), Answer::Gave(1, 1)),
    (Step::Sync(3, &[14]), Answer::NotEnabled),
    (Step::Grant(9, 4), Answer::Shared(1, 0, 0)),
    (Step::Done(10), Answer::Made),
    (Step::Sync(4, &[]), Answer::Gave(1, 0)),
    (Step::Sync(3, &[14]), Answer::Gave(0, 0)),
];

/// A frame of three slots is counted as one, and its buffers go and come back as three.
const LONG: Asks = &[
    (Step::Enter, Answer::Made),
    (Step::Open(1, "vale0:a", 4, 4, 0), Answer::Opened),
    (Step::Open(1, "vale0:b", 4, 5, 0), Answer::Opened),
    (Step::Open(1, "mon0", 0, 4, 0), Answer::Opened),
    (Step::Watch(4, "vale0:b", Sides::R), Answer::Watching(3)),
    (Step::SendLong(2, &[5000]), Answer::Offered(3, 1)),
    (Step::Grant(6, 3), Answer::Shared(1, 0, 0)),
    (Step::Done(7), Answer::Made),
    (Step::Sync(3, &[]), Answer::Gave(1, 1)),
    (Step::Grant(9, 4), Answer::Shared(1, 0, 0)),
    (Step::Done(10), Answer::Made),
    (Step::Sync(4, &[]), Answer::Gave(1, 0)),
    (Step::SendLong(2, &[4097]), Answer::Offered(3, 1)),
    (Step::Grant(13, 3), Answer::Shared(0, 1, 0)),
    (Step::Sync(3, &[14, 15, 16]), Answer::Gave(0, 0)),
];

/// A port and a monitor are given the first frames that fit together in five slots and in two. What is
/// behind a frame that does not fit is full too.
const FITTING: Asks = &[
    (Step::Enter, Answer::Made),
    (Step::Open(1, "vale0:a", 4, 4, 0), Answer::Opened),
    (Step::Open(1, "vale0:b", 4, 6, 0), Answer::Opened),
    (Step::Open(1, "mon0", 0, 3, 0), Answer::Opened),
    (Step::Watch(4, "vale0:a", Sides::T), Answer::Watching(2)),
    (Step::SendLong(2, &[4096, 4097, 14]), Answer::Offered(3, 2)),
    (Step::Grant(6, 3), Answer::Shared(2, 1, 0)),
    (Step::Done(7), Answer::Made),
    (Step::Grant(6, 4), Answer::Shared(1, 2, 0)),
    (Step::Done(9), Answer::Made),
    (Step::Sync(3, &[]), Answer::Gave(2, 0)),
    (Step::Sync(4, &[]), Answer::Gave(1, 0)),
    (Step::Sync(3, &[14, 15, 16, 17, 18]), Answer::Gave(0, 0)),
    (Step::SendLong(2, &[14, 10_000, 14]), Answer::Offered(3, 2)),
    (Step::Grant(14, 3), Answer::Shared(1, 2, 0)),
    (Step::Done(15), Answer::Made),
    (Step::Grant(14, 4), Answer::Shared(0, 3, 0)),
];

/// The longest frame takes all 64 slots that a ring of 65 has for it, and never fits in one of 64.
const LONGEST: Asks = &[
    (Step::Enter, Answer::Made),
    (Step::Open(1, "vale0:a", 2, 2, 0), Answer::Opened),
    (Step::Open(1, "vale0:b", 2, 65, 0), Answer::Opened),
    (Step::Open(1, "mon0", 0, 64, 0), Answer::Opened),
    (Step::Watch(4, "vale0:b", Sides::R), Answer::Watching(3)),
    (Step::SendLong(2, &[MAX_FRAME_BYTES]), Answer::Offered(3, 1)),
    (Step::Grant(6, 3), Answer::Shared(1, 0, 0)),
    (Step::Done(7), Answer::Made),
    (Step::Sync(3, &[]), Answer::Gave(1, 1)),
    (Step::Grant(9, 4), Answer::Shared(0, 1, 0)),
    (Step::SendLong(2, &[14]), Answer::Offered(3, 1)),
    (Step::Grant(11, 3), Answer::Shared(0, 1, 0)),
    (
        Step::SendLong(2, &[MAX_FRAME_BYTES + 1]),
        Answer::NotEnabled,
    ),
];

/// The largest rings and batches, by frames and by slots, and larger ones.
const LARGEST: Asks = &[
    (Step::Enter, Answer::Made),
    (Step::Open(1, "vale0:a", MAX_RING, 2, 0), Answer::Opened),
    (Step::Open(1, "vale0:b", 2, MAX_RING, 0), Answer::Opened),
    (
        Step::Open(1, "vale0:c", 2, MAX_RING + 1, 0),
        Answer::Refused(OpenFault::BadSize),
    ),
    (Step::Send(2, 0x0a, MAX_BATCH), Answer::Offered(3, 1)),
    (Step::Grant(5, 3), Answer::Shared(MAX_RING - 1, 0, 0)),
    (Step::Done(6), Answer::Made),
    (Step::Sync(3, &[]), Answer::Gave(MAX_RING - 1, 0)),
    (Step::Send(2, 0x0a, MAX_BATCH + 1), Answer::NotEnabled),
    (
        Step::SendLong(2, &[MAX_FRAME_BYTES; 63]),
        Answer::Offered(3, 1),
    ),
    (Step::Grant(9, 3), Answer::Shared(0, 63, 0)),
    (
        Step::SendLong(2, &[MAX_FRAME_BYTES; 64]),
        Answer::NotEnabled,
    ),
];

/// What finds no room is counted.
const COUNTERS: Asks = &[
    (Step::Enter, Answer::Made),
    (Step::Enter, Answer::Made),
    (Step::Open(1, "vale0:a", 4, 4, 0), Answer::Opened),
    (Step::Open(2, "vale0:b", 2, 2, 0), Answer::Opened),
    (Step::Send(3, 0x0a, 3), Answer::Offered(4, 1)),
    (Step::Grant(5, 4), Answer::Shared(1, 2, 0)),
    (Step::Done(6), Answer::Made),
    (Step::Sync(4, &[]), Answer::Gave(1, 0)),
    (Step::Sync(4, &[12]), Answer::Gave(0, 0)),
    (Step::Stat(4), Answer::Counted(READ)),
];

const READ: Counts = Counts {
    sent: 0,
    short: 0,
    lone: 0,
    given: 1,
    full: 2,
    read: 1,
};

/// Openings that find too few buffers, or ask for sizes out of range.
const OPENINGS: Asks = &[
    (Step::Enter, Answer::Made),
    (Step::Open(1, "vale0:a", 4, 4, 0), Answer::Opened),
    (
        Step::Open(1, "vale0:b", 2, 2, 0),
        Answer::Refused(OpenFault::NoBuffers { want: 4, have: 2 }),
    ),
    (
        Step::Open(1, "vale0:c", 1, 2, 0),
        Answer::Refused(OpenFault::BadSize),
    ),
    (
        Step::Open(1, "vale0:d", 2, 2, 3),
        Answer::Refused(OpenFault::NoBuffers { want: 7, have: 2 }),
    ),
    (
        Step::Open(1, "vale0:e", 2, 2, MAX_EXTRA + 1),
        Answer::Refused(OpenFault::BadSize),
    ),
];

/// Openings under names of all kinds, of which one is taken and one has no switch.
const NAMES: Asks = &[
    (Step::Enter, Answer::Made),
    (Step::Open(1, "vale0:a", 2, 2, 0), Answer::Opened),
    (
        Step::Open(1, "vale0:a", 2, 2, 0),
        Answer::Refused(OpenFault::NameTaken),
    ),
    (Step::Open(1, "pipe0{", 2, 2, 1), Answer::Opened),
    (
        Step::Open(1, "mon0", 2, 2, 0),
        Answer::Refused(OpenFault::BadSize),
    ),
    (Step::Open(1, "vale1:a", 2, 2, 0), Answer::Opened),
    (Step::Open(1, "vale2:a", 2, 2, 0), Answer::Opened),
    (Step::Open(1, "vale3:a", 2, 2, 0), Answer::Opened),
    (
        Step::Open(1, "vale4:a", 2, 2, 0),
        Answer::Refused(OpenFault::SwitchesFull),
    ),
];
