/// The smallest ring, in slots.
pub const MIN_RING: u32 = 2;
/// The largest ring, in slots.
pub const MAX_RING: u32 = 4096;
/// The most extra buffers of a port.
pub const MAX_EXTRA: u32 = 1024;
/// The most buffers of a pool.
pub const MAX_POOL: u32 = 262_144;
/// The buffers of a pool whose script names no number.
pub const DEFAULT_POOL: u32 = 8192;
/// The bytes of a buffer.
pub const BUFFER_BYTES: usize = 2048;
/// The most frames of a batch: one slot of the largest ring always stays with the kernel side.
pub const MAX_BATCH: usize = 4095;
/// The most bytes of one frame.
pub const MAX_FRAME_BYTES: usize = 131_072;
/// The most slots that one frame takes.
pub const MAX_FRAME_SLOTS: u32 = 64;
/// The most switches.
pub const MAX_SWITCHES: usize = 4;
/// The most ports of one switch.
pub const MAX_SWITCH_PORTS: usize = 254;
/// The most pipe ends.
pub const MAX_PIPE_ENDS: usize = 32;
/// The most monitors.
pub const MAX_MONITORS: usize = 32;
/// The most ports of all kinds at once.
pub const MAX_PORTS: usize = MAX_SWITCHES * MAX_SWITCH_PORTS + MAX_PIPE_ENDS + MAX_MONITORS;
/// The most bytes of a name.
pub const NAME_BYTES: usize = 16;
/// The buckets of a learning table.
pub const BUCKETS: usize = 1024;
/// The most bytes of a transcript's text that is read.
pub const MAX_TEXT: u64 = 268_435_456;
/// The most users of a script.
pub const MAX_USERS: usize = 64;
/// The most bytes of a script.
pub const MAX_SCRIPT_BYTES: u64 = 1_048_576;
/// The most lines of a script.
pub const MAX_SCRIPT_LINES: u64 = 10_000;
/// The most frames that the counts of a script's lines may add up to.
pub const MAX_COUNTS: u64 = 1_000_000;
/// The most bytes of all captures that a script plays, each counted once.
pub const MAX_CAPTURE_BYTES: u64 = 67_108_864;
/// The most frames that a script plays from captures.
pub const MAX_PLAYED: u64 = 1_000_000;

/// How much a record holds.
#[derive(Clone, Copy, Debug, PartialEq, Eq)]
pub struct Limits {
    /// The most entries, stored and promised.
    pub entries: u64,
    /// The most bytes of frames stored.
    pub bytes: u64,
}

impl Limits {
    /// The limits of a record with a transcript of version 1.
    pub const VERSION_1: Limits = Limits {
        entries: 8_388_608,
        bytes: 536_870_912,
    };

    /// The limits of every run, and of a record with a transcript of version 2.
    pub const VERSION_2: Limits = Limits {
        entries: 16_777_216,
        bytes: 1_073_741_824,
    };
}
