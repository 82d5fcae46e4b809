use nm_types::{Limits, Part, StepFault};

/// A script that fills its record.
#[derive(Clone, Copy, Debug)]
pub struct FullRecord {
    pub script: &'static [u8],
    pub limits: Limits,
    /// How it is stopped.
    pub fault: StepFault,
    /// The entries once all have left.
    pub entries: u32,
    /// The pool's free buffers then.
    pub free: u32,
}

/// Two users with a port each have four entries, and six are promised for their leaving; a frame that
/// is sent wants three.
pub const FULL_RECORD: FullRecord = FullRecord {
    script: b"pool 64\nuser a\nuser b\nopen a vale0:a 4 4\nopen b vale0:b 4 4\n\
        put a vale0:a 1 ff:ff:ff:ff:ff:ff 02:00:00:00:00:0a 14 00\ntx a vale0:a\n",
    limits: Limits {
        entries: 12,
        bytes: 1000,
    },
    fault: StepFault::RecordFull {
        what: Part::Entries,
        used: 10,
        want: 3,
    },
    entries: 10,
    free: 64,
};
