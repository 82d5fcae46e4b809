//! How a run ends.
ghost use Rattle.std.specs.Prelude.{◌≡◌, ◌≤◌, OnErr};
ghost use Rattle.nm_io.specs.Counts.{Rose};
ghost use Rattle.nm_io.specs.Held.{Writes};
ghost use Rattle.vale_show.specs.Status.{code_of, status_text, Reports};

use nm_io::{Failed, Sink, put_all};
use vale_strip::{Part, put_parts};

/// How a run ended.
#[derive(Drop)]
pub(crate) enum Status {
    /// All was written.
    Done,
    /// The words ask for nothing.
    Usage,
    /// The transcript was not read.
    ReadFault { name: String },
    /// What was asked for was not written whole.
    WriteFault,
    /// The transcript has more bytes than are read.
    TooLong,
    /// Out of memory.
    NoMemory,
    /// The first line of a file that is no line of a transcript, counted from 1.
    BadText { name: String, line: u32 },
}

impl Status {
    /// The status with which the process ends.
    fn code(&self) -> u8
        ensures { result ≡ code_of self.now }
    {
        match self {
            Status::Done => 0,
            Status::Usage => 2,
            Status::ReadFault { .. } => 4,
            Status::WriteFault => 5,
            Status::TooLong => 7,
            Status::NoMemory => 8,
            Status::BadText { .. } => 9,
        }
    }
}

/// Writes the one line that says how a run ended, or nothing if all was written.
#[tactic(auto, unfolding(crate::specs::Status::usage_line, crate::specs::Status::read_fault_line, crate::specs::Status::write_fault_line, crate::specs::Status::too_long_line, crate::specs::Status::no_memory_line, crate::specs::Status::bad_text_line))]
fn put_status<K: Sink>(out: &mut K, status: &Status) -> Result<(), Failed>
    ensures writes { Writes (K.holds out.old) (K.holds out.new) result (status_text status.now) }
    ensures later { K.faults out.old ≤ K.faults out.new }
    ensures cause { OnErr result (Rose (K.faults out.old) (K.faults out.new)) }
{
    match status {
        Status::Done => put_all(out, b""),
        Status::Usage => put_all(out, b"usage: vale_show FILE [ports | frame ENTRY PLACE]\n"),
        Status::ReadFault { name } => put_parts(
            out,
            &[
                Part::Text(b"vale_show: cannot read "),
                Part::Text(name.as_bytes()),
                Part::Text(b"\n"),
            ],
        ),
        Status::WriteFault => put_all(out, b"vale_show: cannot write\n"),
        Status::TooLong => put_all(out, b"vale_show: text 268435457 over 268435456\n"),
        Status::NoMemory => put_all(out, b"vale_show: no memory\n"),
        Status::BadText { name, line } => put_parts(
            out,
            &[
                Part::Text(b"vale_show: "),
                Part::Text(name.as_bytes()),
                Part::Text(b": line "),
                Part::Number(*line as u64),
                Part::Text(b"\n"),
            ],
        ),
    }
}

/// Writes the line that says how a run ended, and answers the status of the process. A line that
/// cannot be written changes no status.
pub(crate) fn report<K: Sink>(err: &mut K, status: &Status) -> u8
    ensures code { result ≡ code_of status.now }
    ensures line { Reports (K.faults err.old, K.faults err.new) (K.holds err.old) (K.holds err.new)
        (status_text status.now) }
{
    let _ = put_status(err, status);
    status.code()
}
