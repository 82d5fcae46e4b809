//! How a run ends.
ghost use Rattle.std.specs.Prelude.{◌≡◌, ◌≤◌, List, ℕ, OnErr};
ghost use Rattle.nm_io.specs.Counts.{Rose};
ghost use Rattle.nm_io.specs.Held.{Writes};
ghost use Rattle.vale_run.specs.Status.{code_of, cause_text, capture_text, offset_of, what_text, bad_capture_line, bad_text_line, over_line, status_text, Reports};

use nm_io::{Failed, Sink, put_all};
use nm_types::LineCause;
use pcap_io::PcapFault;
use vale_strip::{Part, put_parts};

/// What passed its limit.
#[derive(Clone, Copy, Debug, PartialEq, Eq)]
pub enum What {
    /// The script's bytes.
    Script,
    /// The script's lines.
    Lines,
    /// The frames that its lines put, and those that they forward at most.
    Counts,
    /// The bytes of all captures that it plays.
    Inputs,
    /// The frames of captures that its lines play.
    Frames,
    /// The entries of a history, stored and promised.
    Entries,
    /// The bytes of the frames that a history keeps.
    Bytes,
    /// The bytes of a transcript that is migrated.
    Text,
}

/// How a run ended.
#[derive(Drop)]
pub enum Status {
    /// The whole transcript was written.
    Done,
    /// The words are no command.
    Usage,
    /// The first bad line of the script, counted from 1, and why it is bad.
    BadScript {
        line: u32,
        cause: LineCause,
    },
    /// A file was not read.
    ReadFault {
        name: String,
    },
    /// The transcript, or a capture that is saved, was not written whole.
    WriteFault,
    /// A file that the script plays is no capture: where, in bytes from its start, and why.
    BadPcap {
        name: String,
        offset: u64,
        cause: PcapFault,
    },
    /// A quantity passed its limit; `count` is what it would have come to.
    Over {
        what: What,
        count: u64,
        limit: u64,
    },
    /// Out of memory.
    NoMemory,
    /// The first line of a file that is no line of a transcript, counted from 1.
    BadText {
        name: String,
        line: u32,
    },
}

fn cause_text(cause: LineCause) -> &'static [u8]
    ensures { result.now ≡ cause_text cause }
{
    match cause {
        LineCause::Word => b"word",
        LineCause::Count => b"count",
        LineCause::Number => b"number",
        LineCause::Name => b"name",
        LineCause::User => b"user",
        LineCause::Port => b"port",
        LineCause::Order => b"order",
        LineCause::Twice => b"twice",
    }
}

fn what_text(what: What) -> &'static [u8]
    ensures { result.now ≡ what_text what }
{
    match what {
        What::Script => b"script",
        What::Lines => b"lines",
        What::Counts => b"counts",
        What::Inputs => b"inputs",
        What::Frames => b"frames",
        What::Entries => b"entries",
        What::Bytes => b"bytes",
        What::Text => b"text",
    }
}

fn capture_text(cause: PcapFault) -> &'static [u8]
    ensures { result.now ≡ capture_text cause }
{
    match cause {
        PcapFault::BadMagic { .. } => b"magic",
        PcapFault::BadVersion { .. } => b"version",
        PcapFault::BadLink { .. } => b"link",
        PcapFault::LongRecord { .. } => b"record",
        PcapFault::Truncated { .. } => b"truncated",
        PcapFault::NoMemory => b"",
    }
}

/// The byte of a capture at which something is wrong.
pub(crate) fn offset_of(cause: PcapFault) -> u64
    ensures { result ≡ offset_of cause }
{
    match cause {
        PcapFault::BadMagic { .. } => 0,
        PcapFault::BadVersion { .. } => 4,
        PcapFault::BadLink { .. } => 20,
        PcapFault::LongRecord { offset, .. } | PcapFault::Truncated { offset } => offset,
        PcapFault::NoMemory => 0,
    }
}

impl Status {
    /// The status with which the process ends.
    pub fn code(&self) -> u8
        ensures { result ≡ code_of self.now }
    {
        match self {
            Status::Done => 0,
            Status::Usage => 2,
            Status::BadScript { .. } => 3,
            Status::ReadFault { .. } => 4,
            Status::WriteFault => 5,
            Status::BadPcap { .. } => 6,
            Status::Over { .. } => 7,
            Status::NoMemory => 8,
            Status::BadText { .. } => 9,
        }
    }
}

#[tactic(auto, unfolding(crate::specs::Status::over_line))]
fn put_over<K: Sink>(out: &mut K, what: What, count: u64, limit: u64) -> Result<(), Failed>
    ensures writes { Writes (K.holds out.old) (K.holds out.new) result
        (over_line (what_text what) count limit) }
    ensures later { K.faults out.old ≤ K.faults out.new }
    ensures cause { OnErr result (Rose (K.faults out.old) (K.faults out.new)) }
{
    put_parts(
        out,
        &[
            Part::Text(b"vale: "),
            Part::Text(what_text(what)),
            Part::Text(b" "),
            Part::Number(count),
            Part::Text(b" over "),
            Part::Number(limit),
            Part::Text(b"\n"),
        ],
    )
}

#[tactic(auto, unfolding(crate::specs::Status::bad_capture_line))]
fn put_bad_capture<K: Sink>(
    out: &mut K,
    name: &str,
    offset: u64,
    cause: PcapFault,
) -> Result<(), Failed>
    ensures writes { Writes (K.holds out.old) (K.holds out.new) result
        (bad_capture_line name.now offset (capture_text cause)) }
    ensures later { K.faults out.old ≤ K.faults out.new }
    ensures cause { OnErr result (Rose (K.faults out.old) (K.faults out.new)) }
{
    put_parts(
        out,
        &[
            Part::Text(b"vale: "),
            Part::Text(name.as_bytes()),
            Part::Text(b": byte "),
            Part::Number(offset),
            Part::Text(b": "),
            Part::Text(capture_text(cause)),
            Part::Text(b"\n"),
        ],
    )
}

#[tactic(auto, unfolding(crate::specs::Status::bad_text_line))]
fn put_bad_text<K: Sink>(out: &mut K, name: &str, line: u32) -> Result<(), Failed>
    ensures writes { Writes (K.holds out.old) (K.holds out.new) result (bad_text_line name.now line) }
    ensures later { K.faults out.old ≤ K.faults out.new }
    ensures cause { OnErr result (Rose (K.faults out.old) (K.faults out.new)) }
{
    put_parts(
        out,
        &[
            Part::Text(b"vale: "),
            Part::Text(name.as_bytes()),
            Part::Text(b": line "),
            Part::Number(line as u64),
            Part::Text(b"\n"),
        ],
    )
}

/// Writes the one line that says how a run ended, or nothing if all was written.
#[tactic(auto, unfolding(crate::specs::Status::usage_line, crate::specs::Status::bad_script_line, crate::specs::Status::read_fault_line, crate::specs::Status::write_fault_line, crate::specs::Status::over_line, crate::specs::Status::no_memory_line))]
fn put_status<K: Sink>(out: &mut K, status: &Status) -> Result<(), Failed>
    ensures writes { Writes (K.holds out.old) (K.holds out.new) result (status_text status.now) }
    ensures later { K.faults out.old ≤ K.faults out.new }
    ensures cause { OnErr result (Rose (K.faults out.old) (K.faults out.new)) }
{
    match status {
        Status::Done => put_all(out, b""),
        Status::Usage => put_all(
            out,
            b"usage: vale run SCRIPT | vale load N | vale migrate FILE\n",
        ),
        Status::BadScript { line, cause } => put_parts(
            out,
            &[
                Part::Text(b"vale: script line "),
                Part::Number(*line as u64),
                Part::Text(b": "),
                Part::Text(cause_text(*cause)),
                Part::Text(b"\n"),
            ],
        ),
        Status::ReadFault { name } => put_parts(
            out,
            &[
                Part::Text(b"vale: cannot read "),
                Part::Text(name.as_bytes()),
                Part::Text(b"\n"),
            ],
        ),
        Status::WriteFault => put_all(out, b"vale: cannot write\n"),
        Status::BadPcap {
            name,
            offset,
            cause,
        } => put_bad_capture(out, name.as_str(), *offset, *cause),
        Status::Over { what, count, limit } => put_over(out, *what, *count, *limit),
        Status::NoMemory => put_all(out, b"vale: no memory\n"),
        Status::BadText { name, line } => put_bad_text(out, name.as_str(), *line),
    }
}

/// Writes the line that says how a run ended, and answers the status of the process. A line that
/// cannot be written changes no status.
pub fn report<K: Sink>(err: &mut K, status: &Status) -> u8
    ensures code { result ≡ code_of status.now }
    ensures line { Reports (K.faults err.old, K.faults err.new) (K.holds err.old) (K.holds err.new)
        (status_text status.now) }
{
    let _ = put_status(err, status);
    status.code()
}
