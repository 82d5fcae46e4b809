ghost use Rattle.std.specs.Prelude.{◌≡◌, ◌≤◌, length, OnErr};
ghost use Rattle.nm_io.specs.Counts.{Rose};
ghost use Rattle.nm_io.specs.Held.{Writes};
ghost use Rattle.pcap_io.specs.Limits.{most_captured};
ghost use Rattle.pcap_io.specs.Written.{head_text, header_text, record_text};

use byteorder::{ByteOrder, LittleEndian};
use nm_io::{Failed, Sink, put_all};

/// Little-endian, microseconds, version 2.4, no time zone, at most 262,144 bytes a record,
/// Ethernet.
const HEADER: [u8; 24] = [
    0xd4, 0xc3, 0xb2, 0xa1, 2, 0, 4, 0, 0, 0, 0, 0, 0, 0, 0, 0, 0, 0, 4, 0, 1, 0, 0, 0,
];

/// The header of a capture, as it is written.
pub fn header() -> [u8; 24]
    ensures { result ≡ header_text }
{
    HEADER
}

/// Writes the header of a capture. If it fails, a prefix of the header was written.
pub fn write_header<K: Sink>(out: &mut K) -> Result<(), Failed>
    ensures writes { Writes (K.holds out.old) (K.holds out.new) result header_text }
    ensures later { K.faults out.old ≤ K.faults out.new }
    ensures cause { OnErr result (Rose (K.faults out.old) (K.faults out.new)) }
{
    put_all(out, &HEADER)
}

/// Writes a record of a capture. All of the frame's `bytes` are captured; `fraction` is in
/// microseconds. If it fails, a prefix of the record was written.
#[tactic(auto, using(nm_io::proofs::Growth::writing))]
pub fn write_record<K: Sink>(
    out: &mut K,
    seconds: u32,
    fraction: u32,
    bytes: &[u8],
) -> Result<(), Failed>
    requires { length bytes.now ≤ most_captured }
    ensures writes { Writes (K.holds out.old) (K.holds out.new) result
        (record_text seconds fraction bytes.now) }
    ensures later { K.faults out.old ≤ K.faults out.new }
    ensures cause { OnErr result (Rose (K.faults out.old) (K.faults out.new)) }
{
    put_all(out, &record_head(seconds, fraction, bytes.len() as u32))?;
    put_all(out, bytes)
}

/// The four numbers before a record's captured bytes, of which there are `len`: all that the frame
/// has. `fraction` is in microseconds.
#[tactic(auto, unfolding(crate::specs::Written::head_text))]
pub fn record_head(seconds: u32, fraction: u32, len: u32) -> [u8; 16]
    ensures { result ≡ head_text seconds fraction len }
{
    let mut head = [0; 16];
    LittleEndian::write_u32(&mut head[..4], seconds);
    LittleEndian::write_u32(&mut head[4..8], fraction);
    LittleEndian::write_u32(&mut head[8..12], len);
    LittleEndian::write_u32(&mut head[12..], len);
    head
}
