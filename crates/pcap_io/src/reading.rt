ghost use Rattle.std.specs.Prelude.{◌≡◌, ◌+◌, ◌≤◌, length, drop, None, Some, Ok, Err};
ghost use Rattle.std.specs.Prelude.{IfOk, IfErr, OnOk, MatchResult};
ghost use Rattle.pcap_io.specs.Limits.{header_bytes, head_bytes};
ghost use Rattle.pcap_io.specs.Capture.{number_in, order_of, BeginsWith, AreRecords};
ghost use Rattle.pcap_io.specs.Capture.{IsCapture, BeginsWithHeader};
ghost use Rattle.pcap_io.specs.Faults.{record_size, fault_from, header_fault, first_fault};
ghost use Rattle.pcap_io.specs.Faults.{fault_past_magic, Blames};

use crate::order::Order;
use crate::{Bytes, MAX_CAPTURED, PcapFault, Record};
use byteorder::{BigEndian, ByteOrder, LittleEndian};
use std::alloc::Global;

/// The bytes of a capture's header.
pub(crate) const HEADER_LEN: usize = 24;

/// The bytes of a record before its captured ones.
pub(crate) const HEAD_LEN: usize = 16;

/// Ethernet, in the low half of the link field.
const ETHERNET: u32 = 1;

/// Reads a whole capture: its records, or the first fault of its bytes in the order of reading.
#[tactic(auto, using(crate::proofs::Captures::captures))]
pub fn read(alloc: Global, bytes: &[u8]) -> Result<Vec<Record>, PcapFault>
    ensures ok { IfOk result (λ records. IsCapture bytes.now records.items) }
    ensures bad { IfErr result (Blames (first_fault bytes.now)) }
{
    if bytes.len() < 4 {
        return Err(PcapFault::Truncated { offset: 0 });
    }
    let magic = BigEndian::read_u32(bytes);
    match order_of(magic) {
        Some(order) => read_in(alloc, order, bytes),
        None => Err(PcapFault::BadMagic { magic }),
    }
}

/// The byte order that a magic number chooses.
fn order_of(magic: u32) -> Option<Order>
    ensures { result ≡ order_of magic }
{
    match magic {
        0xa1b2_c3d4 | 0xa1b2_3c4d => Some(Order::Big),
        0xd4c3_b2a1 | 0x4d3c_b2a1 => Some(Order::Little),
        _ => None,
    }
}

/// Reads a capture whose magic chose `order`.
fn read_in(alloc: Global, order: Order, bytes: &[u8]) -> Result<Vec<Record>, PcapFault>
    ensures header { OnOk result (BeginsWithHeader (number_in order) bytes.now) }
    ensures body { IfOk result
        (λ records. AreRecords (number_in order) (drop header_bytes bytes.now) records.items) }
    ensures bad { IfErr result (Blames (fault_past_magic (number_in order) bytes.now)) }
{
    match order {
        Order::Big => read_past_magic::<BigEndian>(alloc, bytes),
        Order::Little => read_past_magic::<LittleEndian>(alloc, bytes),
    }
}

/// Reads a capture with a good magic, whose numbers are in the order `T`.
#[tactic(auto, using(crate::proofs::Records::records, crate::proofs::Headers::headers))]
fn read_past_magic<T: ByteOrder>(alloc: Global, bytes: &[u8]) -> Result<Vec<Record>, PcapFault>
    ensures header { OnOk result (BeginsWithHeader T.number_of bytes.now) }
    ensures body { IfOk result
        (λ records. AreRecords T.number_of (drop header_bytes bytes.now) records.items) }
    ensures bad { IfErr result (Blames (fault_past_magic T.number_of bytes.now)) }
{
    if bytes.len() < HEADER_LEN {
        return Err(PcapFault::Truncated { offset: 0 });
    }
    check_header::<T>(bytes)?;
    read_records::<T>(alloc, bytes)
}

/// Checks the version and the link of a header.
fn check_header<T: ByteOrder>(bytes: &[u8]) -> Result<(), PcapFault>
    requires { header_bytes ≤ length bytes.now }
    ensures { MatchResult result (λ _. header_fault T.number_of bytes.now ≡ None)
        (λ fault. header_fault T.number_of bytes.now ≡ Some fault) }
{
    let major = T::read_u16(&bytes[4..]);
    let minor = T::read_u16(&bytes[6..]);
    if major != 2 || minor != 4 {
        return Err(PcapFault::BadVersion { major, minor });
    }
    let link = T::read_u32(&bytes[20..]);
    if link % (1 << 16) != ETHERNET {
        return Err(PcapFault::BadLink { link });
    }
    Ok(())
}

/// Reads the records after the header.
#[tactic(auto, using(crate::proofs::Records::records, crate::proofs::Headers::headers))]
fn read_records<T: ByteOrder>(alloc: Global, bytes: &[u8]) -> Result<Vec<Record>, PcapFault>
    requires { header_bytes ≤ length bytes.now }
    ensures ok { IfOk result
        (λ records. AreRecords T.number_of (drop header_bytes bytes.now) records.items) }
    ensures bad { IfErr result
        (Blames (fault_from T.number_of header_bytes (drop header_bytes bytes.now))) }
{
    let mut records = Vec::new(alloc);
    let mut rest = bytes.split_at(HEADER_LEN).1;
    'records: while !rest.is_empty() {
        let offset = (bytes.len() - rest.len()) as u64;
        let size = record_size::<T>(offset, rest)?;
        records.push(read_record::<T>(alloc, rest, size)?)?;
        rest = rest.split_at(size).1;
    }
    Ok(records)
}

/// The size in bytes of the record that `text` begins with; `offset` is where it is in the capture.
fn record_size<T: ByteOrder>(offset: u64, text: &[u8]) -> Result<usize, PcapFault>
    ensures { result ≡ record_size T.number_of offset text.now }
{
    if text.len() < HEAD_LEN {
        return Err(PcapFault::Truncated { offset });
    }
    let len = T::read_u32(&text[8..]);
    if len > MAX_CAPTURED {
        return Err(PcapFault::LongRecord { offset, len });
    }
    let size = HEAD_LEN + len as usize;
    if text.len() < size {
        return Err(PcapFault::Truncated { offset });
    }
    Ok(size)
}

/// Reads the record that `text` begins with, of `size` bytes.
fn read_record<T: ByteOrder>(alloc: Global, text: &[u8], size: usize) -> Result<Record, PcapFault>
    requires head { head_bytes ≤ length text.now }
    requires whole { size ≤ length text.now }
    requires size { size ≡ head_bytes + T.number_of 4 (drop 8 text.now) }
    requires limit { size ≤ head_bytes + MAX_CAPTURED }
    ensures ok { IfOk result
        (λ r. BeginsWith T.number_of text.now r × (size ≡ head_bytes + length r.bytes)) }
    ensures err { IfErr result (λ fault. fault ≡ PcapFault.NoMemory) }
{
    let bytes = Vec::from_slice(alloc, &text[HEAD_LEN..size])?;
    Ok(Record {
        seconds: T::read_u32(text),
        fraction: T::read_u32(&text[4..]),
        original: T::read_u32(&text[12..]),
        bytes: Bytes::from(bytes),
    })
}
