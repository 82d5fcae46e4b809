use nm_io::{MemorySink, Sink};
use std::alloc::Global;
use std::io::{self, Print};
use std::time::{Clock, Instant};

/// The bytes of each record's frame.
const FRAME: usize = 1504;

const FEW: u32 = 40;

const MANY: u32 = 44_151;

/// Writes a capture of so many records. Answers whether all was written.
fn write_records<K: Sink>(out: &mut K, count: u32) -> bool {
    let frame = [0x5a; FRAME];
    let mut is_written = pcap_io::write_header(out).is_ok();
    for number in 0..count {
        is_written = is_written && pcap_io::write_record(out, number, 0, &frame).is_ok();
    }
    is_written
}

/// Reads a small capture and prints how many records it has, or, if `is_timed`, one of 64 MiB and
/// also prints megabytes per second.
pub fn run<R: Print + Clock>(rt: &R, alloc: Global, is_timed: bool) -> io::Result<()> {
    let mut sink = MemorySink::new(alloc, Vec::new(alloc));
    if !write_records(&mut sink, if is_timed { MANY } else { FEW }) {
        return Err(io::ErrorKind::OutOfMemory.into());
    }
    let start = Instant::now(rt)?;
    let Ok(records) = pcap_io::read(alloc, sink.bytes()) else {
        return Err(io::ErrorKind::InvalidData.into());
    };
    let took = start.elapsed(rt)?.as_micros().max(1);
    println!(rt; "capture: {} records", records.len())?;
    if is_timed {
        let speed = sink.bytes().len() as u128 / took;
        println!(rt; "capture: {speed} megabytes per second")?;
    }
    Ok(())
}
