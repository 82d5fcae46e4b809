use nm_io::MemorySink;
use pcap_io::{MAX_CAPTURED, PcapFault, read, write_header, write_record};
use std::alloc::{AllocError, Global};
use std::process::Abort;
use std::test::Fail;
use vale_cases::{CAPTURE, CUTS, Cut};

/// A broadcast from 02:00:00:00:00:0a without payload, of a type for local experiments.
const FRAME: &[u8; 14] = b"\xff\xff\xff\xff\xff\xff\x02\0\0\0\0\x0a\x88\xb5";

/// The magic of a big-endian capture with microseconds.
const BIG: [u8; 4] = [0xa1, 0xb2, 0xc3, 0xd4];

/// The magic of a big-endian capture with nanoseconds.
const BIG_NANOSECONDS: [u8; 4] = [0xa1, 0xb2, 0x3c, 0x4d];

/// The magic of a little-endian capture with microseconds.
const LITTLE: [u8; 4] = [0xd4, 0xc3, 0xb2, 0xa1];

/// The magic of a little-endian capture with nanoseconds.
const LITTLE_NANOSECONDS: [u8; 4] = [0x4d, 0x3c, 0xb2, 0xa1];

/// Appends a number in the byte order of this magic.
fn push_number(out: &mut Vec<u8>, magic: [u8; 4], number: u32) -> Result<(), AllocError> {
    if magic[0] == 0xa1 {
        out.extend_from_slice(&number.to_be_bytes())
    } else {
        out.extend_from_slice(&number.to_le_bytes())
    }
}

/// A capture with this magic, version and link, and for each length a record of that many 0x07
/// bytes.
fn capture(
    alloc: Global,
    magic: [u8; 4],
    version: [u8; 4],
    link: u32,
    lens: &[u32],
) -> Result<Vec<u8>, AllocError> {
    let mut out = Vec::from_slice(alloc, &magic)?;
    out.extend_from_slice(&version)?;
    for number in [0, 9, 96, link] {
        push_number(&mut out, magic, number)?;
    }
    for len in lens {
        for number in [5, 6, *len, 1000] {
            push_number(&mut out, magic, number)?;
        }
        for _ in 0..*len {
            out.push(7)?;
        }
    }
    Ok(out)
}

/// A capture has one record, of the frame, with these seconds, this fraction and original length.
fn has_frame(rt: &impl Abort, alloc: Global, bytes: &[u8], numbers: (u32, u32, u32)) {
    let records = read(alloc, bytes).expect(rt, "a capture");
    assert_eq!(rt; records.len(), 1);
    let record = &records[0];
    assert_eq!(rt; (record.seconds, record.fraction, record.original), numbers);
    assert_eq!(rt; record.bytes.as_slice(), FRAME.as_slice());
}

/// The capture, cut to each of these lengths.
fn cut_is_told(rt: &impl Abort, alloc: Global, cut: &Cut) {
    for len in cut.from..=cut.to {
        match read(alloc, &CAPTURE[..len.min(CAPTURE.len())]) {
            Ok(records) => assert!(rt;
                cut.truncated.is_none() && records.len() == cut.records,
                "cut to {len}"
            ),
            Err(fault) => assert!(rt;
                fault
                    == PcapFault::Truncated {
                        offset: cut.truncated.unwrap_or(99)
                    },
                "cut to {len}: {fault:?}"
            ),
        }
    }
}

#[test]
fn capture_read_whole_and_cut(rt: HostRuntime) -> Result<(), Fail> {
    for cut in CUTS {
        cut_is_told(&rt, rt.alloc(), &cut);
    }
    has_frame(&rt, rt.alloc(), CAPTURE, (1, 2, 64));
    Ok(())
}

#[test]
fn captures_of_each_magic(rt: HostRuntime) -> Result<(), Fail> {
    for (magic, version) in [
        (BIG, [0, 2, 0, 4]),
        (BIG_NANOSECONDS, [0, 2, 0, 4]),
        (LITTLE, [2, 0, 4, 0]),
        (LITTLE_NANOSECONDS, [2, 0, 4, 0]),
    ] {
        for lens in [
            [].as_slice(),
            [0, 0].as_slice(),
            [60, 0, 1514].as_slice(),
            [MAX_CAPTURED].as_slice(),
        ] {
            let bytes = capture(rt.alloc(), magic, version, 0xf000_0001, lens)?;
            let records = read(rt.alloc(), bytes.as_slice()).expect(&rt, "a capture");
            assert_eq!(rt; records.len(), lens.len());
            for (record, len) in records.iter().zip(lens) {
                assert_eq!(rt;
                    (record.seconds, record.fraction, record.original),
                    (5, 6, 1000)
                );
                assert_eq!(rt; record.bytes.as_slice().len(), *len as usize);
                assert!(rt; record.bytes.as_slice().iter().all(|byte| *byte == 7));
            }
        }
    }
    Ok(())
}

/// Tells whether a capture with this header and these lengths is refused for this fault.
fn is_refused(
    alloc: Global,
    (magic, version, link): ([u8; 4], [u8; 4], u32),
    lens: &[u32],
    fault: PcapFault,
) -> Result<bool, AllocError> {
    let bytes = capture(alloc, magic, version, link, lens)?;
    Ok(matches!(read(alloc, bytes.as_slice()), Err(found) if found == fault))
}

#[test]
fn bad_headers_refused(rt: HostRuntime) -> Result<(), Fail> {
    for (header, fault) in [
        (
            ([0x0a, 0x0d, 0x0d, 0x0a], [2, 0, 4, 0], 1),
            PcapFault::BadMagic { magic: 0x0a0d_0d0a },
        ),
        (
            ([0xa1, 0xb2, 0xcd, 0x34], [0, 2, 0, 4], 1),
            PcapFault::BadMagic { magic: 0xa1b2_cd34 },
        ),
        (
            (LITTLE, [2, 0, 3, 0], 1),
            PcapFault::BadVersion { major: 2, minor: 3 },
        ),
        (
            (BIG, [1, 2, 0, 4], 2),
            PcapFault::BadVersion {
                major: 258,
                minor: 4,
            },
        ),
    ] {
        let refused = is_refused(rt.alloc(), header, &[], fault)?;
        assert!(rt; refused, "{fault:?}");
    }
    Ok(())
}

#[test]
fn bad_links_and_lengths_refused(rt: HostRuntime) -> Result<(), Fail> {
    for (header, lens, fault) in [
        (
            (BIG, [0, 2, 0, 4], 0xf000_0065),
            [60].as_slice(),
            PcapFault::BadLink { link: 0xf000_0065 },
        ),
        (
            (LITTLE, [2, 0, 4, 0], 0x1_0000),
            [60].as_slice(),
            PcapFault::BadLink { link: 0x1_0000 },
        ),
        (
            (LITTLE, [2, 0, 4, 0], 1),
            [60, MAX_CAPTURED + 1].as_slice(),
            PcapFault::LongRecord {
                offset: 100,
                len: 262_145,
            },
        ),
    ] {
        let refused = is_refused(rt.alloc(), header, lens, fault)?;
        assert!(rt; refused, "{fault:?}");
    }
    Ok(())
}

#[test]
fn captures_written_are_read_again(rt: HostRuntime) -> Result<(), Fail> {
    let whole = b"\xd4\xc3\xb2\xa1\x02\0\x04\0\0\0\0\0\0\0\0\0\0\0\x04\0\x01\0\0\0\
\x03\0\0\0\x09\0\0\0\x0e\0\0\0\x0e\0\0\0\xff\xff\xff\xff\xff\xff\x02\0\0\0\0\x0a\x88\xb5";
    for failing in 1..5 {
        let mut out = MemorySink::new(rt.alloc(), vec![in rt.alloc(); failing]?);
        let written = write_header(&mut out).is_ok() && write_record(&mut out, 3, 9, FRAME).is_ok();
        assert_eq!(rt; written, failing == 4);
        assert!(rt; whole.starts_with(out.bytes()));
        if written {
            assert_eq!(rt; out.bytes(), whole.as_slice());
            has_frame(&rt, rt.alloc(), out.bytes(), (3, 9, 14));
        }
    }
    Ok(())
}
