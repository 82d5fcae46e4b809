//! Captures that are played and saved, and how runs with them end.

pub(super) use vale_cases::{CAPTURE as PLAYED, CAPTURE_SCRIPT as CAPTURE, CAPTURE_TEXT, SAVED};

/// A capture without records.
pub(super) const PLAYED_HEADER: &[u8] =
    b"\xa1\xb2<M\x00\x02\x00\x04\x00\x00\x00\x00\x00\x00\x00\x00\x00\x04\x00\x00\x00\x00\x00\x01";

/// A capture without records, as it is saved.
pub(super) const SAVED_HEADER: &[u8] =
    b"\xd4\xc3\xb2\xa1\x02\x00\x04\x00\x00\x00\x00\x00\x00\x00\x00\x00\x00\x00\x04\x00\x01\x00\x00\x00";

/// A broadcast of 14 bytes, with which the frames of long records begin.
pub(super) const BROADCAST: &[u8] = b"\xff\xff\xff\xff\xff\xff\x02\x00\x00\x00\x00\n\x88\xb5";

/// The head of a record of 5,000 bytes as it is saved: it is the first frame of the eighth entry.
pub(super) const LONG_SAVED: &[u8] =
    b"\x08\x00\x00\x00\x00\x00\x00\x00\x88\x13\x00\x00\x88\x13\x00\x00";

/// A capture is played at a pipe's end, and what the other end reads is saved.
pub(super) const PIPE_CAPTURE: &[u8] =
    b"pool 64\nuser ana\nuser bob\nopen ana pipe0{ 8 8\nopen bob pipe0} 8 8\nplay ana pipe0{ in.pcap 4\nrx bob pipe0}\nsave bob pipe0} out.pcap\n";

/// The lengths of records, a script that plays them, and lines that stand in what it writes.
pub(super) const LONG_RECORDS: &[(&[u32], &[u8], &[u8])] = &[
    // A frame of three slots is read, and its buffers go back.
    (
        &[5000],
        b"pool 64\nuser a\nuser b\nopen a vale0:a 4 4\nopen b vale0:b 4 4\nplay a vale0:a in.pcap 1\nrx b vale0:b\nrx b vale0:b\n",
        b"8 2 sync 4 - = gave 1 to -\n9 2 sync 4 14-16 = gave 0 to -\n",
    ),
    // It finds no room behind a frame of one slot, and never in a ring of three.
    (
        &[60, 5000],
        b"pool 64\nuser a\nuser b\nopen a vale0:a 8 4\nopen b vale0:b 4 4\nplay a vale0:a in.pcap 2\n",
        b"6 1 grant 5 4 = given 1 full 1 gone 0\n7 1 done 6\n",
    ),
    (
        &[5000],
        b"pool 64\nuser a\nuser b\nopen a vale0:a 4 4\nopen b vale0:b 4 3\nplay a vale0:a in.pcap 1\n",
        b"6 1 grant 5 4 = given 0 full 1 gone 0\n7 1 shut 3\n",
    ),
    // The longest frame takes 64 slots; where the transmit ring never has as many, it is not put.
    (
        &[131_072],
        b"pool 256\nuser a\nuser b\nopen a vale0:a 65 4\nopen b vale0:b 4 66\nplay a vale0:a in.pcap 1\nrx b vale0:b\nrx b vale0:b\n",
        b"8 2 sync 4 - = gave 1 to -\n9 2 sync 4 75-138 = gave 0 to -\n",
    ),
    (
        &[131_072],
        b"pool 256\nuser a\nuser b\nopen a vale0:a 64 4\nopen b vale0:b 4 66\nplay a vale0:a in.pcap 1\n",
        b"5 1 send 3 - = short 0 lone 0 to -\n6 1 shut 3\n",
    ),
    // A longer record is passed over.
    (
        &[131_073, 14],
        b"pool 64\nuser a\nuser b\nopen a vale0:a 4 4\nopen b vale0:b 4 4\nplay a vale0:a in.pcap 1\n",
        b"5 1 send 3 ffffffffffff02000000000a88b5 = short 0 lone 0 to 4*1\n6 1 grant 5 4 = given 1 full 0 gone 0\n7 1 done 6\n8 1 shut 3\n",
    ),
    // A frame of three slots is forwarded whole, or not at all.
    (
        &[5000],
        b"pool 64\nuser a\nuser b\nopen a vale0:a 4 4\nopen b vale0:b 4 4\nopen b vale1:b 4 4\nplay a vale0:a in.pcap 1\nrx b vale0:b\nfwd b vale0:b vale1:b 9\ntx b vale1:b\n",
        b" = short 0 lone 1 to -\n11 1 shut 3\n",
    ),
    (
        &[5000],
        b"pool 64\nuser a\nuser b\nopen a vale0:a 4 4\nopen b vale0:b 4 4\nopen b vale1:b 3 4\nplay a vale0:a in.pcap 1\nrx b vale0:b\nfwd b vale0:b vale1:b 9\ntx b vale1:b\n",
        b"9 2 sync 4 - = gave 1 to -\n10 2 send 5 - = short 0 lone 0 to -\n",
    ),
    // What is forwarded is counted in frames.
    (
        &[5000, 14],
        b"pool 64\nuser a\nuser b\nopen a vale0:a 8 4\nopen b vale0:b 4 8\nopen b vale1:b 8 4\nplay a vale0:a in.pcap 2\nrx b vale0:b\nfwd b vale0:b vale1:b 1\ntx b vale1:b\nfwd b vale0:b vale1:b 1\ntx b vale1:b\n",
        b" = short 0 lone 1 to -\n11 2 send 5 ffffffffffff02000000000a88b5 = short 0 lone 1 to -\n",
    ),
    // A monitor of what is sent has no room for it.
    (
        &[5000],
        b"pool 64\nuser a\nuser b\nuser m\nopen a vale0:a 4 4\nopen b vale0:b 4 4\nopen m mon0 0 3\nwatch m mon0 vale0:a t\nplay a vale0:a in.pcap 1\n",
        b"9 1 grant 8 5 = given 1 full 0 gone 0\n10 1 done 9\n11 1 grant 8 6 = given 0 full 1 gone 0\n12 1 shut 4\n",
    ),
    // A monitor of what is read is given it in as many slots.
    (
        &[5000],
        b"pool 64\nuser a\nuser b\nuser m\nopen a vale0:a 4 4\nopen b vale0:b 4 4\nopen m mon0 0 4\nwatch m mon0 vale0:b r\nplay a vale0:a in.pcap 1\nrx b vale0:b\nrx m mon0\nrx m mon0\n",
        b"11 2 sync 5 - = gave 1 to 6*1\n12 2 grant 11 6 = given 1 full 0 gone 0\n13 2 done 12\n14 3 sync 6 - = gave 1 to -\n15 3 sync 6 18-20 = gave 0 to -\n",
    ),
    // Nobody reads it: it is one frame.
    (
        &[5000],
        b"pool 64\nuser a\nuser b\nopen a vale0:a 4 4\nopen b vale0:b 4 4\nplay a vale0:a in.pcap 1\nclose b vale0:b\n",
        b"8 2 shut 4\n9 2 finish 4 10-13 found 0 astray 0 = unread 1\n",
    ),
];

/// A script, the capture that it plays, and what it saves.
pub(super) const SAVED_CAPTURES: &[(&[u8], &[u8], &[u8])] = &[
    // A capture with nanoseconds, and one without records.
    (CAPTURE, PLAYED, SAVED),
    (CAPTURE, PLAYED_HEADER, SAVED_HEADER),
    // Four frames through a pipe: tcpdump wrote the capture, as examples/README.md says.
    (
        PIPE_CAPTURE,
        b"\xd4\xc3\xb2\xa1\x02\x00\x04\x00\x00\x00\x00\x00\x00\x00\x00\x00\x00\x00\x04\x00\x01\x00\x00\x00\xe9\xfa\nk\x89\x8a\n\x00*\x00\x00\x00*\x00\x00\x00\xff\xff\xff\xff\xff\xff\x02\x00\x00\x00\x00\n\x08\x06\x00\x01\x08\x00\x06\x04\x00\x01\x02\x00\x00\x00\x00\n\xc63d\x01\x00\x00\x00\x00\x00\x00\xc63d\x02\xe9\xfa\nk\x9a\x8a\n\x00*\x00\x00\x00*\x00\x00\x00\x02\x00\x00\x00\x00\n\x02\x00\x00\x00\x00\x0b\x08\x06\x00\x01\x08\x00\x06\x04\x00\x02\x02\x00\x00\x00\x00\x0b\xc63d\x02\x02\x00\x00\x00\x00\n\xc63d\x01\xe9\xfa\nk\x9c\x8a\n\x007\x00\x00\x007\x00\x00\x00\x02\x00\x00\x00\x00\x0b\x02\x00\x00\x00\x00\n\x08\x00E\x00\x00):\xa9@\x00@\x11\xab\xb0\xc63d\x01\xc63d\x02\xb2\xa3\x00\x09\x00\x15T\x91hello, valley\xe9\xfa\nk\xbb\x8a\n\x00S\x00\x00\x00S\x00\x00\x00\x02\x00\x00\x00\x00\n\x02\x00\x00\x00\x00\x0b\x08\x00E\xc0\x00E\xe4\xd1\x00\x00@\x01@\xbc\xc63d\x02\xc63d\x01\x03\x03Jc\x00\x00\x00\x00E\x00\x00):\xa9@\x00@\x11\xab\xb0\xc63d\x01\xc63d\x02\xb2\xa3\x00\x09\x00\x15T\x91hello, valley",
        b"\xd4\xc3\xb2\xa1\x02\x00\x04\x00\x00\x00\x00\x00\x00\x00\x00\x00\x00\x00\x04\x00\x01\x00\x00\x00\x06\x00\x00\x00\x00\x00\x00\x00*\x00\x00\x00*\x00\x00\x00\xff\xff\xff\xff\xff\xff\x02\x00\x00\x00\x00\n\x08\x06\x00\x01\x08\x00\x06\x04\x00\x01\x02\x00\x00\x00\x00\n\xc63d\x01\x00\x00\x00\x00\x00\x00\xc63d\x02\x06\x00\x00\x00\x01\x00\x00\x00*\x00\x00\x00*\x00\x00\x00\x02\x00\x00\x00\x00\n\x02\x00\x00\x00\x00\x0b\x08\x06\x00\x01\x08\x00\x06\x04\x00\x02\x02\x00\x00\x00\x00\x0b\xc63d\x02\x02\x00\x00\x00\x00\n\xc63d\x01\x06\x00\x00\x00\x02\x00\x00\x007\x00\x00\x007\x00\x00\x00\x02\x00\x00\x00\x00\x0b\x02\x00\x00\x00\x00\n\x08\x00E\x00\x00):\xa9@\x00@\x11\xab\xb0\xc63d\x01\xc63d\x02\xb2\xa3\x00\x09\x00\x15T\x91hello, valley\x06\x00\x00\x00\x03\x00\x00\x00S\x00\x00\x00S\x00\x00\x00\x02\x00\x00\x00\x00\n\x02\x00\x00\x00\x00\x0b\x08\x00E\xc0\x00E\xe4\xd1\x00\x00@\x01@\xbc\xc63d\x02\xc63d\x01\x03\x03Jc\x00\x00\x00\x00E\x00\x00):\xa9@\x00@\x11\xab\xb0\xc63d\x01\xc63d\x02\xb2\xa3\x00\x09\x00\x15T\x91hello, valley",
    ),
];

/// Captures with a wrong number, how many of their bytes are there, and the lines that tell it.
pub(super) const BAD_CAPTURES: &[(&[u8], usize, &[u8])] = &[
    // The first bytes of the format that is not the classic one.
    (b"\n\x0d\x0d\n", 4, b"vale: in.pcap: byte 0: magic\n"),
    // The version 2.3, the link 101, a record that is one byte too long.
    (
        b"\xa1\xb2<M\x00\x02\x00\x03\x00\x00\x00\x00\x00\x00\x00\x00\x00\x04\x00\x00\x00\x00\x00\x01",
        24,
        b"vale: in.pcap: byte 4: version\n",
    ),
    (
        b"\xa1\xb2<M\x00\x02\x00\x04\x00\x00\x00\x00\x00\x00\x00\x00\x00\x04\x00\x00\x00\x00\x00e",
        24,
        b"vale: in.pcap: byte 20: link\n",
    ),
    (
        b"\xa1\xb2<M\x00\x02\x00\x04\x00\x00\x00\x00\x00\x00\x00\x00\x00\x04\x00\x00\x00\x00\x00\x01\x00\x00\x00\x01\x00\x00\x00\x02\x00\x04\x00\x01\x00\x04\x00\x01",
        40,
        b"vale: in.pcap: byte 24: record\n",
    ),
];

/// The first bytes of a capture, how many it has with the zeros behind them, a script that plays
/// it, and the line that tells that it is too large.
pub(super) const LARGE_CAPTURES: &[(&[u8], usize, &[u8], &[u8])] = &[
    (
        b"",
        67_108_865,
        CAPTURE,
        b"vale: inputs 67108865 over 67108864\n",
    ),
    (
        PLAYED_HEADER,
        8_000_040,
        // The same capture in two lines.
        b"user a\nopen a vale0:a 4 4\nplay a vale0:a in.pcap 8\nplay a vale0:a in.pcap 8\n",
        b"vale: frames 1000002 over 1000000\n",
    ),
];

/// Two captures are saved, the second without frames.
pub(super) const TWO_SAVED: &[u8] =
    b"pool 64\nuser a\nuser b\nopen a vale0:a 4 4\nopen b vale0:b 4 4\nplay a vale0:a in.pcap 8\nrx b vale0:b\nsave b vale0:b out.pcap\nsave a vale0:a other.pcap\n";
