use crate::Run;

/// A big-endian capture with nanoseconds and one record: a broadcast of 14 bytes, cut from 64.
pub const CAPTURE: &[u8] = b"\xa1\xb2\x3c\x4d\0\x02\0\x04\0\0\0\0\0\0\0\0\0\x04\0\0\0\0\0\x01\
    \0\0\0\x01\0\0\0\x02\0\0\0\x0e\0\0\0\x40\xff\xff\xff\xff\xff\xff\x02\0\0\0\0\x0a\x88\xb5";

/// A script that plays the capture, as in.pcap, and saves another one, as out.pcap.
pub const CAPTURE_SCRIPT: &[u8] =
    b"pool 64\nuser a\nuser b\nopen a vale0:a 4 4\nopen b vale0:b 4 4\n\
    play a vale0:a in.pcap 8\nrx b vale0:b\nsave b vale0:b out.pcap\n";

/// The transcript of its run.
pub const CAPTURE_TEXT: &[u8] = b"vale 2 pool 64\n1 enter 1\n2 enter 2\n\
    3 1 open vale0:a 4 4 0 = ok\n4 2 open vale0:b 4 4 0 = ok\n\
    5 1 send 3 ffffffffffff02000000000a88b5 = short 0 lone 0 to 4*1\n\
    6 1 grant 5 4 = given 1 full 0 gone 0\n7 1 done 6\n8 2 sync 4 - = gave 1 to -\n\
    9 1 shut 3\n10 1 finish 3 2-5 found 0 astray 0 = unread 0\n11 1 leave\n\
    12 2 shut 4\n13 2 finish 4 10-14 found 0 astray 0 = unread 0\n14 2 leave\n\
    end 14 free 64\n";

/// The run of that script.
pub const CAPTURE_RUN: Run = Run {
    name: "a capture is played, and one saved",
    script: CAPTURE_SCRIPT,
    text: CAPTURE_TEXT,
};

/// What that run saves: the frame as the first of the eighth entry.
pub const SAVED: &[u8] = b"\xd4\xc3\xb2\xa1\x02\0\x04\0\0\0\0\0\0\0\0\0\0\0\x04\0\x01\0\0\0\
    \x08\0\0\0\0\0\0\0\x0e\0\0\0\x0e\0\0\0\xff\xff\xff\xff\xff\xff\x02\0\0\0\0\x0a\x88\xb5";

/// The capture, cut to each of these lengths.
#[derive(Clone, Copy, Debug)]
pub struct Cut {
    pub from: usize,
    pub to: usize,
    /// The byte at which it is found to be cut, if it is.
    pub truncated: Option<u64>,
    /// How many records are read.
    pub records: usize,
}

/// All lengths: the header is cut, it stands alone, the record is cut, all is there.
pub const CUTS: [Cut; 4] = [
    Cut {
        from: 0,
        to: 23,
        truncated: Some(0),
        records: 0,
    },
    Cut {
        from: 24,
        to: 24,
        truncated: None,
        records: 0,
    },
    Cut {
        from: 25,
        to: 53,
        truncated: Some(24),
        records: 0,
    },
    Cut {
        from: 54,
        to: 54,
        truncated: None,
        records: 1,
    },
];
