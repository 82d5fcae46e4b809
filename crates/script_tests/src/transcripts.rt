use nm_io::{MemorySink, Sink, put_all};
use nm_types::{OpenFault, SyncFault};
use std::alloc::Global;
use std::process::Abort;
use vale_entry::{Ask, Entry, Reply};
use vale_text::{PutError, Text, TextFault, read, read_any, write_line, write_transcript};

// a transcript with a line of each kind, each refusal of an opening, each fault and each answer;
// numbers that could be exchanged differ
const EACH_KIND: &[u8] =
    b"vale 2 pool 262144\n1 enter 18446744073709551615\n2 1 open vale0:a 4 5 0 = ok\n3 1 open pipe0{ 6 7 4294967295 = badsize\n4 1 open mon0 0 4 0 = switchesfull\n5 1 open vale0:a 4 4 0 = portsfull\n6 1 open vale0:a 4 4 0 = nametaken\n7 1 open vale0:a 4 4 0 = nobuffers 8 5\n8 1 send 2 ff0a,~.,.,~00 = short 3 lone 1 to 4*1,5*2\n9 1 send 2 - = short 0 lone 0 to -\n10 1 grant 8 4 = given 1 full 2 gone 3\n11 1 done 10\n12 2 sync 4 12-13 = gave 1 to 6*2\n13 2 sync 4 - = gave 0 to -\n14 1 reset 2 rx headout 1 3 4\n15 1 reset 2 tx curout 1 2 3\n16 1 reset 2 tx indirect 5\n17 1 reset 2 tx indexout 1 66\n18 1 reset 2 tx notheld 3 6\n19 1 reset 2 tx doubled 1 2\n20 1 reset 4 rx unannounced 5 10 14\n21 1 reset 2 tx longlen 3 65535\n22 1 reset 2 tx fragment 6\n23 1 shut 2\n24 1 finish 2 3-5 found 6 astray 7 = unread 8\n25 1 put 3 2 = took 4:ff0a,5:. to 6*1\n26 1 put 3 1 = took - to -\n27 1 put 3 1 = peergone\n28 2 get 4 3 = gave 1 to 6*5\n29 3 watch 6 vale0:a t = ok 4\n30 3 watch 6 vale0:a r = notarget\n31 3 watch 6 vale0:a tr = watched 7\n32 2 stat 4 = sent 18446744073709551615 short 1 lone 3 given 5 full 6 read 7\n33 1 leave\nend 33 free 4294967295\n";

/// The numbers of the reset of a ring: its port, and those of the fault.
fn reset(port: u64, fault: &SyncFault) -> [u64; 4] {
    match *fault {
        SyncFault::HeadOut { head, from, to } => [port, head as u64, from as u64, to as u64],
        SyncFault::CurOut { cur, from, to } => [port, cur as u64, from as u64, to as u64],
        SyncFault::Indirect { slot } | SyncFault::Fragment { slot } => [port, slot as u64, 0, 0],
        SyncFault::IndexOut { slot, idx }
        | SyncFault::NotHeld { slot, idx }
        | SyncFault::Doubled { slot, idx } => [port, slot as u64, idx as u64, 0],
        SyncFault::Unannounced { slot, idx, was } => [port, slot as u64, idx as u64, was as u64],
        SyncFault::LongLen { slot, len } => [port, slot as u64, len as u64, 0],
        SyncFault::PeerGone | SyncFault::RecordFull { .. } | SyncFault::NoMemory => [0; 4],
    }
}

/// The numbers of what was asked, in the order of its fields, and of lists how long they are.
fn asked(ask: &Ask) -> [u64; 4] {
    match ask {
        Ask::Enter { user } => [*user, 0, 0, 0],
        Ask::Open {
            session,
            tx,
            rx,
            extra,
            ..
        } => [session.0 as u64, *tx as u64, *rx as u64, *extra as u64],
        Ask::Send { port, frames } => [port.0 as u64, frames.len() as u64, 0, 0],
        Ask::Grant { origin, to } => [*origin as u64, to.0 as u64, 0, 0],
        Ask::Done { lease } => [lease.0 as u64, 0, 0, 0],
        Ask::Sync { port, back } | Ask::Get { port, back } => {
            [port.0 as u64, back.as_slice().len() as u64, 0, 0]
        }
        Ask::Reset { port, fault, .. } => reset(port.0 as u64, fault),
        Ask::Shut { port } | Ask::Stat { port } => [port.0 as u64, 0, 0, 0],
        Ask::Finish { port, bufs, chain } => {
            let count = bufs.as_slice().len() as u64;
            [
                port.0 as u64,
                count,
                chain.found as u64,
                chain.astray as u64,
            ]
        }
        Ask::Leave { session } => [session.0 as u64, 0, 0, 0],
        Ask::PutKept { port, offered } => [port.0 as u64, *offered as u64, 0, 0],
        Ask::Watch { monitor, .. } => [monitor.0 as u64, 0, 0, 0],
        Ask::Put { .. } => [0; 4],
    }
}

/// The numbers of the answer, in the order of its fields.
fn answered(reply: &Reply) -> [u64; 6] {
    match reply {
        Reply::Refused {
            fault: OpenFault::NoBuffers { want, have },
        } => [*want as u64, *have as u64, 0, 0, 0, 0],
        Reply::Offered { short, lone, .. } => [*short as u64, *lone as u64, 0, 0, 0, 0],
        Reply::Shared { given, full, gone } => {
            [*given as u64, *full as u64, *gone as u64, 0, 0, 0]
        }
        Reply::Gave { count, .. } | Reply::Unread { count } => [*count as u64, 0, 0, 0, 0, 0],
        Reply::Took { items, .. } => [items.as_slice().len() as u64, 0, 0, 0, 0, 0],
        Reply::Watching { target } => [target.0 as u64, 0, 0, 0, 0, 0],
        Reply::Watched { by } => [by.0 as u64, 0, 0, 0, 0, 0],
        Reply::Counted { counts } => {
            let (sent, short, lone) = (counts.sent, counts.short, counts.lone);
            [sent, short, lone, counts.given, counts.full, counts.read]
        }
        _ => [0; 6],
    }
}

// the numbers of each entry, of what was asked and of the answer
const NUMBERS: &[([u64; 4], [u64; 6])] = &[
    ([u64::MAX, 0, 0, 0], [0, 0, 0, 0, 0, 0]),
    ([1, 4, 5, 0], [0, 0, 0, 0, 0, 0]),
    ([1, 6, 7, 4_294_967_295], [0, 0, 0, 0, 0, 0]),
    ([1, 0, 4, 0], [0, 0, 0, 0, 0, 0]),
    ([1, 4, 4, 0], [0, 0, 0, 0, 0, 0]),
    ([1, 4, 4, 0], [0, 0, 0, 0, 0, 0]),
    ([1, 4, 4, 0], [8, 5, 0, 0, 0, 0]),
    ([2, 4, 0, 0], [3, 1, 0, 0, 0, 0]),
    ([2, 0, 0, 0], [0, 0, 0, 0, 0, 0]),
    ([8, 4, 0, 0], [1, 2, 3, 0, 0, 0]),
    ([10, 0, 0, 0], [0, 0, 0, 0, 0, 0]),
    ([4, 2, 0, 0], [1, 0, 0, 0, 0, 0]),
    ([4, 0, 0, 0], [0, 0, 0, 0, 0, 0]),
    ([2, 1, 3, 4], [0, 0, 0, 0, 0, 0]),
    ([2, 1, 2, 3], [0, 0, 0, 0, 0, 0]),
    ([2, 5, 0, 0], [0, 0, 0, 0, 0, 0]),
    ([2, 1, 66, 0], [0, 0, 0, 0, 0, 0]),
    ([2, 3, 6, 0], [0, 0, 0, 0, 0, 0]),
    ([2, 1, 2, 0], [0, 0, 0, 0, 0, 0]),
    ([4, 5, 10, 14], [0, 0, 0, 0, 0, 0]),
    ([2, 3, 65_535, 0], [0, 0, 0, 0, 0, 0]),
    ([2, 6, 0, 0], [0, 0, 0, 0, 0, 0]),
    ([2, 0, 0, 0], [0, 0, 0, 0, 0, 0]),
    ([2, 3, 6, 7], [8, 0, 0, 0, 0, 0]),
    ([3, 2, 0, 0], [2, 0, 0, 0, 0, 0]),
    ([3, 1, 0, 0], [0, 0, 0, 0, 0, 0]),
    ([3, 1, 0, 0], [0, 0, 0, 0, 0, 0]),
    ([4, 1, 0, 0], [1, 0, 0, 0, 0, 0]),
    ([6, 0, 0, 0], [4, 0, 0, 0, 0, 0]),
    ([6, 0, 0, 0], [0, 0, 0, 0, 0, 0]),
    ([6, 0, 0, 0], [7, 0, 0, 0, 0, 0]),
    ([4, 0, 0, 0], [u64::MAX, 1, 3, 5, 6, 7]),
    ([1, 0, 0, 0], [0, 0, 0, 0, 0, 0]),
];

/// The entries have these numbers.
fn have_numbers(rt: &impl Abort, entries: &[Entry]) {
    assert!(rt; entries.len() == NUMBERS.len());
    for (entry, (ask, reply)) in entries.iter().zip(NUMBERS) {
        assert!(rt; asked(&entry.ask) == *ask, "{ask:?}");
        assert!(rt; answered(&entry.reply) == *reply, "{reply:?}");
    }
}

/// Writes the line of each entry.
fn put_lines(rt: &impl Abort, out: &mut impl Sink, entries: &[Entry]) {
    for (number, entry) in (1u32..).zip(entries) {
        assert!(rt; write_line(number, entry, out).is_ok(), "line {number}");
    }
}

const START: &[u8] = b"vale 2 pool 262144\n";

const END: &[u8] = b"end 33 free 4294967295\n";

/// The lines of entries, one by one between the first line and the last, are the transcript.
fn are_lines(rt: &impl Abort, alloc: Global, entries: &[Entry]) {
    let mut out = MemorySink::new(alloc, Vec::new(alloc));
    assert!(rt; put_all(&mut out, START).is_ok());
    put_lines(rt, &mut out, entries);
    assert!(rt; put_all(&mut out, END).is_ok());
    assert!(rt; out.bytes() == EACH_KIND);
}

/// The call of a sink that fails, what writing the transcript answers, and what the sink holds then.
const SINKS: &[(u64, Result<(), PutError>, &[u8])] = &[
    (1, Err(PutError::Failed), b""),
    (2, Err(PutError::Failed), START),
    (99, Ok(()), EACH_KIND),
];

/// Written to a sink of which a call may fail, a text is answered so, and this is in the sink.
fn is_written(
    rt: &impl Abort,
    alloc: Global,
    text: &Text,
    call: u64,
    answer: Result<(), PutError>,
    bytes: &[u8],
) {
    let Ok(fail) = vec![in alloc; call] else {
        panic!(rt; "out of memory")
    };
    let mut out = MemorySink::new(alloc, fail);
    assert!(rt; text.entries.len() < 1_000);
    let written = write_transcript(alloc, &mut out, text.pool, &text.entries, text.free);
    assert!(rt; written == answer, "{call}");
    assert!(rt; out.bytes() == bytes, "{call}");
}

/// What a transcript of either version tells.
fn told(rt: &impl Abort, alloc: Global, text: &[u8]) -> Text {
    assert!(rt; text.len() < 4_294_967_295);
    match read_any(alloc, text) {
        Ok(told) => told,
        Err(fault) => panic!(rt; "{fault:?}"),
    }
}

/// A text has these numbers: its version, its pool, and the free buffers.
fn has_numbers(rt: &impl Abort, text: &Text, numbers: [u32; 3]) {
    assert!(rt;
        [text.version, text.pool, text.free] == numbers,
        "{numbers:?}"
    );
}

#[test]
fn each_kind_of_entry_is_read_back(rt: HostRuntime) {
    let text = told(&rt, rt.alloc(), EACH_KIND);
    has_numbers(&rt, &text, [2, 262_144, u32::MAX]);
    have_numbers(&rt, &text.entries);
    are_lines(&rt, rt.alloc(), &text.entries);
    for (call, answer, bytes) in SINKS {
        is_written(&rt, rt.alloc(), &text, *call, *answer, bytes);
    }
}

// texts of either version, each with its version, its pool and the free buffers, and the buffers that
// its entry lists
const EITHER_TEXTS: &[(&[u8], [u32; 3], &[u32])] = &[
    (b"vale 1 pool 8\nend 0 free 8\n", [1, 8, 8], &[]),
    (
        b"vale 1 pool 65536\nend 0 free 4294967295\n",
        [1, 65_536, u32::MAX],
        &[],
    ),
    (b"vale 2 pool 8\nend 0 free 7\n", [2, 8, 7], &[]),
    (b"vale 2 pool 262144\nend 0 free 0\n", [2, 262_144, 0], &[]),
    (
        b"vale 1 pool 8\n1 1 sync 2 2,3,5 = gave 0 to -\nend 1 free 3\n",
        [1, 8, 3],
        &[2, 3, 5],
    ),
    (
        b"vale 2 pool 8\n1 1 sync 2 2-3,5 = gave 0 to -\nend 1 free 3\n",
        [2, 8, 3],
        &[2, 3, 5],
    ),
    (
        b"vale 2 pool 8\n1 1 get 2 4-5,3-4,9,8 = gave 0 to -\nend 1 free 3\n",
        [2, 8, 3],
        &[4, 5, 3, 4, 9, 8],
    ),
    (
        b"vale 2 pool 8\n1 1 finish 2 7,7-10 found 0 astray 0 = unread 0\nend 1 free 3\n",
        [2, 8, 3],
        &[7, 7, 8, 9, 10],
    ),
    (
        b"vale 2 pool 8\n1 1 get 2 4294967294-4294967295,0 = gave 0 to -\nend 1 free 3\n",
        [2, 8, 3],
        &[4_294_967_294, u32::MAX, 0],
    ),
];

/// The buffers that the first entry lists.
fn first_listed(entries: &[Entry]) -> &[u32] {
    let Some(entry) = entries.first() else {
        return &[];
    };
    match &entry.ask {
        Ask::Sync { back, .. } | Ask::Get { back, .. } => back.as_slice(),
        Ask::Finish { bufs, .. } => bufs.as_slice(),
        _ => &[],
    }
}

/// A text is read, with its version, its pool, the free buffers and those that its entry lists.
fn assert_read(rt: &impl Abort, alloc: Global, text: &[u8], numbers: [u32; 3], listed: &[u32]) {
    let told = told(rt, alloc, text);
    has_numbers(rt, &told, numbers);
    assert!(rt; first_listed(&told.entries) == listed, "{listed:?}");
    assert!(rt; told.entries.is_empty() == listed.is_empty(), "{listed:?}");
}

#[test]
fn texts_of_either_version_are_read(rt: HostRuntime) {
    for (text, numbers, listed) in EITHER_TEXTS {
        assert_read(&rt, rt.alloc(), text, *numbers, listed);
    }
}

// texts that are none, each with the first line that is none
const BAD_TEXTS: &[(&[u8], u32)] = &[
    (b"", 1),
    (b"\n", 1),
    (b"vale 2 pool 0\nend 0 free 0\n", 1),
    (b"vale 2 pool 262145\nend 0 free 0\n", 1),
    (b"vale 2 pool 064\nend 0 free 0\n", 1),
    (b"vale 1 pool 64\nend 0 free 0\n", 1),
    (b"vale 2 pool 64", 1),
    (b"vale 2 pool 64 \nend 0 free 0\n", 1),
    (b"vale 2 pool 64\n", 2),
    (b"vale 2 pool 64\nend 0 free 0", 2),
    (b"vale 2 pool 64\nend 0 free 00\n", 2),
    (b"vale 2 pool 64\nend 0 free 4294967296\n", 2),
    (b"vale 2 pool 64\nend 1 free 0\n", 2),
    (b"vale 2 pool 64\nend 0 free 0\n\n", 3),
    (b"vale 2 pool 64\nend 0 free 0\n1 enter 1\n", 3),
    (b"vale 2 pool 64\n1 enter 1\n", 3),
    (b"vale 2 pool 64\n1 enter 1", 2),
    (b"vale 2 pool 64\n1 enter 1\nend 1 free 0\nx", 4),
    (b"vale 2 pool 64\n1 enter 01\nend 1 free 0\n", 2),
    (
        b"vale 2 pool 64\n1 enter 18446744073709551616\nend 1 free 0\n",
        2,
    ),
    (b"vale 2 pool 64\n2 enter 1\nend 1 free 0\n", 2),
    (b"vale 2 pool 64\n1 enter 1\r\nend 1 free 0\n", 2),
    (b"vale 2 pool 64\n1 enter 1\n2 enter  2\nend 2 free 0\n", 3),
    (b"vale 2 pool 64\n1 enter 1\n2 1 leave \nend 2 free 0\n", 3),
    (
        b"vale 2 pool 64\n1 enter 1\n2 1 leave now\nend 2 free 0\n",
        3,
    ),
    (
        b"vale 2 pool 64\n1 1 open eth0 4 4 0 = ok\nend 1 free 0\n",
        2,
    ),
    (
        b"vale 2 pool 64\n1 1 open vale0:a 4 4 = ok\nend 1 free 0\n",
        2,
    ),
    (
        b"vale 2 pool 64\n1 1 open vale0:a 4 4 0 = nobuffers 8\nend 1 free 0\n",
        2,
    ),
    (
        b"vale 2 pool 64\n1 1 send 2 FF = short 0 lone 0 to -\nend 1 free 0\n",
        2,
    ),
    (
        b"vale 2 pool 64\n1 1 send 2 f = short 0 lone 0 to -\nend 1 free 0\n",
        2,
    ),
    (
        b"vale 2 pool 64\n1 1 send 2 ff, = short 0 lone 0 to -\nend 1 free 0\n",
        2,
    ),
    (
        b"vale 2 pool 64\n1 1 send 2 ~ = short 0 lone 0 to -\nend 1 free 0\n",
        2,
    ),
    (
        b"vale 2 pool 64\n1 1 send 2 ff = short 0 lone 0 to 5*1,4*1\nend 1 free 0\n",
        2,
    ),
    (
        b"vale 2 pool 64\n1 1 send 2 ff = short 0 lone 0 to 4*1,4*1\nend 1 free 0\n",
        2,
    ),
    (
        b"vale 2 pool 64\n1 1 send 2 ff = short 0 lone 0 to\nend 1 free 0\n",
        2,
    ),
    (
        b"vale 2 pool 64\n1 1 sync 2 2,3 = gave 0 to -\nend 1 free 0\n",
        2,
    ),
    (
        b"vale 2 pool 64\n1 1 put 2 1 = took 2:~ff to -\nend 1 free 0\n",
        2,
    ),
    (
        b"vale 2 pool 64\n1 1 reset 2 tx peergone\nend 1 free 0\n",
        2,
    ),
    (
        b"vale 2 pool 64\n1 1 reset 2 tx longlen 0 65536\nend 1 free 0\n",
        2,
    ),
    (
        b"vale 2 pool 64\n1 1 watch 2 vale0:a rt = ok 3\nend 1 free 0\n",
        2,
    ),
    (
        b"vale 2 pool 64\n1 1 stat 2 = sent 1 short 0 lone 0 given 0 full 0 read\nend 1 free 0\n",
        2,
    ),
];

// texts of neither version, each with the first line that is none
const NEITHER_TEXTS: &[(&[u8], u32)] = &[
    (b"vale 0 pool 8\nend 0 free 8\n", 1),
    (b"vale 3 pool 8\nend 0 free 8\n", 1),
    (b"vale 01 pool 8\nend 0 free 8\n", 1),
    (b"vale  pool 8\nend 0 free 8\n", 1),
    (b"vale 1 pool 65537\nend 0 free 8\n", 1),
    (b"vale 1\nend 0 free 8\n", 1),
    (
        b"vale 1 pool 8\n1 1 sync 2 2-3 = gave 0 to -\nend 1 free 0\n",
        2,
    ),
    (
        b"vale 2 pool 8\n1 1 sync 2 2,3 = gave 0 to -\nend 1 free 0\n",
        2,
    ),
    (
        b"vale 2 pool 8\n1 1 sync 2 2-3,4 = gave 0 to -\nend 1 free 0\n",
        2,
    ),
    (
        b"vale 2 pool 8\n1 1 sync 2 2-4,5-6 = gave 0 to -\nend 1 free 0\n",
        2,
    ),
    (
        b"vale 2 pool 8\n1 1 sync 2 4-4 = gave 0 to -\nend 1 free 0\n",
        2,
    ),
    (
        b"vale 2 pool 8\n1 1 sync 2 5-4 = gave 0 to -\nend 1 free 0\n",
        2,
    ),
    (
        b"vale 2 pool 8\n1 1 sync 2 02-3 = gave 0 to -\nend 1 free 0\n",
        2,
    ),
    (
        b"vale 2 pool 8\n1 1 sync 2 2- = gave 0 to -\nend 1 free 0\n",
        2,
    ),
    (
        b"vale 2 pool 8\n1 1 sync 2 -2 = gave 0 to -\nend 1 free 0\n",
        2,
    ),
    (
        b"vale 2 pool 8\n1 1 sync 2 2-3-4 = gave 0 to -\nend 1 free 0\n",
        2,
    ),
    (
        b"vale 2 pool 8\n1 1 sync 2 -,2 = gave 0 to -\nend 1 free 0\n",
        2,
    ),
];

// texts with a line that lists more buffers than are read, in either version
const LARGE_TEXTS: &[&[u8]] = &[
    b"vale 2 pool 8\n1 1 sync 2 0-4294967295 = gave 0 to -\nend 1 free 0\n",
    b"vale 2 pool 8\n1 1 sync 2 9,0-1048575 = gave 0 to -\nend 1 free 0\n",
    b"vale 1 pool 8\n1 1 get 2 2-4294967295 = gave 0 to -\nend 1 free 0\n",
];

/// What refuses a text, as one of version 2 or as one of either version.
fn refusal(rt: &impl Abort, alloc: Global, text: &[u8], either: bool) -> Option<TextFault> {
    assert!(rt; text.len() < 4_294_967_295);
    if either {
        read_any(alloc, text).err()
    } else {
        read(alloc, text).err()
    }
}

/// Each text is refused for its first bad line.
fn are_refused(rt: &impl Abort, alloc: Global, texts: &[(&[u8], u32)], either: bool) {
    for (text, line) in texts {
        let fault = TextFault::BadLine { line: *line };
        assert!(rt; refusal(rt, alloc, text, either) == Some(fault), "{line}");
    }
}

#[test]
fn the_first_bad_line_is_told(rt: HostRuntime) {
    are_refused(&rt, rt.alloc(), BAD_TEXTS, false);
    are_refused(&rt, rt.alloc(), NEITHER_TEXTS, true);
    assert!(rt; refusal(&rt, rt.alloc(), EACH_KIND, false).is_none());
}

// the transcript of the first run
const FIRST_TEXT: &[u8] =
    b"vale 2 pool 8192\n1 enter 1\n2 enter 2\n3 1 open vale0:a 4 4 0 = ok\n4 2 open vale0:b 4 4 0 = ok\n5 1 send 3 ffffffffffff02000000000a88b511111111111111111111111111111111111111111111111111111111111111111111111111111111111111111111 = short 0 lone 0 to 4*1\n6 1 grant 5 4 = given 1 full 0 gone 0\n7 1 done 6\n8 2 sync 4 - = gave 1 to -\n9 1 shut 3\n10 1 finish 3 2-5 found 0 astray 0 = unread 0\n11 1 leave\n12 2 shut 4\n13 2 finish 4 10-14 found 0 astray 0 = unread 0\n14 2 leave\nend 14 free 8192\n";

/// It has 14 entries, and without its last line the one behind them is blamed.
#[test]
fn the_first_run_is_read(rt: HostRuntime) {
    let text = FIRST_TEXT;
    assert!(rt; told(&rt, rt.alloc(), text).entries.len() == 14);
    let end = text.len().saturating_sub(17);
    let fault = TextFault::BadLine { line: 16 };
    assert!(rt; refusal(&rt, rt.alloc(), text, false).is_none());
    assert!(rt; refusal(&rt, rt.alloc(), &text[..end], false) == Some(fault));
}

#[test]
fn large_lists_are_not_read(rt: HostRuntime) {
    for text in LARGE_TEXTS {
        assert!(rt; refusal(&rt, rt.alloc(), text, true) == Some(TextFault::NoMemory));
    }
}
