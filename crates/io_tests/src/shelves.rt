ghost use Rattle.std.specs.Prelude.{Some};

use nm_io::{
    Failed, FileShelf, Gate, MemoryShelf, MemorySink, NoGate, RawSink, RawWrite, ReadError, Shelf,
    Sink, Stage, StdSink, append_all, put_all, read_all,
};
use std::alloc::Global;
use std::io::ErrorKind;
use std::process::Abort;
use std::rt::Files;
use std::test::Fail;
use std::{fs, io};

/// A script of two lines.
const SCRIPT: &[u8; 14] = b"user a\nuser b\n";

#[test]
fn memory_sink_fails_where_told(rt: HostRuntime) -> Result<(), Fail> {
    let mut sink = MemorySink::new(rt.alloc(), vec![in rt.alloc(); 2u64]?);
    assert_eq!(rt; put_all(&mut sink, b"ab"), Ok(()));
    assert_eq!(rt; sink.put(b"cd"), Err(Failed));
    assert_eq!(rt; sink.put(b"ef"), Ok(2));
    assert_eq!(rt; sink.bytes(), b"abef".as_slice());
    assert_eq!(rt; sink.wants(), 0);
    Ok(())
}

/// A call of a shelf with its answer: what is read or how many bytes are
/// appended, and nothing where it fails.
#[derive(Clone, Copy)]
enum Call {
    Read(&'static str, u64, Option<&'static [u8]>),
    Append(&'static str, &'static [u8], Option<usize>),
}

/// Makes a call, which is answered so. What is read goes to this room.
fn assert_call(rt: &impl Abort, shelf: &mut impl Shelf, room: &mut [u8], call: Call) {
    match call {
        Call::Read(name, at, wanted) => match shelf.read(name, at, room) {
            Ok(count) => assert!(rt; wanted == Some(&room[..count]), "{name} from {at}"),
            Err(Failed) => assert!(rt; wanted.is_none(), "{name} from {at}"),
        },
        Call::Append(name, bytes, wanted) => {
            let appended = shelf.append(name, bytes).ok();
            assert!(rt; appended == wanted, "to {name}");
        }
    }
}

/// Makes calls, each of which is answered so.
fn assert_calls(rt: &impl Abort, shelf: &mut impl Shelf, room: &mut [u8], calls: &[Call]) {
    for call in calls {
        assert_call(rt, shelf, room, *call);
    }
}

/// Reads of which the third call fails.
const FAILING_READS: &[Call] = &[
    Call::Read("s", 10, Some(b"r b\n")),
    Call::Read("t", 0, None),
    Call::Read("s", 0, None),
    Call::Read("s", 14, Some(b"")),
];

/// Appends of which the first call fails, the sixth one.
const FAILING_APPENDS: &[Call] = &[
    Call::Append("t", b"z", None),
    Call::Append("t", b"z", Some(1)),
];

#[test]
fn memory_shelf_fails_where_told(rt: HostRuntime) -> Result<(), Fail> {
    let mut shelf = MemoryShelf::new(rt.alloc(), vec![in rt.alloc(); 3u64, 6]?);
    let mut room = [0; 8];
    shelf.add("s", SCRIPT)?;
    assert_calls(&rt, &mut shelf, &mut room, FAILING_READS);
    assert_eq!(rt; append_all(&mut shelf, "t", b"xy"), Ok(()));
    assert_calls(&rt, &mut shelf, &mut room, FAILING_APPENDS);
    assert_eq!(rt; shelf.file("t"), Some(b"xyz".as_slice()));
    assert_eq!(rt; shelf.file("u"), None);
    assert_eq!(rt; shelf.wants(), 0);
    Ok(())
}

/// Reads a file of so many bytes within a limit. Tells whether all of it is read, or it is too long.
fn is_read_within(alloc: Global, len: usize, limit: u64, long: bool) -> Result<bool, Fail> {
    let mut shelf = MemoryShelf::new(alloc, Vec::new(alloc));
    let contents = vec![in alloc; 7u8; len]?;
    shelf.add("s", contents.as_slice())?;
    match read_all(alloc, &mut shelf, "s", limit) {
        Ok(found) => Ok(!long && found.as_slice() == contents.as_slice()),
        Err(error) => Ok(long && error == ReadError::TooLong),
    }
}

/// The length of a file, a limit, and whether the file is longer.
const LIMITS: [(usize, u64, bool); 5] = [
    (0, 0, false),
    (14, 14, false),
    (14, 13, true),
    (20000, 20000, false),
    (20000, 19999, true),
];

#[test]
fn reads_whole_files_within_the_limit(rt: HostRuntime) -> Result<(), Fail> {
    for (len, limit, long) in LIMITS {
        let is_read = is_read_within(rt.alloc(), len, limit, long)?;
        assert!(rt; is_read, "{len} bytes");
    }
    let mut shelf = MemoryShelf::new(rt.alloc(), Vec::new(rt.alloc()));
    let found = read_all(rt.alloc(), &mut shelf, "s", 9);
    assert!(rt; matches!(found, Err(ReadError::Failed)));
    Ok(())
}

/// A writer that is interrupted at every other call, and else takes at most two bytes.
#[derive(Drop)]
struct ShortWriter {
    bytes: Vec<u8>,
    interrupted: bool,
}

impl RawWrite for ShortWriter {
    ghost written = { λ w. Some w.bytes.items };

    fn write_once(&mut self, bytes: &[u8]) -> io::Result<usize> {
        self.interrupted = !self.interrupted;
        if self.interrupted {
            return Err(io::Error::from(ErrorKind::Interrupted));
        }
        let count = bytes.len().min(2);
        match self.bytes.extend_from_slice(&bytes[..count]) {
            Ok(()) => Ok(count),
            Err(_) => Err(io::Error::from(ErrorKind::OutOfMemory)),
        }
    }
}

#[test]
fn short_writes_are_continued(rt: HostRuntime) -> Result<(), Fail> {
    let bytes = Vec::new(rt.alloc());
    let mut sink = RawSink::over(ShortWriter {
        bytes,
        interrupted: false,
    });
    assert_eq!(rt; sink.put(b"abc"), Ok(2));
    assert_eq!(rt; put_all(&mut sink, SCRIPT), Ok(()));
    assert_eq!(rt;
        sink.raw().bytes.as_slice(),
        b"abuser a\nuser b\n".as_slice()
    );
    Ok(())
}

/// How many bytes a call takes, and which calls fail: of a sink the one behind those that put a
/// script, and of a shelf those behind the ones that append it and that read it.
const PIECES: [(usize, u64, u64); 4] = [(1, 15, 31), (5, 4, 9), (14, 2, 5), (99, 2, 5)];

/// A sink takes a script piece by piece, and no byte behind it.
fn put_in_pieces(rt: &impl Abort, alloc: Global, piece: usize, last: u64) -> Result<(), Fail> {
    assert!(rt; piece >= 1);
    let mut sink = MemorySink::in_pieces(alloc, vec![in alloc; last]?, piece);
    assert!(rt; put_all(&mut sink, SCRIPT) == Ok(()));
    assert!(rt; sink.bytes() == SCRIPT.as_slice());
    assert!(rt; sink.put(b"x") == Err(Failed), "pieces of {piece}");
    Ok(())
}

/// Whether a script is read from a shelf.
fn has_script(alloc: Global, shelf: &mut MemoryShelf) -> bool {
    match read_all(alloc, shelf, "s", 14) {
        Ok(found) => found.as_slice() == SCRIPT.as_slice(),
        Err(_) => false,
    }
}

/// A script is appended to a shelf and read piece by piece, and no byte appended behind it.
fn append_in_pieces(rt: &impl Abort, alloc: Global, piece: usize, fail: Vec<u64>) {
    assert!(rt; piece >= 1);
    let mut shelf = MemoryShelf::in_pieces(alloc, fail, piece);
    assert!(rt; append_all(&mut shelf, "s", SCRIPT) == Ok(()));
    assert!(rt; shelf.append("s", b"x") == Err(Failed), "pieces of {piece}");
    assert!(rt; has_script(alloc, &mut shelf), "pieces of {piece}");
    assert!(rt; shelf.append("s", b"x") == Err(Failed), "pieces of {piece}");
}

#[test]
fn calls_are_answered_in_pieces(rt: HostRuntime) -> Result<(), Fail> {
    for (piece, appended, read) in PIECES {
        put_in_pieces(&rt, rt.alloc(), piece, appended)?;
        let fail = vec![in rt.alloc(); appended, read]?;
        append_in_pieces(&rt, rt.alloc(), piece, fail);
    }
    Ok(())
}

/// A change of the files of the system, or calls of a shelf over them.
#[derive(Clone, Copy)]
enum Change {
    Write(&'static str, &'static [u8]),
    Rename(&'static str, &'static str),
    Remove(&'static str),
    Calls(&'static [Call]),
}

/// Makes a change. Reads are of at most seven bytes.
fn make(rt: &(impl Files + Abort), shelf: &mut impl Shelf, change: Change) -> io::Result<()> {
    match change {
        Change::Write(name, bytes) => fs::write(rt, name, bytes),
        Change::Rename(from, to) => fs::rename(rt, from, to),
        Change::Remove(name) => fs::remove_file(rt, name),
        Change::Calls(calls) => {
            assert_calls(rt, shelf, &mut [0; 7], calls);
            Ok(())
        }
    }
}

/// A path, and another one whose file takes its place.
const NAME: &str = "nm_io-whose-path";

const OTHER: &str = "nm_io-of-another-path";

/// A file is read on when another one has its path, and appended to when it has another path.
const CHANGES: &[Change] = &[
    Change::Write(NAME, SCRIPT),
    Change::Write(OTHER, b"user c\nuser d\nuser e\n"),
    Change::Calls(&[Call::Read(NAME, 0, Some(b"user a\n"))]),
    Change::Rename(OTHER, NAME),
    Change::Calls(&[
        Call::Read(NAME, 7, Some(b"user b\n")),
        Call::Read(NAME, 14, Some(b"")),
        Call::Read(NAME, 0, Some(b"user c\n")),
    ]),
    Change::Remove(NAME),
    Change::Calls(&[Call::Append(NAME, b"user a\n", Some(7))]),
    Change::Rename(NAME, OTHER),
    Change::Calls(&[
        Call::Append(NAME, b"user b\n", Some(7)),
        Call::Read(OTHER, 7, Some(b"user b\n")),
        Call::Read(NAME, 0, None),
    ]),
    Change::Remove(OTHER),
];

#[test]
fn files_stay_open_when_their_paths_change_hands(rt: HostRuntime) -> Result<(), Fail> {
    let mut shelf = FileShelf::new(&rt);
    for change in CHANGES {
        make(&rt, &mut shelf, *change)?;
    }
    Ok(())
}

#[test]
fn files_and_standard_output(rt: HostRuntime) -> Result<(), Fail> {
    let name = "nm_io-files_and_standard_output";
    let _ = fs::remove_file(&rt, name);
    let mut shelf = FileShelf::new(&rt);
    assert!(rt;
        matches!(
            read_all(rt.alloc(), &mut shelf, name, 99),
            Err(ReadError::Failed)
        )
    );
    assert_eq!(rt; append_all(&mut shelf, name, b"user a\n"), Ok(()));
    assert_eq!(rt; append_all(&mut shelf, name, b"user b\n"), Ok(()));
    let contents = read_all(rt.alloc(), &mut shelf, name, 14);
    fs::remove_file(&rt, name)?;
    match contents {
        Ok(found) => assert_eq!(rt; found.as_slice(), SCRIPT.as_slice()),
        Err(error) => assert!(rt; false, "{error:?}"),
    }
    assert_eq!(rt; put_all(&mut StdSink::new(&rt), SCRIPT), Ok(()));
    NoGate.pass(1, Stage::Filled);
    Ok(())
}
