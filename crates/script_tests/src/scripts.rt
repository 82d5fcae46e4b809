use nm_types::{LineCause, NoMemory};
use std::alloc::Global;
use std::process::Abort;
use vale_script::{Script, ScriptFault, ScriptWord, line_count, parse};

const FIRST_RUN: &[u8] =
    b"user a\nuser b\nopen a vale0:a 4 4\nopen b vale0:b 4 4\nput a vale0:a 1 ff:ff:ff:ff:ff:ff 02:00:00:00:00:0a 60 11\ntx a vale0:a\nrx b vale0:b\n";

/// Every kind of line once, behind two users.
const ALL_LINES: &[u8] =
    b"pool 64\nuser a\nuser b\nopen a vale0:a 4 4\nopen a vale0:b 4 4 3\nopen b mon0 0 2\npar\nput a vale0:a 0 Ff:ff:ff:ff:ff:ff 02:00:00:00:00:0A 2048 aB\nhex a vale0:a .\nplay a vale0:a f 1023\nend\ntx a vale0:a\nrx a vale0:a\nrx a vale0:a keep\nfwd a vale0:a vale0:b 1000000\npoke a vale0:a tx 4294967295 ptr 18446744073709551615\nmove a vale0:a rx 1 2\nswap a vale0:a rx 0 vale0:b tx 1\nswap a vale0:a rx 0 vale0:b tx 1 quiet\nextra a vale0:b 0 1\nwatch b mon0 vale0:a tr\nstat a vale0:a\nplay a vale0:b g 1\nplay a vale0:b f 1\nsave b mon0 h\nclose b mon0\n";

/// A script, its pool, its users, its files and how many units it has.
type Read = (
    &'static [u8],
    u32,
    &'static [&'static str],
    &'static [&'static str],
    usize,
);

const READ: &[Read] = &[
    (FIRST_RUN, 8192, &["a", "b"], &[], 7),
    (ALL_LINES, 64, &["a", "b"], &["f", "g"], 21),
    (b"", 8192, &[], &[], 0),
];

fn are_words(words: &[ScriptWord], texts: &[&str]) -> bool {
    words.len() == texts.len()
        && words
            .iter()
            .zip(texts)
            .all(|(word, text)| word.as_str() == *text)
}

/// Reads a short script.
fn read(rt: &impl Abort, alloc: Global, bytes: &[u8]) -> Result<Script, ScriptFault> {
    assert!(rt; bytes.len() <= 1_000);
    parse(alloc, bytes)
}

/// Whether a script is read, with this pool, these users and files, and so many units.
fn is_read(rt: &impl Abort, alloc: Global, (bytes, pool, users, files, units): &Read) -> bool {
    match read(rt, alloc, bytes) {
        Ok(script) => {
            script.pool() == *pool
                && are_words(script.users(), users)
                && are_words(script.files(), files)
                && script.units().len() == *units
        }
        Err(_) => false,
    }
}

#[test]
fn scripts_are_read(rt: HostRuntime) {
    for (at, read) in READ.iter().enumerate() {
        assert!(rt; is_read(&rt, rt.alloc(), read), "script {at}");
    }
}

/// The line that is blamed and why; line 0 if the script was read.
fn blame(read: Result<Script, ScriptFault>) -> (u32, LineCause) {
    match read {
        Ok(_) => (0, LineCause::Word),
        Err(ScriptFault::BadLine { line, cause }) => (line, cause),
        Err(ScriptFault::NoMemory) => (999, LineCause::Word),
    }
}

/// Two users, of whom the first has a port and a monitor open.
const OPENED: &[u8] = b"user a\nuser b\nopen a vale0:p 1 1\nopen a mon0 0 2\n";

/// What is blamed in a script that goes on with these lines.
fn blame_behind(
    rt: &impl Abort,
    alloc: Global,
    lines: &[u8],
) -> Result<(u32, LineCause), NoMemory> {
    let mut script = Vec::from_slice(alloc, OPENED)?;
    script.extend_from_slice(lines)?;
    Ok(blame(read(rt, alloc, &script)))
}

use LineCause::{Count, Name, Number, Order, Port, Twice, User, Word};

/// A bad fifth line, and why it is bad.
const BAD_LINES: &[(&[u8], LineCause)] = &[
    (b"tx a\x01 vale0:p", Word),
    (b"tx a vale0:p\r", Word),
    (b"\x0b#", Word),
    (b"send a vale0:p", Word),
    (b"rx a vale0:p x y", Word),
    (b"poke a vale0:p up", Word),
    (b"swap a vale0:p tx 0 vale0:p rx 0 loud", Word),
    (b"watch a mon0 vale0:p q", Word),
    (b"poke a vale0:p tx 0 id 1", Word),
    (b"rx a vale0:p keep y", Count),
    (b"tx no.body p q", Count),
    (b"user", Count),
    (b"par a", Count),
    (b"pool 64 64", Count),
    (b"open a vale0:q 4", Count),
    (b"pool 0", Number),
    (b"open a vale0:q 4 4294967296", Number),
    (b"open a vale0:q 4 4 000000000000000000001", Number),
    (b"put a vale0:p 1000001 x x 60 11", Number),
    (b"put a vale0:p 1 x x 2049 11", Number),
    (b"put a vale0:p 1 x x 60 1", Number),
    (b"hex a vale0:p abc", Number),
    (b"play a vale0:p f 4096", Number),
    (b"poke a vale0:p tx 0 len 65536", Number),
    (b"poke a vale0:p tx 0 ptr 18446744073709551616", Number),
    (b"user abcdefghijklmnopq", Name),
    (b"tx a.b vale0:p", Name),
    (b"tx a vale0:abcdefghijk", Name),
    (
        b"put a vale0:p 1 ff:ff:ff:ff:ff-ff 02:00:00:00:00:0a 60 11",
        Name,
    ),
    (b"tx c vale0:p", User),
    (b"tx b vale0:p", Port),
    (b"tx a mon0", Port),
    (b"move a mon0 tx 0 0", Port),
    (b"fwd a vale0:p mon0 1", Port),
    (b"watch a vale0:p vale0:p t", Port),
    (b"watch a mon0 mon1 t", Port),
    (b"pool 64", Order),
    (b"end", Order),
    (b"user a", Twice),
    (b"open a vale0:p 4 4", Twice),
];

/// Each cause that the fifth line can have by itself, on each kind of line.
const EACH_CAUSE: &[(&[u8], LineCause)] = &[
    (b"pool 64\x7f", Word),
    (b"user c\x7f", Word),
    (b"open a vale0:q 4 4\x7f", Word),
    (
        b"put a vale0:p 1 ff:ff:ff:ff:ff:ff 02:00:00:00:00:0a 60 11\x7f",
        Word,
    ),
    (b"hex a vale0:p ff\x7f", Word),
    (b"play a vale0:p f 1\x7f", Word),
    (b"tx a vale0:p\x7f", Word),
    (b"rx a vale0:p\x7f", Word),
    (b"fwd a vale0:p vale0:p 1\x7f", Word),
    (b"poke a vale0:p tx 0 len 1\x7f", Word),
    (b"move a vale0:p tx 0 0\x7f", Word),
    (b"swap a vale0:p rx 0 vale0:p tx 0\x7f", Word),
    (b"extra a vale0:p 0 0\x7f", Word),
    (b"watch a mon0 vale0:p t\x7f", Word),
    (b"stat a vale0:p\x7f", Word),
    (b"save a vale0:p f\x7f", Word),
    (b"close a vale0:p\x7f", Word),
    (b"par\x7f", Word),
    (b"end\x7f", Word),
    (b"pool 64 1", Count),
    (b"user c 1", Count),
    (b"open a vale0:q 4", Count),
    (
        b"put a vale0:p 1 ff:ff:ff:ff:ff:ff 02:00:00:00:00:0a 60",
        Count,
    ),
    (b"hex a vale0:p", Count),
    (b"play a vale0:p f", Count),
    (b"tx a", Count),
    (b"rx a", Count),
    (b"fwd a vale0:p vale0:p", Count),
    (b"poke a vale0:p tx 0 len", Count),
    (b"move a vale0:p tx 0", Count),
    (b"swap a vale0:p rx 0 vale0:p tx", Count),
    (b"extra a vale0:p 0", Count),
    (b"watch a mon0 vale0:p", Count),
    (b"stat a", Count),
    (b"save a vale0:p", Count),
    (b"close a", Count),
    (b"par a", Count),
    (b"end a", Count),
    (b"pool 262145", Number),
    (b"open a vale0:q 4 x", Number),
    (
        b"put a vale0:p -1 ff:ff:ff:ff:ff:ff 02:00:00:00:00:0a 60 11",
        Number,
    ),
    (b"hex a vale0:p 0g", Number),
    (b"play a vale0:p f 0", Number),
    (b"fwd a vale0:p vale0:p 1000001", Number),
    (b"poke a vale0:p tx 4294967296 len 1", Number),
    (b"poke a vale0:p tx 0 idx 4294967296", Number),
    (b"poke a vale0:p tx 0 flags 65536", Number),
    (b"move a vale0:p tx 0 4294967296", Number),
    (b"swap a vale0:p rx 0 vale0:p tx 4294967296", Number),
    (b"extra a vale0:p 0 4294967296", Number),
    (b"user a.b", Name),
    (b"open a eth0 4 4", Name),
    (
        b"put a eth0 1 ff:ff:ff:ff:ff:ff 02:00:00:00:00:0a 60 11",
        Name,
    ),
    (b"hex a eth0 ff", Name),
    (b"play a eth0 f 1", Name),
    (b"tx a eth0", Name),
    (b"rx a eth0", Name),
    (b"fwd a eth0 vale0:p 1", Name),
    (b"poke a eth0 tx 0 len 1", Name),
    (b"move a eth0 tx 0 0", Name),
    (b"swap a eth0 rx 0 vale0:p tx 0", Name),
    (b"extra a eth0 0 0", Name),
    (b"watch a eth0 vale0:p t", Name),
    (b"stat a eth0", Name),
    (b"save a eth0 f", Name),
    (b"close a eth0", Name),
    (b"fwd a vale0:p eth0 1", Name),
    (b"swap a vale0:p rx 0 eth0 tx 0", Name),
    (b"watch a mon0 eth0 t", Name),
    (b"open c vale0:q 4 4", User),
    (
        b"put c vale0:p 1 ff:ff:ff:ff:ff:ff 02:00:00:00:00:0a 60 11",
        User,
    ),
    (b"hex c vale0:p ff", User),
    (b"play c vale0:p f 1", User),
    (b"tx c vale0:p", User),
    (b"rx c vale0:p", User),
    (b"fwd c vale0:p vale0:p 1", User),
    (b"poke c vale0:p tx 0 len 1", User),
    (b"move c vale0:p tx 0 0", User),
    (b"swap c vale0:p rx 0 vale0:p tx 0", User),
    (b"extra c vale0:p 0 0", User),
    (b"watch c mon0 vale0:p t", User),
    (b"stat c vale0:p", User),
    (b"save c vale0:p f", User),
    (b"close c vale0:p", User),
    (
        b"put a vale0:q 1 ff:ff:ff:ff:ff:ff 02:00:00:00:00:0a 60 11",
        Port,
    ),
    (b"hex a vale0:q ff", Port),
    (b"play a vale0:q f 1", Port),
    (b"tx a vale0:q", Port),
    (b"rx a vale0:q", Port),
    (b"fwd a vale0:q vale0:p 1", Port),
    (b"poke a vale0:q tx 0 len 1", Port),
    (b"move a vale0:q tx 0 0", Port),
    (b"swap a vale0:q rx 0 vale0:p tx 0", Port),
    (b"fwd a vale0:p vale0:q 1", Port),
    (b"swap a vale0:p rx 0 vale0:q tx 0", Port),
    (b"extra a vale0:q 0 0", Port),
    (b"watch a mon1 vale0:p t", Port),
    (b"stat a vale0:q", Port),
    (b"save a vale0:q f", Port),
    (b"close a vale0:q", Port),
    (
        b"put a mon0 1 ff:ff:ff:ff:ff:ff 02:00:00:00:00:0a 60 11",
        Port,
    ),
    (b"hex a mon0 ff", Port),
    (b"play a mon0 f 1", Port),
    (b"poke a mon0 tx 0 len 1", Port),
    (b"swap a mon0 rx 0 mon0 tx 0", Port),
];

/// Each of these is a bad fifth line, for the cause beside it.
fn are_blamed(
    rt: &impl Abort,
    alloc: Global,
    lines: &[(&[u8], LineCause)],
) -> Result<(), NoMemory> {
    for (line, cause) in lines {
        let blamed = blame_behind(rt, alloc, line)?;
        assert!(rt; blamed == (5, *cause), "{blamed:?}");
    }
    Ok(())
}

/// Each cause is told of each kind of line.
#[test]
fn bad_lines_are_blamed(rt: HostRuntime) -> Result<(), NoMemory> {
    are_blamed(&rt, rt.alloc(), BAD_LINES)?;
    are_blamed(&rt, rt.alloc(), EACH_CAUSE)
}

/// Lines from the fifth on, the one that is blamed, or 0 where all are good, and why.
const LINES: &[(&[u8], u32, LineCause)] = &[
    (b"par\npool 64\nend\n", 6, Order),
    (b"par\nend\nend\n", 7, Order),
    (
        b"play a vale0:p f 1\nsave a vale0:p g\nplay a vale0:p g 1\n",
        7,
        Twice,
    ),
    (b"par\npar\n", 6, Order),
    (b"par\nuser c\nend\n", 6, Order),
    (b"par\ntx a vale0:p\n", 5, Order),
    (b"par\n\nsend\n", 7, Word),
    (b"save a vale0:p f\nsave a mon0 f\n", 6, Twice),
    (b"save a vale0:p f\nsave a vale0:p g\n", 6, Twice),
    (b"play a vale0:p f 1\nsave a vale0:p f\n", 6, Twice),
    (b"save a vale0:p f\nplay a vale0:p f 1\n", 6, Twice),
    (b"close a vale0:p\ntx a vale0:p\n", 6, Port),
    (b"hex a vale0:p aB0\nhex a vale0:p .", 5, Number),
    (b"play a vale0:p f 1\nplay a vale0:p f 2\n", 0, Word),
    (
        b"save a vale0:p f\nclose a vale0:p\nopen a vale0:p 2 2\nsave a vale0:p g\n",
        0,
        Word,
    ),
    (
        b"open b vale0:p 4 4\nclose b vale0:p\ntx a vale0:p\n",
        0,
        Word,
    ),
    (b"watch a mon0 vale9:x tr\n", 0, Word),
    (b"  # \x00\xff\n\t\n# last \xff", 0, Word),
    (b"tx  a\tvale0:p \t\r\n", 0, Word),
    (b"open a vale0:q 00000000000000000002 4294967295", 0, Word),
];

#[test]
fn lines_are_judged_by_those_before(rt: HostRuntime) -> Result<(), NoMemory> {
    for (lines, line, cause) in LINES {
        let blamed = blame_behind(&rt, rt.alloc(), lines)?;
        assert!(rt; blamed == (*line, *cause), "{blamed:?}");
    }
    Ok(())
}

#[test]
fn lines_are_counted(rt: HostRuntime) {
    for (bytes, lines) in [
        (b"".as_slice(), 0),
        (b"\n".as_slice(), 1),
        (b"a\n\nb".as_slice(), 3),
        (FIRST_RUN, 7),
    ] {
        assert!(rt; line_count(bytes) == lines, "{lines}");
    }
}
