//! What a load writes.
use super::*;

/// Seven's frames: each of four users sends 2,000, whose lengths go round from 60 to 123 bytes 31
/// times and then on for 16 frames, from 68, 69, 70 and 71 bytes on.
const SEVEN: &[u8] = b"load 7 users 4 frames 8000 bytes 731072 free 8192\n";

const GREATEST: &[u8] = b"load 18446744073709551615 users 4 frames 8000 bytes 730560 free 8192\n";

/// A load of this number, of which a call of the sink may fail, ends with this line and writes this
/// text.
fn load_says<R: AllocGlobal + Threads + Wait + Sync + Abort>(
    rt: &R,
    number: &str,
    fail_sink: u64,
    line: &[u8],
    text: &[u8],
) -> Result<(), NoMemory> {
    let left = ran(rt, &["load", number], EMPTY, EMPTY, 99, fail_sink)?;
    left.says(rt, line, text);
    Ok(())
}

/// The same line, however the users' calls come one after another.
#[test]
fn loads_of_seven_are_alike(rt: HostRuntime) -> Result<(), NoMemory> {
    load_says(&rt, "7", 99, EMPTY, SEVEN)?;
    load_says(&rt, "007", 99, EMPTY, SEVEN)?;
    load_says(&rt, "7", 99, EMPTY, SEVEN)
}

/// The greatest number, in as many digits as may be.
#[test]
fn greatest_load_is_run(rt: HostRuntime) -> Result<(), NoMemory> {
    load_says(&rt, "18446744073709551615", 99, EMPTY, GREATEST)
}

/// The line is written by one call, the first, which fails.
#[test]
fn line_of_load_fails(rt: HostRuntime) -> Result<(), NoMemory> {
    load_says(&rt, "7", 1, b"vale: cannot write\n", EMPTY)?;
    load_says(&rt, "7", 2, EMPTY, SEVEN)
}
