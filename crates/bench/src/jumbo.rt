use crate::memory;
use crate::session::{Traffic, exchange};
use nm_types::MAX_RING;
use std::alloc::{Alloc, Global};
use std::fs::Files;
use std::io::{self, Print};
use std::sync::Wait;
use std::thread::Threads;
use std::time::Clock;

const FEW: u32 = 400;

const MANY: u32 = 20_000;

/// Sends 400 frames of 9,000 bytes from one session to another, and prints how many came, or, if
/// `is_timed`, 20,000 of them, and also prints how many nanoseconds each took and the most memory so
/// far. The record keeps all of them.
pub fn run<R: Print + Clock + Files + Alloc + Threads + Wait + Sync>(
    rt: &R,
    alloc: Global,
    is_timed: bool,
) -> io::Result<()> {
    // A ring holds a batch of 400, of five slots each, and those before it, which go back with the
    // next sync.
    let traffic = Traffic {
        len: 9000,
        batch: 400,
        frames: if is_timed { MANY } else { FEW },
        slots: MAX_RING,
    };
    let (came, nanos) = exchange(rt, alloc, 1, traffic)?;
    println!(rt; "jumbo: {came} frames of 9000 bytes sent and received")?;
    if is_timed {
        let (nanos, peak) = (nanos / u128::from(came.max(1)), memory::peak(rt));
        println!(rt; "jumbo: {nanos} ns each, with {peak} kB at most so far")?;
    }
    Ok(())
}
