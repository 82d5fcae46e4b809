//! What is done on several threads.

use crate::{fabric, turn};
use std::alloc::Global;
use std::io::{self, Print};
use std::sync::Wait;
use std::thread::Threads;
use std::time::{Clock, Instant};

/// What the threads share.
#[derive(Clone, Copy)]
pub enum Shared {
    /// A turn, in which numbers are added.
    Turn,
    /// A fabric, to which users come and which they leave: two entries each.
    Fabric,
}

impl Shared {
    fn word(self) -> &'static str {
        match self {
            Shared::Turn => "turn",
            Shared::Fabric => "fabric",
        }
    }

    /// Counts the entries that there are after as many threads have made them: a few, or many.
    fn count_entries<R: Threads + Wait + Sync>(
        self,
        rt: &R,
        alloc: Global,
        threads: u32,
        is_many: bool,
    ) -> u32 {
        match self {
            Shared::Turn => {
                let count = if is_many { 1_000_000 } else { 400 };
                turn::entries(rt, alloc, threads, count)
            }
            Shared::Fabric => {
                let count = if is_many { 100_000 } else { 200 };
                fabric::entries(rt, alloc, threads, count)
            }
        }
    }
}

/// Makes entries from 1, 2 and 4 threads: a few, and prints how many there are, or, if `is_timed`,
/// many, and prints entries per second.
pub fn run<R: Print + Clock + Threads + Wait + Sync>(
    rt: &R,
    alloc: Global,
    shared: Shared,
    is_timed: bool,
) -> io::Result<()> {
    let word = shared.word();
    for threads in [1, 2, 4] {
        let start = Instant::now(rt)?;
        let made = shared.count_entries(rt, alloc, threads, is_timed);
        let micros = start.elapsed(rt)?.as_micros().max(1);
        if is_timed {
            let rate = u128::from(made) * 1_000_000 / micros;
            println!(rt; "{word}: {threads} threads, {rate} entries per second")?;
        } else {
            println!(rt; "{word}: {threads} threads, {made} entries")?;
        }
    }
    Ok(())
}
