ghost use Rattle.std.specs.Prelude.{◌≡◌, ◌+◌, ◌<◌, [], length, IfOk, IfErr, OnErr};
ghost use Rattle.nm_types.specs.Buffers.{IsPoolSize};
ghost use Rattle.nm_pool.specs.Free.{AreOut};
ghost use Rattle.nm_region.specs.Buffers.{AreAllOf, opened_buffers};

use crate::look;
use nm_pool::{Pool, TakeFault};
use nm_region::{Buf, Region};
use nm_types::NoMemory;
use std::alloc::Global;
use std::io::{self, Print};
use std::time::{Clock, Duration, Instant};

const FEW: u32 = 64;

const MANY: u32 = 65_536;

/// How often a region is opened. The first time the memory is new to the process.
const OPENINGS: u32 = 4;

/// All free buffers, in one call.
fn take_all(region: &Region, pool: &mut Pool, alloc: Global) -> Result<Vec<Buf>, TakeFault>
    requires { AreOut region.now [] pool.old }
    ensures ok { IfOk result (λ out. AreOut region.now out.items pool.new) }
    ensures err { OnErr result (AreOut region.now [] pool.new) }
{
    let free = pool.free();
    pool.take(alloc, free)
}

fn give_last(region: &Region, pool: &mut Pool, out: &mut Vec<Buf>)
    requires some { 0 < length out.old.items }
    requires out { AreOut region.now out.old.items pool.old }
    ensures count { length out.new.items + 1 ≡ length out.old.items }
    ensures out { AreOut region.now out.new.items pool.new }
{
    let last = out.len() - 1;
    pool.give(out.remove(last));
}

fn give_all(region: &Region, pool: &mut Pool, mut out: Vec<Buf>)
    requires { AreOut region.now out.items pool.old }
    ensures { AreOut region.now [] pool.new }
{
    while !out.is_empty() {
        give_last(region, pool, &mut out);
    }
    out.destroy_empty();
}

/// Takes all buffers of a pool, gives them back, and closes it: how many were free, and the buffers.
fn play(region: &Region, mut pool: Pool, alloc: Global) -> (u32, Vec<Buf>)
    requires { AreOut region.now [] pool }
    ensures { AreAllOf region.now result.1.items }
{
    take_and_give(region, &mut pool, alloc);
    (pool.free(), close_pool(region, pool))
}

fn take_and_give(region: &Region, pool: &mut Pool, alloc: Global)
    requires { AreOut region.now [] pool.old }
    ensures { AreOut region.now [] pool.new }
{
    if let Ok(out) = take_all(region, pool, alloc) {
        give_all(region, pool, out);
    }
}

fn close_pool(region: &Region, pool: Pool) -> Vec<Buf>
    requires { AreOut region.now [] pool }
    ensures { AreAllOf region.now result.items }
{
    pool.close()
}

fn open_pool(region: &Region, all: Vec<Buf>, alloc: Global) -> Result<Pool, (NoMemory, Vec<Buf>)>
    requires size { IsPoolSize region.now.buffers }
    requires all { all.items ≡ opened_buffers region.now }
    ensures ok { IfOk result (AreOut region.now []) }
    ensures err { IfErr result (λ fault. AreAllOf region.now fault.1.items) }
{
    Pool::new(alloc, all)
}

/// How many buffers are free once all were taken and given back.
fn play_all(alloc: Global, buffers: u32) -> u32
    requires { IsPoolSize buffers }
{
    let Ok((region, all)) = Region::new(alloc, buffers) else {
        return 0;
    };
    match open_pool(&region, all, alloc) {
        Ok(pool) => {
            let (free, all) = play(&region, pool, alloc);
            region.close(all);
            free
        }
        Err((_, all)) => {
            region.close(all);
            0
        }
    }
}

/// How long a region of so many buffers takes to open. Their memory is not touched.
fn time_opening<R: Clock>(rt: &R, alloc: Global, buffers: u32) -> io::Result<Duration>
    requires { IsPoolSize buffers }
{
    let start = Instant::now(rt)?;
    let Ok((region, all)) = Region::new(alloc, buffers) else {
        return Err(io::ErrorKind::OutOfMemory.into());
    };
    let time = start.elapsed(rt);
    region.close(all);
    time
}

/// Opens a small pool, takes all buffers and gives them back, and prints how many there were, or, if
/// `is_timed`, the microseconds that openings of a region of 65,536 buffers took, the milliseconds
/// that a pool of as many took, and those of 10 million look-ups of places in a hold with 1, 64 and
/// 1,000 ports.
pub fn run<R: Print + Clock>(rt: &R, alloc: Global, is_timed: bool) -> io::Result<()> {
    if !is_timed {
        let free = play_all(alloc, FEW);
        return println!(rt; "pool: {free} buffers opened, taken and given back");
    }
    for turn in 1..=OPENINGS {
        let micros = time_opening(rt, alloc, MANY)?.as_micros();
        println!(rt; "region: opening {turn} of {MANY} buffers took {micros} us")?;
    }
    let start = Instant::now(rt)?;
    let free = play_all(alloc, MANY);
    let millis = start.elapsed(rt)?.as_millis();
    println!(rt; "pool: {free} buffers opened, taken and given back in {millis} ms")?;
    for ports in [1, 64, 1000] {
        let millis = look::time_look_ups(rt, alloc, ports)?.as_millis();
        println!(rt;
            "hold: {} places looked up among {ports} ports in {millis} ms",
            look::TURNS
        )?;
    }
    Ok(())
}
