ghost use Rattle.std.specs.Prelude.{◌≡◌, ◌+◌, ◌<◌, [], length};
ghost use Rattle.nm_pool.specs.Free.{AreOut};
ghost use Rattle.nm_region.specs.Buffers.{AreAllOf};

use nm_pool::{Pool, TakeFault};
use nm_region::{Buf, Region};
use std::alloc::Global;
use std::process::Abort;
use std::test::Fail;

/// Takes `n` buffers out, behind those that are out.
#[tactic(auto, using(nm_pool::proofs::Out::pool_laws))]
fn take_out(region: &Region, pool: &mut Pool, out: &mut Vec<Buf>, n: u32) -> Result<(), TakeFault>
    requires { AreOut region.now out.old.items pool.old }
    ensures { AreOut region.now out.new.items pool.new }
{
    out.reserve(n as usize)?;
    let mut taken = pool.take(*out.allocator(), n)?;
    match out.append(&mut taken) {
        Ok(()) => taken.destroy_empty(),
        Err(_) => unreachable!(),
    }
    Ok(())
}

/// Gives one of the buffers that are out back.
fn give_at(region: &Region, pool: &mut Pool, out: &mut Vec<Buf>, at: usize)
    requires there { at < length out.old.items }
    requires out { AreOut region.now out.old.items pool.old }
    ensures count { length out.new.items + 1 ≡ length out.old.items }
    ensures out { AreOut region.now out.new.items pool.new }
{
    pool.give(out.remove(at));
}

fn give_all(region: &Region, pool: &mut Pool, mut out: Vec<Buf>)
    requires { AreOut region.now out.items pool.old }
    ensures { AreOut region.now [] pool.new }
{
    while !out.is_empty() {
        let last = out.len() - 1;
        give_at(region, pool, &mut out, last);
    }
    out.destroy_empty();
}

fn have_indices(bufs: &[Buf], indices: &[u32]) -> bool {
    bufs.len() == indices.len() && bufs.iter().zip(indices).all(|(b, i)| b.index() == *i)
}

fn play(
    rt: &impl Abort,
    region: &Region,
    pool: &mut Pool,
    out: &mut Vec<Buf>,
) -> Result<(), TakeFault>
    requires { AreOut region.now out.old.items pool.old }
    ensures { AreOut region.now out.new.items pool.new }
{
    take_out(region, pool, out, 3)?;
    assert!(rt; have_indices(out, &[2, 3, 4]));
    assert_eq!(rt; out.len(), 3);
    give_at(region, pool, out, 1);
    take_out(region, pool, out, 2)?;
    assert!(rt; have_indices(out, &[2, 4, 3, 5]));
    let refused = take_out(region, pool, out, 9);
    if refused == Err(TakeFault::NoMemory) {
        return refused;
    }
    assert!(rt; refused == Err(TakeFault::NoBuffers { want: 9, have: 4 }));
    Ok(())
}

#[test]
fn smallest_buffers_first(rt: HostRuntime) -> Result<(), Fail> {
    let (region, all) = Region::new(rt.alloc(), 8)?;
    let played = match Pool::new(rt.alloc(), all) {
        Ok(mut pool) => {
            assert_eq!(rt; pool.free(), 8);
            let mut out = Vec::new(rt.alloc());
            let played = play(&rt, &region, &mut pool, &mut out);
            give_all(&region, &mut pool, out);
            assert_eq!(rt; pool.free(), 8);
            let all = pool.close();
            assert!(rt; have_indices(&all, &[2, 3, 4, 5, 6, 7, 8, 9]));
            region.close(all);
            played
        }
        Err((_, all)) => {
            region.close(all);
            Err(TakeFault::NoMemory)
        }
    };
    Ok(played?)
}
