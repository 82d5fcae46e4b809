ghost use Rattle.vale_fabric.specs.Fabrics.{IsPassIn};

use crate::users;
use nm_types::Limits;
use std::alloc::Global;
use std::sync::Wait;
use std::thread::{Threads, join};
use vale_fabric::{Fabric, Pass};

/// The buffers of the pool, of which none is handed out.
const BUFFERS: u32 = 8;

/// A user comes and leaves, if there is room and memory.
fn come_and_leave<R: Wait>(rt: &R, fabric: &Fabric, pass: &mut Pass, user: u32)
    requires { IsPassIn fabric.now pass.old }
    ensures { IsPassIn fabric.now pass.new }
{
    if let Ok(session) = fabric.enter(rt, pass, u64::from(user)) {
        fabric.leave(rt, pass, session);
    }
}

/// So many users come and leave, one after another, as far as there is room and memory.
fn come<R: Wait>(rt: &R, fabric: &Fabric, mut pass: Pass, count: u32)
    requires { IsPassIn fabric.now pass }
{
    for user in 0..count {
        come_and_leave(rt, fabric, &mut pass, user);
    }
}

/// Users come and leave on `threads` threads, a power of two, each of which has its part of `count`:
/// each half in a thread of its own.
fn come_by<R: Threads + Wait + Sync>(
    rt: &R,
    fabric: &Fabric,
    mut pass: Pass,
    threads: u32,
    count: u32,
)
    requires { IsPassIn fabric.now pass }
{
    if threads < 2 {
        come(rt, fabric, pass, count);
        return;
    }
    let other = fabric.fork(&mut pass);
    join(
        rt,
        ||
            requires { IsPassIn fabric.now pass }
        { come_by(rt, fabric, pass, threads / 2, count / 2) },
        ||
            requires { IsPassIn fabric.now other }
        { come_by(rt, fabric, other, threads / 2, count / 2) },
    );
}

/// Counts the entries that there are after users have come and left on as many threads, `count` in
/// all.
pub fn entries<R: Threads + Wait + Sync>(rt: &R, alloc: Global, threads: u32, count: u32) -> u32 {
    let Ok((fabric, mut pass)) = Fabric::new(alloc, BUFFERS, Limits::VERSION_1) else {
        return 0;
    };
    let own = fabric.fork(&mut pass);
    come_by(rt, &fabric, own, threads, count);
    users::end(rt, fabric.close(rt, pass))
}
