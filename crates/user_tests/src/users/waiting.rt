//! A port with a lease out is closed on another thread: it is shut at once, and goes once the lease
//! is completed.
ghost use Rattle.nm_user.specs.Words.{IsPassIn};

use super::gates::send;
use super::lines::{Line, NONE, are_lines, play};
use super::{FOUR, FRAME, MONITOR, User, leave, name_of, three_come};
use nm_io::{Gate, Stage};
use nm_types::{Sides, WatchFault};
use nm_user::Detached;
use std::process::Abort;
use std::sync::{Barrier, Mutex, Wait};
use std::test::Fail;
use std::thread::{self, Threads, join_mut};
use std::time::{Clock, Duration};
use vale_fabric::{Fabric, Pass};

/// Holds a user at its first grant, lets another thread close the port, and waits until it is shut.
struct UntilShut<'r, 'f, R> {
    rt: &'r R,
    go: Barrier,
    watcher: Mutex<User<'f>>,
}

/// Whether the port to be closed is not open: no user's monitor can watch it then.
fn finds_none<R: Abort + Wait>(rt: &R, watcher: &mut User) -> bool {
    let name = name_of(rt, "vale0:c");
    assert!(rt; watcher.session.is_monitor(watcher.port) && name.is_switch_port());
    let watched = watcher.session.watch(rt, watcher.port, &name, Sides::T);
    matches!(watched, Err(WatchFault::NoTarget))
}

/// Waits until it is shut.
fn await_shut<R: Abort + Wait + Clock>(rt: &R, watcher: &mut User) {
    for _ in 0..5_000 {
        if finds_none(rt, watcher) {
            return;
        }
        thread::sleep(rt, Duration::from_millis(1));
    }
    panic!(rt; "the port is open still");
}

impl<'r, 'f, R: Abort + Wait + Clock + Sync> Gate for UntilShut<'r, 'f, R> {
    fn pass(&self, _user: u64, stage: Stage) {
        if stage == Stage::Granted {
            self.go.wait(self.rt);
            await_shut(self.rt, &mut self.watcher.lock(self.rt));
        }
    }
}

/// Closes a user's port once a gate lets it.
fn close_at<R: Abort + Wait>(rt: &R, go: &Barrier, user: &mut User) -> Detached {
    go.wait(rt);
    assert!(rt; user.session.has_port(user.port));
    user.session.detach(rt, user.port)
}

/// A frame is sent past the gate, and on another thread the port to which it goes is closed. Answers
/// what that told.
fn send_and_close<R: Threads + Abort + Wait + Clock + Sync>(
    rt: &R,
    gate: &UntilShut<R>,
    first: &mut User,
    third: &mut User,
) -> Detached {
    let (_, detached) = join_mut(
        rt,
        &mut || send(rt, first, &FRAME, gate),
        &mut || close_at(rt, &gate.go, third),
    );
    detached
}

/// The first user sends a frame to the third, which closes its port on another thread before the
/// frame is copied. Answers what that told.
fn close_while_held<R: AllocGlobal + Threads + Abort + Wait + Clock + Sync>(
    rt: &R,
    fabric: &Fabric,
    pass: Pass,
) -> Detached
    requires { IsPassIn fabric.now pass }
{
    let ports = [("vale0:a", FOUR), ("mon0", MONITOR), ("vale0:c", FOUR)];
    let (mut first, watcher, mut third) = three_come(rt, fabric, pass, ports);
    let gate = UntilShut {
        rt,
        go: Barrier::new(2),
        watcher: Mutex::new(watcher),
    };
    let detached = send_and_close(rt, &gate, &mut first, &mut third);
    let UntilShut {
        rt: _,
        go: _,
        watcher,
    } = gate;
    drop(leave(rt, first));
    drop(leave(rt, watcher.into_inner()));
    drop(leave(rt, third));
    detached
}

/// The sessions are 1, 3 and 5, and the ports 2, 4 and 6.
const LINES: &[(u32, Line)] = &[
    (1, Line::Send(2, 0, 0)),
    (1, Line::Grant(7, 6, 1, 0, 0)),
    (5, Line::Shut(6)),
    (1, Line::Done(8)),
    (5, Line::Finish(6, NONE, 1)),
];

#[test]
fn a_port_goes_once_its_lease_is_done(rt: HostRuntime) -> Result<(), Fail> {
    let (detached, history) = play(&rt, |fabric, pass| close_while_held(&rt, fabric, pass))?;
    assert!(rt; detached.unread == 1 && detached.chain == NONE);
    are_lines(&rt, &history, LINES);
    Ok(())
}
