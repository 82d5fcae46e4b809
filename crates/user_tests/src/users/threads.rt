//! Two users of one switch, each on a thread of its own.
ghost use Rattle.std.specs.Prelude.{◌≡◌};
ghost use Rattle.nm_user.specs.Words.{IsPassIn};

use super::lines::play;
use super::{Sizes, User, come, leave, pull, push};
use nm_io::NoGate;
use nm_types::PortId;
use nm_user::{Received, Sent, Session};
use std::process::Abort;
use std::sync::Wait;
use std::test::Fail;
use std::thread::{Threads, join_mut};
use vale_fabric::{Fabric, Pass};

/// How many times each user sends.
const TIMES: u32 = 40;

/// How many frames it sends each time.
const FRAMES: u32 = 25;

/// Room for what it sends at a time, and for what it has not read.
const ROOMY: Sizes = Sizes {
    tx: FRAMES + 1,
    rx: 32,
    extra: 0,
};

/// A frame to 02:00:00:00:00:0b from 02:00:00:00:00:0a.
const FROM_ONE: [u8; 14] = [2, 0, 0, 0, 0, 11, 2, 0, 0, 0, 0, 10, 136, 181];

/// A frame the other way round.
const FROM_TWO: [u8; 14] = [2, 0, 0, 0, 0, 10, 2, 0, 0, 0, 0, 11, 136, 181];

/// What a user's calls told: how many frames were given to the other's port, how many found no room
/// there, and how many the user read.
#[derive(Clone, Copy)]
struct Told {
    given: u64,
    full: u64,
    read: u64,
}

/// The frame is put into the port's transmit ring so many times.
fn put(session: &mut Session, port: PortId, frame: &[u8; 14])
    ensures { session.new.fabric ≡ session.old.fabric }
{
    for _ in 0..FRAMES {
        session.put_frame(port, frame);
    }
}

/// The buffers of the frames read before go back, and what is there comes.
fn receive<R: Abort + Wait>(rt: &R, session: &mut Session, port: PortId) -> Received
    ensures { session.new.fabric ≡ session.old.fabric }
{
    session.give_all_back(port);
    pull(rt, session, port)
}

/// All of a user's frames are sent, none of them short or lone, and the other's port is not gone.
fn send<R: Abort + Wait>(rt: &R, user: &mut User, frame: &[u8; 14]) -> Sent
    ensures { user.new.session.fabric ≡ user.old.session.fabric }
{
    put(&mut user.session, user.port, frame);
    let sent = push(rt, &mut user.session, user.port, &NoGate);
    assert!(rt; sent.pushed == FRAMES && sent.short == 0 && sent.lone == 0 && sent.gone == 0);
    sent
}

/// A user sends its frames, and reads what comes as it goes.
fn send_all<R: Abort + Wait>(rt: &R, user: &mut User, frame: &[u8; 14]) -> Told
    ensures { user.new.session.fabric ≡ user.old.session.fabric }
{
    let (mut given, mut full, mut read) = (0u64, 0u64, 0u64);
    for _ in 0..TIMES {
        let sent = send(rt, user, frame);
        given = given.wrapping_add(u64::from(sent.given));
        full = full.wrapping_add(u64::from(sent.full));
        let received = receive(rt, &mut user.session, user.port);
        read = read.wrapping_add(u64::from(received.gave));
    }
    Told { given, full, read }
}

/// Both send, each on a thread.
fn both_send<R: Threads + Abort + Wait + Sync>(
    rt: &R,
    one: &mut User,
    two: &mut User,
) -> (Told, Told)
    ensures first { one.new.session.fabric ≡ one.old.session.fabric }
    ensures second { two.new.session.fabric ≡ two.old.session.fabric }
{
    join_mut(
        rt,
        &mut || send_all(rt, one, &FROM_ONE),
        &mut || send_all(rt, two, &FROM_TWO),
    )
}

/// Two users come, send on two threads, and leave.
fn two_send<R: AllocGlobal + Threads + Abort + Wait + Sync>(
    rt: &R,
    fabric: &Fabric,
    pass: Pass,
) -> (Told, Told)
    requires { IsPassIn fabric.now pass }
{
    let mut pass = pass;
    let two = fabric.fork(&mut pass);
    let mut first = come(rt, fabric, pass, 1, "vale0:a", ROOMY);
    let mut second = come(rt, fabric, two, 2, "vale0:b", ROOMY);
    let both = both_send(rt, &mut first, &mut second);
    let mut left = leave(rt, first);
    fabric.join(&mut left, leave(rt, second));
    both
}

/// Of so many frames each was given or found no room, and of those given some were read by the other.
fn is_told(rt: &impl Abort, user: &Told, other: &Told) {
    assert!(rt; user.given.wrapping_add(user.full) == 1000);
    assert!(rt; other.read <= user.given);
}

#[test]
fn two_users_send_on_two_threads(rt: HostRuntime) -> Result<(), Fail> {
    let ((one, two), _) = play(&rt, |fabric, pass| two_send(&rt, fabric, pass))?;
    is_told(&rt, &one, &two);
    is_told(&rt, &two, &one);
    Ok(())
}
