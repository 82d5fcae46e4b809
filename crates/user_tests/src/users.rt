//! Sessions on one fabric, from coming to leaving.
ghost use Rattle.std.specs.Prelude.{◌≡◌};
ghost use Rattle.nm_user.specs.Words.{IsPassIn};

use lines::play;
use nm_io::{Gate, NoGate};
use nm_types::{Name, PortId, Side, Sides, Slot, SlotFlags, SyncFault};
use nm_user::{Received, Sent, Session};
use std::process::Abort;
use std::sync::Wait;
use std::test::Fail;
use vale_fabric::{Fabric, Pass};

mod extras;
mod gates;
mod lines;
mod long;
mod threads;
mod waiting;

/// A broadcast from 02:00:00:00:00:0a.
const FRAME: [u8; 14] = [255, 255, 255, 255, 255, 255, 2, 0, 0, 0, 0, 10, 136, 181];

/// What refuses a head of 2 in a receive ring whose only frame went back.
const OUT: SyncFault = SyncFault::HeadOut {
    head: 2,
    from: 1,
    to: 1,
};

/// What refuses a slot that names a buffer of another user's.
const FOREIGN: SyncFault = SyncFault::NotHeld { slot: 0, idx: 3 };

/// The first transmit slot of the port that was opened second, as a reset leaves it.
const RESET: Slot = Slot {
    buf_idx: 10,
    len: 0,
    flags: 0,
    ptr: 0,
};

/// The slots of a port's rings, and its extra buffers.
#[derive(Clone, Copy)]
struct Sizes {
    tx: u32,
    rx: u32,
    extra: u32,
}

/// Four slots in each ring.
const FOUR: Sizes = Sizes {
    tx: 4,
    rx: 4,
    extra: 0,
};

/// A monitor's: no transmit slots.
const MONITOR: Sizes = Sizes {
    tx: 0,
    rx: 4,
    extra: 0,
};

/// A user with a port.
struct User<'f> {
    session: Session<'f>,
    port: PortId,
}

/// The name that a text is.
fn name_of(rt: &impl Abort, text: &str) -> Name {
    match Name::parse(text) {
        Ok(name) => name,
        Err(_) => panic!(rt; "{text}"),
    }
}

/// A port of this name is opened.
fn open<R: Abort + Wait>(rt: &R, session: &mut Session, name: &str, sizes: Sizes) -> PortId
    ensures fabric { session.new.fabric ≡ session.old.fabric }
{
    let name = name_of(rt, name);
    match session.open(rt, &name, sizes.tx, sizes.rx, sizes.extra) {
        Ok(port) => port,
        Err(fault) => panic!(rt; "{fault:?}"),
    }
}

/// A user comes, and opens a port of this name.
fn come<'f, R: AllocGlobal + Abort + Wait>(
    rt: &R,
    fabric: &'f Fabric,
    pass: Pass,
    user: u64,
    name: &str,
    sizes: Sizes,
) -> User<'f>
    requires { IsPassIn fabric.now pass }
    ensures { result.session.fabric ≡ fabric.now }
{
    match Session::enter(rt.alloc(), rt, fabric, pass, user) {
        Ok(mut session) => {
            let port = open(rt, &mut session, name, sizes);
            User { session, port }
        }
        Err((fault, _pass)) => panic!(rt; "{fault:?}"),
    }
}

/// A user leaves.
fn leave<R: Wait>(rt: &R, user: User) -> Pass
    ensures { IsPassIn user.entry.session.fabric result }
{
    let User { session, port: _ } = user;
    session.leave(rt)
}

/// Three users come, and open a port each.
fn three_come<'f, R: AllocGlobal + Abort + Wait>(
    rt: &R,
    fabric: &'f Fabric,
    pass: Pass,
    ports: [(&str, Sizes); 3],
) -> (User<'f>, User<'f>, User<'f>)
    requires { IsPassIn fabric.now pass }
    ensures { result.0.session.fabric ≡ fabric.now × result.1.session.fabric ≡ fabric.now
        × result.2.session.fabric ≡ fabric.now }
{
    let mut pass = pass;
    let two = fabric.fork(&mut pass);
    let three = fabric.fork(&mut pass);
    let [first, second, third] = ports;
    (
        come(rt, fabric, pass, 1, first.0, first.1),
        come(rt, fabric, two, 2, second.0, second.1),
        come(rt, fabric, three, 3, third.0, third.1),
    )
}

/// A slot that names another buffer than before, with so many bytes.
fn naming(buf_idx: u32, len: u16) -> Slot {
    Slot {
        buf_idx,
        len,
        flags: SlotFlags::BUF_CHANGED.0,
        ptr: 0,
    }
}

/// The first of the user's slots of a ring, and their number.
fn user_slots(session: &Session, port: PortId, side: Side) -> Option<(u32, u32)> {
    match session.ring(port, side) {
        Some(ring) => Some(ring.user_range()),
        None => None,
    }
}

/// What is pushed at a port goes on, past a gate.
fn push<R: Abort + Wait, G: Gate>(rt: &R, session: &mut Session, port: PortId, gate: &G) -> Sent
    ensures { session.new.fabric ≡ session.old.fabric }
{
    assert!(rt; session.ring(port, Side::Tx).is_some());
    match session.tx_sync(rt, port, gate) {
        Ok(sent) => sent,
        Err(fault) => panic!(rt; "{fault:?}"),
    }
}

/// What is ready at a port comes.
fn pull<R: Abort + Wait>(rt: &R, session: &mut Session, port: PortId) -> Received
    ensures { session.new.fabric ≡ session.old.fabric }
{
    assert!(rt; session.has_port(port));
    match session.rx_sync(rt, port, &NoGate) {
        Ok(received) => received,
        Err(fault) => panic!(rt; "{fault:?}"),
    }
}

/// A frame that was put goes on, and so many ports are granted it.
fn send<R: Abort + Wait>(rt: &R, session: &mut Session, port: PortId, given: u32)
    ensures { session.new.fabric ≡ session.old.fabric }
{
    let sent = push(rt, session, port, &NoGate);
    assert!(rt; sent.pushed == 1 && sent.given == given);
}

/// So many frames come, and so many buffers go back.
fn sync<R: Abort + Wait>(rt: &R, session: &mut Session, port: PortId, gave: u32, returned: u32)
    ensures { session.new.fabric ≡ session.old.fabric }
{
    let received = pull(rt, session, port);
    assert!(rt; received.gave == gave && received.returned == returned);
}

/// The first slot of a transmit ring, and the bytes of its buffer, are written as a frame.
fn write_frame<R: Abort>(rt: &R, session: &mut Session, port: PortId)
    ensures { session.new.fabric ≡ session.old.fabric }
{
    let idx = match session.slot_mut(port, Side::Tx, 0) {
        Some(slot) => {
            slot.len = 14;
            slot.buf_idx
        }
        None => panic!(rt; "no slot"),
    };
    assert!(rt; session.bytes(idx).is_some());
    session.lend(idx)[..14].copy_from_slice(&FRAME);
    session.put_positions(port, Side::Tx, 1, 1);
}

/// The frame is received, and its bytes are those that were sent.
fn receive<R: Abort + Wait>(rt: &R, session: &mut Session, port: PortId)
    ensures { session.new.fabric ≡ session.old.fabric }
{
    sync(rt, session, port, 1, 0);
    assert!(rt; is_broadcast(session, port));
}

/// The first receive slot of a port has the broadcast.
fn is_broadcast(session: &Session, port: PortId) -> bool {
    match session.slot(port, Side::Rx, 0) {
        Some(slot) => match session.bytes(slot.buf_idx) {
            Some(bytes) => slot.len == 14 && bytes.starts_with(&FRAME),
            None => false,
        },
        None => false,
    }
}

/// The frame's buffer goes back, and nothing comes.
fn give_back<R: Abort + Wait>(rt: &R, session: &mut Session, port: PortId)
    ensures { session.new.fabric ≡ session.old.fabric }
{
    session.give_all_back(port);
    sync(rt, session, port, 0, 1);
}

/// A head beyond the user's slots is refused, and the ring reset.
fn go_too_far<R: Abort + Wait>(rt: &R, session: &mut Session, port: PortId)
    ensures { session.new.fabric ≡ session.old.fabric }
{
    session.set_head(port, Side::Rx, 2);
    assert!(rt; session.has_port(port));
    match session.rx_sync(rt, port, &NoGate) {
        Ok(received) => panic!(rt; "{received:?}"),
        Err(fault) => assert!(rt; fault == OUT, "{fault:?}"),
    }
    assert!(rt; user_slots(session, port, Side::Rx) == Some((1, 0)));
}

/// Whether the transmit ring is as a reset leaves it.
fn is_reset(session: &Session, port: PortId) -> bool {
    match session.slot(port, Side::Tx, 0) {
        Some(slot) => *slot == RESET && user_slots(session, port, Side::Tx) == Some((0, 3)),
        None => false,
    }
}

/// A slot that names another user's buffer, the second one of the port that was opened first, is
/// refused, and the ring reset.
fn name_foreign<R: Abort + Wait>(rt: &R, session: &mut Session, port: PortId)
    ensures { session.new.fabric ≡ session.old.fabric }
{
    session.put_slot(port, Side::Tx, 0, naming(3, 14));
    session.put_positions(port, Side::Tx, 1, 1);
    assert!(rt; session.ring(port, Side::Tx).is_some());
    match session.tx_sync(rt, port, &NoGate) {
        Ok(sent) => panic!(rt; "{sent:?}"),
        Err(fault) => assert!(rt; fault == FOREIGN, "{fault:?}"),
    }
    assert!(rt; is_reset(session, port));
}

/// A monitor watches these sides of a port of a switch.
fn watch<R: Abort + Wait>(rt: &R, session: &mut Session, monitor: PortId, target: (&str, Sides))
    ensures { session.new.fabric ≡ session.old.fabric }
{
    let (target, sides) = target;
    let name = name_of(rt, target);
    assert!(rt; session.is_monitor(monitor) && name.is_switch_port());
    match session.watch(rt, monitor, &name, sides) {
        Ok(_) => {}
        Err(fault) => panic!(rt; "{fault:?}"),
    }
}

/// A new port has three transmit slots for its user, and nothing to read.
fn is_new(rt: &impl Abort, user: &User) {
    assert!(rt; user_slots(&user.session, user.port, Side::Tx) == Some((0, 3)));
    assert!(rt; user_slots(&user.session, user.port, Side::Rx) == Some((0, 0)));
}

/// One user sends a frame to another, who reads it and gives its buffer back.
fn send_to<R: Abort + Wait>(rt: &R, sender: &mut User, receiver: &mut User)
    ensures sender { sender.new.session.fabric ≡ sender.old.session.fabric }
    ensures receiver { receiver.new.session.fabric ≡ receiver.old.session.fabric }
{
    sender.session.put_frame(sender.port, &FRAME);
    send(rt, &mut sender.session, sender.port, 1);
    receive(rt, &mut receiver.session, receiver.port);
    give_back(rt, &mut receiver.session, receiver.port);
    go_too_far(rt, &mut receiver.session, receiver.port);
}

/// One user sends a frame to another, and both leave.
fn send_and_leave<R: AllocGlobal + Abort + Wait>(rt: &R, fabric: &Fabric, pass: Pass)
    requires { IsPassIn fabric.now pass }
{
    let mut pass = pass;
    let two = fabric.fork(&mut pass);
    let mut sender = come(rt, fabric, pass, 1, "vale0:a", FOUR);
    let mut receiver = come(rt, fabric, two, 2, "vale0:b", FOUR);
    is_new(rt, &sender);
    send_to(rt, &mut sender, &mut receiver);
    let mut left = leave(rt, sender);
    fabric.join(&mut left, leave(rt, receiver));
}

/// A frame goes through a pipe.
fn go_through<R: Abort + Wait>(rt: &R, master: &mut User, slave: &mut User)
    ensures master { master.new.session.fabric ≡ master.old.session.fabric }
    ensures slave { slave.new.session.fabric ≡ slave.old.session.fabric }
{
    write_frame(rt, &mut master.session, master.port);
    send(rt, &mut master.session, master.port, 0);
    receive(rt, &mut slave.session, slave.port);
}

/// Two users open a port of a switch each, and a frame goes from one to the other and to a monitor.
fn go_to_both<R: Abort + Wait>(rt: &R, one: &mut User, other: &mut User, watcher: &mut User)
    ensures one { one.new.session.fabric ≡ one.old.session.fabric }
    ensures other { other.new.session.fabric ≡ other.old.session.fabric }
    ensures watcher { watcher.new.session.fabric ≡ watcher.old.session.fabric }
{
    let sender = open(rt, &mut one.session, "vale0:a", FOUR);
    let receiver = open(rt, &mut other.session, "vale0:b", FOUR);
    watch(
        rt,
        &mut watcher.session,
        watcher.port,
        ("vale0:a", Sides::T),
    );
    one.session.put_frame(sender, &FRAME);
    send(rt, &mut one.session, sender, 2);
    receive(rt, &mut other.session, receiver);
    receive(rt, &mut watcher.session, watcher.port);
}

/// A frame goes through a pipe, and one to a port of a switch and to a monitor; a slot that names
/// another user's buffer is refused; and all leave.
fn pipe_and_watch<R: AllocGlobal + Abort + Wait>(rt: &R, fabric: &Fabric, pass: Pass)
    requires { IsPassIn fabric.now pass }
{
    let ports = [("pipe0{", FOUR), ("pipe0}", FOUR), ("mon0", MONITOR)];
    let (mut master, mut slave, mut watcher) = three_come(rt, fabric, pass, ports);
    let to = slave.port;
    go_through(rt, &mut master, &mut slave);
    go_to_both(rt, &mut master, &mut slave, &mut watcher);
    name_foreign(rt, &mut slave.session, to);
    let mut left = leave(rt, master);
    fabric.join(&mut left, leave(rt, slave));
    fabric.join(&mut left, leave(rt, watcher));
}

#[test]
fn a_frame_goes_from_one_user_to_another(rt: HostRuntime) -> Result<(), Fail> {
    drop(play(&rt, |fabric, pass| send_and_leave(&rt, fabric, pass))?);
    Ok(())
}

#[test]
fn frames_go_through_a_pipe_and_to_a_monitor(rt: HostRuntime) -> Result<(), Fail> {
    drop(play(&rt, |fabric, pass| pipe_and_watch(&rt, fabric, pass))?);
    Ok(())
}
