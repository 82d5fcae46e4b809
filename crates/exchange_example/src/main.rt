//! Two users on two threads exchange frames, each by a session of its own: through a switch, and
//! then through a pipe.
#![tactic(auto)]

ghost use Rattle.vale_fabric.specs.Fabrics.{IsPassIn};

use anyhow::Result;
use nm_user::{Book, Fabric, Limits, Name, NoGate, Pass, PortId, Session, Side, SyncFault};
use std::alloc::Global;
use std::io::Print;
use std::sync::Wait;
use std::thread::{Threads, join};

/// A frame to all, from 02:00:00:00:00:01, of the type 88b5, with a letter behind that.
fn frame(letter: u8) -> [u8; 15] {
    [
        255, 255, 255, 255, 255, 255, 2, 0, 0, 0, 0, 1, 0x88, 0xb5, letter,
    ]
}

/// Writes a frame in the first of the user's slots of a transmit ring, and moves the ring's head
/// and cur behind it.
fn put(session: &mut Session, port: PortId, letter: u8) -> Option<()> {
    let ring = session.ring(port, Side::Tx)?;
    let (at, _) = ring.user_range();
    let next = ring.next(at);
    let slot = session.slot_mut(port, Side::Tx, at)?;
    slot.len = 15;
    let idx = slot.buf_idx;
    let bytes = session.bytes_mut(idx)?;
    bytes[..15].copy_from_slice(&frame(letter));
    session.put_positions(port, Side::Tx, next, next);
    Some(())
}

/// Sends a frame until another port is there that takes it. A switch without one drops the frame,
/// which is put again; before a pipe's other end is there it stays in its slot.
fn send<R: Wait>(rt: &R, session: &mut Session, port: PortId, letter: u8) -> Option<()> {
    put(session, port, letter)?;
    for _ in rt.forever() {
        if session.ring(port, Side::Tx).is_none() {
            return None;
        }
        match session.tx_sync(rt, port, &NoGate) {
            Ok(sent) if sent.lone == 0 => return Some(()),
            Ok(_) => put(session, port, letter)?,
            Err(SyncFault::PeerGone) => {}
            Err(_) => return None,
        }
    }
    unreachable!()
}

/// Waits for a frame, and answers with its letter.
fn receive<R: Wait>(rt: &R, session: &mut Session, port: PortId) -> Option<u8> {
    for _ in rt.forever() {
        if !session.has_port(port) {
            return None;
        }
        if session.rx_sync(rt, port, &NoGate).ok()?.gave > 0 {
            let idx = session.slot(port, Side::Rx, 0)?.buf_idx;
            return session.bytes(idx)?.get(14).copied();
        }
    }
    unreachable!()
}

/// Opens a port, sends a frame with a letter there, and waits for the letter of another.
fn exchange<R: Wait>(rt: &R, session: &mut Session, name: &str, letter: u8) -> Option<u8> {
    let name = Name::parse(name).ok()?;
    let port = session.open(rt, &name, 4, 4, 0).ok()?;
    send(rt, session, port, letter)?;
    receive(rt, session, port)
}

/// A user comes, exchanges letters, and leaves.
fn live<R: Wait>(
    rt: &R,
    alloc: Global,
    fabric: &Fabric,
    pass: Pass,
    name: &str,
    letter: u8,
) -> Option<u8>
    requires { IsPassIn fabric.now pass }
{
    let mut session = Session::enter(alloc, rt, fabric, pass, u64::from(letter)).ok()?;
    let heard = exchange(rt, &mut session, name, letter);
    drop(session.leave(rt));
    heard
}

/// Both users live, each on a thread of its own and at the port of its name.
fn live_both<R: Threads + Wait + Sync>(
    rt: &R,
    alloc: Global,
    fabric: &Fabric,
    one: Pass,
    two: Pass,
    names: (&str, &str),
) -> (Option<u8>, Option<u8>)
    requires one { IsPassIn fabric.now one }
    requires two { IsPassIn fabric.now two }
{
    join(
        rt,
        || live(rt, alloc, fabric, one, names.0, b'A'),
        || live(rt, alloc, fabric, two, names.1, b'B'),
    )
}

/// Ends a book once all of its buffers are free, as they are when its users have left.
fn end<R: Wait>(rt: &R, book: Book) {
    for _ in rt.forever() {
        if book.free() == book.buffers() {
            drop(book.close());
            return;
        }
    }
    unreachable!()
}

/// Two users live on a fabric of their own, and what each has heard is printed.
fn meet<R: Print + AllocGlobal + Threads + Wait + Sync>(rt: &R, names: (&str, &str)) -> Result<()> {
    let (fabric, mut pass) = Fabric::new(rt.alloc(), 64, Limits::VERSION_1)?;
    let (one, two) = (fabric.fork(&mut pass), fabric.fork(&mut pass));
    let heard = live_both(rt, rt.alloc(), &fabric, one, two, names);
    end(rt, fabric.close(rt, pass));
    match heard {
        (Some(one), Some(two)) => {
            println!(rt; "{} heard {}", names.0, char::from(one))?;
            println!(rt; "{} heard {}", names.1, char::from(two))?;
        }
        _ => println!(rt; "no memory")?,
    }
    Ok(())
}

fn main(rt: HostRuntime) -> Result<()> {
    meet(&rt, ("vale0:a", "vale0:b"))?;
    meet(&rt, ("pipe0{", "pipe0}"))
}
