//! What users of sessions do at their ports.

use nm_io::NoGate;
use nm_types::{Name, PortId, Side};
use nm_user::Session;
use std::sync::Wait;
use vale_book::Book;

/// Opens a port whose rings have as many slots.
pub fn open<R: Wait>(rt: &R, session: &mut Session, name: &str, slots: u32) -> Option<PortId> {
    let name = Name::parse(name).ok()?;
    session.open(rt, &name, slots, slots, 0).ok()
}

/// Sends what was put at a port. Answers how many frames found room.
pub fn send<R: Wait>(rt: &R, session: &mut Session, port: PortId) -> Option<u32> {
    if session.ring(port, Side::Tx).is_none() {
        return None;
    }
    Some(session.tx_sync(rt, port, &NoGate).ok()?.given)
}

/// Gives back the buffers of the frames that came before, and takes those that are there. Answers
/// how many came.
pub fn receive<R: Wait>(rt: &R, session: &mut Session, port: PortId) -> Option<u32> {
    session.give_all_back(port);
    if !session.has_port(port) {
        return None;
    }
    Some(session.rx_sync(rt, port, &NoGate).ok()?.gave)
}

/// Ends a book once all of its buffers are free, as they are when its users have left. Answers how
/// many entries it has.
pub fn end<R: Wait>(rt: &R, book: Book) -> u32 {
    for _ in rt.forever() {
        if book.free() == book.buffers() {
            return book.close().len();
        }
    }
    unreachable!()
}
