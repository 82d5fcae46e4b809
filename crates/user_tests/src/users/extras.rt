//! Chains of extra buffers, whole and broken, as a closed port tells them.
ghost use Rattle.nm_user.specs.Words.{IsPassIn};

use super::lines::play;
use super::{Sizes, User, come, naming, push};
use nm_io::NoGate;
use nm_types::{PortId, Side};
use nm_user::{Detached, Session};
use std::process::Abort;
use std::sync::Wait;
use std::test::Fail;
use vale_cases::{CHAINS, ChainCase, ChainChange};
use vale_fabric::{Fabric, Pass};

/// Two slots in each ring, and three extra buffers.
const EXTRAS: Sizes = Sizes {
    tx: 2,
    rx: 2,
    extra: 3,
};

/// A slot that names the first extra buffer is pushed, with an empty frame.
fn exchange<R: Abort + Wait>(rt: &R, session: &mut Session, port: PortId) {
    session.put_slot(port, Side::Tx, 0, naming(6, 0));
    session.put_positions(port, Side::Tx, 1, 1);
    let sent = push(rt, session, port, &NoGate);
    assert!(rt; sent.pushed == 1 && sent.short == 1);
}

/// Makes a change of the chain.
fn make<R: Abort + Wait>(rt: &R, session: &mut Session, port: PortId, change: ChainChange) {
    match change {
        ChainChange::Nothing => {}
        ChainChange::Head(idx) => assert!(rt; session.set_extra_head(port, idx)),
        ChainChange::Link(from, to) => session.link_extra(port, from, to),
        ChainChange::First(idx) => match session.bytes_mut(6) {
            Some(bytes) => bytes[..4].copy_from_slice(&idx.to_le_bytes()),
            None => panic!(rt; "buffer 6 is not the user's"),
        },
        ChainChange::Exchange => exchange(rt, session, port),
    }
}

/// Three extra buffers of a new port, one behind the other, and no position more.
fn has_extras(rt: &impl Abort, session: &Session, port: PortId) {
    assert!(rt; session.extra_head(port) == Some(6) && session.extra_at(port, 0) == Some(6));
    assert!(rt; session.extra_at(port, 1) == Some(7) && session.extra_at(port, 2) == Some(8));
    assert!(rt; session.extra_at(port, 3).is_none());
}

/// Closes a port.
fn close<R: Abort + Wait>(rt: &R, session: &mut Session, port: PortId) -> Detached {
    assert!(rt; session.has_port(port));
    session.detach(rt, port)
}

/// A user opens a port, changes its chain of extra buffers, closes it and leaves.
fn close_with<R: AllocGlobal + Abort + Wait>(
    rt: &R,
    fabric: &Fabric,
    pass: Pass,
    case: &ChainCase,
) -> Detached
    requires { IsPassIn fabric.now pass }
{
    let User { mut session, port } = come(rt, fabric, pass, 1, "vale0:a", EXTRAS);
    has_extras(rt, &session, port);
    make(rt, &mut session, port, case.change);
    assert!(rt; session.extra_at(port, 0) == Some(case.first));
    let detached = close(rt, &mut session, port);
    drop(session.leave(rt));
    detached
}

#[test]
fn a_closed_port_tells_its_chain(rt: HostRuntime) -> Result<(), Fail> {
    for case in CHAINS {
        let (detached, history) = play(&rt, |fabric, pass| close_with(&rt, fabric, pass, &case))?;
        let chain = case.chain;
        assert_eq!(rt; detached, Detached { unread: 0, chain });
        assert_eq!(rt; history.len(), case.entries);
    }
    Ok(())
}
