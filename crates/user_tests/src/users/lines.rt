//! What a history has, entry by entry, and the history of users who have left.
ghost use Rattle.nm_user.specs.Words.{IsPassIn};

use nm_types::{Chain, Limits, NoMemory};
use std::process::Abort;
use std::sync::Wait;
use vale_entry::{Ask, Entry, History, Reply};
use vale_fabric::{Fabric, Pass};

/// Room for any life here.
const LIMITS: Limits = Limits {
    entries: 10_000,
    bytes: 1_000_000,
};

/// No extra buffers.
pub(super) const NONE: Chain = Chain {
    found: 0,
    astray: 0,
};

/// What an entry asked and was answered, as far as a test looks at it.
#[derive(Clone, Copy, PartialEq, Eq)]
pub(super) enum Line {
    /// A send: the port, and how many frames were short and lone.
    Send(u32, u32, u32),
    /// A grant: of which entry, to which port, and how many frames were given, full and gone.
    Grant(u32, u32, u32, u32, u32),
    /// A completion: of which grant.
    Done(u32),
    /// A sync: the port, and how many frames came.
    Sync(u32, u32),
    /// A port that is shut.
    Shut(u32),
    /// A port that goes: its chain of extra buffers, and how many frames nobody read.
    Finish(u32, Chain, u32),
    /// What users ask as they come and leave, and of a monitor.
    Other,
}

fn line_of(entry: &Entry) -> Line {
    match (&entry.ask, &entry.reply) {
        (Ask::Send { port, .. }, Reply::Offered { short, lone, .. }) => {
            Line::Send(port.0, *short, *lone)
        }
        (Ask::Grant { origin, to }, Reply::Shared { given, full, gone }) => {
            Line::Grant(*origin, to.0, *given, *full, *gone)
        }
        (Ask::Done { lease }, Reply::Made) => Line::Done(lease.0),
        (Ask::Sync { port, .. }, Reply::Gave { count, .. }) => Line::Sync(port.0, *count),
        (Ask::Shut { port }, Reply::Made) => Line::Shut(port.0),
        (Ask::Finish { port, chain, .. }, Reply::Unread { count }) => {
            Line::Finish(port.0, *chain, *count)
        }
        _ => Line::Other,
    }
}

/// The entries of these kinds are first these, each with its session.
pub(super) fn are_lines(rt: &impl Abort, history: &History, wanted: &[(u32, Line)]) {
    let mut at = 0;
    for entry in history.entries() {
        let line = line_of(entry);
        if line != Line::Other && at < wanted.len() {
            assert!(rt; (entry.session.0, line) == wanted[at], "line {at}");
            at += 1;
        }
    }
    assert!(rt; at == wanted.len(), "{at} lines");
}

/// Users live on a fabric of 256 buffers. Answers what their life told, and what was recorded once all
/// have left: every buffer is free again.
pub(super) fn play<R: AllocGlobal + Abort + Wait, T, F: FnOnce(&Fabric, Pass) -> T>(
    rt: &R,
    life: F,
) -> Result<(T, History), NoMemory>
    requires { (fabric : _) (pass : _) → IsPassIn fabric.now pass → F.pre life fabric pass }
{
    let (fabric, mut pass) = Fabric::new(rt.alloc(), 256, LIMITS)?;
    let told = life(&fabric, fabric.fork(&mut pass));
    let book = fabric.close(rt, pass);
    assert!(rt; book.free() == book.buffers());
    Ok((told, book.close()))
}
