ghost use Rattle.std.specs.Prelude.{◌≡◌, ◌+◌, ◌<◌, [], ◌∷◌, ◌++◌, None, Some, OnErr, IfOk, IfErr};
ghost use Rattle.vale_entry.specs.declared.entry.Ask.TheVariants as asks;
ghost use Rattle.vale_book.specs.Words.{Fits, IsEnabled, IsFull, IsRecordedAs, Reply as Answer};
ghost use Rattle.vale_book.specs.Words.{bytes_of, standing};
ghost use Rattle.vale_entry.specs.declared.entry.Reply.TheVariants as replies;
ghost use Rattle.vale_book.specs.WatchAnswers.{IsUnwatched};
ghost use Rattle.vale_book.specs.WatchSteps.{reply_of_watch, IsWatch, IsNoWatch};

use crate::book::Book;
use crate::noting::session_at;
use nm_types::{Name, PortId, SessionId, Sides, WatchFault};
use nm_watch::Watches;
use vale_entry::{Ask, Entry, History, Reply};
use vale_port::open_port;

/// Makes a monitor watch the port that was found, if there is one without a monitor.
fn watch_found(
    watches: &mut Watches,
    found: Option<PortId>,
    monitor: PortId,
    sides: Sides,
) -> Result<PortId, WatchFault>
    ensures watched { IfOk result (IsWatch watches.old watches.new found monitor sides) }
    ensures unwatched { IfErr result (IsNoWatch (λ full. ⊥) watches.old found) }
    ensures err { OnErr result (watches.new ≡ watches.old) }
{
    let Some(target) = found else {
        return Err(WatchFault::NoTarget);
    };
    watches.add(target, monitor, sides)?;
    Ok(target)
}

/// The reply that an answer is recorded with.
fn reply_of_watch(answer: &Result<PortId, WatchFault>) -> Option<Reply>
    ensures { result ≡ reply_of_watch answer.now }
{
    match answer {
        Ok(target) => Some(Reply::Watching { target: *target }),
        Err(WatchFault::NoTarget) => Some(Reply::NoTarget),
        Err(WatchFault::Watched { by }) => Some(Reply::Watched { by: *by }),
        Err(_) => None,
    }
}

/// Stores an answer to a monitor in the room that was promised for it, or gives the room up.
fn store_answer(
    history: &mut History,
    session: SessionId,
    ask: Ask,
    answer: &Result<PortId, WatchFault>,
)
    requires promised { 0 < history.old.promised }
    requires bytes { (reply : Answer) → bytes_of ask reply ≡ 0 }
    ensures entries { (reply : Answer) → reply_of_watch answer.now ≡ Some reply
        → history.new.entries ≡ history.old.entries
        ++ (record { session = session; ask = ask; reply = reply }) ∷ [] }
    ensures none { reply_of_watch answer.now ≡ None → history.new.entries ≡ history.old.entries }
    ensures promised { history.new.promised + 1 ≡ history.old.promised }
    ensures limits { history.new.limits ≡ history.old.limits }
{
    match reply_of_watch(answer) {
        Some(reply) => history.push(Entry {
            session,
            ask,
            reply,
        }),
        None => history.release(1),
    }
}

/// Makes a monitor watch the port that its target's name finds, and records the answer.
fn watch(
    history: &mut History,
    watches: &mut Watches,
    session: SessionId,
    monitor: PortId,
    target: &Name,
    sides: Sides,
    found: Option<PortId>,
) -> Result<PortId, WatchFault>
    ensures entries { (reply : Answer) → reply_of_watch result ≡ Some reply
        → (history.new.entries ≡ history.old.entries ++ (record {
          session = session;
          ask = asks.Watch monitor target.now sides;
          reply = reply;
        }) ∷ []) × Fits history.old 1 0 }
    ensures none { reply_of_watch result ≡ None → history.new.entries ≡ history.old.entries }
    ensures promised { history.new.promised ≡ history.old.promised }
    ensures limits { history.new.limits ≡ history.old.limits }
    ensures watched { IfOk result (IsWatch watches.old watches.new found monitor sides) }
    ensures unwatched { IfErr result (IsNoWatch (IsFull history.old 1 0) watches.old found) }
    ensures err { OnErr result (watches.new ≡ watches.old) }
{
    history.reserve(1, 0)?;
    let answer = watch_found(watches, found, monitor, sides);
    let ask = Ask::Watch {
        monitor,
        target: *target,
        sides,
    };
    store_answer(history, session, ask, &answer);
    answer
}

impl Book {
    /// A monitor watches these sides of the port of this name: it gets a copy of each frame that
    /// passes there. Answers which port that is. That no open port has the name, and that the port
    /// has a monitor, are recorded; a full record and want of memory change nothing.
    pub fn watch(
        &mut self,
        monitor: PortId,
        target: &Name,
        sides: Sides,
    ) -> Result<PortId, WatchFault>
        requires { IsEnabled (standing self.old) (asks.Watch monitor target.now sides) }
        ensures watched { IfOk result (λ port. IsRecordedAs self.old self.new
            (asks.Watch monitor target.now sides) (replies.Watching port)) }
        ensures unwatched { IfErr result
            (IsUnwatched self.old self.new (asks.Watch monitor target.now sides)) }
    {
        let Some(place) = open_port(&self.ports, monitor) else {
            unreachable!()
        };
        let session = session_at(&self.ports, place);
        let found = self.names.find(target);
        watch(
            &mut self.history,
            &mut self.watches,
            session,
            monitor,
            target,
            sides,
            found,
        )
    }
}
