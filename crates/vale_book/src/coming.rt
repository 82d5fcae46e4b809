ghost use Rattle.std.specs.Prelude.{◌≡◌, ◌+◌, ◌<◌, ◌^◌, [], ◌∷◌, ◌++◌, length, OnOk, OnErr, IfOk};
ghost use Rattle.std.specs.Prelude.{IfErr};
ghost use Rattle.vale_entry.specs.declared.entry.Ask.TheVariants as asks;
ghost use Rattle.vale_entry.specs.declared.entry.Reply.TheVariants as replies;
ghost use Rattle.vale_book.specs.Words.{Fits, IsFull};
ghost use Rattle.vale_own.specs.Recorded.{after_ask, IsRefusal, HasRoom};

use crate::book::Book;
use nm_types::{SessionId, StepFault};
use vale_entry::{Ask, Entry, History, Reply};

/// Records that a user comes, as a session.
fn enter(
    history: &mut History,
    sessions: &mut Vec<SessionId>,
    user: u64,
) -> Result<SessionId, StepFault>
    ensures entries { IfOk result (λ id. history.new.entries ≡ history.old.entries ++ (record {
      session = id;
      ask = asks.Enter user;
      reply = replies.Made;
    }) ∷ []) }
    ensures number { IfOk result (λ id. id.0 ≡ length history.old.entries + 1) }
    ensures promised { OnOk result (history.new.promised ≡ history.old.promised + 1) }
    ensures sessions { IfOk result (λ id. sessions.new.items ≡ sessions.old.items ++ id ∷ []) }
    ensures limits { history.new.limits ≡ history.old.limits }
    ensures fits { OnOk result (Fits history.old 2 0) }
    ensures full { IfErr result (IsFull history.old 2 0) }
    ensures err { OnErr result ((history.new.entries ≡ history.old.entries)
        × (history.new.promised ≡ history.old.promised)
        × (sessions.new.items ≡ sessions.old.items)) }
{
    sessions.reserve(1)?;
    history.reserve(2, 0)?;
    let id = SessionId(history.len() + 1);
    sessions.push_reserved(id);
    history.push(Entry {
        session: id,
        ask: Ask::Enter { user },
        reply: Reply::Made,
    });
    Ok(id)
}

impl Book {
    /// A user comes, as a session. Room for its leaving is promised.
    pub fn enter(&mut self, user: u64) -> Result<SessionId, StepFault>
        ensures made { OnOk result (self.new ≡ after_ask self.old (asks.Enter user)) }
        ensures id { IfOk result (λ id. id.0 ≡ length self.new.entries) }
        ensures fits { user < 2 ^ 64 }
        ensures room { OnOk result (HasRoom self.old (asks.Enter user)) }
        ensures full { IfErr result (IsRefusal self.old (asks.Enter user)) }
        ensures err { OnErr result (self.new ≡ self.old) }
    {
        enter(&mut self.history, &mut self.sessions, user)
    }
}
