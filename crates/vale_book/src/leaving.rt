ghost use Rattle.std.specs.Prelude.{◌≡◌, ◌+◌, ◌<◌, [], ◌∷◌, ◌++◌};
ghost use Rattle.vale_entry.specs.declared.entry.Ask.TheVariants as asks;
ghost use Rattle.vale_entry.specs.declared.entry.Reply.TheVariants as replies;
ghost use Rattle.vale_book.specs.Sessions.{users_without};
ghost use Rattle.vale_book.specs.Words.{HasRoom, IsEnabled, after_ask, standing};

use crate::book::Book;
use nm_types::SessionId;
use vale_entry::{Ask, Entry, History, Reply};

/// Records that a session leaves.
fn leave(history: &mut History, sessions: &mut Vec<SessionId>, session: SessionId)
    requires { 0 < history.old.promised }
    ensures entries { history.new.entries ≡ history.old.entries ++ (record {
      session = session;
      ask = asks.Leave session;
      reply = replies.Made;
    }) ∷ [] }
    ensures promised { history.new.promised + 1 ≡ history.old.promised }
    ensures limits { history.new.limits ≡ history.old.limits }
    ensures sessions { sessions.new.items ≡ users_without session.0 sessions.old.items }
{
    sessions.retain(|other| other.0 != session.0);
    history.push(Entry {
        session,
        ask: Ask::Leave { session },
        reply: Reply::Made,
    });
}

impl Book {
    /// The session ends.
    pub fn leave(&mut self, session: SessionId)
        requires { IsEnabled (standing self.old) (asks.Leave session) }
        ensures made { self.new ≡ after_ask self.old (asks.Leave session) }
        ensures room { HasRoom self.old (asks.Leave session) }
    {
        leave(&mut self.history, &mut self.sessions, session);
    }
}
