ghost use Rattle.std.specs.Prelude.{◌≡◌, ◌<◌, length, Some, OnOk, OnErr, IfOk, IfErr};
ghost use Rattle.vale_entry.specs.declared.entry.Ask.TheVariants as asks;
ghost use Rattle.vale_entry.specs.declared.entry.Reply.TheVariants as replies;
ghost use Rattle.vale_book.specs.Noted.{IsNoted};
ghost use Rattle.vale_book.specs.Words.{HasRoom, IsEnabled, IsRefusal, OfState, after_ask};
ghost use Rattle.vale_book.specs.Words.{bytes_of_entry, reply_to, standing};

use crate::book::Book;
use nm_types::{Counts, PortId, SessionId, Side, StepFault, SyncFault};
use vale_entry::{Ask, Entry, History, Reply};
use vale_port::{Port, open_port};

/// Returns the session of the port at a place.
pub(crate) fn session_at(ports: &[Port], place: usize) -> SessionId
    requires { place < length ports.now }
    ensures { OfState (λ p. result.0 ≡ p.session) ports.now place }
{
    ports[place].session()
}

/// Records an entry that changes nothing else.
pub(crate) fn note(history: &mut History, entry: Entry) -> Result<(), StepFault>
    requires { bytes_of_entry entry ≡ 0 }
    ensures { IsNoted history.old history.new entry result }
{
    history.reserve(1, 0)?;
    history.push(entry);
    Ok(())
}

/// Records that a port's counters are read, and returns them.
fn note_counts(
    history: &mut History,
    session: SessionId,
    port: PortId,
    counts: Counts,
) -> Result<Counts, StepFault>
    ensures counts { IfOk result (λ told. told ≡ counts) }
    ensures noted { IsNoted history.old history.new (record {
      session = session;
      ask = asks.Stat port;
      reply = replies.Counted counts;
    }) result }
{
    note(
        history,
        Entry {
            session,
            ask: Ask::Stat { port },
            reply: Reply::Counted { counts },
        },
    )?;
    Ok(counts)
}

impl Book {
    /// What the port has counted.
    pub fn stats(&mut self, port: PortId) -> Result<Counts, StepFault>
        requires { IsEnabled (standing self.old) (asks.Stat port) }
        ensures made { OnOk result (self.new ≡ after_ask self.old (asks.Stat port)) }
        ensures said { IfOk result (λ counts.
            reply_to (standing self.old) (asks.Stat port) ≡ Some (replies.Counted counts)) }
        ensures room { OnOk result (HasRoom self.old (asks.Stat port)) }
        ensures full { IfErr result (IsRefusal self.old (asks.Stat port)) }
        ensures err { OnErr result (self.new ≡ self.old) }
    {
        let Some(place) = open_port(&self.ports, port) else {
            unreachable!()
        };
        let Some(counts) = self.tally.of(port) else {
            unreachable!()
        };
        let session = session_at(&self.ports, place);
        note_counts(&mut self.history, session, port, counts)
    }

    /// Records that a sync of this side of the port was refused, and the ring reset.
    pub fn reset(&mut self, port: PortId, side: Side, fault: &SyncFault) -> Result<(), StepFault>
        requires { IsEnabled (standing self.old) (asks.Reset port side fault.now) }
        ensures made { OnOk result
            (self.new ≡ after_ask self.old (asks.Reset port side fault.now)) }
        ensures room { OnOk result (HasRoom self.old (asks.Reset port side fault.now)) }
        ensures full { IfErr result (IsRefusal self.old (asks.Reset port side fault.now)) }
        ensures err { OnErr result (self.new ≡ self.old) }
    {
        let Some(place) = open_port(&self.ports, port) else {
            unreachable!()
        };
        let entry = Entry {
            session: session_at(&self.ports, place),
            ask: Ask::Reset {
                port,
                side,
                fault: *fault,
            },
            reply: Reply::Made,
        };
        note(&mut self.history, entry)
    }
}
