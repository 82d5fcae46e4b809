ghost use Rattle.std.specs.Prelude.{◌≡◌, ◌<◌, ◌≤◌, ◌+◌, ◌-◌, [], ◌∷◌, ◌++◌, length, map, slice_get, slice_set, Some};
ghost use Rattle.vale_entry.specs.declared.entry.Ask.TheVariants as asks;
ghost use Rattle.vale_entry.specs.declared.entry.Reply.TheVariants as replies;
ghost use Rattle.vale_book.specs.Words.{AreOf, ChangesSeatIf, Entry as Stored, HasRoom};
ghost use Rattle.vale_book.specs.Words.{IsFilledFor, IsFilledIn, OfState, after_ask, buffer_count};
ghost use Rattle.vale_book.specs.Words.{buffers_of, completed, lease_id, seat_done, slots_out};
ghost use Rattle.vale_book.specs.Words.{standing, with_line};

use crate::book::Book;
use nm_types::{LeaseId, SessionId};
use vale_entry::{Ask, Entry, History, Reply};
use vale_line::Lease;
use vale_port::{Port, done_at, leased_port};

/// The session whose grant made a lease.
fn session_of(history: &History, lease: LeaseId) -> SessionId
    requires first { 0 < lease.0 }
    requires last { lease.0 ≤ length history.now.entries }
    ensures { (entry : Stored) → slice_get history.now.entries (lease.0 - 1) ≡ Some entry
        → result ≡ entry.session }
{
    match history.get(lease.0) {
        Some(entry) => entry.session,
        None => unreachable!(),
    }
}

/// Completes the lot of a full lease at the port of a place, and records it.
fn complete(history: &mut History, ports: &mut Vec<Port>, place: usize, lease: Lease)
    requires promised { 0 < history.old.promised }
    requires place { place < length ports.old.items }
    requires lot { OfState (λ p. slots_out lease.id p.line.lots ≡ Some (buffer_count lease))
        ports.old.items place }
    requires full { lease.sizes ≡ [] }
    requires first { 0 < lease.id }
    requires last { lease.id ≤ length history.old.entries }
    ensures entries { (entry : Stored)
        → slice_get history.old.entries (lease.id - 1) ≡ Some entry
        → history.new.entries ≡ history.old.entries ++ (record {
          session = entry.session;
          ask = asks.Done (lease_id lease.id);
          reply = replies.Made;
        }) ∷ [] }
    ensures promised { history.new.promised + 1 ≡ history.old.promised }
    ensures limits { history.new.limits ≡ history.old.limits }
    ensures seats { ChangesSeatIf (λ seat. IsFilledFor seat lease) (seat_done lease.id)
        ports.old.items place ports.new.items }
    ensures lots { OfState (λ p. ports.new.items ≡ slice_set ports.old.items place
        (with_line (record p.line { lots = map (completed lease.id lease.filled) p.line.lots }) p))
        ports.old.items place }
{
    let id = lease.id();
    let session = session_of(history, id);
    done_at(ports, place, lease);
    history.push(Entry {
        session,
        ask: Ask::Done { lease: id },
        reply: Reply::Made,
    });
}

impl Book {
    /// Completes a lease: its frames will be read once all that were granted to the port before it
    /// are complete. Room for the entry was promised.
    ///
    /// The lease must be full, with the frames that its grant gave in its buffers.
    pub fn done(&mut self, lease: Lease)
        requires filled { IsFilledIn (standing self.old) lease }
        requires full { lease.sizes ≡ [] }
        requires empty { lease.empty ≡ [] }
        requires region { AreOf self.old.region (buffers_of lease.filled) }
        ensures made { self.new ≡ after_ask self.old (asks.Done (lease_id lease.id)) }
        ensures room { HasRoom self.old (asks.Done (lease_id lease.id)) }
    {
        match leased_port(&self.ports, &lease) {
            Some(place) => complete(&mut self.history, &mut self.ports, place, lease),
            None => unreachable!(),
        }
    }
}
