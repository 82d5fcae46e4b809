ghost use Rattle.std.specs.Prelude.{◌≡◌, ◌<◌, length, Some, OnOk, OnErr, IfOk, IfErr};
ghost use Rattle.vale_book.specs.Words.{AreOf, HasRoom, IsEnabled, OfSeat, OfState, after_ask};
ghost use Rattle.vale_book.specs.Words.{indices_of, leases_of, leases_out, out_count, reply_to};
ghost use Rattle.vale_book.specs.Words.{standing};
ghost use Rattle.vale_entry.specs.declared.entry.Ask.TheVariants as asks;
ghost use Rattle.vale_entry.specs.declared.entry.Reply.TheVariants as replies;

use crate::book::Book;
use crate::noting::session_at;
use nm_region::Buf;
use nm_types::{Chain, PortId};
use vale_entry::{Ask, Entry, Numbers, Reply};
use vale_port::{Port, close_at, shutting_port};
use vale_steps::buffers::{give_back, indices_into};

/// Why a port cannot go yet, and the buffers that were handed over.
pub struct LeasesOut {
    /// How many leases of the port are not done.
    pub n: u32,
    /// The buffers that the session would have brought back.
    pub bufs: Vec<Buf>,
}

/// Returns how many leases of the port at a place are not done.
fn leases_out_at(ports: &[Port], place: usize) -> u32
    requires { place < length ports.now }
    ensures state { OfState (λ p. result ≡ out_count (leases_of p.line.lots)) ports.now place }
    ensures seat { OfSeat (λ seat. result ≡ leases_out seat.port) ports.now place }
{
    ports[place].leases_out()
}

impl Book {
    /// The port goes, and its buffers are free again, with those that its session brings back for
    /// it. Answers how many frames nobody read. Where a lease of the port is not done it waits, and
    /// the buffers are handed back.
    pub fn finish(&mut self, port: PortId, bufs: Vec<Buf>, chain: Chain) -> Result<u32, LeasesOut>
        requires enabled { IsEnabled (standing self.old)
            (asks.Finish port (indices_of bufs.items) chain) }
        requires region { AreOf self.old.region bufs.items }
        ensures made { OnOk result (self.new
            ≡ after_ask self.old (asks.Finish port (indices_of bufs.items) chain)) }
        ensures said { IfOk result (λ count.
            reply_to (standing self.old) (asks.Finish port (indices_of bufs.items) chain)
            ≡ Some (replies.Unread count)) }
        ensures room { OnOk result
            (HasRoom self.old (asks.Finish port (indices_of bufs.items) chain)) }
        ensures waits { IfErr result (λ out. (0 < out.n)
            × (reply_to (standing self.old) (asks.Finish port (indices_of bufs.items) chain)
            ≡ Some (replies.LeasesOut out.n))
            × (out.bufs.items ≡ bufs.items)) }
        ensures err { OnErr result (self.new ≡ self.old) }
    {
        let Some(place) = shutting_port(&self.ports, port) else {
            unreachable!()
        };
        let n = leases_out_at(&self.ports, place);
        if n > 0 {
            return Err(LeasesOut { n, bufs });
        }
        let session = session_at(&self.ports, place);
        let (own, count, numbers) = close_at(&mut self.ports, place);
        let list = indices_into(numbers, &bufs);
        give_back(&mut self.pool, own);
        give_back(&mut self.pool, bufs);
        self.names.gone(port);
        self.tally.gone(port);
        self.history.push(Entry {
            session,
            ask: Ask::Finish {
                port,
                bufs: Numbers::from(list),
                chain,
            },
            reply: Reply::Unread { count },
        });
        Ok(count)
    }
}
