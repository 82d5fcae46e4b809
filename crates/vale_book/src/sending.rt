ghost use Rattle.std.specs.Prelude.{◌≡◌, ◌<◌, ◌-◌, option_map, Some, OnOk, OnErr, IfOk, IfErr};
ghost use Rattle.vale_entry.specs.declared.entry.Ask.TheVariants as asks;
ghost use Rattle.vale_entry.specs.declared.entry.Reply.TheVariants as replies;
ghost use Rattle.vale_book.specs.Words.{HasRoom, IsEnabled, IsRefusal, after_ask, dests_wanted};
ghost use Rattle.vale_book.specs.Words.{reply_of, standing, step};
ghost use Rattle.vale_book.specs.Sending.{IsSent};

use crate::book::Book;
use crate::noting::session_at;
use crate::shutting::name_at;
use nm_types::{Batch, PortId, Side, StepFault};
use vale_batch::Compared;
use vale_port::offered_port;
use vale_steps::offers::Offers;
use vale_steps::sending::{count, send};
use vale_steps::tables::table_of;

impl Book {
    /// Sends a batch into the switch of an open port: the source of each frame is learned, and what
    /// each port of the switch wants of it is offered, as it is to the port's transmit monitor.
    /// Room for a grant of each offer, and for the completion of its lease, is promised.
    ///
    /// A full record and want of memory change nothing, and teach the switch nothing.
    pub fn send(&mut self, port: PortId, batch: &Batch) -> Result<Offers, StepFault>
        requires { IsEnabled (standing self.old) (asks.Send port batch.now) }
        ensures made { OnOk result (self.new ≡ after_ask self.old (asks.Send port batch.now)) }
        ensures said { IfOk result (λ offers. option_map reply_of
            (step (standing self.old) (asks.Send port batch.now))
            ≡ Some (replies.Offered offers.short offers.lone (dests_wanted offers.wants))) }
        ensures offers { IfOk result (IsSent self.new batch.now) }
        ensures room { OnOk result (HasRoom self.old (asks.Send port batch.now)) }
        ensures full { IfErr result (IsRefusal self.old (asks.Send port batch.now)) }
        ensures err { OnErr result (self.new ≡ self.old) }
    {
        self.send_compared(port, &Compared::new(batch))
    }

    /// `send` of a batch whose frames were compared before.
    pub fn send_compared(&mut self, port: PortId, batch: &Compared) -> Result<Offers, StepFault>
        requires { IsEnabled (standing self.old) (asks.Send port batch.now) }
        ensures made { OnOk result (self.new ≡ after_ask self.old (asks.Send port batch.now)) }
        ensures said { IfOk result (λ offers. option_map reply_of
            (step (standing self.old) (asks.Send port batch.now))
            ≡ Some (replies.Offered offers.short offers.lone (dests_wanted offers.wants))) }
        ensures offers { IfOk result (IsSent self.new batch.now) }
        ensures room { OnOk result (HasRoom self.old (asks.Send port batch.now)) }
        ensures full { IfErr result (IsRefusal self.old (asks.Send port batch.now)) }
        ensures err { OnErr result (self.new ≡ self.old) }
    {
        let Some(place) = offered_port(&self.ports, port) else {
            unreachable!()
        };
        let session = session_at(&self.ports, place);
        let name = name_at(&self.ports, place);
        let Some(at) = table_of(&self.tables, &name) else {
            unreachable!()
        };
        let monitor = self.watches.of(port, Side::Tx);
        let table = &mut self.tables[at].table;
        let sent = send(
            self.alloc,
            &mut self.history,
            table,
            &self.ports,
            &name,
            session,
            monitor,
            port,
            batch,
        );
        match sent {
            Ok(offers) => {
                count(&mut self.tally, port, batch.len() as u32, &offers);
                Ok(offers)
            }
            Err(fault) => Err(fault),
        }
    }
}
