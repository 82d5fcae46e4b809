ghost use Rattle.std.specs.Prelude.{◌≡◌, ◌<◌, ◌-◌, length, Some, OnOk, OnErr, IfOk, IfErr};
ghost use Rattle.vale_book.specs.Words.{AreOf, HasRoom, IsCut, IsEnabled, IsRefusal, after_ask};
ghost use Rattle.vale_book.specs.Words.{dests_wanted, frames_in, indices_of, most_ring, read_ask};
ghost use Rattle.vale_book.specs.Words.{reply_to, standing};
ghost use Rattle.vale_entry.specs.declared.entry.Ask.TheVariants as asks;
ghost use Rattle.vale_entry.specs.declared.entry.Reply.TheVariants as replies;
ghost use Rattle.vale_book.specs.Reading.{IsGiven, IsOffered, IsRead};

use crate::book::Book;
use nm_region::Buf;
use nm_types::{PortId, StepFault};
use vale_port::offered_port;
use vale_steps::reading::{Synced, read, reading_at, sizes_for};

impl Book {
    /// Buffers come back to the receive ring of a switch port or a monitor, and those of its frames
    /// that are ready go to its session. A monitor of the port's receive side is offered all of
    /// these frames; room for the grant of that offer, and for the completion of its lease, is
    /// promised. Of a pipe end it is recorded as a get, and else as a sync.
    ///
    /// A full record and want of memory change nothing, and the buffers are handed back.
    pub fn read(
        &mut self,
        port: PortId,
        is_pipe: bool,
        back: Vec<Buf>,
    ) -> Result<Synced, (StepFault, Vec<Buf>)>
        requires enabled { IsEnabled (standing self.old) (read_ask is_pipe port
            (indices_of back.items)) }
        requires of { AreOf self.old.region back.items }
        ensures made { OnOk result (self.new ≡ after_ask self.old (read_ask is_pipe port
            (indices_of back.items))) }
        ensures said { IfOk result (λ synced. reply_to (standing self.old) (read_ask is_pipe port
            (indices_of back.items))
            ≡ Some (replies.Gave (length (frames_in synced.got.items))
            (dests_wanted synced.offers.wants))) }
        ensures got { IfOk result (λ synced. IsGiven self.old port synced.got.items) }
        ensures cut { IfOk result (λ synced. IsCut synced.got.items) }
        ensures few { IfOk result (λ synced. length synced.got.items < most_ring) }
        ensures offers { IfOk result (λ synced.
            IsOffered self.old self.new port synced.offers) }
        ensures room { OnOk result (HasRoom self.old (read_ask is_pipe port
            (indices_of back.items))) }
        ensures full { IfErr result (λ refused. IsRefusal self.old (read_ask is_pipe port
            (indices_of back.items)) refused.0) }
        ensures back { IfErr result (λ refused. refused.1 ≡ back) }
        ensures err { OnErr result (self.new ≡ self.old) }
    {
        let Some(place) = offered_port(&self.ports, port) else {
            unreachable!()
        };
        let reading = reading_at(&self.ports, &self.watches, port, place, is_pipe);
        let Ok(sizes) = sizes_for(self.alloc, &self.ports, reading) else {
            return Err((StepFault::NoMemory, back));
        };
        read(
            self.alloc,
            &mut self.history,
            &mut self.ports,
            &mut self.tally,
            reading,
            sizes,
            back,
        )
    }

    /// `read` of a switch port or a monitor, which is recorded as a sync.
    pub fn sync(&mut self, port: PortId, back: Vec<Buf>) -> Result<Synced, (StepFault, Vec<Buf>)>
        requires enabled { IsEnabled (standing self.old) (asks.Sync port (indices_of back.items)) }
        requires of { AreOf self.old.region back.items }
        ensures { IsRead self.old self.new port (asks.Sync port (indices_of back.items)) back
            result }
    {
        self.read(port, false, back)
    }

    /// `read` of a pipe end, which is recorded as a get.
    pub fn pipe_get(
        &mut self,
        port: PortId,
        back: Vec<Buf>,
    ) -> Result<Synced, (StepFault, Vec<Buf>)>
        requires enabled { IsEnabled (standing self.old) (asks.Get port (indices_of back.items)) }
        requires of { AreOf self.old.region back.items }
        ensures { IsRead self.old self.new port (asks.Get port (indices_of back.items)) back result }
    {
        self.read(port, true, back)
    }
}
