ghost use Rattle.std.specs.Prelude.{◌≡◌, ◌<◌, ◌-◌, All, drop, vec_capacity, Some, None, OnOk, OnErr, IfOk, IfErr, IfSome, IfNone};
ghost use Rattle.vale_book.specs.Words.{AreOf, HasRoom, IsEnabled, IsRefusal, IsSingle, after_ask};
ghost use Rattle.vale_book.specs.Words.{buffers_of, items_of, peer_at, standing, took_of};
ghost use Rattle.vale_book.specs.PutFaults.{IfMade, IfNotMade, IsPutRefusal};
ghost use Rattle.vale_book.specs.Putting.{IsPut, put_ask};

use crate::book::Book;
use crate::fault::PutFault;
use crate::noting::session_at;
use nm_types::{PortId, Side, StepFault};
use vale_line::Got;
use vale_port::open_port;
use vale_steps::putting::{Put, Putting, peer_of, put_nowhere, put_to_peer, taken_by};

impl Book {
    /// Frames are offered to the other end of a pipe. None if it is not open, which is an entry.
    fn put(&mut self, port: PortId, pending: &mut Vec<Got>) -> Result<Option<Put>, StepFault>
        requires enabled { IsEnabled (standing self.old) (put_ask port pending.old.items) }
        requires of { AreOf self.old.region (buffers_of pending.old.items) }
        requires single { All IsSingle pending.old.items }
        ensures made { OnOk result (self.new ≡ after_ask self.old (put_ask port pending.old.items)) }
        ensures put { IfOk result (λ made.
            IfSome made (IsPut self.old self.new port pending.old.items)) }
        ensures gone { IfOk result (λ made.
            IfNone made (peer_at (standing self.old).world.ports port.0 ≡ None)) }
        ensures pending { IfOk result (λ made.
            pending.new.items ≡ drop (took_of made) pending.old.items) }
        ensures capacity { vec_capacity pending.new ≡ vec_capacity pending.old }
        ensures room { OnOk result (HasRoom self.old (put_ask port pending.old.items)) }
        ensures full { IfErr result (IsRefusal self.old (put_ask port pending.old.items)) }
        ensures err { OnErr result (self.new ≡ self.old) }
        ensures kept { OnErr result (pending.new.items ≡ pending.old.items) }
    {
        let Some(place) = open_port(&self.ports, port) else {
            unreachable!()
        };
        let session = session_at(&self.ports, place);
        let offered = pending.len() as u32;
        match peer_of(&self.ports, &self.names, place) {
            None => put_nowhere(&mut self.history, session, port, offered),
            Some(peer) => {
                let Some(there) = open_port(&self.ports, peer) else {
                    unreachable!()
                };
                let putting = Putting {
                    at: port,
                    session,
                    peer,
                    place: there,
                    offered,
                    took: taken_by(&self.ports, there, offered),
                    monitor: self.watches.of(port, Side::Tx),
                };
                put_to_peer(
                    self.alloc,
                    &mut self.history,
                    &mut self.ports,
                    &mut self.tally,
                    putting,
                    pending,
                )
            }
        }
    }

    /// Frames are offered to the other end of a pipe, which takes as many as it has space for, with
    /// their buffers, and gives as many of its idle buffers back. What it takes leaves `pending`.
    pub fn pipe_put(&mut self, port: PortId, pending: &mut Vec<Got>) -> Result<Put, PutFault>
        requires enabled { IsEnabled (standing self.old) (put_ask port pending.old.items) }
        requires of { AreOf self.old.region (buffers_of pending.old.items) }
        requires single { All IsSingle pending.old.items }
        ensures made { IfMade result (self.new ≡ after_ask self.old (put_ask port pending.old.items)) }
        ensures put { IfOk result (IsPut self.old self.new port pending.old.items) }
        ensures pending { IfOk result (λ put.
            pending.new.items ≡ drop put.took pending.old.items) }
        ensures capacity { vec_capacity pending.new ≡ vec_capacity pending.old }
        ensures room { IfMade result (HasRoom self.old (put_ask port pending.old.items)) }
        ensures refused { IfErr result (IsPutRefusal self.old port
            (items_of pending.old.items)) }
        ensures err { IfNotMade result (self.new ≡ self.old) }
        ensures kept { OnErr result (pending.new.items ≡ pending.old.items) }
    {
        match self.put(port, pending)? {
            Some(put) => Ok(put),
            None => Err(PutFault::PeerGone),
        }
    }
}
