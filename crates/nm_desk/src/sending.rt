//! A transmit sync by one entry: what was pushed is sent, or the ring reset.
ghost use Rattle.std.specs.Prelude.{◌≡◌, true, Some, IsSome, IfSome, IfOk, IfErr};
ghost use Rattle.nm_types.specs.Names.{is_pipe_name};
ghost use Rattle.nm_types.specs.OwnPorts.{port_with_id, refusal_at, ring_at};
ghost use Rattle.nm_types.specs.declared.id.Side.TheVariants.{Tx};
ghost use Rattle.nm_port.specs.Sides.{TellsRefusal};
ghost use Rattle.vale_entry.specs.declared.entry.Ask.TheVariants as asks;
ghost use Rattle.vale_entry.specs.declared.entry.Reply.TheVariants as replies;
ghost use Rattle.vale_entry.specs.Legal.{fits_fault};
ghost use Rattle.nm_desk.specs.Desks.{IsDeskOf};
ghost use Rattle.nm_desk.specs.Calls.{Made, MadeNone};
ghost use Rattle.nm_desk.specs.Syncs.{CanSync, IsSent, IsUnsent, PassesSend};

use crate::desk::Desk;
use nm_types::{Batch, PortId, Side, StepFault, SyncFault};
use vale_book::{Book, Offers};

impl Desk {
    /// Whether a port is an end of a pipe.
    pub fn is_pipe(&self, port: PortId) -> bool
        requires { IsSome (port_with_id self.now.own port.0) }
        ensures { IfSome (port_with_id self.now.own port.0)
            (λ p. is_pipe_name p.name ≡ result) }
    {
        let name = match &self.own {
            Some(own) => own.name(port),
            None => unreachable!(),
        };
        match name {
            Some(name) => name.is_pipe(),
            None => unreachable!(),
        }
    }

    /// The first check that refuses a sync of a port's ring: `send` and the other syncs are for a ring
    /// that none refuses, and `reset` for one that is refused.
    pub fn check(&mut self, port: PortId, side: Side) -> Result<(), SyncFault>
        requires { IsSome (ring_at side self.old.own port.0) }
        ensures refusal { TellsRefusal result (refusal_at side port.0 self.old.own) }
        ensures fits { IfErr result (λ fault. fits_fault fault ≡ true) }
        ensures same { self.new ≡ self.old }
    {
        match &mut self.own {
            Some(own) => own.check(port, side),
            None => unreachable!(),
        }
    }

    /// Records that a check refused a sync of a port's ring, and resets the ring: `head` and `cur` are
    /// the accepted head again, and each of the user's slots names the buffer in its place.
    ///
    /// `RecordFull` and `NoMemory`: nothing is recorded, and the ring stays as it was.
    pub fn reset(
        &mut self,
        book: &mut Book,
        port: PortId,
        side: Side,
        fault: SyncFault,
    ) -> Result<(), StepFault>
        requires desk { IsDeskOf book.old self.old }
        requires can { CanSync book.old self.old side port.0 }
        requires refused { refusal_at side port.0 self.old.own ≡ Some fault }
        requires fits { fits_fault fault ≡ true }
        ensures made { IfOk result (λ done. Made book.old book.new self.old self.new
            (asks.Reset port side fault) replies.Made) }
        ensures full { IfErr result (MadeNone book.old book.new self.old self.new
            (asks.Reset port side fault)) }
    {
        book.reset(port, side, &fault)?;
        match &mut self.own {
            Some(own) => own.reset(port, side),
            None => unreachable!(),
        }
        Ok(())
    }

    /// Sends what is pushed at a port's transmit ring, which no check refuses and which is no pipe's
    /// end: all frames that were pushed, with their bytes, and the tail goes on by as many slots. What
    /// it offers is handed out, with the frames, for the grants (`grant`). Until all that is granted and
    /// completed the desk makes no other sync.
    ///
    /// `RecordFull` and `NoMemory`: nothing is recorded, and the frames stay pushed.
    pub fn send(&mut self, book: &mut Book, port: PortId) -> Result<(Offers, Batch), StepFault>
        requires desk { IsDeskOf book.old self.old }
        requires can { CanSync book.old self.old Tx port.0 }
        requires passes { PassesSend self.old port.0 }
        ensures sent { IfOk result (λ sent. IsSent book.old book.new self.old self.new port.0 sent.0
            sent.1) }
        ensures full { IfErr result (IsUnsent book.old book.new self.old self.new port.0) }
    {
        let own = match &mut self.own {
            Some(own) => own,
            None => unreachable!(),
        };
        let batch = own.frames(self.alloc, port)?;
        let offers = match book.send(port, &batch) {
            Ok(offers) => offers,
            Err(fault) => return Err(fault),
        };
        own.sent(port);
        Ok((offers, batch))
    }
}
