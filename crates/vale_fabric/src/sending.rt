//! Frames are sent, and what ports want of them is granted and completed.
ghost use Rattle.std.specs.Prelude.{List, ◌≡◌, ◌≤◌, [], drop, length, slice_get, take, Some, IfOk, IfErr, IfSome};
ghost use Rattle.vale_fabric.specs.Words.{AnswersIn, AreOf, Frame, IsAtHand, IsPassIn, IsSent};
ghost use Rattle.vale_fabric.specs.Words.{MayIn, OffersStand, RefusesIn, Stands, before};
ghost use Rattle.vale_fabric.specs.Words.{buffers_of, bytes_of, dests_wanted, fixed_in, given_by};
ghost use Rattle.vale_fabric.specs.Words.{knowing, lease_id, seen_by, standing, wanted};
ghost use Rattle.vale_entry.specs.declared.entry.Ask.TheVariants as asks;
ghost use Rattle.vale_entry.specs.declared.entry.Reply.TheVariants as replies;
ghost use Rattle.vale_book.specs.Leases.{IsHeldBy, IsHeldFor, IsLeaseBy, StandOf};
ghost use Rattle.vale_fabric.specs.Leases.{MayFill};

use crate::fabric::Fabric;
use crate::kept::Pass;
use nm_types::{Batch, PortId, StepFault};
use std::sync::Wait;
use vale_batch::Compared;
use vale_book::{Granted, Offers};
use vale_line::Lease;

impl Fabric {
    /// Sends a batch into the switch of an open port. What each port wants of it is offered, and
    /// room for the grants is promised. A full record and want of memory change nothing.
    pub fn send<R: Wait>(
        &self,
        rt: &R,
        pass: &mut Pass,
        port: PortId,
        batch: &Batch,
    ) -> Result<Offers, StepFault>
        requires pass { IsPassIn self.now pass.old }
        requires may { MayIn self.now pass.old (asks.Send port batch.now) }
        ensures pass { IsPassIn self.now pass.new }
        ensures made { IfOk result (λ offers. AnswersIn self.now pass.old pass.new
            (asks.Send port batch.now)
            (replies.Offered offers.short offers.lone (dests_wanted offers.wants))) }
        ensures offers { IfOk result (IsSent (seen_by self.now pass.new) batch.now) }
        ensures speaks { IfOk result (λ offers. 1 ≤ length offers.wants
            → Stands offers.session (knowing pass.new).mine) }
        ensures hand { IfOk result (λ offers. 1 ≤ length offers.wants
            → IsAtHand (fixed_in self.now) (knowing pass.new) offers (bytes_of batch.now)) }
        ensures full { IfErr result (RefusesIn self.now pass.old pass.new
            (asks.Send port batch.now)) }
    {
        self.send_compared(rt, pass, port, &Compared::new(batch))
    }

    /// `send` of a batch whose frames were compared before the turn.
    fn send_compared<R: Wait>(
        &self,
        rt: &R,
        pass: &mut Pass,
        port: PortId,
        batch: &Compared,
    ) -> Result<Offers, StepFault>
        requires pass { IsPassIn self.now pass.old }
        requires may { MayIn self.now pass.old (asks.Send port batch.now) }
        ensures pass { IsPassIn self.now pass.new }
        ensures made { IfOk result (λ offers. AnswersIn self.now pass.old pass.new
            (asks.Send port batch.now)
            (replies.Offered offers.short offers.lone (dests_wanted offers.wants))) }
        ensures offers { IfOk result (IsSent (seen_by self.now pass.new) batch.now) }
        ensures speaks { IfOk result (λ offers. 1 ≤ length offers.wants
            → Stands offers.session (knowing pass.new).mine) }
        ensures hand { IfOk result (λ offers. 1 ≤ length offers.wants
            → IsAtHand (fixed_in self.now) (knowing pass.new) offers (bytes_of batch.now)) }
        ensures full { IfErr result (RefusesIn self.now pass.old pass.new
            (asks.Send port batch.now)) }
    {
        let mut book = self.take(rt, pass);
        let sent = book.send_compared(port, batch);
        self.give(pass, book, sent.is_ok());
        sent
    }

    /// Grants the next of an entry's offers, and takes it out: as many of its first frames as there
    /// is room for get buffers of the port's ring, which the lease owns.
    pub fn grant<R: Wait>(&self, rt: &R, pass: &mut Pass, offers: &mut Offers) -> Granted
        requires pass { IsPassIn self.now pass.old }
        requires next { 1 ≤ length offers.old.wants }
        requires stand { OffersStand (standing (seen_by self.now pass.old)) offers.old }
        requires speaks { Stands offers.old.session (knowing pass.old).mine }
        ensures pass { IsPassIn self.now pass.new }
        ensures made { AnswersIn self.now pass.old pass.new
            (asks.Grant offers.old.entry result.to)
            (replies.Shared result.given result.full result.gone) }
        ensures offers { offers.new ≡ record offers.old { wants = drop 1 offers.old.wants } }
        ensures stand { OffersStand (standing (seen_by self.now pass.new)) offers.new }
        ensures frames { (frames : List Frame)
            → StandOf (standing (seen_by self.now pass.old)) offers.old frames
            → StandOf (standing (seen_by self.now pass.new)) offers.new frames }
        ensures want { slice_get offers.old.wants 0 ≡ Some (wanted result.want) }
        ensures to { result.to ≡ result.want.to }
        ensures given { result.given ≡ given_by result.lease }
        ensures lease { IfSome result.lease (IsLeaseBy (before self.now pass.new)
            offers.old.entry (length (knowing pass.new).seen)) }
        ensures held { IfSome result.lease (IsHeldBy (seen_by self.now pass.new)
            offers.old.session) }
        ensures fills { IfSome result.lease (λ lease. (frames : List Frame)
            → StandOf (standing (seen_by self.now pass.old)) offers.old frames
            → IsHeldFor (seen_by self.now pass.new) offers.old.session lease (bytes_of frames)
            (take result.given result.want.places)) }
    {
        let mut book = self.take(rt, pass);
        let granted = book.grant(offers);
        self.give(pass, book, true);
        granted
    }

    /// Completes a lease, which is full: its frames will be read once all that were granted to the
    /// port before it are complete.
    pub fn done<R: Wait>(&self, rt: &R, pass: &mut Pass, lease: Lease)
        requires pass { IsPassIn self.now pass.old }
        requires may { MayFill (fixed_in self.now) (knowing pass.old) lease }
        requires full { lease.sizes ≡ [] }
        requires empty { lease.empty ≡ [] }
        requires region { AreOf (fixed_in self.now).region (buffers_of lease.filled) }
        ensures pass { IsPassIn self.now pass.new }
        ensures made { AnswersIn self.now pass.old pass.new (asks.Done (lease_id lease.id))
            replies.Made }
    {
        let mut book = self.take(rt, pass);
        book.done(lease);
        self.give(pass, book, true);
    }
}
