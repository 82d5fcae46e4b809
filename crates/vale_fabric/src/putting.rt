//! Frames are offered to a pipe's other end.
ghost use Rattle.std.specs.Prelude.{true, ◌≡◌, ◌≤◌, All, take, drop, length, vec_capacity, OnErr, IfOk, IfErr};
ghost use Rattle.vale_fabric.specs.Words.{AnswersIn, AreOf, IsAtHand, IsPassIn, IsPut, IsSingle};
ghost use Rattle.vale_fabric.specs.Words.{MayIn, Stands, before, buffers_of, bytes_of};
ghost use Rattle.vale_fabric.specs.Words.{dests_wanted, fits_buffer, fixed_in, items_of, knowing};
ghost use Rattle.vale_fabric.specs.Words.{list_all, seen_by};
ghost use Rattle.vale_entry.specs.declared.entry.Ask.TheVariants as asks;
ghost use Rattle.vale_entry.specs.declared.entry.Reply.TheVariants as replies;
ghost use Rattle.vale_fabric.specs.Steps.{is_made};
ghost use Rattle.vale_fabric.specs.Puts.{PutsNot, is_put_said};

use crate::fabric::Fabric;
use crate::kept::Pass;
use nm_types::PortId;
use std::sync::Wait;
use vale_book::{Put, PutFault};
use vale_line::Got;

/// Whether a put that is answered so is an entry.
fn is_put_said(put: &Result<Put, PutFault>) -> bool
    ensures { result ≡ is_made is_put_said put.now }
{
    matches!(put, Ok(_) | Err(PutFault::PeerGone))
}

impl Fabric {
    /// Frames are offered to the other end of a pipe, which takes as many as it has space for, with
    /// their buffers, and gives as many of its idle buffers back. What it takes leaves `pending`.
    /// That the other end is not open is an entry too.
    pub fn pipe_put<R: Wait>(
        &self,
        rt: &R,
        pass: &mut Pass,
        port: PortId,
        pending: &mut Vec<Got>,
    ) -> Result<Put, PutFault>
        requires pass { IsPassIn self.now pass.old }
        requires may { MayIn self.now pass.old (asks.Put port (items_of pending.old.items)) }
        requires region { AreOf (fixed_in self.now).region (buffers_of pending.old.items) }
        requires single { All IsSingle pending.old.items }
        ensures pass { IsPassIn self.now pass.new }
        ensures made { IfOk result (λ put. AnswersIn self.now pass.old pass.new
            (asks.Put port (items_of pending.old.items))
            (replies.Took (items_of (take put.took pending.old.items))
            (dests_wanted put.offers.wants))) }
        ensures put { IfOk result (IsPut (before self.now pass.new) (seen_by self.now pass.new)
            port pending.old.items) }
        ensures fit { IfOk result (λ put. list_all fits_buffer put.copies ≡ true) }
        ensures speaks { IfOk result (λ put. 1 ≤ length put.offers.wants
            → Stands put.offers.session (knowing pass.new).mine) }
        ensures hand { IfOk result (λ put. 1 ≤ length put.offers.wants
            → IsAtHand (fixed_in self.now) (knowing pass.new) put.offers (bytes_of put.copies)) }
        ensures pending { IfOk result (λ put.
            pending.new.items ≡ drop put.took pending.old.items) }
        ensures capacity { vec_capacity pending.new ≡ vec_capacity pending.old }
        ensures refused { IfErr result (PutsNot (fixed_in self.now) (knowing pass.old)
            (knowing pass.new) port (items_of pending.old.items)) }
        ensures kept { OnErr result (pending.new.items ≡ pending.old.items) }
    {
        let mut book = self.take(rt, pass);
        let put = book.pipe_put(port, pending);
        self.give(pass, book, is_put_said(&put));
        put
    }
}
