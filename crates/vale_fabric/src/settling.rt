//! A session is settled: what its entry offered is granted, filled and completed.
ghost use Rattle.std.specs.Prelude.{◌≡◌, ◌≤◌, ◌<◌, ◌+◌, ◌^◌, [], drop, length};
ghost use Rattle.std.specs.Prelude.{IfSome, IfNone};
ghost use Rattle.vale_entry.specs.declared.entry.Ask.TheVariants as asks;
ghost use Rattle.vale_entry.specs.declared.entry.Reply.TheVariants as replies;
ghost use Rattle.vale_fabric.specs.Words.{lease_id};
ghost use Rattle.vale_fabric.specs.Fabrics.{IsPassIn, fixed_in, knowing, AnswersIn};
ghost use Rattle.vale_fabric.specs.Filling.{AreFitting, bytes_from};
ghost use Rattle.vale_fabric.specs.Leases.{MayFillFrom};
ghost use Rattle.vale_fabric.specs.Passing.{HasPassed};
ghost use Rattle.vale_fabric.specs.Settling.{IsAtHand, Settling, Settles};
ghost use Rattle.vale_fabric.specs.Settling.{both, frames_wanted, shared_in};

use crate::fabric::Fabric;
use crate::filling::{Frames, fill};
use crate::gates::OwnGate;
use crate::kept::Pass;
use nm_io::Stage;
use std::sync::Wait;
use vale_book::{Granted, Offers};
use vale_line::Lease;

/// What grants gave, in frames.
#[derive(Clone, Copy, Debug, PartialEq, Eq)]
pub struct Shares {
    /// The frames for which there was room.
    pub given: u32,
    /// The frames for which there was none.
    pub full: u32,
    /// The frames whose port was not open any more.
    pub gone: u32,
}

impl Shares {
    /// No frames.
    pub const ZERO: Shares = Shares {
        given: 0,
        full: 0,
        gone: 0,
    };

    fn plus(self, more: Shares) -> Shares
        requires given { self.given + more.given < 2 ^ 32 }
        requires full { self.full + more.full < 2 ^ 32 }
        requires gone { self.gone + more.gone < 2 ^ 32 }
        ensures { result ≡ both self more }
    {
        Shares {
            given: self.given + more.given,
            full: self.full + more.full,
            gone: self.gone + more.gone,
        }
    }
}

impl Fabric {
    /// Fills a lease with the frames at these places and completes it, if there is one.
    fn complete<R: Wait, G: OwnGate>(
        &self,
        rt: &R,
        pass: &mut Pass,
        gate: &mut G,
        user: u64,
        lease: Option<Lease>,
        frames: Frames,
        places: &[u32],
    )
        requires pass { IsPassIn self.now pass.old }
        requires held { IfSome lease (λ lease. MayFillFrom (fixed_in self.now) (knowing pass.old)
            lease (bytes_from frames) places.now) }
        requires fit { AreFitting frames }
        ensures pass { IsPassIn self.now pass.new }
        ensures none { IfNone lease (knowing pass.new ≡ knowing pass.old) }
        ensures some { IfSome lease (λ lease. AnswersIn self.now pass.old pass.new
            (asks.Done (lease_id lease.id)) replies.Made) }
        ensures passed { HasPassed user (knowing pass.old) (knowing pass.new) (G.passed gate.old)
            (G.passed gate.new) }
    {
        if let Some(mut lease) = lease {
            gate.pass(user, Stage::Granted);
            fill(&mut lease, frames, places);
            gate.pass(user, Stage::Filled);
            self.done(rt, pass, lease);
            gate.pass(user, Stage::Done);
        }
    }

    /// Grants the next of the offers of these frames, and fills and completes what that gave.
    #[inline(never)]
    fn settle_next<R: Wait, G: OwnGate>(
        &self,
        rt: &R,
        pass: &mut Pass,
        gate: &mut G,
        user: u64,
        offers: &mut Offers,
        frames: Frames,
    ) -> Shares
        requires pass { IsPassIn self.now pass.old }
        requires next { 1 ≤ length offers.old.wants }
        requires hand { IsAtHand (fixed_in self.now) (knowing pass.old) offers.old
            (bytes_from frames) }
        requires fit { AreFitting frames }
        ensures pass { IsPassIn self.now pass.new }
        ensures offers { offers.new ≡ record offers.old { wants = drop 1 offers.old.wants } }
        ensures hand { IsAtHand (fixed_in self.now) (knowing pass.new) offers.new
            (bytes_from frames.entry) }
        ensures settling { Settling (fixed_in self.now) (knowing pass.old) (knowing pass.new)
            offers.old.session result }
        ensures fewer { length offers.new.wants + 1 ≡ length offers.old.wants }
        ensures all { shared_in result + frames_wanted offers.new.wants
            ≡ frames_wanted offers.old.wants }
        ensures passed { HasPassed user (knowing pass.old) (knowing pass.new) (G.passed gate.old)
            (G.passed gate.new) }
    {
        let Granted {
            to: _,
            given,
            full,
            gone,
            want,
            lease,
        } = self.grant(rt, pass, offers);
        let places = &want.places.as_slice()[..given as usize];
        self.complete(rt, pass, gate, user, lease, frames, places);
        Shares { given, full, gone }
    }

    /// Grants an entry's offers, of these frames, one after the other. What a grant gives is
    /// filled outside the turn and completed before the next one. `user` passes the gate after a
    /// grant that gave a lease, after the filling, and after the completion.
    pub fn settle<R: Wait, G: OwnGate>(
        &self,
        rt: &R,
        pass: &mut Pass,
        gate: &mut G,
        user: u64,
        mut offers: Offers,
        frames: Frames,
    ) -> Shares
        requires pass { IsPassIn self.now pass.old }
        requires hand { 1 ≤ length offers.wants → IsAtHand (fixed_in self.now)
            (knowing pass.old) offers (bytes_from frames) }
        requires fit { AreFitting frames }
        ensures pass { IsPassIn self.now pass.new }
        ensures none { offers.wants ≡ [] → (knowing pass.new ≡ knowing pass.old)
            × (result ≡ record { given = 0; full = 0; gone = 0 }) }
        ensures settles { 1 ≤ length offers.wants → Settles (fixed_in self.now)
            (knowing pass.old) (knowing pass.new) offers.session result }
        ensures passed { HasPassed user (knowing pass.old) (knowing pass.new) (G.passed gate.old)
            (G.passed gate.new) }
    {
        let mut all = Shares::ZERO;
        while offers.next().is_some() {
            let more = self.settle_next(rt, pass, gate, user, &mut offers, frames);
            all = all.plus(more);
        }
        offers.close();
        all
    }
}
