//! Ports open, are watched and told of, are shut and go.
ghost use Rattle.std.specs.Prelude.{◌≡◌, length, OnOk, IfOk, IfErr, true, false};
ghost use Rattle.vale_entry.specs.declared.entry.Ask.TheVariants as asks;
ghost use Rattle.vale_entry.specs.declared.entry.Reply.TheVariants as replies;
ghost use Rattle.vale_fabric.specs.Words.{AnswersIn, AreOf, IsPassIn, MayIn, RefusesIn, before};
ghost use Rattle.vale_fabric.specs.Words.{fixed_in, indices_of, is_refusal, knowing};
ghost use Rattle.vale_fabric.specs.Steps.{is_made};
ghost use Rattle.vale_fabric.specs.Ports.{Hands, OpensNot, Waits, WatchesNot, is_said};

use crate::fabric::Fabric;
use crate::kept::Pass;
use nm_region::Buf;
use nm_types::{
    Chain, Counts, Name, OpenFault, PortId, SessionId, Side, Sides, StepFault, SyncFault,
    WatchFault,
};
use std::sync::Wait;
use vale_book::{LeasesOut, Opened};

/// Whether an opening that is answered so is an entry.
fn is_recorded(opened: &Result<Opened, OpenFault>) -> bool
    ensures { result ≡ is_made is_refusal opened.now }
{
    !matches!(
        opened,
        Err(OpenFault::RecordFull { .. } | OpenFault::NoMemory)
    )
}

/// Whether a watch that is answered so is an entry.
fn is_said(watched: &Result<PortId, WatchFault>) -> bool
    ensures { result ≡ is_made is_said watched.now }
{
    !matches!(
        watched,
        Err(WatchFault::RecordFull { .. } | WatchFault::NoMemory)
    )
}

impl Fabric {
    /// What the port has counted.
    pub fn stats<R: Wait>(&self, rt: &R, pass: &mut Pass, port: PortId) -> Result<Counts, StepFault>
        requires pass { IsPassIn self.now pass.old }
        requires may { MayIn self.now pass.old (asks.Stat port) }
        ensures pass { IsPassIn self.now pass.new }
        ensures made { IfOk result (λ counts. AnswersIn self.now pass.old pass.new
            (asks.Stat port) (replies.Counted counts)) }
        ensures full { IfErr result (RefusesIn self.now pass.old pass.new (asks.Stat port)) }
    {
        let mut book = self.take(rt, pass);
        let counts = book.stats(port);
        self.give(pass, book, counts.is_ok());
        counts
    }

    /// Records that a sync of this side of the port was refused, and the ring reset.
    pub fn reset<R: Wait>(
        &self,
        rt: &R,
        pass: &mut Pass,
        port: PortId,
        side: Side,
        fault: &SyncFault,
    ) -> Result<(), StepFault>
        requires pass { IsPassIn self.now pass.old }
        requires may { MayIn self.now pass.old (asks.Reset port side fault.now) }
        ensures pass { IsPassIn self.now pass.new }
        ensures made { OnOk result (AnswersIn self.now pass.old pass.new
            (asks.Reset port side fault.now) replies.Made) }
        ensures full { IfErr result (RefusesIn self.now pass.old pass.new
            (asks.Reset port side fault.now)) }
    {
        let mut book = self.take(rt, pass);
        let noted = book.reset(port, side, fault);
        self.give(pass, book, noted.is_ok());
        noted
    }

    /// The port is closed for new frames. What was granted to it can still be read.
    pub fn shut<R: Wait>(&self, rt: &R, pass: &mut Pass, port: PortId)
        requires pass { IsPassIn self.now pass.old }
        requires may { MayIn self.now pass.old (asks.Shut port) }
        ensures pass { IsPassIn self.now pass.new }
        ensures made { AnswersIn self.now pass.old pass.new (asks.Shut port) replies.Made }
    {
        let mut book = self.take(rt, pass);
        book.shut(port);
        self.give(pass, book, true);
    }

    /// A monitor watches these sides of the port of this name. Answers which port that is. That no
    /// open port has the name, and that the port has a monitor, are entries.
    pub fn watch<R: Wait>(
        &self,
        rt: &R,
        pass: &mut Pass,
        monitor: PortId,
        target: &Name,
        sides: Sides,
    ) -> Result<PortId, WatchFault>
        requires pass { IsPassIn self.now pass.old }
        requires may { MayIn self.now pass.old (asks.Watch monitor target.now sides) }
        ensures pass { IsPassIn self.now pass.new }
        ensures watched { IfOk result (λ port. AnswersIn self.now pass.old pass.new
            (asks.Watch monitor target.now sides) (replies.Watching port)) }
        ensures unwatched { IfErr result (WatchesNot (fixed_in self.now) (knowing pass.old)
            (knowing pass.new) (asks.Watch monitor target.now sides)) }
    {
        let mut book = self.take(rt, pass);
        let watched = book.watch(monitor, target, sides);
        self.give(pass, book, is_said(&watched));
        watched
    }

    /// Opens a port of this name for a session, and hands out its buffers, the smallest free ones.
    /// A refusal by the name, the sizes or the free buffers is an entry too.
    pub fn open<R: Wait>(
        &self,
        rt: &R,
        pass: &mut Pass,
        session: SessionId,
        name: &Name,
        tx: u32,
        rx: u32,
        extra: u32,
    ) -> Result<Opened, OpenFault>
        requires pass { IsPassIn self.now pass.old }
        requires may { MayIn self.now pass.old (asks.Open session name.now tx rx extra) }
        ensures pass { IsPassIn self.now pass.new }
        ensures made { OnOk result (AnswersIn self.now pass.old pass.new
            (asks.Open session name.now tx rx extra) replies.Opened) }
        ensures port { IfOk result (λ opened. opened.port.0 ≡ length (knowing pass.new).seen) }
        ensures hands { IfOk result (Hands (before self.now pass.new) tx rx extra) }
        ensures unopened { IfErr result (OpensNot (fixed_in self.now) (knowing pass.old)
            (knowing pass.new) (asks.Open session name.now tx rx extra)) }
    {
        let mut book = self.take(rt, pass);
        let opened = book.open(session, name, tx, rx, extra);
        self.give(pass, book, is_recorded(&opened));
        opened
    }

    /// The port goes, and its buffers are free again, with those that its session brings back for
    /// it. Answers how many frames nobody read. Where a lease of the port is not done it waits, and
    /// the buffers are handed back.
    pub fn finish<R: Wait>(
        &self,
        rt: &R,
        pass: &mut Pass,
        port: PortId,
        bufs: Vec<Buf>,
        chain: Chain,
    ) -> Result<u32, LeasesOut>
        requires pass { IsPassIn self.now pass.old }
        requires may { MayIn self.now pass.old
            (asks.Finish port (indices_of bufs.items) chain) }
        requires region { AreOf (fixed_in self.now).region bufs.items }
        ensures pass { IsPassIn self.now pass.new }
        ensures made { IfOk result (λ count. AnswersIn self.now pass.old pass.new
            (asks.Finish port (indices_of bufs.items) chain) (replies.Unread count)) }
        ensures waits { IfErr result (λ out. Waits (fixed_in self.now) (knowing pass.old)
            (knowing pass.new) (asks.Finish port (indices_of bufs.items) chain) out.n) }
        ensures back { IfErr result (λ out. out.bufs.items ≡ bufs.items) }
    {
        let mut book = self.take(rt, pass);
        let unread = book.finish(port, bufs, chain);
        self.give(pass, book, unread.is_ok());
        unread
    }
}
