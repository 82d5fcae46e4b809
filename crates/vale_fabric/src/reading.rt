//! What a port was granted is read.
ghost use Rattle.std.specs.Prelude.{◌≡◌, ◌≤◌, length, IfOk, IfErr};
ghost use Rattle.vale_entry.specs.declared.entry.Ask.TheVariants as asks;
ghost use Rattle.vale_fabric.specs.Words.{AreOf, IsPassIn, MayIn, RefusesIn, Stands, fixed_in};
ghost use Rattle.vale_fabric.specs.Words.{indices_of, knowing, read_ask};
ghost use Rattle.vale_fabric.specs.Reading.{IsRead, MayRead, Reads};

use crate::fabric::Fabric;
use crate::kept::Pass;
use nm_region::Buf;
use nm_types::{PortId, StepFault};
use std::sync::Wait;
use vale_book::Synced;

/// What a port gave, or why it could not be read, with the buffers that were to go back.
pub type PortRead = Result<Synced, (StepFault, Vec<Buf>)>;

impl Fabric {
    /// Buffers come back to the receive ring of a switch port or a monitor, and those of its frames
    /// that are ready go to its session. Of a pipe end this is recorded as a get, and else as a
    /// sync. Where it fails, the buffers are handed back.
    pub fn read<R: Wait>(
        &self,
        rt: &R,
        pass: &mut Pass,
        port: PortId,
        is_pipe: bool,
        back: Vec<Buf>,
    ) -> PortRead
        requires pass { IsPassIn self.now pass.old }
        requires may { MayIn self.now pass.old (read_ask is_pipe port (indices_of back.items)) }
        requires region { AreOf (fixed_in self.now).region back.items }
        ensures pass { IsPassIn self.now pass.new }
        ensures read { IfOk result (IsRead (fixed_in self.now) (knowing pass.old)
            (knowing pass.new) (read_ask is_pipe port (indices_of back.items)) port) }
        ensures speaks { IfOk result (λ synced. 1 ≤ length synced.offers.wants
            → Stands synced.offers.session (knowing pass.new).mine) }
        ensures full { IfErr result (λ refused. RefusesIn self.now pass.old pass.new
            (read_ask is_pipe port (indices_of back.items)) refused.0) }
        ensures back { IfErr result (λ refused. refused.1 ≡ back) }
    {
        let mut book = self.take(rt, pass);
        let synced = book.read(port, is_pipe, back);
        self.give(pass, book, synced.is_ok());
        synced
    }

    /// `read` of a switch port or a monitor, which is recorded as a sync.
    pub fn sync<R: Wait>(&self, rt: &R, pass: &mut Pass, port: PortId, back: Vec<Buf>) -> PortRead
        requires { MayRead self.now pass.old (asks.Sync port (indices_of back.items)) back.items }
        ensures { Reads self.now pass.old pass.new (asks.Sync port (indices_of back.items)) port
            back result }
    {
        self.read(rt, pass, port, false, back)
    }

    /// `read` of a pipe end, which is recorded as a get.
    pub fn pipe_get<R: Wait>(
        &self,
        rt: &R,
        pass: &mut Pass,
        port: PortId,
        back: Vec<Buf>,
    ) -> PortRead
        requires { MayRead self.now pass.old (asks.Get port (indices_of back.items)) back.items }
        ensures { Reads self.now pass.old pass.new (asks.Get port (indices_of back.items)) port
            back result }
    {
        self.read(rt, pass, port, true, back)
    }
}
