ghost use Rattle.std.specs.Prelude.{◌≡◌, ◌<◌, ◌≤◌, ◌↔◌, IsTrue, OnOk, OnErr, length, min};
ghost use Rattle.nm_io.specs.Calls.{CallState, IsListed, no_calls_in_pieces, after_call};
ghost use Rattle.nm_io.specs.Calls.{after_fault, after_refused, after_want, HasFailed};
ghost use Rattle.nm_io.specs.Counts.{raised};

use crate::Failed;
use std::marker::Model;

/// The calls that an in-memory shelf or sink had, which of them are to fail, and how many bytes each
/// takes or gives at most.
#[derive(Drop)]
pub(crate) struct Calls {
    fail: Vec<u64>,
    piece: usize,
    made: u64,
    faults: u64,
    wants: u64,
}

impl Model for Calls {
    ghost Value = { CallState };

    ghost view = { λ c. record {
      fail = c.fail.items;
      piece = c.piece;
      made = c.made;
      faults = c.faults;
      wants = c.wants;
    } };

    ghost invariant = { λ c. 0 < c.piece };
}

impl Calls {
    /// No calls; those whose numbers `fail` lists are to fail, and each other takes or gives at most
    /// `piece` bytes.
    pub(crate) fn in_pieces(fail: Vec<u64>, piece: usize) -> Calls
        requires { 0 < piece }
        ensures { result ≡ no_calls_in_pieces fail.items piece }
    {
        Calls {
            fail,
            piece,
            made: 0,
            faults: 0,
            wants: 0,
        }
    }

    /// Returns how many of these bytes a call takes.
    pub(crate) fn taken(&self, bytes: &[u8]) -> usize
        ensures piece { result ≡ min (length bytes.now) self.now.piece }
        ensures some { 0 < length bytes.now → 0 < result }
    {
        bytes.len().min(self.piece)
    }

    /// Returns how many bytes a call gives at most.
    pub(crate) fn piece(&self) -> usize
        ensures piece { result ≡ self.now.piece }
        ensures some { 0 < result }
    {
        self.piece
    }

    /// Counts the calls that failed because memory ran out.
    pub(crate) fn wants(&self) -> u64
        ensures { result ≡ self.now.wants }
    {
        self.wants
    }

    /// Tells whether the next call is to fail.
    pub(crate) fn is_listed(&self) -> bool
        ensures { IsTrue result ↔ IsListed self.now }
    {
        self.fail.contains(&self.made.saturating_add(1))
    }

    /// Fails the next call, and counts it, if it is to fail.
    pub(crate) fn pass(&mut self) -> Result<(), Failed>
        ensures passed { OnOk result (¬ IsListed self.old × (self.new ≡ self.old)) }
        ensures failed { OnErr result (IsListed self.old × (self.new ≡ after_fault self.old)) }
        ensures later { self.old.faults ≤ self.new.faults }
    {
        if self.is_listed() {
            return Err(self.fault());
        }
        Ok(())
    }

    /// Counts a call.
    pub(crate) fn count(&mut self)
        ensures { self.new ≡ after_call self.old }
    {
        raise(&mut self.made);
    }

    /// Counts a call that failed.
    pub(crate) fn fault(&mut self) -> Failed
        ensures { HasFailed (after_fault self.old) self.old self.new }
    {
        raise(&mut self.made);
        raise(&mut self.faults);
        Failed
    }

    /// Counts that memory ran out.
    pub(crate) fn want(&mut self)
        ensures { self.new ≡ after_want self.old }
    {
        raise(&mut self.wants);
    }

    /// Counts a call that failed because memory ran out.
    pub(crate) fn refuse(&mut self) -> Failed
        ensures { HasFailed (after_refused self.old) self.old self.new }
    {
        self.want();
        self.fault()
    }
}

/// Counts one more event.
fn raise(count: &mut u64)
    ensures counted { count.new ≡ raised count.old }
    ensures later { count.old ≤ count.new }
{
    *count = count.saturating_add(1);
}
