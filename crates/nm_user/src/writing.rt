//! What a user writes on its own side between its calls: positions, slots and bytes.
ghost use Rattle.std.specs.Prelude.{◌≡◌, ◌≤◌, is_some, length, IfSome, IsSome, Some, option_and_then};
ghost use Rattle.nm_user.specs.Words.{named_bytes, option_copied_mut, port_with_id, ring_at, sem};
ghost use Rattle.nm_user.specs.Words.{user_slot_at, with_cur, with_head, with_head_of_chain};
ghost use Rattle.nm_user.specs.Words.{with_user_slot, with_written};
ghost use Rattle.nm_user.specs.LentSides.{LendsBytesIn, LendsSlotIn, bytes_in, slot_in};

use crate::session::Session;
use nm_own::OwnSide;
use nm_types::{PortId, Side, Slot};

/// The bytes, to be written, of a named buffer of an own side that is there.
fn lend_in(own: &mut Option<OwnSide>, idx: u32) -> &mut [u8]
    requires { IsSome (option_and_then (bytes_in idx) own.old) }
    ensures* writes_back { sem 𝓛 (LendsBytesIn own.entry idx result) }
    ensures bytes { option_and_then (bytes_in idx) own.old ≡ Some result.now }
    ensures size { length result.now ≡ 2048 }
{
    match own {
        Some(own) => own.lend(idx),
        None => unreachable!(),
    }
}

/// One of the user's slots, to be written, of an own side that is there.
fn lend_slot_in(own: &mut Option<OwnSide>, port: PortId, side: Side, at: u32) -> Option<&mut Slot>
    ensures* writes_back { sem 𝓛 (LendsSlotIn own.entry side port.0 at result) }
    ensures slot { option_copied_mut result ≡ option_and_then (slot_in side port.0 at) own.old }
{
    match own {
        Some(own) => own.slot_mut(port, side, at),
        None => None,
    }
}

impl<'f> Session<'f> {
    ghost use Rattle.nm_user.specs.LentBytes.{LendsBytes, LendsNamed, LendsSlot};

    /// Stores a ring's head, any number, which the next sync judges. Answers whether there is such a
    /// ring.
    pub fn set_head(&mut self, port: PortId, side: Side, head: u32) -> bool
        ensures there { result ≡ is_some (ring_at side self.old.own port.0) }
        ensures own { self.new
            ≡ record self.old { own = with_head side port.0 head self.old.own } }
    {
        let there = self.ring(port, side).is_some();
        if let Some(own) = &mut self.own {
            own.put_head(port, side, head);
        }
        there
    }

    /// Stores a ring's cur, any number, which the next sync judges. Answers whether there is such a
    /// ring.
    pub fn set_cur(&mut self, port: PortId, side: Side, cur: u32) -> bool
        ensures there { result ≡ is_some (ring_at side self.old.own port.0) }
        ensures own { self.new
            ≡ record self.old { own = with_cur side port.0 cur self.old.own } }
    {
        let there = self.ring(port, side).is_some();
        if let Some(own) = &mut self.own {
            own.put_cur(port, side, cur);
        }
        there
    }

    /// Stores the index that a port's list of extra buffers begins with, any number: no call judges it,
    /// and `detach` tells how far the list led. Answers whether there is such a port.
    pub fn set_extra_head(&mut self, port: PortId, idx: u32) -> bool
        ensures there { result ≡ is_some (port_with_id self.old.own port.0) }
        ensures own { self.new
            ≡ record self.old { own = with_head_of_chain port.0 idx self.old.own } }
    {
        let there = self.extra_head(port).is_some();
        if let Some(own) = &mut self.own {
            own.set_extra_head(port, idx);
        }
        there
    }

    /// One of the user's slots, to be written; none if it is not the user's. The session then has
    /// what was written there, and is otherwise unchanged. A slot that names another buffer than the
    /// one in its place is to be marked with `NS_BUF_CHANGED`, or its sync is refused.
    pub fn slot_mut(&mut self, port: PortId, side: Side, at: u32) -> Option<&mut Slot>
        ensures* writes_back { sem 𝓛 (LendsSlot self.entry side port.0 at result) }
        ensures slot { option_copied_mut result ≡ user_slot_at side self.old.own port.0 at }
    {
        lend_slot_in(&mut self.own, port, side, at)
    }

    /// The 2,048 bytes of a buffer that the user may name, to be written. The session then has what
    /// was written there, and is otherwise unchanged.
    pub fn bytes_mut(&mut self, idx: u32) -> Option<&mut [u8]>
        ensures* writes_back { sem 𝓛 (LendsNamed self.entry idx result) }
        ensures bytes { option_copied_mut result ≡ named_bytes self.old.own idx }
        ensures size { IfSome result (λ bytes. length bytes.now ≡ 2048) }
    {
        if self.finds_named(idx) {
            Some(self.lend(idx))
        } else {
            None
        }
    }

    /// Whether the user may name a buffer, asked through the reference that `bytes_mut` has.
    fn finds_named(&mut self, idx: u32) -> bool
        ensures named { result ≡ is_some (named_bytes self.old.own idx) }
        ensures same { self.new ≡ self.old }
    {
        self.bytes(idx).is_some()
    }

    /// What `bytes_mut` lends, of a buffer that the user may name as its caller knows. The caller's
    /// proof learns from this call what the session ends as; from `bytes_mut` it learns nothing of
    /// that.
    pub fn lend(&mut self, idx: u32) -> &mut [u8]
        requires { IsSome (named_bytes self.old.own idx) }
        ensures* writes_back { sem 𝓛 (LendsBytes self.entry idx result) }
        ensures bytes { named_bytes self.old.own idx ≡ Some result.now }
        ensures size { length result.now ≡ 2048 }
    {
        lend_in(&mut self.own, idx)
    }

    /// Writes one of the user's slots whole; does nothing if it is not the user's. Where that is as
    /// good, it needs no `Option` taken apart, as `slot_mut` does.
    pub fn put_slot(&mut self, port: PortId, side: Side, at: u32, slot: Slot)
        ensures { self.new
            ≡ record self.old { own = with_user_slot side port.0 at slot self.old.own } }
    {
        if let Some(own) = &mut self.own {
            own.put_slot(port, side, at, slot);
        }
    }

    /// Writes bytes over the first ones of a buffer that the user may name; does nothing if it is
    /// not one. Where that is as good, it needs no `Option` taken apart, as `bytes_mut` does.
    pub fn write(&mut self, idx: u32, bytes: &[u8])
        requires { length bytes.now ≤ 2048 }
        ensures { self.new
            ≡ record self.old { own = with_written idx bytes.now self.old.own } }
    {
        if let Some(own) = &mut self.own {
            own.write_front(idx, bytes);
        }
    }
}
