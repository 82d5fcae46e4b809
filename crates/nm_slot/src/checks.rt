ghost use Rattle.std.specs.Prelude.{◌≡◌, ◌↔◌, IsOk, MatchResult, None, Some};
ghost use Rattle.nm_types.specs.SyncChecks.{slot_refusal, PassesSlot};

use bitflags::Flags;
use nm_types::{BUFFER_BYTES, Seen, Side, Slot, SlotFault, SlotFlags};

/// Whether a sync accepts the pushed slot at the position `at`. The first of these refuses: a
/// transmit slot that is indirect; an index of no buffer; a buffer that the session does not name;
/// one that an earlier pushed slot names; one that is not in the slot's place and not announced; a
/// transmit length beyond a buffer; a transmit slot whose frame goes on where it must end.
#[tactic(auto, using(nm_types::proofs::SlotChecks::slot_checks))]
pub fn judge(at: u32, slot: &Slot, seen: &Seen, side: Side) -> Result<(), SlotFault>
    ensures refusal { MatchResult result
        (λ _. slot_refusal side seen.now at slot.now ≡ None)
        (λ fault. slot_refusal side seen.now at slot.now ≡ Some fault) }
    ensures passes { IsOk result ↔ PassesSlot side seen.now slot.now }
{
    let idx = slot.buf_idx;
    let flags = SlotFlags::from_bits_retain(slot.flags);
    let is_tx = side == Side::Tx;
    if is_tx && flags.contains(SlotFlags::INDIRECT) {
        Err(SlotFault::Indirect { slot: at })
    } else if idx < 2 || idx > seen.top {
        Err(SlotFault::IndexOut { slot: at, idx })
    } else if !seen.held {
        Err(SlotFault::NotHeld { slot: at, idx })
    } else if seen.doubled {
        Err(SlotFault::Doubled { slot: at, idx })
    } else if idx != seen.was && !flags.contains(SlotFlags::BUF_CHANGED) {
        Err(SlotFault::Unannounced {
            slot: at,
            idx,
            was: seen.was,
        })
    } else if is_tx && slot.len as usize > BUFFER_BYTES {
        Err(SlotFault::LongLen {
            slot: at,
            len: slot.len,
        })
    } else if is_tx && seen.closing && flags.contains(SlotFlags::MORE_FRAGMENTS) {
        Err(SlotFault::Fragment { slot: at })
    } else {
        Ok(())
    }
}
