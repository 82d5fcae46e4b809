ghost use Rattle.std.specs.Prelude.{◌≡◌, ◌+◌, ◌<◌, true, false, replicate, None, Some};
ghost use Rattle.nm_port.specs.Words.{buffers_of, has_place};
ghost use Rattle.nm_types.specs.declared.place.Place.TheVariants as place;

use nm_hold::Hold;
use nm_port::checks::check_ring;
use nm_port::{Marks, SlotRing};
use nm_region::{Buf, Region};
use nm_types::{Place, PortId, Slot, SyncFault};
use std::collections::VecDeque;
use std::process::Abort;
use std::test::Fail;

const PORT: PortId = PortId(2);

/// A slot that names a buffer, with a frame of that length.
fn slot(buf_idx: u32, len: u16, flags: u16) -> Slot {
    Slot {
        buf_idx,
        len,
        flags,
        ptr: 0,
    }
}

/// Changes of slot 0 of a push of one frame, and what refuses the sync. The transmit slots hold the
/// buffers 2 to 5 of a pool of 64, and the last one is the kernel side's.
const FIRST_SLOTS: [(u32, u16, u16, Option<SyncFault>); 10] = [
    (2, 14, 0, None),
    (3, 14, 1, None),
    (
        3,
        14,
        0,
        Some(SyncFault::Unannounced {
            slot: 0,
            idx: 3,
            was: 2,
        }),
    ),
    (1, 14, 0, Some(SyncFault::IndexOut { slot: 0, idx: 1 })),
    (66, 14, 1, Some(SyncFault::IndexOut { slot: 0, idx: 66 })),
    (6, 14, 1, Some(SyncFault::NotHeld { slot: 0, idx: 6 })),
    (5, 14, 1, Some(SyncFault::NotHeld { slot: 0, idx: 5 })),
    (2, 2049, 0, Some(SyncFault::LongLen { slot: 0, len: 2049 })),
    (1, 2049, 16, Some(SyncFault::Indirect { slot: 0 })),
    (2, 14, 32, Some(SyncFault::Fragment { slot: 0 })),
];

/// The place of a transmit slot.
fn tx_place(at: u32) -> Place
    ensures { result ≡ place.Tx (record { 0 = 2 }) at }
{
    Place::Tx {
        port: PORT,
        slot: at,
    }
}

/// Puts a buffer into a transmit slot's place.
fn put(rt: &impl Abort, hold: &mut Hold, at: u32, buf: Buf, named: bool)
    requires pool { buffers_of hold.old ≡ 64 }
    requires place { has_place hold.old.ports (place.Tx (record { 0 = 2 }) at) ≡ true }
    ensures pool { buffers_of hold.new ≡ 64 }
    ensures ports { hold.new.ports ≡ hold.old.ports }
{
    let place = tx_place(at);
    let idx = buf.index();
    assert!(rt; hold.index(place).is_none() && hold.place(idx).is_none());
    assert!(rt; idx >= 2 && idx <= 65);
    hold.add(place, buf);
    assert!(rt; hold.index(place).is_some());
    hold.set_named(place, named);
}

/// What a check of the ring answers at a head.
fn refusal(hold: &Hold, ring: &mut SlotRing, marks: &mut Marks, head: u32) -> Option<SyncFault>
    requires { marks.old ≡ replicate (buffers_of hold.now + 2) false }
    ensures { marks.new ≡ marks.old }
{
    ring.put_head(head);
    ring.put_cur(head);
    check_ring(hold, PORT, ring, false, marks).err()
}

/// Checks each change of slot 0, and then two slots that name one buffer.
fn check_all(rt: &impl Abort, hold: &Hold, ring: &mut SlotRing, marks: &mut Marks)
    requires { marks.old ≡ replicate (buffers_of hold.now + 2) false }
{
    for (idx, len, flags, wanted) in FIRST_SLOTS {
        ring.put_slot(0, slot(idx, len, flags));
        assert!(rt;
            refusal(hold, ring, marks, 1) == wanted,
            "{idx} {len} {flags}"
        );
    }
    ring.put_slot(0, slot(2, 14, 0));
    ring.put_slot(1, slot(2, 14, 1));
    let doubled = SyncFault::Doubled { slot: 1, idx: 2 };
    assert!(rt; refusal(hold, ring, marks, 2) == Some(doubled));
    ring.put_slot(1, slot(3, 14, 0));
    assert!(rt; refusal(hold, ring, marks, 2).is_none());
    let out = SyncFault::HeadOut {
        head: 4,
        from: 0,
        to: 3,
    };
    assert!(rt; refusal(hold, ring, marks, 4) == Some(out));
}

/// The buffers stay in the hold: the test ends by the panic that it expects.
#[test]
#[should_panic(expected = "the buffers stay in the hold")]
fn pushes_are_checked(rt: HostRuntime) {
    let Ok((_region, mut all)) = Region::new(rt.alloc(), 4) else {
        panic!(rt; "out of memory");
    };
    assert_eq!(rt; all.len(), 4);
    let Ok(mut hold) = Hold::new(rt.alloc(), 64) else {
        panic!(rt; "out of memory");
    };
    let (Ok(slots), Ok(mut marks), Ok(room)) = (
        VecDeque::with_capacity(rt.alloc(), 4),
        Marks::new(rt.alloc(), 66),
        hold.room(4, 4, 0),
    ) else {
        panic!(rt; "out of memory");
    };
    let mut ring = SlotRing::tx(slots, &all);
    hold.set_port(PORT, room);
    for at in 0..4 {
        assert!(rt; !all.is_empty());
        put(&rt, &mut hold, at, all.remove(0), at < 3);
    }
    check_all(&rt, &hold, &mut ring, &mut marks);
    panic!(rt; "the buffers stay in the hold");
}
