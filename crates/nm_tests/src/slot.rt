use bitflags::Flags;
use nm_slot::{Seen, Slot, SlotFault, judge};
use nm_types::{Side, SlotFlags};

/// A slot of a transmit ring: its place, its buffer, its flags and its length, and what refuses it.
type Row = (u32, u32, u16, u16, Option<SlotFault>);

const DOUBLED: SlotFault = SlotFault::Doubled { slot: 1, idx: 2 };

const UNANNOUNCED: SlotFault = SlotFault::Unannounced {
    slot: 0,
    idx: 14,
    was: 10,
};

const UNANNOUNCED_LONG: SlotFault = SlotFault::Unannounced {
    slot: 7,
    idx: 5,
    was: 2,
};

const UNANNOUNCED_READ: SlotFault = SlotFault::Unannounced {
    slot: 0,
    idx: 10,
    was: 14,
};

// What a session of a pool of 64 buffers knows: the buffer that was in the place, whether the session
// holds the one that is named, whether a slot before names it too, and whether a frame must end.
//
// A port with transmit buffers 2 to 5 and receive buffers 6 to 9: one frame is put, its slot is
// changed, and the ring is synced. Each of the slots at the place 7 is refused for the first of its
// faults, which the one after it no longer has. Others are good: the first and the last buffer, a
// whole buffer of bytes, an announced buffer, other flags; and a frame goes on where it need not end.

const KNOWN: &[(u32, bool, bool, bool, &[Row])] = &[
    (
        2,
        false,
        false,
        true,
        &[
            (0, 1, 0, 14, Some(SlotFault::IndexOut { slot: 0, idx: 1 })),
            (0, 66, 0, 14, Some(SlotFault::IndexOut { slot: 0, idx: 66 })),
            (0, 6, 0, 14, Some(SlotFault::NotHeld { slot: 0, idx: 6 })),
        ],
    ),
    (
        2,
        false,
        true,
        true,
        &[
            (7, 66, 48, 2049, Some(SlotFault::Indirect { slot: 7 })),
            (
                7,
                66,
                32,
                2049,
                Some(SlotFault::IndexOut { slot: 7, idx: 66 }),
            ),
            (7, 5, 32, 2049, Some(SlotFault::NotHeld { slot: 7, idx: 5 })),
        ],
    ),
    (
        2,
        true,
        true,
        true,
        &[(7, 5, 32, 2049, Some(SlotFault::Doubled { slot: 7, idx: 5 }))],
    ),
    (
        2,
        true,
        false,
        true,
        &[
            (
                0,
                2,
                0,
                2049,
                Some(SlotFault::LongLen { slot: 0, len: 2049 }),
            ),
            (0, 2, 16, 14, Some(SlotFault::Indirect { slot: 0 })),
            (0, 2, 32, 14, Some(SlotFault::Fragment { slot: 0 })),
            (7, 5, 32, 2049, Some(UNANNOUNCED_LONG)),
            (
                7,
                5,
                33,
                2049,
                Some(SlotFault::LongLen { slot: 7, len: 2049 }),
            ),
            (7, 5, 33, 2048, Some(SlotFault::Fragment { slot: 7 })),
            (0, 2, 0, 14, None),
            (0, 5, 1, 0, None),
        ],
    ),
    (3, true, true, true, &[(1, 2, 1, 14, Some(DOUBLED))]),
    (10, true, false, true, &[(0, 14, 0, 14, Some(UNANNOUNCED))]),
    (65, true, false, true, &[(0, 65, 0, 2048, None)]),
    (
        5,
        true,
        false,
        true,
        &[(0, 5, 8, 14, None), (0, 5, 0xffce, 14, None)],
    ),
    (2, true, false, false, &[(0, 2, 32, 2048, None)]),
];

/// What refuses a slot of which this is known.
fn refusal((at, buf_idx, flags, len, _): &Row, known: &Seen, side: Side) -> Option<SlotFault> {
    let slot = Slot {
        buf_idx: *buf_idx,
        len: *len,
        flags: *flags,
        ptr: 0,
    };
    judge(*at, &slot, known, side).err()
}

/// What is known of slots in whose place is `was`.
fn seen(was: u32, held: bool, doubled: bool, closing: bool) -> Seen {
    Seen {
        was,
        top: 65,
        held,
        doubled,
        closing,
    }
}

#[test]
fn transmit_slots(rt: HostRuntime) {
    for (was, held, doubled, closing, rows) in KNOWN {
        let known = seen(*was, *held, *doubled, *closing);
        for row in *rows {
            assert!(rt;
                refusal(row, &known, Side::Tx) == row.4,
                "{} {}",
                row.0,
                row.1
            );
        }
    }
}

/// A receive slot may have any length and flags, but names a buffer by the same rules: the buffer that
/// was in its place, and the slot.
const READ: &[(u32, Row)] = &[
    (2, (0, 2, 32, 2048, None)),
    (6, (0, 6, 0xfffe, 2049, None)),
    (14, (0, 10, 0xfffe, 14, Some(UNANNOUNCED_READ))),
];

#[test]
fn receive_slots(rt: HostRuntime) {
    for (was, row) in READ {
        let known = seen(*was, true, false, true);
        assert!(rt;
            refusal(row, &known, Side::Rx) == row.4,
            "{} {}",
            row.0,
            row.1
        );
    }
}

/// The numbers of netmap(4)'s flags.
#[test]
fn flags_are_numbered(rt: HostRuntime) {
    let numbered = [
        (SlotFlags::BUF_CHANGED, 1),
        (SlotFlags::REPORT, 2),
        (SlotFlags::FORWARD, 4),
        (SlotFlags::NO_LEARN, 8),
        (SlotFlags::INDIRECT, 16),
        (SlotFlags::MORE_FRAGMENTS, 32),
    ];
    for (flag, bits) in numbered {
        assert!(rt; flag.bits() == bits, "{bits}");
        assert!(rt;
            SlotFlags::from_bits_retain(bits | 64).contains(flag),
            "{bits}"
        );
    }
}
