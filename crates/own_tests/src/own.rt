ghost use Rattle.std.specs.Prelude.{◌≡◌, ◌≤◌, ◌+◌, ◌∷◌, [], IsSome, None, length, true};
ghost use Rattle.nm_own.specs.Words.{IsPoolSize, empty_own, indices_of, refusal_at, ring_at};
ghost use Rattle.nm_own.specs.Words.{vec_capacity};
ghost use Rattle.nm_own.specs.LentOffers.{IsLentOffers};

use crate::steps::{Look, PORT, SHORT, Step, WHOLE, astray, check_push, play, see};
use nm_own::{LentOffers, OwnSide};
use nm_region::{Buf, Region};
use nm_types::{Chain, Name, PortId, Side, SlotWrite, SyncFault};
use std::alloc::Global;
use std::process::Abort;
use std::test::Fail;

/// A frame of four parts, one byte longer than one of three, and one of three.
const FOUR_PARTS: &[u8] = &[7; 6145];

const THREE_PARTS: &[u8] = &[7; 5000];

/// Writes to slot 0 of a push of one frame, and what refuses the sync then. The transmit slots hold
/// the buffers 2 to 5 of a pool of 64, the last one is the kernel side's, and 6 is an extra buffer.
const WRITES: [(SlotWrite, Option<SyncFault>); 8] = [
    (SlotWrite::Ptr(7), None),
    (
        SlotWrite::BufIdx(1),
        Some(SyncFault::IndexOut { slot: 0, idx: 1 }),
    ),
    (
        SlotWrite::BufIdx(66),
        Some(SyncFault::IndexOut { slot: 0, idx: 66 }),
    ),
    (
        SlotWrite::BufIdx(7),
        Some(SyncFault::NotHeld { slot: 0, idx: 7 }),
    ),
    (
        SlotWrite::BufIdx(5),
        Some(SyncFault::NotHeld { slot: 0, idx: 5 }),
    ),
    (
        SlotWrite::BufIdx(6),
        Some(SyncFault::Unannounced {
            slot: 0,
            idx: 6,
            was: 2,
        }),
    ),
    (
        SlotWrite::Len(2049),
        Some(SyncFault::LongLen { slot: 0, len: 2049 }),
    ),
    (SlotWrite::Flags(16), Some(SyncFault::Indirect { slot: 0 })),
];

/// Positions of the transmit ring, and what refuses a sync at them.
const POSITIONS: [(u32, u32, Option<SyncFault>); 4] = [
    (
        2,
        1,
        Some(SyncFault::CurOut {
            cur: 1,
            from: 2,
            to: 3,
        }),
    ),
    (
        4,
        4,
        Some(SyncFault::HeadOut {
            head: 4,
            from: 0,
            to: 3,
        }),
    ),
    (
        4294967295,
        0,
        Some(SyncFault::HeadOut {
            head: 4294967295,
            from: 0,
            to: 3,
        }),
    ),
    (3, 3, None),
];

/// One frame is put, slot 0 is written, the sync is judged, and the ring is reset.
fn write_each(rt: &impl Abort, own: &mut OwnSide, alloc: Global) {
    for (write, wanted) in WRITES {
        let steps = [
            Step::Put(WHOLE),
            Step::Write(0, write),
            Step::Sees(Look::Refused(Side::Tx, wanted)),
            Step::Reset,
            Step::Sees(Look::Slot(Side::Tx, 0, 2, 0, 0)),
        ];
        assert!(rt; astray(rt, own, alloc, &steps).is_none(), "{write:?}");
    }
}

/// Head and cur are written, the sync is judged, and the ring is reset.
fn move_each(rt: &impl Abort, own: &mut OwnSide, alloc: Global) {
    for (head, cur, wanted) in POSITIONS {
        let steps = [
            Step::Move(Side::Tx, head, cur),
            Step::Sees(Look::Refused(Side::Tx, wanted)),
            Step::Reset,
            Step::Sees(Look::Room(14, true)),
        ];
        assert!(rt; astray(rt, own, alloc, &steps).is_none(), "{head} {cur}");
    }
}

/// An empty receive ring, of which all goes back.
const EMPTY: &[Step] = &[
    Step::Move(Side::Rx, 1, 1),
    Step::Sees(Look::Refused(
        Side::Rx,
        Some(SyncFault::HeadOut {
            head: 1,
            from: 0,
            to: 0,
        }),
    )),
    Step::GiveAllBack,
    Step::Sees(Look::Refused(Side::Rx, None)),
];

/// A frame of three parts takes the three slots that a ring of four has, and one of four does not fit.
const PARTS: &[Step] = &[
    Step::Sees(Look::Room(6144, true)),
    Step::Sees(Look::Room(6145, false)),
    Step::Put(FOUR_PARTS),
    Step::Sees(Look::Slot(Side::Tx, 0, 2, 0, 0)),
    Step::Put(THREE_PARTS),
    Step::Sees(Look::Slot(Side::Tx, 0, 2, 2048, 32)),
    Step::Sees(Look::Slot(Side::Tx, 1, 3, 2048, 32)),
    Step::Sees(Look::Slot(Side::Tx, 2, 4, 904, 0)),
    Step::Sees(Look::Room(0, false)),
    Step::Sees(Look::Pushed(THREE_PARTS)),
    Step::Reset,
];

/// Two slots are swapped with marks, and back without: then the first one is refused.
const SWAPS: &[Step] = &[
    Step::Put(WHOLE),
    Step::Put(WHOLE),
    Step::Swap(0, 1, true),
    Step::Sees(Look::Slot(Side::Tx, 0, 3, 14, 1)),
    Step::Sees(Look::Slot(Side::Tx, 1, 2, 14, 1)),
    Step::Sees(Look::Refused(Side::Tx, None)),
    Step::Reset,
    Step::Swap(0, 1, false),
    Step::Move(Side::Tx, 2, 2),
    Step::Sees(Look::Refused(
        Side::Tx,
        Some(SyncFault::Unannounced {
            slot: 0,
            idx: 3,
            was: 2,
        }),
    )),
    Step::Reset,
];

/// A ring of four slots takes three frames; nothing is forwarded from an empty receive ring.
const FULL: &[Step] = &[
    Step::Forward,
    Step::Put(WHOLE),
    Step::Sees(Look::Pushed(WHOLE)),
    Step::Put(WHOLE),
    Step::Put(WHOLE),
    Step::Put(WHOLE),
    Step::Sees(Look::Room(14, false)),
    Step::Sees(Look::Slot(Side::Tx, 2, 4, 14, 0)),
    Step::Sees(Look::Users(Side::Tx, 3, false)),
];

/// Three frames are sent, and a fourth in a slot that changed its buffer with another one. The places
/// have changed their buffers then, and the other slot is accepted as it is.
const EXCHANGE: &[Step] = &[
    Step::Send,
    Step::Sees(Look::Room(0, true)),
    Step::Sees(Look::Slot(Side::Tx, 3, 5, 0, 0)),
    Step::Sees(Look::Users(Side::Tx, 2, false)),
    Step::Swap(3, 0, true),
    Step::Put(WHOLE),
    Step::Send,
    Step::Sees(Look::Slot(Side::Tx, 0, 5, 14, 1)),
    Step::Sees(Look::Users(Side::Tx, 3, false)),
    Step::Move(Side::Tx, 1, 1),
    Step::Sees(Look::Refused(Side::Tx, None)),
    Step::Reset,
    Step::Sees(Look::Slot(Side::Tx, 0, 5, 0, 0)),
];

/// The port's extra positions, of which there is one, are linked, and the head of the list is stored.
/// The first bytes of the extra buffer are its link.
const LINKS: &[Step] = &[
    Step::Sees(Look::Head(6)),
    Step::Link(1, 1),
    Step::Sees(Look::Head(6)),
    Step::Sees(Look::Starts(6, &[6, 0, 0, 0])),
    Step::Link(1, 2),
    Step::Sees(Look::Head(6)),
    Step::Sees(Look::Starts(6, &[6, 0, 0, 0])),
    Step::Link(2, 0),
    Step::Sees(Look::Head(6)),
    Step::Sees(Look::Starts(6, &[6, 0, 0, 0])),
    Step::Link(1, 0),
    Step::Sees(Look::Head(6)),
    Step::Sees(Look::Starts(6, &[0, 0, 0, 0])),
    Step::Link(0, 0),
    Step::Sees(Look::Head(0)),
    Step::Sees(Look::Starts(6, &[0, 0, 0, 0])),
    Step::Head(4294967295),
    Step::Sees(Look::Head(4294967295)),
    Step::Link(0, 1),
    Step::Sees(Look::Head(6)),
];

/// Extra positions are numbered from 1. The buffer 2 stands in the slot of the kernel side, and
/// nothing is written to it.
const NUMBERS: &[Step] = &[
    Step::Sees(Look::Numbered(0, Some(0))),
    Step::Sees(Look::Numbered(1, Some(6))),
    Step::Sees(Look::Numbered(2, None)),
    Step::Front(5, [1, 2]),
    Step::Front(2, [1, 2]),
    Step::Sees(Look::Starts(5, &[1, 2])),
    Step::Sees(Look::Named(2, false)),
];

/// The life of the port.
const LIFE: [&[Step]; 7] = [EMPTY, PARTS, SWAPS, FULL, EXCHANGE, LINKS, NUMBERS];

/// An empty vector for some numbers, of which there are no more than `most`.
pub(crate) fn numbers(rt: &impl Abort, alloc: Global, count: usize, most: usize) -> Vec<u32>
    ensures few { count ≤ most }
    ensures empty { result.items ≡ [] }
    ensures room { count ≤ vec_capacity result }
{
    assert!(rt; count <= most);
    match Vec::with_capacity(alloc, count) {
        Ok(notes) => notes,
        Err(_) => panic!(rt; "out of memory"),
    }
}

/// Lends the buffers of up to two frames that a put offers; answers the lengths of the frames too.
pub(crate) fn lend_frames(
    rt: &impl Abort,
    mut own: OwnSide,
    alloc: Global,
    pending: &mut Vec<Buf>,
) -> (LentOffers, Vec<u16>)
    requires room { 2 ≤ vec_capacity pending.old }
    requires empty { pending.old.items ≡ [] }
    ensures lent { IsLentOffers own pending.new.items result.0 }
    ensures capacity { vec_capacity pending.new ≡ vec_capacity pending.old }
{
    check_push(rt, &mut own, Side::Tx);
    let Ok(lengths) = own.offered_lengths(alloc, PORT) else {
        panic!(rt; "out of memory");
    };
    let notes = numbers(rt, alloc, lengths.len(), 2);
    (own.lend_offered(PORT, pending, notes), lengths)
}

/// None of the frames that are offered is taken: the peer is gone.
fn take_none(rt: &impl Abort, own: OwnSide, alloc: Global) -> OwnSide {
    let mut rest = room(rt, alloc, 2);
    let (lent, _) = lend_frames(rt, own, alloc, &mut rest);
    let own = lent.taken(&mut rest, Vec::new(alloc));
    rest.destroy_empty();
    own
}

/// A frame was offered to a peer that is gone. It is offered again with the next one.
const OFFERED: &[Step] = &[
    Step::Sees(Look::Users(Side::Tx, 0, false)),
    Step::Sees(Look::Users(Side::Tx, 1, true)),
    Step::Sees(Look::Users(Side::Tx, 2, true)),
    Step::Sees(Look::Users(Side::Tx, 3, false)),
    Step::Sees(Look::Named(5, false)),
    Step::Sees(Look::Named(3, true)),
    Step::Reset,
    Step::Sees(Look::Users(Side::Tx, 0, false)),
    Step::Put(SHORT),
    Step::Sees(Look::Offered(&[WHOLE, SHORT])),
    Step::Sees(Look::Back(0)),
];

/// A frame is offered to a peer that is gone: its slot stays pushed, and its buffer cannot be
/// named.
fn offer(rt: &impl Abort, mut own: OwnSide, alloc: Global) -> OwnSide {
    play(rt, &mut own, alloc, &[Step::Put(WHOLE)]);
    let mut own = take_none(rt, own, alloc);
    play(rt, &mut own, alloc, OFFERED);
    own
}

/// Puts buffers into a vector, in order.
fn put_four(bufs: &mut Vec<Buf>, one: Buf, two: Buf, three: Buf, four: Buf)
    requires room { 4 ≤ vec_capacity bufs.old }
    requires empty { bufs.old.items ≡ [] }
    ensures { indices_of bufs.new.items ≡ one.index ∷ two.index ∷ three.index ∷ four.index ∷ [] }
{
    bufs.push_reserved(one);
    bufs.push_reserved(two);
    bufs.push_reserved(three);
    bufs.push_reserved(four);
}

/// A port that is prepared is not opened. Another one opens, of four slots in each ring with an
/// extra buffer.
fn open(
    rt: &impl Abort,
    own: &mut OwnSide,
    alloc: Global,
    name: Name,
    tx: Vec<Buf>,
    extra: Vec<Buf>,
)
    requires own { own.old.own ≡ empty_own 64 }
    requires tx { indices_of tx.items ≡ 2 ∷ 3 ∷ 4 ∷ 5 ∷ [] }
    requires extra { indices_of extra.items ≡ 6 ∷ [] }
{
    assert!(rt; own.prepare(alloc, name, 2, 4096, 1024).is_ok() && own.is_empty());
    assert!(rt; tx.len() == 4 && extra.len() == 1);
    match own.prepare(alloc, name, 4, 4, 1) {
        Ok(new) => own.add(new, PORT, tx, extra),
        Err(_fault) => panic!(rt; "out of memory"),
    }
}

/// What is seen of a new port.
const OPENED: &[Look] = &[
    Look::Slot(Side::Tx, 0, 2, 0, 0),
    Look::Slot(Side::Tx, 2, 4, 0, 0),
];

/// The port is used.
fn live(rt: &impl Abort, own: &mut OwnSide, alloc: Global) {
    see(rt, own, alloc, OPENED);
    write_each(rt, own, alloc);
    move_each(rt, own, alloc);
    for steps in LIFE {
        play(rt, own, alloc, steps);
    }
    assert!(rt; own.extra_head(PortId(3)).is_none());
}

/// Removes the port, and ends the own side.
pub(crate) fn close_port(rt: &impl Abort, mut own: OwnSide) -> (Vec<Buf>, Chain) {
    assert!(rt; own.has_port(PORT));
    let (back, chain) = own.close_port(PORT);
    assert!(rt; own.is_empty());
    own.close();
    (back, chain)
}

/// Whether the buffers are those of these indices, in order.
pub(crate) fn have_indices(bufs: &[Buf], indices: &[u32]) -> bool {
    bufs.len() == indices.len() && bufs.iter().zip(indices).all(|(b, i)| b.index() == *i)
}

/// Whether the port alone is there, with five buffers.
fn is_whole(own: &OwnSide) -> bool {
    own.has_port(PORT)
        && !own.has_port(PortId(3))
        && !own.is_empty()
        && own.buffer_count(PortId(3)) == 0
        && own.buffer_count(PORT) == 5
}

/// Closes the port, and then the own side. The port's buffers come in the order of its places.
fn close(rt: &impl Abort, own: OwnSide) -> Vec<Buf> {
    assert!(rt; is_whole(&own));
    let (back, chain) = close_port(rt, own);
    assert!(rt;
        chain
            == Chain {
                found: 1,
                astray: 0
            }
    );
    assert!(rt; have_indices(&back, &[5, 3, 4, 2, 6]));
    assert!(rt; back.len() == 5);
    assert!(rt; back[3].bytes().starts_with(WHOLE));
    back
}

/// An own side without ports.
fn own_side(rt: &impl Abort, alloc: Global) -> OwnSide
    ensures { result.own ≡ empty_own 64 }
{
    match OwnSide::new(alloc, 64) {
        Ok(own) => own,
        Err(_) => panic!(rt; "out of memory"),
    }
}

pub(crate) fn port_name(rt: &impl Abort) -> Name {
    match Name::parse("vale0:a") {
        Ok(name) => name,
        Err(_) => panic!(rt; "no name"),
    }
}

/// A region's buffers, the first four of them apart, with an own side without ports.
pub(crate) fn start(
    rt: &impl Abort,
    alloc: Global,
    more: u32,
) -> (Region, Vec<Buf>, Vec<Buf>, OwnSide)
    requires { IsPoolSize (4 + more) }
    ensures four { indices_of result.2.items ≡ 2 ∷ 3 ∷ 4 ∷ 5 ∷ [] }
    ensures own { result.3.own ≡ empty_own 64 }
{
    let Ok((region, mut all)) = Region::new(alloc, 4 + more) else {
        panic!(rt; "out of memory");
    };
    let four = first_four(rt, alloc, &mut all);
    (region, all, four, own_side(rt, alloc))
}

/// Takes the first buffer, which is that of an index.
pub(crate) fn take_first(rt: &impl Abort, all: &mut Vec<Buf>, idx: u32) -> Buf
    ensures { result.index ≡ idx }
{
    assert!(rt; !all.is_empty());
    let buf = all.remove(0);
    assert!(rt; buf.index() == idx);
    buf
}

/// The first four of a region's buffers, 2 to 5.
fn first_four(rt: &impl Abort, alloc: Global, all: &mut Vec<Buf>) -> Vec<Buf>
    ensures { indices_of result.items ≡ 2 ∷ 3 ∷ 4 ∷ 5 ∷ [] }
{
    let mut tx = room(rt, alloc, 4);
    let two = take_first(rt, all, 2);
    let three = take_first(rt, all, 3);
    let four = take_first(rt, all, 4);
    let five = take_first(rt, all, 5);
    put_four(&mut tx, two, three, four, five);
    tx
}

/// An empty vector for buffers.
pub(crate) fn room(rt: &impl Abort, alloc: Global, count: usize) -> Vec<Buf>
    ensures empty { result.items ≡ [] }
    ensures room { count ≤ vec_capacity result }
{
    match Vec::with_capacity(alloc, count) {
        Ok(bufs) => bufs,
        Err(_) => panic!(rt; "out of memory"),
    }
}

/// The buffers are not given back to the region: the test ends by the panic that it expects.
#[test]
#[should_panic(expected = "the buffers stay out of the region")]
fn port_of_four_slots(rt: HostRuntime) {
    let alloc = rt.alloc();
    let (_region, mut all, tx, mut own) = start(&rt, alloc, 1);
    let mut extra = room(&rt, alloc, 1);
    extra.push_reserved(take_first(&rt, &mut all, 6));
    open(&rt, &mut own, alloc, port_name(&rt), tx, extra);
    live(&rt, &mut own, alloc);
    let own = offer(&rt, own, alloc);
    let _back = close(&rt, own);
    panic!(rt; "the buffers stay out of the region");
}
