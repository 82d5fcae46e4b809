ghost use Rattle.std.specs.Prelude.{◌≡◌, ◌≤◌, ◌+◌, ◌∷◌, []};
ghost use Rattle.nm_own.specs.Words.{IsPoolSize, SideState, empty_own, indices_of, vec_capacity};
ghost use Rattle.nm_own.specs.LentBack.{IsLentBack};

use crate::own::{
    close_port, have_indices, lend_frames, numbers, port_name, room, start, take_first,
};
use crate::steps::{FRAME, Look, PORT, SHORT, Step, WHOLE, check_push, place, play, see};
use nm_own::{LentBack, OwnSide, SlotPlace};
use nm_region::{Buf, Region};
use nm_types::{Name, Side};
use std::alloc::Global;
use std::process::Abort;
use std::test::Fail;

/// Publishes the first bytes of a buffer, all of whose bytes are 7 behind the broadcast, as a part
/// behind which so many follow.
fn receive(rt: &impl Abort, own: &mut OwnSide, buf: Buf, len: u16, rest: u8) {
    let mut buf = buf;
    buf.write(&[7; 64]);
    buf.write(&FRAME);
    assert!(rt; len <= 14 && own.is_new(buf.index()));
    assert!(rt; own.can_receive(PORT));
    own.receive(PORT, buf, len, rest);
}

/// Lends up to three buffers that the receive ring gives back.
fn lend(rt: &impl Abort, mut own: OwnSide, alloc: Global, back: &mut Vec<Buf>) -> LentBack
    requires room { 3 ≤ vec_capacity back.old }
    requires empty { back.old.items ≡ [] }
    ensures lent { (s : SideState) × IsLentBack s back.new.items result }
    ensures capacity { vec_capacity back.new ≡ vec_capacity back.old }
{
    check_push(rt, &mut own, Side::Rx);
    let Ok(names) = own.back(alloc, PORT) else {
        panic!(rt; "out of memory");
    };
    let notes = numbers(rt, alloc, names.len(), 3);
    own.lend_back(PORT, back, notes)
}

/// A receive slot and another one come to name each other's buffers, and the receive ring is synced
/// with its head at a position, which gives back up to three buffers. They are lent twice, and come
/// back the first time.
fn give_back(
    rt: &impl Abort,
    mut own: OwnSide,
    alloc: Global,
    back: &mut Vec<Buf>,
    at: u32,
    other: SlotPlace,
    head: u32,
) -> OwnSide
    requires room { 3 ≤ vec_capacity back.old }
    requires empty { back.old.items ≡ [] }
    ensures { vec_capacity back.new ≡ vec_capacity back.old }
{
    own.swap_slots(place(Side::Rx, at), other, true);
    own.put_positions(PORT, Side::Rx, head, head);
    let own = lend(rt, own, alloc, back).undo(back);
    lend(rt, own, alloc, back).received()
}

/// The last buffer that came back, which is that of an index.
fn take_last(rt: &impl Abort, back: &mut Vec<Buf>, idx: u32) -> Buf
    ensures { vec_capacity back.new ≡ vec_capacity back.old }
{
    match back.pop() {
        Some(buf) => {
            assert!(rt; buf.index() == idx);
            buf
        }
        None => panic!(rt; "no buffer"),
    }
}

/// What is seen of a receive ring that three frames fill.
const FILLED: &[Look] = &[
    Look::Receives(false),
    Look::New(6, false),
    Look::Slot(Side::Rx, 0, 6, 14, 0),
    Look::Slot(Side::Rx, 1, 7, 7, 0),
    Look::Slot(Side::Rx, 2, 8, 0, 0),
    Look::Users(Side::Rx, 3, false),
    Look::Starts(6, WHOLE),
    Look::Starts(7, &[255, 255, 255, 255, 255, 255, 2, 0, 0]),
    Look::Starts(8, &[0, 0, 0]),
];

/// Three frames fill a ring of four slots. Of each buffer only the frame is left.
fn fill(rt: &impl Abort, own: &mut OwnSide, alloc: Global, all: &mut Vec<Buf>) {
    receive(rt, own, take_first(rt, all, 6), 14, 0);
    receive(rt, own, take_first(rt, all, 7), 7, 0);
    receive(rt, own, take_first(rt, all, 8), 0, 0);
    see(rt, own, alloc, FILLED);
}

/// What is seen once the buffers of two slots are back.
const CROSSED: &[Look] = &[
    Look::New(6, true),
    Look::New(7, true),
    Look::Users(Side::Rx, 0, false),
    Look::Users(Side::Rx, 1, false),
    Look::Slot(Side::Rx, 2, 8, 0, 0),
];

/// What is seen once they brought frames again.
const BROUGHT: &[Look] = &[
    Look::Slot(Side::Rx, 3, 6, 1, 0),
    Look::Slot(Side::Rx, 0, 7, 2, 0),
];

/// Two slots that name each other's buffers go back, and the buffers come in the order of the slots.
/// Each brings a frame again, in the slots behind.
fn cross(rt: &impl Abort, own: OwnSide, alloc: Global, back: &mut Vec<Buf>) -> OwnSide
    requires room { 3 ≤ vec_capacity back.old }
    requires empty { back.old.items ≡ [] }
    ensures { vec_capacity back.new ≡ vec_capacity back.old }
{
    let mut own = give_back(rt, own, alloc, back, 0, place(Side::Rx, 1), 2);
    assert!(rt; have_indices(back, &[7, 6]));
    see(rt, &mut own, alloc, CROSSED);
    receive(rt, &mut own, take_last(rt, back, 6), 1, 0);
    receive(rt, &mut own, take_last(rt, back, 7), 2, 0);
    see(rt, &mut own, alloc, BROUGHT);
    own
}

/// What is seen once the buffer of a transmit slot is back, and what its slot names then.
const TRADED: &[Step] = &[
    Step::Sees(Look::Named(2, false)),
    Step::Sees(Look::Named(8, true)),
    Step::Reset,
    Step::Sees(Look::Slot(Side::Tx, 0, 8, 0, 0)),
];

/// A slot that names the buffer of a transmit slot gives that one back, and the other stands in the
/// transmit slot's place.
fn trade(rt: &impl Abort, own: OwnSide, alloc: Global, back: &mut Vec<Buf>) -> OwnSide
    requires room { 3 ≤ vec_capacity back.old }
    requires empty { back.old.items ≡ [] }
    ensures { vec_capacity back.new ≡ vec_capacity back.old }
{
    let mut own = give_back(rt, own, alloc, back, 2, place(Side::Tx, 0), 3);
    assert!(rt; have_indices(back, &[2]));
    play(rt, &mut own, alloc, TRADED);
    own
}

/// Both syncs, one after the other; answers the buffer that the second one gave back.
fn cross_and_trade(rt: &impl Abort, own: OwnSide, alloc: Global) -> (OwnSide, Buf) {
    let mut back = room(rt, alloc, 8);
    let own = cross(rt, own, alloc, &mut back);
    assert!(rt; back.is_empty());
    let own = trade(rt, own, alloc, &mut back);
    let two = take_last(rt, &mut back, 2);
    assert!(rt; back.is_empty());
    back.destroy_empty();
    (own, two)
}

/// Lends the buffers of two frames that a put offers, 8 and 3, which come back.
fn lend_and_undo(rt: &impl Abort, own: OwnSide, alloc: Global) -> OwnSide {
    let mut pending = room(rt, alloc, 2);
    let (lent, lengths) = lend_frames(rt, own, alloc, &mut pending);
    assert!(rt; lengths.as_slice() == [14, 7].as_slice());
    assert!(rt; have_indices(&pending, &[8, 3]));
    let own = lent.undo(&mut pending);
    pending.destroy_empty();
    own
}

/// The first frame that is offered is taken, for which a buffer came; answers the one that went.
fn take_one(rt: &impl Abort, own: OwnSide, alloc: Global, buf: Buf) -> (OwnSide, Buf) {
    assert!(rt; own.is_new(buf.index()));
    let mut came = room(rt, alloc, 1);
    came.push_reserved(buf);
    let mut rest = room(rt, alloc, 2);
    let (lent, _) = lend_frames(rt, own, alloc, &mut rest);
    assert!(rt; rest.len() > 0);
    let went = rest.remove(0);
    let own = lent.taken(&mut rest, came);
    rest.destroy_empty();
    (own, went)
}

/// Whether a buffer is that of an index, and begins with a frame.
fn is_frame(buf: &Buf, idx: u32, frame: &[u8]) -> bool {
    buf.index() == idx && buf.bytes().starts_with(frame)
}

/// What is seen once the first of two frames is taken.
const TAKEN: &[Look] = &[
    Look::Slot(Side::Tx, 3, 5, 0, 0),
    Look::Users(Side::Tx, 0, false),
    Look::Named(2, false),
    Look::Named(3, false),
    Look::Named(5, true),
];

/// Two frames are offered, and one of them is taken, whose buffer goes. The slot of one that was taken
/// keeps its length, and names a cleared buffer once it is the user's.
fn offer(rt: &impl Abort, mut own: OwnSide, alloc: Global, buf: Buf) -> (OwnSide, Buf) {
    play(rt, &mut own, alloc, &[Step::Put(WHOLE), Step::Put(SHORT)]);
    let mut own = lend_and_undo(rt, own, alloc);
    see(rt, &mut own, alloc, &[Look::Offered(&[WHOLE, SHORT])]);
    let (mut own, went) = take_one(rt, own, alloc, buf);
    assert!(rt; is_frame(&went, 8, WHOLE));
    see(rt, &mut own, alloc, TAKEN);
    (own, went)
}

/// What is seen once the other one is taken.
const TAKEN_TOO: &[Look] = &[
    Look::Slot(Side::Tx, 0, 2, 14, 0),
    Look::Users(Side::Tx, 1, false),
    Look::Starts(2, &[0; 14]),
];

/// The other one is offered again, and taken; answers its buffer.
fn offer_rest(rt: &impl Abort, mut own: OwnSide, alloc: Global, buf: Buf) -> (OwnSide, Buf) {
    see(rt, &mut own, alloc, &[Look::Offered(&[SHORT])]);
    let (mut own, other) = take_one(rt, own, alloc, buf);
    assert!(rt; is_frame(&other, 3, SHORT));
    see(rt, &mut own, alloc, TAKEN_TOO);
    (own, other)
}

/// Closes the port and the own side: the buffers come in the order of the places.
fn close(rt: &impl Abort, own: OwnSide) -> Vec<Buf> {
    assert!(rt; own.buffer_count(PORT) == 6);
    let (back, _chain) = close_port(rt, own);
    assert!(rt; have_indices(&back, &[2, 8, 4, 5, 6, 7]));
    back
}

/// Opens a port of four slots in each ring.
fn open(rt: &impl Abort, own: &mut OwnSide, alloc: Global, name: Name, tx: Vec<Buf>)
    requires own { own.old.own ≡ empty_own 64 }
    requires tx { indices_of tx.items ≡ 2 ∷ 3 ∷ 4 ∷ 5 ∷ [] }
{
    assert_eq!(rt; tx.len(), 4);
    match own.prepare(alloc, name, 4, 4, 0) {
        Ok(new) => own.add(new, PORT, tx, Vec::new(alloc)),
        Err(_fault) => panic!(rt; "out of memory"),
    }
}

/// A port of four slots in each ring is opened, with so many more buffers of the region. No receive
/// slot is the user's then.
fn opened(rt: &impl Abort, alloc: Global, more: u32) -> (Region, Vec<Buf>, OwnSide)
    requires { IsPoolSize (4 + more) }
{
    let (region, all, tx, mut own) = start(rt, alloc, more);
    open(rt, &mut own, alloc, port_name(rt), tx);
    see(rt, &mut own, alloc, &[Look::Users(Side::Rx, 0, false)]);
    (region, all, own)
}

/// The first part of a frame does not go on.
const FIRST_PART: &[Step] = &[
    Step::Forward,
    Step::Sees(Look::Slot(Side::Rx, 0, 6, 14, 288)),
    Step::Sees(Look::Slot(Side::Tx, 0, 2, 0, 0)),
];

/// With the second one it does.
const BOTH_PARTS: &[Step] = &[
    Step::Forward,
    Step::Sees(Look::Slot(Side::Rx, 0, 2, 14, 289)),
    Step::Sees(Look::Slot(Side::Rx, 1, 3, 7, 1)),
    Step::Sees(Look::Slot(Side::Tx, 0, 6, 14, 33)),
    Step::Sees(Look::Slot(Side::Tx, 1, 7, 7, 1)),
    Step::Sees(Look::Pushed(&[
        255, 255, 255, 255, 255, 255, 2, 0, 0, 0, 0, 10, 136, 181, 255, 255, 255, 255, 255, 255, 2,
    ])),
];

/// A frame of two parts comes, and goes on to the transmit ring in as many slots, which say so.
fn forward_long(rt: &impl Abort, own: &mut OwnSide, alloc: Global, all: &mut Vec<Buf>) {
    receive(rt, own, take_first(rt, all, 6), 14, 1);
    play(rt, own, alloc, FIRST_PART);
    receive(rt, own, take_first(rt, all, 7), 7, 0);
    play(rt, own, alloc, BOTH_PARTS);
}

/// The buffers are not given back to the region: the test ends by the panic that it expects.
#[test]
#[should_panic(expected = "the buffers stay out of the region")]
fn frames_go_on(rt: HostRuntime) {
    let alloc = rt.alloc();
    let (_region, mut all, mut own) = opened(&rt, alloc, 2);
    forward_long(&rt, &mut own, alloc, &mut all);
    let _ended = close_port(&rt, own);
    panic!(rt; "the buffers stay out of the region");
}

/// The buffers are not given back to the region: the test ends by the panic that it expects.
#[test]
#[should_panic(expected = "the buffers stay out of the region")]
fn frames_come_and_go(rt: HostRuntime) {
    let alloc = rt.alloc();
    let (_region, mut all, mut own) = opened(&rt, alloc, 3);
    fill(&rt, &mut own, alloc, &mut all);
    let (own, two) = cross_and_trade(&rt, own, alloc);
    let (own, went) = offer(&rt, own, alloc, two);
    let (own, _other) = offer_rest(&rt, own, alloc, went);
    let _back = close(&rt, own);
    panic!(rt; "the buffers stay out of the region");
}
