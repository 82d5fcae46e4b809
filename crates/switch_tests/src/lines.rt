ghost use Rattle.std.specs.Prelude.{◌≡◌, ◌≤◌, [], ◌∷◌, ◌++◌, All, length, map, sum, vec_capacity, false, Some};
ghost use Rattle.nm_types.specs.Limits.{most_ring};
ghost use Rattle.vale_lease.specs.Leases.{is_there};
ghost use Rattle.vale_line.specs.Fitting.{IsFrameSize};
ghost use Rattle.vale_line.specs.Gots.{buffers_of, FitsPart, IsSingle};
ghost use Rattle.vale_line.specs.Leased.{buffer_count};
ghost use Rattle.vale_line.specs.Lines.{slots_out, completed, new_line, leases_of, opened_lot};

use nm_region::{Buf, Region};
use nm_types::{LeaseId, PortId};
use std::alloc::Global;
use std::collections::VecDeque;
use std::process::Abort;
use vale_line::{Got, Lease, LeaseRoom, Line, Sizes};

/// A frame of three slots.
const LONG: [u8; 5000] = [7; 5000];

/// Completes a lease, after a look that it is full.
#[tactic(auto, using(vale_line::proofs::Filling::tests))]
fn complete(rt: &impl Abort, line: &mut Line, lease: Lease)
    requires { slots_out lease.id line.old.lots ≡ Some (buffer_count lease) }
    ensures { line.new.lots ≡ map (completed lease.id lease.filled) line.old.lots }
{
    assert!(rt; lease.filled() == lease.count());
    line.done(lease);
}

fn is_part(got: &Got, index: u32, len: u16, rest: u8) -> bool {
    got.buf.index() == index && got.len == len && got.rest == rest
}

/// A line of these buffers.
fn line_of(rt: &impl Abort, alloc: Global, bufs: Vec<Buf>) -> Line
    requires { (1 ≤ length bufs.items) × (length bufs.items ≤ most_ring) }
    ensures { result ≡ new_line bufs.items }
{
    match Line::new(alloc, bufs) {
        Ok(line) => line,
        Err(_) => panic!(rt; "no memory"),
    }
}

/// These sizes, as a grant takes them.
fn sizes_of(rt: &impl Abort, alloc: Global, sizes: &[u32]) -> Sizes
    ensures { result ≡ sizes.now }
{
    match sizes.to_vec(alloc) {
        Ok(sizes) => Sizes::own(sizes),
        Err(_) => panic!(rt; "no memory"),
    }
}

/// Grants what is wanted, to a lease that is not refused.
fn grant(rt: &impl Abort, alloc: Global, line: &mut Line, id: u32, want: &[u32]) -> Lease
    requires new { is_there id (leases_of line.old.lots) ≡ false }
    requires sizes { All IsFrameSize want.now }
    requires room { sum want.now ≤ 8 }
    ensures id { result.id ≡ id }
    ensures lot { line.new.lots
        ≡ line.old.lots ++ opened_lot (record { 0 = id }) (buffer_count result) ∷ [] }
{
    let Ok(room) = LeaseRoom::new(alloc, 8) else {
        panic!(rt; "no memory");
    };
    let want = sizes_of(rt, alloc, want);
    match line.grant(LeaseId(id), PortId(4), room, &want) {
        Some(lease) => lease,
        None => panic!(rt; "no frame fits"),
    }
}

/// Refuses to grant what does not fit.
fn refuse(rt: &impl Abort, alloc: Global, line: &mut Line, id: u32, want: &[u32])
    requires new { is_there id (leases_of line.old.lots) ≡ false }
    requires sizes { All IsFrameSize want.now }
    requires room { sum want.now ≤ 8 }
    ensures { line.new ≡ line.old }
{
    let Ok(room) = LeaseRoom::new(alloc, 8) else {
        panic!(rt; "no memory");
    };
    let want = sizes_of(rt, alloc, want);
    if let Some(_lease) = line.grant(LeaseId(id), PortId(4), room, &want) {
        panic!(rt; "what does not fit is granted");
    }
}

/// So many buffers can be leased, so many lots are not done, and so many buffers are ready.
fn count(rt: &impl Abort, line: &Line, space: u32, out: u32, ready: u32) {
    assert!(rt; line.space() == space, "{space}");
    assert!(rt; line.out() == out, "{out}");
    assert!(rt; line.ready() == ready, "{ready}");
}

/// Whether a lease has this number, goes to port 4 and is of so many frames and slots.
fn is_lease(lease: &Lease, id: u32, count: u32, slots: u32) -> bool {
    lease.id() == LeaseId(id)
        && lease.to() == PortId(4)
        && lease.count() == count
        && lease.slots() == slots
}

/// Whether the frames that are ready have so many slots each.
fn are_ready(rt: &impl Abort, alloc: Global, line: &Line, slots: &[u32]) -> bool {
    let Ok(mut sizes) = Vec::with_capacity(alloc, line.ready_frames() as usize) else {
        panic!(rt; "no memory");
    };
    line.ready_sizes(&mut sizes);
    sizes.as_slice() == slots
}

/// Reads what is ready.
fn read(rt: &impl Abort, alloc: Global, line: &mut Line) -> Vec<Got> {
    let Ok(room) = Vec::with_capacity(alloc, line.room_to_sync() as usize) else {
        panic!(rt; "no memory");
    };
    line.sync(Vec::new(alloc), room)
}

/// The index of a buffer, the length of the part in it, and how many parts follow.
type Part = (u32, u16, u8);

const PARTS: &[Part] = &[
    (2, 2048, 2),
    (3, 2048, 1),
    (4, 904, 0),
    (5, 14, 0),
    (6, 60, 0),
];

/// Whether the buffers have these parts.
fn are_parts(gots: &[Got], parts: &[Part]) -> bool {
    gots.len() == parts.len()
        && gots.iter().zip(parts).all(|(got, (index, len, rest))| is_part(got, *index, *len, *rest))
}

/// Of a part of 904 bytes only these are written.
fn ends_clear(rt: &impl Abort, gots: &[Got]) {
    assert!(rt; gots.len() == 5);
    let bytes = gots[2].buf.bytes();
    assert!(rt; bytes[903] == 7 && bytes[904] == 0);
}

/// The parts of three frames are read.
fn read_parts(rt: &impl Abort, alloc: Global, line: &mut Line) -> Vec<Got> {
    assert!(rt; are_ready(rt, alloc, line, &[3, 1, 1]));
    let gots = read(rt, alloc, line);
    assert!(rt; are_parts(&gots, PARTS));
    ends_clear(rt, &gots);
    gots
}

/// A ring of 8 buffers leases 4 and then 1. The second lease is completed first, and nothing is
/// given before the first one is done. The buffers stay out: the test ends by the panic that it
/// expects.
#[test]
#[should_panic(expected = "the buffers stay out")]
fn frames_in_lease_order(rt: HostRuntime) {
    let alloc = rt.alloc();
    let Ok((_region, bufs)) = Region::new(alloc, 8) else {
        panic!(rt; "no memory");
    };
    let mut line = line_of(&rt, alloc, bufs);
    let mut first = grant(&rt, alloc, &mut line, 7, &[3, 1]);
    let mut second = grant(&rt, alloc, &mut line, 9, &[1]);
    assert!(rt; is_lease(&first, 7, 2, 4));
    count(&rt, &line, 2, 2, 0);
    refuse(&rt, alloc, &mut line, 10, &[3, 1]);
    let last = grant(&rt, alloc, &mut line, 11, &[1, 1, 1]);
    assert!(rt; is_lease(&last, 11, 2, 2));
    assert!(rt; second.try_fill(&[9; 60]));
    complete(&rt, &mut line, second);
    count(&rt, &line, 0, 2, 0);
    assert!(rt; first.try_fill(&LONG));
    assert!(rt; first.try_fill(&[1; 14]));
    complete(&rt, &mut line, first);
    count(&rt, &line, 0, 1, 5);
    let _gots = read_parts(&rt, alloc, &mut line);
    panic!(rt; "the buffers stay out");
}

/// A frame of 14 bytes in each buffer.
fn frames_of(bufs: Vec<Buf>, mut gots: Vec<Got>) -> Vec<Got>
    requires none { gots.items ≡ [] }
    requires room { length bufs.items ≤ vec_capacity gots }
    ensures buffers { buffers_of result.items ≡ bufs.items }
    ensures single { All IsSingle result.items }
    ensures fits { All FitsPart result.items }
{
    let mut rest = VecDeque::from_vec(bufs);
    while let Some(buf) = rest.pop_front() {
        gots.push_reserved(Got {
            buf,
            len: 14,
            rest: 0,
        });
    }
    rest.into_vec().destroy_empty();
    gots
}

/// Two of four buffers are lent, come back as a lot of two frames, and are unread when the line
/// ends.
#[test]
fn put_and_clear(rt: HostRuntime) {
    let Ok((region, bufs)) = Region::new(rt.alloc(), 4) else {
        panic!(rt; "no memory");
    };
    let mut line = line_of(&rt, rt.alloc(), bufs);
    let Ok(room) = Vec::with_capacity(rt.alloc(), 2) else {
        panic!(rt; "no memory");
    };
    let Ok(gots) = Vec::with_capacity(rt.alloc(), 2) else {
        panic!(rt; "no memory");
    };
    let mut frames = frames_of(line.lend(2, room), gots);
    assert!(rt; frames.len() == 2 && line.space() == 1);
    line.accept(LeaseId(5), &mut frames);
    frames.destroy_empty();
    assert!(rt; line.ready() == 2 && line.out() == 0);
    let (bufs, unread) = line.clear();
    assert!(rt; unread == 2 && bufs.len() == 4);
    region.close(bufs);
}
