ghost use Rattle.std.specs.Prelude.{◌≡◌, ◌≤◌, [], All, length, IfOk, IfErr, vec_capacity};
ghost use Rattle.nm_region.specs.Buffers.{AreAllOf, opened_buffers, names_of};
ghost use Rattle.vale_line.specs.Gots.{buffers_of};
ghost use Rattle.vale_line.specs.Leased.{buffer_count};
ghost use Rattle.bench.specs.Rounds.{IsOne, IsAtRest};

use nm_region::{Buf, Region};
use nm_types::{LeaseId, NoMemory, PortId};
use std::alloc::Global;
use std::io::{self, Print};
use std::time::{Clock, Duration, Instant};
use vale_line::{Got, Lease, LeaseRoom, Line, Sizes};
use vale_serve::unwrap_all;

/// The buffers of the ring.
const RING: u32 = 1024;

/// The frames of a round.
const FRAMES: usize = 64;

const FRAME: [u8; 60] = [0x5a; 60];

const FEW: u32 = 4;

const MANY: u32 = 100_000;

/// Memory for a round.
struct Rooms {
    lease: LeaseRoom,
    gots: Vec<Got>,
    bufs: Vec<Buf>,
}

fn make_rooms(alloc: Global) -> Result<Rooms, NoMemory>
    ensures lease { IfOk result (λ rooms. rooms.lease ≡ 64) }
    ensures gots { IfOk result (λ rooms. rooms.gots.items ≡ []) }
    ensures gots_room { IfOk result (λ rooms. 64 ≤ vec_capacity rooms.gots) }
    ensures bufs { IfOk result (λ rooms. rooms.bufs.items ≡ []) }
    ensures bufs_room { IfOk result (λ rooms. 64 ≤ vec_capacity rooms.bufs) }
{
    let lease = LeaseRoom::new(alloc, FRAMES as u32)?;
    let gots = Vec::with_capacity(alloc, FRAMES)?;
    match Vec::with_capacity(alloc, FRAMES) {
        Ok(bufs) => Ok(Rooms { lease, gots, bufs }),
        Err(_) => {
            gots.destroy_empty();
            Err(NoMemory)
        }
    }
}

/// Fills a lease for frames of one slot.
fn fill_all(lease: &mut Lease)
    requires none { lease.old.filled ≡ [] }
    requires ones { All IsOne lease.old.sizes }
    requires room { length lease.old.sizes ≡ length lease.old.empty }
    ensures id { lease.new.id ≡ lease.old.id }
    ensures full { lease.new.sizes ≡ [] }
    ensures count { buffer_count lease.new ≡ length lease.old.empty }
    ensures names { names_of (buffers_of lease.new.filled) ≡ names_of lease.old.empty }
{
    while lease.filled() < lease.count() {
        lease.fill(&FRAME);
    }
}

/// Grants, fills, completes and syncs frames of one slot. The buffers of the last round come back
/// with the sync. Returns how many frames there were, and their buffers.
fn play_round(
    region: &Region,
    line: &mut Line,
    back: Vec<Buf>,
    rooms: Rooms,
    id: LeaseId,
) -> (usize, Vec<Buf>)
    requires rest { IsAtRest region.now line.old back.items }
    requires lease { rooms.lease ≡ 64 }
    requires gots { rooms.gots.items ≡ [] }
    requires gots_room { 64 ≤ vec_capacity rooms.gots }
    requires bufs { rooms.bufs.items ≡ [] }
    requires bufs_room { 64 ≤ vec_capacity rooms.bufs }
    ensures rest { IsAtRest region.now line.new result.1.items }
    ensures few { result.0 ≤ 64 }
{
    let Rooms {
        lease,
        gots,
        mut bufs,
    } = rooms;
    let want = Sizes::ones(FRAMES as u32);
    let Some(mut lease) = line.grant(id, PortId(0), lease, &want) else {
        gots.destroy_empty();
        bufs.destroy_empty();
        return (0, back);
    };
    fill_all(&mut lease);
    line.done(lease);
    let got = line.sync(back, gots);
    let count = got.len();
    unwrap_all(got, &mut bufs);
    (count, bufs)
}

/// Plays some rounds. Returns how many frames there were, and the buffers of the last round.
fn play_rounds(region: &Region, alloc: Global, line: &mut Line, rounds: u32) -> (usize, Vec<Buf>)
    requires { IsAtRest region.now line.old [] }
    ensures { IsAtRest region.now line.new result.1.items }
{
    let mut frames = 0;
    let mut back = Vec::new(alloc);
    for round in 0..rounds {
        let Ok(rooms) = make_rooms(alloc) else {
            return (frames, back);
        };
        let (count, given) = play_round(region, line, back, rooms, LeaseId(round));
        frames += count;
        back = given;
    }
    (frames, back)
}

fn open_line(region: &Region, all: Vec<Buf>, alloc: Global) -> Result<Line, (NoMemory, Vec<Buf>)>
    requires size { region.now.buffers ≡ 1024 }
    requires all { all.items ≡ opened_buffers region.now }
    ensures ok { IfOk result (λ line. IsAtRest region.now line []) }
    ensures err { IfErr result (λ fault. AreAllOf region.now fault.1.items) }
{
    Line::new(alloc, all)
}

/// Gives all buffers back.
fn close_line(region: &Region, alloc: Global, mut line: Line, back: Vec<Buf>) -> Vec<Buf>
    requires { IsAtRest region.now line back.items }
    ensures { AreAllOf region.now result.items }
{
    line.sync(back, Vec::new(alloc)).destroy_empty();
    let (all, _) = line.clear();
    all
}

fn since<R: Clock>(rt: &R, start: io::Result<Instant>) -> io::Result<Duration> {
    start?.elapsed(rt)
}

/// Plays some rounds with a line of all buffers of a region. Returns how many frames there were, how
/// long it took, and the buffers.
fn time_rounds<R: Clock>(
    rt: &R,
    region: &Region,
    alloc: Global,
    mut line: Line,
    rounds: u32,
) -> (usize, io::Result<Duration>, Vec<Buf>)
    requires { IsAtRest region.now line [] }
    ensures { AreAllOf region.now result.2.items }
{
    let start = Instant::now(rt);
    let (frames, back) = play_rounds(region, alloc, &mut line, rounds);
    let time = since(rt, start);
    (frames, time, close_line(region, alloc, line, back))
}

fn play<R: Clock>(rt: &R, alloc: Global, rounds: u32) -> io::Result<(usize, Duration)> {
    let Ok((region, all)) = Region::new(alloc, RING) else {
        return Err(io::ErrorKind::OutOfMemory.into());
    };
    match open_line(&region, all, alloc) {
        Ok(line) => {
            let (frames, time, all) = time_rounds(rt, &region, alloc, line, rounds);
            region.close(all);
            Ok((frames, time?))
        }
        Err((_, all)) => {
            region.close(all);
            Err(io::ErrorKind::OutOfMemory.into())
        }
    }
}

/// Grants, fills, completes and syncs frames of 60 bytes, 64 at a time, in a ring of 1,024 buffers,
/// and prints how many there were, or, if `is_timed`, how many nanoseconds each of 6.4 million took
/// with the memory for its lease.
pub fn run<R: Print + Clock>(rt: &R, alloc: Global, is_timed: bool) -> io::Result<()> {
    let (frames, time) = play(rt, alloc, if is_timed { MANY } else { FEW })?;
    if is_timed && frames > 0 {
        let nanos = time.as_nanos() / frames as u128;
        println!(rt; "line: {frames} frames granted, filled, completed and synced, {nanos} ns each")
    } else {
        println!(rt; "line: {frames} frames granted, filled, completed and synced")
    }
}
