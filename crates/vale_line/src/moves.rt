//! Buffers that are moved into the cells of a run, and out of them.
ghost use Rattle.std.specs.Prelude.{◌≡◌, ◌+◌, ◌-◌, ◌<◌, ◌≤◌, ◌^◌, [], ◌++◌, length, take, drop, map, sum_by, vec_len, vec_capacity};
ghost use Rattle.vale_line.specs.Cells.{AreFull, AreEmpty, SameCells, emptied, with_buffer, gots_in};
ghost use Rattle.vale_line.specs.Gots.{blank, buffers_of, last_count};

use crate::got::Got;
use nm_reach::Reach;
use nm_region::Buf;

/// A cell of a ring: a buffer with its frame, or nothing.
pub(crate) type Cell = nm_reach::Cell<Got>;

/// Takes the buffers out of cells, to the end of others.
#[tactic(auto, using(crate::proofs::CellLemmas::cells))]
fn take_gots(cells: &mut [Cell], gots: Vec<Got>) -> Vec<Got>
    requires full { AreFull cells.old }
    requires room { vec_len gots + length cells.old ≤ vec_capacity gots }
    ensures cells { cells.new ≡ map emptied cells.old }
    ensures gots { result.items ≡ gots.items ++ gots_in cells.old }
    ensures capacity { vec_capacity result ≡ vec_capacity gots }
{
    let mut all = gots;
    for cell in cells.iter_mut() {
        all.push_reserved(cell.take());
    }
    all
}

/// Takes the buffers out of cells, without their frames, to the end of others. Returns how many
/// frames ended in them.
#[tactic(auto, using(crate::proofs::CellLemmas::cells))]
fn take_bufs(cells: &mut [Cell], bufs: &mut Vec<Buf>) -> u32
    requires full { AreFull cells.old }
    requires few { length cells.old < 2 ^ 32 }
    requires room { vec_len bufs.old + length cells.old ≤ vec_capacity bufs.old }
    ensures cells { cells.new ≡ map emptied cells.old }
    ensures bufs { bufs.new.items ≡ bufs.old.items ++ buffers_of (gots_in cells.old) }
    ensures count { result ≡ sum_by last_count (gots_in cells.old) }
    ensures capacity { vec_capacity bufs.new ≡ vec_capacity bufs.old }
{
    let mut count = 0;
    for cell in cells.iter_mut() {
        let got = cell.take();
        count += got.last_count();
        bufs.push_reserved(got.into_buf());
    }
    count
}

/// Moves the last buffers, which have no frames, into empty cells.
#[tactic(auto, using(crate::proofs::CellLemmas::cells))]
fn put_bufs(cells: &mut [Cell], bufs: &mut Vec<Buf>)
    requires empty { AreEmpty cells.old }
    requires enough { length cells.old ≤ length bufs.old.items }
    ensures cells { cells.new
        ≡ map with_buffer (drop (length bufs.old.items - length cells.old) bufs.old.items) }
    ensures rest { bufs.new.items ≡ take (length bufs.old.items - length cells.old) bufs.old.items }
    ensures capacity { vec_capacity bufs.new ≡ vec_capacity bufs.old }
{
    let mut at = cells.len();
    while at > 0 {
        at -= 1;
        cells[at].put(Got::blank(bufs.take_last()));
    }
}

/// Takes the buffers out of the cells of a run, to the end of others.
#[tactic(auto, using(crate::proofs::CellLemmas::runs))]
pub(crate) fn take_run(run: &mut Reach<Cell>, gots: Vec<Got>) -> Vec<Got>
    requires full { AreFull run.old.values }
    requires room { vec_len gots + length run.old.values ≤ vec_capacity gots }
    ensures cells { SameCells run.old run.new }
    ensures empty { AreEmpty run.new.values }
    ensures gots { result.items ≡ gots.items ++ gots_in run.old.values }
    ensures capacity { vec_capacity result ≡ vec_capacity gots }
{
    let front = take_gots(run.front_mut(), gots);
    take_gots(run.back_mut(), front)
}

/// Takes the buffers out of the cells of a run, without their frames, to the end of others. Returns
/// how many frames ended in them.
#[tactic(auto, using(crate::proofs::CellLemmas::runs))]
pub(crate) fn take_run_bufs(run: &mut Reach<Cell>, bufs: &mut Vec<Buf>) -> u32
    requires full { AreFull run.old.values }
    requires room { vec_len bufs.old + length run.old.values ≤ vec_capacity bufs.old }
    ensures cells { SameCells run.old run.new }
    ensures empty { AreEmpty run.new.values }
    ensures bufs { bufs.new.items ≡ bufs.old.items ++ buffers_of (gots_in run.old.values) }
    ensures count { result ≡ sum_by last_count (gots_in run.old.values) }
    ensures capacity { vec_capacity bufs.new ≡ vec_capacity bufs.old }
{
    let front = take_bufs(run.front_mut(), bufs);
    front + take_bufs(run.back_mut(), bufs)
}

/// Moves as many buffers as there are cells, which have no frames, into those of a run.
#[tactic(auto, using(crate::proofs::CellLemmas::runs))]
pub(crate) fn put_run_bufs(run: &mut Reach<Cell>, bufs: &mut Vec<Buf>)
    requires empty { AreEmpty run.old.values }
    requires count { length bufs.old.items ≡ length run.old.values }
    ensures cells { SameCells run.old run.new }
    ensures gots { gots_in run.new.values ≡ map blank bufs.old.items }
    ensures none { bufs.new.items ≡ [] }
    ensures capacity { vec_capacity bufs.new ≡ vec_capacity bufs.old }
{
    put_bufs(run.back_mut(), bufs);
    put_bufs(run.front_mut(), bufs);
}

/// The buffers of both vectors, those of the second behind those of the first. The second is handed
/// out as it is where the first is empty and not larger.
pub(crate) fn joined(mut gots: Vec<Got>, mut next: Vec<Got>) -> Vec<Got>
    requires room { 0 < vec_len gots → vec_len gots + vec_len next ≤ vec_capacity gots }
    ensures gots { result.items ≡ gots.items ++ next.items }
    ensures capacity { vec_capacity gots ≤ vec_capacity result }
{
    if gots.is_empty() && gots.capacity() <= next.capacity() {
        gots.destroy_empty();
        return next;
    }
    match gots.append(&mut next) {
        Ok(()) => next.destroy_empty(),
        Err(_) => unreachable!(),
    }
    gots
}

/// Moves buffers, without their frames, to the end of others. Returns how many frames ended in
/// them.
pub(crate) fn discard(mut gots: Vec<Got>, bufs: &mut Vec<Buf>) -> u32
    requires few { length gots.items < 2 ^ 32 }
    requires room { vec_len bufs.old + length gots.items ≤ vec_capacity bufs.old }
    ensures bufs { bufs.new.items ≡ bufs.old.items ++ buffers_of gots.items }
    ensures count { result ≡ sum_by last_count gots.items }
    ensures capacity { vec_capacity bufs.new ≡ vec_capacity bufs.old }
{
    let mut count = 0;
    gots.reverse();
    while let Some(got) = gots.pop() {
        count += got.last_count();
        bufs.push_reserved(got.into_buf());
    }
    gots.destroy_empty();
    count
}
