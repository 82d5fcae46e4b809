//! The cells of a receive ring, and the rights to them.
ghost use Rattle.std.specs.Prelude.{◌≡◌, ◌+◌, ◌-◌, ◌≤◌, ◌<◌, ◌==◌, ◌^◌, [], ◌∷◌, ◌++◌, All, Some, length, take, drop, map, true, false, is_some, vec_len, vec_capacity, sum_by, slice_get, IfOk, IfErr, IfSome, IfNone, IsTrue};
ghost use Rattle.std.specs.VecDeque.{deque_capacity};
ghost use Rattle.nm_types.specs.Limits.{most_ring};
ghost use Rattle.nm_reach.specs.Fields.{Meet, end_of};
ghost use Rattle.vale_lease.specs.Leases.{AreLeases};
ghost use Rattle.vale_line.specs.Cells.{AreFull, AreEmpty, gots_in, with_buffer};
ghost use Rattle.vale_line.specs.Gots.{blank, buffers_of, last_count};
ghost use Rattle.vale_line.specs.Lines.{is_out_at, leases_of, slots_out, completed, done_lots, first_gots, gots_of_first, ready_gots, ready_sizes, out_of, new_line, with_lease, put_lot};
ghost use Rattle.vale_line.specs.Rings.{held, ring_state, IsAt, IsRing, IsRingWith};

use crate::got::Got;
use crate::lot::{Lot, count_ready, push_ready};
use crate::moves::{Cell, discard, joined, put_run_bufs, take_run, take_run_bufs};
use nm_reach::{Field, Reach};
use nm_region::Buf;
use nm_types::{LeaseId, NoMemory};
use std::alloc::Global;
use std::collections::VecDeque;
use std::mem::replace;

/// The cells of a ring. In ring order they are those that were given and whose buffers have not come
/// back, those of the lots, and those of idle buffers. It cannot be dropped.
pub(crate) struct Ring {
    field: Field<Cell>,
    given: Reach<Cell>,
    lots: VecDeque<Lot>,
    idle: Reach<Cell>,
    /// How many of the first idle cells have lent their buffers.
    lent: u32,
}

/// The place of the lot whose lease of this id is out, found from the back, where the newest lots
/// are.
fn place_of(lots: &VecDeque<Lot>, id: LeaseId) -> Option<usize>
    ensures within { IfSome result (λ at. at < length lots.now.items) }
    ensures found { IfSome result (λ at.
        IfSome (slice_get lots.now.items at) (λ lot. IsTrue (is_out_at id.0 (held lot)))) }
    ensures none { IfNone result
        (All (λ lot. is_out_at id.0 (held lot) ≡ false) lots.now.items) }
{
    lots.iter().rposition(|lot| lot.is_out_at(id))
}

/// Takes the first lot. The next one then stands where the only one stood, so that a queue which is
/// emptied again and again touches no more memory than it had lots at once.
fn pop_first(lots: &mut VecDeque<Lot>) -> Option<Lot>
    requires { 1 ≤ length lots.old.items }
    ensures first { IfSome result (λ lot. slice_get lots.old.items 0 ≡ Some lot) }
    ensures some { is_some result ≡ true }
    ensures rest { lots.new.items ≡ drop 1 lots.old.items }
    ensures capacity { deque_capacity lots.new ≡ deque_capacity lots.old }
{
    if lots.len() == 1 {
        lots.pop_back()
    } else {
        lots.pop_front()
    }
}

/// A full cell for each buffer. They are taken out of their vector.
fn full_cells(alloc: Global, bufs: &mut Vec<Buf>) -> Result<Vec<Cell>, NoMemory>
    ensures cells { IfOk result (λ cells. cells.items ≡ map with_buffer bufs.old.items) }
    ensures none { IfOk result (λ _. bufs.new.items ≡ []) }
    ensures kept { IfErr result (λ _. bufs.new.items ≡ bufs.old.items) }
    ensures capacity { vec_capacity bufs.new ≡ vec_capacity bufs.old }
{
    let mut cells = Vec::with_capacity(alloc, bufs.len())?;
    bufs.reverse();
    while let Some(buf) = bufs.pop() {
        cells.push_reserved(Cell::full(Got::blank(buf)));
    }
    Ok(cells)
}

/// Ends empty cells.
fn end_cells(mut cells: Vec<Cell>)
    requires { AreEmpty cells.items }
{
    while let Some(cell) = cells.pop() {
        cell.end();
    }
    cells.destroy_empty();
}

/// The cells of idle buffers, and behind them those whose buffers are with the user.
struct Shift {
    idle: Reach<Cell>,
    given: Reach<Cell>,
}

impl Shift {
    /// Moves the idle buffers so that there are `k` empty cells in front of them.
    fn moved(self, lent: u32, k: u32, room: &mut Vec<Buf>) -> Shift
        requires meet { Meet self.idle self.given }
        requires small { self.idle.size < 2 ^ 32 }
        requires within { (self.idle.start < self.idle.size) × (lent ≤ length self.idle.values) }
        requires few { k ≤ lent + length self.given.values }
        requires lent { AreEmpty (take lent self.idle.values) }
        requires full { AreFull (drop lent self.idle.values) }
        requires given { AreEmpty self.given.values }
        requires none { room.old.items ≡ [] }
        requires room { length self.idle.values ≤ vec_capacity room.old }
        ensures idle { IsAt self.idle.field self.idle.size self.idle.start result.idle }
        ensures idle_count { length result.idle.values ≡ k + (length self.idle.values - lent) }
        ensures lent { AreEmpty (take k result.idle.values) }
        ensures full { AreFull (drop k result.idle.values) }
        ensures gots { gots_in result.idle.values
            ≡ map blank (buffers_of (gots_in self.idle.values)) }
        ensures given { IsAt self.idle.field self.idle.size (end_of result.idle) result.given }
        ensures given_count { length result.given.values + length result.idle.values
            ≡ length self.given.values + length self.idle.values }
        ensures given_empty { AreEmpty result.given.values }
        ensures none { room.new.items ≡ [] }
        ensures capacity { vec_capacity room.new ≡ vec_capacity room.old }
    {
        let Shift {
            idle: mut full,
            given,
        } = self;
        let mut all = full.split_front(lent);
        let count = full.len();
        take_run_bufs(&mut full, room);
        all.join(full);
        all.join(given);
        let mut idle = all.split_front(k);
        let mut full = all.split_front(count);
        put_run_bufs(&mut full, room);
        idle.join(full);
        Shift { idle, given: all }
    }
}

impl Ring {
    /// A ring of these buffers, which are idle. They are taken out of their vector.
    pub(crate) fn new(alloc: Global, bufs: &mut Vec<Buf>) -> Result<Ring, NoMemory>
        requires size { (1 ≤ length bufs.old.items) × (length bufs.old.items ≤ most_ring) }
        ensures ring { IfOk result (λ ring. IsRing ring) }
        ensures line { IfOk result (λ ring. ring_state ring ≡ new_line bufs.old.items) }
        ensures none { IfOk result (λ _. bufs.new.items ≡ []) }
        ensures kept { IfErr result (λ _. bufs.new.items ≡ bufs.old.items) }
        ensures capacity { vec_capacity bufs.new ≡ vec_capacity bufs.old }
    {
        let lots = VecDeque::with_capacity(alloc, bufs.len())?;
        match full_cells(alloc, bufs) {
            Ok(cells) => Ok(Ring::filled(cells, lots)),
            Err(fault) => {
                lots.destroy_empty();
                Err(fault)
            }
        }
    }

    /// The ring of these cells, each with an idle buffer.
    fn filled(cells: Vec<Cell>, lots: VecDeque<Lot>) -> Ring
        requires size { (1 ≤ length cells.items) × (length cells.items ≤ most_ring) }
        requires full { AreFull cells.items }
        requires blank { gots_in cells.items ≡ map blank (buffers_of (gots_in cells.items)) }
        requires lots { lots.items ≡ [] }
        requires room { length cells.items ≤ deque_capacity lots }
        ensures ring { IsRing result }
        ensures line { ring_state result ≡ new_line (buffers_of (gots_in cells.items)) }
    {
        let (field, mut idle) = match Field::new(cells) {
            Ok(made) => made,
            Err(_kept) => unreachable!(),
        };
        let given = idle.split_front(0);
        Ring {
            field,
            given,
            lots,
            idle,
            lent: 0,
        }
    }

    /// The number of idle buffers.
    pub(crate) fn idle_len(&self) -> u32
        requires { IsRing self.now }
        ensures { result ≡ length (ring_state self.now).idle }
    {
        self.idle.len() - self.lent
    }

    /// Has `k` empty cells in front of the idle buffers.
    fn shift(&mut self, k: u32, room: &mut Vec<Buf>)
        requires ring { IsRingWith self.old room.old }
        requires few { k ≤ out_of (ring_state self.old) }
        ensures ring { IsRing self.new }
        ensures line { ring_state self.new ≡ ring_state self.old }
        ensures lent { self.new.lent ≡ k }
        ensures none { room.new.items ≡ [] }
        ensures capacity { vec_capacity room.new ≡ vec_capacity room.old }
    {
        let (given, idle) = (self.given.len(), self.idle.len());
        let shift = Shift {
            idle: self.idle.split_front(idle),
            given: self.given.split_front(given),
        };
        let Shift { idle, given } = shift.moved(self.lent, k, room);
        replace(&mut self.idle, idle).end();
        replace(&mut self.given, given).end();
        self.lent = k;
    }

    /// Has no empty cells in front of the idle buffers.
    pub(crate) fn settle(&mut self, room: &mut Vec<Buf>)
        requires ring { IsRingWith self.old room.old }
        ensures ring { IsRing self.new }
        ensures line { ring_state self.new ≡ ring_state self.old }
        ensures lent { self.new.lent ≡ 0 }
        ensures none { room.new.items ≡ [] }
        ensures capacity { vec_capacity room.new ≡ vec_capacity room.old }
    {
        if self.lent > 0 {
            self.shift(0, room);
        }
    }

    /// Opens a lot of the first `count` idle buffers, which no empty cell precedes. They are put into
    /// an empty vector that has room for them.
    pub(crate) fn lease(&mut self, id: LeaseId, count: u32, gots: Vec<Got>) -> Vec<Got>
        requires ring { IsRing self.old }
        requires lent { self.old.lent ≡ 0 }
        requires lots { length self.old.lots.items < self.old.field.size }
        requires enough { count ≤ length (ring_state self.old).idle }
        requires gots { gots.items ≡ [] }
        requires gots_room { count ≤ vec_capacity gots }
        ensures ring { IsRing self.new }
        ensures line { ring_state self.new ≡ with_lease id count (ring_state self.old) }
        ensures gots { result.items ≡ map blank (take count (ring_state self.old).idle) }
    {
        let mut reach = self.idle.split_front(count);
        let gots = take_run(&mut reach, gots);
        self.lots.push_back_reserved(Lot::new(id, reach));
        gots
    }

    /// Completes the lot of a lease that is out with the lease's buffers.
    pub(crate) fn complete(&mut self, id: LeaseId, gots: Vec<Got>)
        requires ring { IsRing self.old }
        requires leases { AreLeases (leases_of (ring_state self.old).lots) }
        requires out { slots_out id.0 (ring_state self.old).lots ≡ Some (length gots.items) }
        ensures ring { IsRing self.new }
        ensures line { ring_state self.new ≡ record (ring_state self.old) {
          lots = map (completed id.0 gots.items) (ring_state self.old).lots;
        } }
    {
        match place_of(&self.lots, id) {
            Some(at) => self.lots[at].complete(gots),
            None => unreachable!(),
        }
    }

    /// Has `count` cells whose buffers are with the user.
    fn make_room(&mut self, count: u32, room: &mut Vec<Buf>)
        requires ring { IsRingWith self.old room.old }
        requires few { count ≤ out_of (ring_state self.old) }
        ensures ring { IsRing self.new }
        ensures line { ring_state self.new ≡ ring_state self.old }
        ensures given { count ≤ length self.new.given.values }
        ensures none { room.new.items ≡ [] }
        ensures capacity { vec_capacity room.new ≡ vec_capacity room.old }
    {
        if count > self.given.len() {
            self.shift(0, room);
        }
    }

    /// Takes buffers back, which are then the last idle ones.
    pub(crate) fn take_back(&mut self, back: Vec<Buf>, room: &mut Vec<Buf>)
        requires ring { IsRingWith self.old room.old }
        requires few { length back.items ≤ out_of (ring_state self.old) }
        ensures ring { IsRing self.new }
        ensures line { ring_state self.new ≡ record (ring_state self.old) {
          idle = (ring_state self.old).idle ++ back.items;
        } }
        ensures none { room.new.items ≡ [] }
        ensures capacity { vec_capacity room.new ≡ vec_capacity room.old }
    {
        self.make_room(back.len() as u32, room);
        self.take_back_front(back);
    }

    /// Takes buffers back into the first cells whose buffers are with the user.
    fn take_back_front(&mut self, mut back: Vec<Buf>)
        requires ring { IsRing self.old }
        requires few { length back.items ≤ length self.old.given.values }
        ensures ring { IsRing self.new }
        ensures line { ring_state self.new ≡ record (ring_state self.old) {
          idle = (ring_state self.old).idle ++ back.items;
        } }
    {
        let mut reach = self.given.split_front(back.len() as u32);
        put_run_bufs(&mut reach, &mut back);
        back.destroy_empty();
        self.idle.join(reach);
    }

    /// Whether the first lot is done.
    pub(crate) fn is_first_done(&self) -> bool
        ensures { result ≡ is_some (first_gots (ring_state self.now).lots) }
    {
        match self.lots.front() {
            Some(lot) => lot.is_done(),
            None => false,
        }
    }

    /// Whether the first lot is done and the second is not.
    pub(crate) fn is_one_done(&self) -> bool
        ensures { result ≡ (length (done_lots (ring_state self.now).lots) == 1) }
    {
        match self.lots.get(1) {
            Some(lot) => self.is_first_done() && !lot.is_done(),
            None => self.is_first_done(),
        }
    }

    /// The number of frames that the longest prefix of done lots has.
    pub(crate) fn ready_frames(&self) -> u32
        requires { length (ready_gots (ring_state self.now).lots) < 2 ^ 32 }
        ensures { result ≡ sum_by last_count (ready_gots (ring_state self.now).lots) }
    {
        count_ready(&self.lots)
    }

    /// Adds the slots of each of these frames.
    pub(crate) fn push_ready(&self, sizes: &mut Vec<u32>)
        requires room { vec_len sizes.old + length (ready_sizes (ring_state self.now).lots)
            ≤ vec_capacity sizes.old }
        ensures sizes { sizes.new.items
            ≡ sizes.old.items ++ ready_sizes (ring_state self.now).lots }
        ensures capacity { vec_capacity sizes.new ≡ vec_capacity sizes.old }
    {
        push_ready(&self.lots, sizes);
    }

    /// Takes the first lot out of the lots.
    fn take_first(&mut self) -> Lot
        requires { 1 ≤ length self.old.lots.items }
        ensures first { IfSome (slice_get self.old.lots.items 0) (λ lot. result ≡ lot) }
        ensures rest { self.new.lots.items ≡ drop 1 self.old.lots.items }
        ensures capacity { deque_capacity self.new.lots ≡ deque_capacity self.old.lots }
        ensures others { (self.new.field ≡ self.old.field)
            × (self.new.given ≡ self.old.given)
            × (self.new.idle ≡ self.old.idle)
            × (self.new.lent ≡ self.old.lent) }
    {
        match pop_first(&mut self.lots) {
            Some(lot) => lot,
            None => unreachable!(),
        }
    }

    /// Gives the cells of the first lot, which is done. Returns its buffers.
    fn give_first(&mut self) -> Vec<Got>
        requires ring { IsRing self.old }
        requires done { IsTrue (is_some (first_gots (ring_state self.old).lots)) }
        ensures ring { IsRing self.new }
        ensures line { ring_state self.new ≡ record (ring_state self.old) {
          lots = drop 1 (ring_state self.old).lots;
        } }
        ensures gots { result.items ≡ gots_of_first (ring_state self.old).lots }
    {
        let (reach, gots) = self.take_first().into_parts();
        self.given.join(reach);
        gots
    }

    /// Gives the buffers of the first lot, which is done, behind others.
    pub(crate) fn publish_first(&mut self, gots: Vec<Got>) -> Vec<Got>
        requires ring { IsRing self.old }
        requires done { IsTrue (is_some (first_gots (ring_state self.old).lots)) }
        requires room { 0 < vec_len gots → vec_len gots
            + length (gots_of_first (ring_state self.old).lots) ≤ vec_capacity gots }
        ensures ring { IsRing self.new }
        ensures line { ring_state self.new ≡ record (ring_state self.old) {
          lots = drop 1 (ring_state self.old).lots;
        } }
        ensures gots { result.items ≡ gots.items ++ gots_of_first (ring_state self.old).lots }
        ensures capacity { vec_capacity gots ≤ vec_capacity result }
    {
        joined(gots, self.give_first())
    }

    /// Gives the buffers of the first lot, which is done, without their frames. Returns the number
    /// of frames in them.
    pub(crate) fn discard_first(&mut self, bufs: &mut Vec<Buf>) -> u32
        requires ring { IsRing self.old }
        requires done { IsTrue (is_some (first_gots (ring_state self.old).lots)) }
        requires few { length (gots_of_first (ring_state self.old).lots) < 2 ^ 32 }
        requires room { vec_len bufs.old + length (gots_of_first (ring_state self.old).lots)
            ≤ vec_capacity bufs.old }
        ensures ring { IsRing self.new }
        ensures line { ring_state self.new ≡ record (ring_state self.old) {
          lots = drop 1 (ring_state self.old).lots;
        } }
        ensures bufs { bufs.new.items
            ≡ bufs.old.items ++ buffers_of (gots_of_first (ring_state self.old).lots) }
        ensures count { result ≡ sum_by last_count (gots_of_first (ring_state self.old).lots) }
        ensures capacity { vec_capacity bufs.new ≡ vec_capacity bufs.old }
    {
        discard(self.give_first(), bufs)
    }

    /// Lends the first `k` idle buffers, which no empty cell precedes, in an empty vector that has
    /// room for them.
    pub(crate) fn lend(&mut self, k: u32, mut bufs: Vec<Buf>) -> Vec<Buf>
        requires ring { IsRing self.old }
        requires settled { self.old.lent ≡ 0 }
        requires enough { k ≤ length (ring_state self.old).idle }
        requires lent { bufs.items ≡ [] }
        requires lent_room { k ≤ vec_capacity bufs }
        ensures ring { IsRing self.new }
        ensures line { ring_state self.new ≡ record (ring_state self.old) {
          idle = drop k (ring_state self.old).idle;
        } }
        ensures lent { result.items ≡ take k (ring_state self.old).idle }
        ensures lent_capacity { vec_capacity result ≡ vec_capacity bufs }
    {
        let mut lent = self.idle.split_front(k);
        take_run_bufs(&mut lent, &mut bufs);
        let rest = replace(&mut self.idle, lent);
        self.idle.join(rest);
        self.lent = k;
        bufs
    }

    /// Gives all idle buffers in an empty vector that has room for them.
    pub(crate) fn give_idle(&mut self, mut room: Vec<Buf>) -> Vec<Buf>
        requires ring { IsRingWith self.old room }
        ensures ring { IsRing self.new }
        ensures line { ring_state self.new ≡ record (ring_state self.old) { idle = [] } }
        ensures idle { result.items ≡ (ring_state self.old).idle }
        ensures capacity { vec_capacity result ≡ vec_capacity room }
    {
        self.settle(&mut room);
        let count = self.idle_len();
        self.lend(count, room)
    }

    /// Has at least `count` empty cells in front of the idle buffers.
    fn lend_cells(&mut self, count: u32, room: &mut Vec<Buf>)
        requires ring { IsRingWith self.old room.old }
        requires few { count ≤ out_of (ring_state self.old) }
        ensures ring { IsRing self.new }
        ensures line { ring_state self.new ≡ ring_state self.old }
        ensures lent { count ≤ self.new.lent }
        ensures none { room.new.items ≡ [] }
        ensures capacity { vec_capacity room.new ≡ vec_capacity room.old }
    {
        if count > self.lent {
            self.shift(count, room);
        }
    }

    /// Takes buffers with frames as a done lot.
    pub(crate) fn accept(&mut self, id: LeaseId, gots: Vec<Got>, room: &mut Vec<Buf>)
        requires ring { IsRingWith self.old room.old }
        requires lots { length self.old.lots.items < self.old.field.size }
        requires few { length gots.items ≤ out_of (ring_state self.old) }
        ensures ring { IsRing self.new }
        ensures line { ring_state self.new ≡ record (ring_state self.old) {
          lots = (ring_state self.old).lots ++ put_lot id gots.items ∷ [];
        } }
        ensures none { room.new.items ≡ [] }
        ensures capacity { vec_capacity room.new ≡ vec_capacity room.old }
    {
        self.lend_cells(gots.len() as u32, room);
        self.accept_front(id, gots);
    }

    /// Takes buffers with frames into the first cells, which are empty, as a done lot.
    fn accept_front(&mut self, id: LeaseId, gots: Vec<Got>)
        requires ring { IsRing self.old }
        requires lots { length self.old.lots.items < self.old.field.size }
        requires few { length gots.items ≤ self.old.lent }
        ensures ring { IsRing self.new }
        ensures line { ring_state self.new ≡ record (ring_state self.old) {
          lots = (ring_state self.old).lots ++ put_lot id gots.items ∷ [];
        } }
    {
        let count = gots.len() as u32;
        let reach = self.idle.split_front(count);
        self.lots.push_back_reserved(Lot::done(id, reach, gots));
        self.lent -= count;
    }

    /// Ends a ring that has no buffers and no lots.
    pub(crate) fn end(self)
        requires ring { IsRing self }
        requires idle { (ring_state self).idle ≡ [] }
        requires lots { (ring_state self).lots ≡ [] }
    {
        let Ring {
            field,
            mut given,
            lots,
            idle,
            lent: _,
        } = self;
        lots.destroy_empty();
        given.join(idle);
        end_cells(field.close(given));
    }
}
