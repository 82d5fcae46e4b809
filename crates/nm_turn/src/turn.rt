//! The turn itself: the table with its one value, and the calls on it.
ghost use Rattle.std.specs.Prelude.{◌≡◌, ◌<◌, ◌^◌, [], ◌∷◌, length, true, false};
ghost use Rattle.std.specs.Prelude.{IfOk, IfErr, Some};

use crate::kept::Kept;
use crate::pass::Pass;
use crate::rule::{
    Add, Awaits, Commit, Halve, Law, Learn, PutValue, Release, TakeTurn, TakeValue, View,
};
use atomic_table::{Refused, Table};
use nm_types::NoMemory;
use std::alloc::Global;
use std::snapshot::Snapshot;
use std::sync::Wait;
use std::time::Duration;

/// The word that is 1 while a pass has the turn.
const TURN: usize = 0;

/// The word that counts the history.
const COUNT: usize = 1;

/// The word that counts the passes that wait for the turn.
const WAITING: usize = 2;

/// The place of the value.
const VALUE: usize = 0;

/// How often a thread looks at a turn that is taken before it sleeps: for about as long as one
/// pass or two have it.
const LOOKS: u32 = 4000;

/// A thread that waits is woken whenever the history has got this many entries more.
const ENTRIES_A_WAKE: u64 = 64;

/// How many microseconds a thread that waits sleeps at most before it looks at the turn again.
const LONGEST_SLEEP: u64 = 1000;

/// A lock over one value, which stands for one history of all callers. It must be closed, so that
/// the value is not lost.
pub struct Turn<B: Kept> {
    table: Table<Option<B>, View<B>, Snapshot<B>, Law<B>, Global>,
    ghost sized: { (table.shared.table_id.words ≡ 3) × (table.shared.table_id.slots ≡ 1) },
}

/// Returns the one value of a table that was not made.
fn only<T>(mut slots: Vec<Option<T>>) -> T
    requires { (value : T) × (slots.items ≡ Some value ∷ []) }
    ensures { slots.items ≡ Some result ∷ [] }
{
    let Some(Some(value)) = slots.pop() else {
        unreachable!()
    };
    slots.destroy_empty();
    value
}

impl<B: Kept> Turn<B> {
    ghost use Rattle.nm_turn.specs.declared.view.TurnStage.TheVariants.{Out};
    ghost use Rattle.nm_turn.specs.Shares.{IsWhole};
    ghost use Rattle.nm_turn.specs.Passes.{Knows, HasAll, Told, new_since, at_stage};
    ghost use Rattle.nm_turn.specs.Passes.{first_view, kept_view, forked_view, joined_view};
    ghost use Rattle.nm_turn.specs.Turns.{AddsOne, view_of, hand_of, entered, opened};
    ghost use Rattle.nm_turn.specs.Turns.{IsPassOf, IsOutside, HasEntered, HasTurn, HasWritten};

    /// Makes a turn over `value`, which stands for no entries yet. The pass has the whole. Gives
    /// the value back if out of memory.
    pub fn open(alloc: Global, value: B) -> Result<(Turn<B>, Pass<B>), (NoMemory, B)>
        requires { B.entries value ≡ [] }
        ensures ok { IfOk result (λ r. IsPassOf B.fixed r.0 r.1 × IsOutside r.1
            × (view_of r.1 ≡ first_view (B.fixed value)) × (opened r.0 ≡ value)) }
        ensures err { IfErr result (λ r. r.1 ≡ value) }
    {
        let about = Snapshot::of(&value);
        let Ok(mut slots) = Vec::with_capacity(alloc, 1) else {
            return Err((NoMemory, value));
        };
        slots.push_reserved(Some(value));
        match Table::new(alloc, &[0, 0, 0], slots, &about) {
            Ok((table, seat)) => Ok((Turn { table }, Pass { seat })),
            Err(Refused { slots }) => Err((NoMemory, only(slots))),
        }
    }

    /// Looks at the turn until it is free, but no more than `LOOKS` times.
    fn look(&self) {
        let shared = &self.table.shared;
        for _ in 0..LOOKS {
            if shared.peek(TURN) == 0 {
                return;
            }
        }
    }

    /// Waits until the turn is free, and takes it. A thread that finds it taken looks on for a short
    /// while, is counted then and sleeps; where others sleep already, it sleeps behind them at once.
    /// `rest` wakes it, but nothing rests on that: it looks again by itself after `LONGEST_SLEEP`.
    fn take<R: Wait>(&self, rt: &R, pass: &mut Pass<B>)
        requires pass { IsPassOf B.fixed self.now pass.old }
        requires outside { IsOutside pass.old }
        ensures { HasTurn pass.old pass.new }
    {
        let shared = &self.table.shared;
        let mut queues = shared.peek(WAITING) > 0;
        for _ in rt.forever() {
            if !queues {
                self.look();
            }
            if shared.compare_exchange::<TakeTurn>(&mut pass.seat, TURN, 0, 1) == 0 {
                return;
            }
            shared.fetch_add::<Awaits>(&mut pass.seat, WAITING, 1);
            shared.park_timeout(rt, TURN, 1, Duration::from_micros(LONGEST_SLEEP));
            shared.fetch_sub::<Awaits>(&mut pass.seat, WAITING, 1);
            queues = false;
        }
        unreachable!()
    }

    /// Waits until no other pass has the turn, takes it, and returns the value.
    pub fn enter<R: Wait>(&self, rt: &R, pass: &mut Pass<B>) -> B
        requires pass { IsPassOf B.fixed self.now pass.old }
        requires outside { IsOutside pass.old }
        ensures pass { IsPassOf B.fixed self.now pass.new }
        ensures entered { HasEntered pass.new
            × (view_of pass.new ≡ at_stage (Out (B.entries result)) (view_of pass.old)) }
        ensures fixed { B.fixed result ≡ B.fixed (opened self.now) }
        ensures knows { Knows B.root (B.entries result)
            (view_of pass.old).seen (view_of pass.old).mine }
        ensures whole { IsWhole (view_of pass.old).part
            → HasAll (B.entries result) (view_of pass.old).seen (view_of pass.old).mine }
    {
        self.take(rt, pass);
        let shared = &self.table.shared;
        shared.load::<TakeValue<B>>(&mut pass.seat, TURN);
        shared.exchange(&mut pass.seat, VALUE, None).unwrap()
    }

    /// Puts the value in its place, and counts its new entry if there is one.
    fn write(&self, pass: &mut Pass<B>, value: B, made: bool)
        requires pass { IsPassOf B.fixed self.now pass.old }
        requires entered { HasEntered pass.old }
        requires same { made ≡ false → B.entries value ≡ entered pass.old }
        requires one_more { made ≡ true
            → AddsOne B.root (entered pass.old) (view_of pass.old).mine (B.entries value) }
        requires few { length (B.entries value) < 2 ^ 32 }
        ensures { HasWritten B.entries B.root pass.old pass.new value }
    {
        let shared = &self.table.shared;
        let held = shared.exchange(&mut pass.seat, VALUE, Some(value));
        let None = held else { unreachable!() };
        if made {
            shared.fetch_add::<Commit<B>>(&mut pass.seat, COUNT, 1);
        }
    }

    /// Wakes the thread that has waited for the turn longest, if some do. A caller that makes no more
    /// entries for a while says so by this call; without it, those who wait may go on a millisecond
    /// later.
    pub fn rest(&self) {
        let shared = &self.table.shared;
        if shared.peek(WAITING) > 0 {
            shared.wake_one(TURN);
        }
    }

    /// Wakes a thread that waits, if the history came to a number of entries at which one is woken.
    ///
    /// Not every leave wakes a thread. Whoever leaves mostly comes again before a woken thread
    /// runs, which then finds the turn taken and sleeps again, and what the value touches has to go
    /// from one processor to another each time. So a thread goes on for some entries, and the others
    /// follow it in the order in which they came. A wake that is left out or comes too early leaves
    /// no thread asleep for good: while others make entries, each lot of them wakes one thread, and
    /// where none are made, a thread that looks again by itself finds the turn free.
    fn wake(&self) {
        if self.table.shared.peek(COUNT) % ENTRIES_A_WAKE == 0 {
            self.rest();
        }
    }

    /// Gives the value back and gives the turn up. After some of its entries it wakes one of the
    /// threads that wait for the turn. `made` says whether the value has one entry more than when
    /// `enter` returned it.
    pub fn leave(&self, pass: &mut Pass<B>, value: B, made: bool)
        requires pass { IsPassOf B.fixed self.now pass.old }
        requires entered { HasEntered pass.old }
        requires fixed { B.fixed value ≡ B.fixed (opened self.now) }
        requires same { made ≡ false → B.entries value ≡ entered pass.old }
        requires one_more { made ≡ true
            → AddsOne B.root (entered pass.old) (view_of pass.old).mine (B.entries value) }
        requires few { length (B.entries value) < 2 ^ 32 }
        ensures pass { IsPassOf B.fixed self.now pass.new }
        ensures outside { IsOutside pass.new }
        ensures told { Told B.root (view_of pass.old) (view_of pass.new)
            (B.entries value) (new_since (entered pass.old) (B.entries value)) }
    {
        self.write(pass, value, made);
        let shared = &self.table.shared;
        shared.load::<PutValue<B>>(&mut pass.seat, TURN);
        shared.store::<Release>(&mut pass.seat, TURN, 0);
        self.wake();
    }

    /// Halves the pass's share. The new pass has seen as much, has made nothing and has not
    /// entered.
    pub fn fork(&self, pass: &mut Pass<B>) -> Pass<B>
        requires { IsPassOf B.fixed self.now pass.old }
        ensures kept { IsPassOf B.fixed self.now pass.new
            × (view_of pass.new ≡ kept_view (view_of pass.old))
            × (hand_of pass.new ≡ hand_of pass.old) }
        ensures given { IsPassOf B.fixed self.now result × IsOutside result
            × (view_of result ≡ forked_view (view_of pass.old)) }
    {
        Pass {
            seat: self.table.shared.split_seat::<Halve>(&mut pass.seat),
        }
    }

    /// Makes `other` part of the pass, with its share and what it made.
    pub fn join(&self, pass: &mut Pass<B>, other: Pass<B>)
        requires pass { IsPassOf B.fixed self.now pass.old × IsOutside pass.old }
        requires other { IsPassOf B.fixed self.now other × IsOutside other }
        ensures pass { IsPassOf B.fixed self.now pass.new × IsOutside pass.new }
        ensures joined { view_of pass.new ≡ joined_view (view_of pass.old) (view_of other) }
        ensures known { Knows B.root (view_of pass.new).seen
            (view_of pass.old).seen (view_of pass.old).mine
            × Knows B.root (view_of pass.new).seen (view_of other).seen (view_of other).mine }
        ensures whole { IsWhole (view_of pass.new).part
            → HasAll (view_of pass.new).seen (view_of pass.new).seen (view_of pass.new).mine }
    {
        let shared = &self.table.shared;
        let Pass { seat } = other;
        shared.join_seat::<Add>(&mut pass.seat, seat);
        shared.load::<Learn<B>>(&mut pass.seat, TURN);
    }

    /// Waits as `enter` does, ends the turn and returns the value. Other passes are of no use then.
    pub fn close<R: Wait>(self, rt: &R, mut pass: Pass<B>) -> B
        requires pass { IsPassOf B.fixed self pass }
        requires outside { IsOutside pass }
        ensures fixed { B.fixed result ≡ B.fixed (opened self) }
        ensures knows { Knows B.root (B.entries result) (view_of pass).seen (view_of pass).mine }
        ensures whole { IsWhole (view_of pass).part
            → HasAll (B.entries result) (view_of pass).seen (view_of pass).mine }
    {
        self.take(rt, &mut pass);
        let Turn { table } = self;
        let Pass { seat } = pass;
        let mut closed = table.close_with(seat);
        let held = closed.take(VALUE);
        closed.free();
        let Some(value) = held else { unreachable!() };
        value
    }
}
