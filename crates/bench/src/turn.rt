ghost use Rattle.std.specs.Prelude.{◌≡◌, ◌<◌, ◌^◌, ◌++◌, ◌∷◌, [], length, MatchBool};
ghost use Rattle.std.proofs.Common.{le_refl};
ghost use Rattle.nm_turn.specs.Turns.{IsPassOf, IsOutside};

use nm_turn::{Kept, Pass, Turn};
use std::alloc::Global;
use std::sync::Wait;
use std::thread::{Threads, join};

/// The numbers that were added, each its own root.
#[derive(Drop)]
struct Numbers {
    items: Vec<u32>,
    ghost few: { length items.items < 2 ^ 32 },
}

impl Kept for Numbers {
    type Entry = u32;

    type Fixed = ();

    ghost entries = { λ n. n.items.items };

    ghost fixed = { λ n. tt };

    ghost root = { λ entry number. number };

    ghost root_is_earlier = { λ entry number. le_refl number };
}

impl Numbers {
    fn new(alloc: Global) -> Numbers
        ensures { result.items.items ≡ [] }
    {
        Numbers {
            items: Vec::new(alloc),
        }
    }

    /// Whether there was room for the number.
    fn push(&mut self, number: u32) -> bool
        ensures { MatchBool result (self.new.items.items ≡ self.old.items.items ++ number ∷ []) (self.new.items.items ≡ self.old.items.items) }
    {
        self.items.len() < u32::MAX as usize && self.items.push(number).is_ok()
    }
}

/// Adds the numbers below `count`, as far as there is memory.
fn add<R: Wait>(rt: &R, turn: &Turn<Numbers>, mut pass: Pass<Numbers>, count: u32)
    requires { IsPassOf (λ n. tt) turn.now pass × IsOutside pass }
{
    for number in 0..count {
        let mut numbers = turn.enter(rt, &mut pass);
        let made = numbers.push(number);
        turn.leave(&mut pass, numbers, made);
    }
}

/// Adds by `threads` threads, a power of two, each of which adds its part of `count`: each half in a
/// thread of its own.
fn add_by<R: Threads + Wait + Sync>(
    rt: &R,
    turn: &Turn<Numbers>,
    mut pass: Pass<Numbers>,
    threads: u32,
    count: u32,
)
    requires { IsPassOf (λ n. tt) turn.now pass × IsOutside pass }
{
    if threads < 2 {
        add(rt, turn, pass, count);
        return;
    }
    let other = turn.fork(&mut pass);
    join(
        rt,
        ||
            requires { IsPassOf (λ n. tt) turn.now pass × IsOutside pass }
        { add_by(rt, turn, pass, threads / 2, count / 2) },
        ||
            requires { IsPassOf (λ n. tt) turn.now other × IsOutside other }
        { add_by(rt, turn, other, threads / 2, count / 2) },
    );
}

/// Counts the entries that there are after as many threads have added their parts of `count`.
pub fn entries<R: Threads + Wait + Sync>(rt: &R, alloc: Global, threads: u32, count: u32) -> u32 {
    let Ok((turn, mut pass)) = Turn::open(alloc, Numbers::new(alloc)) else {
        return 0;
    };
    let own = turn.fork(&mut pass);
    add_by(rt, &turn, own, threads, count);
    turn.close(rt, pass).items.len() as u32
}
