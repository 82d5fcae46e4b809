//! The calls over a vector of numbers, each of which is its own root.
ghost use Rattle.std.specs.Prelude.{◌≡◌, ℕ, List, ◌*◌, ◌<◌, ◌≤◌, ◌^◌, ◌++◌, ◌∷◌, [], length};
ghost use Rattle.std.specs.Prelude.{MatchBool, MatchResult, IfOk, OnOk};
ghost use Rattle.std.proofs.Common.{le_refl};
ghost use Rattle.nm_turn.specs.Numbered.{IsPicked};
ghost use Rattle.nm_turn.specs.Passes.{first_view};
ghost use Rattle.nm_turn.specs.Samples.{spread, IsPassIn, Adds, AddsSpread, KeepsPart};
ghost use Rattle.nm_turn.specs.Turns.{view_of};

use nm_turn::{Kept, Pass, Turn};
use nm_types::NoMemory;
use std::alloc::Global;
use std::marker::Model;
use std::sync::Wait;
use std::test::Fail;
use std::thread::{Threads, join};

/// Numbers, as which contracts see it. It must be taken apart, so that none is lost.
struct Numbers {
    items: Vec<u32>,
}

impl Model for Numbers {
    ghost Value = { List ℕ };

    ghost view = { λ n. n.items.items };

    ghost invariant = { λ n. length n.items.items < 2 ^ 32 };
}

impl Kept for Numbers {
    type Entry = u32;

    type Fixed = ();

    ghost entries = { λ n. n };

    ghost fixed = { λ n. tt };

    ghost root = { λ entry number. number };

    ghost root_is_earlier = { λ entry number. le_refl number };
}

impl Numbers {
    /// No numbers.
    fn new(alloc: Global) -> Numbers
        ensures { result ≡ [] }
    {
        Numbers {
            items: Vec::new(alloc),
        }
    }

    /// Appends a number, and tells whether there was room for it.
    fn push(&mut self, number: u32) -> bool
        ensures pushed { MatchBool result
            (self.new ≡ self.old ++ number ∷ []) (self.new ≡ self.old) }
        ensures few { length self.new < 2 ^ 32 }
    {
        self.items.len() < u32::MAX as usize && self.items.push(number).is_ok()
    }

    /// Takes it apart.
    fn into_items(self) -> Vec<u32>
        ensures { result.items ≡ self }
    {
        let Numbers { items } = self;
        items
    }
}

/// Makes a turn over no numbers.
fn open(alloc: Global) -> Result<(Turn<Numbers>, Pass<Numbers>), NoMemory>
    ensures { IfOk result (λ r. IsPassIn r.0 r.1 × (view_of r.1 ≡ first_view tt)) }
{
    match Turn::open(alloc, Numbers::new(alloc)) {
        Ok(opened) => Ok(opened),
        Err((fault, numbers)) => {
            drop(numbers.into_items());
            Err(fault)
        }
    }
}

/// Adds a number through the pass.
fn add<R: Wait>(
    rt: &R,
    turn: &Turn<Numbers>,
    pass: &mut Pass<Numbers>,
    number: u32,
) -> Result<(), NoMemory>
    requires { IsPassIn turn.now pass.old }
    ensures pass { IsPassIn turn.now pass.new }
    ensures told { MatchResult result
        (λ _. Adds pass.old pass.new ((length (view_of pass.new).seen, number) ∷ []))
        (λ _. Adds pass.old pass.new []) }
{
    let mut numbers = turn.enter(rt, pass);
    let made = numbers.push(number);
    turn.leave(pass, numbers, made);
    if made { Ok(()) } else { Err(NoMemory) }
}

/// Adds `count` numbers from `first` on, each 2 more than the one before, and lets others go on.
/// Returns the pass, and whether there was memory.
fn add_all<R: Wait>(
    rt: &R,
    turn: &Turn<Numbers>,
    mut pass: Pass<Numbers>,
    first: u32,
    count: u32,
) -> (Pass<Numbers>, Result<(), NoMemory>)
    requires { IsPassIn turn.now pass × (first < 2) × (count ≤ 1000000) }
    ensures pass { IsPassIn turn.now result.0 }
    ensures part { KeepsPart pass result.0 }
    ensures added { OnOk result.1 (AddsSpread pass result.0 first count) }
{
    for k in 0..count {
        if let Err(NoMemory) = add(rt, turn, &mut pass, first + k * 2) {
            return (pass, Err(NoMemory));
        }
    }
    turn.rest();
    (pass, Ok(()))
}

/// A pass with whether its numbers were added.
type Added = (Pass<Numbers>, Result<(), NoMemory>);

/// Adds `count` numbers in each of two threads.
fn add_in_threads<R: Threads + Wait + Sync>(
    rt: &R,
    turn: &Turn<Numbers>,
    one: Pass<Numbers>,
    two: Pass<Numbers>,
    count: u32,
) -> (Added, Added)
    requires one { IsPassIn turn.now one }
    requires two { IsPassIn turn.now two }
    requires few { count ≤ 1000000 }
    ensures first { IsPassIn turn.now result.0.0 × KeepsPart one result.0.0 }
    ensures second { IsPassIn turn.now result.1.0 × KeepsPart two result.1.0 }
    ensures first_added { OnOk result.0.1 (AddsSpread one result.0.0 0 count) }
    ensures second_added { OnOk result.1.1 (AddsSpread two result.1.0 1 count) }
{
    join(
        rt,
        || -> Added
            requires { IsPassIn turn.now one × (count ≤ 1000000) }
            ensures pass { IsPassIn turn.entry.now result.0 × KeepsPart one result.0 }
            ensures added { OnOk result.1 (AddsSpread one result.0 0 count) }
        { add_all(rt, turn, one, 0, count) },
        || -> Added
            requires { IsPassIn turn.now two × (count ≤ 1000000) }
            ensures pass { IsPassIn turn.entry.now result.0 × KeepsPart two result.0 }
            ensures added { OnOk result.1 (AddsSpread two result.0 1 count) }
        { add_all(rt, turn, two, 1, count) },
    )
}

/// Returns the history after each of two threads has added `count` numbers: its length is the sum,
/// and each thread's numbers keep their order.
fn add_by_two<R: Threads + Wait + Sync>(
    rt: &R,
    alloc: Global,
    count: u32,
) -> Result<Vec<u32>, NoMemory>
    requires { count ≤ 1000000 }
    ensures all { IfOk result (λ items. length items.items ≡ 2 * count) }
    ensures first { IfOk result (λ items. IsPicked (spread 0 count) items.items) }
    ensures second { IfOk result (λ items. IsPicked (spread 1 count) items.items) }
{
    let (turn, mut one) = open(alloc)?;
    let two = turn.fork(&mut one);
    let ((mut one, first), (two, second)) = add_in_threads(rt, &turn, one, two, count);
    turn.join(&mut one, two);
    let items = turn.close(rt, one).into_items();
    first?;
    second?;
    Ok(items)
}

/// Tells whether the numbers with this remainder by 2 are in the order in which they were added.
fn stand_in_order(items: &[u32], remainder: u32, count: u32) -> bool {
    let mut next = remainder;
    for number in items {
        if number % 2 == remainder {
            if *number != next {
                return false;
            }
            next = next.wrapping_add(2);
        }
    }
    next == remainder.wrapping_add(count.wrapping_mul(2))
}

/// Adds a number through a pass, and then one through a pass that was forked off it.
fn add_forked<R: Wait>(rt: &R, alloc: Global) -> Result<Vec<u32>, NoMemory>
    ensures { IfOk result (λ items. items.items ≡ 5 ∷ 6 ∷ []) }
{
    let (turn, mut pass) = open(alloc)?;
    let first = add(rt, &turn, &mut pass, 5);
    let mut other = turn.fork(&mut pass);
    let second = add(rt, &turn, &mut other, 6);
    turn.join(&mut pass, other);
    let items = turn.close(rt, pass).into_items();
    first?;
    second?;
    Ok(items)
}

#[test]
fn forked_and_joined(rt: HostRuntime) -> Result<(), Fail> {
    let items = add_forked(&rt, rt.alloc())?;
    assert_eq!(rt; items.as_slice(), [5, 6].as_slice());
    Ok(())
}

#[test]
fn two_threads(rt: HostRuntime) -> Result<(), Fail> {
    let items = add_by_two(&rt, rt.alloc(), 10_000)?;
    assert_eq!(rt; items.len(), 20_000);
    assert!(rt; stand_in_order(&items, 0, 10_000) && stand_in_order(&items, 1, 10_000));
    Ok(())
}
