ghost use Rattle.std.specs.Prelude.{◌≡◌, ◌∷◌, [], IfOk, length};

use nm_reach::{Cell, Field, Reach};
use nm_types::NoMemory;
use std::alloc::Global;
use std::test::Fail;

fn is_sendable<T: Send>(_: &T) -> bool {
    true
}

/// The values 10, 11, 12 and 13.
fn four(alloc: Global) -> Result<Vec<u32>, NoMemory>
    ensures { IfOk result (λ v. v.items ≡ 10 ∷ 11 ∷ 12 ∷ 13 ∷ []) }
{
    let mut values = Vec::with_capacity(alloc, 4)?;
    values.push_reserved(10);
    values.push_reserved(11);
    values.push_reserved(12);
    values.push_reserved(13);
    Ok(values)
}

/// Whether a run begins at a cell and has these values, in its order.
fn is_run(run: &Reach<u32>, start: u32, values: [u32; 4]) -> bool
    requires { length run.now.values ≡ 4 }
{
    let mut same = run.start() == start;
    for i in 0..4 {
        same &= *run.get(i) == values[i as usize];
    }
    same
}

#[test]
fn a_run_goes_round(rt: HostRuntime) -> Result<(), Fail> {
    let values = four(rt.alloc())?;
    let Ok((field, mut all)) = Field::new(values) else {
        unreachable!();
    };
    assert!(rt; is_sendable(&all) && is_sendable(&field));
    let first = all.split_front(3);
    assert!(rt; first.start() == 0 && first.len() == 3);
    assert!(rt; all.start() == 3 && all.len() == 1);
    all.join(first);
    assert!(rt; is_run(&all, 3, [13, 10, 11, 12]));
    let values = field.close(all);
    assert!(rt; values[..] == [10, 11, 12, 13]);
    Ok(())
}

#[test]
fn a_run_is_written(rt: HostRuntime) -> Result<(), Fail> {
    let values = four(rt.alloc())?;
    let Ok((field, mut all)) = Field::new(values) else {
        unreachable!();
    };
    let mut first = all.split_front(1);
    *first.get_mut(0) = 20;
    all.join(first);
    *all.get_mut(3) += 1;
    assert!(rt; is_run(&all, 1, [11, 12, 13, 21]));
    let values = field.close(all);
    assert!(rt; values[..] == [21, 11, 12, 13]);
    Ok(())
}

#[test]
fn both_sides_of_a_run_are_written(rt: HostRuntime) -> Result<(), Fail> {
    let values = four(rt.alloc())?;
    let Ok((field, mut all)) = Field::new(values) else {
        unreachable!();
    };
    let first = all.split_front(3);
    all.join(first);
    for value in all.front_mut() {
        *value = 23;
    }
    for value in all.back_mut() {
        *value = 22;
    }
    assert!(rt; is_run(&all, 3, [23, 22, 22, 22]));
    all.split_front(0).end();
    let values = field.close(all);
    assert!(rt; values[..] == [22, 22, 22, 23]);
    Ok(())
}

/// A value that must be spent.
struct Coin {
    worth: u32,
}

fn spend(coin: Coin) -> u32 {
    let Coin { worth } = coin;
    worth
}

/// What all coins are worth.
fn spend_all(mut coins: Vec<Coin>) -> u32 {
    let mut sum: u32 = 0;
    while let Some(coin) = coins.pop() {
        sum = sum.saturating_add(spend(coin));
    }
    coins.destroy_empty();
    sum
}

#[test]
fn values_that_must_be_spent_come_back(rt: HostRuntime) -> Result<(), Fail> {
    let mut coins = Vec::with_capacity(rt.alloc(), 2)?;
    coins.push_reserved(Coin { worth: 3 });
    coins.push_reserved(Coin { worth: 4 });
    let (field, mut all) = match Field::new(coins) {
        Ok(made) => made,
        Err(_kept) => unreachable!(),
    };
    let first = all.split_front(1);
    assert_eq!(rt; first.get(0).worth, 3);
    all.join(first);
    assert_eq!(rt; all.get(1).worth, 3);
    assert_eq!(rt; spend_all(field.close(all)), 7);
    Ok(())
}

#[test]
fn a_cell_is_emptied_and_filled(rt: HostRuntime) {
    let mut cell = Cell::full(Coin { worth: 3 });
    assert!(rt; is_sendable(&cell));
    assert_eq!(rt; spend(cell.take()), 3);
    cell.put(Coin { worth: 4 });
    assert_eq!(rt; spend(cell.take()), 4);
    cell.end();
}
