//! The load of a number, as a script.
ghost use Rattle.std.specs.Prelude.{◌≡◌, ◌+◌, ◌*◌, ◌<◌, ◌≤◌, ◌^◌, [], map, IfOk, OnOk};
ghost use Rattle.vale_gen.specs.Load.{enters, opens, user_deeds, numbered, users, opening, block_deeds, load_program, user_name as name_of};
ghost use Rattle.vale_script.specs.Sound.{IsSound};
ghost use Rattle.vale_script.specs.declared.script.Unit.TheVariants.{Single};
ghost use Rattle.vale_gen.specs.Sheets.{with_deeds};

use crate::sheet::Sheet;
use crate::workload::{FRAMES, USERS, Workload, port_name, user_name};
use nm_types::NoMemory;
use std::alloc::Global;
use vale_script::{Act, Line, Lines, Script, ScriptWord, Unit};

/// The buffers of the pool.
const POOL: u32 = 8_192;

/// The slots of each ring.
const RING: u32 = 256;

/// The number of a block's first line: eight lines and its `par` stand before it.
const BLOCK_LINE: u32 = 10;

/// The lines of a block: four users put 2,000 frames each, and sync both rings 32 times.
const BLOCK_LINES: usize = 8_256;

fn user_words(alloc: Global) -> Result<Vec<ScriptWord>, NoMemory>
    ensures { IfOk result (λ words. words.items ≡ map name_of users) }
{
    let mut words = Vec::new(alloc);
    for user in 1..=USERS {
        let name = user_name(alloc, user)?;
        words.push(ScriptWord::new(alloc, name.as_str())?)?;
    }
    Ok(words)
}

fn enter(sheet: &mut Sheet) -> Result<(), NoMemory>
    requires { sheet.old.next < 10 }
    ensures { OnOk result (sheet.new ≡ with_deeds sheet.old (map enters users)) }
{
    for user in 1..=USERS {
        sheet.add(user, Act::Enter)?;
    }
    Ok(())
}

fn open(alloc: Global, sheet: &mut Sheet) -> Result<(), NoMemory>
    requires { sheet.old.next < 10 }
    ensures { OnOk result (sheet.new ≡ with_deeds sheet.old (map opens users)) }
{
    for user in 1..=USERS {
        let name = port_name(alloc, user)?;
        let act = Act::Open {
            name,
            tx: RING,
            rx: RING,
            extra: 0,
        };
        sheet.add(user, act)?;
    }
    Ok(())
}

fn single_units(alloc: Global, lines: Vec<Line>) -> Result<Vec<Unit>, NoMemory>
    ensures { IfOk result (λ units. units.items ≡ map Single lines.items) }
{
    let units = lines
        .into_iter()
        .map(|line| Unit::Single { line })
        .collect(alloc)?;
    Ok(units)
}

/// The units in front of the block.
fn opening(alloc: Global) -> Result<Vec<Unit>, NoMemory>
    ensures { IfOk result (λ units. units.items ≡ map Single (numbered 1 opening)) }
{
    let mut sheet = Sheet::new(alloc, 1);
    enter(&mut sheet)?;
    open(alloc, &mut sheet)?;
    single_units(alloc, sheet.into_lines())
}

/// Adds the lines of one user.
fn add_user(alloc: Global, sheet: &mut Sheet, n: u64, user: u8) -> Result<(), NoMemory>
    requires room { sheet.old.next + 6000 < 2 ^ 32 }
    requires least { 1 ≤ user }
    requires most { user ≤ USERS }
    ensures { OnOk result (sheet.new ≡ with_deeds sheet.old (user_deeds n user FRAMES)) }
{
    let mut work = Workload::new(alloc, n, user)?;
    for _ in 0..FRAMES {
        work.add_frame(sheet)?;
    }
    Ok(())
}

/// The lines of the block.
fn block(alloc: Global, n: u64) -> Result<Vec<Line>, NoMemory>
    ensures { IfOk result (λ lines. lines.items ≡ numbered 10 (block_deeds n)) }
{
    let mut sheet = Sheet::with_room(alloc, BLOCK_LINE, BLOCK_LINES)?;
    for user in 1..=USERS {
        add_user(alloc, &mut sheet, n, user)?;
    }
    Ok(sheet.into_lines())
}

/// The script of `load n`, which puts 8,000 frames; `NoMemory` is its only error.
pub fn load(alloc: Global, n: u64) -> Result<Script, NoMemory>
    ensures value { IfOk result (λ script. script ≡ load_program n) }
    ensures sound { IfOk result IsSound }
{
    let users = user_words(alloc)?;
    let mut units = opening(alloc)?;
    let lines = Lines::from(block(alloc, n)?);
    units.push(Unit::Block { lines })?;
    Ok(Script::new(POOL, users, Vec::new(alloc), units))
}
