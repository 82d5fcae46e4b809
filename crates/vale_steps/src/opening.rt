ghost use Rattle.std.specs.Prelude.{ℕ, ◌≡◌, ◌+◌, ◌≤◌, true, false, [], ◌∷◌, ◌++◌, length, take};
ghost use Rattle.std.specs.Prelude.{drop, map, position, None, Some, OnOk, OnErr, IfOk, IfErr};
ghost use Rattle.std.specs.Prelude.{MatchResult};
ghost use Rattle.nm_types.specs.Limits.{most_ring};
ghost use Rattle.vale_steps.specs.Words.{CanAllBeGiven, Fits, IsFull, IsNames, IsTakenBack, Joins};
ghost use Rattle.vale_steps.specs.Words.{fresh_port, has_table, indices_of, is_switch_port_name};
ghost use Rattle.vale_steps.specs.Words.{list_any, opened_state, pool_less, pool_with_all};
ghost use Rattle.vale_steps.specs.Words.{switch_of};
ghost use Rattle.vale_entry.specs.declared.entry.Reply.TheVariants as replies;
ghost use Rattle.vale_steps.specs.NamedTables.{table_seen};
ghost use Rattle.vale_steps.specs.OpenFaults.{ByFault, IsRecordedFault};
ghost use Rattle.vale_steps.specs.OpenParts.{is_port_on, is_vacant, HasTableFor, StillTables, StillFew};
ghost use Rattle.vale_steps.specs.OpenParts.{CanSeat, ComesOut, IsOpened, IsSeated};
ghost use Rattle.vale_steps.specs.OpenParts.{entry_for, refusal_for, state_for};

use crate::buffers::{give_back, indices};
use crate::tables::{NamedTable, table_of};
use nm_pool::Pool;
use nm_region::Buf;
use nm_types::{Name, NoMemory, OpenFault, PortId, StepFault};
use std::alloc::Global;
use vale_entry::{Ask, Entry, History, Reply};
use vale_learn::Table;
use vale_names::Names;
use vale_port::{Opening, Port};

/// A port that was opened, with the buffers that its session holds from now on. Those of its
/// receive ring stay with the switch.
pub struct Opened {
    /// The number of the entry that opened it.
    pub port: PortId,
    /// The buffers for the slots of its transmit ring, in their order.
    pub tx: Vec<Buf>,
    /// The indices of the buffers on the kernel side of its receive ring.
    pub rx: Vec<u32>,
    /// Its extra buffers.
    pub extra: Vec<Buf>,
}

impl Opened {
    /// The port, and what its session holds: the buffers of its transmit ring, and the extra ones.
    pub fn into_parts(self) -> (PortId, Vec<Buf>, Vec<Buf>)
        ensures port { result.0 ≡ self.port }
        ensures tx { result.1 ≡ self.tx }
        ensures extra { result.2 ≡ self.extra }
    {
        let Opened {
            port,
            tx,
            rx: _,
            extra,
        } = self;
        (port, tx, extra)
    }
}

/// The free buffers that a port takes.
struct Taken {
    tx: Vec<Buf>,
    rx: Vec<Buf>,
    extra: Vec<Buf>,
}

// ---- The learning table of a switch.

/// Tells whether the switch of this label has a port.
fn is_used(ports: &[Port], label: &Name) -> bool
    ensures { result ≡ list_any (is_port_on (switch_of label.now)) ports.now }
{
    ports.iter().any(|port| is_on_switch(port, label))
}

/// Tells whether the port is on the switch of this label.
fn is_on_switch(port: &Port, label: &Name) -> bool
    ensures { result ≡ is_port_on (switch_of label.now) port.now }
{
    let name = port.name();
    name.is_switch_port() && name.switch() == label.switch()
}

/// The first table whose switch has no port.
fn vacant_table(tables: &[NamedTable], ports: &[Port]) -> Option<usize>
    ensures { result ≡ position (is_vacant ports.now) tables.now }
{
    tables
        .iter()
        .position(|table| !is_used(ports, &table.label))
}

/// Gives a table to the switch of this name's port, which has none: that of a switch that has lost
/// its last port, or a fresh one.
fn add_table(
    alloc: Global,
    tables: &mut Vec<NamedTable>,
    ports: &[Port],
    name: &Name,
) -> Result<(), NoMemory>
    requires none { has_table (switch_of name.now) (map table_seen tables.old.items) ≡ false }
    ensures there { OnOk result
        (has_table (switch_of name.now) (map table_seen tables.new.items) ≡ true) }
    ensures kept { StillTables ports.now tables.old.items tables.new.items }
    ensures few { is_switch_port_name name.now ≡ true
        → StillFew name.now ports.now tables.old.items tables.new.items }
{
    match vacant_table(tables, ports) {
        Some(at) => tables[at].label = *name,
        None => {
            let table = Table::new(alloc)?;
            tables.reserve(1)?;
            tables.push_reserved(NamedTable {
                label: *name,
                table,
            });
        }
    }
    Ok(())
}

/// Sees to it that the switch of this name's port, if it is a port of one, has a table.
fn place_table(
    alloc: Global,
    tables: &mut Vec<NamedTable>,
    ports: &[Port],
    name: &Name,
) -> Result<(), NoMemory>
    ensures there { OnOk result (HasTableFor name.now tables.new.items) }
    ensures kept { StillTables ports.now tables.old.items tables.new.items }
    ensures few { StillFew name.now ports.now tables.old.items tables.new.items }
{
    if name.is_switch_port() && table_of(tables, name).is_none() {
        add_table(alloc, tables, ports, name)
    } else {
        Ok(())
    }
}

// ---- The buffers.

/// Makes all that were taken free again.
fn give_all(pool: &mut Pool, taken: Taken)
    requires { CanAllBeGiven pool.old (taken.tx.items ++ taken.rx.items ++ taken.extra.items) }
    ensures { pool.new
        ≡ pool_with_all (taken.tx.items ++ taken.rx.items ++ taken.extra.items) pool.old }
{
    let Taken { tx, rx, extra } = taken;
    give_back(pool, tx);
    give_back(pool, rx);
    give_back(pool, extra);
}

/// Takes the first free buffers: for the transmit ring, for the receive ring, and as extra ones.
fn take_all(alloc: Global, pool: &mut Pool, opening: &Opening, rx: u32) -> Result<Taken, NoMemory>
    requires back { (count : ℕ) → IsTakenBack pool.old count }
    requires enough { opening.now.tx + rx + opening.now.extra ≤ length pool.old.free }
    ensures tx { IfOk result (λ taken. taken.tx.items ≡ take opening.now.tx pool.old.free) }
    ensures rx { IfOk result (λ taken. taken.rx.items
        ≡ take rx (drop opening.now.tx pool.old.free)) }
    ensures extra { IfOk result (λ taken. taken.extra.items
        ≡ take opening.now.extra (drop (opening.now.tx + rx) pool.old.free)) }
    ensures pool { OnOk result
        (pool.new ≡ pool_less (opening.now.tx + rx + opening.now.extra) pool.old) }
    ensures err { OnErr result (pool.new ≡ pool.old) }
{
    let Ok(first) = pool.take(alloc, opening.tx) else {
        return Err(NoMemory);
    };
    let Ok(second) = pool.take(alloc, rx) else {
        give_back(pool, first);
        return Err(NoMemory);
    };
    let Ok(third) = pool.take(alloc, opening.extra) else {
        give_back(pool, first);
        give_back(pool, second);
        return Err(NoMemory);
    };
    Ok(Taken {
        tx: first,
        rx: second,
        extra: third,
    })
}

// ---- The port.

/// Makes the port of an opening, or gives its buffers back.
fn make_port(alloc: Global, opening: Opening, taken: Taken) -> Result<(Port, Opened), Taken>
    requires size { (1 ≤ length taken.rx.items) × (length taken.rx.items ≤ most_ring) }
    ensures port { IfOk result (λ made. made.0 ≡ opened_state opening.id.0 opening.session.0
        opening.name opening.tx opening.extra taken.rx.items) }
    ensures id { IfOk result (λ made. made.1.port ≡ opening.id) }
    ensures tx { IfOk result (λ made. made.1.tx.items ≡ taken.tx.items) }
    ensures rx { IfOk result (λ made. made.1.rx.items ≡ indices_of taken.rx.items) }
    ensures extra { IfOk result (λ made. made.1.extra.items ≡ taken.extra.items) }
    ensures tx_back { IfErr result (λ back. back.tx.items ≡ taken.tx.items) }
    ensures rx_back { IfErr result (λ back. back.rx.items ≡ taken.rx.items) }
    ensures extra_back { IfErr result (λ back. back.extra.items ≡ taken.extra.items) }
{
    let id = opening.id;
    let Taken { tx, rx, extra } = taken;
    let Ok(numbers) = indices(alloc, &rx) else {
        return Err(Taken { tx, rx, extra });
    };
    match Port::new(alloc, opening, rx) {
        Ok(port) => Ok((
            port,
            Opened {
                port: id,
                tx,
                rx: numbers,
                extra,
            },
        )),
        Err((NoMemory, rx)) => Err(Taken { tx, rx, extra }),
    }
}

/// Takes a port's buffers, and adds the port.
fn seat_port(
    alloc: Global,
    ports: &mut Vec<Port>,
    pool: &mut Pool,
    opening: &Opening,
    rx: u32,
) -> Result<Opened, NoMemory>
    requires { CanSeat opening.now rx pool.old }
    ensures { IsSeated opening.now rx ports.old.items ports.new.items pool.old pool.new result }
{
    ports.reserve(1)?;
    let taken = take_all(alloc, pool, opening, rx)?;
    match make_port(alloc, *opening, taken) {
        Ok((port, opened)) => {
            ports.push_reserved(port);
            Ok(opened)
        }
        Err(taken) => {
            give_all(pool, taken);
            Err(NoMemory)
        }
    }
}

/// Finds a table for the port's switch, and adds the port.
fn place_port(
    alloc: Global,
    tables: &mut Vec<NamedTable>,
    ports: &mut Vec<Port>,
    pool: &mut Pool,
    opening: &Opening,
    rx: u32,
) -> Result<Opened, NoMemory>
    requires { CanSeat opening.now rx pool.old }
    ensures there { OnOk result (HasTableFor opening.now.name tables.new.items) }
    ensures kept { StillTables ports.old.items tables.old.items tables.new.items }
    ensures few { StillFew opening.now.name ports.old.items tables.old.items tables.new.items }
    ensures seated { IsSeated opening.now rx ports.old.items ports.new.items
        pool.old pool.new result }
{
    place_table(alloc, tables, ports, &opening.name)?;
    seat_port(alloc, ports, pool, opening, rx)
}

// ---- The record.

/// The entry of an opening.
fn entry_for(opening: &Opening, rx: u32, reply: Reply) -> Entry
    ensures { result ≡ entry_for opening.now rx reply }
{
    Entry {
        session: opening.session,
        ask: Ask::Open {
            session: opening.session,
            name: opening.name,
            tx: opening.tx,
            rx,
            extra: opening.extra,
        },
        reply,
    }
}

/// Opens a port that is not refused, and records it.
pub fn add_port(
    alloc: Global,
    history: &mut History,
    tables: &mut Vec<NamedTable>,
    ports: &mut Vec<Port>,
    pool: &mut Pool,
    opening: Opening,
    rx: u32,
) -> Result<Opened, StepFault>
    requires back { (count : ℕ) → IsTakenBack pool.old count }
    requires enough { opening.tx + rx + opening.extra ≤ length pool.old.free }
    requires ring { (1 ≤ rx) × (rx ≤ most_ring) }
    ensures entries { OnOk result (history.new.entries
        ≡ history.old.entries ++ entry_for opening rx replies.Opened ∷ []) }
    ensures promised { OnOk result (history.new.promised ≡ history.old.promised + 2) }
    ensures limits { history.new.limits ≡ history.old.limits }
    ensures there { OnOk result (HasTableFor opening.name tables.new.items) }
    ensures kept { StillTables ports.old.items tables.old.items tables.new.items }
    ensures few { StillFew opening.name ports.old.items tables.old.items tables.new.items }
    ensures ports { OnOk result
        (ports.new.items ≡ ports.old.items ++ state_for opening rx pool.old.free ∷ []) }
    ensures pool { OnOk result (pool.new ≡ pool_less (opening.tx + rx + opening.extra) pool.old) }
    ensures opened { IfOk result (IsOpened opening rx pool.old.free) }
    ensures fits { OnOk result (Fits history.old 3 0) }
    ensures full { IfErr result (IsFull history.old 3 0) }
    ensures err { OnErr result ((history.new.entries ≡ history.old.entries)
        × (history.new.promised ≡ history.old.promised)
        × (ports.new.items ≡ ports.old.items) × (pool.new ≡ pool.old)) }
{
    history.reserve(3, 0)?;
    match place_port(alloc, tables, ports, pool, &opening, rx) {
        Ok(opened) => {
            history.push(entry_for(&opening, rx, Reply::Opened));
            Ok(opened)
        }
        Err(NoMemory) => {
            history.release(3);
            Err(StepFault::NoMemory)
        }
    }
}

/// Records that an opening is refused, and returns the fault, or else that of the record.
pub fn refuse(history: &mut History, opening: &Opening, rx: u32, fault: OpenFault) -> OpenFault
    requires { IsRecordedFault fault }
    ensures answer { ByFault
        (λ told. (told ≡ fault)
        × (history.new.entries
        ≡ history.old.entries ++ entry_for opening.now rx (replies.Refused fault) ∷ [])
        × Fits history.old 1 0)
        (λ full. (history.new.entries ≡ history.old.entries) × IsFull history.old 1 0 full)
        result }
    ensures promised { history.new.promised ≡ history.old.promised }
    ensures limits { history.new.limits ≡ history.old.limits }
{
    match history.reserve(1, 0) {
        Ok(()) => {
            history.push(entry_for(opening, rx, Reply::Refused { fault }));
            fault
        }
        Err(full) => OpenFault::from(full),
    }
}

/// Registers the port's name, unless the opening is refused, for its sizes, its name or want of
/// buffers.
pub fn name_port(
    names: &mut Names,
    pool: &Pool,
    opening: &Opening,
    rx: u32,
) -> Result<(), OpenFault>
    requires out { ComesOut (fresh_port opening.now.name opening.now.id) names.old }
    ensures refusal { MatchResult result
        (λ _. refusal_for names.old pool.now.free opening.now rx ≡ None)
        (λ fault. refusal_for names.old pool.now.free opening.now rx ≡ Some fault) }
    ensures joins { OnOk result
        (Joins names.old (fresh_port opening.now.name opening.now.id) names.new) }
    ensures names { OnOk result (IsNames names.new) }
    ensures ring { OnOk result ((1 ≤ rx) × (rx ≤ most_ring)) }
    ensures enough { OnOk result (opening.now.tx + rx + opening.now.extra ≤ length pool.now.free) }
    ensures err { OnErr result (names.new ≡ names.old) }
{
    names.open(&opening.name, opening.id, opening.tx, rx, opening.extra)?;
    let want = opening.tx + rx + opening.extra;
    let have = pool.free();
    if have < want {
        names.gone(opening.id);
        return Err(OpenFault::NoBuffers { want, have });
    }
    Ok(())
}
