use nm_types::{Mac, NoMemory, PortId};
use std::process::Abort;
use vale_learn::Table;

/// Two addresses of one entry: 0001 and 0001 are the halves that are not 0, apart from 0200.
const FIRST: Mac = Mac([2, 0, 0, 0, 0, 1]);

const SECOND: Mac = Mac([2, 0, 0, 1, 0, 0]);

/// The port behind which an address was seen, if it is known.
fn find(rt: &impl Abort, table: &Table, address: Mac, port: Option<PortId>) {
    assert!(rt; table.find(address) == port);
}

fn learn(table: &mut Table, address: Mac, port: PortId) {
    table.learn(address, port);
}

#[test]
fn addresses_of_one_entry(rt: HostRuntime) -> Result<(), NoMemory> {
    let mut table = Table::new(rt.alloc())?;
    find(&rt, &table, FIRST, None);
    learn(&mut table, FIRST, PortId(4));
    find(&rt, &table, FIRST, Some(PortId(4)));
    find(&rt, &table, SECOND, None);
    learn(&mut table, SECOND, PortId(5));
    find(&rt, &table, FIRST, None);
    find(&rt, &table, SECOND, Some(PortId(5)));
    table.forget(PortId(5));
    find(&rt, &table, FIRST, None);
    find(&rt, &table, SECOND, None);
    Ok(())
}

/// A port is forgotten in the copy of a table; the table itself still has it.
#[test]
fn copies_are_apart(rt: HostRuntime) -> Result<(), NoMemory> {
    let other = Mac([2, 0, 0, 0, 0, 0x0b]);
    let mut table = Table::new(rt.alloc())?;
    learn(&mut table, FIRST, PortId(4));
    learn(&mut table, other, PortId(5));
    let mut copy = Table::new(rt.alloc())?;
    learn(&mut copy, SECOND, PortId(6));
    copy.copy_from(&table);
    copy.forget(PortId(4));
    find(&rt, &copy, FIRST, None);
    find(&rt, &copy, SECOND, None);
    find(&rt, &copy, other, Some(PortId(5)));
    find(&rt, &table, FIRST, Some(PortId(4)));
    Ok(())
}
