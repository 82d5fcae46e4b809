ghost use Rattle.std.specs.Prelude.{ℕ, ◌≡◌, ◌≢◌, ◌≤◌, ◌++◌, ◌∷◌, [], false, Some, OnOk};
ghost use Rattle.nm_types.specs.Limits.{most_extra};
ghost use Rattle.nm_region.specs.Buffers.{name_of, names_of, opened_buffers, region_names};
ghost use Rattle.nm_hold.specs.Holds.{empty_hold, buffer_at};
ghost use Rattle.nm_hold.specs.Names.{name_at};
ghost use Rattle.nm_hold.specs.Offsets.{has_port};

use nm_hold::Hold;
use nm_region::{Buf, Region};
use nm_types::{NoMemory, Place, PortId};
use std::alloc::Global;
use std::process::Abort;
use std::test::Fail;

const PORT: PortId = PortId(3);

const FIRST: Place = Place::Tx {
    port: PORT,
    slot: 0,
};

const SECOND: Place = Place::Tx {
    port: PORT,
    slot: 1,
};

/// Two named buffers, in the two transmit slots, change places.
fn exchange_two(rt: &impl Abort, hold: &mut Hold, two: Buf, three: Buf)
    requires hold { hold.old ≡ record (empty_hold 8) {
      ports = record { port = record { 0 = 3 }; sizes = record { tx = 2; rx = 2; extra = 0 } } ∷ [];
    } }
    requires two { two.index ≡ 2 }
    requires three { three.index ≡ 3 }
    ensures two { name_at hold.new 2 ≡ Some (name_of two) }
    ensures three { name_at hold.new 3 ≡ Some (name_of three) }
{
    hold.add(FIRST, two);
    assert!(rt; hold.index(SECOND).is_none() && hold.place(3).is_none());
    hold.add(SECOND, three);
    assert!(rt; !hold.named(2) && hold.bytes(2).is_none());
    name(rt, hold, FIRST);
    name(rt, hold, SECOND);
    set_first_byte(rt, hold, 2);
    assert!(rt; hold.index(FIRST).is_some() && hold.named(3));
    hold.exchange(FIRST, 3);
    are_exchanged(rt, hold);
}

/// The places name each other's buffers, whose bytes went with them.
fn are_exchanged(rt: &impl Abort, hold: &Hold) {
    assert!(rt; hold.index(FIRST) == Some(3) && hold.index(SECOND) == Some(2));
    assert!(rt; hold.place(3) == Some(FIRST) && hold.bytes(4).is_none());
    assert!(rt; begins_with(hold, 2, 7) && hold.extra_count(PORT) == 0);
}

/// Whether the bytes of a named buffer begin with this one.
fn begins_with(hold: &Hold, idx: u32, byte: u8) -> bool {
    match hold.bytes(idx) {
        Some(bytes) => bytes.first() == Some(&byte),
        None => false,
    }
}

fn name(rt: &impl Abort, hold: &mut Hold, place: Place)
    ensures { (idx : ℕ) → buffer_at hold.new idx ≡ buffer_at hold.old idx }
{
    assert!(rt; hold.index(place).is_some());
    hold.set_named(place, true);
}

fn set_first_byte(rt: &impl Abort, hold: &mut Hold, idx: u32)
    ensures { (i : ℕ) → name_at hold.new i ≡ name_at hold.old i }
{
    assert!(rt; hold.named(idx));
    let bytes = hold.lend(idx);
    assert!(rt; !bytes.is_empty());
    bytes[0] = 7;
}

/// Takes the buffer out of a place, which holds one.
fn take(rt: &impl Abort, hold: &mut Hold, place: Place) -> Buf
    ensures buffer { buffer_at hold.old result.index ≡ Some result }
    ensures others { (idx : ℕ) → idx ≢ result.index → buffer_at hold.new idx ≡ buffer_at hold.old idx }
{
    assert!(rt; hold.index(place).is_some());
    hold.remove(place)
}

/// The two buffers come to the hold, change places, and go back.
fn play(rt: &impl Abort, region: &Region, hold: &mut Hold, all: &mut Vec<Buf>)
    requires count { region.now.buffers ≡ 2 }
    requires hold { hold.old ≡ record (empty_hold 8) {
      ports = record { port = record { 0 = 3 }; sizes = record { tx = 2; rx = 2; extra = 0 } } ∷ [];
    } }
    requires all { all.old.items ≡ opened_buffers region.now }
    ensures { names_of all.new.items ≡ region_names region.now }
{
    let two = all.remove(0);
    let three = all.remove(0);
    assert!(rt; two.index() == 2 && three.index() == 3);
    exchange_two(rt, hold, two, three);
    let first = take(rt, hold, FIRST);
    assert!(rt; first.index() == 3);
    let second = take(rt, hold, SECOND);
    assert!(rt; second.index() == 2 && hold.index(SECOND).is_none());
    all.push_reserved(second);
    all.push_reserved(first);
}

/// Two buffers of a region change places in a port of the hold, go back, and the region is closed.
fn exchange_and_close(rt: &impl Abort, alloc: Global, hold: &mut Hold) -> Result<(), NoMemory>
    requires { hold.old ≡ empty_hold 8 }
{
    let room = hold.room(2, 2, 0)?;
    let (region, mut all) = Region::new(alloc, 2)?;
    hold.set_port(PORT, room);
    play(rt, &region, hold, &mut all);
    region.close(all);
    Ok(())
}

#[test]
fn exchange_of_two_slots(rt: HostRuntime) -> Result<(), Fail> {
    let mut hold = Hold::new(rt.alloc(), 8)?;
    let made = exchange_and_close(&rt, rt.alloc(), &mut hold);
    assert!(rt; hold.is_empty());
    hold.close();
    Ok(made?)
}

/// The first byte of a named buffer is written by a look-up that may find none.
fn write_found(rt: &impl Abort, hold: &mut Hold, idx: u32) {
    if let Some(bytes) = hold.bytes_mut(idx) {
        if let Some(byte) = bytes.first_mut() {
            *byte = 8;
        }
    }
    assert!(rt; begins_with(hold, idx, 8));
}

/// A hold with a port of two slots in each ring.
fn opened(rt: &impl Abort, alloc: Global) -> Hold
    ensures { result ≡ record (empty_hold 8) {
      ports = record { port = record { 0 = 3 }; sizes = record { tx = 2; rx = 2; extra = 0 } } ∷ [];
    } }
{
    let Ok(mut hold) = Hold::new(alloc, 8) else {
        panic!(rt; "out of memory");
    };
    let Ok(room) = hold.room(2, 2, 0) else {
        panic!(rt; "out of memory");
    };
    hold.set_port(PORT, room);
    hold
}

/// The buffer stays in the hold: the test ends by the panic that it expects.
#[test]
#[should_panic(expected = "the buffer stays in the hold")]
fn named_bytes_are_written(rt: HostRuntime) {
    let Ok((_region, mut all)) = Region::new(rt.alloc(), 1) else {
        panic!(rt; "out of memory");
    };
    let mut hold = opened(&rt, rt.alloc());
    assert!(rt; all.len() == 1);
    let two = all.remove(0);
    assert!(rt; two.index() == 2);
    hold.add(FIRST, two);
    assert!(rt; !hold.is_empty());
    assert!(rt; hold.bytes_mut(2).is_none() && hold.bytes_mut(3).is_none());
    name(&rt, &mut hold, FIRST);
    write_found(&rt, &mut hold, 2);
    panic!(rt; "the buffer stays in the hold");
}

/// Opens a port with two slots in each ring and so many extra positions.
fn open(hold: &mut Hold, port: u32, extra: u32) -> Result<(), NoMemory>
    requires new { has_port hold.old.ports port ≡ false }
    requires few { extra ≤ most_extra }
    ensures cells { hold.new.cells ≡ hold.old.cells }
    ensures ports { OnOk result (hold.new.ports ≡ hold.old.ports
        ++ record { port = record { 0 = port }; sizes = record { tx = 2; rx = 2; extra = extra } } ∷ []) }
{
    let room = hold.room(2, 2, extra)?;
    hold.set_port(PortId(port), room);
    Ok(())
}

/// So many extra positions have the ports 3 to 6.
fn count_extras(rt: &impl Abort, hold: &Hold, counts: [u32; 4]) {
    for (port, count) in (3u32..).zip(counts) {
        assert!(rt; hold.extra_count(PortId(port)) == count, "port {port}");
    }
}

/// Of four ports the first three go, and then one more comes.
fn four_ports(rt: &impl Abort, hold: &mut Hold) -> Result<(), NoMemory>
    requires { hold.old ≡ empty_hold 8 }
    ensures { hold.new.cells ≡ hold.old.cells }
{
    open(hold, 3, 3)?;
    open(hold, 4, 4)?;
    open(hold, 5, 5)?;
    open(hold, 6, 6)?;
    hold.drop_port(PortId(4));
    hold.drop_port(PortId(3));
    hold.drop_port(PortId(5));
    count_extras(rt, hold, [0, 0, 0, 6]);
    open(hold, 4, 7)?;
    count_extras(rt, hold, [0, 7, 0, 6]);
    Ok(())
}

#[test]
fn ports_come_and_go(rt: HostRuntime) -> Result<(), Fail> {
    let mut hold = Hold::new(rt.alloc(), 8)?;
    let made = four_ports(&rt, &mut hold);
    hold.close();
    Ok(made?)
}
