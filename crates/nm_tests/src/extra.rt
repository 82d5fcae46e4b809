ghost use Rattle.std.specs.Prelude.{◌≡◌, ◌∷◌, []};
ghost use Rattle.nm_hold.specs.Holds.{empty_hold};

use nm_extra::{link, walk};
use nm_hold::Hold;
use nm_region::{Buf, Region};
use nm_types::{Chain, Place, PortId};
use std::alloc::Global;
use std::process::Abort;

const PORT: PortId = PortId(2);

fn extra(at: u32) -> Place {
    Place::Extra { port: PORT, at }
}

/// The buffers 6, 7 and 8 in the extra positions, each linked to the next.
fn fill(rt: &impl Abort, hold: &mut Hold, mut six: Buf, mut seven: Buf, mut eight: Buf)
    requires hold { hold.old ≡ record (empty_hold 64) {
      ports = record { port = record { 0 = 2 }; sizes = record { tx = 2; rx = 2; extra = 3 } } ∷ [];
    } }
    requires six { six.index ≡ 6 }
    requires seven { seven.index ≡ 7 }
    requires eight { eight.index ≡ 8 }
{
    link(&mut six, 7);
    link(&mut seven, 8);
    link(&mut eight, 0);
    hold.add(Place::Extra { port: PORT, at: 0 }, six);
    assert!(rt; hold.index(extra(1)).is_none() && hold.place(7).is_none());
    hold.add(Place::Extra { port: PORT, at: 1 }, seven);
    assert!(rt; hold.index(extra(2)).is_none() && hold.place(8).is_none());
    hold.add(Place::Extra { port: PORT, at: 2 }, eight);
    name(rt, hold, extra(0));
    name(rt, hold, extra(1));
    name(rt, hold, extra(2));
}

fn name(rt: &impl Abort, hold: &mut Hold, place: Place) {
    assert!(rt; hold.index(place).is_some());
    hold.set_named(place, true);
}

/// Sets the lowest byte of a buffer's link.
fn relink(rt: &impl Abort, hold: &mut Hold, idx: u32, next: u8) {
    assert!(rt; hold.named(idx));
    let bytes = hold.lend(idx);
    assert!(rt; !bytes.is_empty());
    bytes[0] = next;
}

fn is_found(hold: &Hold, head: u32, found: u32) -> bool {
    walk(hold, PORT, head)
        == Chain {
            found,
            astray: 3u32.saturating_sub(found),
        }
}

/// The chain from 6, once 7 is linked to another buffer.
fn walks_by(rt: &impl Abort, hold: &mut Hold, seventh: u8, found: u32) {
    relink(rt, hold, 7, seventh);
    assert!(rt; is_found(hold, 6, found), "link to {seventh}");
}

/// Heads of a chain, and how many buffers it reaches.
const HEADS: &[(u32, u32)] = &[(6, 3), (7, 2), (0, 0), (2, 0), (u32::MAX, 0)];

/// Buffers to which 7 is linked, and how many the chain from 6 reaches.
const LINKS: &[(u8, u32)] = &[(6, 2), (7, 2), (0, 2), (2, 2), (8, 3)];

fn walk_all(rt: &impl Abort, hold: &mut Hold) {
    for (head, found) in HEADS {
        assert!(rt; is_found(hold, *head, *found), "head {head}");
    }
    for (seventh, found) in LINKS {
        walks_by(rt, hold, *seventh, *found);
    }
}

/// A hold with a port that has three extra positions.
fn opened(rt: &impl Abort, alloc: Global) -> Hold
    ensures { result ≡ record (empty_hold 64) {
      ports = record { port = record { 0 = 2 }; sizes = record { tx = 2; rx = 2; extra = 3 } } ∷ [];
    } }
{
    let Ok(mut hold) = Hold::new(alloc, 64) else {
        panic!(rt; "out of memory");
    };
    let Ok(room) = hold.room(2, 2, 3) else {
        panic!(rt; "out of memory");
    };
    hold.set_port(PORT, room);
    hold
}

/// The buffers stay in the hold: the test ends by the panic that it expects.
#[test]
#[should_panic(expected = "the buffers stay in the hold")]
fn chain_with_loop(rt: HostRuntime) {
    let Ok((_region, mut all)) = Region::new(rt.alloc(), 7) else {
        panic!(rt; "out of memory");
    };
    let mut hold = opened(&rt, rt.alloc());
    assert!(rt; all.len() == 7);
    let six = all.remove(4);
    let seven = all.remove(4);
    let eight = all.remove(4);
    assert!(rt; six.index() == 6 && seven.index() == 7 && eight.index() == 8);
    fill(&rt, &mut hold, six, seven, eight);
    walk_all(&rt, &mut hold);
    panic!(rt; "the buffers stay in the hold");
}
