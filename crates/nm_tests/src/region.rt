ghost use Rattle.std.specs.Prelude.{◌≡◌, ◌<◌, length};
ghost use Rattle.nm_region.specs.Buffers.{names_of};

use nm_region::{Buf, Region, distinct};
use std::test::Fail;

/// Sets one byte of a buffer.
#[tactic(auto, using(nm_region::proofs::Named::named))]
fn mark(bufs: &mut Vec<Buf>, at: usize, place: usize, byte: u8)
    requires at { at < length bufs.old.items }
    requires place { place < 2048 }
    ensures names { names_of bufs.new.items ≡ names_of bufs.old.items }
    ensures count { length bufs.new.items ≡ length bufs.old.items }
{
    let buf = &mut bufs[at];
    let bytes = buf.bytes_mut();
    bytes[place] = byte;
}

fn is_zero(buf: &Buf) -> bool {
    buf.bytes().iter().all(|b| *b == 0)
}

/// Two buffers of one region, of which nothing else is known, have different indices.
fn differ(a: &mut Buf, b: &mut Buf)
    requires { a.old.region ≡ b.old.region }
    ensures { (a.new ≡ a.old) × (b.new ≡ b.old) }
{
    distinct(a, b);
    let (first, second) = (a.index(), b.index());
    prove!(first != second);
}

/// Whether a buffer of the vector has this byte at a place.
fn has_byte(bufs: &[Buf], at: usize, place: usize, byte: u8) -> bool {
    match bufs.get(at) {
        Some(buf) => buf.bytes().get(place) == Some(&byte),
        None => false,
    }
}

/// Whether a buffer of the vector has its index, and zeros.
fn is_new(bufs: &[Buf], at: usize) -> bool {
    match bufs.get(at) {
        Some(buf) => buf.index() as usize == at.wrapping_add(2) && is_zero(buf) && is_sendable(buf),
        None => false,
    }
}

/// Writes the zeros of a buffer twice, and tells whether only the first time did so.
#[tactic(auto, using(nm_region::proofs::Named::named))]
fn prepares_once(bufs: &mut Vec<Buf>, at: usize) -> bool
    requires { at < length bufs.old.items }
    ensures names { names_of bufs.new.items ≡ names_of bufs.old.items }
    ensures count { length bufs.new.items ≡ length bufs.old.items }
{
    let buf = &mut bufs[at];
    buf.prepare() && !buf.prepare() && is_zero(buf)
}

fn is_sendable<T: Send>(_: &T) -> bool {
    true
}

#[test]
#[tactic(auto, using(nm_region::proofs::Named::named))]
fn three_buffers_of_their_own(rt: HostRuntime) -> Result<(), Fail> {
    let (region, mut all) = Region::new(rt.alloc(), 3)?;
    assert_eq!(rt; all.len(), 3);
    assert!(rt; is_new(&all, 0) && is_new(&all, 1) && is_new(&all, 2));
    assert!(rt; has_byte(&all, 0, 2047, 0) && !has_byte(&all, 0, 2048, 0));
    mark(&mut all, 1, 0, 7);
    assert!(rt; is_new(&all, 0) && has_byte(&all, 1, 0, 7) && is_new(&all, 2));
    assert!(rt; prepares_once(&mut all, 2));
    region.close(all);
    Ok(())
}

#[test]
fn two_buffers_differ(rt: HostRuntime) -> Result<(), Fail> {
    let (region, mut all) = Region::new(rt.alloc(), 2)?;
    assert_eq!(rt; all.len(), 2);
    let mut second = all.take_last();
    let mut first = all.take_last();
    differ(&mut first, &mut second);
    assert!(rt; first.index() != second.index());
    all.push_reserved(first);
    all.push_reserved(second);
    region.close(all);
    Ok(())
}

/// The last byte of one part and the first of the part behind the next one are written.
#[test]
#[tactic(auto, using(nm_region::proofs::Named::named))]
fn a_write_stays_in_its_buffer(rt: HostRuntime) -> Result<(), Fail> {
    let (region, mut all) = Region::new(rt.alloc(), 262_144)?;
    assert_eq!(rt; all.len(), 262_144);
    mark(&mut all, 0, 2047, 7);
    mark(&mut all, 2, 0, 9);
    assert!(rt; has_byte(&all, 0, 2047, 7) && is_new(&all, 1));
    assert!(rt; has_byte(&all, 2, 0, 9) && is_new(&all, 262_143));
    region.close(all);
    Ok(())
}
