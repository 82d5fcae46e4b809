ghost use Rattle.std.specs.Prelude.{◌≡◌, ◌≤◌, ◌<◌, length, None, Some, IsSome, MatchOption};
ghost use Rattle.std.specs.Prelude.{option_map, false, true};
ghost use Rattle.nm_types.specs.Chain.{link_bytes, linked, link_of, chain_of};
ghost use Rattle.nm_hold.specs.Holds.{IsHold, is_named_at};
ghost use Rattle.nm_hold.specs.Changes.{HasWritten};
ghost use Rattle.nm_extra.specs.Extras.{extras_of, link_at, position_at};

use byteorder::{ByteOrder, LittleEndian};
use nm_hold::Hold;
use nm_region::Buf;
use nm_types::{Chain, MAX_EXTRA, Place, PortId};

/// Links a buffer to the next one of its chain by its first four bytes. 0 ends the chain.
pub fn link(buf: &mut Buf, next: u32)
    ensures { buf.new ≡ record buf.old { bytes = linked next buf.old.bytes } }
{
    let mut link = [0; 4];
    put_link(&mut link, next);
    buf.write(&link);
}

/// Links the named buffer of an index to the next one of its chain. 0 ends the chain.
pub fn relink(hold: &mut Hold, idx: u32, next: u32)
    requires { is_named_at hold.old idx ≡ true }
    ensures { HasWritten hold.old hold.new idx (link_bytes next) }
{
    let mut link = [0; 4];
    put_link(&mut link, next);
    hold.write(idx, &link);
}

fn put_link(bytes: &mut [u8], next: u32)
    requires { 4 ≤ length bytes.old }
    ensures { bytes.new ≡ linked next bytes.old }
{
    LittleEndian::write_u32(bytes, next);
}

fn link_in(bytes: &[u8]) -> u32
    requires { 4 ≤ length bytes.now }
    ensures { result ≡ link_of bytes.now }
{
    LittleEndian::read_u32(bytes)
}

/// The link in the buffer of an index.
fn next(hold: &Hold, idx: u32) -> u32
    ensures { result ≡ link_at hold.now idx }
{
    match hold.buffer(idx) {
        Some(buf) => link_in(buf.bytes()),
        None => 0,
    }
}

/// The extra position of a port in which the buffer of an index stands.
fn position(hold: &Hold, port: PortId, idx: u32) -> Option<u32>
    ensures { result ≡ position_at hold.now port idx }
{
    match hold.place(idx) {
        Some(Place::Extra { port: of, at }) if of == port => Some(at),
        _ => None,
    }
}

/// The number of extra positions of a port that hold a buffer.
fn held(hold: &Hold, port: PortId) -> u32
    ensures count { result ≡ length (extras_of hold.now port) }
    ensures hold { IsHold hold.now }
{
    let mut count = 0;
    for at in 0..hold.extra_count(port) {
        if hold.index(Place::Extra { port, at }).is_some() {
            count += 1;
        }
    }
    count
}

/// Follows the chain of a port's extra buffers from `head` to its end: 0, an index that is in no
/// extra position of the port, or one that it has met. Counts the buffers that it met, and the other
/// ones. The buffers may hold any bytes.
pub fn walk(hold: &Hold, port: PortId, head: u32) -> Chain
    ensures { result ≡ chain_of (extras_of hold.now port) (link_at hold.now) head }
{
    let extras = held(hold, port);
    let mut met = [false; MAX_EXTRA as usize];
    let mut found = 0;
    let mut at = head;
    while found < extras {
        match position(hold, port, at) {
            Some(here) if !met[here as usize] => {
                met[here as usize] = true;
                at = next(hold, at);
                found += 1;
            }
            _ => {
                return Chain {
                    found,
                    astray: extras - found,
                };
            }
        }
    }
    Chain { found, astray: 0 }
}
