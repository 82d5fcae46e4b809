//! The longest frame is saved whole.
use super::{FROM_A, plays};
use nm_io::MemoryShelf;
use nm_types::{Limits, NoMemory};
use std::process::Abort;

/// A frame of 2,048 bytes comes to a port whose frames are saved.
const LONG: &[u8] =
    b"pool 64\nuser a\nuser b\nopen a vale0:a 4 4\nopen b vale0:b 4 4\nsave b vale0:b long.pcap\nput a vale0:a 1 ff:ff:ff:ff:ff:ff 02:00:00:00:00:0a 2048 5a\ntx a vale0:a\nrx b vale0:b\n";

/// Its record comes by the eighth entry, as the first of its frames, and has all of its bytes.
const RECORD: &[u8] = b"\x08\x00\x00\x00\x00\x00\x00\x00\x00\x08\x00\x00\x00\x08\x00\x00";

const ROOMY: Limits = Limits {
    entries: 100,
    bytes: 10_000,
};

/// All bytes of the frame are saved.
fn holds_longest(rt: &impl Abort, saved: &[u8]) {
    assert_eq!(rt; saved.len(), 2_088);
    assert_eq!(rt; &saved[24..40], RECORD);
    assert_eq!(rt; &saved[40..54], FROM_A);
    assert!(rt; saved[54..].iter().all(|byte| *byte == 0x5a));
}

#[test]
fn the_longest_frame_is_saved(rt: HostRuntime) -> Result<(), NoMemory> {
    let mut shelf = MemoryShelf::new(rt.alloc(), Vec::new(rt.alloc()));
    plays(&rt, LONG, ROOMY, &mut shelf, (14, Ok(())))?;
    holds_longest(&rt, shelf.file("long.pcap").unwrap_or(b""));
    Ok(())
}
