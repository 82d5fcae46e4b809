ghost use Rattle.std.specs.Prelude.{◌≡◌, ◌≤◌, All, length};
ghost use Rattle.nm_types.specs.Sendable.{IsFrame};

use nm_frag::Told;
use nm_types::{Batch, MAX_FRAME_BYTES, PortId};
use std::alloc::Global;
use std::process::Abort;
use vale_batch::{Compared, Dest, Lists, Lookup, Want, classify};
use vale_learn::Table;

/// From 02:00:00:00:00:0a to all.
const TO_ALL: &[u8] = &[255, 255, 255, 255, 255, 255, 2, 0, 0, 0, 0, 10, 0x88, 0xb5];

/// From 02:00:00:00:00:0b to 02:00:00:00:00:0a.
const TO_A: &[u8] = &[2, 0, 0, 0, 0, 10, 2, 0, 0, 0, 0, 11, 0x88, 0xb5];

/// From 02:00:00:00:00:0a to itself.
const TO_SELF: &[u8] = &[2, 0, 0, 0, 0, 10, 2, 0, 0, 0, 0, 10, 0x88, 0xb5];

/// A frame of three slots to all, whose source is not learned.
const LONG: &[u8] = &[255; 5000];

/// Asserts that the frames are few and not too long.
fn batch_of(rt: &impl Abort, alloc: Global, frames: &[(&[u8], bool)]) -> Batch
    ensures frames { All IsFrame result }
    ensures few { length result ≤ 8 }
{
    assert!(rt; frames.len() <= 8);
    let mut batch = Batch::new(alloc);
    for at in 0..frames.len() {
        let (bytes, no_learn) = frames[at];
        assert!(rt; bytes.len() <= MAX_FRAME_BYTES);
        if batch.push(bytes, no_learn).is_err() {
            panic!(rt; "no memory");
        }
    }
    batch
}

/// A switch with the ports 4, 5 and 6.
#[derive(Drop)]
struct Switch {
    table: Table,
    alloc: Global,
}

impl Switch {
    fn new(rt: &impl Abort, alloc: Global) -> Switch {
        match Table::new(alloc) {
            Ok(table) => Switch { table, alloc },
            Err(_) => panic!(rt; "no memory"),
        }
    }

    /// Sends frames from a port. Asserts how many ports want some, and how many frames are short
    /// and how many lone.
    fn send(
        &mut self,
        rt: &impl Abort,
        from: u32,
        frames: &[(&[u8], bool)],
        counts: (usize, u32, u32),
    ) -> Lists {
        let batch = batch_of(rt, self.alloc, frames);
        let ports = [PortId(4), PortId(5), PortId(6)];
        let Ok(lists) = classify(self.alloc, &mut self.table, &ports, PortId(from), &batch) else {
            panic!(rt; "no memory");
        };
        count(rt, &lists, counts);
        lists
    }

    /// The port to which all of some frames from a port go, each to it alone.
    fn sole(&mut self, rt: &impl Abort, from: u32, frames: &[(&[u8], bool)]) -> Option<PortId> {
        let batch = batch_of(rt, self.alloc, frames);
        match Lookup::new(
            self.alloc,
            &mut self.table,
            PortId(from),
            &Compared::new(&batch),
        ) {
            Ok(lookup) => lookup.sole(),
            Err(_) => panic!(rt; "no memory"),
        }
    }
}

/// Whether so many frames go to a port.
fn is_dest(dest: &Dest, to: u32, count: usize) -> bool {
    dest.to == PortId(to) && dest.count as usize == count
}

/// So many ports want some, and so many frames are short and lone.
fn count(rt: &impl Abort, lists: &Lists, counts: (usize, u32, u32)) {
    assert!(rt; lists.len() == counts.0 && lists.short() == counts.1 && lists.lone() == counts.2);
}

/// Whether the frames of a want take so many slots.
fn are_sizes(want: &Want, sizes: &[u32]) -> bool {
    match want.sizes.told() {
        Told::Ones(count) => sizes.len() == count as usize && sizes.iter().all(|size| *size == 1),
        Told::Each(all) => all == sizes,
    }
}

/// Whether the i-th port that wants some is `to`, and wants these frames.
fn wants(
    rt: &impl Abort,
    alloc: Global,
    lists: &Lists,
    i: usize,
    to: u32,
    places: &[u32],
    sizes: &[u32],
) -> bool {
    assert!(rt; i < lists.len());
    let Ok(want) = lists.want(alloc, i) else {
        panic!(rt; "no memory");
    };
    is_dest(&lists.dest(i), to, places.len())
        && want.to == PortId(to)
        && want.places.as_slice() == places
        && are_sizes(&want, sizes)
}

#[test]
fn learned_before_looked_up(rt: HostRuntime) {
    let mut switch = Switch::new(&rt, rt.alloc());
    switch.send(&rt, 4, &[(TO_ALL, true)], (2, 0, 0));
    let unlearned = switch.send(&rt, 5, &[(TO_A, false)], (2, 0, 0));
    assert!(rt; wants(&rt, rt.alloc(), &unlearned, 1, 6, &[0], &[1]));
    let own = [(TO_SELF, false), (&TO_ALL[..13], false)];
    switch.send(&rt, 4, &own, (0, 1, 1));
    let frames = [
        (TO_A, false),
        (LONG, false),
        (&TO_A[..13], false),
        (TO_A, false),
    ];
    let mixed = switch.send(&rt, 5, &frames, (2, 1, 0));
    assert!(rt; wants(&rt, rt.alloc(), &mixed, 0, 4, &[0, 1, 3], &[1, 3, 1]));
    assert!(rt; wants(&rt, rt.alloc(), &mixed, 1, 6, &[1], &[3]));
}

#[test]
fn all_frames_to_one_port(rt: HostRuntime) {
    let mut switch = Switch::new(&rt, rt.alloc());
    switch.send(&rt, 4, &[(TO_SELF, false)], (0, 0, 1));
    let frames = [(TO_A, false), (TO_A, false)];
    let sent = switch.send(&rt, 5, &frames, (1, 0, 0));
    assert!(rt; wants(&rt, rt.alloc(), &sent, 0, 4, &[0, 1], &[1, 1]));
    assert!(rt; switch.sole(&rt, 5, &frames) == Some(PortId(4)));
    let mixed = [(TO_A, false), (TO_ALL, true)];
    assert!(rt; switch.sole(&rt, 5, &mixed).is_none());
    assert!(rt; switch.sole(&rt, 5, &[]).is_none());
}

#[test]
fn forgotten_batch_taught_nothing(rt: HostRuntime) {
    let mut switch = Switch::new(&rt, rt.alloc());
    let frames = [(TO_ALL, false), (TO_A, false)];
    let refused = switch.send(&rt, 4, &frames, (2, 0, 1));
    refused.forget(&mut switch.table);
    switch.send(&rt, 5, &[(TO_A, false)], (2, 0, 0));
}

/// What a port knows of itself is no news, and a forgotten batch leaves it.
#[test]
fn known_sender_stays_known(rt: HostRuntime) {
    let mut switch = Switch::new(&rt, rt.alloc());
    switch.send(&rt, 4, &[(TO_SELF, false)], (0, 0, 1));
    let refused = switch.send(&rt, 4, &[(TO_SELF, false)], (0, 0, 1));
    refused.forget(&mut switch.table);
    let frame = (TO_A, false);
    let frames = [frame, frame, frame, frame, frame, frame];
    let sent = switch.send(&rt, 5, &frames, (1, 0, 0));
    assert!(rt; wants(&rt, rt.alloc(), &sent, 0, 4, &[0, 1, 2, 3, 4, 5], &[1; 6]));
}
