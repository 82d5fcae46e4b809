ghost use Rattle.std.specs.Prelude.{◌≡◌, ◌≤◌, ◌+◌, ◌++◌, length, map, take, vec_capacity, IfOk};
ghost use Rattle.nm_types.specs.Parts.{slots_of_bytes};
ghost use Rattle.vale_line.specs.Gots.{IsCut, frames_in, joined_parts};
ghost use Rattle.vale_serve.specs.Copies.{AreFrameRooms, IsFrameRoom};
ghost use Rattle.vale_serve.specs.Users.{contents};

use nm_types::BUFFER_BYTES;
use std::alloc::{AllocError, Global};
use std::marker::Model;
use vale_line::Got;

/// Memory for copies of frames of these sizes, in slots.
#[derive(Drop)]
pub(crate) struct CopyRoom {
    sizes: Vec<u32>,
    rooms: Vec<Vec<u8>>,
}

impl Model for CopyRoom {
    ghost use Rattle.std.specs.Prelude.{ℕ, List};

    ghost Value = { List ℕ };

    ghost use Rattle.vale_serve.specs.Copies.{IsCopyRoom};

    ghost view = { λ r. r.sizes.items };

    ghost invariant = { IsCopyRoom };
}

/// Memory for a frame of each of these sizes.
fn frame_rooms(alloc: Global, sizes: &[u32]) -> Result<Vec<Vec<u8>>, AllocError>
    ensures { IfOk result (λ rooms. AreFrameRooms rooms.items sizes.now) }
{
    let mut rooms = Vec::with_capacity(alloc, sizes.len())?;
    for i in 0..sizes.len() {
        let room = BUFFER_BYTES * sizes[i] as usize;
        rooms.push_reserved(Vec::with_capacity(alloc, room)?);
    }
    Ok(rooms)
}

/// Puts bytes behind others, where there is room.
fn append(to: &mut Vec<u8>, bytes: &[u8])
    requires { length to.old.items + length bytes.now ≤ vec_capacity to.old }
    ensures items { to.new.items ≡ to.old.items ++ bytes.now }
    ensures capacity { vec_capacity to.old ≤ vec_capacity to.new }
{
    match to.extend_from_slice(bytes) {
        Ok(()) => {}
        Err(_) => unreachable!(),
    }
}

/// Copies the frame in these buffers into memory that was kept for it.
#[tactic(auto, using(crate::proofs::Copied::joins))]
fn join(to: &mut Vec<u8>, gots: &[Got])
    requires { IsFrameRoom (length gots.now) to.old }
    ensures { to.new.items ≡ joined_parts gots.now }
{
    for i in 0..gots.len() {
        append(to, gots[i].part());
    }
}

impl CopyRoom {
    /// Makes room for copies of frames of these sizes.
    pub(crate) fn new(alloc: Global, sizes: Vec<u32>) -> Result<CopyRoom, AllocError>
        ensures { IfOk result (λ room. room ≡ sizes.items) }
    {
        let rooms = frame_rooms(alloc, &sizes)?;
        Ok(CopyRoom { sizes, rooms })
    }

    /// Copies the first of the frames in these buffers, as many as there is room for.
    pub(crate) fn copy(self, gots: &[Got]) -> Vec<Vec<u8>>
        requires cut { IsCut gots.now }
        requires sizes { self ≡ map slots_of_bytes (take (length self) (frames_in gots.now)) }
        ensures { contents result.items ≡ take (length self) (frames_in gots.now) }
    {
        let CopyRoom { sizes, mut rooms } = self;
        let mut at = 0;
        for i in 0..sizes.len() {
            let end = at + sizes[i] as usize;
            join(&mut rooms[i], &gots[at..end]);
            at = end;
        }
        rooms
    }
}
