ghost use Rattle.std.specs.Prelude.{◌≡◌, ◌≤◌};
ghost use Rattle.nm_types.specs.Limits.{most_frame_bytes, most_frame_slots};
ghost use Rattle.nm_types.specs.Parts.{slots_of_length};

use crate::limits::BUFFER_BYTES;

/// The number of slots that a frame of `len` bytes takes, one or more. A frame of no bytes takes one.
#[tactic(auto, using(crate::proofs::PartLemmas::parts))]
pub fn slots(len: usize) -> u32
    requires { len ≤ most_frame_bytes }
    ensures slots { result ≡ slots_of_length len }
    ensures some { 1 ≤ result }
    ensures few { result ≤ most_frame_slots }
{
    if len <= BUFFER_BYTES {
        1
    } else {
        len.div_ceil(BUFFER_BYTES) as u32
    }
}
