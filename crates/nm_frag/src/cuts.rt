ghost use Rattle.std.specs.Prelude.{◌≡◌, ◌+◌, ◌-◌, ◌*◌, ◌<◌, ◌≤◌, min};
ghost use Rattle.nm_types.specs.Limits.{buffer_bytes, most_frame_bytes};
ghost use Rattle.nm_frag.specs.Parts.{slots_of_length};

use nm_types::BUFFER_BYTES;

/// The place and the length of part `k` of a frame of `len` bytes. All parts but the last are full.
#[tactic(auto, using(crate::proofs::PartLemmas::parts))]
pub fn part(len: usize, k: u32) -> (usize, usize)
    requires frame { len ≤ most_frame_bytes }
    requires there { k < slots_of_length len }
    ensures place { result.0 ≡ buffer_bytes * k }
    ensures length { result.1 ≡ min buffer_bytes (len - buffer_bytes * k) }
    ensures within { result.0 + result.1 ≤ len }
    ensures full { k + 1 < slots_of_length len → result.1 ≡ buffer_bytes }
    ensures last { k + 1 ≡ slots_of_length len → result.0 + result.1 ≡ len }
{
    let start = BUFFER_BYTES * k as usize;
    (start, BUFFER_BYTES.min(len - start))
}
