ghost use Rattle.std.specs.Prelude.{◌≡◌, ◌+◌, ◌≤◌, length, take, drop};
ghost use Rattle.std.specs.Int.{w64, to_le_bytes};
ghost use Rattle.vale_batch.specs.Addresses.{is_group};

use nm_types::Mac;

/// The length of the shortest frame that has two addresses and a type.
pub(crate) const HEADER_BYTES: usize = 14;

/// The address that stands at a place of a frame.
pub(crate) fn mac_at(bytes: &[u8], at: usize) -> Mac
    requires { at + 6 ≤ length bytes.now }
    ensures { result.0 ≡ take 6 (drop at bytes.now) }
{
    let mut address = [0; 6];
    address.copy_from_slice(&bytes[at..at + 6]);
    Mac(address)
}

/// Eight bytes of a frame as one number.
pub(crate) fn word_at(bytes: &[u8], at: usize) -> u64
    requires { at + 8 ≤ length bytes.now }
    ensures { to_le_bytes w64 result ≡ take 8 (drop at bytes.now) }
{
    let mut word = [0; 8];
    word.copy_from_slice(&bytes[at..at + 8]);
    u64::from_le_bytes(word)
}

/// Whether this is the address of a group, as the broadcast address is.
pub(crate) fn is_group(address: Mac) -> bool
    ensures { result ≡ is_group address.0 }
{
    address.0[0] % 2 == 1
}
