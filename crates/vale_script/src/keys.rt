//! The users and the ports that the lines so far have named, in tables by their names.
ghost use Rattle.std.specs.Prelude.{◌≡◌, ◌≤◌, length, take, Some, None, OnOk};
ghost use Rattle.nm_types.specs.Names.{IsName};
ghost use Rattle.vale_script.specs.Keys.{packed, numbers_seen, ports_seen};
ghost use Rattle.vale_script.specs.Rules.{port_key};
ghost use Rattle.vale_script.specs.Sound.{IsUserName};
ghost use Rattle.vale_script.specs.Tables.{updated};

use nm_types::{Name, NoMemory};
use std::collections::HashMap;

/// Above each number that eight bytes make.
const EIGHT_BYTES: u128 = 1 << 64;

/// A word of at most eight bytes as one number, with its first byte lowest.
fn packed_few(word: &[u8]) -> u64
    requires { length word.now ≤ 8 }
    ensures { result ≡ packed word.now }
{
    let mut number = 0u64;
    for i in 0..word.len() {
        number = number * 256 + word[word.len() - 1 - i] as u64;
    }
    number
}

/// The first eight bytes of a word as one number.
fn first_eight(word: &[u8]) -> u64
    requires { 8 ≤ length word.now }
    ensures { result ≡ packed (take 8 word.now) }
{
    let mut bytes = [0; 8];
    bytes.copy_from_slice(&word[..8]);
    u64::from_le_bytes(bytes)
}

/// A word of a name as one number, with its first byte lowest: what a table finds it by.
fn packed(word: &[u8]) -> u128
    requires { length word.now ≤ 16 }
    ensures { result ≡ packed word.now }
{
    if word.len() < 8 {
        return packed_few(word) as u128;
    }
    packed_few(&word[8..]) as u128 * EIGHT_BYTES + first_eight(word) as u128
}

/// What a port of a user is found by.
fn port_key(user: &str, name: &Name) -> (u128, u128)
    requires { IsUserName user.now }
    ensures value { result ≡ (packed user.now, packed name.now) }
    ensures named { IsName name.now }
{
    (packed(user.as_bytes()), packed(name.as_bytes()))
}

/// The number of a user, or none if no line has declared it.
pub(crate) fn number_of(numbers: &HashMap<u128, u32>, user: &str) -> Option<u32>
    requires { IsUserName user.now }
    ensures { result ≡ numbers_seen numbers.now user.now }
{
    numbers.get(&packed(user.as_bytes())).copied()
}

/// Keeps the number of a user.
pub(crate) fn set_number(
    numbers: &mut HashMap<u128, u32>,
    user: &str,
    number: u32,
) -> Result<(), NoMemory>
    requires { IsUserName user.now }
    ensures { OnOk result (numbers_seen numbers.new ≡ updated (numbers_seen numbers.old) user.now (Some number)) }
{
    numbers.insert(packed(user.as_bytes()), number)?;
    Ok(())
}

/// Whether a port of a user is saved, or none if it does not stand open.
pub(crate) fn port_of(ports: &HashMap<(u128, u128), bool>, user: &str, name: &Name) -> Option<bool>
    requires { IsUserName user.now }
    ensures { result ≡ ports_seen ports.now (port_key user.now name.now) }
{
    ports.get(&port_key(user, name)).copied()
}

/// Keeps a port of a user that stands open, and whether it is saved.
pub(crate) fn set_port(
    ports: &mut HashMap<(u128, u128), bool>,
    user: &str,
    name: &Name,
    saved: bool,
) -> Result<(), NoMemory>
    requires { IsUserName user.now }
    ensures { OnOk result (ports_seen ports.new
        ≡ updated (ports_seen ports.old) (port_key user.now name.now) (Some saved)) }
{
    ports.insert(port_key(user, name), saved)?;
    Ok(())
}

/// Forgets a port of a user.
pub(crate) fn unset_port(ports: &mut HashMap<(u128, u128), bool>, user: &str, name: &Name)
    requires { IsUserName user.now }
    ensures { ports_seen ports.new ≡ updated (ports_seen ports.old) (port_key user.now name.now) None }
{
    ports.remove(&port_key(user, name));
}
