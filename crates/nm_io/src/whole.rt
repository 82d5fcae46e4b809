ghost use Rattle.std.specs.Prelude.{◌≡◌, ◌≤◌, length, Some, IfSome, IfOk, IfErr, OnErr};
ghost use Rattle.nm_io.specs.Counts.{NoneFell, Rose};
ghost use Rattle.nm_io.specs.Files.{Appends};
ghost use Rattle.nm_io.specs.Held.{Writes};
ghost use Rattle.nm_io.specs.Whole.{Blames};

use crate::{Failed, ReadError, Shelf, Sink};
use std::alloc::Global;

/// The most bytes that one call reads.
const PART: usize = 65_536;

/// Writes all of `bytes`, in as many calls as the sink needs. If it fails, a prefix was written.
#[tactic(auto, using(crate::proofs::Growth::growth))]
pub fn put_all<K: Sink>(out: &mut K, bytes: &[u8]) -> Result<(), Failed>
    ensures writes { Writes (K.holds out.old) (K.holds out.new) result bytes.now }
    ensures later { K.faults out.old ≤ K.faults out.new }
    ensures cause { OnErr result (Rose (K.faults out.old) (K.faults out.new)) }
{
    let mut done = 0;
    while done < bytes.len() {
        done += out.put(&bytes[done..])?;
    }
    Ok(())
}

/// Appends all of `bytes` to a file, in as many calls as the shelf needs, and makes the file if
/// there is none. If it fails, a prefix was appended.
#[tactic(auto, using(crate::proofs::Appending::appending))]
pub fn append_all<S: Shelf>(shelf: &mut S, name: &str, bytes: &[u8]) -> Result<(), Failed>
    ensures appends { Appends (S.files shelf.old) (S.files shelf.new) name.now result bytes.now }
    ensures reads_later { NoneFell (S.read_faults shelf.old) (S.read_faults shelf.new) }
    ensures appends_later { NoneFell (S.append_faults shelf.old) (S.append_faults shelf.new) }
    ensures cause { OnErr result
        (Rose (S.append_faults shelf.old name.now) (S.append_faults shelf.new name.now)) }
{
    let mut done = shelf.append(name, bytes)?;
    while done < bytes.len() {
        done += shelf.append(name, &bytes[done..])?;
    }
    Ok(())
}

/// Reads a whole file of at most `limit` bytes.
#[tactic(auto, using(crate::proofs::Parts::parts))]
pub fn read_all<S: Shelf>(
    alloc: Global,
    shelf: &mut S,
    name: &str,
    limit: u64,
) -> Result<Vec<u8>, ReadError>
    ensures ok { IfOk result (λ v.
        IfSome (S.files shelf.old) (λ all. all name.now ≡ Some v.items)) }
    ensures short { IfOk result (λ v. length v.items ≤ limit) }
    ensures err { IfErr result (Blames (S.files shelf.old) name.now limit
        (S.read_faults shelf.old name.now) (S.read_faults shelf.new name.now)) }
    ensures files { S.files shelf.new ≡ S.files shelf.old }
    ensures reads_later { NoneFell (S.read_faults shelf.old) (S.read_faults shelf.new) }
    ensures appends_later { NoneFell (S.append_faults shelf.old) (S.append_faults shelf.new) }
{
    let mut contents = Vec::new(alloc);
    let mut room = [0; PART];
    'parts: loop {
        let at = contents.len() as u64;
        let count = shelf.read(name, at, &mut room)?;
        if count == 0 {
            return Ok(contents);
        }
        if count as u64 > limit - at {
            return Err(ReadError::TooLong);
        }
        contents.extend_from_slice(&room[..count])?;
    }
}
