//! Files, and standard input beside them.
ghost use Rattle.std.specs.Prelude.{◌≡◌, ◌≤◌, None, length, IfOk, OnErr};
ghost use Rattle.nm_io.specs.Counts.{Rose};
ghost use Rattle.vale_show.specs.Desk.{faults_of};

use nm_io::{Failed, Shelf};
use std::io::{ErrorKind, Read};

/// A shelf that has standard input under the name `-`, whose bytes are read in their order whatever
/// place is asked for. It does not tell what it holds.
#[derive(Drop)]
pub(crate) struct Desk<S: Shelf + Drop, I: Read + Drop> {
    files: S,
    input: I,
    faults: u64,
}

impl<S: Shelf + Drop, I: Read + Drop> Desk<S, I> {
    pub(crate) fn new(files: S, input: I) -> Self {
        Desk {
            files,
            input,
            faults: 0,
        }
    }

    /// Reads the next bytes of standard input. It repeats interrupted calls.
    fn read_input(&mut self, room: &mut [u8]) -> Result<usize, Failed>
        ensures within { IfOk result (λ n. n ≤ length room.old) }
        ensures files { self.new.files ≡ self.old.files }
        ensures later { self.old.faults ≤ self.new.faults }
        ensures cause { OnErr result (Rose self.old.faults self.new.faults) }
    {
        'tries: for _ in 0..u64::MAX {
            match self.input.read(room) {
                Ok(count) => return Ok(count),
                Err(error) if error.kind() == ErrorKind::Interrupted => {}
                Err(_) => break,
            }
        }
        self.faults = self.faults.saturating_add(1);
        Err(Failed)
    }
}

impl<S: Shelf + Drop, I: Read + Drop> Shelf for Desk<S, I> {
    ghost files = { λ _. None };

    ghost read_faults = { λ d name. faults_of d.faults (S.read_faults d.files) name };

    ghost append_faults = { λ d name. S.append_faults d.files name };

    fn read(&mut self, name: &str, at: u64, room: &mut [u8]) -> Result<usize, Failed> {
        if name == "-" {
            self.read_input(room)
        } else {
            self.files.read(name, at, room)
        }
    }

    fn append(&mut self, name: &str, bytes: &[u8]) -> Result<usize, Failed> {
        self.files.append(name, bytes)
    }
}
