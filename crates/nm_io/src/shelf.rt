ghost use Rattle.std.specs.Prelude.{◌≡◌, ◌<◌, ◌≤◌, ℕ, List, length, take, Option};
ghost use Rattle.std.specs.Prelude.{IfOk, OnErr, IfSome};
ghost use Rattle.nm_io.specs.Counts.{NoneFell, Rose};
ghost use Rattle.nm_io.specs.Files.{Files, appended_told, ReadsPart};

use crate::Failed;

/// Files by their names.
pub trait Shelf {
    /// The contents of all files, if it tells.
    ghost files: { Self → Option Files };

    /// How many reads of a file failed, up to 2^64 - 1.
    ghost read_faults: { Self → List ℕ → ℕ };

    /// How many appends to a file failed, up to 2^64 - 1.
    ghost append_faults: { Self → List ℕ → ℕ };

    /// Copies bytes of a file, from its byte `at` on, to the front of `room`, and returns how many:
    /// none only if `at` is at or past the end, or `room` is empty. Fails if there is no such file.
    fn read(&mut self, name: &str, at: u64, room: &mut [u8]) -> Result<usize, Failed>
        ensures within { IfOk result (λ n. n ≤ length room.old) }
        ensures reads { IfOk result (λ n.
            IfSome (files self.old) (λ all. ReadsPart (all name.now) at n room.new)) }
        ensures files { files self.new ≡ files self.old }
        ensures reads_later { NoneFell (read_faults self.old) (read_faults self.new) }
        ensures appends_later { NoneFell (append_faults self.old) (append_faults self.new) }
        ensures cause { OnErr result
            (Rose (read_faults self.old name.now) (read_faults self.new name.now)) };

    /// Appends some of `bytes`, from the first on, to a file, and returns how many: at least one,
    /// if there is any. Makes the file if there is none.
    fn append(&mut self, name: &str, bytes: &[u8]) -> Result<usize, Failed>
        ensures within { IfOk result (λ n. n ≤ length bytes.now) }
        ensures moves { IfOk result (λ n. 0 < length bytes.now → 0 < n) }
        ensures grown { IfOk result (λ n.
            files self.new ≡ appended_told (files self.old) name.now (take n bytes.now)) }
        ensures err { OnErr result (files self.new ≡ files self.old) }
        ensures reads_later { NoneFell (read_faults self.old) (read_faults self.new) }
        ensures appends_later { NoneFell (append_faults self.old) (append_faults self.new) }
        ensures cause { OnErr result
            (Rose (append_faults self.old name.now) (append_faults self.new name.now)) };
}
