ghost use Rattle.std.specs.Prelude.{◌≡◌, ◌<◌, ◌≤◌, ℕ, List, length, Option, Some};
ghost use Rattle.std.specs.Prelude.{IfOk, OnOk, OnErr, IfSome};
ghost use Rattle.nm_io.specs.Files.{ReadsPart};
ghost use Rattle.nm_io.specs.Held.{GrewBy};

use crate::Failed;
use std::io;
use std::io::ErrorKind;

/// A place that bytes are written to by single calls of the system, which may write fewer bytes
/// than they were given, or be interrupted.
pub trait RawWrite {
    /// What was written so far, if it tells.
    ghost written: { Self → Option (List ℕ) };

    /// Writes some of `bytes`, from the first on, by one call, and returns how many.
    fn write_once(&mut self, bytes: &[u8]) -> io::Result<usize>
        ensures within { IfOk result (λ n. n ≤ length bytes.now) }
        ensures grown { IfOk result (GrewBy (written self.old) (written self.new) bytes.now) }
        ensures err { OnErr result (written self.new ≡ written self.old) };
}

/// An open file that is read by single calls of the system, which may read fewer bytes than there
/// is room for, or be interrupted.
pub trait RawRead {
    /// The contents of the file, if it tells.
    ghost contents: { Self → Option (List ℕ) };

    /// The place in the file, in bytes, from which the next call reads.
    ghost place: { Self → ℕ };

    /// Moves to the byte `at`, which may be past the end.
    fn seek_to(&mut self, at: u64) -> io::Result<()>
        ensures contents { contents self.new ≡ contents self.old }
        ensures place { OnOk result (IfSome (contents self.old) (λ _. place self.new ≡ at)) };

    /// Copies bytes from the place on to the front of `room` by one call, and returns how many.
    fn read_once(&mut self, room: &mut [u8]) -> io::Result<usize>
        ensures within { IfOk result (λ n. n ≤ length room.old) }
        ensures reads { IfOk result (λ n. IfSome (contents self.old)
            (λ all. ReadsPart (Some all) (place self.old) n room.new)) }
        ensures contents { contents self.new ≡ contents self.old }
        ensures err { OnErr result (place self.new ≡ place self.old) };
}

/// Writes some of `bytes`, from the first on, and returns how many: at least one, if there is any.
/// It repeats interrupted calls; a call that writes none of the bytes is a failure.
pub(crate) fn write_part<W: RawWrite>(to: &mut W, bytes: &[u8]) -> Result<usize, Failed>
    ensures within { IfOk result (λ n. n ≤ length bytes.now) }
    ensures moves { IfOk result (λ n. 0 < length bytes.now → 0 < n) }
    ensures grown { IfOk result (GrewBy (W.written to.old) (W.written to.new) bytes.now) }
    ensures err { OnErr result (W.written to.new ≡ W.written to.old) }
{
    'tries: for _ in 0..u64::MAX {
        match to.write_once(bytes) {
            Ok(count) if count > 0 || bytes.is_empty() => return Ok(count),
            Ok(_) => break,
            Err(error) if error.kind() == ErrorKind::Interrupted => {}
            Err(_) => break,
        }
    }
    Err(Failed)
}

/// Copies bytes of a file, from its byte `at` on, to the front of `room`, and returns how many:
/// none only if `at` is at or past the end, or `room` is empty. It repeats interrupted calls.
pub(crate) fn read_part<F: RawRead>(from: &mut F, at: u64, room: &mut [u8]) -> Result<usize, Failed>
    ensures within { IfOk result (λ n. n ≤ length room.old) }
    ensures reads { IfOk result (λ n. IfSome (F.contents from.old)
        (λ all. ReadsPart (Some all) at n room.new)) }
    ensures contents { F.contents from.new ≡ F.contents from.old }
{
    if from.seek_to(at).is_err() {
        return Err(Failed);
    }
    'tries: for _ in 0..u64::MAX {
        match from.read_once(room) {
            Ok(count) => return Ok(count),
            Err(error) if error.kind() == ErrorKind::Interrupted => {}
            Err(_) => break,
        }
    }
    Err(Failed)
}
