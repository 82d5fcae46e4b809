ghost use Rattle.std.specs.Prelude.{◌≡◌, ◌<◌, ◌≤◌, ℕ, None, length, IfOk};
ghost use Rattle.nm_io.specs.Counts.{Rose};

use crate::raw::{read_part, write_part};
use crate::{Failed, RawRead, RawWrite, Shelf};
use arrayvec::ArrayString;
use std::fs::OpenOptions;
use std::io::{Read, Seek, SeekFrom, Write};
use std::rt::Files;
use std::{fs, io};

/// The most bytes of a path. The system takes no longer one.
const MAX_PATH: usize = 4096;

/// The files of the system, by their paths. It does not tell what they hold. A file that is read
/// must be one that can be read from any byte, so not a pipe.
///
/// A file is opened when its first bytes are read, and read on, whatever its path names meanwhile,
/// until it has no more bytes or another one is read. One that is appended to stays open until
/// another is appended to. Both are closed with the shelf, or at a failure. What the system tells
/// only when a file is closed is not heard, and nothing is synced to a disk.
#[derive(Drop)]
pub struct FileShelf<R: Files + Drop> {
    rt: R,
    reading: Option<OpenFile<R::File>>,
    appending: Option<OpenFile<R::File>>,
    faults: u64,
}

impl<R: Files + Drop> FileShelf<R> {
    /// Files opened by the runtime `rt`, as `&rt` of `main`.
    pub fn new(rt: R) -> Self {
        FileShelf {
            rt,
            reading: None,
            appending: None,
            faults: 0,
        }
    }

    /// The file of this path, to be read from its byte `at` on.
    fn file_to_read(&mut self, path: &str, at: u64) -> Option<OpenFile<R::File>>
        ensures { self.new.faults ≡ self.old.faults }
    {
        let kept = take_of(&mut self.reading, path);
        if at > 0 && kept.is_some() {
            return kept;
        }
        OpenFile::of(path, fs::open(&self.rt, path))
    }

    /// The file of this path, to be appended to.
    fn file_to_append(&mut self, path: &str) -> Option<OpenFile<R::File>>
        ensures { self.new.faults ≡ self.old.faults }
    {
        let kept = take_of(&mut self.appending, path);
        if kept.is_some() {
            return kept;
        }
        let opened = OpenOptions::new()
            .append(true)
            .create(true)
            .open(&self.rt, path);
        OpenFile::of(path, opened)
    }

    /// Counts a call that failed.
    fn fault(&mut self) -> Failed
        ensures later { self.old.faults ≤ self.new.faults }
        ensures rose { Rose self.old.faults self.new.faults }
    {
        self.faults = self.faults.saturating_add(1);
        Failed
    }
}

/// A file of the system that is open, and the path that it was opened by. It does not tell what it
/// holds.
#[derive(Drop)]
struct OpenFile<F: Drop> {
    path: ArrayString<MAX_PATH>,
    file: F,
}

impl<F: Drop> OpenFile<F> {
    /// The file that was opened by this path, if it was.
    fn of(path: &str, opened: io::Result<F>) -> Option<Self> {
        match (ArrayString::from(path), opened) {
            (Ok(path), Ok(file)) => Some(OpenFile { path, file }),
            _ => None,
        }
    }
}

/// Takes the file that is kept, which is closed if it was not opened by this path.
fn take_of<F: Drop>(kept: &mut Option<OpenFile<F>>, path: &str) -> Option<OpenFile<F>> {
    let open = kept.take()?;
    if open.path.as_str() == path {
        Some(open)
    } else {
        None
    }
}

impl<F: Write + Drop> RawWrite for OpenFile<F> {
    ghost written = { λ _. None };

    fn write_once(&mut self, bytes: &[u8]) -> io::Result<usize> {
        self.file.write(bytes)
    }
}

impl<F: Read + Seek + Drop> RawRead for OpenFile<F> {
    ghost contents = { λ _. None };

    ghost place = { λ _. 0 };

    fn seek_to(&mut self, at: u64) -> io::Result<()> {
        self.file.seek(SeekFrom::Start(at))?;
        Ok(())
    }

    fn read_once(&mut self, room: &mut [u8]) -> io::Result<usize> {
        self.file.read(room)
    }
}

impl<R: Files + Drop> Shelf for FileShelf<R> {
    ghost files = { λ _. None };

    ghost read_faults = { λ s _. s.faults };

    ghost append_faults = { λ s _. s.faults };

    fn read(&mut self, name: &str, at: u64, room: &mut [u8]) -> Result<usize, Failed> {
        if let Some(mut open) = self.file_to_read(name, at)
            && let Ok(count) = read_part(&mut open, at, room)
        {
            if count > 0 {
                self.reading = Some(open);
            }
            return Ok(count);
        }
        Err(self.fault())
    }

    fn append(&mut self, name: &str, bytes: &[u8]) -> Result<usize, Failed> {
        if let Some(mut open) = self.file_to_append(name)
            && let Ok(count) = write_part(&mut open, bytes)
        {
            self.appending = Some(open);
            return Ok(count);
        }
        Err(self.fault())
    }
}
