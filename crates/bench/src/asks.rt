use crate::text;
use nm_io::StdSink;
use nm_types::{Limits, MAX_POOL};
use std::alloc::{Alloc, Global};
use std::fs::{self, Files};
use std::io::{self, Print};
use vale_drive::Drive;
use vale_entry::{Ask, Entry, Reply};

/// The ask of an entry. A put offers the frames that its reply took, since no others are stored.
fn ask_of(entry: Entry) -> Ask {
    match (entry.ask, entry.reply) {
        (Ask::PutKept { port, .. }, Reply::Took { items, .. }) => Ask::Put {
            port,
            offered: items,
        },
        (ask, _) => ask,
    }
}

/// Serves asks one after another, and prints how each is answered.
fn serve<R: Print>(rt: &R, drive: &mut Drive, entries: Vec<Entry>) -> io::Result<()> {
    for entry in entries {
        match drive.apply(&ask_of(entry)) {
            Ok(None) => println!(rt; "none")?,
            Ok(Some(Reply::LeasesOut { n })) => println!(rt; "waits {n}")?,
            Ok(Some(_)) => println!(rt; "made")?,
            Err(_) => return Err(io::ErrorKind::OutOfMemory.into()),
        }
    }
    Ok(())
}

/// The entries of a file, and the number that a word names.
fn asked<R: Files + Alloc>(
    rt: &R,
    alloc: Global,
    path: Option<String>,
    pool: Option<String>,
) -> Option<(Vec<Entry>, u32)> {
    let text = fs::read(rt, &path?).ok()?;
    let entries = text::entries_of(alloc, &text)?;
    Some((entries, pool?.parse().ok()?))
}

/// Reads a transcript whose entries are asks for a drive with so many buffers, serves them, closes
/// the drive and prints its transcript.
pub fn run<R: Print + Files + Alloc>(
    rt: &R,
    alloc: Global,
    path: Option<String>,
    pool: Option<String>,
) -> io::Result<()> {
    let Some((entries, pool)) = asked(rt, alloc, path, pool) else {
        return Err(io::ErrorKind::InvalidInput.into());
    };
    if pool < 1 || pool > MAX_POOL {
        return Err(io::ErrorKind::InvalidInput.into());
    }
    let Ok(mut drive) = Drive::new(alloc, pool, Limits::VERSION_2) else {
        return Err(io::ErrorKind::OutOfMemory.into());
    };
    let served = serve(rt, &mut drive, entries);
    let history = drive.close();
    served?;
    if text::write(alloc, &mut StdSink::new(rt), pool, history.entries()) {
        Ok(())
    } else {
        Err(io::ErrorKind::OutOfMemory.into())
    }
}
