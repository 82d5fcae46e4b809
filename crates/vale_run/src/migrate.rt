//! Writes a transcript of either version as one of the version that is written.
ghost use Rattle.std.specs.Prelude.{ℕ, List, ◌≡◌, ◌≤◌, ◌<◌, ◌-◌, ◌^◌, length, map, string_bytes, option_map, IfOk, IfErr};
ghost use Rattle.vale_text.specs.Reading.{IsTextWith, BlamesText};
ghost use Rattle.vale_run.specs.Run.{io_of, CountsRise};
ghost use Rattle.vale_run.specs.Migrate.{text_name, TextEnds, MigrateEnds};
ghost use Rattle.vale_run.specs.Writing.{NamesText, WroteText};

use crate::command::{read_fault, word_behind};
use crate::status::{Status, What};
use nm_io::{ReadError, Shelf, Sink, read_all};
use nm_types::MAX_TEXT;
use std::alloc::Global;
use vale_text::{PutError, Text, TextFault, read_any, write_transcript};

/// The name of the words `migrate FILE`.
pub(crate) fn text_name(words: &[String]) -> Option<&str>
    ensures { option_map (λ name. name.now) result ≡ text_name (map string_bytes words.now) }
{
    word_behind(words, "migrate")
}

/// A file is no transcript.
fn bad_text(alloc: Global, name: &str, line: u32) -> Status
    ensures { NamesText name.now line result }
{
    match String::from_str(alloc, name) {
        Ok(name) => Status::BadText { name, line },
        Err(_) => Status::NoMemory,
    }
}

/// Writes what a transcript tells.
fn write_text<K: Sink>(alloc: Global, text: &Text, out: &mut K) -> Status
    requires { length text.now.entries.items < 2 ^ 32 - 1 }
    ensures wrote { WroteText text.now.pool text.now.entries.items text.now.free (K.faults out.old, K.faults out.new)
        (K.holds out.old) (K.holds out.new) result }
    ensures later { K.faults out.old ≤ K.faults out.new }
{
    match write_transcript(alloc, out, text.pool, &text.entries, text.free) {
        Ok(()) => Status::Done,
        Err(PutError::Failed) => Status::WriteFault,
        Err(PutError::NoMemory) => Status::NoMemory,
    }
}

/// Reads the transcript that these bytes are, and lets them go.
fn read_text(alloc: Global, bytes: Vec<u8>) -> Result<Text, TextFault>
    requires { length bytes.items ≤ MAX_TEXT }
    ensures ok { IfOk result (λ text. IsTextWith 1 bytes.items text.version text.pool text.entries.items text.free) }
    ensures few { IfOk result (λ text. length text.entries.items < length bytes.items) }
    ensures bad { IfErr result (BlamesText 1 bytes.items) }
{
    read_any(alloc, &bytes)
}

/// Migrates the bytes of the file of this name.
fn migrate_text<K: Sink>(alloc: Global, name: &str, bytes: Vec<u8>, out: &mut K) -> Status
    requires { length bytes.items ≤ MAX_TEXT }
    ensures ends { TextEnds bytes.items name.now (K.faults out.old, K.faults out.new)
        (K.holds out.old) (K.holds out.new) result }
    ensures later { K.faults out.old ≤ K.faults out.new }
{
    match read_text(alloc, bytes) {
        Ok(text) => write_text(alloc, &text, out),
        Err(TextFault::BadLine { line }) => bad_text(alloc, name, line),
        Err(TextFault::NoMemory) => Status::NoMemory,
    }
}

/// Migrates the transcript of the file of this name.
pub(crate) fn migrate_file<S: Shelf, K: Sink>(
    alloc: Global,
    name: &str,
    shelf: &mut S,
    out: &mut K,
) -> Status
    ensures ends { MigrateEnds (io_of S.Shelf K.Sink shelf.old shelf.new out.old out.new) name.now result }
    ensures later { CountsRise (io_of S.Shelf K.Sink shelf.old shelf.new out.old out.new) }
{
    match read_all(alloc, shelf, name, MAX_TEXT) {
        Ok(bytes) => migrate_text(alloc, name, bytes, out),
        Err(ReadError::TooLong) => Status::Over {
            what: What::Text,
            count: MAX_TEXT + 1,
            limit: MAX_TEXT,
        },
        Err(ReadError::Failed) => read_fault(alloc, name),
        Err(ReadError::NoMemory) => Status::NoMemory,
    }
}
