//! Reads a transcript, and writes what is asked of it.
ghost use Rattle.std.specs.Prelude.{ℕ, ◌≡◌, ◌≤◌, ◌<◌, ◌-◌, ◌^◌, length, map, string_bytes, option_map, IfOk, IfErr};
ghost use Rattle.vale_words.specs.Words.{are_digits, number_in};
ghost use Rattle.vale_text.specs.Reading.{IsTextWith, BlamesText};
ghost use Rattle.vale_show.specs.Show.{asks_help, help_text, most_number, frame_asked, asked_for, view_text, NamesFile, NamesText, WroteText, EndsText, Ends, Shows};

use crate::frame::add_frame;
use crate::page::Page;
use crate::status::Status;
use crate::summary::add_summary;
use crate::table::add_table;
use nm_io::{Failed, ReadError, Shelf, Sink, put_all, read_all};
use nm_types::{MAX_TEXT, NoMemory};
use std::alloc::Global;
use vale_text::{Text, TextFault, read_any};

/// What is to be shown.
#[derive(Clone, Copy, Debug, PartialEq, Eq)]
pub(crate) enum View {
    /// The summary.
    Summary,
    /// The table of ports.
    Ports,
    /// The frame at this place of this entry, both counted from 1.
    Frame { entry: u32, place: u32 },
}

/// The most digits of a number.
const MAX_DIGITS: usize = 20;

fn are_digits(word: &[u8]) -> bool
    ensures { result ≡ are_digits word.now }
{
    word.iter().all(|b| b.is_ascii_digit())
}

/// The number that a word of digits writes, if it fits 32 bits.
fn number_of(word: &str) -> Option<u32>
    ensures { result ≡ number_in 0 most_number word.now }
{
    if word.len() <= MAX_DIGITS && are_digits(word.as_bytes()) {
        word.parse().ok()
    } else {
        None
    }
}

/// The frame of which two words tell the entry and the place.
fn frame_asked(entry: &str, place: &str) -> Option<View>
    ensures { result ≡ frame_asked (number_in 0 most_number entry.now) (number_in 0 most_number place.now) }
{
    Some(View::Frame {
        entry: number_of(entry)?,
        place: number_of(place)?,
    })
}

/// What the words ask for: of which file, and what.
fn asked_for(words: &[String]) -> Option<(&str, View)>
    ensures { option_map (λ asked. (asked.0.now, asked.1)) result ≡ asked_for (map string_bytes words.now) }
{
    match words {
        [name] => Some((name.as_str(), View::Summary)),
        [name, view] if view.as_str() == "ports" => Some((name.as_str(), View::Ports)),
        [name, view, entry, place] if view.as_str() == "frame" => {
            Some((name.as_str(), frame_asked(entry, place)?))
        }
        _ => None,
    }
}

/// How a run ends that could not read a file.
fn read_fault(alloc: Global, name: &str) -> Status
    ensures { NamesFile name.now result }
{
    match String::from_str(alloc, name) {
        Ok(name) => Status::ReadFault { name },
        Err(_) => Status::NoMemory,
    }
}

/// How a run ends that found no transcript.
fn bad_text(alloc: Global, name: &str, line: u32) -> Status
    ensures { NamesText name.now line result }
{
    match String::from_str(alloc, name) {
        Ok(name) => Status::BadText { name, line },
        Err(_) => Status::NoMemory,
    }
}

const HELP: &str = "usage: vale_show FILE [ports | frame ENTRY PLACE]

  FILE        writes a summary of the transcript FILE, of version 1 or 2; - is standard input
  FILE ports  writes a table of its ports
  FILE frame ENTRY PLACE
              writes what became of a frame of an entry, both counted from 1
";

#[tactic(auto, unfolding(crate::specs::Show::help_text))]
fn help() -> &'static str
    ensures { result.now ≡ help_text }
{
    HELP
}

/// Whether the words ask how the program is used.
fn asks_help(words: &[String]) -> bool
    ensures { result ≡ asks_help (map string_bytes words.now) }
{
    match words {
        [word] => word.as_str() == "--help",
        _ => false,
    }
}

/// What is to be shown of a transcript.
fn page_of(alloc: Global, view: View, text: &Text) -> Result<Page, NoMemory>
    requires { length text.now.entries.items < 2 ^ 32 - 1 }
    ensures { IfOk result (λ page. page.bytes
        ≡ view_text view text.now.version text.now.pool text.now.entries.items text.now.free) }
{
    let mut page = Page::new(alloc);
    match view {
        View::Summary => add_summary(&mut page, alloc, text)?,
        View::Ports => add_table(&mut page, alloc, &text.entries)?,
        View::Frame { entry, place } => {
            add_frame(&mut page, alloc, &text.entries, entry, place)?
        }
    }
    Ok(page)
}

/// Writes a text.
fn write<K: Sink>(out: &mut K, text: &[u8]) -> Status
    ensures { WroteText text.now (K.faults out.old, K.faults out.new)
        (K.holds out.old) (K.holds out.new) result }
{
    match put_all(out, text) {
        Ok(()) => Status::Done,
        Err(Failed) => Status::WriteFault,
    }
}

/// Writes what is to be shown of a transcript.
fn show_text<K: Sink>(alloc: Global, view: View, text: &Text, out: &mut K) -> Status
    requires { length text.now.entries.items < 2 ^ 32 - 1 }
    ensures { WroteText
        (view_text view text.now.version text.now.pool text.now.entries.items text.now.free)
        (K.faults out.old, K.faults out.new) (K.holds out.old) (K.holds out.new) result }
{
    let Ok(page) = page_of(alloc, view, text) else {
        return Status::NoMemory;
    };
    write(out, page.bytes())
}

/// Reads the transcript that these bytes are, and lets them go.
fn read_text(alloc: Global, bytes: Vec<u8>) -> Result<Text, TextFault>
    requires { length bytes.items ≤ MAX_TEXT }
    ensures ok { IfOk result (λ text. IsTextWith 1 bytes.items text.version text.pool text.entries.items text.free) }
    ensures few { IfOk result (λ text. length text.entries.items < length bytes.items) }
    ensures bad { IfErr result (BlamesText 1 bytes.items) }
{
    read_any(alloc, &bytes)
}

/// Shows the bytes of the file of this name.
fn show_bytes<K: Sink>(alloc: Global, name: &str, view: View, bytes: Vec<u8>, out: &mut K) -> Status
    requires { length bytes.items ≤ MAX_TEXT }
    ensures { EndsText view bytes.items name.now (K.faults out.old, K.faults out.new)
        (K.holds out.old) (K.holds out.new) result }
{
    match read_text(alloc, bytes) {
        Ok(text) => show_text(alloc, view, &text, out),
        Err(TextFault::BadLine { line }) => bad_text(alloc, name, line),
        Err(TextFault::NoMemory) => Status::NoMemory,
    }
}

/// Shows the transcript of the file of this name.
fn show_file<S: Shelf, K: Sink>(
    alloc: Global,
    name: &str,
    view: View,
    shelf: &mut S,
    out: &mut K,
) -> Status
    ensures ends { Ends view (S.files shelf.old) name.now
        (S.read_faults shelf.old name.now, S.read_faults shelf.new name.now)
        (K.faults out.old, K.faults out.new) (K.holds out.old) (K.holds out.new) result }
    ensures files { S.files shelf.new ≡ S.files shelf.old }
{
    match read_all(alloc, shelf, name, MAX_TEXT) {
        Ok(bytes) => show_bytes(alloc, name, view, bytes, out),
        Err(ReadError::TooLong) => Status::TooLong,
        Err(ReadError::Failed) => read_fault(alloc, name),
        Err(ReadError::NoMemory) => Status::NoMemory,
    }
}

/// Shows what the words ask for.
pub(crate) fn show<S: Shelf, K: Sink>(
    alloc: Global,
    words: &[String],
    shelf: &mut S,
    out: &mut K,
) -> Status
    ensures shows { Shows (asks_help (map string_bytes words.now)) (asked_for (map string_bytes words.now)) (S.files shelf.old)
        (λ name. (S.read_faults shelf.old name, S.read_faults shelf.new name))
        (K.faults out.old, K.faults out.new) (K.holds out.old) (K.holds out.new) result }
    ensures files { S.files shelf.new ≡ S.files shelf.old }
{
    if asks_help(words) {
        return write(out, help().as_bytes());
    }
    match asked_for(words) {
        Some((name, view)) => show_file(alloc, name, view, shelf, out),
        None => Status::Usage,
    }
}
