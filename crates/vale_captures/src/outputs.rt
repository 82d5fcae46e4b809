//! The captures that a script saves.
ghost use Rattle.std.specs.Prelude.{◌≡◌, ◌≤◌, ◌++◌, ℕ, List, [], true, length, OnOk, OnErr, IfOk, IfErr};
ghost use Rattle.std.specs.List.{AllByRecursion};
ghost use Rattle.nm_io.specs.Counts.{Rose};
ghost use Rattle.nm_io.specs.Files.{Appends, AppendsPrefix};
ghost use Rattle.pcap_io.specs.Limits.{most_captured};
ghost use Rattle.pcap_io.specs.Written.{header_text, record_text, capture_text};
ghost use Rattle.vale_captures.specs.Counts.{CountsRise};
ghost use Rattle.vale_captures.specs.declared.outputs.SaveFault.TheVariants as faults;
ghost use Rattle.vale_captures.specs.Outputs.{text_of, all_appended, IsWritable, IsShortRecord, IsFlushed, StopsWriting, has_failed};

use nm_io::{Failed, Shelf, append_all};
use pcap_io::{Record, header, record_head};
use std::alloc::{AllocError, Global};
use std::marker::Model;
use vale_entry::Listed;

/// How many bytes are gathered before they go out.
const PAGE_BYTES: usize = 65_536;

/// A file that a script saves, with the records that go into it.
#[derive(Drop)]
pub struct Saved {
    pub name: String,
    pub records: Vec<Record>,
}

impl Model for Saved {
    ghost use Rattle.std.specs.Prelude.{string_bytes};
    ghost use Rattle.vale_captures.specs.Outputs.{OutputFile};

    ghost Value = { OutputFile };

    ghost view = { λ s. record { file = string_bytes s.name; records = s.records.items } };
}

/// All files that a script saves, in the order of its `save` lines.
pub type Outputs = Listed<Saved>;

/// Why a file was not saved whole.
#[derive(Clone, Copy, Debug, PartialEq, Eq)]
pub enum SaveFault {
    /// An append failed.
    Failed,
    /// Out of memory.
    NoMemory,
}

impl From<Failed> for SaveFault {
    ghost from_gives = { λ _ fault. fault ≡ faults.Failed };

    fn from(_: Failed) -> Self {
        SaveFault::Failed
    }
}

impl From<AllocError> for SaveFault {
    ghost from_gives = { λ _ fault. fault ≡ faults.NoMemory };

    fn from(_: AllocError) -> Self {
        SaveFault::NoMemory
    }
}

/// The front of a capture's bytes, on its way to the end of a file.
#[derive(Drop)]
struct CapturePage {
    bytes: Vec<u8>,
}

impl CapturePage {
    /// A page with the header.
    fn new(alloc: Global) -> Result<CapturePage, AllocError>
        ensures { IfOk result (λ page. page.bytes.items ≡ header_text) }
    {
        let mut bytes = Vec::new(alloc);
        bytes.extend_from_slice(&header())?;
        Ok(CapturePage { bytes })
    }

    /// Puts a record behind what stands there.
    fn put(&mut self, item: &Record) -> Result<(), AllocError>
        requires { length item.now.bytes ≤ most_captured }
        ensures { OnOk result (self.new.bytes.items ≡ self.old.bytes.items
            ++ record_text item.now.seconds item.now.fraction item.now.bytes) }
    {
        let bytes = item.bytes.as_slice();
        self.bytes.extend_from_slice(&record_head(
            item.seconds,
            item.fraction,
            bytes.len() as u32,
        ))?;
        self.bytes.extend_from_slice(bytes)
    }

    /// Appends what stands there to a file.
    fn flush<S: Shelf>(&mut self, shelf: &mut S, name: &str) -> Result<(), Failed>
        ensures appends { Appends (S.files shelf.old) (S.files shelf.new) name.now result
            self.old.bytes.items }
        ensures emptied { OnOk result (self.new.bytes.items ≡ []) }
        ensures later { CountsRise S.Shelf shelf.old shelf.new }
        ensures cause { OnErr result
            (Rose (S.append_faults shelf.old name.now) (S.append_faults shelf.new name.now)) }
    {
        append_all(shelf, name, &self.bytes)?;
        self.bytes.clear();
        Ok(())
    }

    /// Appends it if it is full.
    fn flush_full<S: Shelf>(&mut self, shelf: &mut S, name: &str) -> Result<(), Failed>
        ensures appends { OnOk result (IsFlushed (S.files shelf.old) (S.files shelf.new) name.now
            self.old.bytes.items self.new.bytes.items) }
        ensures part { OnErr result (AppendsPrefix (S.files shelf.old) (S.files shelf.new) name.now
            self.old.bytes.items) }
        ensures later { CountsRise S.Shelf shelf.old shelf.new }
        ensures cause { OnErr result
            (Rose (S.append_faults shelf.old name.now) (S.append_faults shelf.new name.now)) }
    {
        if self.bytes.len() < PAGE_BYTES {
            return Ok(());
        }
        self.flush(shelf, name)
    }
}

/// Appends a capture to its file.
fn write_saved<S: Shelf>(
    alloc: Global,
    shelf: &mut S,
    name: &str,
    records: &[Record],
) -> Result<(), SaveFault>
    requires { AllByRecursion IsShortRecord records.now }
    ensures appends { Appends (S.files shelf.old) (S.files shelf.new) name.now result
        (capture_text records.now) }
    ensures later { CountsRise S.Shelf shelf.old shelf.new }
    ensures cause { IfErr result (λ fault. has_failed fault ≡ true
        → Rose (S.append_faults shelf.old name.now) (S.append_faults shelf.new name.now)) }
{
    let mut page = CapturePage::new(alloc)?;
    for item in records {
        page.put(item)?;
        page.flush_full(shelf, name)?;
    }
    Ok(page.flush(shelf, name)?)
}

impl Saved {
    /// Appends the capture to its file.
    fn write<S: Shelf>(&self, alloc: Global, shelf: &mut S) -> Result<(), SaveFault>
        requires { IsWritable self.now }
        ensures appends { Appends (S.files shelf.old) (S.files shelf.new) self.now.file result
            (text_of self.now) }
        ensures later { CountsRise S.Shelf shelf.old shelf.new }
        ensures cause { IfErr result (λ fault. has_failed fault ≡ true → Rose
            (S.append_faults shelf.old self.now.file) (S.append_faults shelf.new self.now.file)) }
    {
        write_saved(alloc, shelf, self.name.as_str(), &self.records)
    }
}

/// Appends each capture to its file, one after another; makes a file if there is none. A file is
/// begun only once all before it were written whole.
pub fn write_outputs<S: Shelf>(
    alloc: Global,
    shelf: &mut S,
    outputs: &Outputs,
) -> Result<(), SaveFault>
    requires { AllByRecursion IsWritable outputs.now }
    ensures all { OnOk result (S.files shelf.new ≡ all_appended (S.files shelf.old) outputs.now) }
    ensures stops { IfErr result (StopsWriting (S.files shelf.old) (S.files shelf.new) outputs.now
        (λ name. (S.append_faults shelf.old name, S.append_faults shelf.new name))) }
    ensures reads_later { (other : List ℕ) →
        S.read_faults shelf.old other ≤ S.read_faults shelf.new other }
    ensures appends_later { (other : List ℕ) →
        S.append_faults shelf.old other ≤ S.append_faults shelf.new other }
{
    for saved in outputs.as_slice() {
        match saved.write(alloc, shelf) {
            Ok(()) => {}
            Err(fault) => return Err(fault),
        }
    }
    Ok(())
}
