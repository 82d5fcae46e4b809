//! The captures that a script plays.
ghost use Rattle.std.specs.Prelude.{◌≡◌, ◌≤◌, ◌↔◌, ℕ, List, [], map, IfOk, IfErr, IsTrue};
ghost use Rattle.vale_captures.specs.Counts.{CountsRise};
ghost use Rattle.vale_captures.specs.Faults.{fault_of_read, fault_of_capture};
ghost use Rattle.vale_captures.specs.declared.inputs.InputFault.TheVariants as faults;
ghost use Rattle.vale_captures.specs.Inputs.{captured, records_in, IsInput, AreInputs, BlamesFile, StopsReading};

use nm_io::{ReadError, Shelf, read_all};
use pcap_io::{PcapFault, Record, read};
use std::alloc::{AllocError, Global};
use std::marker::Model;
use vale_script::ScriptWord;

/// A file that a script plays, with the records of its capture.
#[derive(Drop)]
pub struct Input {
    pub name: String,
    pub records: Vec<Record>,
}

impl Model for Input {
    ghost use Rattle.std.specs.Prelude.{map, string_bytes};
    ghost use Rattle.vale_captures.specs.Inputs.{InputFile, captured};

    ghost Value = { InputFile };

    ghost view = { λ i. record { file = string_bytes i.name; frames = map captured i.records.items } };
}

/// All files that a script plays, in the order of their first `play` lines.
#[derive(Drop)]
pub struct Inputs {
    files: Vec<Input>,
}

impl Model for Inputs {
    ghost use Rattle.std.specs.Prelude.{List};
    ghost use Rattle.vale_captures.specs.Inputs.{InputFile};

    ghost Value = { List InputFile };

    ghost view = { λ i. i.files.items };
}

impl From<Vec<Input>> for Inputs {
    ghost from_gives = { λ files inputs. inputs ≡ files.items };

    fn from(files: Vec<Input>) -> Self {
        Inputs { files }
    }
}

impl Inputs {
    /// Whether there is no file.
    pub(crate) fn is_empty(&self) -> bool
        ensures { IsTrue result ↔ (self.now ≡ []) }
    {
        self.files.is_empty()
    }

    /// The records of a file; none if it is not among the files.
    pub fn records(&self, file: &str) -> &[Record]
        ensures { map captured result.now ≡ records_in self.now file.now }
    {
        for input in &self.files {
            if input.name.as_str() == file {
                return &input.records;
            }
        }
        &[]
    }
}

/// Why a file that a script plays was not read.
#[derive(Clone, Copy, Debug, PartialEq, Eq)]
pub enum InputFault {
    /// A read failed.
    Failed,
    /// With it the files have more bytes together than the limit.
    TooLong,
    /// Its bytes are no capture.
    BadPcap { fault: PcapFault },
    /// Out of memory.
    NoMemory,
}

impl From<ReadError> for InputFault {
    ghost from_gives = { λ error fault. fault ≡ fault_of_read error };

    fn from(error: ReadError) -> Self {
        match error {
            ReadError::TooLong => InputFault::TooLong,
            ReadError::Failed => InputFault::Failed,
            ReadError::NoMemory => InputFault::NoMemory,
        }
    }
}

impl From<PcapFault> for InputFault {
    ghost from_gives = { λ fault input. input ≡ fault_of_capture fault };

    fn from(fault: PcapFault) -> Self {
        match fault {
            PcapFault::NoMemory => InputFault::NoMemory,
            _ => InputFault::BadPcap { fault },
        }
    }
}

impl From<AllocError> for InputFault {
    ghost from_gives = { λ _ fault. fault ≡ faults.NoMemory };

    fn from(_: AllocError) -> Self {
        InputFault::NoMemory
    }
}

/// Reads a file of at most `left` bytes, and judges it. Answers also how many bytes it has.
fn read_input<S: Shelf>(
    alloc: Global,
    shelf: &mut S,
    name: &str,
    left: u64,
) -> Result<(Input, u64), InputFault>
    ensures read { IfOk result (λ read. IsInput (S.files shelf.old) name.now read.0 read.1) }
    ensures within { IfOk result (λ read. read.1 ≤ left) }
    ensures blames { IfErr result (BlamesFile (S.files shelf.old) name.now left
        (S.read_faults shelf.old name.now) (S.read_faults shelf.new name.now)) }
    ensures files { S.files shelf.new ≡ S.files shelf.old }
    ensures later { CountsRise S.Shelf shelf.old shelf.new }
{
    let bytes = read_all(alloc, shelf, name, left)?;
    let records = read(alloc, &bytes)?;
    let name = String::from_str(alloc, name)?;
    Ok((Input { name, records }, bytes.len() as u64))
}

/// Reads the files of these names and judges each, one after another. They may have `limit` bytes
/// together. If that fails, answers at which file, counted from 0.
pub fn read_inputs<S: Shelf>(
    alloc: Global,
    shelf: &mut S,
    names: &[ScriptWord],
    limit: u64,
) -> Result<Inputs, (usize, InputFault)>
    ensures read { IfOk result (λ inputs.
        (size : ℕ) × (AreInputs (S.files shelf.old) names.now inputs size × (size ≤ limit))) }
    ensures stops { IfErr result (StopsReading (S.files shelf.old) names.now limit
        (λ name. (S.read_faults shelf.old name, S.read_faults shelf.new name))) }
    ensures files { S.files shelf.new ≡ S.files shelf.old }
    ensures reads_later { (other : List ℕ) →
        S.read_faults shelf.old other ≤ S.read_faults shelf.new other }
    ensures appends_later { (other : List ℕ) →
        S.append_faults shelf.old other ≤ S.append_faults shelf.new other }
{
    let mut files = Vec::new(alloc);
    let mut left = limit;
    for (at, name) in names.iter().enumerate() {
        let input = match read_input(alloc, shelf, name.as_str(), left) {
            Ok((input, size)) => {
                left -= size;
                input
            }
            Err(fault) => return Err((at, fault)),
        };
        match files.push(input) {
            Ok(()) => {}
            Err(_) => return Err((at, InputFault::NoMemory)),
        }
    }
    Ok(Inputs::from(files))
}
