//! The files that a script saves, once all its users have left.
ghost use Rattle.std.specs.Prelude.{ℕ, List, ◌≡◌, ◌==◌, ◌++◌, [], ◌∷◌, find, map, flat_map, Some, OnOk, IfOk};
ghost use Rattle.std.specs.List.{AllByRecursion};
ghost use Rattle.std.specs.Option.{option_copied};
ghost use Rattle.vale_act.specs.Words.{AreWhole, Entry, IsShortRecord, IsWritable, Keeps, KeepsAll};
ghost use Rattle.vale_act.specs.Words.{KeptFrames};
ghost use Rattle.vale_act.specs.Words.{Machine, act_of, acts_of_unit, saved_file, saves_of};
ghost use Rattle.vale_act.specs.Outputs.{output_of, outputs_of};
ghost use Rattle.vale_act.specs.SavedActs.{note_of, Adds, name_of_save, names_of_acts, names_saved};

use nm_types::{Name, NoMemory, PortId};
use pcap_io::Record;
use std::alloc::Global;
use vale_captures::{Outputs, Saved};
use vale_player::{KeptPort, SaveFile};
use vale_script::{Act, Line, Script, ScriptWord, Unit};

/// The first of these notes that names a file.
fn save_of<'a>(saves: &'a [SaveFile], file: &ScriptWord) -> Option<&'a SaveFile>
    ensures { option_copied result ≡ note_of saves.now file.now }
{
    saves
        .iter()
        .find(|save| save.file.as_str() == file.as_str())
}

/// What is kept of a port.
fn kept_of<'a>(kept: &'a [KeptPort], port: PortId) -> Option<&'a KeptPort>
    ensures { option_copied result ≡ find (λ (one : KeptFrames). one.id == port.0) kept.now }
{
    kept.iter().find(|one| one.port.0 == port.0)
}

/// A copy of a record.
fn copy_record(alloc: Global, one: &Record) -> Result<Record, NoMemory>
    ensures { IfOk result (λ made. made ≡ one.now) }
{
    let mut bytes = Vec::new(alloc);
    bytes.extend_from_slice(one.bytes.as_slice())?;
    Ok(Record {
        seconds: one.seconds,
        fraction: one.fraction,
        original: one.original,
        bytes: bytes.into(),
    })
}

/// A copy of records.
fn copy_records(alloc: Global, records: &[Record]) -> Result<Vec<Record>, NoMemory>
    ensures { IfOk result (λ made. made.items ≡ records.now) }
{
    let mut copies = Vec::new(alloc);
    for one in records {
        copies.push(copy_record(alloc, one)?)?;
    }
    Ok(copies)
}

/// A file with these records, each of which can be written.
fn file_with(alloc: Global, file: &ScriptWord, records: &[Record]) -> Result<Saved, NoMemory>
    requires { AllByRecursion IsShortRecord records.now }
    ensures made { IfOk result (λ made. made
        ≡ record { file = file.now; records = records.now }) }
    ensures writable { IfOk result IsWritable }
{
    let name = String::from_str(alloc, file.as_str())?;
    let records = copy_records(alloc, records)?;
    Ok(Saved { name, records })
}

/// The file of a note, with all frames that its port gave, which is among those that are kept.
fn output_of(alloc: Global, save: &SaveFile, kept: &[KeptPort]) -> Result<Saved, NoMemory>
    requires { Keeps (Some kept.now) save.now.port.0 }
    ensures made { IfOk result (λ made. (pool : ℕ) (history : List Entry)
        → AreWhole pool history kept.now
        → made ≡ output_of (saved_file pool history save.now)) }
    ensures writable { IfOk result IsWritable }
{
    match kept_of(kept, save.port) {
        Some(one) => file_with(alloc, &save.file, one.records.as_slice()),
        None => unreachable!(),
    }
}

/// What the files of a script are made of, once all its users have left.
#[derive(Drop)]
struct Notes<'k> {
    alloc: Global,
    /// The notes of its users, in the order of their numbers.
    saves: &'k [SaveFile],
    /// What was kept of their ports.
    kept: &'k [KeptPort],
}

impl<'k> Notes<'k> {
    /// Puts the file that a line saves behind others, if its port was open.
    fn add_act(&self, act: &Act, outputs: &mut Vec<Saved>) -> Result<(), NoMemory>
        requires { KeepsAll (Some self.now.kept.now) self.now.saves.now }
        ensures { Adds self.now (act.now ∷ []) outputs.old.items outputs.new.items result }
    {
        let Act::Save { name: _, file } = act else {
            return Ok(());
        };
        let Some(save) = save_of(self.saves, file) else {
            return Ok(());
        };
        outputs.push(output_of(self.alloc, save, self.kept)?)?;
        Ok(())
    }

    /// Puts the files that these lines save behind others.
    fn add_lines(&self, lines: &[Line], outputs: &mut Vec<Saved>) -> Result<(), NoMemory>
        requires { KeepsAll (Some self.now.kept.now) self.now.saves.now }
        ensures { Adds self.now (map act_of lines.now) outputs.old.items outputs.new.items result }
    {
        for line in lines {
            self.add_act(&line.act, outputs)?;
        }
        Ok(())
    }

    /// Puts the files that a unit's lines save behind others.
    fn add_unit(&self, unit: &Unit, outputs: &mut Vec<Saved>) -> Result<(), NoMemory>
        requires { KeepsAll (Some self.now.kept.now) self.now.saves.now }
        ensures { Adds self.now (acts_of_unit unit.now) outputs.old.items outputs.new.items result }
    {
        match unit {
            Unit::Single { line } => self.add_act(&line.act, outputs),
            Unit::Block { lines } => self.add_lines(lines.as_slice(), outputs),
        }
    }

    /// Puts the files that these units save behind others.
    fn add_units(&self, units: &[Unit], outputs: &mut Vec<Saved>) -> Result<(), NoMemory>
        requires { KeepsAll (Some self.now.kept.now) self.now.saves.now }
        ensures { Adds self.now (flat_map acts_of_unit units.now) outputs.old.items
            outputs.new.items result }
    {
        for unit in units {
            self.add_unit(unit, outputs)?;
        }
        Ok(())
    }
}

/// The files that a script saves, in the order of its `save` lines. `saves` are the notes of its
/// users, in the order of their numbers, and `kept` is what was kept of their ports; the ports of all
/// notes are among these.
pub fn outputs<'k>(
    alloc: Global,
    script: &Script,
    saves: &'k [SaveFile],
    kept: &'k [KeptPort],
) -> Result<Outputs, NoMemory>
    requires { KeepsAll (Some kept.now) saves.now }
    ensures made { IfOk result (λ made. (history : List Entry) (users : List Machine)
        → saves_of users ≡ saves.now → AreWhole script.now.pool history kept.now
        → made ≡ outputs_of script.now history users) }
    ensures writable { IfOk result (λ made. AllByRecursion IsWritable made) }
{
    let mut files = Vec::new(alloc);
    let notes = Notes { alloc, saves, kept };
    notes.add_units(script.units(), &mut files)?;
    Ok(files.into())
}

/// The name of the port that a line saves.
fn name_saved(act: &Act) -> Option<Name>
    ensures { result ≡ name_of_save act.now }
{
    match act {
        Act::Save { name, file: _ } => Some(*name),
        _ => None,
    }
}

/// Puts the name of the port that a line saves behind others.
fn add_name(act: &Act, names: &mut Vec<Name>) -> Result<(), NoMemory>
    ensures { OnOk result (names.new.items ≡ names.old.items ++ names_of_acts (act.now ∷ [])) }
{
    match name_saved(act) {
        Some(name) => {
            names.push(name)?;
            Ok(())
        }
        None => Ok(()),
    }
}

/// Puts the names of the ports that these lines save behind others.
fn add_names(lines: &[Line], names: &mut Vec<Name>) -> Result<(), NoMemory>
    ensures { OnOk result (names.new.items
        ≡ names.old.items ++ names_of_acts (map act_of lines.now)) }
{
    for line in lines {
        add_name(&line.act, names)?;
    }
    Ok(())
}

/// Puts the names of the ports that a unit's lines save behind others.
fn add_unit_names(unit: &Unit, names: &mut Vec<Name>) -> Result<(), NoMemory>
    ensures { OnOk result (names.new.items
        ≡ names.old.items ++ names_of_acts (acts_of_unit unit.now)) }
{
    match unit {
        Unit::Single { line } => add_name(&line.act, names),
        Unit::Block { lines } => add_names(lines.as_slice(), names),
    }
}

/// The names of the ports whose frames a script saves, in the order of its `save` lines.
pub fn names_saved(alloc: Global, script: &Script) -> Result<Vec<Name>, NoMemory>
    ensures { IfOk result (λ names. names.items ≡ names_saved script.now) }
{
    let mut names = Vec::new(alloc);
    for unit in script.units() {
        add_unit_names(unit, &mut names)?;
    }
    Ok(names)
}
