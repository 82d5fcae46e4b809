//! Reads a script, line by line.
ghost use Rattle.std.specs.Prelude.{◌≡◌, ◌+◌, ◌-◌, ◌<◌, ◌≤◌, ◌^◌, ◌∷◌, ℕ, List, length, Some, None, Ok, Err, OnOk, IfOk, IfErr, position};
ghost use Rattle.std.specs.Str.Lines.{strip_carriage_return, lines};
ghost use Rattle.vale_script.specs.declared.reader.ScriptFault.TheVariants.{NoMemory as OutOfMemory};
ghost use Rattle.std.specs.Option.{IfNone};
ghost use Rattle.vale_script.specs.Counts.{is_open};
ghost use Rattle.vale_script.specs.Drafts.{draft_of};
ghost use Rattle.vale_script.specs.Keeps.{IsSoundDraft};
ghost use Rattle.vale_script.specs.Sound.{IsSound};
ghost use Rattle.vale_script.specs.Grammar.{script_of, after_line, is_line_feed, BlamesLine, ReadsLine};

use crate::draft::Draft;
use crate::feeds::line_feeds;
use crate::script::Script;
use crate::statements::{LineFault, said_in};
use memchr::memchr;
use nm_types::{LineCause, NoMemory};
use std::alloc::Global;

fn without_return(line: &[u8]) -> &[u8]
    ensures { result.now ≡ strip_carriage_return line.now }
{
    match line.split_last() {
        Some((b'\r', front)) => front,
        _ => line,
    }
}

fn line_feed_in(bytes: &[u8]) -> Option<usize>
    ensures { result ≡ position is_line_feed bytes.now }
{
    memchr(b'\n', bytes)
}

/// The first line, and what follows it.
#[tactic(auto, using(crate::proofs::Cuts::cuts))]
pub fn first_line(bytes: &[u8]) -> (&[u8], &[u8])
    requires { 0 < length bytes.now }
    ensures lines { lines bytes.now ≡ result.0.now ∷ lines result.1.now }
    ensures shorter { length result.1.now < length bytes.now }
{
    match line_feed_in(bytes) {
        Some(n) => (without_return(&bytes[..n]), &bytes[n + 1..]),
        None => (bytes, &bytes[bytes.len()..]),
    }
}

/// Why a script was not read.
#[derive(Clone, Copy, Debug, PartialEq, Eq)]
pub enum ScriptFault {
    /// The first line that is no line of a script, counted from 1, and why.
    BadLine { line: u32, cause: LineCause },
    /// Out of memory.
    NoMemory,
}

impl From<NoMemory> for ScriptFault {
    ghost from_gives = { λ _ e. e ≡ OutOfMemory };

    fn from(_: NoMemory) -> Self {
        ScriptFault::NoMemory
    }
}

/// Whether bytes stand behind the last line feed.
fn is_open(bytes: &[u8]) -> bool
    ensures { result ≡ is_open bytes.now }
{
    !bytes.is_empty() && bytes[bytes.len() - 1] != b'\n'
}

/// How many lines a script has, silent ones too.
#[tactic(auto, using(crate::proofs::Counts::counts))]
pub fn line_count(bytes: &[u8]) -> usize
    ensures { result ≡ length (lines bytes.now) }
{
    let ends = line_feeds(bytes);
    if is_open(bytes) { ends + 1 } else { ends }
}

/// Adds a line, or says why it is bad.
#[tactic(auto, using(crate::proofs::Soundness::soundness))]
fn read_line<'a>(
    alloc: Global,
    draft: &mut Draft,
    words: &mut Vec<&'a [u8]>,
    at: u32,
    line: &'a [u8],
) -> Result<Option<LineCause>, NoMemory>
    ensures value { IfOk result
        (ReadsLine (after_line (draft_of draft.old) at line.now) (draft_of draft.new)) }
    ensures few { length draft.new.units.items ≤ length draft.old.units.items + 1 }
    ensures sound { IfOk result (λ cause. IfNone cause
        (IsSoundDraft (draft_of draft.old) → IsSoundDraft (draft_of draft.new))) }
{
    let said = match said_in(alloc, words, line) {
        Ok(said) => said,
        Err(LineFault::Bad { cause }) => return Ok(Some(cause)),
        Err(LineFault::NoMemory) => return Err(NoMemory),
    };
    let number = draft.number_for(&said);
    match draft.cause_of(number, &said) {
        Some(cause) => Ok(Some(cause)),
        None => {
            draft.add(at, number, said)?;
            Ok(None)
        }
    }
}

/// Reads a script.
#[tactic(auto, using(crate::proofs::Soundness::soundness))]
pub fn parse(alloc: Global, bytes: &[u8]) -> Result<Script, ScriptFault>
    requires { length bytes.now < 2 ^ 32 - 1 }
    ensures ok { IfOk result (λ script. script_of bytes.now ≡ Ok script) }
    ensures sound { IfOk result IsSound }
    ensures few { IfOk result (λ script. length script.units ≤ length (lines bytes.now)) }
    ensures bad { IfErr result (BlamesLine (script_of bytes.now)) }
{
    let mut draft = Draft::new(alloc);
    let mut words = Vec::new(alloc);
    let mut rest = bytes;
    let mut at = 1;
    while !rest.is_empty() {
        let (line, after) = first_line(rest);
        if let Some(cause) = read_line(alloc, &mut draft, &mut words, at, line)? {
            return Err(ScriptFault::BadLine { line: at, cause });
        }
        rest = after;
        at += 1;
    }
    match draft.finish() {
        Ok(script) => Ok(script),
        Err(line) => Err(ScriptFault::BadLine {
            line,
            cause: LineCause::Order,
        }),
    }
}
