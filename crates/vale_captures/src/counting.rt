//! How many frames a script puts, forwards and plays.
ghost use Rattle.std.specs.Prelude.{ℕ, List, ◌≡◌, ◌≤◌, ◌<◌, ◌^◌, length, sum_by, map, flat_map, Ok};
ghost use Rattle.std.specs.Str.Lines.{lines};
ghost use Rattle.std.specs.List.{AllByRecursion};
ghost use Rattle.vale_script.specs.Grammar.{script_of};
ghost use Rattle.vale_script.specs.Sound.{IsSoundAct};
ghost use Rattle.vale_replay.specs.Replay.{act_of};
ghost use Rattle.vale_replay.specs.Saved.{acts_of_unit};
ghost use Rattle.vale_captures.specs.Counting.{count_of, counts_of, frames_by, frames_played, CountsFew, PlaysFew};
ghost use Rattle.vale_captures.specs.Inputs.{records_in};

use crate::inputs::Inputs;
use vale_script::{Act, Line, Script, Unit};

/// The frames that a line puts, or forwards at most.
fn count_of(act: &Act) -> u64
    ensures { result ≡ count_of act.now }
{
    match act {
        Act::Put { count, .. } | Act::Fwd { count, .. } => *count as u64,
        _ => 0,
    }
}

/// The frames of the capture that a line plays.
fn frames_by(played: &Inputs, act: &Act) -> u64
    ensures { result ≡ frames_by played.now act.now }
{
    match act {
        Act::Play { file, .. } => played.records(file.as_str()).len() as u64,
        _ => 0,
    }
}

/// The frames that the lines of a block put or forward.
fn counts_in(lines: &[Line]) -> u64
    requires { sum_by count_of (map act_of lines.now) < 2 ^ 64 }
    ensures { result ≡ sum_by count_of (map act_of lines.now) }
{
    let mut count = 0;
    for line in lines {
        count += count_of(&line.act);
    }
    count
}

fn counts_by(unit: &Unit) -> u64
    requires { sum_by count_of (acts_of_unit unit.now) < 2 ^ 64 }
    ensures { result ≡ sum_by count_of (acts_of_unit unit.now) }
{
    match unit {
        Unit::Single { line } => count_of(&line.act),
        Unit::Block { lines } => counts_in(lines.as_slice()),
    }
}

/// The frames that the lines of a script put, and those that they forward at most. They are counted
/// as 64 bits hold.
pub fn counts_of(script: &Script) -> u64
    requires { counts_of script.now < 2 ^ 64 }
    ensures { result ≡ counts_of script.now }
{
    let mut count = 0;
    for unit in script.units() {
        count += counts_by(unit);
    }
    count
}

/// The frames of captures that the lines of a block play.
fn frames_in(played: &Inputs, lines: &[Line]) -> u64
    requires { sum_by (frames_by played.now) (map act_of lines.now) < 2 ^ 64 }
    ensures { result ≡ sum_by (frames_by played.now) (map act_of lines.now) }
{
    let mut count = 0;
    for line in lines {
        count += frames_by(played, &line.act);
    }
    count
}

fn frames_of_unit(played: &Inputs, unit: &Unit) -> u64
    requires { sum_by (frames_by played.now) (acts_of_unit unit.now) < 2 ^ 64 }
    ensures { result ≡ sum_by (frames_by played.now) (acts_of_unit unit.now) }
{
    match unit {
        Unit::Single { line } => frames_by(played, &line.act),
        Unit::Block { lines } => frames_in(played, lines.as_slice()),
    }
}

/// The frames of captures that the lines of a script play.
fn frames_by_lines(script: &Script, played: &Inputs) -> u64
    requires { frames_played script.now played.now < 2 ^ 64 }
    ensures { result ≡ frames_played script.now played.now }
{
    let mut count = 0;
    for unit in script.units() {
        count += frames_of_unit(played, unit);
    }
    count
}

/// The frames of captures that the lines of a script play: those of a file once for each line that
/// plays it, also those too long to be put.
pub fn frames_played(script: &Script, played: &Inputs) -> u64
    requires { frames_played script.now played.now < 2 ^ 64 }
    ensures { result ≡ frames_played script.now played.now }
{
    if played.is_empty() {
        return 0;
    }
    frames_by_lines(script, played)
}

/// A script of at most so many lines puts and forwards few frames.
pub fn counts_are_few()
    ensures { CountsFew }
{}

/// And it plays few frames of captures that have few bytes.
pub fn frames_are_few()
    ensures { PlaysFew }
{}
